// The events of a batch sheet as plain values, and every reason for which a call is turned away.
#![tactic(auto)]

ghost use Rattle.std.specs.Prelude.{◌≡◌};
ghost use Rattle.history.specs.Refusals.{number as numbered};

mod laws;
mod shown;

pub use laws::{
    clocks_precede, clocks_stand, cuts_extend, load_places, orders_exist, ready_when_awaited,
    records_in_turn, steps_are_orders, words_follow,
};
pub use shown::Counts;

// What an event waits for: the first `count` events of `station`. Count 0 waits for nothing.
#[derive(Clone, Copy, PartialEq, Eq, Debug, Default)]
pub struct Wait {
    pub station: u8,
    pub count: u8,
}

// One event of a station: the variable that it sets, the value, and its wait.
#[derive(Clone, Copy, PartialEq, Eq, Debug, Default)]
pub struct Event {
    pub variable: u8,
    pub value: i32,
    pub wait: Wait,
}

// An event by its station and its number there, counted from 1.
#[derive(Clone, Copy, PartialEq, Eq, Debug)]
pub struct EventId {
    pub station: u8,
    pub number: u8,
}

// An event as a rule sees it: where it happened and what it set.
#[derive(Clone, Copy, PartialEq, Eq, Debug)]
pub struct Label {
    pub station: u8,
    pub variable: u8,
    pub value: i32,
}

// Why a call is turned away.
#[derive(Clone, Copy, Debug)]
pub enum Refusal {
    NotARunFile = 1,
    RunVersion = 2,
    StationCount = 3,
    PartialRecord = 4,
    NoSuchStation = 5,
    VariableRange = 6,
    StationFull = 7,
    AwaitedStation = 8,
    AwaitedCount = 9,
    NoSuchEvent = 10,
    NotARuleFile = 11,
    RuleVersion = 12,
    GuardList = 13,
    LineShape = 14,
    UnknownItem = 15,
    MissingOperand = 16,
    TooManyTemporalItems = 17,
    UnusedValue = 18,
    BadTable = 19,
    NoStates = 20,
    NoEvents = 21,
    TooManyConfigurations = 22,
    ScratchTooShort = 23,
    OrderTooShort = 24,
}

// A refusal with its place: a record's number, a byte's index or a length, else 0.
#[derive(Clone, Copy, Debug)]
pub struct Refused {
    pub refusal: Refusal,
    pub place: u16,
}

impl Refusal {
    // The number under which the refusal is answered.
    pub fn number(self) -> u8
        ensures { result ≡ numbered self }
    {
        self as u8
    }

    // The refusal with that place.
    pub fn at(self, place: u16) -> Refused
        ensures { result ≡ record { refusal = self; place = place } }
    {
        Refused {
            refusal: self,
            place,
        }
    }
}

// A refusal without a place of its own.
impl From<Refusal> for Refused {
    ghost from_gives = { λ why r. r ≡ record { refusal = why; place = 0 } };

    fn from(refusal: Refusal) -> Refused {
        refusal.at(0)
    }
}
