// What a call answers, and how an answer is written in a script.
ghost use Rattle.std.specs.Prelude.{◌≡◌, Some, MatchResult};
ghost use Rattle.replay.specs.Answers.{answer_words};
ghost use Rattle.replay.specs.declared.answer.Answer.TheVariants.{Done, YesNo, Number, Clock, Refused as RefusedBy};

use history::{Counts, Refused};
use std::fmt;

#[derive(Drop)]
pub enum Answer {
    Done,
    YesNo(bool),
    Number(u16),
    Clock(Counts),
    Refused(Refused),
    // The call is known, and its words are not what it takes.
    Unreadable,
}

impl fmt::Display for Answer {
    ghost output = { λ a. Some (answer_words a) };

    fn fmt<W: fmt::Write>(&self, f: &mut fmt::Formatter<W>) -> fmt::Result {
        match self {
            Answer::Done => f.write_str("ok"),
            Answer::YesNo(true) => f.write_str("yes"),
            Answer::YesNo(false) => f.write_str("no"),
            Answer::Number(number) => write!(f, "{number}"),
            Answer::Clock(counts) => write!(f, "{counts}"),
            Answer::Refused(why) => write!(f, "{why}"),
            Answer::Unreadable => f.write_str("unreadable"),
        }
    }
}

impl From<()> for Answer {
    ghost from_gives = { λ _ a. a ≡ Done };

    fn from(_done: ()) -> Answer {
        Answer::Done
    }
}

impl From<bool> for Answer {
    ghost from_gives = { λ yes a. a ≡ YesNo yes };

    fn from(yes: bool) -> Answer {
        Answer::YesNo(yes)
    }
}

impl From<u16> for Answer {
    ghost from_gives = { λ n a. a ≡ Number n };

    fn from(number: u16) -> Answer {
        Answer::Number(number)
    }
}

impl From<Counts> for Answer {
    ghost from_gives = { λ counts a. a ≡ Clock counts };

    fn from(counts: Counts) -> Answer {
        Answer::Clock(counts)
    }
}

impl<T: Into<Answer>> From<Result<T, Refused>> for Answer {
    ghost from_gives = { λ r a. MatchResult r (λ found. T.Into.converts found a) (λ why. a ≡ RefusedBy why) };

    fn from(answer: Result<T, Refused>) -> Answer {
        match answer {
            Ok(found) => found.into(),
            Err(why) => Answer::Refused(why),
        }
    }
}
