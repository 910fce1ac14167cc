// Laws of the definitions, each on a function with nothing to compute.
ghost use Rattle.history.specs.Clocks.{ClocksStand};
ghost use Rattle.history.specs.Cuts.{CutsExtend, OrdersExist, ClocksPrecede, ReadyWhenAwaited, StepsAreOrders};
ghost use Rattle.history.specs.RunFiles.{LoadPlaces, RecordsInTurn};
ghost use Rattle.history.specs.Words.{WordsFollow};

// In a history made by notes each event has exactly one clock, of eight counts, which is closed under awaiting.
pub fn clocks_stand()
    ensures { ClocksStand }
{}

// A load notes its records one after another, and answers the first that is refused, with its number.
pub fn records_in_turn()
    ensures { RecordsInTurn }
{}

// The place of a load's refusal is at most 513.
pub fn load_places()
    ensures { LoadPlaces }
{}

// Every closed cut of a history made by notes is passed by a compatible order.
pub fn cuts_extend()
    ensures { CutsExtend }
{}

// Every history made by notes has a compatible order.
pub fn orders_exist()
    ensures { OrdersExist }
{}

// An event comes earlier than another in every compatible order exactly when it lies within the other's clock.
pub fn clocks_precede()
    ensures { ClocksPrecede }
{}

// At a closed cut the next event of a station is ready exactly when all that it awaits is done.
pub fn ready_when_awaited()
    ensures { ReadyWhenAwaited }
{}

// The sequences of ready events from the empty cut to the full one are exactly the compatible orders.
pub fn steps_are_orders()
    ensures { StepsAreOrders }
{}

// The word of an order has at each position the label of the event that stands there.
pub fn words_follow()
    ensures { WordsFollow }
{}
