// Why a message left the hardware queue, or why nothing is told of a line.
#![tactic(auto)]

ghost use Rattle.std.specs.Prelude.{◌≡◌};
ghost use Rattle.reasons.specs.Numbers.{untold_number};

// The reasons. `as u32` gives the number of each.
#[derive(Clone, Copy, PartialEq, Eq, Debug)]
pub enum Reason {
    DisposedOf = 1,
    StillQueued = 2,
    NotRunning = 3,
    OlderWaiting = 4,
    Revoked = 5,
    Timeout = 6,
    ProcessorTaken = 7,
}

// Why nothing is told: the memory is no node, or the line can't be read, or it is no accepted arrival or not in the script.
#[derive(Clone, Copy, PartialEq, Eq, Debug)]
pub enum Untold {
    NotNode = 1,
    Unreadable = 2,
    NoArrival = 17,
}

// The number of each.
impl From<Untold> for u32 {
    ghost from_gives = { λ refusal number. number ≡ untold_number refusal };

    fn from(refusal: Untold) -> u32 {
        refusal as u32
    }
}
