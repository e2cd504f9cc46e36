// The types that the contracts of the node speak of.
#![tactic(auto)]

ghost use Rattle.std.specs.Prelude.{◌≡◌};
ghost use Rattle.rules.specs.Numbers.{refusal_number};
ghost use Rattle.rules.specs.Operation.{accepted_with, refused};
ghost use Rattle.rules.specs.Types.{report_of};

// An operation of the table. The words of an arrival are lent beside it.
#[derive(Clone, Copy)]
pub enum Operation {
    Arrive(u32),
    Schedule(u32),
    Preempt,
    Dispatch(u32),
    Tick(u32),
    Turn,
    Poll,
    Peek(u32),
    Dispose,
    // whether it turns force on
    BeginAtomic(bool),
    EndAtomic,
    Describe(u32),
    Launch(u32),
    Unknown,
}

// Why a step is refused. `as u32` gives the number that a report has for it.
#[derive(Clone, Copy, PartialEq, Eq, Debug)]
pub enum Refusal {
    NotNode = 1,
    Unreadable = 2,
    BadGroup = 3,
    BadWords = 4,
    QueueFull = 5,
    NoFrames = 6,
    NobodyRuns = 7,
    NoMessage = 8,
    PastMessage = 9,
    StillPending = 10,
    DescriptorFull = 11,
    DescriptorEmpty = 12,
    BadNode = 13,
    BadSchedule = 14,
    BadTicks = 15,
    AlreadyRuns = 16,
}

// What an accepted step may bring beside its effect. `as u32` gives the number that a report has for it.
#[derive(Clone, Copy, PartialEq, Eq, Debug)]
pub enum Trap {
    DisposeExtend = 1,
    AtomicityExtend = 2,
    TimedOut = 3,
}

// What an accepted launch sends: the words past len are 0. All 0 where nothing is sent.
#[derive(Clone, Copy)]
pub struct Sent {
    pub node: u32,
    pub group: u32,
    pub len: u32,
    pub words: [u32; 8],
}

impl Sent {
    const NOTHING: Sent = Sent {
        node: 0,
        group: 0,
        len: 0,
        words: [0; 8],
    };
}

// What a step tells. Its answer is 0 where the step is accepted, else the number of the refusal; its trap is 0 where there is none.
#[derive(Clone, Copy)]
pub struct Report {
    pub answer: u32,
    pub value: u32,
    pub trap: u32,
    pub upcall: u32,
    pub moved: u32,
    pub sent: Sent,
}

impl Report {
    // An accepted step that sends nothing.
    pub fn accepted(value: u32, trap: u32, upcall: u32, moved: u32) -> Report
        ensures { result ≡ report_of (accepted_with value trap upcall moved) }
    {
        Report {
            answer: 0,
            value,
            trap,
            upcall,
            moved,
            sent: Sent::NOTHING,
        }
    }

    // A refused step's number, and zeros.
    pub fn refused(answer: u32) -> Report
        ensures { result ≡ report_of (refused answer) }
    {
        Report {
            answer,
            value: 0,
            trap: 0,
            upcall: 0,
            moved: 0,
            sent: Sent::NOTHING,
        }
    }
}

impl From<Refusal> for Report {
    ghost from_gives = { λ refusal report. report ≡ report_of (refused (refusal_number refusal)) };

    fn from(refusal: Refusal) -> Report {
        Report::refused(refusal as u32)
    }
}

// The sizes of a build.
#[derive(Clone, Copy)]
pub struct Build {
    pub frames: u32,
    pub swap: u32,
    pub per_frame: u32,
    pub places: u32,
    pub timeout: u32,
}

// The limits that every build shares.
#[derive(Clone, Copy)]
pub struct Limits {
    pub groups: u32,
    pub words: u32,
    pub last_node: u32,
    pub tick_limit: u32,
}
