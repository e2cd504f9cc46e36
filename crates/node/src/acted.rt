// What an accepted operation has done of its step. So one place settles after all of them, and one makes the report.
ghost use Rattle.std.specs.Prelude.{◌≡◌};
ghost use Rattle.node.specs.Steps.{done};

use rules::Trap;

#[derive(Clone, Copy)]
pub enum Act {
    // All of it, with this value to report.
    Done(u32),
    // What comes before settling, with the trap that it brings, and so many messages moved.
    Settles { trap: Option<Trap>, moved: u32 },
    // Nothing yet: the running group's descriptor is to be sent to this node.
    Sends(u32),
}

impl Act {
    // There is nothing to do.
    pub fn accepted() -> Act
        ensures { result ≡ done 0 }
    {
        Act::Done(0)
    }
}
