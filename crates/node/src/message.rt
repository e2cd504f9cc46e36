// The running group's first message, where it stands: in its first frame while its buffer holds one, else at the head of the queue.
ghost use Rattle.node.specs.Steps.{IsNode};
ghost use Rattle.node.specs.Parts.{FirstPart, FirstWords};

use memory::map;

// A part of the memory.
#[derive(Clone, Copy)]
pub struct Part {
    pub start: usize,
    pub len: usize,
}

// The words of that message, an empty part if there is none.
pub fn first(m: &[u32]) -> Part
    requires { IsNode m.now }
    ensures { FirstPart m.now result }
{
    let g = m[map::RUNNING];
    if g == 0 {
        return Part { start: 0, len: 0 };
    }
    if map::group_word(m, g, map::COUNT) != 0 {
        let frame = map::group_word(m, g, map::LIST);
        let used = map::group_word(m, g, map::USED);
        let at = map::place_at(frame, used);
        return Part {
            start: at + 1,
            len: m[at] as usize,
        };
    }
    if m[map::QUEUED] != 0 {
        return Part {
            start: map::QUEUE_AT + 2,
            len: m[map::QUEUE_AT + 1] as usize,
        };
    }
    Part { start: 0, len: 0 }
}

// The same words as a part of the lent memory.
pub fn head_of_node(m: &[u32]) -> &[u32]
    requires { IsNode m.now }
    ensures { FirstWords m.now result.now }
{
    let p = first(m);
    let start = p.start;
    let end = start + p.len;
    &m[start..end]
}
