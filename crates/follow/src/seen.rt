// A script line stepped on lent memory, and what is seen of it: how many messages leave the hardware queue at it, and why.
ghost use Rattle.std.specs.Prelude.{◌≡◌, true, false, cond, not, ◌&&◌, List, ℕ, ◌+◌, ◌≤◌, eqb, length, drop, SomeIff};
ghost use Rattle.rules.specs.Lists.{is_empty};
ghost use Rattle.rules.specs.Memory.{node_at};
ghost use Rattle.rules.specs.MemoryTest.{is_memory};
ghost use Rattle.rules.specs.Run.{arrived_by};
ghost use Rattle.rules.specs.Types.{operation_of};
ghost use Rattle.reasons.specs.ByPlace.{own_reason};
ghost use Rattle.reasons.specs.Numbers.{reason_number};
ghost use Rattle.script.specs.Read.{line_end, line_of};
ghost use Rattle.follow.specs.Seen.{left_limit, left_of, Leaves, Arrival, ArrivalKnown, First, Later, Gone, Steppable, LineStepped};

use memory::map;
use node::step_known;
use reasons::Reason;
use rules::Operation;
use script::play::words_of;
use script::read::read_at;

// Those that leave the queue at a line, from the head on: how many, and by its number why the first of them does, and why those behind it do.
#[derive(Clone, Copy)]
pub struct Leaving {
    pub count: u64,
    pub first: u32,
    pub later: u32,
}

// What is seen of a line: where the next one begins, its answer, of an accepted arrival how many are queued after it, and those that leave the
// queue at it.
#[derive(Clone, Copy)]
pub struct Line {
    pub next: usize,
    pub answer: u32,
    pub queued: Option<u32>,
    pub leaving: Option<Leaving>,
}

impl Leaving {
    // Why one of them does, by how many leave ahead of it.
    pub fn reason_at(self, ahead: u64) -> u32
        ensures { result ≡ cond (eqb ahead 0) self.first self.later }
    {
        if ahead == 0 { self.first } else { self.later }
    }
}

// Whether a step is an accepted arrival.
fn is_arrival(op: Operation, accepted: bool) -> bool
    ensures { (ws : List ℕ) → result ≡ not (is_empty (arrived_by (operation_of op ws) accepted)) }
{
    match op {
        Operation::Arrive(_) => accepted,
        _ => false,
    }
}

// One leaves by disposal where the step is accepted and no trap is reported.
fn disposed(answer: u32, trap: u32) -> u64
    ensures { result ≡ cond (eqb answer 0 && eqb trap 0) 1 0 }
{
    u64::from(answer == 0 && trap == 0)
}

// How many leave the queue: those moved, and one that is disposed of there.
fn left_by(op: Operation, answer: u32, trap: u32, moved: u32) -> u64
    ensures { Leaves op (eqb answer 0 && eqb trap 0) moved result × (result ≤ left_limit) }
{
    match op {
        Operation::Dispose => moved as u64 + disposed(answer, trap),
        _ => moved as u64,
    }
}

// Why a message of group g moved at its own line: its group doesn't run, or older ones wait in its buffer, or it was revoked.
fn own_reason(memory: &[u32], g: u32) -> Reason
    requires { Arrival memory.now g }
    ensures { reason_number result ≡ own_reason (node_at memory.now) g }
{
    if g != memory[map::RUNNING] {
        Reason::NotRunning
    } else if map::group_word(memory, g, map::COUNT) > 1 {
        Reason::OlderWaiting
    } else {
        Reason::Revoked
    }
}

// Why the first leaves, where one does.
fn first_reason(memory: &[u32], op: Operation, left: u64) -> Option<Reason>
    requires { ArrivalKnown memory.now op left }
    ensures { First memory.now op left result }
{
    if left == 0 {
        return None;
    }
    match op {
        Operation::Arrive(g) => Some(own_reason(memory, g)),
        Operation::Schedule(_) | Operation::Preempt => Some(Reason::ProcessorTaken),
        Operation::Tick(_) => Some(Reason::Timeout),
        Operation::Dispose => Some(Reason::DisposedOf),
        _ => None,
    }
}

// Why those behind it leave.
fn later_reason(op: Operation) -> Reason
    ensures { Later op result }
{
    match op {
        Operation::Tick(_) => Reason::Timeout,
        _ => Reason::NotRunning,
    }
}

// Those that leave, where some do.
fn gone(memory: &[u32], op: Operation, left: u64) -> Option<Leaving>
    requires { ArrivalKnown memory.now op left }
    ensures { Gone memory.now op left result × (left_of result ≤ left) }
{
    let first = first_reason(memory, op, left)?;
    Some(Leaving {
        count: left,
        first: first as u32,
        later: later_reason(op) as u32,
    })
}

// How many are queued after an accepted arrival.
fn queued_after(memory: &[u32], arrival: bool) -> Option<u32>
    requires { arrival ≡ true → is_memory memory.now ≡ true }
    ensures { SomeIff result (arrival ≡ true) (length (node_at memory.now).queue) }
{
    if arrival {
        Some(memory[map::QUEUED])
    } else {
        None
    }
}

// The line at a position, read and stepped, with what is seen of it.
pub fn step_line(memory: &mut [u32], good: bool, s: &[u8], from: usize, fields: &mut [u32]) -> Line
    requires { Steppable memory.old good s.now from fields.old }
    ensures { LineStepped memory.old (line_of (drop from s.now)) (line_end s.now from + 1) memory.new result }
{
    let l = read_at(s, from, fields);
    let op = l.op;
    let count = l.count;
    let r = step_known(memory, good, op, words_of(fields, count));
    let accepted = r.answer == 0;
    let arrival = is_arrival(op, accepted);
    let left = left_by(op, r.answer, r.trap, r.moved);
    Line {
        next: l.next,
        answer: r.answer,
        queued: queued_after(memory, arrival),
        leaving: gone(memory, op, left),
    }
}
