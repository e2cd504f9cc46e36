// The steps of a node over lent memory.
#![tactic(auto)]

pub mod acted;
pub mod kernel;
pub mod message;
pub mod network;
pub mod section;
pub mod settling;
pub mod turn;
pub mod user;

ghost use Rattle.std.specs.Prelude.{◌≡◌};
ghost use Rattle.rules.specs.MemoryTest.{is_memory, step_memory, head_part, head_words, page_counts};
ghost use Rattle.rules.specs.Types.{operation_of};
ghost use Rattle.memory.specs.Answers.{Answers};
ghost use Rattle.node.specs.Counts.{counts_of};
ghost use Rattle.node.specs.Parts.{part_of};
ghost use Rattle.node.specs.Steps.{IsNode, Steps, Acts, Requests};

use crate::acted::Act;
use crate::message::Part;
use memory::map;
use rules::{Operation, Refusal, Report};
use validate::is_node;

// A step: any memory and any operation, an arrival's words lent beside it. D wipes the place of its message, and a page that goes from a frame
// or swap page wipes what it leaves, so a node has no old words after any step.
pub fn step(memory: &mut [u32], op: Operation, words: &[u32]) -> Report
    ensures { Answers memory.new result (step_memory memory.old (operation_of op words.now)) }
{
    let good = is_node(memory);
    step_known(memory, good, op, words)
}

// The words of the running group's first message as a part of the lent memory: empty if there is none or the memory is no node.
pub fn head(memory: &[u32]) -> &[u32]
    ensures { result.now ≡ head_words memory.now }
{
    if !is_node(memory) {
        return &memory[0..0];
    }
    message::head_of_node(memory)
}

// Where they stand, and how many they are.
pub fn head_part(memory: &[u32]) -> Part
    ensures { result ≡ part_of (head_part memory.now) }
{
    if !is_node(memory) {
        return Part { start: 0, len: 0 };
    }
    message::first(memory)
}

// Pages sent out and pages brought in so far.
#[derive(Clone, Copy)]
pub struct PageCounts {
    pub out: u32,
    pub brought: u32,
}

// These counts, zeros if the memory is no node.
pub fn page_counts(memory: &[u32]) -> PageCounts
    ensures { result ≡ counts_of (page_counts memory.now) }
{
    if !is_node(memory) {
        return PageCounts { out: 0, brought: 0 };
    }
    PageCounts {
        out: memory[map::OUT],
        brought: memory[map::BROUGHT],
    }
}

// A step on memory of which it is known whether it is a node.
pub fn step_known(memory: &mut [u32], good: bool, op: Operation, words: &[u32]) -> Report
    requires { is_memory memory.old ≡ good }
    ensures { Answers memory.new result (step_memory memory.old (operation_of op words.now)) }
{
    if !good {
        return Refusal::NotNode.into();
    }
    step_node(memory, op, words)
}

// A step on memory that holds a node, untested: it leaves one.
pub fn step_node(memory: &mut [u32], op: Operation, words: &[u32]) -> Report
    requires { IsNode memory.old }
    ensures { Steps memory.old memory.new (operation_of op words.now) result }
{
    match act(memory, op, words) {
        Ok(Act::Done(value)) => Report::accepted(value, 0, 0, 0),
        Ok(Act::Settles { trap, moved }) => settling::finish(
            memory,
            trap.map_or(0, |trap| trap as u32),
            moved,
        ),
        Ok(Act::Sends(to)) => user::send(memory, to),
        Err(refusal) => refusal.into(),
    }
}

// What comes before settling.
fn act(memory: &mut [u32], op: Operation, words: &[u32]) -> Result<Act, Refusal>
    requires { IsNode memory.old }
    ensures { Acts memory.old memory.new (operation_of op words.now) result }
{
    match op {
        Operation::Arrive(g) => network::arrive(memory, g, words),
        Operation::Schedule(g) => kernel::schedule(memory, g),
        Operation::Preempt => Ok(kernel::preempt(memory)),
        Operation::Dispatch(g) => kernel::dispatch(memory, g),
        Operation::Tick(k) => kernel::tick(memory, k),
        Operation::Turn => Ok(turn::turn(memory)),
        Operation::Unknown => Err(Refusal::Unreadable),
        _ => request(memory, op),
    }
}

// M to L: they belong to the running group.
fn request(memory: &mut [u32], op: Operation) -> Result<Act, Refusal>
    requires { IsNode memory.old }
    ensures { Requests memory.old memory.new op result }
{
    if memory[map::RUNNING] == 0 {
        return Err(Refusal::NobodyRuns);
    }
    match op {
        Operation::Poll => Ok(Act::Done(user::poll(memory))),
        Operation::Peek(i) => Ok(Act::Done(user::peek(memory, i)?)),
        Operation::Dispose => section::dispose(memory),
        Operation::BeginAtomic(force) => {
            section::begin(memory, force);
            Ok(Act::accepted())
        }
        Operation::EndAtomic => section::end(memory),
        Operation::Describe(w) => Ok(Act::Done(user::describe(memory, w)?)),
        Operation::Launch(k) => user::launchable(memory, k),
        _ => Err(Refusal::Unreadable),
    }
}
