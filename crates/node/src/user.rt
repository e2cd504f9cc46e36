// The operations of the running group that neither take a message nor touch its flags: M and E read its first message, P and L its
// descriptor. Nothing settles after them, and no upcall is due.
ghost use Rattle.std.specs.Prelude.{List, ◌≡◌, ℕ, Ok};
ghost use Rattle.rules.specs.Operation.{poll, peek, describe, launch};
ghost use Rattle.rules.specs.Types.{report_of};
ghost use Rattle.memory.specs.Descriptors.{descriptor_of};
ghost use Rattle.memory.specs.Holds.{Some};
ghost use Rattle.node.specs.Sending.{sending};
ghost use Rattle.node.specs.Steps.{IsRunning, ActsFor, Launched, Launches, Serves};

use super::acted::Act;
use super::message;
use memory::descriptor::Descriptor;
use memory::{Node, descriptor, map};
use rules::{Refusal, Report, Sent};

// M: how many words the running group's first message has.
pub fn poll(m: &[u32]) -> u32
    requires { IsRunning m.now }
    ensures { Serves m.now m.now poll (Ok result) }
{
    let p = message::first(m);
    p.len as u32
}

// E: word i of that message, read where it stands.
pub fn peek(m: &[u32], i: u32) -> Result<u32, Refusal>
    requires { IsRunning m.now }
    ensures { Serves m.now m.now (peek i) result }
{
    let p = message::first(m);
    if p.len == 0 {
        return Err(Refusal::NoMessage);
    }
    let at = i as usize;
    if p.len <= at {
        return Err(Refusal::PastMessage);
    }
    let start = p.start;
    Ok(m[start + at])
}

// P: a word joins the running group's descriptor.
pub fn describe(m: &mut [u32], w: u32) -> Result<u32, Refusal>
    requires { IsRunning m.old }
    ensures { Serves m.old m.new (describe w) result }
{
    let g = m[map::RUNNING];
    let d = descriptor::read(m, g);
    if Node::WORDS <= d.len {
        return Err(Refusal::DescriptorFull);
    }
    let next = d.described(w);
    descriptor::write(m, g, next);
    Ok(next.len)
}

// L, before it is accepted: whether the running group's descriptor may be sent to this node. `send` sends it.
pub fn launchable(m: &[u32], to: u32) -> Result<Act, Refusal>
    requires { IsRunning m.now }
    ensures { ActsFor m.now m.now (launch to) result }
{
    let d = descriptor::read(m, m[map::RUNNING]);
    if d.len == 0 {
        return Err(Refusal::DescriptorEmpty);
    }
    if Node::LAST_NODE < to {
        return Err(Refusal::BadNode);
    }
    Ok(Act::Sends(to))
}

// What is reported of a descriptor that group g sends.
fn sent(to: u32, g: u32, d: Descriptor) -> Report
    ensures { (ws : List ℕ) → d ≡ descriptor_of ws → result ≡ report_of (sending to g ws) }
{
    let words = d.words;
    let sent = Sent {
        node: to,
        group: g,
        len: d.len,
        words,
    };
    Report {
        answer: 0,
        value: d.len,
        trap: 0,
        upcall: 0,
        moved: 0,
        sent,
    }
}

// L, once it is accepted: the running group's descriptor is sent, and emptied.
pub fn send(m: &mut [u32], to: u32) -> Report
    requires { Some m.old (Launches to) }
    ensures { Launched m.old m.new to result }
{
    let g = m[map::RUNNING];
    let d = descriptor::read(m, g);
    descriptor::write(m, g, d.launched());
    sent(to, g, d)
}
