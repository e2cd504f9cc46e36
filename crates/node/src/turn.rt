// C: whose turn it is, by the set of the groups with mail. The set is made where C asks for it and kept nowhere, so no other step pays for it.
ghost use Rattle.std.specs.Prelude.{◌≡◌, List, ℕ, ◌≤◌, ◌<◌};
ghost use Rattle.rules.specs.Build.{paper01, group_count};
ghost use Rattle.rules.specs.Node.{Node};
ghost use Rattle.rules.specs.Operation.{turn};
ghost use Rattle.rules.specs.Turn.{has_mail};
ghost use Rattle.rules.specs.Turns.{mail_set, by_bits};
ghost use Rattle.rules.specs.Valid.{Valid};
ghost use Rattle.memory.specs.Holds.{Holds};
ghost use Rattle.node.specs.Steps.{IsNode, Acts};

use super::acted::Act;
use super::network;
use memory::{group, map};

// Whether group g has mail: its buffer holds a message, or one of its messages is queued.
pub fn mail(m: &[u32], g: u32) -> bool
    requires le_g { (1 ≤ g) × (g ≤ group_count) }
    requires node { IsNode m.now }
    ensures { (n : Node) (r : List ℕ) → Holds m.now n r → Valid paper01 n → result ≡ has_mail n g }
{
    group::holds(m, g) || network::queued_of(m, g) > 0
}

// The groups with mail, bit g - 1 for group g.
pub fn mail_set(m: &[u32]) -> u32
    requires { IsNode m.now }
    ensures { (n : Node) (r : List ℕ) → Holds m.now n r → Valid paper01 n → result ≡ mail_set n }
{
    let mut set: u32 = 0;
    for g in (1..=memory::Node::GROUPS).rev() {
        set *= 2;
        if mail(m, g) {
            set += 1;
        }
    }
    set
}

// The first group of the set behind the running one, 0 if it is empty. Times 257 the set stands there twice, so shifted by the running group the
// lowest bit is that of the group after it, and the eighth its own.
pub fn next(set: u32, running: u32) -> u32
    requires { (set < 256) × (running ≤ group_count) }
    ensures { result ≡ by_bits set running }
{
    if set == 0 {
        return 0;
    }
    let shifted = (set * 257) >> running;
    (u32::trailing_zeros(shifted) + running) % memory::Node::GROUPS + 1
}

// C: nothing settles after it, and no upcall is due.
pub fn turn(m: &[u32]) -> Act
    requires { IsNode m.now }
    ensures { Acts m.now m.now turn (Ok result) }
{
    let g = next(mail_set(m), m[map::RUNNING]);
    Act::Done(g)
}
