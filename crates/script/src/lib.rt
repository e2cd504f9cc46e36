// Scripts and listings: a line read, its report written, whole lines played on lent memory, and a script fed in portions.
#![tactic(auto)]

pub mod feed;
pub mod play;
pub mod read;
pub mod write;

ghost use Rattle.rules.specs.MemoryTest.{step_memory};
ghost use Rattle.rules.specs.Script.{read_line};
ghost use Rattle.memory.specs.Answers.{Answers};

use crate::read::FIELDS;
use node::step;
use rules::Report;

// One script line, without its newline, on lent memory: what is no node is refused first, then a line that cannot be read.
pub fn line(memory: &mut [u32], text: &[u8]) -> Report
    ensures { Answers memory.new result (step_memory memory.old (read_line text.now)) }
{
    let mut fields = [0u32; FIELDS];
    let l = read::read(text, &mut fields);
    let op = l.op;
    let count = l.count;
    step(memory, op, play::words_of(&fields, count))
}
