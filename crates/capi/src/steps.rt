// Steps by letter.
ghost use Rattle.std.proofs.Math.Option.{some};
ghost use Rattle.std.specs.Prelude.{◌≡◌, get_or};
ghost use Rattle.rules.specs.MemoryTest.{step_memory};
ghost use Rattle.rules.specs.Script.{operation_of};
ghost use Rattle.memory.specs.Answers.{Answers};
ghost use Rattle.capi.specs.Told.{Reports};

use crate::report::{REPORT, put_report};
use node::step;
use rules::Report;
use script::play::words_of;
use script::read::operation;

// A step: the operation by its letter and its numbers; those of an arrival are the group and the words.
pub fn fugu_step(memory: &mut [u32], letter: u8, arguments: &[u32], report: &mut [u32]) -> u32
    ensures { Reports memory.old report.old (step_memory memory.old (operation_of letter (some arguments.now))) memory.new report.new result }
{
    if report.len() < REPORT as usize {
        return 0;
    }
    let stepped = step_by_letter(memory, letter, arguments);
    put_report(report, stepped);
    REPORT
}

// A step, with its report as it is.
fn step_by_letter(memory: &mut [u32], letter: u8, arguments: &[u32]) -> Report
    ensures { Answers memory.new result (step_memory memory.old (operation_of letter (some arguments.now))) }
{
    let count = arguments.len();
    let op = operation(letter, count, first_of(arguments));
    step(memory, op, words_of(arguments, count))
}

// The first number, 0 where there is none. By its index: `first()` answers a byte and a pointer in one value, which stands elsewhere in memory on
// the machine of a replay's page.
fn first_of(numbers: &[u32]) -> u32
    ensures { result ≡ get_or numbers.now 0 0 }
{
    if numbers.is_empty() { 0 } else { numbers[0] }
}
