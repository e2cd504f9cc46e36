// Steps by script line.
ghost use Rattle.rules.specs.MemoryTest.{step_memory};
ghost use Rattle.rules.specs.Script.{read_line};
ghost use Rattle.capi.specs.Told.{Reports};

use crate::report::{REPORT, put_report};
use script::line;

// A script line, without its newline.
pub fn fugu_line(memory: &mut [u32], text: &[u8], report: &mut [u32]) -> u32
    ensures { Reports memory.old report.old (step_memory memory.old (read_line text.now)) memory.new report.new result }
{
    if report.len() < REPORT as usize {
        return 0;
    }
    let played = line(memory, text);
    put_report(report, played);
    REPORT
}
