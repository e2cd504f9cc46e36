// Power-on.
ghost use Rattle.rules.specs.MemoryTest.{power_on_memory};
ghost use Rattle.capi.specs.Told.{Reports};

use crate::report::{REPORT, put_report};
use memory::Node;

// Power-on: any memory that is long enough becomes a node.
pub fn fugu_power_on(memory: &mut [u32], report: &mut [u32]) -> u32
    ensures { Reports memory.old report.old (power_on_memory memory.old) memory.new report.new result }
{
    if report.len() < REPORT as usize {
        return 0;
    }
    let started = Node::power_on(memory);
    put_report(report, started);
    REPORT
}
