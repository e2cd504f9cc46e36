// A report as words.
ghost use Rattle.std.specs.Prelude.{◌++◌, ◌≡◌, ◌≤◌, length, drop};
ghost use Rattle.memory.specs.Writes.{Wrote};
ghost use Rattle.capi.specs.Told.{report_room, report_words};

use memory::words::put_eight;
use rules::Report;

// How many words they are.
pub const REPORT: u32 = 16;

// A report's words at the beginning of a part.
pub fn put_report(part: &mut [u32], r: Report)
    requires { report_room ≤ length part.old }
    ensures { part.new ≡ report_words r ++ drop report_room part.old }
{
    part[0] = r.answer;
    part[1] = r.value;
    part[2] = r.trap;
    part[3] = r.upcall;
    part[4] = r.moved;
    let s = r.sent;
    part[5] = s.node;
    part[6] = s.group;
    part[7] = s.len;
    put_words(part, s.words);
}

// The words that were sent, behind the first eight of the report. That they are eight is told too: of an array in a struct it isn't known.
fn put_words(part: &mut [u32], words: [u32; 8])
    requires { report_room ≤ length part.old }
    ensures { Wrote part.old part.new 8 words × (length words ≡ 8) }
{
    put_eight(part, 8, words);
}
