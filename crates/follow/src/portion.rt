// The lines of a portion, one after the other. What has begun before it goes on in its first.
ghost use Rattle.std.specs.Prelude.{◌++◌, ◌+◌, take, drop};
ghost use Rattle.script.specs.Read.{line_end, line_of};
ghost use Rattle.follow.specs.Seen.{LineStepped};
ghost use Rattle.follow.specs.Portion.{Goes};

use crate::seen::{Line, step_line};
use script::feed::keep;
use script::read::{NEWLINE, end_of_line};

// The line that goes on at a position of whole lines. Where none has begun it is stepped where it stands; else it is stepped from what is kept.
pub fn next(
    memory: &mut [u32],
    good: bool,
    kept: &mut [u8],
    count: usize,
    whole: &[u8],
    at: usize,
    fields: &mut [u32],
) -> Line
    requires { Goes memory.old good kept.old count whole.now at fields.old }
    ensures { LineStepped memory.old (take count kept.old ++ line_of (drop at whole.now)) (line_end whole.now at + 1) memory.new result }
{
    if count == 0 {
        return step_line(memory, good, whole, at, fields);
    }
    let end = end_of_line(whole, at);
    let grown = keep(kept, count, &whole[at..end]);
    kept[grown] = NEWLINE;
    let mut l = step_line(memory, good, kept, 0, fields);
    l.next = end + 1;
    l
}
