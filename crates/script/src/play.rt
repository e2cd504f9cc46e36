// Lines of a script played on lent memory: each read to its operation, stepped, and listed.
ghost use Rattle.std.specs.Prelude.{◌≡◌, ◌-◌, ◌≤◌, length, take, drop};
ghost use Rattle.script.specs.Play.{LinePlayable, LinePlayed, TextPlayable, TextPlayed, Playable, PlayedTo};

use crate::read::{FIELDS, NEWLINE};
use crate::write::Counter;
use crate::{read, write};
use node::step_known;

// Why playing stopped: all was used, the output has no room for one more line, or fewer line numbers are left than there are bytes. C is told
// which by its number.
#[derive(Clone, Copy, PartialEq, Eq, Debug)]
pub enum Stop {
    AllUsed,
    NoRoom,
    LastNumber,
}

// How far a play came: the position behind what was used, the end of what was written, how many lines were played, and why it stopped.
#[derive(Clone, Copy)]
pub struct Played {
    pub used: usize,
    pub at: usize,
    pub lines: usize,
    pub stop: Stop,
}

// The words of an arrival: the fields behind the first.
pub fn words_of(fields: &[u32], count: usize) -> &[u32]
    requires { count ≤ length fields.now }
    ensures { result.now ≡ take (count - 1) (drop 1 fields.now) }
{
    if count == 0 {
        return &fields[0..0];
    }
    &fields[1..count]
}

// One line from a position on: read, stepped and listed.
fn play_line(
    memory: &mut [u32],
    good: bool,
    s: &[u8],
    from: usize,
    fields: &mut [u32],
    out: &mut [u8],
    at: usize,
    counter: &mut Counter,
) -> Played
    requires { LinePlayable memory.old good s.now from fields.old out.old at counter.old }
    ensures { LinePlayed memory.old s.now from out.old at counter.old memory.new out.new counter.new result }
{
    let l = read::read_at(s, from, fields);
    let op = l.op;
    let count = l.count;
    let r = step_known(memory, good, op, words_of(fields, count));
    counter.next();
    let end = write::put_line(out, at, counter, r);
    Played {
        used: l.next,
        at: end,
        lines: 1,
        stop: Stop::AllUsed,
    }
}

// Whole lines from a position on, while the output has room.
pub fn play(
    memory: &mut [u32],
    good: bool,
    s: &[u8],
    from: usize,
    out: &mut [u8],
    at: usize,
    counter: &mut Counter,
) -> Played
    requires { Playable memory.old good s.now from out.old at counter.old }
    ensures { PlayedTo memory.old s.now from out.old at counter.old memory.new out.new counter.new result }
{
    let mut fields = [0u32; FIELDS];
    let mut p = Played {
        used: from,
        at,
        lines: 0,
        stop: Stop::AllUsed,
    };
    while p.used < s.len() {
        if out.len() - p.at < write::LINE_ROOM {
            p.stop = Stop::NoRoom;
            break;
        }
        let lines = p.lines + 1;
        p = play_line(memory, good, s, p.used, &mut fields, out, p.at, counter);
        p.lines = lines;
    }
    p
}

// A line kept apart: it gets its newline, and is played as any text is, so that the step has one place in the code.
pub fn play_text(
    memory: &mut [u32],
    good: bool,
    text: &mut [u8],
    count: usize,
    out: &mut [u8],
    counter: &mut Counter,
) -> Played
    requires { TextPlayable memory.old good text.old count out.old counter.old }
    ensures { TextPlayed memory.old (take count text.old) out.old counter.old memory.new out.new counter.new result }
{
    text[count] = NEWLINE;
    play(memory, good, &text[0..count + 1], 0, out, 0, counter)
}
