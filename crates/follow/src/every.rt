// Every message followed through the hardware queue by the numbers of the lines whose messages wait, and told of as it leaves.
ghost use Rattle.std.specs.Prelude.{◌≡◌, [], ◌+◌, ◌≤◌, length, take};
ghost use Rattle.reasons.specs.Follow.{tell_queued, telling_lines};
ghost use Rattle.script.specs.Feed.{kept_line};
ghost use Rattle.follow.specs.Every.{waiting_of, portion_told, Tellable, LinesTold, ToldTo, FinishedTo};
ghost use Rattle.follow.specs.Waiting.{lines_room};
ghost use Rattle.script.specs.Written.{Appended};
ghost use Rattle.script.specs.declared.play.Stop.TheVariants.{AllUsed};

use crate::portion::next;
use crate::seen::Leaving;
use crate::text::WHY_ROOM;
use crate::waiting::{fewer, put_left, tell_line};
use memory::map::PLACES;
use reasons::Reason;
use script::feed;
use script::feed::{KEPT_LINE, behind_last, keep, kept_count};
use script::play::Stop;
use script::read::FIELDS;
use validate::is_node;

// The room for the lines of as many messages as the queue has places.
pub const LINES_ROOM: usize = PLACES * WHY_ROOM;

// What is carried from portion to portion: the script so far, and the lines whose messages wait, from the head on.
#[derive(Clone, Copy)]
pub struct State {
    pub script: feed::State,
    pub waiting: [u64; PLACES],
    pub count: usize,
}

// What a portion came to: the state behind it, how many bytes of it were used, how many of the output were written, and why it stopped.
#[derive(Clone, Copy)]
pub struct Told {
    pub state: State,
    pub used: usize,
    pub written: usize,
    pub stop: Stop,
}

// What the script's end came to: how many bytes of the output were written, and why it stopped.
#[derive(Clone, Copy)]
pub struct End {
    pub written: usize,
    pub stop: Stop,
}

// How far lines are told: the position behind those used, how many there were, how long the line is that is kept, how many messages wait, the end
// of what was written, and why it stopped.
#[derive(Clone, Copy)]
struct Lines {
    used: usize,
    lines: u64,
    kept: usize,
    count: usize,
    end: usize,
    stop: Stop,
}

impl State {
    // No line yet.
    pub fn new() -> State
        ensures { (result.script.lines ≡ 0) × ((kept_line result.script ≡ []) × (waiting_of result ≡ [])) }
    {
        let script = feed::State::new();
        State {
            script,
            waiting: [0u64; PLACES],
            count: 0,
        }
    }
}

// Whole lines, the first of which goes on from what is kept, while the output has room.
fn tell_lines(
    memory: &mut [u32],
    good: bool,
    kept: &mut [u8],
    begun: usize,
    whole: &[u8],
    lines: u64,
    waiting: &mut [u64],
    count: usize,
    out: &mut [u8],
) -> Lines
    requires { Tellable memory.old good kept.old begun whole.now lines waiting.old count }
    ensures { LinesTold memory.old (take begun kept.old) whole.now lines (take count waiting.old) out.old memory.new kept.new waiting.new out.new result }
{
    let mut fields = [0u32; FIELDS];
    let mut r = Lines {
        used: 0,
        lines,
        kept: begun,
        count,
        end: 0,
        stop: Stop::AllUsed,
    };
    while r.used < whole.len() {
        if out.len() - r.end < LINES_ROOM {
            r.stop = Stop::NoRoom;
            break;
        }
        let l = next(memory, good, kept, r.kept, whole, r.used, &mut fields);
        let i = r.lines + 1;
        let w = tell_line(waiting, r.count, i, l, out, r.end);
        r = Lines {
            used: l.next,
            lines: i,
            kept: 0,
            count: w.count,
            end: w.end,
            stop: Stop::AllUsed,
        };
    }
    r
}

// What a portion came to whose lines were told, with what is kept behind them.
fn portion_told(
    r: Lines,
    kept: [u8; KEPT_LINE],
    count: usize,
    waiting: [u64; PLACES],
    used: usize,
) -> Told
    ensures { result ≡ portion_told r kept count waiting used }
{
    Told {
        state: State {
            script: feed::State {
                lines: r.lines,
                kept,
                count,
            },
            waiting,
            count: r.count,
        },
        used,
        written: r.end,
        stop: r.stop,
    }
}

// The next portion of a script: the lines that it completes are stepped on the memory, and of each message that leaves the queue at them it is told why,
// from the beginning of the output. Where the output has no room for as many messages as the queue has places, the rest of the portion is for
// the next call; where fewer line numbers are left than the portion has bytes, nothing of it is used.
pub fn tell(memory: &mut [u32], state: State, input: &[u8], out: &mut [u8]) -> Told
    ensures { ToldTo memory.old state input.now out.old memory.new out.new result }
{
    let script = state.script;
    let lines = script.lines;
    if u64::MAX - lines <= input.len() as u64 {
        return Told {
            state,
            used: 0,
            written: 0,
            stop: Stop::LastNumber,
        };
    }
    let good = is_node(memory);
    let mut kept = script.kept;
    let begun = kept_count(&kept, script.count);
    let mut waiting = state.waiting;
    let count = fewer(state.count, PLACES as u64);
    let last = behind_last(input, 0);
    let r = tell_lines(
        memory,
        good,
        &mut kept,
        begun,
        &input[0..last],
        lines,
        &mut waiting,
        count,
        out,
    );
    if r.stop != Stop::AllUsed {
        return portion_told(r, kept, r.kept, waiting, r.used);
    }
    let grown = keep(&mut kept, r.kept, &input[last..]);
    portion_told(r, kept, grown, waiting, input.len())
}

// Of those that wait it is told that they are still queued.
fn put_queued(state: State, out: &mut [u8], at: usize) -> End
    requires { at + lines_room ≤ length out.old }
    ensures { Appended out.old at out.new result.written (telling_lines (tell_queued state.script.lines (waiting_of state))) × (result.stop ≡ AllUsed) }
{
    let script = state.script;
    let waiting = state.waiting;
    let count = fewer(state.count, PLACES as u64);
    let queued = Leaving {
        count: PLACES as u64,
        first: Reason::StillQueued as u32,
        later: Reason::StillQueued as u32,
    };
    End {
        written: put_left(out, at, &waiting[..count], script.lines, queued),
        stop: Stop::AllUsed,
    }
}

// The script's end: a line that has begun is its last, as if it had its newline, and of the messages that are still queued it is told so.
pub fn finish(memory: &mut [u32], state: State, out: &mut [u8]) -> End
    ensures { FinishedTo memory.old state out.old memory.new out.new result }
{
    if out.len() < 2 * LINES_ROOM {
        return End {
            written: 0,
            stop: Stop::NoRoom,
        };
    }
    let script = state.script;
    if script.begun() {
        let t = tell(memory, state, b"\n", out);
        if t.stop != Stop::AllUsed {
            return End {
                written: 0,
                stop: t.stop,
            };
        }
        let after = t.state;
        return put_queued(after, out, t.written);
    }
    put_queued(state, out, 0)
}
