// A script fed in portions of any size: whole lines are played and listed, and a line that has begun is kept for the next portion.
ghost use Rattle.std.specs.Prelude.{◌≡◌, not, [], ◌++◌, ◌≤◌, ◌<◌, length, take};
ghost use Rattle.rules.specs.Lists.{is_empty};
ghost use Rattle.script.specs.Feed.{kept_room, kept_line, Cut, LinesFeedable, LinesFed, BegunFed, FedTo};
ghost use Rattle.script.specs.Portions.{last_newline};
ghost use Rattle.script.specs.Read.{OneLine, line_of};

use crate::play::{Stop, play, play_text};
use crate::read::{NEWLINE, end_of_line};
use crate::write::{Counter, LINE_ROOM, put_text};
use validate::is_node;

// How many bytes of a line that has begun are kept: one more than a line may have, since a longer one can't be read whatever follows.
pub const KEPT: usize = 129;

// And a place for its newline.
pub const KEPT_LINE: usize = 130;

// What is carried from portion to portion: how many lines were played, and what is kept of the line that has begun.
#[derive(Clone, Copy)]
pub struct State {
    pub lines: u64,
    pub kept: [u8; KEPT_LINE],
    pub count: usize,
}

// What a portion came to: the state behind it, how many bytes of it were used, how many of the output were written, and why it stopped.
#[derive(Clone, Copy)]
pub struct Fed {
    pub state: State,
    pub used: usize,
    pub written: usize,
    pub stop: Stop,
}

impl State {
    // No line yet.
    pub fn new() -> State
        ensures { (result.lines ≡ 0) × (kept_line result ≡ []) }
    {
        State {
            lines: 0,
            kept: [0u8; KEPT_LINE],
            count: 0,
        }
    }

    // Whether a line has begun.
    pub fn begun(self) -> bool
        ensures { result ≡ not (is_empty (kept_line self)) }
    {
        let kept = self.kept;
        kept_count(&kept, self.count) > 0
    }
}

// A text behind what is kept, as far as there is room.
pub fn keep(kept: &mut [u8], count: usize, text: &[u8]) -> usize
    requires { (kept_room ≤ length kept.old) × (count ≤ kept_room) }
    ensures { (take result kept.new ≡ take kept_room (take count kept.old ++ text.now)) × (result ≤ kept_room) }
{
    let fits = text.len().min(KEPT - count);
    put_text(kept, count, &text[..fits])
}

// The position behind the last newline from a position on, or that position. By number, since a slice's iterator answers with a byte and a pointer,
// which a replay's page has elsewhere.
pub fn behind_last(s: &[u8], from: usize) -> usize
    requires { from ≤ length s.now }
    ensures { Cut s.now from result }
{
    for i in (from..s.len()).rev() {
        if s[i] == NEWLINE {
            return i + 1;
        }
    }
    from
}

// The whole lines of a portion from a position on, and what is kept of the line that has begun behind them.
fn feed_lines(
    memory: &mut [u32],
    good: bool,
    input: &[u8],
    start: usize,
    out: &mut [u8],
    at: usize,
    counter: &mut Counter,
    lines: u64,
) -> Fed
    requires { LinesFeedable memory.old good input.now start out.old at counter.old lines }
    ensures { LinesFed memory.old input.now start out.old at lines memory.new out.new result }
{
    let last = behind_last(input, start);
    let p = play(memory, good, &input[0..last], start, out, at, counter);
    if p.stop != Stop::AllUsed {
        return Fed {
            state: State {
                lines: lines + p.lines as u64,
                kept: [0u8; KEPT_LINE],
                count: 0,
            },
            used: p.used,
            written: p.at,
            stop: p.stop,
        };
    }
    let mut kept = [0u8; KEPT_LINE];
    let count = keep(&mut kept, 0, &input[last..]);
    Fed {
        state: State {
            lines: lines + p.lines as u64,
            kept,
            count,
        },
        used: input.len(),
        written: p.at,
        stop: Stop::AllUsed,
    }
}

// A portion behind a line that has begun: the line goes on in it, and if it ends there it is played from what is kept.
fn feed_begun(
    memory: &mut [u32],
    good: bool,
    state: State,
    input: &[u8],
    out: &mut [u8],
    counter: &mut Counter,
) -> Fed
    requires room { (state.count ≤ kept_room) × (kept_room < length state.kept) }
    requires one_line { OneLine (take state.count state.kept) }
    requires lines_feedable { LinesFeedable memory.old good input.now 0 out.old 0 counter.old state.lines }
    ensures { BegunFed memory.old (take state.count state.kept) state.lines input.now out.old memory.new out.new result }
{
    let lines = state.lines;
    let mut line = state.kept;
    let end = end_of_line(input, 0);
    let grown = keep(&mut line, state.count, &input[0..end]);
    if end == input.len() {
        return Fed {
            state: State {
                lines,
                kept: line,
                count: grown,
            },
            used: end,
            written: 0,
            stop: Stop::AllUsed,
        };
    }
    if out.len() < LINE_ROOM {
        return Fed {
            state,
            used: 0,
            written: 0,
            stop: Stop::NoRoom,
        };
    }
    let p = play_text(memory, good, &mut line, grown, out, counter);
    feed_lines(memory, good, input, end + 1, out, p.at, counter, lines + 1)
}

// How long the line is that a state keeps: a state made by hand may have any count, and a newline among its bytes.
pub fn kept_count(kept: &[u8], count: usize) -> usize
    requires { kept_room ≤ length kept.now }
    ensures { (result ≤ kept_room) × (take result kept.now ≡ line_of (take kept_room (take count kept.now))) }
{
    let all = count.min(KEPT);
    end_of_line(&kept[..all], 0)
}

// The next portion of a script: the lines that it completes are stepped on the memory and listed from the beginning of the output, and the line
// that has begun at its end is kept. Where the output has no room for one more line, the rest of the portion is for the next call; where fewer
// line numbers are left than the portion has bytes, nothing of it is used.
pub fn feed(memory: &mut [u32], state: State, input: &[u8], out: &mut [u8]) -> Fed
    ensures { FedTo memory.old state input.now out.old memory.new out.new result }
{
    let lines = state.lines;
    if u64::MAX - lines <= input.len() as u64 {
        return Fed {
            state,
            used: 0,
            written: 0,
            stop: Stop::LastNumber,
        };
    }
    let good = is_node(memory);
    let mut counter = Counter::new(lines);
    if state.count == 0 {
        return feed_lines(memory, good, input, 0, out, 0, &mut counter, lines);
    }
    let kept = state.kept;
    let count = kept_count(&kept, state.count);
    let begun = State { lines, kept, count };
    feed_begun(memory, good, begun, input, out, &mut counter)
}

// The script's end: a line that has begun is its last, and gets its newline.
pub fn feed_end(memory: &mut [u32], state: State, out: &mut [u8]) -> Fed
    ensures { FedTo memory.old state (last_newline state) out.old memory.new out.new result }
{
    if state.begun() {
        return feed(memory, state, b"\n", out);
    }
    feed(memory, state, b"", out)
}
