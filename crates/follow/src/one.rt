// One message followed through the hardware queue by its place, line after line.
ghost use Rattle.std.specs.Prelude.{◌≡◌, [], ◌+◌, ◌≤◌, ◌<◌, take};
ghost use Rattle.reasons.specs.Follow.{Seen, unfollowed, moved_up, picked_up, follow_line, told_at};
ghost use Rattle.reasons.specs.Numbers.{untold_number};
ghost use Rattle.reasons.specs.Why.{untold};
ghost use Rattle.script.specs.Feed.{kept_line};
ghost use Rattle.follow.specs.Seen.{Sees, left_limit, left_of, reasons_of};
ghost use Rattle.follow.specs.One.{told_of, place_of, followed_of, left_in, LinesFollowed, FollowedTo, Finished};
ghost use Rattle.follow.specs.Portion.{LinesAhead};

use crate::portion::next;
use crate::seen::Line;
use reasons::{Reason, Untold};
use rules::Refusal;
use script::feed;
use script::feed::{behind_last, keep, kept_count};
use script::read::FIELDS;
use validate::is_node;

// What is told of a line: 0, the reason's number and the line that it names; or the number of the refusal.
#[derive(Clone, Copy)]
pub struct Told {
    pub answer: u32,
    pub reason: u32,
    pub line: u64,
}

// A refusal's number, and zeros.
impl From<Untold> for Told {
    ghost from_gives = { λ refusal t. told_of t ≡ untold (untold_number refusal) };

    fn from(refusal: Untold) -> Told {
        Told {
            answer: u32::from(refusal),
            reason: 0,
            line: 0,
        }
    }
}

// How many messages are queued ahead of the one that is followed, while there is one; and what is told so far.
#[derive(Clone, Copy)]
pub struct Followed {
    pub ahead: Option<u64>,
    pub told: Told,
}

// What is carried from portion to portion: the script so far, the number of the line wanted, and its message.
#[derive(Clone, Copy)]
pub struct State {
    pub script: feed::State,
    pub wanted: u64,
    pub followed: Followed,
}

// Lines followed: how many there were, how long the line is that is kept, and the message.
#[derive(Clone, Copy)]
struct Lines {
    lines: u64,
    count: usize,
    followed: Followed,
}

impl State {
    // No line yet.
    pub fn new(wanted: u64) -> State
        ensures { (result.script.lines ≡ 0) × ((kept_line result.script ≡ []) × ((result.wanted ≡ wanted) × (followed_of result.followed ≡ unfollowed))) }
    {
        State {
            script: feed::State::new(),
            wanted,
            followed: Followed {
                ahead: None,
                told: Told::from(Untold::NoArrival),
            },
        }
    }
}

// At the line wanted: an accepted arrival was the last in the queue before any left.
fn picked_up(f: Followed, l: Line) -> Followed
    requires { left_of l.leaving ≤ left_limit }
    ensures { (s : Seen) → Sees l s → followed_of result ≡ picked_up s (followed_of f) }
{
    if l.answer == Refusal::Unreadable as u32 {
        return Followed {
            ahead: None,
            told: Told::from(Untold::Unreadable),
        };
    }
    let left = l.leaving.map_or(0, |leaving| leaving.count);
    match l.queued {
        Some(queued) => Followed {
            ahead: (queued as u64 + left).checked_sub(1),
            told: f.told,
        },
        None => f,
    }
}

// In line i the messages at the queue's head leave, and those behind them move up.
fn moved_up(i: u64, f: Followed, l: Line) -> Followed
    ensures { followed_of result ≡ moved_up i (told_of f.told) (place_of f.ahead) (reasons_of l.leaving) }
{
    let Some(leaving) = l.leaving else { return f };
    let Some(ahead) = f.ahead else { return f };
    match ahead.checked_sub(leaving.count) {
        Some(ahead) => Followed {
            ahead: Some(ahead),
            told: f.told,
        },
        None => left_in(i, leaving.reason_at(ahead)),
    }
}

// A message that left in line i.
fn left_in(i: u64, reason: u32) -> Followed
    ensures { result ≡ left_in i reason }
{
    Followed {
        ahead: None,
        told: Told {
            answer: 0,
            reason,
            line: i,
        },
    }
}

// Line i.
fn follow_line(wanted: u64, i: u64, f: Followed, l: Line) -> Followed
    requires { left_of l.leaving ≤ left_limit }
    ensures { (s : Seen) → Sees l s → followed_of result ≡ follow_line wanted i (followed_of f) s }
{
    let followed = if i == wanted { picked_up(f, l) } else { f };
    moved_up(i, followed, l)
}

// Whole lines, the first of which goes on from what is kept.
fn follow_lines(
    memory: &mut [u32],
    good: bool,
    kept: &mut [u8],
    count: usize,
    whole: &[u8],
    lines: u64,
    wanted: u64,
    followed: Followed,
) -> Lines
    requires { LinesAhead memory.old good kept.old count whole.now lines }
    ensures { LinesFollowed memory.old (take count kept.old) whole.now lines wanted followed memory.new kept.new result }
{
    let mut fields = [0u32; FIELDS];
    let mut at = 0;
    let mut r = Lines {
        lines,
        count,
        followed,
    };
    while at < whole.len() {
        let l = next(memory, good, kept, r.count, whole, at, &mut fields);
        at = l.next;
        let i = r.lines + 1;
        r = Lines {
            lines: i,
            count: 0,
            followed: follow_line(wanted, i, r.followed, l),
        };
    }
    r
}

// The next portion of a script: the lines that it completes are stepped on the memory and followed, and the line that has begun at its end is kept.
// Where fewer line numbers are left than the portion has bytes, nothing of it is used.
pub fn follow(memory: &mut [u32], state: State, input: &[u8]) -> State
    ensures { FollowedTo memory.old state input.now memory.new result }
{
    let script = state.script;
    let lines = script.lines;
    if u64::MAX - lines <= input.len() as u64 {
        return state;
    }
    let good = is_node(memory);
    let mut kept = script.kept;
    let begun = kept_count(&kept, script.count);
    let last = behind_last(input, 0);
    let r = follow_lines(
        memory,
        good,
        &mut kept,
        begun,
        &input[0..last],
        lines,
        state.wanted,
        state.followed,
    );
    let count = keep(&mut kept, r.count, &input[last..]);
    State {
        script: feed::State {
            lines: r.lines,
            kept,
            count,
        },
        wanted: state.wanted,
        followed: r.followed,
    }
}

// What is told at the script's end: a message still queued names the last line.
fn told_at(last: u64, f: Followed) -> Told
    ensures { told_of result ≡ told_at last (followed_of f) }
{
    match f.ahead {
        None => f.told,
        Some(_) => Told {
            answer: 0,
            reason: Reason::StillQueued as u32,
            line: last,
        },
    }
}

// The script's end: a line that has begun is its last, as if it had its newline.
pub fn finish(memory: &mut [u32], state: State) -> Told
    ensures { Finished memory.old state memory.new result }
{
    let script = state.script;
    if script.begun() {
        let ended = follow(memory, state, b"\n");
        told_at(ended.script.lines, ended.followed)
    } else {
        told_at(script.lines, state.followed)
    }
}
