// The numbers of the lines whose messages are queued, from the head on.
ghost use Rattle.std.specs.Prelude.{◌≡◌, cond, [], ◌∷◌, ◌++◌, ◌+◌, ◌≤◌, ◌<◌, eqb, ltb, length, take, drop, Some};
ghost use Rattle.rules.specs.Build.{paper01};
ghost use Rattle.reasons.specs.Follow.{tellings, telling_lines};
ghost use Rattle.script.specs.Written.{Appended};
ghost use Rattle.follow.specs.Seen.{reasons_of};
ghost use Rattle.follow.specs.Waiting.{lines_room, LineTellable, LineTold};

use crate::seen::{Leaving, Line};
use crate::text::put_why;
use memory::map::PLACES;

// How many wait, and the end of what was written.
#[derive(Clone, Copy)]
pub struct Waiting {
    pub count: usize,
    pub end: usize,
}

// An accepted arrival joins them, while there is a place.
fn join(waiting: &mut [u64], count: usize, i: u64, arrival: bool) -> usize
    requires { (length waiting.old ≡ paper01.places) × (count ≤ paper01.places) }
    ensures { (take result waiting.new ≡ take paper01.places (take count waiting.old ++ cond arrival (i ∷ []) [])) × (result ≤ paper01.places) }
{
    if !arrival {
        return count;
    }
    if count == PLACES {
        return count;
    }
    waiting[count] = i;
    count + 1
}

// Those at the head leave.
fn leave(waiting: &mut [u64], count: usize, left: u64) -> usize
    requires { (count ≤ length waiting.old) × (count ≤ paper01.places) }
    ensures { (take result waiting.new ≡ drop left (take count waiting.old)) × (result ≤ count) }
{
    if left >= count as u64 {
        return 0;
    }
    let n = left as usize;
    for k in 0..count - n {
        waiting[k] = waiting[k + n];
    }
    count - n
}

// How many of those that wait leave.
pub fn fewer(count: usize, left: u64) -> usize
    ensures { result ≡ cond (ltb left count) left count }
{
    left.min(count as u64) as usize
}

// The lines of those that leave in line i, of all that wait.
pub fn put_left(out: &mut [u8], at: usize, waiting: &[u64], i: u64, gone: Leaving) -> usize
    requires { (at + lines_room ≤ length out.old) × (length waiting.now ≤ paper01.places) }
    ensures { Appended out.old at out.new result (telling_lines (tellings i waiting.now (reasons_of (Some gone)))) × (result ≤ at + lines_room) }
{
    let n = fewer(waiting.len(), gone.count);
    let mut end = at;
    for k in 0..n {
        end = put_why(out, end, waiting[k], gone.reason_at(k as u64), i);
    }
    end
}

// Line i: its message joins, and of those that leave it is told why.
pub fn tell_line(
    waiting: &mut [u64],
    count: usize,
    i: u64,
    l: Line,
    out: &mut [u8],
    at: usize,
) -> Waiting
    requires { LineTellable waiting.old count out.old at }
    ensures { LineTold waiting.old count i l out.old at waiting.new out.new result }
{
    let n = join(waiting, count, i, l.queued.is_some());
    match l.leaving {
        Some(gone) => {
            let end = put_left(out, at, &waiting[..n], i, gone);
            Waiting {
                count: leave(waiting, n, gone.count),
                end,
            }
        }
        None => Waiting { count: n, end: at },
    }
}
