// Pages between frames and swap space.
ghost use Rattle.std.specs.Prelude.{◌≡◌, [], ◌∷◌, ◌+◌, ◌≤◌, ◌<◌, length, SomeIff};
ghost use Rattle.rules.specs.Build.{paper01, page_count, group_count};
ghost use Rattle.rules.specs.Memory.{word, group_address, frame_address, running_at, held_offset};
ghost use Rattle.rules.specs.Paging.{traded, more, resident, prepared, runner_resident};
ghost use Rattle.rules.specs.Sound.{Sound};
ghost use Rattle.memory.specs.Writes.{Wrote, InGroup};
ghost use Rattle.memory.specs.Holds.{Some, Becomes};
ghost use Rattle.memory.specs.Paging.{ListTraded, Traded, Listing, PageMoved, PagesSwapped, Crowded, Chosen, Sending, Away, Fetching, Exchanging, Owned, Wanting, sending, bringing};

use super::lines::Line;
use super::{Node, frames, map, words};

// Number p for q, and q for p.
pub fn traded(x: u32, p: u32, q: u32) -> u32
    ensures { result ≡ traded p q x }
{
    if x == p {
        q
    } else if x == q {
        p
    } else {
        x
    }
}

// The same in the list of group g; by number, since a slice's iterator answers with a byte and a pointer, which a replay's page has elsewhere.
#[tactic(auto, unfolding(rules::specs::Memory::group_address))]
pub fn trade_list(m: &mut [u32], g: u32, p: u32, q: u32)
    requires in_group { InGroup m.old g held_offset }
    requires held_offset_bound { word m.old (group_address g + held_offset) ≤ page_count paper01 }
    ensures { ListTraded m.old m.new p q g }
{
    let k = map::group_word(m, g, map::HELD) as usize;
    let at = map::group_at(g) + map::LIST;
    for i in at..at + k {
        m[i] = traded(m[i], p, q);
    }
}

// And in the lists of all groups.
pub fn trade(m: &mut [u32], p: u32, q: u32)
    requires { Listing m.old }
    ensures { Traded m.old m.new p q group_count }
{
    for g in 1..=Node::GROUPS {
        trade_list(m, g, p, q);
    }
}

// Where page p stands.
#[tactic(auto, unfolding(rules::specs::Memory::frame_address))]
pub fn page_at(p: u32) -> usize
    requires { p < page_count paper01 }
    ensures { result ≡ frame_address p }
{
    map::FRAMES_AT + map::FRAME_STRIDE * (p as usize)
}

// The page in p is copied to q, and is there from now on; what it leaves is wiped.
pub fn move_page(m: &mut [u32], p: u32, q: u32)
    requires p_bound { (p < page_count paper01) × (q < page_count paper01) }
    requires listing { Listing m.old }
    ensures { PageMoved m.old m.new p q }
{
    let from = page_at(p);
    let to = page_at(q);
    words::copy(m, to, from, map::FRAME_STRIDE);
    words::clear(m, from, map::FRAME_STRIDE);
    trade(m, p, q);
}

// The pages in f and p, which is behind it, trade places.
#[tactic(auto, unfolding(rules::specs::Memory::frame_address))]
pub fn swap_pages(m: &mut [u32], f: u32, p: u32)
    requires f_lt_p { (f < p) × (p < page_count paper01) }
    requires listing { Listing m.old }
    ensures { PagesSwapped m.old m.new f p }
{
    let a = page_at(f);
    let b = page_at(p);
    words::swap(m, a, b, map::FRAME_STRIDE);
    trade(m, f, p);
}

// One more, staying at the last number once there.
#[tactic(auto, unfolding(rules::specs::Paging::more))]
pub fn more(k: u32) -> u32
    ensures { result ≡ more k }
{
    k.saturating_add(1)
}

// The count at address `at` is one more.
pub fn count(m: &mut [u32], at: usize)
    requires { at < length m.old }
    ensures { Wrote m.old m.new at (more (word m.old at) ∷ []) }
{
    m[at] = more(m[at]);
}

// The running group, where one runs and has a page.
fn paged_runner(m: &[u32]) -> Option<u32>
    requires { Some m.now (Sound paper01) }
    ensures { let g = word m.now running_at in SomeIff result ((1 ≤ g) × (1 ≤ word m.now (group_address g + held_offset))) g }
{
    let g = m[map::RUNNING];
    if g == 0 || map::group_word(m, g, map::HELD) == 0 {
        None
    } else {
        Some(g)
    }
}

// The page to send out: the one that has been in a frame longest, but for the running group's first page.
pub fn victim(m: &[u32]) -> u32
    requires { Some m.now Crowded }
    ensures { Chosen m.now result }
{
    let first = m[map::ENTERED_AT];
    match paged_runner(m) {
        Some(g) if map::group_word(m, g, map::LIST) == first => m[map::ENTERED_AT + 1],
        _ => first,
    }
}

// It is sent out: its page goes to the front of the swap line, and its frame, wiped, joins the free line.
pub fn send_out(m: &mut [u32])
    requires { Some m.old Sending }
    ensures { Becomes m.old m.new Sending sending }
{
    let f = victim(m);
    frames::depart(m, f);
    count(m, map::OUT);
    let s = Line::SWAP.leave(m, 0);
    move_page(m, f, s);
    Line::FREE.join(m, f);
}

// The page in swap page p comes into the front of the free line, and p, wiped, joins the swap line.
pub fn fetch(m: &mut [u32], p: u32)
    requires { Some m.old (Fetching p) }
    ensures { Becomes m.old m.new (Fetching p) (bringing p) }
{
    let front = m[map::FREE_AT];
    frames::enter(m, front);
    count(m, map::BROUGHT);
    Line::FREE.leave(m, 0);
    move_page(m, p, front);
    Line::SWAP.join(m, p);
}

// Where no frame is free, it trades places with the page to send out: nothing is wiped, since neither place is left without a page.
pub fn exchange(m: &mut [u32], p: u32)
    requires { Some m.old (Exchanging p) }
    ensures { Becomes m.old m.new (Exchanging p) (bringing p) }
{
    let f = victim(m);
    frames::depart(m, f);
    frames::enter(m, f);
    count(m, map::OUT);
    count(m, map::BROUGHT);
    swap_pages(m, f, p);
}

// The page in swap page p is brought in: p is wiped, unless it takes the page to send out.
pub fn bring_in(m: &mut [u32], p: u32)
    requires { Some m.old (Away p) }
    ensures { Becomes m.old m.new (Away p) (bringing p) }
{
    if m[map::FREE_COUNT] > 0 {
        fetch(m, p);
    } else {
        exchange(m, p);
    }
}

// Page p is in a frame from now on.
pub fn resident(m: &mut [u32], p: u32)
    requires { Some m.old (Owned p) }
    ensures { Becomes m.old m.new (Owned p) (resident paper01 p) }
{
    if Node::FRAMES <= p {
        bring_in(m, p);
    }
}

// What a message for group g needs before it is written: its page in a frame, or a free frame where it begins a page.
pub fn prepare(m: &mut [u32], g: u32)
    requires le_g { (1 ≤ g) × (g ≤ group_count) }
    requires some { Some m.old (Wanting g) }
    ensures { Becomes m.old m.new (Wanting g) (prepared paper01 g) }
{
    let end = map::group_word(m, g, map::USED) + map::group_word(m, g, map::COUNT);
    if end < Node::PER_FRAME * map::group_word(m, g, map::HELD) {
        let last = map::group_word(m, g, map::LIST + (end / Node::PER_FRAME) as usize);
        resident(m, last);
    } else if m[map::FREE_COUNT] == 0 {
        send_out(m);
    }
}

// The running group's first page is in a frame from now on.
pub fn runner_resident(m: &mut [u32])
    requires { Some m.old (Sound paper01) }
    ensures { Becomes m.old m.new (Sound paper01) (runner_resident paper01) }
{
    if let Some(g) = paged_runner(m) {
        let p = map::group_word(m, g, map::LIST);
        resident(m, p);
    }
}
