// The clauses on the frames and swap pages, and on what is in them.
ghost use Rattle.std.specs.Prelude.{◌≡◌, true, ℕ, ◌+◌, ◌-◌, ◌≤◌, ◌<◌, eqb, length};
ghost use Rattle.rules.specs.Lists.{all, up_from};
ghost use Rattle.rules.specs.Build.{paper01, page_count, group_count};
ghost use Rattle.rules.specs.Memory.{size, swap_count_at, place_stride, word, place_at, node_at};
ghost use Rattle.rules.specs.MemoryTest.{zero_at, frame_wiped, idle_are_wiped};
ghost use Rattle.rules.specs.Valid.{is_waiting, frame_numbers, frame_order, stands_once};
ghost use Rattle.validate.specs.Clauses.{list_start, list_count, list_numbers, listed, pages_once, entered_once, swap_page, waiting_in, waiting_good, used_up_wiped, behind_wiped, places_good, numbers_good, frames_good};
ghost use Rattle.validate.specs.Known.{Counted, Paged, Framed};

use crate::{GROUPS_END, PAGE_COUNT};
use memory::Node;
use memory::map::{
    COUNT, ENTERED_AT, ENTERED_COUNT, FRAME_STRIDE, FREE_AT, FREE_COUNT, HELD, LINE, LIST, PAGES,
    PLACE_STRIDE, SWAP_AT, SWAP_COUNT, USED, WORDS, group_at, group_word, place_at,
};
use memory::paging::page_at;
use memory::words::zeros;

// Masks: eight that leave nothing of a word, then eight that leave all of it. The eight from WORDS - len on hide the first len words of a message.
const PAST: [u32; 16] = [
    0,
    0,
    0,
    0,
    0,
    0,
    0,
    0,
    u32::MAX,
    u32::MAX,
    u32::MAX,
    u32::MAX,
    u32::MAX,
    u32::MAX,
    u32::MAX,
    u32::MAX,
];

// The lists of page numbers: the order of entry, the free line, the swap line, then the groups', that of group g being list g + SWAP_LIST.
// Numbers and no enum, since the walks below go over a run of them.
const ENTERED_LIST: u32 = 0;

const FREE_LIST: u32 = 1;

const SWAP_LIST: u32 = 2;

// How many they are.
const LISTS: u32 = 11;

// Where list l begins.
#[tactic(auto, unfolding(rules::specs::Memory::group_address, crate::specs::Clauses::list_start))]
fn list_at(l: u32) -> usize
    requires { l < 11 }
    ensures { result ≡ list_start l }
{
    match l {
        ENTERED_LIST => ENTERED_AT,
        FREE_LIST => FREE_AT,
        SWAP_LIST => SWAP_AT,
        _ => group_at(l - SWAP_LIST) + LIST,
    }
}

// How many numbers list l has.
#[tactic(auto, unfolding(rules::specs::Memory::word, crate::specs::Clauses::list_count))]
fn list_count(m: &[u32], l: u32) -> u32
    requires size_in_bounds { size ≤ length m.now }
    requires l_bound { l < 11 }
    ensures { result ≡ list_count m.now l }
{
    match l {
        ENTERED_LIST => m[ENTERED_COUNT],
        FREE_LIST => m[FREE_COUNT],
        SWAP_LIST => m[SWAP_COUNT],
        _ => group_word(m, l - SWAP_LIST, HELD),
    }
}

// How many numbers the lists from one up to another, which is not looked at, have in all.
fn count_all(m: &[u32], from: u32, to: u32) -> u32
    requires counted { Counted m.now }
    requires from_le_to { (from ≤ to) × (to ≤ 11) }
    ensures { result ≡ length (listed m.now from (to - from)) }
{
    let mut total: u32 = 0;
    for l in from..to {
        total += list_count(m, l);
    }
    total
}

// Each number below the limit stands once in the lists from one up to another, which have as many numbers as the limit says: the walk over
// the lists and their numbers is left at the first that is not below the limit or was met before.
fn frames_once(m: &[u32], from: u32, to: u32, limit: usize) -> bool
    requires counted { Counted m.now }
    requires from_le_to { (from ≤ to) × ((to ≤ 11) × (limit ≤ 96)) }
    requires from_len { length (listed m.now from (to - from)) ≡ limit }
    ensures { all (stands_once (listed m.now from (to - from))) (up_from 0 limit) ≡ result }
{
    let mut seen = [0u32; PAGES];
    'lists: {
        for l in from..to {
            let at = list_at(l);
            let count = list_count(m, l) as usize;
            for i in 0..count {
                let f = m[at + i] as usize;
                if f >= limit || seen[f] != 0 {
                    break 'lists false;
                }
                seen[f] = 1;
            }
        }
        true
    }
}

// The free line, the swap line and the groups' lists have 96 pages in all.
fn pages_all(m: &[u32]) -> bool
    requires { Counted m.now }
    ensures { eqb (length (frame_numbers (node_at m.now))) 96 ≡ result }
{
    count_all(m, FREE_LIST, LISTS) == PAGE_COUNT
}

// "each frame stands once, in the free line or in one list", and so each swap page, in its line or in one list
fn pages_once(m: &[u32]) -> bool
    requires counted { Counted m.now }
    requires m_len { length (frame_numbers (node_at m.now)) ≡ 96 }
    ensures { pages_once m.now ≡ result }
{
    frames_once(m, FREE_LIST, LISTS, PAGES)
}

// The swap line holds swap pages: the least of its numbers, found with no branch that depends on one, is no frame's.
#[tactic(auto, unfolding(rules::specs::Memory::word))]
fn swap_pages(m: &[u32]) -> bool
    requires { Counted m.now }
    ensures { all (swap_page m.now) (up_from 0 (word m.now swap_count_at)) ≡ result }
{
    let count = m[SWAP_COUNT] as usize;
    let mut least = Node::FRAMES;
    for i in 0..count {
        least = least.min(m[SWAP_AT + i]);
    }
    least >= Node::FRAMES
}

// The order of entry and the free line have 32 frames in all.
fn entered_all(m: &[u32]) -> bool
    requires { Counted m.now }
    ensures { eqb (length (frame_order (node_at m.now))) 32 ≡ result }
{
    count_all(m, ENTERED_LIST, SWAP_LIST) == Node::FRAMES
}

// "this order holds each frame in use once": each frame stands once, in it or in the free line
fn entered_once(m: &[u32]) -> bool
    requires counted { Counted m.now }
    requires m_len { length (frame_order (node_at m.now)) ≡ 32 }
    ensures { entered_once m.now ≡ result }
{
    frames_once(m, ENTERED_LIST, SWAP_LIST, LINE)
}

// The frame or swap page whose number stands at address a is 0.
#[tactic(auto, unfolding(rules::specs::Memory::word, rules::specs::Memory::frame_address, rules::specs::MemoryTest::frame_wiped))]
fn page_wiped(m: &[u32], a: usize) -> bool
    requires a_in_bounds { (size ≤ length m.now) × (a < size) }
    requires a_value { word m.now a < page_count paper01 }
    ensures { frame_wiped m.now (word m.now a) ≡ result }
{
    zeros(m, page_at(m[a]), FRAME_STRIDE)
}

// Each frame or swap page of list l is 0.
fn list_wiped(m: &[u32], l: u32) -> bool
    requires { Paged m.now l }
    ensures { all (frame_wiped m.now) (list_numbers m.now l) ≡ result }
{
    let at = list_at(l);
    let count = list_count(m, l) as usize;
    (at..at + count).all(|a| page_wiped(m, a))
}

// "a word or kept length other than 0 that is no part of a waiting message" is in none that no buffer holds.
fn idle_wiped(m: &[u32]) -> bool
    requires { (l : ℕ) → 1 ≤ l → l < 11 → Paged m.now l }
    ensures { idle_are_wiped m.now ≡ result }
{
    list_wiped(m, FREE_LIST) && list_wiped(m, SWAP_LIST)
}

// Of the eight words from address a on, those past the first len are 0: the | of all eight is, each under its mask. No branch depends on the
// length or on a word.
fn past_zero(m: &[u32], a: usize, len: usize) -> bool
    requires a_in_bounds { a + 8 ≤ length m.now }
    requires len_bound { len ≤ 8 }
    ensures { zero_at m.now (a + len) (8 - len) ≡ result }
{
    let mut sum: u32 = 0;
    for j in 0..WORDS {
        sum |= m[a + j] & PAST[WORDS - len + j];
    }
    sum == 0
}

// A message waits in the place at address a: its length is 1 to 8, and the words past it are 0.
fn place_waiting(m: &[u32], a: usize) -> bool
    requires { a + place_stride ≤ length m.now }
    ensures { is_waiting (place_at m.now a) ≡ result }
{
    let len = m[a];
    len != 0 && len <= Node::WORDS && past_zero(m, a + 1, len as usize)
}

// The same of place i of page f.
#[tactic(auto, unfolding(rules::specs::Memory::frame_address, crate::specs::Clauses::waiting_in))]
fn waiting_in(m: &[u32], f: u32, i: u32) -> bool
    requires { (size ≤ length m.now) × ((f < page_count paper01) × (i < paper01.per_frame)) }
    ensures { waiting_in m.now f i ≡ result }
{
    place_waiting(m, place_at(f, i))
}

// The same of a page's places from one up to another, which is not looked at.
fn places_waiting(m: &[u32], f: u32, from: u32, to: u32) -> bool
    requires { (size ≤ length m.now) × ((f < page_count paper01) × ((from ≤ to) × (to ≤ paper01.per_frame))) }
    ensures { all (waiting_in m.now f) (up_from from (to - from)) ≡ result }
{
    (from..to).all(|i| waiting_in(m, f, i))
}

// Of so many places from a page's first on, how many are the page's.
fn in_frame(places: u32) -> u32
    ensures { (result ≤ places) × ((result ≤ paper01.per_frame) × (places ≤ result + (places - paper01.per_frame))) }
{
    places.min(Node::PER_FRAME)
}

// "waiting messages' lengths"; "a waiting message's words past its length are 0": of those in the buffer of group g, page by page, so that a page's
// number is read once and not for each of its places. It is a loop, since `all` over the pages takes 6 instructions more in a hundred of the test.
fn waiting_good(m: &[u32], g: u32) -> bool
    requires { Framed m.now g }
    ensures { waiting_good m.now g ≡ result }
{
    let used = group_word(m, g, USED);
    let end = used + group_word(m, g, COUNT);
    let mut p = used;
    while p < end {
        let f = group_word(m, g, LIST + (p / Node::PER_FRAME) as usize);
        let from = p % Node::PER_FRAME;
        let first = p - from;
        let to = in_frame(end - first);
        if !places_waiting(m, f, from, to) {
            return false;
        }
        p = first + to;
    }
    true
}

// "a word or kept length other than 0 that is no part of a waiting message" is in none of the used-up places of the buffer of group g: the first of
// its first page.
fn used_up_wiped(m: &[u32], g: u32) -> bool
    requires { Framed m.now g }
    ensures { used_up_wiped m.now g ≡ result }
{
    let used = group_word(m, g, USED);
    if used == 0 {
        return true;
    }
    let f = group_word(m, g, LIST);
    zeros(m, page_at(f), PLACE_STRIDE * (used as usize))
}

// Nor in those behind its last message: the last of its last page.
fn behind_wiped(m: &[u32], g: u32) -> bool
    requires { Framed m.now g }
    ensures { behind_wiped m.now g ≡ result }
{
    let end = group_word(m, g, USED) + group_word(m, g, COUNT);
    let place = end % Node::PER_FRAME;
    if place == 0 {
        return true;
    }
    let f = group_word(m, g, LIST + (end / Node::PER_FRAME) as usize);
    let left = Node::PER_FRAME - place;
    zeros(m, place_at(f, place), PLACE_STRIDE * (left as usize))
}

// All places of the buffer of group g: where a message waits, and where none does.
#[tactic(auto, unfolding(crate::specs::Clauses::places_good))]
fn places_good(m: &[u32], g: u32) -> bool
    requires { Framed m.now g }
    ensures { places_good m.now g ≡ result }
{
    waiting_good(m, g) && used_up_wiped(m, g) && behind_wiped(m, g)
}

// Those of all buffers.
fn all_places_good(m: &[u32]) -> bool
    requires { (g : ℕ) → 1 ≤ g → g ≤ group_count → Framed m.now g }
    ensures { all (places_good m.now) (up_from 1 group_count) ≡ result }
{
    (1..GROUPS_END).all(|g| places_good(m, g))
}

// The clauses on the frames and swap pages and on what is in them.
#[tactic(auto, unfolding(crate::specs::Clauses::frames_good))]
pub fn frames_good(m: &[u32]) -> bool
    requires counted { Counted m.now }
    requires m_value { numbers_good m.now ≡ true }
    ensures { frames_good m.now ≡ result }
{
    pages_all(m)
        && pages_once(m)
        && swap_pages(m)
        && entered_all(m)
        && entered_once(m)
        && idle_wiped(m)
        && all_places_good(m)
}
