// Messages into and out of the virtual buffers.
ghost use Rattle.std.specs.Prelude.{◌≤◌};
ghost use Rattle.rules.specs.Build.{paper01, group_count};
ghost use Rattle.rules.specs.Node.{Message};
ghost use Rattle.rules.specs.Frames.{put};
ghost use Rattle.rules.specs.Paging.{store};
ghost use Rattle.memory.specs.Holds.{Some, Becomes, Room, Storable, Kept, Waits, Emptied, putting, wiping, using_up, freeing, removing};
ghost use Rattle.memory.specs.Paging.{Wanting};

use super::descriptor::Descriptor;
use super::{Node, frames, group, map, paging, words};

// The last place of a frame.
const LAST_PLACE: u32 = 7;

// A message is put behind the last of group g's buffer, which has room for it.
pub fn put(m: &mut [u32], g: u32, message: Descriptor)
    requires le_g { (1 ≤ g) × (g ≤ group_count) }
    requires some { Some m.old (Room g) }
    ensures { (x : Message) → Kept g message.len message.words x → Becomes m.old m.new (Room g) (putting x) }
{
    let x = group::read(m, g);
    let end = x.used + x.count;
    let last = map::group_word(m, g, map::LIST + (end / Node::PER_FRAME) as usize);
    let at = map::place_at(last, end % Node::PER_FRAME);
    words::put_message(&mut m[at..], message);
    group::set_counts(m, g, x.used, x.count + 1);
}

// A message is put at the end of group g's buffer, in a frame taken for it where the buffer is full.
pub fn append(m: &mut [u32], g: u32, message: Descriptor)
    requires le_g { (1 ≤ g) × (g ≤ group_count) }
    requires some { Some m.old (Storable g) }
    ensures { (x : Message) → Kept g message.len message.words x → Becomes m.old m.new (Storable g) (put paper01 x) }
{
    let end = map::group_word(m, g, map::USED) + map::group_word(m, g, map::COUNT);
    let places = Node::PER_FRAME * map::group_word(m, g, map::HELD);
    if places <= end {
        frames::extend(m, g);
    }
    put(m, g, message);
}

// A message moves to the end of group g's buffer: its page is in a frame first.
pub fn store(m: &mut [u32], g: u32, message: Descriptor)
    requires le_g { (1 ≤ g) × (g ≤ group_count) }
    requires some { Some m.old (Wanting g) }
    ensures { (x : Message) → Kept g message.len message.words x → Becomes m.old m.new (Wanting g) (store paper01 x) }
{
    paging::prepare(m, g);
    append(m, g, message);
}

// The place of the first message of group g's buffer is wiped.
pub fn wipe_first(m: &mut [u32], g: u32)
    requires le_g { (1 ≤ g) × (g ≤ group_count) }
    requires some { Some m.old (Waits g) }
    ensures { Becomes m.old m.new (Waits g) (wiping g) }
{
    let first = map::group_word(m, g, map::LIST);
    let used = map::group_word(m, g, map::USED);
    let at = map::place_at(first, used);
    words::clear(m, at, map::PLACE_STRIDE);
}

// It counts as used up.
pub fn use_up(m: &mut [u32], g: u32)
    requires le_g { (1 ≤ g) × (g ≤ group_count) }
    requires some { Some m.old (Waits g) }
    ensures { Becomes m.old m.new (Waits g) (using_up g) }
{
    let x = group::read(m, g);
    group::set_counts(m, g, x.used + 1, x.count - 1);
}

// The first frame of group g's buffer, which is wiped by then, is freed, and its first message with it; the frame leaves the order of entry.
pub fn free_first(m: &mut [u32], g: u32)
    requires le_g { (1 ≤ g) × (g ≤ group_count) }
    requires some { Some m.old (Emptied g) }
    ensures { Becomes m.old m.new (Emptied g) (freeing g) }
{
    let f = map::group_word(m, g, map::LIST);
    frames::release(m, g);
    frames::depart(m, f);
}

// The first message of group g's buffer goes. A frame that it leaves has no other message, so it is wiped with the message's place.
pub fn unbuffer(m: &mut [u32], g: u32)
    requires le_g { (1 ≤ g) × (g ≤ group_count) }
    requires some { Some m.old (Waits g) }
    ensures { Becomes m.old m.new (Waits g) (removing g) }
{
    wipe_first(m, g);
    if map::group_word(m, g, map::COUNT) == 1 || map::group_word(m, g, map::USED) == LAST_PLACE {
        free_first(m, g);
    } else {
        use_up(m, g);
    }
}
