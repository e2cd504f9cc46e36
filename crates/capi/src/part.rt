// The words of a part that say what a portion of a script came to, or its end.
ghost use Rattle.std.specs.Prelude.{◌≡◌, ◌≤◌, ◌∷◌, length, drop};
ghost use Rattle.script.specs.Play.{stop_number};
ghost use Rattle.capi.specs.Carried.{end_room, portion_room};

use script::play::Stop;

// How many say it of a portion: why it stopped, how many bytes of the output were written, and how many of the portion used.
pub const PORTION: u32 = 3;

// Those that say it of the script's end: the first two.
pub const END: u32 = 2;

// What the script's end came to.
pub fn put_end(part: &mut [u64], stop: Stop, written: usize)
    requires { end_room ≤ length part.old }
    ensures { part.new ≡ stop_number stop ∷ written ∷ drop end_room part.old }
{
    part[0] = stop as u64;
    part[1] = written as u64;
}

// What a portion came to.
pub fn put_portion(part: &mut [u64], stop: Stop, written: usize, used: usize)
    requires { portion_room ≤ length part.old }
    ensures { part.new ≡ stop_number stop ∷ written ∷ used ∷ drop portion_room part.old }
{
    put_end(part, stop, written);
    part[2] = used as u64;
}
