// What is carried from portion to portion, in lent words and bytes: how many lines there were and how long the line is that has begun; to tell of every
// message also how many wait, and their lines; and the bytes of the line that has begun.
ghost use Rattle.std.specs.Prelude.{true, false, ◌++◌, ◌≡◌, ◌≤◌, length, take, drop};
ghost use Rattle.rules.specs.Build.{paper01};
ghost use Rattle.capi.specs.Carried.{script_room, state_room, waiting_at, line_room, script_of, state_of, Lent, ScriptCarried, Carried};

use follow::every;
use memory::map::PLACES;
use memory::words::copy_all;
use script::feed;
use script::feed::KEPT_LINE;

// How many words are carried of a script,
pub const SCRIPT: usize = 2;

// where behind them the lines of those that wait begin,
const WAITING_AT: usize = 3;

// and how many words are carried with these.
pub const STATE: usize = 19;

// Whether so many words of a state are there, the bytes of a line, and a part of so many words.
pub fn lent(state: usize, words: usize, bytes: usize, part: usize, count: u32) -> bool
    ensures { (result ≡ true → Lent state words bytes part count) × (result ≡ false → Lent state words bytes part count → ⊥) }
{
    words >= state && bytes >= KEPT_LINE && part >= count as usize
}

// What words and bytes say of a script.
pub fn load_script(words: &[u64], bytes: &[u8]) -> feed::State
    requires { (script_room ≤ length words.now) × (line_room ≤ length bytes.now) }
    ensures { result ≡ script_of words.now bytes.now }
{
    let mut kept = [0u8; KEPT_LINE];
    copy_all(&mut kept, &bytes[..KEPT_LINE]);
    feed::State {
        lines: words[0],
        kept,
        count: words[1] as usize,
    }
}

// The state that words and bytes stand for.
pub fn load(words: &[u64], bytes: &[u8]) -> every::State
    requires { (state_room ≤ length words.now) × (line_room ≤ length bytes.now) }
    ensures { result ≡ state_of words.now bytes.now }
{
    let mut waiting = [0u64; PLACES];
    copy_all(&mut waiting, &words[WAITING_AT..STATE]);
    every::State {
        script: load_script(words, bytes),
        waiting,
        count: words[2] as usize,
    }
}

// The line that has begun, and how many bytes there are for it. How many they are is told too: of an array in a struct it isn't known.
fn put_kept(bytes: &mut [u8], kept: [u8; KEPT_LINE])
    requires { line_room ≤ length bytes.old }
    ensures { (bytes.new ≡ kept ++ drop line_room bytes.old) × (length kept ≡ line_room) }
{
    copy_all(&mut bytes[..KEPT_LINE], &kept);
}

// What is to be said of a script, in words and bytes.
pub fn save_script(words: &mut [u64], bytes: &mut [u8], st: feed::State)
    requires { (script_room ≤ length words.old) × (line_room ≤ length bytes.old) }
    ensures { ScriptCarried words.old bytes.old st words.new bytes.new }
{
    words[0] = st.lines;
    words[1] = st.count as u64;
    put_kept(bytes, st.kept);
}

// The lines of those that wait; how many they are is told too.
fn put_waiting(words: &mut [u64], waiting: [u64; PLACES])
    requires { state_room ≤ length words.old }
    ensures { (words.new ≡ take waiting_at words.old ++ (waiting ++ drop state_room words.old)) × (length waiting ≡ paper01.places) }
{
    copy_all(&mut words[WAITING_AT..STATE], &waiting);
}

// A state, in words and bytes.
pub fn save(words: &mut [u64], bytes: &mut [u8], st: every::State)
    requires { (state_room ≤ length words.old) × (line_room ≤ length bytes.old) }
    ensures { Carried words.old bytes.old st words.new bytes.new }
{
    save_script(words, bytes, st.script);
    words[2] = st.count as u64;
    put_waiting(words, st.waiting);
}
