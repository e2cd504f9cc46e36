// Words copied, moved, cleared and tested, whatever they stand for.
ghost use Rattle.std.specs.Prelude.{◌≡◌, ◌∷◌, ◌++◌, ◌+◌, ◌≤◌, ◌<◌, length, replicate};
ghost use Rattle.rules.specs.Memory.{word, words_at};
ghost use Rattle.rules.specs.MemoryTest.{zero_at};
ghost use Rattle.memory.specs.Writes.{Wrote, Swapped};

use super::descriptor::Descriptor;

// Eight words from address a on.
pub fn eight(m: &[u32], a: usize) -> [u32; 8]
    requires { a + 8 ≤ length m.now }
    ensures { result ≡ words_at m.now a 8 }
{
    m[a..a + 8].try_into().unwrap()
}

// A length and the eight words behind it, from address a on.
pub fn message(m: &[u32], a: usize) -> Descriptor
    requires { a + 9 ≤ length m.now }
    ensures { result ≡ record { len = word m.now a; words = words_at m.now (a + 1) 8 } }
{
    Descriptor {
        len: m[a],
        words: eight(m, a + 1),
    }
}

// The same, written at the start of a lent part.
pub fn put_message(part: &mut [u32], message: Descriptor)
    requires { 9 ≤ length part.old }
    ensures { Wrote part.old part.new 0 (message.len ∷ message.words) }
{
    part[0] = message.len;
    put_eight(part, 1, message.words);
}

// What a lent part has, copied to another of its length. It is a loop, since the library's own copy compares addresses, which a replay's page can't.
pub fn copy_all<T: Copy>(to: &mut [T], from: &[T])
    requires { length to.old ≡ length from.now }
    ensures len { length to.new ≡ length to.old }
    ensures after { to.new ≡ from.now }
{
    for i in 0..from.len() {
        to[i] = from[i];
    }
}

// Lent words are written from address `at` on.
pub fn copy_in(m: &mut [u32], at: usize, words: &[u32])
    requires { at + length words.now ≤ length m.old }
    ensures { Wrote m.old m.new at words.now }
{
    copy_all(&mut m[at..at + words.len()], words);
}

// Eight words are.
pub fn put_eight(m: &mut [u32], at: usize, words: [u32; 8])
    requires { at + 8 ≤ length m.old }
    ensures { Wrote m.old m.new at words }
{
    copy_in(m, at, &words);
}

// n words from address `from` on are copied to address `to`, which is below them or behind them.
pub fn copy(m: &mut [u32], to: usize, from: usize, n: usize)
    requires n_in_bounds { (to + n ≤ length m.old) × (from + n ≤ length m.old) }
    requires n_bound { from < to → from + n ≤ to }
    ensures { Wrote m.old m.new to (words_at m.old from n) }
{
    for i in 0..n {
        m[to + i] = m[from + i];
    }
}

// n words from address a on and as many from address b on, behind them, are exchanged.
pub fn swap(m: &mut [u32], a: usize, b: usize, n: usize)
    requires { (a + n ≤ b) × (b + n ≤ length m.old) }
    ensures { Swapped m.old m.new a b n }
{
    for i in 0..n {
        let x = m[a + i];
        m[a + i] = m[b + i];
        m[b + i] = x;
    }
}

// n words from address `at` on become 0.
pub fn clear(m: &mut [u32], at: usize, n: usize)
    requires { at + n ≤ length m.old }
    ensures { Wrote m.old m.new at (replicate n 0) }
{
    m[at..at + n].fill(0);
}

// The first `by` words from address `at` on go: the n behind them move down, and zeros follow.
pub fn shift(m: &mut [u32], at: usize, by: usize, n: usize)
    requires { at + by + n ≤ length m.old }
    ensures { Wrote m.old m.new at (words_at m.old (at + by) n ++ replicate by 0) }
{
    copy(m, at, at + by, n);
    clear(m, at + n, by);
}

// Whether the n words from address a on are 0: their | is. No branch depends on a word, so that several are read at once. By number, since a
// slice's iterator answers with a byte and a pointer, which a replay's page has elsewhere.
pub fn zeros(m: &[u32], a: usize, n: usize) -> bool
    requires { a + n ≤ length m.now }
    ensures { zero_at m.now a n ≡ result }
{
    let mut sum = 0;
    for i in a..a + n {
        sum |= m[i];
    }
    sum == 0
}
