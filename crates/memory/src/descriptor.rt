// A group's descriptor, by value: adding a word or launching it hands back the next one. What is sent of it is a message, so that is one too.
ghost use Rattle.std.specs.Prelude.{List, [], ◌∷◌, ◌++◌, ◌≡◌, ℕ, ◌≤◌, ◌<◌, length};
ghost use Rattle.rules.specs.Build.{group_count, word_limit};
ghost use Rattle.rules.specs.Memory.{size};
ghost use Rattle.rules.specs.Node.{Node, group_of};
ghost use Rattle.memory.specs.Holds.{Holds, Becomes, Any};
ghost use Rattle.memory.specs.Descriptors.{descriptor_of, redescribed};

use super::{map, words};

#[derive(Clone, Copy)]
pub struct Descriptor {
    pub len: u32,
    // 0 past len
    pub words: [u32; 8],
}

impl Descriptor {
    // A word joins it.
    pub fn described(mut self, w: u32) -> Descriptor
        requires { self.len < word_limit }
        ensures { (d : List ℕ) → self ≡ descriptor_of d → result ≡ descriptor_of (d ++ (w ∷ [])) }
    {
        let at = self.len as usize;
        self.words[at] = w;
        self.len += 1;
        self
    }

    // It is sent, and empty.
    pub fn launched(self) -> Descriptor
        ensures { result ≡ descriptor_of [] }
    {
        Descriptor {
            len: 0,
            words: [0u32; 8],
        }
    }
}

// That of group g.
pub fn read(m: &[u32], g: u32) -> Descriptor
    requires le_g { (1 ≤ g) × (g ≤ group_count) }
    requires size_in_bounds { size ≤ length m.now }
    ensures { (n : Node) (r : List ℕ) → Holds m.now n r → result ≡ descriptor_of (group_of n g).descriptor }
{
    words::message(m, map::group_at(g) + map::DESCRIBED)
}

// The same, written.
pub fn write(m: &mut [u32], g: u32, x: Descriptor)
    requires le_g { (1 ≤ g) × (g ≤ group_count) }
    requires size_in_bounds { size ≤ length m.old }
    ensures { (d : List ℕ) → length d ≤ word_limit → x ≡ descriptor_of d → Becomes m.old m.new Any (redescribed g d) }
{
    let at = map::group_at(g) + map::DESCRIBED;
    words::put_message(&mut m[at..], x);
}
