// Why a message was buffered.
ghost use Rattle.std.specs.Prelude.{◌++◌, ◌≡◌, ◌≤◌, length, drop};
ghost use Rattle.follow.specs.One.{told_of};
ghost use Rattle.capi.specs.Why.{why_room, why_words, why_memory, WhyAnswers, TellsWhy};

use follow::one::{State, Told, finish, follow};
use memory::Node;
use reasons::Untold;

// The words that tell it.
const WHY: u32 = 4;

// How many numbers a word has.
const WORD_NUMBERS: u64 = 4294967296;

// Why the message of a line was buffered, and in which line: the memory becomes a node, and the whole script is played on it.
pub fn fugu_why(memory: &mut [u32], script: &[u8], line: u32, part: &mut [u32]) -> u32
    ensures { TellsWhy memory.old part.old (why_memory memory.old script.now line) memory.new part.new result }
{
    if part.len() < WHY as usize {
        return 0;
    }
    let told = ask(memory, script, line as u64);
    put_told(part, told);
    WHY
}

// The same, with what is told as it is. Memory that power-on refuses is not played on.
fn ask(memory: &mut [u32], script: &[u8], line: u64) -> Told
    ensures { WhyAnswers memory.new result (why_memory memory.old script.now line) }
{
    let started = Node::power_on(memory);
    if started.answer != 0 {
        return Told::from(Untold::NotNode);
    }
    let played = follow(memory, State::new(line), script);
    finish(memory, played)
}

// What is told, at the beginning of a part: the line by its low and high 32 bits.
fn put_told(part: &mut [u32], told: Told)
    requires { why_room ≤ length part.old }
    ensures { part.new ≡ why_words (told_of told) ++ drop why_room part.old }
{
    part[0] = told.answer;
    part[1] = told.reason;
    part[2] = (told.line % WORD_NUMBERS) as u32;
    part[3] = (told.line / WORD_NUMBERS) as u32;
}
