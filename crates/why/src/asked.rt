// What the argument asks for.
ghost use Rattle.why.specs.Asked.{Asks};

use script::read::number;

// A line by its number, or every accepted arrival.
#[derive(Drop)]
pub enum Asked {
    Line(u32),
    All,
}

// What can be answered of it. A line's number is written as the numbers of a script are.
pub fn asked_of(text: &[u8]) -> Option<Asked>
    ensures { Asks text.now result }
{
    if text == b"--all".as_slice() {
        return Some(Asked::All);
    }
    let d = number(text, 0);
    let line = d.value?;
    if d.next < text.len() {
        return None;
    }
    Some(Asked::Line(line))
}
