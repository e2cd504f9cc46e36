// The answer for one line of a script: its message is followed until it has left, or to the script's end.
ghost use Rattle.std.specs.Prelude.{◌≡◌, true, ◌≤◌, length, IfOk, IfSome, IfNone};
ghost use Rattle.rules.specs.Memory.{size};
ghost use Rattle.script.specs.Written.{Appended};
ghost use Rattle.follow.specs.One.{told_of};
ghost use Rattle.follow.specs.Text.{why_room};
ghost use Rattle.why.specs.One.{Reaches, settled, TellsEnd, refusal_line, Written, Answers};
ghost use Rattle.why.specs.OneLeads.{following_leads};

use follow::one::{State, Told, finish, follow};
use follow::text::{put_named, put_why};
use memory::Node;
use reasons::Untold;
use script::write::put_text;
use std::io::Read;
use streams::Failed;
use streams::portions::{DecidingPlayer, Player, Step, no_number, play_script};

// A script of which one line is followed, between two portions of it.
#[derive(Drop)]
struct Following {
    state: State,
}

// An answer as text, or a refusal: where it ends in the output.
#[derive(Drop)]
pub enum Text {
    Answer(usize),
    Refusal(usize),
}

// Whether what is told is settled: the message has left, or the line wanted was no accepted arrival.
fn is_settled(state: State) -> bool
    ensures { result ≡ settled state }
{
    let script = state.script;
    let followed = state.followed;
    state.wanted <= script.lines && followed.ahead.is_none()
}

impl Player for Following {
    type Answer = Told;

    ghost reaches = { λ m p bytes m' p'. Reaches m p.state bytes m' p'.state };

    ghost ends = { λ m p out m' out' t. TellsEnd m p.state m' t };

    ghost settles = { λ p t. (settled p.state ≡ true) × (t ≡ p.state.followed.told) };

    ghost room = { 0 };

    ghost leads = { following_leads };

    // A portion, all of it. Where fewer line numbers are left than it has bytes, none of it is followed.
    fn play<W: Print>(
        self,
        _rt: &W,
        memory: &mut [u32],
        input: &[u8],
        _out: &mut [u8],
    ) -> Result<Step<Following>, Failed> {
        let state = self.state;
        let script = state.script;
        if u64::MAX - script.lines <= input.len() as u64 {
            return Err(no_number(b"why"));
        }
        Ok(Step {
            player: Following {
                state: follow(memory, state, input),
            },
            used: input.len(),
        })
    }

    // The script's end. A line that has begun needs a number.
    fn end<W: Print>(self, _rt: &W, memory: &mut [u32], _out: &mut [u8]) -> Result<Told, Failed> {
        let state = self.state;
        let script = state.script;
        if script.lines >= u64::MAX - 1 {
            return Err(no_number(b"why"));
        }
        Ok(finish(memory, state))
    }

    // What is told before it, wherever that is settled.
    fn settled(&self) -> Option<Told>
        ensures told { IfSome result (λ answer. ⟦<Following as Player>⟧.settles self.now answer) }
        ensures open { IfNone result ((answer : _) → ⟦<Following as Player>⟧.settles self.now answer → ⊥) }
    {
        self.decided()
    }
}

impl DecidingPlayer for Following {
    fn decided(&self) -> Option<Told> {
        let state = self.state;
        if is_settled(state) {
            return Some(state.followed.told);
        }
        None
    }
}

// The line of a refusal.
fn put_refusal(out: &mut [u8], wanted: u64, answer: u32) -> usize
    requires { why_room ≤ length out.old }
    ensures { Appended out.old 0 out.new result (refusal_line wanted answer) × (result ≤ why_room) }
{
    let a = put_named(out, 0, b"why: line ", wanted);
    let b = put_named(out, a, b": refused with ", answer as u64);
    if answer == Untold::Unreadable as u32 {
        return put_text(out, b, b": it can't be read\n");
    }
    put_text(out, b, b": it is no accepted arrival of this script\n")
}

// The line of what is told.
fn put_told(out: &mut [u8], wanted: u64, told: Told) -> Text
    requires { why_room ≤ length out.old }
    ensures { Written wanted (told_of told) out.new result }
{
    if told.answer == 0 {
        Text::Answer(put_why(out, 0, wanted, told.reason, told.line))
    } else {
        Text::Refusal(put_refusal(out, wanted, told.answer))
    }
}

// The answer for a line of the script that is read.
pub fn answer<R: Read>(
    rt: &impl Print,
    script: &mut R,
    memory: &mut [u32],
    wanted: u64,
    input: &mut [u8],
    out: &mut [u8],
) -> Result<Text, Failed>
    requires { (size ≤ length memory.old) × (why_room ≤ length out.old) }
    ensures { IfOk result (λ text. Answers memory.old wanted out.new text) }
{
    Node::start(memory);
    let following = Following {
        state: State::new(wanted),
    };
    let told = play_script(following, b"why", rt, script, memory, input, out)?;
    Ok(put_told(out, wanted, told))
}
