// A script that is read in portions and played by them, to the end of the input or until its answer is settled.
ghost use Rattle.std.specs.Prelude.{ℕ, ◌≤◌, ◌<◌, length, IfOk, IfSome, IfNone};
ghost use Rattle.streams.specs.Moved.{Moved};
ghost use Rattle.streams.specs.Turns.{Reach, End, Leads, Plays, TakesIn, Turns, Runs};

use crate::{Failed, read_some, say};
use std::io::Read;
use std::ops::ControlFlow;

// How many bytes are read at a time.
pub const PORTION: usize = 65536;

// Some of a portion is played: who plays on, and how many bytes of it are used.
#[derive(Drop)]
pub struct Step<P> {
    pub player: P,
    pub used: usize,
}

// What stands between two portions of a script.
pub trait Player: Sized + Drop {
    // What the script comes to.
    type Answer;

    // How bytes lead from a memory and a player to others,
    ghost reaches: { Reach Self };

    // the answer at the end of the input,
    ghost ends: { End Self Self.Answer };

    // the one that is settled before it, where a player has such a one,
    ghost settles: { Self → Self.Answer → Type 0 } = { λ _ _. ⊥ };

    // and how long the output has to be.
    ghost room: { ℕ };

    // Some of a portion, from its beginning.
    fn play<W: Print>(
        self,
        rt: &W,
        memory: &mut [u32],
        input: &[u8],
        out: &mut [u8],
    ) -> Result<Step<Self>, Failed>
        requires some { 0 < length input.now }
        requires room { room ≤ length out.old }
        ensures { IfOk result (λ step. Plays reaches memory.old self input.now memory.new step.player step.used) };

    // The end of the input.
    fn end<W: Print>(
        self,
        rt: &W,
        memory: &mut [u32],
        out: &mut [u8],
    ) -> Result<Self::Answer, Failed>
        requires { room ≤ length out.old }
        ensures { IfOk result (λ answer. ends memory.old self out.old memory.new out.new answer) };

    // The answer, where nothing that follows can change it.
    fn settled(&self) -> Option<Self::Answer>
        ensures { IfSome result (λ answer. settles self.now answer) }
    {
        None
    }

    ghost leads: { Leads reaches };
}

// A player whose answer is told wherever it is settled.
pub trait DecidingPlayer: Player {
    // The answer, where nothing that follows can change it, and none just where there is no such one.
    fn decided(&self) -> Option<Self::Answer>
        ensures told { IfSome result (λ answer. Self.settles self.now answer) }
        ensures open { IfNone result ((answer : Self.Answer) → Self.settles self.now answer → ⊥) };
}

// More lines than there are numbers for.
pub fn no_number(program: &[u8]) -> Failed {
    say(program);
    say(b": out of line numbers\n");
    Failed
}

// More reads than can be counted.
fn no_end(program: &[u8]) -> Failed {
    say(program);
    say(b": the input does not end\n");
    Failed
}

// A portion, all of it.
pub fn play_all<P: Player, W: Print>(
    first: P,
    rt: &W,
    memory: &mut [u32],
    input: &[u8],
    out: &mut [u8],
) -> Result<P, Failed>
    requires { P.room ≤ length out.old }
    ensures { IfOk result (λ next. P.reaches memory.old first input.now memory.new next) }
{
    let mut player = first;
    let mut rest = input;
    while !rest.is_empty() {
        let step = player.play(rt, memory, rest, out)?;
        player = step.player;
        rest = &rest[step.used..];
    }
    Ok(player)
}

// What a read brought is played, all of it; where that is nothing the input is at its end.
fn take_in<P: Player, W: Print>(
    player: P,
    rt: &W,
    memory: &mut [u32],
    got: Result<usize, Failed>,
    input: &[u8],
    out: &mut [u8],
) -> Result<ControlFlow<P::Answer, P>, Failed>
    requires moved { Moved (length input.now) got }
    requires room { P.room ≤ length out.old }
    ensures { IfOk result (λ turn. TakesIn P.reaches P.ends memory.old player got input.now out.old memory.new out.new turn) }
{
    let count = got?;
    if count == 0 {
        return Ok(ControlFlow::Break(player.end(rt, memory, out)?));
    }
    Ok(ControlFlow::Continue(play_all(player, rt, memory, &input[..count], out)?))
}

// One read, and what came of it.
fn turn<P: Player, W: Print, R: Read>(
    player: P,
    program: &[u8],
    rt: &W,
    script: &mut R,
    memory: &mut [u32],
    input: &mut [u8],
    out: &mut [u8],
) -> Result<ControlFlow<P::Answer, P>, Failed>
    requires { P.room ≤ length out.old }
    ensures { IfOk result (λ turn. Turns P.reaches P.ends memory.old player input.new out.old memory.new out.new turn) }
{
    let got = read_some(program, script, input);
    take_in(player, rt, memory, got, input, out)
}

// Turns up to the answer, or until something fails. They are counted, since a loop has to end and nothing says that an input does.
pub fn play_script<P: Player, W: Print, R: Read>(
    first: P,
    program: &[u8],
    rt: &W,
    script: &mut R,
    memory: &mut [u32],
    input: &mut [u8],
    out: &mut [u8],
) -> Result<P::Answer, Failed>
    requires { P.room ≤ length out.old }
    ensures { IfOk result (λ answer. Runs P.reaches P.ends P.settles memory.old first memory.new answer) }
{
    let mut player = first;
    for _ in 0..u64::MAX {
        if let Some(answer) = player.settled() {
            return Ok(answer);
        }
        match turn(player, program, rt, script, memory, input, out)? {
            ControlFlow::Break(answer) => return Ok(answer),
            ControlFlow::Continue(next) => player = next,
        }
    }
    match player.settled() {
        Some(answer) => Ok(answer),
        None => Err(no_end(program)),
    }
}
