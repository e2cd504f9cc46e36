// What plays a script, called for a player that leaves `settled` out and for one that decides.
ghost use Rattle.std.specs.Prelude.{◌≡◌, Some};

use crate::Failed;
use crate::portions::{DecidingPlayer, Player, Step, play_all, play_script};
use std::test::Fail;

// The bytes of a script, counted. It leaves `settled` out.
#[derive(Drop)]
struct Counting {
    count: usize,
}

impl Player for Counting {
    type Answer = usize;

    ghost reaches = { λ _ _ _ _ _. Unit {0} };

    ghost ends = { λ m p out m' out' a. a ≡ p.count };

    ghost room = { 0 };

    ghost leads = { record { none = λ _ _. tt; more = λ _ _ _ _ _ _ _ _ _ _. tt } };

    fn play<W: Print>(
        self,
        _rt: &W,
        _memory: &mut [u32],
        input: &[u8],
        _out: &mut [u8],
    ) -> Result<Step<Counting>, Failed> {
        Ok(Step {
            player: Counting {
                count: self.count.wrapping_add(input.len()),
            },
            used: input.len(),
        })
    }

    fn end<W: Print>(self, _rt: &W, _memory: &mut [u32], _out: &mut [u8]) -> Result<usize, Failed> {
        Ok(self.count)
    }
}

// How long the first line of a script is, which its newline settles.
#[derive(Drop)]
struct FirstLine {
    read: usize,
    length: Option<usize>,
}

impl Player for FirstLine {
    type Answer = usize;

    ghost reaches = { λ _ _ _ _ _. Unit {0} };

    ghost ends = { λ m p out m' out' a. a ≡ p.read };

    ghost settles = { λ p a. p.length ≡ Some a };

    ghost room = { 0 };

    ghost leads = { record { none = λ _ _. tt; more = λ _ _ _ _ _ _ _ _ _ _. tt } };

    fn play<W: Print>(
        self,
        _rt: &W,
        _memory: &mut [u32],
        input: &[u8],
        _out: &mut [u8],
    ) -> Result<Step<FirstLine>, Failed> {
        let length = match self.length {
            None if input.starts_with(b"\n") => Some(self.read),
            known => known,
        };
        Ok(Step {
            player: FirstLine {
                read: self.read.wrapping_add(1),
                length,
            },
            used: 1,
        })
    }

    fn end<W: Print>(self, _rt: &W, _memory: &mut [u32], _out: &mut [u8]) -> Result<usize, Failed> {
        Ok(self.read)
    }

    fn settled(&self) -> Option<usize> {
        self.decided()
    }
}

impl DecidingPlayer for FirstLine {
    fn decided(&self) -> Option<usize> {
        self.length
    }
}

#[test]
fn counts_to_the_end(rt: HostRuntime) -> Result<(), Fail> {
    let counting = play_all(Counting { count: 0 }, &rt, &mut [], b"A 1\n", &mut [])?;
    assert_eq!(rt; counting.count, 4);
    assert_eq!(rt; counting.settled(), None);
    let mut script: &[u8] = b"T\n";
    let count = play_script(
        counting,
        b"count",
        &rt,
        &mut script,
        &mut [],
        &mut [0u8; 4],
        &mut [],
    )?;
    assert_eq!(rt; count, 6);
    Ok(())
}

#[test]
fn answers_after_a_line(rt: HostRuntime) -> Result<(), Fail> {
    let first = FirstLine {
        read: 0,
        length: None,
    };
    assert_eq!(rt; first.decided(), None);
    let mut script: &[u8] = b"A 1\nT\n";
    let length = play_script(
        first,
        b"first",
        &rt,
        &mut script,
        &mut [],
        &mut [0u8; 1],
        &mut [],
    )?;
    assert_eq!(rt; length, 3);
    assert_eq!(rt; script.len(), 2, "what follows is not read");
    Ok(())
}
