//! The stamps of `pawnd answer`: all of one day.
ghost use Rattle.pawn_program.specs.Stamps.{GivesStamp, AreStamps};
ghost use Rattle.pawn_program.specs.Word.{generator};
ghost use Rattle.std.specs.Iterator.{at_most};
ghost use Rattle.std.specs.Prelude.{◌≡◌};

use crate::words::Words;
use pawn_host::{RequestDay, Stamp};

/// The stamps of one session: at most 1,000, all of one day, each with a random word of its own.
#[derive(Drop)]
pub struct Stamps<'a> {
    words: &'a mut Words,
    day: RequestDay,
    /// How many stamps are left.
    left: u32,
}

impl<'a> Stamps<'a> {
    /// Makes up to 1,000 stamps of this day. Each takes the next of these words.
    pub fn new(words: &'a mut Words, day: RequestDay) -> Self
        ensures stamps { AreStamps 1000 day (generator words.old) result }
        ensures same_words { result.words.ghost_name ≡ words.entry.ghost_name }
    {
        Stamps {
            words,
            day,
            left: 1000,
        }
    }
}

impl<'a> Iterator for Stamps<'a> {
    type Item = Stamp;

    ghost next_gives = { GivesStamp };

    ghost remaining = { λ s. at_most s.left };

    fn next(&mut self) -> Option<Stamp> {
        if self.left == 0 {
            return None;
        }
        self.left -= 1;
        Some(Stamp {
            day: self.day,
            word: self.words.next(),
        })
    }
}
