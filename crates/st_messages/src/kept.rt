ghost use Rattle.std.specs.Prelude.{◌≡◌, suc, ◌<◌, [], ◌∷◌, ◌++◌, find, if◌then◌else◌, length, IfOk};
ghost use Rattle.st_messages.specs.Circle.{nearest};
ghost use Rattle.st_messages.specs.declared.kept.KeptNumber.{KeptNumber};
ghost use Rattle.st_messages.specs.Messages.{keeps_seq, kept_in, most_in_use, without_kept};

use crate::circle;
use st_base::{Drawing, Seq};
use std::alloc::{AllocError, Global};
use std::marker::Model;

/// How many numbers are in use at most when one is drawn: one for each of 64 threads, and one for each of 8 workers.
const MOST_IN_USE: usize = 72;

/// The number of a message that has ended, which a ready worker keeps.
#[derive(Clone, Copy, Debug, PartialEq, Eq)]
pub struct KeptNumber {
    pub drawing: Drawing,
    pub seq: Seq,
}

/// The numbers that ready workers keep. There is room for as many as are ever in use.
#[derive(Debug, Drop)]
pub struct KeptNumbers {
    numbers: Vec<KeptNumber>,
}

impl Model for KeptNumbers {
    ghost use Rattle.std.specs.Prelude.{suc, ◌≤◌, List, vec_capacity};
    ghost use Rattle.st_messages.specs.Messages.{most_in_use};
    ghost use Rattle.st_messages.specs.declared.kept.KeptNumber.{KeptNumber};

    ghost Value = { List KeptNumber };

    ghost view = { λ k. k.numbers.items };

    ghost invariant = { λ k. suc most_in_use ≤ vec_capacity k.numbers };
}

impl KeptNumbers {
    /// No numbers.
    pub fn new(alloc: Global) -> Result<Self, AllocError>
        ensures { IfOk result (λ kept. kept ≡ []) }
    {
        Ok(KeptNumbers {
            numbers: Vec::with_capacity(alloc, MOST_IN_USE + 1)?,
        })
    }

    /// How many there are.
    pub fn len(&self) -> usize
        ensures { result ≡ length self.now }
    {
        self.numbers.len()
    }

    /// The number that is kept of a drawing.
    pub fn of(&self, drawing: Drawing) -> Option<KeptNumber>
        ensures { result ≡ kept_in self.now drawing }
    {
        self.numbers
            .iter()
            .copied()
            .find(|number| number.drawing == drawing)
    }

    /// What is kept with this number.
    pub fn with(&self, seq: Seq) -> Option<KeptNumber>
        ensures { result ≡ find (keeps_seq seq) self.now }
    {
        self.numbers
            .iter()
            .copied()
            .find(|number| number.seq == seq)
    }

    /// How many steps of the circle it is from a number to the nearest of these; once round if there is none.
    pub fn nearest(&self, last: Seq) -> Seq
        ensures { result ≡ nearest (λ (number : KeptNumber). number.seq) 65535 last self.now }
    {
        let mut nearest = Seq::MAX;
        for number in &self.numbers {
            nearest = nearest.min(circle::steps_to(last, number.seq));
        }
        nearest
    }

    /// Adds a number, if a ready worker keeps it.
    pub fn add_if(&mut self, keeps: bool, number: KeptNumber)
        requires { length self.old < suc most_in_use }
        ensures { self.new ≡ self.old ++ (if keeps then number ∷ [] else []) }
    {
        if keeps {
            self.numbers.push_reserved(number);
        }
    }

    /// Removes the number that is kept of a drawing.
    pub fn remove(&mut self, drawing: Drawing)
        ensures { self.new ≡ without_kept self.old drawing }
    {
        self.numbers.retain(|number| number.drawing != drawing);
    }
}
