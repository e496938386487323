//! Short lists of numbers, in place.

ghost use Rattle.std.specs.Prelude.{◌≡◌, ◌↔◌, ◌<◌, ◌∷◌, ◌++◌, [], length, IsTrue};

use std::marker::Model;

/// At most 32 numbers in order, in 72 bytes. No call allocates.
#[derive(Debug, Drop)]
pub struct Numbers {
    numbers: [u16; 32],
    count: usize,
}

impl Model for Numbers {
    ghost use Rattle.std.specs.Prelude.{ℕ, ◌≤◌, List, take};

    ghost Value = { List ℕ };

    ghost view = { λ s. take s.count s.numbers };

    ghost invariant = { λ s. s.count ≤ 32 };
}

impl Numbers {
    /// Returns an empty list.
    pub(crate) fn new() -> Numbers
        ensures { result ≡ [] }
    {
        Numbers {
            numbers: [0; 32],
            count: 0,
        }
    }

    /// Returns how many numbers there are, at most 32.
    pub fn len(&self) -> usize
        ensures { result ≡ length self.now }
    {
        self.count
    }

    /// Whether the list is empty.
    pub fn is_empty(&self) -> bool
        ensures { IsTrue result ↔ (self.now ≡ []) }
    {
        self.count == 0
    }

    /// Returns the numbers.
    pub fn as_slice(&self) -> &[u16]
        ensures { result.now ≡ self.now }
    {
        &self.numbers[..self.count]
    }

    /// Returns a list with the same numbers.
    pub fn copy(&self) -> Numbers
        ensures { result ≡ self.now }
    {
        Numbers {
            numbers: self.numbers,
            count: self.count,
        }
    }

    /// Adds a number at the end.
    pub(crate) fn push(&mut self, number: u16)
        requires { length self.old < 32 }
        ensures { self.new ≡ self.old ++ number ∷ [] }
    {
        self.numbers[self.count] = number;
        self.count += 1;
    }
}
