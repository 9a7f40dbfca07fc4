//! The frames of a leaf.
ghost use Rattle.std.specs.Prelude.{◌≡◌, ◌-◌, ◌≤◌, ◌<◌, ◌++◌, [], ◌∷◌, length, take};

use std::marker::Model;

/// At most 8 numbers of frames, the newest first. In contracts it is the list of the numbers.
#[derive(Debug, Drop)]
pub struct Refs {
    row: [u32; 8],
    len: usize,
}

impl Model for Refs {
    ghost use Rattle.std.specs.Prelude.{List, ℕ, ◌≤◌, take};

    ghost Value = { List ℕ };

    ghost view = { λ refs. take refs.len refs.row };

    ghost invariant = { λ refs. refs.len ≤ 8 };
}

impl Refs {
    /// No frame.
    pub fn new() -> Refs
        ensures { result ≡ [] }
    {
        Refs {
            row: [0; 8],
            len: 0,
        }
    }

    /// The numbers, the newest first.
    pub fn as_slice(&self) -> &[u32]
        ensures same { result.now ≡ self.now }
        ensures short { length self.now ≤ 8 }
    {
        &self.row[..self.len]
    }

    /// Puts a number behind the others.
    pub fn push(&mut self, number: u32)
        requires { length self.old < 8 }
        ensures { self.new ≡ self.old ++ (number ∷ []) }
    {
        self.row[self.len] = number;
        self.len += 1;
    }

    /// The number in front of the first ones of these, so that there are at most `most`.
    pub fn slide(&self, number: u32, most: usize) -> Refs
        requires { (1 ≤ most) × (most ≤ 8) }
        ensures { result ≡ number ∷ take (most - 1) self.now }
    {
        let mut refs = Refs::new();
        refs.push(number);
        let kept = self.len.min(most - 1);
        for old in &self.row[..kept] {
            refs.push(*old);
        }
        refs
    }
}
