ghost use Rattle.std.specs.Prelude.{◌≡◌, ◌<◌, Some, length, option_copied, slice_get, vec_len};

use std::marker::Model;

/// The records of a leaf, each in its slot. In contracts it is the list of its 64 slots.
#[derive(Drop)]
pub struct Leaf<R> {
    slots: Vec<Option<R>>,
}

impl<R> Model for Leaf<R> {
    ghost use Rattle.std.specs.Prelude.{◌≡◌, List, Option, length};

    ghost Value = { List (Option R) };

    ghost view = { λ leaf. leaf.slots.items };

    ghost invariant = { λ leaf. length leaf.slots.items ≡ 64 };
}

impl<R> Leaf<R> {
    /// A leaf with these slots.
    pub fn new(slots: Vec<Option<R>>) -> Leaf<R>
        requires { vec_len slots ≡ 64 }
        ensures { result ≡ slots.items }
    {
        Leaf { slots }
    }

    /// The record in the slot, and None exactly where that is empty.
    pub fn get(&self, s: u32) -> Option<&R>
        requires { s < 64 }
        ensures slot { slice_get self.now s ≡ Some (option_copied result) }
        ensures slots { length self.now ≡ 64 }
    {
        self.slots[s as usize].as_ref()
    }
}
