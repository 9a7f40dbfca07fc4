//! Records in slots by their numbers.
//!
//! While there is a mark, a record that is dropped leaves its slot empty, so that putting it back needs no memory.
ghost use Rattle.std.specs.Prelude.{◌≡◌, ℕ, true, [], if◌then◌else◌, is_some, nat_eq, reverse, IfOk, OnErr, OnOk};
ghost use Rattle.std.specs.Option.{option_copied};
ghost use Rattle.std.specs.FinMap as map;
ghost use Rattle.sx_view.specs.Slots.{held, inside, rewound, with_slot, Rewinds, has_slot};

use std::alloc::{AllocError, Global};
use std::collections::BTreeMap;
use sx_tree::numbers::Numbers;

/// The slots.
pub(crate) type Slots<R> = BTreeMap<u32, Option<R>>;

/// A change: the number, and the slot that it had, if it had one.
pub(crate) type Change<R> = (u32, Option<Option<R>>);

/// The record of the number.
pub(crate) fn record_in<R>(slots: &Slots<R>, k: u32) -> Option<&R>
    ensures { option_copied result ≡ map.get (held slots.now.entries) k }
{
    match slots.get(&k) {
        Some(slot) => slot.as_ref(),
        None => None,
    }
}

/// The numbers of the records, in ascending order.
pub(crate) fn numbers_in<R>(alloc: Global, slots: &Slots<R>) -> Result<Numbers, AllocError>
    ensures { IfOk result (λ numbers. numbers ≡ map.keys (held slots.now.entries)) }
{
    let mut numbers = Numbers::new(alloc);
    for (number, slot) in slots.iter() {
        if slot.is_some() {
            numbers.push(*number)?;
        }
    }
    Ok(numbers)
}

/// Puts a slot, and notes the change at the end.
pub(crate) fn put_noted<R: Drop>(
    slots: &mut Slots<R>,
    changes: &mut Vec<Change<R>>,
    k: u32,
    slot: Option<R>,
) -> Result<(), AllocError>
    requires { Rewinds (has_slot slots.old) (reverse changes.old.items) }
    ensures ok { OnOk result (held slots.new.entries ≡ with_slot k slot (held slots.old.entries)) }
    ensures err { OnErr result (held slots.new.entries ≡ held slots.old.entries) }
    ensures before { rewound (reverse changes.new.items) (held slots.new.entries) ≡ rewound (reverse changes.old.items) (held slots.old.entries) }
    ensures rewinds { Rewinds (has_slot slots.new) (reverse changes.new.items) }
{
    changes.reserve(1)?;
    let before = slots.insert(k, slot)?;
    changes.push_reserved((k, before));
    Ok(())
}

/// Puts back what was in the slot, which stands there if it is to be put back.
fn put_back<R: Drop>(slots: &mut Slots<R>, k: u32, before: Option<Option<R>>)
    requires { is_some before ≡ true → has_slot slots.old k ≡ true }
    ensures held { held slots.new.entries ≡ with_slot k (inside before) (held slots.old.entries) }
    ensures slots { (q : ℕ) → has_slot slots.new q ≡ (if nat_eq q k then is_some before else has_slot slots.old q) }
{
    match before {
        // The slot stands there, so this needs no memory.
        Some(slot) => {
            let _ = slots.insert(k, slot);
        }
        None => {
            slots.remove(&k);
        }
    }
}

/// Puts back what was in the slots before the changes. No change is left.
pub(crate) fn rewind<R: Drop>(slots: &mut Slots<R>, changes: &mut Vec<Change<R>>)
    requires { Rewinds (has_slot slots.old) (reverse changes.old.items) }
    ensures restored { held slots.new.entries ≡ rewound (reverse changes.old.items) (held slots.old.entries) }
    ensures none_left { changes.new.items ≡ [] }
{
    while let Some((k, before)) = changes.pop() {
        put_back(slots, k, before);
    }
}

/// Takes the slot away if it is empty.
fn clear<R: Drop>(slots: &mut Slots<R>, k: u32)
    ensures { held slots.new.entries ≡ held slots.old.entries }
{
    if let Some(None) = slots.get(&k) {
        slots.remove(&k);
    }
}

/// Forgets the changes, and takes away the empty slots that they left.
pub(crate) fn forget<R: Drop>(slots: &mut Slots<R>, changes: &mut Vec<Change<R>>)
    ensures same { held slots.new.entries ≡ held slots.old.entries }
    ensures none_left { changes.new.items ≡ [] }
{
    while let Some((k, _)) = changes.pop() {
        clear(slots, k);
    }
}
