//! Whether a document has room for a value.
ghost use Rattle.std.specs.Prelude.{◌≡◌, ◌+◌, ◌-◌, ◌≤◌, ◌^◌, ℕ, Option, Some, min, nat_lt, IfErr, IfNone, IfOk};
ghost use Rattle.sx_tree.specs.Value as plain;
ghost use Rattle.sx_tree.specs.Value.{value_of, depth};
ghost use Rattle.sx_tree.specs.declared.edit.EditRefusal.TheVariants as refusals;
ghost use Rattle.sx_tree.specs.declared.record.NodeRecord.{NodeRecord};
ghost use Rattle.sx_view.specs.Records.{RecordMap};
ghost use Rattle.sx_model.specs.Edit.{nesting_limit, number_limit, when};
ghost use Rattle.sx_edit.specs.EditFault.{IsRefused};
ghost use Rattle.sx_edit.specs.Room.{CountsLevels, MakesRoom};

use crate::fault::EditFault;
use sx_tree::edit::EditRefusal;
use sx_tree::json::Json;

/// So many arrays and objects nest at most.
const NESTING: u32 = 256;

/// Node numbers are below this one.
const NUMBERS: u32 = 1_073_741_824;

/// The refusal of a value below so many arrays and objects, where all of them are too many.
fn too_deep(around: u32, value: &Json) -> Option<EditRefusal>
    requires { around ≤ 2 ^ 30 }
    ensures { result ≡ when (nat_lt nesting_limit (around + depth (value_of value.now)))
        (refusals.TooDeep (min (around + depth (value_of value.now)) (2 ^ 32 - 1))) }
{
    let depth = around.saturating_add(value.depth());
    if depth > NESTING {
        return Some(EditRefusal::TooDeep { depth });
    }
    None
}

/// How many nodes the value becomes, with so many more for its name.
fn new_nodes(names: u32, value: &Json) -> u64
    ensures { result ≡ min (names + plain.nodes (value_of value.now)) (2 ^ 64 - 1) }
{
    value.nodes().saturating_add(u64::from(names))
}

/// The refusal of so many new nodes, where the numbers run out.
fn spent(next: u32, more: u64) -> Option<EditRefusal>
    requires { next ≤ 2 ^ 30 }
    ensures is { result ≡ when (nat_lt number_limit (next + more)) (refusals.NumbersSpent next) }
    ensures room { IfNone result (next + more ≤ 2 ^ 30) }
{
    if more > u64::from(NUMBERS - next) {
        return Some(EditRefusal::NumbersSpent { next });
    }
    None
}

/// How many nodes a value becomes that comes below so many arrays and objects, with so many more for its name.
///
/// # Errors
///
/// `TooDeep`, then `NumbersSpent`.
pub(crate) fn make_room(next: u32, around: u32, names: u32, value: &Json) -> Result<u32, EditFault>
    requires few { next ≤ 2 ^ 30 }
    requires low { around ≤ next }
    ensures room { (parent : ℕ) (o : Option (RecordMap NodeRecord)) → CountsLevels (Some parent) next o (Some around)
        → MakesRoom next parent (value_of value.now) (names + plain.nodes (value_of value.now)) o result }
    ensures count { IfOk result (λ more. more ≡ names + plain.nodes (value_of value.now)) }
    ensures enough { IfOk result (λ more. next + (names + plain.nodes (value_of value.now)) ≤ 2 ^ 30) }
    ensures fault { IfErr result IsRefused }
{
    if let Some(refusal) = too_deep(around, value) {
        return Err(EditFault::Refused(refusal));
    }
    let more = new_nodes(names, value);
    if let Some(refusal) = spent(next, more) {
        return Err(EditFault::Refused(refusal));
    }
    Ok(more as u32)
}
