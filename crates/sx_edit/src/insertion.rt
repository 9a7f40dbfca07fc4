//! A value that comes to a place.
ghost use Rattle.std.specs.Prelude.{◌≡◌, ◌+◌, ◌-◌, ◌<◌, ◌≤◌, ◌^◌, ◌&&◌, ◌⊎◌, ℕ, List, [], not, Some, None, is_none, is_some, length, min, if◌then◌else◌, IfErr, IfOk, IfNone, IfSome, OnOk, Option};
ghost use Rattle.std.specs.Option.{option_copied, option_or};
ghost use Rattle.sx_outside.specs.Faults.{Rose};
ghost use Rattle.sx_tree.specs.Value.{value_of};
ghost use Rattle.sx_tree.specs.declared.record.NodeRecord.{NodeRecord as TheRecord};
ghost use Rattle.sx_model.specs.Records.{PathRow};
ghost use Rattle.sx_view.specs.Records.{RecordMap};
ghost use Rattle.sx_tree.specs.declared.edit.EditRefusal.TheVariants as refusals;
ghost use Rattle.sx_model.specs.Edit as model;
ghost use Rattle.sx_model.specs.Tree as tree;
ghost use Rattle.sx_edit.specs.Answers.{AnswersEach};
ghost use Rattle.sx_edit.specs.Damage.{Explains, IsDamaged, NeedsPath, Reach};
ghost use Rattle.sx_edit.specs.Drift.{Drifts, IsBase, IsThere};
ghost use Rattle.sx_edit.specs.EditFault.{ExplainsEdit, IsBreachEdit};
ghost use Rattle.sx_edit.specs.Gets.{GetsAtMost, GetsChildren};
ghost use Rattle.sx_edit.specs.Links.{LeadsTo};
ghost use Rattle.sx_edit.specs.Pathways.{IsOnto, StopsOnto, kept};
ghost use Rattle.sx_edit.specs.Places.{ChecksChildren, FindsTaken, step_into};
ghost use Rattle.sx_edit.specs.Steps.{GoesOn};

use crate::climb::survey;
use crate::fault::EditFault;
use crate::fill::fill;
use crate::kinds::{is_document, is_object};
use crate::names::find_key;
use crate::paths::{name_step, step_onto};
use crate::places::target_of;
use crate::room::make_room;
use crate::trees::Target;
use std::alloc::{AllocError, Global};
use sx_paths::PathTable;
use sx_tree::edit::{EditRefusal, Edited, Place};
use sx_tree::json::Json;
use sx_tree::record::{Kind, NodeRecord, Step};
use sx_tree::text::Text;
use sx_view::{Fault, RecordsMut};

/// The Key that has the name among the children there. Only an object has Keys.
fn taken_name<N: RecordsMut<NodeRecord>>(
    alloc: Global,
    nodes: &mut N,
    next: u32,
    target: Target,
    name: Option<&Text>,
) -> Result<Option<u32>, Fault>
    requires { IfSome target.first (λ to. LeadsTo (N.told nodes.old) target.gap.parent to) }
    ensures found { IfOk result (λ found. FindsTaken next target (option_copied name.entry) (N.told nodes.old)
        (Some found)) }
    ensures cannot { IfErr result (λ fault. IsDamaged fault
        → FindsTaken next target (option_copied name.entry) (N.told nodes.old) None) }
    ensures work { OnOk result (GetsChildren next target (N.told nodes.old) (N.gets nodes.old) (N.gets nodes.new)) }
    ensures same { N.told nodes.new ≡ N.told nodes.old }
    ensures goes_on { GoesOn N.told N.faults N.damages N.has_mark N.marks nodes.old nodes.new }
    ensures fault { IfErr result (Explains next (N.told nodes.old) (N.damages nodes.old) (Rose (N.faults nodes.old) (N.faults nodes.new))) }
{
    let Some(asked) = name else {
        return Ok(None);
    };
    if !is_object(target.kind) {
        return Ok(None);
    }
    find_key(
        alloc,
        nodes,
        next,
        target.gap.parent,
        target.first,
        asked,
        None,
    )
}

/// Whether the document has a child there.
fn is_full(target: Target) -> bool
    ensures { result ≡ (tree.is_document target.kind && is_some target.first) }
{
    is_document(target.kind) && target.first.is_some()
}

/// Checks that no Key there has the name, and that the document has no child.
fn check_children<N: RecordsMut<NodeRecord>>(
    alloc: Global,
    nodes: &mut N,
    next: u32,
    target: Target,
    name: Option<&Text>,
) -> Result<(), EditFault>
    requires { IfSome target.first (λ to. LeadsTo (N.told nodes.old) target.gap.parent to) }
    ensures checks { ChecksChildren next target (option_copied name.entry) (N.told nodes.old) result }
    ensures work { OnOk result (GetsChildren next target (N.told nodes.old) (N.gets nodes.old) (N.gets nodes.new)) }
    ensures same { N.told nodes.new ≡ N.told nodes.old }
    ensures goes_on { GoesOn N.told N.faults N.damages N.has_mark N.marks nodes.old nodes.new }
    ensures fault { (edit : model.Edit) (table : List PathRow) → IfErr result (ExplainsEdit edit next (N.told nodes.old) table
        (N.damages nodes.old) (Rose (N.faults nodes.old) (N.faults nodes.new))) }
{
    if let Some(node) = taken_name(alloc, nodes, next, target, name)? {
        return Err(EditFault::Refused(EditRefusal::NameTaken { node }));
    }
    if is_full(target) {
        let node = target.gap.parent;
        return Err(EditFault::Refused(EditRefusal::DocumentFull { node }));
    }
    Ok(())
}

/// The refusal for a name that is missing, or is not asked for.
fn name_refusal(in_object: bool, name: Option<&Text>) -> Option<EditRefusal>
    ensures { result ≡ option_or (model.when (in_object && is_none (option_copied name.entry)) refusals.NameMissing)
        (model.when (not in_object && is_some (option_copied name.entry)) refusals.NameUnasked) }
{
    match (in_object, name.is_some()) {
        (true, false) => Some(EditRefusal::NameMissing),
        (false, true) => Some(EditRefusal::NameUnasked),
        (true, true) | (false, false) => None,
    }
}

/// How many Keys come with a value below an object, or below another node.
fn new_keys(in_object: bool) -> u32
    ensures is { result ≡ (if in_object then 1 else 0) }
{
    if in_object { 1 } else { 0 }
}

/// The number of the path of what comes below a node of this kind and path, for a new node.
fn path_into(
    alloc: Global,
    paths: &mut PathTable,
    had: u32,
    node: u32,
    target: Target,
    name: Option<&Text>,
) -> Result<u32, EditFault>
    ensures onto { IfOk result (λ number. IsOnto target.path
        (step_into target.kind (option_copied name.entry)) number paths.old.paths paths.new.paths) }
    ensures fits { IfOk result (λ number. number < 2 ^ 30) }
    ensures stops { IfErr result (StopsOnto target.path
        (step_into target.kind (option_copied name.entry)) had paths.old.paths) }
    ensures same_mark { paths.new.marked ≡ paths.old.marked }
    ensures there { IfOk result (λ number. IsThere paths.new.paths number) }
    ensures drifts { OnOk result (Drifts 0 [] paths.old.paths paths.new.paths) }
    ensures fault { (o : Option (RecordMap TheRecord)) (table : List PathRow) (reach : Reach) (plus : ℕ) (minus : List ℕ)
        → NeedsPath o reach node → IsBase o reach node paths.old.paths target.path
        → Drifts plus minus table paths.old.paths → IfErr result (IsBreachEdit o table reach) }
{
    let step = step_below(alloc, target.kind, name)?;
    step_onto(alloc, paths, had, node, target.path, step)
}

/// The step to what comes below a node of this kind, under the name where there is one.
fn step_below(alloc: Global, kind: Kind, name: Option<&Text>) -> Result<Step, AllocError>
    ensures { IfOk result (λ step. step ≡ step_into kind (option_copied name.entry)) }
{
    if is_document(kind) {
        return Ok(Step::Top);
    }
    match name {
        Some(name) => name_step(alloc, name),
        None => Ok(Step::Item),
    }
}

/// The value comes to the place, among the members of an object below a new Key of the name. On a fault the records
/// may be half changed.
pub(crate) fn insert<N: RecordsMut<NodeRecord>>(
    alloc: Global,
    nodes: &mut N,
    paths: &mut PathTable,
    had: u32,
    next: u32,
    place: Place,
    name: Option<&Text>,
    value: &Json,
) -> Result<Edited, EditFault>
    requires few { next ≤ 2 ^ 30 }
    requires had { had ≡ min (length paths.old.paths) (2 ^ 32 - 1) }
    ensures answers { AnswersEach (model.insert place (option_copied name.entry) (value_of value.now)) next
        (kept (N.told nodes.old) paths.old.paths) (kept (N.told nodes.new) paths.new.paths) result }
    ensures work { OnOk result (GetsAtMost (model.insert place (option_copied name.entry) (value_of value.now)) next
        (N.told nodes.old) (N.gets nodes.old) (N.gets nodes.new)) }
    ensures same_mark { paths.new.marked ≡ paths.old.marked }
    ensures goes_on { GoesOn N.told N.faults N.damages N.has_mark N.marks nodes.old nodes.new }
    ensures fault { IfErr result (ExplainsEdit
        (model.insert place (option_copied name.entry) (value_of value.now)) next (N.told nodes.old) paths.old.paths
        (N.damages nodes.old) (Rose (N.faults nodes.old) (N.faults nodes.new))) }
{
    let target = target_of(alloc, nodes, next, place)?;
    check_children(alloc, nodes, next, target, name)?;
    let in_object = is_object(target.kind);
    let rim = survey(alloc, nodes, next, target.gap)?;
    let more = make_room(next, rim.levels, new_keys(in_object), value)?;
    if let Some(refusal) = name_refusal(in_object, name) {
        return Err(EditFault::Refused(refusal));
    }
    let path = path_into(alloc, paths, had, next, target, name)?;
    fill(
        alloc, nodes, paths, had, next, target.gap, rim, None, name, value, path,
    )?;
    Ok(Edited {
        first: Some(next),
        next: next + more,
    })
}
