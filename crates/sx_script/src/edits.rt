//! Edits of the writer, by their text.
ghost use Rattle.std.specs.Prelude.{◌≡◌, ℕ, List, IfErr, IfOk, OnOk};
ghost use Rattle.sx_model.specs.Faults.{Faults};
ghost use Rattle.sx_model.specs.Grammar.{Spells};
ghost use Rattle.sx_model.specs.PathText.{QuotedAt};
ghost use Rattle.sx_model.specs.StringFaults.{FrontFault};
ghost use Rattle.sx_script.specs.Edits.{EndsAs, IsEditText, set_text};
ghost use Rattle.sx_script.specs.Told.{IsOfText};
ghost use Rattle.sx_tree.specs.declared.json_fault.JsonFault.{JsonFault as Fault};
ghost use Rattle.sx_tree.specs.Value.{Value, value_of};

use crate::heads::{Head, head_of};
use crate::words::numbered;
use std::alloc::{AllocError, Global};
use sx_tree::edit::{Edit, Place};
use sx_tree::json::Json;
use sx_tree::json_fault::JsonFault;
use sx_tree::text::Text;

/// What a text is as an edit.
#[derive(Drop)]
pub(crate) enum EditText {
    Edit(Edit),
    /// It is an edit but for its NAME or VALUE, which has this fault.
    Fault(JsonFault),
    Other,
}

/// What the text is as an edit.
pub(crate) fn edit(alloc: Global, text: &[u8]) -> Result<EditText, AllocError>
    ensures { IfOk result (IsEditText text.now) }
{
    if let Some(node) = numbered(alloc, text, b"remove")? {
        return Ok(EditText::Edit(Edit::Remove { node }));
    }
    match head_of(alloc, text)? {
        Some((head, rest)) => finish(alloc, head, rest),
        None => Ok(EditText::Other),
    }
}

/// Reads the edit's NAME and VALUE.
fn finish(alloc: Global, head: Head, rest: &[u8]) -> Result<EditText, AllocError>
    ensures { IfOk result (EndsAs head rest.now) }
{
    match head {
        Head::Load => load(alloc, rest),
        Head::Insert(place) => insert(alloc, place, rest),
        Head::Field(place) => field(alloc, place, rest),
        Head::Set(node) => set(alloc, node, rest),
        Head::Replace(node) => replace(alloc, node, rest),
        Head::Rename(node) => rename(alloc, node, rest),
    }
}

/// `load VALUE`
fn load(alloc: Global, rest: &[u8]) -> Result<EditText, AllocError>
    ensures { IfOk result (EndsAs Head.Load rest.now) }
{
    Ok(match value(alloc, rest)? {
        Ok(value) => EditText::Edit(Edit::Load { value }),
        Err(fault) => EditText::Fault(fault),
    })
}

/// `insert WHERE K VALUE`
fn insert(alloc: Global, place: Place, rest: &[u8]) -> Result<EditText, AllocError>
    ensures { IfOk result (EndsAs (Head.Insert place) rest.now) }
{
    Ok(match value(alloc, rest)? {
        Ok(value) => EditText::Edit(Edit::Insert {
            place,
            name: None,
            value,
        }),
        Err(fault) => EditText::Fault(fault),
    })
}

/// `field WHERE K NAME VALUE`
fn field(alloc: Global, place: Place, rest: &[u8]) -> Result<EditText, AllocError>
    ensures { IfOk result (EndsAs (Head.Field place) rest.now) }
{
    let (name, left) = match name(alloc, rest)? {
        Ok(found) => found,
        Err(fault) => return Ok(EditText::Fault(fault)),
    };
    let Some(json) = left.strip_prefix(b" ") else {
        return Ok(EditText::Other);
    };
    match value(alloc, json)? {
        Ok(value) => Ok(EditText::Edit(Edit::Insert {
            place,
            name: Some(name),
            value,
        })),
        Err(fault) => Ok(EditText::Fault(fault)),
    }
}

/// `set K VALUE`, where VALUE is no array or object
fn set(alloc: Global, node: u32, rest: &[u8]) -> Result<EditText, AllocError>
    ensures { IfOk result (EndsAs (Head.Set node) rest.now) }
{
    match value(alloc, rest)? {
        Ok(value) => Ok(set_to(node, value)),
        Err(fault) => Ok(EditText::Fault(fault)),
    }
}

/// The edit that sets the node to the value, where that is a scalar.
fn set_to(node: u32, value: Json) -> EditText
    ensures { result ≡ set_text node (value_of value) }
{
    match value {
        Json::Scalar(value) => EditText::Edit(Edit::SetScalar { node, value }),
        Json::Array(_items) => EditText::Other,
        Json::Object(_members) => EditText::Other,
    }
}

/// `replace K VALUE`
fn replace(alloc: Global, node: u32, rest: &[u8]) -> Result<EditText, AllocError>
    ensures { IfOk result (EndsAs (Head.Replace node) rest.now) }
{
    Ok(match value(alloc, rest)? {
        Ok(value) => EditText::Edit(Edit::Replace { node, value }),
        Err(fault) => EditText::Fault(fault),
    })
}

/// `rename K NAME`, where nothing stands behind NAME
fn rename(alloc: Global, node: u32, rest: &[u8]) -> Result<EditText, AllocError>
    ensures { IfOk result (EndsAs (Head.Rename node) rest.now) }
{
    let (name, left) = match name(alloc, rest)? {
        Ok(found) => found,
        Err(fault) => return Ok(EditText::Fault(fault)),
    };
    if left.is_empty() {
        return Ok(EditText::Edit(Edit::Rename { node, name }));
    }
    Ok(EditText::Other)
}

/// The value that the JSON text spells, or its fault.
fn value(alloc: Global, json: &[u8]) -> Result<Result<Json, JsonFault>, AllocError>
    ensures spelled { IfOk result (λ read. IfOk read (λ value. Spells json.now (value_of value))) }
    ensures only { IfOk result (λ read. IfOk read (λ value. (v : Value) → Spells json.now v → value_of value ≡ v)) }
    ensures no_fault { IfOk result (λ read. OnOk read ((f : Fault) → Faults json.now f → ⊥)) }
    ensures fault { IfOk result (λ read. IfErr read (λ f. Faults json.now f × IsOfText f)) }
{
    match sx_json::read(alloc, json) {
        Ok(value) => Ok(Ok(value)),
        Err(JsonFault::OutOfMemory) => Err(AllocError),
        Err(fault) => Ok(Err(fault)),
    }
}

/// The name at the front of the bytes, and what is left behind it, or its fault.
fn name(alloc: Global, bytes: &[u8]) -> Result<Result<(Text, &[u8]), JsonFault>, AllocError>
    ensures quoted { IfOk result (λ read. IfOk read (λ p. QuotedAt bytes.now p.0 p.1.now)) }
    ensures no_fault { IfOk result (λ read. OnOk read ((f : Fault) → FrontFault bytes.now f → ⊥)) }
    ensures fault { IfOk result (λ read. IfErr read (λ f. FrontFault bytes.now f × IsOfText f)) }
{
    match sx_json::read_string(alloc, bytes) {
        Ok((name, used)) => Ok(Ok((name, &bytes[used..]))),
        Err(JsonFault::OutOfMemory) => Err(AllocError),
        Err(fault) => Ok(Err(fault)),
    }
}
