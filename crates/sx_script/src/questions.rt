//! Questions, by their text.
ghost use Rattle.std.specs.Prelude.{◌≡◌, ℕ, ℤ, List, IfNone, IfOk, IfSome};
ghost use Rattle.sx_run.specs.Spelling.{SpellsQuery, axis_word};
ghost use Rattle.sx_script.specs.Commands.{HasNumber, IsAxis, IsSelection, IsValidAt};
ghost use Rattle.sx_tree.specs.declared.query.Axis.{Axis as AxisWord};
ghost use Rattle.sx_tree.specs.declared.query.Query.{Query as Question};
ghost use Rattle.sx_tree.specs.declared.steps.PathStep.{PathStep};

use crate::words::{behind, front, moment, numbered};
use std::alloc::{AllocError, Global};
use std::str;
use sx_tree::query::{Axis, PathExpr, Query};

/// The question that the text spells.
pub(crate) fn question(alloc: Global, text: &[u8]) -> Result<Option<Query>, AllocError>
    ensures found { IfOk result (λ found. IfSome found (SpellsQuery text.now)) }
    ensures none { IfOk result (λ found. IfNone found ((q : Question) → SpellsQuery text.now q → ⊥)) }
{
    if text == b"paths".as_slice() {
        return Ok(Some(Query::Paths));
    }
    if let Some(query) = of_number(alloc, text)? {
        return Ok(Some(query));
    }
    if let Some((axis, node)) = axis(alloc, text)? {
        return Ok(Some(Query::Axis(axis, node)));
    }
    if let Some(path) = selection(alloc, text)? {
        return Ok(Some(Query::Select(path)));
    }
    match valid(alloc, text)? {
        Some(moment) => Ok(Some(Query::Valid(moment))),
        None => Ok(None),
    }
}

/// A question about the node or the path of a number.
fn of_number(alloc: Global, text: &[u8]) -> Result<Option<Query>, AllocError>
    ensures found { IfOk result (λ found. IfSome found (SpellsQuery text.now)) }
    ensures none { IfOk result (λ found. IfNone found ((q : Question) → HasNumber q → SpellsQuery text.now q → ⊥)) }
{
    if let Some(node) = numbered(alloc, text, b"text")? {
        return Ok(Some(Query::Text(node)));
    }
    if let Some(node) = numbered(alloc, text, b"node")? {
        return Ok(Some(Query::Node(node)));
    }
    if let Some(node) = numbered(alloc, text, b"hash")? {
        return Ok(Some(Query::Hash(node)));
    }
    match numbered(alloc, text, b"path")? {
        Some(path) => Ok(Some(Query::Path(path))),
        None => Ok(None),
    }
}

/// `axis A K`
fn axis(alloc: Global, text: &[u8]) -> Result<Option<(Axis, u32)>, AllocError>
    ensures found { IfOk result (λ found. IfSome found (λ p. IsAxis text.now p.0 p.1)) }
    ensures none { IfOk result (λ found. IfNone found ((a : AxisWord) (k : ℕ) → IsAxis text.now a k → ⊥)) }
{
    let Some(words) = behind(text, b"axis") else {
        return Ok(None);
    };
    let word = front(words, b' ');
    let Some(axis) = axis_of(word) else {
        return Ok(None);
    };
    match numbered(alloc, words, word)? {
        Some(node) => Ok(Some((axis, node))),
        None => Ok(None),
    }
}

/// The axis of this name.
fn axis_of(word: &[u8]) -> Option<Axis>
    ensures found { IfSome result (λ a. word.now ≡ axis_word a) }
    ensures none { IfNone result ((a : AxisWord) → word.now ≡ axis_word a → ⊥) }
{
    let Ok(name) = str::from_utf8(word) else {
        return None;
    };
    match name {
        "child" => Some(Axis::Child),
        "descendant" => Some(Axis::Descendant),
        "ancestor" => Some(Axis::Ancestor),
        "following" => Some(Axis::Following),
        "preceding" => Some(Axis::Preceding),
        "following-sibling" => Some(Axis::FollowingSibling),
        "preceding-sibling" => Some(Axis::PrecedingSibling),
        _ => None,
    }
}

/// `select PATH`
fn selection(alloc: Global, text: &[u8]) -> Result<Option<PathExpr>, AllocError>
    ensures found { IfOk result (λ found. IfSome found (λ path. IsSelection text.now path.steps)) }
    ensures none { IfOk result (λ found. IfNone found ((steps : List PathStep) → IsSelection text.now steps → ⊥)) }
{
    match behind(text, b"select") {
        Some(path) => sx_select::parse(alloc, path),
        None => Ok(None),
    }
}

/// `valid T`
fn valid(alloc: Global, text: &[u8]) -> Result<Option<i64>, AllocError>
    ensures found { IfOk result (λ found. IfSome found (IsValidAt text.now)) }
    ensures none { IfOk result (λ found. IfNone found ((t : ℤ) → IsValidAt text.now t → ⊥)) }
{
    match behind(text, b"valid") {
        Some(digits) => moment(alloc, digits),
        None => Ok(None),
    }
}
