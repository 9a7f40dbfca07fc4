//! Edits up to their NAME or VALUE.
ghost use Rattle.std.specs.Prelude.{◌≡◌, ℕ, List, IfOk, IfSome, IfNone};
ghost use Rattle.sx_script.specs.Edits.{Leads};
ghost use Rattle.sx_script.specs.declared.heads.Head.{Head as EditHead};

use crate::words::{behind, numbered_front, placed};
use std::alloc::{AllocError, Global};
use sx_tree::edit::Place;

/// An edit up to its NAME or VALUE.
pub(crate) enum Head {
    Load,
    Insert(Place),
    /// An insert with a name.
    Field(Place),
    Set(u32),
    Replace(u32),
    Rename(u32),
}

/// The edit that the text leads to, and its NAME or VALUE.
pub(crate) fn head_of(alloc: Global, text: &[u8]) -> Result<Option<(Head, &[u8])>, AllocError>
    ensures found { IfOk result (λ found. IfSome found (λ p. Leads text.now p.0 p.1.now)) }
    ensures none { IfOk result (λ found. IfNone found ((h : EditHead) (rest : List ℕ) → Leads text.now h rest → ⊥)) }
{
    if let Some(rest) = behind(text, b"load") {
        return Ok(Some((Head::Load, rest)));
    }
    if let Some((place, rest)) = placed(alloc, text, b"insert")? {
        return Ok(Some((Head::Insert(place), rest)));
    }
    if let Some((place, rest)) = placed(alloc, text, b"field")? {
        return Ok(Some((Head::Field(place), rest)));
    }
    if let Some((node, rest)) = numbered_front(alloc, text, b"set")? {
        return Ok(Some((Head::Set(node), rest)));
    }
    if let Some((node, rest)) = numbered_front(alloc, text, b"replace")? {
        return Ok(Some((Head::Replace(node), rest)));
    }
    match numbered_front(alloc, text, b"rename")? {
        Some((node, rest)) => Ok(Some((Head::Rename(node), rest))),
        None => Ok(None),
    }
}
