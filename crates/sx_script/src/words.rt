//! Words of a line, and numbers.
ghost use Rattle.std.specs.Prelude.{◌≡◌, ◌<◌, ◌≤◌, ◌^◌, ℕ, List, FitsSigned, length, take, IfOk, IfSome, IfNone};
ghost use Rattle.std.specs.Fmt.{decimal, signed_decimal};
ghost use Rattle.std.specs.Int.{w64};
ghost use Rattle.sx_run.specs.Spelling.{Heads, HeadsNumbered, HeadsPlace, IsNumbered, SpellsNumbered};
ghost use Rattle.sx_script.specs.Words.{BeginsNoPlace, BeginsNumbered, BeginsPlace, HeadsNoNumber, HeadsNoPlace};
ghost use Rattle.sx_script.specs.Words.{IsNoMoment, front_of};

use memchr::memchr;
use std::alloc::{AllocError, Global};
use std::str;
use sx_tree::edit::Place;

/// Numbers of nodes and of paths are below this one.
const NUMBERS: u32 = 1_073_741_824;

/// The bytes before the first such byte, all of them where there is none.
pub(crate) fn front(bytes: &[u8], end: u8) -> &[u8]
    ensures front { result.now ≡ front_of end bytes.now }
    ensures begins { take (length result.now) bytes.now ≡ result.now }
    ensures within { length result.now ≤ length bytes.now }
{
    match memchr(end, bytes) {
        Some(place) => &bytes[..place],
        None => bytes,
    }
}

/// A number below 2^32 in decimal, without sign or leading zero.
pub(crate) fn decimal_number(alloc: Global, digits: &[u8]) -> Result<Option<u32>, AllocError>
    ensures found { IfOk result (λ found. IfSome found (λ n. (n < 2 ^ 32) × (digits.now ≡ decimal n))) }
    ensures none { IfOk result (λ found. IfNone found ((n : ℕ) → n < 2 ^ 32 → digits.now ≡ decimal n → ⊥)) }
{
    let Ok(text) = str::from_utf8(digits) else {
        return Ok(None);
    };
    let Ok(n) = text.parse::<u32>() else {
        return Ok(None);
    };
    let canonical = n.to_string(alloc)?;
    Ok(if canonical.as_bytes() == digits {
        Some(n)
    } else {
        None
    })
}

/// What stands behind the word and a space.
pub(crate) fn behind<'a>(text: &'a [u8], word: &[u8]) -> Option<&'a [u8]>
    ensures found { IfSome result (λ rest. Heads text.now word.now rest.now) }
    ensures none { IfNone result ((rest : List ℕ) → Heads text.now word.now rest → ⊥) }
{
    let Some(rest) = text.strip_prefix(word) else {
        return None;
    };
    rest.strip_prefix(b" ")
}

/// The number of a node or of a path: below 2^30 in decimal, without sign or leading zero.
pub(crate) fn number(alloc: Global, word: &[u8]) -> Result<Option<u32>, AllocError>
    ensures found { IfOk result (λ found. IfSome found (IsNumbered word.now)) }
    ensures none { IfOk result (λ found. IfNone found ((n : ℕ) → IsNumbered word.now n → ⊥)) }
{
    let Some(n) = decimal_number(alloc, word)? else {
        return Ok(None);
    };
    if n < NUMBERS { Ok(Some(n)) } else { Ok(None) }
}

/// The number behind the word.
pub(crate) fn numbered(alloc: Global, text: &[u8], word: &[u8]) -> Result<Option<u32>, AllocError>
    ensures found { IfOk result (λ found. IfSome found (SpellsNumbered text.now word.now)) }
    ensures none { IfOk result (λ found. IfNone found ((n : ℕ) → SpellsNumbered text.now word.now n → ⊥)) }
{
    match behind(text, word) {
        Some(digits) => number(alloc, digits),
        None => Ok(None),
    }
}

/// The number at the front of the bytes, and what stands behind it and a space.
fn number_front(alloc: Global, bytes: &[u8]) -> Result<Option<(u32, &[u8])>, AllocError>
    ensures found { IfOk result (λ found. IfSome found (λ p. BeginsNumbered bytes.now p.0 p.1.now)) }
    ensures none { IfOk result (λ found. IfNone found ((n : ℕ) (rest : List ℕ) → BeginsNumbered bytes.now n rest → ⊥)) }
{
    let digits = front(bytes, b' ');
    let Some(rest) = behind(bytes, digits) else {
        return Ok(None);
    };
    match number(alloc, digits)? {
        Some(n) => Ok(Some((n, rest))),
        None => Ok(None),
    }
}

/// The number behind the word, and what stands behind it and a space.
pub(crate) fn numbered_front<'a>(
    alloc: Global,
    text: &'a [u8],
    word: &[u8],
) -> Result<Option<(u32, &'a [u8])>, AllocError>
    ensures found { IfOk result (λ found. IfSome found (λ p. HeadsNumbered text.now word.now p.0 p.1.now)) }
    ensures none { IfOk result (λ found. IfNone found (HeadsNoNumber text.now word.now)) }
{
    match behind(text, word) {
        Some(rest) => number_front(alloc, rest),
        None => Ok(None),
    }
}

/// The place at the front of the bytes, and what stands behind it and a space.
fn place_front(alloc: Global, bytes: &[u8]) -> Result<Option<(Place, &[u8])>, AllocError>
    ensures found { IfOk result (λ found. IfSome found (λ p. BeginsPlace bytes.now p.0 p.1.now)) }
    ensures none { IfOk result (λ found. IfNone found (BeginsNoPlace bytes.now)) }
{
    if let Some((node, rest)) = numbered_front(alloc, bytes, b"first")? {
        return Ok(Some((Place::First(node), rest)));
    }
    if let Some((node, rest)) = numbered_front(alloc, bytes, b"last")? {
        return Ok(Some((Place::Last(node), rest)));
    }
    if let Some((node, rest)) = numbered_front(alloc, bytes, b"before")? {
        return Ok(Some((Place::Before(node), rest)));
    }
    match numbered_front(alloc, bytes, b"after")? {
        Some((node, rest)) => Ok(Some((Place::After(node), rest))),
        None => Ok(None),
    }
}

/// The place behind the word, and what stands behind it and a space.
pub(crate) fn placed<'a>(
    alloc: Global,
    text: &'a [u8],
    word: &[u8],
) -> Result<Option<(Place, &'a [u8])>, AllocError>
    ensures found { IfOk result (λ found. IfSome found (λ p. HeadsPlace text.now word.now p.0 p.1.now)) }
    ensures none { IfOk result (λ found. IfNone found (HeadsNoPlace text.now word.now)) }
{
    match behind(text, word) {
        Some(rest) => place_front(alloc, rest),
        None => Ok(None),
    }
}

/// A moment in decimal, in the range of `i64`: without leading zero, with a `-` exactly where it is negative.
pub(crate) fn moment(alloc: Global, digits: &[u8]) -> Result<Option<i64>, AllocError>
    ensures found { IfOk result (λ found. IfSome found (λ t. FitsSigned w64 t × (digits.now ≡ signed_decimal t))) }
    ensures none { IfOk result (λ found. IfNone found (IsNoMoment digits.now)) }
{
    let Ok(text) = str::from_utf8(digits) else {
        return Ok(None);
    };
    let Ok(t) = text.parse::<i64>() else {
        return Ok(None);
    };
    let canonical = t.to_string(alloc)?;
    Ok(if digits == canonical.as_bytes() {
        Some(t)
    } else {
        None
    })
}
