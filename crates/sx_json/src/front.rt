//! Reads a string at the front of a text.
ghost use Rattle.std.specs.Prelude.{◌≡◌, ℕ, List, IfErr, IfOk, IsUtf8, MatchResult, length};
ghost use Rattle.sx_model.specs.Front.{IsStringFront, NoStringFront};
ghost use Rattle.std.specs.Str.{IsValidUpTo};
ghost use Rattle.sx_json.specs.Reading.{Refuses, UnlessMemory};
ghost use Rattle.sx_model.specs.StringFaults.{FrontFault, QuoteFault};

use crate::fault::{JsonFault, at_cut};
use crate::scalars::{behind, unexpected};
use crate::strings::string_at;
use std::alloc::Global;
use std::str;
use sx_tree::text::Text;

/// The string at the front of the bytes, and how many bytes it takes.
fn string_front(alloc: Global, text: &[u8]) -> Result<(Text, usize), JsonFault>
    ensures ok { IfOk result (λ p. IsStringFront text.now p.0 p.1) }
    ensures fault { IsUtf8 text.now → IfErr result (UnlessMemory (QuoteFault (length text.now) text.now)) }
{
    let inside = match behind(text, b'"') {
        Some(inside) => inside,
        None => return Err(unexpected(text.len(), text)),
    };
    match string_at(alloc, text.len(), false, inside) {
        Ok((content, left)) => Ok((content, text.len() - left.len())),
        Err(fault) => Err(fault),
    }
}

/// The string at the front of bytes that are in UTF-8 up to this place and not there.
fn string_before(alloc: Global, text: &[u8], valid: usize) -> Result<(Text, usize), JsonFault>
    requires utf8 { IsUtf8 text.now → ⊥ }
    requires valid { IsValidUpTo text.now valid }
    ensures ok { IfOk result (λ p. IsStringFront text.now p.0 p.1) }
    ensures fault { IfErr result (UnlessMemory (FrontFault text.now)) }
{
    match string_front(alloc, &text[..valid]) {
        Ok(found) => Ok(found),
        Err(fault) => Err(at_cut(fault, valid)),
    }
}

/// Reads a string again where this fault came, up to the first bytes that are not in UTF-8.
fn string_again(alloc: Global, text: &[u8], fault: JsonFault) -> Result<(Text, usize), JsonFault>
    requires { IsUtf8 text.now → UnlessMemory (QuoteFault (length text.now) text.now) fault }
    ensures ok { IfOk result (λ p. IsStringFront text.now p.0 p.1) }
    ensures fault { IfErr result (UnlessMemory (FrontFault text.now)) }
{
    match str::from_utf8(text) {
        Ok(_) => Err(fault),
        Err(error) => string_before(alloc, text, error.valid_up_to()),
    }
}

/// The string at the front of any bytes. Those behind it are not looked at.
fn any_front(alloc: Global, text: &[u8]) -> Result<(Text, usize), JsonFault>
    ensures ok { IfOk result (λ p. IsStringFront text.now p.0 p.1) }
    ensures fault { IfErr result (UnlessMemory (FrontFault text.now)) }
{
    match string_front(alloc, text) {
        Ok(found) => Ok(found),
        Err(fault) => string_again(alloc, text, fault),
    }
}

/// Reads the string at the front of the text (RFC 8259 section 7), with no white space before it, and
/// tells how many bytes it takes. Anything may follow it.
///
/// # Errors
///
/// What is first wrong in the string, read from left to right and piece by piece, as `JsonFault` tells it; or
/// `OutOfMemory`.
pub fn read_string(alloc: Global, text: &[u8]) -> Result<(Text, usize), JsonFault>
    // What is read stands at the front.
    ensures spelled { IfOk result (λ p. IsStringFront text.now p.0 p.1) }
    // What stands at the front is read so.
    ensures only { (content : List ℕ) (used : ℕ) → IsStringFront text.now content used → IfOk result (λ p. (p.0 ≡ content) × (p.1 ≡ used)) }
    // A fault comes only where no string stands at the front, unless memory runs out.
    ensures refused { IfErr result (Refuses (NoStringFront text.now)) }
    // It is a fault of the string, piece by piece.
    ensures fault { IfErr result (UnlessMemory (FrontFault text.now)) }
    // A text with a fault is refused with it, and with no other.
    ensures no_other { (f : JsonFault) → FrontFault text.now f → MatchResult result (λ _. ⊥) (UnlessMemory (λ e. e ≡ f)) }
{
    any_front(alloc, text)
}
