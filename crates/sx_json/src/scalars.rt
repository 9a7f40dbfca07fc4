//! Reads a scalar: a string, a number or a literal name (RFC 8259 sections 3, 6 and 7).
ghost use Rattle.std.specs.Prelude.{◌≡◌, ◌≢◌, ◌≤◌, ◌++◌, ◌∷◌, ◌↔◌, ℕ, List, IfErr, IfOk, IsTrue, IsUtf8, MatchOption, length};
ghost use Rattle.sx_model.specs.Grammar.{BeginsNumberAt, BeginsOther, IsBlank, IsSolid, Skips};
ghost use Rattle.sx_json.specs.Reading.{GoesOn, UnlessMemory};
ghost use Rattle.sx_model.specs.Faults.{NumberFault, ScalarFault, WholeAt, WordFault};
ghost use Rattle.sx_tree.specs.Value.{scalar};
ghost use Rattle.sx_model.specs.StringFaults.{unexpected};

use crate::fault::JsonFault;
use crate::strings::{place, string_at};
use std::alloc::Global;
use sx_tree::json::Scalar;
use sx_tree::literal::{LITERAL_BYTES, Literal};
use sx_tree::number::number_front;

fn is_blank(byte: u8) -> bool
    ensures { IsTrue result ↔ IsBlank byte }
{
    // Most bytes are above a space, which is asked first.
    byte <= b' ' && matches!(byte, b' ' | b'\t' | b'\n' | b'\r')
}

/// The bytes behind the white space at their front.
pub(crate) fn skip_blanks(bytes: &[u8]) -> &[u8]
    ensures skips { Skips bytes.now result.now }
    ensures solid { IsSolid result.now }
    ensures goes_on { IsUtf8 bytes.now → GoesOn bytes.now result.now }
{
    let mut rest = bytes;
    while let Some((byte, after)) = rest.split_first() {
        if !is_blank(*byte) {
            return rest;
        }
        rest = after;
    }
    rest
}

/// The bytes behind this byte, where it is the first.
pub(crate) fn behind(bytes: &[u8], byte: u8) -> Option<&[u8]>
    ensures { MatchOption result (BeginsOther byte bytes.now) (λ after. bytes.now ≡ byte ∷ after.now) }
{
    match bytes.split_first() {
        Some((first, after)) => { if *first == byte { Some(after) } else { None } }
        None => None,
    }
}

/// A scalar at the front of the bytes, and the rest.
pub(crate) fn scalar_at(
    alloc: Global,
    end: usize,
    bytes: &[u8],
) -> Result<(Scalar, &[u8]), JsonFault>
    requires no_array { BeginsOther 91 bytes.now }
    requires no_object { BeginsOther 123 bytes.now }
    requires utf8 { IsUtf8 bytes.now }
    ensures goes_on { IfOk result (λ p. GoesOn bytes.now p.1.now) }
    ensures whole { IfOk result (λ p. (room : ℕ) → WholeAt (scalar p.0) room bytes.now p.1.now) }
    ensures fault { IfErr result (UnlessMemory (ScalarFault end bytes.now)) }
{
    let Some((first, inside)) = bytes.split_first() else {
        return Err(JsonFault::Ended);
    };
    match *first {
        b'"' => {
            let (text, left) = string_at(alloc, end, true, inside)?;
            Ok((Scalar::Str(text), left))
        }
        b't' => {
            let left = word_at(end, bytes, b"true")?;
            Ok((Scalar::Bool(true), left))
        }
        b'f' => {
            let left = word_at(end, bytes, b"false")?;
            Ok((Scalar::Bool(false), left))
        }
        b'n' => {
            let left = word_at(end, bytes, b"null")?;
            Ok((Scalar::Null, left))
        }
        b'-' | b'0'..=b'9' => number_at(alloc, end, bytes),
        _ => Err(JsonFault::BadByte {
            at: place(end, bytes),
        }),
    }
}

/// The rest behind the word at the front of the bytes.
fn word_at<'a>(end: usize, bytes: &'a [u8], word: &[u8]) -> Result<&'a [u8], JsonFault>
    ensures ok { IfOk result (λ left. bytes.now ≡ word.now ++ left.now) }
    ensures fault { IfErr result (WordFault end word.now bytes.now) }
{
    let mut rest = bytes;
    for letter in word {
        match behind(rest, *letter) {
            Some(after) => rest = after,
            None => return Err(unexpected(end, rest)),
        }
    }
    Ok(rest)
}

/// The fault where the first of the bytes is none that may stand there.
pub(crate) fn unexpected(end: usize, bytes: &[u8]) -> JsonFault
    ensures { result ≡ unexpected end bytes.now }
{
    if bytes.is_empty() {
        JsonFault::Ended
    } else {
        JsonFault::BadByte {
            at: place(end, bytes),
        }
    }
}

/// The number at the front of the bytes, and the rest.
fn number_at(alloc: Global, end: usize, bytes: &[u8]) -> Result<(Scalar, &[u8]), JsonFault>
    requires begins { BeginsNumberAt bytes.now }
    requires utf8 { IsUtf8 bytes.now }
    ensures goes_on { IfOk result (λ p. GoesOn bytes.now p.1.now) }
    ensures whole { IfOk result (λ p. (room : ℕ) → WholeAt (scalar p.0) room bytes.now p.1.now) }
    ensures fault { IfErr result (UnlessMemory (NumberFault end bytes.now)) }
{
    let most = bytes.len().min(LITERAL_BYTES + 1);
    let front = number_front(&bytes[..most]);
    let (number, left) = bytes.split_at(front.len);
    if front.len > LITERAL_BYTES {
        return Err(JsonFault::NumberTooLong {
            at: place(end, bytes),
        });
    }
    if !front.is_number {
        return Err(unexpected(end, left));
    }
    let literal = Literal::of_number(alloc, number)?;
    Ok((Scalar::Number(literal), left))
}
