//! The text of a path.
ghost use Rattle.std.specs.Prelude.{◌≡◌, ◌++◌, ◌<◌, ◌⊎◌, List, IfOk, IfNone, IfSome, IsTrue, ◌↔◌, length, take, drop, ◌≤◌, ℕ};
ghost use Rattle.sx_model.specs.PathText.{AreWordBytes, BeginsWord, EndsWord, IsLetter, IsWordByte, NameAt, QuotedAt, SpellsPath, SpellsSteps, StepAt, WordAt};
ghost use Rattle.sx_tree.specs.declared.steps.PathStep.{PathStep};

use std::alloc::{AllocError, Global};
use sx_json::{JsonFault, read_string};
use sx_tree::query::PathExpr;
use sx_tree::steps::{PathStep, Steps};
use sx_tree::text::{TEXT_BYTES, Text, TextFault};

/// The greatest number of steps of a path.
pub const PATH_STEPS: usize = 256;

/// The path that the text spells: `.`, or 1 to 256 steps with or without a `.` before them, with nothing between
/// them. A step is `/NAME`, `[]` or `//NAME`, where a name is a JSON string (RFC 8259 section 7) or a word of ASCII
/// letters, digits, `_` and `-` that begins with a letter or `_`. None where it spells none.
pub fn parse(alloc: Global, text: &[u8]) -> Result<Option<PathExpr>, AllocError>
    ensures found { IfOk result (λ found. IfSome found (λ path. SpellsPath text.now path.steps)) }
    ensures none { IfOk result (λ found. IfNone found ((steps : List PathStep) → SpellsPath text.now steps → ⊥)) }
{
    if let Some(rest) = text.strip_prefix(b".") {
        return steps_of(alloc, rest);
    }
    if text.is_empty() {
        return Ok(None);
    }
    steps_of(alloc, text)
}

// The steps that the text spells, at most 256.
fn steps_of(alloc: Global, text: &[u8]) -> Result<Option<PathExpr>, AllocError>
    ensures found { IfOk result (λ found. IfSome found (λ path. (length path.steps < 257) × SpellsSteps text.now path.steps)) }
    ensures none { IfOk result (λ found. IfNone found ((steps : List PathStep) → length steps < 257 → SpellsSteps text.now steps → ⊥)) }
{
    let mut steps = Steps::new(alloc);
    let mut rest = text;
    while !rest.is_empty() {
        if steps.len() == PATH_STEPS {
            return Ok(None);
        }
        match step_at(alloc, rest)? {
            Some((step, left)) => {
                steps.push(step)?;
                rest = left;
            }
            None => return Ok(None),
        }
    }
    Ok(Some(PathExpr { steps }))
}

// The step at the front of the bytes, and what is left behind it.
fn step_at(alloc: Global, bytes: &[u8]) -> Result<Option<(PathStep, &[u8])>, AllocError>
    ensures found { IfOk result (λ found. IfSome found (λ step. StepAt bytes.now step.0 step.1.now)) }
    ensures none { IfOk result (λ found. IfNone found ((step : PathStep) (left : List ℕ) → StepAt bytes.now step left → ⊥)) }
{
    if let Some(left) = bytes.strip_prefix(b"[]") {
        return Ok(Some((PathStep::Item, left)));
    }
    if let Some(rest) = bytes.strip_prefix(b"//") {
        return match name_at(alloc, rest)? {
            Some((name, left)) => Ok(Some((PathStep::Anywhere(name), left))),
            None => Ok(None),
        };
    }
    if let Some(rest) = bytes.strip_prefix(b"/") {
        return match name_at(alloc, rest)? {
            Some((name, left)) => Ok(Some((PathStep::Name(name), left))),
            None => Ok(None),
        };
    }
    Ok(None)
}

// The name at the front of the bytes, and what is left behind it.
fn name_at(alloc: Global, bytes: &[u8]) -> Result<Option<(Text, &[u8])>, AllocError>
    ensures found { IfOk result (λ found. IfSome found (λ name. NameAt bytes.now name.0 name.1.now)) }
    ensures none { IfOk result (λ found. IfNone found ((name : List ℕ) (left : List ℕ) → NameAt bytes.now name left → ⊥)) }
{
    if begins_word(bytes) {
        word_at(alloc, bytes)
    } else {
        quoted_at(alloc, bytes)
    }
}

// The JSON string at the front of the bytes, and what is left behind it.
fn quoted_at(alloc: Global, bytes: &[u8]) -> Result<Option<(Text, &[u8])>, AllocError>
    ensures found { IfOk result (λ found. IfSome found (λ name. QuotedAt bytes.now name.0 name.1.now)) }
    ensures none { IfOk result (λ found. IfNone found ((name : List ℕ) (left : List ℕ) → QuotedAt bytes.now name left → ⊥)) }
{
    match read_string(alloc, bytes) {
        Ok((name, used)) => Ok(Some((name, &bytes[used..]))),
        Err(JsonFault::OutOfMemory) => Err(AllocError),
        Err(_) => Ok(None),
    }
}

// The whole word at the front of the bytes, as far as it is a text, and what is left behind it.
fn word_at(alloc: Global, bytes: &[u8]) -> Result<Option<(Text, &[u8])>, AllocError>
    requires { BeginsWord bytes.now }
    ensures found { IfOk result (λ found. IfSome found (λ name. WordAt bytes.now name.0 name.1.now)) }
    ensures none { IfOk result (λ found. IfNone found ((name : List ℕ) (left : List ℕ) → WordAt bytes.now name left → ⊥)) }
{
    let (word, left) = bytes.split_at(word_len(bytes));
    match Text::new(alloc, word) {
        Ok(name) => Ok(Some((name, left))),
        Err(TextFault::OutOfMemory) => Err(AllocError),
        Err(_) => Ok(None),
    }
}

fn begins_word(bytes: &[u8]) -> bool
    ensures { IsTrue result ↔ BeginsWord bytes.now }
{
    match bytes {
        [first, ..] => is_letter(*first),
        [] => false,
    }
}

// How many bytes at the front may stand in a word.
fn word_len(bytes: &[u8]) -> usize
    ensures within { result ≤ length bytes.now }
    ensures word { AreWordBytes (take result bytes.now) }
    ensures whole { EndsWord (drop result bytes.now) }
{
    for (i, byte) in bytes.iter().enumerate() {
        if !is_word_byte(*byte) {
            return i;
        }
    }
    bytes.len()
}

fn is_letter(byte: u8) -> bool
    ensures { IsTrue result ↔ IsLetter byte }
{
    byte.is_ascii_alphabetic() || byte == b'_'
}

fn is_word_byte(byte: u8) -> bool
    ensures { IsTrue result ↔ IsWordByte byte }
{
    is_letter(byte) || byte.is_ascii_digit() || byte == b'-'
}
