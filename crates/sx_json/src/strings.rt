//! Reads a string behind its opening quote (RFC 8259 section 7).
ghost use Rattle.std.specs.Prelude.{◌↔◌, IsTrue, take, ◌≡◌, ◌≢◌, ◌≤◌, ◌<◌, ◌-◌, ◌⊎◌, ℕ, [], ◌∷◌, ◌++◌, List, IfOk, IfErr, IfSome, MatchOption, OnOk, OnErr, IsUtf8, encode_utf8, length};
ghost use Rattle.sx_model.specs.Strings.{IsPlain, TextAt, DigitAt, LowAt, NoDigit, UnitAt, IsShortEscape, IsHexDigit, IsHighSurrogate, IsLowSurrogate, pair_char};
ghost use Rattle.sx_tree.specs.Text.{IsText};
ghost use Rattle.sx_json.specs.Piece.{ArePlain, IsPiece, IsRun, IsTooLong};
ghost use Rattle.sx_model.specs.StringFaults.{unexpected, DigitsFault, EscapeAt, EscapeFault, LowEscapeFault, LowFault, PieceFault, StringFault, UnicodeAt, UnicodeFault};
ghost use Rattle.sx_tree.specs.declared.json_fault.JsonFault.TheVariants.{LoneSurrogate};
ghost use Rattle.sx_json.specs.Reading.{UnlessMemory};

use crate::fault::JsonFault;
use crate::scalars::behind;
use std::alloc::{AllocError, Global};
use std::simd::prelude::*;
use sx_tree::bytes::Bytes;
use sx_tree::text::{TEXT_BYTES, Text, TextFault};

/// How many bytes a string with escapes has room for at first.
const ROOM: usize = 64;

/// How many bytes of a string are looked at together.
const LANES: usize = 16;

/// The place of the rest in a text with this end.
pub(crate) fn place(end: usize, rest: &[u8]) -> u64
    ensures { result ≡ end - length rest.now }
{
    end.saturating_sub(rest.len()) as u64
}

/// The value of a hexadecimal digit.
fn hex_value(byte: u8) -> Option<u32>
    ensures small { IfSome result (λ value. value < 16) }
    ensures value { MatchOption result ((digit : ℕ) → IsHexDigit byte digit → ⊥) (IsHexDigit byte) }
{
    match byte {
        b'0'..=b'9' => Some(u32::from(byte - b'0')),
        b'A'..=b'F' => Some(u32::from(byte - b'A') + 10),
        b'a'..=b'f' => Some(u32::from(byte - b'a') + 10),
        _ => None,
    }
}

/// A hexadecimal digit at the front of the bytes, and the rest.
fn digit_at(end: usize, bytes: &[u8]) -> Result<(u32, &[u8]), JsonFault>
    ensures small { IfOk result (λ p. p.0 < 16) }
    ensures ok { IfOk result (λ p. DigitAt bytes.now p.0 p.1.now) }
    ensures err { IfErr result (λ _. NoDigit bytes.now) }
    ensures fault { IfErr result (λ f. f ≡ unexpected end bytes.now) }
{
    let Some((byte, left)) = bytes.split_first() else {
        return Err(JsonFault::Ended);
    };
    match hex_value(*byte) {
        Some(value) => Ok((value, left)),
        None => Err(JsonFault::BadByte {
            at: place(end, bytes),
        }),
    }
}

/// Four hexadecimal digits at the front of the bytes, and the rest.
fn unit_at(end: usize, bytes: &[u8]) -> Result<(u32, &[u8]), JsonFault>
    ensures small { IfOk result (λ p. p.0 < 65536) }
    ensures shorter { IfOk result (λ p. length p.1.now < length bytes.now) }
    ensures ok { IfOk result (λ p. UnitAt bytes.now p.0 p.1.now) }
    ensures fault { IfErr result (DigitsFault end 4 bytes.now) }
{
    let (x, after_x) = digit_at(end, bytes)?;
    let (y, after_y) = digit_at(end, after_x)?;
    let (z, after_z) = digit_at(end, after_y)?;
    let (w, left) = digit_at(end, after_z)?;
    Ok((((x * 16 + y) * 16 + z) * 16 + w, left))
}

/// The byte that the letter behind a backslash stands for.
fn short_escape(letter: u8) -> Option<u8>
    ensures ascii { IfSome result (λ byte. byte < 128) }
    ensures value { MatchOption result ((byte : ℕ) → IsShortEscape letter byte → ⊥) (IsShortEscape letter) }
{
    match letter {
        b'"' | b'\\' | b'/' => Some(letter),
        b'b' => Some(0x08),
        b'f' => Some(0x0c),
        b'n' => Some(b'\n'),
        b'r' => Some(b'\r'),
        b't' => Some(b'\t'),
        _ => None,
    }
}

/// The low surrogate whose escape stands at the front of the bytes, and the rest. The high one's escape
/// began at `start`.
fn low_at(end: usize, start: u64, bytes: &[u8]) -> Result<(u32, &[u8]), JsonFault>
    ensures range { IfOk result (λ p. IsLowSurrogate p.0) }
    ensures shorter { IfOk result (λ p. length p.1.now < length bytes.now) }
    ensures ok { IfOk result (λ p. LowAt bytes.now p.0 p.1.now) }
    ensures fault { IfErr result (LowFault end start bytes.now) }
{
    let Some((backslash, behind)) = bytes.split_first() else {
        return Err(JsonFault::Ended);
    };
    if *backslash != b'\\' {
        return Err(not_escape(end, start, bytes, *backslash));
    }
    let Some((letter, middle)) = behind.split_first() else {
        return Err(JsonFault::Ended);
    };
    if *letter != b'u' {
        return Err(not_unicode(end, start, behind, *letter));
    }
    let (low, left) = unit_at(end, middle)?;
    if low < 0xDC00 || low > 0xDFFF {
        return Err(JsonFault::LoneSurrogate { at: start });
    }
    Ok((low, left))
}

/// The fault where no escape stands behind a high surrogate. No string goes on with a control character.
fn not_escape(end: usize, start: u64, bytes: &[u8], byte: u8) -> JsonFault
    requires { byte ≢ 92 }
    ensures { (after : List ℕ) → bytes.now ≡ byte ∷ after → LowFault end start bytes.now result }
{
    if byte < 0x20 {
        JsonFault::BadByte {
            at: place(end, bytes),
        }
    } else {
        JsonFault::LoneSurrogate { at: start }
    }
}

/// The fault where another escape than `u` stands behind a high surrogate, or none.
fn not_unicode(end: usize, start: u64, bytes: &[u8], letter: u8) -> JsonFault
    requires { letter ≢ 117 }
    ensures { (after : List ℕ) → bytes.now ≡ letter ∷ after → LowEscapeFault end start bytes.now result }
{
    match short_escape(letter) {
        Some(_) => JsonFault::LoneSurrogate { at: start },
        None => JsonFault::BadByte {
            at: place(end, bytes),
        },
    }
}

/// The character of a high and a low surrogate in a row.
fn pair_of(high: u32, low: u32) -> char
    requires high { IsHighSurrogate high }
    requires low { IsLowSurrogate low }
    ensures { result ≡ pair_char high low }
{
    char::from_u32(0x10000 + (high - 0xD800) * 0x400 + (low - 0xDC00)).unwrap()
}

/// The character of a surrogate and the escape behind it, and the rest. The surrogate's escape began at
/// `start`.
fn surrogates_at(
    end: usize,
    start: u64,
    unit: u32,
    bytes: &[u8],
) -> Result<(char, &[u8]), JsonFault>
    requires { (0xD800 ≤ unit) × (unit ≤ 0xDFFF) }
    ensures shorter { IfOk result (λ p. length p.1.now < length bytes.now) }
    ensures ok { IfOk result (λ p. IsHighSurrogate unit × (low : ℕ) × LowAt bytes.now low p.1.now × (p.0 ≡ pair_char unit low)) }
    ensures fault { IfErr result (λ f. (IsLowSurrogate unit × (f ≡ LoneSurrogate start)) ⊎ (IsHighSurrogate unit × LowFault end start bytes.now f)) }
{
    if unit > 0xDBFF {
        return Err(JsonFault::LoneSurrogate { at: start });
    }
    let (low, after) = low_at(end, start, bytes)?;
    Ok((pair_of(unit, low), after))
}

/// The character of four digits behind `\u`, with the low surrogate's escape behind them where they are
/// a high one, and the rest. The backslash stands at `start`.
fn unicode_at(end: usize, start: u64, bytes: &[u8]) -> Result<(char, &[u8]), JsonFault>
    ensures shorter { IfOk result (λ p. length p.1.now < length bytes.now) }
    ensures ok { IfOk result (λ p. UnicodeAt bytes.now p.0 p.1.now) }
    ensures fault { IfErr result (UnicodeFault end start bytes.now) }
{
    let (unit, left) = unit_at(end, bytes)?;
    match char::from_u32(unit) {
        Some(character) => Ok((character, left)),
        None => surrogates_at(end, start, unit, left),
    }
}

/// The character of an escape behind its backslash, which stands at `start`, and the rest.
fn escape_at(end: usize, start: u64, bytes: &[u8]) -> Result<(char, &[u8]), JsonFault>
    ensures shorter { IfOk result (λ p. length p.1.now < length bytes.now) }
    ensures ok { IfOk result (λ p. EscapeAt bytes.now p.0 p.1.now) }
    ensures fault { IfErr result (EscapeFault end start bytes.now) }
{
    let Some((letter, left)) = bytes.split_first() else {
        return Err(JsonFault::Ended);
    };
    if *letter == b'u' {
        return unicode_at(end, start, left);
    }
    match short_escape(*letter) {
        Some(byte) => Ok((char::from(byte), left)),
        None => Err(JsonFault::BadByte {
            at: place(end, bytes),
        }),
    }
}

/// Adds a character in UTF-8.
fn push_char(content: &mut Bytes, character: char) -> Result<(), AllocError>
    ensures { OnOk result (content.new ≡ content.old ++ encode_utf8 character) }
{
    let mut room = [0; 4];
    let text = character.encode_utf8(&mut room);
    content.extend_from_slice(text.as_bytes())
}

/// How a string goes on.
pub(crate) enum Piece<'a> {
    /// It ends, and this is left.
    Closed(&'a [u8]),
    /// Behind one byte or escape.
    More(&'a [u8]),
}

/// Takes a byte or an escape of a string, and adds what it stands for to the content.
fn piece_at<'a>(end: usize, bytes: &'a [u8], content: &mut Bytes) -> Result<Piece<'a>, JsonFault>
    ensures ok { IfOk result (IsPiece bytes.now content.old content.new) }
    ensures fault { IfErr result (UnlessMemory (PieceFault end bytes.now)) }
{
    let Some((byte, after)) = bytes.split_first() else {
        return Err(JsonFault::Ended);
    };
    match *byte {
        b'"' => Ok(Piece::Closed(after)),
        b'\\' => {
            let (character, left) = escape_at(end, place(end, bytes), after)?;
            push_char(content, character)?;
            Ok(Piece::More(left))
        }
        0x00..0x20 => Err(JsonFault::BadByte {
            at: place(end, bytes),
        }),
        _ => {
            content.push(*byte)?;
            Ok(Piece::More(after))
        }
    }
}

/// Whether the byte stands for itself in a string.
fn is_plain(byte: u8) -> bool
    ensures { IsTrue result ↔ IsPlain byte }
{
    byte >= 0x20 && byte != b'"' && byte != b'\\'
}

/// How many of the first 16 bytes stand for themselves in a string, up to the first that does not.
fn plain_lanes(bytes: &[u8]) -> usize
    requires { LANES ≤ length bytes.now }
    ensures within { result ≤ LANES }
    ensures plain { ArePlain (take result bytes.now) }
{
    let lanes = u8x16::from_slice(bytes);
    let stops = lanes.simd_eq(u8x16::splat(b'"'))
        | lanes.simd_eq(u8x16::splat(b'\\'))
        | lanes.simd_lt(u8x16::splat(0x20));
    let mask = stops.to_bitmask();
    if mask == 0 {
        LANES
    } else {
        mask.trailing_zeros() as usize
    }
}

/// How many bytes at the front stand for themselves in a string, looked at one by one, as the last few are.
fn few_plain(bytes: &[u8]) -> usize
    ensures within { result ≤ length bytes.now }
    ensures plain { ArePlain (take result bytes.now) }
{
    for (place, byte) in bytes.iter().enumerate() {
        if !is_plain(*byte) {
            return place;
        }
    }
    bytes.len()
}

/// How many bytes at the front stand for themselves in a string.
fn plain_len(bytes: &[u8]) -> usize
    ensures within { result ≤ length bytes.now }
    ensures plain { ArePlain (take result bytes.now) }
{
    let mut place = 0;
    while bytes.len() - place >= LANES {
        let plain = plain_lanes(&bytes[place..]);
        if plain < LANES {
            return place + plain;
        }
        place += LANES;
    }
    place + few_plain(&bytes[place..])
}

/// Takes the bytes at the front that stand for themselves, and adds them to the content of a string whose
/// opening quote stands at `start`.
fn run_at<'a>(start: u64, bytes: &'a [u8], content: &mut Bytes) -> Result<&'a [u8], JsonFault>
    requires { length content.old ≤ 1_048_576 }
    ensures ok { IfOk result (λ left. IsRun bytes.now content.old content.new left.now) }
    ensures fault { (end : ℕ) → IfErr result (UnlessMemory (StringFault end start (length content.old) bytes.now)) }
{
    let (run, left) = bytes.split_at(plain_len(bytes));
    if run.len() > TEXT_BYTES - content.len() {
        return Err(JsonFault::StringTooLong { at: start });
    }
    content.extend_from_slice(run)?;
    Ok(left)
}

/// The text of a string's content, which may be known to be in UTF-8. The string's opening quote stands at `start`.
fn text_of(alloc: Global, start: u64, is_utf8: bool, content: &[u8]) -> Result<Text, JsonFault>
    requires { IsTrue is_utf8 → IsUtf8 content.now }
    ensures ok { IfOk result (λ text. (text ≡ content.now) × IsText content.now) }
    ensures err { IsUtf8 content.now → IfErr result (UnlessMemory (IsTooLong start content.now)) }
{
    if is_utf8 {
        return utf8_text(alloc, start, content);
    }
    match Text::new(alloc, content) {
        Ok(text) => Ok(text),
        Err(TextFault::NotUtf8 { .. }) => Err(JsonFault::BadByte { at: start }),
        Err(TextFault::TooLong { .. }) => Err(JsonFault::StringTooLong { at: start }),
        Err(TextFault::OutOfMemory) => Err(JsonFault::OutOfMemory),
    }
}

/// The text of a string's content in UTF-8. The string's opening quote stands at `start`.
fn utf8_text(alloc: Global, start: u64, content: &[u8]) -> Result<Text, JsonFault>
    requires { IsUtf8 content.now }
    ensures ok { IfOk result (λ text. (text ≡ content.now) × IsText content.now) }
    ensures err { IfErr result (UnlessMemory (IsTooLong start content.now)) }
{
    if content.len() > TEXT_BYTES {
        return Err(JsonFault::StringTooLong { at: start });
    }
    let text = Text::of_utf8(alloc, content)?;
    Ok(text)
}

/// A string with escapes behind its opening quote, which stands at `start`, and the rest. The bytes may be known to
/// be in UTF-8.
fn escaped_at(
    alloc: Global,
    end: usize,
    start: u64,
    is_utf8: bool,
    bytes: &[u8],
) -> Result<(Text, &[u8]), JsonFault>
    requires { IsTrue is_utf8 → IsUtf8 bytes.now }
    ensures shorter { IfOk result (λ p. length p.1.now < length bytes.now) }
    ensures ok { IfOk result (λ p. TextAt bytes.now p.0 p.1.now) }
    ensures utf8 { IsUtf8 bytes.now → IfOk result (λ p. IsUtf8 p.1.now) }
    ensures fault { IsUtf8 bytes.now → IfErr result (UnlessMemory (StringFault end start 0 bytes.now)) }
{
    let mut content = Bytes::from_vec(Vec::with_capacity(alloc, ROOM)?);
    let mut left = bytes;
    loop {
        let rest = run_at(start, left, &mut content)?;
        match piece_at(end, rest, &mut content)? {
            Piece::Closed(after) => {
                let text = text_of(alloc, start, is_utf8, content.as_slice())?;
                return Ok((text, after));
            }
            Piece::More(after) => left = after,
        }
        if content.len() > TEXT_BYTES {
            return Err(JsonFault::StringTooLong { at: start });
        }
    }
}

/// The string behind its opening quote, and the rest. The bytes may be known to be in UTF-8.
pub(crate) fn string_at(
    alloc: Global,
    end: usize,
    is_utf8: bool,
    bytes: &[u8],
) -> Result<(Text, &[u8]), JsonFault>
    requires { IsTrue is_utf8 → IsUtf8 bytes.now }
    ensures shorter { IfOk result (λ p. length p.1.now < length bytes.now) }
    ensures ok { IfOk result (λ p. TextAt bytes.now p.0 p.1.now) }
    ensures utf8 { IsUtf8 bytes.now → IfOk result (λ p. IsUtf8 p.1.now) }
    ensures fault { IsUtf8 bytes.now → IfErr result (UnlessMemory (StringFault end (end - length bytes.now - 1) 0 bytes.now)) }
{
    let start = place(end, bytes).saturating_sub(1);
    let (run, rest) = bytes.split_at(plain_len(bytes));
    match behind(rest, b'"') {
        Some(after) => {
            let text = text_of(alloc, start, is_utf8, run)?;
            Ok((text, after))
        }
        None => escaped_at(alloc, end, start, is_utf8, bytes),
    }
}
