//! Writes the canonical text of a value.
ghost use Rattle.std.specs.Prelude.{◌≡◌, ◌<◌, ◌≤◌, ◌++◌, OnErr, OnOk, length, take};
ghost use Rattle.sx_tree.specs.Value.{object, value_of, values_of, fields_of, depth};
ghost use Rattle.sx_model.specs.Canonical.{comma_before, escaped, lower_hex_digit, string_text, scalar_text, text, elements_text, members_text};
ghost use Rattle.sx_model.specs.Grammar.{Spells};
ghost use Rattle.sx_model.specs.Limits.{ScalarKeepsLimits, KeepsLimits, ElementsKeepLimits};

use std::alloc::{AllocError, Global};
use sx_tree::bytes::Bytes;
use sx_tree::json::{Json, Members, Scalar};

/// Appends the canonical text of the value (RFC 8259): no white space outside strings; in strings the
/// quote, the backslash and the characters below U+0020 are escaped, by the short escapes where there
/// are some, and by `\u00` and two lower-case digits else. Where at most 256 arrays and objects nest,
/// `read` gives the value back. A failure changes nothing.
pub fn write(alloc: Global, value: &Json, out: &mut Bytes) -> Result<(), AllocError>
    ensures ok { OnOk result (out.new ≡ out.old ++ text (value_of value.now)) }
    // What is written spells the value: `read` gives the value back.
    ensures read_back { OnOk result (depth (value_of value.now) ≤ 256 → Spells (text (value_of value.now)) (value_of value.now)) }
    ensures err { OnErr result (out.new ≡ out.old) }
{
    let mut written = Bytes::new(alloc);
    write_value(value, &mut written)?;
    out.extend_from_slice(written.as_slice())
}

#[cycle(write)]
fn write_value(value: &Json, out: &mut Bytes) -> Result<(), AllocError>
    ensures written { OnOk result (out.new ≡ out.old ++ text (value_of value.now)) }
    ensures limits { OnOk result (KeepsLimits (value_of value.now)) }
{
    match value {
        Json::Scalar(scalar) => write_scalar(scalar, out),
        Json::Array(items) => {
            out.push(b'[')?;
            write_elements(items.as_slice(), out)?;
            out.push(b']')
        }
        Json::Object(members) => {
            out.push(b'{')?;
            write_members(members, out)?;
            out.push(b'}')
        }
    }
}

fn write_scalar(scalar: &Scalar, out: &mut Bytes) -> Result<(), AllocError>
    ensures written { OnOk result (out.new ≡ out.old ++ scalar_text scalar.now) }
    ensures limits { OnOk result (ScalarKeepsLimits scalar.now) }
{
    match scalar {
        Scalar::Str(text) => write_string(text.as_bytes(), out),
        Scalar::Number(literal) => out.extend_from_slice(literal.as_bytes()),
        Scalar::Bool(true) => out.extend_from_slice(b"true"),
        Scalar::Bool(false) => out.extend_from_slice(b"false"),
        Scalar::Null => out.extend_from_slice(b"null"),
    }
}

#[cycle(write)]
fn write_elements(values: &[Json], out: &mut Bytes) -> Result<(), AllocError>
    ensures written { OnOk result (out.new ≡ out.old ++ elements_text (values_of values.now)) }
    ensures limits { OnOk result (ElementsKeepLimits (values_of values.now)) }
{
    for (place, value) in values.iter().enumerate() {
        write_comma(place, out)?;
        write_value(value, out)?;
    }
    Ok(())
}

#[cycle(write)]
fn write_members(members: &Members, out: &mut Bytes) -> Result<(), AllocError>
    ensures written { OnOk result (out.new ≡ out.old ++ members_text (fields_of members.now)) }
    ensures limits { OnOk result (KeepsLimits (object (fields_of members.now))) }
{
    let names = members.names();
    let values = members.values();
    for (place, value) in values.iter().enumerate() {
        write_comma(place, out)?;
        write_string(names[place].as_bytes(), out)?;
        out.push(b':')?;
        write_value(value, out)?;
    }
    Ok(())
}

/// The comma before each place but the first.
fn write_comma(place: usize, out: &mut Bytes) -> Result<(), AllocError>
    ensures { OnOk result (out.new ≡ out.old ++ comma_before place) }
{
    if place > 0 { out.push(b',') } else { Ok(()) }
}

/// Appends the content as a string: between quotes, with its quotes, backslashes and control characters escaped (RFC 8259,
/// section 7). A failure may leave a part of it behind what was there.
pub fn write_string(content: &[u8], out: &mut Bytes) -> Result<(), AllocError>
    ensures written { OnOk result (out.new ≡ out.old ++ string_text content.now) }
    ensures begins { take (length out.old) out.new ≡ out.old }
{
    out.push(b'"')?;
    for byte in content {
        write_byte(*byte, out)?;
    }
    out.push(b'"')
}

fn write_byte(byte: u8, out: &mut Bytes) -> Result<(), AllocError>
    ensures written { OnOk result (out.new ≡ out.old ++ escaped byte) }
    ensures begins { take (length out.old) out.new ≡ out.old }
{
    match byte {
        b'"' => out.extend_from_slice(b"\\\""),
        b'\\' => out.extend_from_slice(b"\\\\"),
        0x08 => out.extend_from_slice(b"\\b"),
        0x0c => out.extend_from_slice(b"\\f"),
        b'\n' => out.extend_from_slice(b"\\n"),
        b'\r' => out.extend_from_slice(b"\\r"),
        b'\t' => out.extend_from_slice(b"\\t"),
        0x00..0x20 => {
            out.extend_from_slice(b"\\u00")?;
            out.push(hex_digit(byte / 16))?;
            out.push(hex_digit(byte % 16))
        }
        _ => out.push(byte),
    }
}

/// A digit to the base 16, in lower case.
pub fn hex_digit(digit: u8) -> u8
    requires { digit < 16 }
    ensures { result ≡ lower_hex_digit digit }
{
    if digit < 10 {
        b'0' + digit
    } else {
        b'a' + (digit - 10)
    }
}
