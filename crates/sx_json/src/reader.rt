//! Reads a JSON text: each function reads what one production of the grammar says (RFC 8259).
ghost use Rattle.std.specs.Prelude.{◌≡◌, ◌<◌, ◌↔◌, ◌∷◌, ◌++◌, [], ℕ, Contains, IfErr, IfOk, IsTrue, IsUtf8, MatchResult, OnOk, length};
ghost use Rattle.std.specs.Str.{IsValidUpTo};
ghost use Rattle.sx_tree.specs.Names.{AreDistinct, names_of};
ghost use Rattle.sx_tree.specs.Value.{Value, value_of, values_of, fields_of};
ghost use Rattle.sx_model.specs.Grammar.{ElementsAt, IsSolid, MembersAt, Spells};
ghost use Rattle.sx_model.specs.Faults.{Faults, TextFault, ValueFault, WholeAt};
ghost use Rattle.sx_model.specs.StringFaults.{QuoteFault};
ghost use Rattle.sx_json.specs.Nested.{ArrayFault, MarkThen, IsFirstFault, IsStep, IsTaken, MemberAt, BehindNameFault, NoColon, NoStep, ObjectFault, QuotedAt};
ghost use Rattle.sx_json.specs.Reading.{GoesOn, Refuses, UnlessMemory};

use crate::fault::{JsonFault, at_cut};
use crate::scalars::{behind, scalar_at, skip_blanks, unexpected};
use crate::strings::{place, string_at};
use std::alloc::Global;
use std::str;
use sx_tree::json::{Items, Json, Members};
use sx_tree::member_list::MemberFault;
use sx_tree::text::Text;

/// How many arrays and objects may nest.
pub const NESTING: usize = 256;

/// How an array or an object goes on behind an element or a member.
pub(crate) enum Step<'a> {
    /// With the next one, at the front of these bytes.
    More(&'a [u8]),
    /// It ends, and this is left.
    Closed(&'a [u8]),
}

/// Goes on behind an element or a member: with a comma, or with the byte that closes the array or object.
fn step_at(end: usize, closing: u8, bytes: &[u8]) -> Result<Step<'_>, JsonFault>
    requires small { closing < 128 }
    requires utf8 { IsUtf8 bytes.now }
    ensures ok { IfOk result (IsStep closing bytes.now) }
    ensures fault { IfErr result (NoStep end closing bytes.now) }
{
    let next = skip_blanks(bytes);
    if let Some(after) = behind(next, b',') {
        let rest = skip_blanks(after);
        return Ok(Step::More(rest));
    }
    match behind(next, closing) {
        Some(left) => Ok(Step::Closed(left)),
        None => Err(unexpected(end, next)),
    }
}

/// Whether a member has the name.
fn has_name(members: &Members, name: &Text) -> bool
    ensures { IsTrue result ↔ Contains (names_of members.now) name.now }
{
    match members.find(name) {
        Some(_) => true,
        None => false,
    }
}

/// The name at the front of the bytes, and the rest.
fn name_at(alloc: Global, end: usize, bytes: &[u8]) -> Result<(Text, &[u8]), JsonFault>
    requires utf8 { IsUtf8 bytes.now }
    ensures ok { IfOk result (λ p. QuotedAt p.0 bytes.now p.1.now) }
    ensures goes_on { IfOk result (λ p. GoesOn bytes.now p.1.now) }
    ensures fault { IfErr result (UnlessMemory (QuoteFault end bytes.now)) }
{
    let inside = match behind(bytes, b'"') {
        Some(inside) => inside,
        None => return Err(unexpected(end, bytes)),
    };
    let (name, after) = string_at(alloc, end, true, inside)?;
    Ok((name, after))
}

/// What stands behind the colon that is to follow a name.
fn colon_at(end: usize, bytes: &[u8]) -> Result<&[u8], JsonFault>
    requires utf8 { IsUtf8 bytes.now }
    ensures ok { IfOk result (λ left. MarkThen 58 bytes.now left.now) }
    ensures goes_on { IfOk result (λ left. GoesOn bytes.now left.now) }
    ensures fault { IfErr result (NoColon end bytes.now) }
{
    let next = skip_blanks(bytes);
    match behind(next, b':') {
        Some(after) => {
            let rest = skip_blanks(after);
            Ok(rest)
        }
        None => Err(unexpected(end, next)),
    }
}

/// The fault of a member with this name, behind which this one was found: a repeated name comes first.
fn member_fault(members: &Members, name: &Text, at: u64, found: JsonFault) -> JsonFault
    ensures { IsFirstFault (names_of members.now) name.now at found result }
{
    if has_name(members, name) {
        JsonFault::DuplicateName { at }
    } else {
        found
    }
}

/// Adds a member, whose name stands at this place.
fn add_member(
    alloc: Global,
    at: u64,
    members: &mut Members,
    name: Text,
    value: Json,
) -> Result<(), JsonFault>
    ensures ok { OnOk result (members.new ≡ members.old ++ (name, value) ∷ []) }
    ensures new_name { OnOk result (Contains (names_of members.old) name → ⊥) }
    ensures fault { IfErr result (UnlessMemory (IsTaken (names_of members.old) name at)) }
{
    match members.push(alloc, name, value) {
        Ok(()) => Ok(()),
        Err(MemberFault::Taken { .. }) => Err(JsonFault::DuplicateName { at }),
        Err(MemberFault::OutOfMemory) => Err(JsonFault::OutOfMemory),
    }
}

/// An object of these members, which keeps no more room than they take.
fn object_of(mut members: Members) -> Json
    ensures same { result ≡ Json.Object members }
    ensures distinct { AreDistinct (names_of members) }
{
    members.shrink_to_fit();
    let _names = members.names();
    Json::Object(members)
}

/// The value at the front of the bytes, and the rest. The room is how many arrays and objects may nest there.
#[cycle(read)]
fn value_at(
    alloc: Global,
    end: usize,
    room: usize,
    bytes: &[u8],
) -> Result<(Json, &[u8]), JsonFault>
    requires utf8 { IsUtf8 bytes.now }
    ensures ok { IfOk result (λ p. WholeAt (value_of p.0) room bytes.now p.1.now) }
    ensures goes_on { IfOk result (λ p. GoesOn bytes.now p.1.now) }
    ensures fault { IfErr result (UnlessMemory (ValueFault end room bytes.now)) }
{
    let too_deep = JsonFault::TooDeep {
        at: place(end, bytes),
    };
    if let Some(inside) = behind(bytes, b'[') {
        if room == 0 {
            return Err(too_deep);
        }
        let (items, left) = array_at(alloc, end, room - 1, inside)?;
        return Ok((Json::Array(items), left));
    }
    if let Some(inside) = behind(bytes, b'{') {
        if room == 0 {
            return Err(too_deep);
        }
        let (members, left) = object_at(alloc, end, room - 1, inside)?;
        return Ok((object_of(members), left));
    }
    let (scalar, left) = scalar_at(alloc, end, bytes)?;
    Ok((Json::Scalar(scalar), left))
}

/// The elements of an array behind its opening bracket, and the rest behind the closing one.
#[cycle(read)]
fn array_at(
    alloc: Global,
    end: usize,
    room: usize,
    bytes: &[u8],
) -> Result<(Items, &[u8]), JsonFault>
    requires utf8 { IsUtf8 bytes.now }
    ensures ok { IfOk result (λ p. ElementsAt (values_of p.0) room bytes.now p.1.now) }
    ensures goes_on { IfOk result (λ p. GoesOn bytes.now p.1.now) }
    ensures fault { IfErr result (UnlessMemory (ArrayFault end room bytes.now)) }
{
    let mut items = Items::new(alloc);
    let mut rest = skip_blanks(bytes);
    if let Some(after) = behind(rest, b']') {
        return Ok((items, after));
    }
    loop {
        let (value, after) = value_at(alloc, end, room, rest)?;
        items.push(value)?;
        match step_at(end, b']', after)? {
            Step::More(next) => rest = next,
            Step::Closed(left) => return Ok((items, left)),
        }
    }
}

/// The value of a member behind its name, and the rest.
#[cycle(read)]
fn member_at(
    alloc: Global,
    end: usize,
    room: usize,
    bytes: &[u8],
) -> Result<(Json, &[u8]), JsonFault>
    requires utf8 { IsUtf8 bytes.now }
    ensures ok { IfOk result (λ p. MemberAt (value_of p.0) room bytes.now p.1.now) }
    ensures goes_on { IfOk result (λ p. GoesOn bytes.now p.1.now) }
    ensures fault { IfErr result (UnlessMemory (BehindNameFault end room bytes.now)) }
{
    let inside = colon_at(end, bytes)?;
    let (value, after) = value_at(alloc, end, room, inside)?;
    Ok((value, after))
}

/// The members of an object behind its opening brace, and the rest behind the closing one.
#[cycle(read)]
fn object_at(
    alloc: Global,
    end: usize,
    room: usize,
    bytes: &[u8],
) -> Result<(Members, &[u8]), JsonFault>
    requires utf8 { IsUtf8 bytes.now }
    ensures ok { IfOk result (λ p. MembersAt (fields_of p.0) room bytes.now p.1.now) }
    ensures goes_on { IfOk result (λ p. GoesOn bytes.now p.1.now) }
    ensures fault { IfErr result (UnlessMemory (ObjectFault end room bytes.now)) }
{
    let mut members = Members::new(alloc);
    let mut rest = skip_blanks(bytes);
    if let Some(after) = behind(rest, b'}') {
        return Ok((members, after));
    }
    loop {
        let at = place(end, rest);
        let (name, colon) = name_at(alloc, end, rest)?;
        let (value, after) = match member_at(alloc, end, room, colon) {
            Ok(read) => read,
            Err(found) => return Err(member_fault(&members, &name, at, found)),
        };
        add_member(alloc, at, &mut members, name, value)?;
        match step_at(end, b'}', after)? {
            Step::More(next) => rest = next,
            Step::Closed(left) => return Ok((members, left)),
        }
    }
}

/// The value of a text whose bytes are in UTF-8.
fn read_front(alloc: Global, text: &[u8]) -> Result<Json, JsonFault>
    requires utf8 { IsUtf8 text.now }
    ensures ok { IfOk result (λ json. Spells text.now (value_of json)) }
    ensures fault { IfErr result (UnlessMemory (TextFault (length text.now) text.now)) }
{
    let bytes = skip_blanks(text);
    let (value, after) = value_at(alloc, text.len(), NESTING, bytes)?;
    let rest = skip_blanks(after);
    match rest.split_first() {
        None => Ok(value),
        Some(_) => Err(unexpected(text.len(), rest)),
    }
}

/// The fault of bytes whose longest front in UTF-8 has this length.
fn fault_before(alloc: Global, text: &[u8], valid: usize) -> JsonFault
    requires utf8 { IsUtf8 text.now → ⊥ }
    requires valid { IsValidUpTo text.now valid }
    ensures { UnlessMemory (Faults text.now) result }
{
    match read_front(alloc, &text[..valid]) {
        Err(fault) => at_cut(fault, valid),
        Ok(_) => JsonFault::BadByte { at: valid as u64 },
    }
}

/// Reads a JSON text (RFC 8259) within the limits: at most 256 arrays and objects nested, numbers of at
/// most 64 bytes, strings and names of at most 1,048,576 bytes in UTF-8, and no name twice in an object.
///
/// # Errors
///
/// What is first wrong in the text, read from left to right and construct by construct, as `JsonFault` tells it; or
/// `OutOfMemory`.
pub fn read(alloc: Global, text: &[u8]) -> Result<Json, JsonFault>
    // What is read is spelled so.
    ensures spelled { IfOk result (λ json. Spells text.now (value_of json)) }
    // What is spelled so is read so.
    ensures only { (v : Value) → Spells text.now v → IfOk result (λ json. value_of json ≡ v) }
    // Other texts are refused, and no others, unless memory runs out.
    ensures refused { IfErr result (Refuses ((v : Value) → Spells text.now v → ⊥)) }
    // A refusal is a fault of the text, construct by construct over the grammar.
    ensures fault { IfErr result (UnlessMemory (Faults text.now)) }
    // A text with a fault is refused with it, and with no other.
    ensures no_other { (f : JsonFault) → Faults text.now f → MatchResult result (λ _. ⊥) (UnlessMemory (λ e. e ≡ f)) }
{
    match str::from_utf8(text) {
        Ok(_) => read_front(alloc, text),
        Err(error) => Err(fault_before(alloc, text, error.valid_up_to())),
    }
}
