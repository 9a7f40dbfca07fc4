// The birth part of a volume is read, and tells whether it is born. Nothing is written.
ghost use Rattle.std.specs.Prelude.{◌≡◌, ◌+◌, ◌≤◌, ◌<◌, ◌++◌, ◌∷◌, ◌↔◌, ◌≢◌, List, Some, true, length, take, drop, IfSome, IfNone, IfOk, IfErr, OnErr, OnOk, IsSome, IsTrue, IsErrOf, slice_get, ℕ};
ghost use Rattle.std.specs.Option.{option_map};
ghost use Rattle.std.specs.Str.{is_utf8};
ghost use Rattle.sha2.specs.Sha256.{sha256};
ghost use Rattle.sx_frame.specs.Violation.{damage_at};
ghost use Rattle.sx_layout.specs.Birth.{AreFields, are_names, birth_rules, fields_bytes, is_name, magic, part_bytes};
ghost use Rattle.sx_layout.specs.Rule.{first_broken};
ghost use Rattle.sx_log.specs.Calls.{OnlyReads};
ghost use Rattle.sx_log.specs.Finding.{Finds, HasFields, HasFront, IsBornFinding, IsWhole, fields_in};
ghost use Rattle.sx_outside.specs.Faults.{Rose};

use sha2::{Digest, Sha256};
use std::str;
use sx_bytes::{Damage, Fields, number_damage};
use sx_outside::Failed;
use sx_volume::Volume;

/// The first bytes of a birth part.
pub(crate) const MAGIC: [u8; 8] = *b"SXSNAP01";

/// The format that this program writes and reads: one frame a group, with a whole document.
pub(crate) const FORMAT: u8 = 0;

/// The byte of a gate that is not open.
pub(crate) const CLOSED: u8 = 0;

/// The byte of a gate that is open: behind it stands the birth part, or a group.
pub(crate) const OPEN: u8 = 1;

/// Bytes of the birth gate and the birth part.
pub(crate) const BIRTH_BYTES: usize = 173;

/// Bytes of these and of the gate of the first group.
pub(crate) const BORN_BYTES: u64 = 174;

// What stands behind a name.
pub(crate) const ZEROS: [u8; 64] = [0; 64];

/// The fields of a birth part, as they stand there.
#[derive(Clone, Copy)]
pub(crate) struct GivenFields {
    pub(crate) format: u8,
    pub(crate) window: u8,
    pub(crate) from_length: u8,
    pub(crate) from: [u8; 64],
    pub(crate) to_length: u8,
    pub(crate) to: [u8; 64],
    pub(crate) digest: [u8; 32],
}

// The first byte, and the fields behind it where they begin with the magic.
struct Front {
    first: u8,
    given: Option<GivenFields>,
}

/// What is found at the front of a volume.
pub(crate) enum Finding {
    Unborn,
    Born(GivenFields),
    NotOurs(u8),
}

/// The byte at this place.
pub(crate) fn byte_at<V: Volume>(volume: &mut V, place: u64) -> Result<u8, Failed>
    requires { place < V.size volume.old }
    ensures byte { IfOk result (λ byte. IfSome (V.bytes volume.old) (λ all. slice_get all place ≡ Some byte)) }
    ensures counted { V.bytes_read volume.new ≤ V.bytes_read volume.old + 1 }
    ensures cause { OnErr result (Rose (V.faults volume.old) (V.faults volume.new)) }
    ensures no_fault { OnOk result (V.faults volume.new ≡ V.faults volume.old) }
    ensures kept { OnlyReads V.Volume volume.old volume.new }
{
    let mut room = [0];
    volume.read_at(place, &mut room)?;
    Ok(room[0])
}

// The fields of the bytes at places 1 to 172. None exactly where they do not begin with the magic.
fn given_fields(part: &[u8]) -> Option<GivenFields>
    requires { length part.now ≡ 172 }
    ensures some { IfSome result (λ given. AreFields (fields_in given) × (part.now ≡ part_bytes (fields_in given))) }
    ensures none { IfNone result (take 8 part.now ≢ magic) }
{
    let mut fields = Fields::new(part);
    let magic = chunk::<8>(&mut fields)?;
    let format = fields.u8()?;
    let window = fields.u8()?;
    let from_length = fields.u8()?;
    let from = chunk::<64>(&mut fields)?;
    let to_length = fields.u8()?;
    let to = chunk::<64>(&mut fields)?;
    let digest = chunk::<32>(&mut fields)?;
    if magic != MAGIC {
        return None;
    }
    Some(GivenFields {
        format,
        window,
        from_length,
        from,
        to_length,
        to,
        digest,
    })
}

/// The next N bytes.
pub(crate) fn chunk<const N: usize>(fields: &mut Fields) -> Option<[u8; N]>
    ensures enough { IsSome result ↔ (N ≤ length fields.old) }
    ensures written { IfSome result (λ piece. (fields.old ≡ piece ++ fields.new) × (length piece ≡ N)) }
    ensures none { IfNone result (fields.new ≡ fields.old) }
{
    let (piece, rest) = fields.rest().split_first_chunk::<N>()?;
    *fields = Fields::new(rest);
    Some(*piece)
}

// The first rule that these fields break.
pub(crate) fn birth_damage(given: &GivenFields) -> Option<Damage>
    ensures { result ≡ option_map (damage_at 1) (first_broken (birth_rules (fields_in given.now))) }
{
    let found = digest_of(given);
    if given.digest != found {
        return Some(Damage {
            place: 1,
            rule: 1,
            kept: given.digest,
            found,
        });
    }
    if given.format != FORMAT {
        return Some(number_damage(1, 2, u64::from(FORMAT), u64::from(given.format)));
    }
    if given.window < 1 || given.window > 8 {
        return Some(number_damage(1, 3, 8, u64::from(given.window)));
    }
    if !are_names(given) {
        return Some(number_damage(1, 4, 0, u64::from(given.from_length)));
    }
    None
}

// The digest that the fields ought to have.
fn digest_of(given: &GivenFields) -> [u8; 32]
    ensures { result ≡ sha256 (fields_bytes (fields_in given.now)) }
{
    let mut hasher = Sha256::new();
    hasher.update(MAGIC.as_slice());
    hasher.update([given.format, given.window, given.from_length].as_slice());
    hasher.update(given.from.as_slice());
    hasher.update([given.to_length].as_slice());
    hasher.update(given.to.as_slice());
    hasher.finalize()
}

// Whether both names are names, and differ.
fn are_names(given: &GivenFields) -> bool
    ensures { result ≡ are_names (fields_in given.now) }
{
    is_name(given.from_length, &given.from)
        && is_name(given.to_length, &given.to)
        && given.from[..usize::from(given.from_length)] != given.to[..usize::from(given.to_length)]
}

// Whether it is a name of 1 to 64 bytes in UTF-8, with zeros behind it.
fn is_name(count: u8, bytes: &[u8; 64]) -> bool
    ensures value { result ≡ is_name count bytes.now }
    ensures short { result ≡ true → count ≤ 64 }
{
    if count < 1 || count > 64 {
        return false;
    }
    let (name, behind) = bytes.split_at(usize::from(count));
    let (_, zeros) = ZEROS.split_at(usize::from(count));
    is_text(name) && behind == zeros
}

// Whether the bytes are UTF-8.
fn is_text(bytes: &[u8]) -> bool
    ensures { result ≡ is_utf8 bytes.now }
{
    match str::from_utf8(bytes) {
        Ok(_) => true,
        Err(_) => false,
    }
}

/// What is found at the front of the volume.
pub(crate) fn find_birth<V: Volume>(volume: &mut V) -> Result<Finding, Failed>
    ensures found { IfOk result (λ finding. IfSome (V.bytes volume.old) (λ image. Finds image finding)) }
    ensures fields { IfOk result HasFields }
    ensures long { IfOk result (λ finding. IsBornFinding finding → 174 ≤ V.size volume.old) }
    ensures counted { V.bytes_read volume.new ≤ V.bytes_read volume.old + 174 }
    ensures counted_born { IfOk result (λ finding. IsBornFinding finding → V.bytes_read volume.new ≤ V.bytes_read volume.old + 173) }
    ensures cause { OnErr result (Rose (V.faults volume.old) (V.faults volume.new)) }
    ensures no_fault { OnOk result (V.faults volume.new ≡ V.faults volume.old) }
    ensures kept { OnlyReads V.Volume volume.old volume.new }
{
    let len = volume.len();
    if len <= 1 {
        return Ok(Finding::Unborn);
    }
    if len < BORN_BYTES {
        let first = byte_at(volume, 0)?;
        return Ok(match first {
            CLOSED => Finding::Unborn,
            _ => Finding::NotOurs(first),
        });
    }
    find_whole(volume, len)
}

// The same over a volume that has the bytes of a birth part and of the first gate.
fn find_whole<V: Volume>(volume: &mut V, len: u64) -> Result<Finding, Failed>
    requires len { V.size volume.old ≡ len }
    requires long { 174 ≤ len }
    ensures found { IfOk result (λ finding. IfSome (V.bytes volume.old) (λ image. Finds image finding)) }
    ensures fields { IfOk result HasFields }
    ensures counted { V.bytes_read volume.new ≤ V.bytes_read volume.old + 174 }
    ensures counted_born { IfOk result (λ finding. IsBornFinding finding → V.bytes_read volume.new ≤ V.bytes_read volume.old + 173) }
    ensures cause { OnErr result (Rose (V.faults volume.old) (V.faults volume.new)) }
    ensures no_fault { OnOk result (V.faults volume.new ≡ V.faults volume.old) }
    ensures kept { OnlyReads V.Volume volume.old volume.new }
{
    let Front { first, given } = read_front(volume)?;
    if first == CLOSED {
        return Ok(Finding::Unborn);
    }
    let Some(given) = given else {
        return Ok(Finding::NotOurs(first));
    };
    if first == OPEN {
        return Ok(Finding::Born(given));
    }
    if is_whole(volume, len, &given)? {
        return Ok(Finding::Unborn);
    }
    Ok(Finding::NotOurs(first))
}

// The first byte, and the fields behind it, where they begin with the magic.
fn read_front<V: Volume>(volume: &mut V) -> Result<Front, Failed>
    requires { 174 ≤ V.size volume.old }
    ensures front { IfOk result (λ front. IfSome (V.bytes volume.old) (λ all. HasFront all front.first front.given)) }
    ensures fields { IfOk result (λ front. IfSome front.given (λ given. AreFields (fields_in given))) }
    ensures counted { V.bytes_read volume.new ≤ V.bytes_read volume.old + 173 }
    ensures cause { OnErr result (Rose (V.faults volume.old) (V.faults volume.new)) }
    ensures no_fault { OnOk result (V.faults volume.new ≡ V.faults volume.old) }
    ensures kept { OnlyReads V.Volume volume.old volume.new }
{
    let mut room = [0; BIRTH_BYTES];
    volume.read_at(0, &mut room)?;
    let given = given_fields(&room[1..]);
    Ok(Front {
        first: room[0],
        given,
    })
}

// Whether the volume ends with these fields, which keep their rules, and a closed gate.
fn is_whole<V: Volume>(volume: &mut V, len: u64, given: &GivenFields) -> Result<bool, Failed>
    requires len { V.size volume.old ≡ len }
    requires long { 174 ≤ len }
    ensures whole { IfOk result (λ whole. IfSome (V.bytes volume.old) (λ all. IsTrue whole ↔ IsWhole all (fields_in given.now))) }
    ensures counted { V.bytes_read volume.new ≤ V.bytes_read volume.old + 1 }
    ensures cause { OnErr result (Rose (V.faults volume.old) (V.faults volume.new)) }
    ensures no_fault { OnOk result (V.faults volume.new ≡ V.faults volume.old) }
    ensures kept { OnlyReads V.Volume volume.old volume.new }
{
    let gate = byte_at(volume, BORN_BYTES - 1)?;
    Ok(len == BORN_BYTES && gate == CLOSED && birth_damage(given).is_none())
}
