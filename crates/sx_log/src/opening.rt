// A volume is opened: its birth part is read, and then of each group behind an open gate the head, the table and their digest, and no
// frame. Nothing is written.
ghost use Rattle.std.specs.Int.{from_be_bytes, w32};
ghost use Rattle.std.specs.Prelude.{◌≡◌, ◌≢◌, ◌+◌, ◌*◌, ◌-◌, ◌^◌, ◌<◌, ◌≤◌, ◌++◌, ◌∷◌, ◌⊎◌, [], List, ℕ, None, true, false, length, take, drop, IfSome, IfNone, IfOk, IfErr, OnOk, OnErr, IsErrOf, IsSome, IsTrue, if◌then◌else◌};
ghost use Rattle.sx_frame.specs.Violation.{damage_at, tell};
ghost use Rattle.sx_layout.specs.Birth.{IsBirth, birth_part, birth_rules, is_name, told_birth};
ghost use Rattle.sx_layout.specs.Born.{Reading, Reads};
ghost use Rattle.sx_layout.specs.FrameGroup.{AreRows, IsRow, first_root, row_bytes, table_bytes};
ghost use Rattle.sx_layout.specs.Rule.{first_broken};
ghost use Rattle.sx_layout.specs.Rules.{size_rules};
ghost use Rattle.sx_log.specs.Calls.{GoesOn, IsSettled, IsSynced, IsSyncedOrNot, OnlyReads};
ghost use Rattle.sx_log.specs.Creating.{IsOther, birth_of};
ghost use Rattle.sx_log.specs.Finding.{fields_in};
ghost use Rattle.sx_log.specs.Kept.{listed, opened_size, root_behind, rows_size};
ghost use Rattle.sx_log.specs.Opening.{Begins, Explains, IsCounted, IsGiven, IsGroupAt, IsOpened, IsPartAt, TellsFault};
ghost use Rattle.sx_outside.specs.Faults.{Rose};
ghost use Rattle.sx_root.specs.Root.{IsRoot, mark, root_bytes};

use crate::creation::begin;
use crate::log::Pending;
use crate::reading::{
    BIRTH_BYTES, Finding, GivenFields, OPEN, birth_damage, byte_at, chunk, find_birth,
};
use crate::rules::{DIGEST_BYTES, HEAD_BYTES, part_damage, size_damage, size_of};
use crate::{Birth, GroupRow, Groups, Log, LogFault};
use std::alloc::{AllocError, Global};
use sx_bytes::{Damage, Fields, number_damage};
use sx_frame::{FrameList, FrameRow};
use sx_outside::Failed;
use sx_root::RevisionRoot;
use sx_tree::text::{Text, TextFault};
use sx_volume::Volume;

/// The first four bytes of a revision's head, as a number.
const MARK: u64 = 0x5358_4752;

/// Bytes of a row of a table.
pub(crate) const ROW_BYTES: usize = 36;

/// The root of revision 0, which is not stored.
const FIRST_ROOT: RevisionRoot = RevisionRoot {
    revision: 0,
    time: i64::MIN,
    first_frame: 0,
    frames: 0,
    node_root: 0,
    path_root: 0,
    next: 1,
    nodes: 1,
    paths: 0,
    body: 0,
};

// A head as it stands there, and what it tells.
#[derive(Clone, Copy)]
struct Head {
    bytes: [u8; 48],
    root: RevisionRoot,
}

/// Opens the log of a volume. It syncs, and then reads the birth part, and the gates, heads and tables of the groups.
///
/// `Unborn` and `NotOurs` come where the volume is such, `Damaged` for the first rule that is broken, and `Failed` only where a call of
/// the volume failed. Nothing is written.
pub fn open<V: Volume>(alloc: Global, volume: &mut V) -> Result<Log, LogFault>
    // The volume's bytes have one reading by their definition, and it is the one that is given.
    ensures exactly { IfSome (V.bytes volume.old) (λ image. (reading : Reading) → Reads image reading → IsGiven reading result) }
    ensures explains { IfErr result (Explains (V.bytes volume.old)) }
    ensures log { IfOk result (IsOpened (V.bytes volume.old) (V.size volume.new)) }

    ensures calm { OnOk result (IsTrue (V.calm volume.new)) }
    ensures settled { OnOk result (IsSettled V.Volume volume.new) }
    ensures same_bytes { OnOk result (V.bytes volume.new ≡ V.bytes volume.old) }
    ensures nothing_done { IfErr result (λ fault. fault ≢ LogFault.Failed → V.bytes volume.new ≡ V.bytes volume.old) }
    ensures told { IsSome (V.bytes volume.old) → IsSome (V.bytes volume.new) }
    ensures same_size { V.size volume.new ≡ V.size volume.old }
    ensures same_held { V.held volume.new ≡ V.held volume.old }
    ensures synced { OnOk result (IfSome (V.bytes volume.old) (λ image. IsSynced V.Volume image volume.old volume.new)) }
    ensures synced_or_not { OnErr result (IsSyncedOrNot V.Volume volume.old volume.new) }
    ensures counted { IfOk result (λ log. V.bytes_read volume.new ≤ V.bytes_read volume.old + opened_size log) }
    ensures counted_err { OnErr result (IsCounted (V.bytes volume.old) (V.size volume.old) (V.bytes_read volume.new - V.bytes_read volume.old)) }
    ensures cause { IsErrOf result LogFault.Failed → Rose (V.faults volume.old) (V.faults volume.new) }
    ensures no_fault { (IsErrOf result LogFault.Failed → ⊥) → V.faults volume.new ≡ V.faults volume.old }
    ensures on { GoesOn V.Volume volume.old volume.new }
{
    begin(alloc, volume, 1)?;
    read_log(alloc, volume)
}

// The log of a volume, as it is read.
fn read_log<V: Volume>(alloc: Global, volume: &mut V) -> Result<Log, LogFault>
    ensures log { IfOk result (IsOpened (V.bytes volume.old) (V.size volume.old)) }
    ensures explains { IfErr result (Explains (V.bytes volume.old)) }
    ensures counted { IfOk result (λ log. V.bytes_read volume.new ≤ V.bytes_read volume.old + opened_size log) }
    ensures counted_err { OnErr result (IsCounted (V.bytes volume.old) (V.size volume.old) (V.bytes_read volume.new - V.bytes_read volume.old)) }
    ensures cause { IsErrOf result LogFault.Failed → Rose (V.faults volume.old) (V.faults volume.new) }
    ensures no_fault { (IsErrOf result LogFault.Failed → ⊥) → V.faults volume.new ≡ V.faults volume.old }
    ensures kept { OnlyReads V.Volume volume.old volume.new }
{
    match find_birth(volume)? {
        Finding::Unborn => Err(LogFault::Unborn),
        Finding::NotOurs(first) => Err(LogFault::NotOurs { first }),
        Finding::Born(given) => {
            if let Some(damage) = birth_damage(&given) {
                return Err(LogFault::Damaged(damage));
            }
            let birth = birth_from(alloc, &given)?;
            read_groups(alloc, volume, birth)
        }
    }
}

// The birth that fields tell which keep the rules.
fn birth_from(alloc: Global, given: &GivenFields) -> Result<Birth, AllocError>
    requires { first_broken (birth_rules (fields_in given.now)) ≡ None }
    ensures { IfOk result (λ birth. birth_of birth ≡ told_birth (fields_in given.now)) }
{
    Ok(Birth {
        window: given.window,
        from: name_from(alloc, given.from_length, &given.from)?,
        to: name_from(alloc, given.to_length, &given.to)?,
    })
}

// The name of so many bytes.
fn name_from(alloc: Global, count: u8, bytes: &[u8; 64]) -> Result<Text, AllocError>
    requires { is_name count bytes.now ≡ true }
    ensures { IfOk result (λ name. name ≡ take count bytes.now) }
{
    match Text::new(alloc, &bytes[..usize::from(count)]) {
        Ok(name) => Ok(name),
        Err(TextFault::NotUtf8 { .. }) => unreachable!("a name is UTF-8"),
        Err(TextFault::TooLong { .. }) => unreachable!("a name is short"),
        Err(TextFault::OutOfMemory) => Err(AllocError),
    }
}

// Reads the groups from the first gate up to the first that is not open.
fn read_groups<V: Volume>(alloc: Global, volume: &mut V, birth: Birth) -> Result<Log, LogFault>
    requires birth { IsBirth (birth_of birth) }
    requires long { 174 ≤ V.size volume.old }
    requires front { IfSome (V.bytes volume.old) (λ all. (rest : List ℕ) × (all ≡ 1 ∷ (birth_part (birth_of birth) ++ rest))) }
    ensures log { IfOk result (IsOpened (V.bytes volume.old) (V.size volume.old)) }
    ensures explains { IfErr result (Explains (V.bytes volume.old)) }
    ensures counted { IfOk result (λ log. V.bytes_read volume.new ≤ V.bytes_read volume.old + (1 + rows_size (listed log.groups))) }
    ensures counted_err { OnErr result (IsCounted (V.bytes volume.old) (V.size volume.old) (173 + (V.bytes_read volume.new - V.bytes_read volume.old))) }
    ensures cause { IsErrOf result LogFault.Failed → Rose (V.faults volume.old) (V.faults volume.new) }
    ensures no_fault { (IsErrOf result LogFault.Failed → ⊥) → V.faults volume.new ≡ V.faults volume.old }
    ensures kept { OnlyReads V.Volume volume.old volume.new }
{
    let len = volume.len();
    let mut log = Log {
        birth,
        groups: Groups {
            rows: Vec::new(alloc),
        },
        end: BIRTH_BYTES as u64,
        pending: Pending::Nothing,
    };
    while read_next(alloc, volume, len, &mut log)? {}
    Ok(log)
}

// Where the gate behind the groups is open, reads the group behind it. The volume has this length.
fn read_next<V: Volume>(
    alloc: Global,
    volume: &mut V,
    len: u64,
    log: &mut Log,
) -> Result<bool, LogFault>
    requires len { V.size volume.old ≡ len }
    requires begins { Begins (V.bytes volume.old) (V.size volume.old) log.old }
    ensures begins { OnOk result (Begins (V.bytes volume.old) (V.size volume.old) log.new) }
    ensures more { IfOk result (λ more. more ≡ true → log.old.end < log.new.end) }
    ensures opened { IfOk result (λ more. more ≡ false → IsOpened (V.bytes volume.old) (V.size volume.old) log.new) }
    ensures explains { IfErr result (Explains (V.bytes volume.old)) }
    ensures counted { IfOk result (λ more. V.bytes_read volume.new + opened_size log.old
        ≤ V.bytes_read volume.old + opened_size log.new + (if more then 0 else 1)) }
    ensures counted_err { OnErr result (IsCounted (V.bytes volume.old) (V.size volume.old)
        (173 + (rows_size (listed log.old.groups) + (V.bytes_read volume.new - V.bytes_read volume.old)))) }
    ensures cause { IsErrOf result LogFault.Failed → Rose (V.faults volume.old) (V.faults volume.new) }
    ensures no_fault { (IsErrOf result LogFault.Failed → ⊥) → V.faults volume.new ≡ V.faults volume.old }
    ensures kept { OnlyReads V.Volume volume.old volume.new }
{
    if byte_at(volume, log.end)? != OPEN {
        return Ok(false);
    }
    let place = log.end + 1;
    let last = last_of(&log.groups);
    let row = read_group(alloc, volume, place, len - place, &last)?;
    let size = size_of(&row.root);
    log.groups.rows.push(row)?;
    log.end += size;
    Ok(true)
}

// The root of the last group, or of revision 0 where there is none.
fn last_of(groups: &Groups) -> RevisionRoot
    ensures { result ≡ root_behind first_root (listed groups.now) }
{
    match groups.rows.last() {
        Some(row) => row.root,
        None => FIRST_ROOT,
    }
}

// Reads the head, the table and the digest of the group at this place, with so many bytes left, behind a group with the root `last`.
fn read_group<V: Volume>(
    alloc: Global,
    volume: &mut V,
    place: u64,
    left: u64,
    last: &RevisionRoot,
) -> Result<GroupRow, LogFault>
    requires left { V.size volume.old ≡ place + left }
    requires fits { place + left < 2 ^ 64 }
    ensures group { IfOk result (IsGroupAt (V.bytes volume.old) place left last.now) }
    ensures tells { IfErr result (TellsFault (V.bytes volume.old) place left last.now) }
    ensures counted { IfOk result (λ row. V.bytes_read volume.new ≤ V.bytes_read volume.old + (80 + 36 * row.root.frames)) }
    ensures counted_err { OnErr result (IsPartAt (V.bytes volume.old) place left (V.bytes_read volume.new - V.bytes_read volume.old)) }
    ensures cause { IsErrOf result LogFault.Failed → Rose (V.faults volume.old) (V.faults volume.new) }
    ensures no_fault { (IsErrOf result LogFault.Failed → ⊥) → V.faults volume.new ≡ V.faults volume.old }
    ensures kept { OnlyReads V.Volume volume.old volume.new }
{
    if left < HEAD_BYTES as u64 {
        return Err(LogFault::Damaged(number_damage(place, 6, left, HEAD_BYTES as u64)));
    }
    let bytes = read_head(volume, place)?;
    let Some(root) = RevisionRoot::read(&mut Fields::new(&bytes)) else {
        return Err(LogFault::Damaged(mark_damage(place, &bytes)));
    };
    if let Some(damage) = size_damage(place, left, &root) {
        return Err(LogFault::Damaged(damage));
    }
    read_rest(alloc, volume, place, last, &Head { bytes, root })
}

// The 48 bytes at this place.
fn read_head<V: Volume>(volume: &mut V, place: u64) -> Result<[u8; 48], Failed>
    requires { place + 48 ≤ V.size volume.old }
    ensures head { IfOk result (λ head. IfSome (V.bytes volume.old) (λ all. head ≡ take 48 (drop place all))) }
    ensures long { IfOk result (λ head. length head ≡ 48) }
    ensures counted { V.bytes_read volume.new ≤ V.bytes_read volume.old + 48 }
    ensures cause { OnErr result (Rose (V.faults volume.old) (V.faults volume.new)) }
    ensures no_fault { OnOk result (V.faults volume.new ≡ V.faults volume.old) }
    ensures kept { OnlyReads V.Volume volume.old volume.new }
{
    let mut room = [0; HEAD_BYTES];
    volume.read_at(place, &mut room)?;
    Ok(room)
}

// Rule 5, of a head that does not begin with the mark.
fn mark_damage(place: u64, head: &[u8; 48]) -> Damage
    ensures { result ≡ damage_at place (tell 5 (from_be_bytes w32 mark) (from_be_bytes w32 (take 4 head.now))) }
{
    let found = u32::from_be_bytes([head[0], head[1], head[2], head[3]]);
    number_damage(place, 5, MARK, u64::from(found))
}

// Reads what stands behind this head of the group at this place up to its frames, and tests it.
fn read_rest<V: Volume>(
    alloc: Global,
    volume: &mut V,
    place: u64,
    last: &RevisionRoot,
    head: &Head,
) -> Result<GroupRow, LogFault>
    requires below { place ≤ V.size volume.old }
    requires fits { V.size volume.old < 2 ^ 64 }
    requires root { IsRoot head.now.root }
    requires head { head.now.bytes ≡ root_bytes head.now.root }
    requires there { IfSome (V.bytes volume.old) (λ all. head.now.bytes ≡ take 48 (drop place all)) }
    requires size { first_broken (size_rules (V.size volume.old - place) head.now.root) ≡ None }
    ensures group { IfOk result (IsGroupAt (V.bytes volume.old) place (V.size volume.old - place) last.now) }
    ensures root { IfOk result (λ row. row.root ≡ head.now.root) }
    ensures tells { IfErr result (TellsFault (V.bytes volume.old) place (V.size volume.old - place) last.now) }
    ensures counted { V.bytes_read volume.new ≤ V.bytes_read volume.old + (32 + 36 * head.now.root.frames) }
    ensures cause { IsErrOf result LogFault.Failed → Rose (V.faults volume.old) (V.faults volume.new) }
    ensures no_fault { (IsErrOf result LogFault.Failed → ⊥) → V.faults volume.new ≡ V.faults volume.old }
    ensures kept { OnlyReads V.Volume volume.old volume.new }
{
    let root = head.root;
    let behind = read_behind(alloc, volume, place + HEAD_BYTES as u64, root.frames)?;
    let table = read_table(alloc, &behind, root.frames)?;
    if let Some(damage) = part_damage(place, last, &root, &head.bytes, &behind, table.as_slice()) {
        return Err(LogFault::Damaged(damage));
    }
    Ok(GroupRow { root, place, table })
}

// The rows of so many frames at this place, and the digest behind them.
fn read_behind<V: Volume>(
    alloc: Global,
    volume: &mut V,
    place: u64,
    frames: u32,
) -> Result<Vec<u8>, LogFault>
    requires { place + (36 * frames + 32) ≤ V.size volume.old }
    ensures bytes { IfOk result (λ bytes. IfSome (V.bytes volume.old) (λ all. bytes.items ≡ take (36 * frames + 32) (drop place all))) }
    ensures long { IfOk result (λ bytes. length bytes.items ≡ 36 * frames + 32) }
    ensures other { IfErr result IsOther }
    ensures counted { V.bytes_read volume.new ≤ V.bytes_read volume.old + (32 + 36 * frames) }
    ensures cause { IsErrOf result LogFault.Failed → Rose (V.faults volume.old) (V.faults volume.new) }
    ensures no_fault { (IsErrOf result LogFault.Failed → ⊥) → V.faults volume.new ≡ V.faults volume.old }
    ensures kept { OnlyReads V.Volume volume.old volume.new }
{
    let count = ROW_BYTES * frames as usize + DIGEST_BYTES;
    let mut bytes = vec![in alloc; 0; count]?;
    volume.read_at(place, &mut bytes)?;
    Ok(bytes)
}

/// The table of so many frames at the front of the bytes, behind which a digest stands.
pub(crate) fn read_table(alloc: Global, bytes: &[u8], frames: u32) -> Result<FrameList, AllocError>
    requires { length bytes.now ≡ 36 * frames + 32 }
    ensures written { IfOk result (λ table. (rest : List ℕ) × (bytes.now ≡ table_bytes table ++ rest)) }
    ensures rows { IfOk result AreRows }
    ensures count { IfOk result (λ table. length table ≡ frames) }
{
    let mut fields = Fields::new(bytes);
    let mut table = FrameList::new(alloc);
    while let Some(row) = next_row(&mut fields) {
        table.push(row)?;
    }
    Ok(table)
}

// The row at the front. None where too few bytes are left for it.
fn next_row(fields: &mut Fields) -> Option<FrameRow>
    ensures written { IfSome result (λ row. IsRow row × (fields.old ≡ row_bytes row ++ fields.new)) }
    ensures none { IfNone result (length fields.old < 36) }
{
    if fields.left() < ROW_BYTES {
        return None;
    }
    let bytes = fields.u32()?;
    let digest = chunk::<DIGEST_BYTES>(fields)?;
    Some(FrameRow { bytes, digest })
}
