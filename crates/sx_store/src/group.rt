//! The group of a commit.
ghost use Rattle.std.specs.Prelude.{◌≡◌, ◌+◌, ◌<◌, ◌≤◌, ◌≤ℤ◌, ◌^◌, ◌++◌, [], ◌∷◌, IfErr, IfOk, OnOk, length};
ghost use Rattle.std.specs.FinMap as fin;
ghost use Rattle.sx_bytes.specs.Damage as damages;
ghost use Rattle.sx_layout.specs.FrameGroup.{FrameGroup, frame_group_bytes, frames_after, row_of};
ghost use Rattle.sx_layout.specs.Rules.{log_limit};
ghost use Rattle.sx_log.specs.Committing.{sealed_bytes};
ghost use Rattle.sx_log.specs.Room.{room_for};
ghost use Rattle.sx_model.specs.State.{State};
ghost use Rattle.sx_store.specs.Drafts.{IsReached, ShowsDraft};
ghost use Rattle.sx_store.specs.Groups.{HasRoom, IsGroupAfter, IsGroupFault, IsRoomFor, count_in};
ghost use Rattle.sx_store.specs.Shows.{records_of};
ghost use Rattle.sx_whole.specs.Body.{AreBelow, AreWhole, body_bytes};
ghost use Rattle.sx_whole.specs.Stands.{ShowsState, body_size, whole_frame};

use crate::draft::Draft;
use crate::fault::CommitFault;
use sha2::{Digest, Sha256};
use std::alloc::{AllocError, Global};
use sx_bytes::{FieldsOut, number_damage};
use sx_frame::{Frame, FrameRow};
use sx_log::RoomFault;
use sx_root::RevisionRoot;
use sx_tree::bytes::Bytes;
use sx_view::Records;
use sx_whole::WriteFault;

/// The kind of a frame that holds a whole document.
const WHOLE_KIND: u8 = 5;

/// The rule that a group tells of no more nodes than its next number.
pub const TOO_MANY_NODES: u8 = 13;

/// Bytes of a frame in front of its body.
const FRAME_HEAD: u64 = 5;

/// Bytes of a group with one frame beside the frame, the gate behind it among them.
const LEAST_GROUP: u64 = 117;

/// A frame, and what the table keeps of it.
#[derive(Drop)]
struct Sealed {
    bytes: Vec<u8>,
    row: FrameRow,
}

/// A group that comes next, with one frame.
#[derive(Drop)]
pub(crate) struct NewGroup {
    pub(crate) root: RevisionRoot,
    /// What the table keeps of its frame.
    pub(crate) row: FrameRow,
    /// Its bytes, with the closed gate behind it.
    pub(crate) bytes: Vec<u8>,
}

/// The group of the draft's document, which follows the last revision, has this time and stands at this place.
pub(crate) fn make_group(
    alloc: Global,
    last: &RevisionRoot,
    draft: &mut Draft,
    time: i64,
    place: u64,
) -> Result<NewGroup, CommitFault>
    requires frames { last.now.first_frame + last.now.frames ≤ log_limit }
    requires revisions { last.now.revision ≤ log_limit }
    requires after { last.now.time ≤ℤ time }
    ensures group { IfOk result (IsGroupAfter last.now) }
    ensures time { IfOk result (λ made. made.root.time ≡ time) }
    ensures shows { (state : State) → IsReached state → ShowsDraft state draft.old → frames_after last.now ≡ last.now.revision
        → IfOk result (λ made. (group : FrameGroup) × ShowsState (last.now.revision + 1) time state group × (made.root ≡ group.root) × (made.bytes.items ≡ sealed_bytes group)
        × (made.row ∷ [] ≡ group.table)) }
    ensures room { (state : State) → IsReached state → ShowsDraft state draft.old → HasRoom last.now (5 + body_size state) result }
    ensures fault { IfErr result (IsGroupFault place draft.old) }
    ensures same_nodes { records_of draft.new ≡ records_of draft.old }
    ensures same_paths { draft.new.paths ≡ draft.old.paths }
    ensures same_next { draft.new.next ≡ draft.old.next }
{
    let body = body_of(alloc, draft)?;
    let nodes = node_count(alloc, draft)?;
    let next = next_number(draft);
    check_nodes(place, next, nodes)?;
    let frames = last.first_frame + last.frames;
    check_room(frames, last.revision, &body)?;
    let sealed = seal_body(alloc, body)?;
    let root = RevisionRoot {
        revision: last.revision + 1,
        time,
        first_frame: frames,
        frames: 1,
        node_root: frames + 1,
        path_root: 0,
        next,
        nodes,
        paths: draft.paths.len(),
        body: sealed.row.bytes,
    };
    let bytes = group_bytes(alloc, &root, &sealed)?;
    let row = sealed.row;
    Ok(NewGroup { root, row, bytes })
}

/// The body of the draft's document.
fn body_of(alloc: Global, draft: &mut Draft) -> Result<Vec<u8>, CommitFault>
    ensures body { IfOk result (λ body. body.items ≡ body_bytes (fin.entries (records_of draft.old)) draft.old.paths.paths) }
    ensures whole { OnOk result (AreBelow (fin.entries (records_of draft.old)) → AreWhole (fin.entries (records_of draft.old)) draft.old.paths.paths) }
    ensures fault { IfErr result (λ fault. fault ≡ CommitFault.OutOfMemory) }
    ensures same_nodes { records_of draft.new ≡ records_of draft.old }
    ensures same_paths { draft.new.paths ≡ draft.old.paths }
    ensures same_next { draft.new.next ≡ draft.old.next }
{
    let mut out = FieldsOut::new(alloc);
    match sx_whole::write(alloc, &mut draft.nodes, &draft.paths, &mut out) {
        Ok(()) => Ok(out.into_vec()),
        // So many nodes fit no memory.
        Err(WriteFault::TooMany) => Err(CommitFault::OutOfMemory),
        Err(WriteFault::OutOfMemory) => Err(CommitFault::OutOfMemory),
    }
}

/// There is room for a group whose one frame has this body, in a log that has so many revisions, of one frame each.
fn check_room(frames: u32, revisions: u32, body: &[u8]) -> Result<(), CommitFault>
    ensures { IsRoomFor (room_for frames revisions ((5 + length body.now) ∷ [])) result }
{
    let frame = FRAME_HEAD + body.len() as u64;
    let length = u32::try_from(frame).unwrap_or(u32::MAX);
    match sx_log::room(frames, revisions, &[length]) {
        Ok(_) => Ok(()),
        Err(RoomFault::LogFull { frames, revisions }) => {
            Err(CommitFault::LogFull { frames, revisions })
        }
        Err(RoomFault::CommitTooLarge { .. }) => Err(CommitFault::CommitTooLarge {
            bytes: LEAST_GROUP + frame,
        }),
    }
}

/// The frame of a body for which there is room.
fn seal_body(alloc: Global, body: Vec<u8>) -> Result<Sealed, AllocError>
    requires small { length body.items < 2 ^ 28 }
    ensures bytes { IfOk result (λ sealed. sealed.bytes.items ≡ whole_frame body.items) }
    ensures row { IfOk result (λ sealed. sealed.row ≡ row_of (whole_frame body.items)) }
{
    let frame = Frame {
        kind: WHOLE_KIND,
        body: Bytes::from_vec(body),
    };
    let mut bytes = Vec::new(alloc);
    let digest = sx_frame::seal(&frame, &mut bytes)?;
    let row = FrameRow {
        bytes: bytes.len() as u32,
        digest,
    };
    Ok(Sealed { bytes, row })
}

/// How many nodes the document has, as its record tells.
fn node_count(alloc: Global, draft: &mut Draft) -> Result<u32, AllocError>
    ensures count { IfOk result (λ count. count ≡ count_in (fin.get (records_of draft.old) 0)) }
    ensures same_nodes { records_of draft.new ≡ records_of draft.old }
    ensures same_paths { draft.new.paths ≡ draft.old.paths }
    ensures same_next { draft.new.next ≡ draft.old.next }
{
    match draft.nodes.get(alloc, 0) {
        Ok(Some(document)) => Ok(document.descendants.saturating_add(1)),
        Ok(None) => Ok(1),
        // In memory a get fails for nothing else.
        Err(_) => Err(AllocError),
    }
}

/// A group at this place may tell of so many nodes.
fn check_nodes(place: u64, next: u32, nodes: u32) -> Result<(), CommitFault>
    ensures few { OnOk result (nodes ≤ next) }
    ensures fault { IfErr result (λ fault. (next < nodes) × (fault ≡ CommitFault.Damaged (damages.number_damage place TOO_MANY_NODES next nodes))) }
{
    if nodes > next {
        return Err(CommitFault::Damaged(number_damage(
            place,
            TOO_MANY_NODES,
            u64::from(next),
            u64::from(nodes),
        )));
    }
    Ok(())
}

/// The number that the next new node takes.
fn next_number(draft: &Draft) -> u32
    ensures number { result ≡ draft.now.next }
    ensures fits { result < 2 ^ 32 }
{
    draft.next
}

/// The bytes of the group with this root and this frame, with the closed gate behind it.
fn group_bytes(alloc: Global, root: &RevisionRoot, sealed: &Sealed) -> Result<Vec<u8>, AllocError>
    ensures { IfOk result (λ bytes. bytes.items ≡ frame_group_bytes (record { root = root.now; table = sealed.now.row ∷ []; body = sealed.now.bytes.items }) ++ 0 ∷ []) }
{
    let mut out = FieldsOut::new(alloc);
    root.write(&mut out)?;
    out.u32(sealed.row.bytes)?;
    out.bytes(&sealed.row.digest)?;
    let head = out.into_vec();
    let digest = Sha256::digest(&head);
    let mut bytes = head;
    bytes.extend_from_slice(&digest)?;
    bytes.extend_from_slice(&sealed.bytes)?;
    bytes.push(0)?;
    Ok(bytes)
}
