//! The nodes of a body.
ghost use Rattle.std.specs.Prelude.{◌≡◌, ◌+◌, ◌<◌, ◌≤◌, ◌^◌, ◌++◌, [], ◌∷◌, ◌≢◌, IfErr, IfOk, List, ℕ, length, flat_map};
ghost use Rattle.std.specs.Int.{w32, to_be_bytes};
ghost use Rattle.sx_record.specs.Spelling.{IsNode, node_bytes, node_fields};
ghost use Rattle.sx_whole.specs.Body.{AscendFrom, after_last, listed, node_entry};
ghost use Rattle.sx_whole.specs.Broken.{BreaksFirst, BreaksNode, BreaksNodes, BreaksNumber, Explains};

use crate::fault::{WholeFault, broken_length, broken_record};
use std::alloc::Global;
use sx_bytes::Fields;
use sx_record::Record;
use sx_tree::record::NodeRecord;
use sx_view::{MemRecords, Records, RecordsMut};

/// The number at the front, for which 4 bytes are left.
pub(crate) fn read_number(fields: &mut Fields, place: u64) -> Result<u32, WholeFault>
    ensures found { IfOk result (λ number. fields.old ≡ to_be_bytes w32 number ++ fields.new) }
    ensures fault { IfErr result (λ fault. Explains (BreaksNumber place fields.old) fault
        × (fault ≢ WholeFault.OutOfMemory)) }
{
    match fields.u32() {
        Some(number) => Ok(number),
        None => Err(broken_length(place, fields)),
    }
}

/// The node at the front, whose number is this one or above.
fn read_node(
    alloc: Global,
    fields: &mut Fields,
    least: u32,
    place: u64,
) -> Result<(u32, NodeRecord), WholeFault>
    ensures found { IfOk result (λ e. fields.old ≡ node_entry e ++ fields.new) }
    ensures number { IfOk result (λ e. (least ≤ e.0) × (e.0 < 1_073_741_824)) }
    ensures known { IfOk result (λ e. IsNode e.1) }
    ensures fault { IfErr result (Explains (BreaksNode place least fields.old)) }
{
    let number = read_number(fields, place)?;
    if number < least || number >= 1_073_741_824 {
        return Err(broken_record(place, number));
    }
    match NodeRecord::decode(alloc, fields)? {
        Some(node) => Ok((number, node)),
        None => Err(broken_record(place, number)),
    }
}

/// So many nodes at the front.
fn read_all(
    alloc: Global,
    fields: &mut Fields,
    count: u32,
    place: u64,
) -> Result<MemRecords<NodeRecord>, WholeFault>
    ensures found { IfOk result (λ nodes. fields.old ≡ flat_map node_entry (listed
        (⟦<MemRecords<NodeRecord> as Records<NodeRecord>>⟧.told nodes)) ++ fields.new) }
    ensures ascend { IfOk result (λ nodes. AscendFrom 0 (listed
        (⟦<MemRecords<NodeRecord> as Records<NodeRecord>>⟧.told nodes))) }
    ensures count { IfOk result (λ nodes. length (listed
        (⟦<MemRecords<NodeRecord> as Records<NodeRecord>>⟧.told nodes)) ≡ count) }
    ensures fault { IfErr result (Explains (BreaksNodes place count fields.old)) }
{
    let mut nodes = MemRecords::new(alloc);
    let mut least = 0;
    for _ in 0..count {
        let (number, node) = read_node(alloc, fields, least, place)?;
        nodes.put(alloc, number, node)?;
        least = number + 1;
    }
    Ok(nodes)
}

/// The number of nodes at the front, and so many nodes.
pub(crate) fn read_nodes(
    alloc: Global,
    fields: &mut Fields,
    place: u64,
) -> Result<(u32, MemRecords<NodeRecord>), WholeFault>
    ensures found { IfOk result (λ all. let nodes = listed
        (⟦<MemRecords<NodeRecord> as Records<NodeRecord>>⟧.told all.1) in
        fields.old ≡ to_be_bytes w32 (length nodes) ++ (flat_map node_entry nodes ++ fields.new)) }
    ensures ascend { IfOk result (λ all. AscendFrom 0 (listed
        (⟦<MemRecords<NodeRecord> as Records<NodeRecord>>⟧.told all.1))) }
    ensures count { IfOk result (λ all. all.0 ≡ length (listed
        (⟦<MemRecords<NodeRecord> as Records<NodeRecord>>⟧.told all.1))) }
    ensures fault { IfErr result (Explains (BreaksFirst place fields.old)) }
{
    let count = read_number(fields, place)?;
    let nodes = read_all(alloc, fields, count, place)?;
    Ok((count, nodes))
}
