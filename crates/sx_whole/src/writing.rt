//! The body of a document.
ghost use Rattle.std.specs.Prelude.{◌≡◌, ◌+◌, ◌<◌, ◌≤◌, ◌^◌, ◌++◌, ◌∷◌, IfErr, IfSome, IsSome, OnErr, OnOk, length, take, flat_map};
ghost use Rattle.std.specs.Int.{w32, to_be_bytes};
ghost use Rattle.std.specs.FinMap as map;
ghost use Rattle.sx_record.specs.Spelling.{IsNode};
ghost use Rattle.sx_whole.specs.Body.{AreBelow, AreNodes, AreRows, AreWhole, body_bytes, listed, node_entry, path_entry};
ghost use Rattle.sx_whole.specs.Written.{IsWriteFault};

use crate::fault::WriteFault;
use std::alloc::{AllocError, Global};
use sx_bytes::FieldsOut;
use sx_paths::PathTable;
use sx_record::Record;
use sx_tree::record::NodeRecord;
use sx_view::{MemRecords, Records};

/// Appends the node of the number, which is there.
fn put_node(
    alloc: Global,
    nodes: &mut MemRecords<NodeRecord>,
    number: u32,
    out: &mut FieldsOut,
) -> Result<(), AllocError>
    requires { IfSome (⟦<MemRecords<NodeRecord> as Records<NodeRecord>>⟧.told nodes.old)
        (λ records. IsSome (map.get records number)) }
    ensures ok { OnOk result (IfSome (⟦<MemRecords<NodeRecord> as Records<NodeRecord>>⟧.told nodes.old)
        (λ records. IfSome (map.get records number) (λ node. out.new ≡ out.old ++ node_entry (number, node)))) }
    ensures known { OnOk result (IfSome (⟦<MemRecords<NodeRecord> as Records<NodeRecord>>⟧.told nodes.old)
        (λ records. IfSome (map.get records number) IsNode)) }
    ensures front { take (length out.old) out.new ≡ out.old }
    ensures keeps { ⟦<MemRecords<NodeRecord> as Records<NodeRecord>>⟧.keeps nodes.old nodes.new }
{
    out.u32(number)?;
    match nodes.get(alloc, number) {
        Ok(Some(node)) => node.encode(out),
        Ok(None) => unreachable!("the number has a record"),
        // In memory a get fails for nothing else.
        Err(_) => Err(AllocError),
    }
}

/// Appends how many nodes there are, and the nodes. At a failure a part of them may stand at the end.
fn put_nodes(
    alloc: Global,
    nodes: &mut MemRecords<NodeRecord>,
    out: &mut FieldsOut,
) -> Result<(), WriteFault>
    ensures ok { OnOk result (let records = listed (⟦<MemRecords<NodeRecord> as Records<NodeRecord>>⟧.told nodes.old) in
        out.new ≡ out.old ++ (to_be_bytes w32 (length records) ++ flat_map node_entry records)) }
    ensures known { OnOk result (AreNodes (listed (⟦<MemRecords<NodeRecord> as Records<NodeRecord>>⟧.told nodes.old))) }
    ensures few { IfErr result (IsWriteFault (listed
        (⟦<MemRecords<NodeRecord> as Records<NodeRecord>>⟧.told nodes.old))) }
    ensures front { take (length out.old) out.new ≡ out.old }
    ensures keeps { ⟦<MemRecords<NodeRecord> as Records<NodeRecord>>⟧.keeps nodes.old nodes.new }
{
    let numbers = nodes.numbers(alloc)?;
    let Ok(count) = u32::try_from(numbers.len()) else {
        return Err(WriteFault::TooMany);
    };
    out.u32(count)?;
    for number in numbers.as_slice() {
        put_node(alloc, nodes, *number, out)?;
    }
    Ok(())
}

/// Appends how many paths there are, and the paths. Where memory runs out a part of them may stand at the end.
fn put_paths(paths: &PathTable, out: &mut FieldsOut) -> Result<(), AllocError>
    ensures ok { OnOk result (out.new ≡ out.old ++ (to_be_bytes w32 (length paths.now.paths)
        ++ flat_map path_entry paths.now.paths)) }
    ensures known { OnOk result (AreRows paths.now.paths) }
    ensures few { OnOk result (length paths.now.paths < 2 ^ 32) }
    ensures front { take (length out.old) out.new ≡ out.old }
{
    let count = paths.len();
    out.u32(count)?;
    for before in 0..count {
        let Some(path) = paths.record(before + 1) else {
            unreachable!("the table has so many paths");
        };
        path.encode(out)?;
    }
    Ok(())
}

/// Appends the body. At a failure a part of it may stand at the end.
fn put_body(
    alloc: Global,
    nodes: &mut MemRecords<NodeRecord>,
    paths: &PathTable,
    out: &mut FieldsOut,
) -> Result<(), WriteFault>
    ensures ok { OnOk result (out.new ≡ out.old ++ body_bytes (listed
        (⟦<MemRecords<NodeRecord> as Records<NodeRecord>>⟧.told nodes.old)) paths.now.paths) }
    ensures whole { OnOk result (AreBelow (listed (⟦<MemRecords<NodeRecord> as Records<NodeRecord>>⟧.told nodes.old))
        → AreWhole (listed (⟦<MemRecords<NodeRecord> as Records<NodeRecord>>⟧.told nodes.old)) paths.now.paths) }
    ensures fault { IfErr result (IsWriteFault (listed
        (⟦<MemRecords<NodeRecord> as Records<NodeRecord>>⟧.told nodes.old))) }
    ensures front { take (length out.old) out.new ≡ out.old }
    ensures keeps { ⟦<MemRecords<NodeRecord> as Records<NodeRecord>>⟧.keeps nodes.old nodes.new }
{
    put_nodes(alloc, nodes, out)?;
    put_paths(paths, out)?;
    Ok(())
}

/// Appends the body of the document that has these nodes and paths. The nodes stay as they are. Where their numbers are
/// below 2^30, `read` reads the document again.
///
/// # Errors
///
/// `TooMany` only where there are 2^32 nodes, and `OutOfMemory`. Nothing is appended then.
pub fn write(
    alloc: Global,
    nodes: &mut MemRecords<NodeRecord>,
    paths: &PathTable,
    out: &mut FieldsOut,
) -> Result<(), WriteFault>
    ensures ok { OnOk result (out.new ≡ out.old ++ body_bytes (listed
        (⟦<MemRecords<NodeRecord> as Records<NodeRecord>>⟧.told nodes.old)) paths.now.paths) }
    ensures whole { OnOk result (AreBelow (listed (⟦<MemRecords<NodeRecord> as Records<NodeRecord>>⟧.told nodes.old))
        → AreWhole (listed (⟦<MemRecords<NodeRecord> as Records<NodeRecord>>⟧.told nodes.old)) paths.now.paths) }
    ensures fault { IfErr result (IsWriteFault (listed
        (⟦<MemRecords<NodeRecord> as Records<NodeRecord>>⟧.told nodes.old))) }
    ensures nothing_done { OnErr result (out.new ≡ out.old) }
    ensures keeps { ⟦<MemRecords<NodeRecord> as Records<NodeRecord>>⟧.keeps nodes.old nodes.new }
{
    let before = out.len();
    let put = put_body(alloc, nodes, paths, out);
    if put.is_err() {
        out.truncate(before);
    }
    put
}
