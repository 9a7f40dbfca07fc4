//! The text of a node with all below it.
ghost use Rattle.std.specs.Prelude.{◌≡◌, ◌+◌, ◌≤◌, ℕ, IfErr, IfOk, MatchResult, None, Some, false, true, length, option_map, take};
ghost use Rattle.sx_outside.specs.Faults.{Rose};
ghost use Rattle.sx_view.specs.Records.{Explains, ExplainsFault, IsDamaged};
ghost use Rattle.sx_view.specs.Rows.{row_of};
ghost use Rattle.sx_cursor.specs.Told.{Tells, IsNoDocument};
ghost use Rattle.sx_text.specs.Text.{IsBroken, IsText, VisitsOnce};

use crate::pen::{Open, Pen};
use crate::pieces::append_opening;
use std::alloc::Global;
use std::mem;
use sx_cursor::{endless, read};
use sx_tree::bytes::Bytes;
use sx_tree::record::NodeRecord;
use sx_view::{Fault, Records};

/// Cuts the bytes back to their first ones.
fn cut_back(alloc: Global, out: &mut Bytes, len: usize)
    ensures { out.new ≡ take len out.old }
{
    let mut bytes = mem::replace(out, Bytes::new(alloc)).into_vec();
    bytes.truncate(len);
    *out = Bytes::from_vec(bytes);
}

/// Appends the text of the node, whose record this is, with all below it.
fn append_tree<N: Records<NodeRecord>>(
    alloc: Global,
    records: &mut N,
    number: u32,
    node: &NodeRecord,
    count: u32,
    out: &mut Bytes,
) -> Result<(), Fault>
    requires there { Tells (N.told records.old) number (Some (row_of node.now)) }
    ensures writes { MatchResult result (λ _. IsText (N.told records.old) number out.old out.new true) (λ fault. IsDamaged fault → IsNoDocument (N.told records.old) count) }
    ensures once { IfOk result (λ _. (before : ℕ) → N.gets records.old ≤ before + 1 → VisitsOnce (N.told records.old) number before (N.gets records.new)) }
    ensures fault { IfErr result (Explains (N.damages records.old) (Rose (N.faults records.old) (N.faults records.new)) (IsBroken (N.told records.old) count)) }
    ensures begins { take (length out.old) out.new ≡ out.old }
    ensures gets { IfOk result (λ _. N.gets records.new + 1 ≤ N.gets records.old + count) }
    ensures never_falls { N.faults records.old ≤ N.faults records.new }
    ensures keeps { N.keeps records.old records.new }
{
    if count == 0 {
        return Err(Fault::Damaged(endless(count)));
    }
    append_opening(node, out)?;
    let pen = Pen {
        outer: Vec::new(alloc),
        above: Open {
            number,
            kind: node.kind,
            right: node.right,
        },
        from: number,
        next: node.first,
        begun: false,
        left: count - 1,
    };
    pen.finish(alloc, records, count, out)?;
    Ok(())
}

/// Appends the canonical text of the node with all below it (RFC 8259): a Key's is its name, a colon and its value, and that of
/// a document without a child is empty. False where there is no such node. It visits at most `count` nodes, and takes memory for
/// the nodes that are open at a time.
///
/// # Errors
///
/// `out` is as it was. `Failed` only where the faults of the object below rose; `Damaged` where a link leads to a node that has no
/// record, a child has a kind that cannot stand there, a Key has no child, or links lead on after `count` nodes, and else only
/// where the records are not told; `OutOfMemory`.
pub fn text<N: Records<NodeRecord>>(
    alloc: Global,
    records: &mut N,
    node: u32,
    count: u32,
    out: &mut Bytes,
) -> Result<bool, Fault>
    ensures text { IfOk result (IsText (N.told records.old) node out.old out.new) }
    ensures absent { IfOk result (λ there. there ≡ false → Tells (N.told records.old) node None × (out.new ≡ out.old)) }
    ensures unchanged { IfErr result (λ _. out.new ≡ out.old) }
    ensures sound { IfErr result (λ fault. IsDamaged fault → IsNoDocument (N.told records.old) count) }
    ensures fault { IfErr result (Explains (N.damages records.old) (Rose (N.faults records.old) (N.faults records.new)) (IsBroken (N.told records.old) count)) }
    ensures once { IfOk result (λ _. VisitsOnce (N.told records.old) node (N.gets records.old) (N.gets records.new)) }
    ensures never_falls { N.faults records.old ≤ N.faults records.new }
    ensures keeps { N.keeps records.old records.new }
{
    let Some(record) = read(alloc, records, node)? else {
        return Ok(false);
    };
    let start = out.len();
    match append_tree(alloc, records, node, &record, count, out) {
        Ok(()) => Ok(true),
        Err(fault) => {
            cut_back(alloc, out, start);
            Err(fault)
        }
    }
}
