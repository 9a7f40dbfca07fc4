//! A document from its body.
ghost use Rattle.std.specs.Prelude.{◌≡◌, ◌≢◌, ◌++◌, [], IfErr, IfOk, List, ℕ, MatchResult, length};
ghost use Rattle.sx_tree.specs.declared.record.NodeRecord.{NodeRecord};
ghost use Rattle.sx_model.specs.Records.{PathRow};
ghost use Rattle.sx_whole.specs.Body.{AreNumbered, AreWhole, body_bytes, listed, rows_of};
ghost use Rattle.sx_whole.specs.Broken.{Breaks, Explains, broken_length};

use crate::fault::{WholeFault, broken_length};
use crate::node_list::read_nodes;
use crate::path_list::read_paths;
use std::alloc::Global;
use sx_bytes::Fields;
use sx_tree::record::{NodeRecord, PathRecord};
use sx_view::{MemRecords, Records};

/// The records of a document.
#[derive(Drop)]
pub struct Document {
    /// The nodes by their numbers, which are below 2^30.
    pub nodes: MemRecords<NodeRecord>,
    /// The paths by their numbers, which are 1, 2, and so on.
    pub paths: MemRecords<PathRecord>,
    /// How many nodes there are.
    pub count: u32,
    /// How many paths there are.
    pub path_count: u32,
}

/// No bytes are left.
fn read_end(fields: &Fields, place: u64) -> Result<(), WholeFault>
    ensures end { IfOk result (λ _. fields.now ≡ []) }
    ensures fault { IfErr result (λ fault. (fields.now ≢ []) × (fault
        ≡ WholeFault.Damaged (broken_length place fields.now))) }
{
    if fields.left() == 0 {
        Ok(())
    } else {
        Err(broken_length(place, fields))
    }
}

/// The document whose body these bytes are, by its parts in their order.
fn read_document(alloc: Global, body: &[u8], place: u64) -> Result<Document, WholeFault>
    ensures found { IfOk result (λ d. body.now ≡ body_bytes (listed
        (⟦<MemRecords<NodeRecord> as Records<NodeRecord>>⟧.told d.nodes))
        (rows_of (⟦<MemRecords<PathRecord> as Records<PathRecord>>⟧.told d.paths))) }
    ensures whole { IfOk result (λ d. AreWhole (listed (⟦<MemRecords<NodeRecord> as Records<NodeRecord>>⟧.told d.nodes))
        (rows_of (⟦<MemRecords<PathRecord> as Records<PathRecord>>⟧.told d.paths))) }
    ensures numbered { IfOk result (λ d. AreNumbered (⟦<MemRecords<PathRecord> as Records<PathRecord>>⟧.told d.paths)) }
    ensures count { IfOk result (λ d. d.count ≡ length (listed
        (⟦<MemRecords<NodeRecord> as Records<NodeRecord>>⟧.told d.nodes))) }
    ensures path_count { IfOk result (λ d. d.path_count ≡ length (rows_of
        (⟦<MemRecords<PathRecord> as Records<PathRecord>>⟧.told d.paths))) }
    ensures fault { IfErr result (Explains (Breaks place body.now)) }
{
    let mut fields = Fields::new(body);
    let (count, nodes) = read_nodes(alloc, &mut fields, place)?;
    let (path_count, paths) = read_paths(alloc, &mut fields, place)?;
    read_end(&fields, place)?;
    Ok(Document {
        nodes,
        paths,
        count,
        path_count,
    })
}

/// The document whose body these bytes are. The place is where the body begins in its volume, in bytes; damage tells it.
///
/// # Errors
///
/// `Damaged` exactly where the bytes are the body of no document, by the first rule that is broken in the order of the
/// bytes: rule 20 with the number of the node or of the path where no record of one stands, or where the number of a
/// node is not above the one before or not below 2^30; rule 21 with how many bytes are left where they are too few for
/// a number, or where some are left behind the last record. `OutOfMemory`.
pub fn read(alloc: Global, body: &[u8], place: u64) -> Result<Document, WholeFault>
    ensures found { IfOk result (λ d. body.now ≡ body_bytes (listed
        (⟦<MemRecords<NodeRecord> as Records<NodeRecord>>⟧.told d.nodes))
        (rows_of (⟦<MemRecords<PathRecord> as Records<PathRecord>>⟧.told d.paths))) }
    ensures whole { IfOk result (λ d. AreWhole (listed (⟦<MemRecords<NodeRecord> as Records<NodeRecord>>⟧.told d.nodes))
        (rows_of (⟦<MemRecords<PathRecord> as Records<PathRecord>>⟧.told d.paths))) }
    ensures numbered { IfOk result (λ d. AreNumbered (⟦<MemRecords<PathRecord> as Records<PathRecord>>⟧.told d.paths)) }
    ensures count { IfOk result (λ d. d.count ≡ length (listed
        (⟦<MemRecords<NodeRecord> as Records<NodeRecord>>⟧.told d.nodes))) }
    ensures path_count { IfOk result (λ d. d.path_count ≡ length (rows_of
        (⟦<MemRecords<PathRecord> as Records<PathRecord>>⟧.told d.paths))) }
    ensures fault { IfErr result (Explains (Breaks place body.now)) }
    ensures again { (nodes : List (ℕ × NodeRecord)) (rows : List PathRow) → AreWhole nodes rows → body.now
        ≡ body_bytes nodes rows
        → MatchResult result (λ d. (listed (⟦<MemRecords<NodeRecord> as Records<NodeRecord>>⟧.told d.nodes) ≡ nodes)
        × (rows_of (⟦<MemRecords<PathRecord> as Records<PathRecord>>⟧.told d.paths) ≡ rows)) (λ fault. fault
        ≡ WholeFault.OutOfMemory) }
{
    read_document(alloc, body, place)
}
