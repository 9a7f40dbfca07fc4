//! Records of nodes and of paths in one object.
use crate::Records;
use sx_tree::record::{NodeRecord, PathRecord};

/// The records of a document in one object: those of its nodes, and those of its paths. A call that reads the ones leaves the others as
/// they are.
pub trait Views: Records<NodeRecord> + Records<PathRecord> {
    ghost paths_kept: { (a b : Self) → Self.Records-1.keeps a b → Self.Records-2.keeps a b };

    ghost nodes_kept: { (a b : Self) → Self.Records-2.keeps a b → Self.Records-1.keeps a b };
}
