//! The reply to a question about a node.
ghost use Rattle.std.specs.Prelude.{◌≡◌, ◌++◌, OnOk, codes, length, take};
ghost use Rattle.sx_model.specs.TreeText.{truth_text};
ghost use Rattle.sx_run.specs.Reply.{kind_name, label_bytes, link_bytes, node_bytes, spaced};

use crate::append::{append_link, append_text};
use std::alloc::{AllocError, Global};
use sx_json::write_string;
use sx_tree::bytes::Bytes;
use sx_tree::record::{Kind, NodeRecord};

/// The name of a kind.
pub(crate) fn kind_name(kind: Kind) -> &'static str
    ensures { result.now ≡ kind_name kind }
{
    match kind {
        Kind::Document => "Document",
        Kind::Object => "Object",
        Kind::Array => "Array",
        Kind::Key => "Key",
        Kind::Str => "String",
        Kind::Number => "Number",
        Kind::Bool => "Bool",
        Kind::Null => "Null",
    }
}

/// Adds the node without its hash: its kind, the parent, the left and right siblings, the first and the last child, how
/// many children and how many descendants there are, the path, and the JSON text of a name or a scalar.
pub(crate) fn append_node(
    alloc: Global,
    node: &NodeRecord,
    out: &mut Bytes,
) -> Result<(), AllocError>
    ensures written { OnOk result (out.new ≡ out.old ++ node_bytes node.now) }
    ensures begins { take (length out.old) out.new ≡ out.old }
{
    out.extend_from_slice(kind_name(node.kind).as_bytes())?;
    append_kin(alloc, node, out)?;
    append_counts(alloc, node, out)?;
    append_label(node.kind, node.label.as_bytes(), out)
}

/// Adds the node's links.
fn append_kin(alloc: Global, node: &NodeRecord, out: &mut Bytes) -> Result<(), AllocError>
    ensures written { OnOk result (out.new ≡ out.old ++ (link_bytes node.now.parent ++ (link_bytes node.now.left
        ++ (link_bytes node.now.right ++ (link_bytes node.now.first ++ link_bytes node.now.last))))) }
    ensures begins { take (length out.old) out.new ≡ out.old }
{
    append_link(alloc, node.parent, out)?;
    append_link(alloc, node.left, out)?;
    append_link(alloc, node.right, out)?;
    append_link(alloc, node.first, out)?;
    append_link(alloc, node.last, out)
}

/// Adds the node's counts and its path.
fn append_counts(alloc: Global, node: &NodeRecord, out: &mut Bytes) -> Result<(), AllocError>
    ensures written { OnOk result (out.new ≡ out.old ++ (spaced node.now.children ++ (spaced node.now.descendants
        ++ (spaced node.now.path ++ codes " ")))) }
    ensures begins { take (length out.old) out.new ≡ out.old }
{
    let NodeRecord {
        children,
        descendants,
        path,
        ..
    } = node;
    append_text(format!(in alloc; " {children} {descendants} {path} ")?, out)
}

/// Adds the JSON text of a name or a scalar, and `-` for the other kinds.
fn append_label(kind: Kind, label: &[u8], out: &mut Bytes) -> Result<(), AllocError>
    ensures written { OnOk result (out.new ≡ out.old ++ label_bytes kind label.now) }
    ensures begins { take (length out.old) out.new ≡ out.old }
{
    match kind {
        Kind::Document | Kind::Object | Kind::Array => out.push(b'-'),
        Kind::Key | Kind::Str => write_string(label, out),
        Kind::Number => out.extend_from_slice(label),
        Kind::Bool => append_truth(label, out),
        Kind::Null => out.extend_from_slice(b"null"),
    }
}

/// Adds the text of a boolean, from its label.
fn append_truth(label: &[u8], out: &mut Bytes) -> Result<(), AllocError>
    ensures written { OnOk result (out.new ≡ out.old ++ truth_text label.now) }
    ensures begins { take (length out.old) out.new ≡ out.old }
{
    match label {
        [] | [0, ..] => out.extend_from_slice(b"false"),
        _ => out.extend_from_slice(b"true"),
    }
}
