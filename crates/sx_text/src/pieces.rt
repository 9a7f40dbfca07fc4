//! The pieces of which the text of a node is made.
ghost use Rattle.std.specs.Prelude.{◌≡◌, ◌++◌, Bool, OnOk, length, take};
ghost use Rattle.sx_model.specs.Tree.{may_stand_below};
ghost use Rattle.sx_model.specs.TreeText.{closing, comma, opening, truth_text};
ghost use Rattle.sx_tree.specs.Record.{kind_byte};

use std::alloc::AllocError;
use sx_json::write_string;
use sx_tree::bytes::Bytes;
use sx_tree::record::{Kind, NodeRecord};

/// Adds what the text of a node begins with.
pub(crate) fn append_opening(node: &NodeRecord, out: &mut Bytes) -> Result<(), AllocError>
    ensures written { OnOk result (out.new ≡ out.old ++ opening node.now.kind node.now.label) }
    ensures begins { take (length out.old) out.new ≡ out.old }
{
    let label = node.label.as_bytes();
    match node.kind {
        Kind::Document => Ok(()),
        Kind::Object => out.push(b'{'),
        Kind::Array => out.push(b'['),
        Kind::Key => {
            write_string(label, out)?;
            out.push(b':')
        }
        Kind::Str => write_string(label, out),
        Kind::Number => out.extend_from_slice(label),
        Kind::Bool => append_truth(label, out),
        Kind::Null => out.extend_from_slice(b"null"),
    }
}

/// Adds the text of a boolean, from its label.
fn append_truth(label: &[u8], out: &mut Bytes) -> Result<(), AllocError>
    ensures written { OnOk result (out.new ≡ out.old ++ truth_text label.now) }
    ensures begins { take (length out.old) out.new ≡ out.old }
{
    match label {
        [] | [0, ..] => out.extend_from_slice(b"false"),
        _ => out.extend_from_slice(b"true"),
    }
}

/// Adds what the text of a node ends with.
pub(crate) fn append_closing(kind: Kind, out: &mut Bytes) -> Result<(), AllocError>
    ensures written { OnOk result (out.new ≡ out.old ++ closing kind) }
    ensures begins { take (length out.old) out.new ≡ out.old }
{
    match kind {
        Kind::Object => out.push(b'}'),
        Kind::Array => out.push(b']'),
        Kind::Document | Kind::Key | Kind::Str | Kind::Number | Kind::Bool | Kind::Null => Ok(()),
    }
}

/// Adds a comma where a tree has come before.
pub(crate) fn append_comma(begun: bool, out: &mut Bytes) -> Result<(), AllocError>
    ensures written { OnOk result (out.new ≡ out.old ++ comma begun) }
    ensures begins { take (length out.old) out.new ≡ out.old }
{
    if begun { out.push(b',') } else { Ok(()) }
}

/// Whether a node of the second kind may be a child of one of the first.
pub(crate) fn may_stand(above: Kind, child: Kind) -> bool
    ensures { result ≡ may_stand_below above child }
{
    match above {
        Kind::Document | Kind::Array | Kind::Key => !matches!(child, Kind::Document | Kind::Key),
        Kind::Object => matches!(child, Kind::Key),
        Kind::Str | Kind::Number | Kind::Bool | Kind::Null => false,
    }
}

/// The byte that stands for the kind.
pub(crate) fn byte_of(kind: Kind) -> u8
    ensures { result ≡ kind_byte kind }
{
    match kind {
        Kind::Document => 0,
        Kind::Object => 1,
        Kind::Array => 2,
        Kind::Key => 3,
        Kind::Str => 4,
        Kind::Number => 5,
        Kind::Bool => 6,
        Kind::Null => 7,
    }
}
