//! What a node keeps of its children.
ghost use Rattle.std.specs.Prelude.{◌≡◌, ◌+◌, ◌<◌, ◌≤◌, ◌^◌, None, Some};
ghost use Rattle.std.specs.Option.{option_or};
ghost use Rattle.sx_model.specs.Hash.{local_hash};
ghost use Rattle.sx_model.specs.Tree.{Node, Forest};
ghost use Rattle.sx_model.specs.Holes.{shown};
ghost use Rattle.sx_tree.specs.Record.{IsLink};
ghost use Rattle.sx_view.specs.Rows.{row_of};
ghost use Rattle.sx_edit.specs.Grow.{IsKept, IsOneMore, top_row};

use crate::label::Label;
use crate::trees::Children;
use sx_hash::local;
use sx_tree::record::NodeRecord;

/// No children.
pub(crate) fn no_children() -> Children
    ensures first { result.first ≡ None }
    ensures last { result.last ≡ None }
    ensures count { result.count ≡ 0 }
    ensures nodes { result.nodes ≡ 0 }
    ensures hash { result.hash ≡ 0 }
{
    Children {
        first: None,
        last: None,
        count: 0,
        nodes: 0,
        hash: 0,
    }
}

/// One more child at the right end, of this number and with this record.
pub(crate) fn one_more(children: Children, number: u32, child: &NodeRecord) -> Children
    requires number_fits { number < 2 ^ 30 }
    requires few { children.count < 2 ^ 30 }
    requires room { children.nodes + (child.now.descendants + 1) ≤ 2 ^ 30 }
    ensures { IsOneMore children result number child.now.descendants child.now.hash }
{
    Children {
        first: first_or(children.first, number),
        last: Some(number),
        count: children.count + 1,
        nodes: children.nodes + (child.descendants + 1),
        hash: children.hash.wrapping_add(child.hash),
    }
}

/// The first one, where there is one, else this one.
fn first_or(first: Option<u32>, number: u32) -> Option<u32>
    requires first_fits { IsLink first }
    requires number_fits { number < 2 ^ 30 }
    ensures is { result ≡ option_or first (Some number) }
    ensures fits { IsLink result }
{
    match first {
        Some(first) => Some(first),
        None => Some(number),
    }
}

/// The record of a node with these children, on the path of this number, but for its links to its parent and its
/// siblings.
pub(crate) fn top_over(label: Label, children: Children, path: u32) -> NodeRecord
    requires { path < 2 ^ 30 }
    ensures { (n : Node) → (below : Forest) → n.kind ≡ label.kind → n.label ≡ label.text
        → IsKept children (shown local_hash below)
        → row_of result ≡ top_row path n below }
{
    let own = local(label.kind, label.text.as_bytes());
    NodeRecord {
        kind: label.kind,
        parent: None,
        left: None,
        right: None,
        first: children.first,
        last: children.last,
        children: children.count,
        descendants: children.nodes,
        hash: own.wrapping_add(children.hash.wrapping_mul(257)),
        path,
        label: label.text,
    }
}
