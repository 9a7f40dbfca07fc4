//! Kinds of nodes.
ghost use Rattle.std.specs.Prelude.{◌≡◌, ◌≤◌, ◌||◌};
ghost use Rattle.sx_model.specs.Tree as tree;
ghost use Rattle.sx_tree.specs.Record as records;

use sx_tree::record::Kind;

/// Whether nodes of the kind are scalars.
pub(crate) fn is_scalar(kind: Kind) -> bool
    ensures { result ≡ tree.is_scalar kind }
{
    match kind {
        Kind::Str | Kind::Number | Kind::Bool | Kind::Null => true,
        Kind::Document | Kind::Object | Kind::Array | Kind::Key => false,
    }
}

/// Whether the kind is that of keys.
pub(crate) fn is_key(kind: Kind) -> bool
    ensures { result ≡ tree.is_key kind }
{
    matches!(kind, Kind::Key)
}

/// Whether the kind is that of objects.
pub(crate) fn is_object(kind: Kind) -> bool
    ensures { result ≡ tree.is_object kind }
{
    matches!(kind, Kind::Object)
}

/// Whether the kind is that of the document.
pub(crate) fn is_document(kind: Kind) -> bool
    ensures { result ≡ tree.is_document kind }
{
    matches!(kind, Kind::Document)
}

/// Whether nodes of the kind are values: neither the document nor keys.
pub(crate) fn is_value(kind: Kind) -> bool
    ensures { result ≡ tree.is_value kind }
{
    !matches!(kind, Kind::Document | Kind::Key)
}

/// Whether nothing can be inserted among the children of a node of the kind: below a key, and below a scalar.
pub(crate) fn has_no_places(kind: Kind) -> bool
    ensures { result ≡ (tree.is_key kind || tree.is_scalar kind) }
{
    is_key(kind) || is_scalar(kind)
}

/// How many levels of nesting a node of the kind is.
pub(crate) fn levels(kind: Kind) -> u32
    ensures is { result ≡ tree.levels kind }
    ensures few { result ≤ 1 }
{
    if matches!(kind, Kind::Object | Kind::Array) {
        1
    } else {
        0
    }
}

/// The byte that stands for the kind.
pub(crate) fn kind_byte(kind: Kind) -> u8
    ensures { result ≡ records.kind_byte kind }
{
    match kind {
        Kind::Document => 0,
        Kind::Object => 1,
        Kind::Array => 2,
        Kind::Key => 3,
        Kind::Str => 4,
        Kind::Number => 5,
        Kind::Bool => 6,
        Kind::Null => 7,
    }
}
