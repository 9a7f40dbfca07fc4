//! Nodes as bytes.
ghost use Rattle.std.specs.Prelude.{◌≡◌, ◌≢◌, ◌↔◌, ◌++◌, ◌<◌, ◌^◌, Option, ℕ, length, take, IfOk, IfNone, IfSome, IsTrue, OnOk};
ghost use Rattle.std.specs.Option.{option_map};
ghost use Rattle.sx_bytes.specs.Front.{Gives};
ghost use Rattle.sx_tree.specs.Number.{IsNumber};
ghost use Rattle.sx_tree.specs.Record.{IsLabel, IsLink, kind_byte};
ghost use Rattle.sx_tree.specs.declared.record.NodeRecord.{NodeRecord};
ghost use Rattle.sx_tree.specs.declared.record.Kind.{Kind};
ghost use Rattle.sx_tree.specs.Text.{IsText};
ghost use Rattle.sx_record.specs.Spelling.{IsNode, link_number, node_bytes, node_fields};
ghost use Rattle.sx_record.specs.Same.{HaveSameLinks, HaveSameRest};
ghost use Rattle.sx_record.specs.Reading.{front_node};
ghost use Rattle.sx_record.specs.Given.{given_node};

use crate::record::Record;
use crate::text::{put_text, read_text, text_of};
use std::alloc::{AllocError, Global};
use sx_bytes::{Fields, FieldsOut};
use sx_tree::literal::LITERAL_BYTES;
use sx_tree::number::number_front;
use sx_tree::record::{Kind, NodeRecord};
use sx_tree::text::Text;

/// The fields of a node.
#[derive(Drop)]
struct GivenNode<'a> {
    kind: u8,
    parent: u32,
    left: u32,
    right: u32,
    first: u32,
    last: u32,
    children: u32,
    descendants: u32,
    hash: u128,
    path: u32,
    label: &'a [u8],
}

/// The kind that has the byte.
fn kind_of(byte: u8) -> Option<Kind>
    ensures found { IfSome result (λ kind. kind_byte kind ≡ byte) }
    ensures none { IfNone result ((kind : Kind) → kind_byte kind ≢ byte) }
{
    match byte {
        0 => Some(Kind::Document),
        1 => Some(Kind::Object),
        2 => Some(Kind::Array),
        3 => Some(Kind::Key),
        4 => Some(Kind::Str),
        5 => Some(Kind::Number),
        6 => Some(Kind::Bool),
        7 => Some(Kind::Null),
        _ => None,
    }
}

/// The byte of a kind.
fn byte_of(kind: Kind) -> u8
    ensures { result ≡ kind_byte kind }
{
    match kind {
        Kind::Document => 0,
        Kind::Object => 1,
        Kind::Array => 2,
        Kind::Key => 3,
        Kind::Str => 4,
        Kind::Number => 5,
        Kind::Bool => 6,
        Kind::Null => 7,
    }
}

/// The link that has the number.
fn link_of(number: u32) -> Option<Option<u32>>
    ensures found { IfSome result (λ link. IsLink link × (link_number link ≡ number)) }
    ensures none { IfNone result ((link : Option ℕ) → IsLink link → link_number link ≢ number) }
{
    match number {
        0..1_073_741_824 => Some(Some(number)),
        u32::MAX => Some(None),
        _ => None,
    }
}

/// The number of a link.
fn number_of(link: Option<u32>) -> u32
    ensures { result ≡ link_number link }
{
    link.unwrap_or(u32::MAX)
}

/// Appends the fields. Where memory runs out a part of them may stand at the end.
#[tactic(auto, using(crate::proofs::Extends::front_append))]
fn put_node(out: &mut FieldsOut, given: &GivenNode) -> Result<(), AllocError>
    requires { length given.now.label.now < 2 ^ 32 }
    ensures ok { OnOk result (out.new ≡ out.old ++ node_bytes (given_node given.now)) }
    ensures front { take (length out.old) out.new ≡ out.old }
{
    out.u8(given.kind)?;
    out.u32(given.parent)?;
    out.u32(given.left)?;
    out.u32(given.right)?;
    out.u32(given.first)?;
    out.u32(given.last)?;
    out.u32(given.children)?;
    out.u32(given.descendants)?;
    out.u128(given.hash)?;
    out.u32(given.path)?;
    put_text(out, given.label)?;
    Ok(())
}

/// The fields at the front. None exactly where too few bytes are left for them.
#[tactic(auto, unfolding(crate::specs::Reading::front_node))]
fn read_node<'a>(fields: &mut Fields<'a>) -> Option<GivenNode<'a>>
    ensures written { IfSome result (λ given. fields.old ≡ node_bytes (given_node given) ++ fields.new) }
    ensures read { Gives (option_map given_node result) fields.new (front_node fields.old) }
{
    let kind = fields.u8()?;
    let parent = fields.u32()?;
    let left = fields.u32()?;
    let right = fields.u32()?;
    let first = fields.u32()?;
    let last = fields.u32()?;
    let children = fields.u32()?;
    let descendants = fields.u32()?;
    let hash = fields.u128()?;
    let path = fields.u32()?;
    let label = read_text(fields)?;
    Some(GivenNode {
        kind,
        parent,
        left,
        right,
        first,
        last,
        children,
        descendants,
        hash,
        path,
        label,
    })
}

/// The links of a node.
#[derive(Drop)]
struct Links {
    parent: Option<u32>,
    left: Option<u32>,
    right: Option<u32>,
    first: Option<u32>,
    last: Option<u32>,
    ghost parent_fits: { IsLink parent },
    ghost left_fits: { IsLink left },
    ghost right_fits: { IsLink right },
    ghost first_fits: { IsLink first },
    ghost last_fits: { IsLink last },
}

/// The links that have the numbers. None exactly where there are none.
fn links_of(given: &GivenNode) -> Option<Links>
    ensures parent { IfSome result (λ links. link_number links.parent ≡ given.now.parent) }
    ensures left { IfSome result (λ links. link_number links.left ≡ given.now.left) }
    ensures right { IfSome result (λ links. link_number links.right ≡ given.now.right) }
    ensures first { IfSome result (λ links. link_number links.first ≡ given.now.first) }
    ensures last { IfSome result (λ links. link_number links.last ≡ given.now.last) }
    ensures none { IfNone result ((r : NodeRecord) → node_fields r ≢ given_node given.now) }
{
    Some(Links {
        parent: link_of(given.parent)?,
        left: link_of(given.left)?,
        right: link_of(given.right)?,
        first: link_of(given.first)?,
        last: link_of(given.last)?,
    })
}

/// Whether the bytes are a number.
fn is_number(bytes: &[u8]) -> bool
    ensures { IsTrue result ↔ IsNumber bytes.now }
{
    let front = number_front(bytes);
    front.len == bytes.len() && front.is_number
}

/// Whether the bytes are a label of a node of the kind, if they are a text.
fn is_label(kind: Kind, bytes: &[u8]) -> bool
    ensures { IsTrue result ↔ IsLabel kind bytes.now }
{
    match kind {
        Kind::Document | Kind::Object | Kind::Array | Kind::Null => bytes.is_empty(),
        Kind::Key | Kind::Str => true,
        Kind::Number => bytes.len() <= LITERAL_BYTES && is_number(bytes),
        Kind::Bool => matches!(bytes, [0 | 1]),
    }
}

/// The label of a node of the kind. None exactly where the bytes are none.
fn label_of(alloc: Global, kind: Kind, bytes: &[u8]) -> Result<Option<Text>, AllocError>
    ensures found { IfOk result (λ found. IfSome found (λ label. (label ≡ bytes.now) × IsText label × IsLabel kind label)) }
    ensures none { IfOk result (λ found. IfNone found (IsText bytes.now → IsLabel kind bytes.now → ⊥)) }
{
    if is_label(kind, bytes) {
        text_of(alloc, bytes)
    } else {
        Ok(None)
    }
}

/// The node that has the fields. None exactly where there is none.
fn node_of(alloc: Global, given: &GivenNode) -> Result<Option<NodeRecord>, AllocError>
    ensures found { IfOk result (λ found. IfSome found (λ r. IsNode r × (node_fields r ≡ given_node given.now))) }
    ensures none { IfOk result (λ found. IfNone found ((r : NodeRecord) → IsNode r → node_fields r ≢ given_node given.now)) }
{
    if given.path >= 1_073_741_824 {
        return Ok(None);
    }
    let Some(kind) = kind_of(given.kind) else {
        return Ok(None);
    };
    let Some(links) = links_of(given) else {
        return Ok(None);
    };
    let Some(label) = label_of(alloc, kind, given.label)? else {
        return Ok(None);
    };
    Ok(Some(NodeRecord {
        kind,
        parent: links.parent,
        left: links.left,
        right: links.right,
        first: links.first,
        last: links.last,
        children: given.children,
        descendants: given.descendants,
        hash: given.hash,
        path: given.path,
        label,
    }))
}

/// The fields of the node.
fn given(node: &NodeRecord) -> GivenNode<'_>
    ensures fields { given_node result ≡ node_fields node.now }
    ensures known { IsNode node.now }
{
    GivenNode {
        kind: byte_of(node.kind),
        parent: number_of(node.parent),
        left: number_of(node.left),
        right: number_of(node.right),
        first: number_of(node.first),
        last: number_of(node.last),
        children: node.children,
        descendants: node.descendants,
        hash: node.hash,
        path: node.path,
        label: node.label.as_bytes(),
    }
}

/// Whether the nodes have the same kin.
fn same_links(a: &NodeRecord, b: &NodeRecord) -> bool
    ensures { IsTrue result ↔ HaveSameLinks a.now b.now }
{
    a.parent == b.parent
        && a.left == b.left
        && a.right == b.right
        && a.first == b.first
        && a.last == b.last
}

/// Whether the nodes have the same kind and the same numbers.
fn same_rest(a: &NodeRecord, b: &NodeRecord) -> bool
    ensures { IsTrue result ↔ HaveSameRest a.now b.now }
{
    a.kind == b.kind
        && a.children == b.children
        && a.descendants == b.descendants
        && a.hash == b.hash
        && a.path == b.path
}

impl Record for NodeRecord {
    ghost use Rattle.sx_record.specs.Spelling.{IsNode, node_bytes, node_fields};
    ghost use Rattle.sx_record.specs.Laws.{node-one_spelling};

    ghost spelling = { λ r. node_bytes (node_fields r) };

    ghost is_record = { IsNode };

    ghost one_spelling = { node-one_spelling };

    fn encode(&self, out: &mut FieldsOut) -> Result<(), AllocError> {
        let before = out.len();
        let put = put_node(out, &given(self));
        if put.is_err() {
            out.truncate(before);
        }
        put
    }

    fn decode(alloc: Global, fields: &mut Fields) -> Result<Option<NodeRecord>, AllocError> {
        let mut ahead = Fields::new(fields.rest());
        let Some(given) = read_node(&mut ahead) else {
            return Ok(None);
        };
        let Some(node) = node_of(alloc, &given)? else {
            return Ok(None);
        };
        *fields = ahead;
        Ok(Some(node))
    }

    fn same(&self, other: &NodeRecord) -> bool {
        if !same_links(self, other) || !same_rest(self, other) {
            return false;
        }
        self.label.as_bytes() == other.label.as_bytes()
    }

    fn copy(&self, alloc: Global) -> Result<NodeRecord, AllocError> {
        let label = self.label.copy(alloc)?;
        Ok(NodeRecord {
            kind: self.kind,
            parent: self.parent,
            left: self.left,
            right: self.right,
            first: self.first,
            last: self.last,
            children: self.children,
            descendants: self.descendants,
            hash: self.hash,
            path: self.path,
            label,
        })
    }
}
