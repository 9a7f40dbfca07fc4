//! A value of a JSON document.
ghost use Rattle.std.specs.Prelude.{◌≡◌, ◌-◌, ◌^◌, min};
ghost use Rattle.sx_tree.specs.Value.{value_of, values_of, depth, depth_of_values, nodes, nodes_of_values};

use crate::literal::Literal;
use crate::member_list::MemberList;
use crate::text::Text;

/// A value that holds no other.
#[derive(Drop)]
pub enum Scalar {
    Str(Text),
    Number(Literal),
    Bool(bool),
    Null,
}

/// The values of an array, in order.
pub type Items = sqlite_items::Items<Json>;

/// The members of an object, in order. No two have one name.
pub type Members = MemberList<Json>;

/// A value of a JSON document (RFC 8259 section 3).
#[derive(Drop)]
pub enum Json {
    Scalar(Scalar),
    Array(Items),
    Object(Members),
}

impl Json {
    /// How many arrays and objects nest: 0 for a scalar, else 1 more than the greatest depth of the
    /// values within, which is 0 where there are none. 4,294,967,295 where it is greater.
    #[cycle(depth)]
    pub fn depth(&self) -> u32
        ensures { result ≡ min (depth (value_of self.now)) (2 ^ 32 - 1) }
    {
        match self {
            Json::Scalar(_) => 0,
            Json::Array(items) => deepest(items.as_slice()).saturating_add(1),
            Json::Object(members) => deepest(members.values()).saturating_add(1),
        }
    }

    /// How many nodes the value becomes: each value is one, and so is each name of a member.
    /// 18,446,744,073,709,551,615 where there are more.
    #[cycle(nodes)]
    pub fn nodes(&self) -> u64
        ensures { result ≡ min (nodes (value_of self.now)) (2 ^ 64 - 1) }
    {
        match self {
            Json::Scalar(_) => 1,
            Json::Array(items) => total_nodes(items.as_slice()).saturating_add(1),
            Json::Object(members) => {
                let values = members.values();
                let names = values.len() as u64;
                total_nodes(values).saturating_add(names).saturating_add(1)
            }
        }
    }
}

/// The greatest depth of the values.
#[cycle(depth)]
fn deepest(values: &[Json]) -> u32
    ensures { result ≡ min (depth_of_values (values_of values.now)) (2 ^ 32 - 1) }
{
    let mut deepest = 0;
    for value in values {
        deepest = value.depth().max(deepest);
    }
    deepest
}

/// The nodes of all the values.
#[cycle(nodes)]
fn total_nodes(values: &[Json]) -> u64
    ensures { result ≡ min (nodes_of_values (values_of values.now)) (2 ^ 64 - 1) }
{
    let mut total: u64 = 0;
    for value in values {
        total = total.saturating_add(value.nodes());
    }
    total
}
