//! Keys of a name among siblings.
ghost use Rattle.std.specs.Prelude.{◌≡◌, None, Some, IfErr, IfOk, IfSome, OnOk};
ghost use Rattle.sx_outside.specs.Faults.{Rose};
ghost use Rattle.sx_edit.specs.Damage.{Explains, IsDamaged};
ghost use Rattle.sx_edit.specs.Links.{LeadsTo};
ghost use Rattle.sx_edit.specs.Gets.{GetsKeys};
ghost use Rattle.sx_edit.specs.Names.{FindsKey, is_sought};
ghost use Rattle.sx_edit.specs.Steps.{GoesOn};

use crate::damage::endless;
use crate::kinds::is_key;
use crate::reads::read_linked;
use std::alloc::Global;
use sx_tree::record::NodeRecord;
use sx_tree::text::Text;
use sx_view::{Fault, RecordsMut};

/// Whether the node with this record is a key of the name, and not one that is left out.
fn is_named(entry: &NodeRecord, node: u32, name: &Text, except: Option<u32>) -> bool
    ensures { result ≡ is_sought except name.now node entry.now.kind entry.now.label }
{
    except != Some(node) && is_key(entry.kind) && entry.label.as_bytes() == name.as_bytes()
}

/// The first key of the name among the children of the parent, from this one on to the right, but for one that may be
/// left out.
pub(crate) fn find_key<N: RecordsMut<NodeRecord>>(
    alloc: Global,
    nodes: &mut N,
    next: u32,
    parent: u32,
    first: Option<u32>,
    name: &Text,
    except: Option<u32>,
) -> Result<Option<u32>, Fault>
    requires { IfSome first (λ to. LeadsTo (N.told nodes.old) parent to) }
    ensures found { IfOk result (λ found. FindsKey except name.now first next (N.told nodes.old) (Some found)) }
    ensures cannot { IfErr result (λ fault. IsDamaged fault
        → FindsKey except name.now first next (N.told nodes.old) None) }
    ensures work { OnOk result (GetsKeys first next (N.told nodes.old) (N.gets nodes.old) (N.gets nodes.new)) }
    ensures same { N.told nodes.new ≡ N.told nodes.old }
    ensures goes_on { GoesOn N.told N.faults N.damages N.has_mark N.marks nodes.old nodes.new }
    ensures fault { IfErr result (Explains next (N.told nodes.old) (N.damages nodes.old) (Rose (N.faults nodes.old) (N.faults nodes.new))) }
{
    let mut from = parent;
    let mut at = first;
    for _turn in 0..next {
        let Some(number) = at else {
            return Ok(None);
        };
        let entry = read_linked(alloc, nodes, from, number)?;
        if is_named(&entry, number, name, except) {
            return Ok(Some(number));
        }
        from = number;
        at = entry.right;
    }
    match at {
        Some(_) => Err(Fault::Damaged(endless(next))),
        None => Ok(None),
    }
}
