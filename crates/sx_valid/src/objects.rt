//! The objects of a document that are valid at a time.
ghost use Rattle.std.specs.Prelude.{◌≡◌, ◌+◌, ◌*◌, ◌≤◌, IfErr, IfOk};
ghost use Rattle.sx_outside.specs.Faults.{Rose};
ghost use Rattle.sx_view.specs.Records.{Explains, IsDamaged};
ghost use Rattle.sx_cursor.specs.Told.{IsNoDocument};
ghost use Rattle.sx_valid.specs.Valid.{AreValid, IsBroken};

use crate::asked::Asked;
use crate::survey::Survey;
use std::alloc::Global;
use sx_cursor::{endless, read};
use sx_tree::numbers::Numbers;
use sx_tree::record::NodeRecord;
use sx_tree::text::Text;
use sx_view::{Fault, Records};

/// The number of the Document.
const DOCUMENT: u32 = 0;

/// The objects in preorder that are valid at the time, in milliseconds since the start of 1970 in UTC: whose field `from` is a
/// string that `jiff` reads as an instant not after it, and whose field `to` is not there, or null, or a string that is read as an
/// instant after it.
///
/// It visits at most `count` nodes, and looks at as many more for the fields.
///
/// # Errors
///
/// `Failed` only where the faults of the object below rose; `Damaged` where a link leads to a node that has no record, a Key of one
/// of the names has no child, or links lead on after `count` nodes, and else only where the records are not told; `OutOfMemory`.
pub fn valid_at<N: Records<NodeRecord>>(
    alloc: Global,
    records: &mut N,
    from: &Text,
    to: &Text,
    time: i64,
    count: u32,
) -> Result<Numbers, Fault>
    ensures valid { IfOk result (AreValid (N.told records.old) from.now to.now time) }
    ensures sound { IfErr result (λ fault. IsDamaged fault → IsNoDocument (N.told records.old) count) }
    ensures fault { IfErr result (Explains (N.damages records.old) (Rose (N.faults records.old) (N.faults records.new)) (IsBroken (N.told records.old) count)) }
    ensures gets { N.gets records.new ≤ N.gets records.old + (2 * count + 1) }
    ensures never_falls { N.faults records.old ≤ N.faults records.new }
    ensures keeps { N.keeps records.old records.new }
{
    let Some(document) = read(alloc, records, DOCUMENT)? else {
        return Ok(Numbers::new(alloc));
    };
    if count == 0 {
        return Err(Fault::Damaged(endless(count)));
    }
    let survey = Survey {
        pending: Vec::new(alloc),
        left: count,
        looks: count,
        found: Numbers::new(alloc),
    };
    let asked = Asked { from, to, time };
    survey.search(alloc, records, asked, DOCUMENT, &document, count)
}
