//! The two fields of an object that tell from when and up to when it is valid.
ghost use Rattle.std.specs.Prelude.{◌≡◌, ◌+◌, ◌≤◌, ◌<◌, ◌&&◌, ◌⊎◌, ℕ, IfErr, IfOk, MatchResult, None, Some, not, true, if◌then◌else◌};
ghost use Rattle.std.specs.Option.{is_some};
ghost use Rattle.std.specs.Str.{bytes_eq};
ghost use Rattle.sx_outside.specs.Faults.{Rose};
ghost use Rattle.sx_tree.specs.declared.record.Kind.TheVariants.{Key};
ghost use Rattle.sx_view.specs.Rows.{row_of};
ghost use Rattle.sx_model.specs.Tree.{is_key, is_object};
ghost use Rattle.sx_view.specs.Records.{Explains, IsDamaged};
ghost use Rattle.sx_cursor.specs.Damage.{IsLinked};
ghost use Rattle.sx_cursor.specs.Told.{Tells};
ghost use Rattle.sx_valid.specs.Fields.{IsReadOn, LacksValue, Looks, LooksOn, judged, overrun};
ghost use Rattle.sx_valid.specs.Survey.{AreTooFew, IsJudged};
ghost use Rattle.sx_valid.specs.Valid.{IsBroken};

use crate::asked::Asked;
use crate::instants::{has_begun, has_not_ended};
use std::alloc::Global;
use sx_cursor::{endless, misplaced, read_linked};
use sx_tree::record::{Kind, NodeRecord};
use sx_tree::text::Text;
use sx_view::{Fault, Records};

/// How far the children of an object were looked through.
#[derive(Clone, Copy)]
pub(crate) struct Look {
    /// The node that links to the next child.
    from: u32,
    next: Option<u32>,
    /// How many nodes may be looked at yet.
    left: u32,
    /// Whether the object has begun to be valid, where the field that tells it was found.
    begun: Option<bool>,
    /// Whether it still is, where the field that tells it was found.
    lasts: Option<bool>,
}

// Whether it is the kind of an object.
fn is_object(kind: Kind) -> bool
    ensures { result ≡ is_object kind }
{
    matches!(kind, Kind::Object)
}

// What was found before, or the judgement of the value here.
fn first_of(before: Option<bool>, here: bool, judged: bool) -> Option<bool>
    ensures { result ≡ (if here then Some judged else before) }
{
    if here { Some(judged) } else { before }
}

// Whether the node is a Key of this name, and none was found before.
fn finds(before: Option<bool>, node: &NodeRecord, name: &Text) -> bool
    ensures { result ≡ (not (is_some before) && (is_key node.now.kind && bytes_eq node.now.label name.now)) }
{
    before.is_none() && matches!(node.kind, Kind::Key) && node.label.as_bytes() == name.as_bytes()
}

// The record of a node to which a link leads, where so many may be looked at yet.
fn look_at<N: Records<NodeRecord>>(
    alloc: Global,
    records: &mut N,
    from: u32,
    to: u32,
    left: u32,
    count: u32,
) -> Result<NodeRecord, Fault>
    requires linked { IsLinked (N.told records.old) from to }
    ensures found { IfOk result (λ found. Tells (N.told records.old) to (Some (row_of found))) }
    ensures room { IfOk result (λ _. 0 < left) }
    ensures none { IfErr result (λ fault. IsDamaged fault → (left ≡ 0) ⊎ Tells (N.told records.old) to None) }
    ensures fault { IfErr result (Explains (N.damages records.old) (Rose (N.faults records.old) (N.faults records.new)) (IsBroken (N.told records.old) count)) }
    ensures gets { N.gets records.new ≤ N.gets records.old + 1 }
    ensures within { N.gets records.new ≤ N.gets records.old + left }
    ensures never_falls { N.faults records.old ≤ N.faults records.new }
    ensures keeps { N.keeps records.old records.new }
    ensures same { N.told records.new ≡ N.told records.old }
{
    if left == 0 {
        return Err(Fault::Damaged(endless(count)));
    }
    read_linked(alloc, records, from, to)
}

// The record of a Key's value. The Key has this record.
fn value_of<N: Records<NodeRecord>>(
    alloc: Global,
    records: &mut N,
    number: u32,
    key: &NodeRecord,
    left: u32,
    count: u32,
) -> Result<NodeRecord, Fault>
    requires there { Tells (N.told records.old) number (Some (row_of key.now)) }
    requires key { key.now.kind ≡ Key }
    ensures found { IfOk result (λ found. (to : ℕ) × (key.now.first ≡ Some to) × Tells (N.told records.old) to (Some (row_of found))) }
    ensures room { IfOk result (λ _. 0 < left) }
    ensures none { IfErr result (λ fault. IsDamaged fault → (left ≡ 0) ⊎ LacksValue (N.told records.old) key.now.first) }
    ensures fault { IfErr result (Explains (N.damages records.old) (Rose (N.faults records.old) (N.faults records.new)) (IsBroken (N.told records.old) count)) }
    ensures within { N.gets records.new ≤ N.gets records.old + left }
    ensures gets { N.gets records.new ≤ N.gets records.old + 1 }
    ensures never_falls { N.faults records.old ≤ N.faults records.new }
    ensures keeps { N.keeps records.old records.new }
    ensures same { N.told records.new ≡ N.told records.old }
{
    let Some(first) = key.first else {
        return Err(Fault::Damaged(misplaced(number, 0)));
    };
    look_at(alloc, records, number, first, left, count)
}

impl Look {
    // Looks at one child more. False where there is none.
    fn advance<N: Records<NodeRecord>>(
        &mut self,
        alloc: Global,
        records: &mut N,
        asked: Asked,
        count: u32,
    ) -> Result<bool, Fault>
        requires read { IsReadOn (N.told records.old) self.old }
        ensures read { IfOk result (λ _. IsReadOn (N.told records.old) self.new) }
        ensures looks { MatchResult result (LooksOn (N.told records.old) asked.entry self.old self.new) (λ fault. IsDamaged fault → Looks (N.told records.old) asked.entry self.old overrun) }
        ensures less { IfOk result (λ on. on ≡ true → self.new.left < self.old.left) }
        ensures fault { IfErr result (Explains (N.damages records.old) (Rose (N.faults records.old) (N.faults records.new)) (IsBroken (N.told records.old) count)) }
        ensures gets { IfOk result (λ _. N.gets records.new + self.new.left ≤ N.gets records.old + self.old.left) }
        ensures within { IfErr result (λ _. N.gets records.new ≤ N.gets records.old + self.old.left) }
        ensures never_falls { N.faults records.old ≤ N.faults records.new }
        ensures keeps { N.keeps records.old records.new }
        ensures same { N.told records.new ≡ N.told records.old }
    {
        let Some(number) = self.next else {
            return Ok(false);
        };
        let key = look_at(alloc, records, self.from, number, self.left, count)?;
        let begins = finds(self.begun, &key, asked.from);
        let lasts = finds(self.lasts, &key, asked.to);
        if !(begins | lasts) {
            self.from = number;
            self.next = key.right;
            self.left -= 1;
            return Ok(true);
        }
        let value = value_of(alloc, records, number, &key, self.left - 1, count)?;
        *self = Look {
            from: number,
            next: key.right,
            left: self.left - 2,
            begun: first_of(self.begun, begins, has_begun(asked.time, &value)),
            lasts: first_of(self.lasts, lasts, has_not_ended(asked.time, &value)),
        };
        Ok(true)
    }

    // Looks at all that are left.
    fn finish<N: Records<NodeRecord>>(
        self,
        alloc: Global,
        records: &mut N,
        asked: Asked,
        count: u32,
    ) -> Result<Look, Fault>
        requires read { IsReadOn (N.told records.old) self }
        ensures looks { MatchResult result (λ end. Looks (N.told records.old) asked.entry self (judged end.begun end.lasts end.left)) (λ fault. IsDamaged fault → Looks (N.told records.old) asked.entry self overrun) }
        ensures fault { IfErr result (Explains (N.damages records.old) (Rose (N.faults records.old) (N.faults records.new)) (IsBroken (N.told records.old) count)) }
        ensures gets { IfOk result (λ end. N.gets records.new + end.left ≤ N.gets records.old + self.left) }
        ensures within { IfErr result (λ _. N.gets records.new ≤ N.gets records.old + self.left) }
        ensures never_falls { N.faults records.old ≤ N.faults records.new }
        ensures keeps { N.keeps records.old records.new }
        ensures same { N.told records.new ≡ N.told records.old }
    {
        let mut look = self;
        while look.advance(alloc, records, asked, count)? {}
        Ok(look)
    }
}

/// Whether the node, whose record this is, is an object that is valid. So many nodes may be looked at, and so many are left then.
pub(crate) fn judge<N: Records<NodeRecord>>(
    alloc: Global,
    records: &mut N,
    asked: Asked,
    number: u32,
    node: &NodeRecord,
    looks: u32,
    count: u32,
) -> Result<(bool, u32), Fault>
    requires there { Tells (N.told records.old) number (Some (row_of node.now)) }
    ensures judged { IfOk result (IsJudged (N.told records.old) asked.entry node.now.kind node.now.first looks) }
    ensures too_few { IfErr result (λ fault. IsDamaged fault → AreTooFew (N.told records.old) node.now.kind node.now.first looks) }
    ensures fault { IfErr result (Explains (N.damages records.old) (Rose (N.faults records.old) (N.faults records.new)) (IsBroken (N.told records.old) count)) }
    ensures gets { IfOk result (λ answer. N.gets records.new + answer.1 ≤ N.gets records.old + looks) }
    ensures within { IfErr result (λ _. N.gets records.new ≤ N.gets records.old + looks) }
    ensures never_falls { N.faults records.old ≤ N.faults records.new }
    ensures keeps { N.keeps records.old records.new }
    ensures same { N.told records.new ≡ N.told records.old }
{
    if !is_object(node.kind) {
        return Ok((false, looks));
    }
    let look = Look {
        from: number,
        next: node.first,
        left: looks,
        begun: None,
        lasts: None,
    };
    let end = look.finish(alloc, records, asked, count)?;
    let valid = end.begun.unwrap_or(false) & end.lasts.unwrap_or(true);
    Ok((valid, end.left))
}
