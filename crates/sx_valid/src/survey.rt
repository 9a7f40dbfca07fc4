//! The search for valid objects through all nodes.
ghost use Rattle.std.specs.Prelude.{◌≡◌, ◌+◌, ◌≤◌, ◌<◌, ◌++◌, ◌⊎◌, [], ◌∷◌, IfErr, IfOk, MatchResult, OnOk, Some, true, if◌then◌else◌};
ghost use Rattle.sx_outside.specs.Faults.{Rose};
ghost use Rattle.sx_view.specs.Rows.{row_of};
ghost use Rattle.sx_view.specs.Records.{Explains, IsDamaged};
ghost use Rattle.sx_cursor.specs.Told.{Tells};
ghost use Rattle.sx_valid.specs.Survey.{AreLinked, GoesInto, GoesOn, Searches, SearchesFrom, done, links_of, overrun};
ghost use Rattle.sx_valid.specs.Valid.{IsBroken};

use crate::asked::Asked;
use crate::fields::judge;
use std::alloc::{AllocError, Global};
use sx_cursor::{endless, read_linked};
use sx_tree::numbers::Numbers;
use sx_tree::record::NodeRecord;
use sx_view::{Fault, Records};

/// A link that is to be followed.
#[derive(Clone, Copy)]
pub(crate) struct Link {
    pub(crate) from: u32,
    pub(crate) to: u32,
}

/// How far the search has come.
#[derive(Drop)]
pub(crate) struct Survey {
    /// The links that are to be followed, the next one last.
    pub(crate) pending: Vec<Link>,
    /// How many nodes may be visited yet.
    pub(crate) left: u32,
    /// How many nodes may be looked at yet for the fields of objects.
    pub(crate) looks: u32,
    /// The valid objects so far.
    pub(crate) found: Numbers,
}

// Adds the link from a node to another one, where there is one.
fn await_link(pending: &mut Vec<Link>, from: u32, to: Option<u32>) -> Result<(), AllocError>
    ensures { OnOk result (pending.new.items ≡ pending.old.items ++ links_of from to) }
{
    if let Some(to) = to {
        pending.push(Link { from, to })?;
    }
    Ok(())
}

// Lists the object, if it is valid.
fn list_if(found: &mut Numbers, number: u32, valid: bool) -> Result<(), AllocError>
    ensures { OnOk result (found.new ≡ found.old ++ (if valid then number ∷ [] else [])) }
{
    if valid {
        found.push(number)?;
    }
    Ok(())
}

impl Survey {
    // Visits the node, whose record this is.
    fn enter<N: Records<NodeRecord>>(
        &mut self,
        alloc: Global,
        records: &mut N,
        asked: Asked,
        number: u32,
        node: &NodeRecord,
        count: u32,
    ) -> Result<(), Fault>
        requires there { Tells (N.told records.old) number (Some (row_of node.now)) }
        requires linked { AreLinked (N.told records.old) self.old.pending.items }
        requires left { 0 < self.old.left }
        ensures linked { OnOk result (AreLinked (N.told records.old) self.new.pending.items) }
        ensures goes { MatchResult result (λ _. GoesInto (N.told records.old) asked.entry number self.old self.new)
            (λ fault. IsDamaged fault → SearchesFrom (N.told records.old) asked.entry number self.old overrun) }
        ensures less { OnOk result (self.new.left + 1 ≡ self.old.left) }
        ensures fault { IfErr result (Explains (N.damages records.old) (Rose (N.faults records.old) (N.faults records.new)) (IsBroken (N.told records.old) count)) }
        ensures gets { OnOk result (N.gets records.new + self.new.looks ≤ N.gets records.old + self.old.looks) }
        ensures within { N.gets records.new ≤ N.gets records.old + self.old.looks }
        ensures never_falls { N.faults records.old ≤ N.faults records.new }
        ensures keeps { N.keeps records.old records.new }
        ensures same { N.told records.new ≡ N.told records.old }
    {
        let (valid, looks) = judge(alloc, records, asked, number, node, self.looks, count)?;
        list_if(&mut self.found, number, valid)?;
        self.looks = looks;
        self.left -= 1;
        await_link(&mut self.pending, number, node.right)?;
        await_link(&mut self.pending, number, node.first)?;
        Ok(())
    }

    // Follows one link more. False where there is none.
    fn advance<N: Records<NodeRecord>>(
        &mut self,
        alloc: Global,
        records: &mut N,
        asked: Asked,
        count: u32,
    ) -> Result<bool, Fault>
        requires linked { AreLinked (N.told records.old) self.old.pending.items }
        ensures linked { IfOk result (λ _. AreLinked (N.told records.old) self.new.pending.items) }
        ensures goes { MatchResult result (GoesOn (N.told records.old) asked.entry self.old self.new)
            (λ fault. IsDamaged fault → Searches (N.told records.old) asked.entry self.old overrun) }
        ensures less { IfOk result (λ on. on ≡ true → self.new.left < self.old.left) }
        ensures fault { IfErr result (Explains (N.damages records.old) (Rose (N.faults records.old) (N.faults records.new)) (IsBroken (N.told records.old) count)) }
        ensures gets { IfOk result (λ _. N.gets records.new + (self.new.left + self.new.looks) ≤ N.gets records.old + (self.old.left + self.old.looks)) }
        ensures within { N.gets records.new ≤ N.gets records.old + (self.old.left + self.old.looks) }
        ensures never_falls { N.faults records.old ≤ N.faults records.new }
        ensures keeps { N.keeps records.old records.new }
        ensures same { N.told records.new ≡ N.told records.old }
    {
        let Some(Link { from, to }) = self.pending.pop() else {
            return Ok(false);
        };
        if self.left == 0 {
            return Err(Fault::Damaged(endless(count)));
        }
        let node = read_linked(alloc, records, from, to)?;
        self.enter(alloc, records, asked, to, &node, count)?;
        Ok(true)
    }

    // Follows all links that are left.
    fn finish<N: Records<NodeRecord>>(
        self,
        alloc: Global,
        records: &mut N,
        asked: Asked,
        count: u32,
    ) -> Result<Numbers, Fault>
        requires linked { AreLinked (N.told records.old) self.pending.items }
        ensures goes { MatchResult result (λ found. Searches (N.told records.old) asked.entry self (done found))
            (λ fault. IsDamaged fault → Searches (N.told records.old) asked.entry self overrun) }
        ensures fault { IfErr result (Explains (N.damages records.old) (Rose (N.faults records.old) (N.faults records.new)) (IsBroken (N.told records.old) count)) }
        ensures within { N.gets records.new ≤ N.gets records.old + (self.left + self.looks) }
        ensures never_falls { N.faults records.old ≤ N.faults records.new }
        ensures keeps { N.keeps records.old records.new }
        ensures same { N.told records.new ≡ N.told records.old }
    {
        let mut survey = self;
        while survey.advance(alloc, records, asked, count)? {}
        Ok(survey.found)
    }

    /// The valid objects among the node, whose record this is, and all nodes behind it in preorder.
    pub(crate) fn search<N: Records<NodeRecord>>(
        self,
        alloc: Global,
        records: &mut N,
        asked: Asked,
        number: u32,
        node: &NodeRecord,
        count: u32,
    ) -> Result<Numbers, Fault>
        requires there { Tells (N.told records.old) number (Some (row_of node.now)) }
        requires linked { AreLinked (N.told records.old) self.pending.items }
        requires left { 0 < self.left }
        ensures goes { MatchResult result (λ found. SearchesFrom (N.told records.old) asked.entry number self (done found))
            (λ fault. IsDamaged fault → SearchesFrom (N.told records.old) asked.entry number self overrun) }
        ensures fault { IfErr result (Explains (N.damages records.old) (Rose (N.faults records.old) (N.faults records.new)) (IsBroken (N.told records.old) count)) }
        ensures within { N.gets records.new ≤ N.gets records.old + (self.left + self.looks) }
        ensures never_falls { N.faults records.old ≤ N.faults records.new }
        ensures keeps { N.keeps records.old records.new }
    {
        let mut survey = self;
        survey.enter(alloc, records, asked, number, node, count)?;
        survey.finish(alloc, records, asked, count)
    }
}
