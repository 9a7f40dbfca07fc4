//! What a writer keeps in memory.
ghost use Rattle.std.specs.Prelude.{◌≡◌, ◌+◌, ◌≤◌, ◌≢◌, ◌↔◌, ◌<◌, ◌^◌, ℕ, None, Some, IfErr, IfOk, IfSome, IsErrOf, IsSome, OnErr, OnOk, FitsSigned, ℤ, List, length};
ghost use Rattle.sx_bytes.specs.declared.damage.Damage.{Damage};
ghost use Rattle.sx_model.specs.Commit.{state_of};
ghost use Rattle.sx_outside.specs.Faults.{Rose};
ghost use Rattle.sx_query.specs.Causes.{IsAboutNode};
ghost use Rattle.sx_query.specs.Gives.{Gives, IsText};
ghost use Rattle.sx_reader.specs.Asked.{ExplainsSome, KeepAll};
ghost use Rattle.sx_run.specs.Run.{Book};
ghost use Rattle.sx_store.specs.Damage.{HasNoNode, IsTakenDamage, IsMadeOf, IsQueryDamage, root_at};
ghost use Rattle.sx_store.specs.Shows.{IsDraftOf, Shows, count_of, frames_in, names_in, next_of, stage_of};
ghost use Rattle.sx_store.specs.Sound.{IsWhole, SameBut};
ghost use Rattle.sx_tree.specs.declared.query.Query.TheVariants as queries;

use crate::draft::{Draft, draft_of};
use std::alloc::Global;
use sx_log::Log;
use sx_query::About;
use sx_reader::{Cell, check_frames, read_document};
use sx_root::RevisionRoot;
use sx_tree::query::{Answer, Query};
use sx_view::{Fault, QueryFault};
use sx_volume::{ReadEnd, Spot};

/// What a writer keeps in memory: the log, where each of its frames is read, the draft where edits are open, and the stage at which a
/// commit failed.
#[derive(Drop)]
pub struct Ledger<S> {
    pub(crate) log: Log,
    pub(crate) cells: Vec<Cell<S>>,
    pub(crate) draft: Option<Draft>,
    pub(crate) stopped: Option<u8>,
}

/// The root of revision 0, which is not stored.
const FIRST_ROOT: RevisionRoot = RevisionRoot {
    revision: 0,
    time: i64::MIN,
    first_frame: 0,
    frames: 0,
    node_root: 0,
    path_root: 0,
    next: 1,
    nodes: 1,
    paths: 0,
    body: 0,
};

impl<S: Spot> Ledger<S> {
    /// How many commits there are.
    pub fn count(&self) -> u32
        requires whole { IsWhole S.Spot self.now }
        ensures count { result ≡ count_of self.now }
        ensures shown { (book : Book) → Shows S.Spot self.now book → result ≡ length book.commits }
    {
        self.log.groups.as_slice().len() as u32
    }

    /// How many frames they have together.
    pub fn frames(&self) -> u32
        requires whole { IsWhole S.Spot self.now }
        ensures frames { result ≡ frames_in self.now }
        ensures shown { (book : Book) → Shows S.Spot self.now book → result ≡ length book.commits }
    {
        self.cells.len() as u32
    }

    /// The stage in which a commit failed, where one did.
    pub fn stopped(&self) -> Option<u8>
        ensures { result ≡ stage_of self.now }
    {
        self.stopped
    }

    /// Answers a question about a revision up to the last one. The end makes at most one read.
    ///
    /// # Errors
    ///
    /// `NoNode` and `NoPath` where the question names a node that has no record or a path that is not there; `Failed` only where the end's faults rose;
    /// `Damaged` by the first rule that the revision's frame breaks, or by the rule that its records break; never where the ledger shows
    /// commits. `OutOfMemory`. `Missing` never comes.
    pub fn answer<E: ReadEnd<Spot = S>>(
        &self,
        alloc: Global,
        end: &mut E,
        revision: u32,
        query: &Query,
    ) -> Result<Answer, QueryFault>
        requires whole { IsWhole S.Spot self.now }
        requires there { revision ≤ count_of self.now }
        ensures answers { E.tells end.old → (book : Book) → Shows S.Spot self.now book
            → Gives (names_in self.now) (state_of book.commits revision) query.now result }
        ensures texts { (node : ℕ) → query.now ≡ queries.Text node → IfOk result IsText }
        ensures no_node { (node : ℕ) → IsErrOf result (QueryFault.NoNode node) → IsAboutNode query.now node }
        ensures absent { (node : ℕ) → IsErrOf result (QueryFault.NoNode node)
            → HasNoNode S.Spot (E.tells end.old) self.now (root_at self.now revision) node }
        ensures no_path { (path : ℕ) → IsErrOf result (QueryFault.NoPath path) → query.now ≡ queries.Path path }
        ensures never_missing { (asked seen : ℕ) → IsErrOf result (QueryFault.Missing asked seen) → ⊥ }
        ensures failed { IsErrOf result QueryFault.Failed → Rose (E.faults end.old) (E.faults end.new) }
        ensures damaged { (damage : Damage) → IsErrOf result (QueryFault.Damaged damage)
            → IsQueryDamage S.Spot (E.tells end.old) self.now (root_at self.now revision) query.now damage }
        ensures one_read { E.reads end.new ≤ E.reads end.old + 1 }
        ensures goes_on_telling { E.tells end.old → E.tells end.new }
        ensures never_falls { E.faults end.old ≤ E.faults end.new }
    {
        let root = self.root(revision);
        let mut document = read_document(alloc, end, &self.cells, root.node_root)?;
        let about = About {
            nodes: root.nodes,
            paths: root.paths,
            from: &self.log.birth.from,
            to: &self.log.birth.to,
        };
        sx_query::ask(alloc, &mut document, &about, query)
    }

    /// Checks all frames: of the frame to which the node root of its group leads a whole document is asked, and of each other frame no
    /// more than that it is a frame of one.
    ///
    /// # Errors
    ///
    /// `Failed` only where the end's faults rose; `Damaged` by the first rule that some frame breaks, with its place: rule 1 where its
    /// digest is another one, rule 17 where its length is, rule 16 where it holds no whole document, rules 20 and 21 where its body is that
    /// of no document; never where the ledger shows commits. `OutOfMemory`.
    pub fn check<E: ReadEnd<Spot = S>>(&self, alloc: Global, end: &mut E) -> Result<(), Fault>
        requires whole { IsWhole S.Spot self.now }
        ensures kept { OnOk result (E.tells end.old → KeepAll S.Spot self.now.log self.now.cells.items) }
        ensures explains { IfErr result (ExplainsSome S.Spot (E.tells end.old) (Rose (E.faults end.old) (E.faults end.new)) self.now.log self.now.cells.items) }
        ensures undamaged { E.tells end.old → (book : Book) → Shows S.Spot self.now book → (damage : Damage) → IsErrOf result (Fault.Damaged damage) → ⊥ }
        ensures goes_on_telling { E.tells end.old → E.tells end.new }
        ensures never_falls { E.faults end.old ≤ E.faults end.new }
    {
        check_frames(alloc, end, &self.log, &self.cells)
    }

    // The draft, which is made of the last revision where no edit is open.
    pub(crate) fn take_draft<E: ReadEnd<Spot = S>>(
        &mut self,
        alloc: Global,
        end: &mut E,
    ) -> Result<Draft, Fault>
        requires whole { IsWhole S.Spot self.old }
        ensures shown { E.tells end.old → (book : Book) → Shows S.Spot self.old book → IfOk result (IsDraftOf book) }
        ensures undamaged { E.tells end.old → (book : Book) → Shows S.Spot self.old book → (damage : Damage) → IsErrOf result (Fault.Damaged damage) → ⊥ }
        ensures made { IfOk result (IsMadeOf S.Spot (E.tells end.old) self.old) }
        ensures next { IfOk result (λ draft. draft.next ≡ next_of self.old) }
        ensures failed { IsErrOf result Fault.Failed → Rose (E.faults end.old) (E.faults end.new) }
        ensures damaged { (damage : Damage) → IsErrOf result (Fault.Damaged damage) → IsTakenDamage S.Spot (E.tells end.old) self.old.draft self.old damage }
        ensures same { SameBut self.old self.new }
        ensures refused { OnErr result (self.new ≡ self.old) }
        ensures one_read { E.reads end.new ≤ E.reads end.old + 1 }
        ensures goes_on_telling { E.tells end.old → E.tells end.new }
        ensures never_falls { E.faults end.old ≤ E.faults end.new }
    {
        match self.draft.take() {
            Some(draft) => Ok(draft),
            None => draft_of(alloc, end, &self.cells, &self.root(self.count())),
        }
    }

    // The root of a revision up to the last one.
    pub(crate) fn root(&self, revision: u32) -> RevisionRoot
        requires there { revision ≤ count_of self.now }
        ensures root { result ≡ root_at self.now revision }
    {
        match revision {
            0 => FIRST_ROOT,
            _ => self.log.groups.as_slice()[revision as usize - 1].root,
        }
    }
}
