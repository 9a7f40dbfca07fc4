ghost use Rattle.std.specs.Prelude.{◌≡◌, ◌≢◌, ◌<◌, ℕ, ℤ, List, Option, Some, None, IfOk, IsSome};
ghost use Rattle.sx_layout.specs.Birth.{Birth};
ghost use Rattle.sx_run.specs.Client.{client_count};
ghost use Rattle.sx_run.specs.Item.{GoesOn};
ghost use Rattle.sx_run.specs.Run.{Course, edited_said};
ghost use Rattle.sx_run.specs.declared.line.Command.TheVariants as commands;
ghost use Rattle.sx_script.specs.Told.{IsCommandWithin, IsEditWithin, IsTold};
ghost use Rattle.sx_shell.specs.Desk.{IsAnswered, IsEnd, Opens, wanted};
ghost use Rattle.sx_shell.specs.Done.{Continues, IsAt, place};
ghost use Rattle.sx_shell.specs.Medium.{EndsGoOn, medium};
ghost use Rattle.sx_shell.specs.Said.{IsAnswerOf, IsEditOf, IsSaidOf};
ghost use Rattle.sx_shell.specs.Shows.{IsReady};
ghost use Rattle.sx_store.specs.Shows.{stage_of};

use crate::Status;
use std::alloc::{AllocError, Global};
use sx_outside::Clock;
use sx_script::{Command, Said};
use sx_store::{CommitFault, Committed, QueryFault, Writer, WriterFault};
use sx_tree::edit::{Edit, Edited};
use sx_tree::query::{Answer, Query, Which};
use sx_volume::Volume;

/// The writer's client and 31 readers.
pub(crate) const CLIENTS: usize = 32;

/// The writer, and the revision that each client has open.
#[derive(Drop)]
pub(crate) struct Desk<'a, V: Volume> {
    pub(crate) writer: Writer<'a, V>,
    pub(crate) revisions: [u32; 32],
}

impl<V: Volume> Desk<'_, V> {
    /// What is said to a command of a client, other than `quit`. It reads the client's end. After want of memory the command has done
    /// nothing.
    pub(crate) fn run<C: Clock>(
        &mut self,
        alloc: Global,
        ends: &mut [V::End],
        clock: &mut C,
        client: u32,
        command: &Command,
    ) -> Result<Said, AllocError>
        requires ready { IsReady V.Volume V.Spot.Spot self.old.writer.volume.now self.old.writer.ledger ends.old self.old.revisions }
        requires known { client < client_count }
        requires asked { GoesOn command.now }
        requires within { IsCommandWithin command.now }
        ensures same_reference { self.new.writer.volume.ghost_name ≡ self.old.writer.volume.ghost_name }
        ensures ready { IsReady V.Volume V.Spot.Spot self.new.writer.volume.now self.new.writer.ledger ends.new self.new.revisions }
        ensures continues { Continues V.Volume V.Spot.Spot self.old.writer.volume.now self.new.writer.volume.now self.old.writer.ledger self.new.writer.ledger }
        ensures ends { EndsGoOn V.End.ReadEnd ends.old ends.new }
        ensures told { IfOk result IsTold }
        ensures answered { (birth : Birth) (course : Course) → IsAt (medium birth V.Volume V.Spot.Spot V.End.ReadEnd) (place self.old.writer.volume.now self.old.writer.ledger ends.old self.old.revisions None (C.moments clock.old)) course
            → IsAnswered (medium birth V.Volume V.Spot.Spot V.End.ReadEnd) (record {
              course = course;
              old = place self.old.writer.volume.now self.old.writer.ledger ends.old self.old.revisions None (C.moments clock.old);
              new = place self.new.writer.volume.now self.new.writer.ledger ends.new self.new.revisions None (C.moments clock.new);
            }) client command.now result }
    {
        match command {
            Command::Edit(edit) => self.edit(alloc, ends, client, edit),
            Command::Rollback => {
                self.writer.rollback();
                Ok(Said::Done)
            }
            Command::Commit => self.commit(alloc, ends, clock, client),
            Command::Open(which) => {
                let seen = self.writer.ledger.count();
                Ok(open(&mut self.revisions, client, *which, seen))
            }
            Command::Ask(query) => self.ask(alloc, ends, client, query),
            Command::Quit => unreachable!("quit ends the run"),
        }
    }

    /// How a run ends that comes to its end here.
    pub(crate) fn end(&self) -> Status
        ensures end { IsEnd (stage_of self.now.writer.ledger) result }
        ensures no_read { result ≢ Status.ReadFault }
    {
        match self.writer.ledger.stopped() {
            Some(_) => Status::VolumeFault,
            None => Status::Done,
        }
    }

    fn edit(
        &mut self,
        alloc: Global,
        ends: &mut [V::End],
        client: u32,
        edit: &Edit,
    ) -> Result<Said, AllocError>
        requires ready { IsReady V.Volume V.Spot.Spot self.old.writer.volume.now self.old.writer.ledger ends.old self.old.revisions }
        requires known { client < client_count }
        requires within { IsEditWithin edit.now }
        ensures same_reference { self.new.writer.volume.ghost_name ≡ self.old.writer.volume.ghost_name }
        ensures ready { IsReady V.Volume V.Spot.Spot self.new.writer.volume.now self.new.writer.ledger ends.new self.new.revisions }
        ensures continues { Continues V.Volume V.Spot.Spot self.old.writer.volume.now self.new.writer.volume.now self.old.writer.ledger self.new.writer.ledger }
        ensures ends { EndsGoOn V.End.ReadEnd ends.old ends.new }
        ensures told { IfOk result IsTold }
        ensures answered { (birth : Birth) (moments : Option (List ℤ)) (course : Course) → IsAt (medium birth V.Volume V.Spot.Spot V.End.ReadEnd) (place self.old.writer.volume.now self.old.writer.ledger ends.old self.old.revisions None moments) course
            → IsAnswered (medium birth V.Volume V.Spot.Spot V.End.ReadEnd) (record {
              course = course;
              old = place self.old.writer.volume.now self.old.writer.ledger ends.old self.old.revisions None moments;
              new = place self.new.writer.volume.now self.new.writer.ledger ends.new self.new.revisions None moments;
            }) client (commands.Edit edit.now) result }
    {
        edit_said(self.writer.edit(alloc, &mut ends[client as usize], edit))
    }

    fn commit<C: Clock>(
        &mut self,
        alloc: Global,
        ends: &mut [V::End],
        clock: &mut C,
        client: u32,
    ) -> Result<Said, AllocError>
        requires ready { IsReady V.Volume V.Spot.Spot self.old.writer.volume.now self.old.writer.ledger ends.old self.old.revisions }
        requires known { client < client_count }
        ensures same_reference { self.new.writer.volume.ghost_name ≡ self.old.writer.volume.ghost_name }
        ensures ready { IsReady V.Volume V.Spot.Spot self.new.writer.volume.now self.new.writer.ledger ends.new self.new.revisions }
        ensures continues { Continues V.Volume V.Spot.Spot self.old.writer.volume.now self.new.writer.volume.now self.old.writer.ledger self.new.writer.ledger }
        ensures ends { EndsGoOn V.End.ReadEnd ends.old ends.new }
        ensures told { IfOk result IsTold }
        ensures answered { (birth : Birth) (course : Course) → IsAt (medium birth V.Volume V.Spot.Spot V.End.ReadEnd) (place self.old.writer.volume.now self.old.writer.ledger ends.old self.old.revisions None (C.moments clock.old)) course
            → IsAnswered (medium birth V.Volume V.Spot.Spot V.End.ReadEnd) (record {
              course = course;
              old = place self.old.writer.volume.now self.old.writer.ledger ends.old self.old.revisions None (C.moments clock.old);
              new = place self.new.writer.volume.now self.new.writer.ledger ends.new self.new.revisions None (C.moments clock.new);
            }) client commands.Commit result }
    {
        committed_said(self.writer.commit(alloc, &mut ends[client as usize], clock))
    }

    fn ask(
        &mut self,
        alloc: Global,
        ends: &mut [V::End],
        client: u32,
        query: &Query,
    ) -> Result<Said, AllocError>
        requires ready { IsReady V.Volume V.Spot.Spot self.old.writer.volume.now self.old.writer.ledger ends.old self.old.revisions }
        requires known { client < client_count }
        ensures same_reference { self.new.writer.volume.ghost_name ≡ self.old.writer.volume.ghost_name }
        ensures ready { IsReady V.Volume V.Spot.Spot self.new.writer.volume.now self.new.writer.ledger ends.new self.new.revisions }
        ensures continues { Continues V.Volume V.Spot.Spot self.old.writer.volume.now self.new.writer.volume.now self.old.writer.ledger self.new.writer.ledger }
        ensures ends { EndsGoOn V.End.ReadEnd ends.old ends.new }
        ensures told { IfOk result IsTold }
        ensures answered { (birth : Birth) (moments : Option (List ℤ)) (course : Course) → IsAt (medium birth V.Volume V.Spot.Spot V.End.ReadEnd) (place self.old.writer.volume.now self.old.writer.ledger ends.old self.old.revisions None moments) course
            → IsAnswered (medium birth V.Volume V.Spot.Spot V.End.ReadEnd) (record {
              course = course;
              old = place self.old.writer.volume.now self.old.writer.ledger ends.old self.old.revisions None moments;
              new = place self.new.writer.volume.now self.new.writer.ledger ends.new self.new.revisions None moments;
            }) client (commands.Ask query.now) result }
    {
        let revision = self.revisions[client as usize];
        let end = &mut ends[client as usize];
        asked_said(self.writer.ledger.answer(alloc, end, revision, query))
    }
}

// Opens the revision for the client, if it is there: so many commits are seen.
fn open(revisions: &mut [u32; 32], client: u32, which: Which, seen: u32) -> Said
    requires { client < client_count }
    ensures opens { Opens (wanted which seen) seen client revisions.old result revisions.new }
    ensures told { IsTold result }
{
    let asked = wanted(which, seen);
    if asked > seen {
        return Said::Missing { asked, seen };
    }
    revisions[client as usize] = asked;
    Said::Opened(asked)
}

// What is said of an edit that ended so. After want of memory nothing is.
fn edit_said(ended: Result<Edited, WriterFault>) -> Result<Said, AllocError>
    ensures said { IsEditOf ended result }
    ensures told { IfOk result IsTold }
{
    match ended {
        Ok(edited) => Ok(edited_said(edited.first)),
        Err(WriterFault::Stopped { stage }) => Ok(Said::Stopped { stage }),
        Err(WriterFault::Refused(refusal)) => Ok(Said::Refused(refusal)),
        Err(WriterFault::Failed) => Ok(Said::Failed),
        Err(WriterFault::Damaged(damage)) => Ok(Said::Damaged(damage)),
        Err(WriterFault::OutOfMemory) => Err(AllocError),
    }
}

// What is said of an accepted edit, by its first new number.
fn edited_said(first: Option<u32>) -> Said
    ensures said { result ≡ edited_said first }
    ensures told { IsTold result }
{
    match first {
        Some(number) => Said::First(number),
        None => Said::Done,
    }
}

// What is said of a commit that ended so. After want of memory nothing is.
fn committed_said(ended: Result<Committed, CommitFault>) -> Result<Said, AllocError>
    ensures said { IsSaidOf ended result }
    ensures told { IfOk result IsTold }
{
    match ended {
        Ok(done) => Ok(Said::Committed {
            revision: done.revision,
            time: done.time,
        }),
        Err(CommitFault::Stopped { stage }) => Ok(Said::Stopped { stage }),
        Err(CommitFault::ReadFailed) => Ok(Said::Failed),
        Err(CommitFault::Damaged(damage)) => Ok(Said::Damaged(damage)),
        Err(CommitFault::LogFull { frames, revisions }) => Ok(Said::LogFull { frames, revisions }),
        Err(CommitFault::CommitTooLarge { bytes }) => Ok(Said::CommitTooLarge { bytes }),
        Err(CommitFault::OutOfMemory) => Err(AllocError),
        Err(CommitFault::Failed { stage }) => Ok(Said::FailedStage { stage }),
    }
}

// What is said of a question that was answered so. After want of memory nothing is.
fn asked_said(answered: Result<Answer, QueryFault>) -> Result<Said, AllocError>
    ensures said { IsAnswerOf answered result }
    ensures told { IfOk result IsTold }
{
    match answered {
        Ok(answer) => Ok(Said::Answer(answer)),
        Err(QueryFault::Missing { asked, seen }) => Ok(Said::Missing { asked, seen }),
        Err(QueryFault::NoNode { node }) => Ok(Said::NoNode { node }),
        Err(QueryFault::NoPath { path }) => Ok(Said::NoPath { path }),
        Err(QueryFault::Failed) => Ok(Said::Failed),
        Err(QueryFault::Damaged(damage)) => Ok(Said::Damaged(damage)),
        Err(QueryFault::OutOfMemory) => Err(AllocError),
    }
}

// The revision that is wanted, where so many commits are seen.
fn wanted(which: Which, seen: u32) -> u32
    ensures { result ≡ wanted which seen }
{
    match which {
        Which::Latest => seen,
        Which::Number(revision) => revision,
    }
}
