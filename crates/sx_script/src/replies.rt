//! The bytes of replies.
ghost use Rattle.std.specs.Prelude.{◌≡◌, ◌++◌, IfOk, OnErr, OnOk, codes, length, take};
ghost use Rattle.std.specs.String.{string_bytes};
ghost use Rattle.sx_run.specs.Reply.{answer_bytes, fault_bytes, prefix_bytes, refusal_bytes, reply_bytes, said_bytes};
ghost use Rattle.sx_script.specs.Told.{IsOfText, IsTold};

use crate::append::{append_hash, append_numbers, append_text};
use crate::node::{append_node, kind_name};
use std::alloc::{AllocError, Global};
use std::mem;
use sx_bytes::Damage;
use sx_run::{Reply, Said};
use sx_tree::bytes::Bytes;
use sx_tree::edit::EditRefusal;
use sx_tree::json_fault::JsonFault;
use sx_tree::query::Answer;

/// Appends the bytes of the reply: the client's name, where it is told, what is said, and a line feed. A text is copied
/// once. A failure changes nothing.
pub fn reply(alloc: Global, reply: &Reply, out: &mut Bytes) -> Result<(), AllocError>
    requires { IsTold reply.now.said }
    ensures ok { OnOk result (out.new ≡ out.old ++ reply_bytes reply.now.client reply.now.said) }
    ensures err { OnErr result (out.new ≡ out.old) }
{
    let start = out.len();
    match append_reply(alloc, reply, out) {
        Ok(()) => Ok(()),
        Err(error) => {
            cut_back(alloc, out, start);
            Err(error)
        }
    }
}

/// Cuts the bytes back to their first ones.
fn cut_back(alloc: Global, out: &mut Bytes, len: usize)
    ensures { out.new ≡ take len out.old }
{
    let mut bytes = mem::replace(out, Bytes::new(alloc)).into_vec();
    bytes.truncate(len);
    *out = Bytes::from_vec(bytes);
}

fn append_reply(alloc: Global, reply: &Reply, out: &mut Bytes) -> Result<(), AllocError>
    requires { IsTold reply.now.said }
    ensures written { OnOk result (out.new ≡ out.old ++ reply_bytes reply.now.client reply.now.said) }
    ensures begins { take (length out.old) out.new ≡ out.old }
{
    append_prefix(alloc, reply.client, out)?;
    append_said(alloc, &reply.said, out)?;
    out.push(b'\n')
}

/// Adds the client's name, where it is told.
fn append_prefix(alloc: Global, client: Option<u32>, out: &mut Bytes) -> Result<(), AllocError>
    ensures written { OnOk result (out.new ≡ out.old ++ prefix_bytes client) }
    ensures begins { take (length out.old) out.new ≡ out.old }
{
    match client {
        None => Ok(()),
        Some(0) => out.extend_from_slice(b"w: "),
        Some(reader) => append_text(format!(in alloc; "r{reader}: ")?, out),
    }
}

/// Adds what is said, without the client's name and the line feed.
fn append_said(alloc: Global, said: &Said, out: &mut Bytes) -> Result<(), AllocError>
    requires { IsTold said.now }
    ensures written { OnOk result (out.new ≡ out.old ++ said_bytes said.now) }
    ensures begins { take (length out.old) out.new ≡ out.old }
{
    match said {
        Said::Answer(answer) => append_answer(alloc, answer, out),
        Said::Json(fault) => append_text(fault_text(alloc, *fault)?, out),
        Said::Refused(refusal) => append_text(refusal_text(alloc, *refusal)?, out),
        Said::Done => out.extend_from_slice(b"ok"),
        Said::First(number) => append_text(format!(in alloc; "ok {number}")?, out),
        Said::Committed { revision, time } => {
            append_text(format!(in alloc; "ok {revision} {time}")?, out)
        }
        Said::Opened(revision) => append_text(format!(in alloc; "ok {revision}")?, out),
        Said::NoCommand => out.extend_from_slice(b"refused line"),
        Said::Missing { asked, seen } => {
            append_text(format!(in alloc; "refused Missing {asked} {seen}")?, out)
        }
        Said::NoNode { node } => append_text(format!(in alloc; "refused NoNode {node}")?, out),
        Said::NoPath { path } => append_text(format!(in alloc; "refused NoPath {path}")?, out),
        Said::Failed => out.extend_from_slice(b"refused Failed"),
        Said::Damaged(Damage { place, rule, .. }) => {
            append_text(format!(in alloc; "refused Damaged {place} {rule}")?, out)
        }
        Said::LogFull { frames, revisions } => {
            append_text(
                format!(in alloc; "refused LogFull {frames} {revisions}")?,
                out,
            )
        }
        Said::CommitTooLarge { bytes } => {
            append_text(format!(in alloc; "refused CommitTooLarge {bytes}")?, out)
        }
        Said::FailedStage { stage } => append_text(
            format!(in alloc; "refused Failed {stage}")?,
            out,
        ),
        Said::Stopped { stage } => append_text(format!(in alloc; "refused Stopped {stage}")?, out),
    }
}

/// Adds an answer.
fn append_answer(alloc: Global, answer: &Answer, out: &mut Bytes) -> Result<(), AllocError>
    ensures written { OnOk result (out.new ≡ out.old ++ (codes "ok" ++ answer_bytes answer.now)) }
    ensures begins { take (length out.old) out.new ≡ out.old }
{
    match answer {
        Answer::Text(text) => {
            out.extend_from_slice(b"ok ")?;
            out.extend_from_slice(text.as_slice())
        }
        Answer::Empty => out.extend_from_slice(b"ok empty"),
        Answer::Node(node) => {
            out.extend_from_slice(b"ok ")?;
            append_node(alloc, node, out)
        }
        Answer::Hash(hash) => {
            out.extend_from_slice(b"ok ")?;
            append_hash(*hash, out)
        }
        Answer::Nodes(nodes) => {
            out.extend_from_slice(b"ok")?;
            append_numbers(alloc, nodes.as_slice(), out)
        }
        Answer::Path { count, text } => {
            append_text(format!(in alloc; "ok {count} ")?, out)?;
            out.extend_from_slice(text.as_slice())
        }
        Answer::Total(count) => append_text(format!(in alloc; "ok {count}")?, out),
    }
}

/// The reply to a JSON text with this fault.
fn fault_text(alloc: Global, fault: JsonFault) -> Result<String, AllocError>
    requires { IsOfText fault }
    ensures { IfOk result (λ text. string_bytes text ≡ codes "refused Json " ++ fault_bytes fault) }
{
    match fault {
        JsonFault::BadByte { at } => format!(in alloc; "refused Json BadByte {at}"),
        JsonFault::TooDeep { at } => format!(in alloc; "refused Json TooDeep {at}"),
        JsonFault::DuplicateName { at } => format!(in alloc; "refused Json DuplicateName {at}"),
        JsonFault::LoneSurrogate { at } => format!(in alloc; "refused Json LoneSurrogate {at}"),
        JsonFault::NumberTooLong { at } => format!(in alloc; "refused Json NumberTooLong {at}"),
        JsonFault::StringTooLong { at } => format!(in alloc; "refused Json StringTooLong {at}"),
        JsonFault::Ended => format!(in alloc; "refused Json Ended"),
        JsonFault::OutOfMemory => unreachable!(),
    }
}

/// The reply to an edit that is refused.
fn refusal_text(alloc: Global, refusal: EditRefusal) -> Result<String, AllocError>
    ensures { IfOk result (λ text. string_bytes text ≡ codes "refused " ++ refusal_bytes refusal) }
{
    match refusal {
        EditRefusal::NoNode { node } => format!(in alloc; "refused NoNode {node}"),
        EditRefusal::WrongKind { node, kind } => {
            let kind = kind_name(kind);
            format!(in alloc; "refused WrongKind {node} {kind}")
        }
        EditRefusal::NameTaken { node } => format!(in alloc; "refused NameTaken {node}"),
        EditRefusal::DocumentFull { node } => format!(in alloc; "refused DocumentFull {node}"),
        EditRefusal::TooDeep { depth } => format!(in alloc; "refused TooDeep {depth}"),
        EditRefusal::NumbersSpent { next } => format!(in alloc; "refused NumbersSpent {next}"),
        EditRefusal::NameMissing => format!(in alloc; "refused NameMissing"),
        EditRefusal::NameUnasked => format!(in alloc; "refused NameUnasked"),
        EditRefusal::PathsSpent { paths } => format!(in alloc; "refused PathsSpent {paths}"),
    }
}
