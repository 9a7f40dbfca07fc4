//! What a client asks by a text.
ghost use Rattle.std.specs.Prelude.{◌≡◌, IfOk, IfNone, IfSome};
ghost use Rattle.sx_run.specs.Client.{whose};
ghost use Rattle.sx_run.specs.Spelling.{SpellsCommand, SpellsFault, SpellsWhich};
ghost use Rattle.sx_run.specs.declared.line.Command.{Command as Asked};
ghost use Rattle.sx_script.specs.Commands.{AsksNoEdit, IsOpen, IsPlain};
ghost use Rattle.sx_script.specs.Told.{HasFault};
ghost use Rattle.sx_script.specs.Words.{SaysText};
ghost use Rattle.sx_tree.specs.declared.json_fault.JsonFault.{JsonFault as Fault};
ghost use Rattle.sx_tree.specs.declared.query.Which.{Which as WhichRevision};

use crate::clients::whose;
use crate::edits::{EditText, edit};
use crate::questions::question;
use crate::words::{behind, decimal_number};
use std::alloc::{AllocError, Global};
use sx_run::{Command, Line};
use sx_tree::query::Which;

/// What the client asks by the text.
pub(crate) fn asked(alloc: Global, client: Option<u32>, text: &[u8]) -> Result<Line, AllocError>
    ensures says { IfOk result (SaysText client text.now) }
    ensures fault { IfOk result HasFault }
{
    if let Some(command) = plain(client, text) {
        return Ok(asks(client, command));
    }
    if let Some(which) = opened(alloc, text)? {
        return Ok(asks(client, Command::Open(which)));
    }
    if let Some(line) = edit_line(alloc, client, text)? {
        return Ok(line);
    }
    match question(alloc, text)? {
        Some(query) => Ok(asks(client, Command::Ask(query))),
        None => Ok(Line::Refused {
            client: whose(client),
        }),
    }
}

/// The command of the client.
fn asks(client: Option<u32>, command: Command) -> Line
    ensures { result ≡ Line.Command (whose client) command }
{
    Line::Command {
        client: whose(client),
        command,
    }
}

/// `rollback` or `commit` of the writer, or `quit` where no client is named.
fn plain(client: Option<u32>, text: &[u8]) -> Option<Command>
    ensures found { IfSome result (SpellsCommand client text.now) }
    ensures none { IfNone result ((said : Asked) → IsPlain said → SpellsCommand client text.now said → ⊥) }
{
    if whose(client) == 0 && text == b"rollback".as_slice() {
        return Some(Command::Rollback);
    }
    if whose(client) == 0 && text == b"commit".as_slice() {
        return Some(Command::Commit);
    }
    if client.is_none() && text == b"quit".as_slice() {
        return Some(Command::Quit);
    }
    None
}

/// `open latest`, or `open R` with a revision.
fn opened(alloc: Global, text: &[u8]) -> Result<Option<Which>, AllocError>
    ensures found { IfOk result (λ found. IfSome found (IsOpen text.now)) }
    ensures none { IfOk result (λ found. IfNone found ((which : WhichRevision) → IsOpen text.now which → ⊥)) }
{
    match behind(text, b"open") {
        Some(revision) => which(alloc, revision),
        None => Ok(None),
    }
}

/// `latest`, or a revision's number.
fn which(alloc: Global, revision: &[u8]) -> Result<Option<Which>, AllocError>
    ensures found { IfOk result (λ found. IfSome found (SpellsWhich revision.now)) }
    ensures none { IfOk result (λ found. IfNone found ((which : WhichRevision) → SpellsWhich revision.now which → ⊥)) }
{
    if revision == b"latest".as_slice() {
        return Ok(Some(Which::Latest));
    }
    match decimal_number(alloc, revision)? {
        Some(number) => Ok(Some(Which::Number(number))),
        None => Ok(None),
    }
}

/// An edit of the writer, or one but for its NAME or VALUE. A reader has none, whatever the text is.
fn edit_line(alloc: Global, client: Option<u32>, text: &[u8]) -> Result<Option<Line>, AllocError>
    ensures found { IfOk result (λ found. IfSome found (SaysText client text.now)) }
    ensures fault { IfOk result (λ found. IfSome found HasFault) }
    ensures no_edit { IfOk result (λ found. IfNone found (AsksNoEdit client text.now)) }
    ensures no_fault { IfOk result (λ found. IfNone found ((f : Fault) → SpellsFault client text.now f → ⊥)) }
{
    if whose(client) != 0 {
        return Ok(None);
    }
    match edit(alloc, text)? {
        EditText::Edit(edit) => Ok(Some(Line::Command {
            client: 0,
            command: Command::Edit(edit),
        })),
        EditText::Fault(fault) => Ok(Some(Line::BadJson { client: 0, fault })),
        EditText::Other => Ok(None),
    }
}
