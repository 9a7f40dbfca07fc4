//! What a line says.
ghost use Rattle.std.specs.List.{list_all};
ghost use Rattle.std.specs.Prelude.{◌≡◌, ◌==◌, ◌||◌, IfOk};
ghost use Rattle.sx_run.specs.Line.{Says, SaysShort, is_comment, is_skipped, without_return};
ghost use Rattle.sx_script.specs.Told.{HasFault, IsWithin};

use crate::asks::asked;
use crate::clients::client_of;
use crate::partial::LINE_LIMIT;
use std::alloc::{AllocError, Global};
use sx_run::Line;

/// What the line says, without its line feed. One carriage return at its end does not count. A line above
/// 8,388,608 bytes is no command. The client and the command's word are read first, and then the JSON text (RFC 8259), so
/// that a reader's edit is refused whatever its text is.
///
/// # Errors
///
/// Only want of memory.
pub fn command(alloc: Global, line: &[u8]) -> Result<Line, AllocError>
    ensures says { IfOk result (Says line.now) }
    // The client is one of 32, a refused text has a fault, and a value keeps the limits of JSON texts.
    ensures within { IfOk result IsWithin }
{
    if line.len() > LINE_LIMIT {
        return Ok(Line::Refused { client: 0 });
    }
    short_command(alloc, trimmed(line))
}

/// What a line within the limit says.
fn short_command(alloc: Global, line: &[u8]) -> Result<Line, AllocError>
    ensures says { IfOk result (SaysShort line.now) }
    ensures fault { IfOk result HasFault }
{
    if skips(line) {
        return Ok(Line::Skip);
    }
    let (client, text) = client_of(alloc, line)?;
    asked(alloc, client, text)
}

/// The line without one carriage return before its end.
fn trimmed(line: &[u8]) -> &[u8]
    ensures { result.now ≡ without_return line.now }
{
    let len = line.len();
    if len > 0 && line[len - 1] == b'\r' {
        &line[..len - 1]
    } else {
        line
    }
}

/// It is empty, has only spaces and tabs, or begins with `#`.
fn skips(line: &[u8]) -> bool
    ensures { result ≡ is_skipped line.now }
{
    begins_comment(line) || is_blank(line)
}

fn is_blank(line: &[u8]) -> bool
    ensures { result ≡ list_all (λ byte. byte == 32 || byte == 9) line.now }
{
    line.iter().all(|byte| *byte == b' ' || *byte == b'\t')
}

fn begins_comment(line: &[u8]) -> bool
    ensures { result ≡ is_comment line.now }
{
    match line {
        [first, ..] => *first == b'#',
        [] => false,
    }
}
