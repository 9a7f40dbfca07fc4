//! Whose a line is.
ghost use Rattle.std.specs.Prelude.{◌≡◌, ◌<◌, ℕ, List, suc, IfOk, IfSome, IfNone};
ghost use Rattle.sx_run.specs.Client.{Asks, Names, whose};

use crate::words::{decimal_number, front};
use std::alloc::{AllocError, Global};

/// How many clients there are: the writer and 31 readers.
const CLIENTS: u32 = 32;

/// The client that the line names, and the text behind its name: the whole line where it names none.
pub(crate) fn client_of(alloc: Global, line: &[u8]) -> Result<(Option<u32>, &[u8]), AllocError>
    ensures { IfOk result (λ asked. Asks line.now asked.0 asked.1.now) }
{
    if let Some(text) = line.strip_prefix(b"w: ") {
        return Ok((Some(0), text));
    }
    match reader_of(alloc, line)? {
        Some((reader, text)) => Ok((Some(reader), text)),
        None => Ok((None, line)),
    }
}

/// The reader that the line names, and the text behind its name.
fn reader_of(alloc: Global, line: &[u8]) -> Result<Option<(u32, &[u8])>, AllocError>
    ensures found { IfOk result (λ found. IfSome found (λ named. Names line.now named.0 named.1.now)) }
    ensures none { IfOk result (λ found. IfNone found ((i : ℕ) (text : List ℕ) → Names line.now (suc i) text → ⊥)) }
{
    let Some(named) = line.strip_prefix(b"r") else {
        return Ok(None);
    };
    let digits = front(named, b':');
    let Some(text) = named[digits.len()..].strip_prefix(b": ") else {
        return Ok(None);
    };
    match decimal_number(alloc, digits)? {
        Some(reader) if 0 < reader && reader < CLIENTS => Ok(Some((reader, text))),
        _ => Ok(None),
    }
}

/// The client whose the line is: the writer where it names none.
pub(crate) fn whose(client: Option<u32>) -> u32
    ensures { result ≡ whose client }
{
    client.unwrap_or(0)
}
