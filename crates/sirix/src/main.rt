//! `sirix live FILE` runs the script that standard input gives over the volume in the file, and writes the replies on standard
//! output. `sirix create` makes a volume, `sirix show` writes the text of a revision, and `sirix check` reads all frames. Each ends
//! with the status of its call, and says on standard error why where that is not 0.
#![tactic(auto)]

ghost use Rattle.std.specs.Prelude.{◌≡◌};
ghost use Rattle.std.specs.Process.{exit_status};
ghost use Rattle.sx_shell.specs.Code.{code_of};

mod clock;
mod complaint;
mod live;

use crate::complaint::Complaint;
use crate::live::answer;
use std::process::ExitCode;
use sx_outside::{StdSink, StdSource};
use sx_shell::Status;

fn main(rt: HostRuntime) -> ExitCode {
    let mut source = StdSource::new(rt.stdin());
    let mut sink = StdSink::new(rt.stdout());
    let status = answer(&rt, rt.alloc(), &mut source, &mut sink);
    end_with(&rt, status)
}

// Says on standard error why a run ended that did not end well, and makes the exit status.
fn end_with<R: Eprint>(rt: &R, status: Status) -> ExitCode
    ensures { exit_status result ≡ code_of status }
{
    if status != Status::Done {
        // The status tells that the run ended so, also where this line cannot be written.
        let _ = eprintln!(rt; "{}", Complaint { status });
    }
    ExitCode::from(status.code())
}
