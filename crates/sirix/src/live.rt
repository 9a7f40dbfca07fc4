ghost use Rattle.std.specs.Prelude.{◌≡◌, ◌≢◌, ◌⊎◌, IfErr, IfOk, map, vec_len};
ghost use Rattle.std.specs.String.{string_bytes};
ghost use Rattle.sirix.specs.Given.{IsStill};
ghost use Rattle.sx_shell.specs.Words.{IsLive, target_of, wanted};

use crate::clock::SystemClock;
use std::alloc::Global;
use std::env::Env;
use std::fs::{File, Files};
use std::io::ErrorKind;
use std::sync::Wait;
use std::{env, io, str, time};
use sx_file::{Opened, open};
use sx_outside::{OpenGate, Sink, Source};
use sx_shell::{Status, Target, run_live, run_still, target};
use sx_tree::bytes::Bytes;

/// How many handles read beside the one that writes, for the commands of a script.
const ENDS: usize = 32;

/// Reads the words behind the program's name, and runs the command that they are.
pub fn answer<R: AllocGlobal + Env + Files<File = File> + time::Clock + Wait, S: Source, K: Sink>(
    rt: &R,
    alloc: Global,
    source: &mut S,
    sink: &mut K,
) -> Status {
    match words(rt, alloc) {
        Ok(words) => run(rt, alloc, words.as_slice(), source, sink),
        Err(e) if e.kind() == ErrorKind::OutOfMemory => Status::OutOfMemory,
        Err(_) => Status::Usage,
    }
}

// The words behind the program's name.
fn words<R: AllocGlobal + Env>(rt: &R, alloc: Global) -> io::Result<Vec<String>> {
    let mut words = Vec::new(alloc);
    for word in env::args(rt)?.skip(1) {
        words.push(word)?;
    }
    Ok(words)
}

// Runs the command that the words are. A file is opened only for a command, and made only for `create`.
fn run<R: Files<File = File> + time::Clock + Wait, S: Source, K: Sink>(
    rt: &R,
    alloc: Global,
    words: &[String],
    source: &mut S,
    sink: &mut K,
) -> Status
    ensures usage { result ≡ Status.Usage → target_of (wanted (map string_bytes words.now)) ≡ Target.Usage }
    ensures no_command { target_of (wanted (map string_bytes words.now)) ≡ Target.Usage → (result ≡ Status.Usage) ⊎ (result ≡ Status.OutOfMemory) }
{
    match target(alloc, words) {
        Ok(Target::Live(file)) => live(rt, alloc, words, &file, source, sink),
        Ok(Target::Still(file)) => still(rt, alloc, words, &file, false, sink),
        Ok(Target::Create(file)) => still(rt, alloc, words, &file, true, sink),
        Ok(Target::Usage) => Status::Usage,
        Err(_) => Status::OutOfMemory,
    }
}

// Runs a script over the volume in the file.
fn live<R: Files<File = File> + time::Clock + Wait, S: Source, K: Sink>(
    rt: &R,
    alloc: Global,
    words: &[String],
    file: &Bytes,
    source: &mut S,
    sink: &mut K,
) -> Status
    requires { IsLive (map string_bytes words.now) }
    ensures { result ≢ Status.Usage }
{
    match open_file(rt, alloc, file, ENDS, false) {
        Ok(
            Opened {
                mut volume,
                mut ends,
            },
        ) => {
            let mut clock = SystemClock::new(rt);
            run_live(
                rt,
                alloc,
                words,
                &mut volume,
                &mut ends,
                source,
                sink,
                &mut clock,
                &OpenGate,
            )
        }
        Err(status) => status,
    }
}

// Runs a command that runs no script, over the volume in the file. Where there is no file it is made, if `make` is set.
fn still<R: Files<File = File>, K: Sink>(
    rt: &R,
    alloc: Global,
    words: &[String],
    file: &Bytes,
    make: bool,
    sink: &mut K,
) -> Status
    requires { IsStill (wanted (map string_bytes words.now)) }
    ensures { result ≢ Status.Usage }
{
    match open_file(rt, alloc, file, 1, make) {
        Ok(
            Opened {
                mut volume,
                mut ends,
            },
        ) => match ends.as_mut_slice() {
            [end] => run_still(alloc, words, &mut volume, end, sink),
            _ => unreachable!("one end was made"),
        },
        Err(status) => status,
    }
}

// Opens the file, with so many ends. Where there is none it is made, if `make` is set.
fn open_file<R: Files<File = File>>(
    rt: &R,
    alloc: Global,
    file: &Bytes,
    ends: usize,
    make: bool,
) -> Result<Opened, Status>
    ensures ends { IfOk result (λ opened. vec_len opened.ends ≡ ends) }
    ensures fault { IfErr result (λ status. (status ≡ Status.VolumeFault) ⊎ (status ≡ Status.OutOfMemory)) }
{
    let Ok(path) = str::from_utf8(file.as_slice()) else {
        return Err(Status::VolumeFault);
    };
    match open(rt, alloc, path, ends, make) {
        Ok(opened) => Ok(opened),
        Err(e) if e.kind() == ErrorKind::OutOfMemory => Err(Status::OutOfMemory),
        Err(_) => Err(Status::VolumeFault),
    }
}
