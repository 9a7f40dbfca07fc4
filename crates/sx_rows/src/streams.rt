ghost use Rattle.std.specs.Prelude.{◌≡◌, None};

use crate::run::run_between;
use std::alloc::Global;
use std::cell::Cell;
use std::process::Abort;
use std::sync::Wait;
use std::test::Fail;
use sx_outside::{Failed, MemSink, Sink, Source, StillClock};
use sx_shell::Status;

// A source that gives one piece a call, and fails where it is asked before each line that it gave has its reply. It
// sees the replies that its sink counts.
#[derive(Drop)]
struct Impatient<'a> {
    pieces: &'a [&'a [u8]],
    at: usize,
    lines: u64,
    answered: &'a Cell<u64>,
    faults: u64,
}

impl Source for Impatient<'_> {
    ghost left = { λ _. None };

    ghost faults = { λ source. source.faults };

    fn next(&mut self, room: &mut [u8]) -> Result<usize, Failed> {
        if self.answered.get() < self.lines {
            self.faults = self.faults.saturating_add(1);
            return Err(Failed);
        }
        let Some(piece) = self.pieces.get(self.at) else {
            return Ok(0);
        };
        self.at = self.at.saturating_add(1);
        self.lines = self.lines.saturating_add(feeds(piece));
        let count = piece.len().min(room.len());
        room[..count].copy_from_slice(&piece[..count]);
        Ok(count)
    }
}

// How many lines end in the bytes.
fn feeds(bytes: &[u8]) -> u64 {
    bytes.iter().filter(|byte| **byte == b'\n').count() as u64
}

// A sink that counts the lines that it took.
#[derive(Drop)]
struct Counting<'a> {
    kept: MemSink,
    answered: &'a Cell<u64>,
}

impl Sink for Counting<'_> {
    ghost written = { λ sink. None };

    ghost faults = { λ sink. sink.kept.faults };

    fn put(&mut self, piece: &[u8]) -> Result<usize, Failed> {
        let count = self.kept.put(piece)?;
        let seen = self.answered.get().saturating_add(feeds(&piece[..count]));
        self.answered.set(seen);
        Ok(count)
    }
}

fn answers<R: Abort + Wait>(
    rt: &R,
    alloc: Global,
    pieces: &[&[u8]],
    want: &[u8],
) -> Result<(), Fail> {
    let answered = Cell::new(0);
    let mut source = Impatient {
        pieces,
        at: 0,
        lines: 0,
        answered: &answered,
        faults: 0,
    };
    let mut sink = Counting {
        kept: MemSink::new(alloc, 1 << 16, Vec::new(alloc))?,
        answered: &answered,
    };
    let mut clock = StillClock { moment: 1000 };
    let status = run_between(rt, alloc, &mut source, &mut sink, &mut clock)?;
    assert_eq!(rt; status, Status::Done);
    assert_eq!(rt; sink.kept.bytes(), want);
    Ok(())
}

#[test]
fn each_line_is_answered_before_more_is_asked_for(rt: HostRuntime) -> Result<(), Fail> {
    let alloc = rt.alloc();
    let replies = b"ok 1\nok 1 1000\nok 1\nok [1]\nrefused line\n";
    let single: [&[u8]; 5] = [
        b"load [1]\n",
        b"commit\n",
        b"open 1\n",
        b"text 0\n",
        b"frob\n",
    ];
    answers(&rt, alloc, &single, replies)?;
    let several: [&[u8]; 3] = [b"load [1]\ncommit\nop", b"en 1\nte", b"xt 0\nfrob\n"];
    answers(&rt, alloc, &several, replies)?;
    answers(&rt, alloc, &[b"open 0\nquit\n"], b"ok 0\n")
}

// A source that gives one piece and tells its end once. It fails where it is asked again.
#[derive(Drop)]
struct Ending<'a> {
    piece: &'a [u8],
    calls: u64,
    faults: u64,
}

impl Source for Ending<'_> {
    ghost left = { λ _. None };

    ghost faults = { λ source. source.faults };

    fn next(&mut self, room: &mut [u8]) -> Result<usize, Failed> {
        self.calls = self.calls.saturating_add(1);
        match self.calls {
            1 => {
                let count = self.piece.len().min(room.len());
                room[..count].copy_from_slice(&self.piece[..count]);
                Ok(count)
            }
            2 => Ok(0),
            _ => {
                self.faults = self.faults.saturating_add(1);
                Err(Failed)
            }
        }
    }
}

#[test]
fn a_source_is_not_asked_after_its_end(rt: HostRuntime) -> Result<(), Fail> {
    let alloc = rt.alloc();
    for (piece, want) in [
        (
            b"open 0\nopen latest\n".as_slice(),
            b"ok 0\nok 0\n".as_slice(),
        ),
        (b"open 0\nopen latest", b"ok 0\nok 0\n"),
        (b"open 0\n \t", b"ok 0\n"),
    ] {
        let mut source = Ending {
            piece,
            calls: 0,
            faults: 0,
        };
        let mut sink = MemSink::new(alloc, 1 << 16, Vec::new(alloc))?;
        let mut clock = StillClock { moment: 1000 };
        let status = run_between(&rt, alloc, &mut source, &mut sink, &mut clock)?;
        assert_eq!(rt; status, Status::Done);
        assert_eq!(rt; sink.bytes(), want);
        assert_eq!(rt; source.calls, 2);
    }
    Ok(())
}
