//! Sources, sinks and clocks.
use std::io;
use std::io::{ErrorKind, Read, Write};
use std::test::Fail;
use sx_outside::{
    Clock, Failed, ListClock, MemSink, MemSource, Sink, Source, StdSink, StdSource, StillClock,
};

// A reader and a writer whose next calls are interrupted, that then fails at one turn, and else takes
// or gives one byte.
#[derive(Drop)]
struct Faltering {
    interruptions: u32,
    turn: u32,
    fails_at: u32,
}

impl Faltering {
    fn new(interruptions: u32, fails_at: u32) -> Faltering {
        Faltering {
            interruptions,
            turn: 0,
            fails_at,
        }
    }

    fn one_byte(&mut self) -> io::Result<usize> {
        if self.interruptions > 0 {
            self.interruptions -= 1;
            return Err(io::Error::from(ErrorKind::Interrupted));
        }
        self.turn = self.turn.saturating_add(1);
        if self.turn == self.fails_at {
            return Err(io::Error::from(ErrorKind::BrokenPipe));
        }
        Ok(1)
    }
}

impl Read for Faltering {
    fn read(&mut self, buf: &mut [u8]) -> io::Result<usize> {
        let count = self.one_byte()?;
        Ok(count.min(buf.len()))
    }
}

impl Write for Faltering {
    fn write(&mut self, buf: &[u8]) -> io::Result<usize> {
        let count = self.one_byte()?;
        Ok(count.min(buf.len()))
    }

    fn flush(&mut self) -> io::Result<()> {
        Ok(())
    }
}

// A writer that takes nothing.
#[derive(Drop)]
struct Full;

impl Write for Full {
    fn write(&mut self, _buf: &[u8]) -> io::Result<usize> {
        Ok(0)
    }

    fn flush(&mut self) -> io::Result<()> {
        Ok(())
    }
}

#[test]
fn a_source_in_memory_gives_one_byte_a_call(rt: HostRuntime) -> Result<(), Fail> {
    let alloc = rt.alloc();
    let bytes = Vec::from_slice(alloc, b"abc")?;
    let failing = Vec::from_slice(rt.alloc(), &[2u64, 6])?;
    let mut source = MemSource::new(bytes, 1, failing);
    let mut room = [0u8; 4];
    let wanted = [
        (Ok(1), b'a'),
        (Err(Failed), b'a'),
        (Ok(1), b'b'),
        (Ok(1), b'c'),
        (Ok(0), b'c'),
        (Err(Failed), b'c'),
        (Ok(0), b'c'),
    ];
    for (want, first) in wanted {
        assert_eq!(rt; source.next(&mut room), want);
        assert_eq!(rt; room[0], first);
    }
    Ok(())
}

#[test]
fn a_sink_in_memory_keeps_what_fits(rt: HostRuntime) -> Result<(), Fail> {
    let failing = Vec::from_slice(rt.alloc(), &[2u64])?;
    let mut sink = MemSink::new(rt.alloc(), 5, failing)?;
    for (want, kept) in [
        (Ok(3), b"abc".as_slice()),
        (Err(Failed), b"abc".as_slice()),
        (Ok(2), b"abcab".as_slice()),
        (Err(Failed), b"abcab".as_slice()),
    ] {
        assert_eq!(rt; sink.put(b"abc"), want);
        assert_eq!(rt; sink.bytes(), kept);
    }
    Ok(())
}

#[test]
fn clocks_answer_their_moments(rt: HostRuntime) -> Result<(), Fail> {
    let mut clock = ListClock::new(Vec::from_slice(rt.alloc(), &[1000i64, 900, 2000])?);
    for want in [1000, 900, 2000, 2000] {
        assert_eq!(rt; clock.now(), want);
    }
    let mut still = StillClock { moment: -7 };
    for _ in 0..2 {
        assert_eq!(rt; still.now(), -7);
    }
    Ok(())
}

#[test]
fn interruptions_are_passed_over(rt: HostRuntime) {
    for (interruptions, want) in [(0, Ok(1)), (1, Ok(1)), (16, Ok(1)), (17, Err(Failed))] {
        let mut room = [0u8; 4];
        let mut source = StdSource::new(Faltering::new(interruptions, 0));
        assert_eq!(rt; source.next(&mut room), want, "source, {interruptions}");
        let mut sink = StdSink::new(Faltering::new(interruptions, 0));
        assert_eq!(rt; sink.put(b"abc"), want, "sink, {interruptions}");
    }
}

#[test]
fn an_error_in_mid_stream_is_told_once(rt: HostRuntime) {
    let mut source = StdSource::new(Faltering::new(0, 2));
    let mut sink = StdSink::new(Faltering::new(0, 2));
    for want in [Ok(1), Err(Failed), Ok(1), Ok(1)] {
        let mut room = [0u8; 4];
        assert_eq!(rt; source.next(&mut room), want);
        assert_eq!(rt; sink.put(b"abc"), want);
    }
    assert_eq!(rt; StdSink::new(Full).put(b"abc"), Err(Failed));
}

#[test]
fn readers_and_writers_pass_bytes_on(rt: HostRuntime) -> Result<(), Fail> {
    let text: &[u8] = b"abcde";
    let mut source = StdSource::new(text);
    let mut kept = Vec::new(rt.alloc());
    let mut sink = StdSink::new(&mut kept);
    let mut room = [0u8; 2];
    for want in [2, 2, 1, 0] {
        assert_eq!(rt; source.next(&mut room), Ok(want));
        if want > 0 {
            assert_eq!(rt; sink.put(&room[..want]), Ok(want));
        }
    }
    drop(sink);
    assert_eq!(rt; kept.as_slice(), text);
    Ok(())
}
