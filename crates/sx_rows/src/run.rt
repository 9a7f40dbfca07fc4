ghost use Rattle.std.specs.Prelude.{◌≡◌, IfOk, vec_len};

use crate::volumes::NEWBORN;
use std::alloc::{AllocError, Global};
use std::sync::Wait;
use sx_outside::{Clock, MemSink, MemSource, OpenGate, Sink, Source};
use sx_shell::{Status, run_live, run_still};
use sx_volume::{MemEnd, MemSpot, MemVolume, Volume};

/// The calls that fail, counted from 1, of each object.
#[derive(Clone, Copy)]
pub(crate) struct Failing<'a> {
    pub(crate) source: &'a [u64],
    pub(crate) sink: &'a [u64],
    pub(crate) volume: &'a [u64],
    /// Of the writer's end, and of that of each reader.
    pub(crate) ends: &'a [u64],
}

/// No call fails.
pub(crate) const NONE: Failing<'static> = Failing {
    source: &[],
    sink: &[],
    volume: &[],
    ends: &[],
};

/// What a run left.
#[derive(Drop)]
pub(crate) struct Ran {
    pub(crate) status: Status,
    pub(crate) output: Vec<u8>,
    pub(crate) volume: MemVolume,
}

/// Runs `live` over a volume with these bytes, on a script that comes in pieces of at most so many bytes.
pub(crate) fn run<R: Wait, C: Clock>(
    rt: &R,
    alloc: Global,
    start: &[u8],
    script: &[u8],
    most: usize,
    failing: Failing,
    clock: &mut C,
) -> Result<Ran, AllocError> {
    let words = words_of(alloc, &["live", "file"])?;
    run_words(rt, alloc, &words, start, script, most, failing, clock)
}

/// The words as the program has them.
pub(crate) fn words_of(alloc: Global, words: &[&str]) -> Result<Vec<String>, AllocError> {
    let mut list = Vec::new(alloc);
    for word in words {
        list.push(String::from_str(alloc, word)?)?;
    }
    Ok(list)
}

/// Runs these words over the volume, by an end of which the reads with these numbers fail. They run no script. The
/// result is the status with what is written.
pub(crate) fn run_still_over<V: Volume<Spot = MemSpot, End = MemEnd>>(
    alloc: Global,
    words: &[&str],
    volume: &mut V,
    failing: &[u64],
) -> Result<(Status, Vec<u8>), AllocError> {
    let words = words_of(alloc, words)?;
    let mut end = MemEnd::new(failing.to_vec(alloc)?);
    let mut sink = MemSink::new(alloc, 1 << 16, Vec::new(alloc))?;
    let status = run_still(alloc, &words, volume, &mut end, &mut sink);
    Ok((status, sink.bytes().to_vec(alloc)?))
}

/// Checks a volume with these bytes.
pub(crate) fn check(alloc: Global, start: &[u8]) -> Result<Ran, AllocError> {
    let mut volume = MemVolume::new(alloc, start.to_vec(alloc)?, Vec::new(alloc))?;
    let (status, output) = run_still_over(alloc, &["check", "f"], &mut volume, &[])?;
    Ok(Ran {
        status,
        output,
        volume,
    })
}

/// The same for any words.
pub(crate) fn run_words<R: Wait, C: Clock>(
    rt: &R,
    alloc: Global,
    words: &[String],
    start: &[u8],
    script: &[u8],
    most: usize,
    failing: Failing,
    clock: &mut C,
) -> Result<Ran, AllocError> {
    let mut volume = MemVolume::new(alloc, start.to_vec(alloc)?, failing.volume.to_vec(alloc)?)?;
    let mut source = MemSource::new(
        script.to_vec(alloc)?,
        most.max(1),
        failing.source.to_vec(alloc)?,
    );
    let mut sink = MemSink::new(alloc, 1 << 16, failing.sink.to_vec(alloc)?)?;
    let mut ends = make_ends(alloc, failing.ends)?;
    let status = run_live(
        rt,
        alloc,
        words,
        &mut volume,
        &mut ends,
        &mut source,
        &mut sink,
        clock,
        &OpenGate,
    );
    Ok(Ran {
        status,
        output: sink.bytes().to_vec(alloc)?,
        volume,
    })
}

/// Runs `live` over a newborn volume, with this source and this sink.
pub(crate) fn run_between<R: Wait, S: Source, K: Sink, C: Clock>(
    rt: &R,
    alloc: Global,
    source: &mut S,
    sink: &mut K,
    clock: &mut C,
) -> Result<Status, AllocError> {
    let words = words_of(alloc, &["live", "file"])?;
    let mut volume = MemVolume::new(alloc, NEWBORN.to_vec(alloc)?, Vec::new(alloc))?;
    let mut ends = make_ends(alloc, &[])?;
    Ok(run_live(
        rt,
        alloc,
        &words,
        &mut volume,
        &mut ends,
        source,
        sink,
        clock,
        &OpenGate,
    ))
}

// The ends of all clients, of each of which the reads with these numbers fail.
fn make_ends(alloc: Global, failing: &[u64]) -> Result<Vec<MemEnd>, AllocError>
    ensures { IfOk result (λ ends. vec_len ends ≡ 32) }
{
    let mut ends = Vec::new(alloc);
    while ends.len() < 32 {
        ends.push(MemEnd::new(failing.to_vec(alloc)?))?;
    }
    Ok(ends)
}
