use std::alloc::Global;
use std::process::Abort;
use std::sync::Arc;
use std::test::Fail;
use sx_outside::Failed;
use sx_volume::{ReadEnd, Volume};

/// A call of a volume that changes it or syncs it.
#[derive(Clone, Copy)]
pub(crate) enum Call<'a> {
    Append(&'a [u8]),
    Put(u64, u8),
    Cut(u64),
    Sync,
}

/// Makes the call, which has to succeed. What is read behind it has to be these bytes.
pub(crate) fn make<R: Abort, V: Volume>(
    rt: &R,
    alloc: Global,
    volume: &mut V,
    call: Call,
    want: &[u8],
) -> Result<(), Fail> {
    match call {
        Call::Append(piece) => append(alloc, volume, piece)?,
        Call::Put(at, byte) => put(rt, alloc, volume, at, byte)?,
        Call::Cut(len) => cut(rt, alloc, volume, len)?,
        Call::Sync => sync(alloc, volume)?,
    }
    reads(rt, alloc, volume, want)
}

fn append<V: Volume>(alloc: Global, volume: &mut V, piece: &[u8]) -> Result<(), Fail> {
    let piece = Arc::new(alloc, piece.to_vec(alloc)?)?;
    volume.hold(alloc, volume.len(), piece)?;
    volume.ready(alloc, 1)?;
    Ok(volume.append()?)
}

fn put<R: Abort, V: Volume>(
    rt: &R,
    alloc: Global,
    volume: &mut V,
    at: u64,
    byte: u8,
) -> Result<(), Fail> {
    assert!(rt; at < volume.len());
    volume.ready(alloc, 1)?;
    Ok(volume.put_byte(at, byte)?)
}

fn cut<R: Abort, V: Volume>(rt: &R, alloc: Global, volume: &mut V, len: u64) -> Result<(), Fail> {
    assert!(rt; len <= volume.len());
    volume.ready(alloc, 1)?;
    Ok(volume.cut(len)?)
}

fn sync<V: Volume>(alloc: Global, volume: &mut V) -> Result<(), Fail> {
    volume.ready(alloc, 1)?;
    Ok(volume.sync()?)
}

/// The volume has to read these bytes, and no more.
pub(crate) fn reads<R: Abort, V: Volume>(
    rt: &R,
    alloc: Global,
    volume: &mut V,
    want: &[u8],
) -> Result<(), Fail> {
    let mut bytes = vec![in alloc; 0; volume.len() as usize]?;
    volume.read_at(0, &mut bytes)?;
    assert_eq!(rt; bytes.as_slice(), want);
    Ok(())
}

/// Syncs the volume. The end has to read these bytes from the place on.
pub(crate) fn end_reads<R: Abort, V: Volume>(
    rt: &R,
    alloc: Global,
    volume: &mut V,
    end: &mut V::End,
    at: u64,
    want: &[u8],
) -> Result<(), Fail> {
    volume.ready(alloc, 1)?;
    volume.sync()?;
    let count = u32::try_from(want.len())?;
    assert!(rt; at <= volume.len() && u64::from(count) <= volume.len() - at);
    let spot = volume.spot(alloc, at, count)?;
    let mut bytes = vec![in alloc; 0; count as usize]?;
    end.read(&spot, &mut bytes)?;
    assert_eq!(rt; bytes.as_slice(), want);
    Ok(())
}

/// Each write of a volume of the bytes `log` has to fail and to leave them.
pub(crate) fn fails_to_write<R: Abort, V: Volume>(
    rt: &R,
    alloc: Global,
    volume: &mut V,
) -> Result<(), Fail> {
    let piece = Arc::new(alloc, b"ger".to_vec(alloc)?)?;
    volume.hold(alloc, volume.len(), piece)?;
    volume.ready(alloc, 3)?;
    assert_eq!(rt; volume.append(), Err(Failed));
    assert_eq!(rt; volume.len(), 3);
    assert_eq!(rt; volume.put_byte(1, b'a'), Err(Failed));
    assert_eq!(rt; volume.cut(1), Err(Failed));
    reads(rt, alloc, volume, b"log")
}
