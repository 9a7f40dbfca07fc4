//! The volume in memory, and an end of it.
use std::alloc::Global;
use std::sync::Arc;
use std::test::Fail;
use sx_outside::Failed;
use sx_volume::{MemEnd, MemVolume, ReadEnd, Volume};

/// A volume in which a piece is synced, and then a byte is put, a piece cut off and another one appended.
fn changed(alloc: Global) -> Result<MemVolume, Fail> {
    let mut volume = MemVolume::new(alloc, b"log".to_vec(alloc)?, [7].to_vec(alloc)?)?;
    volume.ready(alloc, 5)?;
    volume.hold(alloc, 3, Arc::new(alloc, b"ger".to_vec(alloc)?)?)?;
    volume.append()?;
    volume.sync()?;
    volume.put_byte(1, b'a')?;
    volume.cut(4)?;
    volume.hold(alloc, 4, Arc::new(alloc, b"!".to_vec(alloc)?)?)?;
    volume.append()?;
    Ok(volume)
}

#[test]
fn reads_and_images_show_the_calls(rt: HostRuntime) -> Result<(), Fail> {
    let alloc = rt.alloc();
    let mut volume = changed(alloc)?;
    assert_eq!(rt; volume.as_slice(), b"lagg!".as_slice());
    for (tail, gate, image) in [
        (b"".as_slice(), 0, b"l\0gg".as_slice()),
        (b"?", b'o', b"logg?"),
        (b"????", b'a', b"lagg??"),
    ] {
        assert_eq!(rt; volume.image(alloc, tail, gate)?.as_slice(), image);
    }
    let mut room = [0; 3];
    volume.read_at(1, &mut room)?;
    assert_eq!(rt; room.as_slice(), b"agg".as_slice());
    assert_eq!(rt; volume.read_at(1, &mut room), Err(Failed));
    Ok(())
}

#[test]
fn a_spot_keeps_its_bytes(rt: HostRuntime) -> Result<(), Fail> {
    let alloc = rt.alloc();
    let mut volume = MemVolume::new(alloc, b"log".to_vec(alloc)?, Vec::new(alloc))?;
    let spot = volume.spot(alloc, 1, 2)?;
    volume.ready(alloc, 1)?;
    volume.put_byte(1, b'a')?;
    let mut end = MemEnd::new([2].to_vec(alloc)?);
    let mut room = [0; 2];
    end.read(&spot, &mut room)?;
    assert_eq!(rt; room.as_slice(), b"og".as_slice());
    assert_eq!(rt; end.read(&spot, &mut room), Err(Failed));
    Ok(())
}
