use super::*;
use aso_disk::{Failed, Library, Sink, Slots};
use std::test::Fail;

// Writes three bytes across the border of the halves, where the device has them.
fn write_and_sync<C: Slots>(slots: &mut C) -> Result<(), Failed> {
    if slots.size()? < 262_144 {
        return Ok(());
    }
    slots.write(131_072, &[7, 8, 9])?;
    slots.sync()
}

fn read_at<C: Slots>(slots: &mut C, at: u64, into: &mut [u8]) -> Result<(), Failed> {
    let size = slots.size()?;
    if at > size || (into.len() as u64) > size - at {
        return Ok(());
    }
    slots.read(at, into)
}

#[test]
fn each_real_device_does_its_work_once(rt: HostRuntime) -> Result<(), Fail> {
    // a missing catalog is made whole, and holds what is written into it when it is opened again
    let mut slots = FileSlots::open(&rt, "catalog")?;
    assert_eq!(rt; slots.size(), Ok(262_144));
    write_and_sync(&mut slots)?;
    let mut again = FileSlots::open(&rt, "catalog")?;
    let mut bytes = [1u8; 4];
    read_at(&mut again, 131_071, &mut bytes)?;
    assert_eq!(rt; bytes, [0, 7, 8, 9]);
    // a file, no file, a folder and a path through a file
    let mut out = RealSink::file(&rt, "out")?;
    assert_eq!(rt; out.put(b"ab"), Ok(()));
    assert_eq!(rt; out.put(b"c"), Ok(()));
    let mut library = FolderLibrary::open(&rt)?;
    assert_eq!(rt; library.text("out")?.map(|text| text.len()), Some(3));
    assert_eq!(rt; library.text("none")?.is_none(), true);
    assert_eq!(rt; library.text(".").is_err(), true);
    assert_eq!(rt; library.text("out/x").is_err(), true);
    assert_eq!(rt; library.text("a\0b").is_err(), true);
    let mut standard = RealSink::standard(&rt)?;
    assert_eq!(rt; standard.put(b""), Ok(()));
    Ok(())
}
