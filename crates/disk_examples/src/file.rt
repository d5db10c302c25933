use disk_model::{Disk, FileDisk, cut_through, write_through};
use std::fs;
use std::fs::File;
use std::test::Fail;

#[test]
fn a_file_keeps_what_is_written(rt: HostRuntime) -> Result<(), Fail> {
    let path = "disk_examples.tmp";
    let file = File::options()
        .read(true)
        .write(true)
        .create(true)
        .truncate(true)
        .open(&rt, path)?;
    let mut disk = FileDisk::new(Some(file));
    disk.write_at(0, b"hello")?;
    disk.write_at(5, b" world")?;
    assert_eq!(rt; disk.length()?, 11);
    write_through(&mut disk, 0, b"J")?;
    cut_through(&mut disk, 5)?;
    let mut buf = [0u8; 8];
    for (at, want) in [(0, "Jello"), (3, "lo"), (5, ""), (100, "")] {
        let count = disk.read(at, &mut buf)?;
        assert_eq!(rt; &buf[..count], want.as_bytes(), "from {at}");
    }
    assert_eq!(rt; disk.length()?, 5);
    fs::remove_file(&rt, path)?;
    Ok(())
}

#[test]
fn without_a_file_each_call_fails(rt: HostRuntime) {
    let mut disk = FileDisk::new(File::open(&rt, "no/such/file").ok());
    let mut buf = [0u8; 4];
    assert!(rt; disk.length().is_err());
    assert!(rt; disk.read(0, &mut buf).is_err());
    assert!(rt; disk.write_at(0, b"a").is_err());
    assert!(rt; disk.cut(0).is_err());
    assert!(rt; disk.sync().is_err());
}
