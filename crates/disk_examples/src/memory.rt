use disk_model::{Crash, Disk, MemDisk, cut_through, write_through};
use io_edges::Failed;
use std::test::Fail;

/// A call of a script.
#[derive(Clone, Copy)]
enum Step {
    Length,
    Read(u64),
    Write(u64, &'static str),
    Cut(u64),
    Sync,
}

/// Makes the call. One that would begin or cut past the end, or far off, fails by itself.
fn make(disk: &mut MemDisk, step: Step) -> Result<(), Failed> {
    match step {
        Step::Length => {
            disk.length()?;
            Ok(())
        }
        Step::Read(at) => read_one(disk, at),
        Step::Write(at, piece) => write_within(disk, at, piece),
        Step::Cut(end) => cut_within(disk, end),
        Step::Sync => disk.sync(),
    }
}

fn read_one(disk: &mut MemDisk, at: u64) -> Result<(), Failed> {
    if at > 100 {
        return Err(Failed);
    }
    disk.read(at, &mut [0; 1])?;
    Ok(())
}

fn write_within(disk: &mut MemDisk, at: u64, piece: &str) -> Result<(), Failed> {
    if at > disk.bytes().len() as u64 || at > 100 || piece.len() > 100 {
        return Err(Failed);
    }
    disk.write_at(at, piece.as_bytes())
}

fn cut_within(disk: &mut MemDisk, end: u64) -> Result<(), Failed> {
    if end > disk.bytes().len() as u64 || end > 100 {
        return Err(Failed);
    }
    disk.cut(end)
}

const SCRIPT: [Step; 7] = [
    Step::Write(2, "XY"),
    Step::Write(4, "EF"),
    Step::Sync,
    Step::Cut(3),
    Step::Write(1, "q"),
    Step::Sync,
    Step::Write(3, "zz"),
];

#[test]
fn each_call_fails_by_its_number(rt: HostRuntime) -> Result<(), Fail> {
    let steps = [
        Step::Length,
        Step::Read(1),
        Step::Write(4, "ef"),
        Step::Cut(2),
        Step::Sync,
    ];
    for listed in 0..6u64 {
        let mut disk = MemDisk::new(rt.alloc(), b"abcd", &[listed])?;
        for (i, step) in steps.iter().enumerate() {
            let done = make(&mut disk, *step).is_ok();
            assert_eq!(rt; done, i as u64 != listed, "call {i} with {listed} listed");
        }
        assert_eq!(rt; disk.refused(), 0);
    }
    Ok(())
}

#[test]
fn a_crash_leaves_its_image_after_each_call(rt: HostRuntime) -> Result<(), Fail> {
    let mut disk = MemDisk::new(rt.alloc(), b"abcd", &[])?;
    for step in SCRIPT {
        make(&mut disk, step)?;
    }
    let table = [
        (0, "abcd", "abcd", "abcd"),
        (1, "abcd", "abXY", "ab##"),
        (2, "abcd", "abXYEF", "ab####"),
        (3, "abXYEF", "abXYEF", "abXYEF"),
        (4, "abXYEF", "abX", "abX"),
        (5, "abXYEF", "aqX", "a#X"),
        (6, "aqX", "aqX", "aqX"),
        (7, "aqX", "aqXzz", "aqX##"),
        (8, "aqX", "aqXzz", "aqX##"),
    ];
    for (calls, lost, kept, filled) in table {
        for (kind, want) in [
            (Crash::Lost, lost),
            (Crash::Kept, kept),
            (Crash::Filled(b'#'), filled),
        ] {
            let left = disk.after_crash(rt.alloc(), calls, kind)?;
            assert_eq!(rt; left.bytes(), want.as_bytes(), "{kind:?} after {calls}");
        }
    }
    Ok(())
}

#[test]
fn a_failed_sync_does_not_count(rt: HostRuntime) -> Result<(), Fail> {
    let mut disk = MemDisk::new(rt.alloc(), b"abcd", &[1, 3])?;
    let steps = [
        Step::Write(0, "P"),
        Step::Write(1, "QR"),
        Step::Length,
        Step::Sync,
        Step::Cut(3),
        Step::Sync,
    ];
    for step in steps {
        let _ = make(&mut disk, step);
    }
    let table = [
        (0, "abcd", "abcd", "abcd"),
        (1, "abcd", "Pbcd", "#bcd"),
        (2, "abcd", "Pbcd", "###d"),
        (3, "abcd", "Pbcd", "###d"),
        (4, "abcd", "Pbcd", "###d"),
        (5, "abcd", "Pbc", "###"),
        (6, "Pbc", "Pbc", "Pbc"),
    ];
    for (calls, lost, kept, filled) in table {
        for (kind, want) in [
            (Crash::Lost, lost),
            (Crash::Kept, kept),
            (Crash::Filled(b'#'), filled),
        ] {
            let left = disk.after_crash(rt.alloc(), calls, kind)?;
            assert_eq!(rt; left.bytes(), want.as_bytes(), "{kind:?} after {calls}");
        }
    }
    Ok(())
}

#[test]
fn what_was_synced_lasts(rt: HostRuntime) -> Result<(), Fail> {
    let mut disk = MemDisk::new(rt.alloc(), b"abcd", &[])?;
    write_through(&mut disk, 0, b"xy")?;
    cut_through(&mut disk, 0)?;
    let mut written = disk.after_crash(rt.alloc(), 2, Crash::Lost)?;
    let mut buf = [0u8; 3];
    assert_eq!(rt; written.read(1, &mut buf)?, 3);
    assert_eq!(rt; buf, *b"ycd");
    assert_eq!(rt; written.length()?, 4);
    let empty = disk.after_crash(rt.alloc(), 4, Crash::Lost)?;
    assert_eq!(rt; empty.bytes().len(), 0);
    Ok(())
}
