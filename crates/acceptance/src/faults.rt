//! Calls that fail in the middle of a stream, and objects that give or take little at a time.
use crate::tables::{ROWS, lines, replies, words};
use host_shell::{Status, serve};
use io_edges::{MemSink, MemSource};
use std::test::Fail;

#[test]
fn a_byte_at_a_time(rt: HostRuntime) -> Result<(), Fail> {
    let alloc = rt.alloc();
    let words = words(alloc, &["scratch"])?;
    let mut commands = MemSource::in_pieces(alloc, lines(alloc)?.as_bytes(), &[], 1)?;
    let mut out = MemSink::in_pieces(alloc, &[], 1)?;
    let status = serve(alloc, words.as_slice(), &mut commands, &mut out);
    assert!(rt; status == Status::Done);
    assert_eq!(rt; out.bytes(), replies(alloc)?.as_bytes());
    Ok(())
}

#[test]
fn the_source_fails_at_each_call(rt: HostRuntime) -> Result<(), Fail> {
    let alloc = rt.alloc();
    let words = words(alloc, &["scratch"])?;
    let lines = lines(alloc)?;
    let wanted = replies(alloc)?;
    for call in 0..(lines.len() as u64 / 100 + 1) {
        let mut commands = MemSource::in_pieces(alloc, lines.as_bytes(), &[call], 100)?;
        let mut out = MemSink::new(alloc, &[])?;
        let status = serve(alloc, words.as_slice(), &mut commands, &mut out);
        assert!(rt; status == Status::ReadFault);
        assert!(rt; wanted.as_bytes().starts_with(out.bytes()));
    }
    Ok(())
}

#[test]
fn the_sink_fails_at_each_call(rt: HostRuntime) -> Result<(), Fail> {
    let alloc = rt.alloc();
    let words = words(alloc, &["scratch"])?;
    let lines = lines(alloc)?;
    let wanted = replies(alloc)?;
    let spoken = ROWS.iter().filter(|row| !row.1.is_empty()).count();
    for call in 0..2 * spoken as u64 {
        let mut commands = MemSource::new(alloc, lines.as_bytes(), &[])?;
        let mut out = MemSink::new(alloc, &[call])?;
        let status = serve(alloc, words.as_slice(), &mut commands, &mut out);
        assert!(rt; status == Status::WriteFault);
        assert!(rt; wanted.as_bytes().starts_with(out.bytes()));
        assert_eq!(rt; status.code(), 5);
    }
    Ok(())
}
