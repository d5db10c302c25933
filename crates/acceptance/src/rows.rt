//! The worked examples in one run, and a few runs that need bytes of their own.
use crate::tables::{NO_COMMAND, NOT_YET, lines, replies, words};
use host_shell::{Status, StatusLine, serve};
use io_edges::{MemSink, MemSource};
use std::test::Fail;

const LINE: &str = r#"{"do":"apply","patches":[{"op":"add","path":["n"],"value":1}]}"#;

const REPLY: &str =
    r#"{"inverse":[{"op":"remove","path":["n"]}],"ok":"apply","patches":[{"op":"add","path":["n"],"value":1}],"root":2,"seq":1}"#;

#[test]
fn the_worked_examples(rt: HostRuntime) -> Result<(), Fail> {
    let alloc = rt.alloc();
    let words = words(alloc, &["scratch"])?;
    let mut commands = MemSource::new(alloc, lines(alloc)?.as_bytes(), &[])?;
    let mut out = MemSink::new(alloc, &[])?;
    let status = serve(alloc, words.as_slice(), &mut commands, &mut out);
    assert!(rt; status == Status::Done);
    assert_eq!(rt; out.bytes(), replies(alloc)?.as_bytes());
    assert_eq!(rt; out.refused(), 0);
    Ok(())
}

#[test]
fn the_forms_of_commands(rt: HostRuntime) -> Result<(), Fail> {
    let alloc = rt.alloc();
    let words = words(alloc, &["scratch"])?;
    let mut stream = String::new(alloc);
    let mut wanted = String::new(alloc);
    for line in NOT_YET {
        stream.push_str(line)?;
        stream.push_str("\n")?;
        wanted.push_str("{\"no\":\"line\",\"why\":\"NotYet\"}\n")?;
    }
    for line in NO_COMMAND {
        stream.push_str(line)?;
        stream.push_str("\n")?;
        wanted.push_str("{\"no\":\"line\",\"why\":\"NotCommand\"}\n")?;
    }
    let mut commands = MemSource::new(alloc, stream.as_bytes(), &[])?;
    let mut out = MemSink::new(alloc, &[])?;
    let status = serve(alloc, words.as_slice(), &mut commands, &mut out);
    assert!(rt; status == Status::Done);
    assert_eq!(rt; out.bytes(), wanted.as_bytes());
    Ok(())
}

#[test]
fn a_last_line_without_its_end(rt: HostRuntime) -> Result<(), Fail> {
    let alloc = rt.alloc();
    let words = words(alloc, &["scratch"])?;
    let mut commands = MemSource::new(alloc, LINE.as_bytes(), &[])?;
    let mut out = MemSink::new(alloc, &[])?;
    let status = serve(alloc, words.as_slice(), &mut commands, &mut out);
    assert!(rt; status == Status::Done);
    assert!(rt; out.bytes().starts_with(REPLY.as_bytes()));
    assert_eq!(rt; out.bytes().len(), REPLY.len() + 1);
    Ok(())
}

#[test]
fn a_line_one_byte_too_long(rt: HostRuntime) -> Result<(), Fail> {
    let alloc = rt.alloc();
    let words = words(alloc, &["scratch"])?;
    let mut stream = Vec::new(alloc);
    for _ in 0..1_048_577 {
        stream.push(b'x')?;
    }
    stream.push(b'\n')?;
    stream.extend_from_slice(LINE.as_bytes())?;
    let mut commands = MemSource::new(alloc, stream.as_slice(), &[])?;
    let mut out = MemSink::new(alloc, &[])?;
    let status = serve(alloc, words.as_slice(), &mut commands, &mut out);
    let mut wanted = String::from_str(alloc, r#"{"no":"line","why":"LineTooLong"}"#)?;
    wanted.push_str("\n")?;
    wanted.push_str(REPLY)?;
    wanted.push_str("\n")?;
    assert!(rt; status == Status::Done);
    assert_eq!(rt; out.bytes(), wanted.as_bytes());
    Ok(())
}

#[test]
fn words_of_no_form(rt: HostRuntime) -> Result<(), Fail> {
    let alloc = rt.alloc();
    let lists: [&[&str]; 4] = [&["fly"], &[], &["scratch", "scratch"], &["Scratch"]];
    for list in lists {
        let words = words(alloc, list)?;
        let mut commands = MemSource::new(alloc, LINE.as_bytes(), &[0])?;
        let mut out = MemSink::new(alloc, &[0])?;
        let status = serve(alloc, words.as_slice(), &mut commands, &mut out);
        assert!(rt; status == Status::Usage);
        assert_eq!(rt; out.bytes().len(), 0);
        assert_eq!(rt; status.code(), 2);
    }
    let mut line = StatusLine::new();
    Status::Usage.write_line(&mut line);
    let usage = "usage: statehost run SCRIPT JOURNAL [--new INIT] [--steps N]";
    assert_eq!(rt; line.as_bytes(), usage.as_bytes());
    Ok(())
}
