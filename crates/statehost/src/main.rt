// The program: command lines come on standard input, and replies go to standard output.
#![tactic(auto)]

use host_shell::{Status, StatusLine, serve};
use io_edges::{ReadEdge, WriteEdge};
use std::alloc::{AllocError, Global};
use std::io::Write;
use std::process::ExitCode;
use std::{env, io};

fn main(rt: HostRuntime) -> ExitCode {
    let status = match words(&rt) {
        Ok(words) => {
            let mut commands = ReadEdge::new(rt.reader());
            let mut out = WriteEdge::new(io::writer(&rt));
            serve(rt.alloc(), words.as_slice(), &mut commands, &mut out)
        }
        Err(_) => Status::Memory,
    };
    if status != Status::Done {
        tell(&rt, status);
    }
    ExitCode::from(status.code())
}

/// The words of the command line, without the program's name.
fn words(rt: &HostRuntime) -> io::Result<Vec<String>> {
    let mut words = Vec::new(rt.alloc());
    for word in env::args(rt)?.skip(1) {
        words
            .push(word)
            .map_err(|_| io::Error::from(io::ErrorKind::OutOfMemory))?;
    }
    Ok(words)
}

/// Says on standard error how the run ended.
fn tell(rt: &HostRuntime, status: Status) {
    let mut line = StatusLine::new();
    status.write_line(&mut line);
    let mut err = rt.stderr();
    let _ = err.write_all(b"statehost: ");
    let _ = err.write_all(line.as_bytes());
    let _ = err.write_all(b"\n");
}
