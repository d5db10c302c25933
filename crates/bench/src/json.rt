//! How fast JSON is read and printed.
use std::alloc::Global;
use std::time::{Clock, Instant};
use std::{fs, io};
use value_json::{read_value, write_value};

const TURNS: u32 = 15;

/// The best times, in microseconds.
#[derive(Clone, Copy, Drop)]
struct Times {
    read: u128,
    printed: u128,
}

/// How long the value that the bytes are takes to be read, and to be printed.
fn measure(clock: &impl Clock, alloc: Global, bytes: &[u8]) -> io::Result<Times> {
    let mut best = Times {
        read: u128::MAX,
        printed: u128::MAX,
    };
    for _ in 0..TURNS {
        let start = Instant::now(clock)?;
        let Ok(value) = read_value(alloc, bytes) else {
            return Err(io::Error::from(io::ErrorKind::InvalidData));
        };
        let read = start.elapsed(clock)?.as_micros();
        let start = Instant::now(clock)?;
        let text = write_value(alloc, &value)?;
        let printed = start.elapsed(clock)?.as_micros();
        if text.as_str().len() > 0 && read < best.read {
            best.read = read;
        }
        if printed < best.printed {
            best.printed = printed;
        }
    }
    Ok(best)
}

/// Prints how long the value in a file takes to be read, and to be printed, in microseconds.
pub(crate) fn run(rt: &HostRuntime, path: &str) -> anyhow::Result<()> {
    let bytes = fs::read(rt, path)?;
    let times = measure(rt, rt.alloc(), bytes.as_slice())?;
    println!(*rt; "{} {}", times.read, times.printed)?;
    Ok(())
}
