//! How fast things are, a word for each measurement.
//!
//! `json FILE` reads and prints the value in a file; `store WORD` loads and unfolds a list; `drafts WORD` reads and writes
//! drafts; `bytes ROUNDS` writes and reads a value as bytes; `script ROUNDS` reads a script; `lines ROUNDS` reads command lines and
//! writes replies. With no word each but the first is done once on something small.
#![tactic(auto)]

mod bytes;
mod clock;
mod drafts;
mod json;
mod lines;
mod script;
mod store;

use std::env;

fn main(rt: HostRuntime) -> anyhow::Result<()> {
    let mut words = env::args(&rt)?.skip(1);
    let word = words.next();
    let of = words.next();
    let of = of.as_ref().map_or("", |w| w.as_str());
    match word.as_ref().map_or("", |w| w.as_str()) {
        "json" => json::run(&rt, of),
        "store" => store::run(&rt, of),
        "drafts" => drafts::run(&rt, of),
        "bytes" => bytes::run(&rt, of.parse::<u32>()?),
        "script" => script::run(&rt, of.parse::<u32>()?),
        "lines" => lines::run(&rt, of.parse::<u32>()?),
        _ => {
            store::run(&rt, "")?;
            drafts::run(&rt, "")?;
            bytes::run(&rt, 0)?;
            script::run(&rt, 0)?;
            lines::run(&rt, 0)
        }
    }
}
