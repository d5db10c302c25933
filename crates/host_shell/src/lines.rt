//! The loop over the command lines of a stream.
ghost use Rattle.std.specs.Prelude.{◌≡◌, ◌≢◌, ◌≤◌, ◌<◌, ◌+◌, ◌*◌, ◌^◌, ◌++◌, ◌∷◌, ◌-◌, ℕ, List, Option, [], length, take, drop, min, IfOk, IfErr, OnOk, MatchOption, MatchResult};
ghost use Rattle.std.specs.Io.KnownBytes.{Consumes, IsAtEnd, Keeps};
ghost use Rattle.io_edges.specs.Causes.{HasCause, Rose};
ghost use Rattle.host_machine.specs.Machine.{Machine};
ghost use Rattle.stream_run.specs.Endings.{Ran};
ghost use Rattle.stream_run.specs.Lines.{HasNoLf, lines};
ghost use Rattle.host_shell.specs.Carried.{AllCarry};
ghost use Rattle.host_shell.specs.At.{IsAt, LfAt, Reaches, Finishes, Overruns};
ghost use Rattle.host_shell.specs.Ends.{Ends, StopsFor, GivesPiece};

use crate::answer::answer;
use crate::line::Line;
use crate::status::Status;
use host_engine::Host;
use io_edges::{Failed, Sink, Source};
use std::alloc::Global;

/// How many bytes are asked for at a time.
const PIECE: usize = 65536;

/// How many bytes a stream may have.
const MAX_STREAM: u64 = 1 << 48;

/// Answers the lines of a stream, and says how that ended.
///
/// The lines are cut at LF; a last line without LF is one if it has bytes, and a blank line is skipped. Each reply is written
/// whole with its LF and flushed before the next line is read. At most 65,536 bytes are read at a time, and only where no
/// whole line is left of those before.
pub fn serve_lines<C: Source, O: Sink>(
    alloc: Global,
    host: Host,
    commands: &mut C,
    out: &mut O,
) -> Status
    requires { host.turns ≤ 2 ^ 47 }
    ensures ends { Ran (C.left commands.old) (C.left commands.new) (O.taken out.old) (O.taken out.new) (Ends result host.machine) }
    ensures read { result ≡ Status.ReadFault → Rose (C.faults commands.old) (C.faults commands.new) }
    ensures write { result ≡ Status.WriteFault → Rose (O.faults out.old) (O.faults out.new) }
    ensures usage { result ≢ Status.Usage }
    ensures patches { (stream : List ℕ) → AllCarry host.machine (lines stream) }
{
    let _sound = host.turns();
    let mut host = host;
    let mut line = Line::new(alloc);
    let mut piece = [0u8; PIECE];
    let mut total: u64 = 0;
    loop {
        let count = match read_piece(commands, &mut piece, room_after(total)) {
            Ok(count) => count,
            Err(_) => return Status::ReadFault,
        };
        if count == 0 {
            return finish(alloc, host, &line, out);
        }
        if total + count as u64 > MAX_STREAM {
            return feed_last(alloc, host, &mut line, &piece[..count - 1], out);
        }
        total += count as u64;
        host = match feed(alloc, host, &mut line, &piece[..count], out) {
            Ok(host) => host,
            Err(status) => return status,
        };
    }
}

/// How many bytes to ask for after so many: of a stream only one byte is read past the limit.
fn room_after(total: u64) -> usize
    requires { total ≤ 2 ^ 48 }
    ensures some { 0 < result }
    ensures most { result ≤ 65536 }
    ensures limit { total + result ≤ 2 ^ 48 + 1 }
{
    let rest = MAX_STREAM + 1 - total;
    if rest < PIECE as u64 {
        rest as usize
    } else {
        PIECE
    }
}

/// Reads a piece of at most `room` bytes.
fn read_piece<C: Source>(commands: &mut C, piece: &mut [u8], room: usize) -> Result<usize, Failed>
    requires { room ≤ length piece.old }
    ensures bound { IfOk result (λ n. n ≤ room) }
    ensures bytes { GivesPiece (C.left commands.old) (C.left commands.new) room piece.new result }
    ensures cause { HasCause (C.faults commands.old) (C.faults commands.new) result }
{
    commands.read(&mut piece[..room])
}

/// Takes a piece of the stream.
fn feed<O: Sink>(
    alloc: Global,
    host: Host,
    line: &mut Line,
    piece: &[u8],
    out: &mut O,
) -> Result<Host, Status>
    requires { 2 * host.turns + line.old.size + length piece.now ≤ 2 ^ 49 }
    ensures fed { (first : Machine) (got more : List ℕ) (before : Option (List ℕ)) → length piece.now + length more ≤ 65536 → IsAt first got host.machine line.old before (O.taken out.old) → Reaches first (got ++ piece.now) more line.new before (O.taken out.new) result }
    ensures turns { IfOk result (λ h. 2 * h.turns + line.new.size ≤ 2 * host.turns + line.old.size + length piece.now) }
    ensures later { O.faults out.old ≤ O.faults out.new }
    ensures err { IfErr result (StopsFor (O.faults out.old) (O.faults out.new)) }
{
    let mut host = host;
    let mut rest = piece;
    loop {
        match next_lf(rest) {
            Some(at) => {
                host = match end_line(alloc, host, line, &rest[..at], out) {
                    Ok(host) => host,
                    Err(status) => return Err(status),
                };
                rest = skip(rest, at + 1);
            }
            None => {
                return match line.extend(rest) {
                    Ok(()) => Ok(host),
                    Err(_) => Err(Status::Memory),
                };
            }
        }
    }
}

/// The bytes behind so many.
fn skip(bytes: &[u8], count: usize) -> &[u8]
    requires { count ≤ length bytes.now }
    ensures { result.now ≡ drop count bytes.now }
{
    &bytes[count..]
}

/// Takes the last bytes within the limit of a stream that goes on behind it.
fn feed_last<O: Sink>(
    alloc: Global,
    host: Host,
    line: &mut Line,
    piece: &[u8],
    out: &mut O,
) -> Status
    requires { 2 * host.turns + line.old.size + length piece.now ≤ 2 ^ 49 }
    ensures fed { (first : Machine) (got more : List ℕ) (before : Option (List ℕ)) → length piece.now + length more ≤ 65536 → IsAt first got host.machine line.old before (O.taken out.old) → Overruns first (got ++ piece.now) more before (O.taken out.new) result }
    ensures later { O.faults out.old ≤ O.faults out.new }
    ensures write { result ≡ Status.WriteFault → Rose (O.faults out.old) (O.faults out.new) }
    ensures usage { result ≢ Status.Usage }
    ensures read { result ≢ Status.ReadFault }
{
    match feed(alloc, host, line, piece, out) {
        Ok(_) => {}
        Err(status) => return status,
    }
    Status::TooLong
}

/// Where the first LF is.
fn next_lf(bytes: &[u8]) -> Option<usize>
    ensures { MatchOption result (HasNoLf bytes.now) (LfAt bytes.now) }
{
    for (i, c) in bytes.iter().enumerate() {
        if *c == 10 {
            return Some(i);
        }
    }
    None
}

/// Ends a line after these last bytes, and answers it.
fn end_line<O: Sink>(
    alloc: Global,
    host: Host,
    line: &mut Line,
    chunk: &[u8],
    out: &mut O,
) -> Result<Host, Status>
    requires turns { 2 * host.turns + line.old.size + length chunk.now + 1 ≤ 2 ^ 49 }
    requires inside { HasNoLf chunk.now }
    ensures ended { (first : Machine) (got behind : List ℕ) (before : Option (List ℕ)) → length behind ≤ 65536 → IsAt first got host.machine line.old before (O.taken out.old) → Reaches first (got ++ (chunk.now ++ 10 ∷ [])) behind line.new before (O.taken out.new) result }
    ensures turns { IfOk result (λ h. 2 * h.turns + line.new.size ≤ 2 * host.turns + line.old.size + length chunk.now + 1) }
    ensures later { O.faults out.old ≤ O.faults out.new }
    ensures err { IfErr result (StopsFor (O.faults out.old) (O.faults out.new)) }
{
    match line.extend(chunk) {
        Ok(()) => {}
        Err(_) => return Err(Status::Memory),
    }
    match answer(alloc, host, line, out) {
        Ok(host) => {
            line.clear();
            Ok(host)
        }
        Err(status) => Err(status),
    }
}

/// Answers what is left at the end of the stream.
fn finish<O: Sink>(alloc: Global, host: Host, line: &Line, out: &mut O) -> Status
    requires { 2 * host.turns + line.now.size ≤ 2 ^ 49 }
    ensures finished { (first : Machine) (got : List ℕ) (before : Option (List ℕ)) → length got ≤ 2 ^ 48 → IsAt first got host.machine line.now before (O.taken out.old) → Finishes first got before (O.taken out.new) result }
    ensures later { O.faults out.old ≤ O.faults out.new }
    ensures write { result ≡ Status.WriteFault → Rose (O.faults out.old) (O.faults out.new) }
    ensures usage { result ≢ Status.Usage }
    ensures read { result ≢ Status.ReadFault }
{
    if line.is_empty() {
        return Status::Done;
    }
    match answer(alloc, host, line, out) {
        Ok(_) => {}
        Err(status) => return status,
    }
    Status::Done
}
