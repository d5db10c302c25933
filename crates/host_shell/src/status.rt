ghost use Rattle.std.specs.Prelude.{◌≡◌, ◌≤◌, [], length};
ghost use Rattle.host_shell.specs.Status.{status_code, status_text};

use std::marker::Model;

/// How a run ended.
#[derive(Clone, Copy, Debug, Drop, PartialEq, Eq)]
pub enum Status {
    /// The stream was read to its end, and each line answered.
    Done,
    /// The words are of no form.
    Usage,
    /// A call of the source failed.
    ReadFault,
    /// A call of the sink failed.
    WriteFault,
    /// Memory ran out.
    Memory,
    /// The stream has more than 2^48 bytes.
    TooLong,
}

impl Status {
    /// The exit status of the program. It takes no memory.
    pub fn code(&self) -> u8
        ensures { result ≡ status_code self.now }
    {
        match self {
            Status::Done => 0,
            Status::Usage => 2,
            Status::ReadFault => 4,
            Status::WriteFault => 5,
            Status::Memory => 7,
            Status::TooLong => 12,
        }
    }

    /// What the program says of it on standard error, empty for `Done`. It takes no memory.
    pub fn write_line(&self, line: &mut StatusLine)
        ensures { line.new ≡ status_text self.now }
    {
        line.set(self.text());
    }

    fn text(&self) -> &'static str
        ensures text { result.now ≡ status_text self.now }
        ensures short { length (status_text self.now) ≤ 96 }
    {
        match self {
            Status::Done => "",
            Status::Usage => "usage: statehost run SCRIPT JOURNAL [--new INIT] [--steps N]",
            Status::ReadFault => "read fault",
            Status::WriteFault => "write fault",
            Status::Memory => "memory",
            Status::TooLong => "too long",
        }
    }
}

/// A line of at most 96 bytes, without its LF.
///
/// A contract sees it as its bytes.
#[derive(Drop)]
pub struct StatusLine {
    bytes: [u8; 96],
    len: usize,
}

impl Model for StatusLine {
    ghost use Rattle.std.specs.Prelude.{List, ℕ, take, ◌≤◌};

    ghost Value = { List ℕ };

    ghost view = { λ l. take l.len l.bytes };

    ghost invariant = { λ l. l.len ≤ 96 };
}

impl StatusLine {
    /// An empty line.
    pub fn new() -> StatusLine
        ensures { result ≡ [] }
    {
        StatusLine {
            bytes: [0; 96],
            len: 0,
        }
    }

    /// The bytes of the line.
    pub fn as_bytes(&self) -> &[u8]
        ensures { result.now ≡ self.now }
    {
        &self.bytes[..self.len]
    }

    fn set(&mut self, text: &str)
        requires { length text.now ≤ 96 }
        ensures { self.new ≡ text.now }
    {
        let bytes = text.as_bytes();
        self.len = bytes.len();
        self.bytes[..bytes.len()].copy_from_slice(bytes);
    }
}
