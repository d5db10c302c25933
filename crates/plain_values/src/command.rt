ghost use Rattle.std.specs.Prelude.{◌≡◌};
ghost use Rattle.plain_values.specs.Names.{command_word, word_name};

use crate::pointer::Pointers;
use values::{Patches, Path, Text, Val};

/// What a command line asks for.
#[derive(Drop)]
pub enum Command {
    /// A reducer is run on the state, and what it makes of it becomes the state.
    Dispatch {
        /// The reducer's name.
        reducer: Text,
        /// What the reducer is given; null where the line names none.
        action: Val,
    },
    /// The patches are applied to the state, one after another.
    Apply {
        /// The patches, in the order in which they are applied.
        patches: Patches,
    },
    /// The last change is taken back.
    Undo,
    /// The last change that was taken back is made again.
    Redo,
    /// A session is begun on the state.
    Begin {
        /// The name of the grant that says where the session may write; None where it may write everywhere.
        grant: Option<Text>,
    },
    /// A reducer is run on the draft of a session.
    Edit {
        /// The number of the session, at most 2^53 - 1.
        session: u64,
        /// The reducer's name.
        reducer: Text,
        /// What the reducer is given; null where the line names none.
        action: Val,
    },
    /// A session ends, and what it made becomes the state.
    Finish {
        /// The number of the session, at most 2^53 - 1.
        session: u64,
        /// Whether its patches are applied to the state as it is now; otherwise that must be the state it was begun on.
        replay: bool,
    },
    /// A session ends, and what it made is dropped.
    Drop {
        /// The number of the session, at most 2^53 - 1.
        session: u64,
    },
    /// What stands at the path is shown.
    State {
        /// The path, from the whole state on; empty for the whole.
        path: Path,
    },
    /// The number of the container at the path is shown.
    Node {
        /// The path, from the whole state on; empty for the whole.
        path: Path,
    },
    /// What the host counts is shown.
    Stat,
    /// The state gets new numbers, from 1 on.
    Renew,
    /// The total of a view is shown.
    View {
        /// The view's name.
        name: Text,
    },
    /// The operations of a JSON Patch (RFC 6902) are applied to the state, one after another.
    Pointer {
        /// The operations, in the order in which they are applied.
        patches: Pointers,
    },
}

impl Command {
    /// The word of the command's line.
    pub fn word(&self) -> Word
        ensures { result ≡ command_word self.now }
    {
        match self {
            Command::Dispatch { .. } => Word::Dispatch,
            Command::Apply { .. } => Word::Apply,
            Command::Undo => Word::Undo,
            Command::Redo => Word::Redo,
            Command::Begin { .. } => Word::Begin,
            Command::Edit { .. } => Word::Edit,
            Command::Finish { .. } => Word::Finish,
            Command::Drop { .. } => Word::Drop,
            Command::State { .. } => Word::State,
            Command::Node { .. } => Word::Node,
            Command::Stat => Word::Stat,
            Command::Renew => Word::Renew,
            Command::View { .. } => Word::View,
            Command::Pointer { .. } => Word::Pointer,
        }
    }
}

/// The word of a command, and what a reply answers: a command, or a line that is none.
#[derive(Clone, Copy, Debug, Drop, PartialEq, Eq)]
pub enum Word {
    /// A reducer is run on the state.
    Dispatch,
    /// Patches are applied to the state.
    Apply,
    /// The last change is taken back.
    Undo,
    /// A change that was taken back is made again.
    Redo,
    /// A session is begun.
    Begin,
    /// A reducer is run in a session.
    Edit,
    /// A session ends, and its result becomes the state.
    Finish,
    /// A session ends without a result.
    Drop,
    /// What stands at a path is shown.
    State,
    /// The number of a container is shown.
    Node,
    /// What the host counts is shown.
    Stat,
    /// The state gets new numbers, from 1 on.
    Renew,
    /// The total of a view is shown.
    View,
    /// The operations of a JSON Patch are applied to the state.
    Pointer,
    /// No command: the word of a reply to a line that is none.
    Line,
}

impl Word {
    /// The word as lines spell it.
    pub fn name(&self) -> &'static str
        ensures { result.now ≡ word_name self.now }
    {
        match self {
            Word::Dispatch => "dispatch",
            Word::Apply => "apply",
            Word::Undo => "undo",
            Word::Redo => "redo",
            Word::Begin => "begin",
            Word::Edit => "edit",
            Word::Finish => "finish",
            Word::Drop => "drop",
            Word::State => "state",
            Word::Node => "node",
            Word::Stat => "stat",
            Word::Renew => "renew",
            Word::View => "view",
            Word::Pointer => "pointer",
            Word::Line => "line",
        }
    }
}
