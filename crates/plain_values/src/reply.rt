use crate::command::Word;
use crate::pointer::Pointers;
use crate::refusal::Refusal;
use values::{Pair, Text, Val};

/// What is answered to a line.
///
/// `root` is the number of the state and `seq` the number of changes, undos and redos, both after the command.
#[derive(Drop)]
pub enum Reply {
    /// `dispatch`, `apply` or `finish` was accepted: the patches from the state before to the state now, and back; both empty
    /// where nothing changed.
    Changed {
        /// The word of the command.
        word: Word,
        /// The patches there and back.
        pair: Pair,
        /// The number of the state now.
        root: u64,
        /// The number of changes so far.
        seq: u64,
        /// The session that ended; there for `finish` alone.
        session: Option<u64>,
    },
    /// `undo` or `redo` was accepted: a change was taken back, or made again.
    Moved {
        /// The word of the command.
        word: Word,
        /// The name of the reducer that made the change; None where no reducer did.
        by: Option<Text>,
        /// The patches there and back.
        pair: Pair,
        /// The number of the state now.
        root: u64,
        /// The number of changes so far.
        seq: u64,
    },
    /// `pointer` was accepted: the operations from the state before to the state now, and back. A list is None where its patches
    /// lead into a Map or a Set, or carry one, which no operation can.
    Pointed {
        /// The operations there.
        patches: Option<Pointers>,
        /// The operations back.
        inverse: Option<Pointers>,
        /// The number of the state now.
        root: u64,
        /// The number of changes so far.
        seq: u64,
    },
    /// `begin`, `edit` or `drop` was accepted.
    Session {
        /// The word of the command.
        word: Word,
        /// The number of the session.
        session: u64,
    },
    /// What stands at the path.
    State {
        /// The value there.
        value: Val,
    },
    /// The number of the container at the path; None where a primitive stands there.
    Node {
        /// The number, from 1 on.
        node: Option<u64>,
    },
    /// What the host counts.
    Stat {
        /// How many numbers were given.
        nodes: u64,
        /// How many changes were taken back and can be made again, at most 100.
        redo: u64,
        /// The number of changes so far.
        seq: u64,
        /// How many sessions are active.
        sessions: u64,
        /// How many changes can be taken back, at most 100.
        undo: u64,
        /// What the containers of all numbers weigh by themselves, together.
        used: u64,
    },
    /// The state has new numbers.
    Renew {
        /// The number of the state now.
        root: u64,
    },
    /// The total of a view.
    View {
        /// The sum of what the entries weigh, at most 2^20.
        total: u64,
    },
    /// The command, or the line, was refused.
    No {
        /// The word of the command, or `Line`.
        word: Word,
        /// The session, in each refusal of `edit`, `finish` and `drop`.
        session: Option<u64>,
        /// The position of the patch, from 0; None where no single patch is meant.
        at: Option<u64>,
        /// Why it was refused.
        why: Refusal,
    },
}
