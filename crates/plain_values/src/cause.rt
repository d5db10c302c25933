ghost use Rattle.std.specs.Prelude.{◌≡◌};
ghost use Rattle.plain_values.specs.Names.{cause_name, limit_cause, patch_cause};

use thiserror::Error;
use values::{Limit, PatchWhy};

/// Why a line or a command is refused, where nothing more is told of it than this name.
#[derive(Clone, Copy, Debug, Drop, PartialEq, Eq, Error)]
pub enum Cause {
    /// The line has more than 1,048,576 bytes, LF not counted.
    #[error("the line has more than 1,048,576 bytes")]
    LineTooLong,
    /// The line is not UTF-8, or is no single JSON text, or nests more than 127 levels, or has a number too large for a
    /// double.
    #[error("the line is no JSON text")]
    NotJson,
    /// The line is JSON of none of the forms of commands.
    #[error("the line has none of the forms of a command")]
    NotCommand,
    /// The line has a form that the host does not run.
    #[error("commands of this form are not run")]
    NotYet,
    /// A number in a value or a path has a fraction or an exponent, is `-0`, or has a magnitude above 2^53 - 1.
    #[error("a number is no integer of magnitude at most 2^53 - 1")]
    NotSafeInteger,
    /// A text, or a member's name, has more than 2^20 bytes.
    #[error("a text has more than 1,048,576 bytes")]
    TextTooLong,
    /// The only member of an object is named `$map`, `$set` or `$obj`, and its value is not of that form.
    #[error("an object whose only member is a tag has not the tag's form")]
    BadTag,
    /// A Map has a key twice, or a Set a member.
    #[error("a Map or a Set has a key twice")]
    DuplicateKey,
    /// A state is a primitive.
    #[error("the state is a primitive")]
    NotContainer,
    /// More than 32 containers nest.
    #[error("more than 32 containers nest")]
    TooDeep,
    /// A value, or the new state of a change, weighs more than 2^20.
    #[error("the weight is above 2^20")]
    TooBig,
    /// A key of an object or a Map, or a member of a Set, has more than 1,024 bytes.
    #[error("a key has more than 1,024 bytes")]
    KeyTooLong,
    /// A key of an object is `__proto__`, `constructor` or `prototype`.
    #[error("a key of an object is reserved")]
    ReservedKey,
    /// Nothing stands where the path of a patch, of `state` or of `node` leads.
    #[error("nothing stands where the path leads")]
    NoPath,
    /// The last step of a patch, or its value, or a key in a run, is of the wrong kind for the container.
    #[error("a key or a value is of the wrong kind")]
    BadKey,
    /// A patch replaces something in a Set.
    #[error("nothing in a Set can be replaced")]
    SetReplace,
    /// An index is negative or past the end of its list, or a length is past it.
    #[error("an index or a length is not within its list")]
    Hole,
    /// A patch that needs a value has none, or a run writes `undefined`.
    #[error("what is written has no value")]
    UndefinedWrite,
    /// An operation leads into a Map or a Set, or its value holds one, or it removes the whole.
    #[error("no pointer leads to or carries a Map or a Set, and the whole is not removed")]
    NotPointer,
    /// A step of an operation at a list is neither an index nor `-`.
    #[error("a step at a list is neither an index nor `-`")]
    BadIndex,
    /// A step of an operation leads nowhere, or its last one names no place for it.
    #[error("nothing stands where the pointer leads")]
    NoTarget,
    /// The program has no reducer of this name.
    #[error("no reducer has this name")]
    UnknownReducer,
    /// In a run an operand is of another type than the operation takes.
    #[error("an operand is of the wrong type")]
    TypeMismatch,
    /// A run writes into a value that is not its own to write.
    #[error("a frozen value is written")]
    Frozen,
    /// A run asks for the original or the present value of something that is no draft.
    #[error("the operand is no draft")]
    NotADraft,
    /// A run takes a remainder by 0.
    #[error("the result is no integer")]
    NotInteger,
    /// The result of a run's operation has a magnitude above 2^53 - 1.
    #[error("the result is out of range")]
    OutOfRange,
    /// What a run made contains itself.
    #[error("a value contains itself")]
    Cycle,
    /// A run took more steps than its budget has.
    #[error("the run took too many steps")]
    Budget,
    /// A reducer changed its draft and returned another value.
    #[error("a reducer changed its draft and returned another value")]
    ReturnAndModify,
    /// The new state of a change is a primitive.
    #[error("the new state is a primitive")]
    NotAState,
    /// No number is left, or the weights of all containers that had a number are above their limit.
    #[error("there is no number or no room for another state")]
    Full,
    /// The patches of a change, there and back, weigh more than 2^22 together.
    #[error("the patches of the change weigh more than 2^22")]
    PatchesTooBig,
    /// There were 2^36 changes.
    #[error("the history is full")]
    HistoryFull,
    /// No change can be taken back.
    #[error("there is nothing to undo")]
    NothingToUndo,
    /// No change can be made again.
    #[error("there is nothing to redo")]
    NothingToRedo,
    /// As many sessions are active as may be.
    #[error("too many sessions are active")]
    TooMany,
    /// The rules have no grant of this name.
    #[error("no grant has this name")]
    UnknownGrant,
    /// No session of this number was begun.
    #[error("no session has this number")]
    UnknownSession,
    /// The session has ended.
    #[error("the session has ended")]
    Revoked,
    /// A reducer in a session returned another value than its draft.
    #[error("a reducer in a session returned a value")]
    ReturnInSession,
    /// The rules have no view of this name.
    #[error("no view has this name")]
    UnknownView,
}

impl Cause {
    /// The name, as replies print it.
    pub fn name(&self) -> &'static str
        ensures { result.now ≡ cause_name self.now }
    {
        match self {
            Cause::LineTooLong => "LineTooLong",
            Cause::NotJson => "NotJson",
            Cause::NotCommand => "NotCommand",
            Cause::NotYet => "NotYet",
            Cause::NotSafeInteger => "NotSafeInteger",
            Cause::TextTooLong => "TextTooLong",
            Cause::BadTag => "BadTag",
            Cause::DuplicateKey => "DuplicateKey",
            Cause::NotContainer => "NotContainer",
            Cause::TooDeep => "TooDeep",
            Cause::TooBig => "TooBig",
            Cause::KeyTooLong => "KeyTooLong",
            Cause::ReservedKey => "ReservedKey",
            Cause::NoPath => "NoPath",
            Cause::BadKey => "BadKey",
            Cause::SetReplace => "SetReplace",
            Cause::Hole => "Hole",
            Cause::UndefinedWrite => "UndefinedWrite",
            Cause::NotPointer => "NotPointer",
            Cause::BadIndex => "BadIndex",
            Cause::NoTarget => "NoTarget",
            Cause::UnknownReducer => "UnknownReducer",
            Cause::TypeMismatch => "TypeMismatch",
            Cause::Frozen => "Frozen",
            Cause::NotADraft => "NotADraft",
            Cause::NotInteger => "NotInteger",
            Cause::OutOfRange => "OutOfRange",
            Cause::Cycle => "Cycle",
            Cause::Budget => "Budget",
            Cause::ReturnAndModify => "ReturnAndModify",
            Cause::NotAState => "NotAState",
            Cause::Full => "Full",
            Cause::PatchesTooBig => "PatchesTooBig",
            Cause::HistoryFull => "HistoryFull",
            Cause::NothingToUndo => "NothingToUndo",
            Cause::NothingToRedo => "NothingToRedo",
            Cause::TooMany => "TooMany",
            Cause::UnknownGrant => "UnknownGrant",
            Cause::UnknownSession => "UnknownSession",
            Cause::Revoked => "Revoked",
            Cause::ReturnInSession => "ReturnInSession",
            Cause::UnknownView => "UnknownView",
        }
    }

    /// The cause for a limit of values.
    pub fn of_limit(limit: Limit) -> Cause
        ensures { result ≡ limit_cause limit }
    {
        match limit {
            Limit::NotContainer => Cause::NotContainer,
            Limit::TooDeep => Cause::TooDeep,
            Limit::TooBig => Cause::TooBig,
            Limit::KeyTooLong => Cause::KeyTooLong,
            Limit::ReservedKey => Cause::ReservedKey,
        }
    }

    /// The cause for a patch that can't be applied.
    pub fn of_patch(why: PatchWhy) -> Cause
        ensures { result ≡ patch_cause why }
    {
        match why {
            PatchWhy::NoPath => Cause::NoPath,
            PatchWhy::BadKey => Cause::BadKey,
            PatchWhy::SetReplace => Cause::SetReplace,
            PatchWhy::Hole => Cause::Hole,
            PatchWhy::UndefinedWrite => Cause::UndefinedWrite,
            PatchWhy::ReservedKey => Cause::ReservedKey,
            PatchWhy::KeyTooLong => Cause::KeyTooLong,
        }
    }
}
