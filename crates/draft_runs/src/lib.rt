//! Calls on one run's objects by numbers of earlier answers, for examples and for long sequences of calls.
//!
//! A `Run` has a method for each call of draft_core's `Scope`, which answers the text that the call's answer is: a value as
//! `text_of`, a refusal as `name_of`, and `not called` where a condition of the call doesn't hold. `AllocError` is want of memory
//! outside the call; inside one with refusals it is `Memory`.
#![tactic(auto)]

mod edits;
mod fault;
mod fresh;
mod guards;
mod looks;
mod reads;
mod run;
mod texts;
mod words;
mod writes;

pub use fault::WordFault;
pub use run::Run;
pub use texts::{json_of, name_of, text_of};
pub use words::{Operand, key_of, kind_of, operand_of, state_of, value_of};
