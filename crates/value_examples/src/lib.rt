//! Worked examples of values: their JSON, their limits, patches on them, and the JSON of patches and paths.
#![tactic(auto)]

mod answers;
#[cfg(test)]
mod json_cases;
#[cfg(test)]
mod limit_cases;
#[cfg(test)]
mod patch_cases;
#[cfg(test)]
mod text_cases;

pub use answers::{answer, patched, patches_answer, path_answer};
