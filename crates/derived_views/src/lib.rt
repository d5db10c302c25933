//! Views: a sum over the entries of a container, kept with what each entry adds, and brought up to date from patches.
#![tactic(auto)]

mod measure;
mod touched;
mod view;
mod weighing;
mod weights;

pub use guards_views_spec::{ViewRule, Weigh};
pub use measure::Measure;
pub use touched::Touched;
pub use view::View;
pub use weighing::{copy_weigh, weighs};
pub use weights::Weights;
