//! Shapes of values: how they are read, what meets them, and guards.
#![tactic(auto)]

mod guard;
mod meeting;
mod names;
mod paths;
mod primitives;
mod shape;

pub use guard::Guard;
pub use guards_views_spec::Simple;
pub use meeting::meets;
pub use names::has_any;
pub use paths::broken;
pub use shape::{Form, Named, Shape};
