//! Rules: how they are read, shapes and guards, views, and grants.
#![tactic(auto)]

mod fault;
mod grants;
mod parts;
mod rules;
mod shape_reading;
mod texts;
mod view_reading;

pub use derived_views::{Touched, View, ViewRule, Weigh, copy_weigh, weighs};
pub use fault::RulesFault;
pub use grants::{Grant, GrantRule, Grants, NamedGrant, Verdict};
pub use rules::{Rules, Views};
pub use shapes::{Form, Guard, Named, Shape, Simple, broken, meets};
