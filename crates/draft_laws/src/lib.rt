//! Laws of one run's objects, each the contract of a public function: what holds of every heap by the definitions of
//! `run_heap` and `draft_core`, whatever the code is.
#![tactic(auto)]

mod reads;
mod scopes;
mod writes;

pub use reads::{
    law_each_container, law_frozen_reads, law_frozen_stays, law_keys, law_one_path, law_path_leads,
};
pub use scopes::{law_cut_store, law_extended_store, law_foreign_objects, law_revoked, take_two};
pub use writes::{
    law_accepted_writes, law_calls_write, law_put_reads, law_refused, law_remove_reads,
    law_rewritten, law_same,
};
