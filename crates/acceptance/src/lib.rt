//! Tests over the whole host: worked examples, and faults in the middle of a stream.
#![tactic(auto)]

#[cfg(test)]
mod faults;
#[cfg(test)]
mod rows;
#[cfg(test)]
mod tables;
