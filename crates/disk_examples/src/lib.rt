//! Examples of disks: each fault by its number, what a crash leaves after each call of a script,
//! and a disk over a real file.
#![tactic(auto)]

#[cfg(test)]
mod file;
#[cfg(test)]
mod memory;
