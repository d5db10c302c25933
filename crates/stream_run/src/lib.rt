//! A stream of command lines against the host machine: where it is cut, and what is answered. Definitions and their laws.
#![tactic(auto)]
