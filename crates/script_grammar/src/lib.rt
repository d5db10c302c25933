//! The grammar of scripts over their tokens, a subset of ECMA-262's, in `specs/`: its derivations as trees, which tokens
//! spell a tree, and what a tree keeps besides.
#![tactic(auto)]
