//! The definitions of memory and its calls, of images, rules and runs, computed on worked examples:
//! `proofs/` has them, each a theorem, and there is no code.
#![tactic(auto)]
