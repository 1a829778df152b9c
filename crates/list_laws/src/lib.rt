//! Laws of lists, options and tests that several proofs rest on.
#![tactic(auto)]
