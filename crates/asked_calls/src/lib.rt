//! What the words after the program's name ask for.
//!
//! [`calls::read_call`] reads them: to answer the lines of the input over a graph, to write a graph, or to play a load.
//! Words that are none of these forms ask for nothing (`specs/Calls.antt`).
#![tactic(auto)]

pub mod calls;
pub mod laws;
