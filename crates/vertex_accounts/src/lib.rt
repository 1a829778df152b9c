//! What jobs have of a graph over time, by vertices: who holds it, who has a claim on it or below it, what is taken of
//! it, and how much of a type is left at it and below it.
#![tactic(auto)]

mod asking;
mod books;
mod capacities;
mod changing;
mod counted;
mod making;
mod measures;
mod quantities;

pub use books::Accounts;
pub use capacities::Capacities;
pub use counted::Counted;
pub use quantities::Quantity;
