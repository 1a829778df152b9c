//! Filter rules: of which types totals are kept at which vertices; and where a kept total is too small for a demand.
#![tactic(auto)]

mod amples;
mod items;
pub mod rules;
mod shorts;

pub use amples::TotalsView;
pub use rules::{FilterFault, Rule, Rules};
pub use shorts::{Demand, Shortage, first_short, short_until};
