//! Changes of items.
ghost use Rattle.std.specs.Prelude.{ℕ, ◌+◌, ◌≤◌, OnOk};

use flux_defs::Steps;
use std::alloc::{AllocError, Global};
use std::sync::ledger::Ledger;

/// What is done to an item of a list where it stands.
pub trait Change<T> {
    /// What has to be so of the item.
    ghost fits: { Self → T → Type 0 };

    /// What it makes of the item.
    ghost makes: { Self → T → T → Type 0 };

    /// A number of steps that is enough for the item.
    ghost takes: { Self → T → ℕ → Type 0 };

    /// Changes the item. Where no memory is left nothing is known of it any more.
    fn make<L: Ledger>(
        &self,
        alloc: Global,
        item: &mut T,
        steps: &mut Steps<L>,
    ) -> Result<(), AllocError>
        requires { fits self.now item.old }
        ensures made { OnOk result (makes self.now item.old item.new) }
        ensures work { (most : ℕ) → takes self.now item.old most → steps.new ≤ steps.old + most };
}
