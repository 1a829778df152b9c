//! The first of some numbers that pass a test.
ghost use Rattle.std.specs.Prelude.{ℕ, ◌<◌, Bool};
ghost use Rattle.graph_build.specs.Checks.{IsFirstWhere};

/// The first number from `from` on and before `to` of which the test is true.
pub(crate) fn first_where<F: Fn(usize) -> bool>(from: usize, to: usize, test: F) -> Option<usize>
    requires { (v : ℕ) → v < to → F.pre test v }
    ensures { IsFirstWhere (F.post test) from to result }
{
    for v in from..to {
        if test(v) {
            return Some(v);
        }
    }
    None
}
