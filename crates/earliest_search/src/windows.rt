//! Windows of an ask.
ghost use Rattle.std.specs.Prelude.{◌≡◌, ◌<◌, ◌↔◌, IsTrue};
ghost use Rattle.flux_defs.specs.Asks.{CountsWithin, window_of};

use flux_defs::{Ask, Window};

/// Whether the ask's window at the moment isn't empty and ends at the horizon or before; both in seconds.
pub fn counts(horizon: u64, ask: &Ask, at: u64) -> bool
    ensures { IsTrue result ↔ CountsWithin horizon ask.now at }
{
    at < horizon && ask.duration <= horizon - at
}

/// The ask's window at the moment, in seconds.
pub fn window_at(horizon: u64, ask: &Ask, at: u64) -> Window
    requires { CountsWithin horizon ask.now at }
    ensures window { result ≡ window_of horizon ask.now at }
    ensures opens { result.from < result.to }
{
    let to = if ask.duration == 0 {
        horizon
    } else {
        at + ask.duration
    };
    Window { from: at, to }
}
