//! Values that stand for a history.
ghost use Rattle.std.specs.Prelude.{◌≡◌, List, length};

/// A value that stands for a list of entries, and has a setting, which is the same of every value of one turn.
pub trait Logged {
    /// What the history is a list of.
    type Entry;

    /// What never changes.
    type Setting;

    // The entries that the value stands for, the oldest first.
    ghost history: { Self → List Self.Entry };

    // The setting of the value.
    ghost setting: { Self → Self.Setting };

    /// How many entries the history has.
    fn count(&self) -> u64
        ensures { result ≡ length (history self.now) };
}
