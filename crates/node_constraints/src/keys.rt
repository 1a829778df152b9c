//! The keys of a constraint.
ghost use Rattle.std.specs.Prelude.{◌≡◌};
ghost use Rattle.node_constraints.specs.Truth.{key_of};

/// A key of a constraint, by what the list at it has to be: texts of three kinds, or constraints.
#[derive(Clone, Copy, PartialEq, Eq)]
pub(crate) enum Key {
    Properties,
    Hostlist,
    Ranks,
    And,
    Or,
    Not,
}

/// The key that is called so.
pub(crate) fn key_of(key: &str) -> Option<Key>
    ensures { result ≡ key_of key.now }
{
    match key {
        "properties" => Some(Key::Properties),
        "hostlist" => Some(Key::Hostlist),
        "ranks" => Some(Key::Ranks),
        "and" => Some(Key::And),
        "or" => Some(Key::Or),
        "not" => Some(Key::Not),
        _ => None,
    }
}
