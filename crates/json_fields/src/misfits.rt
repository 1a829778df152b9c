//! Faults with what says where they stand.
ghost use Rattle.std.specs.Prelude.{◌≡◌};
ghost use Rattle.json_fields.specs.Misfits.{at_field};

/// A fault, and the field at which it stands. Its path is made only where it is told.
#[derive(Clone, Copy, Debug, PartialEq, Eq)]
pub struct Misfit<K, F> {
    pub field: K,
    pub fault: F,
}

/// What is read of a field, or its fault there.
pub fn at_field<T, K: Copy, F>(field: K, read: Result<T, F>) -> Result<T, Misfit<K, F>>
    ensures { result ≡ at_field field read }
{
    match read {
        Ok(found) => Ok(found),
        Err(fault) => Err(Misfit { field, fault }),
    }
}
