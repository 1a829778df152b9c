//! Rising lists of numbers.
ghost use Rattle.std.specs.List.Sorted.{IsStrictlyIncreasing};
ghost use Rattle.text_forms.specs.Rising.{IsIndexOf};

/// How many numbers of a rising list are less than `from`: the index of the first one that isn't. Logarithmic in the
/// list.
pub fn index_of(list: &[u32], from: u32) -> usize
    requires { IsStrictlyIncreasing list.now }
    ensures { IsIndexOf list.now from result }
{
    list.partition_point(|v| *v < from)
}
