//! Rising lists of the numbers of vertices.
ghost use Rattle.std.specs.Prelude.{IfOk, IfErr};
ghost use Rattle.vertex_planners.specs.RisingNumbers.{Rises, StandsAt, IsGapFor};

/// The number of a vertex.
#[derive(Clone, Copy, Debug)]
pub struct Number {
    pub(crate) vertex: u32,
    pub(crate) amount: u64,
}

/// Where the vertex stands in a rising list, as `Ok`, or where it would stand, as `Err`. Logarithmic in the list; the
/// last vertex and those past it are found at once.
pub(crate) fn find(numbers: &[Number], vertex: u32) -> Result<usize, usize>
    requires { Rises 0 numbers.now }
    ensures here { IfOk result (StandsAt numbers.now vertex) }
    ensures gap { IfErr result (IsGapFor numbers.now vertex) }
{
    match numbers.last() {
        None => return Err(0),
        Some(last) => {
            if last.vertex < vertex {
                return Err(numbers.len());
            }
            if last.vertex == vertex {
                return Ok(numbers.len() - 1);
            }
        }
    }
    search(numbers, vertex)
}

/// The same, by halving the list.
fn search(numbers: &[Number], vertex: u32) -> Result<usize, usize>
    requires { Rises 0 numbers.now }
    ensures here { IfOk result (StandsAt numbers.now vertex) }
    ensures gap { IfErr result (IsGapFor numbers.now vertex) }
{
    let at = numbers.partition_point(|number| number.vertex < vertex);
    if at < numbers.len() && numbers[at].vertex == vertex {
        return Ok(at);
    }
    Err(at)
}
