//! Numbers by places and vertices.
ghost use Rattle.std.specs.Prelude.{◌≡◌, ℕ, ◌+◌, ◌<◌, ◌≤◌, List, [], ◌∷◌, ◌++◌, length, Option, Some, None, IfSome};
ghost use Rattle.std.specs.Prelude.{IfNone, IfOk, OnOk, OnErr, IsSome, slice_get, ◌⊎◌};
ghost use Rattle.vertex_planners.specs.Rows.{places_of, count_all, IsLeft, HasNoneLeft, IsRow, IsRowTaken};

use crate::amounts::Amounts;
use flux_defs::List;
use std::alloc::{AllocError, Global};

/// A number for each vertex at each of some places.
#[derive(Drop)]
pub struct Rows {
    pub(crate) places: Vec<Amounts>,
}

impl Rows {
    /// No places. It takes no memory.
    pub fn new(alloc: Global) -> Rows
        ensures { places_of result ≡ [] }
    {
        Rows {
            places: Vec::new(alloc),
        }
    }

    /// One place more, behind the others. Where no memory is left there are those as before.
    pub fn push(&mut self, amounts: Amounts) -> Result<(), AllocError>
        ensures ok { OnOk result (places_of self.new ≡ places_of self.old ++ amounts ∷ []) }
        ensures same { OnErr result (places_of self.new ≡ places_of self.old) }
    {
        match self.places.push(amounts) {
            Ok(()) => Ok(()),
            Err(_) => Err(AllocError),
        }
    }

    /// Takes the numbers of one vertex off that has some, and makes the row of them by place; `None` exactly where no
    /// vertex is left.
    pub(crate) fn pop(&mut self, row: &mut List<u64>) -> Result<Option<u32>, AllocError>
        ensures taken { IfOk result
            (λ found. IfSome found (λ vertex. IsRowTaken (places_of self.old) (places_of self.new) vertex row.new)) }
        ensures none { IfOk result (λ found. IfNone found (HasNoneLeft (places_of self.old))) }
    {
        match last_of(self.places.as_slice()) {
            Some(vertex) => {
                self.take(vertex, row)?;
                return Ok(Some(vertex));
            }
            None => return Ok(None),
        }
    }

    /// Takes the vertex's numbers off, and makes the row of them. It takes no memory where the row has had as many
    /// numbers before.
    fn take(&mut self, vertex: u32, row: &mut List<u64>) -> Result<(), AllocError>
        ensures { OnOk result (IsRow (places_of self.old) (places_of self.new) vertex row.new) }
    {
        clear(row);
        for place in 0..self.places.len() {
            let number = self.places[place].take(vertex);
            match row.push(number) {
                Ok(()) => {}
                Err((_, refused)) => return Err(refused),
            }
        }
        Ok(())
    }
}

/// Takes all numbers off, and keeps their memory.
fn clear(row: &mut List<u64>)
    ensures { row.new ≡ [] }
{
    while let Some(_) = row.pop() {}
}

/// The last vertex for which a number is kept at some place; `None` exactly where there is none.
fn last_of(places: &[Amounts]) -> Option<u32>
    ensures some { IfSome result (IsLeft places.now) }
    ensures none { IfNone result (HasNoneLeft places.now) }
{
    let mut last = None;
    for amounts in places {
        last = later(last, amounts.last());
    }
    last
}

/// The later one of two vertices that may be absent.
fn later(one: Option<u32>, other: Option<u32>) -> Option<u32>
    ensures some { IfSome result (λ v. (one ≡ Some v) ⊎ (other ≡ Some v)) }
    ensures none { IfNone result ((one ≡ None) × (other ≡ None)) }
{
    one.max(other)
}
