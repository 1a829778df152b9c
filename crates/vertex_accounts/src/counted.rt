//! What is counted at each place of a vertex's planners.
ghost use Rattle.std.specs.Prelude.{◌≡◌, ℕ, ◌+◌, ◌*◌, ◌<◌, ◌≤◌, List, [], ◌∷◌, ◌++◌, length, Option, Some, sum_by};
ghost use Rattle.std.specs.Prelude.{slice_get, slice_index_or, IfOk, IfSome, OnOk, IsSome};
ghost use Rattle.std.specs.List.{AllByRecursion};
ghost use Rattle.flux_defs.specs.Jobs.{vertex_of};
ghost use Rattle.prune_filters.specs.Filters.{IsCounted};
ghost use Rattle.vertex_planners.specs.Rows.{places_of, count_all, HaveKeysBelow};
ghost use Rattle.vertex_accounts.specs.Quantities.{total_in, KnowCapacities};
ghost use Rattle.vertex_accounts.specs.declared.quantities.Quantity.{Quantity};
ghost use Rattle.vertex_accounts.specs.declared.quantities.Quantity.TheVariants.{Holds, Claims, Takes};
ghost use Rattle.vertex_accounts.specs.Counts.{AreCounted, AreNumbers, IsPlaceAdded, types_in};
ghost use Rattle.vertex_accounts.specs.Costs.{reach_of};

use crate::capacities::Capacities;
use crate::quantities::Quantity;
use flux_defs::{Claim, List};
use prune_filters::Rules;
use resource_graph::Graph;
use std::alloc::{AllocError, Global};
use vertex_planners::Rows;

/// The place of holds.
pub(crate) const HOLDS: usize = 0;
/// The place of claims.
pub(crate) const CLAIMS: usize = 1;
/// The place of takes.
pub(crate) const TAKES: usize = 2;

/// A quantity for each place of a vertex's planners, and by type the place of its units, where totals of it are kept.
#[derive(Drop)]
pub struct Counted {
    pub(crate) quantities: List<Quantity>,
    pub(crate) places: List<Option<usize>>,
}

impl Counted {
    /// Holds, claims and takes, and the units of the types that the rules name.
    pub(crate) fn new(alloc: Global, graph: &Graph, rules: &Rules) -> Result<Counted, AllocError>
        ensures counted { IfOk result (AreCounted graph.now.resources.vertices) }
        ensures kinds { IfOk result (λ counted. (kind : ℕ) (name : List ℕ) →
            slice_get graph.now.resources.kinds kind ≡ Some name → IsCounted rules.now name →
            (place : ℕ) × (slice_get counted.places kind ≡ Some (Some place))) }
        ensures types { IfOk result (λ counted. types_in counted ≤ length rules.now) }
    {
        graph.is_valid();
        let mut counted = Counted::without_types(alloc)?;
        let mut kind = 0;
        while let Some(name) = graph.kind_name(kind) {
            counted.add_type(alloc, graph, rules, kind, name.bytes())?;
            kind += 1;
        }
        Ok(counted)
    }

    /// Holds, claims and takes.
    fn without_types(alloc: Global) -> Result<Counted, AllocError>
        ensures quantities { IfOk result (λ counted. counted.quantities ≡ Holds ∷ Claims ∷ Takes ∷ []) }
        ensures places { IfOk result (λ counted. counted.places ≡ []) }
    {
        let mut counted = Counted {
            quantities: List::new(alloc),
            places: List::new(alloc),
        };
        counted.push_quantity(Quantity::Holds)?;
        counted.push_quantity(Quantity::Claims)?;
        counted.push_quantity(Quantity::Takes)?;
        Ok(counted)
    }

    /// The next type, whose units have a place if the rules name it.
    fn add_type(
        &mut self,
        alloc: Global,
        graph: &Graph,
        rules: &Rules,
        kind: u32,
        name: &[u8],
    ) -> Result<(), AllocError>
        requires counted { AreCounted graph.now.resources.vertices self.old }
        requires next { length self.old.places ≡ kind }
        ensures counted { OnOk result (AreCounted graph.now.resources.vertices self.new) }
        ensures place { OnOk result (IsPlaceAdded (IsCounted rules.now name.now) self.old.places self.new.places) }
    {
        if !rules.counts(name) {
            self.push_place(None)?;
            return Ok(());
        }
        let place = self.quantities.len();
        let capacities = Capacities::of(alloc, graph, kind)?;
        self.push_quantity(Quantity::Units(capacities))?;
        self.push_place(Some(place))?;
        Ok(())
    }

    /// One place more, of this quantity.
    fn push_quantity(&mut self, quantity: Quantity) -> Result<(), AllocError>
        ensures quantities { OnOk result (self.new.quantities ≡ self.old.quantities ++ quantity ∷ []) }
        ensures places { OnOk result (self.new.places ≡ self.old.places) }
    {
        match self.quantities.push(quantity) {
            Ok(()) => return Ok(()),
            Err((_, refused)) => return Err(refused),
        }
    }

    /// One type more, whose units have this place.
    fn push_place(&mut self, place: Option<usize>) -> Result<(), AllocError>
        ensures quantities { OnOk result (self.new.quantities ≡ self.old.quantities) }
        ensures places { OnOk result (self.new.places ≡ self.old.places ++ place ∷ []) }
    {
        match self.places.push(place) {
            Ok(()) => return Ok(()),
            Err((_, refused)) => return Err(refused),
        }
    }

    /// The place of the type's units, where totals of it are kept.
    pub(crate) fn place_of(&self, kind: u32) -> Option<usize>
        ensures place { IfSome result (λ place. slice_get self.now.places kind ≡ Some (Some place)) }
        ensures kept { (place : ℕ) → slice_get self.now.places kind ≡ Some (Some place) → IsSome result }
    {
        match self.places.get(kind as usize) {
            Some(place) => return *place,
            None => return None,
        }
    }
}

/// What claims amount to, by places and vertices. A sum past the greatest number is answered as want of memory.
pub(crate) fn rows_of(
    alloc: Global,
    graph: &Graph,
    quantities: &[Quantity],
    claims: &[Claim],
) -> Result<Rows, AllocError>
    requires capacities { KnowCapacities graph.now.resources.vertices quantities.now }
    requires on_vertices { AllByRecursion (λ c. vertex_of c < length graph.now.resources.vertices) claims.now }
    ensures numbers { IfOk result
        (λ rows. AreNumbers graph.now.resources.vertices quantities.now claims.now (places_of rows)) }
    ensures keys { IfOk result (λ rows. HaveKeysBelow (length graph.now.resources.vertices) (places_of rows)) }
    ensures few { IfOk result
        (λ rows. count_all (places_of rows) ≤ sum_by reach_of quantities.now * length claims.now) }
{
    let mut rows = Rows::new(alloc);
    for quantity in quantities {
        let amounts = quantity.amounts(alloc, graph, claims)?;
        rows.push(amounts)?;
    }
    Ok(rows)
}

/// All that there is of each quantity at a vertex, by places.
pub(crate) fn totals_at(
    alloc: Global,
    graph: &Graph,
    quantities: &[Quantity],
    vertex: u32,
) -> Result<Vec<u64>, AllocError>
    requires { KnowCapacities graph.now.resources.vertices quantities.now }
    ensures len { IfOk result (λ totals. length totals.items ≡ length quantities.now) }
    ensures totals { IfOk result (λ totals. (k : ℕ) (q : Quantity) → slice_get quantities.now k ≡ Some q →
        slice_index_or totals.items k 0 ≡ total_in graph.now.resources.vertices q vertex) }
{
    let mut totals = Vec::new(alloc);
    for quantity in quantities {
        totals.push(quantity.total(graph, vertex))?;
    }
    Ok(totals)
}
