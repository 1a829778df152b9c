//! The match of an ask, and whether it has one.
ghost use Rattle.std.specs.Prelude.{◌≡◌, ℕ, ◌+◌, ◌*◌, ◌<◌, ◌≤◌, ◌↔◌, IsTrue, List, length, IfOk, MatchOption};
ghost use Rattle.flux_defs.specs.Needs.{IsProperAsk};
ghost use Rattle.flux_defs.specs.Asks.{SomeFit, IsLowestFirst};
ghost use Rattle.flux_defs.specs.declared.requests.Need.{Need};
ghost use Rattle.flux_defs.specs.Present.{InEach};
ghost use Rattle.std.proofs.Props.{props};
ghost use Rattle.dfu_match.specs.Bars.{BarsAll};
ghost use Rattle.dfu_match.specs.Tables.{needs_all, AreWantedBy, AreDemandsOfAll};
ghost use Rattle.dfu_match.specs.Pairs.{Pair, HasEachOpen, IsRootShort, IsEnoughFor};
ghost use Rattle.dfu_match.specs.Matches.{IsMatched, IsKeptShort};
ghost use Rattle.dfu_match.specs.Rows.{Knows};
ghost use Rattle.resource_graph.specs.NamedGraph.{vertices_of};

use crate::asking::refuted_first;
use crate::bars::bars_all;
use crate::counting::copies;
use crate::demanding::{Kinds, demands_in_full};
use crate::knowing::Known;
use crate::refuting::refuted_known;
use crate::search::Search;
use crate::topmost::write_top;
use crate::wanting::{Wanted, table_of};
use flux_defs::{Ask, Claim, FreeView, List, Steps, Window};
use prune_filters::{Demand, Shortage, first_short};
use resource_graph::Graph;
use std::alloc::{AllocError, Global};
use std::sync::ledger::Ledger;

/// Whether some claims of the ask fit over the window, in seconds, where `view` tells what is free of the graph. It
/// takes no memory. It asks for no totals, and looks at each pair of a need (inner ones too) and a vertex once at most.
pub fn some_fit<F: FreeView, L: Ledger>(
    graph: &Graph,
    view: &F,
    ask: &Ask,
    window: Window,
    steps: &mut Steps<L>,
) -> bool
    requires over { F.graph view.now ≡ vertices_of graph.now }
    requires proper { IsProperAsk (vertices_of graph.now) ask.now }
    requires opens { window.from < window.to }
    ensures answer { InEach (F.stands_for view.now) (λ present. IsTrue result ↔ SomeFit (vertices_of graph.now) present
        ask.now window) }
    ensures work { InEach (F.stands_for view.now) (λ present. let m : ℕ = length (needs_all ask.now.needs) in
        steps.new ≤ steps.old + (m + 2) * (m * length (vertices_of graph.now)) * F.cost view.now) }
{
    let shut = bars_all(graph, ask.barred.items());
    let search = Search {
        graph,
        view,
        needs: &ask.needs,
        wanted: &[],
        barred: &ask.barred,
        shut,
        window,
    };
    copies(&search, &ask.needs, 0, None, 1, steps) > 0
}

/// An ask over a graph, ready for matches over any windows: what its needs demand is worked out once.
#[derive(Drop)]
pub struct Matcher<'a> {
    pub graph: &'a Graph,
    pub ask: &'a Ask,
    /// What the needs demand in full.
    whole: List<Demand>,
    /// What one of each need demands.
    wanted: List<Wanted>,
    /// Whether the ask bars each node.
    shut: bool,
    ghost demands: { AreDemandsOfAll (vertices_of graph.now) ask.now.needs whole } by { Prim.hlevel props },
    ghost few: { length whole ≤ length (needs_all ask.now.needs) },
    ghost tells: { AreWantedBy (vertices_of graph.now) (needs_all ask.now.needs) wanted } by { Prim.hlevel props },
    ghost all: { length wanted ≡ length (needs_all ask.now.needs) },
    ghost shuts: { IsTrue shut → BarsAll (vertices_of graph.now) ask.now.barred },
}

/// What a match over a window comes to.
#[derive(Debug, Drop)]
pub enum Matched {
    /// The lowest-first claims.
    Fits(List<Claim>),
    /// No claims fit: the root's total of this kind is below this amount, which the ask demands in full, at this moment
    /// of the window.
    Short(Shortage),
    /// No claims fit, though no total that is kept at the root is below what the ask demands; nor do any fit over a
    /// window that begins at this second or before and ends no sooner than this one.
    NoFit(u64),
}

impl<'a> Matcher<'a> {
    /// The ask over the graph. The only error is want of memory.
    pub fn of(alloc: Global, graph: &'a Graph, ask: &'a Ask) -> Result<Matcher<'a>, AllocError>
        ensures graph { IfOk result (λ matcher. matcher.graph.now ≡ graph.now) }
        ensures ask { IfOk result (λ matcher. matcher.ask.now ≡ ask.now) }
    {
        graph.is_valid();
        let nodes = graph.kind_of(b"node");
        let kinds = Kinds { graph, nodes };
        let whole = demands_in_full(alloc, &kinds, &ask.needs)?;
        let wanted = table_of(alloc, &kinds, &ask.needs)?;
        let shut = bars_all(graph, ask.barred.items());
        Ok(Matcher {
            graph,
            ask,
            whole,
            wanted,
            shut,
        })
    }

    /// What the match comes to over the window, in seconds, where `view` tells what is free of the graph. The only
    /// error is want of memory. It looks as often as `match_at` at most. How much vertices serve of the need for which
    /// there is no group is known then, to later matches over windows that end no sooner, and isn't asked again while
    /// it is so.
    pub fn over<F: FreeView, L: Ledger>(
        &self,
        alloc: Global,
        view: &F,
        window: Window,
        known: &mut Known,
        steps: &mut Steps<L>,
    ) -> Result<Matched, AllocError>
        requires over { F.graph view.now ≡ vertices_of self.now.graph.now }
        requires proper { IsProperAsk (vertices_of self.now.graph.now) self.now.ask.now }
        requires opens { window.from < window.to }
        requires known { Knows (vertices_of self.now.graph.now) (F.stands_for view.now) self.now.ask.now.barred
            self.now.ask.now.needs window known.old }
        ensures matched { IfOk result (λ matched. InEach (F.stands_for view.now)
            (λ present. IsMatched (vertices_of self.now.graph.now) present (F.keeps view.now) self.now.ask.now window
            matched)) }
        ensures kept { IfOk result (IsKeptShort (F.keeps view.now) window.from) }
        ensures known { Knows (vertices_of self.now.graph.now) (F.stands_for view.now) self.now.ask.now.barred
            self.now.ask.now.needs window known.new }
        ensures work { InEach (F.stands_for view.now) (λ present. (looks : ℕ) →
            IsEnoughFor (vertices_of self.now.graph.now) present window (F.keeps view.now) self.now.ask.now.needs
            looks → steps.new ≤ steps.old + looks * F.cost view.now) }
    {
        self.graph.is_valid();
        match first_short(view, 0, &self.whole, window, steps) {
            Some(shortage) => Ok(Matched::Short(shortage)),
            None => self.walked(alloc, view, window, known, steps),
        }
    }

    /// The same, where no total at the root is too small.
    fn walked<F: FreeView, L: Ledger>(
        &self,
        alloc: Global,
        view: &F,
        window: Window,
        known: &mut Known,
        steps: &mut Steps<L>,
    ) -> Result<Matched, AllocError>
        requires over { F.graph view.now ≡ vertices_of self.now.graph.now }
        requires proper { IsProperAsk (vertices_of self.now.graph.now) self.now.ask.now }
        requires opens { window.from < window.to }
        requires enough { InEach (F.stands_for view.now)
            (λ present. IsRootShort (vertices_of self.now.graph.now) present window (F.keeps view.now)
            self.now.ask.now.needs
            → ⊥) }
        requires known { Knows (vertices_of self.now.graph.now) (F.stands_for view.now) self.now.ask.now.barred
            self.now.ask.now.needs window known.old }
        ensures matched { IfOk result (λ matched. InEach (F.stands_for view.now)
            (λ present. IsMatched (vertices_of self.now.graph.now) present (F.keeps view.now) self.now.ask.now window
            matched)) }
        ensures kept { IfOk result (IsKeptShort (F.keeps view.now) window.from) }
        ensures known { Knows (vertices_of self.now.graph.now) (F.stands_for view.now) self.now.ask.now.barred
            self.now.ask.now.needs window known.new }
        ensures work { InEach (F.stands_for view.now) (λ present. (pairs : List Pair) →
            (let all : List Need = needs_all self.now.ask.now.needs in
            HasEachOpen (vertices_of self.now.graph.now) present window (F.keeps view.now) all pairs →
            steps.new ≤ steps.old + 2 * (length all + 2) * length pairs * F.cost view.now)) }
    {
        let search = Search {
            graph: self.graph,
            view,
            needs: &self.ask.needs,
            wanted: self.wanted.items(),
            barred: &self.ask.barred,
            shut: self.shut,
            window,
        };
        if let Some(until) = refuted_first(&search, known, steps) {
            return Ok(Matched::NoFit(until));
        }
        let mut claims = Vec::new(alloc);
        if !write_top(&search, known, &mut claims, steps)? {
            let until = told_or(refuted_known(&search, known), window.from);
            return Ok(Matched::NoFit(until));
        }
        Ok(Matched::Fits(List::of_vec(claims)))
    }
}

/// The moment that is told, or this one.
fn told_or(told: Option<u64>, from: u64) -> u64
    ensures { MatchOption told (result ≡ from) (λ until. result ≡ until) }
{
    match told {
        None => from,
        Some(until) => until,
    }
}

/// The lowest-first claims of the ask over the window, in seconds, where `view` tells what is free of the graph; `None`
/// exactly where no claims fit (RFC 14's request over RFC 4's graph). The only error is want of memory.
///
/// Where a total at the root is below what the ask demands in full, it looks no further. Else it looks at each pair of
/// a need (inner ones too) and a vertex with no short vertex above it at most twice, and at no other pair.
pub fn match_at<F: FreeView, L: Ledger>(
    alloc: Global,
    graph: &Graph,
    view: &F,
    ask: &Ask,
    window: Window,
    steps: &mut Steps<L>,
) -> Result<Option<List<Claim>>, AllocError>
    requires over { F.graph view.now ≡ vertices_of graph.now }
    requires proper { IsProperAsk (vertices_of graph.now) ask.now }
    requires opens { window.from < window.to }
    ensures found { IfOk result (λ found. InEach (F.stands_for view.now) (λ present. MatchOption found
        (SomeFit (vertices_of graph.now) present ask.now window → ⊥)
        (IsLowestFirst (vertices_of graph.now) present ask.now window))) }
    ensures work { InEach (F.stands_for view.now) (λ present. (looks : ℕ) →
        IsEnoughFor (vertices_of graph.now) present window (F.keeps view.now) ask.now.needs looks →
        steps.new ≤ steps.old + looks * F.cost view.now) }
{
    let matcher = Matcher::of(alloc, graph, ask)?;
    let mut known = Known::never(alloc);
    match matcher.over(alloc, view, window, &mut known, steps)? {
        Matched::Fits(claims) => Ok(Some(claims)),
        Matched::Short(_) => Ok(None),
        Matched::NoFit(_) => Ok(None),
    }
}
