//! What a graph has free over time, as a search sees it.
ghost use Rattle.std.specs.Prelude.{◌≡◌, ℕ, ◌+◌, ◌<◌, ◌≤◌, IsTrue, List, MatchOption, IfSome, IfNone};
ghost use Rattle.flux_defs.specs.declared.vertices.Vertex.{Vertex};
ghost use Rattle.flux_defs.specs.declared.claims.Window.{Window};
ghost use Rattle.flux_defs.specs.Present.{Present, InEach, bare};
ghost use Rattle.flux_defs.specs.Jobs.{IsPoint, IsNextPoint};
ghost use Rattle.flux_defs.specs.Closed.{IsClosedOver, IsTouchedOver};
ghost use Rattle.flux_defs.specs.Free.{IsFreeOver, IsTotalOver, IsTooLittle, IsTooLittleAt};
ghost use Rattle.flux_defs.specs.Later.{ReachesOver};
ghost use Rattle.flux_defs.specs.Views.{MayBeAsked, Tells, TellsUntil, TellsLittle};

use crate::claims::Window;
use crate::lists::List;
use crate::steps::Steps;
use crate::vertices::Vertex;
use std::sync::ledger::Ledger;

/// A view of a list of vertices and of what stands at a moment: jobs, and vertices that are down. It need not keep
/// them: each answer holds for all that the view stands for. No call takes memory, and each but `is_bare` takes at
/// least one step and at most `cost`.
pub trait FreeView {
    /// The vertices.
    ghost graph: { Self → List Vertex };

    /// The view stands for these jobs and these vertices that are down.
    ghost stands_for: { Self → Present → Type 0 };

    /// The view's filter rules keep a total of this kind (the second number) at this vertex (the first).
    ghost keeps: { Self → ℕ → ℕ → Type 0 };

    /// How many steps a call takes at most.
    ghost cost: { Self → ℕ };

    /// Whether it is known that there are no jobs, and that no vertex is down. It takes no step.
    fn is_bare(&self) -> bool
        ensures bare { IsTrue result → InEach (stands_for self.now) (λ present. present ≡ bare) };

    /// Whether the vertex is closed at some moment of the window: a job holds it or one above it, or one of these is
    /// down.
    fn closed_over<L: Ledger>(&self, vertex: u32, window: Window, steps: &mut Steps<L>) -> bool
        requires asked { MayBeAsked (graph self.now) vertex window }
        ensures answer { Tells (stands_for self.now) (λ present w. IsClosedOver (graph self.now) present w vertex)
            window result }
        ensures some_work { steps.old < steps.new }
        ensures work { steps.new ≤ steps.old + cost self.now };

    /// Until when the vertex is closed, in seconds: at some moment of each window that begins then or before and ends
    /// no sooner than this one. `None` exactly where it isn't at a moment of this one.
    fn closed_until<L: Ledger>(
        &self,
        vertex: u32,
        window: Window,
        steps: &mut Steps<L>,
    ) -> Option<u64>
        requires asked { MayBeAsked (graph self.now) vertex window }
        ensures answer { TellsUntil (stands_for self.now)
            (λ present w. IsClosedOver (graph self.now) present w vertex) window result }
        ensures within { IfSome result (λ m. window.from ≤ m) }
        ensures some_work { steps.old < steps.new }
        ensures work { steps.new ≤ steps.old + cost self.now };

    /// Whether the vertex is touched at some moment of the window: a job has a claim on it or below it, or a vertex
    /// there is down.
    fn touched_over<L: Ledger>(&self, vertex: u32, window: Window, steps: &mut Steps<L>) -> bool
        requires asked { MayBeAsked (graph self.now) vertex window }
        ensures answer { Tells (stands_for self.now) (λ present w. IsTouchedOver (graph self.now) present w vertex)
            window result }
        ensures some_work { steps.old < steps.new }
        ensures work { steps.new ≤ steps.old + cost self.now };

    /// Until when the vertex is touched, in seconds: at some moment of each window that begins then or before and ends
    /// no sooner than this one. `None` exactly where it isn't at a moment of this one.
    fn touched_until<L: Ledger>(
        &self,
        vertex: u32,
        window: Window,
        steps: &mut Steps<L>,
    ) -> Option<u64>
        requires asked { MayBeAsked (graph self.now) vertex window }
        ensures answer { TellsUntil (stands_for self.now)
            (λ present w. IsTouchedOver (graph self.now) present w vertex) window result }
        ensures within { IfSome result (λ m. window.from ≤ m) }
        ensures some_work { steps.old < steps.new }
        ensures work { steps.new ≤ steps.old + cost self.now };

    /// The least that is free of the vertex at a moment of the window.
    fn free_over<L: Ledger>(&self, vertex: u32, window: Window, steps: &mut Steps<L>) -> u64
        requires asked { MayBeAsked (graph self.now) vertex window }
        ensures answer { InEach (stands_for self.now)
            (λ present. IsFreeOver (graph self.now) present window vertex result) }
        ensures some_work { steps.old < steps.new }
        ensures work { steps.new ≤ steps.old + cost self.now };

    /// The least total of the kind, over its vertices at this one or below it, at a moment of the window, were every
    /// vertex up; `None` exactly where the view's filter rules keep no such total.
    fn total_over<L: Ledger>(
        &self,
        vertex: u32,
        kind: u32,
        window: Window,
        steps: &mut Steps<L>,
    ) -> Option<u64>
        requires asked { MayBeAsked (graph self.now) vertex window }
        ensures answer { InEach (stands_for self.now)
            (λ present. IfSome result (IsTotalOver (graph self.now) present window kind vertex)) }
        ensures kept { IfSome result (λ _. keeps self.now vertex kind) }
        ensures unkept { IfNone result (keeps self.now vertex kind → ⊥) }
        ensures some_work { steps.old < steps.new }
        ensures work { steps.new ≤ steps.old + cost self.now };

    /// A moment of the window at which the total of the kind, over its vertices at this one or below it, is below the
    /// amount; `None` exactly where there is none, or the view's filter rules keep no such total.
    fn total_below<L: Ledger>(
        &self,
        vertex: u32,
        kind: u32,
        amount: u64,
        window: Window,
        steps: &mut Steps<L>,
    ) -> Option<u64>
        requires asked { MayBeAsked (graph self.now) vertex window }
        ensures answer { TellsLittle (stands_for self.now) (keeps self.now vertex kind)
            (λ present. IsTooLittle (graph self.now) present window vertex kind amount)
            (λ present. IsTooLittleAt (graph self.now) present vertex kind amount) result }
        ensures within { IfSome result (λ m. (window.from ≤ m) × (m < window.to)) }
        ensures kept { IfSome result (λ _. keeps self.now vertex kind) }
        ensures some_work { steps.old < steps.new }
        ensures work { steps.new ≤ steps.old + cost self.now };

    /// Until when the total of the kind, over its vertices at this one or below it, is below the amount, in seconds: at
    /// some moment of each window that begins then or before and ends no sooner than this one. `None` exactly where it
    /// is so at no moment of this one, or the view's filter rules keep no such total.
    fn total_until<L: Ledger>(
        &self,
        vertex: u32,
        kind: u32,
        amount: u64,
        window: Window,
        steps: &mut Steps<L>,
    ) -> Option<u64>
        requires asked { MayBeAsked (graph self.now) vertex window }
        ensures answer { TellsLittle (stands_for self.now) (keeps self.now vertex kind)
            (λ present. IsTooLittle (graph self.now) present window vertex kind amount)
            (λ present m. (w : Window) → ReachesOver window m w →
            IsTooLittle (graph self.now) present w vertex kind amount) result }
        ensures within { IfSome result (λ m. window.from ≤ m) }
        ensures kept { IfSome result (λ _. keeps self.now vertex kind) }
        ensures some_work { steps.old < steps.new }
        ensures work { steps.new ≤ steps.old + cost self.now };

    /// The least start or end of a job that is later than the moment; `None` exactly where there is none.
    fn next_point<L: Ledger>(&self, after: u64, steps: &mut Steps<L>) -> Option<u64>
        ensures later { IfSome result (λ p. after < p) }
        ensures answer { InEach (stands_for self.now) (λ present. MatchOption result
            ((p : ℕ) → after < p → IsPoint present.jobs p → ⊥) (IsNextPoint present.jobs after)) }
        ensures some_work { steps.old < steps.new }
        ensures work { steps.new ≤ steps.old + cost self.now };
}

/// Vertices with no jobs, all of which are up. It keeps no totals.
#[derive(Clone, Copy)]
pub struct NoJobs<'a> {
    vertices: &'a List<Vertex>,
}

impl<'a> NoJobs<'a> {
    /// The view of these vertices.
    pub fn over(vertices: &'a List<Vertex>) -> NoJobs<'a>
        ensures { result.vertices.now ≡ vertices.now }
    {
        NoJobs { vertices }
    }
}

impl<'a> FreeView for NoJobs<'a> {
    ghost use Rattle.std.specs.Prelude.{◌≡◌};
    ghost use Rattle.flux_defs.specs.Present.{bare};

    ghost graph = { λ view. view.vertices.now };

    ghost stands_for = { λ view present. present ≡ bare };

    ghost keeps = { λ view vertex kind. ⊥ };

    ghost cost = { λ _. 1 };

    fn is_bare(&self) -> bool {
        true
    }

    fn closed_over<L: Ledger>(&self, _vertex: u32, _window: Window, steps: &mut Steps<L>) -> bool {
        steps.tick();
        false
    }

    fn closed_until<L: Ledger>(
        &self,
        _vertex: u32,
        _window: Window,
        steps: &mut Steps<L>,
    ) -> Option<u64> {
        steps.tick();
        None
    }

    fn touched_over<L: Ledger>(&self, _vertex: u32, _window: Window, steps: &mut Steps<L>) -> bool {
        steps.tick();
        false
    }

    fn touched_until<L: Ledger>(
        &self,
        _vertex: u32,
        _window: Window,
        steps: &mut Steps<L>,
    ) -> Option<u64> {
        steps.tick();
        None
    }

    /// All of a pool, and 1 of any other vertex, whose size is 1.
    fn free_over<L: Ledger>(&self, vertex: u32, _window: Window, steps: &mut Steps<L>) -> u64 {
        steps.tick();
        let vertices = self.vertices.items();
        vertices[vertex as usize].size
    }

    fn total_over<L: Ledger>(
        &self,
        _vertex: u32,
        _kind: u32,
        _window: Window,
        steps: &mut Steps<L>,
    ) -> Option<u64> {
        steps.tick();
        None
    }

    fn total_below<L: Ledger>(
        &self,
        _vertex: u32,
        _kind: u32,
        _amount: u64,
        _window: Window,
        steps: &mut Steps<L>,
    ) -> Option<u64> {
        steps.tick();
        None
    }

    fn total_until<L: Ledger>(
        &self,
        _vertex: u32,
        _kind: u32,
        _amount: u64,
        _window: Window,
        steps: &mut Steps<L>,
    ) -> Option<u64> {
        steps.tick();
        None
    }

    fn next_point<L: Ledger>(&self, _after: u64, steps: &mut Steps<L>) -> Option<u64> {
        steps.tick();
        None
    }
}
