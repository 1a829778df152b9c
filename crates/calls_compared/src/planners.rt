//! Planners beside plain lists of spans.
ghost use Rattle.std.specs.Prelude.{◌<◌};

use flux_defs::{Steps, Window};
use planner_min_tree::MinTree;
use planner_points::{Planner, Span, SpanList};
use seeded_numbers::Seed;
use std::alloc::{AllocError, Global};
use std::marker::Model;
use std::sync::ledger::Ledger;

/// A tree and a plain list of the same spans.
#[derive(Drop)]
struct Tried {
    tree: MinTree,
    plain: SpanList,
    spans: Vec<Span>,
}

impl Model for Tried {
    ghost use Rattle.std.specs.Prelude.{List};
    ghost use Rattle.planner_points.specs.declared.spans.Span.{Span};
    ghost use Rattle.planner_points.specs.Lists.{AreSame};
    ghost use Rattle.planner_min_tree.specs.Plans.{StandsFor};

    ghost Value = { List Span };

    ghost view = { λ tried. tried.spans.items };

    ghost invariant = { λ tried. StandsFor tried.tree tried.spans.items
        × AreSame tried.plain.spans tried.spans.items };
}

impl Tried {
    fn empty(alloc: Global, total: u64, horizon: u64) -> Result<Tried, AllocError> {
        let tree = MinTree::empty(alloc, total, horizon)?;
        let plain = SpanList::empty(alloc, total, horizon)?;
        Ok(Tried {
            tree,
            plain,
            spans: Vec::new(alloc),
        })
    }

    /// One span more, where it has room in both.
    fn add<L: Ledger>(
        self,
        alloc: Global,
        window: Window,
        quantity: u64,
        steps: &mut Steps<L>,
    ) -> Result<Tried, AllocError>
        requires { window.from < window.to }
    {
        if self.tree.min_over(window, steps) < quantity
            || self.plain.min_over(window, steps) < quantity
        {
            return Ok(self);
        }
        let Tried {
            mut tree,
            mut plain,
            mut spans,
        } = self;
        tree.add_span(alloc, window, quantity, steps)?;
        plain.add_span(alloc, window, quantity, steps)?;
        match spans.push(Span { window, quantity }) {
            Ok(()) => Ok(Tried { tree, plain, spans }),
            Err(_) => Err(AllocError),
        }
    }

    /// The span at a place less, if there is one.
    fn remove<L: Ledger>(
        self,
        alloc: Global,
        at: usize,
        steps: &mut Steps<L>,
    ) -> Result<Tried, AllocError> {
        if at >= self.spans.len() {
            return Ok(self);
        }
        let Tried {
            mut tree,
            mut plain,
            mut spans,
        } = self;
        let span = spans.remove(at);
        tree.remove_span(alloc, span.window, span.quantity, steps)?;
        plain.remove_span(alloc, span.window, span.quantity, steps)?;
        Ok(Tried { tree, plain, spans })
    }
}

impl Tried {
    /// The same spans, of which what is past stands apart in the tree.
    fn settle<L: Ledger>(
        self,
        alloc: Global,
        moment: u64,
        steps: &mut Steps<L>,
    ) -> Result<Tried, AllocError> {
        let Tried {
            mut tree,
            plain,
            spans,
        } = self;
        tree.settle(alloc, moment, steps)?;
        Ok(Tried { tree, plain, spans })
    }
}

/// A window of at most 300 seconds of the first 2,300.
fn window_of(seed: &mut Seed) -> Window
    ensures { result.from < result.to }
{
    let from = seed.below(2000);
    let seconds = seed.below(300);
    Window {
        from,
        to: from + 1 + seconds,
    }
}

/// How many answers of the tree are not those of the list.
fn differing<L: Ledger>(tried: &Tried, seed: &mut Seed, steps: &mut Steps<L>) -> u64 {
    let window = window_of(seed);
    let (from, duration, quantity) = (window.from, 1 + seed.below(400), seed.below(21));
    let least = tried.tree.min_over(window, steps) != tried.plain.min_over(window, steps);
    let next = tried.tree.next_point(from, steps) != tried.plain.next_point(from, steps);
    let first = tried.tree.first_at_least(from, duration, quantity, steps)
        != tried.plain.first_at_least(from, duration, quantity, steps);
    let room = tried.tree.has_room(window, quantity, steps)
        != tried.plain.has_room(window, quantity, steps);
    let last = tried.tree.last_below(window, quantity, steps)
        != tried.plain.last_below(window, quantity, steps);
    let free = tried.tree.first_free(from, quantity, steps)
        != tried.plain.first_free(from, quantity, steps);
    least as u64 + next as u64 + first as u64 + room as u64 + last as u64 + free as u64
}

/// How many answers differ in 2,000 turns, in each of which a span goes in or out, and how many spans stand at the end.
/// Turn by turn the present moment goes on a second, and what is past by then stands apart in the tree.
pub fn compared<L: Ledger>(alloc: Global, steps: &mut Steps<L>) -> Result<(u64, u64), AllocError> {
    let mut tried = Tried::empty(alloc, 20, 3000)?;
    let mut seed = Seed::of(1);
    let mut count = 0u64;
    for moment in 0..2000u64 {
        tried = tried.settle(alloc, moment, steps)?;
        if seed.below(4) == 0 {
            tried = tried.remove(alloc, seed.below(64) as usize, steps)?;
        } else {
            let window = window_of(&mut seed);
            tried = tried.add(alloc, window, seed.below(8), steps)?;
        }
        count = count.wrapping_add(differing(&tried, &mut seed, steps));
    }
    Ok((count, tried.spans.len() as u64))
}

/// What is known of a total of 10 with 6 over the first 50 seconds and 3 from 20 on and before 70: the least of it, of
/// a share of it and of one without the 6; and what is first and next.
pub fn told<L: Ledger>(
    alloc: Global,
    steps: &mut Steps<L>,
) -> Result<([u64; 3], [Option<u64>; 6]), AllocError> {
    let none = Tried::empty(alloc, 10, 100)?;
    let one = none.add(alloc, Window { from: 0, to: 50 }, 6, steps)?;
    let two = one.add(alloc, Window { from: 20, to: 70 }, 3, steps)?;
    let share = two.tree.share()?;
    let found = [
        two.tree.first_at_least(0, 10, 5, steps),
        two.tree.first_at_least(0, 50, 5, steps),
        two.tree.first_at_least(0, 60, 5, steps),
        two.tree.next_point(0, steps),
        two.tree.next_point(50, steps),
        two.tree.next_point(70, steps),
    ];
    let least = two.tree.min_over(Window { from: 0, to: 100 }, steps);
    let less = two.remove(alloc, 0, steps)?;
    let window = Window { from: 0, to: 20 };
    let of_share = share.min_over(window, steps);
    let of_less = less.tree.min_over(window, steps);
    Ok(([least, of_share, of_less], found))
}
