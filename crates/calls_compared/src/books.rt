//! Books of jobs in shared trees beside plain lists of jobs.
ghost use Rattle.std.specs.Prelude.{◌≡◌, ◌<◌, length};
ghost use Rattle.std.specs.Arc.{arc_value};
ghost use Rattle.book_state.specs.Books.{vertices_of};

use crate::adding::may_add;
use book_state::BookState;
use flux_defs::{Claim, FreeView, Job, List, Steps, Window};
use graph_json::read_graph;
use plain_jobs::PlainJobs;
use plain_jobs::containment::is_at_or_below;
use prune_filters::Rules;
use resource_graph::Graph;
use seeded_numbers::Seed;
use std::alloc::{AllocError, Global};
use std::marker::Model;
use std::sync::Arc;
use std::sync::ledger::Ledger;

/// A cluster over two racks of two nodes each; a node has two cores and a memory of 4.
const GRAPH: &str =
    r#"{"graph":{"nodes":[{"id":"c","metadata":{"type":"cluster","id":0}},{"id":"r0","metadata":{"type":"rack","id":0}},{"id":"n0","metadata":{"type":"node","id":0}},{"id":"n0.0","metadata":{"type":"core","id":0}},{"id":"n0.1","metadata":{"type":"core","id":1}},{"id":"n0.m","metadata":{"type":"memory","id":0,"size":4,"unit":"GB"}},{"id":"n1","metadata":{"type":"node","id":1}},{"id":"n1.0","metadata":{"type":"core","id":0}},{"id":"n1.1","metadata":{"type":"core","id":1}},{"id":"n1.m","metadata":{"type":"memory","id":0,"size":4,"unit":"GB"}},{"id":"r1","metadata":{"type":"rack","id":1}},{"id":"n2","metadata":{"type":"node","id":2}},{"id":"n2.0","metadata":{"type":"core","id":0}},{"id":"n2.1","metadata":{"type":"core","id":1}},{"id":"n2.m","metadata":{"type":"memory","id":0,"size":4,"unit":"GB"}},{"id":"n3","metadata":{"type":"node","id":3}},{"id":"n3.0","metadata":{"type":"core","id":0}},{"id":"n3.1","metadata":{"type":"core","id":1}},{"id":"n3.m","metadata":{"type":"memory","id":0,"size":4,"unit":"GB"}}],"edges":[{"source":"c","target":"r0"},{"source":"r0","target":"n0"},{"source":"n0","target":"n0.0"},{"source":"n0","target":"n0.1"},{"source":"n0","target":"n0.m"},{"source":"r0","target":"n1"},{"source":"n1","target":"n1.0"},{"source":"n1","target":"n1.1"},{"source":"n1","target":"n1.m"},{"source":"c","target":"r1"},{"source":"r1","target":"n2"},{"source":"n2","target":"n2.0"},{"source":"n2","target":"n2.1"},{"source":"n2","target":"n2.m"},{"source":"r1","target":"n3"},{"source":"n3","target":"n3.0"},{"source":"n3","target":"n3.1"},{"source":"n3","target":"n3.m"}]}}"#;

/// Rules that keep totals, as texts.
const RULES: [&[u8]; 4] = [b"ALL:core", b"ALL:core,cluster:node", b"ALL:memory", b"x:y"];

/// The second at which time ends.
const HORIZON: u64 = 40;

/// A book over a graph, and the jobs that it stands for.
#[derive(Drop)]
struct Tried {
    graph: Arc<Graph, Global>,
    book: BookState,
    jobs: List<Job>,
}

impl Model for Tried {
    ghost use Rattle.std.specs.Prelude.{List, ◌≡◌};
    ghost use Rattle.std.specs.Arc.{arc_value};
    ghost use Rattle.flux_defs.specs.declared.claims.Job.{Job};
    ghost use Rattle.book_state.specs.Books.{graph_of, horizon_of, StandsFor};

    ghost Value = { List Job };

    ghost view = { λ tried. tried.jobs };

    ghost invariant = { λ tried. StandsFor tried.book tried.jobs
        × (graph_of tried.book ≡ arc_value tried.graph) × (horizon_of tried.book ≡ 40) };
}

impl Tried {
    fn empty(alloc: Global, graph: Arc<Graph, Global>, rules: Rules) -> Result<Tried, AllocError> {
        let book = BookState::new(alloc, Arc::try_clone(&graph)?, rules, HORIZON)?;
        Ok(Tried {
            graph,
            book,
            jobs: List::new(alloc),
        })
    }

    /// One job more, where it may be added.
    fn add<L: Ledger>(
        self,
        alloc: Global,
        job: Job,
        at: u64,
        steps: &mut Steps<L>,
    ) -> Result<Tried, AllocError> {
        if !may_add(&self.book, &self.graph, HORIZON, &job, steps) {
            return Ok(self);
        }
        let Tried {
            graph,
            book,
            mut jobs,
        } = self;
        let book = book.into_added(alloc, &job, at, steps)?;
        match jobs.push(job) {
            Ok(()) => Ok(Tried { graph, book, jobs }),
            Err((_, refused)) => Err(refused),
        }
    }

    /// The job at a place less, if there is one.
    fn remove<L: Ledger>(
        self,
        alloc: Global,
        at: usize,
        steps: &mut Steps<L>,
    ) -> Result<Tried, AllocError> {
        if at >= self.jobs.len() {
            return Ok(self);
        }
        let Tried { graph, book, jobs } = self;
        let mut left = jobs.into_vec();
        let job = left.remove(at);
        let book = book.after_remove(alloc, &job, steps)?;
        Ok(Tried {
            graph,
            book,
            jobs: List::of_vec(left),
        })
    }
}

/// A window of at most 8 seconds of the first 40.
fn window_of(seed: &mut Seed) -> Window
    ensures { result.from < result.to }
{
    let from = seed.below(32);
    let seconds = seed.below(8);
    Window {
        from,
        to: from.saturating_add(seconds).saturating_add(1),
    }
}

/// A claim on some vertex: of a memory a take, of another one a hold or a pass.
fn claim_of(seed: &mut Seed, graph: &Graph) -> Claim {
    let vertex = u32::try_from(seed.below(u64::from(graph.len()))).unwrap_or(0);
    let size = match graph.vertices().get(vertex as usize) {
        Some(found) => found.size,
        None => 0,
    };
    if size > 1 {
        return Claim::Take {
            vertex,
            quantity: seed.below(4),
        };
    }
    if seed.below(3) == 0 {
        return Claim::Hold { vertex };
    }
    Claim::Pass { vertex }
}

/// A job of at most four claims.
fn job_of(alloc: Global, seed: &mut Seed, id: u64, graph: &Graph) -> Result<Job, AllocError> {
    let window = window_of(seed);
    let mut claims = Vec::new(alloc);
    for _ in 0..1 + seed.below(4) {
        claims.push(claim_of(seed, graph))?;
    }
    Ok(Job {
        id,
        start: window.from,
        end: window.to,
        claims: List::of_vec(claims),
    })
}

/// Whether the rules of this number keep a total of the lower type at vertices of the higher one.
fn keeps(rules: usize, high: &[u8], low: &[u8]) -> bool {
    match rules {
        0 => low == b"core".as_slice(),
        1 => {
            low == b"core".as_slice() || high == b"cluster".as_slice() && low == b"node".as_slice()
        }
        2 => low == b"memory".as_slice(),
        _ => false,
    }
}

/// What is free of the type at the vertex and below it in one second, summed vertex by vertex over the plain list.
fn free_in<L: Ledger>(
    graph: &Graph,
    plain: &PlainJobs,
    vertex: u32,
    kind: u32,
    second: Window,
    steps: &mut Steps<L>,
) -> u64
    requires graph { plain.now.graph.now ≡ graph.now }
    requires window { second.from < second.to }
{
    let mut sum = 0u64;
    for (lower, found) in graph.vertices().items().iter().enumerate() {
        let lower = lower as u32;
        if found.kind == kind && is_at_or_below(graph, lower, vertex) {
            sum = sum.wrapping_add(plain.free_over(lower, second, steps));
        }
    }
    sum
}

/// The least of these sums over the seconds of the window.
fn least_free<L: Ledger>(
    graph: &Graph,
    plain: &PlainJobs,
    vertex: u32,
    kind: u32,
    window: Window,
    steps: &mut Steps<L>,
) -> u64
    requires graph { plain.now.graph.now ≡ graph.now }
{
    let mut least = u64::MAX;
    for from in window.from..window.to {
        let second = Window { from, to: from + 1 };
        least = least.min(free_in(graph, plain, vertex, kind, second, steps));
    }
    least
}

/// What the plain list has as the least total of the type at the vertex, where the rules of this number keep it.
fn total_of<L: Ledger>(
    graph: &Graph,
    plain: &PlainJobs,
    rules: usize,
    vertex: u32,
    kind: u32,
    window: Window,
    steps: &mut Steps<L>,
) -> Option<u64>
    requires graph { plain.now.graph.now ≡ graph.now }
{
    let high = graph.kind_name(graph.vertices().get(vertex as usize)?.kind)?;
    let low = graph.kind_name(kind)?;
    if !keeps(rules, high.bytes(), low.bytes()) {
        return None;
    }
    Some(least_free(graph, plain, vertex, kind, window, steps))
}

/// How many answers of the book about a vertex over a window are not those of the plain list.
fn differing<L: Ledger>(
    tried: &Tried,
    rules: usize,
    vertex: u32,
    window: Window,
    steps: &mut Steps<L>,
) -> u64
    requires window { window.from < window.to }
{
    let graph: &Graph = &tried.graph;
    if vertex >= graph.len() {
        return 1;
    }
    let book = &tried.book;
    let plain = PlainJobs::over(graph, &tried.jobs);
    let closed = book.closed_over(vertex, window, steps)
        != plain.closed_over(vertex, window, steps);
    let touched = book.touched_over(vertex, window, steps)
        != plain.touched_over(vertex, window, steps);
    let free = book.free_over(vertex, window, steps) != plain.free_over(vertex, window, steps);
    let next = book.next_point(window.from, steps) != plain.next_point(window.from, steps);
    let mut count = closed as u64 + touched as u64 + free as u64 + next as u64;
    for kind in 0..6u32 {
        let told = book.total_over(vertex, kind, window, steps);
        let total = total_of(graph, &plain, rules, vertex, kind, window, steps);
        count = count.wrapping_add((told != total) as u64);
        count = count.wrapping_add(wrongly_below(book, vertex, kind, total, window, steps));
    }
    count
}

/// For how many amounts up to 17 the book is wrong about whether the total is below; none is kept where it is `None`.
fn wrongly_below<L: Ledger>(
    book: &BookState,
    vertex: u32,
    kind: u32,
    total: Option<u64>,
    window: Window,
    steps: &mut Steps<L>,
) -> u64
    requires vertex { vertex < length (vertices_of book.now) }
    requires window { window.from < window.to }
{
    let mut count = 0u64;
    for amount in 0..18u64 {
        let below = match total {
            None => false,
            Some(total) => total < amount,
        };
        let wrong = wrong_below(book, vertex, kind, amount, below, window, steps);
        count = count.wrapping_add(wrong as u64);
    }
    count
}

/// Whether the book is wrong about the total being below the amount: it tells a moment where it isn't, or none where it
/// is, or one at which it isn't.
fn wrong_below<L: Ledger>(
    book: &BookState,
    vertex: u32,
    kind: u32,
    amount: u64,
    below: bool,
    window: Window,
    steps: &mut Steps<L>,
) -> bool
    requires vertex { vertex < length (vertices_of book.now) }
    requires window { window.from < window.to }
{
    let Some(moment) = book.total_below(vertex, kind, amount, window, steps) else {
        return below;
    };
    let second = Window {
        from: moment,
        to: moment + 1,
    };
    match book.total_over(vertex, kind, second, steps) {
        None => true,
        Some(total) => !below || total >= amount,
    }
}

/// How many answers differ in a script of 300 turns, in each of which a job goes in, where it may, or out; and how many
/// went in.
fn script<L: Ledger>(
    alloc: Global,
    graph: Arc<Graph, Global>,
    rules: usize,
    text: &[u8],
    steps: &mut Steps<L>,
) -> Result<(u64, u64), AllocError> {
    let Ok(read) = Rules::read(alloc, text) else {
        return Err(AllocError);
    };
    let vertices = graph.len();
    let mut tried = Tried::empty(alloc, graph, read)?;
    let mut seed = Seed::of(rules as u64);
    let (mut count, mut added) = (0u64, 0u64);
    for turn in 0..300u64 {
        if seed.below(3) == 0 {
            tried = tried.remove(alloc, seed.below(16) as usize, steps)?;
        } else {
            let job = job_of(alloc, &mut seed, turn, &tried.graph)?;
            let before = tried.jobs.len();
            tried = tried.add(alloc, job, turn, steps)?;
            added = added.wrapping_add((tried.jobs.len() > before) as u64);
        }
        let vertex = u32::try_from(seed.below(u64::from(vertices))).unwrap_or(0);
        let window = window_of(&mut seed);
        count = count.wrapping_add(differing(&tried, rules, vertex, window, steps));
    }
    Ok((count, added))
}

/// For each text of rules, how many answers differ and how many jobs went in.
pub fn compared<L: Ledger>(
    alloc: Global,
    steps: &mut Steps<L>,
) -> Result<[(u64, u64); 4], AllocError> {
    let Ok(read) = read_graph(alloc, GRAPH.as_bytes()) else {
        return Err(AllocError);
    };
    let graph = Arc::new(alloc, read)?;
    let mut told = [(0u64, 0u64); 4];
    for (rules, text) in RULES.iter().enumerate() {
        told[rules] = script(alloc, Arc::try_clone(&graph)?, rules, text, steps)?;
    }
    Ok(told)
}
