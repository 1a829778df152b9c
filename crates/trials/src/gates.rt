//! A gate that keeps two clients at places, and knows what they are to tell.
use flux_defs::{Claim, Gate, List, Place};
use std::sync::atomic::{AtomicU64, Ordering};
use std::thread::yield_now;

/// How often a client that is kept looks whether it may go on; each time it lets another thread run first.
const MOST_TURNS: u64 = 20_000_000;

/// What a client is to tell.
#[derive(Clone, Copy)]
pub(crate) enum Telling {
    /// It searched a journal of so many entries, and found this core of the first node.
    Found { length: u64, core: u32 },
    /// It searched a journal of at most so many entries, and found no claims.
    Asked { most: u64 },
    /// What it found was overtaken by this entry.
    Overtaken { at: u64 },
    /// Its line has its entry.
    Placed,
}

/// One place of a client: what it is to tell there, and at how many places the other client is to have been before it
/// goes on.
#[derive(Clone, Copy)]
pub(crate) struct Step {
    pub(crate) telling: Telling,
    pub(crate) after: u64,
}

/// A place where the client isn't kept.
pub(crate) fn go(telling: Telling) -> Step {
    Step { telling, after: 0 }
}

/// A place where the client is kept until the other was at so many.
pub(crate) fn keep(telling: Telling, after: u64) -> Step {
    Step { telling, after }
}

/// A client's places, and at how many of them it was so far.
#[derive(Drop)]
pub(crate) struct Course {
    steps: Vec<Step>,
    passed: AtomicU64,
}

/// Two clients, and whether one told something else or was kept too long.
#[derive(Drop)]
pub(crate) struct Turnstile {
    first: Course,
    second: Course,
    faults: AtomicU64,
}

fn is_core(claims: Option<&List<Claim>>, core: u32) -> bool {
    match claims {
        Some(claims) => {
            claims.items() == [Claim::Pass { vertex: 1 }, Claim::Hold { vertex: core }].as_slice()
        }
        None => false,
    }
}

fn is_told(telling: Telling, place: Place<'_>) -> bool {
    match place {
        Place::Searched { length, claims } => match telling {
            Telling::Found {
                length: wanted,
                core,
            } => length == wanted && is_core(claims, core),
            Telling::Asked { most } => length <= most && claims.is_none(),
            _ => false,
        },
        Place::Overtaken { at } =>
            matches!(telling, Telling::Overtaken { at: wanted } if at == wanted),
        Place::Placed => matches!(telling, Telling::Placed),
    }
}

impl Course {
    fn new(steps: Vec<Step>) -> Course {
        Course {
            steps,
            passed: AtomicU64::new(0),
        }
    }

    fn passed(&self) -> u64 {
        self.passed.load(Ordering::SeqCst)
    }
}

impl Turnstile {
    pub(crate) fn new(first: Vec<Step>, second: Vec<Step>) -> Turnstile {
        Turnstile {
            first: Course::new(first),
            second: Course::new(second),
            faults: AtomicU64::new(0),
        }
    }

    /// Each client told all that it was to tell and nothing else, and none was kept too long.
    pub(crate) fn is_content(&self) -> bool {
        self.first.passed() == self.first.steps.len() as u64
            && self.second.passed() == self.second.steps.len() as u64
            && self.faults.load(Ordering::SeqCst) == 0
    }

    // Keeps a client until the other was at so many places.
    fn wait_for(&self, other: &Course, after: u64) {
        for _ in 0..MOST_TURNS {
            if other.passed() >= after {
                return;
            }
            yield_now();
        }
        self.faults.store(1, Ordering::SeqCst);
    }

    // A client is at its next place.
    fn arrive(&self, own: &Course, other: &Course, place: Place<'_>) {
        let number = own.passed.fetch_add(1, Ordering::SeqCst);
        match own.steps.get(number as usize) {
            Some(step) if is_told(step.telling, place) => self.wait_for(other, step.after),
            _ => self.faults.store(1, Ordering::SeqCst),
        }
    }
}

impl Gate for Turnstile {
    fn at(&self, client: u32, place: Place<'_>) {
        if client == 0 {
            self.arrive(&self.first, &self.second, place);
        } else {
            self.arrive(&self.second, &self.first, place);
        }
    }
}
