//! The scheduler of one thread.
ghost use Rattle.std.specs.Prelude.{◌≡◌, ℕ, ◌+◌, ◌<◌, ◌≤◌, length, slice_get, IfOk, IfErr};
ghost use Rattle.std.specs.Option.{option_copied};
ghost use Rattle.std.specs.Arc.{arc_value};
ghost use Rattle.flux_defs.specs.Scheduler.{IsProper, Replies};
ghost use Rattle.flux_defs.specs.Histories.{IsLegal, HasProperCommands};
ghost use Rattle.flux_defs.specs.Verdicts.{Finds, IsSearchable};
ghost use Rattle.flux_defs.specs.Sound.{IsSound, IsSoundThroughout};
ghost use Rattle.sched_core.specs.Courses.{state_of, empty_course, course_in, IsCore};
ghost use Rattle.sched_core.specs.Answered.{IsDecided};
ghost use Rattle.overtaken_check.specs.Costs.{claims_found};
ghost use Rattle.sched_core.specs.Candidates.{IsFor, IsJudged, IsCommitted};
ghost use Rattle.sched_core.specs.Costs.{AddsAtMost, IsToldAtMost, judge_most, append_most, commit_most};
ghost use Rattle.sched_core.specs.SearchCosts.{CourseTakes, last_found, last_in};

use crate::appending::without_book;
use crate::candidates::{Candidate, Commit};
use crate::committing::commit;
use crate::deciding::decide;
use crate::held::{Keeping, Kept, Site};
use crate::remaking::{remade, taken};
use crate::searching::find;
use crate::sharing::shared;
use crate::snaps::Snap;
use book_state::BookState;
use flux_defs::{Command, Entry, Steps, Verdict};
use prune_filters::Rules;
use resource_graph::Graph;
use snapshot_store::Pages;
use std::alloc::{AllocError, Global};
use std::marker::{Brand, Model};
use std::sync::Arc;
use std::sync::ledger::{Blank, Ledger};

/// The scheduler of one thread: each command gets its reply in the state that the journal leaves, and one entry of
/// the journal. Contracts see its setting (graph, filter rules, horizon in seconds, limit of claims), which never
/// changes, and its journal.
#[derive(Drop)]
pub struct Core {
    site: Site,
    keeping: Keeping,
}

impl Model for Core {
    ghost use Rattle.flux_defs.specs.contracts.requests.Need as need;
    ghost use Rattle.std.specs.Coded.{codes};
    ghost use Rattle.sched_core.specs.Courses.{Course, course_at, IsKeptAt};

    ghost Value = { Course };

    ghost coded = { Prim.hlevel (codes, need.the_row.coded) };

    ghost view = { λ c. course_at c.site c.keeping };

    ghost invariant = { λ c. IsKeptAt c.site c.keeping };
}

/// The same of what is kept at a site, which stays as it is.
fn snap_of(site: &Site, kept: &Kept) -> Result<Snap, AllocError>
    requires { IsCore site.now kept.now }
    ensures { IfOk result (λ snap. snap ≡ course_in site.now kept.now) }
{
    let (site, kept) = shared(site, kept)?;
    Ok(Snap {
        core: Core {
            site,
            keeping: Keeping::Whole(kept),
        },
    })
}

impl Core {
    /// The scheduler over a graph, with filter rules, a horizon in seconds and a limit of claims: its journal is empty.
    pub fn new(
        alloc: Global,
        graph: Arc<Graph, Global>,
        rules: Rules,
        horizon: u64,
        claims: u64,
    ) -> Result<Core, AllocError>
        ensures { IfOk result (λ core. core ≡ empty_course (arc_value graph).resources rules horizon claims) }
    {
        // this call tells that the graph is valid
        graph.is_valid();
        let book = BookState::new(alloc, Arc::try_clone(&graph)?, rules, horizon)?;
        Ok(Core {
            site: Site {
                alloc,
                graph,
                horizon,
                claim_limit: claims,
            },
            keeping: Keeping::Whole(Kept {
                journal: Pages::empty(),
                book,
                claim_count: 0,
            }),
        })
    }

    /// How many entries the journal has. It takes no memory.
    pub fn len(&self) -> u64
        ensures { result ≡ length self.now.journal }
    {
        self.entries().len()
    }

    /// The present moment, in seconds. It takes no memory.
    pub fn now(&self) -> u64
        ensures { result ≡ (state_of self.now).moment }
    {
        match &self.keeping {
            Keeping::Whole(kept) => kept.book.now(),
            Keeping::Remains(left) => left.moment,
            Keeping::Nothing => unreachable!(),
        }
    }

    /// The entry at a place from 0, and `None` exactly from the journal's end on. It takes no memory.
    pub fn entry(&self, at: u64) -> Option<&Entry>
        ensures { option_copied result ≡ slice_get self.now.journal at }
    {
        self.entry_counted::<Brand>(at, Blank::new(1))
    }

    fn entry_counted<L: Ledger>(&self, at: u64, blank: Blank) -> Option<&Entry>
        requires name { blank.name ≡ L.name }
        requires parts { blank.parts ≡ L.parts }
        requires some { 0 < blank.parts }
        ensures { option_copied result ≡ slice_get self.now.journal at }
    {
        let mut steps: Steps<L> = Steps::new(blank);
        self.entries().get(at, &mut steps)
    }

    /// The journal's entries, in order. It takes no memory.
    pub fn entries(&self) -> &Pages<Entry>
        ensures { result.now ≡ self.now.journal }
    {
        match &self.keeping {
            Keeping::Whole(kept) => &kept.journal,
            Keeping::Remains(left) => &left.journal,
            Keeping::Nothing => unreachable!(),
        }
    }

    /// The same setting and journal, which stay as they are when this scheduler goes on. It costs as little for a long
    /// journal as for a short one.
    pub fn snap(&self) -> Result<Snap, AllocError>
        ensures { IfOk result (λ snap. snap ≡ self.now) }
    {
        match &self.keeping {
            Keeping::Whole(kept) => snap_of(&self.site, kept),
            Keeping::Remains(left) => {
                let kept = remade(&self.site, left)?;
                snap_of(&self.site, &kept)
            }
            Keeping::Nothing => unreachable!(),
        }
    }

    /// The same, whose book is given up. It takes no memory.
    pub(crate) fn without_book(self) -> Core
        ensures { result ≡ self }
    {
        let Core { site, keeping } = self;
        let keeping = match keeping {
            Keeping::Whole(kept) => Keeping::Remains(without_book(kept)),
            other => other,
        };
        Core { site, keeping }
    }

    /// What is found of the command in this state. A scheduler without its book answers want of memory, the only error.
    fn found<L: Ledger>(
        &self,
        command: &Command,
        steps: &mut Steps<L>,
    ) -> Result<Verdict, AllocError>
        requires searchable { IsSearchable command.now }
        requires proper { IsProper self.now.setting.graph.vertices command.now }
        ensures found { IfOk result (Finds self.now.setting (state_of self.now) command.now) }
        ensures work { CourseTakes self.now command.now (last_in self.now.setting.horizon result) steps.old steps.new }
    {
        match &self.keeping {
            Keeping::Whole(kept) => find(&self.site, kept, command, steps),
            Keeping::Remains(_) | Keeping::Nothing => Err(AllocError),
        }
    }

    /// What is found of a command in the state of a snapshot; room for the claims is left aside. On want of memory,
    /// which is the only error, the command comes back. It looks for the id, at whether the ask fits the graph with no
    /// jobs, and at the match at each moment that it tries.
    pub fn search<L: Ledger>(
        snap: &Snap,
        command: Command,
        steps: &mut Steps<L>,
    ) -> Result<Candidate, (Command, AllocError)>
        requires searchable { IsSearchable command }
        requires proper { IsProper snap.now.setting.graph.vertices command }
        ensures ok { IfOk result (λ c. (c.command ≡ command) × (c.snap ≡ snap.now)) }
        ensures err { IfErr result (λ e. e.0 ≡ command) }
        ensures work { CourseTakes snap.now command (last_found snap.now.setting.horizon result) steps.old steps.new }
    {
        match snap.core.snap() {
            Ok(same) => Core::search_all(same, command, steps),
            Err(fault) => Err((command, fault)),
        }
    }

    /// The same of a snapshot that the candidate keeps, so that no other holds what it holds.
    pub fn search_all<L: Ledger>(
        snap: Snap,
        command: Command,
        steps: &mut Steps<L>,
    ) -> Result<Candidate, (Command, AllocError)>
        requires searchable { IsSearchable command }
        requires proper { IsProper snap.setting.graph.vertices command }
        ensures ok { IfOk result (λ c. (c.command ≡ command) × (c.snap ≡ snap)) }
        ensures err { IfErr result (λ e. e.0 ≡ command) }
        ensures work { CourseTakes snap command (last_found snap.setting.horizon result) steps.old steps.new }
    {
        let place = snap.len();
        match snap.core.found(&command, steps) {
            Err(fault) => Err((command, fault)),
            Ok(verdict) => Ok(Candidate {
                command,
                snap,
                place,
                verdict,
            }),
        }
    }

    /// Appends the entry of an older candidate's command, with the reply of a fresh decision, unless something overtook
    /// the candidate since: then it comes back with the cause, and nothing is changed. On want of memory, which is the
    /// only error, it comes back too, and nothing is changed. It costs by the candidate's claims, the filter
    /// rules and the entries since the search, whatever the graph's size.
    pub fn commit<L: Ledger>(
        &mut self,
        client: u32,
        line: u32,
        candidate: Candidate,
        steps: &mut Steps<L>,
    ) -> Result<Commit, (Candidate, AllocError)>
        requires candidate { IsFor self.old candidate }
        ensures ok { IfOk result (IsCommitted self.old self.new client line candidate) }
        ensures err { IfErr result (λ e. (self.new ≡ self.old) × (e.0 ≡ candidate)) }
        ensures work { steps.new ≤ steps.old + commit_most self.old candidate }
        ensures legal { IsLegal self.new.setting self.new.journal }
        ensures sound { IsSoundThroughout self.new.setting.graph.vertices self.new.journal }
    {
        let answer = self.commit_entry(client, line, candidate, steps);
        self.is_sound();
        answer
    }

    fn commit_entry<L: Ledger>(
        &mut self,
        client: u32,
        line: u32,
        candidate: Candidate,
        steps: &mut Steps<L>,
    ) -> Result<Commit, (Candidate, AllocError)>
        requires candidate { IsFor self.old candidate }
        ensures ok { IfOk result (IsCommitted self.old self.new client line candidate) }
        ensures err { IfErr result (λ e. (self.new ≡ self.old) × (e.0 ≡ candidate)) }
        ensures work { steps.new ≤ steps.old + commit_most self.old candidate }
    {
        match taken(&self.site, &mut self.keeping) {
            Err(fault) => Err((candidate, fault)),
            Ok(kept) => {
                let (keeping, answer) = commit(&self.site, kept, client, line, candidate, steps);
                self.keeping = keeping;
                answer
            }
        }
    }

    /// A law: the journal is a legal history of proper commands, and after each of its entries no vertex is
    /// oversubscribed. It does nothing.
    pub fn is_sound(&self)
        ensures legal { IsLegal self.now.setting self.now.journal }
        ensures proper { HasProperCommands self.now.setting.graph.vertices self.now.journal }
        ensures throughout { IsSoundThroughout self.now.setting.graph.vertices self.now.journal }
        ensures sound { IsSound self.now.setting.graph.vertices (state_of self.now).jobs }
    {
        let _ = &self.site.claim_limit;
    }

    /// Appends the entry of a command, with the scheduler's reply, and answers its place. On want of memory, which is
    /// the only error, the command comes back and nothing is changed.
    pub fn decide(
        &mut self,
        client: u32,
        line: u32,
        command: Command,
    ) -> Result<u64, (Command, AllocError)>
        requires proper { IsProper self.old.setting.graph.vertices command }
        ensures place { IfOk result (λ at. at ≡ length self.old.journal) }
        ensures decided { IfOk result (λ _. IsDecided self.old self.new client line command) }
        ensures err { IfErr result (λ e. (self.new ≡ self.old) × (e.0 ≡ command)) }
        ensures legal { IsLegal self.new.setting self.new.journal }
        ensures sound { IsSoundThroughout self.new.setting.graph.vertices self.new.journal }
    {
        let answer = self.decide_counted::<Brand>(client, line, command, Blank::new(1));
        self.is_sound();
        answer
    }

    fn decide_counted<L: Ledger>(
        &mut self,
        client: u32,
        line: u32,
        command: Command,
        blank: Blank,
    ) -> Result<u64, (Command, AllocError)>
        requires proper { IsProper self.old.setting.graph.vertices command }
        requires name { blank.name ≡ L.name }
        requires parts { blank.parts ≡ L.parts }
        requires some { 0 < blank.parts }
        ensures place { IfOk result (λ at. at ≡ length self.old.journal) }
        ensures decided { IfOk result (λ _. IsDecided self.old self.new client line command) }
        ensures err { IfErr result (λ e. (self.new ≡ self.old) × (e.0 ≡ command)) }
    {
        let mut steps: Steps<L> = Steps::new(blank);
        let at = self.len();
        match taken(&self.site, &mut self.keeping) {
            Err(fault) => Err((command, fault)),
            Ok(kept) => match decide(&self.site, kept, client, line, command, &mut steps) {
                Ok(next) => {
                    self.keeping = Keeping::Whole(next);
                    Ok(at)
                }
                Err((keeping, command)) => {
                    self.keeping = keeping;
                    Err((command, AllocError))
                }
            },
        }
    }
}
