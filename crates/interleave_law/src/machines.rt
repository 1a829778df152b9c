//! The interleaving machine.
ghost use Rattle.std.specs.Prelude.{◌≡◌, ◌<◌, [], IfOk, IfErr};
ghost use Rattle.flux_defs.specs.declared.events.Event.TheVariants as event;
ghost use Rattle.flux_defs.specs.Interleaving.{first_machine, IsOneHistory};
ghost use Rattle.interleave_law.specs.Machines.{HasProperLines, IsStepOf};

use crate::flights::{Flight, Next, Progress, at_rest, next_of, put, take};
use crate::placing::place;
use flux_defs::{Event, Script, Steps};
use sched_core::{Core, is_searched_for};
use std::alloc::{AllocError, Global};
use std::marker::{Brand, Model};
use std::sync::ledger::{Blank, Ledger};

/// Several clients' lines, played on one scheduler event by event, in any order. Contracts see the scheduler's setting,
/// the script, and the machine of the definitions: one history, and how far each client has come.
#[derive(Drop)]
pub struct Machine {
    pub(crate) alloc: Global,
    pub(crate) core: Core,
    pub(crate) script: Script,
    pub(crate) clients: Vec<Progress>,
}

impl Model for Machine {
    ghost use Rattle.flux_defs.specs.contracts.requests.Need as need;
    ghost use Rattle.std.specs.Coded.{codes};
    ghost use Rattle.interleave_law.specs.Machines.{Interleaved, seen_as, IsRunning};

    ghost Value = { Interleaved };

    ghost coded = { Prim.hlevel (codes, need.the_row.coded) };

    ghost view = { λ m. seen_as m.core m.script m.clients.items };

    ghost invariant = { λ m. IsRunning m.core m.script m.clients.items };
}

impl Machine {
    /// The machine of a script on a scheduler without an entry: no client has done anything. The only error is want of
    /// memory.
    pub fn new(alloc: Global, core: Core, script: Script) -> Result<Machine, AllocError>
        requires empty { core.journal ≡ [] }
        requires proper { HasProperLines core.setting.graph.vertices script }
        ensures setting { IfOk result (λ m. m.setting ≡ core.setting) }
        ensures script { IfOk result (λ m. m.script ≡ script) }
        ensures machine { IfOk result (λ m. m.machine ≡ first_machine script) }
    {
        let count = script.lines.len();
        let clients = at_rest(alloc, count)?;
        Ok(Machine {
            alloc,
            core,
            script,
            clients,
        })
    }

    /// The scheduler. It takes no memory.
    pub fn core(&self) -> &Core
        ensures setting { result.now.setting ≡ self.now.setting }
        ensures journal { result.now.journal ≡ self.now.machine.history }
    {
        &self.core
    }

    /// A law: the history is legal, each history that a client looked at begins it, and each client's part of it
    /// answers the lines that the client has done, in their order. It does nothing.
    pub fn is_one_history(&self)
        ensures { IsOneHistory self.now.setting self.now.script self.now.machine }
    {
        let _ = &self.alloc;
    }

    /// Plays an event. The answer is whether it is open to its client; where it isn't, nothing changed. A look is open
    /// to an idle client whose next line is searched for, a search after a look, a commit after a search, and a
    /// decision to an idle client with a line left. A commit that was overtaken leaves its client idle with its line.
    /// On want of memory, which is the only error, nothing changed.
    pub fn step(&mut self, event: Event) -> Result<bool, AllocError>
        ensures ok { IfOk result (λ is_open. IsStepOf self.old event is_open self.new) }
        ensures err { IfErr result (λ _. self.new ≡ self.old) }
        ensures one { IsOneHistory self.new.setting self.new.script self.new.machine }
    {
        let answer = self.step_counted::<Brand>(event, Blank::new(1));
        self.is_one_history();
        answer
    }

    fn step_counted<L: Ledger>(&mut self, event: Event, blank: Blank) -> Result<bool, AllocError>
        requires name { blank.name ≡ L.name }
        requires parts { blank.parts ≡ L.parts }
        requires some { 0 < blank.parts }
        ensures ok { IfOk result (λ is_open. IsStepOf self.old event is_open self.new) }
        ensures err { IfErr result (λ _. self.new ≡ self.old) }
    {
        let mut steps: Steps<L> = Steps::new(blank);
        match event {
            Event::Look { client } => self.look(client),
            Event::Search { client } => self.search(client, &mut steps),
            Event::Commit { client } => self.commit(client, &mut steps),
            Event::Decide { client } => self.decide(client),
        }
    }

    fn look(&mut self, client: u32) -> Result<bool, AllocError>
        ensures ok { IfOk result (λ is_open. IsStepOf self.old (event.Look client) is_open self.new) }
        ensures err { IfErr result (λ _. self.new ≡ self.old) }
    {
        let Some(Next { progress, line }) = next_of(&self.script, &self.clients, client) else {
            return Ok(false);
        };
        if !progress.is_idle() {
            return Ok(false);
        }
        if !is_searched_for(&line.command) {
            return Ok(false);
        }
        let done = progress.done;
        let snap = self.core.snap()?;
        let flight = Flight::Looked(snap);
        put(&mut self.clients, client, Progress { done, flight });
        Ok(true)
    }

    fn search<L: Ledger>(&mut self, client: u32, steps: &mut Steps<L>) -> Result<bool, AllocError>
        ensures ok { IfOk result (λ is_open. IsStepOf self.old (event.Search client) is_open self.new) }
        ensures err { IfErr result (λ _. self.new ≡ self.old) }
    {
        let Some(Next { progress, line }) = next_of(&self.script, &self.clients, client) else {
            return Ok(false);
        };
        let snap = match &progress.flight {
            Flight::Looked(snap) => snap,
            _ => return Ok(false),
        };
        let done = progress.done;
        let command = line.command.copy(self.alloc)?;
        match Core::search(snap, command, steps) {
            Err((_, fault)) => Err(fault),
            Ok(candidate) => {
                // this call tells what was found
                candidate.is_found();
                let flight = Flight::Searched(candidate);
                put(&mut self.clients, client, Progress { done, flight });
                Ok(true)
            }
        }
    }

    fn commit<L: Ledger>(&mut self, client: u32, steps: &mut Steps<L>) -> Result<bool, AllocError>
        ensures ok { IfOk result (λ is_open. IsStepOf self.old (event.Commit client) is_open self.new) }
        ensures err { IfErr result (λ _. self.new ≡ self.old) }
    {
        let Some(Next { line, .. }) = next_of(&self.script, &self.clients, client) else {
            return Ok(false);
        };
        let number = line.line;
        let Progress { done, flight } = take(&mut self.clients, client);
        let Flight::Searched(candidate) = flight else {
            put(&mut self.clients, client, Progress { done, flight });
            return Ok(false);
        };
        // this call tells that the candidate was searched where it says
        candidate.is_found();
        match place(&mut self.core, client, number, candidate, steps) {
            Ok(false) => Ok(true),
            Ok(true) => {
                put(&mut self.clients, client, Progress::idle(done + 1));
                Ok(true)
            }
            Err((candidate, fault)) => {
                let found = Flight::Searched(candidate);
                put(
                    &mut self.clients,
                    client,
                    Progress {
                        done,
                        flight: found,
                    },
                );
                Err(fault)
            }
        }
    }

    fn decide(&mut self, client: u32) -> Result<bool, AllocError>
        ensures ok { IfOk result (λ is_open. IsStepOf self.old (event.Decide client) is_open self.new) }
        ensures err { IfErr result (λ _. self.new ≡ self.old) }
    {
        let Some(Next { progress, line }) = next_of(&self.script, &self.clients, client) else {
            return Ok(false);
        };
        if !progress.is_idle() {
            return Ok(false);
        }
        let done = progress.done + 1;
        let command = line.command.copy(self.alloc)?;
        match self.core.decide(client, line.line, command) {
            Err((_, fault)) => return Err(fault),
            Ok(_at) => {}
        }
        put(&mut self.clients, client, Progress::idle(done));
        Ok(true)
    }
}
