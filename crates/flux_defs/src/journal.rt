//! Commands, their replies, and the journal's entries.
ghost use Rattle.std.specs.Prelude.{◌≡◌, IfOk};

use crate::claims::Job;
use crate::lists::List;
use crate::requests::Ask;
use crate::texts::Text;
use std::alloc::{AllocError, Global};

/// What a client says in one line.
#[derive(Debug, Drop)]
pub enum Command {
    /// Start the job now.
    Allocate { job: u64, ask: Ask },
    /// Start the job as early as it can be.
    Reserve { job: u64, ask: Ask },
    /// Could the empty graph ever serve this?
    Satisfy { ask: Ask },
    /// Give back what the job has.
    Cancel { job: u64 },
    /// When does the job run?
    Info { job: u64 },
    /// The present moment is now this second.
    Advance { to: u64 },
    /// A line that can't be read, and why.
    Invalid { why: Text },
}

impl Command {
    /// An equal command.
    pub fn copy(&self, alloc: Global) -> Result<Command, AllocError>
        ensures { IfOk result (λ command. command ≡ self.now) }
    {
        match self {
            Command::Allocate { job, ask } => Ok(Command::Allocate {
                job: *job,
                ask: ask.copy(alloc)?,
            }),
            Command::Reserve { job, ask } => Ok(Command::Reserve {
                job: *job,
                ask: ask.copy(alloc)?,
            }),
            Command::Satisfy { ask } => Ok(Command::Satisfy {
                ask: ask.copy(alloc)?,
            }),
            Command::Cancel { job } => Ok(Command::Cancel { job: *job }),
            Command::Info { job } => Ok(Command::Info { job: *job }),
            Command::Advance { to } => Ok(Command::Advance { to: *to }),
            Command::Invalid { why } => Ok(Command::Invalid {
                why: why.copy(alloc)?,
            }),
        }
    }
}

/// Where the present moment stands to a job's time: before its start, within it, or after its end.
#[derive(Clone, Copy, Debug, PartialEq, Eq)]
pub enum Phase {
    Planned,
    Running,
    Ended,
}

/// What the scheduler answers.
#[derive(Debug, Drop)]
pub enum Reply {
    /// The job starts now.
    Allocated(Job),
    /// The job starts later.
    Reserved(Job),
    /// Nothing fits now.
    Busy,
    /// Nothing fits at any start before the horizon.
    NoStart,
    /// The graph without jobs couldn't serve it.
    Unsatisfiable,
    /// It could.
    Satisfiable,
    /// It would end past the horizon.
    TooLong,
    /// The job's id was accepted before.
    Exists,
    /// There is no such job.
    Absent,
    /// The job's claims are given back.
    Cancelled,
    /// The job's phase and its seconds.
    Info { phase: Phase, start: u64, end: u64 },
    /// The present moment.
    Now { at: u64 },
    /// That moment is past.
    Backwards,
    /// That moment is past the horizon.
    Beyond,
    /// The claims of all accepted jobs would be too many.
    Full,
    /// The line can't be read.
    Invalid,
}

/// One entry of the journal: which client's line it answers, counted from 1 over the input, and the answer.
#[derive(Debug, Drop)]
pub struct Entry {
    pub client: u32,
    pub line: u32,
    pub command: Command,
    pub reply: Reply,
}

/// A line of the input: whose it is, its number from 1, and what it says.
#[derive(Debug, Drop)]
pub struct ClientLine {
    pub client: u32,
    pub line: u32,
    pub command: Command,
}

/// A line of one client, with its number from 1 over the whole input.
#[derive(Debug, Drop)]
pub struct Line {
    pub line: u32,
    pub command: Command,
}

/// The clients' names in the order of their first lines, and beside each its lines in order.
#[derive(Debug, Drop)]
pub struct Script {
    pub clients: List<Text>,
    pub lines: List<List<Line>>,
}
