//! What the scheduler speaks of: the resource graph, requests and jobs, the journal and its lines.
//! What these words mean stands in `specs/`, one module a subject.
#![tactic(auto)]

pub mod claims;
pub mod desks;
pub mod events;
pub mod gates;
pub mod journal;
pub mod limits;
pub mod lists;
pub mod requests;
pub mod steps;
pub mod texts;
pub mod verdicts;
pub mod vertices;
pub mod views;

pub use claims::{Claim, Job, Window};
pub use desks::Desk;
pub use events::Event;
pub use gates::{Gate, OpenGate, Place};
pub use journal::{ClientLine, Command, Entry, Line, Phase, Reply, Script};
pub use limits::{
    GREATEST_ID, GREATEST_NUMBER, LATEST_HORIZON, Limits, MOST_FILE_BYTES, MOST_LEVELS,
    MOST_NAME_BYTES, MOST_TYPE_BYTES, MOST_TYPES, MOST_UNIT_BYTES, MOST_VERTICES, NO_ID, SHIPPED,
};
pub use lists::List;
pub use requests::{Ask, Need};
pub use steps::Steps;
pub use texts::Text;
pub use verdicts::Verdict;
pub use vertices::Vertex;
pub use views::{FreeView, NoJobs};
