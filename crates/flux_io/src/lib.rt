//! What crosses the program's edge, behind three traits: bytes that come in, bytes that go out, and whole files.
//! Each object counts its faults, and may tell its bytes, so that a contract can say when a fault is answered
//! and what becomes of the bytes. What the clauses cite stands in `specs/`.
#![tactic(auto)]

mod calls;
mod memory_files;
mod memory_sink;
mod memory_source;
mod std_files;
mod std_sink;
mod std_source;
mod stores;
mod streams;
mod waiting;
mod whole;

pub use memory_files::{MemFiles, SureFiles};
pub use memory_sink::{MemSink, SureSink};
pub use memory_source::{MemSource, SureSource};
pub use std_files::{FileOpener, StdFiles, SystemFiles};
pub use std_sink::StdSink;
pub use std_source::StdSource;
pub use stores::{FileFail, Files, Got};
pub use streams::{Failed, Sink, Source};
pub use waiting::Waiting;
pub use whole::{ReadAllFail, read_all, write_all};
