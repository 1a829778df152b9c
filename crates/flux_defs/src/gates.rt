//! Where a submit may be watched.
use crate::claims::Claim;
use crate::lists::List;

/// How far a submit has come: what it found on how long a journal, which entry overtook that, or that it is done.
#[derive(Clone, Copy, Debug)]
pub enum Place<'a> {
    Searched {
        length: u64,
        claims: Option<&'a List<Claim>>,
    },
    Overtaken {
        at: u64,
    },
    Placed,
}

/// It is told of each client's places. It promises nothing, so no answer can rest on it.
pub trait Gate {
    fn at(&self, client: u32, place: Place<'_>);
}

/// The gate that lets everyone pass.
#[derive(Clone, Copy, Debug)]
pub struct OpenGate;

impl Gate for OpenGate {
    fn at(&self, _client: u32, _place: Place<'_>) {}
}
