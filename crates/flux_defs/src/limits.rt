//! How much is taken: of a graph, of numbers and names, and of an input.
ghost use Rattle.std.specs.Prelude.{◌≡◌};
ghost use Rattle.flux_defs.specs.declared.limits.TheConstants.{SHIPPED};

/// The most vertices of a graph.
pub const MOST_VERTICES: usize = 65_536;
/// The most types of a graph.
pub const MOST_TYPES: usize = 256;
/// The greatest size of a vertex, count of a request, and whole number of a field.
pub const GREATEST_NUMBER: u64 = 70_368_744_177_664;
/// The most bytes of a name.
pub const MOST_NAME_BYTES: usize = 255;
/// The most bytes of the name of a type.
pub const MOST_TYPE_BYTES: usize = 64;
/// The most bytes of a unit, each of which is a character.
pub const MOST_UNIT_BYTES: usize = 64;
/// The most vertices from the root of a graph to one of its vertices, both counted.
pub const MOST_LEVELS: usize = 16;
/// The number of 32 bits that is no id and no rank.
pub const NO_ID: u32 = 4_294_967_295;
/// The greatest id and rank.
pub const GREATEST_ID: u64 = NO_ID as u64 - 1;
/// The latest second at which time may end.
pub const LATEST_HORIZON: u64 = 1_099_511_627_776;
/// The most bytes of a graph file and of an input.
pub const MOST_FILE_BYTES: u64 = 268_435_456;

/// The most lines, bytes of a line, clients, barred nodes over all lines, and claims of all accepted jobs.
#[derive(Clone, Copy, Debug, PartialEq, Eq)]
pub struct Limits {
    pub lines: u64,
    pub line_bytes: u64,
    pub clients: u64,
    pub barred: u64,
    pub claims: u64,
}

/// The limits that the program runs with.
pub const SHIPPED: Limits = Limits {
    lines: 262_144,
    line_bytes: 1_048_576,
    clients: 64,
    barred: 67_108_864,
    claims: 2_097_152,
};

impl Limits {
    /// The limits that the program runs with.
    pub fn shipped() -> Limits
        ensures { result ≡ SHIPPED }
    {
        SHIPPED
    }
}
