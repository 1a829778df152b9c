//! Which words are in form. `clap` takes more of them: empty ones, and a lone `-` as a value or an operand.
ghost use Rattle.std.specs.Prelude.{◌≡◌, map, string_bytes, is_some, option_map};
ghost use Rattle.command_words.specs.Givens.{rest_behind, given_by};
ghost use Rattle.command_words.specs.Taken.{marked, is_seen, has_value, named_option, given_to, after_word};
ghost use Rattle.command_words.specs.Taken.{after_option, after_full, is_whole};

/// What is given a value.
#[derive(Clone, Copy, Debug)]
pub enum Name {
    /// The graph file's name.
    Graph,
    /// The second at which time ends.
    Horizon,
    /// Filter rules.
    Filters,
    /// The form of the jobspecs.
    Jobspec,
}

/// What may come next.
#[derive(Clone, Copy, Debug)]
pub enum Next {
    /// An option, or the graph file's name.
    Any,
    /// The value of this option.
    Value(Name),
    /// The graph file's name, behind `--`.
    Names,
}

/// Which names have a value.
#[derive(Clone, Copy, Debug)]
pub struct Seen {
    pub graph: bool,
    pub horizon: bool,
    pub filters: bool,
    pub jobspec: bool,
}

/// What the words so far leave open.
#[derive(Clone, Copy, Debug)]
pub struct State {
    pub next: Next,
    pub seen: Seen,
}

/// Before the first word.
const START: State = State {
    next: Next::Any,
    seen: Seen {
        graph: false,
        horizon: false,
        filters: false,
        jobspec: false,
    },
};

impl Seen {
    /// Whether this name has a value.
    fn has(&self, name: Name) -> bool
        ensures { result ≡ is_seen self.now name }
    {
        match name {
            Name::Graph => self.graph,
            Name::Horizon => self.horizon,
            Name::Filters => self.filters,
            Name::Jobspec => self.jobspec,
        }
    }

    /// The same, and this name too.
    fn with(self, name: Name) -> Seen
        ensures { result ≡ marked self name }
    {
        match name {
            Name::Graph => Seen {
                graph: true,
                ..self
            },
            Name::Horizon => Seen {
                horizon: true,
                ..self
            },
            Name::Filters => Seen {
                filters: true,
                ..self
            },
            Name::Jobspec => Seen {
                jobspec: true,
                ..self
            },
        }
    }
}

/// Whether a word that begins with this text has a value behind it, if the text is all of it or `=` comes next.
fn has_value(word: &[u8], text: &[u8]) -> Option<bool>
    ensures { result ≡ has_value (rest_behind text.now word.now) }
{
    let Some(rest) = word.strip_prefix(text) else {
        return None;
    };
    match rest.first() {
        None => Some(false),
        Some(b'=') => Some(true),
        Some(_) => None,
    }
}

/// The option that a word names, and whether the word has its value.
fn named_option(word: &[u8]) -> Option<(Name, bool)>
    ensures { result ≡ named_option word.now }
{
    if let Some(valued) = has_value(word, b"--horizon") {
        return Some((Name::Horizon, valued));
    }
    if let Some(valued) = has_value(word, b"--filters") {
        return Some((Name::Filters, valued));
    }
    match has_value(word, b"--jobspec") {
        Some(valued) => Some((Name::Jobspec, valued)),
        None => None,
    }
}

/// The state after a value for this name, which may not have one yet.
fn given_to(name: Name, next: Next, seen: Seen) -> Option<State>
    ensures { result ≡ given_to name next seen }
{
    if seen.has(name) {
        return None;
    }
    Some(State {
        next,
        seen: seen.with(name),
    })
}

/// The state after an option's word.
fn after_option(word: &[u8], seen: Seen) -> Option<State>
    ensures { result ≡ after_option (named_option word.now) seen }
{
    match named_option(word)? {
        (name, true) => given_to(name, Next::Any, seen),
        (name, false) => Some(State {
            next: Next::Value(name),
            seen,
        }),
    }
}

/// The state after a word, if it may come.
fn after_word(state: State, word: &[u8]) -> Option<State>
    ensures { result ≡ after_word state word.now }
{
    let State { next, seen } = state;
    let begins_with_minus = match word.first() {
        Some(byte) => *byte == b'-',
        None => return None,
    };
    match next {
        Next::Any if word == b"--".as_slice() => Some(State {
            next: Next::Names,
            seen,
        }),
        Next::Any if begins_with_minus => after_option(word, seen),
        Next::Any => given_to(Name::Graph, Next::Any, seen),
        Next::Value(_) if begins_with_minus => None,
        Next::Value(name) => given_to(name, Next::Any, seen),
        Next::Names => given_to(Name::Graph, Next::Names, seen),
    }
}

/// Whether nothing is left open: no option lacks its value, and the graph file is named.
fn is_whole(state: State) -> bool
    ensures { result ≡ is_whole state }
{
    match state.next {
        Next::Value(_) => false,
        Next::Any | Next::Names => state.seen.graph,
    }
}

/// Whether the words are in form.
pub(crate) fn are_in_form(words: &[String]) -> bool
    ensures { result ≡ is_some (given_by (map string_bytes words.now)) }
{
    let mut state = START;
    for word in words {
        match after_word(state, word.as_bytes()) {
            Some(next) => state = next,
            None => return false,
        }
    }
    is_whole(state)
}
