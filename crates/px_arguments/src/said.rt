// What words say: the folder and the options of a command.
ghost use Rattle.std.specs.Prelude.{◌≡◌, map, option_map};
ghost use Rattle.std.specs.String.{string_bytes};
ghost use Rattle.px_arguments.specs.Arguments as spec;

/// What a word may give.
#[derive(Clone, Copy)]
pub(crate) enum Part {
    Folder,
    Table,
    Index,
    Kind,
    Number,
    Rows,
    Lookback,
    Schedule,
}

/// What the words so far gave.
#[derive(Clone, Copy)]
pub(crate) struct Said<'a> {
    pub(crate) folder: Option<&'a str>,
    pub(crate) table: Option<&'a str>,
    pub(crate) index: Option<&'a str>,
    pub(crate) kind: Option<&'a str>,
    pub(crate) number: Option<&'a str>,
    pub(crate) rows: Option<&'a str>,
    pub(crate) lookback: Option<&'a str>,
    pub(crate) schedule: Option<&'a str>,
    /// The option whose value is the next word.
    awaits: Option<Part>,
}

/// A word that may be a folder, or the value of the option before it.
fn is_plain(word: &[u8]) -> bool
    ensures { result ≡ spec.is_plain word.now }
{
    match word.first() {
        None => false,
        Some(first) => *first != b'-',
    }
}

/// What an option gives, by its word.
fn option_named(word: &str) -> Option<Part>
    ensures { result ≡ spec.option_named word.now }
{
    if word == "--table" {
        Some(Part::Table)
    } else if word == "--index" {
        Some(Part::Index)
    } else if word == "--kind" {
        Some(Part::Kind)
    } else if word == "--number" {
        Some(Part::Number)
    } else if word == "--rows" {
        Some(Part::Rows)
    } else if word == "--lookback" {
        Some(Part::Lookback)
    } else if word == "--schedule" {
        Some(Part::Schedule)
    } else {
        None
    }
}

/// One part more, which wasn't given before.
fn give<'a>(said: Said<'a>, part: Part, value: &'a str) -> Option<Said<'a>>
    ensures { option_map spec.seen_said result ≡ spec.give (spec.seen_said said.entry) part value.entry.now }
{
    let mut more = said;
    match part {
        Part::Folder => {
            if said.folder.is_some() {
                return None;
            }
            more.folder = Some(value);
            Some(more)
        }
        Part::Table => {
            if said.table.is_some() {
                return None;
            }
            more.table = Some(value);
            Some(more)
        }
        Part::Index => {
            if said.index.is_some() {
                return None;
            }
            more.index = Some(value);
            Some(more)
        }
        Part::Kind => {
            if said.kind.is_some() {
                return None;
            }
            more.kind = Some(value);
            Some(more)
        }
        Part::Number => {
            if said.number.is_some() {
                return None;
            }
            more.number = Some(value);
            Some(more)
        }
        Part::Rows => {
            if said.rows.is_some() {
                return None;
            }
            more.rows = Some(value);
            Some(more)
        }
        Part::Lookback => {
            if said.lookback.is_some() {
                return None;
            }
            more.lookback = Some(value);
            Some(more)
        }
        Part::Schedule => {
            if said.schedule.is_some() {
                return None;
            }
            more.schedule = Some(value);
            Some(more)
        }
    }
}

/// A word that isn't the value of an option before it.
fn begin<'a>(said: Said<'a>, word: &'a str) -> Option<Said<'a>>
    ensures { option_map spec.seen_said result ≡ spec.begin (spec.seen_said said.entry) word.entry.now }
{
    let (name, value) = word.split_once('=').unwrap_or((word, ""));
    match option_named(name) {
        None => {
            if is_plain(word.as_bytes()) {
                give(said, Part::Folder, word)
            } else {
                None
            }
        }
        Some(part) => {
            if name.len() == word.len() {
                let mut waiting = said;
                waiting.awaits = Some(part);
                Some(waiting)
            } else if value.is_empty() {
                None
            } else {
                give(said, part, value)
            }
        }
    }
}

/// One word more.
fn take<'a>(said: Said<'a>, word: &'a str) -> Option<Said<'a>>
    ensures { option_map spec.seen_said result ≡ spec.take_word (spec.seen_said said.entry) word.entry.now }
{
    let mut said = said;
    match said.awaits {
        None => begin(said, word),
        Some(part) => {
            said.awaits = None;
            if is_plain(word.as_bytes()) {
                give(said, part, word)
            } else {
                None
            }
        }
    }
}

/// What all words gave, and nothing where one of them has no place.
pub(crate) fn said_by(words: &[String]) -> Option<Said<'_>>
    ensures { option_map spec.seen_said result ≡ spec.said_from spec.nothing (map string_bytes words.now) }
{
    let mut said = Said {
        folder: None,
        table: None,
        index: None,
        kind: None,
        number: None,
        rows: None,
        lookback: None,
        schedule: None,
        awaits: None,
    };
    for word in words {
        match take(said, word.as_str()) {
            Some(more) => said = more,
            None => return None,
        }
    }
    if said.awaits.is_some() {
        None
    } else {
        Some(said)
    }
}
