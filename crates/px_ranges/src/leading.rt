// How the values of a row begin, and the keys of such rows.
use px_values::{Items, Key, Value};

/// One end of a span: a value, and whether it is in the span.
#[derive(Drop)]
pub struct Edge {
    pub value: Value,
    pub included: bool,
}

/// The values between two edges. NULL is in no span.
#[derive(Drop)]
pub struct Span {
    pub lower: Option<Edge>,
    pub upper: Option<Edge>,
}

/// The first values of a row are these, and the next is in the span, where there is one.
#[derive(Drop)]
pub struct Leading {
    pub equal: Items<Value>,
    pub span: Option<Span>,
}

/// The keys from `low` on, and below `high`, where there is one.
#[derive(Drop)]
pub struct KeyBounds {
    pub low: Key,
    pub high: Option<Key>,
}
