// What a session is answered: transcripts, their items, and the evidence of each.
use crate::reply::Reply;
use px_calls::Receipt;
use px_script::Span;

/// The receipts of the batches of a statement, in order.
pub type Receipts = px_values::Items<Receipt>;

/// For each row of an answer a number of entries after which the table held it.
pub type Places = px_values::Items<u64>;

/// What an answer rests on: the receipts of its batches, the place of each row that it gives, and the numbers of trail
/// entries when the statement began and when it was answered.
#[derive(Drop)]
pub struct Evidence {
    pub receipts: Receipts,
    pub places: Places,
    pub first: u64,
    pub last: u64,
}

/// A statement or a session command with its answer.
#[derive(Drop)]
pub struct Item {
    /// Where it stands in its session's text of the round.
    pub statement: Span,
    pub reply: Reply,
    pub evidence: Evidence,
}

pub type Items = px_values::Items<Item>;

/// The answers of a session in a round, in order.
#[derive(Drop)]
pub struct Transcript {
    /// From 1 to 32.
    pub session: u32,
    /// From 1 on.
    pub round: u64,
    pub items: Items,
}

pub type Transcripts = px_values::Items<Transcript>;
