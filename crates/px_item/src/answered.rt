// What is asked, and what is answered.
ghost use Rattle.std.specs.Prelude.{◌≡◌, []};
ghost use Rattle.px_item.specs.Right.{SaysOnly};

use px_held::HeldChanges;
use px_lex::script::Piece;
use px_reply::{Places, Receipts, Refusal, Reply};
use px_values::Items;
use std::alloc::Global;

/// The settings of a session: the SCN of its statements, whether each is committed by itself, and the changes that are held where it isn't.
#[derive(Drop)]
pub struct Settings {
    pub scn: Option<u64>,
    pub autocommit: bool,
    pub held: Option<HeldChanges>,
}

/// The settings after an item, and what is asked for next.
#[derive(Drop)]
pub enum After {
    /// The next piece.
    Next(Settings),
    /// The same piece once more: what it makes way for was committed first.
    Again(Settings),
}

/// A statement or a session command, the settings that it is asked under, and how many entries the session had seen before its first step.
#[derive(Drop)]
pub struct Asked<'a> {
    pub piece: Piece<'a>,
    pub settings: Settings,
    pub first: u64,
}

/// What was answered, with the receipts and places that it rests on, and the settings after it.
#[derive(Drop)]
pub struct Answered {
    pub reply: Reply,
    pub receipts: Receipts,
    pub places: Places,
    pub first: u64,
    pub after: After,
}

/// A reply that rests on no receipt.
pub(crate) fn told(alloc: Global, reply: Reply, first: u64, after: Settings) -> Answered
    ensures says { SaysOnly result reply after }
    ensures first { result.first ≡ first }
{
    Answered {
        reply,
        receipts: Items::of(Vec::new(alloc)),
        places: Items::of(Vec::new(alloc)),
        first,
        after: After::Next(after),
    }
}

/// A refusal.
pub(crate) fn refused(alloc: Global, refusal: Refusal, first: u64, after: Settings) -> Answered
    ensures says { SaysOnly result (Reply.Refused refusal) after }
    ensures first { result.first ≡ first }
{
    told(alloc, Reply::Refused(refusal), first, after)
}
