// The reply to a script of which nothing is run, and that to a verification.
ghost use Rattle.std.specs.Prelude.{◌≡◌, IfOk};
ghost use Rattle.px_program.specs.Answers as spec;

use px_reply::{Evidence, Item, Refusal, Reply, Transcript, Transcripts};
use px_script::{ScriptFault, Span};
use px_values::{Items, Limit};
use std::alloc::{AllocError, Global};

/// How it is told that nothing of a script is run.
fn refusal_of(fault: ScriptFault) -> Refusal
    ensures { result ≡ spec.refusal_of_script fault }
{
    match fault {
        ScriptFault::TooLong => Refusal::Limit(Limit::Script),
        ScriptFault::NotUtf8 { place } => Refusal::Syntax { place },
        ScriptFault::Memory => Refusal::Memory,
    }
}

/// Room for one transcript of one item.
pub struct Room {
    transcripts: Vec<Transcript>,
    items: Vec<Item>,
}

/// Room for the one reply of a run.
pub fn room_for_one(alloc: Global) -> Result<Room, AllocError>
    ensures { IfOk result spec.HasRoomToTell }
{
    let transcripts = Vec::with_capacity(alloc, 1)?;
    match Vec::with_capacity(alloc, 1) {
        Ok(items) => Ok(Room { transcripts, items }),
        Err(fault) => {
            drop(transcripts);
            Err(fault)
        }
    }
}

/// Session 1 is told in the first round, of a statement of so many bytes, from the entry `first` to the entry `last`.
fn told(alloc: Global, room: Room, end: usize, reply: Reply, first: u64, last: u64) -> Transcripts
    requires { spec.HasRoomToTell room }
    ensures { result ≡ spec.one_item end reply first last }
{
    let Room {
        mut transcripts,
        mut items,
    } = room;
    items.push_reserved(Item {
        statement: Span { start: 0, end },
        reply,
        evidence: Evidence {
            receipts: Items::of(Vec::new(alloc)),
            places: Items::of(Vec::new(alloc)),
            first,
            last,
        },
    });
    transcripts.push_reserved(Transcript {
        session: 1,
        round: 1,
        items: Items::of(items),
    });
    Items::of(transcripts)
}

/// Session 1 is told in the first round why nothing is run.
pub fn stopped(alloc: Global, fault: ScriptFault, len: usize) -> Result<Transcripts, AllocError>
    ensures { IfOk result (λ ts. ts ≡ spec.stopped_by fault len) }
{
    let room = room_for_one(alloc)?;
    let reply = Reply::Refused(refusal_of(fault));
    Ok(told(alloc, room, len, reply, 0, 0))
}

/// Session 1 is told what a verification came to, which has no text.
pub fn answered(alloc: Global, room: Room, reply: Reply, first: u64, last: u64) -> Transcripts
    requires { spec.HasRoomToTell room }
    ensures { result ≡ spec.one_item 0 reply first last }
{
    told(alloc, room, 0, reply, first, last)
}
