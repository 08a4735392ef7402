// What the replies of a run tell of its status.
ghost use Rattle.std.specs.Prelude.{◌≡◌};
ghost use Rattle.std.specs.List.{list_any};
ghost use Rattle.px_program.specs.Status as spec;
ghost use Rattle.px_program.specs.Status.{causes_of, is_memory, is_statement, items_of, refused_by, some_refused_by, status_of};

use crate::status::Status;
use px_reply::{Cause, Item, Refusal, Reply, Transcript};

/// A place of a file that isn't of the format.
#[derive(Clone, Copy)]
pub struct Place {
    pub file: u64,
    pub place: u64,
}

/// What stands among the replies of a run.
#[derive(Clone, Copy)]
pub struct Causes {
    /// The first place that was found damaged.
    pub damaged: Option<Place>,
    /// A statement found no memory.
    pub lacked: bool,
    /// A statement was refused.
    pub refused: bool,
}

fn damage_of(reply: &Reply) -> Option<Place>
    ensures { result ≡ spec.damage_of reply.now }
{
    match reply.refusal() {
        Some(Refusal::Damaged { file, place }) => Some(Place {
            file: *file,
            place: *place,
        }),
        _ => None,
    }
}

fn lacked(reply: &Reply) -> bool
    ensures { result ≡ refused_by is_memory reply.now }
{
    match reply.refusal() {
        Some(refusal) => matches!(refusal.cause(), Cause::Memory),
        None => false,
    }
}

fn refused(reply: &Reply) -> bool
    ensures { result ≡ refused_by is_statement reply.now }
{
    match reply.refusal() {
        Some(refusal) => matches!(refusal.cause(), Cause::Statement),
        None => false,
    }
}

fn some_lacked(items: &[Item]) -> bool
    ensures { result ≡ some_refused_by is_memory items.now }
{
    items.iter().any(|item| lacked(&item.reply))
}

fn some_refused(items: &[Item]) -> bool
    ensures { result ≡ some_refused_by is_statement items.now }
{
    items.iter().any(|item| refused(&item.reply))
}

fn first_damage(items: &[Item]) -> Option<Place>
    ensures { result ≡ spec.first_damage items.now }
{
    let mut left = items;
    'items: while let Some((item, rest)) = left.split_first() {
        let damage = damage_of(&item.reply);
        if damage.is_some() {
            return damage;
        }
        left = rest;
    }
    None
}

/// The first place that one of the transcripts tells damaged.
#[tactic(auto, using(crate::proofs::Flat::found_here, crate::proofs::Flat::passed_here))]
fn damage_in(transcripts: &[Transcript]) -> Option<Place>
    ensures { result ≡ spec.first_damage (items_of transcripts.now) }
{
    let mut left = transcripts;
    'transcripts: while let Some((transcript, rest)) = left.split_first() {
        let damage = first_damage(transcript.items.as_slice());
        if damage.is_some() {
            return damage;
        }
        left = rest;
    }
    None
}

fn any_lacked(transcripts: &[Transcript]) -> bool
    ensures { result ≡ list_any (λ t. some_refused_by is_memory t.items) transcripts.now }
{
    transcripts
        .iter()
        .any(|transcript| some_lacked(transcript.items.as_slice()))
}

fn any_refused(transcripts: &[Transcript]) -> bool
    ensures { result ≡ list_any (λ t. some_refused_by is_statement t.items) transcripts.now }
{
    transcripts
        .iter()
        .any(|transcript| some_refused(transcript.items.as_slice()))
}

/// The causes among the replies of some transcripts.
#[tactic(auto, using(crate::proofs::Flat::causes_are))]
pub fn causes_in(transcripts: &[Transcript]) -> Causes
    ensures { result ≡ causes_of (items_of transcripts.now) }
{
    Causes {
        damaged: damage_in(transcripts),
        lacked: any_lacked(transcripts),
        refused: any_refused(transcripts),
    }
}

/// The status by its causes: whether the sink failed, the first call of the disk that failed, 0 where none has, whether memory was
/// lacked outside a statement, and what stands among the replies.
pub fn status_after(sink_failed: bool, failed: u64, memory: bool, causes: Causes) -> Status
    ensures { result ≡ status_of sink_failed failed memory causes }
{
    if sink_failed {
        return Status::SinkFault;
    }
    if failed != 0 {
        return Status::Device { call: failed };
    }
    match causes.damaged {
        Some(at) => Status::Damaged {
            file: at.file,
            place: at.place,
        },
        None => {
            if memory || causes.lacked {
                Status::Memory
            } else if causes.refused {
                Status::Refused
            } else {
                Status::Done
            }
        }
    }
}
