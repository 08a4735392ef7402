// The verification of an index that is named.
ghost use Rattle.std.specs.Prelude.{◌≡◌};
ghost use Rattle.px_verified.specs.Verified.{HasVerified};

use crate::asked::{Verification, index_named};
use crate::telling::{not_indexed, told, unfound};
use px_calls::Steps;
use px_reply::Reply;
use px_verifying::run_verify;
use std::alloc::Global;
use std::sync::Wait;
use std::thread::Threads;

/// Verifies the index: it reports on it, has it built again, or both, as the kind says. The reply has each part that was finished, and
/// why the next one wasn't.
pub fn verify<R: Threads + Wait + Sync, S: Steps>(
    rt: &R,
    alloc: Global,
    s: &mut S,
    asked: Verification,
) -> Reply
    ensures { HasVerified S.sound (S.known s.old) (S.known s.new) asked result }
{
    match s.find(&asked.table) {
        Err(fault) => unfound(asked, fault),
        Ok(found) => {
            let table = found.table.id;
            let index = index_named(found.indexes.as_slice(), &asked.index);
            drop(found);
            match index {
                None => not_indexed(asked),
                Some(index) => {
                    let came = run_verify(rt, alloc, s, table, index, asked.kind);
                    told(asked, came)
                }
            }
        }
    }
}
