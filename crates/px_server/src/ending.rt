// The end of batches.
ghost use Rattle.std.specs.Prelude.{◌≡◌, ◌⊎◌, true, false, None, Some, IfNone, IfSome};
ghost use Rattle.px_server.specs.Ending.{HasVerifiedEntry, tells_verified};
ghost use Rattle.px_trail.specs.declared.entry.Act.TheVariants.{Ended as EndedAct};
ghost use Rattle.px_calls.specs.Calls.{IsReceipt};
ghost use Rattle.px_calls.specs.Known.{Adds, Sees};
ghost use Rattle.px_calls.specs.Requires.{CanAbandon, CanEnd};
ghost use Rattle.px_server.specs.DeviceCalls.{MakesNoCall};
ghost use Rattle.px_server.specs.Shown.{known_by};

use crate::{Founded, Server};
use px_batching::Told;
use px_calls::{Receipt, Ticket};
use px_outside::{Clock, CountsCalls};
use px_seat::Based;
use px_standing::numbered_place;
use px_trail::{Act, Entry, Trail};
use px_values::TableId;

/// Whether the entry tells that the batch's marks are closed.
fn tells_verified(entry: &Entry, table: TableId, stamp: u64) -> bool
    ensures { result ≡ tells_verified table.0 stamp entry.now.act }
{
    match entry.act {
        Act::Phase {
            table: of,
            stamp: at,
            phase,
        } => of == table && at == stamp && phase == 3,
        _ => false,
    }
}

/// Whether the trail tells so.
fn is_verified(trail: &Trail, table: TableId, stamp: u64) -> bool
    ensures told { result ≡ true → HasVerifiedEntry trail.now.entries table.0 stamp }
    ensures untold { result ≡ false → HasVerifiedEntry trail.now.entries table.0 stamp → ⊥ }
{
    for place in 0..trail.len() {
        if tells_verified(trail.entry(place), table, stamp) {
            return true;
        }
    }
    false
}

/// The device call that closed a server before the batch's marks were closed.
fn unfinished_by(closed: Option<u64>, trail: &Trail, t: &Ticket) -> Option<u64>
    ensures none { IfNone result ((closed ≡ None) ⊎ HasVerifiedEntry trail.now.entries t.now.table.0 t.now.stamp) }
    ensures some { IfSome result (λ call. (closed ≡ Some call) × (HasVerifiedEntry trail.now.entries t.now.table.0 t.now.stamp → ⊥)) }
{
    let call = closed?;
    if is_verified(trail, t.table, t.stamp) {
        None
    } else {
        Some(call)
    }
}

impl<D: CountsCalls, C: Clock, B: Based + Founded> Server<D, C, B> {
    /// Ends the batch. It takes no memory. Where the server was closed before all its marks were, the receipt says by which call.
    pub fn end(&mut self, t: Ticket) -> Receipt
        requires { CanEnd (known_by B.base B.damaged self.old) t }
        ensures adds { Adds (known_by B.base B.damaged self.old) (known_by B.base B.damaged self.new) (EndedAct t.table t.stamp) }
        ensures receipt { IsReceipt (known_by B.base B.damaged self.new) t result }
        ensures counts { MakesNoCall self.old self.new }
    {
        let unfinished = unfinished_by(self.closed, &self.trail, &t);
        let Ticket { table, stamp } = t;
        let Some(place) = numbered_place(&self.standing, table) else {
            unreachable!()
        };
        let Some(batch) = self.groups[place].batch_place(stamp) else {
            unreachable!()
        };
        let Told { rows, concurrent } = px_batching::end(&mut self.groups[place], batch);
        self.trail.push(Entry {
            seat: self.seat,
            calls: self.disk.call_count(),
            act: Act::Ended { table, stamp },
        });
        Receipt {
            table,
            stamp,
            rows,
            concurrent,
            unfinished,
            at: self.trail.len(),
        }
    }

    /// Gives up a batch that can't go on, since the server is closed.
    pub fn abandon(&mut self, t: Ticket)
        requires { CanAbandon (known_by B.base B.damaged self.old) t }
        ensures sees { Sees (known_by B.base B.damaged self.old) (known_by B.base B.damaged self.new) }
        ensures counts { MakesNoCall self.old self.new }
    {
        let Ticket { table, stamp } = t;
        let Some(place) = numbered_place(&self.standing, table) else {
            unreachable!()
        };
        if let Some(batch) = self.groups[place].batch_place(stamp) {
            px_batching::abandon(&mut self.groups[place], batch);
        }
    }
}
