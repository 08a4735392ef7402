// A server.
ghost use Rattle.std.specs.Prelude.{◌≡◌, ℕ, List, length};
ghost use Rattle.px_outside.specs.OnDisk.{IsLeft};

use crate::Founded;
use px_catalog::Catalog;
use px_gatelog::Frame;
use px_group::Group;
use px_outside::{Clock, CountsCalls, Disk};
use px_schema::Standing;
use px_seat::Based;
use px_trail::{Entry, Trail};
use std::alloc::Global;
use std::marker::{Model, PhantomData};

/// A server. At each moment so far a stop leaves a folder that stands for what had been done, or for this and the one lasting thing that
/// was under way.
#[derive(Drop)]
pub struct Server<D: CountsCalls, C: Clock, B: Based + Founded> {
    pub(crate) alloc: Global,
    /// The seat that acts.
    pub(crate) seat: u32,
    pub(crate) disk: D,
    pub(crate) clock: C,
    /// How long versions are kept, in milliseconds.
    pub(crate) lookback: u64,
    /// The place of the next table whose horizon is to rise, where that was ordered of all tables.
    pub(crate) raising: Option<usize>,
    /// The last step of upkeep was the last of a renewal of the catalogue that gave it no room.
    pub(crate) in_vain: bool,
    /// The definitions on the disk.
    pub(crate) catalog: Catalog,
    /// The same as the trail tells them: an index that was building when the folder was opened is disabled.
    pub(crate) standing: Standing,
    /// One for each table that stands, in their order.
    pub(crate) groups: Vec<Group>,
    pub(crate) trail: Trail,
    /// What the step would have added whose failed write closed the server.
    pub(crate) late: Option<Entry>,
    /// The device call that closed it.
    pub(crate) closed: Option<u64>,
    pub(crate) frame: Frame,
    pub(crate) of: PhantomData<B>,
}

impl<D: CountsCalls, C: Clock, B: Based + Founded> Model for Server<D, C, B> {
    ghost use Rattle.std.specs.Prelude.{◌≤◌};
    ghost use Rattle.px_server.specs.Kept.{IsKept};
    ghost use Rattle.px_server.specs.Shown.{Shown, shown_of};
    ghost use Rattle.px_server.specs.Stamps.{IsByClock};

    ghost Value = { Shown };

    ghost view = { λ s. shown_of s.seat s.trail.entries s.late s.closed s.groups.items s.lookback s.raising (D.calls s.disk) (D.faults s.disk) };

    ghost invariant = { λ s. IsKept ⟦<D as Disk>⟧ B.base B.sound B.premise B.began s.disk s.catalog s.standing s.groups.items s.trail s.late s.closed × ((8388620 ≤ s.frame.room) × IsByClock ⟦<C as Clock>⟧ B.times B.base B.lookback s.lookback s.clock s.trail.entries) };
}

impl<D: CountsCalls, C: Clock, B: Based + Founded> Server<D, C, B> {
    /// Lets a seat act.
    pub fn act_as(&mut self, seat: u32)
        ensures { self.new ≡ record self.old { seat = seat } }
    {
        self.seat = seat;
    }

    /// The number of entries.
    pub fn seen(&self) -> u64
        ensures { result ≡ length self.now.entries }
    {
        self.trail.len()
    }
}

impl<D: CountsCalls, C: Clock + Drop, B: Based + Founded> Server<D, C, B> {
    ghost use Rattle.std.specs.Prelude.{true, None, Some, IsTrue, []};
    ghost use Rattle.px_recovery.specs.Kept.{IsLate};
    ghost use Rattle.px_recovery.specs.Stands.{Recovers};
    ghost use Rattle.px_server.specs.Kept.{HasFailed, has_told};
    ghost use Rattle.px_server.specs.Logged.{AreLogged, AreOnDisk};
    ghost use Rattle.px_server.specs.Others.{OthersStay};
    ghost use Rattle.px_server.specs.Started.{StandsBy};
    ghost use Rattle.px_trail.specs.Trail.{closing_call};
    ghost use Rattle.px_trail.specs.declared.entry.Entry.{Entry as Entries};
    ghost use Rattle.px_server.specs.Stamps.{AreBack, AreStamped};

    /// The disk, what was done, and what is late. Each image that a stop may leave at a moment of the run recovers, and where an entry tells
    /// that a call of the disk failed, one has. Unless a failed write closed the server, no entry is late, the disk stands for what base and
    /// trail give, and the cells shown of each table are those of the logs there; the call that closed it is the last that was made. Each stamp
    /// that was drawn is by a number that the clock told, and no horizon that rose is above its table's last stamp less the lookback. Files of no
    /// part stay as they were.
    pub fn finish(self) -> (D, Trail, Option<Entry>)
        ensures entries { result.1.entries ≡ self.entries }
        ensures late { result.2 ≡ self.late }
        ensures recovers { B.premise → (moment : ℕ) (image : ℕ → List ℕ) → IsLeft ⟦<D as Disk>⟧ result.0 moment image → Recovers B.base result.1.entries result.2 moment image }
        ensures stands { closing_call result.1.entries ≡ None → B.premise → IsTrue D.tells → StandsBy ⟦<D as Disk>⟧ B.base result.0 result.1.entries }
        ensures logged { closing_call result.1.entries ≡ None → B.premise → IsTrue D.tells → AreLogged ⟦<D as Disk>⟧ B.base result.0 result.1.entries self.logged }
        ensures on_disk { closing_call result.1.entries ≡ None → B.premise → IsTrue D.tells → AreOnDisk ⟦<D as Disk>⟧ B.base result.0 result.1.entries self.groups }
        ensures unlate { closing_call result.1.entries ≡ None → result.2 ≡ None }
        ensures late_is { (u : Entries) → result.2 ≡ Some u → B.premise → IsTrue D.tells → IsLate B.base result.1.entries u }
        ensures closed_at { (call : ℕ) → closing_call result.1.entries ≡ Some call → call ≡ D.calls result.0 }
        ensures blamed { has_told result.1.entries ≡ true → HasFailed ⟦<D as Disk>⟧ result.0 }
        ensures counted { (self.calls ≡ D.calls result.0) × (self.faults ≡ D.faults result.0) }
        ensures others { B.premise → IsTrue D.tells → OthersStay ⟦<D as Disk>⟧ B.base B.began result.0 result.1.entries }
        ensures stamped { IsTrue C.tells → (n : ℕ) × AreStamped B.times B.base [] 0 n result.1.entries }
        ensures back { AreBack B.lookback B.base [] result.1.entries }
    {
        let Server {
            alloc: _,
            seat: _,
            disk,
            clock,
            lookback: _,
            raising: _,
            in_vain: _,
            catalog,
            standing,
            groups,
            trail,
            late,
            closed: _,
            frame,
            of: _,
        } = self;
        drop(clock);
        drop(catalog);
        drop(standing);
        drop(groups);
        drop(frame);
        (disk, trail, late)
    }
}
