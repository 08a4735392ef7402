// What a group tells of points, and what a flush or a compaction of all leaves.
ghost use Rattle.std.specs.Prelude.{◌≡◌, ◌≤◌, ◌-◌, [], ℕ, List, Option, false, None, is_some};
ghost use Rattle.std.specs.List.{AllByRecursion};
ghost use Rattle.px_server.specs.Logged.{AreOnDisk};
ghost use Rattle.px_server.specs.Shown.{logged_by};
ghost use Rattle.px_server.specs.Upkeep.{AreCompacting, AreOrdered, HaveFlushed, HaveForgotten, HasRisen, IsTableCompacted};
ghost use Rattle.px_group.specs.Group.{IsTallied};
ghost use Rattle.px_group.specs.declared.group.Begun.{Begun};
ghost use Rattle.px_group.specs.declared.group.Group.{Group};
ghost use Rattle.px_openbatches.specs.Pending.{HeldBatch};
ghost use Rattle.px_trail.specs.Batches.{IsDecided};
ghost use Rattle.px_trail.specs.Legal.{IsLegal};
ghost use Rattle.px_trail.specs.States.{greatest_stamp};
ghost use Rattle.px_trail.specs.Trail.{Base, open_points, table_of};
ghost use Rattle.px_trail.specs.declared.entry.Entry.{Entry};

use px_outside::Disk;

/// All is written at or below a point where no open batch at or below it is still to write; and a table that doesn't stand has no open point.
pub fn law_points()
    ensures decided { (b : Base) → (es : List Entry) → (g : Group) → (hs : List HeldBatch) → IsLegal b es → IsTallied b es g hs → (p : ℕ) → AllByRecursion (λ (m : Begun). m.batch.stamp ≤ p → is_some m.batch.puts ≡ false) g.batches.items → IsDecided es g.table.id.0 p }
    ensures none { (b : Base) → (es : List Entry) → IsLegal b es → (t : ℕ) → table_of b es t ≡ None → (seat : ℕ) → (s : ℕ) → open_points seat t s es ≡ 0 }
{}

/// Where all that stands in the logs of the tables on a disk was ordered to be flushed, and all that was ordered is flushed, no cell stands in
/// them above the flushed numbers.
pub fn law_flushed<D: Disk>()
    ensures { (b : Base) → (es : List Entry) → (disk : D) → (groups : List Group) → AreOnDisk ⟦<D as Disk>⟧ b disk es groups → AreOrdered groups → HaveFlushed groups → AllByRecursion (λ g. logged_by g ≡ 0) groups }
{}

/// Where all tables were ordered to be compacted, and all that was ordered is done, the horizon of each has risen as far as is allowed, and each of its
/// regions that has a cell has forgotten at it. With no batch and no point of the table, the horizon is at least at what isn't looked back on.
pub fn law_compacted()
    ensures compacted { (lookback : ℕ) → (raising : Option ℕ) → (groups : List Group) → AreCompacting lookback raising groups → HaveForgotten raising groups → AllByRecursion (IsTableCompacted lookback) groups }
    ensures back { (lookback : ℕ) → (g : Group) → HasRisen lookback g → g.batches.items ≡ [] → g.points.items ≡ [] → g.last - lookback ≤ greatest_stamp → g.last - lookback ≤ g.horizon }
{}
