// Upkeep: the logs of regions are made, and flushed; horizons rise, and regions forget at them; a full catalogue is renewed.
ghost use Rattle.std.specs.Prelude.{◌≡◌, ◌⊎◌, ◌<◌, [], Err, None, Some, IfErr, IfNone, IfOk, IfSome, OnOk, get_or, length, true, false};
ghost use Rattle.std.specs.List.{AllByRecursion};
ghost use Rattle.px_calls.specs.Calls.{DidOrder, DidWork, IsIdleWork};
ghost use Rattle.px_calls.specs.Causes.{Refuses, order_cause, upkeep_cause};
ghost use Rattle.px_calls.specs.Doubtful.{IndexVersion};
ghost use Rattle.px_calls.specs.Requires.{HasOpen};
ghost use Rattle.px_calls.specs.declared.fault.StepFault.TheVariants.{Memory as NoMemory};
ghost use Rattle.px_calls.specs.declared.query.Point.{Point as Points};
ghost use Rattle.px_calls.specs.declared.status.Ordered.{Ordered as Orders};
ghost use Rattle.px_calls.specs.declared.status.Ordered.TheVariants as jobs;
ghost use Rattle.px_group.specs.declared.group.Group.{Group as Groups};
ghost use Rattle.px_outside.specs.OnDisk.{Rose};
ghost use Rattle.px_region.specs.Ordered.{IsFlushOrdered, IsSameOrder};
ghost use Rattle.px_region.specs.Promise.{IsAlike, IsSamePromise};
ghost use Rattle.px_region.specs.Region.{read_of};
ghost use Rattle.px_region.specs.declared.fault.JobFault.TheVariants.{Memory, WriteFault};
ghost use Rattle.px_server.specs.Looks.{rows_looked};
ghost use Rattle.px_server.specs.DeviceCalls.{Blames, MakesAtMost, MakesNoCall};
ghost use Rattle.px_server.specs.Shown.{known_by};
ghost use Rattle.px_server.specs.Sights.{have_doubt};
ghost use Rattle.px_server.specs.Upkeep.{AllSettle, AreFree, AreOrdered, HasRaised, HasRisen, HasStepped, IsDoneBy, IsDueIn, IsFree, IsFreeIndex, IsFreeTable, IsOrderedBy, IsOrderedTable, IsToForget, IsUnraised, IsWantedTable, Settles, StaysOn, SteppedTable, StepsFiles, StepsTable, StaysCompacting};

use crate::shutting::shut;
use crate::{Founded, Server};
use px_calls::{Ordered, StepFault, Work};
use px_group::{Group, IndexRegion};
use px_outside::{Clock, CountsCalls, Disk};
use px_raising::{raise, raise_to};
use px_region::{ForgetStep, JobFault, Region};
use px_seat::Based;
use px_trail::{Act, Entry, Trail};
use px_values::Limit;

/// Which region of a table has something to do.
#[derive(Clone, Copy)]
pub(crate) enum Due {
    /// That of its rows.
    Rows,
    /// That of the index at this place.
    Index(usize),
}

/// What a region may have to do.
#[derive(Clone, Copy)]
pub(crate) enum Chore {
    /// A step of its files.
    Due,
    /// A compaction that forgets, which isn't under way: none is while no step is due.
    Wanted,
}

/// Makes a step of the region's upkeep, or of its compaction that forgets at a horizon.
fn step_region<D: Disk>(
    region: &mut Region,
    disk: &mut D,
    horizon: u64,
) -> Result<ForgetStep, JobFault>
    ensures steps { StepsFiles ⟦<D as Disk>⟧ region.old region.new disk.old disk.new horizon }
    ensures ok { OnOk result (HasStepped ⟦<D as Disk>⟧ region.old region.new disk.old disk.new horizon) }
    ensures ordered { OnOk result (IsSameOrder region.old region.new) }
    ensures to_forget { OnOk result (IsToForget horizon region.old → IsToForget horizon region.new) }
    ensures looked { region.new.looked ≡ region.old.looked }
    ensures failed { result ≡ Err WriteFault → Rose ⟦<D as Disk>⟧ disk.old disk.new }
    ensures refused { result ≡ Err Memory → StaysOn ⟦<D as Disk>⟧ region.old region.new disk.old disk.new }
{
    region.forget_step(disk, horizon)
}

/// Begins the compaction that forgets at a horizon, if it can begin; else what stands in the log is to be flushed first.
fn begin_region<D: Disk>(region: &mut Region, horizon: u64)
    ensures steps { (disk : D) → StepsFiles ⟦<D as Disk>⟧ region.old region.new disk disk horizon }
    ensures stays { (disk : D) → StaysOn ⟦<D as Disk>⟧ region.old region.new disk disk }
    ensures ordered { IsFlushOrdered region.old → IsFlushOrdered region.new }
    ensures to_forget { IsToForget horizon region.old → IsToForget horizon region.new }
    ensures looked { region.new.looked ≡ region.old.looked }
{
    region.begin_forgetting::<D>(horizon);
}

/// Orders this of the region.
fn order_region(region: &mut Region, job: Ordered)
    ensures ordered { IsFlushOrdered region.new }
    ensures wanted { job ≡ jobs.CompactAll → region.new.wanted ≡ true }
    ensures alike { IsAlike region.old region.new }
    ensures promised { IsSamePromise region.old region.new }
    ensures read { read_of region.new ≡ read_of region.old }
    ensures looked { region.new.looked ≡ region.old.looked }
{
    match job {
        Ordered::FlushAll => region.order_flush(),
        Ordered::CompactAll => region.order_compact(),
    }
}

/// Whether the region has this to do.
fn has_chore(region: &Region, what: Chore) -> bool
    ensures { result ≡ false → IsFree what region.now }
{
    match what {
        Chore::Due => region.is_due(),
        Chore::Wanted => region.wants_to_forget(),
    }
}

/// The place of the first index whose region has this to do.
fn busy_index(indexes: &[IndexRegion], what: Chore) -> Option<usize>
    ensures some { IfSome result (λ p. p < length indexes.now) }
    ensures none { IfNone result (AllByRecursion (IsFreeIndex what) indexes.now) }
{
    for place in 0..indexes.len() {
        if has_chore(&indexes[place].region, what) {
            return Some(place);
        }
    }
    None
}

/// The first region of the table that has this to do.
fn busy_region(group: &Group, what: Chore) -> Option<Due>
    ensures some { IfSome result (λ region. IsDueIn group.now region) }
    ensures none { IfNone result (IsFreeTable what group.now) }
{
    if has_chore(&group.rows, what) {
        return Some(Due::Rows);
    }
    match busy_index(group.indexes.as_slice(), what) {
        Some(place) => Some(Due::Index(place)),
        None => None,
    }
}

/// The place of the first table of which a region has this to do, and that region.
fn busy_table(groups: &[Group], what: Chore) -> Option<(usize, Due)>
    ensures some { IfSome result (λ found. (found.0 < length groups.now) × ((g : Groups) → get_or groups.now found.0 g ≡ g → IsDueIn g found.1)) }
    ensures none { IfNone result (AreFree what groups.now) }
{
    for place in 0..groups.len() {
        if let Some(region) = busy_region(&groups[place], what) {
            return Some((place, region));
        }
    }
    None
}

/// Makes a step of a region of the table, at its horizon. Where no memory is found, the table goes on as well.
fn step_table<D: Disk>(group: &mut Group, region: Due, disk: &mut D) -> Result<ForgetStep, JobFault>
    requires { IsDueIn group.old region }
    ensures ok { OnOk result (SteppedTable ⟦<D as Disk>⟧ group.old group.new disk.old disk.new) }
    ensures ordered { OnOk result (IsOrderedTable group.old → IsOrderedTable group.new) }
    ensures to_forget { OnOk result (StaysCompacting group.old group.new) }
    ensures looked { group.new.rows.looked ≡ group.old.rows.looked }
    ensures failed { result ≡ Err WriteFault → StepsTable ⟦<D as Disk>⟧ group.old group.new disk.old disk.new × Rose ⟦<D as Disk>⟧ disk.old disk.new }
    ensures refused { result ≡ Err Memory → SteppedTable ⟦<D as Disk>⟧ group.old group.new disk.old disk.new }
{
    let horizon = group.horizon;
    match region {
        Due::Rows => step_region(&mut group.rows, disk, horizon),
        Due::Index(place) => step_region(&mut group.indexes[place].region, disk, horizon),
    }
}

/// Begins the compaction that forgets of a region of the table, at its horizon. It makes no call.
fn begin_table<D: Disk>(group: &mut Group, region: Due)
    requires { IsDueIn group.old region }
    ensures steps { (disk : D) → SteppedTable ⟦<D as Disk>⟧ group.old group.new disk disk }
    ensures ordered { IsOrderedTable group.old → IsOrderedTable group.new }
    ensures to_forget { StaysCompacting group.old group.new }
    ensures looked { group.new.rows.looked ≡ group.old.rows.looked }
{
    let horizon = group.horizon;
    match region {
        Due::Rows => begin_region::<D>(&mut group.rows, horizon),
        Due::Index(place) => begin_region::<D>(&mut group.indexes[place].region, horizon),
    }
}

/// Raises the horizon of the table as far as is allowed, up to the greatest stamp, and adds the entry that tells it, which counts no bytes.
fn raise_table(
    group: &mut Group,
    trail: &mut Trail,
    lookback: u64,
    seat: u32,
    calls: u64,
) -> Result<(), StepFault>
    ensures raises { IfOk result (λ _. HasRaised lookback seat calls group.old group.new trail.old trail.new ⊎ IsUnraised group.old group.new trail.old trail.new) }
    ensures risen { IfOk result (λ _. HasRisen lookback group.new) }
    ensures refused { IfErr result (λ f. (f ≡ NoMemory) × IsUnraised group.old group.new trail.old trail.new) }
{
    let horizon = raise_to(group, lookback).min(Limit::Stamps.most());
    if horizon <= group.horizon {
        return Ok(());
    }
    match trail.reserve(1, 0) {
        Ok(()) => {
            let table = group.table.id;
            trail.push(Entry {
                seat,
                calls,
                act: Act::Raised { table, horizon },
            });
            raise(group, horizon);
            Ok(())
        }
        Err(_) => Err(StepFault::Memory),
    }
}

/// Orders this of the table and its indexes.
fn order_table<D: Disk>(group: &mut Group, job: Ordered)
    ensures settles { (disk : D) → Settles ⟦<D as Disk>⟧ disk group.old group.new }
    ensures ordered { IsOrderedTable group.new }
    ensures wanted { job ≡ jobs.CompactAll → IsWantedTable group.new }
{
    order_region(&mut group.rows, job);
    for place in 0..group.indexes.len() {
        order_region(&mut group.indexes[place].region, job);
    }
}

/// Orders it of each table.
fn order_all<D: Disk>(groups: &mut [Group], job: Ordered)
    ensures settle { (disk : D) → AllSettle ⟦<D as Disk>⟧ disk groups.old groups.new }
    ensures ordered { AreOrdered groups.new }
    ensures wanted { job ≡ jobs.CompactAll → AllByRecursion IsWantedTable groups.new }
{
    for place in 0..groups.len() {
        order_table::<D>(&mut groups[place], job);
    }
}

impl<D: CountsCalls, C: Clock, B: Based + Founded> Server<D, C, B> {
    /// Makes a step of a region of the table at a place.
    fn step_at(&mut self, place: usize, region: Due) -> Result<Work, StepFault>
        requires running { self.old.closed ≡ None }
        requires raised { self.old.raising ≡ None }
        requires place { place < length self.old.groups }
        requires region { (g : Groups) → get_or self.old.groups place g ≡ g → IsDueIn g region }
        ensures ok { IfOk result (DidWork (known_by B.base B.damaged self.old) (known_by B.base B.damaged self.new)) }
        ensures unlooked { rows_looked self.new.groups ≡ rows_looked self.old.groups }
        ensures doubts { IfOk result (λ _. (p : Points) → (v : IndexVersion) → have_doubt self.new.groups p v ≡ have_doubt self.old.groups p v) }
        ensures done { IfOk result (λ work. IsIdleWork work → (job : Orders) → IsDoneBy self.new job) }
        ensures ordered { IfOk result (λ work. (job : Orders) → IsOrderedBy self.old job → IsOrderedBy self.new job) }
        ensures refused { IfErr result (Refuses (upkeep_cause B.sound) (known_by B.base B.damaged self.old) (known_by B.base B.damaged self.new)) }
        ensures counts { MakesAtMost 4 self.old self.new }
        ensures blames { IfErr result (Blames self.old self.new) }
    {
        match step_table(&mut self.groups[place], region, &mut self.disk) {
            Ok(_) => Ok(Work::Did),
            Err(JobFault::Memory) => Err(StepFault::Memory),
            Err(JobFault::WriteFault) => {
                let calls = self.disk.call_count();
                self.closed = Some(calls);
                shut(&mut self.trail, self.seat, calls);
                Err(StepFault::WriteFault)
            }
        }
    }

    /// Begins the compaction that forgets of a region of the table at a place. Its horizon rises before, as far as is allowed.
    fn begin_at(&mut self, place: usize, region: Due) -> Result<Work, StepFault>
        requires running { self.old.closed ≡ None }
        requires raised { self.old.raising ≡ None }
        requires place { place < length self.old.groups }
        requires region { (g : Groups) → get_or self.old.groups place g ≡ g → IsDueIn g region }
        ensures ok { IfOk result (DidWork (known_by B.base B.damaged self.old) (known_by B.base B.damaged self.new)) }
        ensures unlooked { rows_looked self.new.groups ≡ rows_looked self.old.groups }
        ensures doubts { IfOk result (λ _. (p : Points) → HasOpen (known_by B.base B.damaged self.old) p → (v : IndexVersion) → have_doubt self.new.groups p v ≡ have_doubt self.old.groups p v) }
        ensures done { IfOk result (λ work. IsIdleWork work → (job : Orders) → IsDoneBy self.new job) }
        ensures ordered { IfOk result (λ work. (job : Orders) → IsOrderedBy self.old job → IsOrderedBy self.new job) }
        ensures refused { IfErr result (Refuses (upkeep_cause B.sound) (known_by B.base B.damaged self.old) (known_by B.base B.damaged self.new)) }
        ensures counts { MakesNoCall self.old self.new }
        ensures blames { IfErr result (Blames self.old self.new) }
    {
        let calls = self.disk.call_count();
        let group = &mut self.groups[place];
        raise_table(group, &mut self.trail, self.lookback, self.seat, calls)?;
        begin_table::<D>(group, region);
        Ok(Work::Did)
    }

    /// Makes a step of the first region that has one to make; or begins the compaction of the first of which one is wanted. It is Idle where no region
    /// of a table that stands has anything to do.
    fn upkeep_regions(&mut self) -> Result<Work, StepFault>
        requires running { self.old.closed ≡ None }
        requires raised { self.old.raising ≡ None }
        ensures ok { IfOk result (DidWork (known_by B.base B.damaged self.old) (known_by B.base B.damaged self.new)) }
        ensures unlooked { rows_looked self.new.groups ≡ rows_looked self.old.groups }
        ensures doubts { IfOk result (λ _. (p : Points) → HasOpen (known_by B.base B.damaged self.old) p → (v : IndexVersion) → have_doubt self.new.groups p v ≡ have_doubt self.old.groups p v) }
        ensures done { IfOk result (λ work. IsIdleWork work → (job : Orders) → IsDoneBy self.new job) }
        ensures ordered { IfOk result (λ work. (job : Orders) → IsOrderedBy self.old job → IsOrderedBy self.new job) }
        ensures refused { IfErr result (Refuses (upkeep_cause B.sound) (known_by B.base B.damaged self.old) (known_by B.base B.damaged self.new)) }
        ensures counts { MakesAtMost 4 self.old self.new }
        ensures blames { IfErr result (Blames self.old self.new) }
    {
        if let Some((place, region)) = busy_table(self.groups.as_slice(), Chore::Due) {
            return self.step_at(place, region);
        }
        match busy_table(self.groups.as_slice(), Chore::Wanted) {
            Some((place, region)) => self.begin_at(place, region),
            None => Ok(Work::Idle),
        }
    }

    /// Raises the horizon of the table at a place as far as is allowed; or, behind the last table, notes that all have risen.
    fn raise_at(&mut self, place: usize) -> Result<Work, StepFault>
        requires running { self.old.closed ≡ None }
        requires raising { self.old.raising ≡ Some place }
        ensures ok { IfOk result (DidWork (known_by B.base B.damaged self.old) (known_by B.base B.damaged self.new)) }
        ensures unlooked { rows_looked self.new.groups ≡ rows_looked self.old.groups }
        ensures doubts { IfOk result (λ _. (p : Points) → HasOpen (known_by B.base B.damaged self.old) p → (v : IndexVersion) → have_doubt self.new.groups p v ≡ have_doubt self.old.groups p v) }
        ensures done { IfOk result (λ work. IsIdleWork work → (job : Orders) → IsDoneBy self.new job) }
        ensures ordered { IfOk result (λ work. (job : Orders) → IsOrderedBy self.old job → IsOrderedBy self.new job) }
        ensures refused { IfErr result (Refuses (upkeep_cause B.sound) (known_by B.base B.damaged self.old) (known_by B.base B.damaged self.new)) }
        ensures counts { MakesNoCall self.old self.new }
        ensures blames { IfErr result (Blames self.old self.new) }
    {
        if place >= self.groups.len() {
            self.raising = None;
            return Ok(Work::Did);
        }
        let calls = self.disk.call_count();
        let group = &mut self.groups[place];
        match raise_table(group, &mut self.trail, self.lookback, self.seat, calls) {
            Ok(()) => {
                self.raising = Some(place + 1);
                Ok(Work::Did)
            }
            Err(fault) => Err(fault),
        }
    }

    /// Makes a step of the renewal of a full catalogue; or raises the horizon of the next table, where that was ordered; or else makes a step of the first
    /// region that has one to make: its log is made, or what stands in its log is flushed to a file, or files are merged, or it forgets. It is Idle where no
    /// region of a table that stands has anything to do: then all that was ordered is done. What was ordered stays so after the step, unless it is refused:
    /// for want of memory an order of the region is given up. What is in doubt at an open point stays so.
    pub fn upkeep(&mut self) -> Result<Work, StepFault>
        ensures ok { IfOk result (DidWork (known_by B.base B.damaged self.old) (known_by B.base B.damaged self.new)) }
        ensures unlooked { rows_looked self.new.groups ≡ rows_looked self.old.groups }
        ensures doubts { IfOk result (λ _. (p : Points) → HasOpen (known_by B.base B.damaged self.old) p → (v : IndexVersion) → have_doubt self.new.groups p v ≡ have_doubt self.old.groups p v) }
        ensures done { IfOk result (λ work. IsIdleWork work → (job : Orders) → IsDoneBy self.new job) }
        ensures ordered { IfOk result (λ work. (job : Orders) → IsOrderedBy self.old job → IsOrderedBy self.new job) }
        ensures refused { IfErr result (Refuses (upkeep_cause B.sound) (known_by B.base B.damaged self.old) (known_by B.base B.damaged self.new)) }
        ensures counts { MakesAtMost 4 self.old self.new }
        ensures blames { IfErr result (Blames self.old self.new) }
    {
        let renewed = self.renew_catalog()?;
        if renewed {
            return Ok(Work::Did);
        }
        match self.raising {
            Some(place) => self.raise_at(place),
            None => self.upkeep_regions(),
        }
    }

    /// Orders this of the tables that stand: that all which stands now in their logs be flushed, or that their horizons rise as far as they may and their
    /// regions forget at them. `upkeep` makes the steps. It makes no call.
    pub fn order(&mut self, job: Ordered) -> Result<(), StepFault>
        ensures ok { IfOk result (DidOrder (known_by B.base B.damaged self.old) (known_by B.base B.damaged self.new)) }
        ensures ordered { IfOk result (λ _. IsOrderedBy self.new job) }
        ensures refused { IfErr result (Refuses order_cause (known_by B.base B.damaged self.old) (known_by B.base B.damaged self.new)) }
        ensures counts { MakesNoCall self.old self.new }
        ensures blames { IfErr result (Blames self.old self.new) }
    {
        if let Some(call) = self.closed {
            return Err(StepFault::Closed { call });
        }
        order_all::<D>(&mut self.groups, job);
        match job {
            Ordered::FlushAll => Ok(()),
            Ordered::CompactAll => {
                self.raising = Some(0);
                Ok(())
            }
        }
    }
}
