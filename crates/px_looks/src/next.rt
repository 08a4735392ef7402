// The next keys of a path.
ghost use Rattle.std.specs.Prelude.{Ok, Option, min, ◌≡◌, ◌≢◌, ◌+◌, ◌<◌, ◌≤◌, ◌-◌, ◌∷◌, [], ◌⊎◌, get_or, ℕ, List, Some, length, IfOk, OnOk, MatchOption, Err};
ghost use Rattle.std.specs.declared.cmp.Ordering.TheVariants.{Less};
ghost use Rattle.std.specs.Option.{option_copied};
ghost use Rattle.px_cells.specs.Contents.{value_at};
ghost use Rattle.px_cells.specs.Order.{key_cmp};
ghost use Rattle.px_cells.specs.Rows.{IsBeforeEnd};
ghost use Rattle.px_cells.specs.Sight.{IsPlainRegion};
ghost use Rattle.px_region.specs.Giving.{key_at};
ghost use Rattle.px_outside.specs.OnDisk.{Rose};
ghost use Rattle.px_region.specs.OnlyRead.{HasOnlyRead};
ghost use Rattle.px_region.specs.Promise.{IsAlike, IsSamePromise};
ghost use Rattle.px_region.specs.Region.{read_of};
ghost use Rattle.px_region.specs.declared.fault.LookFault.{LookFault as Fault};
ghost use Rattle.px_trail.specs.Answers.{IsAmong};
ghost use Rattle.px_calls.specs.Looks.{key_found as found_key_of};
ghost use Rattle.px_calls.specs.declared.query.FoundKey.{FoundKey as Finding};
ghost use Rattle.px_looks.specs.Counted.{HasCounted};
ghost use Rattle.px_looks.specs.Found.{AreFoundIn, AreNext, at_key};
ghost use Rattle.px_looks.specs.Keys.{next_key};
ghost use Rattle.px_looks.specs.declared.next.Way.{Way as Ways};
ghost use Rattle.px_looks.specs.inner.Parts.{FoundTo, IsFirst, end_or};

use crate::lent::{Lent, lend};
use crate::reader::{Reader, find_all};
use px_calls::FoundKey;
use px_outside::Disk;
use px_region::{FoundRows, LookFault, Region};
use px_values::{Items, Key};
use std::alloc::{AllocError, Global};

/// The most keys that one look gives.
const MOST: u64 = 64;

/// What is found at the next keys of a path, in order, at most 64. Where there may be more, `next` is the last of them.
#[derive(Drop)]
pub struct NextKeys {
    pub found: Items<FoundKey>,
    pub next: Option<Key>,
}

/// What is found from a key on, up to before `end` or to the end of the path.
#[derive(Drop)]
struct Part {
    found: Vec<FoundKey>,
    end: Option<Key>,
}

/// The least key above a key.
fn key_after(alloc: Global, key: &[u8]) -> Result<Key, AllocError>
    ensures { IfOk result (λ k. k ≡ next_key key.now) }
{
    let mut bytes = Vec::with_capacity(alloc, key.len())?;
    bytes.extend_from_slice(key)?;
    bytes.push(0)?;
    Ok(Key::of(bytes))
}

/// Where the rows behind the lent ones begin, if as many were lent as were to be.
fn end_of(alloc: Global, lent: &Lent<'_>) -> Result<Option<Key>, AllocError>
    ensures { IfOk result (λ end. MatchOption end ((lent.now.rows < lent.now.most) ⊎ (length lent.now.cells.now ≡ 0)) (λ e. (0 < length lent.now.cells.now) × (e ≡ next_key (key_at lent.now.cells.now (length lent.now.cells.now - 1))))) }
{
    let count = lent.cells.len();
    if lent.rows < lent.most || count == 0 {
        return Ok(None);
    }
    let end = key_after(alloc, lent.cells[count - 1].key())?;
    Ok(Some(end))
}

/// What is found of the next rows from a key on, at most of so many.
fn look_part<D: Disk, R: Reader>(
    alloc: Global,
    disk: &mut D,
    region: &mut Region,
    reader: &R,
    low: &[u8],
    high: Option<&[u8]>,
    most: u64,
) -> Result<Part, LookFault>
    requires most { 0 < most }
    requires region { IsPlainRegion (read_of region.old) }
    requires admits { (k : List ℕ) → R.admits reader.now k (at_key (value_at (read_of region.old)) k) }
    ensures found { IfOk result (λ part. AreFoundIn (R.shows reader.now) (value_at (read_of region.old)) low.now (end_or part.end (option_copied high.entry)) part.found.items) }
    ensures few { IfOk result (λ part. length part.found.items ≤ most) }
    ensures up { IfOk result (λ part. (e : List ℕ) → part.end ≡ Some e → key_cmp low.now e ≡ Less) }
    ensures below { IfOk result (λ part. (f : Finding) → IsAmong f part.found.items → IsBeforeEnd (found_key_of f) (option_copied high.entry)) }
    ensures counted { IfOk result (λ part. HasCounted region.old region.new (length part.found.items)) }
    ensures risen { region.old.looked ≤ region.new.looked }
    ensures alike { IsAlike region.old region.new }
    ensures promised { IsSamePromise region.old region.new }
    ensures undamaged { (file place : ℕ) → result ≢ Err (Fault.Damaged file place) }
    ensures failed { result ≡ Err Fault.ReadFault → Rose ⟦<D as Disk>⟧ disk.old disk.new }
    ensures only_read { HasOnlyRead ⟦<D as Disk>⟧ disk.old disk.new }
{
    reader.law();
    let FoundRows { cells, is_all } = region.read_rows(disk, low, high, most)?;
    let lent = lend(cells.as_slice(), is_all, most);
    let rows = lent.rows;
    let Ok(end) = end_of(alloc, &lent) else {
        return Err(LookFault::Memory);
    };
    let Ok(found) = find_all(alloc, reader, lent.cells) else {
        return Err(LookFault::Memory);
    };
    drop(cells);
    region.look_at(rows);
    Ok(Part { found, end })
}

/// Another key that is the same.
fn key_copy(alloc: Global, key: &[u8]) -> Result<Key, AllocError>
    ensures { IfOk result (λ k. k ≡ key.now) }
{
    let bytes = Vec::from_slice(alloc, key)?;
    Ok(Key::of(bytes))
}

/// The first key of a path that is past one.
fn first_past(alloc: Global, low: &[u8], after: &[u8]) -> Result<Key, AllocError>
    ensures { IfOk result (λ from. IsFirst low.now (Some after.now) from) }
{
    if after.cmp(low).is_lt() {
        let from = key_copy(alloc, low)?;
        return Ok(from);
    }
    let from = key_after(alloc, after)?;
    Ok(from)
}

/// The first key of a path, past one if it is given.
fn first_of(alloc: Global, low: &[u8], after: Option<&[u8]>) -> Result<Key, AllocError>
    ensures { IfOk result (λ from. IsFirst low.now (option_copied after.entry) from) }
{
    match after {
        Some(after) => {
            let from = first_past(alloc, low, after)?;
            Ok(from)
        }
        None => {
            let from = Vec::from_slice(alloc, low)?;
            Ok(Key::of(from))
        }
    }
}

/// The key of what is found there.
fn key_of(found: &FoundKey) -> &[u8]
    ensures { result.now ≡ found_key_of found.now }
{
    match found {
        FoundKey::Sure(row) => row.key.as_slice(),
        FoundKey::InDoubt(doubt) => doubt.key.as_slice(),
    }
}

/// The next keys of what is found so far, if they are as many as one look gives.
fn full_of(alloc: Global, found: &[FoundKey]) -> Result<Option<Key>, AllocError>
    ensures { IfOk result (λ next. MatchOption next (length found.now ≢ 64) (λ n. (length found.now ≡ 64) × ((f : Finding) → f ≡ get_or found.now (length found.now - 1) f → n ≡ found_key_of f))) }
{
    let count = found.len();
    if count as u64 != MOST {
        return Ok(None);
    }
    let last = Vec::from_slice(alloc, key_of(&found[count - 1]))?;
    Ok(Some(Key::of(last)))
}

/// Whether the keys are gone through: there is more from a key on, or these are all, or the next ones up to the last.
#[derive(Drop)]
enum Way {
    More,
    Over(Option<Key>),
}

/// How many keys are left to be given.
fn left_of(found: &[FoundKey]) -> u64
    requires { length found.now < 64 }
    ensures { result + length found.now ≡ 64 }
{
    MOST - found.len() as u64
}

/// What is to be done where the keys are gone through up to before `end`.
fn way_from(alloc: Global, from: &mut Key, end: Key, found: &[FoundKey]) -> Result<Way, LookFault>
    requires { length found.now ≤ 64 }
    ensures memory { (fault : Fault) → result ≡ Err fault → fault ≡ Fault.Memory }
    ensures more { result ≡ Ok Way.More → (from.new ≡ end) × (length found.now < 64) }
    ensures over { (next : Option (List ℕ)) → result ≡ Ok (Way.Over next) → (length found.now ≡ 64) × ((n : List ℕ) × (next ≡ Some n) × ((f : Finding) → f ≡ get_or found.now (length found.now - 1) f → n ≡ found_key_of f)) }
{
    match full_of(alloc, found) {
        Err(_) => Err(LookFault::Memory),
        Ok(Some(next)) => Ok(Way::Over(Some(next))),
        Ok(None) => {
            *from = end;
            Ok(Way::More)
        }
    }
}

/// Goes through the next keys from one on, and adds what is found.
fn look_on<D: Disk, R: Reader>(
    alloc: Global,
    disk: &mut D,
    region: &mut Region,
    reader: &R,
    from: &mut Key,
    high: Option<&[u8]>,
    found: &mut Vec<FoundKey>,
) -> Result<Way, LookFault>
    requires few { length found.old.items < 64 }
    requires region { IsPlainRegion (read_of region.old) }
    requires admits { (k : List ℕ) → R.admits reader.now k (at_key (value_at (read_of region.old)) k) }
    ensures more { result ≡ Ok Way.More → (start : List ℕ) → FoundTo (R.shows reader.now) (value_at (read_of region.old)) start (option_copied high.entry) from.old found.old.items → FoundTo (R.shows reader.now) (value_at (read_of region.old)) start (option_copied high.entry) from.new found.new.items }
    ensures few { result ≡ Ok Way.More → length found.new.items < 64 }
    ensures over { (next : Option (List ℕ)) → result ≡ Ok (Way.Over next) → (start low : List ℕ) (after : Option (List ℕ)) → IsFirst low after start → FoundTo (R.shows reader.now) (value_at (read_of region.old)) start (option_copied high.entry) from.old found.old.items
        → AreNext (R.shows reader.now) (value_at (read_of region.old)) low (option_copied high.entry) after found.new.items next }
    ensures counted { (way : Ways) (start : ℕ) → result ≡ Ok way → min (start + length found.old.items) 18446744073709551615 ≤ region.old.looked → min (start + length found.new.items) 18446744073709551615 ≤ region.new.looked }
    ensures risen { region.old.looked ≤ region.new.looked }
    ensures alike { IsAlike region.old region.new }
    ensures promised { IsSamePromise region.old region.new }
    ensures undamaged { (file place : ℕ) → result ≢ Err (Fault.Damaged file place) }
    ensures failed { result ≡ Err Fault.ReadFault → Rose ⟦<D as Disk>⟧ disk.old disk.new }
    ensures only_read { HasOnlyRead ⟦<D as Disk>⟧ disk.old disk.new }
{
    let most = left_of(found.as_slice());
    let Part {
        found: mut more,
        end,
    } = look_part(alloc, disk, region, reader, from.as_slice(), high, most)?;
    let Ok(()) = found.append(&mut more) else {
        return Err(LookFault::Memory);
    };
    match end {
        None => Ok(Way::Over(None)),
        Some(end) => way_from(alloc, from, end, found.as_slice()),
    }
}

/// The next of what is found at the keys of a path, past one if it is given.
pub(crate) fn look_next<D: Disk, R: Reader>(
    alloc: Global,
    disk: &mut D,
    region: &mut Region,
    reader: &R,
    low: &[u8],
    high: Option<&[u8]>,
    after: Option<&[u8]>,
) -> Result<NextKeys, LookFault>
    requires region { IsPlainRegion (read_of region.old) }
    requires admits { (k : List ℕ) → R.admits reader.now k (at_key (value_at (read_of region.old)) k) }
    ensures next { IfOk result (λ n. AreNext (R.shows reader.now) (value_at (read_of region.old)) low.now (option_copied high.entry) (option_copied after.entry) n.found n.next) }
    ensures counted { IfOk result (λ n. HasCounted region.old region.new (length n.found)) }
    ensures risen { region.old.looked ≤ region.new.looked }
    ensures alike { IsAlike region.old region.new }
    ensures promised { IsSamePromise region.old region.new }
    ensures undamaged { (file place : ℕ) → result ≢ Err (Fault.Damaged file place) }
    ensures failed { result ≡ Err Fault.ReadFault → Rose ⟦<D as Disk>⟧ disk.old disk.new }
    ensures only_read { HasOnlyRead ⟦<D as Disk>⟧ disk.old disk.new }
{
    let Ok(mut from) = first_of(alloc, low, after) else {
        return Err(LookFault::Memory);
    };
    let mut found = Vec::new(alloc);
    for _round in 0..u64::MAX {
        match look_on(alloc, disk, region, reader, &mut from, high, &mut found)? {
            Way::More => {}
            Way::Over(next) => {
                return Ok(NextKeys {
                    found: Items::of(found),
                    next,
                });
            }
        }
    }
    // No memory has so many rows.
    Err(LookFault::Memory)
}
