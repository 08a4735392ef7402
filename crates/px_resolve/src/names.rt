// The names of columns in statements.
ghost use Rattle.std.specs.Prelude.{◌≡◌, ◌≤◌, ◌++◌, ◌∷◌, [], All, IfOk, length, map, nat_lt, if◌then◌else◌};
ghost use Rattle.px_resolve.specs.Answers.{AnswersFirst};
ghost use Rattle.px_resolve.specs.Names.{is_among, key_may_be_null, known, once, place_of_name, places_from};
ghost use Rattle.px_resolve.specs.declared.fault.BindFault.TheVariants.{NoColumn, Twice};

use crate::fault::BindFault;
use crate::named::Named;
use px_values::{ColType, Name};
use std::alloc::{AllocError, Global};

/// The place of a column by its name, or the number of columns where none has it.
pub fn find_place<C: Named>(columns: &[C], name: &Name) -> usize
    ensures place { result ≡ place_of_name (map C.name_in columns.now) name.now }
    ensures bound { result ≤ length columns.now }
{
    for (place, column) in columns.iter().enumerate() {
        if column.name().as_str() == name.as_str() {
            return place;
        }
    }
    columns.len()
}

/// Another name that is the same, as a fault tells it.
pub fn copied(alloc: Global, name: &Name) -> Result<Name, AllocError>
    ensures { IfOk result (λ copy. copy ≡ name.now) }
{
    Name::from_str(alloc, name.as_str())
}

/// Refuses a name whose place is behind all columns, or was named before.
fn check_place(
    alloc: Global,
    name: &Name,
    place: usize,
    columns: usize,
    before: bool,
) -> Result<(), BindFault>
    ensures { AnswersFirst (if nat_lt place columns then (if before then Twice name.now ∷ [] else []) else NoColumn name.now ∷ []) result }
{
    if place >= columns {
        return Err(BindFault::NoColumn(copied(alloc, name)?));
    }
    if before {
        return Err(BindFault::Twice(copied(alloc, name)?));
    }
    Ok(())
}

/// Refuses a name that no column has.
pub fn check_known<C: Named>(alloc: Global, columns: &[C], name: &Name) -> Result<(), BindFault>
    ensures { AnswersFirst (known (map C.name_in columns.now) (name.now ∷ [])) result }
{
    let place = find_place(columns, name);
    check_place(alloc, name, place, columns.len(), false)
}

/// Refuses the first of these names that no column has.
pub fn check_all_known<C: Named, N: Named>(
    alloc: Global,
    columns: &[C],
    names: &[N],
) -> Result<(), BindFault>
    ensures { AnswersFirst (known (map C.name_in columns.now) (map N.name_in names.now)) result }
{
    for item in names {
        check_known(alloc, columns, item.name())?;
    }
    Ok(())
}

/// Whether a place is among these.
pub fn contains(places: &[usize], place: usize) -> bool
    ensures { result ≡ is_among places.now place }
{
    places.contains(&place)
}

/// The places of columns of which each is named once, and none is among those named before.
pub fn bind_once<C: Named, N: Named>(
    alloc: Global,
    columns: &[C],
    before: &[usize],
    names: &[N],
) -> Result<Vec<usize>, BindFault>
    ensures faults { AnswersFirst (once (map C.name_in columns.now) before.now (map N.name_in names.now)) result }
    ensures places { IfOk result (λ places. places.items ≡ map (place_of_name (map C.name_in columns.now)) (map N.name_in names.now)) }
    ensures bound { IfOk result (λ places. All (λ p. p ≤ length columns.now) places.items) }
{
    let mut places = Vec::with_capacity(alloc, names.len())?;
    for item in names {
        let place = find_place(columns, item.name());
        let seen = contains(before, place) || contains(places.as_slice(), place);
        match check_place(alloc, item.name(), place, columns.len(), seen) {
            Ok(()) => places.push(place)?,
            Err(fault) => {
                drop(places);
                return Err(fault);
            }
        }
    }
    Ok(places)
}

/// The places of all columns.
pub fn all_places<C>(alloc: Global, columns: &[C]) -> Result<Vec<usize>, AllocError>
    ensures places { IfOk result (λ places. places.items ≡ places_from 0 columns.now) }
    ensures bound { IfOk result (λ places. All (λ p. p ≤ length columns.now) places.items) }
{
    let mut places = Vec::with_capacity(alloc, columns.len())?;
    for (place, _column) in columns.iter().enumerate() {
        places.push(place)?;
    }
    Ok(places)
}

/// Whether a primary key column may be NULL: a text without NOT NULL may.
pub fn may_be_null(column_type: ColType, not_null: bool) -> bool
    ensures { result ≡ key_may_be_null column_type not_null }
{
    match column_type {
        ColType::Varchar => !not_null,
        _ => false,
    }
}
