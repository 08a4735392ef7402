// Names of columns as their places.
ghost use Rattle.std.specs.Prelude.{◌≡◌, ◌≤◌, IfOk, length, map};
ghost use Rattle.px_resolve.specs.Names.{key_place, place_of_name, places_from};

use crate::named::Named;
use crate::names::find_place;
use px_ast::KeyPart;
use px_tables::KeyPlace;
use px_values::Items;
use std::alloc::{AllocError, Global};

/// The places of columns by their names.
pub fn column_places<C: Named, N: Named>(
    alloc: Global,
    columns: &[C],
    names: &[N],
) -> Result<Items<u8>, AllocError>
    requires { length columns.now ≤ 255 }
    ensures { IfOk result (λ places. places ≡ map (place_of_name (map C.name_in columns.now)) (map N.name_in names.now)) }
{
    let mut places = Vec::with_capacity(alloc, names.len())?;
    for item in names {
        places.push(find_place(columns, item.name()) as u8)?;
    }
    Ok(Items::of(places))
}

/// The places of all columns.
pub fn all_columns<C: Named>(alloc: Global, columns: &[C]) -> Result<Items<u8>, AllocError>
    requires { length columns.now ≤ 255 }
    ensures { IfOk result (λ places. places ≡ places_from 0 columns.now) }
{
    let mut places = Vec::with_capacity(alloc, columns.len())?;
    for (place, _column) in columns.iter().enumerate() {
        places.push(place as u8)?;
    }
    Ok(Items::of(places))
}

/// The parts of a key by the names of their columns.
pub fn key_places<C: Named>(
    alloc: Global,
    columns: &[C],
    parts: &[KeyPart],
) -> Result<Items<KeyPlace>, AllocError>
    requires { length columns.now ≤ 255 }
    ensures { IfOk result (λ places. places ≡ map (key_place (map C.name_in columns.now)) parts.now) }
{
    let mut places = Vec::with_capacity(alloc, parts.len())?;
    for part in parts {
        places.push(KeyPlace {
            column: find_place(columns, &part.column) as u8,
            direction: part.direction,
        })?;
    }
    Ok(Items::of(places))
}
