//! Tables, rows and lists of numbers as tests write them.
#![tactic(auto)]

ghost use Rattle.std.specs.Prelude.{◌≡◌, ◌∷◌, [], IfOk};
ghost use Rattle.px_values.specs.declared.order.Direction.TheVariants.{Ascending};

use px_tables::{Index, IndexState, KeyPlace, Table, TableColumn};
use px_values::{ColType, Direction, IndexId, Items, Name, Row, TableId, Text, Value};
use std::alloc::{AllocError, Global};

/// A column of a table.
pub fn column(
    alloc: Global,
    name: &str,
    column_type: ColType,
    not_null: bool,
) -> Result<TableColumn, AllocError>
    ensures { IfOk result (λ c. c ≡ record { name = name.now; column_type = column_type; not_null = not_null }) }
{
    let name = Name::from_str(alloc, name)?;
    Ok(TableColumn {
        name,
        column_type,
        not_null,
    })
}

/// A key of one part.
pub fn place(alloc: Global, column: u8, direction: Direction) -> Result<Items<KeyPlace>, AllocError>
    ensures { IfOk result (λ places. places ≡ record { column = column; direction = direction } ∷ []) }
{
    let mut places = Vec::new(alloc);
    places.push(KeyPlace { column, direction })?;
    Ok(Items::of(places))
}

/// A key of several parts.
pub fn places(alloc: Global, places: &[(u8, Direction)]) -> Result<Items<KeyPlace>, AllocError> {
    let mut list = Vec::new(alloc);
    for place in places {
        list.push(KeyPlace {
            column: place.0,
            direction: place.1,
        })?;
    }
    Ok(Items::of(list))
}

/// Table T, of this number, without a region.
pub fn table(
    alloc: Global,
    number: u32,
    columns: Items<TableColumn>,
    key: Items<KeyPlace>,
) -> Result<Table, AllocError>
    ensures { IfOk result (λ t. t ≡ record { id = record { 0 = number }; name = 84 ∷ []; columns = columns; key = key; regions = [] }) }
{
    match Name::from_str(alloc, "T") {
        Ok(name) => Ok(Table {
            id: TableId(number),
            name,
            columns,
            key,
            regions: Items::of(Vec::new(alloc)),
        }),
        Err(fault) => {
            drop(columns);
            drop(key);
            Err(fault)
        }
    }
}

/// Table T, of this number and without a region, whose key is its first column.
pub fn keyed_table(
    alloc: Global,
    number: u32,
    columns: Items<TableColumn>,
) -> Result<Table, AllocError>
    ensures { IfOk result (λ t. t ≡ record { id = record { 0 = number }; name = 84 ∷ []; columns = columns; key = record { column = 0; direction = Ascending } ∷ []; regions = [] }) }
{
    match place(alloc, 0, Direction::Ascending) {
        Ok(key) => table(alloc, number, columns, key),
        Err(fault) => {
            drop(columns);
            Err(fault)
        }
    }
}

/// Index I of table 4, of number 6 and in region 5.
pub fn index(
    alloc: Global,
    state: IndexState,
    birth: u64,
    parts: Items<KeyPlace>,
    included: &[u8],
) -> Result<Index, AllocError>
    ensures { IfOk result (λ i. i ≡ record { id = record { 0 = 6 }; table = record { 0 = 4 }; name = 73 ∷ []; state = state; birth = birth; region = 5; parts = parts; included = included.now }) }
{
    let name = match Name::from_str(alloc, "I") {
        Ok(name) => name,
        Err(fault) => {
            drop(parts);
            return Err(fault);
        }
    };
    match Vec::from_slice(alloc, included) {
        Ok(included) => Ok(Index {
            id: IndexId(6),
            table: TableId(4),
            name,
            state,
            birth,
            region: 5,
            parts,
            included: Items::of(included),
        }),
        Err(fault) => {
            drop(parts);
            Err(fault)
        }
    }
}

/// The value of a word: NULL, a number, or else a text.
fn value(alloc: Global, word: &str) -> Result<Value, AllocError> {
    if word == "NULL" {
        return Ok(Value::Null);
    }
    match word.parse::<i64>() {
        Ok(number) => Ok(Value::Number(i128::from(number))),
        Err(_) => {
            let text = Text::from_str(alloc, word)?;
            Ok(Value::Text(text))
        }
    }
}

/// The row of a line's words.
pub fn row(alloc: Global, line: &str) -> Result<Row, AllocError> {
    let mut values = Vec::new(alloc);
    for word in line.split_whitespace() {
        values.push(value(alloc, word)?)?;
    }
    Ok(Items::of(values))
}

/// The numbers that a line has.
pub fn numbers(alloc: Global, words: &str) -> Result<Vec<u64>, AllocError> {
    let mut numbers = Vec::new(alloc);
    for word in words.split_whitespace() {
        numbers.push(word.parse::<u64>().unwrap_or(u64::MAX))?;
    }
    Ok(numbers)
}
