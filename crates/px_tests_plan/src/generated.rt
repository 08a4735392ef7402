// Conditions that are made by dice: by every path a table's rows are selected as by the condition alone.
ghost use Rattle.std.specs.Prelude.{◌⊎◌, IfOk};
ghost use Rattle.std.specs.List.{All};
ghost use Rattle.px_keys.specs.Spelling.{IsNullFixed, PartFits};

use px_ast::{Boxed, Comparison};
use px_bind::{Hint, Query};
use px_expr::{Bound, Term, Test, Truth, holds};
use px_keys::{Part, encode_key};
use px_paths::PathColumn;
use px_plan::{Plan, choose, path_columns};
use px_tables::{Found, Index, IndexState, Table, TableColumn, TableRegion};
use px_tests_layouts::{column, places};
use px_values::{ColType, Direction, IndexId, Items, Key, Name, TableId, Text, Value};
use std::alloc::{AllocError, Global};
use std::process::Abort;
use std::test::Fail;

/// How many conditions are tried, and over how many rows.
const CONDITIONS: u64 = 5_000;

const ROWS: u64 = 12;

/// Those of the indexes, and the table's own.
const PATHS: usize = 4;

/// The names of the indexes.
const INDEXES: [&str; 3] = ["BY_C", "BY_BC", "BY_DC"];

/// Dice that fall alike in each run.
#[derive(Drop)]
struct Dice {
    state: u64,
}

impl Dice {
    fn of(seed: u64) -> Dice {
        Dice {
            state: seed.wrapping_mul(0x9e37_79b9_7f4a_7c15),
        }
    }

    /// One of so many numbers from 0 on.
    fn one_of(&mut self, count: u64) -> u64 {
        self.state = self
            .state
            .wrapping_mul(6_364_136_223_846_793_005)
            .wrapping_add(1_442_695_040_888_963_407);
        let high = self.state >> 33;
        if count == 0 { 0 } else { high % count }
    }
}

// ---- a table with a descending text that may be NULL in its key, and three indexes

fn columns(alloc: Global) -> Result<Items<TableColumn>, AllocError> {
    let mut list = Vec::new(alloc);
    list.push(column(alloc, "A", ColType::TinyInt, false)?)?;
    list.push(column(alloc, "B", ColType::Varchar, false)?)?;
    list.push(column(alloc, "C", ColType::Integer, false)?)?;
    list.push(column(alloc, "D", ColType::Boolean, false)?)?;
    Ok(Items::of(list))
}

fn index(
    alloc: Global,
    number: u32,
    name: &str,
    parts: &[(u8, Direction)],
    included: &[u8],
) -> Result<Index, AllocError> {
    let name = Name::from_str(alloc, name)?;
    let parts = places(alloc, parts)?;
    let included = Vec::from_slice(alloc, included)?;
    Ok(Index {
        id: IndexId(number),
        table: TableId(2),
        name,
        state: IndexState::Active,
        birth: 1,
        region: number,
        parts,
        included: Items::of(included),
    })
}

fn indexes(alloc: Global) -> Result<Items<Index>, AllocError> {
    let up = Direction::Ascending;
    let down = Direction::Descending;
    let mut list = Vec::new(alloc);
    list.push(index(alloc, 3, INDEXES[0], &[(2, down)], &[3])?)?;
    list.push(index(alloc, 4, INDEXES[1], &[(1, up), (2, up)], &[3])?)?;
    list.push(index(alloc, 5, INDEXES[2], &[(3, down), (2, down)], &[])?)?;
    Ok(Items::of(list))
}

fn found(alloc: Global) -> Result<Found, AllocError> {
    let up = Direction::Ascending;
    let down = Direction::Descending;
    let name = Name::from_str(alloc, "T")?;
    let columns = columns(alloc)?;
    let key = places(alloc, &[(0, up), (1, down)])?;
    let indexes = indexes(alloc)?;
    let mut regions = Vec::new(alloc);
    regions.push(TableRegion {
        number: 1,
        least_key: Key::of(Vec::new(alloc)),
    })?;
    Ok(Found {
        table: Table {
            id: TableId(2),
            name,
            columns,
            key,
            regions: Items::of(regions),
        },
        indexes,
        at: 0,
    })
}

// ---- values, rows and conditions

fn text(alloc: Global, text: &str) -> Result<Value, AllocError> {
    Ok(Value::Text(Text::from_str(alloc, text)?))
}

/// A value that a column may have, or a literal beyond its type where `literal` is set.
fn value(alloc: Global, dice: &mut Dice, column: u8, literal: bool) -> Result<Value, AllocError> {
    let beyond = literal && dice.one_of(6) == 0;
    match column {
        0 => Ok(Value::Number(match (beyond, dice.one_of(7)) {
            (true, 0) => -129,
            (true, 1) => 128,
            (true, _) => 3_000_000_000,
            (false, 0) => -128,
            (false, 1) => -1,
            (false, 2) => 0,
            (false, 3) => 1,
            (false, 4) => 2,
            (false, _) => 127,
        })),
        1 => match (beyond, dice.one_of(6)) {
            (true, _) => Ok(Value::Null),
            (false, 0) => Ok(Value::Null),
            (false, 1) => text(alloc, "a"),
            (false, 2) => text(alloc, "ab"),
            (false, 3) => text(alloc, "b"),
            (false, 4) => text(alloc, "\u{1}"),
            (false, _) => text(alloc, "é"),
        },
        2 => match (beyond, dice.one_of(6)) {
            (true, 0) => Ok(Value::Number(-2_147_483_649)),
            (true, _) => Ok(Value::Number(2_147_483_648)),
            (false, 0) => Ok(Value::Null),
            (false, 1) => Ok(Value::Number(-2_147_483_648)),
            (false, 2) => Ok(Value::Number(-1)),
            (false, 3) => Ok(Value::Number(0)),
            (false, 4) => Ok(Value::Number(1)),
            (false, _) => Ok(Value::Number(2_147_483_647)),
        },
        _ => match dice.one_of(3) {
            0 => Ok(Value::Null),
            1 => Ok(Value::Truth(false)),
            _ => Ok(Value::Truth(true)),
        },
    }
}

fn row(alloc: Global, dice: &mut Dice) -> Result<Items<Value>, AllocError> {
    let mut values = Vec::new(alloc);
    for column in 0..4u8 {
        values.push(value(alloc, dice, column, false)?)?;
    }
    Ok(Items::of(values))
}

fn comparison(dice: &mut Dice) -> Comparison {
    match dice.one_of(8) {
        0 | 1 => Comparison::Equal,
        2 => Comparison::NotEqual,
        3 => Comparison::Less,
        4 => Comparison::LessEqual,
        5 | 6 => Comparison::Greater,
        _ => Comparison::GreaterEqual,
    }
}

fn literal(alloc: Global, dice: &mut Dice, column: u8) -> Result<Term, AllocError> {
    Ok(Term::Value(value(alloc, dice, column, true)?))
}

fn test(alloc: Global, dice: &mut Dice) -> Result<Bound, AllocError> {
    let column = match dice.one_of(4) {
        0 => 0,
        1 => 1,
        2 => 2,
        _ => 3,
    };
    let negated = dice.one_of(5) == 0;
    let term = Term::Column(column);
    match dice.one_of(8) {
        0 => Ok(Bound::Test(Test::IsNull { term, negated })),
        1 => {
            let mut values = Vec::new(alloc);
            values.push(value(alloc, dice, column, true)?)?;
            values.push(value(alloc, dice, column, true)?)?;
            Ok(Bound::Test(Test::In {
                term,
                negated,
                values: Items::of(values),
            }))
        }
        2 | 3 => {
            let low = literal(alloc, dice, column)?;
            let high = literal(alloc, dice, column)?;
            Ok(Bound::Test(Test::Between {
                term,
                negated,
                low,
                high,
            }))
        }
        _ => {
            let right = literal(alloc, dice, column)?;
            Ok(Bound::Test(Test::Compare {
                comparison: comparison(dice),
                left: term,
                right,
            }))
        }
    }
}

/// A test, a NOT of one, or an OR of two.
fn conjunct(alloc: Global, dice: &mut Dice) -> Result<Bound, AllocError> {
    match dice.one_of(10) {
        0 => {
            let part = test(alloc, dice)?;
            Ok(Bound::Not(Boxed::new(alloc, part)?))
        }
        1 => {
            let mut parts = Vec::new(alloc);
            parts.push(test(alloc, dice)?)?;
            parts.push(test(alloc, dice)?)?;
            Ok(Bound::Or(Items::of(parts)))
        }
        _ => test(alloc, dice),
    }
}

/// An AND of up to five conjuncts, of which the first ones stand in an AND of their own.
fn condition(alloc: Global, seed: u64) -> Result<Bound, AllocError> {
    let mut dice = Dice::of(seed);
    let mut inner = Vec::new(alloc);
    for _ in 0..dice.one_of(3) {
        inner.push(conjunct(alloc, &mut dice)?)?;
    }
    let mut parts = Vec::new(alloc);
    parts.push(Bound::And(Items::of(inner)))?;
    for _ in 0..dice.one_of(3).saturating_add(1) {
        parts.push(conjunct(alloc, &mut dice)?)?;
    }
    Ok(Bound::And(Items::of(parts)))
}

// ---- paths

/// The query of a condition by the index of this number, or by the table where there is none.
fn query(alloc: Global, condition: Bound, path: usize) -> Result<Query, AllocError> {
    let hint = match INDEXES.get(path) {
        Some(name) => Hint::Index(Name::from_str(alloc, name)?),
        None => Hint::NoIndex,
    };
    let mut hints = Vec::new(alloc);
    hints.push(hint)?;
    let shown = Vec::from_slice(alloc, &[0u8, 1, 2, 3])?;
    Ok(Query {
        table: TableId(2),
        hints: Items::of(hints),
        shown: Items::of(shown),
        filter: Some(condition),
        order: Items::of(Vec::new(alloc)),
        limit: None,
    })
}

/// The values of a row in the columns of a path.
fn key_parts<'a>(
    rt: &impl Abort,
    alloc: Global,
    path: &[PathColumn],
    row: &'a [Value],
    null: &'a Value,
) -> Result<Vec<Part<'a>>, AllocError>
    ensures { IfOk result (λ parts. All (λ part. PartFits part ⊎ IsNullFixed part) parts.items) }
{
    let mut parts = Vec::new(alloc);
    for column in path {
        let part = Part {
            column: column.column,
            value: row.get(column.place as usize).unwrap_or(null),
        };
        assert!(rt; part.can_stand());
        parts.push(part)?;
    }
    Ok(parts)
}

/// The key of a row by the index of this number.
fn key(
    rt: &impl Abort,
    alloc: Global,
    found: &Found,
    path: usize,
    row: &[Value],
) -> Result<Key, AllocError> {
    let columns = path_columns(alloc, &found.table, found.indexes.as_slice().get(path))?;
    let null = Value::Null;
    let key = match key_parts(rt, alloc, columns.as_slice(), row, &null) {
        Ok(parts) => match encode_key(alloc, parts.as_slice()) {
            Ok(key) => Ok(key),
            Err(_) => panic!(rt; "no key"),
        },
        Err(fault) => Err(fault),
    };
    drop(columns);
    drop(null);
    key
}

fn is_read(plan: &Plan, key: &Key) -> bool {
    let low = plan.bounds.low.as_slice() <= key.as_slice();
    match &plan.bounds.high {
        Some(high) => low && key.as_slice() < high.as_slice(),
        None => low,
    }
}

fn rest_holds(plan: &Plan, row: &[Value]) -> bool {
    for part in plan.rest.as_slice() {
        if holds(part, row) != Truth::True {
            return false;
        }
    }
    true
}

/// A row, and its key by each path.
#[derive(Drop)]
struct Tried {
    row: Items<Value>,
    keys: Items<Key>,
}

fn row_tried(
    rt: &impl Abort,
    alloc: Global,
    found: &Found,
    dice: &mut Dice,
) -> Result<Tried, AllocError> {
    let row = row(alloc, dice)?;
    let mut keys = Vec::new(alloc);
    for path in 0..PATHS {
        keys.push(key(rt, alloc, found, path, row.as_slice())?)?;
    }
    Ok(Tried {
        row,
        keys: Items::of(keys),
    })
}

/// The plan of a condition by a path.
fn plan(
    rt: &impl Abort,
    alloc: Global,
    found: &Found,
    seed: u64,
    path: usize,
) -> Result<Plan, AllocError> {
    let query = query(alloc, condition(alloc, seed)?, path)?;
    match choose(alloc, query, found, None) {
        Ok(plan) => {
            assert_eq!(rt; plan.index.is_some(), path < INDEXES.len());
            Ok(plan)
        }
        Err(_) => panic!(rt; "no path"),
    }
}

/// Whether each path selects each row that the condition does.
fn try_condition(
    rt: &impl Abort,
    alloc: Global,
    found: &Found,
    rows: &[Tried],
    seed: u64,
) -> Result<(), AllocError> {
    let whole = condition(alloc, seed)?;
    for path in 0..PATHS {
        let plan = plan(rt, alloc, found, seed, path)?;
        for tried in rows {
            let row = tried.row.as_slice();
            let key = tried
                .keys
                .as_slice()
                .get(path)
                .expect(rt, "a key by each path");
            let selected = holds(&whole, row) == Truth::True;
            let given = is_read(&plan, key) && rest_holds(&plan, row);
            assert_eq!(rt; given, selected, "condition {seed} by path {path}");
        }
        drop(plan);
    }
    drop(whole);
    Ok(())
}

#[test]
fn every_path_selects_the_same_rows(rt: HostRuntime) -> Result<(), Fail> {
    let alloc = rt.alloc();
    let found = found(alloc)?;
    let mut dice = Dice::of(7);
    let mut rows = Vec::new(alloc);
    for _ in 0..ROWS {
        rows.push(row_tried(&rt, alloc, &found, &mut dice)?)?;
    }
    for seed in 0..CONDITIONS {
        try_condition(&rt, alloc, &found, rows.as_slice(), seed)?;
    }
    Ok(())
}
