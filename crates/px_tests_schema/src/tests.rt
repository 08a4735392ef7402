// Definitions to bytes and back.
ghost use Rattle.std.specs.Prelude.{◌≤◌};

use crate::rewritten;
use px_schema::{CatalogItem, DefFault, Standing, fresh, read_definition, read_snapshot};
use px_tables::Table;
use px_values::ColType;
use std::alloc::Global;
use std::process::Abort;
use std::test::Fail;

/// The body of the fresh snapshot: next number 3; one table, of number 2, named KV, with the columns K (VARCHAR, NOT
/// NULL) and V (VARCHAR), the key K ascending, and region 1 with the empty least key; no index.
const FRESH: [u8; 34] = [
    0, 0, 0, 3, 0, 1, 0, 0, 0, 2, 2, 75, 86, 2, 1, 75, 8, 1, 1, 86, 8, 0, 1, 0, 0, 1, 0, 0, 0, 1,
    0, 0, 0, 0,
];

#[test]
fn fresh_bytes_are_read(rt: HostRuntime) -> Result<(), Fail> {
    let read = read_snapshot(rt.alloc(), 1, &FRESH)?;
    let standing = fresh(rt.alloc())?;
    assert_eq!(rt; read.next, 3);
    assert_eq!(rt; standing.next, 3);
    assert_eq!(rt; read.tables.as_slice().len(), 1);
    assert_eq!(rt; read.indexes.as_slice().len(), 0);
    for table in read.tables.as_slice() {
        assert_eq!(rt; table.name.as_str(), "KV");
        assert_eq!(rt; table.id.0, 2);
    }
    Ok(())
}

#[test]
fn a_table_goes_to_bytes_and_back(rt: HostRuntime) -> Result<(), Fail> {
    let standing = fresh(rt.alloc())?;
    let body = every_type(rt.alloc(), 63)?;
    assert!(rt; body.len() < 10_000);
    let written = rewritten(rt.alloc(), 2, &body, &standing)?;
    assert_eq!(rt; written.as_slice(), body.as_slice());
    match read_definition(rt.alloc(), 2, &body, &standing)? {
        CatalogItem::TableIs(table) => is_every_type(&rt, &table),
        _ => assert!(rt; false),
    }
    Ok(())
}

/// Each other byte at each place gives another definition, or is refused at a place of the record.
#[test]
fn every_changed_byte_is_told(rt: HostRuntime) -> Result<(), Fail> {
    let standing = fresh(rt.alloc())?;
    let short = every_type(rt.alloc(), 1)?;
    for step in 1..=255u8 {
        changes_are_told(&rt, rt.alloc(), &standing, &short, step)?;
    }
    // Of the longest names each bit is turned, and all of them.
    let long = every_type(rt.alloc(), 63)?;
    for step in [1, 2, 4, 8, 16, 32, 64, 128, 255] {
        changes_are_told(&rt, rt.alloc(), &standing, &long, step)?;
    }
    Ok(())
}

fn changes_are_told(
    rt: &impl Abort,
    alloc: Global,
    standing: &Standing,
    body: &[u8],
    step: u8,
) -> Result<(), Fail> {
    assert!(rt; body.len() < 10_000);
    let most = 5 + body.len() as u64;
    let mut changed = Vec::from_slice(alloc, body)?;
    for (at, byte) in body.iter().enumerate() {
        set(&mut changed, at, *byte ^ step);
        assert!(rt; changed.len() < 10_000);
        match rewritten(alloc, 2, &changed, standing) {
            Ok(written) => assert_eq!(rt; written.as_slice(), changed.as_slice()),
            Err(DefFault::NotADefinition { place }) => {
                assert!(rt; place >= 5);
                assert!(rt; place <= most);
            }
            Err(DefFault::Memory) => assert!(rt; false),
        }
        set(&mut changed, at, *byte);
    }
    Ok(())
}

fn set(bytes: &mut [u8], at: usize, byte: u8) {
    if let Some(place) = bytes.get_mut(at) {
        *place = byte;
    }
}

/// A table with a column of every type, a key of two columns of which the second descends, and two regions. Its names
/// have so many characters of two bytes, and two letters.
fn every_type(alloc: Global, characters: u8) -> Result<Vec<u8>, Fail>
    requires { characters ≤ 100 }
{
    let mut body = Vec::new(alloc);
    body.extend_from_slice(&[0, 0, 0, 9])?;
    push_name(&mut body, characters, b'T')?;
    body.push(8)?;
    for code in [1u8, 2, 3, 4, 5, 6, 7, 8] {
        push_name(&mut body, characters, code)?;
        body.extend_from_slice(&[code, u8::from(code == 1)])?;
    }
    // The key: the first column, and the last one descending.
    body.extend_from_slice(&[2, 0, 0, 7, 1])?;
    // Region 7 from the empty key on, and region 8 from the key 81 on.
    body.extend_from_slice(&[2, 0, 0, 0, 7, 0, 0, 0, 0, 0, 8, 0, 1, 0x81])?;
    Ok(body)
}

fn push_name(body: &mut Vec<u8>, characters: u8, letter: u8) -> Result<(), Fail>
    requires { characters ≤ 100 }
{
    body.push(2 * characters + 2)?;
    for _ in 0..characters {
        body.extend_from_slice("é".as_bytes())?;
    }
    body.extend_from_slice(&[b'C', letter])?;
    Ok(())
}

fn is_every_type(rt: &impl Abort, table: &Table) {
    let types = [
        ColType::TinyInt,
        ColType::SmallInt,
        ColType::Integer,
        ColType::BigInt,
        ColType::UnsignedInt,
        ColType::UnsignedLong,
        ColType::Boolean,
        ColType::Varchar,
    ];
    assert_eq!(rt; table.id.0, 9);
    assert_eq!(rt; table.name.as_str().len(), 128);
    assert_eq!(rt; table.columns.as_slice().len(), 8);
    for (column, ty) in table.columns.as_slice().iter().zip(types) {
        assert!(rt; column.column_type == ty);
        assert_eq!(rt; column.name.as_str().len(), 128);
        assert_eq!(rt; column.not_null, ty == ColType::TinyInt);
    }
    assert_eq!(rt; table.key.as_slice().len(), 2);
    assert_eq!(rt; table.regions.as_slice().len(), 2);
}
