// The entries that rows ask for, and the versions of an index, side by side.
ghost use Rattle.std.specs.Prelude.{◌≡◌, true, false, OnOk};
ghost use Rattle.std.specs.List.Sorted.{IsPermutation, IsSortedBy};
ghost use Rattle.px_verify.specs.Reports.{report_of, same_value as same_value_of, same_values as same_values_of};
ghost use Rattle.px_verify.specs.Rising.{AreApart, AreRisingRows, AreRisingVersions, is_entry_below};
ghost use Rattle.px_verify.specs.inner.Taking.{alone as alone_of, first_taken, judged as judged_of, rest};

use crate::report::{Finding, IndexEntry, Report, Version};
use px_values::{Direction, Value, compare as compare_values};
use std::alloc::AllocError;
use std::cmp::Ordering;

/// What the first key of both lists is, and from which of them it is taken.
#[derive(Clone, Copy)]
pub(crate) struct Taken {
    pub(crate) finding: Finding,
    pub(crate) row: bool,
    pub(crate) version: bool,
}

fn same_value(a: &Value, b: &Value) -> bool
    ensures { result ≡ same_value_of a.now b.now }
{
    compare_values(a, b, Direction::Ascending) == Ordering::Equal
}

/// Whether both have the same values.
fn same_values(a: &[Value], b: &[Value]) -> bool
    ensures { result ≡ same_values_of a.now b.now }
{
    match (a.split_first(), b.split_first()) {
        (None, None) => true,
        (Some((first, others)), Some((second, rest))) => same_value(first, second)
            && same_values(others, rest),
        _ => false,
    }
}

/// A version at the key of a row.
fn judged(row: &IndexEntry, version: &Version) -> Finding
    ensures { result ≡ judged_of row.now version.now }
{
    match version {
        Version::Unverified(_) => Finding::Unverified,
        Version::Verified(entry) => {
            if same_values(entry.values.as_slice(), row.values.as_slice()) {
                Finding::Matching
            } else {
                Finding::Wrong
            }
        }
    }
}

/// A version at the key of no row.
fn alone(version: &Version) -> Finding
    ensures { result ≡ alone_of version.now }
{
    match version {
        Version::Unverified(_) => Finding::Unverified,
        Version::Verified(_) => Finding::Extra,
    }
}

/// The first key of both lists.
fn take_first(rows: &[IndexEntry], versions: &[Version]) -> Option<Taken>
    ensures { result ≡ first_taken rows.now versions.now }
{
    match (rows.split_first(), versions.split_first()) {
        (None, None) => None,
        (Some(_), None) => Some(missing()),
        (None, Some((version, _))) => Some(beside(version)),
        (Some((row, _)), Some((version, _))) => {
            match row.key.as_slice().cmp(version.key().as_slice()) {
                Ordering::Less => Some(missing()),
                Ordering::Greater => Some(beside(version)),
                Ordering::Equal => Some(Taken {
                    finding: judged(row, version),
                    row: true,
                    version: true,
                }),
            }
        }
    }
}

fn missing() -> Taken
    ensures { result ≡ record { finding = Finding.Missing; row = true; version = false } }
{
    Taken {
        finding: Finding::Missing,
        row: true,
        version: false,
    }
}

fn beside(version: &Version) -> Taken
    ensures { result ≡ record { finding = alone_of version.now; row = false; version = true } }
{
    Taken {
        finding: alone(version),
        row: false,
        version: true,
    }
}

/// What is left of a list of which the first may be taken.
fn left_of<T>(list: &[T], is_taken: bool) -> &[T]
    ensures { result.now ≡ rest is_taken list.now }
{
    match list.split_first() {
        Some((_, others)) if is_taken => others,
        _ => list,
    }
}

/// Sorts entries by their keys. Where memory is wanting, they stay in their order.
pub fn sort(rows: &mut Vec<IndexEntry>) -> Result<(), AllocError>
    ensures same { OnOk result (IsPermutation rows.old.items rows.new.items) }
    ensures sorted { OnOk result (IsSortedBy is_entry_below rows.new.items) }
    ensures rising { OnOk result (AreApart rows.old.items → AreRisingRows rows.new.items) }
{
    rows.sort_by(|a, b| a.key.as_slice().cmp(b.key.as_slice()))
}

/// The report on the entries that rows ask for and the versions of an index, in one pass. It says nothing where the keys of a list don't rise.
pub fn compare(rows: &[IndexEntry], versions: &[Version]) -> Report
    ensures { AreRisingRows rows.now → AreRisingVersions versions.now → result ≡ report_of rows.now versions.now }
{
    let mut report = Report::empty();
    let mut rows_left = rows;
    let mut versions_left = versions;
    'keys: while let Some(taken) = take_first(rows_left, versions_left) {
        report.add(taken.finding);
        rows_left = left_of(rows_left, taken.row);
        versions_left = left_of(versions_left, taken.version);
    }
    report
}
