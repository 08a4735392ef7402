// What a query asks.
ghost use Rattle.std.specs.Prelude.{◌≡◌, IfOk, IfErr, true, false};
ghost use Rattle.px_calls.specs.Calls.{AreRising};
ghost use Rattle.px_gather.specs.Query.{IsPathFor, Query};

use px_calls::{Path, Point};
use px_values::{Row, TableId};
use std::alloc::Global;

/// Why a query has no path.
#[derive(Clone, Copy)]
pub enum PathFault {
    /// The chosen path lacks a column that the query names.
    IndexJoin,
    Memory,
}

/// A query: its table, its condition and LIMIT, and the path that it chooses at a point.
pub trait Asks {
    /// What it asks.
    ghost asked: { Self → Query };

    fn table(&self) -> TableId
        ensures { result.0 ≡ (asked self.now).table };

    fn limit(&self) -> Option<u64>
        ensures { result ≡ (asked self.now).limit };

    /// Whether a row meets the condition.
    fn meets(&self, row: &Row) -> bool
        ensures { result ≡ (asked self.now).meets row.now };

    /// The path chosen from the definitions in the point.
    fn path(&self, alloc: Global, point: &Point) -> Result<Path, PathFault>
        requires bound { point.now.found.table ≡ (asked self.now).bound }
        requires rising { AreRising point.now.found.indexes }
        ensures ok { IfOk result (IsPathFor (asked self.now) point.now) }
        ensures not_joined { IfOk result (λ path. (asked self.now).joins point.now.found point.now.stamp ≡ false) }
        ensures joined { IfErr result (λ f. f ≡ PathFault.IndexJoin → (asked self.now).joins point.now.found point.now.stamp ≡ true) };
}
