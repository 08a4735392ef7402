// What EXPLAIN prints.
ghost use Rattle.std.specs.Prelude.{◌≡◌, ◌++◌, OnOk, codes, decimal, if◌then◌else◌};
ghost use Rattle.px_plan.specs.Explained.{any_left, explained, limited, line, line_if, scanned};

use crate::Plan;
use itoa::Buffer;
use px_values::{Line, Name};
use std::alloc::AllocError;

/// Adds what is scanned, with its line feed.
fn print_scan(table: &Name, index: &Option<Name>, to: &mut Line) -> Result<(), AllocError>
    ensures { OnOk result (to.new ≡ to.old ++ line (scanned table.now index.now)) }
{
    match index {
        Some(index) => {
            to.push_str("SCAN INDEX ")?;
            to.push_str(index.as_str())?;
            to.push_str(" OF ")?;
        }
        None => to.push_str("SCAN TABLE ")?,
    }
    to.push_str(table.as_str())?;
    to.push_str("\n")
}

/// Adds how the path is keyed, with its line feed.
fn print_key(plan: &Plan, to: &mut Line) -> Result<(), AllocError>
    ensures { OnOk result (to.new ≡ to.old ++ line (codes "KEY EQUAL " ++ decimal plan.now.equal ++ codes " RANGE " ++ (if plan.now.bounded then codes "1" else codes "0"))) }
{
    let mut buffer = Buffer::new();
    to.push_str("KEY EQUAL ")?;
    to.push_str(buffer.format(plan.equal))?;
    to.push_str(" RANGE ")?;
    to.push_str(if plan.bounded { "1" } else { "0" })?;
    to.push_str("\n")
}

/// Adds a word as a line, where it is due.
fn print_word(due: bool, word: &str, to: &mut Line) -> Result<(), AllocError>
    ensures { OnOk result (to.new ≡ to.old ++ line_if due word.now) }
{
    if due {
        to.push_str(word)?;
        to.push_str("\n")?;
    }
    Ok(())
}

fn print_limit(limit: Option<u64>, to: &mut Line) -> Result<(), AllocError>
    ensures { OnOk result (to.new ≡ to.old ++ limited limit) }
{
    if let Some(count) = limit {
        let mut buffer = Buffer::new();
        to.push_str("LIMIT ")?;
        to.push_str(buffer.format(count))?;
        to.push_str("\n")?;
    }
    Ok(())
}

/// Adds the lines of a plan, each with its line feed. Where no memory is found the line has a part of them.
pub fn explain(plan: &Plan, to: &mut Line) -> Result<(), AllocError>
    ensures { OnOk result (to.new ≡ to.old ++ explained plan.now) }
{
    print_scan(&plan.table, &plan.index, to)?;
    print_key(plan, to)?;
    print_word(!plan.rest.as_slice().is_empty(), "FILTER", to)?;
    print_word(plan.sort, "SORT", to)?;
    print_limit(plan.limit, to)
}
