// What binding answers, printed.
use px_ast::{Comparison, IndexAction};
use px_bind::{BindFault, Hint, Query, Request};
use px_expr::{Bound, Term, Test};
use px_tables::{KeyPlace, NewIndex, NewTable};
use px_values::{Change, Direction, Limit, Line, Name, Value, What, print_value};
use std::alloc::AllocError;

fn number(n: u64, to: &mut Line) -> Result<(), AllocError> {
    print_value(&Value::Number(i128::from(n)), to)
}

fn name(label: &str, name: &Name, to: &mut Line) -> Result<(), AllocError> {
    to.push_str(label)?;
    to.push_str(name.as_str())
}

fn place(label: &str, place: usize, to: &mut Line) -> Result<(), AllocError> {
    to.push_str(label)?;
    number(place as u64, to)
}

fn limit(limit: Limit, to: &mut Line) -> Result<(), AllocError> {
    to.push_str("E11 ")?;
    to.push_str(limit.word())
}

fn fault(fault: &BindFault, to: &mut Line) -> Result<(), AllocError> {
    match fault {
        BindFault::NoIndex(index) => name("E09 ", index, to),
        BindFault::NoColumn(column) => name("E04 ", column, to),
        BindFault::Twice(column) => name("E10 ", column, to),
        BindFault::Mismatch { place: at } => place("E06 ", *at, to),
        BindFault::OutOfRange { place: at } => place("E07 ", *at, to),
        BindFault::NullKey(column) => name("E08 ", column, to),
        BindFault::Passed(passed) => limit(*passed, to),
        BindFault::Memory => to.push_str("M1"),
    }
}

// ---- conditions

fn term(term: &Term, to: &mut Line) -> Result<(), AllocError> {
    match term {
        Term::Column(column) => place("c", *column as usize, to),
        Term::Value(value) => print_value(value, to),
    }
}

fn comparison(comparison: Comparison) -> &'static str {
    match comparison {
        Comparison::Equal => " = ",
        Comparison::NotEqual => " <> ",
        Comparison::Less => " < ",
        Comparison::LessEqual => " <= ",
        Comparison::Greater => " > ",
        Comparison::GreaterEqual => " >= ",
    }
}

fn values(values: &[Value], to: &mut Line) -> Result<(), AllocError> {
    for value in values {
        to.push_str(" ")?;
        print_value(value, to)?;
    }
    Ok(())
}

fn test(test: &Test, to: &mut Line) -> Result<(), AllocError> {
    match test {
        Test::Compare {
            comparison: how,
            left,
            right,
        } => {
            term(left, to)?;
            to.push_str(comparison(*how))?;
            term(right, to)
        }
        Test::IsNull { term: of, negated } => {
            to.push_str(if *negated { "not null " } else { "null " })?;
            term(of, to)
        }
        Test::In {
            term: of,
            negated,
            values: list,
        } => {
            term(of, to)?;
            to.push_str(if *negated { " not in" } else { " in" })?;
            values(list.as_slice(), to)
        }
        Test::Between {
            term: of,
            negated,
            low,
            high,
        } => {
            term(of, to)?;
            to.push_str(if *negated {
                " not between "
            } else {
                " between "
            })?;
            term(low, to)?;
            to.push_str(" ")?;
            term(high, to)
        }
    }
}

#[cycle(conditions)]
fn condition(bound: &Bound, to: &mut Line) -> Result<(), AllocError> {
    to.push_str("(")?;
    match bound {
        Bound::Or(parts) => conditions("or", parts.as_slice(), to)?,
        Bound::And(parts) => conditions("and", parts.as_slice(), to)?,
        Bound::Not(part) => {
            to.push_str("not ")?;
            condition(part.get(), to)?;
        }
        Bound::Test(of) => test(of, to)?,
    }
    to.push_str(")")
}

#[cycle(conditions)]
fn conditions(word: &str, parts: &[Bound], to: &mut Line) -> Result<(), AllocError> {
    to.push_str(word)?;
    for part in parts {
        to.push_str(" ")?;
        condition(part, to)?;
    }
    Ok(())
}

fn filter(label: &str, filter: &Option<Bound>, to: &mut Line) -> Result<(), AllocError> {
    match filter {
        Some(bound) => {
            to.push_str(label)?;
            condition(bound, to)
        }
        None => Ok(()),
    }
}

// ---- definitions

fn key(key: &[KeyPlace], to: &mut Line) -> Result<(), AllocError> {
    for part in key {
        place(" ", part.column as usize, to)?;
        match part.direction {
            Direction::Ascending => to.push_str("+")?,
            Direction::Descending => to.push_str("-")?,
        }
    }
    Ok(())
}

fn places(places: &[u8], to: &mut Line) -> Result<(), AllocError> {
    for column in places {
        place(" ", *column as usize, to)?;
    }
    Ok(())
}

fn table(table: &NewTable, to: &mut Line) -> Result<(), AllocError> {
    name("table ", &table.name, to)?;
    to.push_str(" key")?;
    key(table.key.as_slice(), to)?;
    place(" regions ", table.least_keys.as_slice().len(), to)
}

fn index(index: &NewIndex, to: &mut Line) -> Result<(), AllocError> {
    name("index ", &index.name, to)?;
    place(" on ", index.table.0 as usize, to)?;
    to.push_str(" parts")?;
    key(index.parts.as_slice(), to)?;
    to.push_str(" included")?;
    places(index.included.as_slice(), to)
}

fn of_index(label: &str, table: u32, index: u32, to: &mut Line) -> Result<(), AllocError> {
    place(label, table as usize, to)?;
    place(" ", index as usize, to)
}

// ---- rows

fn change(change: &Change, to: &mut Line) -> Result<(), AllocError> {
    to.push_str("upsert")?;
    values(change.row.as_slice(), to)?;
    to.push_str(" set")?;
    match &change.what {
        What::Set(assignments) => {
            for assignment in assignments.as_slice() {
                place(" ", assignment.column as usize, to)?;
                to.push_str("=")?;
                print_value(&assignment.value, to)?;
            }
            Ok(())
        }
        What::Gone => to.push_str(" gone"),
    }
}

fn hints(hints: &[Hint], to: &mut Line) -> Result<(), AllocError> {
    if !hints.is_empty() {
        to.push_str(" hints")?;
    }
    for hint in hints {
        match hint {
            Hint::Index(index) => name(" ", index, to)?,
            Hint::NoIndex => to.push_str(" none")?,
        }
        to.push_str(";")?;
    }
    Ok(())
}

fn query(label: &str, query: &Query, to: &mut Line) -> Result<(), AllocError> {
    to.push_str(label)?;
    hints(query.hints.as_slice(), to)?;
    places(query.shown.as_slice(), to)?;
    filter(" where ", &query.filter, to)?;
    if !query.order.as_slice().is_empty() {
        to.push_str(" order")?;
    }
    key(query.order.as_slice(), to)?;
    match query.limit {
        Some(rows) => {
            to.push_str(" limit ")?;
            number(rows, to)
        }
        None => Ok(()),
    }
}

fn request(request: &Request, to: &mut Line) -> Result<(), AllocError> {
    match request {
        Request::CreateTable {
            if_not_exists: _,
            table: new,
        } => table(new, to),
        Request::DropTable(id) => place("drop table ", id.0 as usize, to),
        Request::CreateIndex {
            if_not_exists: _,
            index: new,
        } => index(new, to),
        Request::DropIndex { table: of, index } => of_index("drop index ", of.0, index.0, to),
        Request::AbsentIndex => to.push_str("absent"),
        Request::AlterIndex {
            table: of,
            index,
            action,
        } => match action {
            IndexAction::Disable => of_index("disable ", of.0, index.0, to),
            IndexAction::Rebuild => of_index("rebuild ", of.0, index.0, to),
        },
        Request::Upsert {
            table: _,
            change: made,
        } => change(made, to),
        Request::Delete {
            table: _,
            filter: rows,
        } => {
            to.push_str("delete")?;
            filter(" ", rows, to)
        }
        Request::Select(of) => query("select", of, to),
        Request::Explain(of) => query("explain", of, to),
    }
}

/// What binding answers, printed.
pub(crate) fn answer(answer: &Result<Request, BindFault>, to: &mut Line) -> Result<(), AllocError> {
    match answer {
        Ok(asked) => request(asked, to),
        Err(refused) => fault(refused, to),
    }
}
