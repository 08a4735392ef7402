// Conditions over the names of a table's columns.
ghost use Rattle.std.specs.Prelude.{◌≡◌, ◌≤◌, ◌++◌, IfOk, length, map};
ghost use Rattle.std.specs.List.{flat_map};
ghost use Rattle.std.specs.Option.{option_copied};
ghost use Rattle.px_resolve.specs.Answers.{AnswersFirst};
ghost use Rattle.px_resolve.specs.Conditions.{against, alone, bound_over, class_in, condition_faults, literal_against, operand_name_faults, place_in, predicate_faults, predicate_name_faults, predicate_operand_faults, term_of, test_over};
ghost use Rattle.px_resolve.specs.Literals.{value_of_literal};
ghost use Rattle.px_resolve.specs.Names.{column_of};

use crate::fault::BindFault;
use crate::literals::{
    check_classes, check_compared, check_text, class, class_of_type, value, values,
};
use crate::names::{check_known, find_place};
use px_ast::{Boxed, Condition, Literal, Operand, Predicate};
use px_expr::{Bound, Term, Test};
use px_tables::TableColumn;
use px_values::{Items, Name};
use std::alloc::{AllocError, Global};

/// What is checked of a condition: that its names are columns; or that its operands can be compared.
#[derive(Clone, Copy)]
pub enum Check {
    Names,
    Operands,
}

/// Checks the predicates of a condition, in text order.
#[cycle(checking)]
#[tactic(auto, using(crate::proofs::Rows::faults_or, crate::proofs::Rows::faults_and, crate::proofs::Rows::faults_not))]
pub fn check_condition(
    alloc: Global,
    check: Check,
    columns: &[TableColumn],
    condition: &Condition,
) -> Result<(), BindFault>
    ensures { AnswersFirst (condition_faults check columns.now condition.now) result }
{
    match condition {
        Condition::Or(parts) => check_parts(alloc, check, columns, parts.as_slice()),
        Condition::And(parts) => check_parts(alloc, check, columns, parts.as_slice()),
        Condition::Not(part) => check_condition(alloc, check, columns, part.get()),
        Condition::Predicate(predicate) => check_predicate(alloc, check, columns, predicate),
    }
}

#[cycle(checking)]
fn check_parts(
    alloc: Global,
    check: Check,
    columns: &[TableColumn],
    parts: &[Condition],
) -> Result<(), BindFault>
    ensures { AnswersFirst (flat_map (condition_faults check columns.now) parts.now) result }
{
    for part in parts {
        check_condition(alloc, check, columns, part)?;
    }
    Ok(())
}

fn check_predicate(
    alloc: Global,
    check: Check,
    columns: &[TableColumn],
    predicate: &Predicate,
) -> Result<(), BindFault>
    ensures { AnswersFirst (predicate_faults check columns.now predicate.now) result }
{
    match check {
        Check::Names => check_predicate_names(alloc, columns, predicate),
        Check::Operands => check_predicate_operands(columns, predicate),
    }
}

// ---- names

fn check_operand_name(
    alloc: Global,
    columns: &[TableColumn],
    operand: &Operand,
) -> Result<(), BindFault>
    ensures { AnswersFirst (operand_name_faults columns.now operand.now) result }
{
    match operand {
        Operand::Column { place: _, name } => check_known(alloc, columns, name),
        Operand::Literal(_) => Ok(()),
    }
}

fn check_two_names(
    alloc: Global,
    columns: &[TableColumn],
    first: &Operand,
    second: &Operand,
) -> Result<(), BindFault>
    ensures { AnswersFirst (operand_name_faults columns.now first.now ++ operand_name_faults columns.now second.now) result }
{
    check_operand_name(alloc, columns, first)?;
    check_operand_name(alloc, columns, second)
}

fn check_predicate_names(
    alloc: Global,
    columns: &[TableColumn],
    predicate: &Predicate,
) -> Result<(), BindFault>
    ensures { AnswersFirst (predicate_name_faults columns.now predicate.now) result }
{
    match predicate {
        Predicate::Compare {
            comparison: _,
            left,
            right,
        } => check_two_names(alloc, columns, left, right),
        Predicate::IsNull {
            operand,
            negated: _,
        } => check_operand_name(alloc, columns, operand),
        Predicate::In {
            operand,
            negated: _,
            literals: _,
        } => check_operand_name(alloc, columns, operand),
        Predicate::Between {
            operand,
            negated: _,
            low,
            high,
        } => {
            check_operand_name(alloc, columns, operand)?;
            check_two_names(alloc, columns, low.get(), high.get())
        }
    }
}

// ---- classes

/// The column of a name.
pub fn find_column<'a>(columns: &'a [TableColumn], name: &Name) -> Option<&'a TableColumn>
    ensures { option_copied result ≡ column_of columns.now name.now }
{
    columns.get(find_place(columns, name))
}

/// The class of an operand: that of its column's type, or of its literal.
fn class_of_operand(columns: &[TableColumn], operand: &Operand) -> u8
    ensures { result ≡ class_in columns.now operand.now }
{
    match operand {
        Operand::Column { place: _, name } => match find_column(columns, name) {
            Some(column) => class_of_type(column.column_type),
            None => 0,
        },
        Operand::Literal(literal) => class(&literal.constant),
    }
}

fn place_of_operand(operand: &Operand) -> usize
    ensures { result ≡ place_in operand.now }
{
    match operand {
        Operand::Column { place, name: _ } => *place,
        Operand::Literal(literal) => literal.place,
    }
}

/// Refuses a literal that no column can have.
fn check_alone(operand: &Operand) -> Result<(), BindFault>
    ensures { AnswersFirst (alone operand.now) result }
{
    match operand {
        Operand::Column { place: _, name: _ } => Ok(()),
        Operand::Literal(literal) => check_text(literal),
    }
}

/// Refuses an operand that can't be compared with one of this class.
fn check_against(columns: &[TableColumn], class: u8, operand: &Operand) -> Result<(), BindFault>
    ensures { AnswersFirst (against columns.now class operand.now) result }
{
    check_classes(
        class,
        class_of_operand(columns, operand),
        place_of_operand(operand),
    )?;
    check_alone(operand)
}

fn check_all_compared(class: u8, literals: &[Literal]) -> Result<(), BindFault>
    ensures { AnswersFirst (flat_map (literal_against class) literals.now) result }
{
    for literal in literals {
        check_compared(class, literal)?;
    }
    Ok(())
}

fn check_predicate_operands(columns: &[TableColumn], predicate: &Predicate) -> Result<(), BindFault>
    ensures { AnswersFirst (predicate_operand_faults columns.now predicate.now) result }
{
    match predicate {
        Predicate::Compare {
            comparison: _,
            left,
            right,
        } => {
            check_alone(left)?;
            check_against(columns, class_of_operand(columns, left), right)
        }
        Predicate::IsNull {
            operand,
            negated: _,
        } => check_alone(operand),
        Predicate::In {
            operand,
            negated: _,
            literals,
        } => {
            check_alone(operand)?;
            check_all_compared(class_of_operand(columns, operand), literals.as_slice())
        }
        Predicate::Between {
            operand,
            negated: _,
            low,
            high,
        } => check_between(columns, operand, low.get(), high.get()),
    }
}

fn check_between(
    columns: &[TableColumn],
    operand: &Operand,
    low: &Operand,
    high: &Operand,
) -> Result<(), BindFault>
    ensures { AnswersFirst (alone operand.now ++ (against columns.now (class_in columns.now operand.now) low.now ++ against columns.now (class_in columns.now operand.now) high.now)) result }
{
    check_alone(operand)?;
    let class = class_of_operand(columns, operand);
    check_against(columns, class, low)?;
    check_against(columns, class, high)
}

// ---- the same condition over places and values

/// A condition over the places of columns, and values.
#[cycle(binding)]
#[tactic(auto, using(crate::proofs::Rows::bound_or, crate::proofs::Rows::bound_and, crate::proofs::Rows::bound_not))]
pub fn bound(
    alloc: Global,
    columns: &[TableColumn],
    condition: &Condition,
) -> Result<Bound, AllocError>
    requires { length columns.now ≤ 255 }
    ensures { IfOk result (λ b. b ≡ bound_over columns.now condition.now) }
{
    match condition {
        Condition::Or(parts) => match bound_parts(alloc, columns, parts.as_slice()) {
            Ok(parts) => Ok(Bound::Or(parts)),
            Err(fault) => Err(fault),
        },
        Condition::And(parts) => match bound_parts(alloc, columns, parts.as_slice()) {
            Ok(parts) => Ok(Bound::And(parts)),
            Err(fault) => Err(fault),
        },
        Condition::Not(part) => bound_not(alloc, columns, part.get()),
        Condition::Predicate(predicate) => match test(alloc, columns, predicate) {
            Ok(test) => Ok(Bound::Test(test)),
            Err(fault) => Err(fault),
        },
    }
}

#[cycle(binding)]
fn bound_not(alloc: Global, columns: &[TableColumn], part: &Condition) -> Result<Bound, AllocError>
    requires { length columns.now ≤ 255 }
    ensures { IfOk result (λ b. b ≡ Bound.Not (bound_over columns.now part.now)) }
{
    let part = bound(alloc, columns, part)?;
    match Boxed::new(alloc, part) {
        Ok(part) => Ok(Bound::Not(part)),
        Err(fault) => Err(fault),
    }
}

#[cycle(binding)]
fn bound_parts(
    alloc: Global,
    columns: &[TableColumn],
    parts: &[Condition],
) -> Result<Items<Bound>, AllocError>
    requires { length columns.now ≤ 255 }
    ensures { IfOk result (λ bs. bs ≡ map (bound_over columns.now) parts.now) }
{
    let mut bounds = Vec::with_capacity(alloc, parts.len())?;
    for part in parts {
        match bound(alloc, columns, part) {
            Ok(part) => bounds.push(part)?,
            Err(fault) => {
                drop(bounds);
                return Err(fault);
            }
        }
    }
    Ok(Items::of(bounds))
}

fn term(alloc: Global, columns: &[TableColumn], operand: &Operand) -> Result<Term, AllocError>
    requires { length columns.now ≤ 255 }
    ensures { IfOk result (λ t. t ≡ term_of columns.now operand.now) }
{
    match operand {
        Operand::Column { place: _, name } => Ok(Term::Column(find_place(columns, name) as u8)),
        Operand::Literal(literal) => match value(alloc, &literal.constant) {
            Ok(value) => Ok(Term::Value(value)),
            Err(fault) => Err(fault),
        },
    }
}

/// Two terms.
fn two_terms(
    alloc: Global,
    columns: &[TableColumn],
    first: &Operand,
    second: &Operand,
) -> Result<(Term, Term), AllocError>
    requires { length columns.now ≤ 255 }
    ensures { IfOk result (λ ts. (ts.0 ≡ term_of columns.now first.now) × (ts.1 ≡ term_of columns.now second.now)) }
{
    let first = term(alloc, columns, first)?;
    match term(alloc, columns, second) {
        Ok(second) => Ok((first, second)),
        Err(fault) => {
            drop(first);
            Err(fault)
        }
    }
}

fn test(alloc: Global, columns: &[TableColumn], predicate: &Predicate) -> Result<Test, AllocError>
    requires { length columns.now ≤ 255 }
    ensures { IfOk result (λ t. t ≡ test_over columns.now predicate.now) }
{
    match predicate {
        Predicate::Compare {
            comparison,
            left,
            right,
        } => match two_terms(alloc, columns, left, right) {
            Ok((left, right)) => Ok(Test::Compare {
                comparison: *comparison,
                left,
                right,
            }),
            Err(fault) => Err(fault),
        },
        Predicate::IsNull { operand, negated } => match term(alloc, columns, operand) {
            Ok(term) => Ok(Test::IsNull {
                term,
                negated: *negated,
            }),
            Err(fault) => Err(fault),
        },
        Predicate::In {
            operand,
            negated,
            literals,
        } => test_in(alloc, columns, operand, *negated, literals.as_slice()),
        Predicate::Between {
            operand,
            negated,
            low,
            high,
        } => test_between(alloc, columns, operand, *negated, (low.get(), high.get())),
    }
}

fn test_in(
    alloc: Global,
    columns: &[TableColumn],
    operand: &Operand,
    negated: bool,
    literals: &[Literal],
) -> Result<Test, AllocError>
    requires { length columns.now ≤ 255 }
    ensures { IfOk result (λ t. t ≡ Test.In (term_of columns.now operand.now) negated (map (λ l. value_of_literal l.constant) literals.now)) }
{
    let values = values(alloc, literals)?;
    match term(alloc, columns, operand) {
        Ok(term) => Ok(Test::In {
            term,
            negated,
            values,
        }),
        Err(fault) => {
            drop(values);
            Err(fault)
        }
    }
}

fn test_between(
    alloc: Global,
    columns: &[TableColumn],
    operand: &Operand,
    negated: bool,
    ends: (&Operand, &Operand),
) -> Result<Test, AllocError>
    requires { length columns.now ≤ 255 }
    ensures { IfOk result (λ t. t ≡ Test.Between (term_of columns.now operand.now) negated (term_of columns.now ends.entry.0.now) (term_of columns.now ends.entry.1.now)) }
{
    let (low, high) = two_terms(alloc, columns, ends.0, ends.1)?;
    match term(alloc, columns, operand) {
        Ok(term) => Ok(Test::Between {
            term,
            negated,
            low,
            high,
        }),
        Err(fault) => {
            drop(low);
            drop(high);
            Err(fault)
        }
    }
}
