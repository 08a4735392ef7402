// Conditions and what they are worth over one row, by the truth tables of the SQL standard.
use px_ast::{Boxed, Comparison};
use px_expr::{Bound, Term, Test, Truth, holds};
use px_values::{Items, Row, Text, Value};
use std::alloc::{AllocError, Global};
use std::test::Fail;

/// A condition and its truth. A condition is a word and its operands: `AND`, `OR` and `NOT` have truths, the others values.
/// `c0` to `c3` are the columns of the row (7, NULL, 'b', TRUE), and `c9` is none of them.
const TRUTHS: &str = "AND TRUE TRUE => TRUE
AND TRUE UNKNOWN => UNKNOWN
AND TRUE FALSE => FALSE
AND UNKNOWN TRUE => UNKNOWN
AND UNKNOWN UNKNOWN => UNKNOWN
AND UNKNOWN FALSE => FALSE
AND FALSE TRUE => FALSE
AND FALSE UNKNOWN => FALSE
AND FALSE FALSE => FALSE
AND TRUE TRUE UNKNOWN => UNKNOWN
AND UNKNOWN TRUE FALSE => FALSE
AND TRUE TRUE TRUE => TRUE
OR TRUE TRUE => TRUE
OR TRUE UNKNOWN => TRUE
OR TRUE FALSE => TRUE
OR UNKNOWN TRUE => TRUE
OR UNKNOWN UNKNOWN => UNKNOWN
OR UNKNOWN FALSE => UNKNOWN
OR FALSE TRUE => TRUE
OR FALSE UNKNOWN => UNKNOWN
OR FALSE FALSE => FALSE
OR FALSE FALSE UNKNOWN => UNKNOWN
OR UNKNOWN FALSE TRUE => TRUE
OR FALSE FALSE FALSE => FALSE
NOT TRUE => FALSE
NOT UNKNOWN => UNKNOWN
NOT FALSE => TRUE
= 1 2 => FALSE
= 2 2 => TRUE
= 3 2 => FALSE
= NULL 2 => UNKNOWN
= 2 NULL => UNKNOWN
= NULL NULL => UNKNOWN
<> 1 2 => TRUE
<> 2 2 => FALSE
<> 3 2 => TRUE
<> NULL 2 => UNKNOWN
<> 2 NULL => UNKNOWN
<> NULL NULL => UNKNOWN
< 1 2 => TRUE
< 2 2 => FALSE
< 3 2 => FALSE
< NULL 2 => UNKNOWN
< 2 NULL => UNKNOWN
<= 1 2 => TRUE
<= 2 2 => TRUE
<= 3 2 => FALSE
<= NULL 2 => UNKNOWN
<= 2 NULL => UNKNOWN
> 1 2 => FALSE
> 2 2 => FALSE
> 3 2 => TRUE
> NULL 2 => UNKNOWN
> 2 NULL => UNKNOWN
>= 1 2 => FALSE
>= 2 2 => TRUE
>= 3 2 => TRUE
>= NULL 2 => UNKNOWN
>= 2 NULL => UNKNOWN
< -9223372036854775808 9223372036854775807 => TRUE
> 32768 127 => TRUE
= -0 0 => TRUE
< a b => TRUE
< b a => FALSE
= ab ab => TRUE
< a ab => TRUE
< Z a => TRUE
< z ä => TRUE
< false true => TRUE
= true true => TRUE
> false true => FALSE
= c0 7 => TRUE
= 7 c0 => TRUE
< c0 c1 => UNKNOWN
= c1 c1 => UNKNOWN
= c2 b => TRUE
= c3 true => TRUE
= c9 7 => UNKNOWN
<> c0 c0 => FALSE
IS-NULL NULL => TRUE
IS-NULL 0 => FALSE
IS-NULL false => FALSE
IS-NULL c0 => FALSE
IS-NULL c1 => TRUE
IS-NULL c9 => TRUE
IS-NOT-NULL NULL => FALSE
IS-NOT-NULL 0 => TRUE
IS-NOT-NULL c1 => FALSE
IS-NOT-NULL c2 => TRUE
IN 5 5 => TRUE
IN 5 1 5 => TRUE
IN 5 1 2 => FALSE
IN 5 NULL => UNKNOWN
IN 5 NULL 5 => TRUE
IN 5 5 NULL => TRUE
IN 5 1 NULL => UNKNOWN
IN 5 NULL 1 => UNKNOWN
IN 5 1 NULL 5 => TRUE
IN 5 1 NULL 2 => UNKNOWN
IN NULL 1 5 => UNKNOWN
IN NULL NULL => UNKNOWN
IN c0 1 7 => TRUE
IN c1 1 7 => UNKNOWN
NOT-IN 5 5 => FALSE
NOT-IN 5 1 5 => FALSE
NOT-IN 5 1 2 => TRUE
NOT-IN 5 NULL => UNKNOWN
NOT-IN 5 NULL 5 => FALSE
NOT-IN 5 5 NULL => FALSE
NOT-IN 5 1 NULL => UNKNOWN
NOT-IN 5 NULL 1 => UNKNOWN
NOT-IN NULL 1 5 => UNKNOWN
NOT-IN NULL NULL => UNKNOWN
BETWEEN 5 1 9 => TRUE
BETWEEN 5 5 5 => TRUE
BETWEEN 5 5 9 => TRUE
BETWEEN 5 1 5 => TRUE
BETWEEN 5 6 9 => FALSE
BETWEEN 5 1 4 => FALSE
BETWEEN 5 9 1 => FALSE
BETWEEN NULL 1 9 => UNKNOWN
BETWEEN 5 NULL 9 => UNKNOWN
BETWEEN 5 NULL 4 => FALSE
BETWEEN 5 1 NULL => UNKNOWN
BETWEEN 5 6 NULL => FALSE
BETWEEN 5 NULL NULL => UNKNOWN
BETWEEN NULL NULL 9 => UNKNOWN
BETWEEN NULL 1 NULL => UNKNOWN
BETWEEN NULL NULL NULL => UNKNOWN
BETWEEN c0 c0 9 => TRUE
BETWEEN c0 1 c1 => UNKNOWN
NOT-BETWEEN 5 1 9 => FALSE
NOT-BETWEEN 5 5 5 => FALSE
NOT-BETWEEN 5 6 9 => TRUE
NOT-BETWEEN 5 1 4 => TRUE
NOT-BETWEEN 5 9 1 => TRUE
NOT-BETWEEN NULL 1 9 => UNKNOWN
NOT-BETWEEN 5 NULL 9 => UNKNOWN
NOT-BETWEEN 5 NULL 4 => TRUE
NOT-BETWEEN 5 1 NULL => UNKNOWN
NOT-BETWEEN 5 6 NULL => TRUE
NOT-BETWEEN NULL NULL NULL => UNKNOWN";

fn value(alloc: Global, word: &str) -> Result<Value, AllocError> {
    match word {
        "NULL" => return Ok(Value::Null),
        "true" => return Ok(Value::Truth(true)),
        "false" => return Ok(Value::Truth(false)),
        _ => {}
    }
    match word.parse::<i64>() {
        Ok(number) => Ok(Value::Number(i128::from(number))),
        Err(_) => {
            let text = Text::from_str(alloc, word)?;
            Ok(Value::Text(text))
        }
    }
}

fn term(alloc: Global, word: &str) -> Result<Term, AllocError> {
    match word {
        "c0" => Ok(Term::Column(0)),
        "c1" => Ok(Term::Column(1)),
        "c2" => Ok(Term::Column(2)),
        "c3" => Ok(Term::Column(3)),
        "c9" => Ok(Term::Column(9)),
        _ => {
            let value = value(alloc, word)?;
            Ok(Term::Value(value))
        }
    }
}

fn compared(alloc: Global, comparison: Comparison, words: &[&str]) -> Result<Test, AllocError> {
    let left = term(alloc, word_at(words, 0))?;
    match term(alloc, word_at(words, 1)) {
        Ok(right) => Ok(Test::Compare {
            comparison,
            left,
            right,
        }),
        Err(fault) => {
            drop(left);
            Err(fault)
        }
    }
}

/// The word at a place; none counts as NULL.
fn word_at<'a>(words: &[&'a str], place: usize) -> &'a str {
    match words.get(place) {
        Some(word) => word,
        None => "NULL",
    }
}

fn values(alloc: Global, words: &[&str]) -> Result<Items<Value>, AllocError> {
    let mut values = Vec::new(alloc);
    for word in words {
        values.push(value(alloc, word)?)?;
    }
    Ok(Items::of(values))
}

fn among(alloc: Global, negated: bool, words: &[&str]) -> Result<Test, AllocError> {
    let values = values(alloc, words.get(1..).unwrap_or(&[]))?;
    match term(alloc, word_at(words, 0)) {
        Ok(term) => Ok(Test::In {
            term,
            negated,
            values,
        }),
        Err(fault) => {
            drop(values);
            Err(fault)
        }
    }
}

/// The two ends of a BETWEEN.
fn ends(alloc: Global, words: &[&str]) -> Result<(Term, Term), AllocError> {
    let low = term(alloc, word_at(words, 1))?;
    match term(alloc, word_at(words, 2)) {
        Ok(high) => Ok((low, high)),
        Err(fault) => {
            drop(low);
            Err(fault)
        }
    }
}

fn between(alloc: Global, negated: bool, words: &[&str]) -> Result<Test, AllocError> {
    let (low, high) = ends(alloc, words)?;
    match term(alloc, word_at(words, 0)) {
        Ok(term) => Ok(Test::Between {
            term,
            negated,
            low,
            high,
        }),
        Err(fault) => {
            drop(low);
            drop(high);
            Err(fault)
        }
    }
}

fn null_test(alloc: Global, negated: bool, words: &[&str]) -> Result<Test, AllocError> {
    let term = term(alloc, word_at(words, 0))?;
    Ok(Test::IsNull { term, negated })
}

fn test(alloc: Global, name: &str, words: &[&str]) -> Result<Test, AllocError> {
    match name {
        "=" => compared(alloc, Comparison::Equal, words),
        "<>" => compared(alloc, Comparison::NotEqual, words),
        "<" => compared(alloc, Comparison::Less, words),
        "<=" => compared(alloc, Comparison::LessEqual, words),
        ">" => compared(alloc, Comparison::Greater, words),
        ">=" => compared(alloc, Comparison::GreaterEqual, words),
        "IN" => among(alloc, false, words),
        "NOT-IN" => among(alloc, true, words),
        "BETWEEN" => between(alloc, false, words),
        "NOT-BETWEEN" => between(alloc, true, words),
        "IS-NOT-NULL" => null_test(alloc, true, words),
        _ => null_test(alloc, false, words),
    }
}

/// A condition of a truth: `1 = 1`, `1 = 2` or `1 = NULL`.
fn constant(truth: Truth) -> Bound {
    let right = match truth {
        Truth::True => Value::Number(1),
        Truth::False => Value::Number(2),
        Truth::Unknown => Value::Null,
    };
    Bound::Test(Test::Compare {
        comparison: Comparison::Equal,
        left: Term::Value(Value::Number(1)),
        right: Term::Value(right),
    })
}

fn truth_of(word: &str) -> Truth {
    match word {
        "TRUE" => Truth::True,
        "FALSE" => Truth::False,
        _ => Truth::Unknown,
    }
}

fn parts(alloc: Global, words: &[&str]) -> Result<Items<Bound>, AllocError> {
    let mut parts = Vec::new(alloc);
    for word in words {
        parts.push(constant(truth_of(word)))?;
    }
    Ok(Items::of(parts))
}

fn condition(alloc: Global, name: &str, words: &[&str]) -> Result<Bound, AllocError> {
    match name {
        "AND" => Ok(Bound::And(parts(alloc, words)?)),
        "OR" => Ok(Bound::Or(parts(alloc, words)?)),
        "NOT" => Ok(Bound::Not(Boxed::new(alloc, constant(truth_of(word_at(words, 0))))?)),
        _ => Ok(Bound::Test(test(alloc, name, words)?)),
    }
}

/// The row (7, NULL, 'b', TRUE).
fn row(alloc: Global) -> Result<Row, AllocError> {
    let text = Text::from_str(alloc, "b")?;
    Ok(Row::of(vec![in alloc;
        Value::Number(7),
        Value::Null,
        Value::Text(text),
        Value::Truth(true),
    ]?))
}

/// The truth of the condition that a line has before its arrow.
fn found(alloc: Global, row: &Row, line: &str) -> Result<Truth, AllocError> {
    let mut words = line.split_whitespace();
    let name = words.next().unwrap_or("");
    let operands: Vec<&str> = words.collect(alloc)?;
    let condition = condition(alloc, name, operands.as_slice())?;
    let truth = holds(&condition, row.as_slice());
    drop(condition);
    Ok(truth)
}

#[test]
fn truths_of_the_standard(rt: HostRuntime) -> Result<(), Fail> {
    let alloc = rt.alloc();
    let row = row(alloc)?;
    let mut lines = 0u32;
    for line in TRUTHS.lines() {
        let (condition, truth) = line.split_once(" => ").unwrap_or((line, ""));
        let found = found(alloc, &row, condition)?;
        assert_eq!(rt; found, truth_of(truth), "{line}");
        lines = lines.saturating_add(1);
    }
    assert_eq!(rt; lines, 142);
    Ok(())
}
