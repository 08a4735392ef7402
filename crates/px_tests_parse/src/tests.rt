// Texts, and what they are read as, worked out by hand from the description of the language.
mod lengths;
mod read;
mod refused;

use px_ast::print_statement;
use px_parse::{SyntaxFault, parse};
use px_values::Line;
use std::alloc::{AllocError, Global};
use std::process::Abort;

/// Parses a text and prints the statement that it is.
fn printed(alloc: Global, text: &str) -> Result<Line, SyntaxFault> {
    let read = parse(alloc, text)?;
    let mut line = Line::new(alloc);
    let printed = print_statement(alloc, &read, &mut line);
    drop(read);
    printed?;
    Ok(line)
}

/// Whether a text is a statement that prints so.
fn prints(alloc: Global, text: &str, expected: &str) -> Result<bool, SyntaxFault> {
    let line = printed(alloc, text)?;
    Ok(line.as_slice() == expected.as_bytes())
}

/// A text that prints so.
fn check(rt: &impl Abort, alloc: Global, text: &str, expected: &str) {
    assert_eq!(rt; prints(alloc, text, expected), Ok(true), "{text:?}");
}

/// A text with this fault, or with none.
fn check_fault(rt: &impl Abort, alloc: Global, text: &str, expected: Option<SyntaxFault>) {
    assert_eq!(rt; parse(alloc, text).err(), expected, "{text:?}");
}

fn repeat(to: &mut String, text: &str, times: usize) -> Result<(), AllocError> {
    for _turn in 0..times {
        to.push_str(text)?;
    }
    Ok(())
}

/// A text with another one many times in its middle.
fn repeating(
    alloc: Global,
    before: &str,
    repeated: &str,
    times: usize,
    behind: &str,
) -> Result<String, AllocError> {
    let mut text = String::from_str(alloc, before)?;
    repeat(&mut text, repeated, times)?;
    text.push_str(behind)?;
    Ok(text)
}
