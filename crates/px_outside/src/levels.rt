// The levels of a folder's path.
use std::io::ErrorKind;
use std::path::Path;
use std::rt::Files;

/// The path of a level. An empty one is the folder in which the program runs.
pub(crate) fn level_path<'a>(level: Path<'a>) -> &'a str {
    let path = level.as_str();
    if path.is_empty() { "." } else { path }
}

/// The level above the folder.
pub(crate) fn level_above(path: &str) -> &str {
    match Path::new(path).parent() {
        Some(level) => level_path(level),
        None => path,
    }
}

/// How many levels of the path are missing, from the last one up.
pub(crate) fn missing_levels<R: Files>(rt: &R, path: &str) -> usize {
    for (above, level) in Path::new(path).ancestors().enumerate() {
        match rt.metadata(level_path(level)) {
            Err(fault) if fault.kind() == ErrorKind::NotFound => {}
            _ => return above,
        }
    }
    0
}
