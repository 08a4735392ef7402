// The words after the program's name.
ghost use Rattle.std.specs.Prelude.{◌≡◌, map, option_map, IfOk, IfSome};
ghost use Rattle.std.specs.String.{string_bytes};
ghost use Rattle.px_arguments.specs.Arguments.{listed_in};
ghost use Rattle.px_outside.specs.FolderDisk.{folder_calls, folder_faults, folder_first_fault, folder_name};
ghost use Rattle.px_program.specs.Words.{folder_in_words};

use px_arguments::{command_in, sessions_listed};
use px_outside::FolderDisk;
use px_values::{Items, Name};
use px_verified::{Verification, VerifyKind};
use std::alloc::{AllocError, Global};
use std::fs::File;
use std::rt::Files;

/// The folder that the words name, exactly where they are a command.
fn folder_word(words: &[String]) -> Option<&str>
    ensures { option_map (λ folder. folder.now) result ≡ folder_in_words (map string_bytes words.now) }
{
    match command_in(words) {
        Some(command) => Some(command.folder()),
        None => None,
    }
}

/// A verification by its words. The names are taken as they are written.
pub(crate) fn verification(
    alloc: Global,
    table: &str,
    index: &str,
    kind: VerifyKind,
) -> Result<Verification, AllocError>
    ensures { IfOk result (λ v. v ≡ record { table = table.now; index = index.now; kind = kind }) }
{
    let table = Name::from_str(alloc, table)?;
    match Name::from_str(alloc, index) {
        Ok(index) => Ok(Verification { table, index, kind }),
        Err(fault) => {
            drop(table);
            Err(fault)
        }
    }
}

/// The sessions that a list names, where there is one.
pub(crate) fn schedule_of(
    alloc: Global,
    list: Option<&str>,
) -> Result<Option<Items<u32>>, AllocError>
    ensures { IfOk result (λ schedule. schedule ≡ listed_in list.entry) }
{
    match list {
        Some(list) => Ok(Some(Items::of(sessions_listed(alloc, list)?))),
        None => Ok(None),
    }
}

/// The disk of the folder that the words name, which had no call yet; none where they are no command.
pub fn folder_disk<R: Files<File = File> + Drop>(
    rt: R,
    alloc: Global,
    words: &[String],
) -> Result<Option<FolderDisk<R>>, AllocError>
    ensures named { IfOk result (λ disk. option_map folder_name disk ≡ folder_in_words (map string_bytes words.now)) }
    ensures fresh { IfOk result (λ disk. IfSome disk (λ d. (folder_calls d ≡ 0) × (folder_faults d ≡ 0) × (folder_first_fault d ≡ 0))) }
{
    let Some(folder) = folder_word(words) else {
        return Ok(None);
    };
    let folder = String::from_str(alloc, folder)?;
    Ok(Some(FolderDisk::at(rt, alloc, folder)))
}
