// The bytes of an index and a footer.
ghost use Rattle.std.specs.Prelude.{◌≡◌, ◌≤◌, ◌<◌, ◌+◌, ◌*◌, ◌^◌, ◌++◌, ◌∷◌, [], List, length, OnOk, OnErr, IfOk};
ghost use Rattle.px_cellbytes.specs.Spelling.{size_bytes};
ghost use Rattle.px_file.specs.Format.{EntryData, entries_bytes, entry_bytes, footer_bytes, half_word_bytes, last_letters, tail_bytes, word_bytes};

use crate::index::{Index, IndexEntry};
use std::alloc::{AllocError, Global};

/// The last bytes of a file, `PXF1`.
const LAST_LETTERS: [u8; 4] = [80, 88, 70, 49];

/// The bytes of index and footer.
#[tactic(auto, unfolding(crate::specs::Format::tail_bytes))]
pub(crate) fn tail(alloc: Global, index: &Index) -> Result<Vec<u8>, AllocError>
    ensures { IfOk result (λ bytes. bytes.items ≡ tail_bytes index.now.entries.items index.now.end index.now.cells index.now.stamp) }
{
    let mut bytes = Vec::new(alloc);
    put_entries(&index.entries, &mut bytes)?;
    put_word(index.end, &mut bytes)?;
    put_half(index.entries.len() as u32, &mut bytes)?;
    put_word(index.cells, &mut bytes)?;
    put_word(index.stamp, &mut bytes)?;
    bytes.extend_from_slice(&LAST_LETTERS)?;
    Ok(bytes)
}

fn put_entries(entries: &[IndexEntry], to: &mut Vec<u8>) -> Result<(), AllocError>
    ensures { OnOk result (to.new.items ≡ to.old.items ++ entries_bytes entries.now) }
{
    for entry in entries {
        put_entry(entry, to)?;
    }
    Ok(())
}

fn put_entry(entry: &IndexEntry, to: &mut Vec<u8>) -> Result<(), AllocError>
    ensures { OnOk result (to.new.items ≡ to.old.items ++ entry_bytes entry.now) }
{
    put_word(entry.place, to)?;
    put_half(entry.len, to)?;
    put_size(entry.key.len() as u16, to)?;
    to.extend_from_slice(&entry.key)
}

#[tactic(auto, unfolding(crate::specs::Format::word_bytes))]
fn put_word(n: u64, to: &mut Vec<u8>) -> Result<(), AllocError>
    ensures { OnOk result (to.new.items ≡ to.old.items ++ word_bytes n) }
{
    to.extend_from_slice(&n.to_be_bytes())
}

#[tactic(auto, unfolding(crate::specs::Format::half_word_bytes))]
fn put_half(n: u32, to: &mut Vec<u8>) -> Result<(), AllocError>
    ensures { OnOk result (to.new.items ≡ to.old.items ++ half_word_bytes n) }
{
    to.extend_from_slice(&n.to_be_bytes())
}

#[tactic(auto, unfolding(px_cellbytes::specs::Spelling::size_bytes))]
fn put_size(n: u16, to: &mut Vec<u8>) -> Result<(), AllocError>
    ensures { OnOk result (to.new.items ≡ to.old.items ++ size_bytes n) }
{
    to.extend_from_slice(&n.to_be_bytes())
}
