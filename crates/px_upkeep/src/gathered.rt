// The chunks whose base versions are made at once.
ghost use Rattle.std.specs.Prelude.{◌≡◌, [], IfOk};
ghost use Rattle.px_upkeep.specs.Rows.{gathered_then};

use px_calls::FoundKey;
use px_values::{Items, Value};
use std::alloc::{AllocError, Global};

/// So many chunks are enough.
const MOST_CHUNKS: usize = 64;

/// So many bytes are enough.
const MOST_BYTES: u64 = 4 << 20;

/// What a value takes without its text.
const VALUE_BYTES: u64 = 32;

/// Chunks that were found, in order. Their base versions aren't made yet.
#[derive(Drop)]
pub struct Gathered {
    pub chunks: Items<Items<FoundKey>>,
    /// About what their keys and rows take. No chunk is refused by it.
    pub bytes: u64,
}

fn bytes_of_value(value: &Value) -> u64 {
    match value {
        Value::Text(text) => VALUE_BYTES.saturating_add(text.as_bytes().len() as u64),
        _ => VALUE_BYTES,
    }
}

fn bytes_of_row(row: &[Value]) -> u64 {
    row.iter().fold(
        0u64,
        |bytes, value| bytes.saturating_add(bytes_of_value(value)),
    )
}

fn bytes_of_key(key: &FoundKey) -> u64 {
    match key {
        FoundKey::Sure(found) => {
            (found.key.as_slice().len() as u64).saturating_add(bytes_of_row(found.row.as_slice()))
        }
        FoundKey::InDoubt(doubt) => doubt.key.as_slice().len() as u64,
    }
}

fn bytes_of(found: &[FoundKey]) -> u64 {
    found
        .iter()
        .fold(0u64, |bytes, key| bytes.saturating_add(bytes_of_key(key)))
}

impl Gathered {
    pub(crate) fn new(alloc: Global) -> Gathered
        ensures { result.chunks ≡ [] }
    {
        Gathered {
            chunks: Items::of(Vec::new(alloc)),
            bytes: 0,
        }
    }

    /// Whether the base versions are to be made before more is read.
    pub(crate) fn is_full(&self) -> bool {
        self.chunks.as_slice().len() >= MOST_CHUNKS || self.bytes > MOST_BYTES
    }

    /// With one more chunk, unless it has no key.
    pub(crate) fn with(self, found: Items<FoundKey>) -> Result<Gathered, AllocError>
        ensures { IfOk result (λ gathered. gathered.chunks ≡ gathered_then self.chunks found) }
    {
        if found.as_slice().is_empty() {
            drop(found);
            return Ok(self);
        }
        let Gathered { chunks, bytes } = self;
        let bytes = bytes.saturating_add(bytes_of(found.as_slice()));
        let mut chunks = chunks.into_vec();
        chunks.push(found)?;
        Ok(Gathered {
            chunks: Items::of(chunks),
            bytes,
        })
    }
}
