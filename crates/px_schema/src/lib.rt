//! Definitions of tables and indexes as bytes, and what stands after them.
#![tactic(auto)]

mod after;
mod fault;
mod index;
mod item;
pub mod laws;
mod list;
mod numbered;
mod part;
mod record;
mod room;
mod standing;
mod table;
mod text;
mod write;

pub use after::fresh;
pub use fault::DefFault;
pub use item::CatalogItem;
pub use record::{read_definition, read_snapshot};
pub use standing::Standing;
pub use write::{kind_of, write_definition, write_snapshot};

/// The greatest number of a table, an index or a region.
pub const GREATEST_ID: u64 = 4_294_967_294;

/// The greatest next number.
pub const GREATEST_NUMBER: u64 = 4_294_967_295;

/// The greatest stamp.
pub const GREATEST_STAMP: u64 = 9_223_372_036_854_775_807;

/// The most tables, and the most indexes, of a snapshot.
pub const GREATEST_COUNT: u64 = 65_535;

/// The most bytes of a least key.
pub const GREATEST_KEY: u64 = 65_535;
