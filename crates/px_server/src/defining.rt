// Definitions: one record is written to the catalogue.
pub(crate) mod failing;
pub(crate) mod index_causes;
pub(crate) mod index_disabled;
pub(crate) mod index_gone;
pub(crate) mod index_made;
pub(crate) mod index_ready;
pub(crate) mod index_rebuilt;
pub(crate) mod prepared;
pub(crate) mod put;
pub(crate) mod quiet;
pub(crate) mod spelled;
pub(crate) mod stamps;
pub(crate) mod tables;
