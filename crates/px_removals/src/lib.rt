//! What a DELETE removes, part by part.
//!
//! `removals` makes of the rows that were found the changes that remove them: in the order of their values, each row once, each one that fits its
//! table. `next_part` takes the next 1,000 of them, or all that are left, as the changes of one batch. That the parts may be begun as
//! batches, each after the ones before it, is `law_parts`.
#![tactic(auto)]

mod laws;
mod parts;
mod removing;

pub use laws::law_parts;
pub use parts::next_part;
pub use removing::removals;
