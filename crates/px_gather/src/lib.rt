//! What a scan gathers, and why that is the answer of a query.
//!
//! A scan looks at the keys of a path, chunk by chunk, and asks the data row of each doubt, while others' entries come. Here stands what is true
//! of the rows that it has gathered so far (specs/Gathered): each was held at its place, they are in the order of the path, and each row that stood
//! since the point was opened is among them, if its key is done with. The laws say how that goes on key by key and while the trail
//! grows, and that at the end of the path it is a current answer, or under an SCN exactly the rows at the point. No code stands here.
#![tactic(auto)]

mod laws;

pub use laws::{law_answers, law_gathers};
