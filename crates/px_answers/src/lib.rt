//! What a SELECT answers in the end: what its scan gathered, in the order asked, up to its LIMIT, shown.
//!
//! px_gather says what a scan has gathered, and px_sorted sorts, cuts and shows it. Here stands what that is in the words of the trail
//! (specs/Selects): a current answer in the order of the ORDER BY and then of the path, or under an SCN the answer that px_plan
//! defines over all rows at the point. No code stands here.
#![tactic(auto)]

mod laws;

pub use laws::law_selects;
