//! Tests of px_planned over its public calls: the path that a query chooses at a point, which hints are followed, and where a
//! path would have to be joined; which rows meet a condition, and which LIMIT ends a scan.
#![tactic(auto)]

#[cfg(test)]
mod paths;
