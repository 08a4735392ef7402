//! Tests of px_opening and px_folder over their public calls: an empty folder, a folder with rows of KV, indexes in each state, folders
//! whose definitions or cells haven't their shape, and failed calls.
#![tactic(auto)]

#[cfg(test)]
mod folders;
#[cfg(test)]
mod opening;
#[cfg(test)]
mod shapes;
