//! Tests of px_wal, px_frozen and px_region over their public calls: the bytes of the first segment, room, stops at each call of
//! the disk, what a flush writes, the compaction of four files, one that forgets, the switch to another segment, and folders that aren't
//! of the format.
#![tactic(auto)]

#[cfg(test)]
mod compactions;
#[cfg(test)]
mod damage;
#[cfg(test)]
mod flushes;
#[cfg(test)]
mod forgettings;
#[cfg(test)]
mod frozen;
#[cfg(test)]
mod pieces;
#[cfg(test)]
mod room;
#[cfg(test)]
mod stops;
#[cfg(test)]
mod switch;
