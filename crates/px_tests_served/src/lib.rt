//! Steps that no session makes, by bare calls on a server over a folder in memory: a repair whose point is closed before it, which comes when its version was
//! forgotten; a batch that is to begin when its region is full; an index that is to be dropped while a point or a batch of its table is open; and a batch
//! that is to write a row which an earlier one is still to write.
#![tactic(auto)]

#[cfg(test)]
mod dropping;
#[cfg(test)]
mod full;
#[cfg(test)]
mod late;
#[cfg(test)]
mod making;
#[cfg(test)]
mod scripts;
#[cfg(test)]
mod served;
#[cfg(test)]
mod stepping;
#[cfg(test)]
mod waiting;
