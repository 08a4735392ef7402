//! Watched steps: random steps of six seats, where after each one all rows are asked by each path and read on the disk, beside a plain list of
//! dated rows; steps in an order worked out by hand; and a stop at each call of the disk of a short script, and at each call of what opens and
//! reads the folder again.
#![tactic(auto)]

#[cfg(test)]
mod course;
#[cfg(test)]
mod images;
#[cfg(test)]
mod plans;
#[cfg(test)]
mod seeds;
#[cfg(test)]
mod stops;
#[cfg(test)]
mod worked;
