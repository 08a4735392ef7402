//! Pieces of a format: values that are spelled as bytes, and read back at a place of them.
//!
//! A piece is a value with its one spelling, the reading of bytes that begin with it, and the laws between both: what is
//! spelled is read, nothing else is, and of bytes that begin with no value there is a first wrong place, behind which none
//! goes on. Larger pieces are put together from smaller ones and keep the laws. The readers here read a byte, a number
//! and bytes at a place.
#![tactic(auto)]

mod read;

pub use read::{WrongPlace, byte_in, bytes_in, number_in, scale};
