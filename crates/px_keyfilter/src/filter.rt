// The bits of keys.
ghost use Rattle.std.specs.Prelude.{◌≡◌, ◌<◌, ◌≤◌, ◌*◌, ◌^◌, ◌↔◌, List, ℕ, IfOk, IsTrue, length, replicate};
ghost use Rattle.px_keyfilter.specs.Keys as spec;
ghost use Rattle.px_keyfilter.specs.Keys.{HasBit, HasKeyBits, first_bit, second_bit, with_bit, with_keys, with_key, words_for};

use px_cells::Cell;
use std::alloc::{AllocError, Global};
use std::marker::Model;

/// So many cells share a word of 64 bits.
const CELLS_A_WORD: u64 = 4;

/// More words than these no filter has: 8 MiB.
const WORDS_MOST: u64 = 1_048_576;

/// The number of no bytes.
const START: u64 = 1_442_695_040_888_963_407;

/// By this a number is multiplied for each byte.
const FACTOR: u64 = 6_364_136_223_846_793_005;

/// By these the number of a key is spread to its two bits.
const FIRST: u64 = 11_400_714_819_323_198_485;

const SECOND: u64 = 14_029_467_366_897_019_727;

/// The keys that cells may have.
#[derive(Drop)]
pub struct KeyFilter {
    words: Vec<u64>,
}

/// Its words.
impl Model for KeyFilter {
    ghost Value = { List ℕ };

    ghost view = { λ filter. filter.words.items };

    ghost invariant = { λ filter. (0 < length filter.words.items) × (length filter.words.items ≤ 2 ^ 20) };
}

/// The number of a key.
fn number_of(key: &[u8]) -> u64
    ensures { result ≡ spec.number_of key.now }
{
    let mut number = START;
    for byte in key {
        number = number.wrapping_mul(FACTOR).wrapping_add(u64::from(*byte));
    }
    number
}

/// One of so many bits.
fn bit_of(number: u64, factor: u64, bits: u64) -> u64
    requires some { 0 < bits }
    ensures bit { result ≡ spec.bit_of number factor bits }
    ensures within { result < bits }
{
    (number.wrapping_mul(factor) >> 32) % bits
}

impl KeyFilter {
    /// Room for so many cells, of which it has none yet.
    pub fn with_room(alloc: Global, cells: u64) -> Result<KeyFilter, AllocError>
        ensures { IfOk result (λ filter. filter ≡ replicate (words_for cells) 0) }
    {
        let words = (cells / CELLS_A_WORD + 1).min(WORDS_MOST);
        Ok(KeyFilter {
            words: vec![in alloc; 0u64; words as usize]?,
        })
    }

    /// Adds a key.
    pub fn add(&mut self, key: &[u8])
        ensures { self.new ≡ with_key self.old key.now }
    {
        let (first, second) = self.bits_of(key);
        self.set(first);
        self.set(second);
    }

    /// Adds the keys of cells.
    pub fn add_all(&mut self, cells: &[Cell])
        ensures { self.new ≡ with_keys self.old cells.now }
    {
        for cell in cells {
            self.add(cell.key());
        }
    }

    /// Whether a cell that was added may have the key. It is surely false only of keys that no cell has.
    pub fn may_have(&self, key: &[u8]) -> bool
        ensures { IsTrue result ↔ HasKeyBits self.now key.now }
    {
        let (first, second) = self.bits_of(key);
        self.has(first) && self.has(second)
    }

    /// The two bits of a key.
    fn bits_of(&self, key: &[u8]) -> (u64, u64)
        ensures first { result.0 ≡ first_bit self.now key.now }
        ensures second { result.1 ≡ second_bit self.now key.now }
        ensures first_within { result.0 < 64 * length self.now }
        ensures second_within { result.1 < 64 * length self.now }
    {
        let bits = self.words.len() as u64 * 64;
        let number = number_of(key);
        (bit_of(number, FIRST, bits), bit_of(number, SECOND, bits))
    }

    fn set(&mut self, bit: u64)
        requires { bit < 64 * length self.old }
        ensures { self.new ≡ with_bit self.old bit }
    {
        let place = (bit / 64) as usize;
        let word = self.words[place];
        self.words[place] = word | 1u64 << (bit % 64);
    }

    fn has(&self, bit: u64) -> bool
        requires { bit < 64 * length self.now }
        ensures { IsTrue result ↔ HasBit self.now bit }
    {
        let word = self.words[(bit / 64) as usize];
        (word >> (bit % 64)) % 2 == 1
    }
}
