// Reading texts.
ghost use Rattle.std.specs.Prelude.{◌≡◌, ◌≤◌, ◌<◌, ◌+◌, length, IfOk, IfErr};
ghost use Rattle.std.specs.Str.Lossy.{second_byte_max, second_byte_min};
ghost use Rattle.px_keys.specs.inner.PartReading.{char_size};
ghost use Rattle.px_pieces.specs.Taking.{IsStoppedAt, IsTakenAt};
ghost use Rattle.px_schema.specs.Texts.{char_next_by, char_ok_by, text};
ghost use Rattle.px_schema.specs.Underway.{IsState};

use px_pieces::WrongPlace;
use std::str;

/// The text of so many bytes at a place, or the first place at which none goes on.
pub(crate) fn text_in(bytes: &[u8], at: usize, size: usize) -> Result<&str, WrongPlace>
    requires begins { at ≤ length bytes.now }
    ensures taken { IfOk result (λ part. IsTakenAt (text size) bytes.now at part.now (at + size)) }
    ensures stopped { IfErr result (λ wrong. IsStoppedAt (text size) bytes.now at wrong.place) }
{
    let mut under_way = Character {
        need: 0,
        least: 0,
        most: 0,
    };
    for taken in 0..size {
        let place = at + taken;
        let wrong = WrongPlace {
            place: place as u64,
        };
        if place == bytes.len() {
            return Err(wrong);
        }
        let byte = bytes[place];
        if !goes_on(under_way, byte, size - 1 - taken) {
            return Err(wrong);
        }
        under_way = behind(under_way, byte);
    }
    // The bytes were read character by character, so they need no second look.
    Ok(unsafe { str::from_utf8_unchecked(&bytes[at..at + size]) })
}

/// A character under way: how many bytes are still to come, and the range of the next one.
#[derive(Clone, Copy)]
struct Character {
    need: u8,
    least: u8,
    most: u8,
}

/// Whether the byte goes on with the character under way, or begins one for which so many bytes behind it are enough.
fn goes_on(under_way: Character, byte: u8, left: usize) -> bool
    ensures { result ≡ char_ok_by under_way.need under_way.least under_way.most left byte }
{
    if under_way.need > 0 {
        return under_way.least <= byte && byte <= under_way.most;
    }
    let size = character_size(byte);
    size > 0 && usize::from(size) - 1 <= left
}

/// The character under way behind a byte that goes on.
fn behind(under_way: Character, byte: u8) -> Character
    requires { under_way.need ≡ 0 → 0 < char_size byte }
    ensures { IsState result (char_next_by under_way.need byte) }
{
    if under_way.need > 0 {
        return Character {
            need: under_way.need - 1,
            least: 0x80,
            most: 0xbf,
        };
    }
    Character {
        need: character_size(byte) - 1,
        least: second_least(byte),
        most: second_most(byte),
    }
}

/// The bytes of a character that begins with this byte; none does where it is 0.
fn character_size(first: u8) -> u8
    ensures { result ≡ char_size first }
{
    match first {
        0..=0x7f => 1,
        0xc2..=0xdf => 2,
        0xe0..=0xef => 3,
        0xf0..=0xf4 => 4,
        _ => 0,
    }
}

/// The least byte that may stand behind the first byte of a character.
fn second_least(first: u8) -> u8
    ensures { result ≡ second_byte_min first }
{
    match first {
        0xe0 => 0xa0,
        0xf0 => 0x90,
        _ => 0x80,
    }
}

/// The greatest byte that may stand behind the first byte of a character.
fn second_most(first: u8) -> u8
    ensures { result ≡ second_byte_max first }
{
    match first {
        0xed => 0x9f,
        0xf4 => 0x8f,
        _ => 0xbf,
    }
}
