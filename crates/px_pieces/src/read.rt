// Reading pieces at a place of the bytes.
ghost use Rattle.std.specs.Prelude.{◌≡◌, ◌<◌, ◌≤◌, ◌+◌, ◌^◌, length, IfOk, IfErr};
ghost use Rattle.px_pieces.specs.Bytes.{bytes as any_bytes, one_byte};
ghost use Rattle.px_pieces.specs.Numbers.{number_piece};
ghost use Rattle.px_pieces.specs.Taking.{IsStoppedAt, IsTakenAt};

/// The first place at which bytes don't go on as they should.
#[derive(Clone, Copy, Debug, PartialEq, Eq)]
pub struct WrongPlace {
    pub place: u64,
}

/// The byte at a place, which is at least `least` and below `end`, or its place.
pub fn byte_in(bytes: &[u8], at: usize, least: u8, end: u16) -> Result<u8, WrongPlace>
    requires begins { at ≤ length bytes.now }
    ensures taken { IfOk result (λ b. IsTakenAt (one_byte least end) bytes.now at b (at + 1)) }
    ensures range { IfOk result (λ b. (least ≤ b) × (b < end)) }
    ensures stopped { IfErr result (λ wrong. IsStoppedAt (one_byte least end) bytes.now at wrong.place) }
{
    if at == bytes.len() {
        return Err(WrongPlace { place: at as u64 });
    }
    let byte = bytes[at];
    if byte < least {
        return Err(WrongPlace { place: at as u64 });
    }
    if u16::from(byte) >= end {
        return Err(WrongPlace { place: at as u64 });
    }
    Ok(byte)
}

/// So many bytes at a place, or the end of all bytes where there are fewer.
pub fn bytes_in(bytes: &[u8], at: usize, size: usize) -> Result<&[u8], WrongPlace>
    requires begins { at ≤ length bytes.now }
    ensures taken { IfOk result (λ part. IsTakenAt (any_bytes size) bytes.now at part.now (at + size)) }
    ensures long { IfOk result (λ part. length part.now ≡ size) }
    ensures stopped { IfErr result (λ wrong. IsStoppedAt (any_bytes size) bytes.now at wrong.place) }
{
    if bytes.len() - at < size {
        return Err(WrongPlace {
            place: bytes.len() as u64,
        });
    }
    Ok(&bytes[at..at + size])
}

/// The number of `size` bytes at a place, which is at most `most`, or the first place at which none goes on.
pub fn number_in(bytes: &[u8], at: usize, size: usize, most: u64) -> Result<u64, WrongPlace>
    requires begins { at ≤ length bytes.now }
    requires short { size ≤ 8 }
    ensures taken { IfOk result (λ n. IsTakenAt (number_piece size most) bytes.now at n (at + size)) }
    ensures most { IfOk result (λ n. n ≤ most) }
    ensures stopped { IfErr result (λ wrong. IsStoppedAt (number_piece size most) bytes.now at wrong.place) }
{
    let mut value = 0;
    for taken in 0..size {
        let place = at + taken;
        if place == bytes.len() {
            return Err(WrongPlace {
                place: place as u64,
            });
        }
        let next = value * 256 + u64::from(bytes[place]);
        if next > most / scale(size - 1 - taken) {
            return Err(WrongPlace {
                place: place as u64,
            });
        }
        value = next;
    }
    Ok(value)
}

/// What a byte is worth before so many others.
pub fn scale(behind: usize) -> u64
    requires { behind ≤ 7 }
    ensures { result ≡ 256 ^ behind }
{
    256u64.pow(behind as u32)
}
