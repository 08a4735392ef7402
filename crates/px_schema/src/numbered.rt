// Numbers of what stands.
ghost use Rattle.std.specs.Prelude.{◌≡◌, ◌≤◌, ◌+◌, ℕ, length, map, IfOk, IfErr};
ghost use Rattle.px_pieces.specs.Numbers.{begins_one, one_of_piece};
ghost use Rattle.px_pieces.specs.Taking.{IsStoppedAt, IsTakenAt};

use px_pieces::{WrongPlace, scale};
use px_tables::{Index, Table};

/// What has a number.
pub(crate) trait Numbered {
    ghost number_of: { Self → ℕ };

    fn number(&self) -> u32
        ensures { result ≡ number_of self.now };
}

impl Numbered for Table {
    ghost number_of = { λ t. t.id.0 };

    fn number(&self) -> u32 {
        self.id.0
    }
}

impl Numbered for Index {
    ghost number_of = { λ i. i.id.0 };

    fn number(&self) -> u32 {
        self.id.0
    }
}

/// The number of four bytes at a place, which is that of one of these, or the first place at which none of theirs goes on.
pub(crate) fn one_of_in<T: Numbered>(
    bytes: &[u8],
    at: usize,
    standing: &[T],
) -> Result<u32, WrongPlace>
    requires begins { at ≤ length bytes.now }
    ensures taken { IfOk result (λ n. IsTakenAt (one_of_piece 4 (map T.number_of standing.now)) bytes.now at n (at + 4)) }
    ensures stopped { IfErr result (λ wrong. IsStoppedAt (one_of_piece 4 (map T.number_of standing.now)) bytes.now at wrong.place) }
{
    let mut value = 0;
    for taken in 0..4 {
        let place = at + taken;
        if place == bytes.len() {
            return Err(WrongPlace {
                place: place as u64,
            });
        }
        let next = value * 256 + u32::from(bytes[place]);
        if !one_begins(standing, 3 - taken, next) {
            return Err(WrongPlace {
                place: place as u64,
            });
        }
        value = next;
    }
    Ok(value)
}

/// Whether the number of one of these begins so, with so many bytes behind it.
fn one_begins<T: Numbered>(standing: &[T], behind: usize, value: u32) -> bool
    requires { behind ≤ 7 }
    ensures { result ≡ begins_one (map T.number_of standing.now) behind value }
{
    let scale = scale(behind);
    for one in standing {
        if u64::from(one.number()) / scale == u64::from(value) {
            return true;
        }
    }
    false
}
