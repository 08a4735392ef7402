// To which session a line belongs.
ghost use Rattle.std.specs.Prelude.{◌≡◌, ◌≤◌, ◌<◌, true, IfSome};
ghost use Rattle.std.specs.Char.{is_ascii_digit};
ghost use Rattle.px_script.specs.Scripts as spec;

/// A line's session, and what the line gives to it.
#[derive(Clone, Copy)]
pub struct Owned<'a> {
    pub session: u32,
    pub text: &'a str,
}

/// The number of a digit.
fn value(digit: u8) -> u32
    requires { is_ascii_digit digit ≡ true }
    ensures { result ≡ spec.digit digit }
{
    u32::from(digit - b'0')
}

/// The number that one or two digits spell.
fn number(digits: &[u8]) -> Option<u32>
    ensures { result ≡ spec.number_of digits.now }
{
    match digits {
        [a] if a.is_ascii_digit() => Some(value(*a)),
        [a, b] if a.is_ascii_digit() && b.is_ascii_digit() => Some(value(*a) * 10 + value(*b)),
        _ => None,
    }
}

/// The session that a line's first word names.
fn named(word: &[u8]) -> Option<u32>
    ensures named { result ≡ spec.named word.now }
    ensures within { IfSome result (λ n. (1 ≤ n) × (n ≤ 32)) }
{
    let [b'@', digits @ ..] = word else {
        return None;
    };
    match number(digits) {
        Some(session) if 1 <= session && session <= 32 => Some(session),
        _ => None,
    }
}

/// A line's session, and what the line gives to it.
pub fn owner_of(line: &str) -> Owned<'_>
    ensures owned { spec.seen_owned result ≡ spec.owned line.now }
    ensures within { (1 ≤ result.session) × (result.session ≤ 32) }
{
    let (word, rest) = line.split_once(' ').unwrap_or((line, ""));
    match named(word.as_bytes()) {
        Some(session) => Owned {
            session,
            text: rest,
        },
        None => Owned {
            session: 1,
            text: line,
        },
    }
}
