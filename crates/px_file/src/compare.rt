// Where bytes differ.
ghost use Rattle.std.specs.Prelude.{◌≡◌, ◌≤◌, None, IfSome, length};
ghost use Rattle.px_file.specs.Reading.{DiffersAt};

/// The first place where bytes differ from the right ones, or where the shorter of both ends.
pub(crate) fn difference(right: &[u8], found: &[u8]) -> Option<usize>
    ensures same { result ≡ None → found.now ≡ right.now }
    ensures within { IfSome result (λ place. place ≤ length right.now) }
    ensures place { IfSome result (λ place. DiffersAt right.now found.now place) }
{
    for (i, byte) in right.iter().enumerate() {
        if i >= found.len() || found[i] != *byte {
            return Some(i);
        }
    }
    if right.len() < found.len() {
        return Some(right.len());
    }
    None
}
