// The statements and session commands of a session's text.
ghost use Rattle.std.specs.Prelude.{◌≡◌, ◌<◌, ◌+◌, ◌^◌, List, length, map, IfOk};
ghost use Rattle.std.specs.List.{All};
ghost use Rattle.px_lex.specs.Script.{IsScript, Section, pieces_from, seen_piece};
ghost use Rattle.px_script.specs.Pieces.{span_of};

use px_lex::script::{Piece, cut};
use std::alloc::{AllocError, Global};

/// Where a statement or a session command stands in its session's text, in bytes: from `start` up to `end`.
#[derive(Clone, Copy, Debug, PartialEq, Eq)]
pub struct Span {
    pub start: usize,
    pub end: usize,
}

/// The statements and the session commands of a session's text, in order.
pub fn pieces<'a>(alloc: Global, text: &'a str) -> Result<Vec<Piece<'a>>, AllocError>
    ensures cut { IfOk result (λ pieces. (xs : List Section) × IsScript text.now xs × (map seen_piece pieces.items ≡ pieces_from 0 xs)) }
    ensures within { IfOk result (λ pieces. All (λ piece. piece.place + length piece.text.now < 2 ^ 64) pieces.items) }
{
    cut(alloc, text)
}

/// Where a piece stands.
pub fn place_of(piece: &Piece<'_>) -> Span
    requires { piece.now.place + length piece.now.text.now < 2 ^ 64 }
    ensures { result ≡ span_of (seen_piece piece.now) }
{
    Span {
        start: piece.place,
        end: piece.place + piece.text.len(),
    }
}
