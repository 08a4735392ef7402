// Why a text is no statement.

use std::alloc::{AllocError, AllocFailed};
use std::error::Error;
use std::fmt;

/// Why a text is no statement.
#[derive(Clone, Copy, Debug, PartialEq, Eq)]
pub enum SyntaxFault {
    /// At this place no statement continues: the byte where a token or a lexical fault begins, or the end of the text.
    Unexpected { place: usize },
    /// What stands at the first place where no statement continues is left out of the language, or the text is a statement
    /// with NOT NULL at a column outside the key.
    LeftOut { name: &'static str },
    /// It is a statement, in which more than 64 parentheses and NOTs are open at once.
    TooDeep,
    Memory,
}

impl From<AllocError> for SyntaxFault {
    ghost use Rattle.px_parse.specs.declared.syntax.SyntaxFault.TheVariants.{Memory};
    ghost use Rattle.std.specs.Prelude.{◌≡◌};

    ghost from_gives = { λ _ e. e ≡ Memory };

    fn from(_error: AllocError) -> SyntaxFault {
        SyntaxFault::Memory
    }
}

impl<T: Drop> From<AllocFailed<T>> for SyntaxFault {
    ghost use Rattle.px_parse.specs.declared.syntax.SyntaxFault.TheVariants.{Memory};
    ghost use Rattle.std.specs.Prelude.{◌≡◌};

    ghost from_gives = { λ _ e. e ≡ Memory };

    fn from(_failed: AllocFailed<T>) -> SyntaxFault {
        SyntaxFault::Memory
    }
}

impl fmt::Display for SyntaxFault {
    fn fmt<W: fmt::Write>(&self, f: &mut fmt::Formatter<W>) -> fmt::Result {
        match *self {
            SyntaxFault::Unexpected { place } => write!(f, "syntax at byte {place}"),
            SyntaxFault::LeftOut { name } => write!(f, "left out: {name}"),
            SyntaxFault::TooDeep => write!(f, "more than 64 parentheses and NOTs are open"),
            SyntaxFault::Memory => write!(f, "out of memory"),
        }
    }
}

impl Error for SyntaxFault {}
