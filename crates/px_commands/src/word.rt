// The words of session commands.
ghost use Rattle.std.specs.Prelude.{◌≡◌};
ghost use Rattle.px_commands.specs.Commands as spec;

/// A word of session commands.
#[derive(Clone, Copy, Debug, PartialEq, Eq)]
pub enum Word {
    Scn,
    Off,
    On,
    Commit,
    Autocommit,
    Status,
    Flush,
    Compact,
}

/// The word that a text is, in any case of letters.
pub fn word_of(text: &str) -> Option<Word>
    ensures { result ≡ spec.word_of text.now }
{
    if text.eq_ignore_ascii_case("scn") {
        Some(Word::Scn)
    } else if text.eq_ignore_ascii_case("off") {
        Some(Word::Off)
    } else if text.eq_ignore_ascii_case("on") {
        Some(Word::On)
    } else if text.eq_ignore_ascii_case("commit") {
        Some(Word::Commit)
    } else if text.eq_ignore_ascii_case("autocommit") {
        Some(Word::Autocommit)
    } else if text.eq_ignore_ascii_case("status") {
        Some(Word::Status)
    } else if text.eq_ignore_ascii_case("flush") {
        Some(Word::Flush)
    } else if text.eq_ignore_ascii_case("compact") {
        Some(Word::Compact)
    } else {
        None
    }
}
