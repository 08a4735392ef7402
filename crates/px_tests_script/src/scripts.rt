// Scripts and what they are divided into, worked out by hand from the description of scripts.
ghost use Rattle.std.specs.Prelude.{◌<◌, ◌+◌, ◌^◌, length};

use itoa::Buffer;
use px_lex::script::{Piece, PieceKind};
use px_script::{ScriptFault, SessionText, pieces, place_of, read_script};
use px_values::Line;
use std::alloc::{AllocError, Global};
use std::test::Fail;

/// A script, and its rounds, each ended by `/`: of each session its number, its text between brackets, and of each of its
/// pieces the place, what it is, and its end.
const SCRIPTS: &[(&str, &str)] = &[
    ("", "/"),
    ("\n", "@1[]/"),
    ("A", "@1[A]0s1/"),
    ("A\n", "@1[A]0s1/"),
    ("A\n\n", "@1[A\n]0s2/"),
    ("A;\nB", "@1[A;\nB]0s1 3s4/"),
    // rounds
    ("---", "//"),
    ("---\n", "//"),
    ("---\n---", "///"),
    ("A\n---\nB\n", "@1[A]0s1/@1[B]0s1/"),
    ("A\n---\nB\n---\n", "@1[A]0s1/@1[B]0s1//"),
    ("--- \nA", "@1[--- \nA]5s6/"),
    (" ---\nA", "@1[ ---\nA]5s6/"),
    ("----\nA", "@1[----\nA]5s6/"),
    ("---\r\nA", "@1[---\r\nA]5s6/"),
    ("--\nA", "@1[--\nA]3s4/"),
    // sessions
    ("@2 A", "@2[A]0s1/"),
    ("@2 A\nB\n@2 C", "@1[B]0s1 @2[A\nC]0s3/"),
    ("@2 A;\n@2  B", "@2[A;\n B]0s1 4s5/"),
    ("@2", "@2[]/"),
    ("@2\n@2 A", "@2[\nA]1s2/"),
    ("@1 A\nB", "@1[A\nB]0s3/"),
    ("@01 A\nB", "@1[A\nB]0s3/"),
    ("@32 A", "@32[A]0s1/"),
    (
        "@9 A\n@10 B\n@31 C\n@3 D",
        "@3[D]0s1 @9[A]0s1 @10[B]0s1 @31[C]0s1/",
    ),
    ("@33 A", "@1[@33 A]0s5/"),
    ("@0 A", "@1[@0 A]0s4/"),
    ("@00 A", "@1[@00 A]0s5/"),
    ("@002 A", "@1[@002 A]0s6/"),
    ("@2A", "@1[@2A]0s3/"),
    ("@ 2", "@1[@ 2]0s3/"),
    ("@2\tA", "@1[@2\tA]0s4/"),
    ("@2\r\n@2 A", "@1[@2\r]0s3 @2[A]0s1/"),
    (" @2 A", "@1[ @2 A]1s5/"),
    ("@", "@1[@]0s1/"),
    ("@x", "@1[@x]0s2/"),
    ("@-1 A", "@1[@-1 A]0s5/"),
    // a line that ends a round is cut before anything else, and so is one that names a session
    ("@2 ---\n@2 A", "@2[---\nA]4s5/"),
    ("A '\n---\n'", "@1[A ']0s3/@1[']0s1/"),
    ("/*\n@2 A\n*/", "@1[/*\n*/] @2[A]0s1/"),
    ("A '\n@3 B\n' C", "@1[A '\n' C]0s7 @3[B]0s1/"),
    // places count from the first byte of the session's text in its round
    (
        "A;\n@2 B; C\n---\n@2 D;E",
        "@1[A;]0s1 @2[B; C]0s1 3s4/@2[D;E]0s1 2s3/",
    ),
    (
        "\u{e9};\n@2 '\u{e9}' B",
        "@1[\u{e9};]0s2 @2['\u{e9}' B]0s6/",
    ),
    // session commands
    ("!scn 5\nA", "@1[!scn 5\nA]0c6 7s8/"),
    (
        " ! scn 5\nA;!scn 6",
        "@1[ ! scn 5\nA;!scn 6]1c8 9s10 11s17/",
    ),
    ("A\n!scn 5", "@1[A\n!scn 5]0s8/"),
    (
        "A;\n!scn 5\n!commit",
        "@1[A;\n!scn 5\n!commit]0s1 3c9 10c17/",
    ),
    (
        "A '\n!commit\n';\n!commit",
        "@1[A '\n!commit\n';\n!commit]0s13 15c22/",
    ),
    (
        "/*\n!commit\n*/!commit\n!commit",
        "@1[/*\n!commit\n*/!commit\n!commit]13s28/",
    ),
    ("-- A\n!commit", "@1[-- A\n!commit]5c12/"),
    ("@2 !commit\n@2 A", "@2[!commit\nA]0c7 8s9/"),
    ("A\r\nB", "@1[A\r\nB]0s4/"),
    ("!commit\r\nA", "@1[!commit\r\nA]0c8 9s10/"),
];

fn number(n: usize, to: &mut Line) -> Result<(), AllocError> {
    let mut buffer = Buffer::new();
    to.push_str(buffer.format(n))
}

fn kind_of(kind: PieceKind) -> &'static str {
    match kind {
        PieceKind::Statement => "s",
        PieceKind::Command => "c",
    }
}

fn show_piece(piece: &Piece<'_>, to: &mut Line) -> Result<(), AllocError>
    requires { piece.now.place + length piece.now.text.now < 2 ^ 64 }
{
    let span = place_of(piece);
    number(span.start, to)?;
    to.push_str(kind_of(piece.kind))?;
    number(span.end, to)
}

fn show_text(alloc: Global, text: &SessionText, to: &mut Line) -> Result<(), AllocError> {
    to.push_str("@")?;
    number(text.session as usize, to)?;
    to.push_str("[")?;
    to.push_str(text.text.as_str())?;
    to.push_str("]")?;
    let pieces = pieces(alloc, text.text.as_str())?;
    for i in 0..pieces.len() {
        if i > 0 {
            to.push_str(" ")?;
        }
        show_piece(&pieces[i], to)?;
    }
    Ok(())
}

fn show_round(alloc: Global, texts: &[SessionText], to: &mut Line) -> Result<(), AllocError> {
    for i in 0..texts.len() {
        if i > 0 {
            to.push_str(" ")?;
        }
        show_text(alloc, &texts[i], to)?;
    }
    to.push_str("/")
}

fn show(alloc: Global, script: &[u8], to: &mut Line) -> Result<(), AllocError> {
    match read_script(alloc, script) {
        Err(ScriptFault::TooLong) => to.push_str("too long"),
        Err(ScriptFault::NotUtf8 { place }) => {
            to.push_str("not UTF-8 at ")?;
            number(place as usize, to)
        }
        Err(ScriptFault::Memory) => to.push_str("out of memory"),
        Ok(rounds) => {
            for round in rounds.as_slice() {
                show_round(alloc, round.as_slice(), to)?;
            }
            Ok(())
        }
    }
}

#[test]
fn scripts_are_divided_among_rounds_and_sessions(rt: HostRuntime) -> Result<(), Fail> {
    let alloc = rt.alloc();
    for (script, expected) in SCRIPTS {
        let mut line = Line::new(alloc);
        show(alloc, script.as_bytes(), &mut line)?;
        assert_eq!(rt; line.as_slice(), expected.as_bytes(), "{script}");
    }
    Ok(())
}

/// Bytes that are no text, and the place of the first bad one, counted from the script's first.
const BAD: &[(&[u8], &str)] = &[
    (&[0xff], "not UTF-8 at 0"),
    (&[b'A', b'\n', b'@', b'2', b' ', 0xc3], "not UTF-8 at 5"),
    (&[b'A', 0xed, 0xa0, 0x80], "not UTF-8 at 1"),
];

#[test]
fn bad_bytes_are_refused(rt: HostRuntime) -> Result<(), Fail> {
    let alloc = rt.alloc();
    for (script, expected) in BAD {
        let mut line = Line::new(alloc);
        show(alloc, script, &mut line)?;
        assert_eq!(rt; line.as_slice(), expected.as_bytes());
    }
    Ok(())
}
