// Draws, rows and scripts, worked out by hand.
use px_load::{Draws, Load, LoadRow, load_text, next_row};
use px_script::read_script;
use std::alloc::{AllocError, Global};
use std::test::Fail;

/// Three draws.
fn three(draws: &mut Draws) -> [u64; 3] {
    [draws.draw(), draws.draw(), draws.draw()]
}

#[test]
fn three_draws_behind_0_are_these(rt: HostRuntime) {
    let mut draws = Draws::behind(0);
    let drawn = three(&mut draws);
    assert_eq!(rt; drawn, [167_951_807, 218_396_424, 1_299_921_937]);
}

#[test]
fn the_greatest_number_is_followed_modulo_2_to_the_64(rt: HostRuntime) {
    let mut draws = Draws::behind(u64::MAX);
    let drawn = draws.draw();
    assert_eq!(rt; draws.number, 13_525_302_890_751_722_018);
    assert_eq!(rt; drawn, 1_574_552_488);
}

#[test]
fn a_row_is_made_of_three_draws(rt: HostRuntime) {
    let mut draws = Draws::behind(0);
    let row = next_row(&mut draws, 1);
    assert_eq!(rt;
        row,
        LoadRow {
            id: 0,
            group: 24,
            amount: 937
        }
    );
    let mut draws = Draws::behind(0);
    let row = next_row(&mut draws, 100_000);
    assert_eq!(rt;
        row,
        LoadRow {
            id: 51_807,
            group: 24,
            amount: 937
        }
    );
}

const ONE: &str = "CREATE TABLE LOAD (ID BIGINT NOT NULL PRIMARY KEY, GRP VARCHAR, AMT INTEGER);
CREATE INDEX LOAD_GRP ON LOAD (GRP) INCLUDE (AMT);
!autocommit off
UPSERT INTO LOAD VALUES (0, 'G24', 937);
!commit
SELECT /*+ NO_INDEX */ ID, GRP, AMT FROM LOAD;
SELECT /*+ INDEX(LOAD LOAD_GRP) */ ID, GRP, AMT FROM LOAD;
";

#[test]
fn the_script_of_one_row_is_this(rt: HostRuntime) -> Result<(), Fail> {
    let text = load_text(rt.alloc(), Load { number: 0, rows: 1 })?;
    assert_eq!(rt; text.as_str(), ONE);
    Ok(())
}

/// How many lines of a script begin so.
fn lines_of(text: &str, front: &str) -> usize {
    let mut count: usize = 0;
    for line in text.lines() {
        if line.starts_with(front) {
            count = count.saturating_add(1);
        }
    }
    count
}

/// How many rows and how many commits the script of so many rows has.
fn counts(alloc: Global, rows: u64) -> Result<(usize, usize), AllocError> {
    let text = load_text(alloc, Load { number: 3, rows })?;
    Ok((
        lines_of(&text, "UPSERT INTO LOAD "),
        lines_of(&text, "!commit"),
    ))
}

#[test]
fn a_commit_stands_behind_every_hundredth_row_and_the_last(rt: HostRuntime) -> Result<(), Fail> {
    let cases: [(u64, usize); 7] = [
        (1, 1),
        (99, 1),
        (100, 1),
        (101, 2),
        (200, 2),
        (201, 3),
        (1_000, 10),
    ];
    for (rows, commits) in cases {
        assert_eq!(rt;
            counts(rt.alloc(), rows)?,
            (rows as usize, commits),
            "{rows}"
        );
    }
    Ok(())
}

/// Whether a script is one text of session 1 in one round: all of it but the last line feed.
fn is_of_one_session(alloc: Global, text: &str) -> bool {
    match read_script(alloc, text.as_bytes()) {
        Ok(script) => match script.as_slice() {
            [round] => match round.as_slice() {
                [only] => only.session == 1 && only.text.as_str().len() + 1 == text.len(),
                _ => false,
            },
            _ => false,
        },
        Err(_) => false,
    }
}

#[test]
fn the_script_is_one_text_of_session_1(rt: HostRuntime) -> Result<(), Fail> {
    let load = Load {
        number: u64::MAX,
        rows: 2_000,
    };
    let text = load_text(rt.alloc(), load)?;
    assert!(rt; is_of_one_session(rt.alloc(), &text));
    Ok(())
}
