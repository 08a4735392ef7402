// Sessions in rounds, their settings, and tables as of a stamp.
use crate::runs::{disk_of, ends, prints, run_again, run_new};
use px_program::Status;

#[test]
fn sessions_run_in_rounds(rt: HostRuntime) {
    let script = "CREATE TABLE T (A BIGINT PRIMARY KEY, B VARCHAR);
UPSERT INTO T VALUES (1,'one');
@2 SELECT * FROM KV;
---
@2 UPSERT INTO T VALUES (2,'two');
---
@3 SELECT * FROM T;
SELECT A FROM T;
---
@32 SELECT B FROM T
@32  WHERE A = 2;
";
    let text = "table created
1 row affected
@2
0 rows selected
@2
1 row affected
1
2
2 rows selected
@3
1, 'one'
2, 'two'
2 rows selected
@32
'two'
1 row selected
";
    assert!(rt; ends(&rt, rt.alloc(), script, Status::Done, text) == Ok(true));
}

#[test]
fn rounds_and_sessions_are_divided_by_lines(rt: HostRuntime) {
    for (script, status, text) in [
        ("---", Status::Done, ""),
        ("---\n---\n", Status::Done, ""),
        ("@2", Status::Done, ""),
        ("@2 SELECT * FROM KV", Status::Done, "@2\n0 rows selected\n"),
        ("@01 SELECT * FROM KV", Status::Done, "0 rows selected\n"),
        (
            "@0 SELECT * FROM KV",
            Status::Refused,
            "E01 syntax at byte 0\n",
        ),
        (
            "@33 SELECT * FROM KV",
            Status::Refused,
            "E01 syntax at byte 0\n",
        ),
        (
            "@2SELECT * FROM KV",
            Status::Refused,
            "E01 syntax at byte 0\n",
        ),
        (
            "UPSERT INTO KV VALUES ('a','\n---\n');",
            Status::Refused,
            "E01 syntax at byte 27\nE01 syntax at byte 0\n",
        ),
        (" ---\nSELECT * FROM KV", Status::Done, "0 rows selected\n"),
        (
            "SELECT *\n@2 !scn 7\nFROM KV",
            Status::Done,
            "0 rows selected\n@2\nscn 7\n",
        ),
    ] {
        assert!(rt; ends(&rt, rt.alloc(), script, status, text) == Ok(true));
    }
}

#[test]
fn a_setting_lasts_over_rounds_for_its_session(rt: HostRuntime) {
    let script = "UPSERT INTO KV VALUES ('a','1');
UPSERT INTO KV VALUES ('a','2');
@2 !scn 2
---
SELECT * FROM KV;
@2 SELECT * FROM KV;
@2 UPSERT INTO KV VALUES ('a','3');
@2 DROP TABLE KV;
---
@2 !scn off
@2 SELECT * FROM KV;
";
    let text = "1 row affected
1 row affected
@2
scn 2
'a', '2'
1 row selected
@2
'a', '1'
1 row selected
E13 not under scn
E13 not under scn
@2
scn off
'a', '2'
1 row selected
";
    assert!(rt; ends(&rt, rt.alloc(), script, Status::Refused, text) == Ok(true));
}

#[test]
fn a_table_is_read_as_of_each_stamp_in_a_later_run(rt: HostRuntime) {
    let alloc = rt.alloc();
    let script =
        "UPSERT INTO KV VALUES ('a','1'); UPSERT INTO KV VALUES ('b','2'); UPSERT INTO KV VALUES ('a','3');";
    let run = run_new(&rt, alloc, script).expect(&rt, "no memory");
    let script = "!scn 1
SELECT * FROM KV;
!scn 2
SELECT * FROM KV;
!scn 3
SELECT * FROM KV;
!scn 4
SELECT * FROM KV;
!scn 99
SELECT * FROM KV;
";
    let text = "scn 1
0 rows selected
scn 2
'a', '1'
1 row selected
scn 3
'a', '1'
'b', '2'
2 rows selected
scn 4
'a', '3'
'b', '2'
2 rows selected
scn 99
'a', '3'
'b', '2'
2 rows selected
";
    let again = run_again(&rt, alloc, disk_of(run), script).expect(&rt, "no memory");
    assert!(rt; prints(again, Status::Done, text));
}
