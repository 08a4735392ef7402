// Transcripts, and how they are printed one after another.
use px_reply::{
    Evidence, Item, Items, Places, Receipts, Reply, Transcript, Transcripts, print_transcripts,
};
use px_script::Span;
use px_values::Line;
use std::alloc::{AllocError, Global};
use std::test::Fail;

/// The items of so many settings of an SCN, from a number on.
fn items(alloc: Global, first: u64, count: u64) -> Result<Items, AllocError> {
    let mut items = Vec::new(alloc);
    for i in 0..count {
        items.push(Item {
            statement: Span { start: 0, end: 6 },
            reply: Reply::Scn(Some(first.saturating_add(i))),
            evidence: Evidence {
                receipts: Receipts::of(Vec::new(alloc)),
                places: Places::of(Vec::new(alloc)),
                first: 0,
                last: 0,
            },
        })?;
    }
    Ok(Items::of(items))
}

/// A session and its round, and its items' first SCN and their number.
const TRANSCRIPTS: &[(u32, u64, u64, u64)] = &[
    (1, 1, 1, 2),
    (2, 1, 3, 1),
    (3, 1, 0, 0),
    (32, 1, 4, 1),
    (1, 2, 0, 0),
    (2, 2, 5, 2),
    (1, 3, 7, 1),
];

const PRINTED: &str = "scn 1\nscn 2\n@2\nscn 3\n@32\nscn 4\n@2\nscn 5\nscn 6\nscn 7\n";

#[test]
fn transcripts_are_printed_in_order(rt: HostRuntime) -> Result<(), Fail> {
    let alloc = rt.alloc();
    let mut transcripts = Vec::new(alloc);
    for (session, round, first, count) in TRANSCRIPTS {
        let items = items(alloc, *first, *count)?;
        transcripts.push(Transcript {
            session: *session,
            round: *round,
            items,
        })?;
    }
    let mut line = Line::new(alloc);
    print_transcripts(&Transcripts::of(transcripts), &mut line)?;
    assert_eq!(rt; line.as_slice(), PRINTED.as_bytes());
    Ok(())
}
