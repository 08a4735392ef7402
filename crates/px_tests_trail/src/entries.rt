//! Entries of every kind.
ghost use Rattle.std.specs.Prelude.{◌≡◌};
ghost use Rattle.px_trail.specs.Count.{counted_act};

use px_trail::{
    Act, Entry, Trail, TrailFault, changes_bytes, law_legal, law_order, law_others, law_phases,
    law_stands, law_states, law_told,
};
use px_values::{Change, Changes, IndexId, Key, Row, Rows, TableId, Text, Value, What};
use std::alloc::{AllocError, Global};

/// A row with a key of one text.
fn row(alloc: Global, key: &str) -> Result<Row, AllocError> {
    let text = Text::from_str(alloc, key)?;
    Ok(Row::of(vec![in alloc; Value::Text(text)]?))
}

/// Changes that remove a row, which count 64 bytes and those of the key.
fn removal(alloc: Global, key: &str) -> Result<Changes, AllocError> {
    let change = Change {
        row: row(alloc, key)?,
        what: What::Gone,
    };
    Ok(Changes::of(vec![in alloc; change]?))
}

#[test]
fn entries_stand_in_order_and_count_their_changes(rt: HostRuntime) {
    let alloc = rt.alloc();
    let table = TableId(2);
    let mut trail = Trail::new(alloc);
    assert!(rt; trail.is_empty());
    let Ok(changes) = removal(alloc, "key") else {
        panic!(rt; "no memory")
    };
    let bytes = changes_bytes(changes.as_slice());
    assert_eq!(rt; bytes, 67);
    assert!(rt; trail.reserve(2, bytes).is_ok());
    trail.push(Entry {
        seat: 1,
        calls: 0,
        act: Act::Begun {
            table,
            stamp: 1,
            changes,
        },
    });
    trail.push(Entry {
        seat: 1,
        calls: 4,
        act: Act::Wrote {
            table,
            stamp: 1,
            rows: Rows::of(Vec::new(alloc)),
        },
    });
    assert_eq!(rt; trail.len(), 2);
    assert_eq!(rt; trail.counted_bytes(), 67);
    assert_eq!(rt; trail.entry(1).calls, 4);
    assert!(rt; trail.reserve(1, 536_870_845).is_ok());
    trail.give_back(1, 536_870_845);
    assert_eq!(rt; trail.reserve(1, 536_870_846), Err(TrailFault::Limit));
}

/// Adds an act that counts no bytes; false where there is no memory.
fn add(trail: &mut Trail, act: Act) -> bool
    requires { counted_act act ≡ 0 }
{
    if trail.reserve(1, 0).is_err() {
        drop(act);
        return false;
    }
    trail.push(Entry {
        seat: 0,
        calls: 0,
        act,
    });
    true
}

#[test]
fn acts_without_changes_count_nothing(rt: HostRuntime) {
    let alloc = rt.alloc();
    let (table, index) = (TableId(5), IndexId(7));
    let mut trail = Trail::new(alloc);
    let key = Key::of(Vec::new(alloc));
    assert!(rt; add(&mut trail, Act::Fixed { index, key }));
    let phase = 1;
    assert!(rt;
        add(
            &mut trail,
            Act::Phase {
                table,
                stamp: 3,
                phase
            }
        )
    );
    assert!(rt; add(&mut trail, Act::Shut { call: 9 }));
    assert_eq!(rt; trail.len(), 3);
    assert_eq!(rt; trail.counted_bytes(), 0);
    assert!(rt;
        matches!(&trail.entry(0).act, Act::Fixed { index, key } if index.0 == 7 && key.as_slice().is_empty())
    );
    assert!(rt;
        matches!(&trail.entry(1).act, Act::Phase { table, stamp: 3, phase: 1 } if table.0 == 5)
    );
    assert!(rt; matches!(&trail.entry(2).act, Act::Shut { call: 9 }));
    law_legal();
    law_told();
    law_stands();
    law_phases();
    law_others();
    law_order();
    law_states();
}
