// What is named after files were forgotten at a horizon.
use px_forgetting::forgotten_after;
use px_wal::{FileEntry, Snapshot};
use std::test::Fail;

fn entry(local: u32) -> FileEntry {
    FileEntry {
        local,
        len: 100,
        cells: 3,
    }
}

#[test]
fn one_file_stands_alone_with_the_horizon(rt: HostRuntime) -> Result<(), Fail> {
    let alloc = rt.alloc();
    let named = Snapshot {
        flushed: 7,
        horizon: 2,
        stamp: 12,
        compactions: 7,
        files: vec![in alloc; entry(5), entry(4)]?,
    };
    let after = forgotten_after(alloc, &named, 9, entry(6))?;
    drop(named);
    let alone = after.files.len() == 1 && after.files[0].local == 6;
    let numbers = (after.flushed, after.horizon, after.stamp, after.compactions);
    drop(after);
    assert!(rt; alone);
    assert!(rt; numbers == (7, 9, 12, 0));
    Ok(())
}
