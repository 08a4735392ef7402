use px_keyfilter::KeyFilter;
use std::alloc::Global;
use std::test::Fail;

/// How many of the keys of two bytes with this first one seem to be there.
fn seen(filter: &KeyFilter, first: u8) -> u64 {
    let mut count = 0u64;
    for second in 0..=255u8 {
        if filter.may_have(&[first, second]) {
            count = count.saturating_add(1);
        }
    }
    count
}

#[test]
fn a_filter_has_what_was_added_and_little_else(rt: HostRuntime) -> Result<(), Fail> {
    let alloc = rt.alloc();
    let mut filter = KeyFilter::with_room(alloc, 256)?;
    assert!(rt; seen(&filter, 1) == 0);
    for second in 0..=255u8 {
        filter.add(&[1, second]);
    }
    assert!(rt; seen(&filter, 1) == 256);
    assert!(rt; seen(&filter, 2) < 32 && seen(&filter, 3) < 32);
    assert!(rt; !filter.may_have(&[]));
    Ok(())
}

#[test]
fn a_filter_without_room_says_that_all_is_there(rt: HostRuntime) -> Result<(), Fail> {
    let alloc = rt.alloc();
    let mut filter = KeyFilter::with_room(alloc, 0)?;
    for second in 0..=255u8 {
        filter.add(&[1, second]);
    }
    assert!(rt; seen(&filter, 1) == 256 && seen(&filter, 2) > 200);
    Ok(())
}
