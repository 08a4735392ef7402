// A table of orders with an index, and a verification of it.
use px_outside::MemDisk;
use px_program::Status;
use px_tests_program::runs::{Run, is_printed, run_new, run_words};
use std::alloc::{AllocError, Global};
use std::sync::Wait;
use std::thread::Threads;

/// The table, its index, and two orders at the stamps 2 and 3.
pub(crate) const ORDERS: &str =
    "CREATE TABLE ORDERS (ID BIGINT NOT NULL PRIMARY KEY, CUST VARCHAR, AMT INTEGER, NOTE VARCHAR);
CREATE INDEX BY_CUST ON ORDERS (CUST) INCLUDE (AMT);
UPSERT INTO ORDERS (ID, CUST, AMT) VALUES (1,'bo',5);
UPSERT INTO ORDERS (ID, CUST, AMT) VALUES (2,'al',7);
";

/// The lines of a report on which all agrees.
pub(crate) const TWO_MATCH: &str = "matching 2\nunverified 0\nmissing 0\nextra 0\nwrong 0\n";

/// The orders, on a disk.
pub(crate) fn orders<R: Threads + Wait + Sync>(rt: &R, alloc: Global) -> Result<Run, AllocError> {
    run_new(rt, alloc, ORDERS)
}

/// The words that verify the index in this way.
pub(crate) fn words_of(alloc: Global, kind: &str) -> Result<String, AllocError> {
    let mut words = String::from_str(
        alloc,
        "verify folder --table ORDERS --index BY_CUST --kind ",
    )?;
    words.push_str(kind)?;
    Ok(words)
}

/// The index is verified in this way on what is left of a disk.
pub(crate) fn verified<R: Threads + Wait + Sync>(
    rt: &R,
    alloc: Global,
    disk: MemDisk,
    kind: &str,
) -> Result<Run, AllocError> {
    let words = words_of(alloc, kind)?;
    run_words(rt, alloc, &words, disk.image(), "")
}

/// Whether that ends so and prints this.
pub(crate) fn verifies<R: Threads + Wait + Sync>(
    rt: &R,
    alloc: Global,
    disk: MemDisk,
    kind: &str,
    text: &str,
) -> Result<bool, AllocError> {
    let run = verified(rt, alloc, disk, kind)?;
    Ok(is_printed(&run, Status::Done, text))
}
