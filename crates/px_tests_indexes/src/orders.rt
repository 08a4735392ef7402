// A table of orders with an index, which the tests begin with.
use px_program::Status;
use px_tests_program::runs::{Run, ends_behind, run_new};
use std::alloc::{AllocError, Global};
use std::sync::Wait;
use std::thread::Threads;

/// A table of orders with an index that covers their amounts, which is born at stamp 1, and two orders, at the stamps 2 and 3.
const ORDERS: &str =
    "CREATE TABLE ORDERS (ID BIGINT NOT NULL PRIMARY KEY, CUST VARCHAR, AMT INTEGER, NOTE VARCHAR);
CREATE INDEX BY_CUST ON ORDERS (CUST) INCLUDE (AMT);
UPSERT INTO ORDERS (ID, CUST, AMT) VALUES (1,'bo',5);
UPSERT INTO ORDERS (ID, CUST, AMT) VALUES (2,'al',7);
";

const ORDERED: &str = "table created\nindex created\n1 row affected\n1 row affected\n";

/// Whether the set-up with two orders, and these statements behind it, end so and print this.
pub(crate) fn with_orders<R: Threads + Wait + Sync>(
    rt: &R,
    alloc: Global,
    statements: &str,
    status: Status,
    text: &str,
) -> Result<bool, AllocError> {
    ends_behind(rt, alloc, (ORDERS, ORDERED), statements, status, text)
}

/// The orders, on a disk.
pub(crate) fn orders<R: Threads + Wait + Sync>(rt: &R, alloc: Global) -> Result<Run, AllocError> {
    run_new(rt, alloc, ORDERS)
}
