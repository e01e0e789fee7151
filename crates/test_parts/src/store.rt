//! The store of a node: the bytes of its value, and a row that another machine put.

use crate::same::same;
use pm_io::Failed;
use pm_store::{MemoryRow, MemoryStore, RowStore, Store, node_value, stored_kept, stored_start};

/// The value that start 258 put, with the Resume 5 6 and the Bid 7.
const VALUE: &[u8] = &[0, 0, 0, 0, 0, 0, 1, 2, 0, 0, 0, 0, 0, 0, 0, 2, 5, 6, 7];

/// Values, and the start, the Resume and the Bid in each. The third says that its Resume is longer than it is.
const VALUES: &[(&[u8], u64, &[u8], &[u8])] = &[
    (VALUE, 258, &[5, 6], &[7]),
    (&[], 0, &[], &[]),
    (
        &[0, 0, 0, 0, 0, 0, 0, 1, 0, 0, 0, 0, 0, 0, 0, 9, 5, 6],
        1,
        &[5, 6],
        &[],
    ),
    (&[0, 0, 0, 0, 0, 0, 0, 1, 0, 0, 0], 0, &[], &[]),
];

/// A value has the start, the length of the Resume, the Resume, and the Bid; and gives them back.
#[test]
fn a_value_has_the_start_the_resume_and_the_bid(rt: HostRuntime) {
    let value = node_value(rt.alloc(), 258, &[5, 6], &[7]).expect(&rt, "a value");
    same(&rt, "bytes", value.as_slice(), VALUE);
    for (value, start, resume, bid) in VALUES {
        let kept = stored_kept(rt.alloc(), value).expect(&rt, "what is kept");
        same(&rt, *value, stored_start(value), *start);
        same(&rt, *value, kept.resume.as_slice(), *resume);
        same(&rt, *value, kept.bid.as_slice(), *bid);
    }
}

/// Two machines in turn put a row. What the first one puts when it is back, without having read the row again, is refused.
#[test]
fn a_row_that_another_machine_put_is_put_no_more(rt: HostRuntime) {
    let alloc = rt.alloc();
    let one = vec![in alloc; 1u8].expect(&rt, "a value");
    let read = vec![in alloc; 1u8].expect(&rt, "what was read");
    let row = MemoryRow::new(MemoryStore::new(alloc, one));
    let mut first = RowStore::new(alloc, row, read);
    same(&rt, "first", first.replace(&[2]), Ok(()));
    let read = vec![in alloc; 2u8].expect(&rt, "what was read");
    let mut second = RowStore::new(alloc, first.into_row(), read);
    same(&rt, "second", second.replace(&[3]), Ok(()));
    let read = vec![in alloc; 2u8].expect(&rt, "what was read");
    let mut back = RowStore::new(alloc, second.into_row(), read);
    same(&rt, "back", back.replace(&[4]), Err(Failed));
    same(&rt, "seen", back.value(), [2].as_slice());
    same(&rt, "row", back.into_row().value(), [3].as_slice());
}
