//! What a test compares. A comparison that fails ends the test.

use std::process::Abort;

/// These bytes are found.
pub(super) fn same(rt: &impl Abort, found: &[u8], wanted: &[u8]) {
    assert_eq!(rt; found, wanted);
}

/// This text is found.
pub(super) fn same_text(rt: &impl Abort, found: &str, wanted: &str, what: &str) {
    assert_eq!(rt; found, wanted, "{what}");
}

/// This status is found.
pub(super) fn same_status(rt: &impl Abort, found: u8, wanted: u8) {
    assert_eq!(rt; found, wanted, "a status");
}

/// So many are found.
pub(super) fn same_len(rt: &impl Abort, found: usize, wanted: usize) {
    assert_eq!(rt; found, wanted, "a number of bytes");
}

/// This holds of the bytes.
pub(super) fn holds(rt: &impl Abort, fact: bool, what: &str, bytes: &[u8]) {
    assert!(rt; fact, "{what}: {bytes:?}");
}
