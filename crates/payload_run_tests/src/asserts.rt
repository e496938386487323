//! Assertions, each proved once for all tests. Each names the example that it fails in.

use std::fmt::Debug;
use std::process::Abort;

/// Asserts that the found value equals the expected one, in the example with that name.
pub fn assert_same<T: Debug + PartialEq>(rt: &impl Abort, name: &str, found: &T, wanted: &T) {
    assert_eq!(rt; *found, *wanted, "in {name}");
}

/// Asserts that the found bytes are the expected ones, in the example with that name.
pub fn assert_bytes(rt: &impl Abort, name: &str, found: &[u8], wanted: &[u8]) {
    assert_eq!(rt; found, wanted, "in {name}");
}

/// Asserts that the found number is the expected one, in the example with that name.
pub fn assert_count(rt: &impl Abort, name: &str, found: usize, wanted: usize) {
    assert_eq!(rt; found, wanted, "in {name}");
}

/// Asserts that it holds, in the example with that name.
pub fn assert_holds(rt: &impl Abort, name: &str, holds: bool) {
    assert!(rt; holds, "assertion failed: in {name}");
}
