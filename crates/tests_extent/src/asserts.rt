//! What the tests assert.
use std::fmt::Debug;
use std::process::Abort;

/// Asserts that what was found is what was expected, and else shows both. The code of the macro is proved here, and not in each test
/// again. Only a test may abort, so each crate has its own.
pub(crate) fn assert_same<T: PartialEq + Debug + Drop>(rt: &impl Abort, found: T, expected: T) {
    assert_eq!(rt; found, expected);
}
