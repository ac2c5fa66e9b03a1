//! Comparisons, which are proved once here and not in each test.
use std::fmt::Debug;
use std::process::Abort;

/// What is found is what is wanted.
pub(crate) fn expect<T: PartialEq + Debug + Drop>(
    rt: &impl Abort,
    found: T,
    wanted: T,
    place: &str,
) {
    assert_eq!(rt; found, wanted, "{place}");
}

pub(crate) fn hold(rt: &impl Abort, holds: bool, place: &str) {
    assert!(rt; holds, "{place}");
}
