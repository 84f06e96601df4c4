//! What tests compare. None of these functions has a clause: a fact that a comparison leaves behind would be
//! tried in each goal after it.
use std::fmt::Debug;
use std::process::Abort;

/// Stops the test where two values differ. It promises nothing, so that the proof of a test stays short.
pub(crate) fn same<R: Abort, T: Debug + PartialEq + Drop>(rt: &R, found: T, wanted: T) {
    assert_eq!(rt; found, wanted);
}

/// Stops the test where this does not hold. It promises nothing, so that the proof of a test stays short.
pub(crate) fn is_true<R: Abort>(rt: &R, found: bool) {
    assert!(rt; found);
}

/// Stops the test where this does not hold, and shows for what. It promises nothing.
pub(crate) fn is_true_at<R: Abort, A: Debug + Drop>(rt: &R, found: bool, at: A) {
    assert!(rt; found, "{at:?}");
}
