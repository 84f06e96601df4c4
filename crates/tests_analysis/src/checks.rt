//! What tests compare. None of these functions has a clause: a fact that a comparison leaves behind would be
//! tried in each goal after it. A call of a generic function spells out the types that it is for, and those of
//! refusals have more than fifty parts: what many tests compare has a function of its own.
use abs_domain::Flat;
use abs_regs::AbsVal;
use refusals::RefusalNumber;
use std::fmt::Debug;
use std::process::Abort;

/// Stops the test where two values differ. It promises nothing, so that the proof of a test stays short.
pub(crate) fn same<R: Abort, T: Debug + PartialEq + Drop>(rt: &R, found: T, wanted: T) {
    assert_eq!(rt; found, wanted);
}

/// Stops the test where two values differ, and shows for what. It promises nothing.
pub(crate) fn same_at<R: Abort, T: Debug + PartialEq + Drop, A: Debug + Drop>(
    rt: &R,
    found: T,
    wanted: T,
    at: A,
) {
    assert_eq!(rt; found, wanted, "{at:?}");
}

/// Stops the test where this does not hold. It promises nothing, so that the proof of a test stays short.
pub(crate) fn is_true<R: Abort>(rt: &R, found: bool) {
    assert!(rt; found);
}

/// Stops the test where this does not hold, and shows for what. It promises nothing.
pub(crate) fn is_true_at<R: Abort, A: Debug + Drop>(rt: &R, found: bool, at: A) {
    assert!(rt; found, "{at:?}");
}

/// Stops the test where something else is known of a value. It promises nothing.
pub(crate) fn is_value(rt: &impl Abort, found: AbsVal<Flat>, wanted: AbsVal<Flat>) {
    same(rt, found, wanted);
}

/// Stops the test where another value is found, or another refusal. It promises nothing.
pub(crate) fn is_found(
    rt: &impl Abort,
    found: Result<AbsVal<Flat>, RefusalNumber>,
    wanted: Result<AbsVal<Flat>, RefusalNumber>,
) {
    same(rt, found, wanted);
}

/// Stops the test where something else is refused, or nothing. It promises nothing.
pub(crate) fn is_refusal(
    rt: &impl Abort,
    found: Option<RefusalNumber>,
    wanted: Option<RefusalNumber>,
) {
    same(rt, found, wanted);
}
