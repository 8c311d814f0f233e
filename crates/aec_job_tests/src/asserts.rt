//! Assertions as functions. A test that calls one is proved several times faster than a test that
//! contains the macro's code.

ghost use Rattle.std.specs.Prelude.{◌≡◌, true};

use std::fmt::Debug;
use std::process::Abort;

pub(crate) fn same<T: Debug + Drop + PartialEq>(rt: &impl Abort, found: T, wanted: T) {
    assert_eq!(rt; found, wanted);
}

pub(crate) fn same_at<T: Debug + Drop + PartialEq, C: Debug>(
    rt: &impl Abort,
    found: T,
    wanted: T,
    case: &C,
) {
    assert_eq!(rt; found, wanted, "at {case:?}");
}

pub(crate) fn holds(rt: &impl Abort, condition: bool)
    ensures it { condition ≡ true }
{
    assert!(rt; condition);
}

pub(crate) fn holds_at<C: Debug>(rt: &impl Abort, condition: bool, case: &C)
    ensures it { condition ≡ true }
{
    assert!(rt; condition, "at {case:?}");
}

pub(crate) fn fails<C: Debug>(rt: &impl Abort, what: &C) {
    assert!(rt; false, "{what:?}");
}
