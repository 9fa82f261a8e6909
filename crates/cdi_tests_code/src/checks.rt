//! What the tests share: each compares by a call, since an assertion in a test makes its proof longer than a call does. What is
//! refused for want of memory ends the test too: to hand it on by `?` would make the proofs longer.
use std::alloc::Global;
use std::fmt::{Debug, Display};
use std::process::Abort;

/// Ends the test unless what was found is what is wanted.
pub(crate) fn expect_same<T: PartialEq + Debug>(rt: &impl Abort, found: &T, wanted: &T) {
    assert!(rt; found == wanted, "{found:?} in place of {wanted:?}");
}

/// Ends the test unless these bytes were written.
pub(crate) fn expect_bytes(rt: &impl Abort, found: &[u8], wanted: &[u8]) {
    assert!(rt; found == wanted, "{found:?} in place of {wanted:?}");
}

/// Ends the test unless something is printed so.
pub(crate) fn expect_text(rt: &impl Abort, alloc: Global, it: &impl Display, wanted: &str) {
    let text = it.to_string(alloc).expect(rt, "memory");
    expect_same(rt, &text.as_str(), &wanted);
}
