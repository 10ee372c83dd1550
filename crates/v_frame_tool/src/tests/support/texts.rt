//! The texts of values.

use crate::tests::support::checks::{Test, same};
use std::fmt::{Debug, Display};

/// Fails the test unless a value has this debug text.
pub fn must_show(rt: &impl Test, value: &impl Debug, wanted: &str) {
    let text = format!(in rt.alloc(); "{value:?}").expect(rt, "memory");
    same(rt, text.as_str(), wanted);
}

/// Fails the test unless each of these values displays as the text beside it.
pub fn must_display<T: Display>(rt: &impl Test, cases: &[(T, &str)]) {
    for (value, wanted) in cases {
        let text = value.to_string(rt.alloc()).expect(rt, "memory");
        same(rt, text.as_str(), *wanted);
    }
}
