//! A scalar with a test of its values.

use gql_check::{ConstValue, Number, OutOfMemory, Scalar, ScalarValidator};
use std::alloc::Global;

/// Whether a value is a string of at least one byte.
fn is_filled(value: &ConstValue) -> bool {
    match value {
        ConstValue::String(text) => !text.as_str().is_empty(),
        _ => false,
    }
}

/// Whether `scalar Money`, whose values are strings that are not empty, takes a value.
fn is_money(alloc: Global, value: &ConstValue) -> Result<bool, OutOfMemory> {
    let money = Scalar::new(alloc, "Money")?.validator(ScalarValidator::new(is_filled));
    Ok(money.validate(value))
}

pub(crate) fn example(alloc: Global) -> Option<String> {
    let number = ConstValue::Number(Number::from_i64(10));
    let answer = if is_money(alloc, &number).ok()? {
        "a value"
    } else {
        "no value"
    };
    format!(in alloc; "10 is {} of Money\n", answer).ok()
}
