// The numbers of a row, converted to their types. The form of a row is a word with one letter per number: i for i32, u
// for u32, s for isize, z for usize, b for bool, y for a byte, f for the bits of an f32.

use refusals::{Refusal, number_of};
use std::num::TryFromIntError;

// Whether a number is in the range of a letter's type.
// Form: an enum of the types would be made from the letters of the form by the same match.
fn has_kind(x: i64, kind: u8) -> bool {
    match kind {
        b'i' => i32::try_from(x).is_ok(),
        b'u' | b'f' => u32::try_from(x).is_ok(),
        b's' => isize::try_from(x).is_ok(),
        b'z' => usize::try_from(x).is_ok(),
        b'b' => matches!(x, 0 | 1),
        b'y' => u8::try_from(x).is_ok(),
        _ => false,
    }
}

// Whether there are as many numbers as letters, each in the range of its type.
pub fn has_form(n: &[i64], form: &[u8]) -> bool {
    n.len() == form.len() && n.iter().zip(form).all(|(x, kind)| has_kind(*x, *kind))
}

// The numbers from number i on.
pub fn from(n: &[i64], i: usize) -> &[i64] {
    n.get(i..).unwrap_or_default()
}

// Number i, or 0 for one that is missing or out of the type's range.
// Form: no `Option`, since each comparison asks `has_form` too, which is false for a row with such a number.
pub fn number_at<T: Copy + Default + TryFrom<i64, Error = TryFromIntError>>(
    n: &[i64],
    i: usize,
) -> T {
    match n.get(i) {
        Some(x) => T::try_from(*x).unwrap_or_default(),
        None => T::default(),
    }
}

pub fn bool_at(n: &[i64], i: usize) -> bool {
    number_at::<u8>(n, i) == 1
}

// Whether the numbers from the first on are the bits of these floats; false for NaN. Floats are compared by their bits, so
// +0 and -0 differ.
pub fn has_floats(n: &[i64], values: &[f32]) -> bool {
    values.len() <= n.len()
        && values.iter().zip(n).all(|(value, bits)| !value.is_nan()
            && *bits == i64::from(value.to_bits()))
}

// Whether a row has the answer of a call: the same number, and the same value, or a zero beside a refusal.
// Form: `number` is the row's, which has 0 for an accepted call as C's answers have.
pub fn has_answer<T: Copy + Default + PartialEq>(
    number: u32,
    value: T,
    answer: Result<T, Refusal>,
) -> bool {
    number == number_of(answer.map(|_| ())) && value == answer.unwrap_or_default()
}
