//! Fields of a line, and the numbers in them.

use std::alloc::{AllocError, Global};

const TAB: u8 = 9;

const MOST_DIGITS: usize = 18;

/// The fields of a line; an empty line has one, which is empty.
pub fn split_fields<'n>(alloc: Global, line: &'n [u8]) -> Result<Vec<&'n [u8]>, AllocError> {
    line.split(|byte| *byte == TAB).collect(alloc)
}

/// A number of 1 to 18 digits that begins with 0 only when it is 0.
pub fn number(field: &[u8]) -> Option<i64> {
    let begins_with_zero = field.first() == Some(&b'0');
    if field.is_empty() || field.len() > MOST_DIGITS || (begins_with_zero && field.len() > 1) {
        return None;
    }
    let mut value = 0i64;
    for byte in field {
        if !byte.is_ascii_digit() {
            return None;
        }
        value = value
            .checked_mul(10)?
            .checked_add(i64::from(byte.saturating_sub(b'0')))?;
    }
    Some(value)
}

pub fn instant(field: &[u8]) -> Option<u32> {
    u32::try_from(number(field)?).ok()
}

/// A number, or a minus sign and a number other than 0.
pub fn reading(field: &[u8]) -> Option<i64> {
    match field {
        [b'-', digits @ ..] => {
            let size = number(digits)?;
            if size == 0 { None } else { size.checked_neg() }
        }
        _ => number(field),
    }
}

/// The letter of a shelf: one byte of any value.
pub fn shelf(field: &[u8]) -> Option<u8> {
    match field {
        [letter] => Some(*letter),
        _ => None,
    }
}
