// What a call gives.
use std::fmt::{Display, Write};

/// Puts a text behind what a call gave. Where memory lacks it is cut short, and then the case differs.
pub fn put<T: Display + Drop>(given: &mut String, text: T) {
    let _whole = write!(given, "{text}");
}
