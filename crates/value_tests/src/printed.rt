//! What is printed of a value.

use std::alloc::Global;
use std::fmt::Display;
use wire_base::NoMemory;

/// Whether a value is printed as this text, under any width, fill, alignment and precision.
pub(crate) fn is_printed<T: Display>(
    alloc: Global,
    value: &T,
    text: &str,
) -> Result<bool, NoMemory> {
    Ok(
        format!(in alloc; "{value}")?.as_str() == text
            && format!(in alloc; "{value:90}")?.as_str() == text
            && format!(in alloc; "{value:*>90.2}")?.as_str() == text
            && format!(in alloc; "{value:^090.1}")?.as_str() == text,
    )
}
