//! Numbers as lines write them.

use std::alloc::Global;

/// The numbers that are written so, one space between two; an empty text has none.
pub fn numbers_of(alloc: Global, text: &str) -> anyhow::Result<Vec<u32>> {
    let mut numbers = Vec::new(alloc);
    if text.is_empty() {
        return Ok(numbers);
    }
    for number in text.split(' ') {
        numbers.push(number.parse::<u32>()?)?;
    }
    Ok(numbers)
}
