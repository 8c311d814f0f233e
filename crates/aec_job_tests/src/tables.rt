//! Tables as texts, with one case a line: a new case needs no new proof.

use std::alloc::Global;
use std::test::Fail;

/// Returns the part of a row before its first bar, and the part after it.
pub(crate) fn cell(row: &str) -> (&str, &str) {
    row.split_once('|').unwrap_or((row, ""))
}

/// Returns the bytes that a cell spells, each by two digits of base 16. `00*17` is seventeen zeros.
pub(crate) fn spelled(alloc: Global, cell: &str) -> Result<Vec<u8>, Fail> {
    let mut bytes = Vec::new(alloc);
    for word in cell.split_whitespace() {
        let (digits, times) = word.split_once('*').unwrap_or((word, "1"));
        let byte = u8::from_str_radix(digits, 16)?;
        for _ in 0..times.parse::<u32>()? {
            bytes.push(byte)?;
        }
    }
    Ok(bytes)
}
