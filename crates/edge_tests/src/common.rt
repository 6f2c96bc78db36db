// What several tests use: code cells and long texts.
use cells::{Code, Full};
use std::alloc::{AllocError, Global};

// A code cell, or a missing one where the letters make no code.
pub(crate) fn code(letters: &str) -> Full {
    Code::new(letters.as_bytes()).map_or(Full::Missing, Full::Code)
}

// A text that has one part many times.
pub(crate) fn repeated(
    heap: Global,
    head: &str,
    part: &str,
    times: usize,
    tail: &str,
) -> Result<Vec<u8>, AllocError> {
    let mut text = Vec::new(heap);
    text.extend_from_slice(head.as_bytes())?;
    for _ in 0..times {
        text.extend_from_slice(part.as_bytes())?;
    }
    text.extend_from_slice(tail.as_bytes())?;
    Ok(text)
}
