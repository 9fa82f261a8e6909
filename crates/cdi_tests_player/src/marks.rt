//! Marks in the text of a deployment, each of which is a number.
use std::alloc::{AllocError, Global};

/// Adds a piece of a text, with a number in place of each `^`.
fn push_piece(whole: &mut String, piece: &str, number: usize) -> Result<(), AllocError> {
    for (index, part) in piece.split('^').enumerate() {
        if index > 0 {
            write!(whole, "{number}")?;
        }
        whole.push_str(part)?;
    }
    Ok(())
}

/// A text with a number in place of each mark of it, counted from 0; a `^` is the number of the mark that comes next.
pub fn with_numbers(alloc: Global, text: &str, mark: &str) -> Result<String, AllocError> {
    let mut whole = String::new(alloc);
    for (index, piece) in text.split(mark).enumerate() {
        if let Some(number) = index.checked_sub(1) {
            write!(whole, "{number}")?;
        }
        push_piece(&mut whole, piece, index)?;
    }
    Ok(whole)
}
