//! Positions in a text.
ghost use Rattle.std.specs.Prelude.{◌≡◌, IfSome};
ghost use Rattle.cdi_positions.specs.Position as spec;
ghost use Rattle.cdi_positions.specs.Position.{position_text};

use crate::search::offset_of;
use std::fmt;

/// A place in a text. Lines end with a line feed and are counted from 1. A column counts bytes, not characters: that of the
/// first byte of a line is 1.
#[derive(Clone, Copy, Debug, PartialEq, Eq)]
pub struct Position {
    pub line: usize,
    pub column: usize,
}

impl fmt::Display for Position {
    ghost output = { position_text };

    fn fmt<W: fmt::Write>(&self, f: &mut fmt::Formatter<W>) -> fmt::Result {
        let line = self.line;
        let column = self.column;
        write!(f, "line {line}, column {column}")
    }
}

/// The position of what follows these bytes.
pub fn position_after(front: &[u8]) -> Position
    ensures { result ≡ spec.position_after front.now }
{
    let mut line = 1usize;
    let mut column = 1usize;
    for byte in front {
        if *byte == b'\n' {
            line += 1;
            column = 1;
        } else {
            column += 1;
        }
    }
    Position { line, column }
}

/// The position of the value at a path in a JSON text, if it is found. A path is a JSON Pointer (RFC 6901) without escapes: a
/// `/` and a key or an index for each step from the root. Of a key that stands twice in an object the last counts. Keys that
/// are written with escapes are not found.
pub fn position_of(text: &[u8], path: &str) -> Option<Position>
    ensures { IfSome result (spec.IsPositionIn text.now) }
{
    let offset = offset_of(text, path)?;
    let front = text.get(..offset)?;
    Some(position_after(front))
}
