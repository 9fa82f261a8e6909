//! A law of the definition of lines. A call of it does nothing: its contract is the law.
ghost use Rattle.std.specs.Prelude.{◌≡◌, ℕ, List, [], ◌++◌, All};
ghost use Rattle.cdi_lines.specs.Lines.{begun_line, complete_lines, all_lines, with_line_feeds, IsOneLine};

/// Bytes are their complete lines, each with a line feed behind it, and then what stands behind the last line feed.
/// No line has a line feed in it.
pub fn law_lines()
    ensures joined { (bytes : List ℕ)
        → with_line_feeds (complete_lines bytes) ++ begun_line [] bytes ≡ bytes }
    ensures apart { (bytes : List ℕ) → All IsOneLine (all_lines bytes) }
{}
