//! Laws of pictures, over the definitions alone.
ghost use Rattle.cdi_pictures.specs.WorkedLines.{WorkedLines};

/// Worked lines of the definitions: nodes, what is left for a point, and a whole picture without tables.
#[tactic(auto, using(crate::proofs::WorkedLines::worked_lines))]
pub fn law_worked_lines()
    ensures { WorkedLines }
{}
