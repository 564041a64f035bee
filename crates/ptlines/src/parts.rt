//! The theorem that the lines of a text can be found part by part. It is what allows a file to be cut for parallel
//! runs.

ghost use Rattle.ptlines.specs.Laws.Parts.{LinesOfParts};

/// If a text is cut into two parts, and the first is empty or ends with the terminator, then the lines of the text are
/// those of the first part followed by those of the second. So a file may be cut after any terminator.
///
/// The function does nothing at run time. It exists for its contract, which states this theorem.
pub fn parts_of_lines()
    ensures { LinesOfParts }
{}
