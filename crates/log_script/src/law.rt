//! Laws of the lines of logs.

ghost use Rattle.tree_script.specs.Spellings.{ReadIsSpelled, SpelledIsRead};
ghost use Rattle.log_script.specs.Lines.{FitsLog, log_at, log_line};
ghost use Rattle.log_script.specs.Laws.{LinesRead};

/// The line of a log has one spelling: what is read is spelled so, and what is spelled so is read. The lines
/// of logs, each of another process of a tree and of each of them, read as these logs.
pub fn logs_are_spelled_once()
    ensures line_read { ReadIsSpelled log_at log_line FitsLog }
    ensures line_spelled { SpelledIsRead log_at log_line FitsLog }
    ensures lines_spelled { LinesRead }
{}
