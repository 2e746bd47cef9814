//! Laws of the reading of messages. The functions do nothing: each one's contract is a law.

ghost use Rattle.protocol.specs.declared.names.ProcessId.{ProcessId};
ghost use Rattle.protocol.specs.Texts.{message_text};
ghost use Rattle.tree_script.specs.Spellings.{ReadIsSpelled, SpelledIsRead};
ghost use Rattle.node_lines.specs.Messages.{message_at};
ghost use Rattle.node_lines.specs.Lines.{line_at};
ghost use Rattle.node_lines.specs.Spellings.{FitsLine, FitsMessage, spelled_line};

/// A message has one text, and one line: what is read is spelled so, and what is spelled so is read, for the
/// messages of one root's transactions. So a line that one process writes is read by another as that message,
/// and a line that was altered as another message or as none.
pub fn messages_are_spelled_once()
    ensures message_read { (root : ProcessId) → ReadIsSpelled (message_at root) message_text
        (FitsMessage root) }
    ensures message_spelled { (root : ProcessId)
        → SpelledIsRead (message_at root) message_text (FitsMessage root) }
    ensures line_read { (root : ProcessId) → ReadIsSpelled (line_at root) spelled_line (FitsLine root) }
    ensures line_spelled { (root : ProcessId) → SpelledIsRead (line_at root) spelled_line (FitsLine root) }
{}
