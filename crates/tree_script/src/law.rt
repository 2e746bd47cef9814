//! Laws of the script's grammar, beyond what each function says of itself.

ghost use Rattle.protocol.specs.declared.names.ProcessId.{ProcessId};
ghost use Rattle.protocol.specs.Texts.{case_text, op_text, ticket_text, txn_text};
ghost use Rattle.script_words.specs.Operations.{op_at};
ghost use Rattle.tree_script.specs.Events.{event_at};
ghost use Rattle.tree_script.specs.Names.{case_at, process_at, ticket_at, txn_at};
ghost use Rattle.tree_script.specs.Spellings.{
  FitsCase,
  FitsEvent,
  FitsOp,
  FitsProcess,
  FitsTicket,
  FitsTxn,
  ReadIsSpelled,
  SpelledIsRead,
  event_text,
  process_text,
};

/// Each name has one spelling: what is read is spelled so, and what is spelled so is read. Transactions and
/// cases are those of one root.
pub fn names_are_spelled_once()
    ensures process_read { ReadIsSpelled process_at process_text FitsProcess }
    ensures process_spelled { SpelledIsRead process_at process_text FitsProcess }
    ensures txn_read { (root : ProcessId) → ReadIsSpelled (txn_at root) txn_text (FitsTxn root) }
    ensures txn_spelled { (root : ProcessId) → SpelledIsRead (txn_at root) txn_text (FitsTxn root) }
    ensures ticket_read { ReadIsSpelled ticket_at ticket_text FitsTicket }
    ensures ticket_spelled { SpelledIsRead ticket_at ticket_text FitsTicket }
    ensures case_read { (root : ProcessId) → ReadIsSpelled (case_at root) case_text (FitsCase root) }
    ensures case_spelled { (root : ProcessId) → SpelledIsRead (case_at root) case_text (FitsCase root) }
{}

/// Each line of an event has one spelling, with what is in a `work`: what is read is spelled so, and
/// what is spelled so is read, over a tree with this root.
pub fn lines_are_spelled_once()
    ensures op_read { ReadIsSpelled op_at op_text FitsOp }
    ensures op_spelled { SpelledIsRead op_at op_text FitsOp }
    ensures event_read { (root : ProcessId) → ReadIsSpelled (event_at root) event_text (FitsEvent root) }
    ensures event_spelled { (root : ProcessId) → SpelledIsRead (event_at root) event_text (FitsEvent root) }
{}
