//! The law of the logs that a script leaves. The function does nothing: its contract is the law.

ghost use Rattle.one_text.specs.OneText.{LogsHaveOneText};

/// One script leaves one text of logs: what `run_tree` writes of an input with `Output::Logs`, if it reads
/// all of it, has memory and numbers, no device fails and it is not cut, is the same each time, byte for
/// byte.
pub fn logs_have_one_text()
    ensures { LogsHaveOneText }
{}
