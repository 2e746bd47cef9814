//! The law of what is written. The function does nothing: its contract is the law.

ghost use Rattle.tree_engine.specs.OneText.{InputsHaveOneText};

/// One input has one text: what `run_tree` writes of it, where it reads all of it, has memory and numbers, no
/// device fails and it is not cut, is the same each time; the trace, with the counts or without.
pub fn inputs_have_one_text()
    ensures { InputsHaveOneText }
{}
