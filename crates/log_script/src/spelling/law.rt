//! Writing a tree and its logs, and reading them.

ghost use Rattle.log_script.specs.spelling.Laws.{ReadCanBeWritten, ReadHasNoFault, ReadInOneWay, TreeTextIsRead, WrittenIsRead};

/// The TOML text that is written of processes reads as these processes.
pub fn trees_are_read_back()
    ensures { TreeTextIsRead }
{}

/// What is written of a tree and its logs reads as this tree and these logs. What is read of any input can
/// be written, and so is read again. An input is the text of one tree and of one list of logs at most, and
/// where it is the text of a tree and its logs it has no fault.
pub fn logs_are_read_back()
    ensures written_is_read { WrittenIsRead }
    ensures read_can_be_written { ReadCanBeWritten }
    ensures read_in_one_way { ReadInOneWay }
    ensures read_has_no_fault { ReadHasNoFault }
{}
