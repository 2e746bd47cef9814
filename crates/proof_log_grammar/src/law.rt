//! Reading a log finds what is there.

ghost use Rattle.proof_log_grammar.specs.Grammar.{BytesReadAsText, OrderedIsRead, OrderedLogIsRead};

/// The bytes after a log's header read as records and a torn tail exactly where they are the text of these,
/// and as damaged exactly at the first place where they are.
pub fn bytes_read_as_text()
    ensures { BytesReadAsText }
{}

/// Records that can be in a log, and may follow one another, are read after its header as these records, and
/// never as damaged; what is no whole frame after them is read as a torn tail.
pub fn ordered_records_are_read()
    ensures { OrderedIsRead }
{}

/// A log of whole frames whose records may follow one another is read as these records, and never as damaged.
pub fn ordered_logs_are_read()
    ensures { OrderedLogIsRead }
{}
