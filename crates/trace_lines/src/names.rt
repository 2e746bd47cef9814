//! Names and words, each written into a line so that it ends where what is after it begins.

ghost use Rattle.std.specs.Prelude.{◌≡◌, ◌+◌, ◌<◌, ◌≤◌, ◌∷◌, ◌++◌, length, drop, decimal};
ghost use Rattle.trace_lines.specs.declared.names.TheConstants.{CASE, NUMBER, TICKET, TXN};
ghost use Rattle.protocol.specs.Texts.{ticket_text, txn_text, case_text};

use protocol::{Case, Presumption, Ticket, Txn};

/// The most bytes of a number.
pub(crate) const NUMBER: usize = 20;

/// The most bytes of a transaction's name: a letter, a point and two numbers.
pub(crate) const TXN: usize = 42;

/// The most bytes of a ticket's name: two points and three numbers.
pub(crate) const TICKET: usize = 62;

/// The most bytes of a case's name.
pub(crate) const CASE: usize = 105;

/// Writes a byte so that it ends at `end`: where it begins.
pub(crate) fn write_byte(byte: u8, line: &mut [u8], end: usize) -> usize
    requires { (0 < end) × (end ≤ length line.old) }
    ensures begin { result + 1 ≡ end }
    ensures written { drop result line.new ≡ byte ∷ drop end line.old }
{
    line[end - 1] = byte;
    end - 1
}

/// Writes a word so that it ends at `end`: where it begins.
pub(crate) fn write_word(word: &str, line: &mut [u8], end: usize) -> usize
    requires { (length word.now ≤ end) × (end ≤ length line.old) }
    ensures begin { result + length word.now ≡ end }
    ensures written { drop result line.new ≡ word.now ++ drop end line.old }
{
    let begin = end - word.len();
    line[begin..end].copy_from_slice(word.as_bytes());
    begin
}

/// Writes a number in decimal so that it ends at `end`: where it begins.
pub(crate) fn write_number(number: u64, line: &mut [u8], end: usize) -> usize
    requires { (NUMBER ≤ end) × (end ≤ length line.old) }
    ensures begin { (result ≤ end) × (end ≤ result + NUMBER) }
    ensures written { drop result line.new ≡ decimal number ++ drop end line.old }
{
    itoa::write_digits(number, line, end)
}

/// Writes a transaction's name, as `a1.1`, so that it ends at `end`: where it begins.
pub(crate) fn write_txn(txn: &Txn, line: &mut [u8], end: usize) -> usize
    requires { (TXN ≤ end) × (end ≤ length line.old) }
    ensures begin { (result ≤ end) × (end ≤ result + TXN) }
    ensures written { drop result line.new ≡ txn_text txn.now ++ drop end line.old }
{
    let end = write_number(txn.sequence, line, end);
    let end = write_byte(b'.', line, end);
    let end = write_number(txn.boot, line, end);
    let letter = match txn.presumption {
        Presumption::PresumeAbort => b'a',
        Presumption::PresumeCommit => b'c',
    };
    write_byte(letter, line, end)
}

/// Writes a ticket's name, as `2.1.1`, so that it ends at `end`: where it begins.
pub(crate) fn write_ticket(ticket: &Ticket, line: &mut [u8], end: usize) -> usize
    requires { (TICKET ≤ end) × (end ≤ length line.old) }
    ensures begin { (result ≤ end) × (end ≤ result + TICKET) }
    ensures written { drop result line.new ≡ ticket_text ticket.now ++ drop end line.old }
{
    let end = write_number(ticket.number, line, end);
    let end = write_byte(b'.', line, end);
    let end = write_number(ticket.boot, line, end);
    let end = write_byte(b'.', line, end);
    write_number(u64::from(ticket.child.0), line, end)
}

/// Writes a case's name, as `a1.1@2.1.1`, so that it ends at `end`: where it begins.
pub(crate) fn write_case(case: &Case, line: &mut [u8], end: usize) -> usize
    requires { (CASE ≤ end) × (end ≤ length line.old) }
    ensures begin { (result ≤ end) × (end ≤ result + CASE) }
    ensures written { drop result line.new ≡ case_text case.now ++ drop end line.old }
{
    match &case.ticket {
        None => write_txn(&case.txn, line, end),
        Some(ticket) => {
            let end = write_ticket(ticket, line, end);
            let end = write_byte(b'@', line, end);
            write_txn(&case.txn, line, end)
        }
    }
}
