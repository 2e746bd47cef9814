//! Whether the names in a log are those of its process in a tree.

ghost use Rattle.std.specs.Prelude.{◌≡◌, IfNone, IfOk, IfSome, drop, false, true};
ghost use Rattle.std.specs.List.{list_all};
ghost use Rattle.coord_records.specs.Numbered.{is_reached};
ghost use Rattle.log_rules.specs.order.Logs.{read_log};
ghost use Rattle.log_script.specs.Places.{placed_in};
ghost use Rattle.protocol.specs.Records.{boot_after, record_case};
ghost use Rattle.tree_world.specs.OwnNames.{climbs_to, damage_in, fault_of, first_stranger, has_own_names, is_at_home, is_reached_by, sound_to, is_of_child, is_of_one_below, is_own_case, lies_below, reports_those_below};

use coord_records::is_own;
use log_records::{LogOpenError, find};
use log_text::{HEADER_SIZE, LogForm, ReadFault, first_frame, read_record};
use protocol::{Case, Kind, LogRecord, ProcessId, Record, Reports, Ticket, Tree, TreeProcess};
use std::alloc::{AllocError, Global};

/// Boots and counts in the logs of a tree that is opened again are below this.
const TOP: u64 = 1 << 62;

/// Whether a climb to the parents from a process, of N steps at most, meets the first one.
#[tactic(auto, unfolding(protocol::specs::Names::same_process))]
fn climbs_to(tree: &Tree, top: ProcessId, process: ProcessId, steps: usize) -> bool
    ensures { result ≡ climbs_to steps tree.now top process }
{
    if steps == 0 {
        return false;
    }
    match tree.parent(process) {
        None => false,
        Some(parent) => {
            if parent == top {
                return true;
            }
            climbs_to(tree, top, parent, steps - 1)
        }
    }
}

/// Whether a process lies below the first one.
fn lies_below(tree: &Tree, top: ProcessId, process: ProcessId) -> bool
    ensures { result ≡ lies_below tree.now top process }
{
    climbs_to(tree, top, process, tree.entries().len())
}

/// Whether a ticket is of a child of this process.
#[tactic(auto, unfolding(protocol::specs::Names::same_process))]
fn is_of_child(tree: &Tree, me: ProcessId, ticket: &Ticket) -> bool
    ensures { result ≡ is_of_child tree.now me ticket.now }
{
    match tree.parent(ticket.child) {
        None => false,
        Some(parent) => parent == me,
    }
}

/// Whether a ticket is of a process below this one.
fn is_of_one_below(tree: &Tree, me: ProcessId, ticket: &Ticket) -> bool
    ensures { result ≡ is_of_one_below tree.now me ticket.now }
{
    lies_below(tree, me, ticket.child)
}

/// Whether each ticket is of a child of this process.
fn are_of_children(tree: &Tree, me: ProcessId, tickets: &[Ticket]) -> bool
    ensures { result ≡ list_all (is_of_child tree.now me) tickets.now }
{
    tickets.iter().all(|ticket| is_of_child(tree, me, ticket))
}

/// Whether each ticket is of a process below this one.
fn are_of_those_below(tree: &Tree, me: ProcessId, tickets: &[Ticket]) -> bool
    ensures { result ≡ list_all (is_of_one_below tree.now me) tickets.now }
{
    tickets
        .iter()
        .all(|ticket| is_of_one_below(tree, me, ticket))
}

/// Whether all that is reported lies below this process.
fn reports_those_below(tree: &Tree, me: ProcessId, reports: &Reports) -> bool
    ensures { result ≡ reports_those_below tree.now me reports.now }
{
    are_of_those_below(tree, me, reports.mixed.as_slice())
        && are_of_those_below(tree, me, reports.unreported.as_slice())
}

/// Whether the case of a record, if it has one, is of this process.
fn has_own_case(tree: &Tree, entry: &TreeProcess, record: &LogRecord) -> bool
    ensures { result ≡ is_own_case tree.now entry.now record.now.parent (record_case record.now.entry) }
{
    match record.entry.case() {
        None => true,
        Some(case) => is_own(entry.id, entry.parent, tree, record.parent, &case),
    }
}

/// Whether the numbers and tickets of a record may be in the log of this process.
fn has_own_names(tree: &Tree, me: ProcessId, record: &Record) -> bool
    ensures { result ≡ has_own_names tree.now me record.now }
{
    match record {
        Record::Opened(number) | Record::Base(number) => *number < TOP,
        Record::Collecting(_, tickets)
        | Record::Prepare(_, tickets)
        | Record::Commit(_, tickets)
        | Record::Abort(_, tickets) => are_of_children(tree, me, tickets.as_slice()),
        Record::End(_, Some(reports)) => reports_those_below(tree, me, reports),
        _ => true,
    }
}

/// The boot that a log has reached after one more record.
fn boot_after(boot: u64, record: &Record) -> u64
    ensures { result ≡ boot_after boot record.now }
{
    match record {
        Record::Opened(next) => *next,
        _ => boot,
    }
}

/// Whether a case, if there is one, was numbered in this boot or an earlier one.
fn is_reached(boot: u64, case: Option<Case>) -> bool
    ensures { result ≡ is_reached boot case }
{
    match case {
        None => true,
        Some(case) => match case.ticket {
            None => case.txn.boot <= boot,
            Some(ticket) => ticket.boot <= boot,
        },
    }
}

/// Whether a manager's record is of a case that was numbered in this boot or an earlier one; a coordinator's
/// may be of any.
fn is_reached_by(kind: Kind, boot: u64, record: &Record) -> bool
    ensures { result ≡ is_reached_by kind boot record.now }
{
    match kind {
        Kind::Coordinator => true,
        Kind::Manager => is_reached(boot, record.case()),
    }
}

/// Whether a record may be in the log of this process, if the log has reached this boot.
fn is_at_home(tree: &Tree, entry: &TreeProcess, boot: u64, record: &LogRecord) -> bool
    ensures { result ≡ is_at_home tree.now entry.now boot record.now }
{
    has_own_case(tree, entry, record)
        && has_own_names(tree, entry.id, &record.entry)
        && is_reached_by(entry.kind, boot, &record.entry)
}

/// The boot that a log has reached after what was read, if that record may be there.
fn passed(tree: &Tree, entry: &TreeProcess, boot: u64, read: LogRecord) -> Option<u64>
    ensures some { IfSome result (λ next. (is_at_home tree.now entry.now boot read ≡ true)
        × (next ≡ boot_after boot read.entry)) }
    ensures none { IfNone result (is_at_home tree.now entry.now boot read ≡ false) }
{
    if is_at_home(tree, entry, boot, &read) {
        Some(boot_after(boot, &read.entry))
    } else {
        None
    }
}

/// The place of the first record in the bytes after a header that may not be in the log of this process.
fn stranger_in(
    alloc: Global,
    tree: &Tree,
    entry: &TreeProcess,
    form: LogForm,
    frames: &[u8],
) -> Result<Option<usize>, AllocError>
    ensures { IfOk result (λ found. found
        ≡ first_stranger (is_at_home tree.now entry.now) 0 (placed_in form 5 0 frames.now)) }
{
    let mut boot = 0;
    let mut rest = frames;
    while let Some((kind, payload, behind)) = first_frame(form.format, rest) {
        let read = match read_record(alloc, form, kind, payload) {
            Ok(read) => read,
            Err(ReadFault::Malformed) => return Ok(None),
            Err(ReadFault::Memory) => return Err(AllocError),
        };
        match passed(tree, entry, boot, read) {
            Some(next) => boot = next,
            None => return Ok(Some(HEADER_SIZE + (frames.len() - rest.len()))),
        }
        rest = behind;
    }
    Ok(None)
}

/// The bytes after the header; none if the header is not whole.
fn frames_of(bytes: &[u8]) -> &[u8]
    ensures { result.now ≡ drop 5 bytes.now }
{
    if bytes.len() < HEADER_SIZE {
        return &[];
    }
    let (_, frames) = bytes.split_at(HEADER_SIZE);
    frames
}

/// The place where the log of this process is damaged, 0 for the header, if it is.
fn damage_in(alloc: Global, form: LogForm, bytes: &[u8]) -> Result<Option<usize>, AllocError>
    ensures { IfOk result (λ damage. damage ≡ damage_in (read_log form bytes.now)) }
{
    match find(alloc, form, bytes) {
        Ok(_) => Ok(None),
        Err(LogOpenError::Damaged(place)) => Ok(Some(place)),
        Err(_) => Err(AllocError),
    }
}

/// The bytes before the damage.
fn sound_bytes(bytes: &[u8], damage: Option<usize>) -> &[u8]
    ensures { result.now ≡ sound_to damage bytes.now }
{
    match damage {
        None => bytes,
        Some(place) => &bytes[..place.min(bytes.len())],
    }
}

/// The place of the first frame that is wrong in the log of this process, 0 for the header: the bytes, of
/// either format, are damaged there, or the record may not be in the log of this process.
pub(crate) fn fault_in(
    alloc: Global,
    tree: &Tree,
    entry: &TreeProcess,
    bytes: &[u8],
) -> Result<Option<usize>, AllocError>
    ensures { IfOk result (λ found. found ≡ fault_of tree.now entry.now bytes.now) }
{
    let form = LogForm::of_bytes(bytes, entry.id, entry.kind);
    let damage = damage_in(alloc, form, bytes)?;
    let frames = frames_of(sound_bytes(bytes, damage));
    match stranger_in(alloc, tree, entry, form, frames)? {
        Some(place) => Ok(Some(place)),
        None => Ok(damage),
    }
}
