//! A log as its records.

ghost use Rattle.std.specs.Prelude.{◌≡◌, ◌≤◌, ◌<◌, ◌+◌, ◌++◌, ◌∷◌, ◌⊎◌, [], true, false, IfOk, IfErr, IfSome, OnOk, List, drop, length, map, take};
ghost use Rattle.std.specs.List.{AllByRecursion};
ghost use Rattle.log_rules.specs.sound.Sound.{IsSound};
ghost use Rattle.log_text.specs.Forms.{header, log_form};
ghost use Rattle.log_text.specs.Made.{frame_record};
ghost use Rattle.log_text.specs.Payloads.{record_size, record_text, records_text};
ghost use Rattle.log_records.specs.Sights.{Appended, AreRecords, Breaks, EndsSound, Forced, IsLogFront, IsKnown, IsRecord, LogNotRestarted, NotRewritten, ReadsAs, LogRestarts, Rewritten, Sounds, body, frames_size, left_by, log_state, records_of, whole_within};
ghost use Rattle.log_store.specs.Stores.{AppendBreaks, Appends, MemoryRefuses, Replaces};
ghost use Rattle.log_records.specs.Openings.{IsLogFound, IsRefused, LogNotOpened, OpensLog, SettlesText, is_old};
ghost use Rattle.log_records.specs.Errors.{log_error_number};
ghost use Rattle.protocol_words.specs.Types.{AnyRecord};
ghost use Rattle.log_records.specs.Restarting.{BreaksLeft, PutsLeft, WritesLeft};
ghost use Rattle.log_records.specs.Texts.{records_in};
ghost use Rattle.log_records.specs.Trimming.{StaysTrimmed, Spells, LogTrimmed, own_data, trim_of};

use crate::opening::{LogOpenError, StoreText, find, is_old, is_same};
use crate::trimming::{TrimmedText, trimmed_text};
use log_store::{LogStore, MemoryStore, StoreError};
use log_text::{Frame, HEADER_SIZE, LogForm, LogFormat, ReadFault, first_frame, read_record};
use protocol::{Kind, LogRecord, ProcessId};
use std::alloc::{AllocError, Global};
use std::marker::Model;
use thiserror::Error;

/// Why a log did not do what it was asked.
#[derive(Clone, Copy, Debug, PartialEq, Eq, Error)]
pub enum LogError {
    /// There was no memory; nothing changed.
    #[error("no memory")]
    Memory,
    /// The device failed. The log has failed until it is restarted or opened.
    #[error("the device failed")]
    Device,
}

impl LogError {
    /// The number of the error, 1 or 2.
    pub fn number(self) -> u8
        ensures { result ≡ log_error_number self }
    {
        match self {
            LogError::Memory => 1,
            LogError::Device => 2,
        }
    }
}

/// The log of a process. What it keeps of its records is their bytes.
#[derive(Drop)]
pub struct RecLog<L: LogStore> {
    form: LogForm,
    store: L,
    /// How many bytes at the front are known to be the header and whole records, all of them forced: a
    /// restart looks for the end of the last whole record after them alone.
    known: usize,
    failed: bool,
    /// How many records stand, if the last trim left the log as it was and nothing was written since: so will
    /// the next.
    trimmed: Option<usize>,
}

impl<L: LogStore> Model for RecLog<L> {
    ghost use Rattle.log_records.specs.Sights.{IsKnown, IsLogText, LogState, log_state};
    ghost use Rattle.log_records.specs.Trimming.{IsTrimmed};

    ghost Value = { LogState };

    ghost view = { λ l. log_state l.form (L.bytes l.store) (L.forced l.store) (L.failures l.store)
        (L.room l.store) l.failed };

    ghost invariant = { λ l. IsLogText l.form (L.bytes l.store) (L.forced l.store) l.failed
        × IsKnown l.form (L.bytes l.store) (L.forced l.store) l.known
        × IsTrimmed l.form (L.bytes l.store) l.trimmed };
}

/// The bytes after the header.
pub(crate) fn body(bytes: &[u8]) -> &[u8]
    requires { 5 ≤ length bytes.now }
    ensures { result.now ≡ body bytes.now }
{
    let (_, body) = bytes.split_at(HEADER_SIZE);
    body
}

/// The forced bytes and N more, where they are there.
fn left_by(bytes: &[u8], forced: usize, keep: usize) -> &[u8]
    requires { forced ≤ length bytes.now }
    ensures left { result.now ≡ take (forced + keep) bytes.now }
    ensures no_less { forced ≤ length result.now }
{
    if keep < bytes.len() - forced {
        &bytes[..forced + keep]
    } else {
        bytes
    }
}

/// The records at the front of the bytes after a header.
pub(crate) fn records_in(
    alloc: Global,
    form: LogForm,
    bytes: &[u8],
) -> Result<Vec<LogRecord>, AllocError>
    ensures { IfOk result (λ records. records.items ≡ records_in form 0 bytes.now) }
{
    let mut records = Vec::new(alloc);
    let mut rest = bytes;
    while let Some((frame_kind, payload, behind)) = first_frame(form.format, rest) {
        match read_record(alloc, form, frame_kind, payload) {
            Ok(record) => records.push(record)?,
            Err(ReadFault::Malformed) => return Ok(records),
            Err(ReadFault::Memory) => return Err(AllocError),
        }
        rest = behind;
    }
    Ok(records)
}

/// The records at the front of what is after the known bytes.
pub(crate) fn records_behind(
    alloc: Global,
    form: LogForm,
    left: &[u8],
    known: usize,
) -> Result<Vec<LogRecord>, AllocError>
    requires { known ≤ length left.now }
    ensures { IfOk result (λ records. records.items ≡ records_in form 0 (drop known left.now)) }
{
    let (_, behind) = left.split_at(known);
    records_in(alloc, form, behind)
}

/// The records that are read off these bytes can be in a log.
fn are_sound(form: LogForm, bytes: &[u8])
    ensures { AllByRecursion (IsSound form.kind) (records_in form 0 bytes.now) }
{}

/// The first bytes, as a list of their own.
fn front_of(alloc: Global, bytes: &[u8], size: usize) -> Result<Vec<u8>, AllocError>
    requires { size ≤ length bytes.now }
    ensures { IfOk result (λ front. front.items ≡ take size bytes.now) }
{
    let (front, _) = bytes.split_at(size);
    Vec::from_slice(alloc, front)
}

/// Where the whole frames of records at the front end.
fn sound_front(alloc: Global, form: LogForm, bytes: &[u8]) -> Result<usize, AllocError>
    ensures { IfOk result (λ end. Sounds form bytes.now end) }
{
    let mut rest = bytes;
    while let Some((frame_kind, payload, behind)) = first_frame(form.format, rest) {
        match read_record(alloc, form, frame_kind, payload) {
            Ok(_) => {}
            Err(ReadFault::Malformed) => return Ok(bytes.len() - rest.len()),
            Err(ReadFault::Memory) => return Err(AllocError),
        }
        rest = behind;
    }
    Ok(bytes.len() - rest.len())
}

/// Adds the bytes of these frames in a log of this form.
#[tactic(auto, unfolding(log_text::specs::Payloads::records_text))]
pub(crate) fn push_frames(
    text: &mut Vec<u8>,
    form: LogForm,
    frames: &[Frame],
) -> Result<(), AllocError>
    requires { form.format ≡ LogFormat.Second }
    ensures { OnOk result (text.new.items
        ≡ text.old.items ++ records_text form (map frame_record frames.now)) }
{
    for frame in frames {
        frame.push(form, text)?;
    }
    Ok(())
}

/// Where the whole frames of records at the front end, looked for after the known bytes.
fn sound_end(alloc: Global, form: LogForm, left: &[u8], known: usize) -> Result<usize, AllocError>
    requires { IsKnown form left.now (length left.now) known }
    ensures { IfOk result (λ end. EndsSound form left.now end) }
{
    let (_, behind) = left.split_at(known);
    let size = sound_front(alloc, form, behind)?;
    Ok(known + size)
}

/// Appends the bytes of a frame in a log of this form.
fn append_frame<L: LogStore>(store: &mut L, form: LogForm, frame: &Frame) -> Result<(), StoreError>
    requires { form.format ≡ LogFormat.Second }
    ensures ok { OnOk result (Appends L.bytes L.forced L.failures store.old store.new
        (record_text form (frame_record frame.now))) }
    ensures room { L.room store.old ≤ L.room store.new }
    ensures memory { IfErr result (λ e. e ≡ StoreError.Memory
        → MemoryRefuses L.bytes L.forced L.failures store.old store.new (L.room store.old)
        (length (L.bytes store.old) + length (record_text form (frame_record frame.now)))) }
    ensures device { IfErr result (λ e. e ≡ StoreError.Device
        → AppendBreaks L.bytes L.forced L.failures store.old store.new
        (record_text form (frame_record frame.now))) }
{
    match frame.boot() {
        Some(boot) => store.append(&form.opened(boot)),
        None => store.append(frame.bytes()),
    }
}

/// What a restart writes.
#[derive(Drop)]
struct Rewrite {
    /// Whether a torn tail is left.
    is_torn: bool,
    /// Where one is, all that is to stand; else the new frames, which are to be after what is left.
    text: Vec<u8>,
}

/// What a restart writes over what a crash left.
fn text_left(
    alloc: Global,
    form: LogForm,
    left: &[u8],
    known: usize,
    new: &[Frame],
) -> Result<Rewrite, AllocError>
    requires second { form.format ≡ LogFormat.Second }
    requires known { IsKnown form left.now (length left.now) known }
    ensures { IfOk result (λ r. WritesLeft form left.now (map frame_record new.now) r.is_torn
        r.text.items) }
{
    let end = sound_end(alloc, form, left, known)?;
    let is_torn = end < left.len();
    let mut text = Vec::new(alloc);
    if is_torn {
        text.extend_from_slice(&left[..end])?;
    }
    push_frames(&mut text, form, new)?;
    Ok(Rewrite { is_torn, text })
}

/// Puts these bytes in place of all that stands, or after it, and forces all.
fn write_left<L: LogStore>(store: &mut L, anew: bool, text: &[u8]) -> Result<(), StoreError>
    ensures ok { OnOk result (PutsLeft L.bytes L.forced L.failures store.old store.new anew text.now) }
    ensures memory { IfErr result (λ e. e ≡ StoreError.Memory
        → L.room store.old < length (L.bytes store.old) + length text.now) }
    ensures device { IfErr result (λ e. e ≡ StoreError.Device
        → BreaksLeft L.bytes L.forced L.failures store.old store.new anew text.now) }
{
    if anew {
        return store.replace(text);
    }
    store.append(text)?;
    store.force()
}

/// The text of a log of these records alone.
fn text_of(alloc: Global, form: LogForm, new: &[Frame]) -> Result<Vec<u8>, AllocError>
    requires { form.format ≡ LogFormat.Second }
    ensures { IfOk result (λ text. text.items
        ≡ header form.format ++ records_text form (map frame_record new.now)) }
{
    let mut text = Vec::from_slice(alloc, &form.format.header())?;
    push_frames(&mut text, form, new)?;
    Ok(text)
}

/// A store in which this text stands, forced, in place of what stood there.
pub(crate) fn replaced<L: LogStore + Drop>(store: L, text: &[u8]) -> Result<L, (LogOpenError, L)>
    ensures ok { IfOk result (λ new. Replaces L.bytes L.forced L.failures store new text.now) }
    ensures err { IfErr result (λ e. IsRefused L.bytes L.forced L.failures store e.1 text.now e.0) }
{
    let mut store = store;
    match store.replace(text) {
        Ok(()) => Ok(store),
        Err(StoreError::Memory) => Err((LogOpenError::Memory, store)),
        Err(StoreError::Device) => Err((LogOpenError::Device, store)),
    }
}

/// A store in which a log of whole frames stands that begins with these bytes.
pub(crate) fn settled<L: LogStore + Drop>(
    alloc: Global,
    form: LogForm,
    store: L,
) -> Result<L, (LogOpenError, L)>
    requires { is_old (L.bytes store) ≡ false }
    ensures ok { IfOk result (λ new. SettlesText form (L.bytes store) (L.forced store) (L.failures store)
        (L.bytes new) (L.forced new) (L.failures new)) }
    ensures err { IfErr result (λ e. LogNotOpened L.bytes L.forced L.failures form store e.1 e.0) }
{
    let found = match find(alloc, form, store.bytes()) {
        Err(error) => return Err((error, store)),
        Ok(found) => found,
    };
    settled_as(alloc, form, store, found)
}

/// A store in which a log of whole frames stands that begins with this store's bytes, of which `found` says
/// what they are.
fn settled_as<L: LogStore + Drop>(
    alloc: Global,
    form: LogForm,
    store: L,
    found: StoreText,
) -> Result<L, (LogOpenError, L)>
    requires old { is_old (L.bytes store) ≡ false }
    requires found { IsLogFound form (L.bytes store) found }
    ensures ok { IfOk result (λ new. SettlesText form (L.bytes store) (L.forced store) (L.failures store)
        (L.bytes new) (L.forced new) (L.failures new)) }
    ensures err { IfErr result (λ e. LogNotOpened L.bytes L.forced L.failures form store e.1 e.0) }
{
    let torn = match found {
        StoreText::Empty => return replaced(store, &form.format.header()),
        StoreText::Sound(torn) => torn,
    };
    let forced = store.forced();
    if torn == 0 && HEADER_SIZE <= forced {
        return Ok(store);
    }
    let size = store.bytes().len() - torn;
    match front_of(alloc, store.bytes(), size) {
        Ok(front) => replaced(store, &front),
        Err(_) => Err((LogOpenError::Memory, store)),
    }
}

/// The count of the records of a text, if the text is these bytes.
#[tactic(auto, using(crate::proofs::Settling::same_bytes_is))]
fn settled_count(text: &[u8], bytes: &[u8], count: usize) -> Option<usize>
    ensures { IfSome result (λ n. (n ≡ count) × (text.now ≡ bytes.now)) }
{
    if is_same(text, bytes) {
        Some(count)
    } else {
        None
    }
}

/// How many bytes are known to be whole records and forced, if the first `size` are whole records and the
/// first `forced` are forced.
fn known_of(size: usize, forced: usize) -> usize
    ensures { ((size ≤ forced) × (result ≡ size)) ⊎ (result ≡ 5) }
{
    if size <= forced { size } else { HEADER_SIZE }
}

impl<L: LogStore + Drop> RecLog<L> {
    /// The log of this process over a store. A torn tail is removed, and an empty log is given its header, by
    /// one `replace`; otherwise the store is left as it is. A refusal hands the store back.
    pub fn open(
        alloc: Global,
        store: L,
        process: ProcessId,
        kind: Kind,
    ) -> Result<RecLog<L>, (LogOpenError, L)>
        ensures ok { IfOk result (λ log. OpensLog (log_form process kind) (L.bytes store) (L.forced store)
            (L.failures store) log) }
        ensures err { IfErr result (λ e. LogNotOpened L.bytes L.forced L.failures
            (log_form process kind) store
            e.1 e.0) }
    {
        if is_old(store.bytes()) {
            return Err((LogOpenError::OldFormat, store));
        }
        let form = LogForm::of(process, kind);
        let store = settled(alloc, form, store)?;
        let known = known_of(store.bytes().len(), store.forced());
        Ok(RecLog {
            form,
            store,
            known,
            failed: false,
            trimmed: None,
        })
    }
}

impl<L: LogStore> RecLog<L> {
    /// Whether the device failed under it.
    pub fn failed(&self) -> bool
        ensures { result ≡ self.now.sight.failed }
    {
        self.failed
    }

    /// The store under the log, as it is.
    pub fn into_store(self) -> L
        ensures { log_state self.sight.form (L.bytes result) (L.forced result) (L.failures result)
            (L.room result) self.sight.failed ≡ self }
    {
        let RecLog { store, .. } = self;
        store
    }

    /// The store under the log, to be read.
    pub fn store(&self) -> &L
        ensures { log_state self.now.sight.form (L.bytes result.now) (L.forced result.now)
            (L.failures result.now)
            (L.room result.now) self.now.sight.failed ≡ self.now }
    {
        &self.store
    }

    /// Makes room for N bytes of frames. A refusal changes nothing.
    pub fn reserve(&mut self, more: usize) -> Result<(), AllocError>
        ensures stays { self.new.sight ≡ self.old.sight }
        ensures room { OnOk result (more ≤ self.new.room) }
    {
        self.store.reserve(more)
    }

    /// Appends a record, where there is room for its frame; it is not forced. The record is one that a log
    /// of this sort can hold, so that its frame reads as it: its kind is of that sort, its name whole, its
    /// numbers and lengths in range. Whether it may follow those that stand is not asked: a log whose records
    /// stand out of order is refused where it is opened. Device: the device failed, and any front of the
    /// frame stands; the log has failed until its restart.
    pub fn append(&mut self, frame: &Frame) -> Result<(), LogError>
        requires room { record_size (frame_record frame.now) ≤ self.old.room }
        requires works { self.old.sight.failed ≡ false }
        requires sound { IsRecord self.old.sight.form.kind (frame_record frame.now) }
        ensures ok { OnOk result (Appended self.old self.new (frame_record frame.now)) }
        ensures err { IfErr result (λ e. (e ≡ LogError.Device)
            × Breaks self.old self.new (frame_record frame.now ∷ [])) }
    {
        self.trimmed = None;
        if let Err(_) = append_frame(&mut self.store, self.form, frame) {
            self.failed = true;
            return Err(LogError::Device);
        }
        Ok(())
    }

    /// Forces all the records. Device: the device failed, and so has the log until its restart; of the
    /// records that were not forced any first ones are now.
    pub fn force(&mut self) -> Result<(), LogError>
        requires { self.old.sight.failed ≡ false }
        ensures ok { OnOk result (Forced self.old self.new) }
        ensures err { IfErr result (λ e. (e ≡ LogError.Device) × Breaks self.old self.new []) }
    {
        if let Err(_) = self.store.force() {
            self.failed = true;
            return Err(LogError::Device);
        }
        self.known = self.store.bytes().len();
        Ok(())
    }

    /// The bytes of the log, its header and its frames, as a list made again. After a failure of the device
    /// a torn frame may be at the end.
    pub fn text(&self, alloc: Global) -> Result<Vec<u8>, AllocError>
        ensures { IfOk result (λ text. ReadsAs self.now.sight.form text.items
            (records_of self.now.sight.kept) self.now.sight.failed) }
    {
        Vec::from_slice(alloc, self.store.bytes())
    }

    /// How many bytes it has. A crash that keeps N after the forced front keeps every record.
    pub fn size(&self) -> usize
        ensures keeps { left_by self.now.sight result ≡ records_of self.now.sight.kept }
        ensures whole { self.now.sight.failed ≡ false
            → result ≡ 5 + frames_size (records_of self.now.sight.kept) }
    {
        self.store.bytes().len()
    }

    /// The records that stand, as a list made again.
    pub fn records(&self, alloc: Global) -> Result<Vec<LogRecord>, AllocError>
        ensures { IfOk result (λ records. records.items ≡ records_of self.now.sight.kept) }
    {
        records_in(alloc, self.form, body(self.store.bytes()))
    }

    /// The records that a crash would leave which keeps N bytes after the forced front, as a list
    /// made again: those that stand whole within the forced bytes and these.
    pub fn kept(&self, alloc: Global, keep: usize) -> Result<Vec<LogRecord>, AllocError>
        ensures { IfOk result (λ records. records.items ≡ left_by self.now.sight keep) }
    {
        let forced = self.store.forced();
        let left = left_by(self.store.bytes(), forced, keep);
        records_in(alloc, self.form, body(left))
    }

    /// Of the records that a crash would leave that keeps N bytes after the forced front, those after the
    /// first ones, if the header and the first ones, all of them forced, are `size` bytes.
    pub fn kept_after(
        &self,
        alloc: Global,
        size: usize,
        keep: usize,
    ) -> Result<Vec<LogRecord>, AllocError>
        ensures { IfOk result (λ records. (first : List AnyRecord) → IsLogFront self.now.sight size first
            → first ++ records.items ≡ left_by self.now.sight keep) }
    {
        let left = left_by(self.store.bytes(), self.store.forced(), keep);
        records_behind(alloc, self.form, left, size.min(left.len()))
    }

    /// How many of the records after the forced ones a crash would leave that keeps N bytes after
    /// the forced front.
    pub fn unforced_left(&self, alloc: Global, keep: usize) -> Result<usize, AllocError>
        ensures { IfOk result (λ count. count
            ≡ length (whole_within (self.now.sight.behind + keep) self.now.sight.kept.unforced)) }
    {
        let (bytes, forced) = (self.store.bytes(), self.store.forced());
        let left = records_behind(alloc, self.form, left_by(bytes, forced, keep), self.known)?;
        let front = records_behind(alloc, self.form, left_by(bytes, forced, 0), self.known)?;
        Ok(left.len() - front.len())
    }

    /// Each record that stands was read off bytes: so it can be in a log of this sort of process.
    pub fn records_are_sound(&self)
        ensures { AllByRecursion (IsSound self.now.sight.form.kind) (records_of self.now.sight.kept) }
    {
        are_sound(self.form, body(self.store.bytes()));
    }

    /// After a crash that kept N bytes after the forced front: the records of what is left, a torn
    /// tail gone, and these new ones after them, all of them forced: by one append and one force, or, where
    /// a torn tail is left, by one `replace`. All memory is taken before the crash. Memory: nothing changed.
    /// Device: what is left stands, and after it any first ones of the new records; what was forced is; and
    /// the log has failed.
    pub fn restart(&mut self, alloc: Global, keep: usize, new: &[Frame]) -> Result<(), LogError>
        requires { AreRecords self.old.sight.form.kind (map frame_record new.now) }
        ensures form { self.new.sight.form ≡ self.old.sight.form }
        ensures ok { OnOk result (LogRestarts self.old self.new keep (map frame_record new.now)) }
        ensures err { IfErr result (λ e. LogNotRestarted self.old self.new keep
            (map frame_record new.now) e) }
    {
        let forced = self.store.forced();
        let left = left_by(self.store.bytes(), forced, keep);
        let left = match text_left(alloc, self.form, left, self.known, new) {
            Ok(left) => left,
            Err(_) => return Err(LogError::Memory),
        };
        if let Err(_) = self.store.reserve(left.text.len()) {
            return Err(LogError::Memory);
        }
        self.trimmed = None;
        self.store.crash(keep);
        match write_left(&mut self.store, left.is_torn, &left.text) {
            Ok(()) => {
                self.known = self.store.bytes().len();
                self.failed = false;
                Ok(())
            }
            Err(_) => {
                self.known = HEADER_SIZE;
                self.failed = true;
                Err(LogError::Device)
            }
        }
    }

    /// Puts these records in place of all that stand, forced by one `replace`. All memory is taken before.
    /// Memory: nothing changed. Device: the log stands as it was or these records do, and the log has
    /// failed.
    pub fn rewrite(&mut self, alloc: Global, new: &[Frame]) -> Result<(), LogError>
        requires works { self.old.sight.failed ≡ false }
        requires sound { AreRecords self.old.sight.form.kind (map frame_record new.now) }
        ensures ok { OnOk result (Rewritten self.old self.new (map frame_record new.now)) }
        ensures err { IfErr result (λ e. NotRewritten self.old self.new (map frame_record new.now) e) }
    {
        match text_of(alloc, self.form, new) {
            Ok(text) => self.put(&text),
            Err(_) => Err(LogError::Memory),
        }
    }

    /// Puts the log of this text in place of all that stand.
    fn put(&mut self, text: &[u8]) -> Result<(), LogError>
        requires works { self.old.sight.failed ≡ false }
        requires sound { Spells self.old.sight.form text.now
            (records_in self.old.sight.form 0 (body text.now)) }
        ensures form { self.new.sight.form ≡ self.old.sight.form }
        ensures ok { OnOk result (Rewritten self.old self.new
            (records_in self.old.sight.form 0 (body text.now))) }
        ensures err { IfErr result (λ e. NotRewritten self.old self.new
            (records_in self.old.sight.form 0 (body text.now)) e) }
    {
        if let Err(_) = self.store.reserve(text.len()) {
            return Err(LogError::Memory);
        }
        self.trimmed = None;
        if let Err(_) = self.store.replace(text) {
            self.known = HEADER_SIZE;
            self.failed = true;
            return Err(LogError::Device);
        }
        self.known = text.len();
        Ok(())
    }

    /// How many records stand, if a trim would leave the log as it is: the last one did, and nothing was
    /// written since.
    pub fn trimmed(&self) -> Option<usize>
        ensures { IfSome result (λ count. StaysTrimmed self.now count) }
    {
        self.trimmed
    }

    /// Puts all that is in its own place, by one `replace`, and reads nothing. Memory: nothing changed.
    /// Device: the log stands as it was, and has failed.
    pub fn put_again(&mut self, alloc: Global) -> Result<(), LogError>
        requires works { self.old.sight.failed ≡ false }
        ensures form { self.new.sight.form ≡ self.old.sight.form }
        ensures ok { OnOk result (Rewritten self.old self.new (records_of self.old.sight.kept)) }
        ensures err { IfErr result (λ e. NotRewritten self.old self.new (records_of self.old.sight.kept) e) }
    {
        let Ok(text) = Vec::from_slice(alloc, self.store.bytes()) else {
            return Err(LogError::Memory);
        };
        let trimmed = self.trimmed;
        match self.put(&text) {
            Ok(()) => {
                self.trimmed = trimmed;
                Ok(())
            }
            Err(error) => Err(error),
        }
    }

    /// Puts the records that stay in a trim in place of all that stand, and those of the data after them,
    /// forced by one `replace`: the last Opened, the records of the cases and branches that are not
    /// forgotten, and these. Gives how many they are. All memory is taken before. Memory: nothing changed.
    /// Device: the log stands as it was or trimmed, and the log has failed. `own`: `behind` is what the log
    /// itself says of the data, nothing at a coordinator; so the next trim leaves the text as it is.
    pub fn trim(&mut self, alloc: Global, behind: &[Frame]) -> Result<usize, LogError>
        requires works { self.old.sight.failed ≡ false }
        requires sound { AreRecords self.old.sight.form.kind (map frame_record behind.now) }
        requires own { map frame_record behind.now ≡ own_data self.old.sight }
        ensures form { self.new.sight.form ≡ self.old.sight.form }
        ensures ok { IfOk result (λ count. LogTrimmed self.old self.new (map frame_record behind.now) count) }
        ensures err { IfErr result (λ e. NotRewritten self.old self.new
            (trim_of self.old (map frame_record behind.now)) e) }
    {
        let bytes = self.store.bytes();
        let trimmed = match trimmed_text(alloc, self.form, body(bytes), behind) {
            Ok(trimmed) => trimmed,
            Err(_) => return Err(LogError::Memory),
        };
        let TrimmedText { text, count } = trimmed;
        let settled = settled_count(&text, bytes, count);
        match self.put(&text) {
            Ok(()) => {
                self.trimmed = settled;
                Ok(count)
            }
            Err(error) => Err(error),
        }
    }
}

impl RecLog<MemoryStore> {
    /// A store in memory does not fail.
    pub fn never_failed(&self)
        ensures { self.now.sight.failures ≡ 0 }
    {
        let _ = self.store.failures();
    }
}
