//! A process of a tree, and how many records are in its log.

ghost use Rattle.std.specs.Prelude.{◌≡◌, ◌≢◌, ◌+◌, ◌++◌, All, IfErr, IfOk, IfSome, None, OnErr, OnOk, Some, length};
ghost use Rattle.protocol.specs.declared.events.StepError.TheVariants.{Device};
ghost use Rattle.log_text.specs.Payloads.{FitsFrame, records_text};
ghost use Rattle.process_state.specs.Inputs.{input_of};
ghost use Rattle.process_state.specs.States.{form_of};
ghost use Rattle.tree_state.specs.Worlds.{HandlesInput, KeepsBytes};
ghost use Rattle.tree_faults.specs.Counts.{KeepsCount, after_written, all_forced, count_in};
ghost use Rattle.tree_faults.specs.Faults.{fault_by, log_bytes};
ghost use Rattle.tree_process.specs.Nodes.{FailsUnder, NotHandled, core_of, data_of};
ghost use Rattle.tree_process.specs.Restarts.{NoRestart, NoTrim, RestartsNode, TrimsNode};

use log_store::LogStore;
use log_text::{Frame, LogForm, LogFormat};
use process_state::InputRef;
use protocol::{Fault, Kind, LogRecord, Reaction, StepError};
use std::alloc::{AllocError, Global};
use std::marker::Model;
use tree_faults::{Count, FaultCause};
use tree_process::Process;

/// A process, and the count of its log, where that is known. A step leaves the count that its reaction says,
/// so that no log is read for it. A count is not known before the first step of a process, and after its
/// device failed: then its log is read.
#[derive(Drop)]
pub(crate) struct CountedNode<L: LogStore> {
    node: Process<L>,
    count: Option<Count>,
}

impl<L: LogStore> Model for CountedNode<L> {
    ghost use Rattle.std.specs.Prelude.{◌≡◌, IfSome};
    ghost use Rattle.tree_faults.specs.Counts.{count_in};
    ghost use Rattle.tree_process.specs.Nodes.{core_of};
    ghost use Rattle.tree_process.specs.declared.node.Process.{Process as AnyNode};

    ghost Value = { AnyNode L };

    ghost view = { λ c. c.node };

    ghost invariant = { λ c. IfSome c.count (λ count. count ≡ count_in (core_of c.node)) };
}

/// The count of a process's log, by its records.
fn count_of<L: LogStore>(node: &Process<L>) -> Result<Count, AllocError>
    ensures { IfOk result (λ count. count ≡ count_in (core_of node.now)) }
{
    let records = node.records()?.len();
    let unforced = node.unforced_left(node.log_size())?;
    Ok(Count {
        records: records as u64,
        forced: records.saturating_sub(unforced) as u64,
    })
}

/// How many bytes after its forced front a process keeps in a restart that names these.
fn keep_of<L: LogStore>(node: &Process<L>, bytes: Option<u64>) -> usize
    ensures { KeepsBytes (core_of node.now) bytes result }
{
    match bytes {
        None => node.log_size(),
        Some(bytes) => bytes as usize,
    }
}

/// How many of its unforced records it keeps then.
pub(crate) fn kept_by<L: LogStore>(node: &Process<L>, bytes: Option<u64>) -> Result<u64, AllocError>
    ensures { IfOk result (KeepsCount (core_of node.now) bytes) }
{
    let keep = keep_of(node, bytes);
    Ok(node.unforced_left(keep)? as u64)
}

/// The form of a process's log.
fn form_by<L: LogStore>(node: &Process<L>) -> LogForm
    ensures { result ≡ form_of (core_of node.now).place }
{
    match node {
        Process::Coordinator(coordinator) => LogForm::of(coordinator.me(), Kind::Coordinator),
        Process::Manager(manager) => LogForm::of(manager.me(), Kind::Manager),
    }
}

/// Adds the frames of these records in a log of this form.
#[tactic(auto, unfolding(log_text::specs::Payloads::records_text))]
fn push_records(
    alloc: Global,
    bytes: &mut Vec<u8>,
    form: LogForm,
    records: &[LogRecord],
) -> Result<(), AllocError>
    requires second { form.format ≡ LogFormat.Second }
    requires fit { All FitsFrame records.now }
    ensures { OnOk result (bytes.new.items ≡ bytes.old.items ++ records_text form records.now) }
{
    for record in records {
        let frame = Frame::of(alloc, &record.entry, record.parent)?;
        frame.push(form, bytes)?;
    }
    Ok(())
}

/// The bytes of a log of just the records that a process has.
fn whole_bytes<L: LogStore>(alloc: Global, node: &Process<L>) -> Result<Vec<u8>, AllocError>
    ensures { IfOk result (λ bytes. bytes.items ≡ log_bytes (core_of node.now)) }
{
    node.records_are_sound();
    let records = node.records()?;
    let form = form_by(node);
    let mut bytes = Vec::from_slice(alloc, &form.format.header())?;
    push_records(alloc, &mut bytes, form, &records)?;
    Ok(bytes)
}

/// The fault of a step with this cause, by the count before it.
pub(crate) fn fault_of<L: LogStore>(
    alloc: Global,
    node: &Process<L>,
    cause: &FaultCause,
    before: Count,
) -> Result<Fault, AllocError>
    ensures { IfOk result (λ fault. fault ≡ fault_by cause.now before (core_of node.now)) }
{
    let now = count_of(node)?;
    Ok(match cause {
        FaultCause::Act(_) | FaultCause::Message(_) => before.left_by_input(now),
        FaultCause::Restart(kept) => before.left_by_restart(*kept, now),
        FaultCause::Trim(text) => before.left_by_trim(text, &whole_bytes(alloc, node)?, now),
    })
}

/// The count once a process handled an input or did not; None if it is not known.
fn count_after(before: Count, made: &Result<Reaction, StepError>) -> Option<Count>
    ensures ok { IfOk made.now (λ reaction.
        IfSome result (λ count. count ≡ after_written before reaction.written)) }
    ensures err { IfErr made.now (λ e. IfSome result (λ count. (count ≡ before) × (e ≢ Device))) }
{
    match made {
        Ok(reaction) => before.after(reaction.written.as_slice()),
        Err(StepError::Device) => None,
        Err(_) => Some(before),
    }
}

/// The count once a process restarted: all of its records are forced. None if it is not known.
fn count_after_restart(before: Count, made: &Result<(u64, Reaction), StepError>) -> Option<Count>
    ensures ok { IfOk made.now (λ r. IfSome result (λ count. count
        ≡ all_forced ((before.forced + r.0) + length r.1.written))) }
    ensures err { OnErr made.now (result ≡ None) }
{
    match made {
        Ok((kept, reaction)) => before.after_restart(*kept, reaction.written.as_slice()),
        Err(_) => None,
    }
}

/// The count once a process's log was trimmed: all that remains is forced. None if it was not trimmed.
fn count_after_trim(made: &Result<u64, StepError>) -> Option<Count>
    ensures ok { IfOk made.now (λ remain. result ≡ Some (all_forced remain)) }
    ensures err { OnErr made.now (result ≡ None) }
{
    match made {
        Ok(remain) => Some(Count::all_forced(*remain)),
        Err(_) => None,
    }
}

impl<L: LogStore> CountedNode<L> {
    /// A process, the count of whose log is not known.
    pub(crate) fn new(node: Process<L>) -> CountedNode<L>
        ensures { result ≡ node }
    {
        CountedNode { node, count: None }
    }

    /// The process.
    pub(crate) fn node(&self) -> &Process<L>
        ensures { result.now ≡ self.now }
    {
        &self.node
    }

    /// The count of its log, which is known from then on. Memory: nothing changed.
    pub(crate) fn count(&mut self) -> Result<Count, AllocError>
        ensures same { self.new ≡ self.old }
        ensures ok { IfOk result (λ count. count ≡ count_in (core_of self.old)) }
    {
        if let Some(count) = self.count {
            return Ok(count);
        }
        let count = count_of(&self.node)?;
        self.count = Some(count);
        Ok(count)
    }

    /// It handles an input, before which its log has this count; as `Node::handle` says.
    pub(crate) fn handle(
        &mut self,
        input: InputRef<'_>,
        before: Count,
    ) -> Result<Reaction, StepError>
        requires { before ≡ count_in (core_of self.old) }
        ensures ok { IfOk result (HandlesInput (core_of self.old) (core_of self.new)
            (data_of self.old) (data_of self.new) (input_of input.entry)) }
        ensures err { IfErr result (NotHandled (core_of self.old) (core_of self.new)
            (data_of self.old) (data_of self.new) (input_of input.entry)) }
        ensures under { IfErr result (λ e. e ≡ Device → FailsUnder (core_of self.old) (core_of self.new)
            (data_of self.old) (input_of input.entry)) }
    {
        let made = self.node.handle(input);
        self.count = count_after(before, &made);
        made
    }

    /// It restarts, before which its log has this count; as `Node::restart_keeping` says.
    pub(crate) fn restart(
        &mut self,
        bytes: Option<u64>,
        before: Count,
    ) -> Result<(u64, Reaction), StepError>
        requires { before ≡ count_in (core_of self.old) }
        ensures ok { IfOk result (RestartsNode (core_of self.old) (core_of self.new)
            (data_of self.new) bytes) }
        ensures err { IfErr result (NoRestart (core_of self.old) (core_of self.new)
            (data_of self.old) (data_of self.new) bytes) }
    {
        let made = self.node.restart_keeping(bytes);
        self.count = count_after_restart(before, &made);
        made
    }

    /// Its log is trimmed; as `Node::trim_sound` says.
    pub(crate) fn trim(&mut self) -> Result<u64, StepError>
        ensures ok { IfOk result (TrimsNode (core_of self.old) (core_of self.new)
            (data_of self.old) (data_of self.new)) }
        ensures err { IfErr result (NoTrim (core_of self.old) (core_of self.new)
            (data_of self.old) (data_of self.new)) }
    {
        let made = self.node.trim_sound();
        self.count = count_after_trim(&made);
        made
    }
}
