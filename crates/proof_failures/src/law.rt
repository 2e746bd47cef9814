//! What is in a trace where devices failed. The function does nothing: its contract is the law.

ghost use Rattle.proof_failures.specs.Traces.{
  FaultsStop,
  OpenedHaveNoTrace,
  TracesFailAfter,
  TracesGoOn,
  TracesKeepHeadline,
  TracesLead,
  TracesLeadUntil,
  TracesShowFaults,
  TracesStop,
};

/// A trace with each step that was made, and with each in which a device failed as a fault with its event,
/// how many of the step's records stand and how many records more are forced, is a run of the model, whole:
/// it begins so, and each event leads from a state that stands for such a run to one that stands for a longer
/// one, whether it was made or refused. The headline holds of that run.
pub fn traces_are_runs()
    ensures opened { OpenedHaveNoTrace }
    ensures applied { TracesGoOn }
    ensures stopped { TracesStop }
    ensures failed { TracesShowFaults }
    ensures led { TracesLead }
    ensures led_until { TracesLeadUntil }
    ensures led_failed { TracesFailAfter }
    ensures refused { FaultsStop }
    ensures headline { TracesKeepHeadline }
{}
