//! Opening a coordinator.

ghost use Rattle.log_text.specs.Forms.{log_form};
ghost use Rattle.std.specs.Prelude.{◌≡◌, [], false, IfErr, IfOk, OnOk};
ghost use Rattle.protocol_words.specs.kind;
ghost use Rattle.log_records.specs.Sights.{records_of};
ghost use Rattle.process_state.specs.Opening.{IsOpenedProcess};
ghost use Rattle.coord_process.specs.States.{CoordinatorNotOpened, WritesOpened, role_below, state};

use crate::coordinator::Coordinator;
use coord_cases::LiveCases;
use log_records::RecLog;
use log_store::LogStore;
use log_writing::{coordinator_frame, make_room, write};
use protocol::{ProcessId, Record, StepError, Tree};
use std::alloc::Global;

/// The first record of an empty log: boot 1, forced. Memory: the log is as it was. Device: the log has
/// failed.
fn write_opened<L: LogStore>(alloc: Global, log: &mut RecLog<L>) -> Result<(), StepError>
    requires kind { log.old.sight.form.kind ≡ kind.Coordinator }
    requires works { log.old.sight.failed ≡ false }
    ensures ok { OnOk result (WritesOpened log.old log.new) }
    ensures err { IfErr result (CoordinatorNotOpened log.old log.new) }
{
    make_room(log)?;
    let frame = coordinator_frame(alloc, &Record::Opened(1), None)?;
    if let Err(_) = write(log, &frame, true) {
        return Err(StepError::Device);
    }
    Ok(())
}

impl<L: LogStore + Drop> Coordinator<L> {
    /// The coordinator `me` of this tree below this parent, over an empty log, which it opens: boot 1 is
    /// forced. The root has no parent. A refusal hands the log back. Memory: it is as it was. Device: the
    /// device failed, and so has the log.
    pub fn open(
        alloc: Global,
        me: ProcessId,
        parent: Option<ProcessId>,
        tree: Tree,
        log: RecLog<L>,
    ) -> Result<Coordinator<L>, (StepError, RecLog<L>)>
        requires form { log.sight.form ≡ log_form me kind.Coordinator }
        requires works { log.sight.failed ≡ false }
        requires empty { records_of log.sight.kept ≡ [] }
        ensures ok { IfOk result (λ c. IsOpenedProcess (state c)
            (record { me = me; role = role_below parent; tree = tree }) log.sight.failures) }
        ensures err { IfErr result (λ e. CoordinatorNotOpened log e.1 e.0) }
    {
        let mut log = log;
        match write_opened(alloc, &mut log) {
            Ok(()) => Ok(Coordinator {
                alloc,
                me,
                parent,
                tree,
                log,
                boot: 1,
                begun: 0,
                given: 0,
                cases: LiveCases::new(alloc),
                front: None,
            }),
            Err(error) => Err((error, log)),
        }
    }
}
