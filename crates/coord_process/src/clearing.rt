//! What an operator's forget makes of the root: a report is cleared.

ghost use Rattle.std.specs.Prelude.{◌≡◌, false, None, IfErr, IfOk};
ghost use Rattle.protocol_words.specs.Types.{AnyInput};
ghost use Rattle.protocol.specs.Records.{is_reported};
ghost use Rattle.process_state.specs.Turns.{kept_records};
ghost use Rattle.coord_process.specs.Meets.{RetiresNone, meant};
ghost use Rattle.coord_process.specs.States.{state};
ghost use Rattle.coord_process.specs.Turned.{Stopped, Turned};
ghost use Rattle.coord_process.specs.declared.turn.Met.TheVariants as turn;

use crate::coordinator::Coordinator;
use crate::writing::write_down;
use coord_records::is_reported;
use coord_rows::clears;
use log_store::LogStore;
use log_writing::make_room;
use protocol::{Case, Reaction, StepError};
use std::alloc::AllocError;

impl<L: LogStore> Coordinator<L> {
    /// Whether the records of the log report what was found of a case of the root, and it was not cleared
    /// since. It goes through them once.
    fn is_reported(&self, case: &Case) -> Result<bool, AllocError>
        ensures { IfOk result (λ reported. reported ≡ is_reported (kept_records (state self.now)) case.now) }
    {
        let records = self.log.records(self.alloc)?;
        Ok(is_reported(&records, case))
    }

    /// What is reported of the root's case is cleared, forced. UnknownTxn: nothing is reported. Memory,
    /// Exhausted: nothing changed. Device: the device failed under the record.
    pub(crate) fn clears(&mut self, case: Case) -> Result<Reaction, StepError>
        requires root { self.old.parent ≡ None }
        requires up { self.old.log.sight.failed ≡ false }
        ensures ok { IfOk result (λ reaction. (i : AnyInput) → RetiresNone i
            → Turned (state self.old) (state self.new) i
            (meant self.old (turn.Clears case)) reaction) }
        ensures err { IfErr result (Stopped (state self.old) (state self.new)
            (meant self.old (turn.Clears case))) }
    {
        if !self.is_reported(&case)? {
            return Err(StepError::UnknownTxn);
        }
        make_room(&mut self.log)?;
        let effect = clears(self.alloc, self.seat(case))?;
        if let Err(_) = write_down(&mut self.log, self.parent, &effect.written) {
            return Err(StepError::Device);
        }
        Ok(effect.reaction())
    }
}
