//! The three tables, one row a case.

ghost use Rattle.std.specs.Prelude.{◌≡◌};
ghost use Rattle.xa_tables.specs.Tables.{init_rows, assoc_rows, branch_rows};

use crate::call::Call;
use crate::states::{AssocState, BranchState, InitState};
use xa_codes::Code;

/// The rows of the initialisation of a manager. A close is refused while any association exists, which is
/// no row.
pub fn next_init(from: InitState, call: Call) -> &'static [(Code, InitState)]
    ensures { result.now ≡ init_rows from call }
{
    macro_rules! table {
        ($($($from:ident)|+, $($call:ident)|+ => $(($code:ident, $to:ident)),+;)*) => {
            match (from, call) {
                $(($(InitState::$from)|+, $(Call::$call)|+) => &[$((Code::$code, InitState::$to)),+],)*
                _ => &[],
            }
        };
    }
    table! {
        R0 | R1, Open => (Ok, R1);
        R0 | R1, Close => (Ok, R0);
    }
}

/// The rows of the association of a thread with a branch. The answers of a resume and of an end that roll
/// back belong to a branch in S4, and NoMigrate to a manager that does not migrate.
pub fn next_assoc(from: AssocState, call: Call) -> &'static [(Code, AssocState)]
    ensures { result.now ≡ assoc_rows from call }
{
    macro_rules! table {
        ($($($from:ident)|+, $($call:ident)|+ => $(($code:ident, $to:ident)),+;)*) => {
            match (from, call) {
                $(($(AssocState::$from)|+, $(Call::$call)|+) => &[$((Code::$code, AssocState::$to)),+],)*
                _ => &[],
            }
        };
    }
    table! {
        T0, Start | StartJoin => (Ok, T1);
        T2 | M, StartResume => (Ok, T1), (RbRollback, T0);
        T1, EndSuspend => (Ok, T2), (RbRollback, T0);
        T1, EndMigrate => (Ok, M), (NoMigrate, T2), (RbRollback, T0);
        T1 | T2, EndSuccess => (Ok, T0), (RbRollback, T0);
        T1 | T2, EndFail => (RbRollback, T0);
    }
}

/// The rows of a branch. Of the two states after an end, S1 applies while another thread is active in the
/// branch.
pub fn next_branch(from: BranchState, call: Call) -> &'static [(Code, BranchState)]
    ensures { result.now ≡ branch_rows from call }
{
    macro_rules! table {
        ($($($from:ident)|+, $($call:ident)|+ => $(($code:ident, $to:ident)),+;)*) => {
            match (from, call) {
                $(($(BranchState::$from)|+, $(Call::$call)|+) => &[$((Code::$code, BranchState::$to)),+],)*
                _ => &[],
            }
        };
    }
    table! {
        S0, Start => (Ok, S1);
        S1 | S2, StartJoin | StartResume => (Ok, S1);
        S1 | S2, EndSuspend | EndSuccess => (Ok, S1), (Ok, S2);
        S1 | S2, EndMigrate => (Ok, S1), (Ok, S2), (NoMigrate, S1), (NoMigrate, S2);
        S1 | S2, EndFail => (RbRollback, S4);
        S4, StartResume | EndSuspend | EndMigrate | EndSuccess | EndFail => (RbRollback, S4);
        S2, Prepare => (Ok, S3), (RdOnly, S0), (RbRollback, S0), (RbCommFail, S0),
            (RbDeadlock, S0), (RbIntegrity, S0), (RbOther, S0), (RbProto, S0), (RbTimeout, S0), (RbTransient, S0);
        S3, Commit => (Ok, S0), (HeurHaz, S5), (HeurCom, S5), (HeurRb, S5), (HeurMix, S5);
        S5, Commit | Rollback => (HeurHaz, S5), (HeurCom, S5), (HeurRb, S5), (HeurMix, S5);
        S2, CommitOnePhase => (Ok, S0);
        S2 | S3 | S4, Rollback => (Ok, S0);
        S5, Forget => (Ok, S0);
    }
}
