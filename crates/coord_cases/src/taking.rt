//! A row that a case of the table takes.

ghost use Rattle.std.specs.Prelude.{◌≡◌, true, None, Some, IfErr, IfOk, IsSome, IsTrue, OnErr};
ghost use Rattle.protocol.specs.Standings.{unknown_view};
ghost use Rattle.case_table.specs.Tables.{entry_at};
ghost use Rattle.coord_cases.specs.Cases.{live_at, view_in};
ghost use Rattle.coord_rows.specs.Asks.{Accepts, RowNotTaken, asked_row, is_of_root};
ghost use Rattle.coord_effects.specs.Rows.{seat_meant};
ghost use Rattle.coord_cases.specs.Takes.{GivenAreActive, IsLiveAt, LetsCaseGo, RetiresIf, SameCases, TakesLive, TakesRowOf};

use crate::cases::LiveCases;
use coord_rows::{CaseInput, OwnCase, RowEffect, retires, take_row};
use protocol::StepError;
use std::alloc::Global;

/// The live case under the key takes the row that it meets, in its place.
fn take_live(
    alloc: Global,
    cases: &mut LiveCases,
    key: usize,
    seat: OwnCase,
    asked: CaseInput,
) -> Result<RowEffect, StepError>
    requires at { IsLiveAt cases.old key seat.case }
    requires accepted { Accepts asked (view_in cases.old seat.case) }
    ensures ok { IfOk result (λ effect. TakesLive cases.old cases.new key seat asked.entry effect) }
    ensures err { OnErr result (SameCases cases.old cases.new) }
    ensures untaken { IfErr result (RowNotTaken seat
        (asked_row (seat_meant seat) asked.entry (view_in cases.old seat.case))) }
{
    let live = cases.get_mut(key).unwrap();
    take_row(alloc, seat, asked, live)
}

/// The ticket of the key's case is active no longer, if it is to be retired.
fn retire_if(cases: &mut LiveCases, key: usize, retiring: bool)
    requires { IsSome (entry_at cases.old key) }
    ensures { RetiresIf retiring cases.old cases.new key }
{
    if retiring {
        cases.retire(key);
    }
}

/// The key's case leaves the table, if it is forgotten.
fn let_go(cases: &mut LiveCases, key: usize)
    ensures { LetsCaseGo cases.old cases.new key }
{
    if is_forgotten(cases, key) {
        cases.remove(key);
    }
}

fn is_forgotten(cases: &LiveCases, key: usize) -> bool
    ensures gone { IsTrue result → live_at cases.now key ≡ Some unknown_view }
    ensures live { live_at cases.now key ≡ Some unknown_view → IsTrue result }
{
    match cases.get(key) {
        None => false,
        Some(live) => live.is_forgotten(),
    }
}

/// The case under the key takes the row that it meets: PREPARE and ABORT retire its ticket, and it leaves
/// the table where it is forgotten. Memory; Exhausted, if the row is beyond the bounds of numbers: nothing is
/// otherwise.
pub fn take(
    alloc: Global,
    cases: &mut LiveCases,
    key: usize,
    seat: OwnCase,
    asked: CaseInput,
) -> Result<RowEffect, StepError>
    requires at { IsLiveAt cases.old key seat.case }
    requires accepted { Accepts asked (view_in cases.old seat.case) }
    requires given { GivenAreActive cases.old }
    requires root { is_of_root asked ≡ true → seat.case.ticket ≡ None }
    ensures ok { IfOk result (λ effect. TakesRowOf cases.old cases.new seat asked.entry effect) }
    ensures err { OnErr result (SameCases cases.old cases.new) }
    ensures untaken { IfErr result (RowNotTaken seat
        (asked_row (seat_meant seat) asked.entry (view_in cases.old seat.case))) }
{
    let effect = take_live(alloc, cases, key, seat, asked)?;
    retire_if(cases, key, retires(asked));
    let_go(cases, key);
    Ok(effect)
}
