//! Laws of what is read, each on a function with an empty body.

ghost use Rattle.std.specs.Prelude.{◌≡◌, List};
ghost use Rattle.protocol.specs.declared.names.Case.{Case};
ghost use Rattle.protocol.specs.declared.names.Ticket.{Ticket};
ghost use Rattle.protocol.specs.declared.records.Record.{Record};
ghost use Rattle.protocol.specs.declared.standings.Standing.{Standing};
ghost use Rattle.protocol.specs.CoordinatorRows.{Seat, on_inquiry};
ghost use Rattle.protocol.specs.Restarts.{recorded_view};
ghost use Rattle.protocol.specs.Standings.{CoordinatorView};
ghost use Rattle.coord_records.specs.Answers.{answer_of, answers_by};
ghost use Rattle.coord_records.specs.Readings.{reading_of, standing_in, view_in};

/// What is read of records is what the definitions say of them, which go through all records for each case:
/// where the case stands, and its view.
pub fn readings_are_exact()
    ensures standing { (rs : List Record) (c : Case) → standing_in (reading_of rs).table c
        ≡ (recorded_view rs c).standing }
    ensures view { (rs : List Record) (c : Case) → view_in (reading_of rs).table c ≡ recorded_view rs c }
{}

/// An inquiry is answered as the reaction table says.
pub fn answers_are_exact()
    ensures { (s : Seat) (t : Ticket) (v : CoordinatorView) (st : Standing)
        → on_inquiry s t v st ≡ answers_by s t v (answer_of st s.own.txn.presumption) }
{}
