//! What a caller was told of the journal.

ghost use Rattle.std.specs.Prelude.{◌≡◌, []};
ghost use Rattle.cluster_ties.specs.Views.{holder};

use cluster_ties::seats::{Place, Seats};
use std::marker::{Model, PhantomData};

/// A caller's pass: what it was told of the journal. To a contract it is its number and its pairs of a place
/// and an entry.
pub struct Pass<N: Seats> {
    pub(crate) seat: Place,
    pub(crate) caller: u64,
    pub(crate) name: PhantomData<N>,
}

// For the proof: what is let go by hand is proved here alone, and not again by each crate above.
impl<N: Seats> Drop for Pass<N> {
    fn drop(self) {
        let Pass {
            seat: _,
            caller: _,
            name: _,
        } = self;
    }
}

impl<N: Seats> Model for Pass<N> {
    ghost use Rattle.std.specs.Prelude.{◌≡◌, []};
    ghost use Rattle.cluster_ties.specs.Views.{holder};
    ghost use Rattle.cluster_process.specs.Passes.{PassState};

    ghost Value = { PassState };

    ghost view = { λ p. record { caller = p.caller; pairs = p.seat.me.0.pass.pairs } };

    ghost invariant = { λ p. (p.seat.table_id ≡ N.table)
        × (p.seat.me ≡ (holder p.caller p.seat.me.0.pass.pairs, [])) };
}

impl<N: Seats> Pass<N> {
    /// A pass of which nothing is noted.
    pub fn new(seat: Place, caller: u64) -> Pass<N>
        requires { (seat.table_id ≡ N.table) × (seat.me ≡ (holder caller [], [])) }
        ensures { result ≡ record { caller = caller; pairs = [] } }
    {
        Pass {
            seat,
            caller,
            name: PhantomData,
        }
    }

    /// The caller's number, under which the journal has its entries.
    pub fn caller(&self) -> u64
        ensures { result ≡ self.now.caller }
    {
        self.caller
    }
}
