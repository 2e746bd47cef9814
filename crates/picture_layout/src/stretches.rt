//! The stretches of rows in which cases of a process are in doubt, or decided by an operator.

use crate::rows::StepRows;
use crate::seats::Column;
use std::alloc::{AllocError, Global};

/// What the cases of a stretch are.
#[derive(Clone, Copy, PartialEq, Eq)]
pub enum Band {
    Doubt,
    Operator,
}

/// A case of a process begins or ends to be so, in this step and N rows below its first one.
#[derive(Clone, Copy)]
pub struct Change {
    pub place: u32,
    pub step: usize,
    pub offset: u32,
    pub band: Band,
    pub begins: bool,
}

/// Rows in which N cases of a process are so, the last one not among them.
#[derive(Clone, Copy)]
pub struct Stretch {
    pub place: u32,
    pub band: Band,
    pub count: u64,
    pub first: u32,
    pub end: u32,
    /// Whether it goes on to the end of the picture.
    pub stays: bool,
}

/// How many cases are so from a row on.
#[derive(Clone, Copy)]
struct Open {
    count: u64,
    since: u32,
}

const NONE_OPEN: Open = Open { count: 0, since: 0 };

/// What is open at a place, if there is such a place.
fn put(opens: &mut [Open], place: u32, open: Open) {
    if let Some(slot) = opens.get_mut(place as usize) {
        *slot = open;
    }
}

/// The open stretches of a process, and those of its places that are closed.
#[derive(Drop)]
struct Bands {
    doubts: Vec<Open>,
    operators: Vec<Open>,
    closed: Vec<Stretch>,
}

impl Bands {
    fn open(&self, place: u32, band: Band) -> Open {
        let opens = match band {
            Band::Doubt => &self.doubts,
            Band::Operator => &self.operators,
        };
        opens.get(place as usize).copied().unwrap_or(NONE_OPEN)
    }

    fn set(&mut self, place: u32, band: Band, open: Open) {
        match band {
            Band::Doubt => put(self.doubts.as_mut_slice(), place, open),
            Band::Operator => put(self.operators.as_mut_slice(), place, open),
        }
    }

    /// Closes the stretch of a process at a row, where it has a row.
    fn close(&mut self, place: u32, band: Band, end: u32, stays: bool) -> Result<(), AllocError> {
        let open = self.open(place, band);
        if open.count > 0 && (open.since < end || stays) {
            self.closed.push(Stretch {
                place,
                band,
                count: open.count,
                first: open.since,
                end,
                stays,
            })?;
        }
        Ok(())
    }

    fn change(&mut self, change: &Change, row: u32) -> Result<(), AllocError> {
        self.close(change.place, change.band, row, false)?;
        let count = self.open(change.place, change.band).count;
        let count = if change.begins {
            count.saturating_add(1)
        } else {
            count.saturating_sub(1)
        };
        self.set(change.place, change.band, Open { count, since: row });
        Ok(())
    }
}

/// The stretches of these processes, in the order in which they end, up to the row after all others.
pub fn stretches_of(
    alloc: Global,
    seats: &[Column],
    changes: &[Change],
    rows: &[StepRows],
    end: u32,
) -> Result<Vec<Stretch>, AllocError> {
    let mut bands = Bands {
        doubts: Vec::new(alloc),
        operators: Vec::new(alloc),
        closed: Vec::new(alloc),
    };
    for _ in seats {
        bands.doubts.push(NONE_OPEN)?;
        bands.operators.push(NONE_OPEN)?;
    }
    for change in changes {
        let first = match rows.get(change.step) {
            None => 0,
            Some(rows) => rows.first,
        };
        bands.change(change, first.saturating_add(change.offset))?;
    }
    for seat in seats {
        bands.close(seat.place, Band::Doubt, end, true)?;
        bands.close(seat.place, Band::Operator, end, true)?;
    }
    Ok(bands.closed)
}
