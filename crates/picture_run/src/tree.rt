//! Draws a tree at the head of a picture, and the line of each of its processes.

use crate::sheet::Sheet;
use picture_layout::Column;
use picture_shapes::{Joint, PictureFrame, PictureLife, Plate, Shape, width_of};
use protocol::Kind;
use std::alloc::{AllocError, Global};
use trace_lines::{push, push_number};

/// What a process is, in a word.
fn kind_word(seat: &Column) -> &'static str {
    match (seat.parent, seat.kind) {
        (None, _) => "root",
        (_, Kind::Coordinator) => "coordinator",
        (_, Kind::Manager) => "manager",
    }
}

fn draw_box(
    sheet: &mut Sheet,
    x: u64,
    y: u64,
    is_round: bool,
    body: Vec<u8>,
) -> Result<(), AllocError> {
    let half = width_of(body.len()) / 2;
    sheet.boxes.push(Shape::Plate(Plate {
        x: x.saturating_sub(half).saturating_sub(16),
        y,
        width: half.saturating_mul(2).saturating_add(32),
        middle: x,
        words_y: y.saturating_add(19),
        is_round,
        body,
    }))?;
    Ok(())
}

/// The line of a process: down to the end, but for its crashes.
fn draw_life(
    sheet: &mut Sheet,
    x: u64,
    y: u64,
    breaks: &[u64],
    end: u64,
) -> Result<(), AllocError> {
    let mut from = y;
    for row in breaks {
        sheet.tree.push(Shape::Life(PictureLife {
            x,
            y: from,
            end: row.saturating_sub(7),
        }))?;
        from = row.saturating_add(7);
    }
    sheet
        .tree
        .push(Shape::Life(PictureLife { x, y: from, end }))?;
    Ok(())
}

/// The crashes of a process, by where they are.
fn breaks_of(
    alloc: Global,
    frame: PictureFrame,
    place: u32,
    crashes: &[(u32, u32)],
) -> Result<Vec<u64>, AllocError> {
    let mut breaks = Vec::new(alloc);
    for (at, row) in crashes {
        if *at == place {
            breaks.push(frame.y_of(*row))?;
        }
    }
    Ok(breaks)
}

fn draw_seat(
    alloc: Global,
    sheet: &mut Sheet,
    frame: PictureFrame,
    seats: &[Column],
    seat: &Column,
) -> Result<(), AllocError> {
    let (x, y) = (frame.x_of(seat.place), frame.level(seat.level));
    if let Some(parent) = seat.parent {
        if let Some(above) = seats.get(parent as usize) {
            sheet.tree.push(Shape::Joint(Joint {
                x: frame.x_of(parent),
                y: frame.level(above.level).saturating_add(15),
                to_x: x,
                to_y: y,
            }))?;
        }
    }
    let mut body = Vec::new(alloc);
    push_number(&mut body, u64::from(seat.process.0))?;
    push(&mut body, " ")?;
    push(&mut body, kind_word(seat))?;
    draw_box(sheet, x, y, false, body)
}

/// Draws the application, the processes, and their lines down to the end, broken at the crashes: each has its
/// place and its row.
pub(crate) fn draw_tree(
    alloc: Global,
    sheet: &mut Sheet,
    frame: PictureFrame,
    seats: &[Column],
    crashes: &[(u32, u32)],
    bottom: u64,
) -> Result<(), AllocError> {
    let end = bottom.saturating_add(8);
    let top = frame.level(0);
    draw_life(sheet, frame.application(), top, &[], end)?;
    let application = Vec::from_slice(alloc, b"application")?;
    draw_box(sheet, frame.application(), top, true, application)?;
    for seat in seats {
        let breaks = breaks_of(alloc, frame, seat.place, crashes)?;
        let y = frame.level(seat.level);
        draw_life(sheet, frame.x_of(seat.place), y, &breaks, end)?;
        draw_seat(alloc, sheet, frame, seats, seat)?;
    }
    Ok(())
}
