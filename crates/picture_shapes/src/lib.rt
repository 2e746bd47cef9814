//! Floor: engines and program.
//!
//! Shapes of a picture at pixels, where rows and places are among them, and the text of each in SVG.
#![tactic(auto)]

mod fixed;
mod frame;
mod head;
mod parts;
mod shapes;
mod signs;
mod strokes;
mod svg;
mod words;

pub use frame::{Grid, PictureFrame, PictureRoom, ROW, WIDE, width_of};
pub use head::{Summary, keys_of, push_head};
pub use shapes::{
    Bar, Dot, EventRule, Joint, Label, Look, Note, Patch, Path, PictureLife, Plate, Ring, Shape,
    Spot, Square, Stroke, Tip, Tone, Torn,
};
pub use signs::Signs;
pub use strokes::push_strokes;
pub use svg::{push_shapes, push_squares};
pub use words::{push_escaped, push_pair, push_word};
