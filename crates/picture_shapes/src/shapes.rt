//! What a picture is made of: shapes at pixels, x from the left and y from the top.

use picture_layout::Band;

/// What a shape is about, which gives it its colour.
#[derive(Clone, Copy, PartialEq, Eq)]
pub enum Tone {
    Ink,
    Dim,
    Vote,
    Yes,
    No,
    Ask,
    Operator,
}

/// How the letters of a label look.
#[derive(Clone, Copy, PartialEq, Eq)]
pub enum Look {
    Plain,
    Bold,
    /// Struck through.
    Lost,
}

/// How an arrow ends.
#[derive(Clone, Copy, PartialEq, Eq)]
pub enum Tip {
    Head,
    /// It goes on elsewhere.
    Ring,
    /// It ends here.
    Cross,
}

/// Words beside a line, on a ground that cuts what crosses them.
#[derive(Drop)]
pub struct Label {
    pub tone: Tone,
    pub look: Look,
    pub x: u64,
    pub y: u64,
    /// Whether the words begin at x; else they end there.
    pub right: bool,
    /// A number before the words, with its space.
    pub number: Vec<u8>,
    pub body: Vec<u8>,
    /// Words after, struck through.
    pub gone: Vec<u8>,
    /// How wide all of it is.
    pub size: u64,
}

/// Where a stroke begins, where its round corner begins, is and ends, at which height it lands, and where its
/// tip is.
#[derive(Clone, Copy)]
pub struct Path {
    pub x: u64,
    pub y: u64,
    pub turn_x: u64,
    pub turn_y: u64,
    pub corner: u64,
    pub level: u64,
    pub straight: u64,
    pub tip: u64,
}

/// An arrow: its line and its tip.
#[derive(Drop)]
pub struct Stroke {
    pub tone: Tone,
    pub title: Vec<u8>,
    /// Its message was delivered before.
    pub again: bool,
    pub tip: Tip,
    /// Whether it goes from the left to the right.
    pub right: bool,
    pub path: Path,
}

/// The rule at which an event begins, with its number and its line.
#[derive(Drop)]
pub struct EventRule {
    pub y: u64,
    pub width: u64,
    pub words_y: u64,
    pub event: u64,
    pub line: Vec<u8>,
}

/// A part of a process's line.
#[derive(Clone, Copy)]
pub struct PictureLife {
    pub x: u64,
    pub y: u64,
    pub end: u64,
}

/// A line from a parent's box to a child's.
#[derive(Clone, Copy)]
pub struct Joint {
    pub x: u64,
    pub y: u64,
    pub to_x: u64,
    pub to_y: u64,
}

/// A box with a process's name in its middle.
#[derive(Drop)]
pub struct Plate {
    pub x: u64,
    pub y: u64,
    pub width: u64,
    pub middle: u64,
    pub words_y: u64,
    pub is_round: bool,
    pub body: Vec<u8>,
}

/// A stretch in which N cases of a process are in doubt, or decided by an operator.
#[derive(Clone, Copy)]
pub struct Patch {
    pub band: Band,
    pub process: u32,
    pub count: u64,
    pub x: u64,
    pub y: u64,
    pub width: u64,
    pub height: u64,
}

/// A bar after the marks of a step.
#[derive(Clone, Copy)]
pub struct Bar {
    pub x: u64,
    pub y: u64,
    pub height: u64,
}

/// A disc.
#[derive(Clone, Copy)]
pub struct Dot {
    pub tone: Tone,
    pub x: u64,
    pub y: u64,
    pub radius: u64,
}

/// A ring, where an arrow goes on that began elsewhere.
#[derive(Clone, Copy)]
pub struct Ring {
    pub tone: Tone,
    pub x: u64,
    pub y: u64,
}

/// The mark of a record: filled where it is forced.
#[derive(Drop)]
pub struct Square {
    pub tone: Tone,
    pub name: Vec<u8>,
    pub x: u64,
    pub y: u64,
    pub forced: bool,
    pub lost: bool,
}

/// Two torn edges, where a process crashed.
#[derive(Drop)]
pub struct Torn {
    pub title: Vec<u8>,
    pub x: u64,
    pub edge: u64,
    pub y: u64,
}

/// What is told of a step: a ring around it, with words that show where the pointer rests.
#[derive(Drop)]
pub struct Note {
    pub title: Vec<u8>,
    pub x: u64,
    pub y: u64,
}

/// A place.
#[derive(Clone, Copy)]
pub struct Spot {
    pub x: u64,
    pub y: u64,
}

/// A shape at its place, but for arrows and marks of records, which have lists of their own.
#[derive(Drop)]
pub enum Shape {
    Rule(EventRule),
    Life(PictureLife),
    Joint(Joint),
    Plate(Plate),
    Patch(Patch),
    Bar(Bar),
    Ring(Ring),
    Dot(Dot),
    Torn(Torn),
    Note(Note),
    /// Two bars across a line, where a log was trimmed.
    Trim(Spot),
    /// A triangle: an operator acts, or a mismatch.
    Warning(Spot),
    Label(Label),
}
