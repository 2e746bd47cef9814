//! Where rows and places are, in pixels.

ghost use Rattle.std.specs.Prelude.{◌≡◌, ◌-◌, ◌^◌, ◌<◌, ◌≤◌, min};
ghost use Rattle.picture_shapes.specs.Grids.{line_at, row_at};
ghost use Rattle.picture_shapes.specs.Head.{key_x, key_y, keys_in_line, width_of};

/// The height of a row.
pub const ROW: u64 = 30;

/// From one level of the tree to the next, at the head.
const LEVEL: u64 = 46;

/// How wide an entry of the legend is, how far its lines are from one another, and how many entries there
/// are at most.
const KEY: u64 = 236;

const KEY_LINE: u64 = 22;

const KEYS: u64 = 19;

/// The fewest and the most characters for which a column has room.
const NARROW: usize = 23;

pub const WIDE: usize = 60;

/// For N characters each column has room.
#[derive(Clone, Copy)]
pub struct PictureRoom {
    /// The lines of events, at the left.
    pub events: usize,
    /// What is asked of the root and what it tells.
    pub calls: usize,
    /// The words between two processes: a message's number with it.
    pub messages: usize,
}

impl PictureRoom {
    /// The least room.
    pub fn narrow() -> PictureRoom {
        PictureRoom {
            events: NARROW,
            calls: NARROW - 2,
            messages: NARROW,
        }
    }
}

/// Where the lines of processes and the rows are.
#[derive(Clone, Copy)]
pub struct Grid {
    /// The line of the root.
    pub root: u32,
    /// From each line to the next.
    pub gap: u32,
    /// The middle of the first row.
    pub top: u32,
}

/// How many processes a picture has, for how many characters there is room, how many entries its legend has,
/// and where its lines and rows are.
#[derive(Clone, Copy)]
pub struct PictureFrame {
    pub processes: u32,
    pub room: PictureRoom,
    pub keys: u64,
    pub grid: Grid,
}

/// How wide N characters are: 7.25 for each.
pub fn width_of(characters: usize) -> u64 {
    (characters as u64).saturating_mul(29) / 4
}

/// Where the application's line is, with this room.
fn application_in(room: PictureRoom) -> u64 {
    width_of(room.events).saturating_add(70)
}

/// N pixels, of which a picture with room for as many characters as `WIDE` has less than 2^32.
fn pixels(number: u64) -> u32
    ensures { result ≡ min number (2 ^ 32 - 1) }
{
    match u32::try_from(number) {
        Ok(number) => number,
        Err(_) => u32::MAX,
    }
}

impl PictureFrame {
    /// A picture with this many processes and levels, this room, and this many entries in its legend.
    pub fn new(processes: u32, levels: u32, room: PictureRoom, keys: u64) -> PictureFrame
        ensures apart { 0 < result.grid.gap }
        ensures processes { result.processes ≡ processes }
        ensures keys { result.keys ≡ keys }
    {
        let application = application_in(room);
        let root = application
            .saturating_add(width_of(room.calls))
            .saturating_add(32);
        let mut frame = PictureFrame {
            processes,
            room,
            keys,
            grid: Grid {
                root: pixels(root),
                gap: pixels(width_of(room.messages).saturating_add(46)),
                top: 0,
            },
        };
        frame.grid.top = pixels(frame.level(levels) + 30);
        frame
    }

    /// Where the application's line is.
    pub fn application(self) -> u64 {
        application_in(self.room)
    }

    /// The line of the process at this place.
    #[tactic(auto, using(crate::proofs::Grids::fits))]
    pub fn x_of(self, place: u32) -> u64
        ensures at { result ≡ line_at self.grid place }
        ensures within { result ≤ 2 ^ 64 - 2 ^ 32 }
    {
        u64::from(self.grid.root) + u64::from(self.grid.gap) * u64::from(place)
    }

    pub fn width(self) -> u64
        ensures { result ≡ width_of self }
    {
        self.x_of(self.processes)
    }

    /// How many entries of the legend stand in a line.
    #[tactic(auto, unfolding(crate::specs::Head::keys_in_line))]
    fn keys_in_line(self) -> u64
        ensures within { (0 < result) × (result ≤ KEYS) }
        ensures exact { result ≡ keys_in_line self }
    {
        (self.width().saturating_sub(20) / KEY).min(KEYS).max(1)
    }

    /// Where an entry of the legend stands.
    pub fn key_at(self, entry: u32) -> (u64, u64)
        ensures left { result.0 ≡ key_x self entry }
        ensures line { result.1 ≡ key_y self entry }
    {
        let keys = self.keys_in_line();
        let entry = u64::from(entry);
        (20 + KEY * (entry % keys), 64 + KEY_LINE * (entry / keys))
    }

    /// The top of the boxes of this level.
    pub fn level(self, level: u32) -> u64
        ensures { result < 2 ^ 50 }
    {
        let keys = self.keys_in_line();
        let lines = (self.keys.min(KEYS) + keys - 1) / keys;
        86 + KEY_LINE * lines + LEVEL * u64::from(level)
    }

    /// The middle of a row.
    pub fn y_of(self, row: u32) -> u64
        ensures { result ≡ row_at self.grid row }
    {
        u64::from(self.grid.top) + ROW * u64::from(row)
    }
}
