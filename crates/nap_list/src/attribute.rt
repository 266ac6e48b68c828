//! The attributes that entries are drawn with (PROFILE.md, The drawing state).
use nap_codes::Size;
use nap_values::{Addr, Grb, Move, Point, Word};

/// The drawing point (pen): where the next shape may start (PROFILE.md, The drawing state).
#[derive(Clone, Copy, PartialEq, Eq, Debug, Drop)]
pub enum Pen {
    /// At the origin: nothing has set it yet, in the stream or in the open definition.
    Start,
    /// At this point.
    At(Point),
    /// At a position that only a terminal knows: text, RESET, CS or FIELD came last.
    After,
}

/// When the terminal's own colour was last selected by the terminal.
#[derive(Clone, Copy, PartialEq, Eq, Debug, Drop)]
pub enum Origin {
    /// At the start: no reset has selected it.
    AtStart,
    /// At a reset, which selected it.
    AfterReset,
}

/// The colour of colour mode 0, which stays while another mode is in use (PROFILE.md, Colours).
#[derive(Clone, Copy, PartialEq, Eq, Debug, Drop)]
pub enum Base {
    /// The terminal's own colour.
    Own(Origin),
    /// A colour by its components (SET COLOR).
    Direct(Grb),
}

/// A colour that RESET selects by its colour code (PROFILE.md, RESET).
#[derive(Clone, Copy, PartialEq, Eq, Debug, Drop)]
pub enum Preset {
    /// Colour code 2.
    Two,
    /// Colour code 3.
    Three,
}

/// The colour in use (PROFILE.md, Colours). `Own` and `Direct` belong to mode 0, `Front` to mode 1, `Pair` to mode 2.
#[derive(Clone, Copy, PartialEq, Eq, Debug, Drop)]
pub enum Colour {
    /// The terminal's own colour.
    Own(Origin),
    /// A colour by its components (SET COLOR).
    Direct(Grb),
    /// The foreground at this address of the colour map.
    Front(Addr),
    /// The foreground and the background at these addresses of the colour map.
    Pair(Addr, Addr),
    /// A colour that a reset selected.
    ByReset(Preset),
}

/// The texture of lines and areas: the word of TEXTURE, and the size of the mask (PROFILE.md, The drawing state).
#[derive(Clone, Copy, PartialEq, Eq, Debug, Drop)]
pub struct Texture {
    /// The word of TEXTURE.
    pub word: Word,
    /// The size of the mask, or `None` if none was given.
    pub mask: Option<Move>,
}

/// The size of a character: one of the named sizes, or one that TEXT gave.
#[derive(Clone, Copy, PartialEq, Eq, Debug, Drop)]
pub enum CharSize {
    /// A named size.
    Named(Size),
    /// A width and height.
    Given(Move),
}

/// The two words and the size of TEXT, and the four modes of the C1 set (PROFILE.md, The drawing state).
#[derive(Clone, Copy, PartialEq, Eq, Debug, Drop)]
pub struct TextLook {
    /// The first word of TEXT.
    pub first: Word,
    /// The second word of TEXT.
    pub second: Word,
    /// The size of a character.
    pub size: CharSize,
    /// Whether REVERSE VIDEO is on.
    pub reverse: bool,
    /// Whether UNDERLINE is on.
    pub underline: bool,
    /// Whether WORD WRAP is on.
    pub wrap: bool,
    /// Whether SCROLL is on.
    pub scroll: bool,
}

/// The attributes that lines and areas are drawn with.
#[derive(Clone, Copy, PartialEq, Eq, Debug, Drop)]
pub struct Ink {
    /// The size of the logical pel.
    pub pel: Move,
    /// The colour.
    pub colour: Colour,
    /// The texture.
    pub texture: Texture,
}

/// The attributes that characters are drawn with.
#[derive(Clone, Copy, PartialEq, Eq, Debug, Drop)]
pub struct Hand {
    /// The drawing point (pen) before the text.
    pub pen: Pen,
    /// The colour.
    pub colour: Colour,
    /// The text attributes.
    pub text: TextLook,
}

/// The active field: the whole unit screen, or a part of it between two opposite corners (FIELD).
#[derive(Clone, Copy, PartialEq, Eq, Debug, Drop)]
pub enum Area {
    /// The whole unit screen.
    Whole,
    /// A part of it.
    Part {
        /// One corner.
        from: Point,
        /// The opposite corner.
        to: Point,
    },
}

/// The attributes that an entry depends on, with `None` for each of the others (PROFILE.md, The display list).
#[derive(Clone, Copy, PartialEq, Eq, Debug, Drop)]
pub struct Attributes {
    /// The drawing point (pen) before the entry.
    pub pen: Option<Pen>,
    /// The size of the logical pel.
    pub pel: Option<Move>,
    /// The colour.
    pub colour: Option<Colour>,
    /// The texture.
    pub texture: Option<Texture>,
    /// The text attributes.
    pub text: Option<TextLook>,
}
