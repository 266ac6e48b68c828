//! The state that a list of entries leaves (PROFILE.md, The drawing state).
ghost use Rattle.std.specs.Prelude.{◌≡◌, ◌↔◌, IsTrue, None, Some};
ghost use Rattle.nap_list.specs.Entry.{attributes, ink_attributes, colour_only};
ghost use Rattle.nap_list.specs.Agreement.{AreCurrent};
ghost use Rattle.nap_list.specs.State.{start_texture, start_text, start_drawing, start, corner, AttributesFit, MayCome, Fits, with_attributes, with_pen, ink_of, hand_of, reset, effect_on_drawing, definition_after, last_after, known_after, after};

use crate::attribute::{
    Attributes, Base, CharSize, Colour, Hand, Ink, Origin, Pen, Preset, TextLook, Texture,
};
use crate::entry::Entry;
use crate::known::Known;
use nap_codes::{CharSet, Mask, Size};
use nap_values::{Move, Point, Word};

/// The current attributes, which the next entry may hold (PROFILE.md, The drawing state).
#[derive(Clone, Copy, PartialEq, Eq, Drop)]
pub struct Drawing {
    /// The drawing point (pen).
    pub pen: Pen,
    /// The size of the logical pel.
    pub pel: Move,
    /// The colour of colour mode 0.
    pub base: Base,
    /// The colour in use.
    pub colour: Colour,
    /// The texture.
    pub texture: Texture,
    /// The text attributes.
    pub text: TextLook,
}

/// What a definition defines.
#[derive(Clone, Copy, PartialEq, Eq, Drop)]
pub enum Definition {
    /// The glyph of this code.
    Glyph(u8),
    /// A texture mask.
    Mask(Mask),
}

/// A definition that isn't ended, with the attributes before it.
#[derive(Clone, Copy, PartialEq, Eq, Drop)]
pub struct OpenDefinition {
    /// What is defined.
    pub what: Definition,
    /// The attributes before it, which its end restores.
    pub saved: Drawing,
}

/// A character, without attributes.
#[derive(Clone, Copy, PartialEq, Eq, Drop)]
pub struct LastChar {
    /// The character set.
    pub set: CharSet,
    /// The byte of the character.
    pub code: u8,
}

/// The state that a list of entries leaves.
#[derive(PartialEq, Eq, Drop)]
pub struct State {
    /// The current attributes.
    pub drawing: Drawing,
    /// The open definition, if any.
    pub definition: Option<OpenDefinition>,
    /// The last entry, if it is a character.
    pub last: Option<LastChar>,
    /// The known colours of the colour map.
    pub known: Known,
}

impl Texture {
    fn start() -> Texture
        ensures { result ≡ start_texture }
    {
        Texture {
            word: Word::ZERO,
            mask: None,
        }
    }
}

impl TextLook {
    fn start() -> TextLook
        ensures { result ≡ start_text }
    {
        TextLook {
            first: Word::ZERO,
            second: Word::ZERO,
            size: CharSize::Named(Size::Normal),
            reverse: false,
            underline: false,
            wrap: false,
            scroll: false,
        }
    }

    fn has_modes_of(&self, wanted: &TextLook) -> bool
        ensures { IsTrue result ↔ (self.now.reverse ≡ wanted.now.reverse) × (self.now.underline ≡ wanted.now.underline) × (self.now.wrap ≡ wanted.now.wrap) × (self.now.scroll ≡ wanted.now.scroll) }
    {
        self.reverse == wanted.reverse
            && self.underline == wanted.underline
            && self.wrap == wanted.wrap
            && self.scroll == wanted.scroll
    }

    /// Whether these are the text attributes that are wanted.
    #[inline(always)]
    pub fn is_look(&self, wanted: &TextLook) -> bool
        ensures { IsTrue result ↔ wanted.now ≡ self.now }
    {
        self.first == wanted.first
            && self.second == wanted.second
            && self.size == wanted.size
            && self.has_modes_of(wanted)
    }
}

impl Drawing {
    /// Returns the attributes at the start.
    pub fn start() -> Drawing
        ensures { result ≡ start_drawing }
    {
        Drawing {
            pen: Pen::Start,
            pel: Move::zero(),
            base: Base::Own(Origin::AtStart),
            colour: Colour::Own(Origin::AtStart),
            texture: Texture::start(),
            text: TextLook::start(),
        }
    }

    /// Returns the current attributes for lines and areas.
    pub fn ink(&self) -> Ink
        ensures { result ≡ ink_of self.now }
    {
        Ink {
            pel: self.pel,
            colour: self.colour,
            texture: self.texture,
        }
    }

    /// Returns the current attributes for text.
    pub fn hand(&self) -> Hand
        ensures { result ≡ hand_of self.now }
    {
        Hand {
            pen: self.pen,
            colour: self.colour,
            text: self.text,
        }
    }

    fn attributes_fit(&self, attributes: &Attributes) -> bool
        ensures { IsTrue result ↔ AttributesFit self.now attributes.now }
    {
        let pen_fits = match attributes.pen {
            Some(Pen::At(_)) | None => true,
            Some(pen) => self.pen == pen,
        };
        let colour_fits = match attributes.colour {
            Some(Colour::Own(origin)) => self.base == Base::Own(origin),
            Some(Colour::ByReset(preset)) => self.colour == Colour::ByReset(preset),
            _ => true,
        };
        let texture_fits = match attributes.texture {
            Some(Texture { mask: None, .. }) => self.texture.mask.is_none(),
            _ => true,
        };
        pen_fits && colour_fits && texture_fits
    }

    /// Whether a colour is current; a direct colour has to be the colour of mode 0 too.
    pub(crate) fn is_current_colour(&self, colour: Colour) -> bool
        ensures { IsTrue result ↔ AreCurrent (colour_only colour) self.now }
    {
        let in_mode = match colour {
            Colour::Direct(grb) => self.base == Base::Direct(grb),
            _ => true,
        };
        in_mode && self.colour == colour
    }

    fn is_current_ink(&self, ink: &Ink) -> bool
        ensures { IsTrue result ↔ AreCurrent (ink_attributes ink.now) self.now }
    {
        self.pel == ink.pel && self.texture == ink.texture && self.is_current_colour(ink.colour)
    }

    /// Whether all attributes that an entry holds are current, so that it needs no prelude. Builds no `Attributes`.
    pub fn is_current(&self, entry: &Entry) -> bool
        ensures { IsTrue result ↔ AreCurrent (attributes entry.now) self.now }
    {
        match entry {
            Entry::Point { pel, colour, .. } => self.pel == *pel && self.is_current_colour(*colour),
            Entry::Line { ink, .. }
            | Entry::Arc { ink, .. }
            | Entry::Rect { ink, .. }
            | Entry::Poly { ink, .. } => self.is_current_ink(ink),
            Entry::Char { hand, .. } | Entry::TextMove { hand, .. } | Entry::ToEol { hand } => {
                self.pen == hand.pen
                    && self.text.is_look(&hand.text)
                    && self.is_current_colour(hand.colour)
            }
            Entry::Blink { colour, .. }
            | Entry::BlinkEnd { colour }
            | Entry::BlinkMark { colour, .. } => self.is_current_colour(*colour),
            Entry::Field { pen, .. } | Entry::Reset { pen, .. } | Entry::Clear { pen } => {
                self.pen == *pen
            }
            Entry::Map { .. }
            | Entry::Wait(_)
            | Entry::Bell
            | Entry::Cursor(_)
            | Entry::GlyphStart(_)
            | Entry::MaskStart(_)
            | Entry::DefEnd => true,
        }
    }

    #[inline(always)]
    fn apply_colour(&mut self, colour: &Colour)
        ensures { self.new ≡ with_attributes self.old (colour_only colour.now) }
    {
        if let Colour::Direct(grb) = colour {
            self.base = Base::Direct(*grb);
        }
        self.colour = *colour;
    }

    #[inline(always)]
    pub(crate) fn apply_ink(&mut self, ink: &Ink)
        ensures { self.new ≡ with_attributes self.old (ink_attributes ink.now) }
    {
        self.pel = ink.pel;
        self.texture = ink.texture;
        self.apply_colour(&ink.colour);
    }

    /// Makes the attributes of an entry current.
    #[inline(always)]
    fn apply_attributes(&mut self, entry: &Entry)
        ensures { self.new ≡ with_attributes self.old (attributes entry.now) }
    {
        match entry {
            Entry::Point { pel, colour, .. } => {
                self.pel = *pel;
                self.apply_colour(colour);
            }
            Entry::Line { ink, .. }
            | Entry::Arc { ink, .. }
            | Entry::Rect { ink, .. }
            | Entry::Poly { ink, .. } => self.apply_ink(ink),
            Entry::Char { hand, .. } | Entry::TextMove { hand, .. } | Entry::ToEol { hand } => {
                self.pen = hand.pen;
                self.text = hand.text;
                self.apply_colour(&hand.colour);
            }
            Entry::Blink { colour, .. }
            | Entry::BlinkEnd { colour }
            | Entry::BlinkMark { colour, .. } => self.apply_colour(colour),
            Entry::Field { pen, .. } | Entry::Reset { pen, .. } | Entry::Clear { pen } => {
                self.pen = *pen;
            }
            _ => {}
        }
    }

    /// Applies RESET, with its two words, to the attributes (PROFILE.md, RESET).
    pub fn reset(&mut self, first: Word, second: Word)
        ensures { self.new ≡ reset first second self.old }
    {
        let (first, second) = (first.get(), second.get());
        let code = first / 2 % 4;
        self.pen = Pen::After;
        if first % 2 == 1 {
            self.pel = Move::zero();
        }
        if code == 1 {
            self.base = Base::Own(Origin::AfterReset);
        }
        self.colour = match code {
            1 => Colour::Own(Origin::AfterReset),
            2 => Colour::ByReset(Preset::Two),
            3 => Colour::ByReset(Preset::Three),
            _ => self.colour,
        };
        if second / 8 % 2 == 1 {
            self.texture = Texture::start();
        }
        if second % 2 == 1 {
            self.text = TextLook::start();
        }
    }
}

/// Returns the position of the pen after a rectangle: the x of its second corner and the y of its first.
#[inline]
pub fn corner(from: Point, to: Point) -> Point
    ensures { result ≡ corner from to }
{
    from.with_x_of(to)
}

impl State {
    /// Returns the state of the empty list.
    pub fn start() -> State
        ensures { result ≡ start }
    {
        State {
            drawing: Drawing::start(),
            definition: None,
            last: None,
            known: Known::new(),
        }
    }

    /// Returns a copy, which takes no memory.
    pub fn copy(&self) -> State
        ensures { result ≡ self.now }
    {
        State {
            drawing: self.drawing,
            definition: self.definition,
            last: self.last,
            known: self.known.copy(),
        }
    }

    fn may_come(&self, entry: &Entry) -> bool
        ensures { IsTrue result ↔ MayCome self.now entry.now }
    {
        match entry {
            Entry::ToEol { .. } => self.last.is_some(),
            Entry::GlyphStart(_) | Entry::MaskStart(_) => self.definition.is_none(),
            Entry::DefEnd => self.definition.is_some(),
            Entry::Map { addr, grb } => !self.known.has(*addr, *grb),
            _ => true,
        }
    }

    /// Whether the entry may come next (PROFILE.md, Which entries fit).
    pub fn fits(&self, entry: &Entry) -> bool
        ensures { IsTrue result ↔ Fits self.now entry.now }
    {
        self.drawing.attributes_fit(&entry.attributes())
            && entry.is_well_made()
            && self.may_come(entry)
    }

    /// Advances past an entry that fits.
    #[inline(always)]
    pub fn step(&mut self, entry: &Entry)
        requires { Fits self.old entry.now }
        ensures { self.new ≡ after self.old entry.now }
    {
        apply_entry(&mut self.drawing, &mut self.definition, entry);
        self.last = None;
        match entry {
            Entry::Char { set, code, .. } => {
                self.last = Some(LastChar {
                    set: *set,
                    code: *code,
                });
            }
            Entry::Map { addr, grb } => self.known.set(*addr, *grb),
            Entry::Reset { first, .. } => self.known.reset(*first),
            _ => {}
        }
    }

    /// Returns the state after an entry that fits.
    pub fn after(&self, entry: &Entry) -> State
        requires { Fits self.now entry.now }
        ensures { result ≡ after self.now entry.now }
    {
        let mut state = self.copy();
        state.step(entry);
        state
    }
}

/// Opens a definition: saves the attributes, and puts the pen at the start.
fn open_definition(drawing: &mut Drawing, definition: &mut Option<OpenDefinition>, what: Definition)
    ensures drawing { drawing.new ≡ with_pen Pen.Start drawing.old }
    ensures definition { definition.new ≡ Some (record { what = what; saved = drawing.old }) }
{
    *definition = Some(OpenDefinition {
        what,
        saved: *drawing,
    });
    drawing.pen = Pen::Start;
}

/// Makes the attributes of an entry current, and applies its effect to the attributes and the open definition.
#[inline(always)]
pub(crate) fn apply_entry(
    drawing: &mut Drawing,
    definition: &mut Option<OpenDefinition>,
    entry: &Entry,
)
    ensures drawing { drawing.new ≡ (after (record start { drawing = drawing.old; definition = definition.old }) entry.now).drawing }
    ensures definition { definition.new ≡ (after (record start { drawing = drawing.old; definition = definition.old }) entry.now).definition }
{
    drawing.apply_attributes(entry);
    match entry {
        Entry::Point { at, .. } => drawing.pen = Pen::At(*at),
        Entry::Line { to, .. } => drawing.pen = Pen::At(*to),
        Entry::Arc { points, .. } => {
            if let Some(last) = points.as_slice().last() {
                drawing.pen = Pen::At(*last);
            }
        }
        Entry::Poly { points, .. } => {
            if let Some(first) = points.as_slice().first() {
                drawing.pen = Pen::At(*first);
            }
        }
        Entry::Rect { from, to, .. } => drawing.pen = Pen::At(corner(*from, *to)),
        Entry::Char { .. }
        | Entry::TextMove { .. }
        | Entry::ToEol { .. }
        | Entry::Field { .. }
        | Entry::Clear { .. } => drawing.pen = Pen::After,
        Entry::Reset { first, second, .. } => drawing.reset(*first, *second),
        Entry::Map { addr, .. } => drawing.colour = Colour::Front(*addr),
        Entry::GlyphStart(code) => open_definition(drawing, definition, Definition::Glyph(*code)),
        Entry::MaskStart(mask) => open_definition(drawing, definition, Definition::Mask(*mask)),
        Entry::DefEnd => {
            if let Some(opened) = *definition {
                *drawing = opened.saved;
            }
            *definition = None;
        }
        _ => {}
    }
}
