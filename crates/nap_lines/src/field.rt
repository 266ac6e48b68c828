//! The fields of a line, each prepended to what is there (PROFILE.md, Lines of list).
ghost use Rattle.std.specs.Prelude.{◌≡◌, ◌+◌, ◌*◌, ◌≤◌, ◌++◌, codes, decimal, length};
ghost use Rattle.nap_lines.specs.Lines.{point_text, points_text, move_text, grb_text, colour_text, pen_text, size_text, flag_text, look_text, hand_text, fill_text};
ghost use Rattle.std.specs.Str.{IsUtf8};
ghost use Rattle.nap_lines.specs.Batches.{hand_text_without_pen};
ghost use Rattle.nap_lines.specs.Writing.{Pushes, line_limit};

use crate::backward_buffer::{BackwardBuffer, CopiedText};
use nap_codes::Size;
use nap_list::{CharSize, Colour, Hand, Origin, Pen, Preset, TextLook};
use nap_values::{Addr, Grb, Move, Point, Word};

/// The most points that are prepended at once.
pub(crate) const POINTS_AT_ONCE: usize = 8;

impl BackwardBuffer {
    /// Prepends the number of a word.
    pub(crate) fn push_word(&mut self, word: Word)
        requires space { length self.old + 10 ≤ line_limit }
        ensures { Pushes 10 (decimal word) self.old self.new }
    {
        self.push_number(u32::from(word.get()));
    }

    /// Prepends the number of an address.
    pub(crate) fn push_addr(&mut self, addr: Addr)
        requires space { length self.old + 10 ≤ line_limit }
        ensures { Pushes 10 (decimal addr) self.old self.new }
    {
        self.push_number(addr.get());
    }

    /// Prepends a point.
    pub(crate) fn push_point(&mut self, point: Point)
        requires space { length self.old + 21 ≤ line_limit }
        ensures text { self.new ≡ point_text point ++ self.old }
        ensures size { length self.new ≤ length self.old + 21 }
        ensures utf8 { IsUtf8 (point_text point) }
        ensures few { length (point_text point) ≤ 15 }
    {
        self.push_number(point.y());
        self.push(",");
        self.push_number(point.x());
    }

    /// Prepends points, each after a space.
    pub(crate) fn push_points(&mut self, points: &[Point])
        requires few { length points.now ≤ 8 }
        requires space { length self.old + 133 ≤ line_limit }
        ensures text { self.new ≡ points_text points.now ++ self.old }
        ensures size { length self.new ≤ 16 * length points.now + length self.old }
    {
        for i in 0..points.len() {
            self.push_point(points[points.len() - 1 - i]);
            self.push(" ");
        }
    }

    /// Prepends a point, and returns a copy of its text.
    #[inline(always)]
    pub(crate) fn push_point_copied(&mut self, point: Point) -> CopiedText
        requires space { length self.old + 24 ≤ line_limit }
        ensures text { self.new ≡ point_text point ++ self.old }
        ensures size { length self.new ≡ length result + length self.old }
        ensures kept { result ≡ point_text point }
        ensures few { length result ≤ 15 }
    {
        let end = self.len();
        self.push_point(point);
        self.copy_of_first(self.len() - end)
    }

    /// Prepends a displacement or a size.
    pub(crate) fn push_displacement(&mut self, size: Move)
        requires space { length self.old + 23 ≤ line_limit }
        ensures { Pushes 23 (move_text size) self.old self.new }
    {
        self.push_signed(size.y());
        self.push(",");
        self.push_signed(size.x());
    }

    /// Prepends the components of a colour.
    pub(crate) fn push_grb(&mut self, grb: Grb)
        requires space { length self.old + 32 ≤ line_limit }
        ensures { Pushes 32 (grb_text grb) self.old self.new }
    {
        self.push_number(u32::from(grb.b()));
        self.push(",");
        self.push_number(u32::from(grb.r()));
        self.push(",");
        self.push_number(u32::from(grb.g()));
    }

    /// Prepends a colour.
    pub(crate) fn push_colour(&mut self, colour: &Colour)
        requires space { length self.old + 39 ≤ line_limit }
        ensures { Pushes 39 (colour_text colour.now) self.old self.new }
    {
        match colour {
            Colour::Own(Origin::AtStart) => self.push("own-start"),
            Colour::Own(Origin::AfterReset) => self.push("own-reset"),
            Colour::Direct(grb) => {
                self.push_grb(*grb);
                self.push("direct:");
            }
            Colour::Front(addr) => {
                self.push_addr(*addr);
                self.push("front:");
            }
            Colour::Pair(front, back) => {
                self.push_addr(*back);
                self.push(",");
                self.push_addr(*front);
                self.push("pair:");
            }
            Colour::ByReset(Preset::Two) => self.push("reset-2"),
            Colour::ByReset(Preset::Three) => self.push("reset-3"),
        }
    }

    /// Prepends the field `colour=`, which ends the line of an entry.
    pub(crate) fn push_colour_field(&mut self, colour: &Colour)
        requires space { length self.old + 47 ≤ line_limit }
        ensures { Pushes 47 (codes " colour=" ++ colour_text colour.now) self.old self.new }
    {
        self.push_colour(colour);
        self.push(" colour=");
    }

    /// Prepends a pen.
    pub(crate) fn push_pen(&mut self, pen: Pen)
        requires space { length self.old + 21 ≤ line_limit }
        ensures { Pushes 21 (pen_text pen) self.old self.new }
    {
        match pen {
            Pen::Start => self.push("start"),
            Pen::At(point) => self.push_point(point),
            Pen::After => self.push("after"),
        }
    }

    /// Prepends the size of a character.
    pub(crate) fn push_char_size(&mut self, size: &CharSize)
        requires space { length self.old + 23 ≤ line_limit }
        ensures { Pushes 23 (size_text size.now) self.old self.new }
    {
        match size {
            CharSize::Named(Size::Small) => self.push("small"),
            CharSize::Named(Size::Medium) => self.push("medium"),
            CharSize::Named(Size::Normal) => self.push("normal"),
            CharSize::Named(Size::Tall) => self.push("tall"),
            CharSize::Named(Size::Double) => self.push("double"),
            CharSize::Given(size) => self.push_displacement(*size),
        }
    }

    /// Prepends the text attributes.
    pub(crate) fn push_look(&mut self, look: &TextLook)
        requires space { length self.old + 50 ≤ line_limit }
        ensures { Pushes 50 (look_text look.now) self.old self.new }
    {
        self.push(flag(look.scroll, "s"));
        self.push(flag(look.wrap, "w"));
        self.push(flag(look.underline, "u"));
        self.push(flag(look.reverse, "r"));
        self.push("/");
        self.push_char_size(&look.size);
        self.push("/");
        self.push_word(look.second);
        self.push(",");
        self.push_word(look.first);
    }

    /// Prepends the part HAND without its pen.
    pub(crate) fn push_hand_without_pen(&mut self, hand: &Hand)
        requires space { length self.old + 103 ≤ line_limit }
        ensures { Pushes 103 (hand_text_without_pen hand.now) self.old self.new }
    {
        self.push_look(&hand.text);
        self.push(" text=");
        self.push_colour_field(&hand.colour);
    }

    /// Prepends the part HAND: pen, colour and text attributes.
    pub(crate) fn push_hand(&mut self, hand: &Hand)
        requires space { length self.old + 128 ≤ line_limit }
        ensures { Pushes 128 (hand_text hand.now) self.old self.new }
    {
        self.push_hand_without_pen(hand);
        self.push_pen(hand.pen);
        self.push("pen=");
    }
}

/// Returns the letter of a flag that is on, or `-`.
fn flag(on: bool, letter: &'static str) -> &'static str
    requires { length letter.now ≡ 1 }
    ensures text { result.now ≡ flag_text on letter.now }
    ensures size { length result.now ≡ 1 }
{
    if on { letter } else { "-" }
}

/// Returns the part of a name that says whether a shape is filled.
pub(crate) fn fill_name(filled: bool) -> &'static str
    ensures text { result.now ≡ fill_text filled }
    ensures size { length result.now ≤ 8 }
{
    if filled { "FILLED" } else { "OUTLINED" }
}
