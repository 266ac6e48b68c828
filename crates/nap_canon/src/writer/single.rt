//! Points, characters and colours of the map that are written one by one.
ghost use Rattle.nap_canon.specs.Names.{Fits};
ghost use Rattle.nap_canon.specs.Writing.{Puts};

use crate::byte_sink::ByteSink;
use crate::current::step_to;
use crate::writer::Writer;
use nap_codes::CharSet;
use nap_list::{Colour, Entry, Hand, Ink, Pen, corner};
use nap_values::{Addr, Grb, Move, Point};

impl<T: ByteSink + Drop> Writer<T> {
    /// Writes a point that fits, as `put_ref` writes its entry.
    #[inline(never)]
    pub(super) fn put_point(
        &mut self,
        at: Point,
        pel: &Move,
        colour: &Colour,
    ) -> Result<(), T::Fault>
        requires { Fits self.old.state (Entry.Point at pel.now colour.now) }
        ensures { Puts T.sent (Entry.Point at pel.now colour.now) self.old self.new result }
    {
        self.pending.bytes.clear();
        let is_current = self
            .pending
            .append_point_prelude(self.state.drawing(), pel, colour);
        self.pending.append_point(self.form, at);
        self.target.write_all(self.pending.bytes.as_slice())?;
        let entry = Entry::Point {
            at,
            pel: *pel,
            colour: *colour,
        };
        step_to(&mut self.state, Pen::At(at), &entry, is_current);
        Ok(())
    }

    /// Writes a character that fits, as `put_ref` writes its entry.
    #[inline(never)]
    pub(super) fn put_char(&mut self, set: CharSet, code: u8, hand: &Hand) -> Result<(), T::Fault>
        requires { Fits self.old.state (Entry.Char set code hand.now) }
        ensures { Puts T.sent (Entry.Char set code hand.now) self.old self.new result }
    {
        self.pending.bytes.clear();
        let is_current = self.pending.append_hand_prelude(self.state.drawing(), hand);
        self.pending.character(set, code);
        self.target.write_all(self.pending.bytes.as_slice())?;
        let entry = Entry::Char {
            set,
            code,
            hand: *hand,
        };
        step_to(&mut self.state, Pen::After, &entry, is_current);
        Ok(())
    }

    /// Writes a colour of the map that fits, as `put_ref` writes its entry.
    #[inline(never)]
    pub(super) fn put_map(&mut self, addr: Addr, grb: Grb) -> Result<(), T::Fault>
        requires { Fits self.old.state (Entry.Map addr grb) }
        ensures { Puts T.sent (Entry.Map addr grb) self.old self.new result }
    {
        self.pending.bytes.clear();
        self.pending.append_map(self.state.drawing(), addr, grb);
        self.target.write_all(self.pending.bytes.as_slice())?;
        self.state.step(&Entry::Map { addr, grb });
        Ok(())
    }

    /// Writes a line that fits, as `put_ref` writes its entry.
    #[inline(never)]
    pub(super) fn put_line(&mut self, from: Point, to: Point, ink: &Ink) -> Result<(), T::Fault>
        requires { Fits self.old.state (Entry.Line from to ink.now) }
        ensures { Puts T.sent (Entry.Line from to ink.now) self.old self.new result }
    {
        self.pending.bytes.clear();
        let is_current = self.pending.append_ink_prelude(self.state.drawing(), ink);
        self.pending
            .append_line(self.form, self.state.drawing().pen, from, to);
        self.target.write_all(self.pending.bytes.as_slice())?;
        let entry = Entry::Line {
            from,
            to,
            ink: *ink,
        };
        step_to(&mut self.state, Pen::At(to), &entry, is_current);
        Ok(())
    }

    /// Writes a rectangle that fits, as `put_ref` writes its entry.
    #[inline(never)]
    pub(super) fn put_rect(
        &mut self,
        filled: bool,
        from: Point,
        to: Point,
        ink: &Ink,
    ) -> Result<(), T::Fault>
        requires { Fits self.old.state (Entry.Rect filled from to ink.now) }
        ensures { Puts T.sent (Entry.Rect filled from to ink.now) self.old self.new result }
    {
        self.pending.bytes.clear();
        let is_current = self.pending.append_ink_prelude(self.state.drawing(), ink);
        self.pending.append_rect(self.form, filled, from, to);
        self.target.write_all(self.pending.bytes.as_slice())?;
        let entry = Entry::Rect {
            filled,
            from,
            to,
            ink: *ink,
        };
        step_to(
            &mut self.state,
            Pen::At(corner(from, to)),
            &entry,
            is_current,
        );
        Ok(())
    }
}
