//! The working state of codes, and the effects of an opcode (PROFILE.md, Opcodes).
ghost use Rattle.std.specs.Prelude.{Ok, [], ◌<◌, ◌∷◌, ◌≡◌};
ghost use Rattle.nap_draw.specs.Names.{StatesAgree, after, hand_of};
ghost use Rattle.nap_draw.specs.Rule.{start_work, pen_point, rule_result};
ghost use Rattle.nap_draw.specs.Execution.{MayFollow, AppliesControl, PutsList, with_pen_moved_to, with_pen_moved};

use crate::fault::{DrawFault, Drawn};
use nap_list::{Entry, Hand, Pen, Sink, SinkFault, State};
use nap_values::{Domain, Point};

/// The working state of codes: what codes depend on and change. It may be ahead of the state that the entries leave.
#[derive(PartialEq, Eq, Drop)]
pub struct Work {
    /// The operand lengths (PROFILE.md, DOMAIN).
    pub domain: Domain,
    /// The state, with attributes that no entry need have shown yet.
    pub state: State,
    /// The operand lengths that the end of the open definition restores.
    pub saved: Domain,
}

/// The effects of an opcode.
#[derive(PartialEq, Eq, Drop)]
pub struct Effects {
    /// The work after it.
    pub work: Work,
    /// Whether all macros are cleared, which only RESET does.
    pub clears: bool,
}

/// The greatest number of operand words of one opcode (PROFILE.md, Limits).
pub const RUN_LIMIT: usize = 16_384;

impl Work {
    /// Returns the work at the start of a stream (PROFILE.md, The drawing state).
    pub fn start() -> Work
        ensures { result ≡ start_work }
    {
        Work {
            domain: Domain::START,
            state: State::start(),
            saved: Domain::START,
        }
    }

    /// Returns a copy.
    pub fn copy(&self) -> Work
        ensures { result ≡ self.now }
    {
        Work {
            domain: self.domain,
            state: self.state.copy(),
            saved: self.saved,
        }
    }

    /// Returns the attributes for text.
    pub(crate) fn hand(&self) -> Hand
        ensures { result ≡ hand_of self.now.state.drawing }
    {
        self.state.drawing.hand()
    }

    /// Returns the point of the pen, or PenUnknown.
    pub(crate) fn pen_point(&self) -> Result<Point, DrawFault>
        ensures { result ≡ pen_point self.now.state.drawing.pen }
    {
        match self.state.drawing.pen {
            Pen::At(point) => Ok(point),
            Pen::Start => Ok(Point::origin()),
            Pen::After => Err(DrawFault::PenUnknown),
        }
    }

    /// Moves the pen to the point, if there is one, after an entry that was put.
    pub(crate) fn move_pen_to(&mut self, point: Option<Point>)
        ensures { self.new ≡ record self.old { state = with_pen_moved_to self.old.state point } }
    {
        if let Some(point) = point {
            self.state.drawing.pen = Pen::At(point);
            self.state.last = None;
        }
    }

    /// Puts an entry that holds current attributes.
    #[inline(always)]
    pub(crate) fn put<S: Sink>(&self, entry: Entry, sink: &mut S) -> Result<(), SinkFault>
        requires agrees { StatesAgree self.now.state (S.state sink.old) }
        requires follows { MayFollow self.now.state entry }
        ensures { PutsList S.Sink (entry ∷ []) sink.old sink.new result }
    {
        sink.put(entry)
    }

    /// Puts an entry that holds current attributes, and sets the pen.
    #[inline(always)]
    pub(crate) fn put_and_set_pen<S: Sink>(&mut self, entry: Entry, pen: Pen, sink: &mut S) -> Drawn
        requires agrees { StatesAgree self.old.state (S.state sink.old) }
        requires follows { MayFollow self.old.state entry }
        requires leaves { after self.old.state entry ≡ with_pen_moved self.old.state pen }
        ensures { AppliesControl S.Sink (Ok (rule_result self.old (entry ∷ []))) self.old self.new sink.old sink.new result }
    {
        self.put(entry, sink)?;
        self.state.drawing.pen = pen;
        self.state.last = None;
        Ok(())
    }
}
