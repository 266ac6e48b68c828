//! The states that entries leave.
use super::entries::{DOT, LINE, MIDDLE, QUARTER, Sample, Shade, Spot, entries_of, entry_of};
use super::samples::{address, at, blue, look, reset, size, word};
use Sample::{
    Arc, Bell, Blink, BlinkEnd, BlinkMark, Clear, Cursor, DefEnd, Dot, Field, Glyph, Letter,
    MaskStart, Poly, Rect, Red, Reset, Step, Wait, WideDot,
};
use Shade::{AtStart, ByTwo};
use Spot::{After, At, Start};
use nap_codes::{CursorKind, Mask, Size, TextStep};
use nap_list::{Base, CharSize, Colour, Drawing, Known, Origin, Pen, State, TextLook, Texture};
use nap_values::{Grb, Move, Word};
use std::alloc::{AllocError, Global};
use std::test::Fail;

/// The pen that an entry leaves at the start.
const PENS: &[(Sample, Spot)] = &[
    // A shape's.
    (DOT, At(MIDDLE)),
    (LINE, At(MIDDLE)),
    (Arc(3), At(MIDDLE)),
    (Rect(false, QUARTER, MIDDLE, AtStart), At((4, 1))),
    (Poly(3), At(QUARTER)),
    // Known to a terminal alone.
    (Letter(Start), After),
    (Step(TextStep::Apr, At(MIDDLE)), After),
    (Field(At(QUARTER)), After),
    (Reset(0, 0, Start), After),
    (Clear(Start), After),
    // Unchanged, since nothing is drawn.
    (Red(1_048_576, 49_152), Start),
    (Blink(1, AtStart), Start),
    (BlinkEnd(AtStart), Start),
    (BlinkMark(AtStart), Start),
    (Wait(10), Start),
    (Bell, Start),
    (Cursor(CursorKind::Off), Start),
    (MaskStart(Mask::B), Start),
];

/// Returns the state after these entries, if each fits.
fn left_by(alloc: Global, samples: &[Sample]) -> Result<Option<State>, AllocError> {
    let mut state = State::start();
    for entry in &entries_of(alloc, samples)? {
        if !state.fits(entry) {
            return Ok(None);
        }
        state.step(entry);
    }
    Ok(Some(state))
}

#[test]
fn entries_leave_the_pen(rt: HostRuntime) -> Result<(), Fail> {
    let alloc = rt.alloc();
    let start = State::start();
    for (sample, want) in PENS {
        let entry = entry_of(alloc, *sample)?;
        let fits = start.fits(&entry);
        assert!(rt; fits);
        let pen = start.after(&entry).drawing.pen;
        assert!(rt; pen == want.pen(), "{entry:?}");
    }
    Ok(())
}

/// Returns the state at the start with this drawing and these known colours.
fn state(drawing: Drawing, known: Known) -> State {
    State {
        drawing,
        definition: None,
        last: None,
        known,
    }
}

// The end of a definition restores the attributes. A new colour of the map is selected.
#[test]
fn entries_leave_a_state(rt: HostRuntime) -> Result<(), Fail> {
    let alloc = rt.alloc();
    let defined = left_by(
        alloc,
        &[
            Dot(MIDDLE, Shade::Blue),
            Glyph(0x41),
            Reset(3, 9, Start),
            DefEnd,
        ],
    )?;
    let after_definition = Drawing {
        pen: Pen::At(at(MIDDLE)),
        base: Base::Direct(blue()),
        colour: Colour::Direct(blue()),
        ..Drawing::start()
    };
    let mapped = left_by(alloc, &[Red(1_048_576, 49_152)])?;
    let after_map = Drawing {
        colour: Colour::Front(address(1_048_576)),
        ..Drawing::start()
    };
    let mut known = Known::new();
    known.set(address(1_048_576), Grb::new(0, 49_152, 0));
    let found = [
        defined == Some(state(after_definition, Known::new())),
        mapped == Some(state(after_map, known)),
    ];
    assert!(rt; found == [true; 2]);
    Ok(())
}

/// Returns attributes none of which is that of the start.
fn changed() -> Drawing {
    Drawing {
        pen: Pen::At(at(MIDDLE)),
        pel: size(65_536, -65_536),
        base: Base::Direct(blue()),
        colour: Colour::Front(address(1_048_576)),
        texture: Texture {
            word: word(5),
            mask: Some(size(131_072, 131_072)),
        },
        text: TextLook {
            first: word(9),
            second: word(1),
            size: CharSize::Named(Size::Double),
            reverse: true,
            underline: true,
            wrap: true,
            scroll: true,
        },
    }
}

/// Returns what a RESET leaves of these attributes.
fn after_reset(first: u8, second: u8) -> Option<Drawing> {
    let state = state(changed(), Known::new());
    let entry = reset(first, second, Pen::At(at(MIDDLE)));
    if !state.fits(&entry) {
        return None;
    }
    Some(state.after(&entry).drawing)
}

/// Returns the attributes with the pen moved.
fn moved() -> Drawing {
    Drawing {
        pen: Pen::After,
        ..changed()
    }
}

/// Returns the attributes with the pen moved, and this colour.
fn chosen(colour: Colour) -> Drawing {
    Drawing { colour, ..moved() }
}

#[test]
fn a_reset_puts_back_what_its_bits_name(rt: HostRuntime) {
    let pel = Drawing {
        pel: Move::zero(),
        ..moved()
    };
    let text = Drawing {
        text: look(Size::Normal),
        ..moved()
    };
    let texture = Texture {
        word: Word::ZERO,
        mask: None,
    };
    let texture = Drawing { texture, ..moved() };
    let left = [after_reset(1, 0), after_reset(0, 1), after_reset(0, 8)];
    let puts_back = left == [Some(pel), Some(text), Some(texture)];
    // Other bits only move the pen.
    let left = [after_reset(0, 0), after_reset(0x38, 0x36)];
    assert!(rt; puts_back && left == [Some(moved()); 2]);
}

#[test]
fn a_reset_chooses_colours_by_its_code(rt: HostRuntime) {
    let own = Drawing {
        base: Base::Own(Origin::AfterReset),
        ..chosen(Shade::AfterReset.colour())
    };
    let (two, three) = (
        chosen(Shade::ByTwo.colour()),
        chosen(Shade::ByThree.colour()),
    );
    let left = [after_reset(2, 0), after_reset(4, 0), after_reset(6, 0)];
    assert!(rt; left == [Some(own), Some(two), Some(three)]);
}

/// Whether the attributes of an entry are those of the start.
const CURRENT: &[(Sample, bool)] = &[
    (DOT, true),
    (LINE, true),
    (Letter(Start), true),
    (Clear(Start), true),
    (Bell, true),
    (Dot(MIDDLE, ByTwo), false),
    (WideDot, false),
    (Letter(After), false),
];

#[test]
fn attributes_are_current_if_each_is_equal(rt: HostRuntime) -> Result<(), Fail> {
    for (sample, want) in CURRENT {
        let entry = entry_of(rt.alloc(), *sample)?;
        assert!(rt; Drawing::start().is_current(&entry) == *want, "{entry:?}");
    }
    Ok(())
}
