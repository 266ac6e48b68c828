//! Legal lists, and others with the index at which they aren't legal.
use super::entries::{DOT, LINE, MIDDLE, QUARTER, Sample, Shade, Spot, entries_of};
use Sample::{
    Arc, Bell, Blink, BlinkEnd, BlinkMark, Clear, Cursor, DefEnd, Dot, Field, Glyph, Letter, Line,
    MaskStart, MaskedLine, Mosaic, Poly, Rect, Red, Reset, Step, ToEol, Wait,
};
use Shade::{AfterReset, AtStart, Blue, ByThree, ByTwo};
use Spot::{After, At, Start};
use nap_codes::{CursorKind, Mask, TextStep};
use nap_list::legal;
use std::test::Fail;

/// A list, and the index at which it isn't legal.
type Row = (&'static [Sample], Result<(), usize>);

const ROWS: &[Row] = &[
    // Definitions open and end.
    (&[], Ok(())),
    (&[DefEnd], Err(0)),
    (&[Glyph(0x41)], Err(1)),
    (&[MaskStart(Mask::C)], Err(1)),
    (&[Glyph(0x41), DefEnd], Ok(())),
    (&[Glyph(0x41), MaskStart(Mask::A)], Err(1)),
    (&[MaskStart(Mask::D), DefEnd, DefEnd], Err(2)),
    // A definition may have entries that hold no attributes.
    (
        &[
            MaskStart(Mask::A),
            Red(1_048_576, 49_152),
            Wait(10),
            Bell,
            Cursor(CursorKind::Steady),
            DefEnd,
        ],
        Ok(()),
    ),
    // Codes, bytes of a position and points of a shape are in range.
    (&[Glyph(0x1F)], Err(0)),
    (&[Glyph(0x20)], Err(1)),
    (&[Glyph(0x7F)], Err(1)),
    (&[Glyph(0x80)], Err(0)),
    (&[Mosaic(0x1F)], Err(0)),
    (&[Mosaic(0x20)], Ok(())),
    (&[Mosaic(0x7F)], Ok(())),
    (&[Mosaic(0x80)], Err(0)),
    (&[Step(TextStep::Aps(0x20, 0x7F), Start)], Ok(())),
    (&[Step(TextStep::Aps(0x7F, 0x20), Start)], Ok(())),
    (&[Step(TextStep::Aps(0x1F, 0x40), Start)], Err(0)),
    (&[Step(TextStep::Aps(0x80, 0x40), Start)], Err(0)),
    (&[Step(TextStep::Aps(0x40, 0x1F), Start)], Err(0)),
    (&[Step(TextStep::Aps(0x40, 0x80), Start)], Err(0)),
    (&[Arc(1)], Err(0)),
    (&[Arc(2)], Err(0)),
    (&[Arc(3)], Ok(())),
    (&[Arc(2_001)], Ok(())),
    (&[Arc(2_002)], Err(0)),
    (&[Poly(1)], Err(0)),
    (&[Poly(2)], Ok(())),
    (&[Poly(3)], Ok(())),
    (&[Poly(2_001)], Ok(())),
    (&[Poly(2_002)], Err(0)),
    // Only a character can be repeated. At the start the pen wasn't moved, and the pen of an entry is then current.
    (&[ToEol], Err(0)),
    (&[Letter(Start), ToEol], Ok(())),
    (&[Letter(Start), Bell, ToEol], Err(2)),
    (&[Letter(Start), ToEol, ToEol], Err(2)),
    (&[Letter(Start)], Ok(())),
    (&[Field(Start)], Ok(())),
    (&[Clear(Start)], Ok(())),
    (&[Reset(0, 0, Start)], Ok(())),
    (&[Letter(After)], Err(0)),
    (&[Field(After)], Err(0)),
    (&[Clear(After)], Err(0)),
    (&[Reset(0, 0, After)], Err(0)),
    (&[Letter(Start), Letter(Start)], Err(1)),
    (&[DOT, Letter(Start)], Err(1)),
    (&[DOT, Field(After)], Err(1)),
    (&[DOT, Letter(At(QUARTER))], Ok(())),
    (&[Clear(Start), Field(After)], Ok(())),
    // No RESET was before the start. The colour of an entry, also after a RESET, is then current.
    (&[DOT], Ok(())),
    (&[LINE], Ok(())),
    (&[Rect(false, QUARTER, MIDDLE, AtStart)], Ok(())),
    (&[Blink(1, AtStart)], Ok(())),
    (&[BlinkEnd(AtStart)], Ok(())),
    (&[BlinkMark(AtStart)], Ok(())),
    (&[Dot(MIDDLE, AfterReset)], Err(0)),
    (&[Line(QUARTER, MIDDLE, AfterReset)], Err(0)),
    (&[Rect(false, QUARTER, MIDDLE, AfterReset)], Err(0)),
    (&[Blink(1, AfterReset)], Err(0)),
    (&[BlinkEnd(AfterReset)], Err(0)),
    (&[BlinkMark(AfterReset)], Err(0)),
    (&[Dot(MIDDLE, Blue), DOT], Err(1)),
    (&[Reset(2, 0, Start), Dot(MIDDLE, AfterReset)], Ok(())),
    (&[Reset(2, 0, Start), Dot(MIDDLE, AfterReset), DOT], Err(2)),
    (&[Dot(MIDDLE, ByTwo)], Err(0)),
    (&[Reset(4, 0, Start), Dot(MIDDLE, ByTwo), DOT], Ok(())),
    (&[Reset(4, 0, Start), DOT, Dot(MIDDLE, ByTwo)], Err(2)),
    (&[Reset(4, 0, Start), Dot(MIDDLE, ByThree)], Err(1)),
    (&[Reset(6, 0, Start), Dot(MIDDLE, ByThree)], Ok(())),
    // A mask that was given stays, until a RESET restores it.
    (&[MaskedLine, LINE], Err(1)),
    (&[LINE, MaskedLine, MaskedLine], Ok(())),
    (&[MaskedLine, Reset(0, 0, At(MIDDLE)), LINE], Err(2)),
    (&[MaskedLine, Reset(0, 8, At(MIDDLE)), LINE], Ok(())),
    // A colour of the map that is known is no entry. A definition leaves what is known.
    (&[Red(1, 9), Red(2, 9), Red(1, 9)], Err(2)),
    (&[Red(1, 9), Red(1, 8), Red(1, 9)], Ok(())),
    (&[Red(1, 9), Red(1, 8), Red(1, 8)], Err(2)),
    (&[Red(1, 9), Red(1, 9), Red(1, 8)], Err(1)),
    (
        &[Red(1, 9), Glyph(0x41), Red(2, 9), DefEnd, Red(2, 9)],
        Err(4),
    ),
    (&[Red(1, 9), Glyph(0x41), Red(1, 9)], Err(2)),
];

#[test]
fn lists_are_legal_up_to_an_entry(rt: HostRuntime) -> Result<(), Fail> {
    let alloc = rt.alloc();
    for (samples, want) in ROWS {
        let entries = entries_of(alloc, samples)?;
        assert!(rt; legal(&entries) == *want, "{entries:?}");
    }
    Ok(())
}
