//! Lists that aren't legal, which have no canonical text in either form.
use super::entries::{DOT, Sample, Shade, Spot, entries_of};
use Sample::{Bell, BlinkEnd, Blue, DefEnd, Glyph, Red, Reset};
use Spot::Start;
use nap_canon::{CanonFault, canon, canon_form1};
use std::test::Fail;

/// The component of the colours that is set.
const LIGHT: u16 = 49_152;

/// The address of the word 4 in red.
const RED: Sample = Red(1_048_576, LIGHT);

/// The address of the word 4 in blue.
const BLUE: Sample = Blue(1_048_576, LIGHT);

/// DEF DRCS.
const GLYPH: Sample = Glyph(0x41);

/// A list, and the index at which it isn't legal in both forms.
const ROWS: &[(&[Sample], usize)] = &[
    // Definitions begin before they end.
    (&[DefEnd], 0),
    (&[GLYPH], 1),
    (&[Bell, DefEnd], 1),
    // A list is illegal at its first entry that doesn't fit.
    (&[DefEnd, Bell, Bell], 0),
    (&[DOT, BlinkEnd(Shade::AfterReset), DefEnd], 1),
    (&[DOT, Bell, DefEnd], 2),
    (&[DOT, DOT, GLYPH], 3),
    // A known colour of the map isn't legal.
    (&[RED, RED], 1),
    (&[RED, BLUE, BLUE], 2),
    (&[RED, Red(2_097_152, LIGHT), RED], 2),
    (&[RED, Reset(0, 0, Start), RED], 2),
    (&[RED, Reset(1, 0, Start), RED], 2),
    (&[RED, GLYPH, RED, DefEnd], 2),
    (&[GLYPH, RED, DefEnd, RED], 3),
    (&[RED, GLYPH, BLUE, DefEnd, BLUE], 4),
    // Sixteen colours are known, each at an address of one word.
    (
        &[
            Red(0, LIGHT),
            Red(262_144, LIGHT),
            Red(524_288, LIGHT),
            Red(786_432, LIGHT),
            Red(1_048_576, LIGHT),
            Red(1_310_720, LIGHT),
            Red(1_572_864, LIGHT),
            Red(1_835_008, LIGHT),
            Red(2_097_152, LIGHT),
            Red(2_359_296, LIGHT),
            Red(2_621_440, LIGHT),
            Red(2_883_584, LIGHT),
            Red(3_145_728, LIGHT),
            Red(3_407_872, LIGHT),
            Red(3_670_016, LIGHT),
            Red(3_932_160, LIGHT),
            Red(0, LIGHT),
        ],
        16,
    ),
    (
        &[
            Red(0, LIGHT),
            Red(262_144, LIGHT),
            Red(524_288, LIGHT),
            Red(786_432, LIGHT),
            Red(1_048_576, LIGHT),
            Red(1_310_720, LIGHT),
            Red(1_572_864, LIGHT),
            Red(1_835_008, LIGHT),
            Red(2_097_152, LIGHT),
            Red(2_359_296, LIGHT),
            Red(2_621_440, LIGHT),
            Red(2_883_584, LIGHT),
            Red(3_145_728, LIGHT),
            Red(3_407_872, LIGHT),
            Red(3_670_016, LIGHT),
            Red(3_932_160, LIGHT),
            Red(4_194_304, LIGHT),
            Red(262_144, LIGHT),
        ],
        17,
    ),
];

#[test]
fn lists_that_are_not_legal_have_no_text(rt: HostRuntime) -> Result<(), Fail> {
    let alloc = rt.alloc();
    for (samples, index) in ROWS {
        let list = entries_of(alloc, samples)?;
        let faults = [canon(alloc, &list).err(), canon_form1(alloc, &list).err()];
        assert!(rt;
            faults == [Some(CanonFault::Illegal(*index)); 2],
            "of {list:?}"
        );
    }
    Ok(())
}
