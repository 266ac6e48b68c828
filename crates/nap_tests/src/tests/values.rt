//! The displacements between points, and the ends of the ranges of values.
use super::entries::MIDDLE;
use super::samples::{at, point, size, word};
use nap_values::{
    Addr, Domain, Grb, Move, Point, Word, colour, colour_bytes, multi, multi_bytes, single,
    single_bytes,
};

#[test]
fn ways_between_points(rt: HostRuntime) {
    let (middle, corner) = (at(MIDDLE), point(8_388_607, 0));
    let found = [
        middle.to(corner) == size(4_194_303, -4_194_304),
        middle.by(size(4_194_303, -4_194_304)) == Some(corner),
        middle.by(size(4_194_304, 0)) == None,
        middle.by(size(0, -4_194_305)) == None,
        size(4_194_304, 4_194_304).point() == Some(middle),
        size(1, -1).point() == None,
    ];
    assert!(rt; found == [true; 6]);
}

#[test]
fn bytes_carry_words(rt: HostRuntime) {
    let words = [word(9), word(0), word(63), word(34)];
    for bytes in [
        b"\x49\x40\x7f\x62",
        b"\x09\x00\x3f\x22",
        b"\xc9\x80\xff\xe2",
    ] {
        let found = [
            multi_bytes(bytes) == multi(&words, 4),
            colour_bytes(bytes) == colour(&words, 4),
            single_bytes(bytes) == single(&words, 4),
            multi_bytes(&bytes[..3]) == multi(&words[..3], 3),
        ];
        assert!(rt; found == [true; 4]);
    }
}

#[test]
fn ends_of_ranges(rt: HostRuntime) {
    let small = [
        Word::try_new(63).map(Word::get),
        Word::try_new(64).map(Word::get),
        Domain::try_new(8, 1).map(Domain::multi),
        Domain::try_new(9, 1).map(Domain::multi),
        Domain::try_new(0, 1).map(Domain::multi),
        Domain::try_new(1, 4).map(Domain::single),
        Domain::try_new(1, 5).map(Domain::single),
        Domain::try_new(1, 0).map(Domain::single),
    ];
    let large = [
        Addr::try_new(16_777_215).map(Addr::get),
        Addr::try_new(16_777_216).map(Addr::get),
        Point::try_new(8_388_607, 0).map(Point::x),
        Point::try_new(0, 8_388_608).map(Point::x),
    ];
    let signed = [
        Move::try_new(0, -8_388_608).map(Move::y),
        Move::try_new(-8_388_609, 0).map(Move::y),
        Move::try_new(8_388_607, 0).map(Move::x),
        Move::try_new(0, 8_388_608).map(Move::x),
    ];
    let found = [
        small == [Some(63), None, Some(8), None, None, Some(4), None, None],
        large == [Some(16_777_215), None, Some(8_388_607), None],
        signed == [Some(-8_388_608), None, Some(8_388_607), None],
        Grb::try_new(0, 65_535, 0) == Some(Grb::new(0, 65_535, 0)),
        Grb::try_new(0, 0, 65_536) == None,
    ];
    assert!(rt; found == [true; 5]);
}
