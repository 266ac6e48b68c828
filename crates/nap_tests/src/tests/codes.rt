//! A lexer after a fault, the texts of faults, and the ends of the tables.
use nap_codes::{
    Code, CodeFault, CodeSet, FIRST_OPCODE, Left, Lexer, Opcode, Row, Step, control0, control1,
    designate, opcode_of,
};
use std::test::Fail;

#[test]
fn a_lexer_continues_after_a_fault(rt: HostRuntime) {
    let mut lexer = Lexer::default();
    let answers = [
        lexer.step(0x1B) == Step::More && !lexer.at_rest(),
        lexer.step(0x30) == Step::Fault(CodeFault::BadEscape) && !lexer.at_rest(),
        lexer.step(0x45) == Step::Code(Code::End) && lexer.at_rest(),
    ];
    assert!(rt; answers == [true; 3]);
}

const FAULTS: &[(CodeFault, &str)] = &[
    (CodeFault::EighthBit, "a byte has its eighth bit set"),
    (CodeFault::BadEscape, "unknown escape sequence"),
    (CodeFault::BadArgument, "an argument is out of range"),
    (
        CodeFault::LeftOut(Left::Deft),
        "DEFT MACRO is not supported",
    ),
    (CodeFault::LeftOut(Left::Nsr), "NSR is not supported"),
];

#[test]
fn faults_tell_what_is_wrong(rt: HostRuntime) -> Result<(), Fail> {
    for (fault, want) in FAULTS {
        let text = format!(in rt.alloc(); "{fault}")?;
        assert!(rt; text.as_str() == *want, "{text}");
    }
    Ok(())
}

#[test]
fn tables_end_where_the_standard_does(rt: HostRuntime) {
    let answers = [
        control0(0x07) == Some(Row::Whole(Code::Bell)),
        control0(0x20) == None,
        control1(0x5F) == Some(Row::Out(Left::Unprotect)),
        control1(0x60) == None,
        opcode_of(0x3F) == Some(Opcode::Blink),
        opcode_of(0x40) == None,
        designate(0x2D, 0x7B) == Some((1, CodeSet::Drcs)),
        designate(0x2D, 0x41) == None,
    ];
    assert!(rt; answers == [true; 8]);
}

#[test]
fn opcodes_follow_in_their_order(rt: HostRuntime) {
    for byte in 0x20..0x40 {
        let follows = match opcode_of(byte) {
            Some(op) => FIRST_OPCODE.wrapping_add(op as u8) == byte,
            None => false,
        };
        assert!(rt; follows, "{byte}");
    }
}
