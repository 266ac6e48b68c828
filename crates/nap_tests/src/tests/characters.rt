//! The bytes that are characters by themselves: those of the set in GL, and none inside a code.
use super::rows::{bytes_of, parted};
use nap_codes::Lexer;
use std::test::Fail;

/// Bytes; and after them the set in GL, whether no code is open, and the set of the characters.
///
/// `-` is no byte. First come sets in G0, and sets in G2 that are shifted into GL. A single shift leaves GL unchanged. Bytes
/// inside a code come last.
const ROWS: &str = "\
1b2842 | Primary true Some(Primary)\n\
1b287c | Supplementary true Some(Supplementary)\n\
1b2857 | Pdi true None\n\
1b287d | Mosaic true Some(Mosaic)\n\
1b287a | Macros true None\n\
1b287b | Drcs true Some(Drcs)\n\
1b2a421b6e | Primary true Some(Primary)\n\
1b2a7c1b6e | Supplementary true Some(Supplementary)\n\
1b2a571b6e | Pdi true None\n\
1b2a7d1b6e | Mosaic true Some(Mosaic)\n\
1b2a7a1b6e | Macros true None\n\
1b2a7b1b6e | Drcs true Some(Drcs)\n\
- | Primary true Some(Primary)\n\
0e | Pdi true None\n\
0e0f | Primary true Some(Primary)\n\
1941 | Primary true Some(Primary)\n\
1b | Primary false None\n\
1b40 | Primary false None\n\
1b41 | Primary false None\n\
1b43 | Primary false None\n\
1b44 | Primary false None\n\
1b46 | Primary false None\n\
1b28 | Primary false None\n\
1b2820 | Primary false None\n\
19 | Primary false None\n\
1b2a5719 | Primary false None\n\
1d | Primary false None\n\
1c | Primary false None\n\
1c40 | Primary false None";

/// Returns a lexer that has read these bytes.
fn lexer_after(bytes: &[u8]) -> Lexer {
    let mut lexer = Lexer::new();
    for byte in bytes {
        lexer.step(*byte);
    }
    lexer
}

/// Whether each byte of a G set is a character of the lexer's set, or of none, and no other byte is one.
fn are_characters(lexer: &Lexer) -> bool {
    for byte in 0x00..=0xFF_u8 {
        let set = if matches!(byte, 0x20..0x80) {
            lexer.char_set()
        } else {
            None
        };
        if lexer.char_set_of_byte(byte) != set {
            return false;
        }
    }
    true
}

#[test]
fn characters_are_those_of_the_set_in_gl(rt: HostRuntime) -> Result<(), Fail> {
    let alloc = rt.alloc();
    for row in ROWS.lines() {
        let (bytes, want) = parted(row);
        let lexer = lexer_after(&bytes_of(alloc, bytes));
        let sets = lexer.sets();
        let (set, rest, characters) = (sets.set_at(sets.gl), lexer.at_rest(), lexer.char_set());
        let came = format!(in alloc; "{set:?} {rest} {characters:?}")?;
        let agrees = came.as_str() == want && are_characters(&lexer);
        assert!(rt; agrees, "{came}, of {row}");
    }
    Ok(())
}
