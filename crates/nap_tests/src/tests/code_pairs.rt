//! How often each code and each fault comes on all pairs of bytes, by another reading of the standard.
use nap_codes::{Code, CodeFault, Lexer, Step};
use nap_values::Word;
use std::alloc::{AllocError, Global};
use std::test::Fail;

/// A code or a fault, or none if the bytes end inside a code.
type Answer = Option<Result<Code, CodeFault>>;

/// How often an answer comes on pairs alone, after `0E` and after `1B`, and the sum of the bytes that spell it.
#[derive(Drop)]
struct Tally {
    answer: Answer,
    times: [u32; 3],
    bytes: u32,
}

impl Tally {
    fn count(&mut self, column: usize, spelled: u32) {
        if let Some(times) = self.times.get_mut(column) {
            *times = times.saturating_add(1);
        }
        self.bytes = self.bytes.saturating_add(spelled);
    }

    fn row(&self, alloc: Global) -> Result<String, AllocError> {
        format!(in alloc; "{:?} | {:?} | {}", self.answer, self.times, self.bytes)
    }
}

/// Counts an answer.
fn take(
    tallies: &mut Vec<Tally>,
    answer: Answer,
    column: usize,
    spelled: u32,
) -> Result<(), AllocError> {
    for tally in &mut *tallies {
        if tally.answer == answer {
            tally.count(column, spelled);
            return Ok(());
        }
    }
    let mut tally = Tally {
        answer,
        times: [0; 3],
        bytes: 0,
    };
    tally.count(column, spelled);
    tallies.push(tally)?;
    Ok(())
}

/// Returns the code as which this one is counted: one byte stands for all of its range.
fn kind(code: Code) -> Code {
    match code {
        Code::Char(set, _) => Code::Char(set, 0),
        Code::Operand(_) => Code::Operand(Word::ZERO),
        Code::DefMacro { show, .. } => Code::DefMacro { name: 0, show },
        Code::DefGlyph(_) => Code::DefGlyph(0),
        Code::Repeat(_) => Code::Repeat(Word::ZERO),
        _ => code,
    }
}

/// Counts the answers on these bytes, up to a fault.
fn count(tallies: &mut Vec<Tally>, column: usize, bytes: &[u8]) -> Result<(), AllocError> {
    let mut lexer = Lexer::new();
    let mut spelled: u32 = 0;
    for byte in bytes {
        spelled = spelled.saturating_add(u32::from(*byte));
        match lexer.step(*byte) {
            Step::More => {}
            Step::Code(code) => {
                take(tallies, Some(Ok(kind(code))), column, spelled)?;
                spelled = 0;
            }
            Step::Fault(fault) => return take(tallies, Some(Err(fault)), column, spelled),
        }
    }
    if !lexer.at_rest() {
        take(tallies, None, column, 0)?;
    }
    Ok(())
}

/// The columns of a tally, the byte before the pair, and the index of the first byte that is read.
const COLUMNS: [(usize, u8, usize); 3] = [(0, 0, 1), (1, 0x0E, 0), (2, 0x1B, 0)];

#[test]
fn pairs_of_bytes_count_as_the_standard_has_them(rt: HostRuntime) -> Result<(), Fail> {
    let alloc = rt.alloc();
    let mut tallies = Vec::new(alloc);
    for pair in 0..=u16::MAX {
        let [first, second] = pair.to_be_bytes();
        for (column, front, from) in COLUMNS {
            count(&mut tallies, column, &[front, first, second][from..])?;
        }
    }
    let mut left = tallies.len();
    for row in ROWS.lines() {
        assert!(rt; has(alloc, &tallies, row)?, "{row}");
        left = left.wrapping_sub(1);
    }
    assert!(rt; left == 0);
    Ok(())
}

/// Whether one of the tallies is this row's.
fn has(alloc: Global, tallies: &[Tally], row: &str) -> Result<bool, AllocError> {
    for tally in tallies {
        if tally.row(alloc)?.as_str() == row {
            return Ok(true);
        }
    }
    Ok(false)
}

/// An answer, how often it comes on pairs alone, after `0E` and after `1B`, and the sum of the bytes that spell it.
const ROWS: &str = "\
Some(Ok(Char(Primary, 0))) | [36096, 96, 2016] | 3037536\n\
Some(Ok(Char(Supplementary, 0))) | [96, 96, 96] | 27696\n\
Some(Ok(Char(Mosaic, 0))) | [96, 96, 96] | 28464\n\
Some(Ok(Op(Reset))) | [1, 373, 0] | 11968\n\
Some(Ok(Op(Domain))) | [1, 373, 0] | 12342\n\
Some(Ok(Op(Text))) | [1, 373, 0] | 12716\n\
Some(Ok(Op(Texture))) | [1, 373, 0] | 13090\n\
Some(Ok(Op(PointSetAbs))) | [1, 373, 0] | 13464\n\
Some(Ok(Op(PointSetRel))) | [1, 373, 0] | 13838\n\
Some(Ok(Op(PointAbs))) | [1, 373, 0] | 14212\n\
Some(Ok(Op(PointRel))) | [1, 373, 0] | 14586\n\
Some(Ok(Op(LineAbs))) | [1, 373, 0] | 14960\n\
Some(Ok(Op(LineRel))) | [1, 373, 0] | 15334\n\
Some(Ok(Op(SetLineAbs))) | [1, 373, 0] | 15708\n\
Some(Ok(Op(SetLineRel))) | [1, 373, 0] | 16082\n\
Some(Ok(Op(ArcOutlined))) | [1, 373, 0] | 16456\n\
Some(Ok(Op(ArcFilled))) | [1, 373, 0] | 16830\n\
Some(Ok(Op(SetArcOutlined))) | [1, 373, 0] | 17204\n\
Some(Ok(Op(SetArcFilled))) | [1, 373, 0] | 17578\n\
Some(Ok(Op(RectOutlined))) | [1, 373, 0] | 17952\n\
Some(Ok(Op(RectFilled))) | [1, 373, 0] | 18326\n\
Some(Ok(Op(SetRectOutlined))) | [1, 373, 0] | 18700\n\
Some(Ok(Op(SetRectFilled))) | [1, 373, 0] | 19074\n\
Some(Ok(Op(PolyOutlined))) | [1, 373, 0] | 19448\n\
Some(Ok(Op(PolyFilled))) | [1, 373, 0] | 19822\n\
Some(Ok(Op(SetPolyOutlined))) | [1, 373, 0] | 20196\n\
Some(Ok(Op(SetPolyFilled))) | [1, 373, 0] | 20570\n\
Some(Ok(Op(Field))) | [1, 373, 0] | 20944\n\
Some(Ok(Op(SetColor))) | [1, 373, 0] | 22440\n\
Some(Ok(Op(Wait))) | [1, 373, 0] | 22814\n\
Some(Ok(Op(SelectColor))) | [1, 373, 0] | 23188\n\
Some(Ok(Op(Blink))) | [1, 373, 0] | 23562\n\
Some(Ok(Operand(Word(0)))) | [64, 23872, 0] | 2285888\n\
Some(Ok(Shifted)) | [756, 66286, 558] | 1010900\n\
Some(Ok(Designated(0, Primary))) | [0, 0, 2] | 270\n\
Some(Ok(Designated(0, Supplementary))) | [0, 0, 2] | 386\n\
Some(Ok(Designated(0, Pdi))) | [0, 0, 2] | 312\n\
Some(Ok(Designated(0, Mosaic))) | [0, 0, 2] | 388\n\
Some(Ok(Designated(0, Macros))) | [0, 0, 2] | 382\n\
Some(Ok(Designated(0, Drcs))) | [0, 0, 2] | 384\n\
Some(Ok(Designated(1, Primary))) | [0, 0, 2] | 272\n\
Some(Ok(Designated(1, Supplementary))) | [0, 0, 2] | 388\n\
Some(Ok(Designated(1, Pdi))) | [0, 0, 2] | 314\n\
Some(Ok(Designated(1, Mosaic))) | [0, 0, 2] | 390\n\
Some(Ok(Designated(1, Macros))) | [0, 0, 2] | 384\n\
Some(Ok(Designated(1, Drcs))) | [0, 0, 2] | 386\n\
Some(Ok(Designated(2, Primary))) | [0, 0, 2] | 274\n\
Some(Ok(Designated(2, Supplementary))) | [0, 0, 2] | 390\n\
Some(Ok(Designated(2, Pdi))) | [0, 0, 2] | 316\n\
Some(Ok(Designated(2, Mosaic))) | [0, 0, 2] | 392\n\
Some(Ok(Designated(2, Macros))) | [0, 0, 2] | 386\n\
Some(Ok(Designated(2, Drcs))) | [0, 0, 2] | 388\n\
Some(Ok(Designated(3, Primary))) | [0, 0, 2] | 276\n\
Some(Ok(Designated(3, Supplementary))) | [0, 0, 2] | 392\n\
Some(Ok(Designated(3, Pdi))) | [0, 0, 2] | 318\n\
Some(Ok(Designated(3, Mosaic))) | [0, 0, 2] | 394\n\
Some(Ok(Designated(3, Macros))) | [0, 0, 2] | 388\n\
Some(Ok(Designated(3, Drcs))) | [0, 0, 2] | 390\n\
Some(Ok(Step(Apb))) | [377, 374, 23] | 6192\n\
Some(Ok(Step(Apf))) | [377, 374, 23] | 6966\n\
Some(Ok(Step(Apd))) | [377, 374, 23] | 7740\n\
Some(Ok(Step(Apu))) | [377, 374, 23] | 8514\n\
Some(Ok(Step(Apr))) | [377, 374, 23] | 10062\n\
Some(Ok(Step(Aph))) | [377, 374, 23] | 23220\n\
Some(Ok(Bell)) | [377, 374, 23] | 5418\n\
Some(Ok(Clear)) | [377, 374, 23] | 9288\n\
Some(Ok(Fill)) | [5656, 5611, 601] | 164604\n\
Some(Ok(Named(Small))) | [1, 1, 256] | 26058\n\
Some(Ok(Named(Medium))) | [1, 1, 256] | 26316\n\
Some(Ok(Named(Normal))) | [1, 1, 256] | 26574\n\
Some(Ok(Named(Tall))) | [1, 1, 256] | 26832\n\
Some(Ok(Named(Double))) | [1, 1, 256] | 27348\n\
Some(Ok(Reverse(true))) | [1, 1, 256] | 25542\n\
Some(Ok(Reverse(false))) | [1, 1, 256] | 25800\n\
Some(Ok(Underline(true))) | [1, 1, 256] | 29928\n\
Some(Ok(Underline(false))) | [1, 1, 256] | 30186\n\
Some(Ok(Wrap(true))) | [1, 1, 256] | 28896\n\
Some(Ok(Wrap(false))) | [1, 1, 256] | 29154\n\
Some(Ok(Scroll(true))) | [1, 1, 256] | 29412\n\
Some(Ok(Scroll(false))) | [1, 1, 256] | 29670\n\
Some(Ok(BlinkMark(true))) | [1, 1, 256] | 27090\n\
Some(Ok(BlinkMark(false))) | [1, 1, 256] | 31218\n\
Some(Ok(Cursor(Flash))) | [1, 1, 256] | 30444\n\
Some(Ok(Cursor(Steady))) | [1, 1, 256] | 30702\n\
Some(Ok(Cursor(Off))) | [1, 1, 256] | 30960\n\
Some(Ok(ToEol)) | [1, 1, 256] | 25284\n\
Some(Ok(DefMacro { name: 0, show: false })) | [0, 0, 96] | 16368\n\
Some(Ok(DefMacro { name: 0, show: true })) | [0, 0, 96] | 16464\n\
Some(Ok(DefGlyph(0))) | [0, 0, 96] | 16656\n\
Some(Ok(DefMask(A))) | [0, 0, 1] | 160\n\
Some(Ok(DefMask(B))) | [0, 0, 1] | 161\n\
Some(Ok(DefMask(C))) | [0, 0, 1] | 162\n\
Some(Ok(DefMask(D))) | [0, 0, 1] | 163\n\
Some(Ok(End)) | [1, 1, 256] | 24768\n\
Some(Ok(Repeat(Word(0)))) | [0, 0, 64] | 12320\n\
Some(Err(EighthBit)) | [48768, 48384, 37376] | 26806976\n\
Some(Err(BadEscape)) | [86, 86, 22984] | 2020782\n\
Some(Err(ShiftAlone)) | [64, 64, 0] | 5440\n\
Some(Err(BadArgument)) | [32, 32, 284] | 41002\n\
Some(Err(LeftOut(Can))) | [377, 374, 23] | 18576\n\
Some(Err(LeftOut(Sdc))) | [377, 374, 23] | 20124\n\
Some(Err(LeftOut(Nsr))) | [377, 374, 23] | 23994\n\
Some(Err(LeftOut(Deft))) | [1, 1, 256] | 23994\n\
Some(Err(LeftOut(Unprotect))) | [1, 1, 256] | 31476\n\
Some(Err(LeftOut(Edc1))) | [1, 1, 256] | 27864\n\
Some(Err(LeftOut(Edc2))) | [1, 1, 256] | 28122\n\
Some(Err(LeftOut(Edc3))) | [1, 1, 256] | 28380\n\
Some(Err(LeftOut(Edc4))) | [1, 1, 256] | 28638\n\
Some(Err(LeftOut(IncrementalPoint))) | [1, 373, 0] | 21318\n\
Some(Err(LeftOut(IncrementalLine))) | [1, 373, 0] | 21692\n\
Some(Err(LeftOut(IncrementalPoly))) | [1, 373, 0] | 22066\n\
None | [593, 581, 100] | 0";
