//! The opcodes of the PDI set (PROFILE.md, Opcodes), and the codes that the profile leaves out by name.
ghost use Rattle.std.specs.Prelude.{◌≡◌};
ghost use Rattle.nap_codes.specs.Tables.{left_out_opcode, opcode_rows, row_of};

use std::fmt;

/// The byte of the first opcode of the PDI set. The variants of `Opcode` are in the order of their bytes.
pub const FIRST_OPCODE: u8 = 0x20;

/// An opcode of the PDI set, named as in the standard (PROFILE.md, Opcodes).
#[derive(Clone, Copy, PartialEq, Eq, Debug, Drop)]
pub enum Opcode {
    /// RESET: resets parts of the drawing state.
    Reset,
    /// DOMAIN: sets the operand lengths and the pel.
    Domain,
    /// TEXT: sets the text attributes.
    Text,
    /// TEXTURE: sets the texture of lines and areas.
    Texture,
    /// POINT SET ABS: moves the drawing point (pen) to points.
    PointSetAbs,
    /// POINT SET REL: moves the drawing point (pen) by displacements.
    PointSetRel,
    /// POINT ABS: draws points.
    PointAbs,
    /// POINT REL: draws points at displacements, each from the one before it.
    PointRel,
    /// LINE ABS: draws lines from the drawing point (pen) to points, one after another.
    LineAbs,
    /// LINE REL: draws lines by displacements, each from the end of the one before it.
    LineRel,
    /// SET & LINE ABS: draws lines between pairs of points.
    SetLineAbs,
    /// SET & LINE REL: draws lines from a point by a displacement, for pairs of both.
    SetLineRel,
    /// ARC OUTLINED: draws an arc from the drawing point (pen).
    ArcOutlined,
    /// ARC FILLED: draws a filled arc from the drawing point (pen).
    ArcFilled,
    /// SET & ARC OUTLINED: draws an arc from a point.
    SetArcOutlined,
    /// SET & ARC FILLED: draws a filled arc from a point.
    SetArcFilled,
    /// RECT OUTLINED: draws rectangles from the drawing point (pen).
    RectOutlined,
    /// RECT FILLED: draws filled rectangles from the drawing point (pen).
    RectFilled,
    /// SET & RECT OUTLINED: draws rectangles, each from a point.
    SetRectOutlined,
    /// SET & RECT FILLED: draws filled rectangles, each from a point.
    SetRectFilled,
    /// POLY OUTLINED: draws a polygon from the drawing point (pen).
    PolyOutlined,
    /// POLY FILLED: draws a filled polygon from the drawing point (pen).
    PolyFilled,
    /// SET & POLY OUTLINED: draws a polygon from a point.
    SetPolyOutlined,
    /// SET & POLY FILLED: draws a filled polygon from a point.
    SetPolyFilled,
    /// FIELD: sets the active field.
    Field,
    /// INCREMENTAL POINT, which the profile leaves out.
    IncrementalPoint,
    /// INCREMENTAL LINE, which the profile leaves out.
    IncrementalLine,
    /// INCREMENTAL POLY FILLED, which the profile leaves out.
    IncrementalPolyFilled,
    /// SET COLOR: sets the colour of mode 0, or an entry of the colour map.
    SetColor,
    /// WAIT: pauses, in tenths of a second.
    Wait,
    /// SELECT COLOR: selects the colour mode, and addresses of the colour map.
    SelectColor,
    /// BLINK: starts blink processes, or ends all.
    Blink,
}

/// A code that the profile leaves out by name (PROFILE.md, Left out by name).
#[derive(Clone, Copy, PartialEq, Eq, Debug, Drop)]
pub enum Left {
    /// CAN of the C0 set.
    Can,
    /// SDC of the C0 set.
    Sdc,
    /// NSR of the C0 set.
    Nsr,
    /// DEFT MACRO of the C1 set.
    Deft,
    /// UNPROTECT of the C1 set.
    Unprotect,
    /// EDC1 of the C1 set.
    Edc1,
    /// EDC2 of the C1 set.
    Edc2,
    /// EDC3 of the C1 set.
    Edc3,
    /// EDC4 of the C1 set.
    Edc4,
    /// INCREMENTAL POINT of the PDI set.
    IncrementalPoint,
    /// INCREMENTAL LINE of the PDI set.
    IncrementalLine,
    /// INCREMENTAL POLY FILLED of the PDI set.
    IncrementalPoly,
}

impl Opcode {
    /// Returns the name of an opcode that is left out, or `None` for the others.
    #[tactic(auto, unfolding(crate::specs::Tables::left_out_opcode))]
    pub(crate) fn left_out(self) -> Option<Left>
        ensures { result ≡ left_out_opcode self }
    {
        match self {
            Opcode::IncrementalPoint => Some(Left::IncrementalPoint),
            Opcode::IncrementalLine => Some(Left::IncrementalLine),
            Opcode::IncrementalPolyFilled => Some(Left::IncrementalPoly),
            _ => None,
        }
    }
}

impl fmt::Display for Left {
    fn fmt<W: fmt::Write>(&self, f: &mut fmt::Formatter<W>) -> fmt::Result {
        f.write_str(match self {
            Left::Can => "CAN",
            Left::Sdc => "SDC",
            Left::Nsr => "NSR",
            Left::Deft => "DEFT MACRO",
            Left::Unprotect => "UNPROTECT",
            Left::Edc1 => "EDC1",
            Left::Edc2 => "EDC2",
            Left::Edc3 => "EDC3",
            Left::Edc4 => "EDC4",
            Left::IncrementalPoint => "INCREMENTAL POINT",
            Left::IncrementalLine => "INCREMENTAL LINE",
            Left::IncrementalPoly => "INCREMENTAL POLY FILLED",
        })
    }
}

/// Returns the opcode of the PDI set for a byte, or `None` outside `20` to `3F` (PROFILE.md, Opcodes).
#[tactic(auto, unfolding(crate::specs::Tables::row_of, crate::specs::Tables::opcode_rows))]
pub fn opcode_of(byte: u8) -> Option<Opcode>
    ensures { result ≡ row_of opcode_rows byte }
{
    let opcode = match byte {
        0x20 => Opcode::Reset,
        0x21 => Opcode::Domain,
        0x22 => Opcode::Text,
        0x23 => Opcode::Texture,
        0x24 => Opcode::PointSetAbs,
        0x25 => Opcode::PointSetRel,
        0x26 => Opcode::PointAbs,
        0x27 => Opcode::PointRel,
        0x28 => Opcode::LineAbs,
        0x29 => Opcode::LineRel,
        0x2A => Opcode::SetLineAbs,
        0x2B => Opcode::SetLineRel,
        0x2C => Opcode::ArcOutlined,
        0x2D => Opcode::ArcFilled,
        0x2E => Opcode::SetArcOutlined,
        0x2F => Opcode::SetArcFilled,
        0x30 => Opcode::RectOutlined,
        0x31 => Opcode::RectFilled,
        0x32 => Opcode::SetRectOutlined,
        0x33 => Opcode::SetRectFilled,
        0x34 => Opcode::PolyOutlined,
        0x35 => Opcode::PolyFilled,
        0x36 => Opcode::SetPolyOutlined,
        0x37 => Opcode::SetPolyFilled,
        0x38 => Opcode::Field,
        0x39 => Opcode::IncrementalPoint,
        0x3A => Opcode::IncrementalLine,
        0x3B => Opcode::IncrementalPolyFilled,
        0x3C => Opcode::SetColor,
        0x3D => Opcode::Wait,
        0x3E => Opcode::SelectColor,
        0x3F => Opcode::Blink,
        _ => return None,
    };
    Some(opcode)
}
