//! Laws about canonical text and canonical streams. Each is the contract of a function that does nothing.
ghost use Rattle.nap_canon.specs.Sinking.{WritesText};
ghost use Rattle.nap_canon.specs.Laws.{PreludeLeads, TextOfPrefix, TextIsPlain, PlainOperandLengths, TextIsRead, TextLeads, FormsAgree, CanonicalStreamsAgree};

use crate::text::Form;
use nap_list::Outlet;

/// The prelude of an entry that fits makes its attributes current, and draws nothing.
pub fn prelude_leads()
    ensures { PreludeLeads }
{}

/// Each prefix of a list that fits has a text, which is a prefix of the list's text, in either form.
pub fn text_of_prefix()
    ensures text { TextOfPrefix Form.Two }
    ensures text1 { TextOfPrefix Form.One }
{}

/// The text of a list is plain, in either form.
pub fn text_is_plain()
    ensures text { TextIsPlain Form.Two }
    ensures text1 { TextIsPlain Form.One }
{}

/// In an accepted plain stream, operands have eight words and four words where an opcode acts, except DOMAIN and RESET.
pub fn plain_operand_lengths()
    ensures { PlainOperandLengths }
{}

/// The text of a list is read as that list, and nothing is charged, in either form.
pub fn text_is_read()
    ensures text { TextIsRead Form.Two }
    ensures text1 { TextIsRead Form.One }
{}

/// The text of a list leads to the state of the list, also if a definition is left open, in either form.
pub fn text_leads()
    ensures text { TextLeads Form.Two }
    ensures text1 { TextLeads Form.One }
{}

/// The text of a list in form 1 is a stream whose canonical stream is the text of the list, which is no longer.
pub fn forms_agree()
    ensures { FormsAgree }
{}

/// Canonical streams are equal exactly if their display lists are. A canonical stream is plain, is accepted with the
/// list of the stream that it was made from, and is its own canonical stream.
pub fn canonical_streams_agree()
    ensures { CanonicalStreamsAgree }
{}

/// A canonical sink that took these entries and hasn't failed has written their text.
pub fn sink_writes_text<O: Outlet>()
    ensures { WritesText O.Outlet }
{}
