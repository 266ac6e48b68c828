//! NAPLPS pages: what a page draws, or why it is refused; and each page in one canonical spelling.
//!
//! Begin with `read_all`. It gives the display list of a page, or its refusal, with a name and the place of a byte:
//!
//!     let list = read_all(alloc, Budget::usual(), page)?;
//!
//! A list is a `Vec<Entry>`. An entry is one act of drawing, with all that it depends on, and `line_of` gives its line.
//! `normalise` gives the canonical stream of a page, and `convert` writes it while the page is read. A `Reader` takes a
//! page in pieces, and puts its entries into a `Sink`: one of those in `sink`, or your own. What is in `lines` makes
//! pages of such lines again. docs/LIBRARY.md teaches it by examples, and `specs` has the definitions that the contracts
//! are written in.
#![tactic(auto)]

/// Read a page: whole, or in pieces into a sink.
pub use nap_reader::{Ahead, Reader, Stopped, read_all};

/// How many bytes of macros a page may call.
pub use nap_reader::Budget;

/// Why and where a page is refused, and which code is left out.
pub use nap_codes::Left;
pub use nap_reader::{Fault, Refusal};

/// What a page draws, entry by entry; the line of an entry; and whether a list of entries is legal.
pub use nap_lines::{append_line, line_of};
pub use nap_list::{Entry, legal};

/// The canonical stream of a page, also while it is read; the text of a list in both forms; and why there is none.
pub use nap_canon::{CanonFault, ConvertFault, canon, canon_form1, convert, normalise};

/// Whether a stream is plain.
pub use nap_canon::is_plain;

/// Lines of a list, read back.
pub mod lines {
    /// The entry of a line, and why there is none.
    pub use nap_make::{LineFault, entry_of_line};

    /// The page that lines make, in memory or as they come from an inlet; and why there is none.
    pub use nap_make::{MadePage, MakeFault, PageFault, make_page, page_of_input, page_of_lines};

    /// The entries of lines, put into a sink; and why there are none.
    pub use nap_make::{ListFault, make_list, put_lines};
}

/// The attributes and the parts of an entry.
pub mod entry {
    /// The attributes that an entry holds.
    pub use nap_list::{
        Attributes, CharSize, Colour, Hand, Ink, Origin, Pen, Preset, TextLook, Texture,
    };

    /// The kinds of characters, cursors, masks, sizes and format effectors.
    pub use nap_codes::{CharSet, CursorKind, Mask, Size, TextStep};
    pub use nap_list::{Area, Points};

    /// The numbers of an entry.
    pub use nap_values::{Addr, Grb, Move, Point, Word};
}

/// Sinks for the entries of a page.
pub mod sink {
    /// A sink, and why it may not take an entry.
    pub use nap_list::{Sink, SinkFault};

    /// Entries that a sink takes together.
    pub use nap_list::{Batch, BatchFault};

    /// Arcs and polygons with borrowed points, for a sink.
    pub use nap_list::{Shape, ShapeKind};

    /// Sinks that keep the entries, count them, make their lines, or write their canonical text.
    pub use nap_canon::CanonSink;
    pub use nap_lines::LineSink;
    pub use nap_list::{CountSink, ListSink};

    /// The state that the entries so far leave, and its parts.
    pub use nap_list::{
        Base, Definition, Drawing, Known, LastChar, MapColour, OpenDefinition, State,
    };
}

/// Inputs and outputs.
pub mod device {
    /// The traits of an input and of an output, and the fault of a device.
    pub use nap_list::{DeviceFault, Inlet, Outlet};

    /// Devices over a reader and a writer of std.
    pub use nap_list::{Source, Target};

    /// Feeds a `Reader` what an inlet gives.
    pub use nap_reader::{FeedFault, feed_from};
}

/// The limits of the profile.
pub mod limits {
    /// The most known colours, reads, points of a shape, operand bytes of an opcode, and bytes of macros.
    pub use nap_list::{KNOWN, READS, SHAPE_POINTS};
    pub use nap_reader::{RUN_LIMIT, STORE_LIMIT};
}

/// The laws: functions without effect, whose contracts say what holds of all lists and pages.
pub mod laws {
    /// Of canonical text.
    pub use nap_canon::laws as canonical;
    /// Of lists, states and batches.
    pub use nap_list::laws as list;
    /// Of lines.
    pub mod lines {
        pub use nap_make::laws::{lines_are_bounded, lines_have_no_ends, lines_tell_apart};
    }

    /// Of the pages that lines make, and of what lines say of two pages.
    pub mod making {
        pub use nap_make::laws::{lists_tell_streams, made_pages_agree};
    }
    /// Of what a page means.
    pub use nap_reader::laws as reading;
}
