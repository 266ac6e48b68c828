//! Display lists, sinks, which take entries, and devices, which give and take bytes (PROFILE.md, The display list).
#![tactic(auto)]

mod attribute;
mod batch;
mod count_sink;
mod device;
mod entry;
mod known;
pub mod laws;
mod legality;
mod shape;
mod sink;
mod sink_state;
mod state;

pub use attribute::{
    Area, Attributes, Base, CharSize, Colour, Hand, Ink, Origin, Pen, Preset, TextLook, Texture,
};
pub use batch::{Batch, last_char_of_text, line_start};
pub use count_sink::CountSink;
pub use device::{
    DeviceFault, Inlet, Outlet, READ_SIZE, READS, STREAM_READ_SIZE, Source, Target, send_all,
};
pub use entry::Entry;
pub use known::{KNOWN, Known, MapColour};
pub use legality::legal;
pub use shape::{Points, SHAPE_POINTS, Shape, ShapeKind};
pub use sink::{BatchFault, ListSink, Sink, SinkFault};
pub use sink_state::{GhostState, WrittenState};
pub use state::{Definition, Drawing, LastChar, OpenDefinition, State, corner};
