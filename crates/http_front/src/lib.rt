//! Requests from the bytes of a source, in whatever pieces they come, and the bytes of replies. The traits of the
//! outside, `Source`, `Sink` and `Clock`, with an object in memory and one over std or the system for each.
#![tactic(auto)]

mod buffer;
mod clock;
mod known;
mod laws;
mod leave;
mod read;
mod reply;
mod sink;
mod source;

pub use buffer::{Buffer, PIECE, pieces_have_64_kib};
pub use clock::{Clock, StillClock, SystemClock};
pub use http_heads::{HeadFault, MAX_BODY, MAX_FIELDS, MAX_HEAD, Request};
pub use laws::{pieces_agree, steps_split};
pub use leave::awaits_leave;
pub use read::{Got, Stop, read_request};
pub use reply::{Printed, no_memory_reply, reply_bytes};
pub use sink::{ByteSink, Sink, SinkFailed, WriterSink};
pub use source::{ByteSource, ReaderSource, Source, SourceFailed};
