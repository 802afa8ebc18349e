//! Links, sessions of events and workers over any gate: how a request comes to its reply there, and how
//! a wait is held.
#![tactic(auto)]

mod accepting;
mod answering;
mod connection;
mod filters;
mod frame_laws;
mod frames;
mod hearing;
mod leave;
mod link;
mod listening;
mod log;
mod looking;
mod reply;
mod session;
mod subscribing;
mod subscription_laws;
mod subscriptions;
mod wait;
mod worker;

pub use accepting::accept_text;
pub use answering::{FrameAnswer, MOST_PAYLOAD, answer_to, frames_have_4_kib};
pub use connection::{ConnectionEnd, serve_connection};
pub use filters::event_filter;
pub use frame_laws::{
    a_close_frame_has_its_code, a_close_frame_without_a_code, a_short_pong_frame,
    a_short_text_frame, notices_by_example,
};
pub use frames::{send_close, send_pong, send_text};
pub use gates::{AloneGate, Bell, Daemon, DaemonMachine, Gate, LockedGate};
pub use link::{LinkEnd, serve_link};
pub use log::{Log, NoLog};
pub use reply::reply_to;
pub use session::{SessionEnd, event_session};
pub use subscription_laws::{
    accepts_the_example, filters_by_example, no_filter_where_none_is_asked,
    subscribes_by_the_filter,
};
pub use subscriptions::{Subscription, subscription_of};
pub use wait::{MOST_IDLES, waits_end_after_a_million_idles};
pub use worker::work;
