//! How the answer of a command becomes the bytes of a reply (REST API of the Incus documentation),
//! and what reading requests and writing replies does to the two ends of a connection.
#![tactic(auto)]

mod answers;
mod asked;
mod laws;
mod reply_text;
mod writing;

pub use answers::{PrintedReply, answer_for, no_memory_text, print_malformed, server_answer};
pub use asked::{ReplyOrWait, reply_of, reply_or_wait_of};
pub use laws::filtered_lists_are_cut;
pub use reply_text::ReplyText;
pub use writing::{Written, write_answer, write_refusal};
