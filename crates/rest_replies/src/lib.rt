//! Replies and events as JSON: the body, the code, the Location and the entity tag of every reply of the REST API, the
//! text of a notice, and the ids of operations.
#![tactic(auto)]

mod known;
mod laws;
mod notices;
mod printing;
mod refusals;
mod tags;

pub use known::{known_reply, server_text};
pub use laws::{no_memory_is_known, refusals_in_words};
pub use notices::print_notice;
pub use printing::{print, print_chosen};
pub use refusals::rule_name;
pub use rest_json::{Dialect, Terms, id_text, ids_read_back, number_of};
