//! The host of the instances: the trait of a host that is called, what each call makes of its roots, and a
//! modelled host in memory whose listed calls fail.
#![tactic(auto)]

mod call;
mod effects;
mod host;
mod model_host;
mod place;
mod report;
mod root;

pub use call::HostCall;
pub use host::{Host, HostFailed};
pub use model_host::ModelHost;
pub use place::Place;
pub use report::{Report, perform};
pub use root::{HostRoot, Spec};
