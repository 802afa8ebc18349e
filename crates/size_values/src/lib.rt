//! The small values that every other crate speaks of: texts and lists seen as their contents, want of
//! memory, rises of fault counts, entries of the store, kinds of objects, the readers of option values,
//! the amounts of a project, and bytes on a storage pool.
#![tactic(auto)]

mod address;
mod amounts;
mod boolean;
mod boxed;
mod calls;
mod count;
mod cpu;
mod entry;
mod expiry;
mod fault;
mod kinds;
mod memory;
mod memory_size;
mod moment;
mod number;
mod pool_part;
mod rise;
mod seq;
mod size;
mod text;

pub use address::{read_address, read_cidr};
pub use amounts::{Amounts, Part};
pub use boolean::read_boolean;
pub use boxed::Boxed;
pub use calls::FailingCalls;
pub use count::read_count;
pub use cpu::{Cpu, read_cpu};
pub use entry::{Entry, EntryChange};
pub use expiry::{Expiry, read_expiry};
pub use fault::ValueFault;
pub use kinds::{Action, Deed, Kind, ObjectKind, Power};
pub use memory::{NoMemory, Or};
pub use memory_size::{Memory, read_memory};
pub use moment::{MOMENT_LIMIT, moments_end_with_the_year_9999};
pub use pool_part::PoolPart;
pub use rise::Rise;
pub use seq::Seq;
pub use size::read_size;
pub use text::Text;
