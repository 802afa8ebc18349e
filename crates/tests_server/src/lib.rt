//! Tests of a server in memory. Links and workers over gates: over a gate of their own, also where a read or a write
//! fails, and on threads over gates to one server under a lock; which bells wake whom there. Event sessions; the server
//! goes on while they idle, and what they answer to the frames of their clients. Random runs, turn by turn, over the
//! public calls of `core_turns`: after each turn the usage of every project is summed anew from what the server shows.
//! Sixty thousand instances on one server. And the texts of replies and of events that no whole run of the program shows,
//! entity tags, and what requests expect of them. There is nothing else here.
#![tactic(auto)]

#[cfg(test)]
mod alone_links;
#[cfg(test)]
mod broken_links;
#[cfg(test)]
mod busy_gate;
#[cfg(test)]
mod chance;
#[cfg(test)]
mod client;
#[cfg(test)]
mod events;
#[cfg(test)]
mod held;
#[cfg(test)]
mod judging;
#[cfg(test)]
mod links;
#[cfg(test)]
mod many_instances;
#[cfg(test)]
mod meeting;
#[cfg(test)]
mod random_runs;
#[cfg(test)]
mod server;
#[cfg(test)]
mod sessions;
#[cfg(test)]
mod tags;
#[cfg(test)]
mod words;
