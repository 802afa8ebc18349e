//! Tests of `turnstile` and `serving` over their public calls, with threads and sockets of the system. There is nothing
//! else here.
#![tactic(auto)]

#[cfg(test)]
mod hosts;
#[cfg(test)]
mod jobs;
#[cfg(test)]
mod links;
#[cfg(test)]
mod servers;
#[cfg(test)]
mod sockets;
#[cfg(test)]
mod turns;
