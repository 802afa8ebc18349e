//! Each reader of option values, run once.
use size_values::{
    ValueFault, read_address, read_boolean, read_cidr, read_count, read_cpu, read_expiry,
    read_memory, read_size,
};

/// Whether each reader takes a text of its form.
fn are_read() -> bool {
    read_boolean("true").is_ok()
        && read_cpu("0-3").is_ok()
        && read_address("10.0.255.1").is_ok()
        && read_cidr("10.0.0.1/24").is_ok()
        && read_count("7", 1, 100).is_ok()
        && read_memory("1GiB").is_ok()
        && read_size("7").is_ok()
        && read_expiry("4w 7d").is_ok()
}

#[test]
fn readers_take_texts_and_faults_have_their_numbers(rt: HostRuntime) {
    assert!(rt; are_read() && ValueFault::OutOfRange.number() == 5);
}
