//! The stream of requests of the workload, and what is told of its replies.
use size_values::Seq;
use std::alloc::Global;
use workload::{make_stream, summary_of};

// The stream of seed 7 and three creations, as `bench/stream.py instances 3 7` writes it.
const SEVEN: &[&str] = &[
    "POST /1.0/storage-pools HTTP/1.1\r\nHost: localhost\r\nContent-Length: 31\r\n\r\n{\"driver\":\"dir\",\"name\":\"pool0\"}",
    "POST /1.0/projects HTTP/1.1\r\nHost: localhost\r\nContent-Length: 161\r\n\r\n{\"config\":{\"limits.cpu\":\"1000\",\"limits.disk\":\"1TiB\",\"limits.instances\":\"32\",\"limits.memory\":\"1TiB\",\"limits.processes\":\"100000\",\"restricted\":\"true\"},\"name\":\"lab\"}",
    "PUT /1.0/profiles/default?project=lab HTTP/1.1\r\nHost: localhost\r\nContent-Length: 77\r\n\r\n{\"devices\":{\"root\":{\"path\":\"/\",\"pool\":\"pool0\",\"size\":\"10GiB\",\"type\":\"disk\"}}}",
    "POST /1.0/instances?project=lab HTTP/1.1\r\nHost: localhost\r\nContent-Length: 117\r\n\r\n{\"config\":{\"limits.cpu\":\"2\",\"limits.memory\":\"1024MiB\",\"limits.processes\":\"600\"},\"name\":\"i1\",\"source\":{\"type\":\"none\"}}",
    "POST /1.0/instances?project=lab HTTP/1.1\r\nHost: localhost\r\nContent-Length: 116\r\n\r\n{\"config\":{\"limits.cpu\":\"4\",\"limits.memory\":\"896MiB\",\"limits.processes\":\"900\"},\"name\":\"i2\",\"source\":{\"type\":\"none\"}}",
    "POST /1.0/instances?project=lab HTTP/1.1\r\nHost: localhost\r\nContent-Length: 116\r\n\r\n{\"config\":{\"limits.cpu\":\"4\",\"limits.memory\":\"704MiB\",\"limits.processes\":\"900\"},\"name\":\"i3\",\"source\":{\"type\":\"none\"}}",
];

/// The bytes of these pieces, one after the other.
fn joined(alloc: Global, pieces: &[&str]) -> Seq<u8> {
    let mut bytes = Vec::new(alloc);
    for piece in pieces {
        let _ = bytes.extend_from_slice(piece.as_bytes());
    }
    Seq::from_vec(bytes)
}

fn is_seven(alloc: Global) -> bool {
    let Ok(made) = make_stream(alloc, 7, 3) else {
        return false;
    };
    let wanted = joined(alloc, SEVEN);
    let is = made.view() == wanted.view();
    drop(wanted);
    drop(made);
    is
}

/// A checksum of bytes.
fn checksum(bytes: &[u8]) -> u32 {
    let mut sum = 0u32;
    for byte in bytes {
        sum = sum.wrapping_mul(31).wrapping_add(u32::from(*byte));
    }
    sum
}

// A seed and a number of creations, and the length and the checksum of the stream that another program writes.
const SUMS: &[(u64, u32, usize, u32)] = &[
    (0, 0, 498, 1218144478),
    (7, 40, 8451, 3595079808),
    (0, 1000, 200503, 506863369),
    (u64::MAX, 10000, 2010306, 4072344597),
];

fn has_sum(alloc: Global, seed: u64, count: u32, len: usize, sum: u32) -> bool {
    let Ok(made) = make_stream(alloc, seed, count.min(10_000)) else {
        return false;
    };
    let has = made.len() == len && checksum(made.view()) == sum;
    drop(made);
    has
}

#[test]
fn writes_the_bytes_of_another_program(rt: HostRuntime) {
    assert!(rt; is_seven(rt.alloc()));
    for (seed, count, len, sum) in SUMS {
        assert!(rt;
            has_sum(rt.alloc(), *seed, *count, *len, *sum),
            "of {seed} and {count}"
        );
    }
}

const REPLIES: &[&str] = &[
    "HTTP/1.1 200 OK\r\nContent-Length: 2\r\n\r\n{}",
    "HTTP/1.1 404 Not Found\r\nContent-Length: 0\r\n\r\n",
];

fn has_summary(alloc: Global, pieces: &[&str], expected: &str) -> bool {
    let replies = joined(alloc, pieces);
    let made = summary_of(alloc, &replies);
    drop(replies);
    let Ok(summary) = made else {
        return false;
    };
    let has = summary.view() == expected;
    drop(summary);
    has
}

#[test]
fn counts_whole_replies(rt: HostRuntime) {
    assert!(rt;
        has_summary(
            rt.alloc(),
            REPLIES,
            "requests 2\nreplies 200 1\nreplies 404 1\n"
        )
    );
}
