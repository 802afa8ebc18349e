ghost use Rattle.std.specs.Prelude.{◌≡◌, ◌++◌, ◌≤◌, ◌<◌, ◌^◌, IfOk, string_bytes, length};
ghost use Rattle.workload.specs.Stream.{cpu_by, creation, following, instance_body, memory_by, opening, pool_body};
ghost use Rattle.workload.specs.Stream.{processes_by, profile_body, project_body, request, stream_of};

use size_values::{NoMemory, Seq};
use std::alloc::Global;

const POOL: &str = "{\"driver\":\"dir\",\"name\":\"pool0\"}";

const PROJECT: &str =
    "{\"config\":{\"limits.cpu\":\"1000\",\"limits.disk\":\"1TiB\",\"limits.instances\":\"32\",\"limits.memory\":\"1TiB\",\"limits.processes\":\"100000\",\"restricted\":\"true\"},\"name\":\"lab\"}";

const PROFILE: &str =
    "{\"devices\":{\"root\":{\"path\":\"/\",\"pool\":\"pool0\",\"size\":\"10GiB\",\"type\":\"disk\"}}}";

/// The number that follows in the sequence.
#[tactic(auto, unfolding(crate::specs::Stream::following))]
fn following(number: u64) -> u64
    ensures { result ≡ following number }
{
    number
        .wrapping_mul(6364136223846793005)
        .wrapping_add(1442695040888963407)
}

/// The body of the k-th creation.
fn instance_body(alloc: Global, k: u32, number: u64) -> Result<String, NoMemory>
    ensures { IfOk result (λ text. string_bytes text ≡ instance_body k number) }
{
    let cpu = 1 + (number >> 62);
    let memory = 64 * (1 + (number >> 58) % 16);
    let processes = 100 * (1 + (number >> 54) % 10);
    Ok(format!(in alloc;
        "{{\"config\":{{\"limits.cpu\":\"{cpu}\",\"limits.memory\":\"{memory}MiB\",\"limits.processes\":\"{processes}\"}},\"name\":\"i{k}\",\"source\":{{\"type\":\"none\"}}}}"
    )?)
}

/// Adds a request with its body to the stream.
fn push_request(alloc: Global, stream: &mut Vec<u8>, line: &str, body: &str) -> Result<(), NoMemory>
    ensures { IfOk result (λ _. stream.new.items ≡ stream.old.items ++ request line.now body.now) }
{
    let len = body.len();
    let head = format!(in alloc;
        "{line} HTTP/1.1\r\nHost: localhost\r\nContent-Length: {len}\r\n\r\n"
    )?;
    stream.extend_from_slice(head.as_bytes())?;
    stream.extend_from_slice(body.as_bytes())?;
    Ok(())
}

/// Three requests that make a pool, a restricted project `lab` with limits and a root disk for its instances,
/// and then the creations of the instances `i1` to `iCOUNT`, whose settings follow from the seed.
pub fn make_stream(alloc: Global, seed: u64, count: u32) -> Result<Seq<u8>, NoMemory>
    requires { count ≤ 10000 }
    ensures { IfOk result (λ stream. stream ≡ stream_of seed count) }
{
    let mut stream = opening(alloc)?;
    let mut number = seed;
    for made in 0..count {
        number = following(number);
        push_creation(alloc, &mut stream, made + 1, number)?;
    }
    Ok(Seq::from_vec(stream))
}

/// The requests before the creations.
#[tactic(auto, unfolding(crate::specs::Stream::opening))]
fn opening(alloc: Global) -> Result<Vec<u8>, NoMemory>
    ensures { IfOk result (λ v. v.items ≡ opening) }
{
    let mut stream = Vec::new(alloc);
    push_request(alloc, &mut stream, "POST /1.0/storage-pools", POOL)?;
    push_request(alloc, &mut stream, "POST /1.0/projects", PROJECT)?;
    push_request(
        alloc,
        &mut stream,
        "PUT /1.0/profiles/default?project=lab",
        PROFILE,
    )?;
    Ok(stream)
}

/// Adds the creation of the k-th instance to the stream.
fn push_creation(alloc: Global, stream: &mut Vec<u8>, k: u32, number: u64) -> Result<(), NoMemory>
    ensures { IfOk result (λ _. stream.new.items ≡ stream.old.items ++ creation k number) }
{
    let body = instance_body(alloc, k, number)?;
    push_request(
        alloc,
        stream,
        "POST /1.0/instances?project=lab",
        body.as_str(),
    )
}
