ghost use Rattle.std.specs.Prelude.{◌≡◌, option_map, OnErr, OnOk};
ghost use Rattle.size_values.specs.Causes.{HasCauseOrMemory};
ghost use Rattle.host_model.specs.Effects.{effect_of};
ghost use Rattle.serving.specs.Passing.{counted};

use host_model::{Host, HostCall, HostFailed};
use size_values::Or;

/// Makes one call on the host and answers what it answered. The count rises by one exactly where the call failed; it
/// stops at 2^64 - 1.
pub fn pass_on<H: Host>(
    host: &mut H,
    count: &mut u64,
    call: &HostCall,
) -> Result<(), Or<HostFailed>>
    ensures ok { OnOk result (H.contents host.new ≡ option_map (effect_of call.now) (H.contents host.old)) }
    ensures err { OnErr result (H.contents host.new ≡ H.contents host.old) }
    ensures cause { HasCauseOrMemory (H.failures host.old) (H.failures host.new) result }
    ensures count { count.new ≡ counted count.old result }
{
    let answer = host.call(call);
    *count = counted(*count, &answer);
    answer
}

/// The count of failures after one more call with this answer.
pub(crate) fn counted(count: u64, answer: &Result<(), Or<HostFailed>>) -> u64
    ensures { result ≡ counted count answer.now }
{
    match answer {
        Err(Or::Why(_)) => count.saturating_add(1),
        Ok(()) | Err(Or::NoMemory) => count,
    }
}
