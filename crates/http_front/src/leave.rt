//! Whether the client of the next request waits for leave before it sends the body.
ghost use Rattle.std.specs.Prelude.{◌≡◌, ◌≤◌, ◌⊎◌, None, true, length, IfOk, IfErr, IfSome, OnErr};
ghost use Rattle.std.specs.Io.KnownBytes.{prepend_known};
ghost use Rattle.size_values.specs.Causes.{Rose};
ghost use Rattle.http_heads.specs.Heads.{head_len};
ghost use Rattle.http_front.specs.Held.{TakesIn, got_of, most_held};
ghost use Rattle.http_front.specs.Leave.{ToldLeave};
ghost use Rattle.http_front.specs.Reading.{IsUnfinished, KeepsHeld, ReadsNext, OnReadFault, OnEnd};

use crate::buffer::Buffer;
use crate::read::{Stop, await_head};
use crate::source::Source;

/// Whether the client of the next request waits for leave before it sends the body (`Expect: 100-continue`, RFC 9110,
/// section 10.1.1), and is to have it: where requests with an `Origin` are refused, one that has it is to have none. It
/// reads on until a whole head is held, and takes nothing out of the buffer. Where no head becomes whole, it stops as
/// `read_request` would.
pub fn awaits_leave<S: Source>(
    buffer: &mut Buffer,
    source: &mut S,
    refuses_origin: bool,
) -> Result<bool, Stop>
    // Bytes move from the source into the buffer, and only where no message is whole there.
    ensures takes { TakesIn buffer.old buffer.new (S.left source.old) (S.left source.new) }
    ensures ahead { ((source.new ≡ source.old) × (buffer.new ≡ buffer.old)) ⊎ IsUnfinished buffer.old }
    ensures few { length buffer.new ≤ most_held }
    ensures later { S.failures source.old ≤ S.failures source.new }

    // The answer is that of the message that begins with the bytes held, whatever follows them.
    ensures told { IfOk result (ToldLeave refuses_origin buffer.new) }

    // A stop is what `read_request` answers, of the bytes to come and of the bytes held.
    ensures none { OnErr result (head_len buffer.new ≡ None) }
    ensures next { IfErr result (λ stop. IfSome (prepend_known buffer.old (S.left source.old))
        (λ bytes. ReadsNext bytes (prepend_known buffer.new (S.left source.new)) buffer.new (got_of stop))) }
    ensures held { IfErr result (λ stop. KeepsHeld buffer.old buffer.new (got_of stop)) }
    ensures fault { IfErr result (λ stop. OnReadFault (got_of stop)
        (Rose (S.failures source.old) (S.failures source.new))) }
    ensures ended { IfErr result (λ stop. OnEnd (got_of stop) (S.ended source.new ≡ true)) }
{
    if buffer.begins_known() {
        return Ok(false);
    }
    match await_head(buffer, source) {
        Ok(len) => Ok(buffer.expects_leave(len, refuses_origin)),
        Err(stop) => Err(stop),
    }
}
