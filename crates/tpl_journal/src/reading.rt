//! Reading all that there is, up to a limit.

ghost use Rattle.std.specs.Prelude.{◌≡◌, ◌+◌, ◌^◌, ◌<◌, ◌≤◌, length, IfOk, IfSome, OnOk, IsErrOf};
ghost use Rattle.std.specs.Io.KnownBytes.{IsAtEnd};
ghost use Rattle.tpl_journal.specs.Prelude.{ConsumesSome, calls_of, counted, failures_of, is_device, remaining_of};

use crate::counting::Counting;
use std::alloc::Global;
use std::io::Read;
use thiserror::Error;

/// The most bytes of one read.
pub const BLOCK_BYTES: usize = 4096;

/// Why no bytes are answered.
#[derive(Clone, Copy, Debug, Drop, PartialEq, Eq, Error)]
pub enum InputFault {
    /// There are more bytes than the limit.
    #[error("too long")]
    TooLong,
    /// A read failed, and nothing was read after it.
    #[error("a read failed")]
    Device,
    /// The memory for the bytes was refused.
    #[error("out of memory")]
    Memory,
}

/// Reads to the end, if that takes no more than `limit` bytes. Each read gives a byte at least, or the
/// end, so there are at most `limit + 2` reads.
pub fn read_limited<R: Read>(
    alloc: Global,
    limit: usize,
    from: &mut Counting<R>,
) -> Result<Vec<u8>, InputFault>
    requires { limit < 2 ^ 32 }
    ensures all { IfOk result (λ bytes.
        IfSome (remaining_of R.remaining from.old) (λ known. bytes.items ≡ known)) }
    ensures end { OnOk result (IsAtEnd (remaining_of R.remaining from.new)) }
    ensures short { IfOk result (λ bytes. length bytes.items ≤ limit) }
    ensures too_long { IsErrOf result InputFault.TooLong
        → IfSome (remaining_of R.remaining from.old) (λ known. limit < length known) }
    ensures front { ConsumesSome (remaining_of R.remaining from.old)
        (remaining_of R.remaining from.new) }

    // A failed read is answered as such, and no other answer follows one.
    ensures failures { failures_of from.new ≡ counted (is_device result) (failures_of from.old) }
    ensures calls { calls_of from.new ≤ calls_of from.old + limit + 2 }
{
    let mut bytes = Vec::new(alloc);
    let mut buffer = [0u8; BLOCK_BYTES];
    while bytes.len() <= limit {
        match from.read(&mut buffer) {
            Ok(0) => return Ok(bytes),
            Ok(count) => {
                if bytes.extend_from_slice(&buffer[..count]).is_err() {
                    return Err(InputFault::Memory);
                }
            }
            Err(_) => return Err(InputFault::Device),
        }
    }
    Err(InputFault::TooLong)
}
