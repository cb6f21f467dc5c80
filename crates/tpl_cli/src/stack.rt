//! The stack of the main thread.

use std::io::Write;

/// How much of the stack an answer takes at most, in bytes, beside what the command has taken before it.
const STACK: usize = 1_650_000;

/// Has the main thread's stack grow as far as answers take it. The system lets it grow only while the process may have more
/// address space, and ends the process where it can't; so it has to be done before other threads take that space.
#[inline(never)]
pub(crate) fn take_stack(rt: &HostRuntime) {
    let room = [0u8; STACK];
    let _ = rt.stderr().write(&room[..0]);
}
