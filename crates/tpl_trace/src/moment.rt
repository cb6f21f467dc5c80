//! Where the entries of an event stand in a trace.

ghost use Rattle.std.specs.Prelude.{◌≡◌, ◌<◌};
ghost use Rattle.tpl_trace.specs.Prelude.{time_of};

/// Where the entries of an event stand in a trace.
#[derive(Clone, Copy)]
pub(crate) struct Moment {
    /// The number of the track.
    pub(crate) track: u32,
    /// How many events come before it.
    pub(crate) before: usize,
    /// Its time, in microseconds.
    pub(crate) time: u64,
}

/// The time of the event behind this many others, in microseconds: the one that is given for it, else its place, counted
/// from 1.
pub(crate) fn time_of(times: &[u64], before: usize) -> u64
    requires { before < usize.MAX }
    ensures { result ≡ time_of times.now before }
{
    if before < times.len() {
        times[before]
    } else {
        (before + 1) as u64
    }
}
