//! Why a run wasn't made.

ghost use Rattle.std.specs.Prelude.{◌≡◌};
ghost use Rattle.tpl_report.specs.Prelude.{close_stop, fault_line, open_stop, run_stop, seat_stop};

use std::alloc::AllocError;
use tpl_runtime::{CloseWhy, OpenWhy, RunWhy, SeatFault};

/// Why a run couldn't be opened, made or closed, out of memory aside.
#[derive(Clone, Copy, PartialEq, Eq, Debug)]
pub enum RunFault {
    /// A work statement has no item.
    ItemMissing,
    /// An item is of no work statement of the graph.
    ItemStrange,
    /// A work statement has two items.
    ItemTwice,
    /// An item may fail where its work statement may not, or the other way round.
    MayFailDiffers,
    /// A worker has a number that none can have.
    BadActor,
    /// A worker has a seat already.
    SeatTaken,
    /// There aren't 1 to 64 workers.
    BadCount,
    /// There was no thread for a worker.
    Spawn,
    /// A seat wasn't handed in when the session was closed.
    SeatsMissing,
    /// What was handed in when the session was closed isn't what was done.
    Mismatch,
}

impl RunFault {
    /// The line that names the fault.
    pub fn line(self) -> &'static str
        ensures { result.now ≡ fault_line self }
    {
        match self {
            RunFault::ItemMissing => "run: ItemMissing\n",
            RunFault::ItemStrange => "run: ItemStrange\n",
            RunFault::ItemTwice => "run: ItemTwice\n",
            RunFault::MayFailDiffers => "run: MayFailDiffers\n",
            RunFault::BadActor => "run: BadActor\n",
            RunFault::SeatTaken => "run: SeatTaken\n",
            RunFault::BadCount => "run: BadCount\n",
            RunFault::Spawn => "run: Spawn\n",
            RunFault::SeatsMissing => "run: SeatsMissing\n",
            RunFault::Mismatch => "run: Mismatch\n",
        }
    }
}

/// Why there is no report.
#[derive(Clone, Copy, PartialEq, Eq, Debug)]
pub(crate) enum Stop {
    /// Memory was refused.
    Memory,
    /// The run couldn't be made.
    Fault(RunFault),
}

impl From<AllocError> for Stop {
    ghost use Rattle.std.specs.Prelude.{◌≡◌};
    ghost use Rattle.tpl_report.specs.declared.fault.Stop.TheVariants.{Memory};

    ghost from_gives = { λ _ stop. stop ≡ Memory };

    fn from(_error: AllocError) -> Stop {
        Stop::Memory
    }
}

/// Why there is no report of a session that wasn't opened.
pub(crate) fn open_stop(why: OpenWhy) -> Stop
    ensures { result ≡ open_stop why }
{
    match why {
        OpenWhy::ItemMissing(_) => Stop::Fault(RunFault::ItemMissing),
        OpenWhy::ItemStrange(_) => Stop::Fault(RunFault::ItemStrange),
        OpenWhy::ItemTwice(_) => Stop::Fault(RunFault::ItemTwice),
        OpenWhy::MayFailDiffers(_) => Stop::Fault(RunFault::MayFailDiffers),
        OpenWhy::Memory => Stop::Memory,
    }
}

/// Why there is no report where there was no seat.
pub(crate) fn seat_stop(fault: SeatFault) -> Stop
    ensures { result ≡ seat_stop fault }
{
    match fault {
        SeatFault::BadActor => Stop::Fault(RunFault::BadActor),
        SeatFault::SeatTaken => Stop::Fault(RunFault::SeatTaken),
        SeatFault::Memory => Stop::Memory,
    }
}

/// Why there is no report where the workers didn't all run.
pub(crate) fn run_stop(why: RunWhy) -> Stop
    ensures { result ≡ run_stop why }
{
    match why {
        RunWhy::BadCount => Stop::Fault(RunFault::BadCount),
        RunWhy::Seat(_, fault) => seat_stop(fault),
        RunWhy::Spawn => Stop::Fault(RunFault::Spawn),
        RunWhy::Memory(_) => Stop::Memory,
    }
}

/// Why there is no report of a session that wasn't closed well.
pub(crate) fn close_stop(why: CloseWhy) -> Stop
    ensures { result ≡ close_stop why }
{
    match why {
        CloseWhy::Lost => Stop::Fault(RunFault::Mismatch),
        CloseWhy::SeatsMissing => Stop::Fault(RunFault::SeatsMissing),
        CloseWhy::Mismatch => Stop::Fault(RunFault::Mismatch),
        CloseWhy::Memory => Stop::Memory,
    }
}
