//! Watchers of a session.

ghost use Rattle.std.specs.Prelude.{◌≡◌, [], IfOk, IfErr};
ghost use Rattle.tpl_hall.specs.Prelude.{AllBegin};
ghost use Rattle.tpl_runtime.specs.Prelude.{ClosesWell, GivesBack};

use crate::closing::{CloseFault, CloseWhy, Report};
use crate::queue::ItemPass;
use crate::session::Session;
use std::alloc::{AllocError, Global};
use std::sync::Wait;
use tpl_hall::{Seat, Watcher, all_begin};
use tpl_items::Item;

impl<'g, K: Drop, W: Item<K>> Session<'g, K, W> {
    /// A watcher that has seen nothing, with memory for a whole run.
    pub fn watch(&self, alloc: Global) -> Result<Watcher, AllocError>
        ensures { IfOk result (λ w. w ≡ []) }
    {
        Watcher::new(alloc, &self.cells)
    }

    /// As [`Session::close`], and each of these watchers has seen a beginning of the run. Not every watcher need be handed
    /// in.
    pub fn close_watched<R: Wait>(
        self,
        rt: &R,
        alloc: Global,
        seats: Vec<Seat>,
        pass: ItemPass<W>,
        watchers: Vec<Watcher>,
    ) -> Result<Report<K, W>, CloseFault<K, W>>
        requires { pass.queue ≡ self.queue }
        ensures closes { IfOk result (λ r. ClosesWell self.entry.graph self.entry.inputs W.site
            seats.items r) }
        ensures watched { IfOk result (λ r. AllBegin watchers.items r.journal.items) }
        ensures back { IfErr result (λ e. GivesBack self.entry.graph self.entry.inputs W.site e) }
    {
        let report = match self.close(rt, alloc, seats, pass) {
            Ok(report) => report,
            Err(fault) => return Err(fault),
        };
        if !all_begin(watchers.as_slice(), report.journal.as_slice()) {
            let Report {
                journal,
                statuses: _,
                labels: _,
                carried: _,
                unseen: _,
                receipts,
                items,
                complete: _,
            } = report;
            return Err(CloseFault {
                why: CloseWhy::Mismatch,
                journal,
                receipts,
                items,
            });
        }
        Ok(report)
    }
}
