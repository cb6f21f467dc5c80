//! What a session leaves, and what is compared when it is closed.

ghost use Rattle.std.specs.Prelude.{◌≡◌, ◌↔◌, ◌⊎◌, ◌+◌, true, length, map, All, IsTrue, IfOk, IfErr, OnOk};
ghost use Rattle.tpl_hall.specs.Prelude.{AllOwn, all_seated, are_seated};
ghost use Rattle.tpl_model.specs.Prelude.{IsSeat};
ghost use Rattle.tpl_runtime.specs.Prelude.{Agrees, AreAllSeats, AreOnce, ClosesWell, GivesBack, IsClosed, IsKept, IsWhole, RefusesClose, told_of};
ghost use Rattle.tpl_runtime.specs.declared.closing.CloseWhy.TheVariants.{Lost};

use crate::tables::{Told, tables};
use std::alloc::{AllocError, Global};
use thiserror::Error;
use tpl_graph::Graph;
use tpl_hall::{Hall, Seat, all_last, are_own, are_seated, have_seats, receipts_of};
use tpl_items::{Item, Receipt, items_of};
use tpl_model::{Actor, Event, Inputs, Label, Status, TaskId, are_seats};

/// What a session leaves: the run, the first event first; of each task where it stands, what its own body threw, and
/// whose exceptions it carries; the tasks whose exception nobody has observed; the receipts in the order of the Worked
/// events, the items that weren't called, and whether the run is complete.
#[derive(Drop)]
pub struct Report<K, W> {
    pub journal: Vec<Event>,
    pub statuses: Vec<Status>,
    pub labels: Vec<Option<Label>>,
    pub carried: Vec<Vec<TaskId>>,
    pub unseen: Vec<TaskId>,
    pub receipts: Vec<Receipt<K>>,
    pub items: Vec<W>,
    pub complete: bool,
}

/// Why a session wasn't closed well.
#[derive(Clone, Copy, PartialEq, Eq, Debug, Error)]
pub enum CloseWhy {
    /// What the session kept isn't whole: its run isn't of its graph with its inputs, or some work statement has neither
    /// a receipt nor an item. No call leaves a session so, but no type says it.
    #[error("Lost")]
    Lost,
    /// There are not as many seats as were made.
    #[error("SeatsMissing")]
    SeatsMissing,
    /// What was handed in isn't what was done.
    #[error("Mismatch")]
    Mismatch,
    /// There was no memory.
    #[error("out of memory")]
    Memory,
}

/// Why a session wasn't closed well, and what comes back.
#[derive(Drop)]
pub struct CloseFault<K, W> {
    pub why: CloseWhy,
    pub journal: Vec<Event>,
    pub receipts: Vec<Receipt<K>>,
    pub items: Vec<W>,
}

/// Exactly one of the two numbers is 1, and the other is 0.
fn are_one(a: usize, b: usize) -> bool
    ensures { IsTrue result ↔ (a + b ≡ 1) }
{
    match a {
        0 => b == 1,
        1 => b == 0,
        _ => false,
    }
}

/// There are as many receipts and items as sites.
fn are_as_many<K, W>(sites: u16, receipts: &[Receipt<K>], items: &[W]) -> bool
    ensures { IsTrue result ↔ (length receipts.now + length items.now ≡ sites) }
{
    let sites = sites as usize;
    items.len() <= sites && receipts.len() == sites - items.len()
}

/// The sites of receipts and items are the graph's, each once.
fn are_once<K, W: Item<K>>(sites: u16, receipts: &[Receipt<K>], items: &[W]) -> bool
    ensures { IsTrue result ↔ AreOnce sites (map (λ r. r.site.0) receipts.now) (map W.site
        items.now) }
{
    if !are_as_many(sites, receipts, items) {
        return false;
    }
    for site in 0..sites {
        let called = receipts_of(site, receipts);
        let left = items_of::<K, W>(site, items);
        if !are_one(called, left) {
            return false;
        }
    }
    true
}

/// The run is of this graph with these inputs, and each work statement has its receipt or its item.
fn is_whole<K: Drop, W: Item<K>>(
    hall: &Hall<'_, K>,
    graph: &Graph,
    inputs: &Inputs,
    items: &[W],
) -> bool
    ensures exact { IsTrue result ↔ IsKept hall.now.core graph.now inputs.now (map (λ r. r.site.0)
        hall.now.receipts.items) (map W.site items.now) }
    ensures whole { IsTrue result → IsWhole graph.now inputs.now hall.now.journal.items
        hall.now.receipts.items (map W.site items.now) }
{
    hall.run_law();
    hall.is_of(graph, inputs) && are_once::<K, W>(graph.site_count() as u16, hall.receipts(), items)
}

/// The seats are those that were made, and the run is what they made.
fn agrees<K: Drop>(hall: &Hall<'_, K>, seats: &[Seat], made: &[Actor]) -> bool
    ensures { IsTrue result ↔ (AllOwn seats.now hall.now.journal.items
        × (all_seated hall.now.journal.items (map (λ s. s.actor) seats.now) ≡ true)
        × All (λ e. IsSeat e.actor) hall.now.journal.items
        × (are_seated made.now (map (λ s. s.actor) seats.now) ≡ true)) }
{
    are_own(seats, hall.journal())
        && have_seats(hall.journal(), seats)
        && are_seats(hall.journal())
        && are_seated(made, seats)
}

/// Compares the seats and items with the run, and makes the report.
fn judge<K: Drop, W: Item<K>>(
    alloc: Global,
    hall: &Hall<'_, K>,
    graph: &Graph,
    inputs: &Inputs,
    seats: &[Seat],
    made: &[Actor],
    items: &[W],
) -> Result<Told, CloseWhy>
    ensures whole { IfErr result (λ why. (why ≡ Lost) ⊎ IsWhole graph.now inputs.now
        hall.now.journal.items hall.now.receipts.items (map W.site items.now)) }
    ensures refused { IfErr result (λ why. RefusesClose why
        (IsKept hall.now.core graph.now inputs.now (map (λ r. r.site.0) hall.now.receipts.items)
        (map W.site items.now)) (length seats.now) (length made.now)
        (Agrees graph.now.graph inputs.now made.now seats.now hall.now.journal.items)) }
    ensures made { OnOk result (AreAllSeats made.now seats.now) }
    ensures closes { IfOk result (λ t. IsClosed graph.now inputs.now seats.now
        hall.now.journal.items hall.now.receipts.items (map W.site items.now) (told_of t)) }
{
    graph.valid_law();
    tpl_laws::sound_by_rules();
    if !is_whole(hall, graph, inputs, items) {
        return Err(CloseWhy::Lost);
    }
    if seats.len() != made.len() {
        return Err(CloseWhy::SeatsMissing);
    }
    if !agrees(hall, seats, made) {
        return Err(CloseWhy::Mismatch);
    }
    match all_last(alloc, graph, inputs, hall.journal(), seats) {
        Ok(true) => {}
        Ok(false) => return Err(CloseWhy::Mismatch),
        Err(AllocError) => return Err(CloseWhy::Memory),
    }
    match tables(alloc, hall, graph, inputs) {
        Ok(tables) => Ok(tables),
        Err(AllocError) => Err(CloseWhy::Memory),
    }
}

/// Compares the seats and items with the run, and returns the events and receipts of the hall.
pub fn settle<K: Drop, W: Item<K>>(
    alloc: Global,
    hall: Hall<'_, K>,
    graph: &Graph,
    inputs: &Inputs,
    seats: &[Seat],
    made: &[Actor],
    items: Vec<W>,
) -> Result<Report<K, W>, CloseFault<K, W>>
    ensures whole { IfErr result (λ e. GivesBack graph.now inputs.now W.site e) }
    ensures refused { IfErr result (λ e. RefusesClose e.why
        (IsKept hall.entry.core graph.now inputs.now (map (λ r. r.site.0)
        hall.entry.receipts.items) (map W.site items.items)) (length seats.now) (length made.now)
        (Agrees graph.now.graph inputs.now made.now seats.now hall.entry.journal.items)) }
    ensures made { OnOk result (AreAllSeats made.now seats.now) }
    ensures back { IfErr result (λ e. (e.journal ≡ hall.entry.journal)
        × (e.receipts ≡ hall.entry.receipts)
        × (e.items ≡ items)) }
    ensures given { IfOk result (λ r. (r.journal ≡ hall.entry.journal)
        × (r.receipts ≡ hall.entry.receipts)
        × (r.items ≡ items)) }
    ensures closes { IfOk result (λ r. ClosesWell graph.now inputs.now W.site seats.now r) }
{
    let told = judge(alloc, &hall, graph, inputs, seats, made, items.as_slice());
    let (journal, receipts) = hall.into_lists();
    match told {
        Ok(tables) => {
            let Told {
                statuses,
                labels,
                carried,
                unseen,
                complete,
            } = tables;
            Ok(Report {
                journal,
                statuses,
                labels,
                carried,
                unseen,
                receipts,
                items,
                complete,
            })
        }
        Err(why) => Err(CloseFault {
            why,
            journal,
            receipts,
            items,
        }),
    }
}
