//! The items of a session that weren't called, and the jobs that no worker has.

ghost use Rattle.std.specs.Prelude.{◌≡◌, ◌∷◌, ◌<◌, [], ◌++◌, ◌+◌, false, length, map, slice_index_or, slice_set, IfOk, IfErr, IfSome, IfNone};
ghost use Rattle.std.specs.Bool.{OnTrue, OnFalse};
ghost use Rattle.tpl_items.specs.Prelude.{AreOthers, HasPlace, IfWorker, Takes, TakesKept, count_of, new_stock, unput_count};
ghost use Rattle.tpl_model.specs.declared.ids.TaskId.{TaskId as TaskNumber};
ghost use Rattle.tpl_model.specs.declared.ids.Worker.{Worker as WorkerNumber};

use crate::item::Item;
use crate::job::Job;
use std::alloc::Global;
use std::collections::VecDeque;
use std::marker::Model;
use tpl_model::{Actor, SiteId, TaskId, Worker};

/// A job as the queue carries it. Its list is empty: items stay in the stock until they are called.
pub type ItemJob<W> = Job<Vec<W>>;

/// Where the items are that weren't called, and the jobs that no worker has. An item leaves it only to be called, so
/// none ever needs a place to come back to, and it takes no memory once it is made: in each of its lists of jobs there
/// is a place for every task.
#[derive(Drop)]
pub struct Stock<W> {
    alloc: Global,
    /// Items that weren't called: mostly the first ones are, and the shorter side moves where one is taken out.
    items: VecDeque<W>,
    /// By task, whether its job wasn't put yet.
    unput: Vec<bool>,
    /// Tasks whose jobs only one worker may begin.
    kept: Vec<(Worker, TaskId)>,
    /// Tasks whose jobs the queue had no place for.
    shelf: Vec<TaskId>,
}

impl<W> Model for Stock<W> {
    ghost use Rattle.std.specs.Prelude.{◌≤◌, ◌+◌, vec_len, vec_capacity};
    ghost use Rattle.tpl_items.specs.Stock.{StockView, unput_count};

    ghost Value = { StockView W };

    ghost view = { λ s. record {
      items = s.items.items;
      unput = s.unput.items;
      kept = s.kept.items;
      shelf = s.shelf.items;
      kept_room = vec_capacity s.kept;
      shelf_room = vec_capacity s.shelf;
    } };

    ghost invariant = { λ s. (vec_len s.kept + unput_count s.unput.items ≤ vec_capacity s.kept)
        × (vec_len s.shelf + unput_count s.unput.items ≤ vec_capacity s.shelf) };
}

/// The place of the first item of a site.
fn place_of<K, W: Item<K>>(items: &VecDeque<W>, site: SiteId) -> Option<usize>
    ensures place { IfSome result (λ place. place < length items.now.items) }
    ensures site { IfSome result (λ place. (d : W) → W.site (slice_index_or items.now.items place
        d) ≡ site.0) }
    ensures none { IfNone result (count_of (map W.site items.now.items) site.0 ≡ 0) }
{
    for place in 0..items.len() {
        if items[place].site().0 == site.0 {
            return Some(place);
        }
    }
    None
}

/// The place of the first job that was kept for a worker.
fn kept_for(kept: &[(Worker, TaskId)], worker: Worker) -> Option<usize>
    ensures place { IfSome result (λ place. place < length kept.now) }
    ensures worker { IfSome result (λ place. (d : WorkerNumber × TaskNumber) → (slice_index_or
        kept.now place d).0 ≡ worker) }
    ensures first { IfSome result (λ place. AreOthers kept.now place worker) }
    ensures none { IfNone result (AreOthers kept.now (length kept.now) worker) }
{
    for place in 0..kept.len() {
        if kept[place].0 == worker {
            return Some(place);
        }
    }
    None
}

impl<W: Drop> Stock<W> {
    /// A stock of these items for so many tasks. They all come back where there is no memory.
    pub fn open(alloc: Global, tasks: usize, items: Vec<W>) -> Result<Stock<W>, Vec<W>>
        ensures stock { IfOk result (λ s. s ≡ new_stock tasks items.items) }
        ensures back { IfErr result (λ back. back ≡ items) }
    {
        let Ok(unput) = vec![in alloc; true; tasks] else {
            return Err(items);
        };
        let Ok(kept) = Vec::with_capacity(alloc, tasks) else {
            return Err(items);
        };
        let Ok(shelf) = Vec::with_capacity(alloc, tasks) else {
            return Err(items);
        };
        Ok(Stock {
            alloc,
            items: VecDeque::from_vec(items),
            unput,
            kept,
            shelf,
        })
    }

    /// Takes out the item of a site, to call it.
    pub fn take_item<K>(&mut self, site: SiteId) -> Option<W>
    where
        W: Item<K>,
        ensures site { IfSome result (λ item. W.site item ≡ site.0) }
        ensures taken { IfSome result (λ item. Takes self.old.items self.new.items item) }
        ensures none { IfNone result ((count_of (map W.site self.old.items) site.0 ≡ 0)
            × (self.new.items ≡ self.old.items)) }
        ensures rest { self.new ≡ record self.old { items = self.new.items } }
    {
        let place = place_of::<K, W>(&self.items, site)?;
        self.items.remove(place)
    }

    /// Whether the job of a task wasn't put yet. It counts as put from now on.
    pub fn take_unput(&mut self, task: usize) -> bool
        ensures told { result ≡ slice_index_or self.old.unput task false }
        ensures put { OnTrue result (self.new ≡ record self.old {
          unput = slice_set self.old.unput task false;
        }) }
        ensures place { OnTrue result (HasPlace self.new) }
        ensures same { OnFalse result (self.new ≡ self.old) }
    {
        if task >= self.unput.len() || !self.unput[task] {
            return false;
        }
        self.unput[task] = false;
        true
    }

    /// The job of a task, for the queue.
    pub fn job(&self, task: TaskId) -> ItemJob<W>
        ensures task { result.task ≡ task }
        ensures empty { result.items.items ≡ [] }
    {
        let items = Vec::new(self.alloc);
        Job { task, items }
    }

    /// Keeps a job for the one worker who may begin it.
    pub fn keep(&mut self, worker: Worker, task: TaskId)
        requires { length self.old.kept + unput_count self.old.unput < self.old.kept_room }
        ensures { self.new ≡ record self.old { kept = self.old.kept ++ (worker, task) ∷ [] } }
    {
        self.kept.push_reserved((worker, task));
    }

    /// Shelves a job.
    pub fn shelve(&mut self, task: TaskId)
        requires { length self.old.shelf + unput_count self.old.unput < self.old.shelf_room }
        ensures { self.new ≡ record self.old { shelf = self.old.shelf ++ task ∷ [] } }
    {
        self.shelf.push_reserved(task);
    }

    /// The oldest job that was kept for this actor; none where it is no worker.
    pub fn take_kept(&mut self, actor: Actor) -> Option<TaskId>
        ensures taken { IfSome result (λ task. TakesKept self.old.kept self.new.kept actor task) }
        ensures none { IfNone result (IfWorker actor (AreOthers self.old.kept (length
            self.old.kept)) × (self.new.kept ≡ self.old.kept)) }
        ensures rest { self.new ≡ record self.old { kept = self.new.kept } }
    {
        let Actor::Worker(worker) = actor else {
            return None;
        };
        let place = kept_for(self.kept.as_slice(), worker)?;
        Some(self.kept.remove(place).1)
    }

    /// The oldest job that the queue had no place for.
    pub fn take_shelved(&mut self) -> Option<TaskId>
        ensures taken { IfSome result (λ task. self.old.shelf ≡ task ∷ self.new.shelf) }
        ensures none { IfNone result ((self.old.shelf ≡ []) × (self.new.shelf ≡ self.old.shelf)) }
        ensures rest { self.new ≡ record self.old { shelf = self.new.shelf } }
    {
        if self.shelf.is_empty() {
            return None;
        }
        Some(self.shelf.remove(0))
    }

    /// All items that weren't called.
    pub fn into_items(self) -> Vec<W>
        ensures { result.items ≡ self.items }
    {
        let Stock {
            alloc: _,
            items,
            unput: _,
            kept: _,
            shelf: _,
        } = self;
        items.into_vec()
    }
}
