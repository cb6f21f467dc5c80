//! Journals, and what each actor did.

ghost use Rattle.tpl_examples.specs.Journals.{JournalIsReadBackwards, OwnEventsOfEachActor};

/// A run is the list of its journal's events with the newest first, and not the journal itself; each event must be
/// allowed after those before it.
pub fn journal_is_read_backwards()
    ensures { JournalIsReadBackwards }
{}

/// Each actor's own events, with their places in the journal; a worker and an outside seat of the same number are two.
pub fn own_events_of_each_actor()
    ensures { OwnEventsOfEachActor }
{}
