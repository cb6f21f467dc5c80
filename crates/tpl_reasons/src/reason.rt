//! What an explanation is made of.

use tpl_audit::{Failure, OtherEnd};
use tpl_journal::JournalFault;
use tpl_model::CertFault;
use tpl_reader::ReadFault;

/// What an explanation is made of. Claims, lines and events count from 1.
#[derive(Clone, Copy)]
pub enum Reason {
    /// The bytes spell no document.
    Unreadable(ReadFault),
    /// The first fault of the certificate.
    Unchecked(CertFault),
    /// The claim that the answer names: the first for which no certificate was found.
    NotFound(usize),
    /// The graph has inputs, and nothing says which values they have.
    NoStart,
    /// The journal's text can't be read.
    NoJournal(JournalFault),
    /// The first event that isn't allowed after those before it.
    NotAllowed(usize),
    /// Where a claim fails first, and the first task that has not ended as the document says, if there is one.
    Fails(Failure, Option<OtherEnd>),
    /// The first task that has not ended as the document says. The journal is a run in which no claim fails.
    EndsOtherwise {
        /// The task, and how it stands.
        other: OtherEnd,
        /// The run is complete.
        complete: bool,
    },
    /// The journal is a run, and a task of it has not ended.
    NotComplete,
    /// There is no claim, so nothing is shown.
    NothingAsked,
}
