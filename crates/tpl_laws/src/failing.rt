//! From which place on a claim fails along a run.

ghost use Rattle.tpl_laws.specs.Prelude.{CompleteIsNoted, FailureIsTold, JobIsNoted, OnlyRequests, RequestIsNoted, StaysComplete};

/// A run that is complete goes on with requests alone.
pub fn only_requests()
    ensures { OnlyRequests }
{}

/// A complete run stays complete.
pub fn stays_complete()
    ensures { StaysComplete }
{}

/// Where a claim first fails follows from a few places of the run.
pub fn failure_is_told()
    ensures { FailureIsTold }
{}

/// Along a run the place from which it is complete can be noted, event by event.
pub fn complete_is_noted()
    ensures { CompleteIsNoted }
{}

/// Along a run the place from which a token is requested can be noted, event by event.
pub fn request_is_noted()
    ensures { RequestIsNoted }
{}

/// Along a run the place from which a job has failed can be noted, event by event.
pub fn job_is_noted()
    ensures { JobIsNoted }
{}
