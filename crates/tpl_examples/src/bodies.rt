//! The statements of a body, and who passes them.

ghost use Rattle.tpl_examples.specs.Bodies.{ReturnEndsTheBody, ThrowEndsTheBody, EmptyBody, RootOpensReady, TaskBeginsOnce, OnlyItsWorkerRunsABody, BodiesRunApart, JobIsAnswered, FailedJobThrows, StoppedBetweenJobs, OnlyJobsAreAnswered, TwoJobsAtOnce, EightJobsAtOnce, InputChoosesTheBranch, ThreeWaysToEnd, GraphWithoutTasksIsComplete};

/// A return ends the body: the statement behind it isn't passed.
pub fn return_ends_the_body()
    ensures { ReturnEndsTheBody }
{}

/// A throw ends the body and faults its task, which carries the exception once it has ended.
pub fn throw_ends_the_body()
    ensures { ThrowEndsTheBody }
{}

/// The end of a body is a return.
pub fn empty_body()
    ensures { EmptyBody }
{}

/// A root waits to run, and any worker begins it; the outside begins nothing, and nobody begins a task that the graph
/// doesn't have.
pub fn root_opens_ready()
    ensures { RootOpensReady }
{}

/// A task is begun once.
pub fn task_begins_once()
    ensures { TaskBeginsOnce }
{}

/// A body is run by the worker that began it, and by no other and not from outside.
pub fn only_its_worker_runs_a_body()
    ensures { OnlyItsWorkerRunsABody }
{}

/// A step of one body leaves the other where it was, and each ends at its own place by its own worker.
pub fn bodies_run_apart()
    ensures { BodiesRunApart }
{}

/// A job is answered and not stepped over, by its task's worker; it fails only where it may.
pub fn job_is_answered()
    ensures { JobIsAnswered }
{}

/// A job that fails throws in its task's body.
pub fn failed_job_throws()
    ensures { FailedJobThrows }
{}

/// A run that stops between two jobs is a run, and not complete.
pub fn stopped_between_jobs()
    ensures { StoppedBetweenJobs }
{}

/// A statement that is no job isn't answered.
pub fn only_jobs_are_answered()
    ensures { OnlyJobsAreAnswered }
{}

/// Two jobs run at the same time.
pub fn two_jobs_at_once()
    ensures { TwoJobsAtOnce }
{}

/// Eight jobs run at the same time, each on a worker of its own.
pub fn eight_jobs_at_once()
    ensures { EightJobsAtOnce }
{}

/// An input chooses the branch, and what stands behind it comes after; an input without value is false.
pub fn input_chooses_the_branch()
    ensures { InputChoosesTheBranch }
{}

/// One body ends its task in all three ways.
pub fn three_ways_to_end()
    ensures { ThreeWaysToEnd }
{}

/// Nothing is to be done where there are no tasks.
pub fn graph_without_tasks_is_complete()
    ensures { GraphWithoutTasksIsComplete }
{}
