//! Graphs of several tasks, and of many.

ghost use Rattle.tpl_examples.specs.ManyTasks.{SevenTasksByOneWorker, SevenTasksByTwoWorkers, RequestsOnTheWay, NumberOfTasks};

/// One worker runs all seven tasks to their ends, in 24 events.
pub fn seven_tasks_by_one_worker()
    ensures { SevenTasksByOneWorker }
{}

/// Two workers run the same tasks to their ends side by side.
pub fn seven_tasks_by_two_workers()
    ensures { SevenTasksByTwoWorkers }
{}

/// A request that comes before a continuation begins cancels it, one that comes later doesn't, and the other tasks run.
pub fn requests_on_the_way()
    ensures { RequestsOnTheWay }
{}

/// Up to 1,024 tasks are a graph, and 1,025 are none.
pub fn number_of_tasks()
    ensures { NumberOfTasks }
{}
