//! Which lists of tasks are graphs.

ghost use Rattle.tpl_examples.specs.ValidGraphs.{GraphOfEveryKind, LengthOfBodies, LevelsOfBodies, TokensAndInputs, NumberOfJobs, JobStandsOnce, NumberOfArguments, SourcesOfLinks, IdsAreTheGraphs, AntecedentsAndArguments, CombinatorsAreBare, WordsOfEachKind, WordsThatExcludeEachOther, OnlyContinuationsRead, PlaceOfChildren, BoundOfAGraph};

/// Tasks of every kind are a graph; no run of it is longer than its 2 tokens, 4 for each of its 10 tasks, and its 18
/// statements.
pub fn graph_of_every_kind()
    ensures { GraphOfEveryKind }
{}

/// A body has at most 64 statements, those in its branches too.
pub fn length_of_bodies()
    ensures { LengthOfBodies }
{}

/// A body has at most 8 levels.
pub fn levels_of_bodies()
    ensures { LevelsOfBodies }
{}

/// There are at most 32 tokens and 16 inputs.
pub fn tokens_and_inputs()
    ensures { TokensAndInputs }
{}

/// There are at most 256 jobs.
pub fn number_of_jobs()
    ensures { NumberOfJobs }
{}

/// A job stands at one place of one body.
pub fn job_stands_once()
    ensures { JobStandsOnce }
{}

/// WhenAll and WhenAny have at most 256 arguments, and WhenAny has one.
pub fn number_of_arguments()
    ensures { NumberOfArguments }
{}

/// A link has 1 to 32 sources, each declared before it.
pub fn sources_of_links()
    ensures { SourcesOfLinks }
{}

/// Each id in a body, at every depth, and a task's own token are the graph's.
pub fn ids_are_the_graphs()
    ensures { IdsAreTheGraphs }
{}

/// Antecedents and arguments are declared before, and are no children.
pub fn antecedents_and_arguments()
    ensures { AntecedentsAndArguments }
{}

/// WhenAll and WhenAny have no body, no token and no option words.
pub fn combinators_are_bare()
    ensures { CombinatorsAreBare }
{}

/// A word of continuations stands on no root and no child, and a bit that is no word on none.
pub fn words_of_each_kind()
    ensures { WordsOfEachKind }
{}

/// A continuation may start after some end, and isn't both long running and synchronous.
pub fn words_that_exclude_each_other()
    ensures { WordsThatExcludeEachOther }
{}

/// Only a continuation observes, or branches on how a task ended.
pub fn only_continuations_read()
    ensures { OnlyContinuationsRead }
{}

/// A child is started at one place of one body, that of a task declared before it, and only children are started.
pub fn place_of_children()
    ensures { PlaceOfChildren }
{}

/// No run is longer than the number of tokens, 4 for each task, and the statements, nested ones too.
pub fn bound_of_a_graph()
    ensures { BoundOfAGraph }
{}
