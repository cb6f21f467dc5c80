//! When a certificate is accepted, by tests that compute, and the first place at which one fails.

ghost use Rattle.tpl_laws.specs.Prelude.{BeforeIsRight, BelowInOnePass, BelowIsRight, BrokenIsRight, ChainIsRight, EndsIsRight, FaultIsFirst, FirstBrokenIsRight, OneFirstFault, OneFirstTokenFault, ParentIsRight, PastIsRight, PathLaws, ProvesIsRight, RunsIsRight, VerdictIsRight, VerdictIsSound, TokenBrokenIsRight, TokenFaultIsFirst, TokenLeafIsRight, TokenTreeIsRight, TokenVerdictIsRight, TokenVerdictIsSound};

/// The recursion over a body finds what its paths say.
fn path_laws()
    ensures { PathLaws }
{
    tpl_model::may_is_right();
    tpl_model::may_start_is_right();
    tpl_model::must_observe_is_right();
}

/// A task that may begin has a row that runs.
pub fn runs_is_right()
    ensures { RunsIsRight }
{
    path_laws();
}

/// A task's row has each way in which it may end.
pub fn ends_is_right()
    ensures { EndsIsRight }
{
    path_laws();
}

/// What is before a task is settled when it begins.
pub fn before_is_right()
    ensures { BeforeIsRight }
{
    path_laws();
}

/// The search upwards finds the attached children of a task, theirs, and so on.
pub fn below_is_right()
    ensures { BelowIsRight }
{}

/// The tasks below one are found in one pass.
pub fn below_in_one_pass()
    ensures { BelowInOnePass }
{}

/// A child's parent is found.
pub fn parent_is_right()
    ensures { ParentIsRight }
{}

/// What is past a task is settled when it has ended.
pub fn past_is_right()
    ensures { PastIsRight }
{
    path_laws();
}

/// A chain leads to a continuation that reads the task's exception.
pub fn chain_is_right()
    ensures { ChainIsRight }
{
    path_laws();
}

/// What a closed leaf proves.
pub fn proves_is_right()
    ensures { ProvesIsRight }
{
    path_laws();
}

/// The row of a task breaks no rule just where it keeps them all.
pub fn broken_is_right()
    ensures { BrokenIsRight }
{
    path_laws();
}

/// A leaf has no first broken row just where it is closed.
pub fn first_broken_is_right()
    ensures { FirstBrokenIsRight }
{
    path_laws();
}

/// The verdict finds no fault just where the certificate is accepted.
pub fn verdict_is_right()
    ensures { VerdictIsRight }
{
    path_laws();
}

/// Where the verdict finds no fault, each claim holds in every run.
pub fn verdict_is_sound()
    ensures { VerdictIsSound }
{
    path_laws();
    crate::sound::soundness();
}

/// A fault that the verdict names is the first one.
pub fn fault_is_first()
    ensures { FaultIsFirst }
{
    path_laws();
}

/// A certificate has one first fault at most.
pub fn one_first_fault()
    ensures { OneFirstFault }
{}

/// A fault that the verdict names for a certificate of rows with tokens is the first one.
pub fn token_fault_is_first()
    ensures { TokenFaultIsFirst }
{
    path_laws();
}

/// A certificate of rows with tokens has one first fault at most.
pub fn one_first_token_fault()
    ensures { OneFirstTokenFault }
{}

/// The row of a task breaks none of the rules with tokens just where it keeps them all.
pub fn token_broken_is_right()
    ensures { TokenBrokenIsRight }
{
    path_laws();
}

/// A leaf of rows with tokens has no fault just where it is closed and proves the claim.
pub fn token_leaf_is_right()
    ensures { TokenLeafIsRight }
{
    path_laws();
}

/// A tree of rows with tokens fits and has no fault just where it is accepted.
pub fn token_tree_is_right()
    ensures { TokenTreeIsRight }
{
    path_laws();
}

/// The verdict on a certificate of rows with tokens finds no fault just where it is accepted.
pub fn token_verdict_is_right()
    ensures { TokenVerdictIsRight }
{
    path_laws();
}

/// Where that verdict finds no fault, each claim holds in every run.
pub fn token_verdict_is_sound()
    ensures { TokenVerdictIsSound }
{
    path_laws();
    crate::sound::token_soundness();
}
