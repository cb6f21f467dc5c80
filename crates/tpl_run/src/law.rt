//! What is true of every run.

ghost use Rattle.tpl_run.specs.Prelude.{OneIsDue};

/// A task never has two acts that are due: where `Core::due` names one of it, there is no other.
pub fn one_is_due()
    ensures { OneIsDue }
{}
