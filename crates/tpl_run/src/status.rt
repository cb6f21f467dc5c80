//! Where a task stands.

ghost use Rattle.std.specs.Prelude.{◌≡◌};
ghost use Rattle.tpl_run.specs.Prelude.{opening_of, status_from};

use tpl_graph::Kind;
use tpl_model::{Actor, Final, Status};

/// Where a task stands that hasn't begun.
pub fn opening(kind: Kind, started: bool, released: bool) -> Status
    ensures { result ≡ opening_of kind started released }
{
    match kind {
        Kind::Root => Status::WaitingToRun,
        Kind::Child => {
            if started || released {
                Status::WaitingToRun
            } else {
                Status::Created
            }
        }
        Kind::Then | Kind::All | Kind::Any => {
            if released {
                Status::WaitingToRun
            } else {
                Status::WaitingForActivation
            }
        }
    }
}

/// Where a task stands, by how it ended, whether its body was left, who began it, and where it stood before.
pub fn status_from(ended: Option<Final>, left: bool, begun: Option<Actor>, before: Status) -> Status
    ensures { result ≡ status_from ended left begun before }
{
    if let Some(status) = ended {
        return Status::Completed(status);
    }
    if left {
        return Status::WaitingForChildrenToComplete;
    }
    match begun {
        Some(_) => Status::Running,
        None => before,
    }
}
