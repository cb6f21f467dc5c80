//! How many statements a body has, and how deep they nest.

ghost use Rattle.std.specs.Prelude.{◌≡◌, ◌+◌, ◌<◌, ◌≤◌, ◌⊎◌, IfSome, IfNone};
ghost use Rattle.tpl_model.specs.Prelude.{count_one, level_count, levels_in, statement_count, statement_of};

use crate::body::{Body, Stmt};

/// How many of `room` statements are left after those of the body. None where it has more, or where it
/// nests deeper than `levels`.
#[cycle(room)]
pub(crate) fn room_behind(body: &Body, room: u8, levels: u8) -> Option<u8>
    ensures fits { IfSome result (λ left. (left + statement_count body.now ≡ room)
        × (level_count body.now ≤ levels)) }
    ensures exceeds { IfNone result ((room < statement_count body.now)
        ⊎ (levels < level_count body.now)) }
{
    if levels == 0 {
        return None;
    }
    let mut left = room;
    for statement in body.list() {
        left = room_behind_statement(statement, left, levels)?;
    }
    Some(left)
}

#[cycle(room)]
fn room_behind_statement(statement: &Stmt, room: u8, levels: u8) -> Option<u8>
    requires { 0 < levels }
    ensures fits { IfSome result (λ left. (left + count_one (statement_of statement.now) ≡ room)
        × (levels_in (statement_of statement.now) ≤ levels)) }
    ensures exceeds { IfNone result ((room < count_one (statement_of statement.now))
        ⊎ (levels < levels_in (statement_of statement.now))) }
{
    let left = room.checked_sub(1)?;
    match statement {
        Stmt::If(_, yes, no) | Stmt::When(_, yes, no) => {
            let left = room_behind(yes, left, levels - 1)?;
            room_behind(no, left, levels - 1)
        }
        _ => Some(left),
    }
}
