//! How many statements and sites a body has, and how deep it nests.

ghost use Rattle.std.specs.Prelude.{◌≡◌, ◌+◌, ◌<◌, ◌≤◌, ◌⊎◌, IfSome, IfNone};
ghost use Rattle.tpl_draft.specs.Prelude.{count_line, count_site, levels_in, line_count, line_of, site_count};
ghost use Rattle.tpl_draft.specs.Draft.{levels as level_count};

use crate::draft::{DraftBody, DraftStmt};

/// How many more statements and sites there may be.
#[derive(Clone, Copy)]
pub struct Room {
    pub statements: u8,
    pub sites: u16,
}

/// What is left of the room behind the body. None where the body has more, or nests deeper than `levels`.
#[cycle(room)]
pub fn room_behind(body: &DraftBody, room: Room, levels: u8) -> Option<Room>
    ensures statements { IfSome result (λ left. left.statements + line_count body.now
        ≡ room.statements) }
    ensures sites { IfSome result (λ left. left.sites + site_count body.now ≡ room.sites) }
    ensures levels { IfSome result (λ left. level_count body.now ≤ levels) }
    ensures exceeds { IfNone result ((room.statements < line_count body.now)
        ⊎ ((levels < level_count body.now) ⊎ (room.sites < site_count body.now))) }
{
    if levels == 0 {
        return None;
    }
    let mut left = room;
    for statement in body.list() {
        left = room_behind_statement(statement, left, levels)?;
    }
    Some(left)
}

#[cycle(room)]
fn room_behind_statement(statement: &DraftStmt, room: Room, levels: u8) -> Option<Room>
    requires { 0 < levels }
    ensures statements { IfSome result (λ left. left.statements + count_line (line_of statement.now)
        ≡ room.statements) }
    ensures sites { IfSome result (λ left. left.sites + count_site (line_of statement.now)
        ≡ room.sites) }
    ensures levels { IfSome result (λ left. levels_in (line_of statement.now) ≤ levels) }
    ensures exceeds { IfNone result ((room.statements < count_line (line_of statement.now))
        ⊎ ((levels < levels_in (line_of statement.now))
        ⊎ (room.sites < count_site (line_of statement.now)))) }
{
    let statements = room.statements.checked_sub(1)?;
    let sites = room.sites;
    match statement {
        DraftStmt::Work(_, _) => {
            let sites = sites.checked_sub(1)?;
            Some(Room { statements, sites })
        }
        DraftStmt::If(_, yes, no) | DraftStmt::When(_, yes, no) => {
            let left = room_behind(yes, Room { statements, sites }, levels - 1)?;
            room_behind(no, left, levels - 1)
        }
        _ => Some(Room { statements, sites }),
    }
}
