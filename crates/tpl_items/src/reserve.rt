//! The list into which a queue is drained, made with the queue so that draining takes no memory.
//!
//! It lies in a table that no thread changes. Threads share the queue and so the list, though jobs
//! cannot be shared: a table may be, since what lies in it is only reached by who owns the table.
//!
//! The table knows for how many jobs it is made, and whoever shares it gets a witness of that number.
ghost use Rattle.std.specs.Prelude.{◌≡◌, ◌≤◌, [], ◌∷◌, IfOk, vec_capacity};

use atomic_table::{Badge, Play, Table, TableRule};
use std::alloc::{AllocError, Global};

/// The table's one word, which is read and never written.
const WORD: usize = 0;

/// The rule of the table: its one place holds an empty list with room for this many values.
pub struct HasRoom;

impl<T> TableRule<Vec<T>, usize, usize> for HasRoom {
    ghost use Rattle.tpl_items.specs.Reserve.{KeepsRoom};

    ghost holds = { λ places state. KeepsRoom (λ v. v.items) (λ v. vec_capacity v) places
        state.homes };

    ghost first = { λ places. places };
}

/// A list that is kept until it is needed.
pub type Reserve<T> = Table<Vec<T>, usize, usize, HasRoom, Global>;

/// What a look at the table shows: the new seat knows what the first one knew, the number of places.
pub struct Told;

impl<T> Play<Vec<T>, usize> for Told {
    ghost use Rattle.std.specs.Prelude.{◌≡◌};

    ghost then = { λ step first found seat. seat ≡ first };
}

/// Reserves an empty list with room for `places` values.
pub(crate) fn reserved<T: Drop>(alloc: Global, places: usize) -> Result<Reserve<T>, AllocError>
    ensures { IfOk result (λ r. (r.shared.key ≡ places) × (r.shared.table_id.words ≡ 1)) }
{
    let list = Vec::with_capacity(alloc, places)?;
    let lists = Vec::from_array(alloc, [list])?;
    match Table::new(alloc, &[0], lists, &places) {
        Ok((reserve, _seat)) => Ok(reserve),
        Err(_) => Err(AllocError),
    }
}

/// A witness of the number of places that the list was made for. It has no bytes.
pub(crate) fn witness<T>(reserve: &Reserve<T>) -> Badge<usize>
    requires { reserve.now.shared.table_id.words ≡ 1 }
    ensures { result.views ≡ reserve.now.shared.key ∷ [] }
{
    let (_, seat) = reserve.shared.load_new_seat::<Told>(WORD);
    seat.into_badge()
}

/// The list that was kept.
pub(crate) fn unreserved<T: Drop>(reserve: Reserve<T>) -> Vec<T>
    ensures empty { result.items ≡ [] }
    ensures room { reserve.shared.key ≤ vec_capacity result }
{
    let mut closed = reserve.close();
    let list = closed.take(0);
    closed.free();
    list
}
