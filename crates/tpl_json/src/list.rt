//! Reading the items of a list one after another.

ghost use Rattle.tpl_json.specs.Prelude.{Answers, ReadsEach};

use crate::miss::Miss;
use std::alloc::Global;

/// What is read of each item, as far as the first that isn't read; `read` is told an item's number, from 1 on.
pub fn read_each<'a, X, T: Drop, F: Drop, R: Fn(usize, &'a X) -> Result<T, Miss<F>>>(
    alloc: Global,
    items: &'a [X],
    read: R,
) -> Result<Vec<T>, Miss<F>>
    requires { R.IsAlwaysCallable read }
    ensures { ReadsEach (Answers R.Fn read) items.now result }
{
    let mut found = Vec::new(alloc);
    for (index, item) in items.iter().enumerate() {
        let one = read(index + 1, item)?;
        found.push(one)?;
    }
    Ok(found)
}
