//! The forms of a leaf: what its rows say in `before` and `past`.

ghost use Rattle.std.specs.Prelude.{◌≡◌, ℕ, true, ◌&&◌, IfOk, All};
ghost use Rattle.tpl_analyser.specs.Prelude.{AreOfForm, IsSlimRow, IsUsed};
ghost use Rattle.tpl_model.specs.Prelude.{mem};

use std::alloc::{AllocError, Global};
use tpl_model::{MOST_TASKS, Property, TaskSet};
use tpl_trees::{PlainRow, Row};

/// How much the rows of a certificate say in `before` and `past`. By the rules with tokens a leaf may leave its rows out, and does
/// so but where they are asked for.
#[derive(Clone, Copy, Debug, Drop, PartialEq, Eq)]
pub enum Form {
    /// All that the rules permit.
    Full,
    /// What the claim's proof uses: the first task of an `after`, and for other claims nothing.
    Slim,
    /// All that the rules permit, also where a leaf may leave its rows out.
    Rows,
}

/// The rows in this form.
pub(crate) fn in_form(
    alloc: Global,
    form: Form,
    property: Property,
    rows: Vec<Row>,
) -> Result<Vec<Row>, AllocError>
    ensures { IfOk result (λ given. AreOfForm form property given.items) }
{
    match form {
        Form::Full | Form::Rows => Ok(rows),
        Form::Slim => slim(alloc, property, &rows),
    }
}

/// The rows with what the proof of the property uses.
fn slim(alloc: Global, property: Property, rows: &[Row]) -> Result<Vec<Row>, AllocError>
    ensures { IfOk result (λ slim. All (IsSlimRow property) slim.items) }
{
    let used = used(property);
    let mut slim = Vec::new(alloc);
    for row in rows {
        slim.push(with_used(alloc, row, &used)?)?;
    }
    Ok(slim)
}

/// The row with only these tasks left in `before` and `past`.
fn with_used(alloc: Global, row: &Row, used: &TaskSet) -> Result<Row, AllocError>
    ensures before { IfOk result (λ slim. (x : ℕ)
        → mem x slim.row.before ≡ (mem x row.now.row.before && mem x used.now)) }
    ensures past { IfOk result (λ slim. (x : ℕ)
        → mem x slim.row.past ≡ (mem x row.now.row.past && mem x used.now)) }
{
    let said = row.row();
    let chain = said.chain().to_vec(alloc)?;
    let before = said.before().intersection(used);
    let past = said.past().intersection(used);
    let kept = PlainRow::new(said.ends(), said.runs(), before, past, chain);
    Ok(Row::new(kept, row.asked(), row.asks()))
}

/// The tasks that the proof of the property needs in `before` and `past`.
fn used(property: Property) -> TaskSet
    ensures { (x : ℕ) → mem x result ≡ true → IsUsed property x }
{
    let mut used = TaskSet::empty();
    match property {
        Property::After(first, _) if first.0 < MOST_TASKS => used.insert(first),
        _ => {}
    }
    used
}
