//! Reading pieces that several parts have: a member that is a list, and an object of one name.

ghost use Rattle.std.specs.Prelude.{map, option_and_then, IfErr};
ghost use Rattle.serde_json.specs.Find.{get};
ghost use Rattle.tpl_json.specs.Prelude.{Gives, IsShape, list_in, view};
ghost use Rattle.tpl_parts.specs.Prelude.{name_at};

use json::Value;
use tpl_json::{Miss, Shape, has_only, list_of, member_in, text_in};

/// The elements of the member, an array.
pub(crate) fn list_in<'v, 't>(
    value: &'v Value<'t>,
    name: &str,
) -> Result<&'v [Value<'t>], Miss<Shape<'v, 't>>>
    ensures gives { Gives (λ s. map view s.now) result (option_and_then list_in
        (get name.now (view value.now))) }
    ensures shape { IfErr result IsShape }
{
    let list = member_in(value, name)?;
    list_of(list)
}

/// The text of an object's only member.
#[tactic(auto, unfolding(crate::specs::Pieces::name_at))]
pub(crate) fn name_of<'v, 't>(
    value: &'v Value<'t>,
    member: &str,
) -> Result<&'v str, Miss<Shape<'v, 't>>>
    ensures gives { Gives (λ s. s.now) result (name_at member.now (view value.now)) }
    ensures shape { IfErr result IsShape }
{
    if !has_only(value, &[member]) {
        return Err(Miss::Wrong(Shape { at: value }));
    }
    text_in(value, member)
}
