//! Two members of one name in an object, of which the last one counts.

use crate::misread::misfit::Line;
use crate::misread::say::quoted;
use crate::misread::walk::{Area, Step, Teller, path_to};
use json::Value;
use std::alloc::AllocError;

/// The most members of an object that are compared with each other; no object that is read has more.
const MOST_COMPARED: usize = 64;

/// The name of a member that stands before too.
fn twice<'v>(members: &'v [(&str, Value<'_>)]) -> Option<&'v str> {
    for (index, member) in members.iter().take(MOST_COMPARED).enumerate() {
        if members
            .iter()
            .take(index)
            .any(|before| before.0 == member.0)
        {
            return Some(member.0);
        }
    }
    None
}

/// A name that an object has twice, if there is one; the steps to the object are added, the innermost first.
type Search<'v> = Result<Option<&'v str>, AllocError>;

#[cycle(twice)]
fn visit<'v>(steps: &mut Vec<Step<'v>>, value: &'v Value<'_>) -> Search<'v> {
    match value {
        Value::Array(items) => visit_items(steps, items.as_slice()),
        Value::Object(members) => match twice(members.as_slice()) {
            Some(name) => Ok(Some(name)),
            None => visit_members(steps, members.as_slice()),
        },
        _ => Ok(None),
    }
}

#[cycle(twice)]
fn visit_items<'v>(steps: &mut Vec<Step<'v>>, items: &'v [Value<'_>]) -> Search<'v> {
    for (index, item) in items.iter().enumerate() {
        if let Some(name) = visit(steps, item)? {
            steps.push(Step::Index(index))?;
            return Ok(Some(name));
        }
    }
    Ok(None)
}

#[cycle(twice)]
fn visit_members<'v>(steps: &mut Vec<Step<'v>>, members: &'v [(&str, Value<'_>)]) -> Search<'v> {
    for member in members {
        if let Some(name) = visit(steps, &member.1)? {
            steps.push(Step::Member(member.0))?;
            return Ok(Some(name));
        }
    }
    Ok(None)
}

impl<'v, 't> Teller<'v, 't> {
    /// The line about the first object of a part that has two members of one name.
    pub(crate) fn member_twice_line(self, area: Area) -> Line {
        let Some(part) = self.part(area) else {
            return Ok(None);
        };
        let mut steps = Vec::new(self.alloc);
        match visit(&mut steps, part.value)? {
            None => Ok(None),
            Some(name) => {
                let path = path_to(&steps, self.path_of(area)?)?;
                let name = quoted(self.alloc, name)?;
                let said = format!(in self.alloc;
                    "the member {name} stands twice, and the last one counts"
                )?;
                self.line(area, path.as_str(), said.as_str())
            }
        }
    }
}
