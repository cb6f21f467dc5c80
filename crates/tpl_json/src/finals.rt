//! Final statuses, by their names.

ghost use Rattle.std.specs.Prelude.{◌≡◌, map, IfErr};
ghost use Rattle.tpl_json.specs.Prelude.{Gives, IsShape, final_at, final_word, finals_at, no_finals, view, with_final};

use crate::members::text_of;
use crate::miss::{Miss, Shape};
use json::Value;
use tpl_model::{Final, Finals};

#[tactic(auto, unfolding(crate::specs::Finals::final_word))]
fn final_word(word: &str) -> Option<Final>
    ensures { result ≡ final_word word.now }
{
    match word {
        "RanToCompletion" => Some(Final::RanToCompletion),
        "Canceled" => Some(Final::Canceled),
        "Faulted" => Some(Final::Faulted),
        _ => None,
    }
}

/// A final status, by its name.
#[tactic(auto, unfolding(crate::specs::Finals::final_at))]
pub fn final_of<'v, 't>(value: &'v Value<'t>) -> Result<Final, Miss<Shape<'v, 't>>>
    ensures gives { Gives (λ f. f) result (final_at (view value.now)) }
    ensures shape { IfErr result IsShape }
{
    match final_word(text_of(value)?) {
        None => Err(Miss::Wrong(Shape { at: value })),
        Some(ending) => Ok(ending),
    }
}

fn with_final(finals: Finals, ending: Final) -> Finals
    ensures { result ≡ with_final ending finals }
{
    match ending {
        Final::RanToCompletion => Finals {
            ran: true,
            ..finals
        },
        Final::Canceled => Finals {
            canceled: true,
            ..finals
        },
        Final::Faulted => Finals {
            faulted: true,
            ..finals
        },
    }
}

/// The set of the final statuses of an array.
pub fn finals_of<'v, 't>(values: &'v [Value<'t>]) -> Result<Finals, Miss<Shape<'v, 't>>>
    ensures gives { Gives (λ f. f) result (finals_at no_finals (map view values.now)) }
    ensures shape { IfErr result IsShape }
{
    let mut finals = Finals {
        ran: false,
        canceled: false,
        faulted: false,
    };
    for value in values {
        finals = with_final(finals, final_of(value)?);
    }
    Ok(finals)
}
