//! Text as it stands between the tags of HTML.

ghost use Rattle.std.specs.Prelude.{◌≡◌, ◌++◌, OnOk, encode_utf8, string_bytes};
ghost use Rattle.tpl_page.specs.Prelude.{escaped};

use std::alloc::AllocError;

/// Adds a character as it stands between tags.
fn add_letter(text: &mut String, letter: char) -> Result<(), AllocError>
    ensures { OnOk result (string_bytes text.new
        ≡ string_bytes text.old ++ escaped (encode_utf8 letter)) }
{
    match letter {
        '&' => text.push_str("&amp;"),
        '<' => text.push_str("&lt;"),
        other => text.push(other),
    }
}

/// Adds a text as it stands between tags.
pub(crate) fn add_escaped(text: &mut String, added: &str) -> Result<(), AllocError>
    ensures { OnOk result (string_bytes text.new
        ≡ string_bytes text.old ++ escaped added.now) }
{
    for letter in added.chars() {
        add_letter(text, letter)?;
    }
    Ok(())
}
