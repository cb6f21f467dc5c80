//! Texts in parts.

ghost use Rattle.std.specs.Prelude.{flat_map};
ghost use Rattle.tpl_journal.specs.Prelude.{WritesText};

use crate::counting::Counting;
use crate::writing::{WriteFault, write_all};
use std::io::Write;

/// Writes the parts, one after another. After a fault a front of their text was written.
pub(crate) fn put<W: Write>(parts: &[&str], to: &mut Counting<W>) -> Result<(), WriteFault>
    ensures { WritesText W.contents to.old to.new (flat_map (λ part. part.now) parts.now) result }
{
    for part in parts {
        write_all(part.as_bytes(), to)?;
    }
    Ok(())
}
