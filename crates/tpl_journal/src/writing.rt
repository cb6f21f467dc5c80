//! Writing a whole text.

ghost use Rattle.tpl_journal.specs.Prelude.{WritesText};

use crate::counting::Counting;
use std::io::Write;
use thiserror::Error;

/// A write or the flush after it failed, or a write took nothing of what was left.
#[derive(Clone, Copy, Debug, Drop, PartialEq, Eq, Error)]
#[error("a write failed")]
pub struct WriteFault;

/// Writes the text. After a fault a front of it was written, and nothing after the failed call.
pub fn write_all<W: Write>(text: &[u8], to: &mut Counting<W>) -> Result<(), WriteFault>
    ensures { WritesText W.contents to.old to.new text.now result }
{
    let mut written = 0;
    while written < text.len() {
        match to.write(&text[written..]) {
            Ok(0) => return Err(WriteFault),
            Ok(count) => written += count,
            Err(_) => return Err(WriteFault),
        }
    }
    Ok(())
}

/// Writes and flushes the text. After a fault a front of it was written, which may be all of it,
/// and nothing after the failed call.
pub fn write_whole<W: Write>(text: &[u8], to: &mut Counting<W>) -> Result<(), WriteFault>
    ensures { WritesText W.contents to.old to.new text.now result }
{
    write_all(text, to)?;
    to.flush().map_err(|_| WriteFault)
}
