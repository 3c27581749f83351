// Writing a text to its end, with what stands written where that fails.
#![tactic(auto)]

ghost use Rattle.output.specs.Fronts.{WritesText};

use std::io;
use std::io::{ErrorKind, Write};

// Writes the text and flushes it. Where that fails, nothing but a front of the text was written.
pub fn print<W: Write>(output: &mut W, text: &[u8]) -> io::Result<()>
    ensures { WritesText (W.contents output.old) (W.contents output.new) text.now result }
{
    write_text(output, text)?;
    output.flush()
}

// The writer's own `write_all` says nothing of what stands written after an error.
fn write_text<W: Write>(output: &mut W, text: &[u8]) -> io::Result<()>
    ensures { WritesText (W.contents output.old) (W.contents output.new) text.now result }
{
    let mut at = 0;
    // A writer that is always interrupted is given up in the end.
    for _ in 0..u64::MAX {
        if at == text.len() {
            return Ok(());
        }
        match output.write(&text[at..]) {
            Ok(0) => return Err(ErrorKind::WriteZero.into()),
            Ok(count) => at += count,
            Err(error) if error.kind() == ErrorKind::Interrupted => {}
            Err(error) => return Err(error),
        }
    }
    Err(ErrorKind::Interrupted.into())
}
