// Lines, one behind another.
ghost use Rattle.std.specs.Prelude.{◌≡◌, ◌++◌, IfOk};
ghost use Rattle.review.specs.Lines.{line_text};
ghost use Rattle.review.specs.Telling.{lines_text};

use crate::lines::Line;
use std::alloc::{AllocError, Global};

pub(crate) fn joined(heap: Global, lines: &[Line]) -> Result<Vec<u8>, AllocError>
    ensures { IfOk result (λ text. text.items ≡ lines_text lines.now) }
{
    let mut text = Vec::new(heap);
    for line in lines {
        add_line(&mut text, line)?;
    }
    Ok(text)
}

fn add_line(text: &mut Vec<u8>, line: &Line) -> Result<(), AllocError>
    ensures { IfOk result (λ _. text.new.items ≡ text.old.items ++ line_text line.now) }
{
    let start = text.len();
    let end = start.saturating_add(line.len());
    text.resize(end, 0)?;
    // There is room for just this line.
    let _ = line.write(&mut text[start..]);
    Ok(())
}
