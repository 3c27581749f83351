// The whole text, line by line, into one content.
ghost use Rattle.std.specs.Prelude.{◌≡◌};
ghost use Rattle.task.specs.Contents.{content_of};
ghost use Rattle.task.specs.Spelled.{spelled, told};

use crate::content::Content;
use crate::fault::{TextFault, Wrong};
use crate::line::{read_items, read_pair};
use crate::number::{byte_of, move_of};
use crate::pieces::Lines;

// Fills `content` with what the text spells. After a fault it holds what was read before it.
pub(crate) fn fill(content: &mut Content, text: &[u8]) -> Result<(), TextFault>
    ensures { told (λ _. content_of content.new) result ≡ spelled text.now }
{
    let mut lines = Lines::new(text);
    read_items(b"left", &mut lines, byte_of, &mut content.left).map_err(|wrong| wrong.at(1))?;
    read_items(b"right", &mut lines, byte_of, &mut content.right).map_err(|wrong| wrong.at(2))?;
    let (left, right) = read_pair(b"pair", &mut lines).map_err(|wrong| wrong.at(3))?;
    content.left_location = left;
    content.right_location = right;
    read_items(b"moves", &mut lines, move_of, &mut content.moves).map_err(|wrong| wrong.at(4))?;
    match lines.next() {
        None => Ok(()),
        Some(_) => Err(Wrong::Surplus.at(5)),
    }
}
