// Takes the sections off a file, front to back.
mod next;

ghost use Rattle.std.specs.Prelude.{◌≤◌, length};
ghost use Rattle.review.specs.Limits.{most_bytes};

use crate::file::Phase;

// `rest` is what is not taken yet, and `size` the number of bytes of the whole file.
#[derive(Drop)]
pub struct Reader<'f> {
    rest: &'f [u8],
    size: usize,
    phase: Phase,
    ghost inside: { length rest.now ≤ size },
    ghost short: { size ≤ most_bytes },
}
