// The sections of a file.
use layers::names::NAMES;

// What one command hands over. The bytes of a listing, or the eight numbers of a renaming, are a part of the file, and
// `place` is the offset of the first of them.
#[derive(Clone, Copy, Debug)]
pub enum Section<'f> {
    Left {
        bytes: &'f [u8],
        place: usize,
    },
    Right {
        bytes: &'f [u8],
        place: usize,
    },
    Rename {
        numbers: &'f [u8; NAMES],
        place: usize,
    },
    Pair {
        left: u16,
        right: u16,
    },
    End,
}
