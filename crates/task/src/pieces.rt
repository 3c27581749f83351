// The lines of a text, and the words of a line.
ghost use Rattle.std.specs.Prelude.{◌≡◌, ◌≢◌, ◌∷◌, ◌++◌, All, MatchOption};
ghost use Rattle.std.specs.Iterator.{YieldsFirstRef, item_count};
ghost use Rattle.task.specs.Remaining.{lines_left, words_left};
ghost use Rattle.task.specs.Pieces.{lines, words};

// The bytes before the first `end`, and those after it if there is one.
fn cut(text: &[u8], end: u8) -> (&[u8], Option<&[u8]>)
    ensures first { All (λ byte. byte ≢ end) result.0.now }
    ensures whole { MatchOption result.1 (text.now ≡ result.0.now)
        (λ rest. text.now ≡ result.0.now ++ end ∷ rest.now) }
{
    match text.iter().position(|byte| *byte == end) {
        Some(at) => (&text[..at], Some(&text[at + 1..])),
        None => (text, None),
    }
}

// Each line comes without the LF that ends it.
#[derive(Drop)]
pub(crate) struct Lines<'t> {
    rest: &'t [u8],
}

impl<'t> Lines<'t> {
    pub(crate) fn new(text: &'t [u8]) -> Lines<'t>
        ensures { lines_left result ≡ lines text.now }
    {
        Lines { rest: text }
    }
}

impl<'t> Iterator for Lines<'t> {
    type Item = &'t [u8];

    ghost next_gives = { YieldsFirstRef lines_left };

    ghost remaining = { item_count lines_left };

    fn next(&mut self) -> Option<&'t [u8]> {
        if self.rest.is_empty() {
            return None;
        }
        let (line, below) = cut(self.rest, b'\n');
        self.rest = below.unwrap_or(&[]);
        Some(line)
    }
}

// A space stands between two words. After the last word there is no rest.
#[derive(Drop)]
pub(crate) struct Words<'t> {
    rest: Option<&'t [u8]>,
}

impl<'t> Words<'t> {
    pub(crate) fn new(line: &'t [u8]) -> Words<'t>
        ensures { words_left result ≡ words line.now }
    {
        Words { rest: Some(line) }
    }
}

impl<'t> Iterator for Words<'t> {
    type Item = &'t [u8];

    ghost next_gives = { YieldsFirstRef words_left };

    ghost remaining = { item_count words_left };

    fn next(&mut self) -> Option<&'t [u8]> {
        let (word, rest) = cut(self.rest?, b' ');
        self.rest = rest;
        Some(word)
    }
}
