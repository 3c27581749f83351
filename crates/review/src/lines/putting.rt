// Puts texts one behind another into lent space, as long as they fit, and counts their bytes in any case.
ghost use Rattle.std.specs.Prelude.{◌∷◌, ◌++◌, ℕ, List};
ghost use Rattle.std.specs.Fmt.{decimal};
ghost use Rattle.review.specs.Lines.{move_text, moves_text, Filled};

use itoa::Buffer;
use locks::moves::FIRST_RIGHT;

// The bytes from `at` on, and where they end.
pub(crate) fn put(space: &mut [u8], at: usize, bytes: &[u8]) -> usize
    ensures { (before text : List ℕ) → Filled before text space.old at → Filled before (text ++ bytes.now) space.new result }
{
    let end = at.saturating_add(bytes.len());
    if end <= space.len() {
        space[at..end].copy_from_slice(bytes);
    }
    end
}

pub(crate) fn put_number(space: &mut [u8], at: usize, number: u64) -> usize
    ensures { (before text : List ℕ) → Filled before text space.old at → Filled before (text ++ decimal number) space.new result }
{
    put(space, at, Buffer::new().format(number).as_bytes())
}

fn put_move(space: &mut [u8], at: usize, number: u16) -> usize
    ensures { (before text : List ℕ) → Filled before text space.old at → Filled before (text ++ move_text number) space.new result }
{
    if number < FIRST_RIGHT {
        put_choice(space, at, b'L', number)
    } else {
        put_choice(space, at, b'R', number - FIRST_RIGHT)
    }
}

// A space, a letter and a number. Choices of one digit are by far the most, and so have a way of their own.
fn put_choice(space: &mut [u8], at: usize, letter: u8, choice: u16) -> usize
    ensures { (before text : List ℕ) → Filled before text space.old at → Filled before (text ++ (32 ∷ letter ∷ decimal choice)) space.new result }
{
    if choice < 10 {
        put(space, at, &[b' ', letter, b'0' + choice as u8])
    } else {
        let end = put(space, at, &[b' ', letter]);
        put_number(space, end, u64::from(choice))
    }
}

pub(crate) fn put_moves(space: &mut [u8], at: usize, moves: &[u16]) -> usize
    ensures { (before text : List ℕ) → Filled before text space.old at → Filled before (text ++ moves_text moves.now) space.new result }
{
    let mut end = at;
    for number in moves {
        end = put_move(space, end, *number);
    }
    end
}
