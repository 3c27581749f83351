// What a single word spells.
ghost use Rattle.std.specs.Prelude.{◌≡◌, ◌<◌, ◌≤◌, ◌+◌, ◌*◌, ◌^◌, IfOk};
ghost use Rattle.std.specs.Char.{digit_value};
ghost use Rattle.std.specs.Option.{SomeIff, ok_or};
ghost use Rattle.task.specs.Words.{byte_of, hex_digit, move_number, number_of};

use crate::fault::Wrong;

const MOST_LEFT: u32 = 255;

const FIRST_RIGHT: u16 = 256;

const MOST_RIGHT: u32 = 65279;

pub(crate) fn number_of(word: &[u8], limit: u32) -> Option<u32>
    ensures { result ≡ number_of limit word.now }
{
    if word.is_empty() {
        return None;
    }
    // One pass, which stops at the first byte that is no digit or leads past the limit.
    word.iter().try_fold(
        0,
        |number: u32, byte|
            ensures { let longer = number * 10 + digit_value byte.now in
                SomeIff result ((digit_value byte.now < 10) × (longer < 2 ^ 32) × (longer ≤ limit)) longer }
        {
            let digit = char::from(*byte).to_digit(10)?;
            let number = number.checked_mul(10)?.checked_add(digit)?;
            (number <= limit).then_some(number)
        },
    )
}

fn hex_digit(digit: u8) -> Result<u8, Wrong>
    ensures value { result ≡ ok_or (hex_digit digit) Wrong.Byte }
    ensures bound { IfOk result (λ d. d < 16) }
{
    let value = char::from(digit).to_digit(16).ok_or(Wrong::Byte)?;
    Ok(value as u8)
}

pub(crate) fn byte_of(word: &[u8]) -> Result<u8, Wrong>
    ensures { result ≡ ok_or (byte_of word.now) Wrong.Byte }
{
    let [high, low] = word else {
        return Err(Wrong::Byte);
    };
    Ok(16 * hex_digit(*high)? + hex_digit(*low)?)
}

pub(crate) fn move_of(word: &[u8]) -> Result<u16, Wrong>
    ensures { result ≡ ok_or (move_number word.now) Wrong.Move }
{
    let number = match word {
        [b'L', digits @ ..] => number_of(digits, MOST_LEFT).map(|n| n as u16),
        [b'R', digits @ ..] => number_of(digits, MOST_RIGHT).map(|n| FIRST_RIGHT + n as u16),
        _ => None,
    };
    number.ok_or(Wrong::Move)
}
