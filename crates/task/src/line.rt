// A line of the text: its keyword, then its items.
ghost use Rattle.std.specs.Prelude.{◌≡◌, ℕ, List, [], Option};
ghost use Rattle.std.specs.Option.{ok_or};
ghost use Rattle.task.specs.Remaining.{lines_left, words_left};
ghost use Rattle.task.specs.Spelled.{Computes, each, line_of, opened, pair_of, told};

use crate::fault::Wrong;
use crate::items::Items;
use crate::number::number_of;
use crate::pieces::{Lines, Words};

// The words after the keyword of the next line.
fn open_line<'t>(keyword: &[u8], lines: &mut Lines<'t>) -> Result<Words<'t>, Wrong>
    ensures { told (λ words. (words_left words, lines_left lines.new)) result
        ≡ opened keyword.now (lines_left lines.old) }
{
    let line = lines.next().ok_or(Wrong::Missing)?;
    let mut words = Words::new(line);
    match words.next() {
        Some(word) if word == keyword => Ok(words),
        _ => Err(Wrong::Keyword),
    }
}

// Takes what `item_of` makes of each word, in place of what `items` held.
fn take_items<T: Drop, F: Fn(&[u8]) -> Result<T, Wrong>>(
    words: Words,
    item_of: F,
    items: &mut Items<T>,
) -> Result<(), Wrong>
    requires { F.IsAlwaysCallable item_of }
    ensures { (meaning : List ℕ → Option T) (wrong : Wrong) → Computes F.Fn item_of meaning wrong
        → told (λ _. items.new) result ≡ each meaning wrong [] (words_left words.entry) }
{
    items.clear();
    for word in words {
        items.push(item_of(word)?)?;
    }
    Ok(())
}

// Reads a line of items into `items`.
pub(crate) fn read_items<T: Drop, F: Fn(&[u8]) -> Result<T, Wrong>>(
    keyword: &[u8],
    lines: &mut Lines,
    item_of: F,
    items: &mut Items<T>,
) -> Result<(), Wrong>
    requires { F.IsAlwaysCallable item_of }
    ensures { (meaning : List ℕ → Option T) (wrong : Wrong) → Computes F.Fn item_of meaning wrong
        → told (λ _. (items.new, lines_left lines.new)) result
        ≡ line_of keyword.now (each meaning wrong []) (lines_left lines.old) }
{
    take_items(open_line(keyword, lines)?, item_of, items)
}

// Just two numbers.
fn two_numbers(mut words: Words) -> Option<(u32, u32)>
    ensures { ok_or result Wrong.Number ≡ pair_of (words_left words.entry) }
{
    let first = number_of(words.next()?, u32::MAX)?;
    let second = number_of(words.next()?, u32::MAX)?;
    words.next().is_none().then_some((first, second))
}

// The two numbers of a line.
pub(crate) fn read_pair(keyword: &[u8], lines: &mut Lines) -> Result<(u32, u32), Wrong>
    ensures { told (λ pair. (pair, lines_left lines.new)) result
        ≡ line_of keyword.now pair_of (lines_left lines.old) }
{
    two_numbers(open_line(keyword, lines)?).ok_or(Wrong::Number)
}
