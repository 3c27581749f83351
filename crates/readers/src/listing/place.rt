// The place of a listing. What it holds is well formed from the making on.
mod questions;
mod reading;

ghost use Rattle.std.specs.Prelude.{◌≡◌, ◌≤◌, true, vec_capacity};
ghost use Rattle.readers.specs.Flow.{most, is_well_formed};

use crate::listing::Command;

// It has no `impl Model`: seen as a list of commands alone, it would not have `sound`, by which its graph is within the bounds.
#[derive(Drop)]
pub struct Listing {
    commands: Vec<Command>,
    ghost room: { most ≤ vec_capacity commands },
    ghost sound: { is_well_formed commands.items ≡ true },
}
