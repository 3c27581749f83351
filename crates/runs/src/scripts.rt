// Lists of calls, with room for their answers.
pub mod adding;

ghost use Rattle.std.specs.Prelude.{◌≡◌, ◌≤◌, vec_len, vec_capacity};

use crate::calls::{Answer, Call};

// Up to `most` calls. The room for them and for their answers is had when the script is made.
#[derive(Drop)]
pub struct Script<A, B> {
    pub(crate) calls: Vec<Call<A, B>>,
    pub(crate) answers: Vec<Answer<A, B>>,
    pub(crate) most: usize,
    ghost few: { vec_len calls ≤ most },
    ghost reserved: { (most ≤ vec_capacity calls) × (most ≤ vec_capacity answers) },
    ghost unanswered: { vec_len answers ≡ 0 },
}
