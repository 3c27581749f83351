// The steps of one location.
ghost use Rattle.std.specs.Prelude.{◌≡◌, ◌≤◌, length};
ghost use Rattle.locks.specs.Limits.{most_steps};

use locks::steps::{Kind, MOST_STEPS, Step};

const ROW: usize = MOST_STEPS as usize;

// Up to 16 steps in order. Places from `count` on mean nothing.
#[derive(Clone, Copy)]
pub(crate) struct Row {
    steps: [Step; ROW],
    count: u8,
    ghost whole: { length steps ≡ most_steps },
    ghost few: { count ≤ most_steps },
}

impl Row {
    ghost use Rattle.std.specs.Prelude.{◌<◌, [], ◌∷◌, ◌++◌};
    ghost use Rattle.readers.specs.Rows.{row_steps};

    pub(crate) fn empty() -> Row
        ensures { row_steps result ≡ [] }
    {
        let blank = Step {
            kind: Kind::Plain,
            lock: 0,
            target: 0,
        };
        Row {
            steps: [blank; ROW],
            count: 0,
        }
    }

    pub(crate) fn as_slice(&self) -> &[Step]
        ensures { result.now ≡ row_steps self.now }
    {
        &self.steps[0..usize::from(self.count)]
    }

    // One step more, behind the others.
    pub(crate) fn push(&mut self, step: Step)
        requires { length (row_steps self.old) < most_steps }
        ensures { row_steps self.new ≡ row_steps self.old ++ step ∷ [] }
    {
        self.steps[usize::from(self.count)] = step;
        self.count += 1;
    }
}
