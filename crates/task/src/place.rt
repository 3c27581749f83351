// A place for one task. A text is read into the spare content, which is shown only if the whole text was fine.
ghost use Rattle.std.specs.Prelude.{◌≡◌, ◌≤◌, length, IfOk};
ghost use Rattle.task.specs.Contents.{empty, kept};
ghost use Rattle.task.specs.Places.{task_of};
ghost use Rattle.task.specs.Spelled.{spelled, told};

use crate::content::Content;
use crate::fault::TextFault;
use crate::reading::fill;
use std::alloc::{AllocError, Global};
use std::mem;

#[derive(Drop)]
pub struct Task {
    shown: Content,
    spare: Content,
}

impl Task {
    // An empty task, with all the memory that any task needs.
    pub fn new(heap: Global) -> Result<Task, AllocError>
        ensures { IfOk result (λ t. task_of t ≡ empty) }
    {
        Ok(Task {
            shown: Content::new(heap)?,
            spare: Content::new(heap)?,
        })
    }

    // Takes the task that the text spells, or names the first fault and stays as it was.
    pub fn read(&mut self, text: &[u8]) -> Result<(), TextFault>
        ensures answer { result ≡ told (λ _. tt) (spelled text.now) }
        ensures place { task_of self.new ≡ kept (task_of self.old) (spelled text.now) }
    {
        fill(&mut self.spare, text)?;
        mem::swap(&mut self.shown, &mut self.spare);
        Ok(())
    }

    pub fn left(&self) -> &[u8]
        ensures value { result.now ≡ (task_of self.now).left }
        ensures bound { length result.now ≤ 4096 }
    {
        self.shown.left.as_slice()
    }

    pub fn right(&self) -> &[u8]
        ensures value { result.now ≡ (task_of self.now).right }
        ensures bound { length result.now ≤ 4096 }
    {
        self.shown.right.as_slice()
    }

    pub fn left_location(&self) -> u32
        ensures { result ≡ (task_of self.now).left_location }
    {
        self.shown.left_location
    }

    pub fn right_location(&self) -> u32
        ensures { result ≡ (task_of self.now).right_location }
    {
        self.shown.right_location
    }

    pub fn moves(&self) -> &[u16]
        ensures value { result.now ≡ (task_of self.now).moves }
        ensures bound { length result.now ≤ 4096 }
    {
        self.shown.moves.as_slice()
    }
}
