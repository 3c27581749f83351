// Making a script, and adding calls to it.
ghost use Rattle.std.specs.Prelude.{◌≡◌, IfOk};
ghost use Rattle.runs.specs.Scripts.{written, blank, Added};

use crate::calls::Call;
use crate::scripts::Script;
use std::alloc::{AllocError, Global};

impl<A, B> Script<A, B> {
    // A script without calls. Want of memory is an answer of this call and of no other in this crate.
    pub fn new(heap: Global, most: usize) -> Result<Script<A, B>, AllocError>
        ensures { IfOk result (λ s. written s ≡ blank most) }
    {
        let calls = Vec::with_capacity(heap, most)?;
        let answers = match Vec::with_capacity(heap, most) {
            Ok(answers) => answers,
            Err(wanting) => {
                calls.destroy_empty();
                return Err(wanting);
            }
        };
        Ok(Script {
            calls,
            answers,
            most,
        })
    }

    // One call more at the end. Where there are as many as the script has room for, the call is handed back.
    pub fn add(&mut self, call: Call<A, B>) -> Result<(), Call<A, B>>
        ensures { Added (written self.old) call result (written self.new) }
    {
        if self.calls.len() >= self.most {
            return Err(call);
        }
        self.calls.push_reserved(call);
        Ok(())
    }
}
