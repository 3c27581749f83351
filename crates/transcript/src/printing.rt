// The transcript of a text, and how it is printed.
ghost use Rattle.std.specs.Prelude.{IfOk, OnOk, IfSome, string_bytes};
ghost use Rattle.output.specs.Fronts.{Prints};
ghost use Rattle.transcript.specs.Lines.{Adds};
ghost use Rattle.transcript.specs.Transcripts.{TextTold, Transcribes};

use crate::threads::write_task;
use output::print;
use std::alloc::{AllocError, Global};
use std::io;
use std::io::{Read, Write};
use task::Task;

// All that is said of a text: its fault, or what becomes of its threads, its schedule and its pair.
pub fn transcript(heap: Global, text: &[u8]) -> Result<String, AllocError>
    ensures { IfOk result (λ written. Transcribes text.now (string_bytes written)) }
{
    let mut written = String::new(heap);
    write_text(heap, &mut written, text)?;
    Ok(written)
}

// Reads a text to its end and writes its transcript, and nothing else. Input or output that fails is an error, and so it
// is to be out of memory; nothing but a front of the transcript is written then.
pub fn print_transcript<R: Read + Drop, W: Write>(
    heap: Global,
    mut input: R,
    output: &mut W,
) -> io::Result<()>
    ensures { IfSome (R.remaining input) (λ text. Prints (Transcribes text) (W.contents output.old) (W.contents output.new) result) }
{
    let mut text = Vec::new(heap);
    input.read_to_end(&mut text)?;
    let written = transcript(heap, text.as_slice())?;
    print(output, written.as_bytes())
}

fn write_text(heap: Global, written: &mut String, text: &[u8]) -> Result<(), AllocError>
    ensures { OnOk result (Adds (TextTold text.now) (string_bytes written.old) (string_bytes written.new)) }
{
    let mut task = Task::new(heap)?;
    match task.read(text) {
        Ok(()) => write_task(heap, written, &task),
        Err(fault) => writeln!(written, "{fault}"),
    }
}
