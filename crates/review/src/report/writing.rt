// What a program prints of a review file: here an answer becomes text.
ghost use Rattle.std.specs.Prelude.{◌≡◌, ◌+◌, take, vec_items, IfOk, IfSome};
ghost use Rattle.output.specs.Fronts.{Prints};
ghost use Rattle.review.specs.Limits.{most_bytes};
ghost use Rattle.review.specs.Lines.{line_text};
ghost use Rattle.review.specs.Reports.{as_text, refusal_line, of_thread, Reports, StandsFor};

use crate::file::{MOST_BYTES, Within};
use crate::lines::Line;
use crate::report::joining::joined;
use crate::report::{ReportError, report};
use locks::refusals::Refusal;
use locks::together::Side;
use output::print;
use std::alloc::{AllocError, Global};
use std::io;
use std::io::{Read, Write};

// Reads a review file, and writes its report, or the one line of its refusal, and nothing else. Input or output that
// fails is an error, and so it is to be out of memory; nothing but a front of the report is written then.
pub fn print_report<R: Read + Drop, W: Write>(
    heap: Global,
    input: R,
    output: &mut W,
) -> io::Result<()>
    ensures { IfSome (R.remaining input) (λ file. Prints (Reports file) (W.contents output.old) (W.contents output.new) result) }
{
    let file = read_file(heap, input)?;
    let text = report_text(heap, &file)?;
    print(output, &text)
}

// One byte more than a file may have decides that it is too long, however many follow.
fn read_file<R: Read + Drop>(heap: Global, input: R) -> io::Result<Vec<u8>>
    ensures { IfOk result (λ file. IfSome (R.remaining input) (λ bytes. vec_items file ≡ take (most_bytes + 1) bytes)) }
{
    let mut file = Vec::new(heap);
    input.take(MOST_BYTES as u64 + 1).read_to_end(&mut file)?;
    Ok(file)
}

fn report_text(heap: Global, file: &[u8]) -> Result<Vec<u8>, AllocError>
    ensures { IfOk result (λ text. Reports file.now (vec_items text)) }
{
    in_text(heap, report(heap, file))
}

// The lines, or the line of the refusal.
fn in_text(heap: Global, answer: Result<Vec<u8>, ReportError>) -> Result<Vec<u8>, AllocError>
    ensures { IfOk result (λ text. StandsFor (as_text vec_items answer) (vec_items text)) }
{
    match answer {
        Ok(lines) => Ok(lines),
        Err(ReportError::OutOfMemory) => Err(AllocError),
        Err(ReportError::File(fault)) => joined(heap, &[refused(fault.refusal(), fault.within())]),
        Err(ReportError::Summary { side, fault }) => {
            joined(heap, &[refused(fault.refusal(), of_thread(side))])
        }
    }
}

fn refused(refusal: Refusal, within: Within) -> Line<'static>
    ensures { line_text result ≡ refusal_line refusal within }
{
    Line::Refused {
        number: refusal.number,
        place: refusal.place,
        within,
    }
}

fn of_thread(side: Side) -> Within
    ensures { result ≡ of_thread side }
{
    match side {
        Side::Left => Within::Left,
        Side::Right => Within::Right,
    }
}
