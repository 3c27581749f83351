// Why a review gets no lines.
ghost use Rattle.std.specs.Prelude.{◌≡◌};
ghost use Rattle.review.specs.declared.report.error.ReportError.TheVariants as error;

use crate::file::FileFault;
use locks::together::Side;
use search::faults::SummariseFault;
use std::alloc::AllocError;

// Why a review has no line for its pairs. The fault of a file is carried whole, with the offset of the section that it
// is in.
#[derive(Clone, Copy, Debug, PartialEq, Eq)]
pub enum ReportError {
    OutOfMemory,
    File(FileFault),
    // The thread on this side gets no summary.
    Summary { side: Side, fault: SummariseFault },
}

impl From<AllocError> for ReportError {
    ghost from_gives = { λ _ e. e ≡ error.OutOfMemory };

    fn from(_error: AllocError) -> ReportError {
        ReportError::OutOfMemory
    }
}

impl From<FileFault> for ReportError {
    ghost from_gives = { λ fault e. e ≡ error.File fault };

    fn from(fault: FileFault) -> ReportError {
        ReportError::File(fault)
    }
}
