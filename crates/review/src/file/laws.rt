// What reading a file means, apart from how it is done.
ghost use Rattle.review.specs.Commands.{SectionsStandBehindHeaders};
ghost use Rattle.review.specs.Offsets.{FaultsStandAtTheirOffsets};
ghost use Rattle.review.specs.Reviews.{FilesReadBack};
ghost use Rattle.review.specs.WorkedFiles.{WorkedFileIsItsBytes, WorkedFilesAreRefused};

// A file that is written from its parts is read as these, and as nothing else.
pub fn files_read_back()
    ensures { FilesReadBack }
{}

// The place of a section is where its bytes begin.
pub fn sections_stand_behind_headers()
    ensures { SectionsStandBehindHeaders }
{}

// From the offset of a fault in a section on stand the section's bytes from the fault's own place on.
pub fn faults_stand_at_their_offsets()
    ensures { FaultsStandAtTheirOffsets }
{}

// The bytes of a file with each command, worked out by hand.
pub fn worked_file_is_its_bytes()
    ensures { WorkedFileIsItsBytes }
{}

// Files that are refused, with their numbers and places, worked out by hand.
pub fn worked_files_are_refused()
    ensures { WorkedFilesAreRefused }
{}
