// A review file: LEFT and RIGHT with a listing each, at most one RENAME, any number of PAIR, and END.
mod content;
mod fault;
mod kind;
mod laws;
mod phase;
mod reader;
mod review;
mod section;
mod taking;
#[cfg(test)]
mod tests;
mod words;

pub use fault::{FileFault, Within};
pub use laws::{
    faults_stand_at_their_offsets, files_read_back, sections_stand_behind_headers,
    worked_file_is_its_bytes, worked_files_are_refused,
};
pub use phase::Phase;
pub use reader::Reader;
pub use review::Review;
pub use section::Section;

// A file has at most so many bytes.
pub const MOST_BYTES: usize = 32768;
