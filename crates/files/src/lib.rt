// Front files (document 01, 'Front file, form 1', refusals 13 to 17): a proper list of points as blocks of 512 bytes, and back.
//
// write_file(objectives, n, points, values, models, file)   writes a list, or refuses 14, then 13 (WriteFileError)
// read_file(file, values, models)                           reads a file, or refuses 15, 16, 17, 14, then 13 (ReadFileError)
// File::                                                    the sizes of a file; Sizes::all ties them to specs/Limits.antt
//
// The caller lends all memory. Read specs/Layout.antt (a file's meaning, block by block), then
// specs/Written.antt and specs/Taken.antt (the contracts).
// Laws: proofs/AnswerLaws.antt (answers are determined), proofs/RoundLaws.antt (reading what was written, writing what was read),
// proofs/CaseLaws.antt (case P11).
#![tactic(auto)]

mod sizes; // sizes.rt: the sizes of a file and where things stand
mod errors; // errors.rt: why a file is not written or read
mod list; // list.rt: the list that is written
mod put; // put.rt: a list as blocks
mod layout; // layout.rt: whether blocks are as they should be
mod take; // take.rt: points out of blocks
mod write; // write.rt: writing a file
mod read; // read.rt: reading a file

pub use errors::{ReadFileError, WriteFileError};
pub use read::{FileHead, read_file};
pub use sizes::{File, Kind, Sizes};
pub use write::write_file;
