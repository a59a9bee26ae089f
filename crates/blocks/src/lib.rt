// One block of 512 bytes (document 01, 'Front file, form 1'): numbers in it, and its check.
//
// get::<N>, get_signed         a big-endian number of N bytes at a place of a lent block; a signed one of 8 bytes
// set::<N>, set_signed         the same stored
// zero_from                    whether the bytes from a place on are zero
// check_of, check_fits, seal   the check of RFC 1071 over a block; whether the stored one is it; storing it
// Block::                      the sizes of a block
//
// The caller lends the block and has made sure of the room. Read specs/Fields.antt and specs/Check.antt.
// Laws for other crates: proofs/FieldLaws.antt (what is stored is read back, and the rest stays), proofs/ByteLaws.antt (numbers that are
// equal have equal bytes), proofs/CheckLaws.antt (the check looks at no byte before the third; the worked example of the RFC).
#![tactic(auto)]

mod block; // block.rt: the sizes of a block
mod fields; // fields.rt: numbers in a block
mod zeros; // zeros.rt: bytes that are zero
mod check; // check.rt: the Internet checksum

pub use block::Block;
pub use check::{check_fits, check_of, seal};
pub use fields::{get, get_signed, set, set_signed};
pub use zeros::zero_from;
