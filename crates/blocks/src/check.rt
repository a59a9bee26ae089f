// The check of a block: the Internet checksum of RFC 1071, with bytes 0-1 taken as zero.
ghost use Rattle.std.specs.Prelude.{◌≡◌, ◌<◌, length};
ghost use Rattle.blocks.specs.Fields.{block_len, put};
ghost use Rattle.blocks.specs.Check.{fold, check_of, CheckFits};
ghost use Rattle.instance.specs.Tests.{Decides};

use crate::block::Block;
use crate::fields::{get, set};

// A sum with the carry out of 16 bits added back in at the low end.
fn carried(sum: u64) -> u64
    requires { sum < 131072 }
    ensures { result ≡ fold sum }
{
    sum % 65_536 + sum / 65_536
}

// The check of a block: words are added one by one, the carry folded in each time. A slice is kept, since the writer lends a part of the file.
pub fn check_of(block: &[u8]) -> u64
    requires { length block.now ≡ block_len }
    ensures value { result ≡ check_of block.now }
    ensures small { result < 65536 }
{
    let (words, _) = block.as_chunks::<2>();
    let mut sum = 0;
    for word in &words[1..] {
        sum = carried(sum + get::<2>(word, 0));
    }
    Block::MAX16 - sum
}

// Whether the stored check is the computed one.
pub fn check_fits(block: &[u8; Block::LEN]) -> bool
    ensures { Decides result (CheckFits block.now) }
{
    get::<2>(block, 0) == check_of(block)
}

// Stores the check.
pub fn seal(block: &mut [u8])
    requires { length block.old ≡ block_len }
    ensures { block.new ≡ put 2 block.old 0 (check_of block.old) }
{
    let check = check_of(block);
    set::<2>(block, 0, check);
}
