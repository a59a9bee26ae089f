// Whether the blocks of a file are checked and laid out as they should be (document 01, refusals 16 and 17).
ghost use Rattle.std.specs.Prelude.{◌≡◌, ◌<◌, ◌≤◌, [], length, slice_index_or};
ghost use Rattle.instance.specs.Tests.{Decides};
ghost use Rattle.files.specs.Layout.{block_at, blocks_in, points_of, HeadFits, PointsFit, BlockLaid, BlockFits, BlockChecked};
ghost use Rattle.files.specs.Structs.{FirstNot};

use crate::sizes::{File, Kind, blocks_for, count_in};
use blocks::{Block, check_fits, get, zero_from};

// The whole blocks of a file.
pub fn blocks_of(file: &[u8]) -> &[[u8; Block::LEN]]
    ensures count { length result.now ≡ blocks_in file.now }
    ensures each { (b : _) → b < blocks_in file.now → slice_index_or result.now b [] ≡ block_at file.now b }
{
    let (blocks, _) = file.as_chunks();
    blocks
}

// The first block whose check does not fit.
pub fn first_unchecked(file: &[u8]) -> Option<usize>
    ensures { FirstNot (BlockChecked file.now) (blocks_in file.now) result }
{
    blocks_of(file).iter().position(|block| !check_fits(block))
}

// Whether a head is laid out as it should be in a file of so many blocks.
fn head_fits(head: &[u8; Block::LEN], blocks: usize) -> bool
    ensures { Decides result (HeadFits head.now blocks) }
{
    if get::<2>(head, File::KIND_AT) != Kind::Head.code()
        || get::<4>(head, File::NUMBER_AT) != 0
        || get::<2>(head, File::FORM_AT) != File::FORM
        || get::<2>(head, File::SPARE_AT) != 0
        || !zero_from(head, File::HEAD_END)
    {
        return false;
    }
    blocks_for(get::<4>(head, File::POINTS_AT) as usize) == blocks
}

// Whether a point block has number b and zeros after so many points.
fn points_fit(block: &[u8; Block::LEN], b: usize, count: usize) -> bool
    requires { count ≤ 12 }
    ensures { Decides result (PointsFit block.now b count) }
{
    if get::<2>(block, File::KIND_AT) != Kind::Points.code() {
        return false;
    }
    if get::<4>(block, File::NUMBER_AT) != b as u64 {
        return false;
    }
    zero_from(block, File::HEAD_LEN + count * File::POINT_LEN)
}

// Whether block b is laid out as it should be in a file of so many blocks, whose head has so many points.
fn block_fits(block: &[u8; Block::LEN], blocks: usize, points: usize, b: usize) -> bool
    ensures { Decides result (BlockLaid block.now blocks points b) }
{
    if b == 0 {
        head_fits(block, blocks)
    } else {
        points_fit(block, b, count_in(points, b))
    }
}

// The first block that is not laid out as it should be, where the head has so many points.
pub fn first_unlaid(file: &[u8], points: usize) -> Option<usize>
    requires { points ≡ points_of (block_at file.now 0) }
    ensures { FirstNot (BlockFits file.now (blocks_in file.now)) (blocks_in file.now) result }
{
    let blocks = blocks_of(file);
    let count = blocks.len();
    blocks
        .iter()
        .enumerate()
        .position(|(b, block)| !block_fits(block, count, points, b))
}
