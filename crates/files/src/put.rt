// A list as blocks: each block is written into its own 512 bytes of the lent file (document 01, 'Front file, form 1').
// Kept as slices of a stated length: the library's `as_chunks_mut` says nothing of what the whole file ends as.
ghost use Rattle.std.specs.Prelude.{◌≡◌, ◌+◌, ◌-◌, ◌*◌, ◌<◌, ◌≤◌, length};
ghost use Rattle.blocks.specs.Fields.{block_len};
ghost use Rattle.files.specs.Layout.{blocks_for, count_in};
ghost use Rattle.files.specs.Structs.{kind_code, candidate_of, HeadOf, PointsOf};
ghost use Rattle.files.specs.Put.{Begun, PointPut, PointsPut};

use crate::list::List;
use crate::read::FileHead;
use crate::sizes::{File, Kind, count_in};
use blocks::{seal, set, set_signed};
use points::Point;

// Begins a block: zeros, its kind, its number.
fn begin(block: &mut [u8], kind: Kind, number: u64)
    requires block_len { length block.old ≡ block_len }
    requires number_bound { number < 4294967296 }
    ensures { Begun (kind_code kind) number block.new }
{
    block.fill(0);
    set::<2>(block, File::KIND_AT, kind.code());
    set::<4>(block, File::NUMBER_AT, number);
}

// Writes the head.
pub fn set_head(block: &mut [u8], head: FileHead)
    requires block_len { length block.old ≡ block_len }
    requires objectives_bound { head.objectives < 65536 }
    requires n_bound { head.n < 65536 }
    requires points_bound { head.points < 4294967296 }
    ensures { HeadOf head.objectives head.n head.points block.new }
{
    begin(block, Kind::Head, 0);
    set::<2>(block, File::FORM_AT, File::FORM);
    set::<2>(block, File::OBJECTIVES_AT, head.objectives);
    set::<2>(block, File::VARIABLES_AT, head.n);
    set::<4>(block, File::POINTS_AT, head.points);
    seal(block);
}

// Writes a point at place j of a block.
fn set_point(block: &mut [u8], j: usize, point: Point)
    requires block_len { length block.old ≡ block_len }
    requires j_bound { j < 12 }
    ensures { PointPut block.old j (candidate_of point) block.new }
{
    let at = File::HEAD_LEN + j * File::POINT_LEN;
    let [first, second, third, fourth] = point.values;
    set_signed(block, at, first);
    set_signed(block, at + File::SECOND_AT, second);
    set_signed(block, at + File::THIRD_AT, third);
    set_signed(block, at + File::FOURTH_AT, fourth);
    set::<8>(block, at + File::MODEL_AT, point.model);
}

// Writes `count` points of the list, from `first` on, into a block that was begun.
fn set_each(block: &mut [u8], first: usize, count: usize, list: &List)
    requires block_len { length block.old ≡ block_len }
    requires count_bound { count ≤ 12 }
    requires count_in_bounds { first + count ≤ list.now.points }
    ensures { PointsPut block.old first count list.now.values.now list.now.models.now block.new }
{
    for j in 0..count {
        set_point(block, j, list.point(first + j));
    }
}

// Writes point block b.
pub fn set_points(block: &mut [u8], b: usize, list: &List)
    requires block_len { length block.old ≡ block_len }
    requires le_b { 1 ≤ b }
    requires b_bound { b < blocks_for list.now.points }
    ensures { PointsOf b ((b - 1) * 12) (count_in list.now.points b) list.now.values.now list.now.models.now block.new }
{
    let first = (b - 1) * File::BLOCK_POINTS;
    begin(block, Kind::Points, b as u64);
    set_each(block, first, count_in(list.points, b), list);
    seal(block);
}
