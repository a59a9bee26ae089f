// Points out of blocks (document 01, 'Front file, form 1').
ghost use Rattle.std.specs.Prelude.{◌≡◌, ◌++◌, ◌+◌, ◌*◌, ◌/◌, ◌<◌, ◌≤◌, length, drop};
ghost use Rattle.points.specs.Limits.{max_points};
ghost use Rattle.files.specs.Layout.{blocks_for, values_of, model_in, values_in, models_in};

use crate::layout::blocks_of;
use crate::sizes::File;
use blocks::{get, get_signed};
use points::Point;

// Point k.
fn point_in(file: &[u8], k: usize) -> Point
    requires { (k / 12 + 2) * 512 ≤ length file.now }
    ensures values { result.values ≡ values_of file.now k }
    ensures model { result.model ≡ model_in file.now k }
{
    let block = &blocks_of(file)[k / File::BLOCK_POINTS + 1];
    let at = File::HEAD_LEN + k % File::BLOCK_POINTS * File::POINT_LEN;
    Point {
        values: [
            get_signed(block, at),
            get_signed(block, at + File::SECOND_AT),
            get_signed(block, at + File::THIRD_AT),
            get_signed(block, at + File::FOURTH_AT),
        ],
        model: get::<8>(block, at + File::MODEL_AT),
    }
}

// Fills so many points; the rest of both runs is as found.
pub fn take_points(file: &[u8], points: usize, values: &mut [i64], models: &mut [u64])
    requires points_le_max_points { points ≤ max_points }
    requires points_in_bounds { blocks_for points * 512 ≤ length file.now }
    requires points_in_bounds_2 { points * 4 ≤ length values.old }
    requires points_in_bounds_3 { points ≤ length models.old }
    ensures values { values.new ≡ values_in file.now points ++ drop (points * 4) values.old }
    ensures models { models.new ≡ models_in file.now points ++ drop points models.old }
{
    for k in 0..points {
        point_in(file, k).store(values, models, k);
    }
}
