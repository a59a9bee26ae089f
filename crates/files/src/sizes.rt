// The sizes of a front file, and where its points stand (document 01, 'Front file, form 1').
ghost use Rattle.std.specs.Prelude.{◌≡◌, ◌≤◌};
ghost use Rattle.files.specs.Layout.{blocks_for, count_in};
ghost use Rattle.files.specs.Structs.{sizes_named, kind_code};

use blocks::Block;
use points::Point;

// A front file is lent bytes; this names its sizes and places, and has no values.
#[derive(Drop)]
pub enum File {}

impl File {
    // Blocks of a file: the head, and one for each 12 points.
    pub const MAX_BLOCKS: usize = 87;
    // Bytes of a file.
    pub const MAX_LEN: usize = File::MAX_BLOCKS * Block::LEN;
    // Points of a block.
    pub const BLOCK_POINTS: usize = 12;
    // Bytes of a point.
    pub const POINT_LEN: usize = 40;
    // Bytes of a number of a point.
    pub const NUMBER_LEN: usize = 8;
    // Form 1.
    pub const FORM: u64 = 1;
    // Places in every block: kind, number, and what it holds.
    pub const KIND_AT: usize = 2;

    pub const NUMBER_AT: usize = 4;

    pub const HEAD_LEN: usize = 8;
    // Places in a head: form, objectives, n, two zero bytes, points, and zeros to the end.
    pub const FORM_AT: usize = 8;

    pub const OBJECTIVES_AT: usize = 10;

    pub const VARIABLES_AT: usize = 12;

    pub const SPARE_AT: usize = 14;

    pub const POINTS_AT: usize = 16;

    pub const HEAD_END: usize = 20;
    // Places in a point, after its first value.
    pub const SECOND_AT: usize = File::NUMBER_LEN;

    pub const THIRD_AT: usize = 2 * File::NUMBER_LEN;

    pub const FOURTH_AT: usize = 3 * File::NUMBER_LEN;

    pub const MODEL_AT: usize = 4 * File::NUMBER_LEN;
    // Assignments of all points.
    pub const MODELS_ROOM: usize = Point::MAX_POINTS as usize;
    // Values of all points.
    pub const VALUES_ROOM: usize = File::MODELS_ROOM * Point::VALUES;
}

// What a block holds.
#[derive(Clone, Copy, Debug, PartialEq, Eq)]
pub enum Kind {
    Head, // 1
    Points, // 2
}

impl Kind {
    // Its number in a block.
    pub fn code(self) -> u64
        ensures { result ≡ kind_code self }
    {
        match self {
            Kind::Head => 1,
            Kind::Points => 2,
        }
    }
}

// Each size of the code, under the name of what it sizes.
#[derive(Clone, Copy, Debug, PartialEq, Eq)]
pub struct Sizes {
    pub blocks: usize,
    pub bytes: usize,
    pub held: usize,
    pub point: usize,
    pub values: usize,
    pub models: usize,
}

impl Sizes {
    // The sizes that the code names.
    pub fn all() -> Sizes
        ensures { result ≡ sizes_named }
    {
        Sizes {
            blocks: File::MAX_BLOCKS,
            bytes: File::MAX_LEN,
            held: File::BLOCK_POINTS,
            point: File::POINT_LEN,
            values: File::VALUES_ROOM,
            models: File::MODELS_ROOM,
        }
    }
}

// How many blocks a list of points takes.
pub fn blocks_for(points: usize) -> usize
    requires { points ≤ 4294967295 }
    ensures { result ≡ blocks_for points }
{
    1 + points.div_ceil(File::BLOCK_POINTS)
}

// How many points block b, counted from 1, holds.
pub fn count_in(points: usize, b: usize) -> usize
    ensures { result ≡ count_in points b }
{
    let before = b.saturating_sub(1).saturating_mul(File::BLOCK_POINTS);
    points.saturating_sub(before).min(File::BLOCK_POINTS)
}
