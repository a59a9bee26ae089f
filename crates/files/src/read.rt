// Reading a front file (document 01, 'Front file, form 1' and 'Orders').
ghost use Rattle.std.specs.Prelude.{◌≡◌, ◌*◌, ◌≤◌, length};
ghost use Rattle.instance.specs.Tests.{Decides};
ghost use Rattle.points.specs.Lists.{Proper};
ghost use Rattle.files.specs.Layout.{blocks_for, values_in, models_in};
ghost use Rattle.files.specs.Structs.{head_of};
ghost use Rattle.files.specs.Taken.{CheckedAs, ReadAs};

use crate::errors::ReadFileError;
use crate::layout::{blocks_of, first_unchecked, first_unlaid};
use crate::sizes::File;
use crate::take::take_points;
use blocks::{Block, get};
use points::{Point, is_proper};

// The three numbers of a head.
#[derive(Clone, Copy, Debug, PartialEq, Eq)]
pub struct FileHead {
    pub objectives: u64,
    pub n: u64,
    pub points: u64,
}

impl FileHead {
    // The numbers in the head of a file.
    fn of(head: &[u8; Block::LEN]) -> FileHead
        ensures { result ≡ head_of head.now }
    {
        FileHead {
            objectives: get::<2>(head, File::OBJECTIVES_AT),
            n: get::<2>(head, File::VARIABLES_AT),
            points: get::<4>(head, File::POINTS_AT),
        }
    }
}

// Checks the length, the checks and the layout of a file; answers its head.
// Refuses 15, 16, then 17.
fn check_file(file: &[u8]) -> Result<FileHead, ReadFileError>
    ensures { CheckedAs file.now result }
{
    if file.is_empty() || file.len() % Block::LEN != 0 || File::MAX_LEN < file.len() {
        return Err(ReadFileError::BadLength);
    }
    if let Some(b) = first_unchecked(file) {
        return Err(ReadFileError::BadCheck(b as u64));
    }
    let head = FileHead::of(&blocks_of(file)[0]);
    if let Some(b) = first_unlaid(file, head.points as usize) {
        return Err(ReadFileError::BadLayout(b as u64));
    }
    Ok(head)
}

// Whether the list in a file that is laid out as it should be is proper.
fn is_proper_list(file: &[u8], head: FileHead) -> bool
    requires { blocks_for head.points * 512 ≤ length file.now }
    ensures { Decides result (Proper head.objectives head.n head.points (values_in file.now head.points) (models_in file.now head.points)) }
{
    if Point::MAX_POINTS < head.points {
        return false;
    }
    let mut values = [0; File::VALUES_ROOM];
    let mut models = [0; File::MODELS_ROOM];
    take_points(file, head.points as usize, &mut values, &mut models);
    is_proper(head.objectives, head.n, head.points, &values, &models)
}

// Reads a front file: its points go to the beginning of the lent runs; answers the numbers of its head.
// Refuses 15 for its length, 16 for a check, 17 for its layout, 14 where the list is not proper, then 13 where a lent run is too short.
// Leaves the file as found; on done exactly the points' numbers change, on a refusal none.
// Rules out: passing over a damaged block; a stored check FFFF for a computed 0000; a tail that is not zero; naming a later block.
pub fn read_file(
    file: &[u8],
    values: &mut [i64],
    models: &mut [u64],
) -> Result<FileHead, ReadFileError>
    ensures { ReadAs file.now values.old models.old values.new models.new result }
{
    let head = check_file(file)?;
    if !is_proper_list(file, head) {
        return Err(ReadFileError::NotProper);
    }
    let count = head.points as usize;
    if values.len() < count * Point::VALUES || models.len() < count {
        return Err(ReadFileError::ShortOutput);
    }
    take_points(file, count, values, models);
    Ok(head)
}
