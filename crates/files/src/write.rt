// Writing a front file (document 01, 'Front file, form 1' and 'Orders').
ghost use Rattle.std.specs.Prelude.{◌≡◌, ◌*◌, ◌≤◌, length};
ghost use Rattle.files.specs.Layout.{blocks_for};
ghost use Rattle.files.specs.Put.{BlocksPut};
ghost use Rattle.files.specs.Written.{WrittenAs};

use crate::errors::WriteFileError;
use crate::list::List;
use crate::put::{set_head, set_points};
use crate::read::FileHead;
use crate::sizes::blocks_for;
use blocks::Block;
use points::is_proper;

// Writes the point blocks of a list, each into its own 512 bytes.
fn set_blocks(file: &mut [u8], list: &List)
    requires { blocks_for list.now.points * 512 ≤ length file.old }
    ensures { BlocksPut file.old list.now.points list.now.values.now list.now.models.now (blocks_for list.now.points) file.new }
{
    for b in 1..blocks_for(list.points) {
        let at = b * Block::LEN;
        let end = at + Block::LEN;
        set_points(&mut file[at..end], b, list);
    }
}

// Writes the first `points` points of the lent runs as a front file at the beginning of the lent bytes; answers the bytes written.
// Refuses 14 where the list is not proper, then 13 where the lent bytes are too few.
// Leaves the runs as found; on done exactly the bytes written change, on a refusal none.
// Rules out: leaving out the last block; filing a list that is not proper; a check or a number in another order of bytes.
pub fn write_file(
    objectives: u64,
    n: u64,
    points: u64,
    values: &[i64],
    models: &[u64],
    file: &mut [u8],
) -> Result<u64, WriteFileError>
    ensures { WrittenAs objectives n points values.now models.now file.old file.new result }
{
    if !is_proper(objectives, n, points, values, models) {
        return Err(WriteFileError::NotProper);
    }
    let head = FileHead {
        objectives,
        n,
        points,
    };
    let list = List {
        points: points as usize,
        values,
        models,
    };
    let bytes = blocks_for(list.points) * Block::LEN;
    if file.len() < bytes {
        return Err(WriteFileError::ShortOutput);
    }
    set_head(&mut file[..Block::LEN], head);
    set_blocks(file, &list);
    Ok(bytes as u64)
}
