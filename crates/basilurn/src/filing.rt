// Front files: writing and reading.
ghost use Rattle.std.specs.Prelude.{◌≡◌};
ghost use Rattle.basilurn.specs.Filed.{PackedFiled, PackedTaken};

use crate::packing::pack;

// Writes a list of points as a front file: the bytes written.
#[unsafe(no_mangle)]
pub extern "C" fn basilurn_write_file(
    objectives: u64,
    n: u64,
    points: u64,
    values: &[i64],
    models: &[u64],
    file: &mut [u8],
) -> u64
    ensures { PackedFiled objectives n points values.now models.now file.old file.new result }
{
    pack(files::write_file(objectives, n, points, values, models, file))
}

// Reads a front file: the points, or the block of refusals 16 and 17; objectives, n and points in `head`.
#[unsafe(no_mangle)]
pub extern "C" fn basilurn_read_file(
    file: &[u8],
    values: &mut [i64],
    models: &mut [u64],
    head: &mut [u64; 3],
) -> u64
    ensures { PackedTaken file.now values.old models.old values.new models.new head.new result }
{
    let read = files::read_file(file, values, models);
    *head = match read {
        Ok(of) => [of.objectives, of.n, of.points],
        Err(_) => [0; 3],
    };
    pack(read.map(|of| of.points))
}
