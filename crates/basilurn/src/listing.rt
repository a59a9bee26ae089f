// Listing the front.
ghost use Rattle.basilurn.specs.Listed.{PackedListed};

use crate::packing::pack;

// Lists the front of an instance into lent runs: the number of points, or the room.
#[unsafe(no_mangle)]
pub extern "C" fn basilurn_list(
    terms: &[i32],
    rows: &[i64],
    values: &mut [i64],
    models: &mut [u64],
) -> u64
    ensures { PackedListed terms.now rows.now values.old models.old values.new models.new result }
{
    pack(front::list_front(terms, rows, values, models))
}
