// The answer of listing (document 01, 'The front' and 'Refusal numbers').
ghost use Rattle.std.specs.Prelude.{◌≡◌, ◌/◌, ◌*◌, ◌≤◌, min, length};
ghost use Rattle.points.specs.Limits.{max_points, point_values};
ghost use Rattle.instance.specs.Answers.{SizesOf};
ghost use Rattle.front.specs.Listing.{HalfRows, Lists};
ghost use Rattle.front.specs.Answers.{ListedAs};

use crate::errors::ListError;
use crate::listing::list_points;
use crate::order::by_share;
use crate::turns::by_length;
use capping::Problem;
use charging::{Cost, Rows, Term, Turn};
use instance::Instance;
use normal::ceilings::{MAX_CEILINGS, lay_ceilings};
use normal::costs::{MAX_COSTS, lay_objectives};
use normal::fill::lay_rows;
use normal::narrow::NarrowRows;
use normal::rows::Filled;
use points::Point;

// An instance has so many variables at most.
const MAX_VARIABLES: usize = instance::Term::MAX_VARIABLE as usize;

// What fills the room for terms, for costs and for turns.
const NO_TERM: Term = Term {
    weight: 0,
    variable: 0,
    off: 0,
};

const NO_COST: Cost = Cost { gap: 0, dear: 0 };

const NO_TURN: Turn = Turn {
    row: 0,
    one: 0,
    zero: 0,
};

// The room for points: 1,024, a quarter of the first run's length rounded down, or the second's length, whichever is least.
fn room_of(values: usize, models: usize) -> usize
    ensures { result ≡ min max_points (min (values / point_values) models) }
{
    (Point::MAX_POINTS as usize).min((values / Point::VALUES).min(models))
}

// Lists the front of an instance with k objectives by its half rows: lays the objectives and the ceilings out, and orders the variables.
fn list_rows(
    terms: &[i32],
    rows: &[i64],
    k: usize,
    half_rows: &Rows<'_>,
    room: usize,
    values: &mut [i64],
    models: &mut [u64],
) -> Option<usize>
    requires half_rows { HalfRows terms.now rows.now k half_rows.now }
    requires room { (room ≤ max_points) × (room * 4 ≤ length values.old) × (room ≤ length models.old) }
    ensures { Lists terms.now rows.now room values.old models.old values.new models.new result }
{
    let n = half_rows.n;
    let mut costs = [NO_COST; MAX_COSTS];
    let mut ceilings = [NO_COST; MAX_CEILINGS * MAX_VARIABLES];
    let mut caps = [0; MAX_CEILINGS];
    let mut order = [0; MAX_VARIABLES];
    lay_objectives(terms, rows, k, n, &mut costs);
    let narrow = NarrowRows { rows: *half_rows };
    let above = lay_ceilings(&narrow, &mut ceilings, &mut caps);
    by_share(&costs, k, n, &mut order);
    let problem = Problem {
        rows: *half_rows,
        count: k,
        costs: &costs,
        ceilings: &ceilings,
        caps: &caps[..above],
        order: &order,
    };
    list_points(terms, rows, &problem, room, values, models)
}

// Lists the front of an instance, whose sizes are known: lays its half rows out, and orders them.
fn list_instance(
    terms: &[i32],
    rows: &[i64],
    sizes: Instance,
    room: usize,
    values: &mut [i64],
    models: &mut [u64],
) -> Option<usize>
    requires sizes_of { SizesOf terms.now rows.now sizes }
    requires room { (room ≤ max_points) × (room * 4 ≤ length values.old) × (room ≤ length models.old) }
    ensures { Lists terms.now rows.now room values.old models.old values.new models.new result }
{
    let k = sizes.objectives;
    let mut starts = [0; Filled::STARTS];
    let mut laid = [NO_TERM; Filled::TERMS];
    let mut needs = [0; Filled::HALVES];
    let mut turns = [NO_TURN; Filled::HALVES];
    let filled = lay_rows(
        terms,
        rows,
        k,
        sizes.rows,
        &mut starts,
        &mut laid,
        &mut needs,
    );
    let halves = filled.halves;
    let mut half_rows = Rows {
        n: sizes.variables as usize,
        starts: &starts[..halves + 1],
        terms: &laid[..filled.used],
        needs: &needs[..halves],
        turns: &[],
    };
    by_length(&half_rows, &mut turns);
    half_rows.turns = &turns[..halves];
    list_rows(terms, rows, k, &half_rows, room, values, models)
}

// Lists the front of the instance that the tables are into the lent runs: every best trade between the objectives, once, in rising order,
// each with the smallest-numbered assignment that has it; answers how many points it has.
// Refuses 10 where the tables are not an instance, then 11 where the front has more points than there is room R for.
// Leaves the tables as found; on done the room of the points is filled, on 11 the first R points are there, on 10 nothing; all else is as found.
// Rules out: a vector that another beats, or that is there twice; a missing last point; another assignment's values; refusing a front of R points.
pub fn list_front(
    terms: &[i32],
    rows: &[i64],
    values: &mut [i64],
    models: &mut [u64],
) -> Result<u64, ListError>
    ensures { ListedAs terms.now rows.now values.old models.old values.new models.new result }
{
    let sizes = Instance::of(terms, rows)?;
    let room = room_of(values.len(), models.len());
    match list_instance(terms, rows, sizes, room, values, models) {
        Some(points) => Ok(points as u64),
        None => Err(ListError::Larger(room as u64)),
    }
}
