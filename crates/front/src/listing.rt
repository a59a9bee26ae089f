// Point after point, over normal tables.
ghost use Rattle.std.specs.Prelude.{◌*◌, ◌≤◌, length};
ghost use Rattle.points.specs.Limits.{max_points};
ghost use Rattle.normal.specs.Normal.{Normal};
ghost use Rattle.front.specs.Listing.{Lists};

use advancing::next_point;
use capping::{Problem, Trade};
use instance::Instance;
use judge::values_of;
use points::Point;
use seeking::Stock;

// A trade has a cost for each objective that an instance may have.
const COSTS: usize = Instance::MAX_OBJECTIVES;

// Trades that one tree gathers: one more than a list has, so that a front that fits needs one tree.
const GATHERED: usize = Point::MAX_POINTS as usize + 1;

// Lists the points of the front of an instance by its normal tables, as many as there is room for; answers how many they are, if these are all.
pub fn list_points(
    terms: &[i32],
    rows: &[i64],
    problem: &Problem<'_, COSTS>,
    room: usize,
    values: &mut [i64],
    models: &mut [u64],
) -> Option<usize>
    requires normal { Normal terms.now rows.now problem.now.count problem.now.rows problem.now.costs.now }
    requires room { (room ≤ max_points) × (room * 4 ≤ length values.old) × (room ≤ length models.old) }
    ensures { Lists terms.now rows.now room values.old models.old values.new models.new result }
{
    let mut listed = [Trade::<COSTS>::NONE; Point::MAX_POINTS as usize];
    let mut points = [Trade::<COSTS>::NONE; GATHERED];
    let mut stock = Stock {
        count: 0,
        limit: Some([0; COSTS]),
    };
    for m in 0..room {
        let advance = next_point(problem, &listed[..m], &mut points, stock);
        let Some(trade) = advance.next else {
            return Some(m);
        };
        let point = Point {
            values: values_of(terms, rows, problem.count, trade.model),
            model: trade.model,
        };
        point.store(values, models, m);
        listed[m] = trade;
        stock = advance.stock;
    }
    let last = next_point(problem, &listed[..room], &mut points, stock);
    match last.next {
        Some(_) => None,
        None => Some(room),
    }
}
