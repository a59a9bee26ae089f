// When a list of points is proper, clause by clause (document 01, 'A list is proper').
ghost use Rattle.std.specs.Prelude.{◌≡◌, ◌+◌, ◌*◌, ◌^◌, ◌<◌, ◌≤◌, length};
ghost use Rattle.instance.specs.Tests.{Decides};
ghost use Rattle.points.specs.Lists.{Fine, ValuesFine, BitsBelow, RowsRise, RowsApart, NoneAbove, Proper};

use crate::point::Point;
use crate::vectors::le_all;
use instance::bits::within;

// Whether a value is in range, and 0 where it is at a place that no objective has.
fn value_fine(objectives: u64, i: usize, value: i64) -> bool
    ensures { Decides result (Fine objectives i value) }
{
    let size = value.unsigned_abs();
    if Point::MAX_VALUE < size {
        return false;
    }
    ((i % Point::VALUES) as u64) < objectives || size == 0
}

// Whether the values are in range, and 0 where no objective has them.
fn values_fine(objectives: u64, values: &[i64]) -> bool
    ensures { Decides result (ValuesFine objectives values.now (length values.now)) }
{
    values
        .iter()
        .enumerate()
        .all(|(i, value)| value_fine(objectives, i, *value))
}

// Whether the assignments have no bit from n up.
fn models_fine(n: u64, models: &[u64]) -> bool
    ensures { Decides result (BitsBelow n (length models.now) models.now) }
{
    models.iter().all(|model| within(*model, n))
}

// Whether the vectors strictly rise.
fn is_rising(rows: &[[i64; Point::VALUES]]) -> bool
    ensures { Decides result (RowsRise rows.now) }
{
    rows.is_sorted_by(|a, b| a < b)
}

// Whether a row is at most none of the later ones in every place.
fn none_above(row: &[i64; Point::VALUES], later: &[[i64; Point::VALUES]]) -> bool
    ensures { Decides result (NoneAbove row.now later.now) }
{
    !later.iter().any(|other| le_all(row, other))
}

// Whether no vector is at most a later one in every place: where vectors rise, whether none dominates another.
fn is_apart(rows: &[[i64; Point::VALUES]]) -> bool
    ensures { Decides result (RowsApart rows.now) }
{
    rows.iter()
        .enumerate()
        .all(|(a, row)| none_above(row, &rows[a + 1..]))
}

// Decides whether the first `points` points of the lent runs are a proper list.
// Refuses nothing: numbers of any size and runs of any length are taken, and a list that is not proper answers false.
// Leaves both runs as found.
// Rules out: taking a list with an unused value, a vector twice, or a point that another dominates; turning down a proper list.
pub fn is_proper(objectives: u64, n: u64, points: u64, values: &[i64], models: &[u64]) -> bool
    ensures { Decides result (Proper objectives n points values.now models.now) }
{
    if objectives < 1 || Point::MAX_OBJECTIVES < objectives {
        return false;
    }
    if Point::MAX_BITS < n {
        return false;
    }
    if Point::MAX_POINTS < points {
        return false;
    }
    let count = points as usize;
    let (rows, _) = values.as_chunks();
    if rows.len() < count || models.len() < count {
        return false;
    }
    let rows = &rows[..count];
    if !values_fine(objectives, &values[..count * Point::VALUES])
        || !models_fine(n, &models[..count])
    {
        return false;
    }
    is_rising(rows) && is_apart(rows)
}
