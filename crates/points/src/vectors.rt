// Two vectors compared (document 01, 'The front').
ghost use Rattle.std.specs.Prelude.{◌≡◌};
ghost use Rattle.points.specs.Vectors.{le_all};

use crate::point::Point;

// Whether a is at most b in every place.
pub fn le_all(a: &[i64; Point::VALUES], b: &[i64; Point::VALUES]) -> bool
    ensures { result ≡ le_all a.now b.now }
{
    a.iter().zip(b).all(|(x, y)| x <= y)
}
