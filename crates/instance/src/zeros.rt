// Numbers of the tables that must be zero (document 01, 'Instance tables').
ghost use Rattle.std.specs.Prelude.{◌≡◌, ◌↔◌, IsTrue, true, All};

// Whether each number of a part is `zero`.
pub fn all_are<T: Copy + PartialEq>(part: &[T], zero: T) -> bool
    ensures { IsTrue result ↔ All (λ x. T.eq x zero ≡ true) part.now }
{
    part.iter().all(|x| *x == zero)
}
