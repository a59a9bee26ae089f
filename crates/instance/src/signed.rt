// Signed numbers as natural ones: the rest of the crate counts in unsigned numbers.
ghost use Rattle.std.specs.Prelude.{◌≡◌, T, nat_abs};
ghost use Rattle.std.specs.Int.Signed.{non_neg};
ghost use Rattle.instance.specs.Tables.{is_kind};
ghost use Rattle.instance.specs.Tests.{Decides, UpTo};

// A number that is not negative.
pub fn natural(x: i64) -> usize
    requires { T (non_neg x) }
    ensures { result ≡ nat_abs x }
{
    x as usize
}

// The size of a number of 32 bits.
pub fn magnitude32(x: i32) -> u64
    ensures { result ≡ nat_abs x }
{
    u64::from(x.unsigned_abs())
}

// Whether x is the number n.
pub fn equals(n: usize, x: i64) -> bool
    ensures { result ≡ is_kind n x }
{
    usize::try_from(x) == Ok(n)
}

// Whether x is one of 0, 1, .., most.
pub fn up_to(most: usize, x: i64) -> bool
    ensures { Decides result (UpTo most x) }
{
    usize::try_from(x).is_ok_and(|n| n <= most)
}
