// Bits of an assignment's number: x_i is bit i - 1 (document 01, 'The front').
ghost use Rattle.std.specs.Prelude.{◌≡◌, ◌<◌};
ghost use Rattle.instance.specs.Terms.{bit_set, IsLit, lit_true};

use instance::signed::magnitude32;

// Bit j of an assignment.
pub fn bit(a: u64, j: u64) -> bool
    requires { j < 64 }
    ensures { result ≡ bit_set a j }
{
    (a >> j) & 1 == 1
}

// Whether a literal is true: i where x_i is 1, -i where it is 0.
pub fn literal_true(lit: i32, a: u64) -> bool
    requires { IsLit lit }
    ensures { result ≡ lit_true lit a }
{
    let b = bit(a, magnitude32(lit) - 1);
    if lit < 0 { !b } else { b }
}
