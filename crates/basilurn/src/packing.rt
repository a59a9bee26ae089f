// An answer as one 64-bit number: the refusal number (0 for done) in the upper 32 bits, the answer number in the lower 32.
// Kept a number, since C has no Result.
ghost use Rattle.std.specs.Prelude.{◌≡◌, ◌≤◌};
ghost use Rattle.refusals.specs.Numbers.{number_of, value_of};
ghost use Rattle.basilurn.specs.Words.{packed};

use refusals::Refusal;

// The word of a refusal number and an answer number.
fn word(number: u64, value: u64) -> u64
    requires { number ≤ 99 }
    ensures { result ≡ packed number value }
{
    number * 4294967296 + value % 4294967296
}

// The word of an answer.
pub fn pack<E: Refusal>(answer: Result<u64, E>) -> u64
    ensures { result ≡ packed (number_of E.number answer) (value_of (λ n. n) E.value answer) }
{
    match answer {
        Ok(value) => word(0, value),
        Err(e) => word(e.number(), e.value()),
    }
}
