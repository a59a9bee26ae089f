// The value of a term and the sum of terms under an assignment (document 01, 'Instance text').
ghost use Rattle.std.specs.Prelude.{◌≡◌, ◌+◌, ◌*◌, ◌<◌, length};
ghost use Rattle.instance.specs.Terms.{TermOk, term_value, sum};
ghost use Rattle.instance.specs.Tables.{term_at};
ghost use Rattle.instance.specs.Meaning.{terms_at};
ghost use Rattle.judge.specs.Judging.{Summable};

use crate::bits::literal_true;
use instance::Term;

// Term k's value: its coefficient if its literal is true, else 0.
pub fn term_value(terms: &[i32], k: usize, a: u64) -> i64
    requires k_in_bounds { k * 2 + 1 < length terms.now }
    requires term_ok { TermOk (term_at terms.now k) }
    ensures { result ≡ term_value (term_at terms.now k) a }
{
    let t = Term::at(terms, k);
    if literal_true(t.lit, a) {
        i64::from(t.coef)
    } else {
        0
    }
}

// The sum of the `count` terms from `first` on.
pub fn sum_of(terms: &[i32], first: usize, count: usize, a: u64) -> i64
    requires { Summable terms.now (first + count) }
    ensures { result ≡ sum (terms_at terms.now first count) a }
{
    let mut total: i64 = 0;
    for k in 0..count {
        total += term_value(terms, first + k, a);
    }
    total
}
