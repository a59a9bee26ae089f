// The tables' cells: what a term and an entry leave in them.
ghost use Rattle.std.specs.Prelude.{◌≡◌, [], ◌∷◌, ◌*◌, ◌^◌, ◌≤◌, ◌<◌, eqb, ltb, ◌||◌, pos, nat_abs, length};
ghost use Rattle.std.proofs.lemmas.List.Edits.{sets};
ghost use Rattle.instance.specs.Kinds.{number_of};
ghost use Rattle.instance.specs.Limits.{max_coef, max_variable, max_bound, max_entries, term_room, row_room};
ghost use Rattle.instance.specs.Layout.{term_table, row_table};
ghost use Rattle.reading.specs.Stored.{term_of, store_at};

use instance::{Entry, Instance, Term};

// Whether a coefficient is out of range.
pub fn is_wide(coef: i64) -> bool
    ensures { result ≡ ltb max_coef (nat_abs coef) }
{
    Term::MAX_COEF < coef.unsigned_abs()
}

// Whether a bound is out of range.
pub fn is_far(bound: i64) -> bool
    ensures { result ≡ ltb max_bound (nat_abs bound) }
{
    Entry::MAX_BOUND < bound.unsigned_abs()
}

// Whether a literal's variable is 0 or too high.
pub fn is_unnamed(lit: i64) -> bool
    ensures { result ≡ (eqb (nat_abs lit) 0 || ltb max_variable (nat_abs lit)) }
{
    let variable = lit.unsigned_abs();
    variable == 0 || Term::MAX_VARIABLE < variable
}

// Stores a term at place k, if there is room and it is in range.
pub fn store_term(terms: &mut [i32], k: usize, coef: i64, lit: i64)
    requires { term_room ≤ length terms.old }
    ensures { terms.new ≡ store_at terms.old k (term_of coef lit) }
{
    if Instance::MAX_TERMS <= k {
        return;
    }
    if is_wide(coef) {
        return;
    }
    if is_unnamed(lit) {
        return;
    }
    let at = k * Term::NUMBERS;
    terms[at] = coef as i32;
    terms[at + 1] = lit as i32;
}

// Stores entry k.
pub fn store_entry(rows: &mut [i64], k: usize, e: Entry)
    requires row_room_in_bounds { row_room ≤ length rows.old }
    requires k_lt_max_entries { k < max_entries }
    requires numbers_bound { (number_of e.kind < 10) × (e.first < 10 ^ 10) × (e.count < 10 ^ 10) }
    ensures { rows.new ≡ sets rows.old (k * 4) (pos (number_of e.kind) ∷ (pos e.first ∷ (pos e.count ∷ (e.bound ∷ [])))) }
{
    let at = k * Entry::NUMBERS;
    rows[at] = e.kind.number() as i64;
    rows[at + 1] = e.first as i64;
    rows[at + 2] = e.count as i64;
    rows[at + 3] = e.bound;
}

// Clears the rooms of both tables.
pub fn clear_tables(terms: &mut [i32], rows: &mut [i64])
    requires term_room_in_bounds { term_room ≤ length terms.old }
    requires row_room_in_bounds { row_room ≤ length rows.old }
    ensures terms { terms.new ≡ term_table [] terms.old }
    ensures rows { rows.new ≡ row_table [] rows.old }
{
    terms[..Instance::TERM_ROOM].fill(0);
    rows[..Instance::ROW_ROOM].fill(0);
}
