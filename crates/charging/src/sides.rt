// One variable and one term: what the term gives or owes by how the variable stands. No loops.
ghost use Rattle.std.specs.Prelude.{◌≡◌, ◌-◌, ◌<◌, ◌≤◌};
ghost use Rattle.charging.specs.Rows.{hit, miss, spare};

use crate::rows::{Cost, Term};

impl Term {
    // What the term gives, where its variable stands at y.
    pub fn given(self, y: u8) -> u64
        ensures { result ≡ miss y self.off self.weight }
    {
        if y == self.off { 0 } else { self.weight }
    }

    // What the term can give without a charge, where its variable stands at y, its dear side is `dear` and `left` is left to charge at it.
    pub fn spared(self, y: u8, dear: u8, left: u64) -> u64
        ensures { result ≡ spare y self.off dear left self.weight }
    {
        if y == self.off {
            return 0;
        }
        if dear == self.off {
            return self.weight;
        }
        if left == 0 { self.weight } else { 0 }
    }

    // m, or `left` where it can be charged and is less.
    pub fn lowered(self, m: u64, dear: u8, left: u64) -> u64
        ensures { (result ≤ m) × ((dear ≡ self.off → ⊥) → (left ≡ 0 → ⊥) → result ≤ left) }
    {
        if dear == self.off {
            return m;
        }
        if left == 0 { m } else { m.min(left) }
    }

    // `left`, less m where the helping side is dear.
    pub fn paid(self, m: u64, dear: u8, left: u64) -> u64
        ensures { (result ≤ left) × ((dear ≡ self.off → ⊥) → result ≤ left - m) }
    {
        if dear == self.off {
            left
        } else {
            left.saturating_sub(m)
        }
    }
}

impl Cost {
    // What the variable costs where it stands at y.
    pub fn charged(self, y: u8) -> u64
        ensures { result ≡ hit y self.dear self.gap }
    {
        if y == self.dear { self.gap } else { 0 }
    }

    // What is left to charge at the variable at the start: its gap where it is unset.
    pub fn owed(self, y: u8) -> u64
        ensures { (y ≡ 2 → result ≡ self.gap) × ((y ≡ 2 → ⊥) → result ≡ 0) }
    {
        if y == 2 { self.gap } else { 0 }
    }
}

// The word of free variables, with v where nothing is left to charge at it.
pub fn mark(free: u64, v: usize, left: u64) -> u64
    requires { v < 64 }
{
    if left == 0 { free | (1 << v) } else { free }
}
