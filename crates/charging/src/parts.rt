// Partial assignments by value.
ghost use Rattle.std.specs.Prelude.{◌≡◌, ◌<◌};
ghost use Rattle.charging.specs.Rows.{of};

// A partial assignment: the variables that are set, those at 1, and how many are unset.
#[derive(Clone, Copy, Debug, PartialEq, Eq)]
pub struct Part {
    pub set: u64,
    pub one: u64,
    pub left: u64,
}

impl Part {
    // Variables, at most.
    pub const MOST: usize = 64;

    // How the variable v stands: 0, 1, or 2 where it is unset.
    // Kept a number: it is compared with the side of a term and with the dear side of a cost.
    pub fn look(self, v: usize) -> u8
        requires { v < 64 }
        ensures { result ≡ of self v }
    {
        if (self.set >> v) % 2 == 0 {
            return 2;
        }
        ((self.one >> v) % 2) as u8
    }
}
