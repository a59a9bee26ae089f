// The kinds of entries (document 01, 'Instance tables').
ghost use Rattle.std.specs.Prelude.{◌≡◌};

// A number that is none of the four kinds.
#[derive(Clone, Copy, Debug)]
pub struct NoKind {
    pub number: usize,
    ghost low: { number ≡ 1 → ⊥ },
    ghost second: { number ≡ 2 → ⊥ },
    ghost third: { number ≡ 3 → ⊥ },
    ghost high: { number ≡ 4 → ⊥ },
}

// What an entry is. Tables may hold any number for a kind; those of an instance hold no other than the four.
#[derive(Clone, Copy, Debug)]
pub enum Kind {
    Objective, // 1
    AtLeast, // 2: a row `>=`
    AtMost, // 3: a row `<=`
    Equal, // 4: a row `=`
    Other(NoKind),
}

impl From<usize> for Kind {
    ghost use Rattle.std.specs.Prelude.{◌≡◌};
    ghost use Rattle.instance.specs.Kinds.{number_of};

    ghost from_gives = { λ number kind. number_of kind ≡ number };

    fn from(number: usize) -> Kind {
        match number {
            1 => Kind::Objective,
            2 => Kind::AtLeast,
            3 => Kind::AtMost,
            4 => Kind::Equal,
            _ => Kind::Other(NoKind { number }),
        }
    }
}

impl Kind {
    ghost use Rattle.std.specs.Prelude.{◌≡◌};
    ghost use Rattle.instance.specs.Kinds.{number_of};

    // The number of a kind.
    pub fn number(self) -> usize
        ensures { result ≡ number_of self }
    {
        match self {
            Kind::Objective => 1,
            Kind::AtLeast => 2,
            Kind::AtMost => 3,
            Kind::Equal => 4,
            Kind::Other(other) => other.number,
        }
    }
}
