// Half rows with the bounds that an instance gives them.
ghost use Rattle.normal.specs.Ceilings.{Narrow};

use charging::Rows;

// Rows that have no more terms than an instance gives, and no weight above that of a coefficient.
#[derive(Clone, Copy)]
pub struct NarrowRows<'a> {
    pub rows: Rows<'a>,
    pub ghost narrow: { Narrow rows },
}
