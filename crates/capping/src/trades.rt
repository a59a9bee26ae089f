// Vectors of costs, and the trades that have them.

// A number for each objective; where there are fewer than K, the rest says nothing.
pub type Vector<const K: usize> = [u64; K];

// A vector, and the number of an assignment that has it: bit v is the variable v.
#[derive(Clone, Copy, Debug, PartialEq, Eq)]
pub struct Trade<const K: usize> {
    pub costs: Vector<K>,
    pub model: u64,
}

impl<const K: usize> Trade<K> {
    // Nothing yet: what fills the room for trades.
    pub const NONE: Trade<K> = Trade {
        costs: [0; K],
        model: 0,
    };
}
