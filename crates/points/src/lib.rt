// Points (document 01, 'The front' and 'A list is proper'): a point in lent runs, the order of vectors, dominance, and when a list is proper.
//
// is_proper(objectives, n, points, values, models)   decides whether a list is proper
// Point                                              a point by value, and the limits of a list of points
// Point::at(values, models, k), point.store(..)      point k of two lent runs, read and stored
// Limits::all()                                      ties the limits to specs/Limits.antt
//
// The caller lends the runs; only `store` writes to them.
// Read specs/Vectors.antt (dominance and order), specs/Fronts.antt (the front of any candidates), specs/Lists.antt (when a list is proper).
// Laws for other crates: proofs/FrontLaws.antt (a front is determined), proofs/OrderLaws.antt, proofs/ListLaws.antt and proofs/RunLaws.antt
// (a front in lent runs rises and none of it dominates another).
#![tactic(auto)]

mod point; // point.rt: a point by value, and its limits
mod vectors; // vectors.rt: two points compared
mod lists; // lists.rt: each clause of a proper list, and all of them
mod limits; // limits.rt: all limits together

pub use limits::Limits;
pub use lists::is_proper;
pub use point::Point;
