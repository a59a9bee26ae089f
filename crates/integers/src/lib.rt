// Signed numbers by their size: the laws that every crate above uses. No code: the library's `unsigned_abs` gives the size.
// Read proofs/SignedLaws.antt for how a signed number is read from its bits and how its order goes by natural numbers.
#![tactic(auto)]
