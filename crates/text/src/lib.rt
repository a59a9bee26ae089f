// The round trip of instance text: what is written is read back as the same tables, and what is read is an instance that can be written.
// No code: specs/RoundTrip.antt says it, proofs/RoundTripLaws.antt and proofs/AnswerLaws.antt prove it.
#![tactic(auto)]
