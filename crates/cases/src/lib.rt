// The worked instances P1 to P11 of document 01, as one table with one proved claim: what reading a text, listing its front and writing its file
// promise gives what the document says of each entry.
// No code: specs/Cases.antt has the table, specs/Rules.antt what holds of an entry; proofs/CaseLaws.antt proves `all-cases`.
#![tactic(auto)]
