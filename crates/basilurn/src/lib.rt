// The C boundary: each operation as a function of plain numbers and lent runs. include/basilurn.h declares them for C.
//
// basilurn_read_text(text, terms, rows)                                 n, or the statement
// basilurn_write_text(terms, rows, out)                                 the bytes written
// basilurn_judge(terms, rows, assignment, values)                       the first unmet row, 0 if none; the vector in `values`
// basilurn_list(terms, rows, values, models)                            the number of points, or the room
// basilurn_write_file(objectives, n, points, values, models, file)      the bytes written
// basilurn_read_file(file, values, models, head)                        the points, or the block; objectives, n and points in `head`
//
// An answer is one 64-bit number: the refusal number (0 for done) in the upper 32 bits, the answer number in the lower 32
// (specs/Words.antt). Each contract is that of the operation under it, over such a number.
#![tactic(auto)]

mod packing; // packing.rt: an answer as one number
mod texts; // texts.rt: instance text
mod judging; // judging.rt: one assignment
mod listing; // listing.rt: the front
mod filing; // filing.rt: front files
