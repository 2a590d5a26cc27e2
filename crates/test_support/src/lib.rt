//! What programs of cases share: the cases of an input, what is written for each, and calls that are told by words.
//!
//! A case begins with a line `== KIND TITLE`, and its text goes on to the next such line, or to the end. The LF before
//! that line, and the last one of the input, belong to no text. What stands before the first case is a comment.
//!
//! A line `== TITLE` is written for each case, and then what the program has to say of its text, by its kind. Of a case of the kind
//! `ends`, with the title `KIND TITLE`, that is what is written for a case of that kind, but of more than sixteen lines only the first
//! eight and the last eight, and between them how many are left out, how many bytes the whole has, and their sum: that of a text's bytes
//! is 0 for none, and for one byte more 31 times the sum so far and that byte, modulo 2^64.
//!
//! A line that begins with `wrong: ` is in no right output.
//!
//! A call that is refused memory is made again, on what it was made on. Where something else of a case answers that it was refused
//! memory, the case is made again, and what it wrote before has to be the beginning of what it writes then. So a program writes one text,
//! whether one of its growths is refused or none: tools/refusals.py refuses each in turn.
#![tactic(auto)]

// Calls, one after another.
mod calls;
// The cases of an input.
mod cases;
// Long answers by their first and last lines.
mod ends;
// Why a case has no answer.
mod fault;
// Texts that are being written.
mod said;
// The words of a call.
mod words;

pub use calls::{Form, Part, play};
pub use cases::{Case, texts_of};
pub use fault::CaseFault;
pub use said::Said;
pub use words::Words;
