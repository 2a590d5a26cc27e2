//! The tokens of a script's text: what stands between white space and comments, and which bytes it is.
#![tactic(auto)]

// The kinds of bytes.
mod class;
// What stands at the front of a text.
mod front;
// The keywords.
mod keyword;
// What holds of the definitions.
mod laws;
// A token while its name still lies in the text.
mod lexeme;
// On which line a byte stands.
mod line;
// The list of a text's tokens, with their bytes.
mod list;
// The marks.
mod mark;
// The value of a number.
mod number;
// All tokens of a text.
mod read;
// Bytes of a text.
mod span;
// How keywords and marks are spelled.
mod spelling;
// Bytes that no script may contain.
mod stray;
// One token.
mod token;
// Which words are keywords.
mod word;

pub use keyword::Keyword;
pub use laws::{few_tokens, one_list_of_spans, one_reading};
pub use line::line_of;
pub use list::Tokens;
pub use mark::Mark;
pub use read::tokens;
pub use span::Span;
pub use stray::stray_byte;
pub use token::{NameText, Token};
