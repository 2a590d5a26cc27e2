//! What stands around a token of a text, and what could stand there.
#![tactic(auto)]

// The token at which a text is refused.
mod blamed;
// Which braces and parentheses are open at a place.
mod braces;
// What declares a name, and where.
mod declared;
// How near two words are.
mod edits;
// What could stand at a place.
mod expected;
// Which name is nearest.
mod wanted;
// Tokens as they are spelled.
mod spelled;

pub use blamed::Blamed;
pub use braces::{braces_at, last_key, next_sign, open_block, open_brace, open_parenthesis};
pub use declared::{
    Declared, actor_end, actor_named, actor_of, declared_at, is_named, is_seen, named_as,
    still_stands,
};
pub use edits::{few, within};
pub use expected::{Candidate, Expected, find_expected};
pub use spelled::{is_key, is_sign, name_at, word, word_at};
pub use wanted::{Wanted, could_stand, is_in_its_let, nearest, wanted_at};
