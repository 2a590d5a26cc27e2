//! Where two lines of words part.

ghost use Rattle.std.specs.Prelude.{◌≡◌};
ghost use Rattle.explorer_differences.specs.Words.{ends_word, shared_words};

// Whether a word ends where this byte stands.
fn ends_word(byte: u8) -> bool
    ensures { result ≡ ends_word byte }
{
    byte == b' ' || byte == b'\n'
}

/// How many bytes the words have that two lines begin with. Each word is ended by a space or by a line feed.
#[tactic(auto, using(crate::proofs::Parting::second_ends))]
pub(crate) fn shared_words(first: &[u8], second: &[u8]) -> usize
    ensures { result ≡ shared_words first.now second.now 0 0 }
{
    let mut words: usize = 0;
    for at in 0..first.len() {
        if at >= second.len() {
            return words;
        }
        let is_end = ends_word(first[at]);
        if first[at] != second[at] {
            return if is_end && ends_word(second[at]) {
                at
            } else {
                words
            };
        }
        if is_end {
            words = at;
        }
    }
    words
}
