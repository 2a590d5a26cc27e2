//! Expectations, and what comes of them.

use script_code::Formula;

/// What is expected of the end of each run of a script (our own).
pub enum Expectation {
    /// That an expression has another value than 0: its text, and the expression. In this a variable is a root, by its number, and stands
    /// for the value that it has ended with; a field is one of all actors of the script, by its actor's number and its own.
    Test(Vec<u8>, Formula),
    /// That each root ends with a value.
    NoFault,
}

// By hand, so that a formula is not taken apart wherever an expectation is dropped.
impl Drop for Expectation {
    fn drop(self) {
        match self {
            Expectation::Test(said, test) => {
                drop(said);
                drop(test);
            }
            Expectation::NoFault => {}
        }
    }
}

/// What comes of an expectation at an end (our own).
#[derive(Clone, Copy, PartialEq, Eq)]
pub enum Verdict {
    /// It is so.
    Holds,
    /// Its value is 0.
    IsFalse,
    /// A value on the way to its value leaves 64 bits.
    Overflows,
    /// A root that it names, or for `NoFault` any root, has ended with a fault.
    HasFault,
}
