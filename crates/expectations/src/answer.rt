//! What a search says to what is asked.

ghost use Rattle.std.specs.Prelude.{◌≡◌, map};
ghost use Rattle.std.specs.List.{list_all};
ghost use Rattle.expectations.specs.Answers.{all_so, answer_in, is_so, status_of};

use crate::expectation::Verdict;

/// What a search says to what is asked (our own).
#[derive(Clone, Copy, PartialEq, Eq)]
pub enum Answer {
    /// Each expectation holds in each outcome, and no turn is undone since it would break an invariant.
    Holds,
    /// An expectation does not hold in an outcome, or a turn is undone.
    Fails,
    /// No such thing was found, and the search did not come to its end.
    Undecided,
}

impl Answer {
    /// The status of a program that answers so: 0, 1 and 5.
    pub fn status(self) -> u8
        ensures { result ≡ status_of self }
    {
        match self {
            Answer::Holds => 0,
            Answer::Fails => 1,
            Answer::Undecided => 5,
        }
    }
}

impl Verdict {
    /// Whether it is as expected.
    pub fn is_so(self) -> bool
        ensures { result ≡ is_so self }
    {
        match self {
            Verdict::Holds => true,
            Verdict::IsFalse | Verdict::Overflows | Verdict::HasFault => false,
        }
    }
}

fn all_of(verdicts: &[Verdict]) -> bool
    ensures { result ≡ list_all is_so verdicts.now }
{
    verdicts.iter().all(|verdict| verdict.is_so())
}

fn each_so(outcomes: &[Vec<Verdict>]) -> bool
    ensures { result ≡ list_all (λ row. list_all is_so row.items) outcomes.now }
{
    outcomes.iter().all(|row| all_of(row))
}

#[tactic(auto, using(crate::proofs::Holding::all_so_mapped))]
fn all_so(outcomes: &[Vec<Verdict>]) -> bool
    ensures { result ≡ all_so (map (λ row. row.items) outcomes.now) }
{
    each_so(outcomes)
}

/// The answer of a search that came to its end or not, where a turn that is undone was found or not, and this came of each expectation in
/// each outcome. Linear in the verdicts.
pub fn answer_in(is_complete: bool, is_broken: bool, outcomes: &[Vec<Verdict>]) -> Answer
    ensures { result ≡ answer_in is_complete is_broken (map (λ row. row.items) outcomes.now) }
{
    if is_broken || !all_so(outcomes) {
        return Answer::Fails;
    }
    if is_complete {
        Answer::Holds
    } else {
        Answer::Undecided
    }
}
