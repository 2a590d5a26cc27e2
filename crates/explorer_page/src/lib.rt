//! What a search of a script's histories has found, as one page for a browser, which needs no network and no server: a front that is the
//! same for all searches, what was found as JSON, and an end that is the same too.
#![tactic(auto)]

// What stands beside the answer.
mod more;
// The whole page.
mod page;
// The runs that a page shows.
mod runs;
// The parts of a page that are the same for all searches.
mod texts;

pub use more::{SearchHeading, SearchedFile};
pub use page::page_text;
pub use runs::PageError;
