//! What holds between any two steps of an inbox, whatever its threads do and in whatever order. Each function's contract
//! is the law; the functions do nothing.

ghost use Rattle.std.specs.Prelude.{◌≡◌, ℕ, true, false, List, [], ◌++◌, map, All, IsPermutation, Some};
ghost use mathlib.Core.Option.{some};
ghost use lib.ListN.{get_elem?};
ghost use Rattle.swift_shared_book.specs.Tickets.{TicketedJobView};
ghost use Rattle.swift_history.specs.Jobs.{job_facts};
ghost use Rattle.swift_executor.specs.declared.inbox.view.PassKnown.{PassKnown};
ghost use Rattle.swift_executor.specs.Site.{SiteView, CanRunAt};
ghost use Rattle.swift_executor.specs.Rule.{InboxInvariant, pushed_in, taken_in};
ghost use Rattle.std.specs.Thread.{IsSend, IsSync};
ghost use Rattle.swift_turn.specs.contracts.body.Body as body;
ghost use Rattle.swift_executor.specs.contracts.inbox.Inbox as inbox;
ghost use Rattle.swift_executor.specs.contracts.inbox.pass.Pass as pass;
ghost use Rattle.swift_executor.specs.contracts.inbox.taker.Taker as taker;

use crate::inbox::rule::InboxRule;
use crate::inbox::view::PassKnown;
use crossbeam_queue::protocol::Protocol;
use swift_shared_book::TicketedJob;

/// What the queue of an inbox keeps between any two steps is the rule (our own).
pub fn inbox_keeps_its_rule()
    ensures { (inside : List TicketedJobView) (views : List PassKnown)
        → ⟦<InboxRule as Protocol<TicketedJob, PassKnown>>⟧.holds inside views → InboxInvariant inside views }
{}

/// The jobs that were put in, through any pass, are those that were taken out and those inside, up to order: each as
/// often as it was put in (our own).
pub fn nothing_is_lost()
    ensures { (inside : List TicketedJobView) (views : List PassKnown) → InboxInvariant inside views
        → IsPermutation (pushed_in views) (taken_in views ++ map (λ t. job_facts t.job) inside) }
{}

/// Each job inside can run at the executor that a pass knows (our own).
pub fn each_inside_can_run()
    ensures { (inside : List TicketedJobView) (views : List PassKnown) → InboxInvariant inside views
        → (pass : ℕ) (v : PassKnown) (site : SiteView) → get_elem? views pass ≡ some v → v.site ≡ Some site
        → All (CanRunAt site) inside }
{}

/// All passes of an inbox that know an executor know the same (our own).
pub fn one_executor()
    ensures { (inside : List TicketedJobView) (views : List PassKnown) → InboxInvariant inside views
        → (a b : ℕ) (v w : PassKnown) (s t : SiteView) → get_elem? views a ≡ some v → get_elem? views b ≡ some w
        → v.site ≡ Some s → w.site ≡ Some t → s ≡ t }
{}

/// At most one pass of an inbox takes, and nothing is put in through it; through each other nothing came out (our own).
pub fn one_taker()
    ensures one { (inside : List TicketedJobView) (views : List PassKnown) → InboxInvariant inside views
        → (a b : ℕ) (v w : PassKnown) → get_elem? views a ≡ some v → get_elem? views b ≡ some w
        → v.takes ≡ true → w.takes ≡ true → a ≡ b }
    ensures takes { (inside : List TicketedJobView) (views : List PassKnown) → InboxInvariant inside views
        → (pass : ℕ) (v : PassKnown) → get_elem? views pass ≡ some v → v.takes ≡ true → v.pushed ≡ [] }
    ensures puts { (inside : List TicketedJobView) (views : List PassKnown) → InboxInvariant inside views
        → (pass : ℕ) (v : PassKnown) → get_elem? views pass ≡ some v → v.takes ≡ false → v.taken ≡ [] }
{}

/// The jobs that were put in, through any pass, are those that the taker took and those inside, up to order: each as often as
/// it was put in (our own).
pub fn taker_takes_all()
    ensures { (inside : List TicketedJobView) (views : List PassKnown) → InboxInvariant inside views
        → (pass : ℕ) (v : PassKnown) → get_elem? views pass ≡ some v → v.takes ≡ true
        → IsPermutation (pushed_in views) (v.taken ++ map (λ t. job_facts t.job) inside) }
{}

/// Threads may share an inbox (our own).
pub fn threads_share_an_inbox()
    ensures { IsSync inbox.the_row }
{}

/// A pass may go to another thread, as may a taker and a job's body (our own).
pub fn passes_and_bodies_cross_threads()
    ensures pass { IsSend pass.the_row }
    ensures taker { IsSend taker.the_row }
    ensures body { IsSend body.the_row }
{}
