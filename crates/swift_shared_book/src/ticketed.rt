//! A job with its ticket.

ghost use Rattle.std.specs.Prelude.{◌≡◌, Option, Some, [], ◌∷◌};
ghost use Rattle.swift_course.specs.declared.known.Known.{Known as KnownIs};
ghost use Rattle.swift_script.specs.Scripts.{ScriptView};
ghost use Rattle.swift_shared_book.specs.Tickets.{IsTicketOf, ticket_view};
ghost use Rattle.swift_history.specs.Jobs.{job_facts};

use crate::lock::Badge;
use std::marker::Model;
use swift_course::known::{BookImage, Known};
use swift_job::Job;
use swift_turn::Body;

/// A job on its way to an executor, with its ticket: the right to run its turn, once, which the lock of a book gives with the job
/// (our own). The ticket has no bytes, and can't be copied. By its type it is the ticket of this job.
///
/// In a clause it is the job, and the book that gave it, by the book's lock. Where it is dropped, the job is spent.
pub struct TicketedJob {
    job: Job<Body>,
    ticket: Badge<BookImage, Known>,
}

impl Drop for TicketedJob {
    fn drop(self) {
        let TicketedJob { job, ticket } = self;
        let (_task, _number, _resume, _body) = job.spend();
        drop(ticket);
    }
}

impl Model for TicketedJob {
    ghost use Rattle.std.specs.Coded.{codes};
    ghost use Rattle.swift_script.specs.Codes.{expression_code, statement_code, block_code};
    ghost use Rattle.swift_shared_book.specs.Tickets.{IsTicketOf, TicketedJobView, book_at};

    ghost Value = { TicketedJobView };

    ghost coded = { Prim.hlevel (codes, expression_code, statement_code (block_code (Prim.hlevel (codes, expression_code)) (Prim.hlevel (codes, expression_code)))) };

    ghost view = { λ t. record { job = t.job; book = book_at t.ticket.lock t.ticket.knows } };

    ghost invariant = { λ t. IsTicketOf t.job t.ticket.knows };
}

impl TicketedJob {
    /// A job with its ticket.
    pub fn new(job: Job<Body>, ticket: Badge<BookImage, Known>) -> TicketedJob
        requires { (known : KnownIs) × (script : Option ScriptView) × (ticket.knows ≡ known ∷ []) × (known.view ≡ ticket_view script (job_facts job)) }
        ensures { result ≡ record { job = job; book = Some ticket.lock } }
    {
        TicketedJob { job, ticket }
    }

    /// The job.
    pub fn job(&self) -> &Job<Body>
        ensures { result.now ≡ self.now.job }
    {
        &self.job
    }

    /// The job, whose ticket is given up.
    pub fn into_job(self) -> Job<Body>
        ensures { result ≡ self.job }
    {
        let TicketedJob { job, ticket: _ } = self;
        job
    }

    /// The job and its ticket.
    pub fn into_parts(self) -> (Job<Body>, Badge<BookImage, Known>)
        ensures job { result.0 ≡ self.job }
        ensures lock { self.book ≡ Some result.1.lock }
        ensures ticket { (known : KnownIs) × (script : Option ScriptView) × (result.1.knows ≡ known ∷ []) × (known.view ≡ ticket_view script (job_facts self.job)) }
    {
        let TicketedJob { job, ticket } = self;
        (job, ticket)
    }
}
