//! The book where it lies in its lock.

ghost use Rattle.std.specs.Prelude.{◌≡◌};

use crate::lock::Locked;
use std::marker::Model;
use swift_course::known::BookImage;
use swift_job::spend_all;
use swift_tasks::Book;

/// A book that threads share, while none has taken it. It lies in a box, so that the lock moves one pointer. Where it is
/// dropped, the book is closed, and the jobs of the tasks that wait are spent.
pub struct Shelf {
    pub book: Box<Book>,
}

impl Locked for Shelf {
    type Image = BookImage;

    ghost use Rattle.swift_shared_book.specs.Calls.{facts_of};

    ghost image = { λ s. record { facts = facts_of s.book.value } };
}

impl Drop for Shelf {
    fn drop(self) {
        spend(Box::into_inner(self.into_book()));
    }
}

impl Shelf {
    /// The book.
    pub fn into_book(self) -> Box<Book>
        ensures { result ≡ self.book }
    {
        let Shelf { book } = self;
        book
    }
}

// Closes a book, and spends the jobs of the tasks that wait.
fn spend(book: Book) {
    let (_log, waiting) = book.close();
    spend_all(waiting);
}
