//! What the lock of a book keeps, and what its seats know.

ghost use Rattle.std.specs.Coded.{codes};
ghost use Rattle.swift_script.specs.Codes.{expression_code, statement_code, block_code};
ghost use Rattle.swift_course.specs.Views.{BookFacts, BookKnown};

use std::marker::Model;

/// What the lock of a book keeps. No value of it is made. It is a type of its own, in which no jobs lie, so that what goes with a
/// job can name it.
pub struct BookImage {
    pub ghost facts: { BookFacts } by { Prim.hlevel (codes, expression_code, statement_code (block_code (Prim.hlevel (codes, expression_code)) (Prim.hlevel (codes, expression_code)))) },
}

impl Model for BookImage {
    ghost use base.Fml.{ftrue};

    ghost also_owns = { λ _. ftrue };
}

/// What a seat knows of the book. No value of it is made.
pub struct Known {
    pub ghost view: { BookKnown } by { Prim.hlevel (codes, expression_code, statement_code (block_code (Prim.hlevel (codes, expression_code)) (Prim.hlevel (codes, expression_code)))) },
}

impl Model for Known {
    ghost use base.Fml.{ftrue};

    ghost also_owns = { λ _. ftrue };
}
