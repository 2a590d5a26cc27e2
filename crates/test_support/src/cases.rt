//! The cases of an input.

use crate::ends;
use crate::fault::CaseFault;
use crate::said::Said;
use std::alloc::{AllocError, Global};

/// A case.
#[derive(Clone, Copy)]
pub struct Case<'a> {
    /// What is asked of its text.
    pub kind: &'a str,
    /// Its title, without the word `ends`.
    pub title: &'a str,
    /// Its text.
    pub text: &'a str,
    // Whether only the ends of what is said of it are written.
    is_ends: bool,
}

/// The texts of an input, of which the first is a comment, and the others are cases, with `\n== ` between them.
pub fn texts_of(input: &str) -> &str {
    input.strip_suffix('\n').unwrap_or(input)
}

impl<'a> Case<'a> {
    /// The case of a text. None where its first line has no kind.
    pub fn of(case: &'a str) -> Option<Case<'a>> {
        let (head, text) = case.split_once('\n').unwrap_or((case, ""));
        let (kind, title) = head.split_once(' ')?;
        if kind != "ends" {
            return Some(Case {
                kind,
                title,
                text,
                is_ends: false,
            });
        }
        let (kind, title) = title.split_once(' ')?;
        Some(Case {
            kind,
            title,
            text,
            is_ends: true,
        })
    }

    /// What is written for it, where this is said of it. It is put together again where that is refused memory.
    pub fn written(&self, alloc: Global, said: &Said) -> Result<String, CaseFault> {
        match self.joined(alloc, said) {
            Ok(text) => Ok(text),
            Err(AllocError) => Ok(self.joined(alloc, said)?),
        }
    }

    // Its title, and what is said of it.
    fn joined(&self, alloc: Global, said: &Said) -> Result<String, AllocError> {
        let mut out = Said::new(alloc);
        out.put("== ");
        out.put(self.title);
        out.put("\n");
        if self.is_ends {
            ends::write(said.so_far(), &mut out);
        } else {
            out.part(said);
        }
        out.end()
    }

    /// What is written for it, where this is said of it once it is made again, and that was said before it was refused memory.
    pub fn written_again(
        &self,
        alloc: Global,
        said: &mut Said,
        before: &Said,
    ) -> Result<String, CaseFault> {
        if !said.so_far().starts_with(before.so_far()) {
            said.put("wrong: it wrote something else before\n");
        }
        self.written(alloc, said)
    }
}
