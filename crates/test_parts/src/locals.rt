//! Bindings of task locals: `bind LOCAL VALUE`, `unbind`, `read LOCAL`, `depth`, `cut DEPTH`, `copy`, and `read_copy
//! LOCAL` and `depth_of_copy` of the newest copy.

use std::alloc::{AllocError, Global};
use swift_locals::Bindings;
use swift_types::LocalId;
use test_support::{CaseFault, Part, Said, Words};

#[derive(Drop)]
pub struct LocalsPart {
    bindings: Bindings,
    copy: Bindings,
}

impl LocalsPart {
    pub fn new(alloc: Global) -> Self {
        LocalsPart {
            bindings: Bindings::new(alloc),
            copy: Bindings::new(alloc),
        }
    }
}

// The innermost binding ends.
fn unbind(bindings: &mut Bindings, out: &mut Said) -> Result<(), CaseFault> {
    if bindings.depth() == 0 {
        return Err(CaseFault::Form);
    }
    bindings.unbind();
    out.put("ok");
    Ok(())
}

// The outermost bindings stay.
fn cut(bindings: &mut Bindings, depth: usize, out: &mut Said) -> Result<(), CaseFault> {
    if bindings.depth() < depth {
        return Err(CaseFault::Form);
    }
    bindings.cut(depth);
    out.put("ok");
    Ok(())
}

// What a call answers that takes memory.
fn grown(out: &mut Said, done: Result<(), AllocError>) {
    out.put(match done {
        Ok(()) => "ok",
        Err(AllocError) => "no memory",
    })
}

fn read(bindings: &Bindings, local: u32, out: &mut Said) {
    match bindings.read(LocalId(local)) {
        Some(value) => out.number("", value),
        None => out.put("none"),
    }
}

impl LocalsPart {
    fn bind(&mut self, words: &mut Words<'_>) -> Result<(), AllocError> {
        let local = LocalId(words.number());
        self.bindings.bind(local, words.value())
    }

    fn copy_all(&mut self) -> Result<(), AllocError> {
        self.copy = self.bindings.copy()?;
        Ok(())
    }
}

impl Part for LocalsPart {
    fn answer(
        &mut self,
        _alloc: Global,
        words: &mut Words<'_>,
        out: &mut Said,
    ) -> Result<(), CaseFault> {
        match words.next() {
            "bind" => grown(out, self.bind(words)),
            "unbind" => return unbind(&mut self.bindings, out),
            "read" => read(&self.bindings, words.number(), out),
            "depth" => out.count("", self.bindings.depth() as u64),
            "cut" => return cut(&mut self.bindings, words.size(), out),
            "copy" => grown(out, self.copy_all()),
            "read_copy" => read(&self.copy, words.number(), out),
            "depth_of_copy" => out.count("", self.copy.depth() as u64),
            _ => words.refuse(),
        }
        Ok(())
    }
}
