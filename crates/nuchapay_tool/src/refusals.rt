//! The pages of the refusals of a script, in the order of their numbers.

use crate::page::{Page, ScriptPair};

// What becomes of a script that is refused.
const NOT_RUN: &str = "nothing of the script is run";

pub(crate) static NOT_TEXT: Page = Page {
    name: "S1",
    title: "byte outside ASCII text",
    when: "a byte stands in the text, perhaps in a comment, that is neither printable ASCII nor a tab, an LF or a CR",
    outcome: NOT_RUN,
    help: "remove the byte: only printable ASCII, tabs, LF and CR are allowed",
    scripts: Some(ScriptPair {
        wrong: "    actor A { } // café
",
        mended: "    actor A { } // cafe
",
    }),
};

pub(crate) static UNEXPECTED: Page = Page {
    name: "S2",
    title: "unexpected token",
    when: "a token stands where the grammar has no place for it",
    outcome: NOT_RUN,
    help: "look at the grammar: the token on that line does not fit there; a number too large is S2 where no number fits",
    scripts: Some(ScriptPair {
        wrong: "    actor { }
",
        mended: "    actor A { }
",
    }),
};

pub(crate) static OUT_OF_RANGE: Page = Page {
    name: "S3",
    title: "number out of i64",
    when: "a number is greater than 9223372036854775807",
    outcome: NOT_RUN,
    help: "write a number up to 9223372036854775807",
    scripts: Some(ScriptPair {
        wrong: "    local L = 9223372036854775808;
",
        mended: "    local L = 9223372036854775807;
",
    }),
};

pub(crate) static NAME_TWICE: Page = Page {
    name: "S4",
    title: "name given twice",
    when: "a name is declared that something else has at this place",
    outcome: NOT_RUN,
    help: "give the second one another name",
    scripts: Some(ScriptPair {
        wrong: "    local L = 0; local L = 1;
",
        mended: "    local L = 0; local K = 1;
",
    }),
};

pub(crate) static UNKNOWN_NAME: Page = Page {
    name: "S5",
    title: "unknown name",
    when: "a name is used that stands for nothing at this place",
    outcome: NOT_RUN,
    help: "declare the name, or fix its spelling; a `let` can be used only after its end, and in its block",
    scripts: Some(ScriptPair {
        wrong: "    root a = B.f();
",
        mended: "    actor B { func f() { } }
    root a = B.f();
",
    }),
};

pub(crate) static ARGUMENTS: Page = Page {
    name: "S6",
    title: "wrong number of arguments",
    when: "a method is called, or run by a root, with another number of arguments than it has parameters",
    outcome: NOT_RUN,
    help: "give as many arguments as the method has parameters",
    scripts: Some(ScriptPair {
        wrong: "    actor A { func f(x) { } } root a = A.f();
",
        mended: "    actor A { func f(x) { } } root a = A.f(1);
",
    }),
};

pub(crate) static CONFUSED: Page = Page {
    name: "S7",
    title: "task, group and number confused",
    when: "a name stands for something else than what is wanted here: a task, a group or a number",
    outcome: NOT_RUN,
    help: "a task is named after `task` and `cancel`, a group after `next`, `add` and `cancel`; to get a task's value, `let v = await task h;`",
    scripts: Some(ScriptPair {
        wrong: "    actor A { func f() { let h = spawn A.f(); return h; } }
",
        mended: "    actor A { func f() { let h = spawn A.f(); let v = await task h; return v; } }
",
    }),
};

pub(crate) static INVARIANT_FALSE: Page = Page {
    name: "S8",
    title: "invariant false at the start",
    when: "an actor's invariant is 0, or overflows, of the start values of the fields",
    outcome: NOT_RUN,
    help: "choose start values for which the invariant is not 0; one that overflows counts as false",
    scripts: Some(ScriptPair {
        wrong: "    actor A { var x = 1; invariant x > 1; }
",
        mended: "    actor A { var x = 2; invariant x > 1; }
",
    }),
};

pub(crate) static BOUND_INSIDE: Page = Page {
    name: "S9",
    title: "add in a bind inside its group",
    when: "a child is added inside a `bind` that was opened inside its group",
    outcome: NOT_RUN,
    help: "add the child outside the `bind`, or open the group inside it",
    scripts: Some(ScriptPair {
        wrong: "    local L = 0; actor A { func k() { } func f() { group g { bind L = 1 { add g A.k(); } } } }
",
        mended: "    local L = 0; actor A { func k() { } func f() { bind L = 1 { group g { add g A.k(); } } } }
",
    }),
};

pub(crate) static ROOT_WAITS: Page = Page {
    name: "S10",
    title: "a root waits for a later root",
    when: "a root may wait for itself, or for a root that is declared after it",
    outcome: NOT_RUN,
    help: "declare the root that is waited for first",
    scripts: Some(ScriptPair {
        wrong: "    actor A { func f() { await task b; } func g() { } } root a = A.f(); root b = A.g();
",
        mended: "    actor A { func f() { await task b; } func g() { } } root b = A.g(); root a = A.f();
",
    }),
};

pub(crate) static LIMIT_PASSED: Page = Page {
    name: "S11",
    title: "a limit is passed",
    when: "the text has more than 65,536 bytes, 64 declared executors, 64 actors or 1,024 roots, or a number above 7 after `pinned`",
    outcome: NOT_RUN,
    help: "write at most 7 after `pinned`; else split the script, or give several actors one executor; docs/LANGUAGE.md has a table of the limits",
    scripts: Some(ScriptPair {
        wrong: "    executor E pinned 8;
",
        mended: "    executor E pinned 7;
",
    }),
};

pub(crate) static ENDS_EARLY: Page = Page {
    name: "S12",
    title: "text ends early",
    when: "the text ends where more has to come",
    outcome: NOT_RUN,
    help: "close what is open",
    scripts: Some(ScriptPair {
        wrong: "    actor A { func f() { return 1;
",
        mended: "    actor A { func f() { return 1; } }
",
    }),
};

pub(crate) static TOO_DEEP: Page = Page {
    name: "S13",
    title: "nesting over 32",
    when: "more than 32 blocks or parentheses are open at once, or an expression is higher than 32",
    outcome: NOT_RUN,
    help: "name a part by `let`, or move a block into a method",
    scripts: Some(ScriptPair {
        wrong: "    actor A { func f() { return (((((((((((((((((((((((((((((((((1))))))))))))))))))))))))))))))))); } }
",
        mended: "    actor A { func f() { return 1; } }
",
    }),
};

pub(crate) static MEMORY: Page = Page {
    name: "S14",
    title: "no memory",
    when: "the program ran out of memory while it read the text",
    outcome: NOT_RUN,
    help: "give the program more memory",
    scripts: None,
};
