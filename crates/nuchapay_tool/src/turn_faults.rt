//! The pages of the faults of a turn, in the order of docs/LANGUAGE.md.

use crate::page::{Page, ScriptPair};

// What a report calls them.
const FAULT: &str = "(a fault of a turn)";

pub(crate) static THROWN: Page = Page {
    name: "thrown",
    title: FAULT,
    when: "`throw v`",
    outcome: "the turn is kept, where the invariants hold",
    help: "it is the script's own: give another value by `else` where the call is awaited",
    scripts: Some(ScriptPair {
        wrong: "    actor A {
        func f() { throw 7; }
        func g() { let v = await A.f(); return v; }
    }
    root a = A.g();
",
        mended: "    actor A {
        func f() { throw 7; }
        func g() { let v = await A.f() else 0; return v; }
    }
    root a = A.g();
",
    }),
};

pub(crate) static CANCELLED: Page = Page {
    name: "cancelled",
    title: FAULT,
    when: "`check` in a task that was cancelled when the turn began",
    outcome: "the turn is kept, where the invariants hold",
    help: "nothing, where the task was to end so; else test `cancelled`, and return a value",
    scripts: Some(ScriptPair {
        wrong: "    actor A {
        func f() { check; return 1; }
        func g() { let h = spawn A.f(); cancel h; let v = await task h else 0; return v; }
    }
    root a = A.g();
",
        mended: "    actor A {
        func f() { if cancelled { return 0; } return 1; }
        func g() { let h = spawn A.f(); cancel h; let v = await task h else 0; return v; }
    }
    root a = A.g();
",
    }),
};

pub(crate) static INVARIANT: Page = Page {
    name: "invariant",
    title: FAULT,
    when: "the turn would leave an invariant of its executor's actors 0, or overflowing",
    outcome: "the turn is undone: fields are as before it, and no task is made",
    help: "test again after each `await` and `yield`, or test and change in one turn",
    scripts: Some(ScriptPair {
        wrong: "    actor Account {
        var balance = 10;
        invariant balance >= 0;
        func withdraw() { if balance >= 10 { yield; balance = balance - 10; return 1; } return 0; }
    }
    root first = Account.withdraw();
    root second = Account.withdraw();
",
        mended: "    actor Account {
        var balance = 10;
        invariant balance >= 0;
        func withdraw() { yield; if balance >= 10 { balance = balance - 10; return 1; } return 0; }
    }
    root first = Account.withdraw();
    root second = Account.withdraw();
",
    }),
};

pub(crate) static OVERFLOW: Page = Page {
    name: "overflow",
    title: FAULT,
    when: "a value outside 64 bits, or a task or a group of a task that would be numbered past 32 bits",
    outcome: "the turn is undone",
    help: "test before you compute, or choose smaller values",
    scripts: Some(ScriptPair {
        wrong: "    actor A { func square(x) { return x * x; } }
    root a = A.square(4000000000);
",
        mended: "    actor A { func square(x) { if x > 3000000000 { return 0; } return x * x; } }
    root a = A.square(4000000000);
",
    }),
};

pub(crate) static STEPS: Page = Page {
    name: "steps",
    title: FAULT,
    when: "a turn of more than 10,000 steps: each statement is one, and for a `while` each test is one",
    outcome: "the turn is undone",
    help: "let the loop end earlier, or `yield` in it, which ends the turn",
    scripts: Some(ScriptPair {
        wrong: "    actor A { func f() { let n = 0; while n < 6000 { n = n + 1; } return n; } }
    root a = A.f();
",
        mended: "    actor A { func f() { let n = 0; while n < 6000 { n = n + 1; if n == 3000 { yield; } } return n; } }
    root a = A.f();
",
    }),
};

pub(crate) static TASKS: Page = Page {
    name: "tasks",
    title: FAULT,
    when: "more tasks than the turn may make: 16, or what is left of 1,024 once the roots, all tasks made so far (ended ones too), and those that other turns under way may still make are taken off",
    outcome: "the turn is undone",
    help: "make at most 16 tasks in a turn, and 1,024 in a run",
    scripts: Some(ScriptPair {
        wrong: "    actor A { func k() { } func f() { let n = 0; while n < 17 { detach A.k(); n = n + 1; } } }
    root a = A.f();
",
        mended: "    actor A { func k() { } func f() { let n = 0; while n < 17 { detach A.k(); n = n + 1; yield; } } }
    root a = A.f();
",
    }),
};

pub(crate) static ISOLATION: Page = Page {
    name: "isolation",
    title: FAULT,
    when: "an `assume` of an actor that runs on another executor",
    outcome: "the turn is undone",
    help: "let both actors run on one executor, or await a method of the other actor",
    scripts: Some(ScriptPair {
        wrong: "    actor A { var x = 1; }
    actor B { func f() { assume A { x = 2; } } }
    root b = B.f();
",
        mended: "    executor E fifo;
    actor A on E { var x = 1; }
    actor B on E { func f() { assume A { x = 2; } } }
    root b = B.f();
",
    }),
};

pub(crate) static EMPTY: Page = Page {
    name: "empty",
    title: FAULT,
    when: "`await next` where no child is left",
    outcome: "the turn begins with the fault",
    help: "wait for each child of the group once, or give a value by `else`",
    scripts: Some(ScriptPair {
        wrong: "    actor A { func k() { } func f() { group g { add g A.k(); await next g; await next g; } } }
    root a = A.f();
",
        mended: "    actor A { func k() { } func f() { group g { add g A.k(); await next g; } } }
    root a = A.f();
",
    }),
};

pub(crate) static DEPTH: Page = Page {
    name: "depth",
    title: FAULT,
    when: "a call from a task that has 64 frames",
    outcome: "the turn is kept; the caller's next turn begins with the fault",
    help: "let the calls end earlier, or write a loop",
    scripts: Some(ScriptPair {
        wrong: "    actor A { func f(n) { if n == 0 { return 0; } let v = await A.f(n - 1); return v; } }
    root a = A.f(64);
",
        mended: "    actor A { func f(n) { if n == 0 { return 0; } let v = await A.f(n - 1); return v; } }
    root a = A.f(63);
",
    }),
};

pub(crate) static TURNS: Page = Page {
    name: "turns",
    title: FAULT,
    when: "each turn of a task from its 1,001st on",
    outcome: "the turn runs no statement; no `else` catches it",
    help: "let the task end earlier, or spawn another that goes on",
    scripts: Some(ScriptPair {
        wrong: "    actor A { func f() { while 1 { yield; } } }
    root a = A.f();
",
        mended: "    actor A { func f() { let n = 0; while n < 100 { yield; n = n + 1; } } }
    root a = A.f();
",
    }),
};
