//! The pages of the refusals of a run, in the order of their numbers.

use crate::page::Page;

// What becomes of a run that is refused.
const NO_REPORT: &str = "the run leaves no report";

// What to do where no tested run ends so.
const REPORT_IT: &str = "no tested run ends so: report it, with the script and the arguments";

pub(crate) static WORKERS: Page = Page {
    name: "N1",
    title: "number of workers",
    when: "a run is asked for on another number of workers than 1 to 8",
    outcome: NO_REPORT,
    help: "it is for programs that call `run` themselves: ask for 1 to 8 workers",
    scripts: None,
};

pub(crate) static RUN_MEMORY: Page = Page {
    name: "N2",
    title: "no memory",
    when: "memory, or a thread could not be made",
    outcome: NO_REPORT,
    help: "more memory, or fewer workers",
    scripts: None,
};

pub(crate) static UNFINISHED: Page = Page {
    name: "N3",
    title: "unfinished jobs",
    when: "a task has not ended, or has a group open, or a job was not run",
    outcome: NO_REPORT,
    help: REPORT_IT,
    scripts: None,
};

pub(crate) static ILLEGAL: Page = Page {
    name: "N4",
    title: "report not legal",
    when: "a report that is not legal",
    outcome: NO_REPORT,
    help: "no run ends so, by proof; the number stays for reports from elsewhere",
    scripts: None,
};

pub(crate) static EXECUTOR: Page = Page {
    name: "N5",
    title: "executor refused",
    when: "an executor had no room, or the book refused a turn",
    outcome: NO_REPORT,
    help: REPORT_IT,
    scripts: None,
};
