//! The part orders of the script of a page. Written by tools/explorer_page.py from the files in page/.

/// Its text.
pub(crate) static ORDERS: &str =
    "// In which order turns run: a line for each outcome, from where it parts from the chosen one.

// At most so many lines are drawn, and so many turns of a front that all have in common.
const [LINES, FRONT] = [300, 6];

const cell = (step, more = \"\") => made(\"span\", { class: `step c${step.task % 12} ${more}` }, step.word);
const isUndone = (outcome, step) => step.ends && outcome.undone.includes(step.name);
// Whether an outcome is not as it should be.
const isBad = (one) => one.undone.length > 0 || one.inSwift !== \"outcome\" || one.verdicts.some((verdict) => verdict !== \"holds\");

// The front that the schedules of all outcomes have in common.
const front = outcomes.reduce((least, { steps }) => Math.min(least, common(outcomes[0].steps, steps)), outcomes.length > 0 ? outcomes[0].steps.length : 0);

function showTasks() {
    if (outcomes.length === 0) return;
    const names = outcomes[0].names.slice(0, 24);
    at(\"tasks\").append(...names.map((name, task) => made(\"span\", { class: \"legend\" }, made(\"span\", { class: `step c${task % 12}` }, `t${task}`), name)));
}

// The turns of an outcome's schedule, pale up to where it parts from the chosen one's.
function cellsOf(outcome, chosen) {
    const hidden = outcomes.length > 1 && front > FRONT ? front : 0;
    const parts = outcome === chosen ? -1 : common(outcome.steps, chosen.steps);
    const cells = hidden > 0 ? [made(\"span\", { class: \"early\" }, `${hidden} turns that all begin with`)] : [];
    outcome.steps.slice(hidden).forEach((step, index) => {
        const place = index + hidden;
        if (place === parts) cells.push(made(\"span\", { class: \"bar\", title: \"here it parts\" }));
        cells.push(cell(step, `${place < parts ? \"same\" : \"\"} ${isUndone(outcome, step) ? \"undone\" : \"\"}`));
    });
    return cells;
}

function showLines(chosen) {
    const lines = outcomes.slice(0, LINES).map((outcome) => made(\"div\", { class: `line${outcome === chosen ? \" chosen\" : \"\"}`, press: () => choose(outcome.place) },
        made(\"span\", { class: `name${isBad(outcome) ? \" bad\" : \"\"}` }, `outcome ${outcome.number}`), made(\"span\", {}, ...cellsOf(outcome, chosen))));
    if (outcomes.length > LINES) lines.push(made(\"div\", { class: \"line\" }, `and ${outcomes.length - LINES} more`));
    at(\"lines\").replaceChildren(...lines);
}
";
