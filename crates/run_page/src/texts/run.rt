//! The part run of the script of a page. Written by tools/run_page.py from the files in page/.

/// Its text.
pub(crate) static RUN: &str = "\"use strict\";
// The run, as the two pieces of JSON that stand in the page have it. These files are one script, in the order of page.html; the last
// one starts the page. Texts of the run are set as text, never as markup. It loads nothing.

const found = (id) => document.getElementById(id);
const [view, picture, overview] = [\"view\", \"picture\", \"overview\"].map(found);

// Numbers of 16 digits and more stay texts: as floats they would lose digits. The strings of a report have no colon before digits.
const report = JSON.parse(found(\"report\").textContent.replace(/:(-?\\d{16,})(?=[,}])/g, ':\"$1\"'));
const more = JSON.parse(found(\"more\").textContent);
const fault = (of) => of.fault + (\"value\" in of ? \" \" + of.value : \"\");

// How a turn began or ended, as the journal has it: its word, and what stands after it.
function stateText(state) {
    const after = state.method || (state.is === \"fault\" ? fault(state) : state.fault ? \"fault \" + fault(state) : state.value);
    return after === undefined ? state.is : `${state.is} ${after}`;
}

// A change as the data has it: a field, and its values before and after.
function changeOf(text) {
    const [, field, before, after] = /^(\\S+) (-?\\d+) -> (-?\\d+)$/.exec(text);
    return { field, before, after };
}

// The turns of all journals, each with what it did to the fields.
function readTurns() {
    const turns = [];
    report.journals.forEach((journal, executor) => journal.records.forEach((record, at) => {
        const [outcome, ...changes] = (more.values[executor] || [])[at] || [\"kept\"];
        turns.push({
            ...record, executor, outcome, changes: changes.map(changeOf), name: `t${record.task}.${record.turn}`,
            begin: -1, end: -1, column: 0, last: 0, maker: null, before: null, marks: [], made: [], woke: [], undone: false,
        });
    }));
    return turns;
}

const MARKS = { open: \"opens group \", skip: \"skips in group \", \"cancel group\": \"cancels group \", \"cancel task\": \"cancels t\" };

// What one event of the log says of turns. The turn in whose block it stands.
function readEvent([word, task, other], place, doer) {
    const turn = byName.get(`t${task}.${other}`);
    if (word === \"begin\" && turn) turn.begin = place;
    if (word === \"apply\" && turn) turn.end = place;
    if (word === \"apply\") return turn || null;
    if (word === \"root\" || word === \"begin\" || !doer) return null;
    if (word === \"give\" && turn) turn.maker = doer;
    if (word === \"give\" && task !== doer.task) doer.woke.push(task);
    if (word === \"free\" || word === \"child\") doer.made.push(task);
    else if (word in MARKS) doer.marks.push(MARKS[word] + (word === \"cancel task\" ? task : other));
    return doer;
}

// Gives each turn its column, by the order in which they began, and the last one that began before its end.
function placeTurns() {
    turns.sort((one, two) => one.begin - two.begin);
    turns.forEach((turn, column) => { turn.column = turn.last = column; });
    let begun = 0;
    const ends = [...turns].sort((one, two) => one.end - two.end);
    for (const turn of ends) {
        while (begun < turns.length && turns[begun].begin < turn.end) begun++;
        turn.last = Math.max(turn.column, begun - 1);
    }
    return ends;
}

const UNDOING = [\"invariant\", \"overflow\", \"steps\", \"tasks\", \"isolation\"];

// The fault with which a turn has left its frame, or will once its groups are closed.
const left = (turn) => (turn && \"fault\" in turn.exit ? fault(turn.exit) : null);

// Whether a turn was undone: its fault is one that undoes a turn, and came up in it.
function isUndone(turn) {
    const own = left(turn);
    if (!own || !UNDOING.includes(turn.exit.fault)) return false;
    const came = turn.resume.is === \"fault\" && fault(turn.resume) === own;
    return !came && !(turn.before && turn.before.exit.is === \"close\" && left(turn.before) === own);
}

// What tasks are called: a root by its name, another by its maker's and its place among those that this made.
function nameTasks() {
    const [names, made] = [[], new Map()];
    for (const { from, root, by } of report.tasks) {
        const place = (made.get(by) || 0) + 1;
        if (from !== \"root\") made.set(by, place);
        names.push(from === \"root\" ? root : `${names[by]}/${place}`);
    }
    return names;
}

// The fields at the start: those at the end, with the changes taken back.
function startFields() {
    const rows = Object.entries(report.fields);
    const fields = new Map(rows.flatMap(([actor, row]) => Object.entries(row).map(([field, value]) => [`${actor}.${field}`, String(value)])));
    const kept = [...ends].reverse().filter((turn) => turn.outcome === \"kept\");
    for (const { field, before } of kept.flatMap((turn) => [...turn.changes].reverse())) fields.set(field, before);
    return fields;
}

const turns = readTurns();
const byName = new Map(turns.map((turn) => [turn.name, turn]));
more.log.reduce((doer, event, place) => readEvent(event, place, doer), null);
const ends = placeTurns();
const taskNames = nameTasks();
const taskTurns = report.tasks.map(() => []);
for (const turn of turns) {
    taskTurns[turn.task].push(turn);
    turn.before = byName.get(`t${turn.task}.${turn.turn - 1}`) || null;
    turn.raised = turn.before !== null && turn.before.priority < turn.priority;
    turn.undone = isUndone(turn);
}
const atStart = startFields();
const why = new Map(more.why.slice(1).map(([task, turn, text]) => [`t${task}.${turn}`, text]));
const executors = report.journals.map((journal) => journal.executor);
const folded = report.journals.reduce((sum, journal) => sum + journal.folded, 0);

// The fields from before a turn.
function fieldsBefore(chosen) {
    const fields = new Map(atStart);
    const kept = ends.filter((turn) => turn.end < chosen.end && turn.outcome === \"kept\");
    for (const { field, after } of kept.flatMap((turn) => turn.changes)) fields.set(field, after);
    return fields;
}

// Whether a turn did nothing but give way to others.
function givesWay(turn) {
    return turn.resume.is === \"go\" && turn.exit.is === \"yield\" && !turn.raised && !(turn.before && turn.before.cancelled !== turn.cancelled)
        && turn.changes.length + turn.marks.length + turn.made.length + turn.woke.length === 0;
}
";
