//! The part chosen of the script of a page. Written by tools/run_page.py from the files in page/.

/// Its text.
pub(crate) static CHOSEN: &str =
    "// The turn that is chosen, the tasks, and what happened in a line.

function showFields(turn, run) {
    const fields = fieldsBefore(turn);
    const changes = new Map((run ? [] : turn.changes).map((change) => [change.field, change]));
    found(\"values\").replaceChildren(...[...fields].map(([field, before]) => {
        const change = changes.get(field);
        const isKept = !change || turn.outcome === \"kept\";
        const left = (value) => make(\"s\", { title: \"It would have left this\" }, value);
        const after = !change ? [before] : isKept ? [change.after] : [before + \" \", left(change.after)];
        const name = !change ? null : isKept ? \"changed\" : \"taken\";
        return make(\"tr\", { class: name }, make(\"td\", {}, field), make(\"td\", {}, before), make(\"td\", {}, ...after));
    }));
}

function showFold({ run, first }) {
    found(\"turn-name\").textContent = `${counted(run.length, \"turn\")} that only gave way`;
    const open = make(\"button\", { type: \"button\", class: \"link\", id: \"open\" }, \"Show them\");
    open.addEventListener(\"click\", () => { opened.add(first); relay(); });
    const ends = `From ${run[0].name} to ${run[run.length - 1].name}`;
    found(\"said\").replaceChildren(`${ends}: each went on, changed no field, and gave way to others again. Below stands the first of them. `, open);
}

function showTurn(turn) {
    const own = taskTurns[turn.task];
    found(\"turn-name\").textContent = `${turn.name}: turn ${own.indexOf(turn) + 1} of ${own.length} of task ${taskNames[turn.task]}`;
    found(\"said\").textContent = sentences(turn);
}

// Scrolls so that the cell that is chosen can be seen.
function scrollToTurn(turn) {
    const [pitch, tall, room] = [PITCHES[zoom], laneTall(), view.clientWidth - GUTTER];
    const [x, y] = [chosen * pitch, turn.executor * tall];
    if (x < view.scrollLeft || x + pitch > view.scrollLeft + room) view.scrollLeft = x - (room - pitch) / 2;
    if (y < view.scrollTop) view.scrollTop = y;
    else if (y + tall > view.scrollTop + view.clientHeight) view.scrollTop = y + tall - view.clientHeight;
}

// Chooses the cell of a slot, and scrolls so that it can be seen.
function choose(slot) {
    chosen = Math.max(0, Math.min(cells.length - 1, slot));
    const cell = cells[chosen];
    found(\"step\").textContent = cell ? `turn ${cell.turn.column + 1} of ${turns.length}` : \"no turn\";
    found(\"back\").disabled = !cell || chosen === 0;
    found(\"forward\").disabled = !cell || chosen === cells.length - 1;
    if (!cell) return;
    scrollToTurn(cell.turn);
    if (cell.run) showFold(cell);
    else showTurn(cell.turn);
    found(\"method\").replaceChildren(...methodPieces(cell.turn));
    const name = cell.turn.name;
    found(\"why\").textContent = why.get(name) || `This page explains the last ${more.why[0]} turns. nuchapay why FILE ${name} explains this one.`;
    showFields(cell.turn, cell.run);
    drawView();
}

// Chooses a turn, and shows those of its task where they are hidden.
function chooseTurn(turn) {
    if (!turn) return;
    const wasHidden = hidden.delete(turn.task);
    if (wasHidden) showTasks();
    if (wasHidden) relay();
    choose(slotOf.get(turn));
}

// Makes the cells anew, and draws them.
function relay() {
    layCells();
    layOut();
    choose(chosen);
}

function taskItem(number) {
    const { from, by, ending: end } = report.tasks[number];
    const box = make(\"input\", { type: \"checkbox\", \"aria-label\": `Show the turns of t${number}`, \"data-task\": number });
    box.checked = !hidden.has(number);
    const link = { type: \"button\", class: \"link\", title: \"Go to its first turn\", \"data-first\": number };
    const name = make(\"button\", link, `t${number} ${taskNames[number]}`);
    const only = make(\"button\", { type: \"button\", class: \"only\", title: \"Show the turns of this task alone\", \"data-only\": number }, \"only\");
    const how = make(\"span\", { class: end.is === \"fault\" ? \"bad-word\" : \"good-word\" }, ending(end));
    const made = from === \"root\" ? \"root\" : `${from === \"child\" ? \"child of\" : from + \" by\"} t${by}`;
    return make(\"li\", {}, box, make(\"span\", { class: \"swatch \" + colour(number) }), name, only,
        make(\"span\", { class: \"how\" }, `${made}, ${counted(taskTurns[number].length, \"turn\")}, `, how));
}

// The tasks that the words in the field ask for.
function listed() {
    const wanted = found(\"find\").value.trim().toLowerCase();
    const about = (number) => {
        const { from, ending: end } = report.tasks[number];
        return `t${number} ${taskNames[number]} ${from} ${ending(end)}`.toLowerCase();
    };
    return report.tasks.map((_, number) => number).filter((number) => about(number).includes(wanted));
}

function showTasks() {
    const numbers = listed();
    const others = numbers.length > 500 ? [make(\"li\", { class: \"note\" }, `and ${numbers.length - 500} more`)] : [];
    found(\"list\").replaceChildren(...numbers.slice(0, 500).map(taskItem), ...others);
}

// Shows the turns of some tasks, and of no others of the list.
function filter(isShown) {
    for (const number of listed()) isShown(number) ? hidden.delete(number) : hidden.add(number);
    showTasks();
    relay();
}

function toTurn(turn, text = turn.name) {
    const link = make(\"button\", { type: \"button\", class: \"link\", \"data-go\": turn.name }, text);
    link.addEventListener(\"click\", () => chooseTurn(turn));
    return link;
}

// A task that ended with a fault, and the way to its last turn.
function failure(number) {
    const text = `${taskNames[number]} (${fault(report.tasks[number].ending)})`;
    const last = taskTurns[number][taskTurns[number].length - 1];
    return last ? toTurn(last, text) : text;
}

// Some of these in a row, and how many more there are.
function some(all, piece) {
    const shown = all.slice(0, 6).flatMap((each, at) => (at === 0 ? [piece(each)] : [\", \", piece(each)]));
    return all.length > 6 ? [...shown, ` and ${all.length - 6} more`] : shown;
}

function showSummary() {
    const undone = turns.filter((turn) => turn.undone);
    const failed = report.tasks.filter((task) => task.ending.is === \"fault\").map((task) => task.task);
    const many = `${counted(turns.length + folded, \"turn\")} of ${counted(report.tasks.length, \"task\")}`;
    const pieces = [`${many} on ${counted(executors.length, \"executor\")}, by ${counted(more.workers, \"worker\")}. `];
    if (undone.length > 0) pieces.push(`${counted(undone.length, \"turn was\", \"turns were\")} undone: `, ...some(undone, (turn) => toTurn(turn)), \". \");
    if (failed.length === 0) pieces.push(\"Each task ended with a value. \");
    else pieces.push(`${counted(failed.length, \"task\")} ended with a fault: `, ...some(failed, failure), \". \");
    if (folded > 0) pieces.push(`The first ${folded} of these turns were folded, and are not here.`);
    found(\"summary\").replaceChildren(...pieces);
    const name = more.name.split(\"/\").pop();
    found(\"title\").textContent = name;
    document.title = `${name}: a run`;
}

const LINKS = { goes: \"goes on\", call: \"calls\", return: \"returns\", spawn: \"makes a task\", waits: \"waits\", wake: \"wakes\" };

function showLegend() {
    const sample = (link) => shape(\"svg\", { width: 34, height: 8, class: \"task c8\" }, shape(\"path\", { class: \"link-line \" + link, d: \"M0,4h34\" }));
    found(\"links\").append(...Object.entries(LINKS).map(([link, text]) => make(\"span\", {}, sample(link), text)));
}
";
