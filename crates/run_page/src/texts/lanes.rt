//! The part lanes of the script of a page. Written by tools/run_page.py from the files in page/.

/// Its text.
pub(crate) static LANES: &str = "// The lanes with a box for each turn, and the overview above them.

function fill(element, attributes, children) {
    for (const [name, value] of Object.entries(attributes)) if (value !== null) element.setAttribute(name, value);
    element.append(...children);
    return element;
}

const make = (name, attributes, ...children) => fill(document.createElement(name), attributes, children);
const shape = (name, attributes, ...children) => fill(document.createElementNS(\"http://www.w3.org/2000/svg\", name), attributes, children);
const words = (text, x, y, names) => shape(\"text\", { x, y, class: names }, text);
const colour = (number) => `task c${number % 12}`;

// Cells are turns that are shown, and runs of turns that are folded, in order.
const PITCHES = [1, 2, 3, 5, 8, 12, 18, 28, 44, 72, 116, 150, 180];
const GUTTER = window.innerWidth > 620 ? 132 : 96;
const hidden = new Set();
const opened = new Set();
let zoom = PITCHES.length - 1;
let cells = [];
let chosen = 0;

const isFull = (level = zoom) => PITCHES[level] >= 110;
const isNamed = () => PITCHES[zoom] >= 44;

const sizes = () => (isFull() ? { over: 34, tall: 52, under: 46 } : isNamed() ? { over: 24, tall: 24, under: 8 } : { over: 10, tall: 20, under: 8 });
const laneTall = () => { const { over, tall, under } = sizes(); return over + tall + under; };

// Adds a run of turns that only give way: the first one, and the others folded where they are three or more.
function addRun(run) {
    if (run.length < 4 || opened.has(run[0])) run.forEach((turn) => cells.push({ turn, run: null }));
    else cells.push({ turn: run[0], run: null }, { turn: run[1], run: run.slice(1), first: run[0] });
    run.length = 0;
}

// Makes the cells anew, and keeps the turn that is chosen where it is still there.
function layCells() {
    const kept = cells[chosen] && cells[chosen].turn;
    const run = [];
    cells = [];
    for (const turn of turns) {
        if (hidden.has(turn.task)) continue;
        const isQuiet = found(\"fold\").checked && givesWay(turn);
        if (!isQuiet) addRun(run);
        if (isQuiet) run.push(turn);
        else cells.push({ turn, run: null });
    }
    addRun(run);
    slotOf.clear();
    cells.forEach((cell, slot) => (cell.run || [cell.turn]).forEach((turn) => slotOf.set(turn, slot)));
    // The slot of the last cell whose turns began up to each column.
    let slot = -1;
    lastSlot = turns.map((turn) => (slot = slotOf.has(turn) ? slotOf.get(turn) : slot));
    chosen = kept && slotOf.has(kept) ? slotOf.get(kept) : Math.max(0, cells.findIndex((cell) => kept && cell.turn.column >= kept.column));
}

const slotOf = new Map();
let lastSlot = [];

const startOf = (turn) => slotOf.get(turn) * PITCHES[zoom];
const gap = () => Math.min(12, PITCHES[zoom] / 4);
const endOf = (turn) => Math.max(lastSlot[turn.last], slotOf.get(turn)) * PITCHES[zoom] + PITCHES[zoom] - gap();
const boxTop = (turn) => turn.executor * laneTall() + sizes().over;

// A field of a lane: without its actor where the lane has the actor's name.
const shortField = (turn, field) => (field.startsWith(executors[turn.executor] + \".\") ? field.split(\".\")[1] : field);
const shortMethod = (turn) => shortField(turn, turn.method);

// What stands below a box.
function below(turn) {
    const changes = turn.changes.map(({ field, before, after }) => `${shortField(turn, field)} ${before} \\u2192 ${after}`);
    const lines = [...turn.marks, ...(turn.undone && changes.length > 0 ? [\"would have left\"] : []), ...changes];
    return lines.length <= 3 ? lines : [lines[0], lines[1], `and ${lines.length - 2} more`];
}

// What stands in a box: texts, each with its place from the left, its line, and its classes.
function inBox(turn, wide) {
    const room = Math.floor((wide - 14) / 6.63);
    const short = turn.exit.is === \"call\" ? \"call \" + turn.exit.method.split(\".\")[1] : stateText(turn.exit);
    const at = `${turn.raised ? \"\\u25b2\" : \"\"}p${turn.priority}${turn.cancelled ? \" c1\" : \"\"}`;
    const left = room - turn.name.length - at.length - 2;
    return [
        [turn.name, 7, 0, turn.undone ? \"bold bad\" : \"bold\"],
        [left > 3 ? fitting(taskNames[turn.task], left) : \"\", 7 + 6.63 * (turn.name.length + 1), 0, \"\"],
        [at, wide - 7, 0, turn.raised ? \"bold end\" : \"faint end\"],
        [fitting(shortMethod(turn), room), 7, 1, \"\"],
        [fitting(`${stateText(turn.resume)} \\u2192 ${short}`, room), 7, 2, turn.undone ? \"bad\" : \"faint\"],
    ];
}

function drawFold(cell, slot, x, top, tall) {
    const own = new Map();
    for (const turn of cell.run) own.set(turn.executor, (own.get(turn.executor) || 0) + 1);
    const wide = PITCHES[zoom] - gap();
    const group = shape(\"g\", { class: `turn folded${slot === chosen ? \" chosen\" : \"\"}`, \"data-slot\": slot });
    const ends = `${cell.run[0].name} to ${cell.run[cell.run.length - 1].name}`;
    group.append(shape(\"title\", {}, `${counted(cell.run.length, \"turn\")} that only gave way: ${ends}`));
    for (const [executor, many] of own) {
        const y = top + executor * laneTall();
        group.append(shape(\"rect\", { x, y, width: wide, height: tall, rx: isNamed() ? 6 : 2 }));
        const text = isFull() ? `+ ${many} more` : \"+\" + many;
        if (isNamed()) group.append(words(text, x + wide / 2, y + tall / 2 + (isFull() ? -2 : 4), \"middle bold\"));
        if (isFull()) group.append(words(\"that only give way\", x + wide / 2, y + tall / 2 + 13, \"middle faint\"));
    }
    return group;
}

function drawTurn(turn, slot) {
    const { tall } = sizes();
    const [x, y] = [startOf(turn), boxTop(turn)];
    const [own, wide] = [PITCHES[zoom] - gap(), endOf(turn) - x];
    const names = [\"turn\", colour(turn.task), turn.undone ? \"undone\" : \"\", isNamed() ? \"\" : \"small\", slot === chosen ? \"chosen\" : \"\"];
    const group = shape(\"g\", { class: names.filter((name) => name).join(\" \"), \"data-slot\": slot, \"data-turn\": turn.name });
    group.append(shape(\"title\", {}, [line(turn), ...below(turn)].join(\"\\n\")));
    group.append(shape(\"rect\", { x, y, width: wide, height: tall, rx: isNamed() ? 6 : 2 }));
    const cross = `M${x + 4},${y + 4}l${wide - 8},${tall - 8}m0,${8 - tall}l${8 - wide},${tall - 8}`;
    if (turn.undone && isNamed()) group.append(shape(\"path\", { class: \"cross\", d: cross }));
    if (isFull()) {
        inBox(turn, own).forEach(([text, from, at, names]) => group.append(words(text, x + from, y + 15 + 15 * at, names)));
        const under = below(turn).map((text) => fitting(text, Math.floor(own / 6.63)));
        under.forEach((text, at) => group.append(words(text, x, y + tall + 13 + 13 * at, turn.undone ? \"bad\" : \"faint\")));
    } else if (isNamed() && turn.name.length * 5.42 < own) group.append(words(turn.name, x + own / 2, y + 15, `tiny middle ${turn.undone ? \"bad\" : \"\"}`));
    return group;
}

// How the line to a turn from the one that made its job is drawn.
function linkOf(maker, turn) {
    if (maker.task !== turn.task) return turn.turn === 0 ? \"spawn\" : \"wake\";
    if (maker.exit.is === \"call\" && turn.resume.is === \"start\") return \"call\";
    return maker.exit.is === \"return\" || maker.exit.is === \"fault\" ? \"return\" : \"goes\";
}

function drawLine(from, turn, link) {
    const level = 6 + (turn.task % 8) * (isFull() ? 3 : 2);
    const [x, y, top] = [startOf(turn), boxTop(turn), boxTop(from)];
    const out = endOf(from) - Math.min(12, PITCHES[zoom] / 6);
    const along = link === \"waits\" ? Math.min(30, PITCHES[zoom] / 3) : Math.min(15, PITCHES[zoom] / 5);
    const same = from.executor === turn.executor;
    const path = `M${out},${top}v${-level}` + (same ? `H${x + along}V${y}` : `H${x - gap() / 2}V${y + 9}H${x}`);
    const head = same ? `M${x + along - 4},${y - 7}h8l-4,7z` : `M${x - 6},${y + 5}v8l6,-4z`;
    const names = colour(turn.task);
    return [shape(\"path\", { class: `link-line ${link} ${names}`, d: path }), shape(\"path\", { class: `head ${names}`, d: head })];
}

// The lines to a turn that is shown, from those that are shown too.
function linesTo(turn, isSeen) {
    const { maker, before } = turn;
    const isShown = (other) => other && slotOf.has(other) && isSeen(other, turn);
    if (!isShown(maker)) return [];
    const waits = maker.task !== turn.task && isShown(before) ? drawLine(before, turn, \"waits\") : [];
    return [...waits, ...drawLine(maker, turn, linkOf(maker, turn))];
}

// What stands before the lanes.
function drawGutter(x, scroll) {
    const group = shape(\"g\", {}, shape(\"rect\", { class: \"gutter\", x, y: scroll, width: GUTTER - 8, height: 10000 }));
    report.journals.forEach((journal, executor) => {
        const y = executor * laneTall() + (isFull() ? 44 : 24);
        group.append(words(fitting(journal.executor, Math.floor((GUTTER - 20) / 7.9)), x + 10, y, \"name\"));
        const kind = journal.kind === \"pinned\" ? \"pinned \" + journal.pinned : journal.kind === \"priority\" ? \"by priority\" : journal.kind;
        const lines = isNamed() ? [counted(journal.turns, \"turn\")] : [];
        if (isFull()) lines.unshift(kind);
        if (isFull() && journal.folded) lines.push(journal.folded + \" not here\");
        lines.forEach((text, at) => group.append(words(text, x + 10, y + 15 + 13 * at, \"faint\")));
    });
    return group;
}

// The cells from one slot to another, with their lines and the lanes, for a window of the picture.
function drawPart(svg, first, last, x, y, wide, tall) {
    const kept = cells.slice(first, last + 1);
    const height = executors.length * laneTall();
    svg.setAttribute(\"viewBox\", `${x} ${y} ${wide} ${tall}`);
    const rails = executors.map((_, executor) => {
        const base = executor * laneTall();
        const middle = base + sizes().over + sizes().tall / 2;
        return shape(\"path\", { class: \"rail\", d: `M${x},${middle}h${wide}M${x},${base + laneTall()}h${wide}` });
    });
    const pitch = PITCHES[zoom];
    const cursor = cells[chosen] && shape(\"rect\", { class: \"cursor\", x: chosen * pitch - gap() / 2, y: 0, width: pitch, height });
    const lines = [];
    const isSeen = (from, to) => slotOf.get(to) >= first && slotOf.get(from) <= last;
    // Between boxes of a few pixels, lines are drawn to the turn that is chosen alone.
    const own = cells[chosen] ? [cells[chosen].turn] : [];
    const targets = pitch >= 28 ? turns.filter((turn) => slotOf.has(turn) && !cells[slotOf.get(turn)].run) : own;
    for (const turn of targets) lines.push(...linesTo(turn, isSeen));
    const drawCell = (cell, slot) => (cell.run ? drawFold(cell, slot, slot * pitch, sizes().over, sizes().tall) : drawTurn(cell.turn, slot));
    const boxes = kept.map((cell, at) => drawCell(cell, first + at));
    // Boxes that began before the window and reach into it.
    cells.slice(Math.max(0, first - 40), first).forEach((cell, at) => {
        if (!cell.run && endOf(cell.turn) > x + GUTTER) boxes.unshift(drawTurn(cell.turn, Math.max(0, first - 40) + at));
    });
    svg.replaceChildren(...rails, ...(cursor ? [cursor] : []), ...lines, ...boxes, drawGutter(x, y));
}

// Draws what the window shows.
function drawView() {
    const [wide, tall] = [view.clientWidth, Math.min(view.clientHeight, executors.length * laneTall())];
    picture.setAttribute(\"width\", wide);
    picture.setAttribute(\"height\", tall);
    const [x, pitch] = [view.scrollLeft - GUTTER, PITCHES[zoom]];
    const first = Math.max(0, Math.floor(view.scrollLeft / pitch));
    const last = Math.min(cells.length - 1, Math.ceil((x + wide) / pitch));
    drawPart(picture, first, last, x, view.scrollTop, wide, tall);
    drawWindow();
}

// Makes room for all cells at this zoom, and draws.
function layOut() {
    found(\"plane\").style.width = GUTTER + cells.length * PITCHES[zoom] + 8 + \"px\";
    found(\"plane\").style.height = executors.length * laneTall() + \"px\";
    drawOverview();
    drawView();
}

const overviewStep = () => Math.min(30, (overview.clientWidth || 1000) / Math.max(1, cells.length));
const rowTall = () => Math.max(4, Math.min(12, 84 / executors.length));

function drawOverview() {
    const [wide, row] = [overview.clientWidth || 1000, rowTall()];
    const height = Math.ceil(executors.length * row) + 8;
    overview.setAttribute(\"height\", height);
    overview.setAttribute(\"viewBox\", `0 0 ${wide} ${height}`);
    const step = overviewStep();
    const paths = new Map();
    cells.forEach(({ turn, run }, slot) => {
        const names = run ? \"tick fold\" : turn.undone ? \"tick bad\" : \"tick \" + colour(turn.task);
        const path = `M${(slot * step + step / 2).toFixed(1)},${(4 + turn.executor * row).toFixed(1)}v${(row - 1.5).toFixed(1)}`;
        paths.set(names, (paths.get(names) || \"\") + path);
    });
    const thick = (names) => Math.max(names === \"tick bad\" ? 2.5 : .6, step * .8);
    const strokes = [...paths].map(([names, d]) => shape(\"path\", { class: names, d, \"stroke-width\": thick(names) }));
    const window = shape(\"rect\", { class: \"window\", y: 1, height: height - 2, rx: 3 });
    overview.replaceChildren(...strokes, window, shape(\"path\", { class: \"here\" }));
}

// The part of the overview that the window shows, and the turn that is chosen.
function drawWindow() {
    const step = overviewStep();
    const window = overview.querySelector(\".window\");
    window.setAttribute(\"x\", (view.scrollLeft / PITCHES[zoom]) * step);
    window.setAttribute(\"width\", Math.max(4, Math.min(cells.length, (view.clientWidth - GUTTER) / PITCHES[zoom]) * step));
    overview.querySelector(\".here\").setAttribute(\"d\", `M${chosen * step + step / 2 - 5},0h10l-5,6z`);
}

// Scrolls so that the place of the overview under the pointer is in the middle of the window.
function moveWindow(event) {
    const box = overview.getBoundingClientRect();
    const slot = (event.clientX - box.left) / overviewStep();
    view.scrollLeft = slot * PITCHES[zoom] - (view.clientWidth - GUTTER) / 2;
}
";
