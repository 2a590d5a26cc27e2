//! The part reader of the script of a page. Written by tools/run_page.py from the files in page/.

/// Its text.
pub(crate) static READER: &str = "// What the reader does, and how the page begins.

// Zooms, and keeps the turn that is chosen in the window.
function zoomTo(level) {
    zoom = Math.max(0, Math.min(PITCHES.length - 1, level));
    layOut();
    view.scrollLeft = chosen * PITCHES[zoom] - (view.clientWidth - GUTTER - PITCHES[zoom]) / 2;
    drawView();
}

// The largest zoom at which all cells are in the window; the smallest zoom where there is none.
const zoomOfAll = () => Math.max(0, PITCHES.findLastIndex((pitch) => pitch * cells.length <= view.clientWidth - GUTTER));
const zoomToAll = () => zoomTo(zoomOfAll());

function setTheme(name) {
    document.documentElement.dataset.theme = name;
    found(\"theme\").textContent = name === \"dark\" ? \"Light\" : \"Dark\";
}

function showKeys(isShown) {
    found(\"keys\").hidden = !isShown;
    found(\"help\").setAttribute(\"aria-expanded\", isShown);
}

function refold() {
    opened.clear();
    relay();
}

// The turn of the same task, so many turns on.
function stepTask(by) {
    const turn = cells[chosen] && cells[chosen].turn;
    if (turn) chooseTurn(taskTurns[turn.task][taskTurns[turn.task].indexOf(turn) + by]);
}

const KEYS = {
    ArrowLeft: () => choose(chosen - 1), ArrowRight: () => choose(chosen + 1), ArrowUp: () => stepTask(-1), ArrowDown: () => stepTask(1),
    Home: () => choose(0), End: () => choose(cells.length - 1),
    \"+\": () => zoomTo(zoom + 1), \"=\": () => zoomTo(zoom + 1), \"-\": () => zoomTo(zoom - 1), 0: zoomToAll,
    f: () => { found(\"fold\").checked = !found(\"fold\").checked; refold(); },
    d: () => setTheme(document.documentElement.dataset.theme === \"dark\" ? \"light\" : \"dark\"),
    \"?\": () => showKeys(found(\"keys\").hidden), Escape: () => showKeys(false),
};

function listen() {
    document.addEventListener(\"keydown\", (event) => {
        if (event.ctrlKey || event.metaKey || event.altKey || event.target.type === \"search\" || !Object.hasOwn(KEYS, event.key)) return;
        event.preventDefault();
        KEYS[event.key]();
    });
    const buttons = { back: \"ArrowLeft\", forward: \"ArrowRight\", smaller: \"-\", larger: \"+\", fit: \"0\", theme: \"d\", help: \"?\" };
    for (const [id, key] of Object.entries(buttons)) found(id).addEventListener(\"click\", KEYS[key]);
    found(\"fold\").addEventListener(\"change\", refold);
    picture.addEventListener(\"click\", (event) => {
        const group = event.target.closest(\"[data-slot]\");
        if (group) choose(Number(group.dataset.slot));
    });
    view.addEventListener(\"scroll\", drawView);
    view.addEventListener(\"wheel\", (event) => {
        if (!event.ctrlKey) return;
        event.preventDefault();
        zoomTo(zoom + (event.deltaY < 0 ? 1 : -1));
    }, { passive: false });
    overview.addEventListener(\"pointerdown\", (event) => { overview.setPointerCapture(event.pointerId); moveWindow(event); });
    overview.addEventListener(\"pointermove\", (event) => { if (event.buttons) moveWindow(event); });
    window.addEventListener(\"resize\", layOut);
    window.addEventListener(\"hashchange\", () => chooseTurn(byName.get(location.hash.slice(1))));
    listenToTasks();
    window.addEventListener(\"beforeprint\", () => { setTheme(\"light\"); drawPages(); });
}

function listenToTasks() {
    found(\"find\").addEventListener(\"input\", showTasks);
    found(\"all\").addEventListener(\"click\", () => filter(() => true));
    found(\"none\").addEventListener(\"click\", () => filter(() => false));
    found(\"list\").addEventListener(\"change\", (event) => {
        const number = Number(event.target.dataset.task);
        event.target.checked ? hidden.delete(number) : hidden.add(number);
        filter((other) => !hidden.has(other));
    });
    found(\"list\").addEventListener(\"click\", (event) => {
        const { first, only } = event.target.dataset;
        if (first !== undefined) chooseTurn(taskTurns[first][0]);
        if (only === undefined) return;
        report.tasks.forEach((_, number) => hidden.add(number));
        filter((number) => number === Number(only));
    });
}

// The picture on paper: rows of six cells.
function drawPages() {
    const [kept, rows] = [zoom, []];
    zoom = PITCHES.length - 1;
    const [pitch, height] = [PITCHES[zoom], executors.length * laneTall()];
    for (let first = 0; first < cells.length && rows.length < 60; first += 6) {
        const svg = shape(\"svg\", {});
        drawPart(svg, first, Math.min(first + 5, cells.length - 1), first * pitch - GUTTER, 0, GUTTER + 6 * pitch, height);
        rows.push(svg);
    }
    if (cells.length > 360) rows.push(make(\"p\", {}, `${cells.length - 360} turns more are not printed.`));
    zoom = kept;
    found(\"pages\").replaceChildren(...rows);
}

setTheme(window.matchMedia(\"(prefers-color-scheme: dark)\").matches ? \"dark\" : \"light\");
showSummary();
showLegend();
showTasks();
listen();
relay();
// A short run is shown whole, if its boxes can have texts in them.
if (isFull(zoomOfAll())) zoomToAll();
// What a reader looks for first: the turn of the address, one that was undone, one that ended with a fault, or the first.
const failed = turns.find((turn) => turn.undone) || turns.find((turn) => turn.exit.is === \"fault\");
chooseTurn(byName.get(location.hash.slice(1)) || failed || turns[0]);
";
