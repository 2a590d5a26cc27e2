//! The part reader of the script of a page. Written by tools/explorer_page.py from the files in page/.

/// Its text.
pub(crate) static READER: &str = "// What the reader does. It starts the page.

let chosen = null;
let other = null;

function show() {
    [...at(\"table\").tBodies[0].rows].forEach((row, index) => row.classList.toggle(\"chosen\", index === chosen.place));
    showLines(chosen);
    at(\"compared\").textContent = `What happens in outcome ${chosen.number}${other ? `, and what in outcome ${other.number}` : \"\"}`;
    at(\"other\").replaceChildren(made(\"option\", { value: \"\" }, \"no other\"), ...outcomes.filter((one) => one !== chosen).map((one) => made(\"option\", { value: one.place }, `outcome ${one.number}`)));
    at(\"other\").value = other ? String(other.place) : \"\";
    if (other) showBoth(chosen, other);
    else showOne(chosen);
    const [number, turn] = [chosen.number, chosen.undone[0] || (chosen.steps.filter((step) => step.ends).pop() || { name: \"t0.0\" }).name];
    const words = [`nuchapay show --format html --outcome ${number} ${more.name} > run.html`, `nuchapay why --outcome ${number} ${more.name} ${turn}`];
    at(\"commands\").textContent = words.join(\"\\n\");
}

// Chooses an outcome. It is compared with the one that was compared before, or else with the nearest.
function choose(number) {
    if (!outcomes[number]) return;
    chosen = outcomes[number];
    if (other === chosen || (other === null && outcomes.length > 1)) other = nearest(chosen);
    show();
    if (at(\"table\").tBodies[0].rows[number].scrollIntoView) at(\"table\").tBodies[0].rows[number].scrollIntoView({ block: \"nearest\" });
}

// The outcome that parts last from this one; beside one that is bad, of those that are good, and beside a good one of the bad ones, if there are any.
function nearest(to) {
    const others = outcomes.filter((one) => one !== to);
    const unlike = others.filter((one) => isBad(one) !== isBad(to));
    const nearer = (best, one) => (best && common(best.steps, to.steps) >= common(one.steps, to.steps) ? best : one);
    return (unlike.length > 0 ? unlike : others).reduce(nearer, null);
}

function compare(step) {
    const others = outcomes.filter((one) => one !== chosen);
    if (others.length === 0) return;
    other = others[(others.indexOf(other) + step + others.length) % others.length];
    show();
}

function setTheme(dark) {
    document.documentElement.dataset.theme = dark ? \"dark\" : \"light\";
    at(\"theme\").textContent = dark ? \"Light\" : \"Dark\";
}

const isDark = () => document.documentElement.dataset.theme === \"dark\";
const toggleKeys = () => at(\"help\").setAttribute(\"aria-expanded\", String(!(at(\"keys\").hidden = !at(\"keys\").hidden)));
const KEYS = {
    ArrowUp: () => choose(chosen.place - 1), ArrowDown: () => choose(chosen.place + 1), ArrowLeft: () => compare(-1), ArrowRight: () => compare(1),
    d: () => setTheme(!isDark()), \"?\": toggleKeys,
};

document.addEventListener(\"keydown\", (event) => {
    if (event.ctrlKey || event.metaKey || event.altKey || event.target.tagName === \"SELECT\" || !(event.key in KEYS) || (chosen === null && event.key.startsWith(\"Arrow\"))) return;
    event.preventDefault();
    KEYS[event.key]();
});
at(\"theme\").addEventListener(\"click\", () => setTheme(!isDark()));
at(\"help\").addEventListener(\"click\", toggleKeys);
at(\"other\").addEventListener(\"change\", () => {
    other = at(\"other\").value === \"\" ? null : outcomes[Number(at(\"other\").value)];
    show();
});
setTheme(window.matchMedia && matchMedia(\"(prefers-color-scheme: dark)\").matches);
showSummary();
showAsked();
if (outcomes.length > 0) showTable();
showTasks();
at(\"source\").textContent = more.source;
if (outcomes.length === 0) {
    for (const id of [\"outcomes\", \"orders\", \"compare\"]) at(id).hidden = true;
    at(\"commands\").textContent = `nuchapay explore --limit ${answer.states * 10} ${more.name}`;
}
else {
    // What fails, or is undone, is what one wants to see.
    const failing = askedOutcomes.find((one) => one.verdicts.some((verdict) => verdict !== \"holds\"))
        || outcomes.find((one) => one.undone.length > 0 || one.inSwift === \"ends\") || outcomes.find((one) => one.inSwift !== \"outcome\");
    choose((failing || outcomes[0]).place);
}
";
