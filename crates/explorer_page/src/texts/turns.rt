//! The part turns of the script of a page. Written by tools/explorer_page.py from the files in page/.

/// Its text.
pub(crate) static TURNS: &str =
    "// What the turns of the chosen outcome did, beside those of another one.

// How a turn began and ended, in words.
function resumeWords(resume, turn) {
    if (resume === \"start\") return turn.endsWith(\".0\") ? \"begins\" : \"begins this method\";
    return resume === \"go\" ? \"goes on\" : `goes on with ${resume}`;
}

const EXITS = { yield: \"gives way to others\", wait: \"waits for a task\", next: \"waits for a task of its group\", close: \"waits for its group to end\" };

function exitWords(exit) {
    const [word] = exit.split(\" \");
    if (word === \"call\") return `calls ${exit.slice(5)}, and waits`;
    if (word === \"return\") return `returns ${exit.slice(7)}`;
    if (word === \"fault\") return `ends with ${exit}`;
    return EXITS[word] + (exit === word ? \"\" : `, with ${exit.slice(word.length + 1)}`);
}

const LEFT = \"would have left \";
const arrow = (text) => text.replace(/ -> /g, \" \\u2192 \").replace(/\\( /g, \"(\").replace(/ \\)/g, \")\");

// What a turn that was undone would have left, and why it was.
function lossText(losses) {
    const left = losses.filter((loss) => loss.startsWith(LEFT)).map((loss) => loss.slice(LEFT.length)).join(\", \");
    return [...(left ? [LEFT + left] : []), ...losses.filter((loss) => !loss.startsWith(LEFT))].map(arrow).join(\"; \");
}

// What a step of a schedule did.
function told(outcome, step) {
    const turn = outcome.turns && outcome.turns.get(step.name);
    const name = made(\"span\", { class: \"said\" }, outcome.names[step.task]);
    const parts = [cell(step, isUndone(outcome, step) ? \"undone\" : \"\"), name];
    if (!turn) return parts;
    if (!step.ends) return [...parts, made(\"span\", { class: \"said\" }, `in ${turn.method}: it is under way while others run`)];
    const cancelled = turn.cancelled ? \", cancelled\" : \"\";
    parts.push(made(\"span\", { class: \"said\" }, made(\"span\", { class: \"faint\" }, `in ${turn.method}${cancelled}: `), `${resumeWords(turn.resume, step.name)}, ${exitWords(turn.exit)}`));
    parts.push(...turn.changes.map((change) => made(\"span\", { class: \"change\" }, arrow(change))));
    if (turn.losses.length > 0) parts.push(made(\"span\", { class: \"loss\" }, isSwift ? \"ends the process: \" : \"undone: \", lossText(turn.losses)));
    return parts;
}

function place(number) {
    return made(\"th\", { class: \"place\", scope: \"row\" }, String(number + 1));
}

const parting = (...cells) => made(\"tr\", { class: \"parting\" }, made(\"th\", { class: \"place\" }, \"\"), ...cells);

// The end of an outcome: what is otherwise than in the other one, or all of it.
function endOf(outcome, other) {
    const both = (one) => [...one.endings, ...one.fields];
    const others = other ? new Map(both(other)) : new Map();
    return both(outcome).filter(([name, value]) => !other || others.get(name) !== value).map(([name, value]) => `${name} ${value}`).join(\", \");
}

function head(...names) {
    return made(\"thead\", {}, made(\"tr\", {}, made(\"th\", {}, \"\"), ...names.map((name) => made(\"th\", { scope: \"col\" }, name))));
}

function showOne(chosen) {
    at(\"parted\").textContent = \"\";
    const rows = chosen.steps.map((step, at_) => made(\"tr\", {}, place(at_), made(\"td\", { class: \"both\" }, ...told(chosen, step))));
    rows.push(parting(made(\"td\", {}, `It ends: ${endOf(chosen, null)}`)));
    at(\"turns\").replaceChildren(head(`outcome ${chosen.number}`), made(\"tbody\", {}, ...rows));
}

function showBoth(chosen, other) {
    const parts = common(chosen.steps, other.steps);
    const rows = parts === 0 ? [] : [parting(made(\"td\", { colspan: 2 }, \"In both\"))];
    rows.push(...chosen.steps.slice(0, parts).map((step, at_) => made(\"tr\", {}, place(at_), made(\"td\", { class: \"both\", colspan: 2 }, ...told(chosen, step)))));
    rows.push(parting(made(\"td\", { colspan: 2 }, parts === 0 ? \"They part at once\" : \"Here they part\")));
    for (let at_ = parts; at_ < Math.max(chosen.steps.length, other.steps.length); at_++) {
        const sides = [chosen, other].map((outcome) => made(\"td\", {}, ...(outcome.steps[at_] ? told(outcome, outcome.steps[at_]) : [])));
        rows.push(made(\"tr\", {}, place(at_), ...sides));
    }
    const ends = [[chosen, other], [other, chosen]].map(([one, two]) => made(\"td\", {}, `It ends otherwise: ${endOf(one, two)}`));
    rows.push(parting(...ends));
    at(\"turns\").replaceChildren(head(`outcome ${chosen.number}`, `outcome ${other.number}`), made(\"tbody\", {}, ...rows));
    const [one, two] = [chosen, other].map((outcome) => outcome.steps[parts]);
    const said = (outcome, step) => `in outcome ${outcome.number} ${step ? `${step.word} of ${outcome.names[step.task]} comes next` : \"nothing comes next\"}`;
    at(\"parted\").textContent = `${parts === 0 ? \"At once\" : `After ${counted(parts, \"step\")}`} they part: ${said(chosen, one)}, ${said(other, two)}.`;
}
";
