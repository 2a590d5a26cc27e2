//! The part found of the script of a page. Written by tools/explorer_page.py from the files in page/.

/// Its text.
pub(crate) static FOUND: &str = "\"use strict\";
// What a search has found, as the two pieces of JSON that stand in the page have it. These files are one script, in the order of page.html;
// the last one starts the page. Texts are set as text, never as markup. It loads nothing.

const at = (id) => document.getElementById(id);
// Numbers of 16 digits and more stay texts: as floats they would lose digits. What stands in a string is none of them.
const WORD = /\"(?:[^\"\\\\]|\\\\.)*\"|-?\\d{16,}/g;
const parsed = (id) => JSON.parse(at(id).textContent.replace(WORD, (word) => (word[0] === '\"' ? word : `\"${word}\"`)));
const answer = parsed(\"answer\");
const more = parsed(\"more\");
// Of a Swift file the answer says what each outcome is in Swift: one, the end of the process before it, or a task that may spin.
const isSwift = \"swift\" in answer;
const counted = (many, one, others = one + \"s\") => `${many} ${many === 1 ? one : others}`;
const ending = (of) => (of.is === \"value\" ? \"value \" + of.value : \"fault \" + of.fault + (\"value\" in of ? \" \" + of.value : \"\"));

// The steps of a schedule, as `explore` prints them: a turn that ends right after it began is one step. The roots are added first.
function stepsOf(schedule) {
    const steps = [];
    schedule.forEach(({ is, task, turn }, place) => {
        const name = `t${task}.${turn}`;
        const last = steps[steps.length - 1];
        const before = schedule[place - 1];
        if (is === \"begin\") steps.push({ task, name, word: name + \"..\", ends: false });
        else if (is === \"run\" && before.is === \"begin\" && before.task === task) Object.assign(last, { word: name, ends: true });
        else if (is === \"run\") steps.push({ task, name, word: \"..\" + name, ends: true });
    });
    return steps;
}

// What tasks are called: a root by its name, another by its maker's and its place among those that this made.
function namesOf(tasks) {
    const [names, made] = [[], new Map()];
    for (const { from, root, by } of tasks) {
        const place = (made.get(by) || 0) + 1;
        if (from !== \"root\") made.set(by, place);
        names.push(from === \"root\" ? root : `${names[by]}/${place}`);
    }
    return names;
}

// What each turn of a run did, by its name, from the text of `run --values`.
function turnsOf(text) {
    const turns = new Map();
    let executor = \"\";
    let turn = null;
    for (const line of text.split(\"\\ntasks\\n\")[0].split(\"\\n\")) {
        const record = /^\\d+ (t\\d+\\.\\d+) w\\d+ (\\S+) p(\\d+) c([01]) (.*) -> (.*)$/.exec(line);
        if (line.startsWith(\"executor \")) executor = line.split(\" \")[1];
        else if (record) {
            const [, name, method, , cancelled, resume, exit] = record;
            turns.set(name, turn = { executor, method, cancelled: cancelled === \"1\", resume, exit, changes: [], losses: [] });
        } else if (/^    t\\d+ is /.test(line)) continue;
        else if (line.startsWith(\"    would have left \") || line.startsWith(\"    invariant \")) turn.losses.push(line.slice(4));
        else if (line.startsWith(\"    \")) turn.changes.push(line.slice(4));
    }
    return turns;
}

// The fields at the end, by their names.
function fieldsOf(fields) {
    const rows = Object.entries(fields);
    return new Map(rows.flatMap(([actor, row]) => Object.entries(row).map(([field, value]) => [`${actor}.${field}`, String(value)])));
}

const outcomes = answer.outcomes.map((one, place) => {
    const names = namesOf(one.end.tasks);
    const turns = place < more.runs.length ? turnsOf(more.runs[place]) : null;
    return {
        place, number: one.outcome, steps: stepsOf(one.schedule), names, turns, fields: fieldsOf(one.end.fields),
        endings: new Map(one.end.tasks.map((task, number) => [names[number], ending(task.ending)])),
        undone: turns ? [...turns].filter(([, turn]) => turn.losses.length > 0).map(([name]) => name) : [],
        verdicts: answer.expectations.map((asked) => asked.verdicts[place]), inSwift: isSwift ? answer.swift[place] : \"outcome\",
    };
});
// The outcomes that are asked for what is expected: of a Swift file not those that Swift does not have.
const askedOutcomes = outcomes.filter(({ inSwift }) => inSwift === \"outcome\");
const roots = outcomes.length > 0 ? answer.outcomes[0].end.tasks.filter((task) => task.from === \"root\").map((task) => task.root) : [];
const undoneSteps = answer.undone === null ? null : stepsOf(answer.undone);

// How many steps two schedules have in common at the front.
function common(one, other) {
    let place = 0;
    while (place < one.length && place < other.length && one[place].word === other[place].word) place++;
    return place;
}
";
