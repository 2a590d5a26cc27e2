//! The part method of the script of a page. Written by tools/run_page.py from the files in page/.

/// Its text.
pub(crate) static METHOD: &str = "// The method of a turn, in the script's text.

const TOKENS = /\\/\\/[^\\n]*|[A-Za-z_]\\w*|\\d+|[<>=!]=|&&|\\|\\||\\S/g;
const tokens = [...more.source.matchAll(TOKENS)].map((each) => ({ word: each[0], from: each.index, to: each.index + each[0].length }))
    .filter((token) => !token.word.startsWith(\"//\"));

// The place of the brace that closes the block which opens at or after a token.
function closing(at) {
    let depth = 0;
    for (; at < tokens.length; at++) {
        if (tokens[at].word === \"{\") depth++;
        else if (tokens[at].word === \"}\" && --depth === 0) return at;
    }
    return tokens.length - 1;
}

// The first and the last token of a method, by its name with its actor's.
function methodTokens(name) {
    const [actor, method] = name.split(\".\");
    const find = (word, after, from) => tokens.findIndex((token, at) => at >= from && token.word === word && tokens[at + 1].word === after);
    const start = find(\"func\", method, find(\"actor\", actor, 0));
    return start < 0 ? null : [start, closing(start)];
}

// Where a statement of the method stands, if it stands there once: from its first byte to its last.
function placeOf(said, [first, last]) {
    const bare = (word) => word !== \"(\" && word !== \")\";
    const wanted = (said.replace(/^the test /, \"\").match(TOKENS) || []).filter(bare);
    const own = tokens.slice(first, last + 1).filter((token) => bare(token.word));
    const places = own.map((_, at) => at).filter((at) => wanted.every((word, k) => at + k < own.length && own[at + k].word === word));
    if (wanted.length === 0 || places.length !== 1) return null;
    return [own[places[0]].from, own[places[0] + wanted.length - 1].to];
}

// What is marked there: how `why` says it, the mark's class, and what it means.
const MARKED = [[\"began at\", \"began\", \"the turn began here\"], [\"goes on at\", \"goes-on\", \"its frame goes on here\"]];

// The pieces of a method's text: each line's number, and its text, where a turn began and where it goes on marked.
function methodPieces(turn) {
    const range = methodTokens(turn.method);
    if (!range) return [make(\"span\", {}, \"The method was not found in the script's text.\")];
    const said = why.get(turn.name) || \"\";
    const marks = MARKED.map(([words, name, title]) => {
        const text = new RegExp(`^    ${words} (.*)$`, \"m\").exec(said);
        const place = text && placeOf(text[1], range);
        return place && { name, title, from: place[0], to: place[1] };
    }).filter((mark) => mark);
    const start = more.source.lastIndexOf(\"\\n\", tokens[range[0]].from) + 1;
    const end = tokens[range[1]].to;
    let number = more.source.slice(0, start).split(\"\\n\").length;
    const pieces = [];
    for (let from = start; from < end;) {
        const feed = more.source.indexOf(\"\\n\", from);
        const to = feed < 0 || feed > end ? end : feed;
        pieces.push(make(\"span\", { class: \"number\" }, String(number++).padStart(4) + \"  \"), ...marked(from, to, marks), \"\\n\");
        from = to + 1;
    }
    return [...pieces, ...marks.map(({ name, title }) => make(\"span\", { class: \"note\" }, make(\"mark\", { class: name }, title), \"  \"))];
}

// A part of a line, with marks in it.
function marked(from, to, marks) {
    const pieces = [];
    for (const { name, title, from: first, to: last } of [...marks].sort((one, two) => one.from - two.from)) {
        if (first < from || first >= to) continue;
        pieces.push(more.source.slice(from, first), make(\"mark\", { class: name, title }, more.source.slice(first, Math.min(last, to))));
        from = Math.min(last, to);
    }
    return [...pieces, more.source.slice(from, to)];
}
";
