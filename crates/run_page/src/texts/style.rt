//! The style of a page. Written by tools/run_page.py from the files in page/.

/// Its text.
pub(crate) static STYLE: &str = ":root {
    --back: #ffffff; --ink: #1b1b1b; --faint: #5c5f63; --rule: #d9dbdd; --panel: #f5f6f7; --accent: #0b57d0; --bad: #b3261e; --good: #1d6b4f; --mark: #fff1b8;
    font: 14px/1.45 system-ui, \"Segoe UI\", Roboto, \"DejaVu Sans\", sans-serif; color-scheme: light;
}
:root[data-theme=dark] {
    --back: #16181b; --ink: #e9e7e3; --faint: #a3a7ad; --rule: #373b41; --panel: #1f2226; --accent: #8ab4f8; --bad: #ff8f85; --good: #7fd1a8; --mark: #544a17;
    color-scheme: dark;
}
* { box-sizing: border-box; }
body { margin: 0; padding: 10px 16px 16px; background: var(--back); color: var(--ink); }
[hidden] { display: none !important; }
header { display: flex; flex-wrap: wrap; align-items: center; gap: 6px 20px; }
h1 { font-size: 19px; margin: 0; flex: 1 1 auto; }
h2 { font-size: 15px; margin: 0 0 6px; }
h3 { font-size: 12px; margin: 10px 0 4px; color: var(--faint); font-weight: 600; }
p { margin: 4px 0 8px; }
#tools, .group { display: flex; flex-wrap: wrap; align-items: center; gap: 4px 6px; }
#tools { gap: 6px 16px; }
#step { min-width: 116px; text-align: center; font-variant-numeric: tabular-nums; }
button, input[type=search] { font: inherit; font-size: 13px; padding: 2px 9px; border: 1px solid var(--rule); border-radius: 6px; background: var(--panel); color: var(--ink); }
button { cursor: pointer; }
button:hover { border-color: var(--accent); }
button:disabled { opacity: .45; cursor: default; }
button.link { border: 0; background: none; padding: 0; color: var(--accent); text-decoration: underline; font-size: inherit; }
:focus-visible { outline: 2px solid var(--accent); outline-offset: 1px; }
label { font-size: 13px; }
kbd { font: 12px/1 monospace; padding: 1px 5px; border: 1px solid var(--rule); border-radius: 4px; background: var(--panel); }
#keys { font-size: 13px; margin: 2px 0 8px; }
#keys th { text-align: left; font-weight: normal; padding-right: 8px; }
#keys td { padding-right: 28px; color: var(--faint); }
#lanes { border: 1px solid var(--rule); border-radius: 8px; overflow: hidden; }
#overview { box-sizing: content-box; display: block; width: 100%; background: var(--panel); border-bottom: 1px solid var(--rule); cursor: pointer; touch-action: none; }
#view { position: relative; overflow: auto; max-height: max(220px, 52vh); }
#plane { min-width: 100%; }
#picture { position: sticky; left: 0; top: 0; display: block; }
#legend { padding: 5px 10px; font-size: 12px; color: var(--faint); border-top: 1px solid var(--rule); }
#legend p { margin: 0 0 2px; }
#links { display: flex; flex-wrap: wrap; gap: 0 18px; }
code { font: 11px/1 \"DejaVu Sans Mono\", Menlo, Consolas, monospace; }
h3 code { font-size: 12px; }
#legend svg { vertical-align: middle; margin-right: 5px; }
svg text { font: 11px/1 \"DejaVu Sans Mono\", Menlo, Consolas, monospace; fill: var(--ink); white-space: pre; }
svg .faint { fill: var(--faint); }
svg .bold { font-weight: bold; }
svg .bad { fill: var(--bad); }
svg .end { text-anchor: end; }
svg .middle { text-anchor: middle; }
svg .tiny { font-size: 9px; }
svg .name { font-size: 13px; font-weight: bold; }
.rail { stroke: var(--rule); fill: none; }
.gutter { fill: var(--back); }
.c0 { --task: #3b6ea5; } .c1 { --task: #b8651b; } .c2 { --task: #3f7f3a; } .c3 { --task: #7a4fa3; } .c4 { --task: #1f8a8a; } .c5 { --task: #8a5a2b; }
.c6 { --task: #b0478f; } .c7 { --task: #7d7a1a; } .c8 { --task: #52606d; } .c9 { --task: #4b4fc4; } .c10 { --task: #1d6b4f; } .c11 { --task: #a8870a; }
.task { --line: var(--task); --fill: color-mix(in srgb, var(--task) 13%, var(--back)); }
[data-theme=dark] .task { --line: color-mix(in srgb, var(--task) 62%, #ffffff); --fill: color-mix(in srgb, var(--task) 34%, var(--back)); }
.turn { cursor: pointer; }
.turn rect { stroke: var(--line); fill: var(--fill); stroke-width: 1.5; }
.small rect { fill: var(--line); stroke-width: .5; }
.turn:hover rect { stroke-width: 2.5; }
.undone rect { stroke: var(--bad); fill: var(--back); stroke-width: 2.2; }
.undone.small rect { fill: var(--bad); }
.cross { stroke: var(--bad); stroke-opacity: .35; stroke-width: 3; fill: none; }
.folded rect { stroke: var(--faint); stroke-dasharray: 4 3; fill: var(--panel); }
.turn.chosen rect { stroke: var(--ink); stroke-width: 3.2; }
.small.chosen rect { stroke-width: 1; }
.cursor { fill: var(--accent); opacity: .13; }
.link-line { fill: none; stroke: var(--line); stroke-width: 1.4; }
.spawn { stroke-width: 2.8; }
.return { stroke-dasharray: 7 3; }
.goes { stroke-dasharray: 3 3; }
.wake { stroke-dasharray: 10 3 2 3; }
.waits { stroke-width: 2; stroke-dasharray: 1.5 5; }
.head { fill: var(--line); }
.window { fill: var(--accent); fill-opacity: .1; stroke: var(--accent); stroke-width: 1.5; }
.tick { fill: none; stroke: var(--line); }
.tick.bad { stroke: var(--bad); }
.tick.fold { stroke: var(--rule); }
.here { fill: var(--ink); }
main { display: grid; grid-template-columns: minmax(0, 1fr) minmax(230px, 300px) minmax(230px, 300px); gap: 18px; margin-top: 12px; align-items: start; }
pre { font: 12px/1.5 \"DejaVu Sans Mono\", Menlo, Consolas, monospace; margin: 0; padding: 6px 10px; background: var(--panel); border-radius: 6px; white-space: pre-wrap; overflow-wrap: anywhere; }
#method { max-height: 300px; overflow: auto; }
#why { max-height: 420px; overflow: auto; }
#method .number { color: var(--faint); user-select: none; }
mark { background: var(--mark); color: inherit; border-radius: 3px; padding: 1px 2px; }
mark.goes-on { background: none; box-shadow: inset 0 -2px 0 var(--accent); }
.note { color: var(--faint); font-size: 12px; }
table { border-collapse: collapse; }
#fields table { width: 100%; }
#fields th, #fields td { text-align: left; padding: 2px 6px; border-bottom: 1px solid var(--rule); font-variant-numeric: tabular-nums; overflow-wrap: anywhere; vertical-align: top; }
#fields td + td { text-align: right; }
#fields th + th { text-align: right; }
#fields th { font-size: 12px; color: var(--faint); font-weight: 600; }
tr.changed td { font-weight: bold; background: color-mix(in srgb, var(--accent) 10%, var(--back)); }
tr.taken td { background: color-mix(in srgb, var(--bad) 10%, var(--back)); }
tr.taken s { color: var(--bad); }
#list { list-style: none; margin: 6px 0 0; padding: 0; max-height: 320px; overflow: auto; }
#list li { display: grid; grid-template-columns: auto auto 1fr auto; gap: 0 7px; align-items: center; padding: 2px 0; border-bottom: 1px solid var(--rule); font-size: 13px; }
#list .swatch { width: 12px; height: 12px; border-radius: 3px; border: 2px solid var(--line); background: var(--fill); }
#list button.link { justify-self: start; text-align: left; overflow-wrap: anywhere; }
#list .how { grid-column: 3 / 5; color: var(--faint); font-size: 12px; }
.bad-word { color: var(--bad); }
.good-word { color: var(--good); }
#list button.only { font-size: 11px; padding: 0 6px; }
#find { flex: 1 1 90px; min-width: 0; cursor: text; }
#pages { display: none; }
@media (max-width: 1000px) {
    main { grid-template-columns: minmax(0, 1fr) minmax(210px, 270px); grid-template-rows: auto 1fr; }
    #turn { grid-row: 1 / 3; }
    #list { max-height: 220px; }
    #folding { order: 5; }
}
@media (max-width: 620px) { main { grid-template-columns: minmax(0, 1fr); grid-template-rows: none; } #turn { grid-row: auto; } }
@media screen and (max-width: 620px) { #legend { max-height: 101px; overflow: auto; } #why { max-height: 220px; } }
@media print {
    @page { margin: 12mm; }
    body { padding: 0; }
    #tools, #keys, #overview, #view, #tasks .group, #list .only, #list input { display: none !important; }
    #pages { display: block; }
    #pages svg { display: block; width: 100%; break-inside: avoid; border-bottom: 1px solid var(--rule); }
    #method, #why, #list { max-height: none; overflow: visible; }
    main { display: block; }
    main section { break-inside: avoid; margin-top: 10px; }
    button.link { color: inherit; text-decoration: none; }
    * { print-color-adjust: exact; -webkit-print-color-adjust: exact; }
}
";
