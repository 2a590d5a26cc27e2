//! The style of a page. Written by tools/explorer_page.py from the files in page/.

/// Its text.
pub(crate) static STYLE: &str = ":root {
    --back: #ffffff; --ink: #1b1b1b; --faint: #5c5f63; --rule: #d9dbdd; --panel: #f5f6f7; --accent: #0b57d0; --bad: #b3261e; --good: #1d6b4f;
    font: 14px/1.45 system-ui, \"Segoe UI\", Roboto, \"DejaVu Sans\", sans-serif; color-scheme: light;
}
:root[data-theme=dark] {
    --back: #16181b; --ink: #e9e7e3; --faint: #a3a7ad; --rule: #373b41; --panel: #1f2226; --accent: #8ab4f8; --bad: #ff8f85; --good: #7fd1a8;
    color-scheme: dark;
}
* { box-sizing: border-box; }
body { margin: 0 auto; padding: 10px 16px 24px; max-width: 1600px; background: var(--back); color: var(--ink); }
[hidden] { display: none !important; }
header { display: flex; flex-wrap: wrap; align-items: center; gap: 6px 20px; }
h1 { font-size: 19px; margin: 0; flex: 1 1 auto; }
h2 { font-size: 15px; margin: 0 0 4px; }
p { margin: 4px 0 8px; }
section { margin-top: 18px; }
#tools { display: flex; gap: 6px; }
button, select { font: inherit; font-size: 13px; padding: 2px 9px; border: 1px solid var(--rule); border-radius: 6px; background: var(--panel); color: var(--ink); cursor: pointer; }
button:hover { border-color: var(--accent); }
button.link { border: 0; background: none; padding: 0; color: var(--accent); text-decoration: underline; font-size: inherit; }
:focus-visible { outline: 2px solid var(--accent); outline-offset: 1px; }
kbd { font: 12px/1 monospace; padding: 1px 5px; border: 1px solid var(--rule); border-radius: 4px; background: var(--panel); }
#keys { font-size: 13px; margin: 2px 0 8px; }
#keys th { text-align: left; font-weight: normal; padding-right: 8px; }
#keys td { padding-right: 28px; color: var(--faint); }
#summary { font-size: 15px; max-width: 110ch; }
#asked { list-style: none; margin: 4px 0; padding: 0; }
code, pre { font-family: \"DejaVu Sans Mono\", Menlo, Consolas, monospace; font-size: 12px; }
pre { line-height: 1.5; margin: 4px 0; padding: 6px 10px; background: var(--panel); border-radius: 6px; white-space: pre-wrap; overflow-wrap: anywhere; }
.note { color: var(--faint); font-size: 13px; max-width: 120ch; }
.bad { color: var(--bad); }
.good { color: var(--good); }
.faint { color: var(--faint); }
.wide { overflow: auto; max-height: 62vh; border: 1px solid var(--rule); border-radius: 8px; }
table { border-collapse: collapse; }
#table, #turns { width: 100%; font-variant-numeric: tabular-nums; }
#table th, #table td { padding: 3px 10px; text-align: left; border-bottom: 1px solid var(--rule); white-space: nowrap; }
#table thead th { position: sticky; top: 0; background: var(--panel); font-size: 12px; font-weight: 600; z-index: 1; }
#table thead .group { color: var(--faint); font-weight: normal; }
#table thead tr + tr th { top: 25px; }
#table tbody tr { cursor: pointer; }
#table tbody tr:hover { background: var(--panel); }
#table tbody tr.chosen { background: color-mix(in srgb, var(--accent) 14%, var(--back)); box-shadow: inset 4px 0 0 var(--accent); }
#table td.number { text-align: right; width: 60px; }
.part { border-left: 1px solid var(--rule); }
.c0 { --task: #3b6ea5; } .c1 { --task: #b8651b; } .c2 { --task: #3f7f3a; } .c3 { --task: #7a4fa3; } .c4 { --task: #1f8a8a; } .c5 { --task: #8a5a2b; }
.c6 { --task: #b0478f; } .c7 { --task: #7d7a1a; } .c8 { --task: #52606d; } .c9 { --task: #4b4fc4; } .c10 { --task: #1d6b4f; } .c11 { --task: #a8870a; }
.step { display: inline-block; font: 11px/1 \"DejaVu Sans Mono\", Menlo, Consolas, monospace; padding: 4px 5px; min-width: 46px; text-align: center; margin-right: 3px; border-radius: 4px;
    border: 1.5px solid var(--line); background: var(--fill); --line: var(--task); --fill: color-mix(in srgb, var(--task) 16%, var(--back)); }
[data-theme=dark] .step { --line: color-mix(in srgb, var(--task) 62%, #ffffff); --fill: color-mix(in srgb, var(--task) 36%, var(--back)); }
.step.same { opacity: .34; }
.step.undone { border-color: var(--bad); background: var(--back); color: var(--bad); text-decoration: line-through; }
.bar { display: inline-block; width: 3px; height: 20px; margin: 0 4px 0 1px; background: var(--ink); vertical-align: middle; border-radius: 1px; }
.line { display: flex; align-items: center; padding: 3px 8px; white-space: nowrap; border-bottom: 1px solid var(--rule); cursor: pointer; width: max-content; min-width: 100%; }
.line:hover { background: var(--panel); }
.line.chosen { background: color-mix(in srgb, var(--accent) 14%, var(--back)); box-shadow: inset 4px 0 0 var(--accent); }
.line .name { flex: 0 0 92px; position: sticky; left: 8px; background: inherit; }
.line .early { color: var(--faint); font-size: 12px; margin-right: 8px; }
#tasks .step { margin: 0 5px 3px 0; }
#tasks .legend { margin-right: 18px; white-space: nowrap; }
#turns th, #turns td { padding: 3px 10px; text-align: left; vertical-align: top; border-bottom: 1px solid var(--rule); }
#turns thead th { position: sticky; top: 0; background: var(--panel); font-size: 12px; z-index: 1; }
#turns td { width: 47%; text-indent: -56px; padding-left: 66px; }
#turns .parting td, #turns .step, #turns .change, #turns .loss { text-indent: 0; }
#turns .parting td { padding-left: 10px; }
#turns td.both { width: 94%; }
#turns th.place { font-weight: normal; color: var(--faint); text-align: right; width: 44px; }
#turns .parting td { background: var(--panel); font-weight: 600; font-size: 13px; }
#turns .change { display: block; font-weight: 600; }
#turns .loss { display: block; color: var(--bad); }
#turns .said { margin-left: 4px; }
#turns .step { vertical-align: 1px; }
@media print {
    @page { margin: 12mm; }
    body { padding: 0; max-width: none; }
    #tools, #keys, #partner, details { display: none !important; }
    .wide { max-height: none; overflow: visible; border: 0; }
    #table thead th, #turns thead th { position: static; }
    .line { flex-wrap: wrap; white-space: normal; width: auto; break-inside: avoid; }
    .line .name { position: static; }
    .step { margin-bottom: 2px; }
    tr { break-inside: avoid; }
    button.link { color: inherit; text-decoration: none; }
    * { print-color-adjust: exact; -webkit-print-color-adjust: exact; }
}
";
