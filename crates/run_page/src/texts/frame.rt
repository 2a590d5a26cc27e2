//! The frame of a page. Written by tools/run_page.py from the files in page/.

/// What stands before the style.
pub(crate) static HEAD: &str = "<!doctype html>
<html lang=\"en\">
<head>
<meta charset=\"utf-8\">
<meta http-equiv=\"Content-Security-Policy\" content=\"default-src 'none'; style-src 'sha256-mX15foqPw8YrC7doUENecf+ph1/yl7Y1DHPWCxh0uIw='; script-src 'sha256-zy8HAMxijh/HhnzCwfjm8aFaO89iMX/MGz+lFUgCtvk='\">
<meta name=\"viewport\" content=\"width=device-width, initial-scale=1\">
<title>A run</title>
<style>";

/// What stands between the style and the report.
pub(crate) static BODY: &str = "</style>
</head>
<body>
<header>
<h1 id=\"title\">A run</h1>
<div id=\"tools\">
<span class=\"group\">
<button type=\"button\" id=\"back\" title=\"The turn before (left arrow)\">&#9664; Back</button>
<output id=\"step\"></output>
<button type=\"button\" id=\"forward\" title=\"The turn after (right arrow)\">Forward &#9654;</button>
</span>
<span class=\"group\">
<button type=\"button\" id=\"smaller\" title=\"Zoom out (-)\" aria-label=\"Zoom out\">&#8722;</button>
<button type=\"button\" id=\"fit\" title=\"All turns in the window (0)\">Fit</button>
<button type=\"button\" id=\"larger\" title=\"Zoom in (+)\" aria-label=\"Zoom in\">+</button>
</span>
<label id=\"folding\" title=\"Turns that did nothing but give way to others (f)\"><input type=\"checkbox\" id=\"fold\" checked> fold turns that only give way</label>
<button type=\"button\" id=\"theme\" title=\"Light or dark (d)\">Dark</button>
<button type=\"button\" id=\"help\" title=\"The keys of this page (?)\" aria-expanded=\"false\" aria-controls=\"keys\">Keys</button>
</div>
</header>
<p id=\"summary\"></p>
<table id=\"keys\" hidden><tbody>
<tr><th><kbd>&larr;</kbd> <kbd>&rarr;</kbd></th><td>the turn before, the turn after</td><th><kbd>+</kbd> <kbd>-</kbd> <kbd>0</kbd></th><td>zoom in, zoom out, all turns</td></tr>
<tr><th><kbd>&uarr;</kbd> <kbd>&darr;</kbd></th><td>the turn before and after of the same task</td><th><kbd>f</kbd></th><td>fold turns that only give way, or show them all</td></tr>
<tr><th><kbd>Home</kbd> <kbd>End</kbd></th><td>the first turn, the last turn</td><th><kbd>d</kbd> <kbd>?</kbd></th><td>light or dark; these keys</td></tr>
</tbody></table>
<section id=\"lanes\" aria-label=\"The turns of the run\">
<svg id=\"overview\" aria-hidden=\"true\"></svg>
<div id=\"view\" tabindex=\"0\" role=\"application\" aria-label=\"Turns, from left to right in the order in which they began. The arrow keys step from turn to turn.\"><div id=\"plane\"><svg id=\"picture\" role=\"img\" aria-label=\"A lane for each executor, and in it a box for each turn\"></svg></div></div>
<div id=\"pages\"></div>
<div id=\"legend\">
<p>A lane is an executor, which runs one turn at a time. A box is a turn: what a task does from one wait to the next. It has the colour of its task; from left to right they stand in the order in which they began. A turn that is crossed out was undone.</p>
<p>In a box: <code>t1.0</code>, the first turn of task t1, and its name; <code>p2</code>, its priority (<code>&#9650;</code> where it was raised), and <code>c1</code> where it was cancelled; its method; how it began <code>&rarr;</code> how it ended. Below it: what it changed.</p>
<p id=\"links\"><span>Lines lead to a turn from what it comes after:</span></p>
</div>
</section>
<main>
<section id=\"turn\" aria-labelledby=\"turn-name\">
<h2 id=\"turn-name\" aria-live=\"polite\">No turn is chosen</h2>
<p id=\"said\"></p>
<h3>What the method says</h3>
<pre id=\"method\"></pre>
<h3>What <code>nuchapay why</code> says</h3>
<pre id=\"why\"></pre>
</section>
<section id=\"fields\">
<h2>Fields</h2>
<table><thead><tr><th scope=\"col\">Field</th><th scope=\"col\">before</th><th scope=\"col\">after</th></tr></thead><tbody id=\"values\"></tbody></table>
</section>
<section id=\"tasks\">
<h2>Tasks</h2>
<div class=\"group\">
<input type=\"search\" id=\"find\" placeholder=\"Find a task\" aria-label=\"Find a task\">
<button type=\"button\" id=\"all\" title=\"Show the turns of all tasks of this list\">All</button>
<button type=\"button\" id=\"none\" title=\"Hide the turns of all tasks of this list\">None</button>
</div>
<ul id=\"list\"></ul>
</section>
</main>
<noscript><p>This page needs JavaScript, which stands in this file. Below stands the run as JSON.</p></noscript>
<script type=\"application/json\" id=\"report\">
";

/// What stands between the report and what stands beside it.
pub(crate) static MIDDLE: &str = "</script>
<script type=\"application/json\" id=\"more\">
";

/// What stands between that and the script.
pub(crate) static BELOW: &str = "</script>
<script>";

/// What stands after the script.
pub(crate) static END: &str = "</script>
</body>
</html>
";
