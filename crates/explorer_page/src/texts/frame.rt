//! The frame of a page. Written by tools/explorer_page.py from the files in page/.

/// What stands before the style.
pub(crate) static HEAD: &str = "<!doctype html>
<html lang=\"en\">
<head>
<meta charset=\"utf-8\">
<meta http-equiv=\"Content-Security-Policy\" content=\"default-src 'none'; style-src 'sha256-tNtsAbIgZ/g99N4szxYKXFee7ckWG4SN5tjiU4RBT8A='; script-src 'sha256-t6fqhqoACu8UyAIuVgvPXjDpYgy7wLv+nrS3TrjnUyA='\">
<meta name=\"viewport\" content=\"width=device-width, initial-scale=1\">
<title>Outcomes</title>
<style>";

/// What stands between the style and the answer.
pub(crate) static BODY: &str = "</style>
</head>
<body>
<header>
<h1 id=\"title\">Outcomes</h1>
<div id=\"tools\">
<button type=\"button\" id=\"theme\" title=\"Light or dark (d)\">Dark</button>
<button type=\"button\" id=\"help\" title=\"The keys of this page (?)\" aria-expanded=\"false\" aria-controls=\"keys\">Keys</button>
</div>
</header>
<table id=\"keys\" hidden><tbody>
<tr><th><kbd>&uarr;</kbd> <kbd>&darr;</kbd></th><td>the outcome before, the outcome after</td><th><kbd>d</kbd></th><td>light or dark</td></tr>
<tr><th><kbd>&larr;</kbd> <kbd>&rarr;</kbd></th><td>compare with another outcome</td><th><kbd>?</kbd></th><td>these keys</td></tr>
</tbody></table>
<p id=\"summary\"></p>
<ul id=\"asked\"></ul>
<p id=\"undone\"></p>
<div id=\"swift\"></div>
<section id=\"outcomes\">
<h2>How it can end</h2>
<p class=\"note\">Each line says how all tasks end, and what the fields hold then. Some order of turns leads to it. Choose one to see that order.</p>
<div class=\"wide\"><table id=\"table\"></table></div>
<p class=\"note\" id=\"constant\"></p>
</section>
<section id=\"orders\">
<h2>In which order the turns run</h2>
<p class=\"note\">A turn is what a task does from one wait to the next: <code>t1.0</code> is the first turn of task t1. Each line is the order that leads to an outcome, in the colours of the tasks; one that ends badly has a red name. Pale turns are the same as those of the chosen outcome; from the bar on the order is another one.</p>
<p id=\"tasks\"></p>
<div class=\"wide\" id=\"lines\"></div>
</section>
<section id=\"compare\">
<h2 id=\"compared\"></h2>
<p id=\"partner\"><label>Compare with <select id=\"other\"></select></label></p>
<p id=\"parted\"></p>
<div class=\"wide\"><table id=\"turns\"></table></div>
</section>
<section id=\"further\">
<h2>Further</h2>
<p class=\"note\">In a terminal, where the script is:</p>
<pre id=\"commands\"></pre>
<details><summary>The script</summary><pre id=\"source\"></pre></details>
</section>
<noscript><p>This page needs JavaScript, which stands in this file. Below stands what was found as JSON.</p></noscript>
<script type=\"application/json\" id=\"answer\">
";

/// What stands between the answer and what stands beside it.
pub(crate) static MIDDLE: &str = "</script>
<script type=\"application/json\" id=\"more\">
";

/// What stands between that and the script.
pub(crate) static BELOW: &str = "</script>
<script>";

/// What stands after the script.
pub(crate) static END: &str = "</script>
</body>
</html>
";
