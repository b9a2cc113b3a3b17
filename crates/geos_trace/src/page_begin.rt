//! The page around a run. Made by tools/page.py from page/.

/// What precedes the run.
pub(crate) const BEFORE_RUN: &str = "<!DOCTYPE html>
<html lang=\"en\">
<head>
<meta charset=\"utf-8\">
<meta name=\"viewport\" content=\"width=device-width, initial-scale=1\">
<meta http-equiv=\"Content-Security-Policy\" content=\"default-src 'none'; style-src 'unsafe-inline'; script-src 'unsafe-inline'\">
<meta name=\"color-scheme\" content=\"light dark\">
<title>A run</title>
<style>
:root {
  --ink: #1b2130; --soft: #5c6473; --faint: #7d8595; --line: #d7dce5; --paper: #f6f7fa; --card: #fff; --wash: #eef1f6;
  --blue: #1f55c4; --blue-wash: #e4ecfc; --good: #11743f; --good-wash: #def3e7; --bad: #b92828; --bad-wash: #fde7e7;
  --warm: #8f5600; --warm-wash: #fff1cf; --vm: #6f45bd; --vm-wash: #efe7fc; --chunk: 90%; --chunk-line: 42%;
  --mono: ui-monospace, \"SF Mono\", \"DejaVu Sans Mono\", Menlo, Consolas, monospace;
}
@media (prefers-color-scheme: dark) {
  :root {
    --ink: #e6e9f0; --soft: #a3abbb; --faint: #8a93a4; --line: #343b4a; --paper: #12151c; --card: #1a1f2a; --wash: #232a37;
    --blue: #7fa8ff; --blue-wash: #1d2f57; --good: #5fd396; --good-wash: #143524; --bad: #ff8a8a; --bad-wash: #46201f;
    --warm: #f0bd5b; --warm-wash: #463512; --vm: #c0a0ff; --vm-wash: #33264f; --chunk: 24%; --chunk-line: 62%;
  }
}
* { box-sizing: border-box; }
body { margin: 0 auto; max-width: 1500px; padding: 0 18px 18px; color: var(--ink); background: var(--paper); font: 14px/1.45 system-ui, \"DejaVu Sans\", sans-serif; }
header { display: flex; flex-wrap: wrap; align-items: baseline; gap: 4px 16px; padding: 14px 0 8px; }
h1 { font: 600 20px/1.3 var(--mono); margin: 0; overflow-wrap: anywhere; }
h2 { font-size: 12px; margin: 16px 0 6px; text-transform: uppercase; letter-spacing: .08em; color: var(--soft); }
h2 small { text-transform: none; letter-spacing: 0; font-weight: 400; }
p { margin: 0; }
a { color: var(--blue); }
#about, footer { color: var(--soft); overflow-wrap: anywhere; }
footer { margin-top: 20px; font-size: 12.5px; }
:focus-visible { outline: 2px solid var(--blue); outline-offset: 2px; }
.comment { color: var(--faint); }
.tag { display: inline-block; font: 11.5px/1.6 var(--mono); padding: 0 8px; border-radius: 10px; background: var(--wash); color: var(--soft); margin: 0 5px 4px 0; }
.tag.held { background: var(--blue-wash); color: var(--blue); }
.tag.news { background: var(--warm-wash); color: var(--warm); }
.chunk { margin: 8px 0 0; border-left: 5px solid var(--hue); padding-left: 9px; }
.chunk h3 { margin: 0 0 2px; font: 600 12.5px/1.6 var(--mono); }
.chunk h3 small { font-weight: 400; color: var(--soft); font-size: 11.5px; margin-left: 6px; }
.bytes { font: 12.5px/19px var(--mono); border-collapse: collapse; }
.bytes th { font-weight: 400; color: var(--faint); text-align: right; padding: 0 10px 0 0; }
.bytes td { padding: 0 2.5px; white-space: pre; border-bottom: 2px solid transparent; }
.bytes .zero { color: var(--faint); }
.bytes .ascii { padding-left: 14px; color: var(--soft); letter-spacing: .12em; }
.bytes .changed { background: var(--warm-wash); color: var(--warm); font-weight: 700; }
.quiet { color: var(--soft); }
@media (max-width: 900px) { body { padding: 0 8px 12px; } }
@media (max-width: 480px) {
  h1 { font-size: 16px; }
  .bytes { font-size: 11.5px; }
  .bytes td { padding: 0 1px; }
  .bytes .ascii { padding-left: 6px; letter-spacing: 0; }
  .bytes th { padding-right: 5px; }
}
@media print {
  body { background: #fff; max-width: none; }
  * { print-color-adjust: exact; }
}
nav { position: sticky; top: 0; z-index: 5; display: grid; grid-template-columns: auto 1fr auto; gap: 4px 12px; align-items: center; padding: 8px 12px; background: var(--card); border: 1px solid var(--line); border-radius: 10px; box-shadow: 0 2px 10px #0001; }
#buttons { display: flex; gap: 4px; }
button { font: inherit; color: inherit; background: var(--card); border: 1px solid var(--line); border-radius: 7px; padding: 3px 10px; min-height: 30px; cursor: pointer; }
button:hover { background: var(--wash); }
button:disabled { opacity: .4; cursor: default; }
#play { background: var(--blue); border-color: var(--blue); color: var(--card); font-weight: 600; min-width: 84px; }
#slider { width: 100%; accent-color: var(--blue); }
#where { font: 12.5px var(--mono); color: var(--soft); white-space: nowrap; }
#done { grid-column: 1 / -1; font: 13.5px/1.5 var(--mono); min-height: 1.5em; overflow-wrap: anywhere; }
#done b { color: var(--blue); }
#done i { font-style: normal; color: var(--warm); }
#moments { list-style: none; margin: 8px 0 0; padding: 0; font-size: 13px; }
#moments li { padding: 1px 0; overflow-wrap: anywhere; }
#moments button { font: 12.5px var(--mono); color: var(--blue); padding: 0 8px; min-height: 24px; }
#cut { margin-top: 8px; padding: 6px 12px; border-left: 4px solid var(--warm); background: var(--warm-wash); border-radius: 0 6px 6px 0; }
main { display: grid; grid-template-columns: minmax(0, 9fr) minmax(0, 10fr); gap: 0 20px; align-items: start; }
#text { position: sticky; top: 92px; }
#lines { margin: 0; padding: 6px 0; list-style: none; background: var(--card); border: 1px solid var(--line); border-radius: 10px; font: 12.5px/20px var(--mono); overflow: auto; max-height: calc(100vh - 150px); }
#lines li { display: grid; grid-template-columns: 44px minmax(0, 10fr) minmax(0, 9fr); position: relative; min-height: 20px; }
#lines .n { color: var(--faint); text-align: right; padding-right: 10px; user-select: none; }
#lines .code { white-space: pre-wrap; overflow-wrap: anywhere; tab-size: 8; }
#lines .plain .code { grid-column: 2 / -1; }
#lines .comment { color: var(--faint); }
#lines .known { color: var(--soft); font-size: 11.5px; padding: 0 8px; overflow-wrap: anywhere; }
#lines .known .s { color: var(--blue); }
#lines .known .p { color: var(--good); }
#lines .can { cursor: pointer; }
#lines .can:hover { background: var(--wash); }
#lines .was { background: var(--warm-wash); }
#lines .now { background: var(--blue-wash); box-shadow: inset 3px 0 var(--blue); }
#lines .now .n { color: var(--blue); font-weight: 700; }
.set { display: grid; grid-template-columns: repeat(8, minmax(0, 1fr)); gap: 5px; margin-bottom: 5px; font: 12.5px/1.4 var(--mono); }
.set div { border: 1px solid var(--line); border-radius: 6px; padding: 2px 6px; background: var(--card); overflow-wrap: anywhere; }
.set .wide { grid-column: span 2; }
.set b { font-weight: 400; color: var(--faint); margin-right: 6px; }
.set small { display: block; color: var(--soft); font-size: 11px; }
.set .changed { background: var(--warm-wash); border-color: var(--warm); }
.set .held { background: var(--blue-wash); border-color: var(--blue); }
.set .vm { background: var(--vm-wash); border-color: var(--vm); }
.set .good { background: var(--good-wash); border-color: var(--good); }
.set .stale { background: var(--bad-wash); border: 1px dashed var(--bad); color: var(--bad); }
.set .stale s { text-decoration-thickness: 2px; }
.set .stale small { color: inherit; }
.set .empty { color: var(--faint); background: none; }
#region { background: var(--card); border: 1px solid var(--line); border-radius: 10px; padding: 4px; }
#region svg { display: block; width: 100%; height: auto; font-family: var(--mono); }
#key { display: flex; flex-wrap: wrap; gap: 0 14px; margin-top: 4px; color: var(--soft); font-size: 12px; }
#key span::before { content: \"\"; display: inline-block; width: 16px; height: 10px; margin-right: 6px; vertical-align: middle; border: 2px solid var(--blue); border-radius: 3px; }
#key .free-key::before { border: 1.2px dashed var(--blue); }
#key .file-key::before { height: 13px; border: 4px double var(--vm); }
#key .chunk-key::before { content: \"16\"; border: 1px solid hsl(180 50% var(--chunk-line)); background: hsl(180 65% var(--chunk)); width: 22px; height: 14px; font-size: 10px; line-height: 12px; text-align: center; border-radius: 2px; }
#key .ghost-key::before { border: 2px dotted var(--warm); }
#key .good-key::before, #key .stale-key::before { height: 0; border-width: 2px 0 0; border-color: var(--good); border-radius: 0; }
#key .stale-key::before { border-top-style: dashed; border-color: var(--bad); }
.move { transition: transform .45s ease, opacity .3s; }
.frame rect { fill: none; stroke: var(--blue); stroke-width: 2; }
.frame.vm rect { stroke: var(--vm); }
.frame .inner { display: none; stroke-width: 1; }
.frame.vm .inner { display: inline; }
.frame.free rect { stroke-width: 1.2; stroke-dasharray: 6 4; }
.frame.free text { font-weight: 400; }
.frame text { fill: var(--blue); font-weight: 600; font-size: 13px; }
.frame.vm text { fill: var(--vm); }
.frame.chosen rect { stroke-width: 3.5; }
.frame { cursor: pointer; }
.ghost { fill: none; stroke: var(--warm); stroke-width: 2; stroke-dasharray: 0.1 5; stroke-linecap: round; }
.path { fill: none; stroke: var(--warm); stroke-width: 1.6; }
.tip { fill: var(--warm); }
.axis { fill: var(--faint); font-size: 11px; }
.handle { fill: var(--ink); font-size: 11px; }
.axis-line { stroke: var(--line); }
.arrow { fill: none; stroke-width: 2; }
.arrow.good, .label.good { stroke: var(--good); }
.arrow.stale { stroke: var(--bad); stroke-dasharray: 4 3; }
.label { font-size: 12px; font-weight: 600; stroke: none !important; }
.label.good { fill: var(--good); }
.label.stale { fill: var(--bad); text-decoration: line-through; }
#tabs { display: flex; flex-wrap: wrap; gap: 4px; }
#tabs button { font: 12.5px var(--mono); }
#tabs [aria-selected=\"true\"] { border-color: var(--blue); box-shadow: inset 0 -2px var(--blue); }
#tabs .free { opacity: .6; }
#block { background: var(--card); border: 1px solid var(--line); border-radius: 10px; padding: 8px 12px; margin-top: 6px; }
.bytes .at { border-bottom-color: var(--good); }
.bytes .touch { outline: 2px solid var(--warm); }
#output { font: 14px/1.6 var(--mono); overflow-wrap: anywhere; }
#output span { background: var(--wash); border-radius: 5px; padding: 1px 7px; margin-right: 5px; display: inline-block; margin-bottom: 4px; }
#output .changed { background: var(--warm-wash); color: var(--warm); font-weight: 700; }
@media (max-width: 900px) {
  main { display: block; }
  nav { grid-template-columns: 1fr auto; padding: 6px 8px; }
  #slider { grid-column: 1 / -1; grid-row: 2; }
  #text { position: static; }
  #lines { max-height: 40vh; }
  #lines li { grid-template-columns: 36px minmax(0, 1fr); }
  #lines .known { grid-column: 2; padding: 0; }
  .set { grid-template-columns: repeat(4, minmax(0, 1fr)); }
  button { padding: 3px 8px; }
  #play { min-width: 0; }
}
@media (prefers-reduced-motion: reduce) { .move { transition: none; } }
@media print {
  nav { position: static; box-shadow: none; }
  #buttons, #slider { display: none; }
  #lines { max-height: none; }
  #text { position: static; }
  #lines, #block, #region, .set div { break-inside: avoid; }
}
</style>
</head>
<body>
<header>
<h1 id=\"call\">A run</h1>
<p id=\"about\"></p>
</header>
<nav aria-label=\"Steps\">
<div id=\"buttons\">
<button id=\"first\" aria-label=\"To the start\" title=\"To the start (Home)\">|&#x25C0;&#xFE0E;</button>
<button id=\"back\" aria-label=\"One step back\" title=\"One step back (left arrow)\">&#x25C0;&#xFE0E;</button>
<button id=\"play\" aria-label=\"Play\" title=\"Play or pause (space)\">&#x25B6;&#xFE0E; play</button>
<button id=\"on\" aria-label=\"One step on\" title=\"One step on (right arrow)\">&#x25B6;&#xFE0E;</button>
<button id=\"last\" aria-label=\"To the end\" title=\"To the end (End)\">&#x25B6;&#xFE0E;|</button>
</div>
<input id=\"slider\" type=\"range\" min=\"0\" value=\"0\" step=\"1\" aria-label=\"Step\">
<output id=\"where\" for=\"slider\"></output>
<p id=\"done\" role=\"status\" aria-live=\"polite\"></p>
</nav>
<ol id=\"moments\" aria-label=\"Steps at which a block moves or a pointer becomes stale\" hidden></ol>
<p id=\"cut\" hidden></p>
<main>
<section id=\"text\" aria-labelledby=\"text-title\">
<h2 id=\"text-title\">Text</h2>
<ol id=\"lines\" aria-label=\"Lines with what the verifier knows; a click goes to the next step at the line\"></ol>
</section>
<section id=\"state\">
<section aria-labelledby=\"registers-title\">
<h2 id=\"registers-title\">Registers <small>words w, counters k, slots s with locked blocks, pointers p to bytes of a chunk</small></h2>
<div id=\"registers\"></div>
</section>
<section aria-labelledby=\"region-title\">
<h2 id=\"region-title\">Region <small>the memory of all blocks, by its bytes</small></h2>
<div id=\"region\"></div>
<p id=\"key\" aria-hidden=\"true\"><span class=\"block-key\">locked block</span><span class=\"free-key\">not locked: it was here last</span><span class=\"file-key\">block of the file</span><span class=\"chunk-key\">chunk with its handle</span><span class=\"ghost-key\">place before a move</span><span class=\"good-key\">pointer</span><span class=\"stale-key\">stale pointer</span></p>
</section>
<section aria-labelledby=\"blocks-title\">
<h2 id=\"blocks-title\">Blocks</h2>
<div id=\"tabs\" role=\"tablist\" aria-label=\"Blocks\"></div>
<div id=\"block\" role=\"tabpanel\" tabindex=\"0\" aria-live=\"off\"></div>
</section>
<section aria-labelledby=\"commits-title\" id=\"commits-section\" hidden>
<h2 id=\"commits-title\">VM file</h2>
<div id=\"commits\"></div>
</section>
<section aria-labelledby=\"output-title\">
<h2 id=\"output-title\">Output</h2>
<p id=\"output\"></p>
</section>
</section>
</main>
<footer>
<p>Registers, places and bytes are those of the machine that ran. Of a block that no slot names, the page does not know whether it has moved since.</p>
<p>Keys: left and right, Page Up and Page Down, Home and End; space plays; N and P go to the next and the previous step at the same line.</p>
</footer>
<script type=\"application/json\" id=\"run\">
";
