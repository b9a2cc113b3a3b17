//! The page around a text and its data. Made by tools/page.py from page/.

/// What precedes the text.
pub(crate) const BEFORE_EXPLAINED: &str = "<!DOCTYPE html>
<html lang=\"en\">
<head>
<meta charset=\"utf-8\">
<meta name=\"viewport\" content=\"width=device-width, initial-scale=1\">
<meta http-equiv=\"Content-Security-Policy\" content=\"default-src 'none'; style-src 'unsafe-inline'; script-src 'unsafe-inline'\">
<meta name=\"color-scheme\" content=\"light dark\">
<title>A text, explained</title>
<style>
:root {
  --ink: #1b2130; --soft: #5c6473; --faint: #7d8595; --line: #d7dce5; --paper: #f6f7fa; --card: #fff; --wash: #eef1f6;
  --blue: #1f55c4; --blue-wash: #e4ecfc; --good: #11743f; --good-wash: #def3e7; --bad: #b92828; --bad-wash: #fde7e7;
  --warm: #8f5600; --warm-wash: #fff1cf; --vm: #6f45bd; --vm-wash: #efe7fc; --chunk: 90%; --chunk-line: 42%;
  --mono: ui-monospace, \"SF Mono\", \"DejaVu Sans Mono\", Menlo, Consolas, monospace;
}
@media (prefers-color-scheme: dark) {
  :root {
    --ink: #e6e9f0; --soft: #a3abbb; --faint: #8a93a4; --line: #343b4a; --paper: #12151c; --card: #1a1f2a; --wash: #232a37;
    --blue: #7fa8ff; --blue-wash: #1d2f57; --good: #5fd396; --good-wash: #143524; --bad: #ff8a8a; --bad-wash: #46201f;
    --warm: #f0bd5b; --warm-wash: #463512; --vm: #c0a0ff; --vm-wash: #33264f; --chunk: 24%; --chunk-line: 62%;
  }
}
* { box-sizing: border-box; }
body { margin: 0 auto; max-width: 1500px; padding: 0 18px 18px; color: var(--ink); background: var(--paper); font: 14px/1.45 system-ui, \"DejaVu Sans\", sans-serif; }
header { display: flex; flex-wrap: wrap; align-items: baseline; gap: 4px 16px; padding: 14px 0 8px; }
h1 { font: 600 20px/1.3 var(--mono); margin: 0; overflow-wrap: anywhere; }
h2 { font-size: 12px; margin: 16px 0 6px; text-transform: uppercase; letter-spacing: .08em; color: var(--soft); }
h2 small { text-transform: none; letter-spacing: 0; font-weight: 400; }
p { margin: 0; }
a { color: var(--blue); }
#about, footer { color: var(--soft); overflow-wrap: anywhere; }
footer { margin-top: 20px; font-size: 12.5px; }
:focus-visible { outline: 2px solid var(--blue); outline-offset: 2px; }
.comment { color: var(--faint); }
.tag { display: inline-block; font: 11.5px/1.6 var(--mono); padding: 0 8px; border-radius: 10px; background: var(--wash); color: var(--soft); margin: 0 5px 4px 0; }
.tag.held { background: var(--blue-wash); color: var(--blue); }
.tag.news { background: var(--warm-wash); color: var(--warm); }
.chunk { margin: 8px 0 0; border-left: 5px solid var(--hue); padding-left: 9px; }
.chunk h3 { margin: 0 0 2px; font: 600 12.5px/1.6 var(--mono); }
.chunk h3 small { font-weight: 400; color: var(--soft); font-size: 11.5px; margin-left: 6px; }
.bytes { font: 12.5px/19px var(--mono); border-collapse: collapse; }
.bytes th { font-weight: 400; color: var(--faint); text-align: right; padding: 0 10px 0 0; }
.bytes td { padding: 0 2.5px; white-space: pre; border-bottom: 2px solid transparent; }
.bytes .zero { color: var(--faint); }
.bytes .ascii { padding-left: 14px; color: var(--soft); letter-spacing: .12em; }
.bytes .changed { background: var(--warm-wash); color: var(--warm); font-weight: 700; }
.quiet { color: var(--soft); }
@media (max-width: 900px) { body { padding: 0 8px 12px; } }
@media (max-width: 480px) {
  h1 { font-size: 16px; }
  .bytes { font-size: 11.5px; }
  .bytes td { padding: 0 1px; }
  .bytes .ascii { padding-left: 6px; letter-spacing: 0; }
  .bytes th { padding-right: 5px; }
}
@media print {
  body { background: #fff; max-width: none; }
  * { print-color-adjust: exact; }
}
.play-part { margin: 0 0 10px; }
.play-part button { font: inherit; color: var(--blue); background: var(--card); border: 1px solid var(--line); border-radius: 8px; padding: 3px 12px; cursor: pointer; }
.play-part button:hover { background: var(--wash); }
.play { margin-top: 8px; padding: 10px 14px; background: var(--card); border: 1px solid var(--line); border-radius: 10px; overflow: hidden; overflow-wrap: anywhere; }
.play .note { color: var(--warm); font-weight: 600; }
.play .proved { color: var(--good); }
.play form, .steps-of-play { margin: 8px 0; }
.play input { font: 13px var(--mono); color: var(--ink); background: var(--paper); border: 1px solid var(--line); border-radius: 6px; padding: 3px 8px; max-width: 100%; }
.play .slider { width: 100%; padding: 0; accent-color: var(--blue); }
.play .wrong, .play .bad { color: var(--bad); font-weight: 600; }
.play .place { min-height: 3em; }
.play .out { font: 12.5px/1.6 var(--mono); }
.play .out .changed { background: var(--warm-wash); color: var(--warm); font-weight: 700; }
.play .fault { margin: 8px 0; padding: 8px 12px; border: 1px solid var(--bad); border-radius: 8px; background: var(--bad-wash); }
.compared { margin: 6px 0; border-collapse: collapse; font: 12.5px/1.6 var(--mono); }
.compared th, .compared td { text-align: left; font-weight: 400; padding: 1px 16px 1px 0; vertical-align: top; }
.compared th { color: var(--soft); }
.registers { display: flex; flex-wrap: wrap; gap: 2px 14px; margin: 8px 0; font: 12.5px/1.6 var(--mono); }
.registers .changed { background: var(--warm-wash); color: var(--warm); font-weight: 700; }
.pointer { color: var(--good); }
.pointer.stale { color: var(--bad); }
.block { margin-top: 10px; overflow-x: auto; }
.block h3 { margin: 0 0 2px; font: 600 12.5px/1.6 var(--mono); }
.chunks { font: 12px/1.7 var(--mono); }
.chunks span { padding: 0 6px; border-radius: 6px; }
.hue0 { background: hsl(180 65% var(--chunk)); }
.hue1 { background: hsl(330 65% var(--chunk)); }
.hue2 { background: hsl(95 65% var(--chunk)); }
.hue3 { background: hsl(205 65% var(--chunk)); }
.hue4 { background: hsl(305 65% var(--chunk)); }
.hue5 { background: hsl(130 65% var(--chunk)); }
.bytes .led { border-bottom-color: var(--bad); color: var(--bad); font-weight: 700; }
.bytes .meant { border-bottom: 2px dotted var(--good); }
.bytes .good { border-bottom-color: var(--good); }
@media print { .play-button, .play form, .steps-of-play, .slider { display: none; } }
header { padding-bottom: 2px; }
#verdict { font-weight: 600; padding: 2px 12px; border-radius: 12px; background: var(--wash); }
#verdict:empty { display: none; }
#verdict.good { color: var(--good); background: var(--good-wash); }
#verdict.bad { color: var(--bad); background: var(--bad-wash); }
#verdict.warm { color: var(--warm); background: var(--warm-wash); }
#text { font: 12.5px/20px var(--mono); white-space: pre-wrap; overflow-wrap: anywhere; }
#findings ol { margin: 12px 0 0; padding: 0; list-style: none; border: 1px solid var(--line); border-radius: 10px; background: var(--card); overflow: hidden; }
#findings li + li { border-top: 1px solid var(--line); }
#findings a { display: grid; grid-template-columns: 74px 44px minmax(0, 1fr); gap: 0 8px; padding: 5px 14px; color: inherit; text-decoration: none; }
#findings a:hover { background: var(--wash); }
#findings .place { font-family: var(--mono); font-size: 12.5px; color: var(--soft); }
#findings .rest { grid-column: 1 / -1; padding: 5px 14px; }
.rule { font: 600 12.5px/1.6 var(--mono); color: var(--bad); }
.warning .rule { color: var(--warm); }
.routine { margin-top: 20px; }
.routine > h2 { display: flex; flex-wrap: wrap; align-items: baseline; gap: 2px 8px; margin: 0 0 8px; text-transform: none; letter-spacing: 0; font: 600 16px/1.5 var(--mono); color: var(--ink); overflow-wrap: anywhere; }
.routine > h2 .tag { margin: 0; }
.pair { display: grid; grid-template-columns: minmax(0, 1fr) minmax(0, 350px); gap: 0 20px; align-items: start; }
.lines { margin: 0; padding: 6px 0; list-style: none; background: var(--card); border: 1px solid var(--line); border-radius: 10px; font: 12.5px/20px var(--mono); overflow: hidden; }
.lines > li { display: grid; grid-template-columns: 50px minmax(0, 13fr) minmax(0, 9fr) 132px; min-height: 20px; scroll-margin-top: 80px; }
.lines .n { color: var(--faint); text-align: right; padding-right: 12px; user-select: none; }
.lines .code { white-space: pre-wrap; overflow-wrap: anywhere; tab-size: 8; padding-right: 10px; }
.lines .plain .code { grid-column: 2 / -1; }
.lines .code b { font-weight: 700; }
.lines .known { color: var(--soft); font-size: 11.5px; padding-right: 10px; overflow-wrap: anywhere; }
.lines .known .s { color: var(--blue); }
.lines .known .p { color: var(--good); }
.lines .steps { color: var(--soft); font-size: 11.5px; text-align: right; padding-right: 14px; }
.lines .refused { background: var(--bad-wash); box-shadow: inset 3px 0 var(--bad); }
.lines .refused .n { color: var(--bad); font-weight: 700; }
.lines .warned { background: var(--warm-wash); box-shadow: inset 3px 0 var(--warm); }
.lines .cause { background: var(--warm-wash); box-shadow: inset 3px 0 var(--warm); }
.lines > li:target { outline: 2px solid var(--blue); outline-offset: -2px; }
.lines .finding { display: block; margin: 4px 14px 8px 50px; padding: 7px 12px; border-radius: 8px; border: 1px solid var(--bad); font: 14px/1.5 system-ui, \"DejaVu Sans\", sans-serif; overflow-wrap: anywhere; }
.lines .finding.warning { border-color: var(--warm); }
.finding .means { display: block; color: var(--soft); font-size: 12px; }
.finding .cure { display: block; }
.finding .cure::before { content: \"\\2192\\00a0\"; color: var(--good); font-weight: 700; }
.why { font: 12px/20px system-ui, \"DejaVu Sans\", sans-serif; margin-left: 50px; padding: 0 0 3px; grid-column: 1 / -1; }
aside { position: sticky; top: 8px; max-height: calc(100vh - 16px); overflow: auto; background: var(--card); border: 1px solid var(--line); border-radius: 10px; padding: 4px 14px 10px; }
summary { cursor: pointer; font-size: 12px; font-weight: 600; text-transform: uppercase; letter-spacing: .08em; color: var(--soft); padding: 6px 0; }
.loops { margin: 0 0 4px; padding: 0; list-style: none; font-size: 13px; }
.loops li { padding: 1px 0; }
.loops b { font: 600 12.5px var(--mono); }
aside svg { display: block; max-width: 100%; height: auto; font: 12px var(--mono); }
.node { fill: var(--paper); stroke: var(--line); }
.row-text { fill: var(--ink); }
.row-number { fill: var(--faint); text-anchor: end; }
.row-back { fill: none; }
a:hover .row-back { fill: var(--wash); }
.row-back.refused { fill: var(--bad-wash); }
.row-back.cause, .row-back.warned { fill: var(--warm-wash); }
.label { fill: var(--soft); font-size: 11px; font-weight: 600; }
.edge { fill: none; stroke: var(--soft); stroke-width: 1.4; }
.edge.refusal { stroke: var(--faint); stroke-dasharray: 3 3; stroke-width: 1.1; }
.edge.loop { stroke: var(--blue); stroke-width: 2; }
.edge.outside { stroke: var(--bad); stroke-width: 2; }
.head { fill: var(--soft); }
.head.refusal { fill: var(--faint); }
.head.loop { fill: var(--blue); }
.rounds { fill: var(--blue); font-size: 11px; font-weight: 600; text-anchor: end; }
.key { display: flex; flex-wrap: wrap; gap: 0 14px; color: var(--soft); font-size: 12px; margin-top: 4px; }
.key span::before { content: \"\"; display: inline-block; width: 22px; margin-right: 6px; vertical-align: middle; border-top: 1.5px solid var(--soft); }
.key .refusal::before { border-top: 1.5px dashed var(--faint); }
.key .loop::before { border-top: 2.5px solid var(--blue); }
@media (max-width: 900px) {
  .pair { display: block; }
  aside { position: static; max-height: none; margin-top: 8px; }
  .lines > li { grid-template-columns: 34px minmax(0, 1fr) auto; }
  .lines .n { padding-right: 8px; }
  .lines .known { grid-column: 2; grid-row: 2; }
  .lines .known:empty { display: none; }
  .lines .steps { grid-column: 3; grid-row: 1; padding-right: 8px; }
  .lines .finding { margin-left: 10px; margin-right: 8px; }
  .why { margin-left: 34px; }
  #findings a { grid-template-columns: 70px 1fr; }
  #findings .said { grid-column: 1 / -1; }
}
@media print {
  aside { position: static; max-height: none; }
  .finding, aside { break-inside: avoid; }
}
.lines > li.next { outline: 2px dashed var(--blue); outline-offset: -2px; }
</style>
</head>
<body>
<header>
<h1 id=\"name\">A text, explained</h1>
<p id=\"verdict\" role=\"status\"></p>
</header>
<p id=\"about\"></p>
<nav id=\"findings\" aria-label=\"What the verifier found\" hidden></nav>
<main id=\"main\">
<pre id=\"text\">
";
