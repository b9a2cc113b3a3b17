//! The page around a VM file. Made by tools/page.py from page/.

/// What precedes the drawing.
pub(crate) const BEFORE_MAP: &str = "<!DOCTYPE html>
<html lang=\"en\">
<head>
<meta charset=\"utf-8\">
<meta name=\"viewport\" content=\"width=device-width, initial-scale=1\">
<meta http-equiv=\"Content-Security-Policy\" content=\"default-src 'none'; style-src 'unsafe-inline'; script-src 'unsafe-inline'\">
<meta name=\"color-scheme\" content=\"light dark\">
<title>A VM file</title>
<style>
:root {
  --ink: #1b2130; --soft: #5c6473; --faint: #7d8595; --line: #d7dce5; --paper: #f6f7fa; --card: #fff; --wash: #eef1f6;
  --blue: #1f55c4; --blue-wash: #e4ecfc; --good: #11743f; --good-wash: #def3e7; --bad: #b92828; --bad-wash: #fde7e7;
  --warm: #8f5600; --warm-wash: #fff1cf; --vm: #6f45bd; --vm-wash: #efe7fc; --chunk: 90%; --chunk-line: 42%;
  --mono: ui-monospace, \"SF Mono\", \"DejaVu Sans Mono\", Menlo, Consolas, monospace;
}
@media (prefers-color-scheme: dark) {
  :root {
    --ink: #e6e9f0; --soft: #a3abbb; --faint: #8a93a4; --line: #343b4a; --paper: #12151c; --card: #1a1f2a; --wash: #232a37;
    --blue: #7fa8ff; --blue-wash: #1d2f57; --good: #5fd396; --good-wash: #143524; --bad: #ff8a8a; --bad-wash: #46201f;
    --warm: #f0bd5b; --warm-wash: #463512; --vm: #c0a0ff; --vm-wash: #33264f; --chunk: 24%; --chunk-line: 62%;
  }
}
* { box-sizing: border-box; }
body { margin: 0 auto; max-width: 1500px; padding: 0 18px 18px; color: var(--ink); background: var(--paper); font: 14px/1.45 system-ui, \"DejaVu Sans\", sans-serif; }
header { display: flex; flex-wrap: wrap; align-items: baseline; gap: 4px 16px; padding: 14px 0 8px; }
h1 { font: 600 20px/1.3 var(--mono); margin: 0; overflow-wrap: anywhere; }
h2 { font-size: 12px; margin: 16px 0 6px; text-transform: uppercase; letter-spacing: .08em; color: var(--soft); }
h2 small { text-transform: none; letter-spacing: 0; font-weight: 400; }
p { margin: 0; }
a { color: var(--blue); }
#about, footer { color: var(--soft); overflow-wrap: anywhere; }
footer { margin-top: 20px; font-size: 12.5px; }
:focus-visible { outline: 2px solid var(--blue); outline-offset: 2px; }
.comment { color: var(--faint); }
.tag { display: inline-block; font: 11.5px/1.6 var(--mono); padding: 0 8px; border-radius: 10px; background: var(--wash); color: var(--soft); margin: 0 5px 4px 0; }
.tag.held { background: var(--blue-wash); color: var(--blue); }
.tag.news { background: var(--warm-wash); color: var(--warm); }
.chunk { margin: 8px 0 0; border-left: 5px solid var(--hue); padding-left: 9px; }
.chunk h3 { margin: 0 0 2px; font: 600 12.5px/1.6 var(--mono); }
.chunk h3 small { font-weight: 400; color: var(--soft); font-size: 11.5px; margin-left: 6px; }
.bytes { font: 12.5px/19px var(--mono); border-collapse: collapse; }
.bytes th { font-weight: 400; color: var(--faint); text-align: right; padding: 0 10px 0 0; }
.bytes td { padding: 0 2.5px; white-space: pre; border-bottom: 2px solid transparent; }
.bytes .zero { color: var(--faint); }
.bytes .ascii { padding-left: 14px; color: var(--soft); letter-spacing: .12em; }
.bytes .changed { background: var(--warm-wash); color: var(--warm); font-weight: 700; }
.quiet { color: var(--soft); }
@media (max-width: 900px) { body { padding: 0 8px 12px; } }
@media (max-width: 480px) {
  h1 { font-size: 16px; }
  .bytes { font-size: 11.5px; }
  .bytes td { padding: 0 1px; }
  .bytes .ascii { padding-left: 6px; letter-spacing: 0; }
  .bytes th { padding-right: 5px; }
}
@media print {
  body { background: #fff; max-width: none; }
  * { print-color-adjust: exact; }
}
#text { font: 12.5px/20px var(--mono); white-space: pre; overflow: auto; }
.areas { display: grid; grid-template-columns: 1fr 1fr; gap: 14px; margin: 8px 0 4px; }
.area { border: 1px solid var(--line); border-radius: 10px; background: var(--card); padding: 8px 14px 12px; }
.area h2 { margin: 0 0 6px; color: var(--ink); }
.area.unread { opacity: .65; }
.bar { height: 14px; border-radius: 4px; background: var(--wash); border: 1px solid var(--line); overflow: hidden; }
.bar span { display: block; height: 100%; background: var(--blue); min-width: 2px; }
.sides { display: grid; grid-template-columns: minmax(0, 1fr) minmax(0, 1fr); gap: 14px; align-items: start; }
.side > h2 { margin: 16px 0 2px; font-size: 14px; letter-spacing: 0; text-transform: none; color: var(--ink); }
.side > p { color: var(--soft); margin-bottom: 8px; }
.block { border: 1px solid var(--line); border-radius: 10px; background: var(--card); margin-bottom: 8px; }
.block > summary { cursor: pointer; list-style: none; padding: 8px 14px; display: grid; grid-template-columns: minmax(0, auto) 1fr auto; gap: 2px 12px; align-items: center; }
.block > summary::-webkit-details-marker { display: none; }
.block b { font: 600 13.5px/1.5 var(--mono); }
.block b::before { content: \"\\25b8\\fe0e\"; display: inline-block; width: 1.1em; color: var(--soft); }
.block[open] b::before { content: \"\\25be\\fe0e\"; }
.block .size { color: var(--soft); font-size: 12.5px; text-align: right; }
.block .bar { grid-column: 1 / -1; height: 8px; }
.block .tag { margin: 0 5px 0 0; }
.block.group .bar span { background: var(--vm); }
.block .inside { padding: 0 14px 12px; overflow-x: auto; }
.tag.map { background: var(--good-wash); color: var(--good); }
@media (max-width: 900px) { .sides { display: block; } }
@media (max-width: 480px) { .areas { grid-template-columns: 1fr; } .block > summary { padding: 8px 10px; } .block > summary > span:not(.size) { grid-column: 1 / -1; grid-row: 2; } .block .inside { padding: 0 10px 10px; } }
@media print { .sides { display: block; } .block { break-inside: avoid; } }
</style>
</head>
<body>
<header>
<h1 id=\"name\">A VM file</h1>
<p id=\"about\"></p>
</header>
<main id=\"main\">
<pre id=\"text\">
";

/// What follows the data.
pub(crate) const AFTER_MAP: &str = "</pre>
</main>
<footer>
<p id=\"help\" hidden>The file has its blocks twice: as the last commit left them, and as the last save left them. Bytes that differ between the two are marked.</p>
</footer>
<script>
\"use strict\";
// Elements, pictures and numbers.

const $ = (id) => document.getElementById(id);

function node(tag, attributes = {}, ...inside) {
  const made = document.createElement(tag);
  for (const [name, value] of Object.entries(attributes)) {
    if (value !== false && value !== undefined) made.setAttribute(name, value === true ? \"\" : value);
  }
  made.append(...inside.filter((part) => part !== null && part !== undefined && part !== false));
  return made;
}

const times = (n) => n === 1 ? \"once\" : n === 2 ? \"twice\" : n + \" times\";
const hex4 = (n) => \"0x\" + n.toString(16).padStart(4, \"0\");

const SVG = \"http://www.w3.org/2000/svg\";

function draw(tag, attributes = {}, ...inside) {
  const node = document.createElementNS(SVG, tag);
  for (const [name, value] of Object.entries(attributes)) node.setAttribute(name, value);
  node.append(...inside);
  return node;
}

// Control characters are shown as their pictures.
const shown = (text) => text.replace(/[\\0-\\x08\\x0b-\\x1f]/g, (c) => String.fromCharCode(0x2400 + c.charCodeAt(0))).replace(/\\x7f/g, \"\\u2421\");
const lines_of = (text) => text.replace(/\\n$/, \"\").split(\"\\n\");

// Bytes of chunks, and their colours.

// The most bytes of a chunk that are drawn.
const MOST_DRAWN = 1024;
const per_row = () => window.innerWidth < 560 ? 8 : 16;
const letter_of = (byte) => byte >= 32 && byte < 127 ? String.fromCharCode(byte) : \"\\u00b7\";
const bytes_of = (hex) => (hex.match(/../g) || []).slice(0, MOST_DRAWN).map((pair) => parseInt(pair, 16));

// A row of bytes, in hexadecimal digits and as text.
function byte_row(bytes, from, count, kind_of) {
  const cells = [node(\"th\", { scope: \"row\" }, String(from))];
  for (let i = from; i < from + count; i++) {
    const is_there = i < bytes.length;
    cells.push(node(\"td\", { class: is_there ? kind_of(i) : false }, is_there ? bytes[i].toString(16).padStart(2, \"0\") : \"  \"));
  }
  const letters = bytes.slice(from, from + count).map(letter_of).join(\"\");
  return node(\"tr\", {}, ...cells, node(\"td\", { class: \"ascii\" }, letters));
}

// The rows of bytes; of rows of zeros that did not change only the first one.
function byte_rows(bytes, kind_of) {
  const rows = [];
  const wide = per_row();
  const is_plain = (i) => bytes[i] === 0 && !/changed/.test(kind_of(i));
  for (let from = 0; from < bytes.length; from += wide) {
    rows.push(byte_row(bytes, from, wide, kind_of));
    let end = from;
    while (end < bytes.length && is_plain(end)) end++;
    const more = Math.floor((end - from) / wide) - 1;
    if (more < 2) continue;
    rows.push(node(\"tr\", {}, node(\"th\", {}, \"\\u22ee\"), node(\"td\", { class: \"quiet\", colspan: wide + 1 }, `${more * wide} more zero bytes`)));
    from += more * wide;
  }
  return rows;
}

// Hues of chunks, in turn by their handles. None is the violet of blocks of the file, or the yellow of changed bytes.
const HUES = [180, 330, 95, 205, 305, 130];
const hue_of = (chunk) => HUES[(chunk - 16) / 2 % HUES.length];
const fill_of = (chunk) => `hsl(${hue_of(chunk)} 65% var(--chunk))`;
const line_of = (chunk) => `hsl(${hue_of(chunk)} 50% var(--chunk-line))`;

// A VM file: its two areas, and its blocks as they are and as they were saved.

const SIDES = { current: \"As the last commit left it\", saved: \"As the last save left it\" };
const kind_of = (object) => object.kind === \"group\" || object.kind === \"item\" ? \"group\" : \"block\";

// The file, of the drawing and the objects.
class VmFile {
  constructor(text, objects) {
    this.page = objects[0];
    const lines = lines_of(text);
    const found = /^areas of (\\d+) bytes, ([AB]) is read, (\\d+) taken$/.exec(lines[0]);
    this.area = { size: +found[1], name: found[2], taken: +found[3] };
    this.sides = { current: this.side(objects, \"current\"), saved: this.side(objects, \"saved\") };
    this.find_used(lines);
    this.longest = Math.max(1, ...Object.values(this.sides).flatMap((side) => [...side.blocks.values()].map((block) => block.size)));
  }

  side(objects, directory) {
    const side = { map: {}, blocks: new Map() };
    for (const object of objects.filter((o) => o.directory === directory)) {
      if (object.kind === \"map\") side.map = object;
      else if (object.size !== undefined && object.uid !== undefined) side.blocks.set(object.handle, { ...object, chunks: [] });
      else side.blocks.get(object.block ?? object.group).chunks.push(object);
    }
    return side;
  }

  // How much of each block is used, as the drawing says.
  find_used(lines) {
    let side = null;
    for (const line of lines.slice(1)) {
      const name = /^(current|saved) map/.exec(line);
      const row = /^\\s*(\\d+)\\s+(\\d+|group)\\s+\\d+\\s+(\\d+) /.exec(line);
      if (name) side = this.sides[name[1]];
      else if (row && side) side.blocks.get(+row[1]).used = +row[3];
    }
  }
}

const tag = (text, kind = \"\") => node(\"span\", { class: (\"tag \" + kind).trim() }, text);
const bar = (part, whole, wide = 100) => {
  const inside = node(\"span\", {});
  inside.style.width = `${whole ? 100 * part / whole : 0}%`;
  const outside = node(\"div\", { class: \"bar\", \"aria-hidden\": \"true\" }, part ? inside : null);
  outside.style.width = `${wide}%`;
  return outside;
};

function area_part(name, { area }) {
  const is_read = name === area.name;
  const said = is_read ? `${area.taken} of ${area.size} bytes are taken` : \"the next commit writes here\";
  return node(\"section\", { class: \"area\" + (is_read ? \"\" : \" unread\") }, node(\"h2\", {}, `Area ${name} `, node(\"small\", {}, is_read ? \"is read\" : \"\")),
    node(\"p\", {}, said), bar(is_read ? area.taken : 0, area.size));
}

// What differs of a block between the two sides.
function changes(block, other) {
  if (!other) return \"only here\";
  const same = block.uid === other.uid && block.size === other.size && JSON.stringify(block.chunks.map((c) => [c.handle, c.bytes])) === JSON.stringify(other.chunks.map((c) => [c.handle, c.bytes]));
  return same ? \"\" : \"differs from the other side\";
}

function chunk_part(chunk, other, map) {
  const [bytes, before] = [bytes_of(chunk.bytes), other ? bytes_of(other.bytes) : null];
  const kind = (i) => [bytes[i] === 0 && \"zero\", before && bytes[i] !== before[i] && \"changed\"].filter((name) => name).join(\" \") || false;
  const is_map = chunk.kind === \"item\" && map.group === chunk.group && map.item === chunk.handle;
  const more = chunk.size > bytes.length ? node(\"p\", { class: \"quiet\" }, `${chunk.size - bytes.length} more bytes are not shown`) : null;
  const part = node(\"div\", { class: \"chunk\", \"data-chunk\": String(chunk.handle) },
    node(\"h3\", {}, `${chunk.kind} ${chunk.handle}`, node(\"small\", {}, `${chunk.size} bytes `), is_map ? tag(\"map item\", \"map\") : null, other ? null : tag(\"only here\", \"news\")),
    node(\"table\", { class: \"bytes\" }, ...byte_rows(bytes, kind)), more);
  part.style.setProperty(\"--hue\", line_of(chunk.handle));
  return part;
}

function fill_block(inside, block, other, map) {
  if (inside.childNodes.length) return;
  const chunks = block.chunks.map((chunk) => chunk_part(chunk, other?.chunks.find((o) => o.handle === chunk.handle) ?? (other ? null : chunk), map));
  inside.append(...(chunks.length ? chunks : [node(\"p\", { class: \"quiet\" }, `It has no ${kind_of(block) === \"group\" ? \"item\" : \"chunk\"}.`)]));
}

// The most blocks of a side that are open at first.
const MOST_OPEN = 6;

function block_part(file, side, block, other, is_open) {
  const difference = changes(block, other);
  const is_same = side === \"saved\" && !difference;
  const { map } = file.sides[side];
  const inside = node(\"div\", { class: \"inside\" });
  const part = node(\"details\", { class: \"block \" + block.kind, \"data-block\": String(block.handle), open: is_open && !is_same },
    node(\"summary\", {}, node(\"b\", {}, `${block.kind} ${block.handle}`),
      node(\"span\", {}, block.kind === \"group\" ? null : tag(\"user ID \" + block.uid), map.block === block.handle ? tag(\"map block\", \"map\") : null, difference ? tag(difference, \"news\") : is_same ? tag(\"the same\") : null),
      node(\"span\", { class: \"size\" }, `${block.used} of ${block.size} bytes are used`), bar(block.used, block.size, Math.max(2, 100 * block.size / file.longest))), inside);
  part.addEventListener(\"toggle\", () => part.open && fill_block(inside, block, other, map));
  if (is_open && !is_same) fill_block(inside, block, other, map);
  return part;
}

function side_part(file, name) {
  const [side, other] = [file.sides[name], file.sides[name === \"current\" ? \"saved\" : \"current\"]];
  const { block, group, item } = side.map;
  const blocks = [...side.blocks.values()];
  const about = [`map block ${block ?? \"none\"}`, `map item ${item === null ? \"none\" : `${item} of group ${group}`}`].join(\", \");
  const parts = blocks.map((each, n) => block_part(file, name, each, other.blocks.get(each.handle), n < MOST_OPEN));
  const none = blocks.length ? null : node(\"p\", { class: \"quiet\" }, \"no block\");
  return node(\"section\", { class: \"side\", \"data-side\": name }, node(\"h2\", {}, SIDES[name]), node(\"p\", {}, about), ...parts, none);
}

function show_page() {
  const file = new VmFile($(\"text\").textContent, lines_of($(\"data\").textContent).map((line) => JSON.parse(line)));
  document.title = \"geos map \\u2013 \" + shown(file.page.file);
  $(\"name\").textContent = shown(file.page.file);
  $(\"about\").textContent = `two areas of ${file.area.size} bytes`;
  $(\"help\").hidden = false;
  const areas = node(\"div\", { class: \"areas\" }, area_part(\"A\", file), area_part(\"B\", file));
  $(\"main\").replaceChildren(areas, node(\"div\", { class: \"sides\" }, side_part(file, \"current\"), side_part(file, \"saved\")));
}

show_page();
</script>
</body>
</html>
";
