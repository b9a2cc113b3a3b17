//! The page around a run. Made by tools/page.py from page/.

/// What follows the run, up to the script of the panels.
pub(crate) const AFTER_RUN: &str = "</script>
<script>
\"use strict\";
// Elements, pictures and numbers.

const $ = (id) => document.getElementById(id);

function node(tag, attributes = {}, ...inside) {
  const made = document.createElement(tag);
  for (const [name, value] of Object.entries(attributes)) {
    if (value !== false && value !== undefined) made.setAttribute(name, value === true ? \"\" : value);
  }
  made.append(...inside.filter((part) => part !== null && part !== undefined && part !== false));
  return made;
}

const times = (n) => n === 1 ? \"once\" : n === 2 ? \"twice\" : n + \" times\";
const hex4 = (n) => \"0x\" + n.toString(16).padStart(4, \"0\");

const SVG = \"http://www.w3.org/2000/svg\";

function draw(tag, attributes = {}, ...inside) {
  const node = document.createElementNS(SVG, tag);
  for (const [name, value] of Object.entries(attributes)) node.setAttribute(name, value);
  node.append(...inside);
  return node;
}

// Control characters are shown as their pictures.
const shown = (text) => text.replace(/[\\0-\\x08\\x0b-\\x1f]/g, (c) => String.fromCharCode(0x2400 + c.charCodeAt(0))).replace(/\\x7f/g, \"\\u2421\");
const lines_of = (text) => text.replace(/\\n$/, \"\").split(\"\\n\");

// Lines of a text, with what is known there.

// A line of `geos explain`: its number, its text, and what is known there.
function explained_line(line) {
  const [, number, rest] = /^(\\d*)\\t?(.*)$/s.exec(line);
  const known = / ; ([^;]*\\bsteps?)$/.exec(rest);
  return { number, code: known ? rest.slice(0, known.index) : rest, known: known ? known[1] : \"\" };
}

// The code of a line, with its comment apart.
function code_of(code) {
  const at = code.indexOf(\";\");
  const parts = at < 0 ? [shown(code)] : [shown(code.slice(0, at)), node(\"span\", { class: \"comment\" }, shown(code.slice(at)))];
  return node(\"span\", { class: \"code\" }, ...parts);
}

function known_of(known) {
  const parts = known.split(/([sp]\\d=[^ ,]+)/).map((part) => /^[sp]\\d=/.test(part) ? node(\"span\", { class: part[0] }, part) : part);
  return node(\"span\", { class: \"known\" }, ...parts);
}

// Bytes of chunks, and their colours.

// The most bytes of a chunk that are drawn.
const MOST_DRAWN = 1024;
const per_row = () => window.innerWidth < 560 ? 8 : 16;
const letter_of = (byte) => byte >= 32 && byte < 127 ? String.fromCharCode(byte) : \"\\u00b7\";
const bytes_of = (hex) => (hex.match(/../g) || []).slice(0, MOST_DRAWN).map((pair) => parseInt(pair, 16));

// A row of bytes, in hexadecimal digits and as text.
function byte_row(bytes, from, count, kind_of) {
  const cells = [node(\"th\", { scope: \"row\" }, String(from))];
  for (let i = from; i < from + count; i++) {
    const is_there = i < bytes.length;
    cells.push(node(\"td\", { class: is_there ? kind_of(i) : false }, is_there ? bytes[i].toString(16).padStart(2, \"0\") : \"  \"));
  }
  const letters = bytes.slice(from, from + count).map(letter_of).join(\"\");
  return node(\"tr\", {}, ...cells, node(\"td\", { class: \"ascii\" }, letters));
}

// The rows of bytes; of rows of zeros that did not change only the first one.
function byte_rows(bytes, kind_of) {
  const rows = [];
  const wide = per_row();
  const is_plain = (i) => bytes[i] === 0 && !/changed/.test(kind_of(i));
  for (let from = 0; from < bytes.length; from += wide) {
    rows.push(byte_row(bytes, from, wide, kind_of));
    let end = from;
    while (end < bytes.length && is_plain(end)) end++;
    const more = Math.floor((end - from) / wide) - 1;
    if (more < 2) continue;
    rows.push(node(\"tr\", {}, node(\"th\", {}, \"\\u22ee\"), node(\"td\", { class: \"quiet\", colspan: wide + 1 }, `${more * wide} more zero bytes`)));
    from += more * wide;
  }
  return rows;
}

// Hues of chunks, in turn by their handles. None is the violet of blocks of the file, or the yellow of changed bytes.
const HUES = [180, 330, 95, 205, 305, 130];
const hue_of = (chunk) => HUES[(chunk - 16) / 2 % HUES.length];
const fill_of = (chunk) => `hsl(${hue_of(chunk)} 65% var(--chunk))`;
const line_of = (chunk) => `hsl(${hue_of(chunk)} 50% var(--chunk-line))`;

// The run: what the program noted, and what follows from it at each place. Place n is before step n + 1.

// Strings of the run have a character for each byte.
const text_of = (bytes) => new TextDecoder().decode(Uint8Array.from(bytes, (c) => c.charCodeAt(0)));

// What instructions on the VM file do.
const COMMITS = { VUPDATE: \"current area committed\", VSAVE: \"saved area committed\", VREVERT: \"back to the saved area\", VDIRTY: \"block marked as changed\", IDIRTY: \"group marked as changed\" };

// Instructions that make pointers into their block stale, since its chunks may move, and those that unlock it.
const MOVING = new Set(\"LALLOC LFREE LREALLOC LINS LDEL LCONTRACT CANEW CAADD CAINS CADEL CAZERO CARESIZE INEW IFREE IREALLOC IINS IDEL\".split(\" \"));
const FREEING = new Set([\"LFREE\", \"IFREE\"]);
const UNLOCKING = new Set([\"MUNLOCK\", \"VUNLOCK\", \"IUNLOCK\"]);

const PASSING = { CALL: \"the called routine does not know it\", RET: \"the caller does not know it\" };

// Why a pointer is stale after an instruction.
function why_stale(code) {
  const name = code.split(\" \")[0];
  if (MOVING.has(name)) return `${name} may move its chunk`;
  return UNLOCKING.has(name) ? `${name} unlocks its block` : PASSING[name] ?? \"it is not known on each path to here\";
}

const OWNERS = [\"block\", \"file block\"];
const key_of = (owner, handle) => OWNERS[owner] + \" \" + handle;

// A line of `geos trace`: the line of the text, the instruction after its labels, and what it did.
function traced_line(line) {
  const [, number, code, did] = /^(\\d+)\\s+(?:[^\\s;]+: )*(.*?)(?:  ; (.*))?$/.exec(line);
  return { number, code, did: did || \"\" };
}

function state_of(row) {
  const pairs = (from) => [0, 2, 4, 6].map((n) => [row[from + n], row[from + n + 1]]);
  return {
    pc: row[0],
    words: row.slice(1, 9),
    counters: row.slice(9, 13),
    slots: pairs(13).map(([owner, handle]) => key_of(owner, handle)),
    spans: pairs(21).map(([at, len]) => ({ at, len })),
  };
}

function block_of([, owner, handle, locks, marked, chunks, from, size]) {
  const list = chunks.map(([chunk, at, len, hex]) => ({ chunk, at, len, hex }));
  return { key: key_of(owner, handle), vm: owner === 1, handle, locks, marked, chunks: list, from, to: from + size, is_there: size > 0 };
}

// For each block the places at which it changed, and how. Rows have the numbers of steps.
function histories(rows, skipped) {
  const all = new Map();
  for (const row of rows) {
    const block = block_of(row);
    if (!all.has(block.key)) all.set(block.key, []);
    const history = all.get(block.key);
    const place = row[0] - skipped;
    if (history.length && history[history.length - 1].place === place) history.pop();
    history.push({ place, block });
  }
  return all;
}

// The last entry at a place or before.
function latest(history, place) {
  let [low, high] = [0, history.length];
  while (low < high) {
    const middle = (low + high) >> 1;
    if (history[middle].place <= place) low = middle + 1;
    else high = middle;
  }
  return low ? history[low - 1] : null;
}

class Run {
  constructor(data) {
    this.data = data;
    this.file = shown(text_of(data.file));
    this.place_word = data.text ? \"line\" : \"pc\";
    this.call = data.call.map(text_of).map(shown).join(\" \");
    this.lines = lines_of(text_of(data.explained)).map(explained_line);
    this.steps = lines_of(text_of(data.traced)).slice(0, -1).map(traced_line).slice(0, data.states.length);
    this.states = data.states.map(state_of);
    this.skipped = data.skipped;
    this.blocks = histories(data.blocks, this.skipped);
    // A run that is told to its end has one more place, where nothing is left to do.
    this.whole = this.skipped + this.states.length === data.steps;
    this.last = Math.max(0, this.whole ? this.states.length : this.states.length - 1);
    this.outputs = this.output_counts();
    // Words that were output before the first step here are not among them.
    this.words = this.skipped ? this.steps.filter((step) => step.did.startsWith(\"out \")).map((step) => +step.did.slice(4)) : data.output;
    this.find_lines();
    this.targets = this.pointer_targets();
    this.commits = this.file_changes();
    this.moments = this.find_moments();
  }

  // A block as it was before the step before a place, if that step moved it. One that no slot names may have moved earlier.
  moved_from(block, place) {
    const was = place && this.state(place - 1).slots.includes(block.key) ? this.block(block.key, place - 1) : null;
    return was?.is_there && block.is_there && was.from !== block.from ? was : null;
  }

  // Blocks that moved in the step before a place.
  moves(place) {
    return this.blocks_at(place).flatMap((block) => {
      const was = this.moved_from(block, place);
      return was ? [`${block.key} moved from ${was.from} to ${block.from}`] : [];
    });
  }

  // Pointers that are stale since the step before a place, and why.
  stale_since(place) {
    const reasons = new Map();
    for (const n of place ? [0, 1, 2, 3] : []) {
      const target = this.targets[place][n];
      if (target?.stale === place) reasons.set(this.why(target), [...(reasons.get(this.why(target)) ?? []), \"p\" + n]);
    }
    return [...reasons].map(([why, names]) => `${names.join(\", \")} ${names.length > 1 ? \"are\" : \"is\"} stale: ${why}`);
  }

  // Why a pointer is stale: what its instruction did to its chunk, or may do.
  why({ key, chunk, stale }) {
    const { code } = this.steps[stale - 1];
    const name = code.split(\" \")[0];
    const block = this.block(key, stale);
    if (block && this.moved_from(block, stale)) return `${name} moved ${key}`;
    const [was, now] = [stale - 1, stale].map((place) => this.block(key, place)?.chunks.find((one) => one.chunk === chunk));
    if (was && !now && FREEING.has(name)) return `${name} freed its chunk`;
    return was && now && was.at !== now.at ? `${name} moved its chunk` : why_stale(code);
  }

  // Whether an instruction moves chunks or unlocks a block in the step before a place.
  ends_pointers(place) {
    const name = place ? this.steps[place - 1].code.split(\" \")[0] : \"\";
    return MOVING.has(name) || UNLOCKING.has(name);
  }

  // What a reader looks for: the places before which a block moved, or an instruction made a pointer stale.
  find_moments() {
    const places = new Set([...this.blocks.values()].flatMap((history) => history.map((entry) => entry.place)));
    this.targets.forEach((targets, place) => targets.some((target) => target?.stale === place) && places.add(place));
    const found = [...places].filter((place) => place > 0 && place <= this.last).sort((a, b) => a - b);
    return found.map((place) => ({ place, said: [...this.moves(place), ...(this.ends_pointers(place) ? this.stale_since(place) : [])] })).filter(({ said }) => said.length);
  }

  // How many words are out at each place.
  output_counts() {
    const counts = [0];
    for (const step of this.steps) counts.push(counts[counts.length - 1] + (step.did.startsWith(\"out \") ? 1 : 0));
    return counts;
  }

  // Steps that commit the VM file, or mark a block of it as changed.
  file_changes() {
    const changes = [];
    this.steps.forEach((step, n) => {
      const name = step.code.split(\" \")[0];
      if (COMMITS[name]) changes.push({ place: n + 1, said: step.did.startsWith(\"refused\") ? name + \" \" + step.did : COMMITS[name] });
    });
    return changes;
  }

  // For each number of a line where it stands, and at which places its instruction is next.
  find_lines() {
    this.rows = new Map(this.lines.map((line, row) => [line.number, row]));
    this.places = this.lines.map(() => []);
    this.steps.forEach((step, place) => this.places[this.row_of(step)]?.push(place));
  }

  row_of(step) {
    return this.rows.get(step.number) ?? -1;
  }

  state(place) {
    return this.states[Math.min(place, this.states.length - 1)];
  }

  // The row of the instruction that is next.
  next_row(place) {
    return place < this.steps.length ? this.row_of(this.steps[place]) : -1;
  }

  known(place) {
    return this.lines[this.next_row(place)]?.known || \"\";
  }

  block(key, place) {
    return latest(this.blocks.get(key) || [], place)?.block || null;
  }

  // The blocks in memory. One that no slot names may have moved since, or be gone: then another one may be at its place.
  blocks_in_memory(place) {
    const past = [...this.blocks.keys()].map((key) => latest(this.blocks.get(key), place)).filter((entry) => entry?.block.is_there);
    const is_over = (old, { place: since, block }) => since > old.place && block.from < old.block.to && old.block.from < block.to;
    return past.filter((old) => !past.some((entry) => is_over(old, entry))).map(({ block }) => block);
  }

  // Whether something of a block changed in the step before a place.
  has_changed(key, place) {
    return latest(this.blocks.get(key) || [], place)?.place === place;
  }

  // Blocks that were looked at up to a place.
  blocks_at(place) {
    return [...this.blocks.keys()].map((key) => this.block(key, place)).filter((b) => b);
  }

  // What a slot holds, if it holds something.
  held(slot, place) {
    const is_held = new RegExp(\"\\\\bs\" + slot + \"=\").test(this.known(place));
    return is_held ? this.block(this.state(place).slots[slot], place) : null;
  }

  // The slots that hold a block.
  slots_of(block, place) {
    return [0, 1, 2, 3].filter((slot) => this.held(slot, place)?.key === block.key).map((slot) => \"s\" + slot);
  }

  // What each pointer was set to: at each place four targets, or null.
  pointer_targets() {
    const all = [[0, 1, 2, 3].map((pointer) => this.first_target(pointer))];
    this.steps.forEach((step, n) => {
      const after = all[n].map((target, p) => this.checked_target(target, p, n + 1));
      const set = /\\bp(\\d)=(?:p(\\d)|(?:(element \\d+) of )?(chunk|item) (\\d+) of s(\\d))/.exec(step.did);
      if (set) after[set[1]] = set[2] ? all[n][set[2]] : this.new_target(set, n + 1);
      all.push(after);
    });
    return all;
  }

  // What a pointer was set to before the first step here, if the verifier knows it.
  first_target(pointer) {
    const found = this.skipped ? new RegExp(\"\\\\bp\" + pointer + \"=s(\\\\d)\").exec(this.known(0)) : null;
    if (!found || !this.states.length) return null;
    const { at, len } = this.state(0).spans[pointer];
    const key = this.state(0).slots[found[1]];
    const chunk = this.block(key, 0)?.chunks.find((c) => c.at <= at && at + len <= c.at + c.len);
    return chunk ? { key, chunk: chunk.chunk, element: undefined, at, len, offset: at - chunk.at, set: 0, stale: 0 } : null;
  }

  new_target([, pointer, , element, , chunk, slot], place) {
    const state = this.state(place);
    const { at, len } = state.spans[pointer];
    const found = this.block(state.slots[slot], place)?.chunks.find((c) => c.chunk === +chunk);
    return { key: state.slots[slot], chunk: +chunk, element, at, len, offset: found ? at - found.at : 0, set: place, stale: 0 };
  }

  // A target is stale from the first step after which the verifier no longer knows the pointer.
  checked_target(target, pointer, place) {
    if (!target || target.stale || place >= this.steps.length) return target;
    const is_known = new RegExp(\"\\\\bp\" + pointer + \"=\").test(this.known(place));
    return is_known ? target : { ...target, stale: place };
  }

  // Where the bytes lie now for which a pointer was set, or null.
  now_at(target, place) {
    const block = this.block(target.key, place);
    const chunk = block?.locks ? block.chunks.find((c) => c.chunk === target.chunk) : null;
    return chunk ? chunk.at + target.offset : null;
  }
}

";
