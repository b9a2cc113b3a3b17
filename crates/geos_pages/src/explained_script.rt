//! The page around a text and its data. Made by tools/page.py from page/.

/// What follows the data.
pub(crate) const AFTER_EXPLAINED: &str = "</pre>
</main>
<footer>
<p id=\"help\" hidden>Keys: N and P go to the next and the previous finding.</p>
</footer>
<script>
\"use strict\";
// Elements, pictures and numbers.

const $ = (id) => document.getElementById(id);

function node(tag, attributes = {}, ...inside) {
  const made = document.createElement(tag);
  for (const [name, value] of Object.entries(attributes)) {
    if (value !== false && value !== undefined) made.setAttribute(name, value === true ? \"\" : value);
  }
  made.append(...inside.filter((part) => part !== null && part !== undefined && part !== false));
  return made;
}

const times = (n) => n === 1 ? \"once\" : n === 2 ? \"twice\" : n + \" times\";
const hex4 = (n) => \"0x\" + n.toString(16).padStart(4, \"0\");

const SVG = \"http://www.w3.org/2000/svg\";

function draw(tag, attributes = {}, ...inside) {
  const node = document.createElementNS(SVG, tag);
  for (const [name, value] of Object.entries(attributes)) node.setAttribute(name, value);
  node.append(...inside);
  return node;
}

// Control characters are shown as their pictures.
const shown = (text) => text.replace(/[\\0-\\x08\\x0b-\\x1f]/g, (c) => String.fromCharCode(0x2400 + c.charCodeAt(0))).replace(/\\x7f/g, \"\\u2421\");
const lines_of = (text) => text.replace(/\\n$/, \"\").split(\"\\n\");

// Lines of a text, with what is known there.

// A line of `geos explain`: its number, its text, and what is known there.
function explained_line(line) {
  const [, number, rest] = /^(\\d*)\\t?(.*)$/s.exec(line);
  const known = / ; ([^;]*\\bsteps?)$/.exec(rest);
  return { number, code: known ? rest.slice(0, known.index) : rest, known: known ? known[1] : \"\" };
}

// The code of a line, with its comment apart.
function code_of(code) {
  const at = code.indexOf(\";\");
  const parts = at < 0 ? [shown(code)] : [shown(code.slice(0, at)), node(\"span\", { class: \"comment\" }, shown(code.slice(at)))];
  return node(\"span\", { class: \"code\" }, ...parts);
}

function known_of(known) {
  const parts = known.split(/([sp]\\d=[^ ,]+)/).map((part) => /^[sp]\\d=/.test(part) ? node(\"span\", { class: part[0] }, part) : part);
  return node(\"span\", { class: \"known\" }, ...parts);
}

// Bytes of chunks, and their colours.

// The most bytes of a chunk that are drawn.
const MOST_DRAWN = 1024;
const per_row = () => window.innerWidth < 560 ? 8 : 16;
const letter_of = (byte) => byte >= 32 && byte < 127 ? String.fromCharCode(byte) : \"\\u00b7\";
const bytes_of = (hex) => (hex.match(/../g) || []).slice(0, MOST_DRAWN).map((pair) => parseInt(pair, 16));

// A row of bytes, in hexadecimal digits and as text.
function byte_row(bytes, from, count, kind_of) {
  const cells = [node(\"th\", { scope: \"row\" }, String(from))];
  for (let i = from; i < from + count; i++) {
    const is_there = i < bytes.length;
    cells.push(node(\"td\", { class: is_there ? kind_of(i) : false }, is_there ? bytes[i].toString(16).padStart(2, \"0\") : \"  \"));
  }
  const letters = bytes.slice(from, from + count).map(letter_of).join(\"\");
  return node(\"tr\", {}, ...cells, node(\"td\", { class: \"ascii\" }, letters));
}

// The rows of bytes; of rows of zeros that did not change only the first one.
function byte_rows(bytes, kind_of) {
  const rows = [];
  const wide = per_row();
  const is_plain = (i) => bytes[i] === 0 && !/changed/.test(kind_of(i));
  for (let from = 0; from < bytes.length; from += wide) {
    rows.push(byte_row(bytes, from, wide, kind_of));
    let end = from;
    while (end < bytes.length && is_plain(end)) end++;
    const more = Math.floor((end - from) / wide) - 1;
    if (more < 2) continue;
    rows.push(node(\"tr\", {}, node(\"th\", {}, \"\\u22ee\"), node(\"td\", { class: \"quiet\", colspan: wide + 1 }, `${more * wide} more zero bytes`)));
    from += more * wide;
  }
  return rows;
}

// Hues of chunks, in turn by their handles. None is the violet of blocks of the file, or the yellow of changed bytes.
const HUES = [180, 330, 95, 205, 305, 130];
const hue_of = (chunk) => HUES[(chunk - 16) / 2 % HUES.length];
const fill_of = (chunk) => `hsl(${hue_of(chunk)} 65% var(--chunk))`;
const line_of = (chunk) => `hsl(${hue_of(chunk)} 50% var(--chunk-line))`;

// What a text is made of, and what the program found in it.

// Instructions without a label.
const PLAIN = new Set((\"LDI MOV ADD SUB AND SHR MULI SETK SETKW CALL RET MUNLOCK LCONTRACT LDB LDW STB STW LDXB LDXW STXB STXW MOVP COPY PLEN \" +
  \"VDIRTY VUNLOCK VGETMAP IDIRTY IUNLOCK IGETMAP\").split(\" \"));
// Those that jump. Any other one goes to its label if it is refused.
const JUMPS = new Set(\"JMP BEQ BLT CHK LOOP SNE\".split(\" \"));
// After these the next instruction does not run.
const LAST = new Set([\"JMP\", \"RET\"]);

// What the rules require, as `geos help check` says.
const RULES = {
  V1: \"control stays within the routine\",
  V2: \"a known pointer leads into a slot that is not empty\",
  V3: \"a routine begins as its entry row says\",
  V4: \"a pointer that is used is not stale\",
  V5: \"what is read or written lies within the known bytes\",
  V6: \"a block of a VM file is marked before it is changed\",
  V7: \"a block is locked into an empty slot\",
  V8: \"a slot has a block of the required kind\",
  V9: \"no block of the VM file is locked at a commit\",
  V10: \"a call gives what the called routine requires\",
  V11: \"a routine returns with what its exit row says\",
  V12: \"what is known holds on each path\",
  V13: \"each step is paid for\",
  V14: \"the steps are within the budget\",
};

// What words of the rules mean.
const MEANINGS = { V4: \"A pointer is stale if its bytes may have moved, or may be gone.\" };

// What items mean of which the page knows some: for each kind the first one, in words.
const KINDS_OF_BLOCKS = { mem: \"a block of memory\", vm: \"a block of the VM file\", db: \"a group of the VM file\" };
const LEGEND = [
  [/\\bw\\d<=\\d+/, (item, [word, most]) => `w${word} is at most ${most}`],
  [/\\bs\\d=(mem|vm|db)[@!]*/, (item, [slot]) => `slot s${slot} has ${KINDS_OF_BLOCKS[/mem|vm|db/.exec(item)]}`],
  [/\\bs\\d#s\\d/, (item, [one, other]) => `slots s${one} and s${other} have different blocks`],
  [/\\bp\\d=s\\d:\\d+/, (item, [pointer, slot, bytes]) => `pointer p${pointer} leads to ${bytes} bytes or more of the block in s${slot}`],
];

function legend_of(lines) {
  return LEGEND.flatMap(([form, said]) => {
    const item = lines.map(({ known }) => form.exec(known)).find((found) => found)?.[0];
    return item ? [`${item}: ${said(item, item.match(/\\d+/g))}`] : [];
  });
}

// A line of the page: its number or pc, its code, and what is known there.
class Line {
  constructor(number, code, known, pc) {
    [this.number, this.code, this.pc] = [number, code.replace(/\\r$/, \"\"), pc];
    const steps = /(?:^|, )([^,]*\\bsteps?)$/.exec(known);
    this.steps = steps ? steps[1] : \"\";
    this.known = steps ? known.slice(0, steps.index) : known;
    this.findings = [];
    this.causes = [];
    this.read(this.code.split(\";\")[0].trim().split(/\\s+/).filter((word) => word));
  }

  read(words) {
    this.labels = [];
    while (words.length && words[0].endsWith(\":\")) this.labels.push(words.shift().slice(0, -1));
    const head = words[0] || \"\";
    this.routine = head === \"routine\" ? { name: words[1] || \"\", is_public: words.includes(\"public\"), budget: words[words.indexOf(\"budget\") + 1] || \"\" } : null;
    this.op = /^[A-Z]/.test(head) ? head : \"\";
    this.words = words;
  }

  get text() {
    return this.words.join(\" \");
  }

  // The name of the label to which it may go.
  get target() {
    return this.op && !PLAIN.has(this.op) ? this.words[this.words.length - 1] : \"\";
  }

  get is_blank() {
    return !this.code.trim() && !this.findings.length;
  }

  get id() {
    return \"L\" + this.number;
  }
}

function line_of_text(line) {
  const { number, code, known } = explained_line(line);
  return number ? new Line(number, code, known, null) : null;
}

function line_of_listing(line) {
  if (line.startsWith(\";\")) return null;
  const { code, known } = explained_line(line);
  const place = /^(\\S+) (\\d+): (.*)$/.exec(known);
  return place ? new Line(place[2], code, place[3], +place[2]) : new Line(\"\", code, \"\", null);
}

const READERS = { text: line_of_text, listing: line_of_listing, faulty: (line, row) => new Line(String(row + 1), line, \"\", null) };

// All that the page shows.
class Explained {
  constructor(text, objects) {
    [this.page] = objects;
    this.lines = lines_of(text).map(READERS[this.page.shows]).filter((line) => line);
    this.findings = objects.filter((o) => o.kind === \"error\" || o.kind === \"warning\");
    this.more = objects.filter((o) => o.kind === \"more\").reduce((sum, o) => sum + o.count, 0);
    this.effects = new Map(objects.filter((o) => o.kind === \"effects\").map((o) => [o.routine, o.effects]));
    this.by_number = new Map(this.lines.map((line) => [line.number, line]));
    this.findings.forEach((finding, n) => this.place(finding, n));
    this.routines = this.parts();
  }

  place(finding, n) {
    const is_listing = this.page.shows === \"listing\";
    finding.at = this.by_number.get(String(is_listing ? finding.pc : finding.line));
    finding.cause = is_listing ? undefined : this.by_number.get(String(finding.cause_line));
    finding.id = \"F\" + n;
    finding.at?.findings.push(finding);
    if (finding.cause && finding.cause !== finding.at) finding.cause.causes.push(finding);
  }

  // The lines of each routine, with the comments before it.
  parts() {
    const parts = [];
    let part = [];
    for (const line of this.lines) {
      if (line.routine) {
        let from = part.length;
        while (from && !part[from - 1].words.length && !part[from - 1].labels.length) from--;
        if (parts.length) parts[parts.length - 1].lines.push(...part.slice(0, from));
        parts.push({ ...line.routine, lines: [...part.slice(parts.length ? from : 0), line] });
        part = [];
      } else {
        part.push(line);
      }
    }
    if (!parts.length) return [{ name: \"\", lines: part }];
    parts[parts.length - 1].lines.push(...part);
    for (const { lines } of parts) {
      while (lines[0].is_blank) lines.shift();
      while (lines[lines.length - 1].is_blank) lines.pop();
    }
    return parts;
  }
}

// A loop of a routine: from its label to LOOP, what an iteration costs, and how often it runs.
function loop_of(code, head, end) {
  const counter = code[end].words[1];
  const cost = new RegExp(\"(\\\\d*) ?\\\\b\" + counter + \"\\\\b\").exec(code[end].steps);
  return { head: code[head], end: code[end], counter, steps: cost ? +(cost[1] || 1) : null, most: most_rounds(code, head, counter) };
}

// How often a loop runs at most, if one instruction sets its counter to a number, or to a word with a bound.
function most_rounds(code, head, counter) {
  const sets = code.filter((line) => /^SETKW?$/.test(line.op) && line.words[1] === counter);
  const before = sets.filter((line) => code.indexOf(line) < head);
  if (!before.length || sets.length > 1) return null;
  const [{ op, words, known }] = before;
  const bound = op === \"SETK\" ? words[2] : new RegExp(\"\\\\b\" + words[2] + \"<=(\\\\d+)\").exec(known)?.[1];
  return bound === undefined ? null : +bound + 1;
}

// A heap of chunks in the bytes of a block, as docs/HEAPS.md describes it. Each call does what the crate lmem_heap does, byte for byte.

const [BLOCK_SIZE, ENTRIES, FIRST_FREE, TOTAL_FREE, TABLE] = [8, 10, 12, 14, 16];
const NO_BYTE = 0xffff;
const [NEW_BLOCK, MOST_BLOCK] = [64, 65520];

// The numbers of refusals.
const REFUSED = {
  handle: 1, chunk: 2, short: 3, room: 4, handles: 5, big: 6, locked: 7, array: 8, element: 9, full: 10, range: 14, reserved: 15,
};

// What a refused call throws.
class Refusal {
  /** @param {number} number */
  constructor(number) {
    this.number = number;
  }
}

// What a call throws if the block has to grow first.
class NeedMore {
  /** @param {number} size the size in bytes that the block needs */
  constructor(size) {
    this.size = size;
  }
}

/** Throws a refusal unless a condition holds. */
function require_that(holds, number) {
  if (!holds) throw new Refusal(number);
}

/** The bytes that a chunk of n bytes takes. */
const cost = (n) => n === 0 ? 0 : (n + 5) >> 2 << 2;

/**
 * @typedef {{at: number, len: number}} Place where bytes begin, and how many they are
 * @typedef {{link: number, at: number, end: number}} Hole bytes of no chunk, and the word that names the next free chunk
 */

class Heap {
  /** @param {Uint8Array} bytes the bytes of the block */
  constructor(bytes) {
    this.bytes = bytes;
  }

  /** Makes a block of zeros an empty heap. */
  begin(handle) {
    const first = TABLE + 4;
    const free = this.bytes.length - first;
    [handle, TABLE, 0, 0, this.bytes.length, 2, first, free, 0, 0, free, 0].forEach((word, n) => this.put(2 * n, word));
  }

  get(at) {
    return this.bytes[at] | this.bytes[at + 1] << 8;
  }

  put(at, word) {
    this.bytes[at] = word;
    this.bytes[at + 1] = word >> 8;
  }

  entry(i) {
    return this.get(TABLE + 2 * i);
  }

  put_entry(i, word) {
    this.put(TABLE + 2 * i, word);
  }

  get entries() {
    return this.get(ENTRIES);
  }

  /** The index of a chunk's entry. */
  find(chunk) {
    const i = (chunk - TABLE) / 2;
    require_that(chunk >= TABLE && chunk % 2 === 0 && i < this.entries && this.entry(i) !== 0, REFUSED.chunk);
    return i;
  }

  /** @returns {Place} where the bytes of an entry's chunk are in the block */
  place_of(i) {
    const at = this.entry(i);
    return at === NO_BYTE ? { at: 0, len: 0 } : { at, len: this.get(at - 2) - 2 };
  }

  /** @returns {Place} */
  place(chunk) {
    return this.place_of(this.find(chunk));
  }

  /** @returns {(Place & {chunk: number})[]} the chunks by their handles */
  chunks() {
    const all = [];
    for (let i = 0; i < this.entries; i++) {
      if (this.entry(i) !== 0) all.push({ chunk: TABLE + 2 * i, ...this.place_of(i) });
    }
    return all;
  }

  alloc(len) {
    const i = this.lowest_entry();
    const used = this.used + cost(len);
    this.test_room(i === this.entries ? used + 4 : used);
    if (i === this.entries) this.grow_table();
    this.make_chunk(i, len);
    return TABLE + 2 * i;
  }

  free(chunk) {
    this.release(this.find(chunk));
  }

  realloc(chunk, len) {
    this.resize(this.find(chunk), len);
  }

  insert(chunk, at, count) {
    const i = this.find(chunk);
    const { len } = this.place_of(i);
    require_that(at <= len, REFUSED.range);
    this.resize(i, len + count);
    const begin = this.place_of(i).at + at;
    this.move(begin, begin + count, len - at);
    this.clear(begin, count);
  }

  delete(chunk, at, count) {
    const i = this.find(chunk);
    const { at: begin, len } = this.place_of(i);
    require_that(at + count <= len, REFUSED.range);
    this.move(begin + at + count, begin + at, len - (at + count));
    this.resize_chunk(i, len - count);
  }

  /** Moves the chunks together. */
  contract() {
    while (!this.is_compact) this.close_gap();
  }

  /** Makes the bytes free by which the block has grown. */
  enlarge(old_size) {
    this.put(BLOCK_SIZE, this.bytes.length);
    this.give_back(this.hole_at(old_size, this.bytes.length));
  }

  get used() {
    return this.bytes.length - this.get(TOTAL_FREE);
  }

  test_room(used) {
    if (used <= this.bytes.length) return;
    const size = (used + 15) >> 4 << 4;
    require_that(size <= MOST_BLOCK, REFUSED.big);
    throw new NeedMore(size);
  }

  lowest_entry() {
    let i = 0;
    while (i < this.entries && this.entry(i) !== 0) i++;
    return i;
  }

  move(from, to, count) {
    this.bytes.copyWithin(to, from, from + count);
  }

  clear(at, count) {
    this.bytes.fill(0, at, at + count);
  }

  /** Moves chunks, with their entries. */
  move_run(from, end, to) {
    if (from === to) return;
    this.move(from, to, end - from);
    for (let i = 0; i < this.entries; i++) {
      const at = this.entry(i);
      if (from < at && at < end) this.put_entry(i, at - from + to);
    }
  }

  /** Packs the heap, and makes room for two entries. */
  grow_table() {
    this.contract();
    const n = this.entries;
    const [end, at] = [TABLE + 2 * n, this.used];
    this.move_run(end, at, end + 4);
    this.put(end, 0);
    this.put(end + 2, 0);
    this.put(ENTRIES, n + 2);
    this.set_tail(at + 4);
  }

  /** All bytes from here on are one free chunk. */
  set_tail(at) {
    const free = this.bytes.length - at;
    this.put(TOTAL_FREE, free);
    this.put(FIRST_FREE, free ? at : 0);
    if (!free) return;
    this.put(at, free);
    this.put(at + 2, 0);
  }

  make_chunk(i, n) {
    if (this.place_chunk(i, n)) return;
    this.contract();
    this.place_chunk(i, n);
  }

  place_chunk(i, n) {
    if (n === 0) {
      this.put_entry(i, NO_BYTE);
      return true;
    }
    const hole = this.first_fit(cost(n));
    if (hole) this.fill(this.take(hole, cost(n)), i, 0, n);
    return hole !== null;
  }

  release(i) {
    if (this.entry(i) === NO_BYTE) this.put_entry(i, 0);
    else this.give_back(this.hole_of(i));
  }

  resize(i, n) {
    this.test_room(this.used - cost(this.place_of(i).len) + cost(n));
    this.resize_chunk(i, n);
  }

  resize_chunk(i, n) {
    if (n === 0 || this.entry(i) === NO_BYTE) {
      this.release(i);
      this.make_chunk(i, n);
    } else if (!this.resize_beside(i, n) && !this.move_away(i, n)) {
      this.contract();
      this.resize_packed(i, n);
    }
  }

  /** Writes the new length, and zeros after the old bytes. */
  set_length(i, n) {
    const { at, len } = this.place_of(i);
    this.put(at - 2, n + 2);
    this.clear(at + len, Math.max(0, n - len));
  }

  resize_beside(i, n) {
    const { len } = this.place_of(i);
    if (cost(len) === cost(n)) {
      this.set_length(i, n);
      return true;
    }
    const hole = this.hole_of(i);
    const wide = this.widen(hole, cost(n));
    if (wide) this.give_back(this.fill(wide, i, len, n));
    else this.fill(hole, i, len, len);
    return wide !== null;
  }

  move_away(i, n) {
    const found = this.first_fit(cost(n));
    if (!found) return false;
    const hole = this.take(found, cost(n));
    const { at, len } = this.place_of(i);
    const keep = Math.min(len, n);
    this.put_entry(i, hole.at + 2);
    this.put(hole.at, n + 2);
    this.move(at, hole.at + 2, keep);
    this.clear(hole.at + 2 + keep, n - keep);
    this.give_back(this.hole_at(at - 2, at - 2 + cost(len)));
    return true;
  }

  /** Resizes a chunk in a packed heap: the chunks after it move. */
  resize_packed(i, n) {
    const { at, len } = this.place_of(i);
    const [from, until, end] = [at - 2 + cost(len), this.used, at - 2 + cost(n)];
    this.move_run(from, until, end);
    this.set_length(i, n);
    this.set_tail(end + until - from);
  }

  get is_compact() {
    const first = this.get(FIRST_FREE);
    return first === 0 || first + this.get(first) === this.bytes.length;
  }

  /** The chunks after the first free chunk move down, and it joins the next free chunk. */
  close_gap() {
    const first = this.get(FIRST_FREE);
    const [size, next] = [this.get(first), this.get(first + 2)];
    const end = next || this.bytes.length;
    const [more, after] = next ? [this.get(next), this.get(next + 2)] : [0, 0];
    this.move_run(first + size, end, first);
    this.put(end - size, size + more);
    this.put(end - size + 2, after);
    this.put(FIRST_FREE, end - size);
  }

  /** @returns {Hole} a hole, with the word that names the first free chunk after it */
  hole_at(at, end) {
    let link = FIRST_FREE;
    for (let next = this.get(link); next !== 0 && next < at; next = this.get(link)) link = next + 2;
    return { link, at, end };
  }

  /** Removes a chunk, and leaves a hole. */
  hole_of(i) {
    const { at, len } = this.place_of(i);
    this.put_entry(i, 0);
    return this.hole_at(at - 2, at - 2 + cost(len));
  }

  /** @returns {Hole | null} an empty hole before the first free chunk that is large enough */
  first_fit(size) {
    let link = FIRST_FREE;
    for (let next = this.get(link); next !== 0; next = this.get(link)) {
      if (this.get(next) >= size) return { link, at: next, end: next };
      link = next + 2;
    }
    return null;
  }

  /** The front of the hole becomes the chunk of an entry. */
  fill({ link, at, end }, i, keep, n) {
    this.put_entry(i, at + 2);
    this.put(at, n + 2);
    this.clear(at + 2 + keep, Math.max(0, n - keep));
    return { link, at: at + cost(n), end };
  }

  /** Takes from the free chunk after a hole what the hole needs, if that is enough. */
  widen(hole, size) {
    const has = hole.end - hole.at;
    if (has >= size) return hole;
    const is_beside = this.get(hole.link) === hole.end;
    return is_beside && this.get(hole.end) >= size - has ? this.take(hole, size - has) : null;
  }

  /** The front of the free chunk after the hole joins the hole. */
  take({ link, at, end }, size) {
    const [left, next] = [this.get(end) - size, this.get(end + 2)];
    if (left) {
      this.put(end + size, left);
      this.put(end + size + 2, next);
    }
    this.put(link, left ? end + size : next);
    this.put(TOTAL_FREE, this.get(TOTAL_FREE) - size);
    return { link, at, end: end + size };
  }

  /** The hole's bytes are free, one chunk with the free chunks that touch it. */
  give_back(hole) {
    if (hole.at === hole.end) return;
    const is_beside = this.get(hole.link) === hole.end;
    const { link, at, end } = is_beside ? this.take(hole, this.get(hole.end)) : hole;
    const before = link - 2;
    this.put(TOTAL_FREE, this.get(TOTAL_FREE) + end - at);
    if (link !== FIRST_FREE && before + this.get(before) === at) {
      this.put(before, end - before);
      return;
    }
    const next = this.get(link);
    this.put(at, end - at);
    this.put(at + 2, next);
    this.put(link, at);
  }
}

// Arrays in chunks of a heap, as docs/ARRAYS.md describes them and the crate chunk_array makes them.

const HEADER = 8;

/** @typedef {{at: number, len: number, count: number, size: number}} Shape where an array is, its count, and the size of its elements */

class Arrays {
  /** @param {Heap} heap */
  constructor(heap) {
    this.heap = heap;
  }

  /** @returns {Shape} the array that a chunk's bytes encode */
  shape(chunk) {
    const { at, len } = this.heap.place(chunk);
    const word = (offset) => this.heap.get(at + offset);
    const has_header = len >= HEADER && word(4) === 0 && word(6) === HEADER;
    require_that(has_header, REFUSED.array);
    const shape = { at, len, count: word(0), size: word(2) };
    const fits = shape.size ? len === HEADER + shape.count * shape.size : this.are_offsets(shape);
    require_that(fits, REFUSED.array);
    return shape;
  }

  are_offsets({ at, len, count }) {
    const first = HEADER + 2 * count;
    if (count === 0) return len === first;
    if (first > len || this.heap.get(at + HEADER) !== first) return false;
    for (let i = 1; i < count; i++) {
      if (this.offset(at, i) < this.offset(at, i - 1)) return false;
    }
    return this.offset(at, count - 1) <= len;
  }

  offset(at, i) {
    return this.heap.get(at + HEADER + 2 * i);
  }

  put_offset(at, i, offset) {
    this.heap.put(at + HEADER + 2 * i, offset);
  }

  /** Where an element begins in its chunk. */
  start({ at, len, count, size }, i) {
    if (size) return HEADER + i * size;
    return i < count ? this.offset(at, i) : len;
  }

  /** @returns {Place} an element's place in the block */
  element(chunk, i) {
    const shape = this.shape(chunk);
    require_that(i < shape.count, REFUSED.element);
    const begin = this.start(shape, i);
    return { at: shape.at + begin, len: this.start(shape, i + 1) - begin };
  }

  create(size) {
    const chunk = this.heap.alloc(HEADER);
    this.put_header(chunk, size);
    return chunk;
  }

  put_header(chunk, size) {
    const { at } = this.heap.place(chunk);
    [0, size, 0, HEADER].forEach((word, n) => this.heap.put(at + 2 * n, word));
  }

  clear(chunk) {
    const { len, size } = this.shape(chunk);
    this.heap.delete(chunk, HEADER, len - HEADER);
    this.put_header(chunk, size);
  }

  append(chunk, len) {
    this.insert_at(chunk, this.shape(chunk), this.shape(chunk).count, len);
  }

  insert(chunk, i, len) {
    const shape = this.shape(chunk);
    require_that(i <= shape.count, REFUSED.element);
    this.insert_at(chunk, shape, i, len);
  }

  insert_at(chunk, shape, i, len) {
    const begin = this.start(shape, i);
    const room = shape.size || len + 2;
    require_that(room <= 65535, REFUSED.big);
    this.heap.insert(chunk, begin, room);
    const { at } = this.heap.place(chunk);
    if (!shape.size) this.open_table(at, shape.count, i, begin, len);
    this.heap.put(at, shape.count + 1);
  }

  /** Inserts an element's offset into the table. */
  open_table(at, count, i, begin, len) {
    const here = at + HEADER + 2 * i;
    this.heap.move(here, here + 2, begin - (HEADER + 2 * i));
    this.shift(at, 0, i, 2);
    this.put_offset(at, i, begin + 2);
    this.shift(at, i + 1, count + 1, len + 2);
  }

  shift(at, from, to, by) {
    for (let i = from; i < to; i++) this.put_offset(at, i, this.offset(at, i) + by);
  }

  remove(chunk, i) {
    const shape = this.shape(chunk);
    require_that(i < shape.count, REFUSED.element);
    const begin = this.start(shape, i);
    const len = this.start(shape, i + 1) - begin;
    if (!shape.size) this.close_table(shape, i, begin, len);
    this.heap.put(shape.at, shape.count - 1);
    const room = shape.size || len + 2;
    this.heap.delete(chunk, begin + len - room, room);
  }

  /** Deletes an element's offset from the table. */
  close_table({ at, count }, i, begin, len) {
    const here = HEADER + 2 * i;
    this.heap.move(at + here + 2, at + here, begin - (here + 2));
    this.shift(at, 0, i, -2);
    this.shift(at, i, count - 1, -(len + 2));
  }

  resize(chunk, i, len) {
    const shape = this.shape(chunk);
    require_that(shape.size === 0, REFUSED.array);
    require_that(i < shape.count, REFUSED.element);
    const begin = this.start(shape, i);
    const has = this.start(shape, i + 1) - begin;
    if (len > has) this.heap.insert(chunk, begin + has, len - has);
    else this.heap.delete(chunk, begin + len, has - len);
    this.shift(this.heap.place(chunk).at, i + 1, shape.count, len - has);
  }
}

// The region with its blocks, as docs/BLOCKS.md describes it and the crate block_handles moves them.

const MOST_HANDLES = 1024;
const MOST_LOCKS = 65535;
const LEAST_ROOM = 4096;
// A freed block becomes the gap if it is larger than this share of the other free bytes.
const SHARE = 16;

/**
 * @typedef {{vm: boolean, handle: number}} Name a block's owner, global memory or the file, and its handle
 * @typedef {{key: string, name: Name, place: number, size: number, locks: number}} Entry a block in the region
 * @typedef {{at: number, end: number}} Gap
 */

/** @param {Name} name */
const key_of = ({ vm, handle }) => `${vm ? \"file block\" : \"block\"} ${handle}`;

class Blocks {
  /** @param {number} length the length of the region in bytes */
  constructor(length) {
    this.region = new Uint8Array(length);
    /** @type {Map<string, Entry>} */
    this.entries = new Map();
    /** @type {Gap} */
    this.gap = { at: 0, end: length };
    this.free_bytes = length;
  }

  /** The blocks in the order of their places. */
  in_order() {
    return [...this.entries.values()].sort((a, b) => a.place - b.place);
  }

  entry(name) {
    return this.entries.get(key_of(name));
  }

  locks(name) {
    return this.entry(name)?.locks ?? 0;
  }

  /** @returns {Heap} the heap in a block's bytes, which are those of the region */
  heap(name) {
    const { place, size } = this.entry(name);
    return new Heap(this.region.subarray(place, place + size));
  }

  lowest_handle() {
    for (let handle = 1; handle <= MOST_HANDLES; handle++) {
      if (!this.entry({ vm: false, handle })) return handle;
    }
    throw new Refusal(REFUSED.handles);
  }

  lock(name) {
    const entry = this.entry(name);
    require_that(entry, REFUSED.handle);
    require_that(entry.locks < MOST_LOCKS, REFUSED.locked);
    entry.locks++;
  }

  unlock(name) {
    this.entry(name).locks--;
  }

  free(name) {
    const entry = this.entry(name);
    require_that(entry, REFUSED.handle);
    require_that(entry.locks === 0, REFUSED.locked);
    this.entries.delete(entry.key);
    this.join_gap(entry.place, entry.place + entry.size);
    this.free_bytes += entry.size;
  }

  join_gap(from, end) {
    const { gap } = this;
    if (end === gap.at) gap.at = from;
    else if (from === gap.end) gap.end = end;
    else if (end - from > Math.max(gap.end - gap.at, Math.floor(this.free_bytes / SHARE))) this.gap = { at: from, end };
  }

  /** Makes a block of zeros. @returns {boolean} whether there was room */
  make(name, size) {
    if (this.free_bytes < size) return false;
    const key = key_of(name);
    const gap = this.room_for(this.gap, key, size);
    if (!gap) return false;
    this.region.fill(0, gap.at, gap.at + size);
    this.entries.set(key, { key, name, place: gap.at, size, locks: 0 });
    this.gap = { at: gap.at + size, end: gap.end };
    this.free_bytes -= size;
    return true;
  }

  /** Makes a block longer, by zeros. @returns {boolean} whether there was room */
  grow(name, size) {
    const entry = this.entry(name);
    const more = size - entry.size;
    if (this.free_bytes < more) return false;
    const is_before_gap = entry.place + entry.size === this.gap.at;
    const reaching = is_before_gap ? { ...this.gap, at: entry.place } : this.gap;
    const gap = this.room_for(reaching, entry.key, size);
    if (!gap) return false;
    this.move(entry, gap.at);
    this.region.fill(0, gap.at + entry.size, gap.at + size);
    entry.size = size;
    this.gap = { at: gap.at + size, end: gap.end };
    this.free_bytes -= more;
    return true;
  }

  move(entry, to) {
    this.region.copyWithin(to, entry.place, entry.place + entry.size);
    entry.place = to;
  }

  /** @returns {Gap | null} a free range with room for a block, whose own bytes count as free */
  room_for(gap, key, size) {
    if (gap.end - gap.at >= size) return gap;
    const least = Math.max(size, LEAST_ROOM);
    const found = this.next_roomy(this.gap.end, key, least) || this.next_roomy(0, key, least) || this.roomiest(key);
    return found.room < size ? null : this.pack(found, key);
  }

  /** The stretches between locked blocks, with the room in each. */
  stretches(after, but) {
    const found = [];
    let [from, taken] = [after, 0];
    for (const { key, place, size, locks } of this.in_order()) {
      if (place < after || key === but) continue;
      if (locks) {
        found.push({ from, until: place, room: place - from - taken });
        [from, taken] = [place + size, 0];
      } else {
        taken += size;
      }
    }
    const end = this.region.length;
    return [...found, { from, until: end, room: end - from - taken }];
  }

  next_roomy(after, but, least) {
    return this.stretches(after, but).find(({ room }) => room >= least);
  }

  roomiest(but) {
    return this.stretches(0, but).reduce((best, stretch) => stretch.room > best.room ? stretch : best, { from: 0, until: 0, room: 0 });
  }

  /** Moves the blocks of a stretch together. The blocks before the one that grows move down, and those after it up. */
  pack({ from, until }, key) {
    const own = this.entries.get(key);
    const is_within = own && from <= own.place && own.place < until;
    const within = this.in_order().filter(({ place }) => from <= place && place < until);
    const before = is_within ? within.filter(({ place }) => place < own.place) : within;
    let [at, end] = [from, until];
    for (const entry of before) {
      this.move(entry, at);
      at += entry.size;
    }
    if (!is_within) return { at, end };
    for (const entry of within.filter(({ place, key: other }) => place > own.place && other !== key).reverse()) {
      end -= entry.size;
      this.move(entry, end);
    }
    return { at, end };
  }
}

// Blocks of global memory and of a VM file, as docs/FILES.md describes them. The file is on a device in memory, which never fails.

const AREA = 65536;
const GROUP = 0xff00;

/**
 * @typedef {{uid: number, len: number, marked: boolean}} Listed a block of the current directory
 * @typedef {{uid: number, bytes: Uint8Array}} Kept a block as the device has it
 * @typedef {{blocks: Map<number, Kept>, map_block: number, map_item: [number, number]}} Directory
 */

const mem = (handle) => ({ vm: false, handle });
const vm = (handle) => ({ vm: true, handle });
const empty_directory = () => ({ blocks: new Map(), map_block: 0, map_item: [0, 0] });
/** How many bytes a directory takes in an area. */
const directory_length = (sizes) => sizes.reduce((sum, size) => sum + 6 + size, 8);

class Kernel {
  /** @param {number} region the length of the region in bytes */
  constructor(region) {
    this.blocks = new Blocks(region);
    /** @type {Map<number, Listed>} */
    this.listed = new Map();
    [this.map_block, this.map_item] = [0, [0, 0]];
    /** @type {Directory} */
    this.current = empty_directory();
    /** @type {Directory} */
    this.saved = empty_directory();
  }

  is_group(handle) {
    return this.listed.get(handle)?.uid === GROUP;
  }

  // Room in the region.

  /** Evicts an idle block. @returns {boolean} whether there was one */
  evict(but) {
    const order = this.blocks.in_order();
    const after = order.findIndex(({ place }) => place >= this.blocks.gap.end);
    const turned = after < 0 ? order : [...order.slice(after), ...order.slice(0, after)];
    const idle = turned.find((entry) => entry.key !== but && this.is_idle(entry));
    if (idle) this.blocks.free(idle.name);
    return idle !== undefined;
  }

  /** @param {Entry} entry */
  is_idle({ name, locks }) {
    return name.vm && locks === 0 && this.listed.get(name.handle)?.marked === false;
  }

  /** Evicts idle blocks until there is room. */
  make_room(name, more, is_made) {
    const but = key_of(name);
    while (this.blocks.free_bytes < more && this.evict(but));
    while (!is_made()) require_that(this.evict(but), REFUSED.room);
  }

  make_block(name, size) {
    this.make_room(name, size, () => this.blocks.make(name, size));
  }

  grow(name, size) {
    const old = this.blocks.entry(name).size;
    this.make_room(name, size - old, () => this.blocks.grow(name, size));
    this.blocks.heap(name).enlarge(old);
  }

  /** Does a call on the chunks of a block, again if the block had to grow. */
  on_chunks(name, call) {
    try {
      return call(this.blocks.heap(name));
    } catch (why) {
      if (!(why instanceof NeedMore)) throw why;
      this.grow(name, why.size);
      return call(this.blocks.heap(name));
    }
  }

  // Global memory.

  mnew() {
    const name = mem(this.blocks.lowest_handle());
    this.make_block(name, NEW_BLOCK);
    this.blocks.heap(name).begin(name.handle);
    this.blocks.lock(name);
    return name.handle;
  }

  // The file.

  lowest_listed() {
    for (let handle = 1; handle <= MOST_HANDLES; handle++) {
      if (!this.listed.has(handle)) return handle;
    }
    throw new Refusal(REFUSED.handles);
  }

  make_listed(uid) {
    const handle = this.lowest_listed();
    this.make_block(vm(handle), NEW_BLOCK);
    this.blocks.heap(vm(handle)).begin(handle);
    this.listed.set(handle, { uid, len: NEW_BLOCK, marked: true });
    return handle;
  }

  vnew(uid) {
    require_that(uid !== GROUP, REFUSED.reserved);
    const handle = this.make_listed(uid);
    this.blocks.lock(vm(handle));
    return handle;
  }

  /** Brings a block of the file into memory. */
  bring(handle) {
    const listed = this.listed.get(handle);
    require_that(listed, REFUSED.handle);
    if (this.blocks.entry(vm(handle))) return;
    this.make_block(vm(handle), listed.len);
    this.blocks.heap(vm(handle)).bytes.set(this.current.blocks.get(handle).bytes);
  }

  vlock(handle) {
    require_that(!this.is_group(handle), REFUSED.reserved);
    this.bring(handle);
    this.blocks.lock(vm(handle));
  }

  mark(handle) {
    const listed = this.listed.get(handle);
    if (listed) listed.marked = true;
  }

  free_listed(handle) {
    require_that(this.listed.has(handle), REFUSED.handle);
    require_that(this.blocks.locks(vm(handle)) === 0, REFUSED.locked);
    if (this.blocks.entry(vm(handle))) this.blocks.free(vm(handle));
    this.listed.delete(handle);
    if (this.map_block === handle) this.map_block = 0;
    if (this.map_item[0] === handle) this.map_item = [0, 0];
  }

  vfree(handle) {
    require_that(!this.is_group(handle), REFUSED.reserved);
    this.free_listed(handle);
  }

  vfind(start, uid) {
    require_that(uid !== GROUP, REFUSED.reserved);
    const found = [...this.listed].filter(([handle, listed]) => handle > start && listed.uid === uid).map(([handle]) => handle);
    return found.length ? Math.min(...found) : 0;
  }

  vuid(handle) {
    require_that(this.listed.has(handle), REFUSED.handle);
    return this.listed.get(handle).uid;
  }

  vsetmap(handle) {
    require_that(handle === 0 || this.listed.has(handle), REFUSED.handle);
    require_that(!this.is_group(handle), REFUSED.reserved);
    this.map_block = handle;
  }

  // Commits.

  /** @returns {Directory} the current directory, with the bytes that its blocks have now */
  directory() {
    const handles = [...this.listed.keys()].sort((a, b) => a - b);
    const blocks = new Map(handles.map((handle) => [handle, { uid: this.listed.get(handle).uid, bytes: this.bytes_now(handle) }]));
    return { blocks, map_block: this.map_block, map_item: [...this.map_item] };
  }

  bytes_now(handle) {
    const entry = this.blocks.entry(vm(handle));
    return entry ? this.blocks.region.slice(entry.place, entry.place + entry.size) : this.current.blocks.get(handle).bytes;
  }

  commit(current, saved) {
    const length = ({ blocks }) => directory_length([...blocks.values()].map(({ bytes }) => bytes.length));
    require_that(length(current) + length(saved) <= AREA, REFUSED.big);
    [this.current, this.saved] = [current, saved];
    this.listed = new Map([...current.blocks].map(([handle, { uid, bytes }]) => [handle, { uid, len: bytes.length, marked: false }]));
    [this.map_block, this.map_item] = [current.map_block, current.map_item];
  }

  update() {
    this.commit(this.directory(), this.saved);
  }

  save() {
    const now = this.directory();
    this.commit(now, now);
  }

  revert() {
    this.commit(this.saved, this.saved);
    for (let handle = 1; handle <= MOST_HANDLES; handle++) {
      const entry = this.blocks.entry(vm(handle));
      if (entry?.locks === 0) this.blocks.free(vm(handle));
    }
  }

  // Groups and items.

  gfree(group) {
    require_that(this.is_group(group), REFUSED.handle);
    this.free_listed(group);
  }

  bring_group(group) {
    require_that(this.is_group(group), REFUSED.handle);
    this.bring(group);
  }

  on_group(group, call) {
    this.bring_group(group);
    const result = this.on_chunks(vm(group), call);
    this.mark(group);
    return result;
  }

  /** Locks a group. @returns {Place} the place of an item of it in the region */
  ilock(group, item, least) {
    require_that(!this.is_group(group) || this.blocks.locks(vm(group)) < MOST_LOCKS, REFUSED.locked);
    this.bring_group(group);
    const place = this.place(vm(group), (heap) => heap.place(item), least);
    this.blocks.lock(vm(group));
    return place;
  }

  /** @returns {Place} the place in the region of bytes of a block */
  place(name, find, least) {
    const { at, len } = find(this.blocks.heap(name));
    require_that(len >= least, REFUSED.short);
    return { at: this.blocks.entry(name).place + at, len };
  }

  isetmap(group, item) {
    require_that(group === 0 || this.is_group(group), REFUSED.handle);
    require_that(group !== 0 || item === 0, REFUSED.range);
    this.map_item = [group, item];
  }
}

// A small model of the machine, for pictures: what each instruction does, and when it is a fault (docs/INSTRUCTIONS.md, docs/MODEL.md).

const MOST_OUTPUT = 1024;
const MOST_CALLS = 32;

/**
 * @typedef {\"mem\" | \"vm\" | \"db\"} Kind what kind of block a slot contains
 * @typedef {{kind: Kind, borrowed: boolean}} Held
 * @typedef {{step: number, pc: number}} Since the step after which a pointer is stale, and its instruction
 * @typedef {{name: Name, slot: number, chunk: number, element: number | null, offset: number, at: number, len: number, set: number, stale: Since | null}} Target
 *   what a pointer was set to: bytes of a chunk, their place then, the step that set it, and since when it is stale
 * @typedef {{pointer: number, offset: number, count: number, writes: boolean}} Access
 * @typedef {{rule: string, said: string, access: Access | null}} Fault
 * @typedef {{op: string, operands: number[], target: number | null, routine: number, line: object}} Instr
 */

/** @returns {Fault} */
const fault = (rule, said, access = null) => ({ rule, said, access });

const KIND_WORDS = { mem: \"block of memory\", vm: \"block of the file\", db: \"group\" };

// Tests for faults. Each returns the fault, or nothing.

const locks_into = (m, s) => m.held[s] ? fault(\"V7\", `s${s} is not empty`) : null;
const uses_slot = (m, s) => m.held[s] ? null : fault(\"V8\", `s${s} is empty`);
const commits = (m) => m.held.some((held) => held && held.kind !== \"mem\") ? fault(\"V9\", \"a slot contains a block of the file\") : null;

/** An instruction that needs a kind of block in a slot. */
function needs(kind, unlocks = false) {
  return (m, s) => {
    if (m.held[s]?.kind !== kind) return fault(\"V8\", m.held[s] ? `s${s} contains a ${KIND_WORDS[m.held[s].kind]}` : `s${s} is empty`);
    return unlocks && m.held[s].borrowed ? fault(\"V8\", `s${s} is borrowed`) : null;
  };
}

function compares(m, s, t) {
  if (m.held[s] && m.held[s].kind === m.held[t]?.kind) return null;
  return fault(\"V8\", `s${s} and s${t} do not contain blocks of one kind`);
}

/** The first slot whose kind of block differs from a row's. */
const differing_slot = (m, { slots }) => [0, 1, 2, 3].find((s) => m.held[s]?.kind !== slots.get(s)?.kind);

function calls_as_required(m, n) {
  if (m.stack.length >= MOST_CALLS) return fault(\"V10\", `${MOST_CALLS} calls have not returned`);
  const { name, entry } = m.program.routines[n];
  if (n >= m.routine) return fault(\"V10\", `${name} does not come before this routine`);
  const slot = differing_slot(m, entry);
  const pointer = [...entry.pointers].find(([p, { slot: s, len }]) => !m.targets[p] || m.targets[p].stale || m.targets[p].slot !== s || m.targets[p].len < len);
  if (slot === undefined && !pointer) return null;
  return fault(\"V10\", `${slot === undefined ? `p${pointer[0]}` : `s${slot}`} is not as ${name} requires`);
}

function returns_as_promised(m) {
  const slot = differing_slot(m, m.program.routines[m.routine].exit);
  return slot === undefined ? null : fault(\"V11\", m.held[slot] ? `s${slot} still contains a ${KIND_WORDS[m.held[slot].kind]}` : `s${slot} is empty`);
}

const is_unmarked = (m, name) => name.vm && !m.kernel.listed.get(name.handle)?.marked;

function changes_chunks(m, s) {
  if (!m.held[s]) return uses_slot(m, s);
  return is_unmarked(m, m.names[s]) ? fault(\"V6\", `the block of s${s} is not marked`) : null;
}

/** The use of a pointer's bytes; `count` is null if their number is tested at run time, or is not used. */
function uses_pointer(m, pointer, offset, count, writes) {
  const target = m.targets[pointer];
  const access = { pointer, offset, count: count ?? 1, writes };
  if (!target) return fault(\"V4\", `p${pointer} was never set`);
  if (target.stale) return fault(\"V4\", `p${pointer} is stale`, access);
  if (count !== null && offset + count > target.len) return fault(\"V5\", `p${pointer} has ${target.len} bytes`, access);
  return writes && is_unmarked(m, target.name) ? fault(\"V6\", `the block of p${pointer} is not marked`, access) : null;
}

const fixed = (count, writes) => (m, a, p, n) => uses_pointer(m, p, n, count, writes);
const indexed = (count, writes) => (m, a, p, c) => uses_pointer(m, p, m.words[c], count, writes);
const tested = (count, writes) => (m, a, p, c) => {
  const found = uses_pointer(m, p, m.words[c], null, writes);
  if (found?.access) found.access.count = count;
  return found;
};
const copies = (m, p, q, n) => uses_pointer(m, p, 0, n, true) || uses_pointer(m, q, 0, n, false);
const reads_pointer = (m, a, p) => uses_pointer(m, p, 0, null, false);

// What instructions do. A refused one throws; one that returns `true` jumps to its label.

const load = (m, a, p, offset, count) => m.set_word(a, m.read(m.spans[p].at + offset, count));
const store = (m, a, p, offset, count) => m.write(m.spans[p].at + offset, m.words[a], count);
const in_range = (m, p, offset, count) => require_that(offset + count <= m.spans[p].len, REFUSED.range);

/** An instruction that reads or writes after a test of its index. */
const in_bounds = (does, count) => (m, a, p, c) => {
  in_range(m, p, m.words[c], count);
  does(m, a, p, m.words[c], count);
};

/** A call on the chunks of a slot's block. The chunks move, also if it is refused. */
const on_slot = (call) => (m, s, ...operands) => {
  m.chunks_move(m.names[s]);
  return m.kernel.on_chunks(m.names[s], (heap) => call(m, heap, ...operands));
};

/** The same for the group in a word. */
const on_group = (call) => (m, a, ...operands) => {
  const group = m.words[a];
  m.chunks_move(vm(group));
  return m.kernel.on_group(group, (heap) => call(m, heap, ...operands));
};

/** A call that makes a chunk in the slot's block, and sets a word to its handle. */
const makes = (call) => (m, s, b, ...operands) => {
  m.chunks_move(m.names[s]);
  m.set_word(b, m.kernel.on_chunks(m.names[s], (heap) => call(m, heap, ...operands)));
};

const array_of = (heap) => new Arrays(heap);
const w = (m, n) => m.words[n];

const free_chunk = (m, heap, b) => heap.free(w(m, b));
const realloc_chunk = (m, heap, b, c) => heap.realloc(w(m, b), w(m, c));
const insert_bytes = (m, heap, b, c, d) => heap.insert(w(m, b), w(m, c), w(m, d));
const delete_bytes = (m, heap, b, c, d) => heap.delete(w(m, b), w(m, c), w(m, d));

function lock_into(m, s, kind, name) {
  [m.names[s], m.held[s]] = [name, { kind, borrowed: false }];
}

function copy_pointer(m, p, q) {
  [m.spans[p], m.targets[p]] = [{ ...m.spans[q] }, { ...m.targets[q], set: m.steps + 1 }];
}

const make_item = on_group((m, heap, c) => heap.alloc(w(m, c)));
const unlock = (m, s) => m.unlock(s);

/**
 * For each instruction its operands (w word, k counter, s slot, p pointer, n number, L label, R routine), what it does, and when it is a
 * fault.
 * @type {Record<string, [string, Function, Function?]>}
 */
const INSTRUCTIONS = {
  LDI: [\"w n\", (m, a, n) => m.set_word(a, n)],
  MOV: [\"w w\", (m, a, b) => m.set_word(a, w(m, b))],
  ADD: [\"w w w\", (m, a, b, c) => m.set_word(a, w(m, b) + w(m, c))],
  SUB: [\"w w w\", (m, a, b, c) => m.set_word(a, w(m, b) - w(m, c))],
  AND: [\"w w n\", (m, a, b, n) => m.set_word(a, w(m, b) & n)],
  SHR: [\"w w n\", (m, a, b, n) => m.set_word(a, w(m, b) >> n)],
  MULI: [\"w w n\", (m, a, b, n) => m.set_word(a, w(m, b) * n)],
  CHK: [\"w n L\", (m, a, n) => w(m, a) > n],
  JMP: [\"L\", () => true],
  BEQ: [\"w w L\", (m, a, b) => w(m, a) === w(m, b)],
  BLT: [\"w w L\", (m, a, b) => w(m, a) < w(m, b)],
  SETK: [\"k n\", (m, a, n) => { m.counters[a] = n; }],
  SETKW: [\"k w\", (m, a, b) => { m.counters[a] = w(m, b); }],
  LOOP: [\"k L\", (m, a) => m.counters[a] > 0 && m.counters[a]-- > 0],
  CALL: [\"R\", (m, n) => m.call(n), calls_as_required],
  RET: [\"\", (m) => m.return(), returns_as_promised],
  OUT: [\"w L\", (m, a) => m.put_out(w(m, a))],
  MNEW: [\"s w L\", (m, s, b) => {
    const handle = m.kernel.mnew();
    m.set_word(b, handle);
    lock_into(m, s, \"mem\", mem(handle));
  }, locks_into],
  MLOCK: [\"s w L\", (m, s, b) => {
    m.kernel.blocks.lock(mem(w(m, b)));
    lock_into(m, s, \"mem\", mem(w(m, b)));
  }, locks_into],
  MUNLOCK: [\"s\", unlock, needs(\"mem\", true)],
  MFREE: [\"w L\", (m, a) => m.kernel.blocks.free(mem(w(m, a)))],
  SNE: [\"s s L\", (m, s, t) => key_of(m.names[s]) === key_of(m.names[t]), compares],
  LALLOC: [\"s w w L\", makes((m, heap, c) => heap.alloc(w(m, c))), changes_chunks],
  LFREE: [\"s w L\", on_slot(free_chunk), changes_chunks],
  LREALLOC: [\"s w w L\", on_slot(realloc_chunk), changes_chunks],
  LINS: [\"s w w w L\", on_slot(insert_bytes), changes_chunks],
  LDEL: [\"s w w w L\", on_slot(delete_bytes), changes_chunks],
  LSIZE: [\"s w w L\", (m, s, b, c) => m.set_word(b, m.heap(s).place(w(m, c)).len), uses_slot],
  DEREF: [\"s p w n L\", (m, s, p, c, n) => m.point(p, s, m.names[s], w(m, c), null, n), uses_slot],
  LCONTRACT: [\"s\", on_slot((m, heap) => heap.contract()), changes_chunks],
  LDB: [\"w p n\", (m, a, p, n) => load(m, a, p, n, 1), fixed(1, false)],
  LDW: [\"w p n\", (m, a, p, n) => load(m, a, p, n, 2), fixed(2, false)],
  STB: [\"w p n\", (m, a, p, n) => store(m, a, p, n, 1), fixed(1, true)],
  STW: [\"w p n\", (m, a, p, n) => store(m, a, p, n, 2), fixed(2, true)],
  LDXB: [\"w p w\", (m, a, p, c) => load(m, a, p, w(m, c), 1), indexed(1, false)],
  LDXW: [\"w p w\", (m, a, p, c) => load(m, a, p, w(m, c), 2), indexed(2, false)],
  STXB: [\"w p w\", (m, a, p, c) => store(m, a, p, w(m, c), 1), indexed(1, true)],
  STXW: [\"w p w\", (m, a, p, c) => store(m, a, p, w(m, c), 2), indexed(2, true)],
  LDCB: [\"w p w L\", in_bounds(load, 1), tested(1, false)],
  LDCW: [\"w p w L\", in_bounds(load, 2), tested(2, false)],
  STCB: [\"w p w L\", in_bounds(store, 1), tested(1, true)],
  STCW: [\"w p w L\", in_bounds(store, 2), tested(2, true)],
  MOVP: [\"p p\", copy_pointer, (m, p, q) => reads_pointer(m, p, q)],
  COPY: [\"p p n\", (m, p, q, n) => m.copy(m.spans[p].at, m.spans[q].at, n), copies],
  PLEN: [\"w p\", (m, a, p) => m.set_word(a, m.spans[p].len), reads_pointer],
  CANEW: [\"s w n L\", makes((m, heap, n) => array_of(heap).create(n)), changes_chunks],
  CAADD: [\"s w w L\", on_slot((m, heap, b, c) => array_of(heap).append(w(m, b), w(m, c))), changes_chunks],
  CAINS: [\"s w w w L\", on_slot((m, heap, b, c, d) => array_of(heap).insert(w(m, b), w(m, c), w(m, d))), changes_chunks],
  CADEL: [\"s w w L\", on_slot((m, heap, b, c) => array_of(heap).remove(w(m, b), w(m, c))), changes_chunks],
  CACOUNT: [\"s w w L\", (m, s, b, c) => m.set_word(b, array_of(m.heap(s)).shape(w(m, c)).count), uses_slot],
  CAELT: [\"s p w w n L\", (m, s, p, c, d, n) => m.point(p, s, m.names[s], w(m, c), w(m, d), n), uses_slot],
  CAZERO: [\"s w L\", on_slot((m, heap, b) => array_of(heap).clear(w(m, b))), changes_chunks],
  CARESIZE: [\"s w w w L\", on_slot((m, heap, b, c, d) => array_of(heap).resize(w(m, b), w(m, c), w(m, d))), changes_chunks],
  VNEW: [\"s w w L\", (m, s, b, c) => {
    const handle = m.kernel.vnew(w(m, c));
    m.set_word(b, handle);
    lock_into(m, s, \"vm\", vm(handle));
  }, locks_into],
  VLOCK: [\"s w L\", (m, s, b) => {
    m.kernel.vlock(w(m, b));
    lock_into(m, s, \"vm\", vm(w(m, b)));
  }, locks_into],
  VDIRTY: [\"s\", (m, s) => m.kernel.mark(m.names[s].handle), needs(\"vm\")],
  VUNLOCK: [\"s\", unlock, needs(\"vm\", true)],
  VFREE: [\"w L\", (m, a) => m.kernel.vfree(w(m, a))],
  VFIND: [\"w w w L\", (m, a, b, c) => m.set_word(a, m.kernel.vfind(w(m, b), w(m, c)))],
  VUID: [\"w w L\", (m, a, b) => m.set_word(a, m.kernel.vuid(w(m, b)))],
  VGETMAP: [\"w\", (m, a) => m.set_word(a, m.kernel.map_block)],
  VSETMAP: [\"w L\", (m, a) => m.kernel.vsetmap(w(m, a))],
  VUPDATE: [\"L\", (m) => m.kernel.update(), commits],
  VSAVE: [\"L\", (m) => m.kernel.save(), commits],
  VREVERT: [\"L\", (m) => m.kernel.revert(), commits],
  GNEW: [\"w L\", (m, a) => m.set_word(a, m.kernel.make_listed(GROUP))],
  GFREE: [\"w L\", (m, a) => m.kernel.gfree(w(m, a))],
  INEW: [\"w w w L\", (m, a, b, c) => m.set_word(a, make_item(m, b, c))],
  IFREE: [\"w w L\", on_group(free_chunk)],
  IREALLOC: [\"w w w L\", on_group(realloc_chunk)],
  IINS: [\"w w w w L\", on_group(insert_bytes)],
  IDEL: [\"w w w w L\", on_group(delete_bytes)],
  ILOCK: [\"s p w w n L\", (m, s, p, c, d, n) => {
    m.kernel.ilock(w(m, c), w(m, d), n);
    lock_into(m, s, \"db\", vm(w(m, c)));
    m.point(p, s, m.names[s], w(m, d), null, n);
  }, locks_into],
  IDIRTY: [\"s\", (m, s) => m.kernel.mark(m.names[s].handle), needs(\"db\")],
  IUNLOCK: [\"s\", unlock, needs(\"db\", true)],
  IGETMAP: [\"w w\", (m, a, b) => {
    m.set_word(a, m.kernel.map_item[0]);
    m.set_word(b, m.kernel.map_item[1]);
  }],
  ISETMAP: [\"w w L\", (m, a, b) => m.kernel.isetmap(w(m, a), w(m, b))],
};

// A program, and a run of it in the model.

// The items of a line `in` or `out`.
const ITEMS = {
  bound: /^w([0-7])<=(\\d+)$/,
  slot: /^s([0-3])=(mem|vm|db)(@?)(!?)$/,
  pointer: /^p([0-3])=s([0-3]):(\\d+)$/,
};

/**
 * @typedef {{bounds: Map<number, number>, slots: Map<number, {kind: Kind, borrowed: boolean, marked: boolean}>,
 *   pointers: Map<number, {slot: number, len: number}>}} Row what a routine requires at its call, or promises at its return
 * @typedef {{name: string, is_public: boolean, budget: number, entry: Row, exit: Row, start: number, end: number}} Routine
 */

/** @returns {Row} what the line `in` or `out` of a routine says */
function row_of(lines, head) {
  const row = { bounds: new Map(), slots: new Map(), pointers: new Map() };
  for (const item of lines.filter((line) => line.words[0] === head).flatMap((line) => line.words.slice(1))) {
    const bound = ITEMS.bound.exec(item);
    const slot = ITEMS.slot.exec(item);
    const pointer = ITEMS.pointer.exec(item);
    if (bound) row.bounds.set(+bound[1], +bound[2]);
    if (slot) row.slots.set(+slot[1], { kind: slot[2], borrowed: slot[3] === \"@\", marked: slot[4] === \"!\" });
    if (pointer) row.pointers.set(+pointer[1], { slot: +pointer[2], len: +pointer[3] });
  }
  return row;
}

// The routines of a text, as the page has them.
class Program {
  /** @param {{name: string, is_public: boolean, budget: string, lines: Line[]}[]} parts */
  constructor(parts) {
    this.labels = new Map();
    /** @type {Routine[]} */
    this.routines = [];
    /** @type {Instr[]} */
    this.code = [];
    for (const part of parts) this.add_routine(part);
    for (const instr of this.code) this.decode(instr);
  }

  add_routine({ name, is_public, budget, lines }) {
    const [routine, start] = [this.routines.length, this.code.length];
    for (const line of lines) {
      for (const label of line.labels) this.labels.set(label, this.code.length);
      if (line.op) this.code.push({ op: line.op, operands: [], target: null, routine, line });
    }
    const most = /^\\d+$/.test(budget) ? +budget : Infinity;
    this.routines.push({ name, is_public, budget: most, entry: row_of(lines, \"in\"), exit: row_of(lines, \"out\"), start, end: this.code.length });
  }

  decode(instr) {
    const form = INSTRUCTIONS[instr.op][0].split(\" \").filter((letter) => letter);
    const words = instr.line.words.slice(1);
    form.forEach((letter, n) => {
      if (letter === \"L\") instr.target = this.labels.get(words[n]) ?? null;
      else instr.operands.push(letter === \"n\" ? +words[n] : letter === \"R\" ? this.number_of(words[n]) : +words[n].slice(1));
    });
  }

  number_of(name) {
    return this.routines.findIndex((routine) => routine.name === name);
  }
}

// A run of a routine. A step at a time, up to a fault, the return or the end of the budget.
class Machine {
  /**
   * @param {Program} program
   * @param {Kernel} kernel
   * @param {number} routine
   * @param {number[]} words
   */
  constructor(program, kernel, routine, words) {
    [this.program, this.kernel] = [program, kernel];
    const { start, budget } = program.routines[routine];
    [this.routine, this.pc, this.budget, this.steps] = [routine, start, budget, 0];
    this.words = [0, 1, 2, 3, 4, 5, 6, 7].map((n) => words[n] ?? 0);
    this.counters = [0, 0, 0, 0];
    // Names and spans stay after an unlock, as those of the machine do.
    this.names = [0, 1, 2, 3].map(() => vm(0));
    this.spans = [0, 1, 2, 3].map(() => ({ at: 0, len: 0 }));
    /** @type {(Held | null)[]} */
    this.held = [null, null, null, null];
    /** @type {(Target | null)[]} */
    this.targets = [null, null, null, null];
    this.stack = [];
    this.output = [];
    /** @type {Fault | null} */
    this.fault = null;
    this.has_returned = false;
  }

  get is_over() {
    return this.fault !== null || this.has_returned;
  }

  /** @returns {Instr | undefined} the next instruction */
  get next() {
    return this.program.code[this.pc];
  }

  /** Does the next instruction, if that is no fault. @returns {boolean} whether it was done */
  step() {
    if (this.is_over) return false;
    this.fault = this.next_fault();
    if (this.fault) return false;
    const { op, operands, target } = this.next;
    this.moved_on = false;
    const jumps = this.try_call(INSTRUCTIONS[op][1], operands);
    this.steps++;
    if (!this.moved_on) this.pc = jumps ? target ?? -1 : this.pc + 1;
    return true;
  }

  /** @returns {boolean} whether control goes to the label */
  try_call(does, operands) {
    try {
      return does(this, ...operands) === true;
    } catch (why) {
      if (!(why instanceof Refusal)) throw why;
      this.words[7] = why.number;
      return true;
    }
  }

  /** @returns {Fault | null} */
  next_fault() {
    const { start, end } = this.program.routines[this.routine];
    if (this.pc < start || this.pc >= end) return fault(\"V1\", \"control leaves the routine\");
    if (this.steps >= this.budget) return fault(\"V14\", \"the budget is used up\");
    const { op, operands } = this.next;
    return INSTRUCTIONS[op][2]?.(this, ...operands) ?? null;
  }

  set_word(n, value) {
    this.words[n] = value & 0xffff;
  }

  read(at, count) {
    const bytes = this.kernel.blocks.region;
    return count === 1 ? bytes[at] : bytes[at] | bytes[at + 1] << 8;
  }

  write(at, word, count) {
    this.kernel.blocks.region[at] = word;
    if (count === 2) this.kernel.blocks.region[at + 1] = word >> 8;
  }

  copy(to, from, count) {
    this.kernel.blocks.region.copyWithin(to, from, from + count);
  }

  heap(slot) {
    return this.kernel.blocks.heap(this.names[slot]);
  }

  call(routine) {
    this.stack.push({ routine: this.routine, pc: this.pc + 1 });
    [this.routine, this.pc, this.moved_on] = [routine, this.program.routines[routine].start, true];
  }

  return() {
    const frame = this.stack.pop();
    this.has_returned = frame === undefined;
    if (frame) [this.routine, this.pc] = [frame.routine, frame.pc];
    this.moved_on = true;
  }

  put_out(word) {
    require_that(this.output.length < MOST_OUTPUT, REFUSED.full);
    this.output.push(word);
  }

  /** Sets a pointer to a chunk, or to an element of an array. */
  point(pointer, slot, name, chunk, element, least) {
    const find = (heap) => element === null ? heap.place(chunk) : new Arrays(heap).element(chunk, element);
    const { at, len } = this.kernel.place(name, find, least);
    const offset = at - this.kernel.blocks.entry(name).place - this.kernel.blocks.heap(name).place(chunk).at;
    this.spans[pointer] = { at, len };
    this.targets[pointer] = { name, slot, chunk, element, offset, at, len, set: this.steps + 1, stale: null };
  }

  /** The pointers for which a test is true become stale. */
  make_stale(is_stale) {
    this.targets = this.targets.map((target) => {
      return target && !target.stale && is_stale(target) ? { ...target, stale: { step: this.steps + 1, pc: this.pc } } : target;
    });
  }

  chunks_move(name) {
    this.make_stale((target) => key_of(target.name) === key_of(name));
  }

  unlock(slot) {
    this.kernel.blocks.unlock(this.names[slot]);
    this.held[slot] = null;
    this.make_stale((target) => target.slot === slot);
  }
}

// Memory for a play: blocks with some content, and words with which the routine comes to its fault.

const PLAY_REGION = 1 << 20;
// How many steps are played at most.
const MOST_PLAYED = 10000;
// How many sets of words are tried at most, and how many steps of each.
const [MOST_TRIED, TRIED_STEPS] = [250, 1000];
const TRIED_WORDS = [0, 16, 1, 18, 2];
const MOST_LENT = 8;
const LETTERS = \"abcdefghijklmnopqrstuvwxyz\";

/**
 * @typedef {{words: number[], lent: number[]}} Given the words of a call, and the handles of the blocks that it lends
 */

// What is thrown if a routine does not begin with what a reader typed.
class Wrong {
  /** @param {string} said */
  constructor(said) {
    this.said = said;
  }
}

/**
 * @param {string} typed what a reader typed, as `16 3 @1`
 * @param {Row} entry the entry row of the routine
 * @returns {Given}
 */
function given_of(typed, entry) {
  const parts = typed.split(/\\s+/).filter((part) => part);
  const wrong = parts.find((part) => !/^@?\\d+$/.test(part));
  if (wrong) throw new Wrong(`'${wrong}' is no number`);
  const [words, lent] = [parts.filter((part) => part[0] !== \"@\").map(Number), parts.filter((part) => part[0] === \"@\").map((part) => +part.slice(1))];
  if (words.length > 8) throw new Wrong(\"a routine has 8 words at most\");
  const high = words.findIndex((word, n) => word > (entry.bounds.get(n) ?? 65535));
  if (high >= 0) throw new Wrong(`w${high} is at most ${entry.bounds.get(high) ?? 65535}`);
  if (lent.some((handle) => handle < 1 || handle > MOST_LENT)) throw new Wrong(`the model makes the blocks @1 to @${MOST_LENT}`);
  return { words, lent };
}

/** @param {Given} given */
const typed_of = ({ words, lent }) => [...words, ...lent.map((handle) => \"@\" + handle)].join(\" \");

/** Fills a block: a chunk of letters, an array of two elements of 4 bytes, and a chunk of 6 capital letters. */
function fill_block(kernel, name, least) {
  const chunk_of = (text) => {
    const chunk = kernel.on_chunks(name, (heap) => heap.alloc(text.length));
    const heap = kernel.blocks.heap(name);
    [...text].forEach((letter, n) => { heap.bytes[heap.place(chunk).at + n] = letter.charCodeAt(0); });
  };
  const count = Math.max(12, least);
  chunk_of(LETTERS.repeat(Math.ceil(count / 26)).slice(0, count));
  const array = kernel.on_chunks(name, (heap) => new Arrays(heap).create(4));
  for (const letters of [\"1234\", \"5678\"]) {
    kernel.on_chunks(name, (heap) => new Arrays(heap).append(array, 4));
    const heap = kernel.blocks.heap(name);
    const { at, count: elements } = new Arrays(heap).shape(array);
    [...letters].forEach((letter, n) => { heap.bytes[at + HEADER + 4 * (elements - 1) + n] = letter.charCodeAt(0); });
  }
  chunk_of(\"ABCDEF\");
}

/** The most bytes that a pointer into a slot has at the routine's begin. */
const least_of = (entry, slot) => Math.max(0, ...[...entry.pointers.values()].filter((pointer) => pointer.slot === slot).map(({ len }) => len));

/** Makes blocks of the file for a play, and commits them. */
function make_file_blocks(kernel, count, least, uid) {
  for (let n = 0; n < count; n++) fill_block(kernel, vm(kernel.make_listed(uid)), least);
  kernel.update();
}

/** Makes and locks the block of a slot. @returns {Name} */
function make_slot_block(kernel, { kind, marked }, least) {
  if (kind === \"mem\") {
    const name = mem(kernel.mnew());
    fill_block(kernel, name, least);
    return name;
  }
  const handle = kernel.make_listed(kind === \"db\" ? GROUP : 0);
  fill_block(kernel, vm(handle), least);
  kernel.update();
  kernel.blocks.lock(vm(handle));
  if (marked) kernel.mark(handle);
  return vm(handle);
}

/** The slots of the entry row that are borrowed, the lowest first. */
const borrowed_slots = (entry) => [...entry.slots].filter(([, slot]) => slot.borrowed).map(([n]) => n).sort();

/** @returns {Machine} a routine before its first step, with memory as its entry row requires it */
function machine_of(program, number, { words, lent }) {
  const { entry } = program.routines[number];
  const kernel = new Kernel(PLAY_REGION);
  const machine = new Machine(program, kernel, number, words);
  const borrowed = borrowed_slots(entry);
  const handles = borrowed.map((_, n) => lent[n] ?? n + 1);
  if (borrowed.length) make_file_blocks(kernel, Math.max(...handles), Math.max(...borrowed.map((slot) => least_of(entry, slot))), 0);
  for (const [n, slot] of entry.slots) {
    const name = slot.borrowed ? vm(handles[borrowed.indexOf(n)]) : make_slot_block(kernel, slot, least_of(entry, n));
    if (slot.borrowed) kernel.vlock(name.handle);
    [machine.names[n], machine.held[n]] = [name, { kind: slot.kind, borrowed: slot.borrowed }];
  }
  for (const [n, { slot, len }] of entry.pointers) {
    if (machine.held[slot]) machine.point(n, slot, machine.names[slot], 16, null, len);
  }
  machine.targets.forEach((target) => { if (target) target.set = 0; });
  return machine;
}

/** The words that a routine names. */
function words_used(program, { start, end }) {
  const used = new Set();
  for (const { op, operands } of program.code.slice(start, end)) {
    const letters = INSTRUCTIONS[op][0].replace(/ ?L$/, \"\").split(\" \");
    letters.forEach((letter, n) => letter === \"w\" && used.add(operands[n]));
  }
  return [...used].sort((a, b) => a - b);
}

/** The sets of words to try. If there are many, those with one value come first. */
function* tried_words(used, bounds) {
  const within = (words) => words.map((word, n) => Math.min(word, bounds.get(n) ?? 65535));
  const first = TRIED_WORDS.length ** used.length > MOST_TRIED ? TRIED_WORDS : [];
  for (const value of first) yield within([0, 1, 2, 3, 4, 5, 6, 7].map((n) => used.includes(n) ? value : 0));
  for (let k = 0; k < TRIED_WORDS.length ** used.length; k++) {
    const words = [0, 0, 0, 0, 0, 0, 0, 0];
    used.forEach((n, place) => { words[n] = TRIED_WORDS[Math.floor(k / TRIED_WORDS.length ** place) % TRIED_WORDS.length]; });
    yield within(words);
  }
}

/** @returns {Given} words with which the routine comes to a fault at a refused line, if some of those that are tried do */
function given_for(program, number) {
  const routine = program.routines[number];
  const { entry } = routine;
  const lent = borrowed_slots(entry).map((_, n) => n + 1);
  let [count, other] = [0, null];
  for (const words of tried_words(words_used(program, routine), entry.bounds)) {
    if (count++ >= MOST_TRIED) break;
    const machine = machine_of(program, number, { words, lent });
    while (machine.steps < TRIED_STEPS && machine.step());
    const given = { words: trimmed(words), lent };
    if (machine.fault && machine.next?.line.findings.some(({ kind }) => kind === \"error\")) return given;
    if (machine.fault && !other) other = given;
  }
  return other ?? { words: [], lent };
}

/** The words without the zeros at their end. */
function trimmed(words) {
  let count = words.length;
  while (count && !words[count - 1]) count--;
  return words.slice(0, count);
}

// What there is to say of memory in a play: what lies at a place, what a step did, and what a stale pointer leads to.

const block_words = ({ vm: of_file, handle }) => of_file ? `block ${handle} of the file` : `block ${handle}`;
const hex_bytes = (bytes) => [...bytes].map((byte) => byte.toString(16).padStart(2, \"0\")).join(\" \");
const count_bytes = (n) => n === 1 ? \"1 byte\" : `${n} bytes`;
/** @param {Instr} instr */
const line_words = ({ line }) => `${place_word} ${line.number}, ${line.text}`;
const with_capital = (text) => text[0].toUpperCase() + text.slice(1);

/** What a byte at an offset of a heap is. */
function part_of_heap(heap, offset) {
  if (offset < TABLE) return \"the header\";
  if (offset < TABLE + 2 * heap.entries) return `the table entry of chunk ${offset & ~1}`;
  for (const { chunk, at, len } of heap.chunks().filter((one) => one.len)) {
    if (offset >= at && offset < at + len) return `byte ${offset - at} of chunk ${chunk}`;
    if (offset >= at - 2 && offset < at) return `the size word of chunk ${chunk}`;
    if (offset >= at && offset < at - 2 + cost(len)) return `padding after chunk ${chunk}`;
  }
  return part_of_free_chunk(heap, offset);
}

/** What a byte that belongs to no chunk is: a free chunk begins with its size, and the link to the next one. */
function part_of_free_chunk(heap, offset) {
  for (let at = heap.get(FIRST_FREE); at !== 0; at = heap.get(at + 2)) {
    if (offset >= at && offset < at + 2) return \"the size word of a free chunk\";
    if (offset >= at + 2 && offset < at + 4) return \"the link of a free chunk\";
  }
  return \"a free chunk\";
}

/** What lies at a place of the region. @param {Kernel} kernel */
function what_lies_at(kernel, at) {
  const entry = kernel.blocks.in_order().find(({ place, size }) => place <= at && at < place + size);
  return entry ? `${part_of_heap(kernel.blocks.heap(entry.name), at - entry.place)} of ${block_words(entry.name)}` : \"no block\";
}

// Instructions that free a chunk.
const FREEING = new Set([\"LFREE\", \"IFREE\"]);

/** Whether a block is there with a chunk. */
const has_chunk = (kernel, name, chunk) => kernel.blocks.entry(name) !== undefined && kernel.blocks.heap(name).chunks().some((one) => one.chunk === chunk);

/** Where the bytes are now for which a pointer was set, or `null` if they are no longer there. */
function place_now(kernel, { name, chunk, offset, len }) {
  const entry = kernel.blocks.entry(name);
  const found = entry && kernel.blocks.heap(name).chunks().find((one) => one.chunk === chunk);
  return found && offset + len <= found.len ? entry.place + found.at + offset : null;
}

/** What a pointer was set to. @param {Target} target */
function meant_words({ name, chunk, element, offset }) {
  if (element !== null) return `element ${element} of chunk ${chunk} of ${block_words(name)}`;
  return `chunk ${chunk} of ${block_words(name)}${offset ? `, from byte ${offset}` : \"\"}`;
}

/** @returns {Map<string, {place: number, size: number, name: Name, chunks: Map<number, Place>}>} where blocks and chunks are */
function layout_of(kernel) {
  return new Map(kernel.blocks.in_order().map(({ key, name, place, size }) => {
    const chunks = kernel.blocks.heap(name).chunks().map(({ chunk, at, len }) => [chunk, { at: place + at, len }]);
    return [key, { place, size, name, chunks: new Map(chunks) }];
  }));
}

function chunk_changes(was, now) {
  const said = [];
  for (const [chunk, { at, len }] of now.chunks) {
    const old = was.chunks.get(chunk);
    const name = `chunk ${chunk} of ${block_words(now.name)}`;
    if (!old) said.push(`${name} is new: ${count_bytes(len)} at ${at}`);
    else if (old.len && len && old.at !== at) said.push(`${name} moved from ${old.at} to ${at}`);
    if (old && old.len !== len) said.push(`${name} has ${count_bytes(len)} now, not ${old.len}`);
  }
  for (const chunk of was.chunks.keys()) {
    if (!now.chunks.has(chunk)) said.push(`chunk ${chunk} of ${block_words(now.name)} is free`);
  }
  return said;
}

/** What a step did to blocks and chunks. */
function memory_changes(before, after) {
  const [was, now] = [layout_of(before.kernel), layout_of(after.kernel)];
  const said = [];
  for (const [key, block] of now) {
    const old = was.get(key);
    if (!old) said.push(`${block_words(block.name)} is new: ${count_bytes(block.size)} at ${block.place}`);
    else if (old.size !== block.size) said.push(`${block_words(block.name)} has ${count_bytes(block.size)} now, not ${old.size}`);
    if (old && old.place !== block.place) said.push(`${block_words(block.name)} moved from ${old.place} to ${block.place}`);
    said.push(...chunk_changes(old ?? { chunks: new Map() }, block));
  }
  for (const [key, block] of was) {
    if (!now.has(key)) said.push(`${block_words(block.name)} left the region`);
  }
  return said;
}

/** What a step did to registers and output. */
function register_changes(before, after) {
  const said = [];
  after.words.forEach((word, n) => word !== before.words[n] && said.push(`w${n} = ${word}`));
  after.counters.forEach((left, n) => left !== before.counters[n] && said.push(`k${n} = ${left}`));
  after.held.forEach((held, n) => {
    if (held && !before.held[n]) said.push(`s${n} contains ${block_words(after.names[n])}`);
    if (!held && before.held[n]) said.push(`s${n} is empty`);
  });
  after.targets.forEach((target, n) => {
    const old = before.targets[n];
    if (target && target.set !== old?.set) said.push(`p${n} leads to ${meant_words(target)}, ${count_bytes(target.len)} at ${after.spans[n].at}`);
    else if (target?.stale && !old?.stale) said.push(`p${n} is stale`);
  });
  if (after.output.length > before.output.length) said.push(`output ${after.output[after.output.length - 1]}`);
  return said;
}

/** What an instruction left in memory, if it wrote through a pointer. */
function bytes_changed(before, after) {
  const [was, now] = [before.kernel.blocks.region, after.kernel.blocks.region];
  const from = now.findIndex((byte, n) => byte !== was[n]);
  return from < 0 ? [] : [`${what_lies_at(after.kernel, from)} is ${now[from]}`];
}

/** All that a step did, in words. */
function step_words(before, after) {
  const said = [...register_changes(before, after), ...memory_changes(before, after)];
  return said.length ? said : bytes_changed(before, after);
}

/**
 * @typedef {{pointer: number, at: number, count: number, writes: boolean, found: Uint8Array, lies: string, meant: string,
 *   begin: number | null, meant_at: number | null, meant_bytes: Uint8Array | null}} Through what an access through a pointer leads to, and
 *   what it was meant for; `begin` is where the bytes of the pointer are now
 */

/** @returns {Through | null} what the access of a fault leads to */
function through(machine) {
  const { access } = machine.fault;
  const target = access && machine.targets[access.pointer];
  if (!target) return null;
  const { region } = machine.kernel.blocks;
  const { offset, count, pointer, writes } = access;
  const at = machine.spans[pointer].at + offset;
  const begin = place_now(machine.kernel, target);
  const meant_at = begin === null || offset + count > target.len ? null : begin + offset;
  const bytes = (from) => region.slice(from, from + count);
  const meant_bytes = meant_at === null ? null : bytes(meant_at);
  return { pointer, at, count, writes, found: bytes(at), lies: what_lies_at(machine.kernel, at), meant: meant_words(target), begin, meant_at, meant_bytes };
}

// A play of a routine in the model: its steps, with memory as it is before and after each.

/** Removes the mark of the next line. */
const unmark_line = () => document.querySelectorAll(\".lines .next\").forEach((line) => line.classList.remove(\"next\"));
const hue_class = (chunk) => `hue${(chunk - TABLE) / 2 % HUES.length}`;
const changed_if = (is_changed, text) => node(\"span\", { class: is_changed ? \"changed\" : false }, text);

// The steps of one routine, which a reader goes through by buttons, a slider or keys.
class Play {
  /** @param {Program} program */
  constructor(program) {
    [this.program, this.place] = [program, 0];
    this.said = node(\"p\", { class: \"place\", role: \"status\" });
    this.body = node(\"div\", { class: \"picture\" });
  }

  /**
   * @param {string} label what a screen reader calls the panel
   * @param {...Node} before what comes before the steps
   */
  make_panel(label, ...before) {
    this.panel = node(\"section\", { class: \"play\", \"aria-label\": label }, ...before, this.buttons(), this.slider_part(), this.said, this.body);
    this.panel.addEventListener(\"keydown\", (event) => this.press(event));
  }

  buttons() {
    const button = (text, label, go) => {
      const made = node(\"button\", { type: \"button\", \"aria-label\": label }, text);
      made.addEventListener(\"click\", go);
      return made;
    };
    this.on = button(\"Next \\u203a\", \"Next step\", () => this.go(this.place + 1));
    this.to_end = button(\"\", \"\", () => this.go(this.last));
    return node(\"p\", { class: \"steps-of-play\" },
      button(\"\\u00ab Start\", \"To the start\", () => this.go(0)), \" \", button(\"\\u2039 Back\", \"Step back\", () => this.go(this.place - 1)), \" \",
      this.on, \" \", this.to_end, \" \", node(\"span\", { class: \"quiet\" }, \"Keys: arrows, Home, End\"));
  }

  slider_part() {
    this.slider = node(\"input\", { type: \"range\", class: \"slider\", min: 0, max: 0, step: 1, \"aria-label\": \"Step\" });
    this.slider.addEventListener(\"input\", () => this.go(+this.slider.value));
    return this.slider;
  }

  /** Whether keys in an element mean something else. */
  types_in(element) {
    return element instanceof HTMLInputElement && element !== this.slider;
  }

  press(event) {
    const places = { ArrowRight: this.place + 1, ArrowLeft: this.place - 1, Home: 0, End: this.last };
    if (this.types_in(event.target) || event.ctrlKey || event.altKey || event.metaKey || !(event.key in places)) return;
    event.preventDefault();
    this.go(places[event.key]);
  }

  /** Plays it to its end, and goes to its begin. */
  begin() {
    const machine = this.machine_at(MOST_PLAYED);
    [this.last, this.end] = [machine.steps, machine];
    this.slider.max = this.last;
    this.to_end.textContent = machine.fault ? \"Fault \\u00bb\" : \"End \\u00bb\";
    this.to_end.setAttribute(\"aria-label\", machine.fault ? \"To the fault\" : \"To the end\");
    this.go(0);
  }

  /** @returns {Machine} the machine after some steps */
  machine_at(place) {
    const machine = this.start();
    while (machine.steps < place && machine.step());
    return machine;
  }

  go(place) {
    this.place = Math.max(0, Math.min(this.last, place));
    const before = this.machine_at(this.place - 1);
    const now = this.place === this.last ? this.end : this.machine_at(this.place);
    this.show_place(before, now);
    this.slider.value = this.place;
    this.slider.setAttribute(\"aria-valuetext\", `step ${this.place} of ${this.last}`);
    const is_fault = this.place === this.last && now.fault;
    this.body.replaceChildren(...[is_fault && this.fault_part(now), this.registers(before, now), this.output(before, now), ...this.blocks(before, now)].filter((part) => part));
    this.mark_line(now);
  }

  /** Marks the line of the next instruction among the lines of the text. */
  mark_line(machine) {
    unmark_line();
    if (machine.next && !machine.has_returned) document.getElementById(machine.next.line.id)?.classList.add(\"next\");
  }

  show_place(before, now) {
    const done = this.place ? before.next : null;
    const did = done ? `${with_capital(line_words(done))}: ${step_words(before, now).join(\"; \") || \"no change\"}.` : this.start_words();
    const next = now.is_over ? this.end_words(now) : this.place === MOST_PLAYED ? \"The play ends here.\" : `Next: ${line_words(now.next)}.`;
    this.said.replaceChildren(node(\"b\", {}, `Step ${this.place} of ${this.last}. `), did, \" \", node(\"span\", { class: now.fault ? \"bad\" : \"quiet\" }, next));
  }

  start_words() {
    const comes = this.end.fault && this.last ? ` The fault comes after step ${this.last}.` : \"\";
    return `Before the first step.${comes}`;
  }

  end_words(machine) {
    if (machine.has_returned) return this.return_words();
    const { next, fault: { rule, said } } = machine;
    return `A fault by ${rule}${next && rule !== \"V1\" ? ` at ${line_words(next)}` : \"\"}: ${said}.`;
  }

  return_words() {
    return \"The routine returns.\";
  }

  fault_part(machine) {
    const found = through(machine);
    const target = found && machine.targets[found.pointer];
    if (!found) return node(\"div\", { class: \"fault\" }, node(\"p\", {}, this.end_words(machine)));
    const since = [this.set_words(target, found), target.stale && this.since_words(found.pointer, target)].filter((said) => said);
    return node(\"div\", { class: \"fault\" }, node(\"p\", {}, this.end_words(machine)), node(\"p\", { class: \"since\" }, since.join(\" \")),
      target.stale && this.compared(found, target.set), this.effect(machine, found));
  }

  since_words(pointer, target) {
    return `p${pointer} is stale since step ${target.stale.step}: ${this.cause_words(target)}.`;
  }

  /** The instruction that made a pointer stale, and whether it freed the chunk. */
  cause_words({ name, chunk, stale }) {
    const instr = this.program.code[stale.pc];
    const is_freed = FREEING.has(instr.op) && !has_chunk(this.machine_at(stale.step).kernel, name, chunk);
    return `${line_words(instr)}${is_freed ? `, which freed chunk ${chunk}` : \"\"}`;
  }

  /** When a pointer was set, and where its bytes were then and are now. */
  set_words({ set, at, len }, { pointer, begin }) {
    const when = set ? `in step ${set}` : \"before the first step\";
    const now = begin === null ? \"which are gone\" : begin === at ? \"which are still there\" : `which are at ${begin} now`;
    return `p${pointer} was set ${when} to ${count_bytes(len)} at ${at}, ${now}.`;
  }

  /** What the pointer was set to, beside what lies at its place now. */
  compared({ pointer, at, count, found, lies, meant, meant_at, meant_bytes }, set) {
    const row = (name, meant_cell, found_cell) => node(\"tr\", {}, node(\"th\", { scope: \"row\" }, name), node(\"td\", {}, meant_cell), node(\"td\", {}, found_cell));
    const is_there = meant_at !== null;
    // The bytes that the pointer led to when it was set: their chunk may be gone.
    const led_to = hex_bytes(this.machine_at(set).kernel.blocks.region.slice(at, at + count));
    return node(\"table\", { class: \"compared\" },
      node(\"thead\", {}, node(\"tr\", {}, node(\"th\", {}, \"\"), node(\"th\", { scope: \"col\" }, `p${pointer} was set to`), node(\"th\", { scope: \"col\" }, \"what is there now\"))),
      node(\"tbody\", {}, row(\"what\", meant, lies), row(\"place in the region\", is_there ? String(meant_at) : `${at}, gone`, String(at)),
        row(\"bytes\", is_there ? hex_bytes(meant_bytes) : `${led_to}, gone`, hex_bytes(found))));
  }

  /** What the instruction would do. */
  effect(machine, { at, count, writes, lies, meant_at }) {
    const { op } = machine.next;
    const luck = machine.fault.rule === \"V4\" && at === meant_at ? \" These are the right bytes, by luck.\" : \"\";
    return node(\"p\", { class: \"effect\" }, `${op} would ${writes ? \"overwrite\" : \"read\"} ${count_bytes(count)} at ${at}: ${lies}.${luck}`);
  }

  registers(before, now) {
    const is_first = this.place === 0;
    const words = now.words.map((word, n) => node(\"span\", {}, `w${n} `, changed_if(!is_first && word !== before.words[n], String(word))));
    const counters = now.counters.map((left, n) => left || before.counters[n] ? node(\"span\", {}, `k${n} `, changed_if(!is_first && left !== before.counters[n], String(left))) : null);
    const slots = now.held.map((held, n) => held && node(\"span\", {}, `s${n} ${block_words(now.names[n])}`));
    return node(\"div\", { class: \"registers\" }, ...words, ...counters, ...slots, ...now.targets.map((target, n) => target && this.pointer(now, n, target)));
  }

  pointer(machine, n, target) {
    const said = `p${n} ${meant_words(target)}, at ${machine.spans[n].at}`;
    if (!target.stale) return node(\"span\", { class: \"pointer\" }, said);
    return node(\"span\", { class: \"pointer stale\" }, node(\"s\", {}, said), ` stale since ${this.cause_words(target)}`);
  }

  /** The words that are out, the new one marked. */
  output(before, now) {
    const { length } = now.output;
    if (!length) return null;
    const is_new = (n) => this.place > 0 && n >= before.output.length;
    return node(\"p\", { class: \"out\" }, \"output\", ...now.output.flatMap((word, n) => [\" \", changed_if(is_new(n), String(word))]));
  }

  /** The blocks of slots and of pointers. */
  blocks(before, now) {
    const keys = new Set([...now.names.filter((_, n) => now.held[n]).map(key_of), ...now.targets.filter((target) => target).map(({ name }) => key_of(name))]);
    return now.kernel.blocks.in_order().filter(({ key }) => keys.has(key)).map((entry) => this.block(before, now, entry));
  }

  block(before, now, { key, name, place, size }) {
    const heap = now.kernel.blocks.heap(name);
    const old = before.kernel.blocks.entries.get(key);
    const old_bytes = old && before.kernel.blocks.region.subarray(old.place, old.place + old.size);
    const chunk_at = new Map(heap.chunks().flatMap(({ chunk, at, len }) => Array.from({ length: len }, (_, n) => [at + n, chunk])));
    const marks = this.marks(now, place);
    const kind_of = (i) => [
      chunk_at.has(i) && hue_class(chunk_at.get(i)), this.place && old_bytes && (old_bytes[i] ?? 0) !== heap.bytes[i] && \"changed\", marks.get(i),
    ].filter((kind) => kind).join(\" \") || false;
    const bytes = [...heap.bytes.subarray(0, MOST_DRAWN)];
    return node(\"div\", { class: \"block\" }, node(\"h3\", {}, `${block_words(name)}: ${size} bytes at ${place} of the region`),
      node(\"table\", { class: \"bytes\" }, node(\"tbody\", {}, ...byte_rows(bytes, kind_of))), this.key_of_chunks(heap));
  }

  key_of_chunks(heap) {
    const chunks = heap.chunks().map(({ chunk, at, len }) => node(\"span\", { class: hue_class(chunk) }, `chunk ${chunk}: ${count_bytes(len)}${len ? ` at ${at} of the block` : \"\"}`));
    return node(\"p\", { class: \"chunks\" }, ...chunks.flatMap((one) => [one, \" \"]));
  }

  /** Marks of bytes of a block: those that a stale pointer leads to, and those that it was meant for. */
  marks(machine, place) {
    const marks = new Map();
    machine.targets.forEach((target, n) => {
      if (!target) return;
      const put = (at, kind) => Array.from({ length: target.len }, (_, k) => marks.set(at - place + k, kind));
      const now = target.stale ? place_now(machine.kernel, target) : null;
      if (now !== null) put(now, \"meant\");
      put(machine.spans[n].at, target.stale ? \"led\" : \"good\");
    });
    return marks;
  }
}


// The control-flow graph of a routine. Its nodes are below one another, in the order of the text; jumps on go along lanes on the right,
// and loops on the left.

const [ROW, GAP, LANE, LETTER] = [19, 20, 11, 7.3];

class Graph {
  constructor(routine, labels) {
    this.code = routine.lines.filter((line) => line.op);
    this.names = this.names_of(routine.lines);
    this.edges = this.code.flatMap((line, from) => this.edge_of(line, from, labels));
    this.loops = this.edges.filter((edge) => edge.op === \"LOOP\" && edge.to <= edge.from).map((edge) => loop_of(this.code, edge.to, edge.from));
    this.nodes = this.nodes_of();
  }

  // The labels of each instruction, also those on lines before it.
  names_of(lines) {
    const names = new Map();
    let waiting = [];
    for (const line of lines) {
      waiting.push(...line.labels);
      if (!line.op) continue;
      names.set(line, waiting);
      waiting = [];
    }
    return names;
  }

  edge_of(line, from, labels) {
    if (!line.target) return [];
    const to = this.code.findIndex((other) => this.names.get(other).includes(line.target));
    const kind = !JUMPS.has(line.op) ? \"refusal\" : to >= 0 && to <= from ? \"loop\" : \"jump\";
    if (to >= 0) return [{ from, to, kind, op: line.op }];
    return labels.has(line.target) ? [{ from, to: null, kind: \"outside\", op: line.op }] : [];
  }

  // Instructions that run one after another, unless one leaves through its edge.
  nodes_of() {
    const heads = new Set([0, ...this.edges.map((edge) => edge.to)]);
    this.code.forEach((line, n) => LAST.has(line.op) && heads.add(n + 1));
    const nodes = [];
    this.code.forEach((line, n) => heads.has(n) ? nodes.push([line]) : nodes[nodes.length - 1].push(line));
    return nodes;
  }

  // For each target a lane, the nearer the shorter.
  lanes_of(edges) {
    const spans = new Map();
    for (const { from, to } of edges) {
      const span = spans.get(to) || { to, top: to, end: to };
      spans.set(to, { to, top: Math.min(span.top, from), end: Math.max(span.end, from) });
    }
    const lanes = [];
    const found = new Map();
    for (const span of [...spans.values()].sort((a, b) => a.end - a.top - (b.end - b.top))) {
      let lane = lanes.findIndex((taken) => taken.every((other) => span.end < other.top || other.end < span.top));
      if (lane < 0) lane = lanes.push([]) - 1;
      lanes[lane].push(span);
      found.set(span.to, lane);
    }
    return { count: lanes.length, found };
  }

  // The picture.
  get svg() {
    const back = this.edges.filter((edge) => edge.kind === \"loop\" || edge.to !== null && edge.to <= edge.from);
    const on = this.edges.filter((edge) => edge.to !== null && edge.to > edge.from);
    const [left, right] = [this.lanes_of(back), this.lanes_of(on)];
    const rounds = this.loops.some((loop) => loop.most !== null);
    this.x = 10 + left.count * LANE + (rounds ? 34 : 0);
    const longest = Math.max(...this.code.map((line) => Math.min(line.text.length, 34)));
    const digits = Math.max(...this.code.map((line) => line.number.length));
    this.text_x = this.x + 10 + digits * LETTER;
    this.end = this.text_x + 10 + longest * LETTER;
    this.width = this.end + 16 + right.count * LANE;
    this.drawn = draw(\"g\");
    this.draw_nodes();
    for (const edge of on) this.draw_edge(edge, this.end, LANE * (right.found.get(edge.to) + 1), 1);
    for (const edge of back) this.draw_edge(edge, this.x, -LANE * (left.found.get(edge.to) + 1), -1);
    for (const edge of this.edges.filter((e) => e.to === null)) this.add(\"path\", { class: \"edge outside\", d: `M${this.end} ${this.y(edge.from)}h14m-4 -4l4 4l-4 4` });
    for (const loop of this.loops) this.draw_rounds(loop, left);
    const svg = draw(\"svg\", { viewBox: `0 0 ${this.width} ${this.height}`, width: this.width, height: this.height, role: \"img\", \"aria-label\": this.said }, this.drawn);
    return svg;
  }

  add(tag, attributes, ...inside) {
    this.drawn.append(draw(tag, attributes, ...inside));
  }

  y(n) {
    return this.tops[n] + ROW / 2;
  }

  draw_nodes() {
    this.tops = [];
    let y = 0;
    for (const [k, node_lines] of this.nodes.entries()) {
      const names = this.names.get(node_lines[0]).map((name) => shown(name) + \":\").join(\" \");
      y += k ? GAP : names ? 16 : 2;
      if (k && !LAST.has(this.nodes[k - 1][this.nodes[k - 1].length - 1].op)) this.draw_fall(y);
      if (names) this.add(\"text\", { class: \"label\", x: this.x + 26, y: y - 5 }, names.slice(0, 34));
      this.add(\"rect\", { class: \"node\", x: this.x, y, width: this.end - this.x, height: node_lines.length * ROW + 2, rx: 5 });
      for (const line of node_lines) {
        this.tops.push(y + 1);
        this.draw_row(line, y + 1);
        y += ROW;
      }
      y += 2;
    }
    this.height = y + 4;
  }

  draw_row(line, y) {
    const kind = line.findings.some((f) => f.kind === \"error\") ? \"refused\" : line.causes.length ? \"cause\" : line.findings.length ? \"warned\" : \"\";
    const text = line.text.length > 34 ? line.text.slice(0, 33) + \"\\u2026\" : line.text;
    this.add(\"a\", { href: \"#\" + line.id, tabindex: -1 },
      draw(\"rect\", { class: \"row-back \" + kind, x: this.x + 1, y, width: this.end - this.x - 2, height: ROW }),
      draw(\"text\", { class: \"row-number\", x: this.text_x - 6, y: y + 14 }, line.number),
      draw(\"text\", { class: \"row-text\", x: this.text_x, y: y + 14 }, shown(text)));
  }

  // From the end of a node to the next one.
  draw_fall(y) {
    const x = this.x + 14;
    this.add(\"path\", { class: \"edge\", d: `M${x} ${y - GAP}V${y - 5}` });
    this.add(\"path\", { class: \"head\", d: `M${x - 4} ${y - 6}h8l-4 6z` });
  }

  draw_edge({ from, to, kind }, x, wide, sign) {
    const [y, end] = [this.y(from) + 3 * sign, this.y(to) - 4];
    const bend = 4 * Math.sign(end - y);
    const lane = x + wide;
    this.add(\"path\", { class: \"edge \" + kind, d: `M${x} ${y}H${lane - 4 * sign}q${4 * sign} 0 ${4 * sign} ${bend}V${end - bend}q0 ${bend} ${-4 * sign} ${bend}H${x + 6 * sign}` });
    this.add(\"path\", { class: \"head \" + kind, d: `M${x + 7 * sign} ${end - 4}v8l${-7 * sign} -4z` });
  }

  // Beside a loop, how often it runs.
  draw_rounds(loop, left) {
    if (loop.most === null) return;
    const [head, end] = [this.code.indexOf(loop.head), this.code.indexOf(loop.end)];
    const x = this.x - LANE * (left.found.get(head) + 1) - 5;
    this.add(\"text\", { class: \"rounds\", x, y: (this.y(head) + this.y(end)) / 2 + 4 }, \"\\u00d7\" + loop.most);
  }

  // The picture in words.
  get said() {
    const names = (lines) => lines.length > 1 ? `${lines[0].number} to ${lines[lines.length - 1].number}` : lines[0].number;
    const edges = this.edges.filter((edge) => edge.to !== null).map((edge) => `${this.code[edge.from].number} to ${this.code[edge.to].number}${edge.kind === \"refusal\" ? \" if refused\" : \"\"}`);
    return `Control flow: nodes ${this.nodes.map(names).join(\", \")}; edges ${edges.join(\", \") || \"none\"}`;
  }
}

// A play of a refused routine: its steps in the model, up to the fault.

const IS_PICTURE = \"A picture by a model, not the machine: geos never runs a text that the verifier refuses.\";

/** @returns {Program | null} the program that a page shows, if the model can play it */
function program_of({ page, routines }) {
  if (page.shows === \"faulty\") return null;
  const lines = routines.flatMap((routine) => routine.lines).filter((line) => line.op);
  const is_known = lines.every(({ op, words }) => INSTRUCTIONS[op]?.[0].split(\" \").filter((letter) => letter).length === words.length - 1);
  return is_known && lines.length ? new Program(routines) : null;
}

// The play of a refused routine, in a panel above its lines.
class RefusedPlay extends Play {
  /**
   * @param {Program} program
   * @param {number} number the number of the routine
   */
  constructor(program, number) {
    super(program);
    [this.number, this.given] = [number, given_for(program, number)];
    const name = program.routines[number].name;
    this.make_panel(`A play of ${name}`, node(\"p\", { class: \"note\" }, IS_PICTURE), this.form_part(name), node(\"p\", { class: \"quiet\" }, this.made_words()));
    this.begin();
  }

  form_part(name) {
    this.input = node(\"input\", { type: \"text\", id: `call-${name}`, \"aria-label\": \"Words and lent blocks\", value: typed_of(this.given), autocomplete: \"off\", spellcheck: \"false\", size: 24 });
    this.wrong = node(\"span\", { class: \"wrong\", role: \"alert\" });
    const form = node(\"form\", { class: \"call\" }, node(\"label\", { for: this.input.id }, `Words w0 to w7, then @ and the handle of each lent block: `),
      this.input, \" \", node(\"button\", {}, \"Play with these\"), \" \", this.wrong);
    form.addEventListener(\"submit\", (event) => {
      event.preventDefault();
      this.read();
    });
    return form;
  }

  /** What the model makes before the routine begins. */
  made_words() {
    const { slots } = this.program.routines[this.number].entry;
    if (!slots.size) return \"Memory is empty at first, and the VM file is new.\";
    return \"The block of each slot has three chunks: 16 with letters, 18 with an array of two elements of 4 bytes, and 20 with the letters ABCDEF.\";
  }

  read() {
    try {
      this.wrong.textContent = \"\";
      this.given = given_of(this.input.value, this.program.routines[this.number].entry);
    } catch (why) {
      if (!(why instanceof Wrong)) throw why;
      this.wrong.textContent = why.said;
      return;
    }
    this.begin();
  }

  start() {
    return machine_of(this.program, this.number, this.given);
  }

  return_words() {
    return \"The routine returns, without a fault. The verifier looks at all paths and all words: try other words.\";
  }
}

/** @returns {RefusedPlay | null} the play of a routine, if the model has room for what its entry row requires */
function play_of(program, number) {
  try {
    return new RefusedPlay(program, number);
  } catch (why) {
    if (why instanceof Refusal) return null;
    throw why;
  }
}

/** The button of a refused routine, and the panel that it opens. */
function play_part(program, routine) {
  const number = program.number_of(routine.name);
  const is_refused = routine.lines.some((line) => line.findings.some(({ kind }) => kind === \"error\"));
  if (number < 0 || !is_refused) return null;
  const button = node(\"button\", { type: \"button\", class: \"play-button\", \"aria-expanded\": \"false\" }, \"Step to the fault: play this routine in a model\");
  const part = node(\"div\", { class: \"play-part\" }, button);
  button.addEventListener(\"click\", () => {
    const is_open = button.getAttribute(\"aria-expanded\") === \"true\";
    button.setAttribute(\"aria-expanded\", String(!is_open));
    if (is_open) {
      part.lastChild.remove();
      unmark_line();
      return;
    }
    const play = play_of(program, number);
    part.append(play ? play.panel : node(\"p\", { class: \"quiet\" }, \"The model has no room for the blocks of the entry row.\"));
    play?.on.focus();
  });
  return part;
}

// The page.

const explained = new Explained($(\"text\").textContent, lines_of($(\"data\").textContent).map((line) => JSON.parse(line)));
const is_listing = explained.page.shows === \"listing\";
const place_word = is_listing ? \"pc\" : \"line\";
const program = program_of(explained);

// A text in which places of other lines are links.
function linked(text) {
  return shown(text).split(/(\\b(?:lines?|LOOP|CALL) \\d+\\b)/).map((part) => {
    const found = /^lines? (\\d+)$/.exec(part);
    const line = found && !is_listing ? explained.by_number.get(found[1]) : null;
    return line ? node(\"a\", { href: \"#\" + line.id }, part) : part;
  });
}

function finding_item(finding) {
  const { message, cure, rule } = finding;
  const is_parted = cure && message.endsWith(\": \" + cure);
  const said = is_parted ? message.slice(0, -cure.length - 2) : message;
  const name = rule || (finding.kind === \"warning\" ? \"warning\" : \"fault\");
  return node(\"li\", { class: \"finding \" + finding.kind, id: finding.id, tabindex: \"-1\" },
    node(\"span\", { class: \"rule\" }, name), \" \", node(\"span\", { class: \"said\" }, ...linked(said)),
    is_parted ? node(\"span\", { class: \"cure\" }, ...linked(cure)) : null,
    RULES[rule] ? node(\"small\", { class: \"means\" }, [`${rule} requires: ${RULES[rule]}.`, MEANINGS[rule]].join(\" \").trim()) : null);
}

// The line of a routine, with its name in bold.
function code_cell(line) {
  if (!line.routine) return code_of(line.code);
  const [, before, rest] = /^(\\s*routine\\s+)(.*)$/s.exec(line.code) || [null, line.code, \"\"];
  const name = line.routine.name;
  return node(\"span\", { class: \"code\" }, before, node(\"b\", {}, shown(name)), ...code_of(rest.slice(name.length)).childNodes);
}

function line_items(line) {
  const kind = line.findings.some((f) => f.kind === \"error\") ? \"refused\" : line.causes.length ? \"cause\" : line.findings.length ? \"warned\" : false;
  const why = line.causes.map((f) => node(\"a\", { href: \"#\" + f.id }, `${place_word} ${f.at ? f.at.number : \"\"}`));
  const links = why.length ? node(\"span\", { class: \"why\" }, \"why \", ...why.flatMap((link, n) => n ? [\", \", link] : [link]), \" is refused\") : null;
  const remarks = line.steps ? [known_of(line.known), node(\"span\", { class: \"steps\" }, line.steps)] : [];
  const kinds = [kind, !line.steps && \"plain\"].filter((name) => name).join(\" \");
  const item = node(\"li\", { id: line.number ? line.id : false, class: kinds || false },
    node(\"span\", { class: \"n\" }, line.number), code_cell(line), ...remarks, links);
  return [item, ...line.findings.map(finding_item)];
}

function loop_item({ head, end, counter, steps, most }) {
  const each = steps === null ? \"\" : `: ${steps} step${steps === 1 ? \"\" : \"s\"} an iteration`;
  const often = most === null ? \"\" : `, at most ${most} iteration${most === 1 ? \"\" : \"s\"}`;
  return node(\"li\", {}, node(\"b\", {}, `${place_word}s ${head.number}\\u2013${end.number}`), ` loop by ${counter}${each}${often}`);
}

function graph_part(routine, labels) {
  const graph = new Graph(routine, labels);
  if (!graph.code.length) return null;
  const loops = graph.loops.length ? node(\"ul\", { class: \"loops\", \"aria-label\": \"Loops\" }, ...graph.loops.map(loop_item)) : null;
  const kinds = new Set(graph.edges.map((edge) => edge.kind));
  const key = [[\"jump\", \"jump\"], [\"refusal\", \"if refused\"], [\"loop\", \"loop\"]].filter(([kind]) => kinds.has(kind));
  const open = window.innerWidth > 900 || explained.routines.length === 1;
  return node(\"aside\", {}, node(\"details\", { open }, node(\"summary\", {}, \"Control flow\"), loops, graph.svg,
    node(\"p\", { class: \"key\", \"aria-hidden\": \"true\" }, ...key.map(([kind, said]) => node(\"span\", { class: kind }, said)))));
}

const tag = (text, kind = \"\") => node(\"span\", { class: (\"tag \" + kind).trim() }, text);

function routine_part(routine, labels) {
  const effects = explained.effects.get(routine.name);
  const tags = [routine.is_public ? tag(\"public\", \"held\") : null, routine.budget ? tag(\"budget \" + shown(routine.budget)) : null,
    ...(effects === undefined ? [] : effects.split(\",\").map((effect) => tag(effect === \"none\" ? \"no effects\" : effect, \"effect\")))];
  const heading = routine.name ? node(\"h2\", {}, shown(routine.name), ...tags) : null;
  const lines = node(\"ol\", { class: \"lines\", \"aria-label\": \"Lines, with what is known before each instruction, and the steps that are left\" }, ...routine.lines.flatMap(line_items));
  const play = program && play_part(program, routine);
  return node(\"section\", { class: \"routine\", \"data-routine\": routine.name }, heading, play, node(\"div\", { class: \"pair\" }, lines, graph_part(routine, labels)));
}

const counted = (n, word) => `${n} ${word}${n === 1 ? \"\" : \"s\"}`;

function show_verdict() {
  const errors = explained.findings.filter((f) => f.kind === \"error\").length + explained.more;
  const warnings = explained.findings.length - explained.findings.filter((f) => f.kind === \"error\").length;
  const is_faulty = explained.page.shows === \"faulty\";
  const said = is_faulty ? `not assembled: ${counted(errors, \"fault\")}` : errors ? `refused: ${counted(errors, \"finding\")}` : \"accepted\";
  $(\"verdict\").textContent = said + (warnings ? `, ${counted(warnings, \"warning\")}` : \"\");
  $(\"verdict\").className = errors ? \"bad\" : warnings ? \"warm\" : \"good\";
  const legend = legend_of(explained.lines).join(\"; \");
  $(\"about\").textContent = is_faulty ? \"\" : `Beside each instruction is what the verifier knows before it runs, and how many steps are left at most.${legend && ` ${legend}.`}`;
}

// The most findings in the list at the top.
const MOST_LISTED = 12;

function list_findings() {
  const items = explained.findings.slice(0, MOST_LISTED).map((f) => node(\"li\", { class: f.kind }, node(\"a\", { href: \"#\" + f.id },
    node(\"span\", { class: \"place\" }, f.at ? `${place_word} ${f.at.number}` : \"text\"), node(\"span\", { class: \"rule\" }, f.rule || \"\"),
    node(\"span\", { class: \"said\" }, shown(f.message.split(\": \")[0])))));
  const rest = explained.findings.length - items.length;
  if (rest > 0) items.push(node(\"li\", { class: \"rest quiet\" }, `${rest} more, at their lines`));
  if (explained.more > 0) items.push(node(\"li\", { class: \"rest quiet\" }, `${explained.more} more, which the page leaves out`));
  if (explained.findings.length > 1) $(\"findings\").replaceChildren(node(\"ol\", {}, ...items));
  $(\"findings\").hidden = explained.findings.length < 2;
}

// Goes to the next or the previous finding.
function go_along(is_on) {
  const items = [...document.querySelectorAll(\".finding\")];
  const now = items.indexOf(document.activeElement);
  const next = items[now < 0 ? is_on ? 0 : items.length - 1 : (now + (is_on ? 1 : items.length - 1)) % items.length];
  next?.focus({ preventScroll: true });
  next?.scrollIntoView({ block: \"center\" });
}

function show_page() {
  document.title = \"geos explain \\u2013 \" + shown(explained.page.file);
  $(\"name\").textContent = shown(explained.page.file);
  const labels = new Set(explained.lines.flatMap((line) => line.labels));
  $(\"help\").hidden = explained.findings.length < 2;
  const loose = explained.findings.filter((finding) => !finding.at);
  const top = loose.length ? node(\"ol\", { class: \"lines\" }, ...loose.map(finding_item)) : null;
  $(\"main\").replaceChildren(...[top, ...explained.routines.map((routine) => routine_part(routine, labels))].filter((part) => part));
  show_verdict();
  list_findings();
  document.addEventListener(\"keydown\", (event) => {
    if (event.ctrlKey || event.altKey || event.metaKey || event.target instanceof HTMLInputElement) return;
    if (event.key === \"n\" || event.key === \"p\") go_along(event.key === \"n\");
  });
  // The lines are new, so the browser looks for the place in the address again.
  if (location.hash) document.getElementById(decodeURIComponent(location.hash.slice(1)))?.scrollIntoView();
}

show_page();
</script>
</body>
</html>
";
