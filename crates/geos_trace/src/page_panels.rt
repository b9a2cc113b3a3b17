//! The page around a run. Made by tools/page.py from page/.

/// The rest of the page.
pub(crate) const PANELS: &str = "// The region: blocks as frames, with chunks and pointers.

// As wide as it is shown, so that letters keep their size.
const WIDTH = window.innerWidth < 900 ? Math.max(320, window.innerWidth - 30) : Math.min(1000, window.innerWidth / 2);
const [TOP, HIGH, EDGE] = [40, 40, 14];
// The width of a letter of a frame's name.
const LETTER = 8;

class Region {
  constructor(run, choose) {
    this.run = run;
    this.choose = choose;
    this.pieces = new Map();
    const blocks = [...run.blocks.values()].flat().map((entry) => entry.block).filter((b) => b.is_there);
    const from = Math.min(...blocks.map((b) => b.from), Infinity);
    const to = Math.max(...blocks.map((b) => b.to), 0);
    this.is_empty = !blocks.length;
    this.from = Math.max(0, Math.floor((from - 24) / 16) * 16);
    this.to = Math.max(this.from + 64, Math.ceil((to + 16) / 16) * 16);
    this.svg = draw(\"svg\", { viewBox: `0 0 ${WIDTH} 150`, role: \"img\" });
    this.below = draw(\"g\");
    this.above = draw(\"g\");
    this.svg.append(this.axis(), this.below, this.above);
  }

  x(at) {
    return EDGE + (at - this.from) / (this.to - this.from) * (WIDTH - 2 * EDGE);
  }

  axis() {
    const group = draw(\"g\");
    group.append(draw(\"line\", { class: \"axis-line\", x1: EDGE, x2: WIDTH - EDGE, y1: TOP + HIGH, y2: TOP + HIGH }));
    const parts = WIDTH < 500 ? 4 : 8;
    for (let n = 0; n <= parts; n++) {
      const at = Math.round(this.from + (this.to - this.from) * n / parts);
      group.append(draw(\"text\", { class: \"axis\", x: this.x(at), y: 142, \"text-anchor\": n ? n < parts ? \"middle\" : \"end\" : \"start\" }, String(at)));
    }
    return group;
  }

  // A piece that stays while it moves.
  piece(key, make) {
    if (!this.pieces.has(key)) {
      this.pieces.set(key, make());
      this.below.append(this.pieces.get(key));
    }
    return this.pieces.get(key);
  }

  width(from, to) {
    return Math.max(3, this.x(to) - this.x(from));
  }

  put_chunk(block, c, used) {
    const key = block.key + \" chunk \" + c.chunk;
    const group = this.piece(key, () => {
      const rect = draw(\"rect\", { y: TOP + 6, height: HIGH - 12, rx: 2, fill: fill_of(c.chunk), stroke: line_of(c.chunk) });
      return draw(\"g\", { class: \"move\" }, draw(\"title\"), rect, draw(\"text\", { class: \"handle\", y: TOP + 24, \"text-anchor\": \"middle\" }));
    });
    const wide = this.width(c.at, c.at + c.len);
    group.style.transform = `translate(${this.x(c.at)}px, 0)`;
    group.children[0].textContent = `chunk ${c.chunk} of ${block.key}: ${c.len} bytes at ${c.at}`;
    group.children[1].setAttribute(\"width\", wide);
    group.children[2].setAttribute(\"x\", wide / 2);
    group.children[2].textContent = wide > 20 ? String(c.chunk) : \"\";
    used.add(key);
  }

  // A frame, with a name that fits into the room before the next frame.
  put_frame(block, chosen, slots, room, used) {
    const group = this.piece(block.key, () => {
      const outer = draw(\"rect\", { y: TOP, height: HIGH, rx: 4, x: 1 });
      const inner = draw(\"rect\", { class: \"inner\", y: TOP + 3, height: HIGH - 6, rx: 2, x: 4 });
      const made = draw(\"g\", {}, draw(\"title\"), outer, inner, draw(\"text\", { y: TOP - 7, x: 1 }));
      made.addEventListener(\"click\", () => this.choose(block.key));
      return made;
    });
    const kinds = [block.vm && \"vm\", !block.locks && \"free\", block.key === chosen && \"chosen\"].filter((kind) => kind);
    group.setAttribute(\"class\", [\"move\", \"frame\", ...kinds].join(\" \"));
    group.style.transform = `translate(${this.x(block.from)}px, 0)`;
    group.children[0].textContent = `${block.key}, ${block.locks ? \"locked \" + times(block.locks) : \"not locked: it was here last\"}`;
    const wide = this.width(block.from, block.to);
    group.children[1].setAttribute(\"width\", Math.max(1, wide - 2));
    group.children[2].setAttribute(\"width\", Math.max(1, wide - 8));
    const said = block.locks ? [block.key, ...slots].join(\" \\u2190 \") : `${block.key}, not locked`;
    group.children[3].textContent = [said, block.key, \"\"].find((name) => name.length * LETTER <= room);
    used.add(block.key);
  }

  // Where a block lay before, and an arrow from there.
  moved(was, now) {
    const [old, to] = [(this.x(was.from) + this.x(was.to)) / 2, (this.x(now.from) + this.x(now.to)) / 2];
    const y = TOP - 3;
    this.above.append(
      draw(\"rect\", { class: \"ghost\", x: this.x(was.from) + 1, y: TOP, width: this.width(was.from, was.to) - 2, height: HIGH, rx: 4 }),
      draw(\"path\", { class: \"path\", d: `M${old} ${y}C${old} ${y - 34} ${to} ${y - 34} ${to} ${y - 4}` }),
      draw(\"path\", { class: \"tip\", d: `M${to - 5} ${y - 8}h10l-5 8z` }),
    );
  }

  // An arrow from a pointer's name to the byte that it leads to.
  pointer(number, target) {
    const kind = target.stale ? \"stale\" : \"good\";
    const x = Math.max(EDGE, Math.min(WIDTH - EDGE, this.x(target.at)));
    const [y, low] = [TOP + HIGH, TOP + HIGH + 28];
    const from = Math.max(20, Math.min(WIDTH - 30, x + (number - 1.5) * 26));
    this.above.append(
      draw(\"path\", { class: \"arrow \" + kind, d: `M${from} ${low}L${x} ${y - 2}m-4 8l4 -8l5 7` }),
      draw(\"text\", { class: \"label \" + kind, x: from - 8, y: low + 13 }, \"p\" + number),
    );
  }

  show(place, chosen) {
    const used = new Set();
    const blocks = this.run.blocks_in_memory(place);
    this.above.replaceChildren();
    for (const block of blocks) {
      for (const c of block.chunks) this.put_chunk(block, c, used);
      const next = blocks.map((other) => other.from).filter((from) => from > block.from);
      const room = next.length ? this.x(Math.min(...next)) - this.x(block.from) - 4 : Infinity;
      this.put_frame(block, chosen, this.run.slots_of(block, place), room, used);
      const was = this.run.moved_from(block, place);
      if (was) this.moved(was, block);
    }
    for (const [key, piece] of this.pieces) piece.style.display = used.has(key) ? \"\" : \"none\";
    this.run.targets[place].forEach((target, n) => target && this.pointer(n, target));
    const said = blocks.map((b) => `${b.key} at ${b.from} to ${b.to}${b.locks ? \"\" : \", not locked\"}`).join(\"; \");
    this.svg.setAttribute(\"aria-label\", \"The region: \" + (said || \"no block yet\"));
  }
}

// Registers, the bytes of a block, and the text.

function register(name, kind, value, small) {
  return node(\"div\", { class: kind, \"data-register\": name }, node(\"b\", {}, name), value, small ? node(\"small\", {}, small) : null);
}

// Words or counters, with those marked that the last step changed.
function number_set(letter, now, was) {
  return now.map((n, i) => {
    const made = register(letter + i, n !== was[i] ? \"changed\" : \"\", String(n));
    made.title = hex4(n);
    return made;
  });
}

function slot_cell(run, slot, place) {
  const block = run.held(slot, place);
  if (!block) return register(\"s\" + slot, \"wide empty\", \"empty\");
  const said = `locked ${times(block.locks)}${block.marked ? \", marked as changed\" : \"\"}`;
  return register(\"s\" + slot, \"wide held\" + (block.vm ? \" vm\" : \"\"), block.key, said);
}

// Where the bytes are now to which a stale pointer was set, if their block is locked.
function where_now(run, target, place) {
  if (!run.block(target.key, place)?.locks) return [];
  const now = run.now_at(target, place);
  return [now === null ? \"the chunk is gone\" : now === target.at ? \"the bytes are still there\" : `the bytes are now at ${now}`];
}

function pointer_cell(run, pointer, place) {
  const target = run.targets[place][pointer];
  const name = \"p\" + pointer;
  if (!target) return register(name, \"wide empty\", \"\\u2013\");
  const what = (target.element ? target.element + \" of \" : \"\") + `chunk ${target.chunk} of ${target.key}`;
  if (!target.stale) return register(name, \"wide good\", what, `${target.len} bytes at ${target.at}`);
  const { number } = run.steps[target.stale - 1];
  const said = [run.why(target), ...where_now(run, target, place)].join(\"; \");
  const cell = register(name, \"wide stale\", node(\"s\", {}, what), `stale since ${run.place_word} ${number}: ${said}`);
  cell.setAttribute(\"aria-label\", `${name} is stale: ${what}, ${said}`);
  return cell;
}

function show_registers(run, place) {
  const [now, was] = [run.state(place), run.state(Math.max(0, place - 1))];
  const set = (...cells) => node(\"div\", { class: \"set\" }, ...cells);
  $(\"registers\").replaceChildren(
    set(...number_set(\"w\", now.words, was.words)),
    set(...number_set(\"k\", now.counters, was.counters)),
    set(...[0, 1, 2, 3].map((slot) => slot_cell(run, slot, place))),
    set(...[0, 1, 2, 3].map((pointer) => pointer_cell(run, pointer, place))),
  );
}

function chunk_panel(run, block, was, c, place) {
  const old = was?.chunks.find((o) => o.chunk === c.chunk);
  const [bytes, before] = [bytes_of(c.hex), old ? bytes_of(old.hex) : []];
  const at = run.targets[place].filter((t) => t && !t.stale && t.key === block.key && t.chunk === c.chunk);
  const kind_of = (i) => {
    const is_at = at.some((t) => i >= t.at - c.at && i < t.at - c.at + t.len);
    return [bytes[i] === 0 && \"zero\", old && bytes[i] !== before[i] && \"changed\", is_at && \"at\"].filter((kind) => kind).join(\" \") || false;
  };
  const moved = old && old.at !== c.at ? node(\"span\", { class: \"tag news\" }, `moved from ${old.at}`) : null;
  const made = was && !old ? node(\"span\", { class: \"tag news\" }, \"new\") : null;
  const more = c.len > bytes.length ? node(\"p\", { class: \"quiet\" }, `${c.len - bytes.length} more bytes are not shown`) : null;
  const about = node(\"small\", {}, `${c.len} bytes at ${c.at} `);
  const names = run.targets[place].map((t, n) => at.includes(t) ? node(\"span\", { class: \"tag\" }, \"p\" + n) : null);
  const panel = node(\"div\", { class: \"chunk\" }, node(\"h3\", {}, `chunk ${c.chunk}`, about, moved, made, ...names), node(\"table\", { class: \"bytes\" }, ...byte_rows(bytes, kind_of)), more);
  panel.style.setProperty(\"--hue\", line_of(c.chunk));
  return panel;
}

function show_block(run, place, chosen) {
  const block = run.block(chosen, place);
  if (!block) {
    $(\"block\").replaceChildren(node(\"p\", { class: \"quiet\" }, run.blocks.size ? \"No block is held yet.\" : \"This run holds no block.\"));
    return;
  }
  const was = place ? run.block(chosen, place - 1) : null;
  const tags = [node(\"span\", { class: \"tag\" + (block.locks ? \" held\" : \"\") }, block.locks ? \"locked \" + times(block.locks) : \"not locked: it may move, or be gone\")];
  if (block.marked) tags.push(node(\"span\", { class: \"tag news\" }, \"marked as changed\"));
  const moved = run.moved_from(block, place);
  if (moved) tags.push(node(\"span\", { class: \"tag news\" }, `moved from ${moved.from}`));
  const chunks = block.chunks.map((c) => chunk_panel(run, block, was?.locks ? was : null, c, place));
  const none = block.locks && !chunks.length ? node(\"p\", { class: \"quiet\" }, \"It has no chunk yet.\") : null;
  $(\"block\").replaceChildren(node(\"div\", {}, ...tags), ...chunks, none || \"\");
}

function show_tabs(run, place, chosen, choose) {
  const tabs = run.blocks_at(place).map((block) => {
    const tab = node(\"button\", { role: \"tab\", \"aria-selected\": String(block.key === chosen), \"aria-controls\": \"block\", class: block.locks ? false : \"free\" }, block.key);
    tab.addEventListener(\"click\", () => choose(block.key));
    return tab;
  });
  $(\"tabs\").replaceChildren(...tabs);
}

function make_lines(run, go_to_line) {
  const rows = run.lines.map((line, row) => {
    const can = run.places[row].length > 0;
    const kinds = [can && \"can\", !line.known && \"plain\"].filter((kind) => kind).join(\" \");
    const item = node(\"li\", { class: kinds || false, title: can ? `runs ${times(run.places[row].length)}` : undefined },
      node(\"span\", { class: \"n\" }, line.number), code_of(line.code), line.known ? known_of(line.known) : null);
    if (can) item.addEventListener(\"click\", () => go_to_line(row));
    return item;
  });
  $(\"lines\").replaceChildren(...rows);
  return rows;
}

// Goes through the run.

// The most steps that are listed at the top.
const MOST_MOMENTS = 6;

class Player {
  constructor(run) {
    this.run = run;
    this.place = 0;
    this.chosen = null;
    this.follows = true;
    this.timer = null;
    this.rows = make_lines(run, (row) => this.go_to_line(row));
    this.region = new Region(run, (key) => this.choose(key));
    this.marked = [];
    this.head();
    if (!run.states.length) return;
    this.listen();
    this.go(this.place_in_address());
  }

  head() {
    const { run } = this;
    document.title = run.call + \" \\u2013 \" + run.file;
    $(\"call\").textContent = run.call;
    $(\"about\").textContent = `${run.file} \\u00b7 ${run.data.steps} steps of a budget of ${run.data.budget}`;
    $(\"slider\").max = run.last;
    const cuts = [];
    const last = run.skipped + run.states.length;
    if (!run.states.length) cuts.push(`The page shows no step: the run has ${run.data.steps}.`);
    else if (last < run.data.steps || run.skipped) cuts.push(`The page shows steps ${run.skipped + 1} to ${last} of ${run.data.steps}: \\`geos trace --steps A..B\\` chooses others.`);
    if (run.data.blocks_cut) cuts.push(\"Notes of blocks were too long: those of later steps are left out.\");
    $(\"cut\").textContent = cuts.join(\" \");
    $(\"cut\").hidden = !cuts.length;
    this.list_moments();
    if (this.region.is_empty) $(\"region\").append(node(\"p\", { class: \"quiet\" }, \"This run holds no block.\"));
    else $(\"region\").append(this.region.svg);
  }

  // Buttons that go to the steps at which a block moves, or a pointer becomes stale.
  list_moments() {
    const { moments, skipped } = this.run;
    const items = moments.slice(0, MOST_MOMENTS).map(({ place, said }) => {
      const button = node(\"button\", { type: \"button\" }, `step ${skipped + place}`);
      button.addEventListener(\"click\", () => this.go(place));
      return node(\"li\", {}, button, \" \", said.join(\"; \"));
    });
    const more = moments.length - items.length;
    if (more > 0) items.push(node(\"li\", { class: \"quiet\" }, `${more} more`));
    if (!items.length) items.push(node(\"li\", { class: \"quiet\" }, \"No block moves, and no pointer becomes stale.\"));
    $(\"moments\").replaceChildren(...items);
    $(\"moments\").hidden = !this.run.states.length;
  }

  listen() {
    const by = (n) => () => this.step(n);
    $(\"first\").onclick = () => this.go(0);
    $(\"back\").onclick = by(-1);
    $(\"on\").onclick = by(1);
    $(\"last\").onclick = () => this.go(this.run.last);
    $(\"play\").onclick = () => this.toggle();
    $(\"slider\").oninput = () => this.go(+$(\"slider\").value);
    document.addEventListener(\"keydown\", (event) => this.key(event));
    window.addEventListener(\"resize\", () => this.show());
  }

  key(event) {
    if (event.ctrlKey || event.altKey || event.metaKey) return;
    const moves = { ArrowLeft: this.place - 1, ArrowRight: this.place + 1, Home: 0, End: this.run.last, PageUp: this.place - 10, PageDown: this.place + 10 };
    if (event.key in moves) this.go(moves[event.key]);
    else if (event.key === \"n\" || event.key === \"p\") this.go_along_line(event.key === \"n\");
    else if (event.key === \" \" && event.target.tagName !== \"BUTTON\") this.toggle();
    else return;
    event.preventDefault();
  }

  step(n) {
    this.stop();
    this.go(this.place + n);
  }

  go(place) {
    this.place = Math.max(0, Math.min(this.run.last, place));
    this.follow();
    this.show();
  }

  // The place in the address, as #step=5.
  place_in_address() {
    const found = /^#step=(\\d+)$/.exec(location.hash);
    return found ? +found[1] - this.run.skipped : 0;
  }

  // To the next step at a line, or else to the first one.
  go_to_line(row) {
    const places = this.run.places[row];
    this.stop();
    this.go(places.find((place) => place > this.place) ?? places[0]);
  }

  // To the next or the previous step at the line that is next now.
  go_along_line(is_on) {
    const { run, place } = this;
    const places = run.places[run.next_row(place)] || [];
    const found = is_on ? places.find((other) => other > place) : places.filter((other) => other < place).pop();
    this.stop();
    if (found !== undefined) this.go(found);
  }

  choose(key) {
    this.chosen = key;
    this.show();
  }

  toggle() {
    if (this.timer) return this.stop();
    if (this.place >= this.run.last) this.go(0);
    this.timer = setInterval(() => this.place < this.run.last ? this.go(this.place + 1) : this.stop(), 700);
    this.show_play();
  }

  stop() {
    clearInterval(this.timer);
    this.timer = null;
    this.show_play();
  }

  show_play() {
    $(\"play\").textContent = this.timer ? \"\\u275a\\u275a pause\" : \"\\u25b6\\ufe0e play\";
    $(\"play\").setAttribute(\"aria-label\", this.timer ? \"Pause\" : \"Play\");
  }

  // Chooses the block that the last step changed, or one that is held.
  follow() {
    const { run, place } = this;
    const blocks = run.blocks_at(place);
    const changed = blocks.find((b) => b.locks && run.has_changed(b.key, place));
    const still = blocks.find((b) => b.key === this.chosen && b.locks);
    const found = changed || still || blocks.find((b) => b.locks) || blocks[blocks.length - 1];
    this.chosen = found ? found.key : null;
  }

  show() {
    const { run, place } = this;
    $(\"slider\").value = place;
    $(\"where\").textContent = `step ${run.skipped + place} of ${run.data.steps}`;
    $(\"slider\").setAttribute(\"aria-valuetext\", $(\"where\").textContent);
    for (const id of [\"first\", \"back\"]) $(id).disabled = place === 0;
    for (const id of [\"on\", \"last\"]) $(id).disabled = place === run.last;
    this.show_done();
    this.show_line();
    show_registers(run, place);
    this.region.show(place, this.chosen);
    show_tabs(run, place, this.chosen, (key) => this.choose(key));
    show_block(run, place, this.chosen);
    this.show_commits();
    this.show_output();
  }

  // What the last step did, and what is next.
  show_done() {
    const { run, place } = this;
    const step = place ? run.steps[place - 1] : null;
    const parts = step ? [`${step.number}: ${step.code} `, node(\"b\", {}, step.did)] : [run.skipped ? `After ${run.skipped} steps. ` : \"At the start. \"];
    for (const said of [...run.moves(place), ...run.stale_since(place)]) parts.push(node(\"i\", {}, ` \\u2013 ${said}`));
    $(\"done\").replaceChildren(...parts);
  }

  show_line() {
    const { run, place } = this;
    for (const row of this.marked) {
      row.classList.remove(\"now\", \"was\");
      row.removeAttribute(\"aria-current\");
    }
    const now = this.rows[run.next_row(place)];
    const was = place ? this.rows[run.row_of(run.steps[place - 1])] : null;
    this.marked = [now, was].filter((row) => row);
    if (was) was.classList.add(\"was\");
    if (!now) return;
    now.classList.add(\"now\");
    now.setAttribute(\"aria-current\", \"step\");
    this.scroll_to(now);
  }

  // Only the list scrolls, not the page.
  scroll_to(row) {
    const list = $(\"lines\");
    const at = row.offsetTop - list.offsetTop;
    if (at < list.scrollTop + 40 || at > list.scrollTop + list.clientHeight - 60) list.scrollTop = at - list.clientHeight / 2;
  }

  // Changes of the VM file, and commits, up to here.
  show_commits() {
    const commits = this.run.commits.filter((commit) => commit.place <= this.place);
    $(\"commits-section\").hidden = !this.run.commits.length;
    $(\"commits\").replaceChildren(...commits.map((c) => node(\"span\", { class: \"tag\" + (c.place === this.place ? \" news\" : \"\") }, `step ${this.run.skipped + c.place}: ${c.said}`)));
    if (!commits.length) $(\"commits\").append(node(\"span\", { class: \"quiet\" }, \"nothing yet\"));
  }

  show_output() {
    const { run, place } = this;
    const count = run.outputs[Math.min(place, run.outputs.length - 1)];
    const is_new = place > 0 && run.outputs[place - 1] < count;
    const words = run.words.slice(0, count).map((word, n) => node(\"span\", { class: is_new && n === count - 1 ? \"changed\" : false, title: hex4(word) }, String(word)));
    $(\"output\").replaceChildren(...(words.length ? words : [node(\"i\", { class: \"quiet\" }, \"nothing yet\")]));
  }
}

window.player = new Player(new Run(JSON.parse($(\"run\").textContent)));
</script>
</body>
</html>
";
