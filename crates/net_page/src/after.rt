//! The text of a page after its payload. Made by `.ci/page_text`.

/// Returns the text of a page after its payload.
pub fn tail() -> &'static [u8] {
    b"</script>\n\
<script>\n\
\"use strict\";\n\
const startedAt = performance.now();\n\
const failures = [];\n\
window.addEventListener(\"error\", (event) => noteFailure(event.message));\n\
document.addEventListener(\"securitypolicyviolation\", (event) => noteFailure(event.violatedDirective));\n\
const ROW = 19;\n\
const TEXT = 12;\n\
const LINE = 17;\n\
const TOP = 8;\n\
const NEAR = 1200;\n\
const PRINTED = 4000;\n\
const STEPS_NEAR = 12;\n\
const LANE = 8;\n\
const LETTER = 7.5;\n\
const PRINT_WIDTH = 700;\n\
const PRINT_HEIGHT = 880;\n\
const TICK = \"\\u2713\";\n\
const CROSS = \"\\u2717\";\n\
const DOTS = \"\\u2026\";\n\
const DASH = \"\\u2013\";\n\
const DROPS = { toobig: \"too big\", nostation: \"no station\", noroute: \"no route\", ttl: \"ttl used up\" };\n\
const CAUSES = [\"\", \"connection refused\", \"timed out\", \"hungup\", \"hungup by peer\"];\n\
const SYMBOLS = { answered: TICK, refused: CROSS, waits: DOTS, owes: DOTS, ahead: \"\" };\n\
function noteFailure(text) {\n\
failures.push(text);\n\
document.body.dataset.errors = failures.length;\n\
const message = document.getElementById(\"message\");\n\
message.textContent = `This page cannot show the run: ${text}`;\n\
message.hidden = false;\n\
}\n\
const byId = (id) => document.getElementById(id);\n\
const numberOf = (word) => (word === \"-\" ? null : Number(word));\n\
const wordOf = (word) => (word === \"-\" ? null : word);\n\
const clamp = (n, least, most) => Math.max(least, Math.min(most, n));\n\
function lowerBound(length, itemAt, wanted) {\n\
let low = 0;\n\
let high = length;\n\
while (low < high) {\n\
const middle = (low + high) >> 1;\n\
if (itemAt(middle) < wanted) low = middle + 1;\n\
else high = middle;\n\
}\n\
return low;\n\
}\n\
function html(name, attributes = {}, ...children) {\n\
const made = document.createElement(name);\n\
for (const [key, value] of Object.entries(attributes)) made.setAttribute(key, value);\n\
made.append(...children);\n\
return made;\n\
}\n\
function svg(parent, name, attributes, text) {\n\
const made = document.createElementNS(\"http://www.w3.org/2000/svg\", name);\n\
for (const key in attributes) made.setAttribute(key, attributes[key]);\n\
if (text !== undefined) made.textContent = text;\n\
parent.append(made);\n\
return made;\n\
}\n\
const jump = (text, n) => html(\"button\", { type: \"button\", class: \"link\", \"data-n\": n }, text);\n\
function readPayload(text) {\n\
const lines = text.split(\"\\n\");\n\
let at = lines.indexOf(\"page 1\") + 1;\n\
const part = (name) => {\n\
const [word, count] = (lines[at] || \"\").split(\" \");\n\
const after = at + 1 + Number(count);\n\
if (at === 0 || word !== `%${name}` || !(after < lines.length)) throw new Error(`its payload has no whole part ${name}`);\n\
const found = lines.slice(at + 1, after);\n\
at = after;\n\
return found;\n\
};\n\
return { input: part(\"input\"), packets: part(\"packets\"), steps: part(\"steps\"), ends: part(\"ends\") };\n\
}\n\
function bytesOfLine(line) {\n\
const bytes = [];\n\
for (let at = 0; at < line.length; at++) {\n\
if (line[at] === \"\\\\\" && at + 2 < line.length) {\n\
bytes.push(parseInt(line.slice(at + 1, at + 3), 16));\n\
at += 2;\n\
} else if (line[at] !== \"\\\\\") bytes.push(line.charCodeAt(at));\n\
}\n\
return Uint8Array.from(bytes);\n\
}\n\
const bytesOfHex = (hex) => Uint8Array.from(hex === \"-\" ? [] : hex.match(/../g).map((digits) => parseInt(digits, 16)));\n\
const shownText = (bytes) => new TextDecoder().decode(bytes).replace(/[\\u0000-\\u001f\\u007f-\\u009f]/g, \"\\u00b7\");\n\
function readWorld(lines) {\n\
const world = { hosts: [], links: [], scripts: [] };\n\
for (const line of lines) {\n\
const [word, name] = line.split(\" \");\n\
if (word === \"ndb\") break;\n\
if (word === \"medium\") world.links.push(name);\n\
if (word === \"host\") world.hosts.push(name);\n\
if (word === \"script\" || word === \"session\") world.scripts.push(world.hosts.indexOf(name));\n\
}\n\
return world;\n\
}\n\
function readHistory(lines) {\n\
const texts = [];\n\
const times = [];\n\
let end = null;\n\
for (const line of lines) {\n\
const code = line.charCodeAt(0);\n\
if (code >= 48 && code <= 57) {\n\
const space = line.indexOf(\" \") + 1;\n\
texts.push(line);\n\
times.push(parseInt(line.slice(space, space + 12), 10));\n\
} else if (line.startsWith(\"end \")) end = line.split(\" \");\n\
}\n\
return { texts, times, end };\n\
}\n\
function readPacket(row, index) {\n\
const words = row.split(\" \");\n\
const [stamp, link, frame, from, to, by, id, ack, again, text] = [0, 2, 3, 4, 5, 6, 9, 10, 11, 12].map((place) => numberOf(words[place]));\n\
const [kind, end, peer] = [words[1], wordOf(words[7]), wordOf(words[8])];\n\
const takes = words[13] === \"-\" ? [] : words[13].split(\",\").map(Number);\n\
return { index, stamp, kind, link, frame, from, to, by, end, peer, id, ack, again, text, takes, lost: false, firstTake: 0, header: null };\n\
}\n\
function readStep(row, index) {\n\
const [line, script, word, time, first, last, reply] = row.split(\" \");\n\
const numbers = { line: Number(line), script: Number(script), time: numberOf(time) };\n\
return { index, word, ...numbers, first: numberOf(first), last: numberOf(last), reply: numberOf(reply) };\n\
}\n\
function readEnds(rows) {\n\
const ends = new Map();\n\
for (const row of rows) {\n\
const end = row.split(\" \", 2)[1];\n\
if (ends.has(end)) ends.get(end).push(row);\n\
else ends.set(end, [row]);\n\
}\n\
return ends;\n\
}\n\
function readRun(text) {\n\
const parts = readPayload(text);\n\
const cut = parts.input.indexOf(\"%history\");\n\
const world = readWorld(cut < 0 ? parts.input : parts.input.slice(0, cut));\n\
const run = { ...world, ...readHistory(cut < 0 ? [] : parts.input.slice(cut + 1)) };\n\
run.lines = parts.input;\n\
run.count = run.texts.length;\n\
run.packets = parts.packets.map(readPacket);\n\
run.steps = parts.steps.map(readStep);\n\
run.ends = readEnds(parts.ends);\n\
const used = run.hosts.map(() => 0);\n\
run.lanes = run.scripts.map((host) => used[host]++);\n\
run.stepsOf = run.scripts.map(() => []);\n\
for (const step of run.steps) run.stepsOf[step.script].push(step);\n\
noteOutcomes(run);\n\
return run;\n\
}\n\
function noteOutcomes(run) {\n\
const whole = run.end !== null && run.end[1] !== \"limit\";\n\
const newest = run.links.map(() => 0);\n\
run.takes = 0;\n\
for (const it of run.packets) if (it.takes.length) newest[it.link] = Math.max(newest[it.link], it.frame);\n\
for (const it of run.packets) {\n\
it.lost = it.kind === \"laid\" && it.takes.length === 0 && (whole || it.frame < newest[it.link]);\n\
it.firstTake = run.takes;\n\
run.takes += it.takes.length;\n\
}\n\
}\n\
const frameOf = (link, frame) => run.packets.find((it) => it.frame === frame && it.link === link) || null;\n\
function headerOf(packet) {\n\
if (packet.header === null) {\n\
const text = run.texts[packet.by];\n\
const [protocol, source, destination, ttl, tos, ...rest] = text.slice(text.indexOf(\" + \") + 3).split(\" \");\n\
const [length, ack, id, spec, kind] = protocol === \"udp\" ? rest : rest.slice(0, 5).reverse();\n\
const pair = source < destination ? `${source} ${destination}` : `${destination} ${source}`;\n\
packet.header = { protocol, source, destination, ttl: Number(ttl), tos, kind, spec, id, ack, length: Number(length), pair };\n\
}\n\
return packet.header;\n\
}\n\
function replyOf(stamp) {\n\
const text = run.texts[stamp];\n\
return text.slice(text.indexOf(\" = \") + 3).replace(/ \\+ .*| ended$/, \"\").split(\" \");\n\
}\n\
function replyText(stamp) {\n\
const [word, value] = replyOf(stamp);\n\
if (word === \"hungup\") return CAUSES[Number(value)];\n\
if (word === \"bytes\") return `bytes ${value === \"-\" ? 0 : value.length / 2}`;\n\
if (word === \"lines\" || word === \"names\") return `${word} ${(value.match(/../g) || []).filter((digits) => digits === \"0a\").length}`;\n\
if (value === undefined || word === \"granted\" || word === \"opened\") return word;\n\
return `${word} ${value}`;\n\
}\n\
function callerText(number) {\n\
const script = run.scripts[number];\n\
if (script !== undefined) return `script ${number} of ${run.hosts[script]}`;\n\
const link = run.links[number - run.scripts.length];\n\
return link === undefined ? \"clock\" : `delivery process of ${link}`;\n\
}\n\
function hopsBefore(packet) {\n\
const words = run.texts[packet.stamp].split(\" \");\n\
const cited = words[5] === \"put\" ? run.texts[Number(words[4])].split(\" \") : words;\n\
if (cited[5] !== \"take\") return 0;\n\
const before = frameOf(Number(cited[3].slice(7)), Number(cited[8]));\n\
return before ? hopsBefore(before) + (words[5] === \"put\" ? 1 : 0) : 0;\n\
}\n\
const bytesOfPacket = (packet) => bytesOfHex(packet.text === null ? \"-\" : run.texts[packet.text].split(\" \")[7]);\n\
function relative(n) {\n\
if (n === null) return DASH;\n\
return n < 2 ** 31 ? `+${n}` : `\\u2212${2 ** 32 - n}`;\n\
}\n\
function contentText(packet) {\n\
const header = headerOf(packet);\n\
const length = header.length ? `, ${header.length} B` : \"\";\n\
if (header.protocol === \"udp\") {\n\
const port = (address) => address.split(\"!\")[1];\n\
return `udp ${port(header.source)} to ${port(header.destination)}, ${header.length} B`;\n\
}\n\
return `${header.kind} ${relative(packet.id)} ack ${relative(packet.ack)}${length}`;\n\
}\n\
function outcomeText(packet) {\n\
if (packet.kind !== \"laid\") return DROPS[packet.kind];\n\
if (packet.lost) return \"lost\";\n\
return packet.takes.length ? \"\" : \"not taken\";\n\
}\n\
function frameText(packet) {\n\
if (packet.frame === null) return \"\";\n\
return run.links.length > 1 ? `${packet.frame} of ${run.links[packet.link]}` : `${packet.frame}`;\n\
}\n\
function storyText(packet) {\n\
const notes = [packet.again === null ? \"\" : \"again\", packet.takes.length > 1 ? \"twice\" : \"\", outcomeText(packet)];\n\
return [contentText(packet), ...notes.filter((it) => it)].join(\", \");\n\
}\n\
const labelText = (packet) => `${frameText(packet)} ${storyText(packet)}`.trim();\n\
function packetName(packet) {\n\
const to = packet.to === null ? \"\" : ` to ${run.hosts[packet.to]}`;\n\
return `${run.hosts[packet.from]}${to}, packet ${labelText(packet)}`;\n\
}\n\
function stepText(step) {\n\
if (step.shown === undefined) {\n\
const bytes = bytesOfLine(run.lines[step.line - 1]);\n\
const written = /^(writex \\S+) ([0-9a-f]+)$/.exec(shownText(bytes));\n\
const text = written ? bytesOfHex(written[2]) : null;\n\
const printable = text !== null && text.every((byte) => byte >= 32 && byte < 127);\n\
step.shown = printable ? `${written[1]} \"${shownText(text)}\"` : shownText(bytes);\n\
}\n\
return step.shown;\n\
}\n\
const shortened = (text, most) => (text.length > most ? `${text.slice(0, most - 1)}${DOTS}` : text);\n\
function stepResult(step) {\n\
if (step.word === \"waits\") return \"waits\";\n\
if (step.word === \"owes\") return \"has a pending follow-up event\";\n\
if (step.word === \"ahead\") return \"\";\n\
return `${step.time} ms, ${step.reply === null ? step.word : replyText(step.reply)}`;\n\
}\n\
function showsPacket(packet) {\n\
const { host, link, protocol, pair } = filter;\n\
if (host !== null && packet.from !== host && packet.to !== host) return false;\n\
if (link !== null && packet.link !== link) return false;\n\
if (protocol !== null && headerOf(packet).protocol !== protocol) return false;\n\
return pair === null || headerOf(packet).pair === pair;\n\
}\n\
const showsStep = (step) => filter.steps && step.word !== \"ahead\" && (filter.host === null || run.scripts[step.script] === filter.host);\n\
const hasEnded = (step) => step.word === \"answered\" || step.word === \"refused\";\n\
const stampOfStep = (step) => (hasEnded(step) && step.last !== null ? step.last : run.count);\n\
function chartEvents() {\n\
const events = [];\n\
const orders = [];\n\
const add = (stamp, rank, event) => {\n\
orders.push((stamp * 4 + rank) * 2 ** 22 + events.length);\n\
events.push(event);\n\
};\n\
for (const packet of run.packets) {\n\
if (!showsPacket(packet)) continue;\n\
add(packet.stamp, 1, { stamp: packet.stamp, packet, step: null, copy: -1 });\n\
packet.takes.forEach((stamp, copy) => add(stamp, 0, { stamp, packet, step: null, copy }));\n\
}\n\
for (const step of run.steps) if (showsStep(step)) add(stampOfStep(step), 2, { stamp: stampOfStep(step), packet: null, step, copy: -1 });\n\
return Array.from(Float64Array.from(orders).sort(), (order) => events[order % 2 ** 22]);\n\
}\n\
function reachesTime({ packet, step, copy }, time) {\n\
const room = 10 + LETTER * `${time} ms`.length;\n\
if (step) {\n\
const host = run.scripts[step.script];\n\
const letters = 2 + Math.min(stepText(step).length, geometry.letters);\n\
return !isLastHost(host) && geometry.x[host] - 8 - geometry.lanes[host] - LETTER * letters < room;\n\
}\n\
return copy < 0 && labelGoesLeft(packet) && geometry.x[packet.from] - 36 - LETTER * labelText(packet).length < room;\n\
}\n\
function layOut() {\n\
const { count, packets, steps } = run;\n\
const rowAt = new Int32Array(count + 2);\n\
const none = (length) => new Int32Array(length).fill(-1);\n\
layout = { rowAt, bands: [], rows: 0, packetRow: none(packets.length), takeRow: none(run.takes), stepRow: none(steps.length) };\n\
let filled = 0;\n\
let band = { time: -1, row: 0 };\n\
for (const event of chartEvents()) {\n\
while (filled <= event.stamp) rowAt[filled++] = layout.rows;\n\
const time = event.stamp < count ? run.times[event.stamp] : null;\n\
if (band.time !== time) {\n\
band = { time, row: layout.rows };\n\
layout.bands.push(band);\n\
if (time !== null && reachesTime(event, time)) layout.rows++;\n\
}\n\
const { packet, step, copy } = event;\n\
const row = layout.rows++;\n\
if (step) layout.stepRow[step.index] = row;\n\
else if (copy < 0) layout.packetRow[packet.index] = row;\n\
else layout.takeRow[packet.firstTake + copy] = row;\n\
}\n\
while (filled < rowAt.length) rowAt[filled++] = layout.rows;\n\
if (band.time === null) rowAt[count] = band.row;\n\
else layout.bands.push({ time: null, row: layout.rows });\n\
layout.rows++;\n\
}\n\
function columns(width) {\n\
const narrow = width < 700;\n\
const last = run.hosts.length - 1;\n\
const lanes = run.hosts.map((_, host) => run.scripts.filter((it) => it === host).length * LANE);\n\
const side = narrow ? 150 : 230;\n\
const left = side + (last > 0 ? Math.max(0, lanes[0] - 2 * LANE) : 0);\n\
const right = side + Math.max(0, (lanes[last] || 0) - 2 * LANE);\n\
const least = Math.max(narrow ? 150 : 170, ...lanes.map((it) => it + 120));\n\
const gap = last > 0 ? Math.max(least, (width - left - right) / last) : 0;\n\
return { width: Math.max(width, left + right + gap * last), x: run.hosts.map((_, host) => Math.round(left + gap * host)), lanes, letters: narrow ? 16 \
: 26 };\n\
}\n\
const isLastHost = (host) => host === run.hosts.length - 1;\n\
const yOfRow = (row) => TOP + row * ROW;\n\
function labelGoesLeft(packet) {\n\
const isAtEdge = isLastHost(packet.from) && run.hosts.length > 1;\n\
return packet.kind !== \"laid\" || packet.to === packet.from ? isAtEdge : packet.to < packet.from;\n\
}\n\
function drawRows(chart, first, last) {\n\
chart.replaceChildren();\n\
const shapes = [];\n\
const layers = [\"bands\", \"columns\", \"bars\", \"arrows\", \"labels\"].map((name) => svg(chart, \"g\", { class: name }));\n\
drawBands(layers[0], layers[4], first, last);\n\
for (const x of geometry.x) svg(layers[1], \"line\", { class: \"column\", x1: x, x2: x, y1: yOfRow(first) - TOP, y2: yOfRow(last + 1) });\n\
drawScripts(shapes, layers, first, last);\n\
for (const packet of run.packets) {\n\
const row = layout.packetRow[packet.index];\n\
const end = packet.takes.length ? layout.takeRow[packet.firstTake + packet.takes.length - 1] : row;\n\
if (row >= 0 && row <= last && end >= first) drawPacket(shapes, layers, packet, row);\n\
}\n\
return shapes;\n\
}\n\
function drawBands(bands, labels, first, last) {\n\
layout.bands.forEach((band, place) => {\n\
const next = layout.bands[place + 1];\n\
const end = next ? next.row : layout.rows;\n\
if (band.row > last || end <= first) return;\n\
const top = Math.max(band.row, first);\n\
const height = (Math.min(end, last + 1) - top) * ROW;\n\
if (place % 2 === 0) svg(bands, \"rect\", { class: \"band\", x: 0, y: yOfRow(top), width: geometry.width, height });\n\
const text = band.time === null ? endText() : `${band.time} ms`;\n\
const row = band.time === null ? end - 1 : band.row;\n\
if (row >= first && row <= last) svg(labels, \"text\", { class: band.time === null ? \"end\" : \"time\", x: 4, y: yOfRow(row) + TEXT }, text);\n\
});\n\
}\n\
const endText = () => (run.end === null ? \"end of the history, without a summary\" : `end ${run.end[1]} ${run.end[2]} ms`);\n\
function drawScripts(shapes, layers, first, last) {\n\
run.stepsOf.forEach((steps) => {\n\
let from = 0;\n\
let begun = 0;\n\
for (const step of steps) {\n\
const row = layout.stepRow[step.index];\n\
if (row < 0) continue;\n\
if (from <= last && row >= first) drawStep(shapes, layers, { step, begun, from: Math.max(from, first), to: Math.min(row, last), ends: row <= last });\
\n\
from = row + 1;\n\
begun = stampOfStep(step) + 1;\n\
}\n\
});\n\
}\n\
function drawStep(shapes, layers, { step, begun, from, to, ends }) {\n\
const host = run.scripts[step.script];\n\
const side = isLastHost(host) ? 1 : -1;\n\
const x = geometry.x[host] + side * (6 + run.lanes[step.script] * LANE);\n\
const top = `M${x} ${yOfRow(from) + 2}V`;\n\
const bar = svg(layers[2], \"path\", { d: `${top}${yOfRow(to) + (ends ? LINE : ROW)}` });\n\
shapes.push({ shape: bar, kind: \"bar\", step, begun, top });\n\
if (!ends) return;\n\
const text = `${SYMBOLS[step.word]} ${shortened(stepText(step), geometry.letters)}`;\n\
const place = { x: geometry.x[host] + side * (8 + geometry.lanes[host]), y: yOfRow(to) + TEXT, \"text-anchor\": side > 0 ? \"start\" : \"end\" };\n\
const label = svg(layers[4], \"text\", { ...place, \"data-n\": Math.min(run.count, stampOfStep(step) + 1) }, text);\n\
if (text.endsWith(DOTS)) svg(label, \"title\", {}, stepText(step));\n\
shapes.push({ shape: label, kind: \"step\", step, inBand: isInBand(to) });\n\
}\n\
function drawPacket(shapes, layers, packet, row) {\n\
const name = packetName(packet);\n\
const attributes = { role: \"button\", tabindex: -1, \"aria-label\": name, \"data-packet\": packet.index };\n\
const drawGroup = (copy) => {\n\
const group = svg(layers[3], \"g\", attributes);\n\
shapes.push({ shape: group, kind: \"packet\", packet, copy });\n\
return group;\n\
};\n\
packet.takes.forEach((_, copy) => drawArrow(drawGroup(copy), packet, row, layout.takeRow[packet.firstTake + copy]));\n\
if (packet.kind !== \"laid\") drawDrop(drawGroup(0), packet, row);\n\
else if (packet.takes.length === 0) drawUntaken(drawGroup(0), packet, row);\n\
drawLabel(shapes, layers[4], packet, row);\n\
}\n\
function drawArrow(group, packet, row, take) {\n\
const from = geometry.x[packet.from];\n\
const to = geometry.x[packet.to];\n\
const y = yOfRow(row) + LINE;\n\
const end = yOfRow(take) + 10;\n\
const side = to > from || (to === from && !labelGoesLeft(packet)) ? 1 : -1;\n\
const foot = end - (8 * (end - y)) / Math.abs(to - from);\n\
const path = to === from ? `M${from} ${y}h${side * 60}V${end}H${from + side * 8}` : `M${from + side} ${y}L${to - side * 8} ${foot}`;\n\
const angle = to === from ? (side > 0 ? 180 : 0) : (Math.atan2(end - y, to - from) * 180) / Math.PI;\n\
svg(group, \"path\", { class: \"reach\", d: path });\n\
svg(group, \"path\", { class: \"line\", d: path });\n\
svg(group, \"path\", { class: \"head\", d: \"M0 0L-9 -4V4Z\", transform: `translate(${to} ${end}) rotate(${angle})` });\n\
}\n\
function drawUntaken(group, packet, row) {\n\
const from = geometry.x[packet.from];\n\
const to = geometry.x[packet.to];\n\
const side = to === from ? (labelGoesLeft(packet) ? -1 : 1) : Math.sign(to - from);\n\
const x = to === from ? from + side * 60 : from + (to - from) * 0.65;\n\
const y = yOfRow(row) + LINE;\n\
const path = `M${from + side} ${y}L${x} ${y + 2}`;\n\
svg(group, \"path\", { class: \"reach\", d: path });\n\
svg(group, \"path\", { class: \"line\", d: path });\n\
if (packet.lost) svg(group, \"path\", { class: \"line sign cross\", d: `M${x - 5} ${y - 3}l10 10m0 -10l-10 10` });\n\
}\n\
function drawDrop(group, packet, row) {\n\
const side = labelGoesLeft(packet) ? -1 : 1;\n\
const from = geometry.x[packet.from];\n\
const y = yOfRow(row) + 9;\n\
const x = from + side * 24;\n\
svg(group, \"path\", { class: \"reach\", d: `M${from} ${y}H${x + side * 6}` });\n\
svg(group, \"path\", { class: \"line\", d: `M${from + side} ${y}H${x - side * 6}` });\n\
svg(group, \"circle\", { class: \"line sign drop\", cx: x, cy: y, r: 6 });\n\
svg(group, \"path\", { class: \"line sign\", d: `M${x - 4} ${y + 4}l8 -8` });\n\
}\n\
function drawLabel(shapes, layer, packet, row) {\n\
const side = labelGoesLeft(packet) ? -1 : 1;\n\
const beside = isLastHost(packet.from) === side > 0 ? geometry.lanes[packet.from] : 0;\n\
const x = geometry.x[packet.from] + side * (packet.kind === \"laid\" ? 8 + beside : 36);\n\
const anchor = side > 0 ? \"start\" : \"end\";\n\
const attributes = { x, y: yOfRow(row) + TEXT, \"text-anchor\": anchor, \"aria-hidden\": true, \"data-packet\": packet.index };\n\
shapes.push({ shape: svg(layer, \"text\", attributes, labelText(packet)), kind: \"label\", packet, copy: 0, inBand: isInBand(row) });\n\
}\n\
function classOf(it, n) {\n\
if (it.kind === \"bar\" || it.kind === \"step\") return stepClass(it, n);\n\
const { packet, copy } = it;\n\
const words = [it.kind];\n\
if (packet.kind !== \"laid\" || packet.lost) words.push(\"lost\");\n\
else words.push(packet.again !== null || copy > 0 ? \"again\" : \"sent\");\n\
if (packet.again !== null || copy > 0) words.push(\"dashed\");\n\
if (packet.stamp >= n) words.push(\"later\");\n\
else if (packet.kind === \"laid\" && !packet.lost && !(packet.takes[copy] < n)) words.push(\"flying\");\n\
if (packet === selected) words.push(\"chosen\");\n\
if (it.inBand) words.push(\"in-band\");\n\
return words.join(\" \");\n\
}\n\
function stepClass(it, n) {\n\
const { step } = it;\n\
const words = [it.kind === \"step\" ? \"step label\" : \"bar\"];\n\
if (stampOfStep(step) < n) words.push(step.word);\n\
else words.push(n === run.count ? \"waiting\" : \"later\");\n\
if (it.inBand) words.push(\"in-band\");\n\
return words.join(\" \");\n\
}\n\
const isInBand = (row) => lowerBound(layout.bands.length, (place) => layout.bands[place].row, row + 1) % 2 === 1;\n\
function drawAround(row) {\n\
const entry = lowerBound(run.count, (stamp) => layout.rowAt[stamp], row);\n\
view.from = clamp(entry - NEAR, 0, run.count);\n\
view.to = clamp(entry + NEAR, 0, run.count);\n\
view.first = view.from === 0 ? 0 : layout.rowAt[view.from];\n\
view.last = view.to === run.count ? layout.rows : layout.rowAt[view.to];\n\
const height = yOfRow(layout.rows + 1);\n\
const chart = byId(\"chart\");\n\
chart.setAttribute(\"width\", geometry.width);\n\
chart.setAttribute(\"height\", height);\n\
view.shapes = drawRows(chart, view.first, view.last);\n\
view.waits = svg(chart, \"path\", { class: \"bar waiting\" });\n\
view.line = svg(chart, \"g\", {});\n\
svg(view.line, \"path\", { class: \"now-line\", d: `M0 0H${geometry.width}` });\n\
svg(view.line, \"path\", { class: \"now-mark\", d: \"M0 -6L9 0L0 6Z\" });\n\
drawTable();\n\
countShapes();\n\
paint();\n\
}\n\
function drawNames(names) {\n\
names.replaceChildren();\n\
names.setAttribute(\"width\", geometry.width);\n\
names.setAttribute(\"height\", 24);\n\
run.hosts.forEach((host, place) => svg(names, \"text\", { class: \"name\", x: geometry.x[place], y: 17, \"text-anchor\": \"middle\" }, host));\n\
}\n\
const yOfNow = (n) => yOfRow(layout.rowAt[n]) - 0.5;\n\
function paint() {\n\
const waits = [];\n\
for (const it of view.shapes) {\n\
const words = classOf(it, now);\n\
if (it.top && words === \"bar later\" && it.begun <= now) waits.push(`${it.top}${Math.max(yOfNow(now) - 3, 0)}`);\n\
if (words === it.words) continue;\n\
it.words = words;\n\
it.shape.setAttribute(\"class\", words);\n\
}\n\
view.line.setAttribute(\"transform\", `translate(0 ${yOfNow(now)})`);\n\
view.waits.setAttribute(\"d\", waits.join(\"\"));\n\
Object.assign(document.body.dataset, { now, packet: selected === null ? \"\" : packetKey(selected) });\n\
}\n\
function countShapes() {\n\
const count = (selector) => byId(\"chart\").querySelectorAll(selector).length;\n\
Object.assign(document.body.dataset, { entries: run.count, from: view.from, to: view.to, rows: layout.rows, errors: failures.length });\n\
const texts = { steps: count(\"text[data-n]\"), labels: count(\"text[data-packet]\") };\n\
Object.assign(document.body.dataset, { arrows: count(\".head\"), crosses: count(\".cross\"), drops: count(\".drop\"), ...texts });\n\
}\n\
function showNow() {\n\
const pane = byId(\"pane\");\n\
const room = pane.clientHeight;\n\
const y = filter.table ? yInTable() : yOfNow(now) + 24;\n\
if (y < pane.scrollTop + 60 || y > pane.scrollTop + room - 60) pane.scrollTop = y - room * 0.55;\n\
}\n\
function yInTable() {\n\
const place = lowerBound(view.tableRows.length, (it) => view.tableRows[it][0].stamp, now) - 1;\n\
return place < 0 ? 0 : view.tableRows[place][1].offsetTop + ROW;\n\
}\n\
function followNow() {\n\
const early = view.from > 0 && now < view.from + NEAR / 2;\n\
const late = view.to < run.count && now > view.to - NEAR / 2;\n\
if (early || late) drawAround(layout.rowAt[now]);\n\
else paint();\n\
}\n\
function followScroll() {\n\
const { scrollTop, clientHeight } = byId(\"pane\");\n\
const first = Math.floor((scrollTop - TOP) / ROW);\n\
const last = first + Math.ceil(clientHeight / ROW);\n\
const missing = (first < view.first && view.from > 0) || (last > view.last && view.to < run.count);\n\
if (missing && !filter.table) drawAround(clamp((first + last) >> 1, 0, layout.rows));\n\
}\n\
function drawTable() {\n\
if (!filter.table) return;\n\
const shown = run.packets.filter((it) => layout.packetRow[it.index] >= 0 && it.stamp >= view.from && it.stamp <= view.to);\n\
const heads = [\"packet\", \"from\", \"to\", \"content\", \"sent at\", \"taken at\"].map((it) => html(\"th\", { scope: \"col\" }, it));\n\
const body = html(\"tbody\", {}, ...shown.map(tableRow));\n\
const part = view.from > 0 || view.to < run.count ? `, from entry ${view.from} to ${view.to}` : \"\";\n\
const caption = html(\"caption\", {}, `Packets: ${shown.length}${part}`);\n\
view.tableRows = shown.map((packet, place) => [packet, body.children[place]]);\n\
byId(\"table\").replaceChildren(html(\"table\", {}, caption, html(\"thead\", {}, html(\"tr\", {}, ...heads)), body));\n\
paintTable();\n\
}\n\
function tableRow(packet) {\n\
const button = html(\"button\", { type: \"button\", class: \"link\", \"data-packet\": packet.index }, frameText(packet) || DASH);\n\
const to = packet.to === null ? DASH : run.hosts[packet.to];\n\
const takes = packet.takes.map((stamp) => `${run.times[stamp]} ms, entry ${stamp}`).join(\"; \") || DASH;\n\
const sent = `${run.times[packet.stamp]} ms, entry ${packet.stamp}`;\n\
const cells = [button, run.hosts[packet.from], to, storyText(packet), sent, takes];\n\
return html(\"tr\", {}, ...cells.map((it) => html(\"td\", {}, it)));\n\
}\n\
function paintTable() {\n\
if (!filter.table) return;\n\
for (const [packet, row] of view.tableRows) {\n\
row.className = packet.stamp >= now ? \"to-come\" : \"\";\n\
row.hidden = filter.hide && packet.stamp >= now;\n\
}\n\
}\n\
function definitions(pairs) {\n\
const list = html(\"dl\");\n\
for (const [name, value] of pairs) list.append(html(\"dt\", {}, name), html(\"dd\", {}, value));\n\
return list;\n\
}\n\
function drawNow() {\n\
const panel = byId(\"now\");\n\
if (now === 0) {\n\
panel.replaceChildren(html(\"p\", {}, \"Nothing has happened.\"));\n\
return;\n\
}\n\
const words = run.texts[now - 1].split(\" \");\n\
const line = html(\"p\", {}, html(\"b\", {}, `Entry ${now - 1}`), ` at ${words[1]} ms, ${callerText(Number(words[2]))}`);\n\
if (words[4] !== \"-\") line.append(\", caused by \", jump(`entry ${words[4]}`, Number(words[4]) + 1));\n\
panel.replaceChildren(line, html(\"pre\", {}, run.texts[now - 1]));\n\
}\n\
const placeOf = (stamp) => jump(`entry ${stamp}, ${run.times[stamp]} ms`, stamp + 1);\n\
function drawPacketPanel() {\n\
const panel = byId(\"packet\");\n\
const packet = selected;\n\
if (packet === null) {\n\
byId(\"packet-title\").textContent = \"Packet\";\n\
panel.replaceChildren(html(\"p\", {}, \"Choose an arrow, or press N.\"));\n\
return;\n\
}\n\
byId(\"packet-title\").textContent = packet.frame === null ? \"Packet on no link\" : `Packet ${packet.frame} of ${run.links[packet.link]}`;\n\
const bytes = bytesOfPacket(packet);\n\
const parts = [definitions([...headerPairs(packet), ...wayPairs(packet)])];\n\
if (bytes.length) parts.push(html(\"pre\", { \"aria-label\": \"bytes\" }, dumpText(bytes)));\n\
const stamps = [...new Set([packet.by, packet.stamp, ...packet.takes])].sort((one, other) => one - other);\n\
parts.push(html(\"pre\", { \"aria-label\": \"entries\" }, stamps.map((stamp) => run.texts[stamp]).join(\"\\n\")));\n\
panel.replaceChildren(...parts);\n\
}\n\
function headerPairs(packet) {\n\
const { protocol, source, destination, ttl, tos, kind, spec, id, ack, length } = headerOf(packet);\n\
const left = ttl - hopsBefore(packet);\n\
const pairs = [[\"protocol\", protocol], [\"source\", source], [\"destination\", destination], [\"ttl\", `${left}`], [\"tos\", tos]];\n\
const fromStart = (n, near) => (near === null ? n : `${n} (start ${relative(near)})`);\n\
if (protocol === \"il\") pairs.push([\"kind\", kind], [\"spec\", spec], [\"id\", fromStart(id, packet.id)], [\"ack\", fromStart(ack, packet.ack)]);\n\
return [...pairs, [\"length\", `${length}`]];\n\
}\n\
function wayPairs(packet) {\n\
const sent = html(\"span\", {}, placeOf(packet.stamp), `, by ${run.hosts[packet.from]}`);\n\
const taken = html(\"span\");\n\
packet.takes.forEach((stamp, copy) => taken.append(copy ? \"; \" : \"\", placeOf(stamp), copy ? \"\" : `, by ${run.hosts[packet.to]}`));\n\
if (!packet.takes.length) taken.append(html(\"b\", { class: \"lost\" }, outcomeText(packet)));\n\
const pairs = [[\"sent\", sent], [\"taken\", taken]];\n\
if (packet.again !== null) pairs.push([\"repeats\", placeOf(packet.again)]);\n\
return pairs;\n\
}\n\
function dumpText(bytes) {\n\
const most = 4096;\n\
const lines = [];\n\
for (let at = 0; at < Math.min(bytes.length, most); at += 8) {\n\
const part = [...bytes.slice(at, at + 8)];\n\
const digits = part.map((byte) => byte.toString(16).padStart(2, \"0\")).join(\" \");\n\
const text = part.map((byte) => (byte >= 32 && byte < 127 ? String.fromCharCode(byte) : \".\")).join(\"\");\n\
lines.push(`${at.toString(16).padStart(4, \"0\")}  ${digits.padEnd(24)} ${text}`);\n\
}\n\
if (bytes.length > most) lines.push(`${DOTS} ${bytes.length - most} more bytes`);\n\
return lines.join(\"\\n\");\n\
}\n\
function newestPacket(test) {\n\
let place = lowerBound(run.packets.length, (it) => run.packets[it].stamp, now) - 1;\n\
while (place >= 0 && !test(run.packets[place])) place--;\n\
return run.packets[place] || null;\n\
}\n\
function currentEnds() {\n\
const actor = now ? run.texts[now - 1].split(\" \")[3] : \"\";\n\
const end = actor.startsWith(\"conv.\") ? actor.slice(5) : null;\n\
const isNear = (it) => (it.end === end || it.peer === end) && showsPacket(it);\n\
const near = selected || (end && newestPacket(isNear)) || (filter.pair === null && end) || newestPacket((it) => it.end && showsPacket(it));\n\
if (!near) return [];\n\
if (near === end) return [end];\n\
return [near.end, near.peer].filter((it) => it).sort((one, other) => one.localeCompare(other, \"en\", { numeric: true }));\n\
}\n\
function stateOfEnd(end) {\n\
const rows = run.ends.get(end) || [];\n\
const place = lowerBound(rows.length, (it) => parseInt(rows[it], 10), now) - 1;\n\
if (place < 0) return null;\n\
const words = rows[place].split(\" \");\n\
const changed = Number(words[0]) === now - 1;\n\
return { words, before: changed ? (rows[place - 1] || \"\").split(\" \") : words };\n\
}\n\
const END_ROWS = [[\"generation\", 2], [\"state\", 3], [\"local\", 11], [\"remote\", 12], [\"written\", 4], [\"acknowledged\", 5], [\"received\", 6]];\
\n\
END_ROWS.push([\"unread\", 7], [\"early\", 8], [\"next retransmission\", 9], [\"closed because\", 10]);\n\
function endValue(column, word) {\n\
if (word === \"-\" || word === undefined) return DASH;\n\
if (column === 9) return `${word} ms`;\n\
if (column === 11 || column === 12) return word.replace(\"!\", \"\\u200b!\");\n\
return column === 10 ? CAUSES[Number(word)] : word;\n\
}\n\
function drawEnds() {\n\
const ends = currentEnds();\n\
const states = ends.map(stateOfEnd);\n\
if (!states.some((it) => it)) {\n\
byId(\"ends\").replaceChildren(html(\"p\", {}, \"No conversation yet.\"));\n\
return;\n\
}\n\
const names = ends.map((end) => {\n\
const [host, protocol, slot] = end.split(\".\");\n\
return html(\"th\", { scope: \"col\" }, `${run.hosts[Number(host)]} ${protocol}/${slot}`);\n\
});\n\
const rows = END_ROWS.filter(([, column]) => states.some((it) => it && endValue(column, it.words[column]) !== DASH));\n\
const body = rows.map(([name, column]) => html(\"tr\", {}, html(\"th\", { scope: \"row\" }, name), ...states.map((it) => endCell(column, it))));\n\
byId(\"ends\").replaceChildren(html(\"table\", {}, html(\"tr\", {}, html(\"td\"), ...names), ...body));\n\
}\n\
function endCell(column, state) {\n\
if (state === null) return html(\"td\", {}, DASH);\n\
const value = endValue(column, state.words[column]);\n\
const changed = state.words[column] !== state.before[column];\n\
return html(\"td\", {}, changed ? html(\"mark\", {}, value) : value);\n\
}\n\
function currentStep(steps) {\n\
const open = steps.findIndex((step) => stampOfStep(step) >= now);\n\
return open < 0 ? steps.length : open;\n\
}\n\
function drawSteps() {\n\
run.stepsOf.forEach((steps, script) => {\n\
const current = currentStep(steps);\n\
const ended = now === run.count;\n\
const list = view.lists[script];\n\
if (list.current === current && list.ended === ended) return;\n\
Object.assign(list, { current, ended });\n\
const from = Math.max(0, current - STEPS_NEAR);\n\
const shown = steps.slice(from, current + STEPS_NEAR + 1);\n\
list.place.setAttribute(\"start\", from + 1);\n\
list.place.replaceChildren(...shown.map((step, place) => stepItem(step, from + place - current)));\n\
});\n\
}\n\
function stepItem(step, distance) {\n\
const target = Math.min(run.count, stampOfStep(step) + 1);\n\
const known = distance < 0 || now === run.count;\n\
const symbol = html(\"b\", { class: known ? step.word : \"\" }, known ? SYMBOLS[step.word] : \"\");\n\
const result = known ? stepResult(step) : \"\";\n\
const button = jump(shortened(stepText(step), 60), target);\n\
const item = html(\"li\", distance > 0 && !known ? { class: \"to-come\" } : {}, symbol, \" \", button, \" \", html(\"small\", {}, result));\n\
if (distance === 0) item.setAttribute(\"aria-current\", \"step\");\n\
return item;\n\
}\n\
function makeLists() {\n\
view.lists = run.scripts.map((host, script) => {\n\
const place = html(\"ol\");\n\
byId(\"scripts\").append(html(\"h3\", {}, `${run.hosts[host]}, script ${script}`), place);\n\
return { place, current: -1, ended: false };\n\
});\n\
}\n\
function moveTo(n) {\n\
const before = performance.now();\n\
now = clamp(Math.round(n), 0, run.count);\n\
followNow();\n\
showNow();\n\
showPanels();\n\
document.body.dataset.moved = (performance.now() - before).toFixed(1);\n\
}\n\
function showPanels() {\n\
const place = `entry ${now} of ${run.count}, ${now ? run.times[now - 1] : 0} ms`;\n\
byId(\"slider\").value = now;\n\
byId(\"slider\").setAttribute(\"aria-valuetext\", place);\n\
byId(\"place\").textContent = place;\n\
drawNow();\n\
drawEnds();\n\
drawSteps();\n\
paintTable();\n\
keepFragment();\n\
}\n\
const timeOn = () => (now >= run.count ? run.count : lowerBound(run.count, (it) => run.times[it], run.times[now] + 1));\n\
const timeBack = () => (now === 0 ? 0 : lowerBound(run.count, (it) => run.times[it], run.times[now - 1]));\n\
function choose(packet) {\n\
selected = packet;\n\
paint();\n\
drawPacketPanel();\n\
drawEnds();\n\
makeReachable();\n\
keepFragment();\n\
}\n\
function makeReachable() {\n\
const chart = byId(\"chart\");\n\
for (const it of chart.querySelectorAll('[tabindex=\"0\"]')) it.setAttribute(\"tabindex\", -1);\n\
const wanted = selected || run.packets[lowerBound(run.packets.length, (it) => run.packets[it].stamp, now) - 1] || run.packets[0];\n\
const group = wanted && chart.querySelector(`g[data-packet=\"${wanted.index}\"]`);\n\
if (group) group.setAttribute(\"tabindex\", 0);\n\
return group;\n\
}\n\
function choosePacket(direction) {\n\
const start = lowerBound(run.packets.length, (it) => run.packets[it].stamp, now);\n\
let place = selected !== null ? selected.index + direction : direction > 0 ? start : start - 1;\n\
while (run.packets[place] && !showsPacket(run.packets[place])) place += direction;\n\
const packet = run.packets[place];\n\
if (!packet) return;\n\
selected = packet;\n\
moveTo(packet.stamp + 1);\n\
choose(packet);\n\
const inChart = byId(\"chart\").contains(document.activeElement);\n\
const group = makeReachable();\n\
if (inChart && group) group.focus({ preventScroll: true });\n\
}\n\
const KEYS = {\n\
ArrowLeft: () => moveTo(now - 1),\n\
ArrowRight: () => moveTo(now + 1),\n\
PageUp: () => moveTo(timeBack()),\n\
PageDown: () => moveTo(timeOn()),\n\
Home: () => moveTo(0),\n\
End: () => moveTo(run.count),\n\
n: () => choosePacket(1),\n\
p: () => choosePacket(-1),\n\
Escape: () => choose(null),\n\
};\n\
function onKey(event) {\n\
if (event.ctrlKey || event.altKey || event.metaKey || event.target instanceof HTMLSelectElement) return;\n\
const packet = event.target instanceof Element && event.target.closest(\"g[data-packet]\");\n\
if (packet && (event.key === \"Enter\" || event.key === \" \")) {\n\
event.preventDefault();\n\
choose(run.packets[Number(packet.dataset.packet)]);\n\
return;\n\
}\n\
const action = KEYS[event.key.length === 1 ? event.key.toLowerCase() : event.key];\n\
if (!action) return;\n\
event.preventDefault();\n\
action();\n\
}\n\
function onClick(event) {\n\
const target = event.target.closest(\"[data-packet], [data-n]\");\n\
if (!target) return;\n\
if (target.dataset.n !== undefined) moveTo(Number(target.dataset.n));\n\
else choose(run.packets[Number(target.dataset.packet)]);\n\
}\n\
function fillChoice(id, values) {\n\
const options = values.map(([value, text]) => html(\"option\", { value }, text));\n\
byId(id).replaceChildren(html(\"option\", { value: \"\" }, \"all\"), ...options);\n\
}\n\
function fillChoices() {\n\
const number = (names) => names.map((name, place) => [place, name]);\n\
fillChoice(\"host\", number(run.hosts));\n\
fillChoice(\"link\", number(run.links));\n\
for (const id of [\"protocol\", \"conversation\"]) fillChoice(id, []);\n\
}\n\
function fillLateChoices() {\n\
if (view.filled) return;\n\
view.filled = true;\n\
const different = (values) => [...new Set(values)];\n\
fillChoice(\"protocol\", different(run.packets.map((it) => headerOf(it).protocol)).map((it) => [it, it]));\n\
fillChoice(\"conversation\", different(run.packets.map((it) => headerOf(it).pair)).map((it) => [it, it.replace(\" \", ` ${DASH} `)]));\n\
}\n\
function readChoices() {\n\
const number = (id) => (byId(id).value === \"\" ? null : Number(byId(id).value));\n\
filter.host = number(\"host\");\n\
filter.link = number(\"link\");\n\
filter.protocol = byId(\"protocol\").value || null;\n\
filter.pair = byId(\"conversation\").value || null;\n\
filter.steps = byId(\"steps\").checked;\n\
filter.hide = byId(\"hide\").checked;\n\
filter.table = byId(\"as-table\").checked;\n\
document.body.classList.toggle(\"hide-later\", filter.hide);\n\
byId(\"chart\").toggleAttribute(\"hidden\", filter.table);\n\
byId(\"names\").toggleAttribute(\"hidden\", filter.table);\n\
byId(\"table\").hidden = !filter.table;\n\
}\n\
function redraw() {\n\
readChoices();\n\
geometry = columns(byId(\"pane\").clientWidth || 1000);\n\
drawNames(byId(\"names\"));\n\
layOut();\n\
drawAround(layout.rowAt[now]);\n\
makeReachable();\n\
showNow();\n\
showPanels();\n\
}\n\
function packetKey(packet) {\n\
if (packet.frame === null) return `e${packet.stamp}`;\n\
return packet.link === 0 ? `${packet.frame}` : `${packet.link}.${packet.frame}`;\n\
}\n\
function packetOfKey(key) {\n\
if (key.startsWith(\"e\")) return run.packets.find((it) => it.frame === null && it.stamp === Number(key.slice(1))) || null;\n\
const [link, frame] = (key.includes(\".\") ? key : `0.${key}`).split(\".\").map(Number);\n\
return frameOf(link, frame);\n\
}\n\
function fragment() {\n\
const words = [`n=${now}`];\n\
if (selected !== null) words.push(`k=${packetKey(selected)}`);\n\
if (filter.host !== null) words.push(`host=${encodeURIComponent(run.hosts[filter.host])}`);\n\
if (filter.link !== null) words.push(`link=${encodeURIComponent(run.links[filter.link])}`);\n\
if (filter.protocol !== null) words.push(`protocol=${filter.protocol}`);\n\
if (filter.pair !== null) words.push(`conversation=${filter.pair.replace(\" \", \",\")}`);\n\
if (!filter.steps) words.push(\"steps=0\");\n\
if (filter.hide) words.push(\"hide=1\");\n\
if (filter.table) words.push(\"table=1\");\n\
return `#${words.join(\"&\")}`;\n\
}\n\
function keepFragment() {\n\
clearTimeout(view.timer);\n\
view.timer = setTimeout(() => {\n\
if (fragment() !== location.hash) history.replaceState(null, \"\", fragment());\n\
}, 200);\n\
}\n\
function readFragment() {\n\
const words = new URLSearchParams(location.hash.slice(1));\n\
const place = (names, name) => (names.includes(name) ? names.indexOf(name) : \"\");\n\
byId(\"host\").value = place(run.hosts, words.get(\"host\"));\n\
byId(\"link\").value = place(run.links, words.get(\"link\"));\n\
if (words.has(\"protocol\") || words.has(\"conversation\")) fillLateChoices();\n\
byId(\"protocol\").value = words.get(\"protocol\") || \"\";\n\
byId(\"conversation\").value = (words.get(\"conversation\") || \"\").replace(\",\", \" \");\n\
for (const id of [\"protocol\", \"conversation\"]) if (byId(id).selectedIndex < 0) byId(id).value = \"\";\n\
byId(\"steps\").checked = words.get(\"steps\") !== \"0\";\n\
byId(\"hide\").checked = words.get(\"hide\") === \"1\";\n\
byId(\"as-table\").checked = words.get(\"table\") === \"1\";\n\
selected = words.has(\"k\") ? packetOfKey(words.get(\"k\")) : null;\n\
const n = Number(words.get(\"n\"));\n\
now = words.has(\"n\") && Number.isFinite(n) ? clamp(Math.round(n), 0, run.count) : run.count;\n\
}\n\
function makeSheets() {\n\
const whole = run.count <= PRINTED;\n\
const screen = geometry;\n\
geometry = columns(PRINT_WIDTH);\n\
const most = Math.max(14, Math.floor((PRINT_HEIGHT * geometry.width) / PRINT_WIDTH / ROW) - 3);\n\
const [first, last] = whole ? [0, layout.rows] : [view.first, view.last];\n\
const note = whole ? \"\" : `This run has ${run.count} entries. The chart shows entries ${view.from} to ${view.to}.`;\n\
byId(\"sheets\").replaceChildren(html(\"p\", {}, note));\n\
for (let row = first; row < last; ) {\n\
const rows = row === first ? most - 7 : most;\n\
byId(\"sheets\").append(sheet(row, Math.min(row + rows, last) - 1));\n\
row += rows;\n\
}\n\
geometry = screen;\n\
}\n\
function sheet(first, last) {\n\
const height = (last - first + 1) * ROW + 30;\n\
const made = svg(document.createDocumentFragment(), \"svg\", { viewBox: `0 0 ${geometry.width} ${height}` });\n\
drawNames(svg(made, \"g\", {}));\n\
const rows = svg(made, \"svg\", { y: 24, width: geometry.width, height: height - 24, viewBox: `0 ${yOfRow(first) - 4} ${geometry.width} ${height - 24}\
` });\n\
for (const it of drawRows(rows, first, last)) it.shape.setAttribute(\"class\", classOf(it, run.count));\n\
return made;\n\
}\n\
let run = null;\n\
let layout = null;\n\
let geometry = null;\n\
let selected = null;\n\
let now = 0;\n\
const filter = { host: null, link: null, protocol: null, pair: null, steps: true, hide: false, table: false };\n\
const view = { shapes: [], lists: [], tableRows: [], line: null, waits: null, timer: 0, filled: false, from: 0, to: 0, first: 0, last: 0 };\n\
function calmly(action) {\n\
let asked = 0;\n\
return () => {\n\
cancelAnimationFrame(asked);\n\
asked = requestAnimationFrame(action);\n\
};\n\
}\n\
function listen() {\n\
const clicks = { home: \"Home\", \"back-time\": \"PageUp\", back: \"ArrowLeft\", next: \"ArrowRight\", \"next-time\": \"PageDown\", end: \"End\" };\n\
for (const [id, key] of Object.entries(clicks)) byId(id).addEventListener(\"click\", KEYS[key]);\n\
for (const id of [\"host\", \"link\", \"protocol\", \"conversation\", \"steps\", \"hide\", \"as-table\"]) byId(id).addEventListener(\"change\", redraw\
);\n\
byId(\"slider\").addEventListener(\"input\", calmly(() => moveTo(Number(byId(\"slider\").value))));\n\
byId(\"pane\").addEventListener(\"scroll\", calmly(followScroll));\n\
document.addEventListener(\"click\", onClick);\n\
document.addEventListener(\"keydown\", onKey);\n\
window.addEventListener(\"resize\", calmly(redraw));\n\
window.addEventListener(\"hashchange\", showFragment);\n\
window.addEventListener(\"beforeprint\", makeSheets);\n\
window.addEventListener(\"afterprint\", () => byId(\"sheets\").replaceChildren());\n\
}\n\
function showFragment() {\n\
readFragment();\n\
redraw();\n\
drawPacketPanel();\n\
}\n\
function start() {\n\
run = readRun(byId(\"payload\").textContent);\n\
byId(\"title\").textContent = run.end === null ? \"Run: history without a summary\" : `Run: ${run.end[1]} at ${run.end[2]} ms`;\n\
byId(\"slider\").max = run.count;\n\
fillChoices();\n\
makeLists();\n\
listen();\n\
showFragment();\n\
setTimeout(fillLateChoices, 0);\n\
document.body.dataset.drawn = (performance.now() - startedAt).toFixed(1);\n\
}\n\
start();\n\
</script>\n\
</body>\n\
</html>\n\
"
}
