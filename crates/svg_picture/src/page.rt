//! The page around a picture, made by `tools/page --write` from the files of the crate's folder `page`.

/// The page up to the picture.
pub(crate) const PAGE_HEAD: &[u8] = b"<!DOCTYPE html>\n\
<html lang='en'>\n\
<head>\n\
<meta charset='utf-8'>\n\
<meta name='viewport' content='width=device-width'>\n\
<link rel='icon' href='data:,'>\n\
<title>A history of a FIFO queue</title>\n\
<style>\n\
:root { color-scheme: light dark; --ink: #1a1a1a; --dim: #4f5763; --paper: #ffffff; --line: #b4bac4;\n\
--before: #d5ecd0; --before-edge: #2f6b1f; --beside: #fff0bf; --beside-edge: #8f6a00; --after: #e3daf5;\n\
--after-edge: #5b3f9e; --same-edge: #c2185b; } @media (prefers-color-scheme: dark) { :root { --ink: #e6e8eb;\n\
--dim: #a3acb8; --paper: #14171c; --line: #4a5260; --before: #1c3a1a; --before-edge: #7cc46a; --beside: #40350c;\n\
--beside-edge: #d9b44a; --after: #32284e; --after-edge: #b39df0; --same-edge: #ff8ab8; } }\n\
[hidden] { display: none }\n\
body { margin: 0; font: 14px sans-serif; color: var(--ink); background: var(--paper) } #page { display: grid;\n\
height: 100vh; grid-template: 'verdict verdict' auto 'panel picture' minmax(0, 1fr) / 17rem minmax(0, 1fr); }\n\
header { grid-area: verdict; max-height: 28vh; overflow: auto; padding: 8px 12px }\n\
header { border-bottom: 1px solid var(--line) } h1 { font-size: 17px; margin: 0 }\n\
#caption { margin: 4px 0 0; white-space: pre-line }\n\
aside { grid-area: panel; overflow: auto; padding: 0 12px; border-right: 1px solid var(--line) }\n\
main { grid-area: picture; overflow: auto; position: relative } @media (max-width: 999px) {\n\
#page { grid-template: 'verdict' auto 'picture' minmax(6rem, 1fr) 'panel' auto / minmax(0, 1fr) }\n\
aside { max-height: 34vh; border-right: 0; border-top: 1px solid var(--line) } } button { font: 13px monospace }\n\
ol { padding-left: 2.2em } ol button { text-align: left; margin-bottom: 2px }\n\
textarea { width: 100%; box-sizing: border-box; font: 12px monospace }\n\
#marks span { padding: 1px 3px; border: 1px solid; display: inline-block; margin-bottom: 2px }\n\
#names { color: var(--dim) } .before { background: var(--before); border-color: var(--before-edge) }\n\
.beside { background: var(--beside); border-color: var(--beside-edge) }\n\
.after { background: var(--after); border-color: var(--after-edge) }\n\
#marks .same { border: 3px solid var(--same-edge) } main svg { display: block }\n\
#legend { width: 600px; max-width: 100% } #stage { display: grid }\n\
#stage > svg { grid-area: 1 / 1; width: 100%; height: auto }\n\
#stage > #heads, #stage > #corner { position: sticky; top: 0; align-self: start; z-index: 2 }\n\
#stage > #tickets, #stage > #corner { position: sticky; left: 0; justify-self: start; z-index: 1 }\n\
#stage > #corner { z-index: 3 } main.dragged { cursor: grabbing; user-select: none }\n\
main .off text, main .away text, main .dim { fill: var(--dim) } main [tabindex] { cursor: pointer }\n\
main .fold { text-decoration: underline } main g[tabindex] rect:not(.pill) { pointer-events: all }\n\
main g[data-how] text:not(.pick) { fill: var(--ink) } main g[data-how=one] rect:not(.pill) { stroke-width: 5 }\n\
main g[data-how=before] rect:not(.pill) { fill: var(--before); stroke: var(--before-edge) }\n\
main g[data-how=beside] rect:not(.pill) { fill: var(--beside); stroke: var(--beside-edge) }\n\
main g[data-how=after] rect:not(.pill) { fill: var(--after); stroke: var(--after-edge) }\n\
main g[data-same] rect:not(.pill) { stroke: var(--same-edge); stroke-width: 4; stroke-dasharray: none }\n\
@media print { #page { display: block; height: auto } aside { display: none } main { overflow: visible }\n\
#stage { max-width: 100% } #stage > svg { position: static !important }\n\
#stage g > * { transform: none !important } }\n\
</style>\n\
</head>\n\
<body>\n\
<div id='page'>\n\
<header hidden>\n\
<h1 id='headline'></h1>\n\
<p id='caption'></p>\n\
</header>\n\
<aside hidden aria-label='operations and zoom'>\n\
<p id='zoom' role='group' aria-label='zoom'>\n\
<button id='smaller' title='smaller (key -)' aria-label='smaller'>-</button>\n\
<button id='actual' title='actual size (key 0)'>100%</button>\n\
<button id='larger' title='larger (key +)' aria-label='larger'>+</button>\n\
<button id='fit' title='as wide as the window (key f)' aria-pressed='false'>fit</button>\n\
</p>\n\
<p id='say' aria-live='polite'>Choose an operation to see what precedes it.</p>\n\
<p id='marks'><span class='before'>precedes it</span> <span class='beside'>overlaps it</span>\n\
<span class='after'>follows it</span> <span class='same'>has its value</span></p>\n\
<div id='folds' hidden>\n\
<p id='open'>A row like ... 250 events ... unfolds by a click, 100 at each of its ends.\n\
<button id='unfold' title='of each row 1,000 at each end'>unfold</button> <button id='fold'>fold</button></p>\n\
<p id='closed'>The history is too long for its page to unfold what is left out.</p>\n\
</div>\n\
<p>The numbered operations:</p>\n\
<ol id='lines'></ol>\n\
<p id='around' hidden>Operations without a number surround these, and aren't in the text below.</p>\n\
<p id='names' hidden></p>\n\
<details>\n\
<summary>what shows it, as text</summary>\n\
<textarea id='text' rows='12' readonly aria-label='what shows it, as text'></textarea>\n\
<button id='copy'>copy</button>\n\
</details>\n\
<details>\n\
<summary>keys</summary>\n\
<p><kbd>Tab</kbd> goes from operation to operation, <kbd>Enter</kbd> chooses one, <kbd>Esc</kbd> none.\n\
<kbd>+</kbd>, <kbd>-</kbd>, <kbd>0</kbd> and <kbd>f</kbd> zoom. Arrow keys and dragging move the picture.</p>\n\
</details>\n\
</aside>\n\
<main tabindex='0' aria-label='the picture'>\n\
";

/// The page between the picture and the lines of the history's operations.
pub(crate) const PAGE_MIDDLE: &[u8] = b"</main>\n\
</div>\n\
<script type='text/plain' id='run'>\n\
";

/// The page after these lines.
pub(crate) const PAGE_FOOT: &[u8] = b"</script>\n\
<script>\n\
(() => {\n\
const by = id => document.getElementById(id); const main = document.querySelector('main');\n\
const svg = main.querySelector('svg'); const LINE_FEED = String.fromCharCode(10); const nameOf = value => {\n\
const thread = BigInt(value) >> 32n, number = BigInt(value) % (1n << 32n);\n\
if (thread === 64n) return 'init:' + number; return 0n < thread && thread < 64n ? thread + ':' + number : value;\n\
}; const withNumber = value => nameOf(value) === value ? value : nameOf(value) + ' (' + value + ')';\n\
const OPERATION = /^thread ([0-9]+): (enq|deq|not|empty) ?([0-9]*), tickets? ([0-9]+)(?: to ([0-9]+))?/;\n\
const read = title => { const number = +(/, number ([0-9]+)$/.exec(title) || [])[1] || 0;\n\
const initial = /^init ([0-9]+)/.exec(title);\n\
if (initial) return {number, call: -1, ret: -1, kind: 'init', value: initial[1]};\n\
const [, thread, kind, value, call, ret] = OPERATION.exec(title);\n\
return {number, call: +call, ret: ret ? +ret : Infinity, thread, kind, value}; };\n\
const sentence = (bar, write) => { const number = bar.number ? ', number ' + bar.number : '';\n\
const value = bar.value && write(bar.value); if (bar.kind === 'init') {\n\
return (value.startsWith('init:') ? '' : 'init ') + value + ', in the queue first' + number; }\n\
const what = 'thread ' + bar.thread + ': ' + bar.kind + (value ? ' ' + value : '');\n\
if (bar.ret === Infinity) return what + ', ticket ' + bar.call + ', never returned' + number;\n\
return what + ', tickets ' + bar.call + ' to ' + bar.ret + number; };\n\
const bars = [...svg.querySelectorAll('g')].map(g => { const title = g.querySelector('title');\n\
const bar = {g, ...read(title.textContent)}; title.textContent = sentence(bar, withNumber);\n\
return {...bar, told: sentence(bar, nameOf)}; });\n\
const lines = by('run').textContent.trim().split(LINE_FEED).filter(line => line);\n\
const run = lines.map(line => { const [call, end, thread, kind, ...rest] = line.split(' ');\n\
const pending = rest[rest.length - 1] === 'pending'; const value = kind === 'empty' ? '' : rest[0];\n\
return {call: +call, end: +end, ret: pending ? Infinity : +end, thread, kind, value, number: 0}; });\n\
const calls = new Set(bars.map(bar => bar.call));\n\
const leftOut = run.filter(operation => !calls.has(operation.call));\n\
for (const operation of leftOut) operation.told = sentence(operation, nameOf);\n\
const all = [...bars, ...leftOut];\n\
const numbered = bars.filter(bar => bar.number).sort((a, b) => a.number - b.number);\n\
const headline = svg.querySelector('title').textContent; const isYes = headline.startsWith('YES');\n\
const ROW = 20; const at = (element, name) => +element.getAttribute(name); const pieces = [...svg.children];\n\
const page = svg.querySelector('rect.page'), rowsBox = svg.querySelector('rect.rows');\n\
const ticketWord = pieces.find(piece => piece.textContent === 'ticket');\n\
const size = {wide: at(svg, 'width'), high: at(svg, 'height')};\n\
const rowsTop = at(rowsBox, 'y'), namesY = at(ticketWord, 'y'), ticketsWide = at(ticketWord, 'x') + 48;\n\
const crop = (picture, x, y, wide, high) => picture.setAttribute('viewBox', [x, y, wide, high].join(' '));\n\
for (const name of ['width', 'height']) svg.removeAttribute(name); svg.setAttribute('role', 'group');\n\
const part = (id, moved) => { const it = svg.cloneNode(false); it.id = id; it.append(...moved); return it; };\n\
const [head, ...words] = pieces.slice(pieces.indexOf(rowsBox) + 1, pieces.indexOf(ticketWord));\n\
const caption = words.filter(piece => piece.matches('.say'));\n\
const signs = words.filter(piece => !piece.matches('.say')); const signsTop = at(signs[0], 'y') - 6;\n\
document.title = by('headline').textContent = head.textContent;\n\
by('caption').textContent = caption.map(piece => piece.textContent).join(LINE_FEED);\n\
for (const piece of [head, ...caption]) piece.remove();\n\
const put = (it, attributes) => Object.keys(attributes).forEach(key => it.setAttribute(key, attributes[key]));\n\
const element = (name, attributes, words = '') => { const it = document.createElementNS(svg.namespaceURI, name);\n\
put(it, attributes); it.textContent = words; return it; };\n\
const isText = piece => piece.matches('text') && piece !== ticketWord;\n\
const bandHeads = pieces.filter(piece => piece.matches('text.name') && at(piece, 'y') < namesY);\n\
for (const name of bandHeads) {\n\
const next = pieces.slice(pieces.indexOf(name) + 1).find(piece => piece.matches('text, g, rect'));\n\
if (next.matches('rect')) next.append(element('title', {}, name.textContent)); }\n\
const headsTop = namesY - 12 - ROW * bandHeads.length;\n\
const stuckTop = bandHeads.length > 3 ? namesY - 12 : headsTop, stuckHigh = rowsTop - 4 - stuckTop;\n\
const stuck = pieces.filter(piece => isText(piece) && stuckTop <= at(piece, 'y') && at(piece, 'y') <= namesY);\n\
const leads = pieces.filter(piece => piece.matches('.lead')).map(piece => piece.cloneNode(false));\n\
const ticketTexts = pieces.filter(piece => piece.matches('text.dim') && at(piece, 'y') > rowsTop\n\
&& at(piece, 'x') < ticketsWide - 6); const stage = document.createElement('div');\n\
const ticketRows = rowsBox.cloneNode(false); const legend = part('legend', signs);\n\
const heads = part('heads', [...leads, ...stuck]); const corner = part('corner', [ticketWord]);\n\
const tickets = part('tickets', [ticketRows, ...ticketTexts]);\n\
crop(legend, 0, signsTop, 600, headsTop - signsTop); crop(corner, 0, stuckTop, ticketsWide, stuckHigh);\n\
stage.id = 'stage'; stage.append(svg, tickets, heads, corner); main.append(legend, stage);\n\
document.querySelector('header').hidden = document.querySelector('aside').hidden = false; const resize = () => {\n\
const high = size.high - headsTop; crop(svg, 0, headsTop, size.wide, high);\n\
crop(tickets, 0, headsTop, ticketsWide, high); crop(heads, 0, stuckTop, size.wide, stuckHigh);\n\
for (const narrow of [tickets, corner]) narrow.style.width = 100 * ticketsWide / size.wide + '%';\n\
for (const low of [heads, corner]) low.style.marginTop = 100 * (stuckTop - headsTop) / size.wide + '%'; };\n\
resize(); const measure = bar => { const frame = bar.g.querySelector('rect'), open = bar.g.querySelector('svg');\n\
bar.end = open ? at(open, 'height') : at(frame, 'y') + at(frame, 'height');\n\
bar.moved = [...bar.g.children].filter(piece => piece.matches('text, .pill')); bar.base = at(bar.moved[0], 'y');\n\
}; const keepLabels = () => { const box = svg.getBoundingClientRect();\n\
const seen = headsTop + (heads.getBoundingClientRect().bottom - box.top) * size.wide / box.width;\n\
for (const {kind, moved, base, end} of bars) { if (kind === 'init') continue;\n\
const down = Math.max(0, Math.min(seen + 16, end - 6) - base);\n\
for (const piece of moved) piece.style.transform = down ? 'translateY(' + down + 'px)' : ''; } };\n\
bars.forEach(measure); main.addEventListener('scroll', () => requestAnimationFrame(keepLabels));\n\
const showBar = bar => { bar.g.scrollIntoView({block: 'center', inline: 'center'});\n\
bar.g.focus({preventScroll: true}); };\n\
const LEAST = 0.1, MOST = 4; let zoom = 1, fits = false; const setZoom = (next, isFit) => { zoom = next;\n\
fits = isFit; stage.style.width = size.wide * zoom + 'px';\n\
by('actual').textContent = Math.round(100 * zoom) + '%'; by('fit').setAttribute('aria-pressed', fits); };\n\
const zoomTo = (wanted, isFit = false) => {\n\
const next = Math.min(Math.max(wanted, LEAST), MOST), ratio = next / zoom;\n\
const middle = {x: main.clientWidth / 2, y: main.clientHeight / 2 - stage.offsetTop};\n\
const x = (main.scrollLeft + middle.x) * ratio - middle.x;\n\
const y = (main.scrollTop + middle.y) * ratio - middle.y; setZoom(next, isFit); main.scrollTo(x, y);\n\
keepLabels(); }; const ZOOMS = { smaller: () => zoomTo(zoom / 1.25), actual: () => zoomTo(1),\n\
larger: () => zoomTo(zoom * 1.25), fit: () => zoomTo(main.clientWidth / size.wide, true), };\n\
const KEYS = {'-': 'smaller', '0': 'actual', '+': 'larger', '=': 'larger', f: 'fit'};\n\
for (const id of Object.keys(ZOOMS)) by(id).addEventListener('click', ZOOMS[id]);\n\
document.addEventListener('keydown', event => {\n\
const isOther = event.ctrlKey || event.metaKey || event.altKey || event.target === by('text');\n\
if (KEYS[event.key] && !isOther) ZOOMS[KEYS[event.key]](); });\n\
addEventListener('resize', () => fits ? ZOOMS.fit() : keepLabels()); setZoom(1, false); keepLabels();\n\
let drag = null, dragged = false; main.addEventListener('pointerdown', event => { dragged = false;\n\
if (event.pointerType !== 'mouse' || event.button !== 0 || event.target === main) return;\n\
drag = {x: event.clientX, y: event.clientY, left: main.scrollLeft, top: main.scrollTop}; });\n\
addEventListener('pointermove', event => { if (!drag) return;\n\
const x = event.clientX - drag.x, y = event.clientY - drag.y; dragged ||= Math.hypot(x, y) > 4;\n\
main.classList.toggle('dragged', dragged); if (dragged) main.scrollTo(drag.left - x, drag.top - y); });\n\
addEventListener('pointerup', () => { main.classList.remove('dragged'); drag = null; });\n\
main.addEventListener('click', event => dragged && event.stopPropagation(), true);\n\
const NOTHING = by('say').textContent; const OF_DRAWN = run.length ? '' : ', of what is drawn';\n\
let chosen = null; const howTo = (one, bar) => { if (bar === one) return 'one';\n\
if (bar.ret < one.call) return 'before'; return one.ret < bar.call ? 'after' : 'beside'; };\n\
const choose = one => { chosen = one; const count = {one: 0, before: 0, beside: 0, after: 0};\n\
const same = all.filter(bar => bar !== one && bar.value && bar.value === one.value); for (const bar of all) {\n\
const how = howTo(one, bar); count[how]++; if (!bar.g) continue; bar.g.dataset.how = how;\n\
bar.g.toggleAttribute('data-same', same.includes(bar)); }\n\
const counts = count.before + ' precede it, ' + count.beside + ' overlap it, ' + count.after + ' follow it';\n\
const others = same.map(bar => bar.told + (bars.includes(bar) ? '' : ' (left out)'));\n\
const value = others.length ? ' Of the same value: ' + others.join('; ') + '.' : '';\n\
by('say').textContent = one.told + ': ' + counts + OF_DRAWN + '.' + value; }; const chooseNone = () => {\n\
chosen = null; for (const {g} of all) { if (!g) continue; delete g.dataset.how; g.removeAttribute('data-same');\n\
} by('say').textContent = NOTHING; }; const asButton = (it, press) => { it.setAttribute('tabindex', '0');\n\
it.setAttribute('role', 'button'); it.addEventListener('click', press);\n\
it.addEventListener('keydown', event => { if (event.key !== 'Enter' && event.key !== ' ') return;\n\
event.preventDefault(); press(); }); }; const makeButton = bar => { bar.g.setAttribute('aria-label', bar.told);\n\
asButton(bar.g, () => choose(bar)); }; bars.forEach(makeButton);\n\
document.addEventListener('keydown', event => event.key === 'Escape' && chooseNone());\n\
for (const bar of numbered) {\n\
const line = document.createElement('li'), button = document.createElement('button');\n\
button.textContent = sentence({...bar, number: 0}, nameOf); button.title = sentence(bar, withNumber);\n\
button.addEventListener('click', () => { choose(bar); showBar(bar); }); line.append(button);\n\
by('lines').append(line); } by('around').hidden = isYes || all.length === numbered.length;\n\
const named = [...numbered, ...bars].find(bar => bar.value && nameOf(bar.value) !== bar.value); if (named) {\n\
const [thread, number] = nameOf(named.value).split(':');\n\
const what = thread === 'init' ? 'initial value ' + number : 'value ' + number + ' of thread ' + thread;\n\
const sum = (thread === 'init' ? 64 : thread) + ' * 2^32 + ' + number + ' = ' + named.value;\n\
by('names').textContent = thread + ':' + number + ' is ' + what + ' (' + sum + '). Tooltips have both.';\n\
by('names').hidden = false; }\n\
const STEP = 100, MANY = 1000; const endText = ticketTexts.find(text => text.textContent === 'end');\n\
const rowCount = (at(endText, 'y') + 6 - rowsTop) / ROW - 1, rowsEnd = rowsTop + ROW * (rowCount + 1);\n\
const columns = (ticketsWide - 12) / 7; const drawn = [...bars], shape = {...size};\n\
const frame = svg.querySelector('g rect');\n\
const barWide = frame ? at(frame, 'width') : 0, laneWide = barWide + 6;\n\
const events = run.flatMap(of => [{ticket: of.call, of, end: 'call'}, {ticket: of.end, of, end: 'return'}]);\n\
events.sort((a, b) => a.ticket - b.ticket); const rows = Array.from({length: rowCount}, () => ({}));\n\
for (const text of ticketTexts) {\n\
if (text !== endText) rows[Math.floor((at(text, 'y') - rowsTop) / ROW)].text = text; } let nextEvent = 0;\n\
for (const row of rows) { const words = row.text ? row.text.textContent : '';\n\
const [, count] = /^[.]{3} ([0-9]+) events? [.]{3}$/.exec(words) || [];\n\
if (count) Object.assign(row, {count: +count, shown: 0, events: events.slice(nextEvent, nextEvent + +count)});\n\
nextEvent += /^([0-9]+|pending)$/.test(words) ? 1 : +(count || 0); }\n\
const folds = rows.filter(row => row.events); const placeRows = () => { let place = 0;\n\
for (const operation of leftOut) operation.places = {}; for (const row of rows) { row.first = place;\n\
row.hidden = 0; if (!row.events) place++; for (const [i, event] of (row.events || []).entries()) {\n\
event.isShown = i < row.shown || row.count - row.shown <= i; if (event.isShown || !row.hidden++) place++;\n\
event.place = place - 1; if (!event.isShown) row.folded = event.place; event.of.places[event.end] = event; } }\n\
return place; }; const topOf = place => rowsTop + ROW * place; const heights = piece => {\n\
const from = ['y', 'y1', 'y2'].filter(name => piece.hasAttribute(name)).map(name => [name, at(piece, name)]);\n\
const isBox = piece.matches('rect, svg');\n\
return {piece, from, end: isBox ? at(piece, 'y') + at(piece, 'height') : null, top: at(piece, 'y')}; };\n\
const inPicture = pieces.filter(piece => svg.contains(piece) && piece.matches('text, line, rect'));\n\
const inBars = svg.querySelectorAll('g text, g rect, g svg');\n\
const movable = [...inPicture, ...inBars, ticketRows, ...ticketTexts].map(heights);\n\
const movePieces = places => { const moved = y => {\n\
const i = Math.min(Math.floor((y - rowsTop) / ROW), rowCount);\n\
return i < 0 ? y : y + ROW * ((i < rowCount ? rows[i].first : places) - i); };\n\
for (const {piece, from, end, top} of movable) {\n\
for (const [name, y] of from) piece.setAttribute(name, moved(y));\n\
if (end !== null) piece.setAttribute('height', moved(end) - moved(top)); } size.high = moved(shape.high);\n\
return moved(rowsEnd); };\n\
const names = [...svg.children, ...heads.children].filter(it => /^thread [0-9]+$/.test(it.textContent));\n\
const threadOf = name => name.textContent.slice(7);\n\
const laneOf = new Map(names.map(name => [threadOf(name), at(name, 'x') - 3]));\n\
const left = Math.min(...laneOf.values()); const placeLanes = opened => {\n\
const threads = [...new Set([...laneOf.keys(), ...opened.map(operation => operation.thread)])];\n\
threads.sort((a, b) => a - b); const laneX = thread => left + laneWide * threads.indexOf(thread);\n\
for (const name of names) name.setAttribute('x', laneX(threadOf(name)) + 3); for (const {g, thread} of drawn) {\n\
if (thread) g.setAttribute('transform', 'translate(' + (laneX(thread) - laneOf.get(thread)) + ' 0)'); }\n\
for (const thread of threads.filter(it => !laneOf.has(it))) {\n\
for (const name of names.filter(it => threadOf(it) === threadOf(names[0]))) {\n\
const words = 'thread ' + thread, y = at(name, 'y');\n\
const made = {x: laneX(thread) + 3, y, textLength: 7 * words.length, class: 'name made'};\n\
name.parentNode.append(element('text', made, words)); } }\n\
size.wide = Math.max(shape.wide, left + laneWide * threads.length + 18); return laneX; };\n\
const makeBar = operation => {\n\
const {kind, value, ret} = operation, words = kind + (value && ' ' + nameOf(value));\n\
const round = kind === 'deq' || kind === 'empty' ? 9 : 0;\n\
const length = {textLength: Math.min(7 * words.length, barWide - 12), lengthAdjust: 'spacingAndGlyphs'};\n\
const box = element('rect', {class: kind, rx: round, width: barWide});\n\
const edges = ret === Infinity ? element('svg', {}) : box; if (edges !== box) edges.append(box);\n\
operation.g = element('g', {class: 'away'});\n\
operation.g.append(element('title', {}, sentence(operation, withNumber)), edges);\n\
operation.g.append(element('text', {class: 'label', ...length}, words)); makeButton(operation); };\n\
const placeBar = ({g, ret, places}, x, end) => {\n\
const {call, return: back} = places, open = g.querySelector('svg');\n\
const y = topOf(call.place) + (call.isShown ? 3 : 12);\n\
const low = ret === Infinity ? end : topOf(back.place) + (back.isShown ? 17 : 8);\n\
if (open) put(open, {width: x + laneWide + 3, height: low});\n\
put(g.querySelector('rect'), {x: x + 3, y, height: low - y + (open ? 20 : 0)});\n\
put(g.querySelector('text'), {x: x + 9, y: y + 21}); }; const inTickets = (text, place, words) => {\n\
put(text, {x: 6 + 7 * (columns - words.length), y: topOf(place) + 14, textLength: 7 * words.length});\n\
text.textContent = words; }; const placeTickets = () => {\n\
for (const {text, hidden, folded, events: its} of folds) { text.style.display = hidden ? '' : 'none';\n\
if (hidden) inTickets(text, folded, '... ' + hidden + (hidden === 1 ? ' event ...' : ' events ...'));\n\
for (const {isShown, of, end, ticket, place} of its) { if (!isShown) continue;\n\
const made = element('text', {class: 'dim made'});\n\
inTickets(made, place, end === 'return' && of.ret === Infinity ? 'pending' : String(ticket));\n\
tickets.append(made); } } }; const arrange = () => { const end = movePieces(placeRows());\n\
const opened = leftOut.filter(({places}) => Object.values(places).some(event => event.isShown));\n\
for (const made of document.querySelectorAll('.made')) made.remove();\n\
for (const {g} of bars.splice(drawn.length)) g.remove(); const laneX = placeLanes(opened);\n\
for (const operation of opened) { if (!operation.g) makeBar(operation);\n\
placeBar(operation, laneX(operation.thread), end); bars.push(operation); }\n\
svg.append(...opened.map(operation => operation.g)); placeTickets();\n\
for (const box of [page, rowsBox, ticketRows]) box.setAttribute('width', size.wide); bars.forEach(measure);\n\
resize(); setZoom(fits ? main.clientWidth / size.wide : zoom, fits); keepLabels(); if (chosen) choose(chosen);\n\
}; const show = count => { for (const row of folds) row.shown = count(row); arrange(); };\n\
by('folds').hidden = !folds.length; by('open').hidden = !run.length; by('closed').hidden = run.length > 0;\n\
for (const row of run.length ? folds : []) { row.text.classList.add('fold');\n\
asButton(row.text, () => show(it => it === row ? row.shown + STEP : it.shown)); }\n\
by('unfold').addEventListener('click', () => show(row => row.shown + MANY));\n\
by('fold').addEventListener('click', () => show(() => 0));\n\
const KINDS = {'not there': 'VFresh', 'twice': 'VRepeat', 'of their enqueues': 'VOrd', 'never empty': 'VWit'};\n\
const lineOf = bar => bar.kind === 'init' ? 'init ' + bar.value\n\
: [bar.call, bar.ret, bar.thread, bar.kind, bar.value].join(' ').trim(); const verdict = () => {\n\
const kind = Object.keys(KINDS).find(end => headline.endsWith(end));\n\
return [isYes ? 'YES' : 'NO ' + KINDS[kind], ...numbered.map(lineOf)]; }; const eventsOf = bar => {\n\
const isEnqueue = bar.kind === 'enq' || bar.kind === 'not';\n\
const call = [bar.call, bar.thread, isEnqueue ? 'call-enq ' + bar.value : 'call-deq'];\n\
const ret = [bar.ret, bar.thread, bar.kind === 'deq' ? 'ret-deq ' + bar.value : 'ret-' + bar.kind];\n\
return bar.ret < Infinity ? [call, ret] : [call]; }; const asText = () => {\n\
const shown = bars.filter(bar => isYes || bar.number);\n\
const values = shown.filter(bar => bar.kind === 'init').map(bar => bar.value);\n\
const operations = shown.filter(bar => bar.kind !== 'init');\n\
const events = operations.flatMap(eventsOf).sort((a, b) => a[0] - b[0]);\n\
const open = operations.filter(bar => bar.ret === Infinity).length;\n\
const name = open ? 'fifo-pending ' : 'fifo-history ';\n\
const head = values.length ? [name + 2, 'initial ' + values.length, ...values] : [name + 1];\n\
const foot = open ? ['open ' + open, 'end ' + events.length] : ['end ' + events.length, ...verdict()];\n\
return [...head, ...events.map(event => event.join(' ')), ...foot, ''].join(LINE_FEED); };\n\
by('text').value = asText(); by('copy').addEventListener('click', () => { by('text').select();\n\
document.execCommand('copy'); });\n\
})();\n\
</script>\n\
</body>\n\
</html>\n\
";
