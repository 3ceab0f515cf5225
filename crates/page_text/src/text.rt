// The page's own text, as scripts/page_text.py makes it of page/page.html. It is never edited.

ghost use Rattle.std.specs.Prelude.{◌≡◌, ◌++◌, OnOk};
ghost use Rattle.page_text.specs.Text.{before_group_1_1, before_group_1_2, before, after_group_1_1, after_group_1_2, after_group_1_3, after};

use std::alloc::AllocError;

pub const BEFORE_1: &str = r##"<!doctype html>
<html lang="en">
<head>
<meta charset="utf-8">
<meta http-equiv="Content-Security-Policy" content="default-src 'none'; script-src 'sha256-Ej2J6eHjSw0k4xwOsnj/ZUFZvhgIa9C2ZrBlA3Diiqw='; style-src 'unsafe-inline'">
<meta name="viewport" content="width=device-width, initial-scale=1">
<title>A run of hheap</title>
<style>
:root {
  color-scheme: light;
  --mono: ui-monospace, "SF Mono", "Cascadia Mono", "DejaVu Sans Mono", Menlo, Consolas, monospace;
  --paper: #f4f2ed; --panel: #fdfcfa; --raised: #ffffff; --ink: #1c2230; --soft: #59627a; --faint: #dcd9d1;
  --inside: #7b8394; --up: #1f66d6; --down: #cf2b2b; --cross: #b01bb8; --new: #13804a; --set: #a65f00;
  --move: #007c89; --new-bg: #dcf5e6; --set-bg: #ffe7bd; --k-ran: #c3cfe6;
  --k-took: #f3d38c; --k-chunk: #d9d3c6; --k-leaf: #a5dcc0; --k-inner: #d3c3f2; --k-over: #f2b5b0; --imm: #e6f1fb;
  --hit: #fff3b8; --on-strong: #fff;
}
@media (prefers-color-scheme: dark) {
:root:not([data-theme=light]):not(.paper) {
  color-scheme: dark;
  --paper: #111318; --panel: #191c23; --raised: #21252e; --ink: #e7e9ef; --soft: #a3abbe; --faint: #343a47;
  --inside: #8d96a8; --up: #6ea8ff; --down: #ff7a70; --cross: #f07cf5; --new: #4fd08a; --set: #f5b04c;
  --move: #45cbd8; --new-bg: #14382a; --set-bg: #4a3413; --k-ran: #3b4a66;
  --k-took: #6b5421; --k-chunk: #4a463d; --k-leaf: #1f5a40; --k-inner: #4c3a75; --k-over: #7c2c2a; --imm: #1c2f42;
  --hit: #4d4413; --on-strong: #111;
}
}
:root[data-theme=dark]:not(.paper) {
  color-scheme: dark;
  --paper: #111318; --panel: #191c23; --raised: #21252e; --ink: #e7e9ef; --soft: #a3abbe; --faint: #343a47;
  --inside: #8d96a8; --up: #6ea8ff; --down: #ff7a70; --cross: #f07cf5; --new: #4fd08a; --set: #f5b04c;
  --move: #45cbd8; --new-bg: #14382a; --set-bg: #4a3413; --k-ran: #3b4a66;
  --k-took: #6b5421; --k-chunk: #4a463d; --k-leaf: #1f5a40; --k-inner: #4c3a75; --k-over: #7c2c2a; --imm: #1c2f42;
  --hit: #4d4413; --on-strong: #111;
}
* { box-sizing: border-box; }
body { margin: 0; height: 100dvh; display: grid; grid-template-columns: minmax(0, 1fr); grid-template-rows: auto auto minmax(0, 1fr) auto; background: var(--paper); color: var(--ink);
  font: 14px/1.45 system-ui, "Segoe UI", "Helvetica Neue", "DejaVu Sans", sans-serif; }
button, input, select { font: inherit; color: inherit; }
button { cursor: pointer; background: var(--raised); border: 1px solid var(--faint); border-radius: 6px; padding: 2px 9px; }
button:hover { border-color: var(--soft); }
:focus-visible { outline: 2px solid var(--up); outline-offset: 1px; }
code { font-family: var(--mono); font-size: .93em; }
h1, h2 { margin: 0; font-size: 1em; }
h2 { font-size: 11px; letter-spacing: .07em; text-transform: uppercase; color: var(--soft); }
noscript p { padding: 2em; }
.skip { position: absolute; left: -99em; }
.skip:focus { left: 8px; top: 8px; z-index: 9; background: var(--raised); padding: 6px; }
/* the top */
.top { display: flex; gap: 14px; align-items: center; padding: 7px 14px; border-bottom: 1px solid var(--faint); background: var(--panel); }
.top h1 { font-size: 16px; font-weight: 650; }
.top .how { color: var(--soft); font-size: 12.5px; flex: 1; min-width: 0; overflow: hidden; text-overflow: ellipsis; white-space: nowrap; }
.top input { width: 12em; background: var(--raised); border: 1px solid var(--faint); border-radius: 6px; padding: 2px 8px; }
#now { display: flex; gap: 14px; align-items: center; padding: 6px 14px; min-height: 66px; }
#now .count { flex: none; font-variant-numeric: tabular-nums; color: var(--soft); white-space: nowrap; min-width: 8.2em; }
#now .count b { font-size: 21px; color: var(--ink); font-weight: 650; }
#said { font-size: 17px; line-height: 1.4; text-wrap: pretty; }
#said code { background: var(--raised); border: 1px solid var(--faint); border-radius: 4px; padding: 0 4px; }
.name { font-family: var(--mono); font-size: .93em; padding: 0 3px; border-radius: 4px; border: 0; background: none; color: var(--up); text-decoration: underline; text-decoration-thickness: 1px; text-underline-offset: 2px; }
.stop { color: var(--cross); font-weight: 650; }
/* the middle */
main { display: grid; grid-template-columns: minmax(230px, 25%) minmax(0, 1fr) 256px; gap: 1px; background: var(--faint); border-block: 1px solid var(--faint); min-height: 0; }
.pane { background: var(--panel); min-width: 0; min-height: 0; display: flex; flex-direction: column; contain: layout style; }
.pane > .bar { display: flex; align-items: center; gap: 10px; padding: 6px 12px; flex: none; min-height: 33px; }
.bar .grow { flex: 1; }
.scroll { overflow: auto; flex: 1; min-height: 0; }
.ln { display: grid; grid-template-columns: 2.7em 1fr auto; padding-right: 6px; font: 12.5px/1.55 var(--mono); white-space: pre-wrap; overflow-wrap: anywhere; }
.ln .no { text-align: right; padding-right: .8em; color: var(--soft); opacity: .75; user-select: none; }
.ln .rem { color: var(--soft); font-style: italic; }
.ln .kw { font-weight: 650; }
.ln code { font-size: 1em; }
.ln .at { white-space: nowrap; display: flex; gap: 3px; align-items: center; }
.ln.last { background: var(--hit); box-shadow: inset 3px 0 var(--set); }
.ln.last .no { opacity: 1; color: var(--ink); font-weight: 650; }
.chip { font: 600 10.5px/1.4 system-ui, sans-serif; border-radius: 9px; padding: 0 6px; border: 1px solid var(--soft); color: var(--soft); background: var(--raised); white-space: nowrap; }
.chip.waiting { border-style: dashed; }
.chip.ready { border-style: dotted; }
.chip.out { background: var(--w); border-color: var(--w); color: #fff; }
/* heaps: all in em, so that one font size zooms them */
#heaps { position: relative; }
#stage { position: relative; padding: 1em; min-height: 100%; font-size: 13px; }
#arrows { position: absolute; inset: 0; pointer-events: none; overflow: visible; z-index: 2; }
#arrows path { fill: none; stroke-width: 1.3; }
#arrows .inside { stroke: var(--inside); color: var(--inside); }
#arrows .up { stroke: var(--up); color: var(--up); }
#arrows .down { stroke: var(--down); color: var(--down); stroke-width: 2.6; }
#arrows .cross { stroke: var(--cross); color: var(--cross); stroke-width: 2.4; stroke-dasharray: 7 5; }
#arrows .root { stroke: var(--soft); color: var(--soft); stroke-width: 1; stroke-dasharray: 2 3; opacity: .55; }
#arrows .fresh { stroke-width: 3; }
#arrows text { stroke-dasharray: none !important; font: 600 11px system-ui, sans-serif; fill: currentColor; stroke: var(--panel) !important; stroke-width: 4px !important; paint-order: stroke; }
#arrows marker[id] path { stroke: none; fill: currentColor; }
#arrows.hot > path { opacity: .12; }
#arrows.hot > path.hot { opacity: 1; }
.task { border: 1.5px solid var(--faint); border-radius: .75em; padding: .55em .7em .7em; background: color-mix(in oklab, var(--panel), var(--ink) calc(var(--deep) * 1.3%)); min-width: 11em; }
.task.tight { padding-inline: .22em; border-radius: .35em; }
.task.tight.waiting { border-inline-width: 0; }
.task.tight.out { padding-left: .55em; }
.own > .head { display: flex; flex-wrap: wrap; gap: .2em .6em; align-items: center; }
.own > .head b { font-size: 1.08em; }
.task.ready { border-style: dotted; border-color: var(--soft); }
.task.waiting { border-style: dashed; border-color: color-mix(in oklab, var(--soft), var(--panel) 35%); }
.task.out { border-color: var(--w); box-shadow: inset .3em 0 var(--w); }
.task.ended { border-color: var(--soft); }
.task.act { outline: .2em solid color-mix(in oklab, var(--set), transparent 55%); outline-offset: .12em; }
.own { display: contents; }
.task.find { outline: .25em solid var(--up); }
.pill { background: var(--panel); font-size: .8em; border-radius: 1em; padding: .05em .7em; border: 1px solid var(--soft); color: var(--soft); white-space: nowrap; }
.pill.out { border-color: var(--w); background: var(--w); color: #fff; font-weight: 650; }
.pill.over { border-color: var(--cross); background: var(--cross); color: var(--on-strong); font-weight: 650; }
.tiny { font-size: .8em; color: var(--soft); }
"##;

pub const BEFORE_2: &str =
    r##".heap, .kids { display: flex; flex-wrap: wrap; gap: .7em; align-items: flex-start; margin-top: .55em; }
.kids { gap: 1.3em .9em; margin-top: 1.3em; }
.kids > .task { flex: 0 1 auto; }
.chunk { border: 1px solid var(--faint); border-radius: .45em; background: var(--raised); padding: .35em .55em .5em; min-width: 9em; }
.chunk .cap { display: flex; gap: .6em; align-items: center; font-size: .78em; color: var(--soft); white-space: nowrap; }
/* headings and cards stand above the arrows */
.head > *, .cap > *, .sum, .roots > * { position: relative; z-index: 3; }
.head > .tiny, .head > b, .cap > *, .roots > .tiny { background: color-mix(in oklab, var(--panel), transparent 15%); border-radius: .3em; }
.roots { display: flex; flex-wrap: wrap; gap: .2em .3em; align-items: center; margin-top: .3em; }
.hold { padding: 0 .4em; border: 1px dotted var(--soft); border-radius: .4em; background: var(--panel); color: var(--soft); font: .78em var(--mono); }
.task.fold { border-style: dotted; border-color: var(--soft); }
.objs { display: flex; flex-wrap: wrap; gap: 1.25em 1.1em; margin-top: .75em; }
.obj { position: relative; z-index: 3; display: flex; flex-direction: column; align-items: stretch; padding: 0; border: 1.3px solid var(--soft); border-radius: .5em; background: var(--panel); font: .92em var(--mono); text-align: left; }
.obj .nm { padding: 0 .5em; font-weight: 650; display: flex; gap: .8em; justify-content: space-between; }
.obj .nm span { font-weight: 400; color: var(--soft); font-size: .85em; }
.obj.imm { border-radius: 0; border-style: double; border-width: 3px; background: var(--imm); }
.flds { display: flex; border-top: 1px solid var(--faint); }
.f { flex: 1 0 auto; min-width: 1.9em; padding: 0 .45em; white-space: nowrap; text-align: center; border-left: 1px solid var(--faint); font-style: normal; }
.f:first-child { border: 0; }
.f.inside { color: var(--inside); }
.f.up { color: var(--up); }
.f.down { color: var(--down); font-weight: 700; }
.f.cross { color: var(--cross); font-weight: 700; }
.f.nil, .f.etc { color: var(--soft); opacity: .7; }
.f.rem { border-bottom: 3px double var(--down); }
.f.wrote { background: var(--set-bg); box-shadow: inset 0 0 0 min(2px, .13em) var(--set); }
.f.read { box-shadow: inset 0 0 0 min(2px, .13em) var(--up); }
.obj.new { border-color: var(--new); background: var(--new-bg); opacity: 1; }
.obj.froze { border-color: var(--up); }
.obj.fades { opacity: .45; border-style: dashed; }
.tag { position: absolute; top: -.95em; right: .3em; font: 650 .68em/1.25 system-ui, sans-serif; padding: 0 .4em; border-radius: .5em; color: var(--on-strong); background: var(--soft); text-decoration: none; }
.tag.new { background: var(--new); }
.tag.set { background: var(--set); }
.tag.froze { background: var(--up); }
.obj.sel { outline: .22em solid var(--up); outline-offset: .1em; opacity: 1; }
.obj.stopped { outline: .22em dashed var(--cross); outline-offset: .15em; }
.sum { font-size: .9em; border: 1px solid var(--faint); background: var(--raised); border-radius: .45em; padding: .2em .6em; }
.sum b { font-variant-numeric: tabular-nums; }
.legend { display: flex; flex-wrap: wrap; gap: 2px 8px; padding: 5px 10px; font-size: 11px; color: var(--soft); border-top: 1px solid var(--faint); }
.legend svg { width: 26px; height: 8px; vertical-align: middle; }
.legend path { fill: none; stroke-width: 1.6; }
.legend .inside { stroke: var(--inside); } .legend .up { stroke: var(--up); } .legend .down { stroke: var(--down); stroke-width: 2.6; }
.legend .cross { stroke: var(--cross); stroke-dasharray: 5 3; } .legend .root { stroke: var(--soft); stroke-width: 1; stroke-dasharray: 2 3; }
.legend .sw { display: inline-block; width: 11px; height: 11px; border-radius: 3px; border: 1.3px solid; vertical-align: -1px; }
.sw.new { border-color: var(--new); background: var(--new-bg); } .sw.set { border-color: var(--set); background: var(--set-bg); }
.sw.imm { border: 3px double var(--soft); border-radius: 0; background: var(--imm); }
@media (prefers-reduced-motion: no-preference) { .obj.new, .f.wrote { animation: pop .35s ease-out; } @keyframes pop { from { transform: translateY(-2px); } } }
/* the side */
#side { overflow: hidden; }
#side .box { overflow: auto; flex: 0 1 auto; max-height: 42%; min-height: 3.2em; }
#side .box:last-child { flex: 1 1 0; max-height: none; min-height: 8em; }
#side .box { border-bottom: 1px solid var(--faint); padding: 7px 12px 9px; }
#side .box > h2 { display: flex; justify-content: space-between; margin-bottom: 4px; }
#side ul { list-style: none; margin: 0; padding: 0; }
#tree li { content-visibility: auto; contain-intrinsic-height: 21px; }
#tree li > button { display: flex; gap: 6px; width: 100%; border: 0; background: none; padding: 1px 4px; text-align: left; font-size: 12.5px; white-space: nowrap; border-radius: 4px; }
#tree li > button:hover { background: var(--raised); }
#tree .joined { opacity: .5; }
#tree .act { background: var(--hit); }
#tree .dot { flex: none; width: 9px; height: 9px; border-radius: 50%; border: 2px solid var(--soft); align-self: center; }
#tree .dot.out { background: var(--w); border-color: var(--w); }
#tree .dot.waiting { border-style: dashed; }
#tree .dot.ended { background: var(--soft); }
#tree .dot.joined { border-radius: 2px; }
#tree .st { color: var(--soft); overflow: hidden; text-overflow: ellipsis; }
.outs { font: 13px var(--mono); display: flex; flex-wrap: wrap; gap: 2px 9px; }
.outs .new { color: var(--new); font-weight: 700; }
.end { margin-top: 5px; font-weight: 650; }
#look dl { display: grid; grid-template-columns: auto 1fr; gap: 1px 9px; margin: 0; font-size: 12.5px; }
#look dt { color: var(--soft); }
#look dd { margin: 0; }
#look ol { margin: 3px 0 0; padding: 0; list-style: none; font-size: 12.5px; }
#look li button { border: 0; background: none; padding: 0 4px; text-align: left; }
#look li.here button { background: var(--hit); border-radius: 4px; }
#look .no { display: inline-block; min-width: 2.6em; color: var(--soft); font-variant-numeric: tabular-nums; }
/* the dock */
#dock { display: grid; grid-template-columns: 240px minmax(0, 1fr); background: var(--panel); padding: 6px 14px 9px 14px; gap: 3px 10px; }
.play { display: flex; gap: 4px; align-items: center; }
.play button { padding: 2px 7px; min-width: 30px; }
.play svg { width: 14px; height: 14px; fill: currentColor; display: block; margin: 4px auto; }
.play #go { min-width: 44px; background: var(--ink); color: var(--panel); border-color: var(--ink); }
#speed { border: 1px solid var(--faint); border-radius: 6px; background: var(--raised); padding: 2px; width: 58px; }
#slide { width: 100%; margin: 0; accent-color: var(--up); height: 24px; }
#plot { width: 100%; height: 62px; display: block; cursor: pointer; overflow: visible; }
#plot .c { stroke: var(--set); fill: none; stroke-width: 1.5; }
#plot .w { stroke: var(--move); fill: color-mix(in oklab, var(--move), transparent 85%); stroke-width: 1.5; }
#plot .cur { stroke: var(--ink); stroke-width: 1; }
#plot .base { stroke: var(--faint); }
#plot .end { stroke: var(--new); }
#plot .sweep { stroke: var(--cross); }
.nums { font-size: 12px; line-height: 31px; display: grid; font-variant-numeric: tabular-nums; text-align: right; color: var(--soft); white-space: nowrap; }
.nums b { color: var(--ink); }
.nums span::before { content: ""; display: inline-block; width: 14px; height: 3px; margin-right: 6px; vertical-align: 3px; background: var(--set); }
.nums .w::before { background: var(--move); }
.names, #lanes { max-height: 132px; overflow: hidden; } @media (min-height: 860px) { .names, #lanes { max-height: 178px; } }
.names div { height: 22px; line-height: 22px; font-size: 12px; text-align: right; color: var(--soft); }
.names b { color: var(--w); }
#lanes { overflow: auto; position: relative; scrollbar-width: thin; }
#track { position: relative; }
.lane { position: absolute; left: 0; right: 0; height: 1px; background: var(--faint); }
"##;

pub const BEFORE_3: &str =
    r##".ent { position: absolute; height: 18px; border-radius: 4px; font: 600 10px/18px system-ui, sans-serif; text-align: center; cursor: pointer; overflow: hidden; background: var(--k-ran); }
#veil { position: absolute; inset: 0; background: var(--panel); opacity: .58; pointer-events: none; }
.k-took { background: var(--k-took); }
.k-chunk, .k-putoff { background: var(--k-chunk); }
.k-begin, .k-end { background: var(--k-leaf); }
.k-mark, .k-some, .k-sweep { background: var(--k-inner); }
.k-fuel, .ent.over { background: var(--k-over); }
.ent.now { outline: 2px solid var(--ink); outline-offset: 0; opacity: 1; z-index: 1; }
.ent.touch { box-shadow: inset 0 -3px var(--up); }
dialog { border: 1px solid var(--faint); border-radius: 10px; background: var(--panel); color: var(--ink); padding: 18px 24px; max-width: 46em; }
dialog::backdrop { background: #0008; }
dialog table { border-spacing: 14px 2px; margin-left: -14px; }
kbd { font: 12px var(--mono); border: 1px solid var(--faint); border-bottom-width: 2px; border-radius: 4px; padding: 0 5px; background: var(--raised); }
@media (max-width: 1050px) {
  main { grid-template-columns: minmax(200px, 30%) minmax(0, 1fr); grid-template-rows: minmax(0, 1fr) auto; }
  #side { grid-column: 1 / -1; height: 20vh; flex-direction: row; }
  #side .box, #side .box:last-child { flex: 1 1 0; max-height: none; min-height: 0; border-bottom: 0; border-right: 1px solid var(--faint); }
  #dock { grid-template-columns: auto minmax(0, 1fr); }
  #nums, #plot, #lanes { grid-column: 1 / -1; }
  .nums { display: flex; gap: 18px; line-height: 16px; }
  .legend, .names { display: none; }
  .ln .chip:nth-child(n + 2) { display: none; }
}
@media (max-width: 640px) {
  body { height: auto; display: block; }
  main { display: flex; flex-direction: column; }
  .pane { max-height: 60vh; }
  .pane[aria-label=Heaps] { order: -1; }
  #side { height: 34vh; }
  .top { gap: 8px; }
  .top .how { display: none; }
  .top form { flex: 1; }
  .top input { width: 100%; }
  #now { display: block; position: sticky; top: 0; z-index: 5; max-height: 26vh; overflow: auto; background: var(--paper); border-bottom: 1px solid var(--faint); }
  #said { font-size: 15px; }
  #dock { position: sticky; bottom: 0; z-index: 5; }
  .play button { min-width: 26px; padding: 2px 4px; }
}
/* paper: the class is set before a print, so that arrows are measured as they will be printed */
.paper .pane { contain: none; }
.paper body { display: block; height: auto; background: #fff; width: 1040px; }
.paper main { display: flex; flex-direction: column; border: 0; background: none; }
.paper #text { order: 1; }
.paper #tree { columns: 3; } .paper #tree li { content-visibility: visible; }
.paper #side .box { max-height: none; }
.paper label { display: none; }
.paper .pane, .paper .scroll { display: block; overflow: visible; max-height: none; background: #fff; }
.paper .top input, .paper .top button, .paper .play, .paper #slide, .paper #zoom, .paper .skip, .paper #look, .paper #dock .names, .paper #lanes { display: none; }
.paper #text .scroll { columns: 2; column-gap: 2em; }
.paper .ln { break-inside: avoid; font-size: 10.5px; }
.paper #dock { grid-template-columns: 160px 1fr; }
.paper #heaps, .paper .task { break-inside: avoid; }
.paper * { animation: none !important; }
@page { size: A4 landscape; margin: 10mm; }
</style>
</head>
<body>
<noscript><p>This page draws a run by a script of its own; it asks for nothing from a network.</p></noscript>
<a class="skip" href="#stage">To the heaps</a>
<header class="top">
  <h1 id="title"></h1><span class="how" id="how"></span>
  <form role="search" id="seek"><input id="find" type="search" placeholder="find an object: 1,0" aria-label="Find an object by its birth name, as 1,0" autocomplete="off"></form>
  <button id="theme" aria-label="Dark or light"><svg viewBox="0 0 16 16" width="14" height="14" style="display:block;margin:3px 0"><circle cx="8" cy="8" r="6.5" fill="none" stroke="currentColor" stroke-width="1.6"/><path d="M8 1.5a6.5 6.5 0 0 1 0 13z" fill="currentColor"/></svg></button><button id="ask" aria-label="Help on keys and signs">?</button>
</header>
<section id="now" aria-label="The entry"><div class="count" id="count"></div><div id="said" aria-live="polite"></div></section>
<main>
  <section class="pane" id="text" aria-label="Program"><div class="bar"><h2>Program</h2></div><div class="scroll" id="lines" tabindex="0" role="list" aria-label="Lines of the program"></div></section>
  <section class="pane" aria-label="Heaps">
    <div class="bar"><h2>Heaps</h2><span class="tiny" id="drawn"></span><span class="grow"></span>
      <span id="zoom"><button data-z="-1" aria-label="Smaller">&minus;</button> <button data-z="0" aria-label="Fit">fit</button> <button data-z="1" aria-label="Larger">+</button> <button id="mode" aria-label="Draw as many objects as can be read, all objects, or heaps alone">auto</button></span></div>
    <div class="scroll" id="heaps" tabindex="0"><div id="stage" tabindex="-1"></div></div>
    <div class="legend" id="legend"></div>
  </section>
  <section class="pane scroll" id="side" aria-label="Tasks, outputs, the object looked at">
    <div class="box"><h2><span>Output</span></h2><div class="outs" id="outs"></div><div class="end" id="over"></div></div>
    <div class="box" id="look" hidden></div>
    <div class="box"><h2><span>Tasks</span><label style="text-transform:none;letter-spacing:0;font-weight:400"><input type="checkbox" id="all" checked> joined</label></h2><ul id="tree"></ul></div>
  </section>
</main>
<footer id="dock" aria-label="Journal">
  <div class="play" role="group" aria-label="Steps"><button data-go="home" aria-label="To the start"><svg viewBox="0 0 16 16"><path d="M2 3h2v10H2zM13 3v10L5 8z"/></svg></button><button data-go="-1" aria-label="One entry back"><svg viewBox="0 0 16 16"><path d="M11 3v10L4 8z"/></svg></button><button id="go" aria-pressed="false" aria-label="Play"><svg viewBox="0 0 16 16"><path d="M4 2v12l10-6z"/></svg></button><button data-go="1" aria-label="One entry on"><svg viewBox="0 0 16 16"><path d="M5 3v10l7-5z"/></svg></button><button data-go="end" aria-label="To the end"><svg viewBox="0 0 16 16"><path d="M12 3h2v10h-2zM3 3v10l8-5z"/></svg></button>
    <select id="speed" aria-label="Entries a second"><option value="1">1/s</option><option value="3" selected>3/s</option><option value="10">10/s</option><option value="40">40/s</option></select></div>
  <input id="slide" type="range" min="0" value="0" aria-label="Entry">
  <div class="nums" id="nums"></div><svg id="plot" role="img" aria-label="Two curves, entry by entry"></svg>
  <div class="names" id="names"></div><div id="lanes" role="listbox" tabindex="0" aria-label="Journal: a lane for each worker"><div id="track" role="presentation"></div></div>
</footer>
<dialog id="help" aria-labelledby="helph"><h1 id="helph">A run, entry by entry</h1>
  <p>The journal of a run is the list of its entries, each an atomic step of the core made by one worker. The page shows what stands after an entry: each task's heap is a box in its parent's, with its chunks and the objects in them. Below a task's name stand the objects that its registers hold, its roots; what no root leads to is pale, and so is what a collection that goes on will drop.</p>
"##;

pub const BEFORE_4: &str =
    r##"  <table><tr><td><kbd>&larr;</kbd> <kbd>&rarr;</kbd><td>an entry back, on<tr><td><kbd>Shift</kbd> with them<td>the entry before, after, of the same worker<tr><td><kbd>PgUp</kbd> <kbd>PgDn</kbd> <kbd>Home</kbd> <kbd>End</kbd><td>ten entries; the start, the end<tr><td><kbd>n</kbd> <kbd>p</kbd><td>next, previous fork, join, collection, output or end<tr><td><kbd>Space</kbd><td>play, pause<tr><td><kbd>/</kbd><td>find an object by its birth name; <kbd>Esc</kbd> lets it go<tr><td><kbd>]</kbd> <kbd>[</kbd><td>next, previous entry that touches the object looked at<tr><td><kbd>+</kbd> <kbd>&minus;</kbd> <kbd>f</kbd><td>zoom the heaps, fit<tr><td><kbd>o</kbd><td>object by object, or heap by heap<tr><td><kbd>t</kbd> <kbd>?</kbd><td>dark or light; this help</table>
  <p>A link to an entry ends with <code>#e=17</code>, and with <code>&amp;o=1.0</code> it looks at an object. An object's name (B,N) says that it is the N-th allocation of task B. A double underline marks a remembered field. Of many references within heaps, and of many roots, only those have arrows that the entry touches; point at an object to see all of its own.</p>
  <form method="dialog"><button>Close</button></form></dialog>
<script type="application/json" id="run">"##;

pub const AFTER_1: &str = r##"</script>
<script>
'use strict';
const RUN = JSON.parse(document.getElementById('run').textContent);
const [START, ...ENTRIES] = RUN.entries, N = ENTRIES.length;
const LINES = RUN.program.slice(0, -1);  // the data ends its lines with an empty one
const OBJECTS_DRAWN = 160, TASKS_DRAWN = 200, ARROWS_DRAWN = 75, ROOTS_DRAWN = 16, FOLDS_FROM = 5, CHANGES_TOLD = 6;

/* ------------------------------------------------------------ texts and elements */

const $ = id => document.getElementById(id);
const ESCAPES = { '&': '&amp;', '<': '&lt;', '>': '&gt;', '"': '&quot;' };
const esc = s => String(s).replace(/[&<>"]/g, c => ESCAPES[c]);
const cls = (...names) => names.filter(Boolean).join(' ');
function node(tag, attrs, ...inner) {   // an element as a text; what is empty or false is left out
  const told = Object.entries(attrs).filter(([, v]) => v !== '' && v !== false && v !== undefined);
  return `<${tag}${told.map(([k, v]) => ` ${k}="${v}"`).join('')}>${inner.flat().filter(Boolean).join('')}</${tag}>`;
}
const nm = n => `(${n.replace('.', ',')})`;
const link = n => node('button', { class: 'name', 'data-o': n }, nm(n));
const count = n => String(n).replace(/\B(?=(\d{3})+$)/g, ',');
const many = (n, one, more = one + 's') => `${count(n)} ${n === 1 ? one : more}`;
const hue = w => `oklch(${w % 2 ? 0.55 : 0.5} 0.13 ${(255 + w * 137.5) % 360})`;
const group = (map, key, x) => map.has(key) ? map.get(key).push(x) : map.set(key, [x]);
const held = new WeakMap();             // the texts that elements hold
function write(el, text) {              // an element is written anew only if its text is another
  if (held.get(el) === text) return false;
  held.set(el, text);
  el.innerHTML = text;
  return true;
}

/* ------------------------------------------------------------ the state, and its deltas (docs/PAGES.md) */

const UNIT = 1024;                      // words of a chunk; an object of more has a chunk of its own, of so many units
const S = { tasks: new Map(), objs: new Map(), noted: new Map(), heaps: new Map(), sums: new Map([['outs', 0], ['chunks', 0], ['words', 0]]) };
let pos = 0;                            // so many entries are applied
const logs = [];                        // of each applied entry what to put back: [map, key, old value]
const words = o => 2 + o.R + o.I;
const bornIn = n => Number(n.split('.')[0]);
const owner = t => { while (S.tasks.get(t).state === 'joined') t = S.tasks.get(t).parent; return t; };
const above = (a, t) => { while ((t = S.tasks.get(t).parent) !== null) if (t === a) return true; return false; };
const heapOf = n => owner(bornIn(n));
const kindOf = (a, b) => a === b ? 'inside' : above(b, a) ? 'up' : above(a, b) ? 'down' : 'cross';

for (const d of ENTRIES) {              // what the steps did, by kind
  for (const [what, ...parts] of d.did || []) (d[what] = d[what] || []).push(what === 'new' || what === 'set' ? parts : parts[0]);
}

function putInto(log) {                 // puts a value into a map, or takes it away, and notes what stood there
  return (map, key, value) => {
    log.push([map, key, map.get(key)]);
    value === undefined ? map.delete(key) : map.set(key, value);
  };
}
function applyField(put, [n, k, v]) {
  const o = S.objs.get(n), f = o.f.slice();
  while (f.length < k) f.push(0);
  f[k] = v;
  put(S.objs, n, { ...o, f });
  if (k < o.R && v && above(heapOf(n), heapOf(v))) {  // a pointer down: the heap that it leads into remembers its field
    const note = [heapOf(v), n, k];
    put(S.noted, note.join(' '), note);
  }
}
const NO_HEAP = { chunks: [], large: [], reserved: 0, begun: 0, keeps: null, snap: null, marked: 0 };
const heapAt = t => S.heaps.get(t) || NO_HEAP;
const unitsOf = n => Math.ceil(words(S.objs.get(n)) / UNIT);
const unitsIn = h => h.chunks.length + h.reserved + h.begun + h.large.reduce((sum, n) => sum + unitsOf(n), 0);
const namesIn = h => [...h.chunks.flat(), ...h.large];
const more = (put, key, by) => by && put(S.sums, key, S.sums.get(key) + by);
function putHeap(put, t, change) {
  const old = heapAt(t), h = { ...old, ...change };
  put(S.heaps, t, h);
  more(put, 'chunks', unitsIn(h) - unitsIn(old));
}
function place(put, o) {                // a new object lies in the last chunk, or in a chunk of its own
  const t = bornIn(o.n), h = heapAt(t);
  put(S.objs, o.n, o);
  more(put, 'words', words(o));
  if (words(o) > UNIT) putHeap(put, t, { large: [...h.large, o.n], reserved: 0 });
  else putHeap(put, t, { chunks: [...h.chunks.slice(0, -1), [...h.chunks[h.chunks.length - 1] || [], o.n]] });
}
function lay(put, [t, chunks, large], swept) {  // what lay in the heap and is in none of these was dropped
  const kept = new Set([...chunks.flat(), ...large]), gone = namesIn(heapAt(t)).filter(n => !kept.has(n));
  putHeap(put, t, { chunks, large, begun: 0, keeps: null, ...swept ? { snap: null, marked: 0 } : {} });
  for (const n of gone) {
    more(put, 'words', -words(S.objs.get(n)));
    put(S.objs, n, undefined);
  }
}
function give(put, [t, units]) {        // a chunk for small objects has one unit
  putHeap(put, t, units === 1 ? { chunks: [...heapAt(t).chunks, []] } : { reserved: units });
}
function merge(put, joined) {           // the left child's chunks come first, then the right one's, then the parent's own
  if (!joined.length) return;
  const t = S.tasks.get(joined[0]).parent, heaps = [...joined, t].map(heapAt);
  putHeap(put, t, { chunks: heaps.flatMap(h => h.chunks), large: heaps.flatMap(h => h.large), snap: null, marked: 0 });
  for (const x of joined) putHeap(put, x, NO_HEAP);
}
function applyNews(put, d) {            // what the entry tells of the heap of its task
  if (d.give) give(put, d.give);
  if (d.take) putHeap(put, d.take[0], { begun: d.take[1], keeps: d.take[2] });
  if (d.heap) lay(put, d.heap, d.e[1] === 'sweep');
  if (d.snap) putHeap(put, d.snap[0], { snap: d.snap[1], marked: 0 });
  if (d.mark) putHeap(put, d.mark[0], { marked: d.mark[1] });
}
function applyChange(put, [what, ...x]) {
  if (what === 'new') place(put, { n: x[0], m: x[1] === 1, R: x[2], I: x[3], f: x.slice(4) });
  if (what === 'set') applyField(put, x);
  if (what === 'froze') put(S.objs, x[0], { ...S.objs.get(x[0]), m: false });
  if (what === 'print') more(put, 'outs', 1);
}
function lift(put, joined) {            // what a joined heap remembered its parent's does, but for fields of its own objects
  if (!joined.length) return;
  for (const [t, n, k] of [...S.noted.values()]) {
    if (!joined.includes(t)) continue;
    const note = [S.tasks.get(t).parent, n, k];
    put(S.noted, `${t} ${n} ${k}`, undefined);
    if (heapOf(n) !== note[0]) put(S.noted, note.join(' '), note);
  }
}
function apply(d) {
  const log = [], put = putInto(log);
  for (const change of d.did || []) applyChange(put, change);
  for (const [t, parent, fn] of d.made || []) put(S.tasks, t, { t, parent, fn, state: 'ready', line: 0, holds: [], w: null });
  if (d.made) putHeap(put, d.made[0][1], { snap: null, marked: 0 });
  for (const [t, state, line, ...holds] of d.task || []) {
    const x = S.tasks.get(t) || { t: 0, parent: null, fn: 'main' };
    put(S.tasks, t, { ...x, state, line, holds, w: state !== 'out' ? null : x.state === 'out' ? x.w : d.e[0] });
  }
  const joined = (d.task || []).filter(x => x[1] === 'joined').map(x => x[0]);
  merge(put, joined);
  lift(put, joined);
  applyNews(put, d);
  return log;
}
function undo(log) {
  for (let i = log.length - 1; i >= 0; i--) {
    const [map, key, old] = log[i];
    old === undefined ? map.delete(key) : map.set(key, old);
  }
}
function seek(i) {
  while (pos < i) { logs[pos] = apply(ENTRIES[pos]); pos++; }
  while (pos > i) { pos--; undo(logs[pos]); logs[pos] = null; }
}

/* ------------------------------------------------------------ once over the run: curves, histories, outputs */

const curve = { chunks: [0], words: [0] };
const histories = new Map();            // of each object the entries that touch it
const outputs = [];
"##;

pub const AFTER_2: &str =
    r##"const stones = [0];                     // the entries that `n` and `p` lead to
const ofWorker = new Map();             // the entries of each worker
const first = new Map();                // where each task is taken first
let tasksMade = 1;

const joins = d => (d.task || []).some(x => x[1] === 'joined');
const isStone = (d, i) => d.made || d.print || joins(d) || i === N || /^(begin|end|mark|sweep)$/.test(d.e[1]);
function note(n, i, what) {
  const past = histories.get(n), last = past && past[past.length - 1];
  if (!last || last[0] !== i || last[1] !== what) group(histories, n, [i, what]);
}
function noteHistory(d, i) {
  for (const [n] of d.new || []) note(n, i, 'allocated');
  for (const [n, k] of d.set || []) note(n, i, `field ${k} written`);
  for (const n of d.froze || []) note(n, i, 'frozen');
  if (d.at && /^(get|cnt)/.test(d.at[1]) && d.at[2]) note(d.at[2], i, `read by task ${d.e[2]}`);
  if (d.heap) for (const [map, n] of logs[i - 1]) if (map === S.objs && !S.objs.has(n)) note(n, i, 'dropped');
}
function lookThrough() {
  ENTRIES.forEach((d, j) => {
    const i = j + 1, [w, kind, t] = d.e;
    seek(i);
    noteHistory(d, i);
    curve.chunks.push(S.sums.get('chunks'));
    curve.words.push(S.sums.get('words'));
    if (kind === 'took' && !first.has(t)) first.set(t, i);
    outputs.push(...d.print || []);
    if (isStone(d, i)) stones.push(i);
    group(ofWorker, w, i);
    tasksMade += (d.made || []).length;
  });
  seek(0);
}
apply(START);
lookThrough();
const most = list => list.reduce((a, b) => Math.max(a, b), 1);
const mostWords = most(curve.words), mostChunks = most(curve.chunks);
const workers = [...ofWorker.keys()].sort((a, b) => a - b), lane = new Map(workers.map((w, i) => [w, i]));

/* ------------------------------------------------------------ an entry in plain words */

const instruction = line => esc((LINES[line - 1] || '').replace(/(^|\s)#.*/, '').trim().replace(/\s+/g, ' '));
const END = {
  done: () => 'The run is done: main has returned.',
  trap: ([, kind, t, line]) => `The run ended by a trap, ${kind}, in task ${t} on line ${line}.`,
  entangled: ([, r, u]) => `The run was stopped: task ${r} read what task ${u} owns.`,
  fuel: ([, s]) => `The run's fuel is spent, after ${many(s, 'step')}.`,
  pool: ([, u]) => `The run ended for want of chunks: ${u} are in use.`,
};
const isOver = i => i === N && RUN.end[0] !== 'done';
const isStopped = () => isOver(pos) && RUN.end[0] === 'entangled';
const halt = says => node('span', { class: 'stop' }, says);

const SAY = {                           // by an entry's kind, of its delta, its task and its numbers
  took: (d, t) => first.get(t) < pos ? `takes task ${t} again, whose children have joined.` : `takes task ${t}, which begins in <code>${esc(S.tasks.get(t).fn)}</code>.`,
  ran: (d, t, steps) => step(d, t, steps) + sayChanges(d),
  chunk: (d, t) => pos === N && RUN.end[0] === 'pool' ? `task ${t} needs a chunk for its next object, and too few are free. ${halt('The run ends for want of chunks.')}`
    : `task ${t} gets a chunk${d.give && d.give[1] > 1 ? ` of ${count(d.give[1])} units` : ''}, since its next object has no place in what it has.`,
  begin: (d, t) => `a leaf collection of task ${t}'s heap begins, with ${many(d.take[1], 'chunk')} to copy into. It keeps ${count(d.take[2].length)} of ${many(namesIn(heapAt(t)).length, 'object')}.`,
  end: (d, t, kept, given, left) => `the collection of task ${t}'s heap ends: ${many(kept, 'new chunk')} kept, ${given ? many(given, 'chunk') : 'none'} given back. The heap has ${many(left, 'word')}.`,
  putoff: (d, t) => `a leaf collection of task ${t}'s heap is due, but the chunks to copy into aren't free. It is put off.`,
  mark: (d, t) => `begins to mark the heap of task ${t}, which waits: what could be reached in it at the fork, ${many(d.snap[1].length, 'object')}.`,
  some: (d, t, n) => `marks on in the heap of task ${t}, ${many(n, 'object')} at most: ${count(d.mark[1])} of ${count(heapAt(t).snap.length)} are marked.`,
  sweep: (d, t, given) => `sweeps the heap of task ${t}: what isn't marked is dropped, ${given ? many(given, 'chunk') : 'no chunk'} given back. Nothing moves.`,
};
function say(i) {                       // the state is that after entry i
  if (i === 0) return 'Before the first entry: task 0 is ready to run <code>main</code>.';
  const d = ENTRIES[i - 1], [w, kind, ...numbers] = d.e;
  if (kind === 'fuel') return halt(END.fuel(RUN.end));
  return `Worker ${w}${/^(took|mark|some|sweep)$/.test(kind) ? ' ' : ': '}${SAY[kind](d, ...numbers)}`;
}

const ofTask = (n, t) => n && S.objs.has(n) && heapOf(n) !== t ? ` of task ${heapOf(n)}` : '';
const refOrNil = v => v ? link(v) : 'nil';
const fieldOf = (t, n, k) => `field ${k} of ${link(n)}${ofTask(n, t)}`;
const remembers = (n, v) => v && kindOf(heapOf(n), heapOf(v)) === 'down' ? `, a pointer down, which task ${heapOf(v)}'s heap remembers` : '';
const DID = {                           // by the instruction of the last step, of what `at` has behind it
  getr: (t, n, k, v) => `reads ${fieldOf(t, n, k)}: ${refOrNil(v)}.`,
  geti: (t, n, k, v) => `reads ${fieldOf(t, n, k)}: ${v}.`,
  putr: (t, n, k, v) => `writes ${refOrNil(v)} into ${fieldOf(t, n, k)}${remembers(n, v)}.`,
  puti: (t, n, k, v) => `writes ${v} into ${fieldOf(t, n, k)}.`,
  cas: (t, n, k, v, won) => `compares and swaps ${fieldOf(t, n, k)}: ${won ? `it is ${refOrNil(v)} now${remembers(n, v)}` : 'it was another, and stays'}.`,
  cntr: (t, n) => `counts the references of ${link(n)}${ofTask(n, t)}.`,
  cnti: (t, n) => `counts the numbers of ${link(n)}${ofTask(n, t)}.`,
  freeze: (t, n) => `freezes ${link(n)}.`,
  newm: (t, n) => `makes ${link(n)}, mutable.`,
  pack: (t, n) => `makes ${link(n)}, immutable.`,
};
function step(d, t, steps) {
  const [line, op, ...parts] = d.at, code = `<code>${instruction(line)}</code> on line ${line}`, over = isOver(pos);
  const T = steps > 1 ? `task ${t} takes ${steps} steps. The last ` : `task ${t} `;
  if (over && RUN.end[0] === 'trap') return `${T}is at ${code}, and ${halt(`traps (${RUN.end[1]}). The run is over.`)}`;
  if (isStopped()) return `${T}reads ${fieldOf(t, parts[0], parts[1])}, which holds ${link(parts[2])} of task ${RUN.end[2]} beside it. ${halt('The read is stopped as entangled, and the run is over.')}`;
  if (op === 'out') return `${T}writes the number <b>${(d.print || []).at(-1)}</b>.`;
  if (op === 'par') return `${T}forks, and task ${t} waits for ${d.made.map(([x, , f]) => `task ${x} (<code>${esc(f)}</code>)`).join(' and ')}.`;
  if (op === 'ret') return returned(d, t, steps, line);
  if (DID[op] && parts.length) return T + DID[op](t, ...parts);
  return steps > 1 ? `${T}is ${code}.` : `task ${t} takes a step, ${code}.`;
}
function returned(d, t, steps, line) {
  const joined = (d.task || []).filter(x => x[1] === 'joined').map(x => x[0]);
  const T = steps > 1 ? `task ${t} takes ${steps} steps` : `task ${t}`, ends = steps > 1 ? `${T} and ends` : `${T} ends`;
  if (joined.length) return `${ends}. Tasks ${joined.join(' and ')} join: their heaps are task ${S.tasks.get(t).parent}'s now, which can go on.`;
  if (pos === N && RUN.end[0] === 'done') return `${ends}: it returns from <code>main</code>, and the run is done.`;
  if ((d.task || []).some(x => x[0] === t && x[1] === 'ended')) return `${ends}. Its sibling hasn't, so its heap waits for the join.`;
  return `${steps > 1 ? `${T}. The last returns` : `${T} returns`} from a call, on line ${line}.`;
}
const CHANGE = {
  new: ([n, m]) => `${link(n)} ${m ? 'allocated' : 'packed'}`,
  set: ([n, k, v]) => `field ${k} of ${link(n)} is ${typeof v === 'string' && v.includes('.') ? link(v) : v}`,
  froze: ([n]) => `${link(n)} frozen`,
  print: ([v]) => `${v} written out`,
};
function sayChanges(d) {                // what all steps changed, if there are more than the last tells of
  const all = d.did || [];
  if (d.e[3] === 1 || all.length < 2 && /^(newm|pack|putr|puti|cas|freeze|out)$/.test(d.at[1]) || !all.length) return '';
"##;

pub const AFTER_3: &str =
    r##"  const told = all.slice(0, CHANGES_TOLD).map(([what, ...x]) => CHANGE[what](x));
  return ` <span class="tiny">In these steps: ${all.length > CHANGES_TOLD ? `${sumUp(all)}; first ` : ''}${told.join('; ')}.</span>`;
}
const SUMS = { new: 'allocation', set: 'write', froze: 'freeze', print: 'output' };
function sumUp(all) {                   // how many changes there are of each kind
  const total = {};
  for (const [what] of all) total[what] = (total[what] || 0) + 1;
  return Object.entries(total).map(([what, n]) => many(n, SUMS[what])).join(', ');
}

/* ------------------------------------------------------------ drawing: program, tasks, outputs, the object looked at */

const STATES = { ready: 'ready', out: 'running', waiting: 'waiting', ended: 'ended', joined: 'joined' };
const OVER = { trap: 'trapped', entangled: 'stopped', pool: 'wants a chunk' };
function stateOf(x) {
  if (isOver(pos) && x.state === 'out' && RUN.end[0] !== 'fuel' && ENTRIES[N - 1].e[2] === x.t) return { cls: 'over', says: OVER[RUN.end[0]] };
  return { cls: x.state, says: x.state === 'out' ? `running on worker ${x.w}` : STATES[x.state] };
}
const tint = x => `--w:${hue(x.w || 0)}`;
let lit = [], lastRow = null;           // the rows of the program at which tasks stand, and that of the last step
function chips(xs) {
  xs.sort((a, b) => (b.state === 'out') - (a.state === 'out') || a.t - b.t);
  const chip = x => node('span', { class: cls('chip', x.state), style: tint(x), title: `task ${x.t}, ${stateOf(x).says}` }, `task ${x.t}`);
  return xs.slice(0, 3).map(chip).join('') + (xs.length > 3 ? node('span', { class: 'tiny' }, `+${xs.length - 3}`) : '');
}
function drawCode() {
  const at = new Map(), d = ENTRIES[pos - 1], rows = $('lines').children;
  for (const x of S.tasks.values()) if (x.line) group(at, x.line, x);
  const last = d && d.at && rows[d.at[0] - 1], before = lit;
  lit = [...at.keys()].map(line => rows[line - 1]);
  for (const [line, xs] of at) write(rows[line - 1].lastChild, chips(xs));
  for (const row of before) if (!lit.includes(row)) write(row.lastChild, '');
  if (last !== lastRow && lastRow) lastRow.classList.remove('last');
  if (last) last.classList.add('last');
  lastRow = last;
}
function showCode() {
  const d = ENTRIES[pos - 1], line = d ? d.at ? d.at[0] : (S.tasks.get(d.e[2]) || {}).line : 1;
  if (line) showRow($('lines').children[line - 1], $('lines'), 50);
}
function showRow(row, box, margin) {    // scrolls the box, and nothing around it
  const r = row.getBoundingClientRect(), b = box.getBoundingClientRect();
  if (r.top < b.top + margin * .6 || r.bottom > b.bottom - margin) box.scrollTop += r.top - b.top - b.height / 2;
}

const ROWS = 400;                       // so many tasks are listed
let listed = null;                       // the states that the list of tasks shows
function drawTree() {
  const all = $('all').checked, kids = new Map();
  for (const x of S.tasks.values()) if (all || x.state !== 'joined') group(kids, x.parent, x);
  const key = `${all} ${isOver(pos)} ` + [...S.tasks.values()].map(x => x.state[0] + x.state[1] + (x.w ?? '')).join('');
  if (key !== listed) listTasks(kids);
  listed = key;
  for (const row of $('tree').querySelectorAll('.act')) row.classList.remove('act');
  for (const row of movedRows()) row.classList.add('act');
}
function movedRows() {                  // of the tasks that the entry moved
  return ((ENTRIES[pos - 1] || {}).task || []).map(([t]) => $('tree').querySelector(`[data-t="${t}"]`)).filter(Boolean);
}
function showTree() {
  const row = movedRows()[0], box = $('tree').closest('.box');
  if (row) showRow(row.parentNode, box, 0);
}
function taskRow(x, deep) {
  const by = 4 + Math.min(deep, 8) * 10 + Math.min(Math.max(deep - 8, 0), 16);
  return node('button', { 'data-t': x.t, class: x.state, style: `padding-left:${by}px;${tint(x)}` },
    node('span', { class: cls('dot', x.state) }), node('b', {}, `${x.t}`), ' ',
    node('span', { class: 'st' }, `${stateOf(x).says.replace('running on ', '')} \u00b7 ${esc(x.fn)}`));
}
function listTasks(kids) {
  const out = [], todo = [[S.tasks.get(0), 0]];
  let more = 0;
  while (todo.length) {
    const [x, deep] = todo.pop();
    out.length < ROWS ? out.push(taskRow(x, deep)) : more++;
    for (const y of (kids.get(x.t) || []).reverse()) todo.push([y, deep + 1]);
  }
  if (more) out.push(node('span', { class: 'tiny' }, `and ${many(more, 'task')} more`));
  const rows = $('tree').children;
  while (rows.length > out.length) rows[rows.length - 1].remove();
  while (rows.length < out.length) $('tree').append(document.createElement('li'));
  out.forEach((text, i) => write(rows[i], text));
}
function drawOutputs() {
  const n = S.sums.get('outs'), printed = ((ENTRIES[pos - 1] || {}).print || []).length, from = Math.max(0, n - 200);
  const shown = outputs.slice(from, n).map((v, i) => node('span', { class: from + i >= n - printed && 'new' }, String(v)));
  if (from) shown.unshift(node('span', { class: 'tiny' }, `\u2026 ${many(from, 'line')} before`));
  write($('outs'), shown.join('') || node('span', { class: 'tiny' }, 'nothing yet'));
  write($('over'), pos === N ? node('span', { class: RUN.end[0] !== 'done' && 'stop' }, END[RUN.end[0]](RUN.end)) : '');
}

let seen = null;                        // the object looked at
const row = (name, says) => node('dt', {}, name) + node('dd', {}, says);
function fieldRows(o, own) {
  const out = [], all = o.R + o.I;
  for (let k = 0; k < all && out.length < 40; k++) {
    const v = o.f[k] || 0;
    out.push(k >= o.R ? row(`num ${k}`, String(v)) : row(`ref ${k}`, v ? `${link(v)} ${kindOf(own, heapOf(v))}` : 'nil'));
  }
  if (all > out.length) out.push(row('', `and ${count(all - out.length)} more`));
  return out;
}
function holders(n) {                   // the tasks and the fields that hold an object
  const out = [...S.tasks.values()].filter(x => x.holds.includes(n)).slice(0, 6).map(x => `task ${x.t}`);
  for (const p of S.objs.values()) for (let k = 0; k < p.R && out.length < 12; k++) if (p.f[k] === n) out.push(`${link(p.n)}.${k}`);
  return out.join(', ') || 'no task and no object';
}
function about(o) {
  const own = heapOf(o.n), notes = [...S.noted.values()].filter(x => x[1] === o.n).map(x => `field ${x[2]} for task ${x[0]}`);
  return node('dl', {}, row('heap', `task ${own}`), row('kind', `${o.m ? 'mutable' : 'immutable'}, ${many(words(o), 'word')}`), fieldRows(o, own),
    row('held by', holders(o.n)), notes.length && row('remembered', notes.join(', ')));
}
function pastOf(past) {
  const near = past.length > 60 ? past.filter(([i], j) => j < 3 || j > past.length - 4 || Math.abs(i - pos) < 40).slice(0, 60) : past;
  const line = ([i, what]) => node('li', { class: i === pos && 'here' }, node('button', { 'data-e': i }, node('span', { class: 'no' }, i), what));
  return node('ol', { 'aria-label': 'Entries that touch it' }, near.map(line));
}
function drawLook() {
  const box = $('look'), o = seen && S.objs.get(seen), past = seen && histories.get(seen);
  box.hidden = !seen;
  if (!seen) return;
  const head = `<h2><span>Object ${nm(seen)}</span><button class="name" data-o="" aria-label="Let it go">\u2715</button></h2>`;
  write(box, head + (!past ? `<p>No object of this run has the name ${nm(seen)}.</p>` : (o ? about(o) : past[0][0] > pos ? "<p>It isn't there yet.</p>" : '<p>A collection has dropped it.</p>') + pastOf(past)));
}

/* ------------------------------------------------------------ drawing heaps: what is drawn */

let mode = 0;                           // 0: as many objects as can be read, 1: all, 2: heaps alone
const MODES = ['auto', 'objects', 'heaps'], ROOM = [OBJECTS_DRAWN, Infinity, -1];
let view = null;                        // what was looked over for the drawing

function touched(d) {                   // what the entry did: of objects class and tag, of fields the class
  const how = new Map(), fields = new Map();
"##;

pub const AFTER_4: &str =
    r##"  const field = (n, k, look) => fields.has(n) ? fields.get(n).set(k, look) : fields.set(n, new Map([[k, look]]));
  for (const [n, k] of d.set || []) { how.set(n, ['set', 'written']); field(n, k, 'wrote'); }
  for (const n of d.froze || []) how.set(n, ['froze', 'frozen']);
  for (const [n] of d.new || []) how.set(n, ['new', 'new']);
  if (d.at && d.at[3] !== undefined) field(d.at[2], d.at[3], /^get/.test(d.at[1]) ? 'read' : 'wrote');
  return { how, fields };
}
const sums = new WeakMap();             // of each account of a heap: how many objects it holds, and their words
function sumOf(h) {
  if (!sums.has(h)) {
    const names = namesIn(h);
    sums.set(h, [names.length, names.reduce((sum, n) => sum + words(S.objs.get(n)), 0)]);
  }
  return sums.get(h);
}
const sumIn = tasks => tasks.map(x => sumOf(heapAt(x.t))).reduce(([a, b], [c, d]) => [a + c, b + d], [0, 0]);
const objectsOf = t => namesIn(heapAt(t)).map(n => S.objs.get(n));
function fading() {                     // what a collection that goes on will drop
  const fades = new Set();
  for (const h of S.heaps.values()) {
    const kept = h.keeps || h.snap, stays = kept && new Set(kept);
    if (kept) for (const n of namesIn(h)) if (!stays.has(n)) fades.add(n);
  }
  return fades;
}
function once(make) {                   // made when it is asked for first
  let made = null;
  return () => (made = made || make());
}
function reached() {                    // what the roots of all tasks lead to
  const met = new Set([...S.tasks.values()].flatMap(x => x.holds)), todo = [...met];
  const meet = v => { if (v && !met.has(v)) { met.add(v); todo.push(v); } };
  while (todo.length) {
    const o = S.objs.get(todo.pop());
    if (o) o.f.slice(0, o.R).forEach(meet);
  }
  return met;
}
function actingTasks(d) {
  const act = new Set((d.task || []).map(x => x[0]));
  if (d.e && d.e.length > 2) act.add(d.e[2]);
  return act;
}
function shownTasks(live, wanted) {     // of many tasks those that run or are wanted, with their ancestors, and the first to be forked
  if (live.length <= TASKS_DRAWN || mode === 1) return live;
  const keep = new Set();
  for (const x of live) if (x.state === 'out' || wanted(x.t)) for (let t = x.t; t !== null && !keep.has(t); t = S.tasks.get(t).parent) keep.add(t);
  for (const x of [...live].sort((a, b) => a.t - b.t)) if (keep.size < TASKS_DRAWN || x.parent === null) keep.add(x.t);
  return live.filter(x => keep.has(x.t));
}
function atRest(live, shown) {          // what isn't drawn, at the nearest ancestor that is
  const drawn = new Set(shown.map(x => x.t)), rest = new Map();
  for (const x of live) {
    let t = x.t;
    while (!drawn.has(t)) t = S.tasks.get(t).parent;
    if (t !== x.t) group(rest, t, x);
  }
  return rest;
}
function foldedTasks(shown, kids, near) {  // the middle of long chains of forks
  const deep = new Map(), high = new Map(), folded = new Set();
  const byAge = [...shown].sort((a, b) => a.t - b.t);
  for (const x of byAge) deep.set(x.t, x.parent === null ? 0 : deep.get(x.parent) + 1);
  for (const x of byAge.reverse()) high.set(x.t, (kids.get(x.t) || []).reduce((h, y) => Math.max(h, high.get(y.t) + 1), 0));
  if (mode === 1 || high.get(0) <= 2 * FOLDS_FROM + 2) return folded;
  for (const x of shown) if (deep.get(x.t) >= FOLDS_FROM && high.get(x.t) >= FOLDS_FROM && !near(x.t)) folded.add(x.t);
  return folded;
}
function heapsAsWhole(shown, near) {    // the smallest heaps are drawn first, but before them those that are near
  const size = new Map(shown.map(x => [x.t, sumOf(heapAt(x.t))[0]])), whole = new Set();
  let room = ROOM[mode];
  for (const x of [...shown].sort((a, b) => near(b.t) - near(a.t) || size.get(a.t) - size.get(b.t))) {
    if (size.get(x.t) > room) whole.add(x.t);
    else room -= size.get(x.t);
  }
  return whole;
}
function lookOver() {
  const d = ENTRIES[pos - 1] || {}, act = actingTasks(d), live = [...S.tasks.values()].filter(x => x.state !== 'joined');
  const main = (d.e || [])[2], looked = seen && S.objs.has(seen) ? heapOf(seen) : -1, near = t => t === main || t === looked;
  const shown = shownTasks(live, t => act.has(t) || t === looked), kids = new Map();
  for (const x of shown) if (x.parent !== null) group(kids, x.parent, x);
  return {
    d, act, live, shown, kids, ...touched(d), rest: atRest(live, shown), folded: foldedTasks(shown, kids, near), whole: heapsAsWhole(shown, near), fades: fading(), reached: once(reached),
    noted: new Set([...S.noted.values()].map(x => `${x[1]} ${x[2]}`)), stopped: isStopped() ? d.at[4] : null, used: new Set(),
  };
}

/* ------------------------------------------------------------ drawing heaps: boxes */

function field(o, k, own) {
  const v = o.f[k] || 0, how = (view.fields.get(o.n) || new Map()).get(k), noted = view.noted.has(`${o.n} ${k}`) && 'rem';
  if (k >= o.R) return node('i', { class: cls('f', how) }, String(v));
  if (!v) return node('i', { class: cls('f nil', how, noted) }, '\u2205');
  return node('i', { class: cls('f ref', kindOf(own, heapOf(v)), how, noted), 'data-to': v }, v.replace('.', ','));
}
function fieldsOf(o, own) {             // of many the first few, and those that the entry touched
  const out = [], all = o.R + o.I, hit = view.fields.get(o.n) || new Map();
  let skipped = 0;
  const skip = () => { if (skipped) out.push(node('i', { class: 'f etc' }, `${skipped} more`)); skipped = 0; };
  for (let k = 0; k < all; k++) {
    if (all > 10 && k >= 5 && !(hit.has(k) && out.length < 14)) { skipped++; continue; }
    skip();
    out.push(field(o, k, own));
  }
  skip();
  return all ? node('span', { class: 'flds' }, out) : '';
}
function spoken(o, tag) {               // an object, for those who hear the page
  const says = [];
  for (let k = 0; k < Math.min(o.R + o.I, 10); k++) says.push(k >= o.R ? `number ${o.f[k] || 0}` : o.f[k] ? `reference ${k} to ${nm(o.f[k])}` : `reference ${k} nil`);
  const pale = view.reached().has(o.n) ? '' : ', no root leads to it';
  return `object ${nm(o.n)}, ${o.m ? 'mutable' : 'immutable'}${tag && ', ' + tag}${pale}: ${says.join(', ') || 'no fields'}`;
}
function card(o, own) {
  const [how, tag] = view.how.get(o.n) || ['', ''], tagged = tag && view.how.size <= 30;
  const looks = cls('obj', !o.m && 'imm', how, o.n === seen && 'sel', o.n === view.stopped && 'stopped', (view.fades.has(o.n) || !view.reached().has(o.n)) && 'fades');
  return node('button', { class: looks, 'data-o': o.n, 'aria-label': spoken(o, tag) },
    tagged && node('em', { class: cls('tag', how) }, tag), node('span', { class: 'nm' }, nm(o.n), node('span', {}, o.m ? '' : 'imm')), fieldsOf(o, own));
}
const wordsOf = list => list.reduce((sum, o) => sum + words(o), 0);
function sum([objects, all]) {
  return [node('b', {}, count(objects)), objects === 1 ? ' object, ' : ' objects, ', node('b', {}, count(all)), ' words'];
}
function chunk(list, units, own) {      // a chunk with what lies in it
  const says = units === 1 ? 'chunk' : `chunk of ${count(units)} units`;
  return node('div', { class: 'chunk' }, node('div', { class: 'cap' }, node('span', {}, says), node('span', {}, `${count(wordsOf(list))} of ${many(units * UNIT, 'word')}`)),
    list.length && node('div', { class: 'objs' }, list.map(o => card(o, own))));
}
const empty = says => node('div', { class: 'chunk' }, node('div', { class: 'cap' }, node('span', {}, says)));
function heap(x) {
  const h = heapAt(x.t), objects = names => names.map(n => S.objs.get(n)), marking = h.snap && `marked ${count(h.marked)} of ${many(h.snap.length, 'object')}`;
  if (!unitsIn(h)) return '';
  if (view.whole.has(x.t)) return node('div', { class: 'heap' }, node('span', { class: 'sum', 'data-heap': x.t }, sum(sumOf(h)), ` in ${many(unitsIn(h), 'chunk')}`));
  return node('div', { class: 'heap' }, h.chunks.map(names => chunk(objects(names), 1, x.t)), h.large.map(n => chunk(objects([n]), unitsOf(n), x.t)),
"##;

pub const AFTER_5: &str =
    r##"    h.reserved && empty(`chunk of ${count(h.reserved)} units, for the next object`), h.begun && empty(`${many(h.begun, 'chunk')} to copy into`), marking && empty(marking));
}
function restOf(t) {                    // tasks below this one that aren't drawn
  const rest = view.rest.get(t);
  if (!rest) return '';
  return node('div', { class: 'heap' }, node('span', { class: 'sum' }, node('b', {}, count(rest.length)), rest.length === 1 ? ' task' : ' tasks', ' at rest not drawn: ', sum(sumIn(rest))));
}
function head(x) {
  const s = stateOf(x);
  return node('div', { class: 'head' }, node('b', {}, `task ${x.t}`), node('span', { class: cls('pill', s.cls) }, s.says),
    node('span', { class: 'tiny' }, esc(x.fn), x.line && `, line ${x.line}`));
}
function roots(x) {                     // what a task holds, as cells from which arrows lead to the objects
  const shown = x.holds.slice(0, ROOTS_DRAWN), rest = x.holds.length - shown.length;
  const cell = n => node('button', { class: 'hold', 'data-o': n, 'aria-label': `root ${nm(n)}` }, n.replace('.', ','));
  return x.holds.length && node('div', { class: 'roots', role: 'group', 'aria-label': `Task ${x.t} holds ${many(x.holds.length, 'object')}` },
    node('span', { class: 'tiny' }, 'holds'), shown.map(cell), rest && node('span', { class: 'tiny' }, `and ${count(rest)} more`));
}
const boxes = new Map();                // the boxes that stand on the stage, by task; what is the same in them stays
function boxOf(t) {
  if (!boxes.has(t)) {
    const el = document.createElement('section'), [top, lower, kids] = ['own', 'own', 'kids'].map(name => {
      const div = document.createElement('div');
      div.className = name;
      return div;
    });
    el.setAttribute('role', 'group');
    el.dataset.t = t;
    boxes.set(t, { el, top, lower, kids, looks: '' });
  }
  return boxes.get(t);
}
function fill(el, inner) {              // the same children in the same order stay
  if (inner.length !== el.children.length || inner.some((x, i) => x !== el.children[i])) el.replaceChildren(...inner);
}
function setBox(t, [look, style, says], [head, heaps], inner) {  // head and heaps are written apart: most entries change the head alone
  const { el, top, lower, kids, looks } = boxOf(t), now = `${look}|${style}|${says}`;
  if (now !== looks) {
    el.className = look;
    el.style.cssText = style;
    el.setAttribute('aria-label', says);
    boxes.get(t).looks = now;
  }
  write(top, head);
  write(lower, heaps);
  fill(kids, inner);
  fill(el, inner.length ? [top, lower, kids] : [top, lower]);
  view.used.add(t);
  return el;
}
function box(x, deep) {
  if (view.folded.has(x.t)) return fold(x, deep);
  const look = cls('task', x.state, deep > 6 && 'tight', view.act.has(x.t) && 'act'), kids = (view.kids.get(x.t) || []).map(y => box(y, deep + 1));
  return setBox(x.t, [look, `--deep:${Math.min(deep, 6)};${tint(x)}`, `Task ${x.t}, ${stateOf(x).says}`], [head(x) + (roots(x) || ''), heap(x) + restOf(x.t)], kids);
}
function chainFrom(x) {                 // the folded tasks below one another, those beside them, and what is drawn below
  const chain = [], beside = [];
  let below = [x];
  while (below.length && below.some(y => view.folded.has(y.t))) {
    const next = below.find(y => view.folded.has(y.t));
    beside.push(...below.filter(y => y !== next));
    chain.push(next);
    below = view.kids.get(next.t) || [];
  }
  const loud = beside.filter(y => view.act.has(y.t) || view.folded.has(y.t) || (view.kids.get(y.t) || []).length);
  return { chain, beside: beside.filter(y => !loud.includes(y)), below: [...loud, ...below] };
}
function fold(x, deep) {
  const { chain, beside, below } = chainFrom(x);
  const says = `${many(chain.length, 'waiting task')}, ${x.t} to ${chain[chain.length - 1].t}, each in the heap of the one before`;
  const also = beside.length ? `; beside them ${many(beside.length, 'task')}` : '';
  const top = node('div', { class: 'head' }, node('b', {}, '\u22ee'), node('span', { class: 'tiny' }, says, also));
  const heaps = node('div', { class: 'heap' }, node('span', { class: 'sum', 'data-heap': x.t }, sum(sumIn([...chain, ...beside]))));
  return setBox(x.t, ['task fold', `--deep:${Math.min(deep, 6)}`, says], [top, heaps], below.map(y => box(y, deep + 1)));
}
function captionOf() {
  const { live, shown, whole, folded } = view, hidden = live.length - shown.length + folded.size;
  return `${many(S.objs.size, 'object')} held, ${many(live.length, 'task')}` + (hidden ? ` (${hidden} at rest drawn as counts)` : '')
    + (whole.size ? `; ${many(whole.size, 'heap')} drawn as a whole` : '');
}
function drawBoxes() {
  view = lookOver();
  fill($('stage'), [box(S.tasks.get(0), 0), arrows]);
  for (const t of boxes.keys()) if (!view.used.has(t)) boxes.delete(t);
  write($('drawn'), captionOf());
  write($('mode'), MODES[mode]);
}
function drawHeaps() {
  drawBoxes();
  fit();
  drawArrows(arrowPaths());
}
function showHeaps() {
  const what = $('stage').querySelector('.obj.new, .f.wrote') || [...$('stage').querySelectorAll('.task.act > .own > .head')].pop();
  if (what) show(what.closest('.obj, .head'));
}
function show(el) {                     // scrolls the heaps until it is seen
  const r = el.getBoundingClientRect(), room = $('heaps'), b = room.getBoundingClientRect();
  if (r.bottom > b.bottom - 8 || r.top < b.top + 8) room.scrollTop += r.top - b.top - Math.max(20, (b.height - r.height) / 2);
  if (r.right > b.right - 8 || r.left < b.left) room.scrollLeft += r.left - b.left - 40;
}

/* ------------------------------------------------------------ drawing heaps: size */

let zoom = 0, fitted = 17;
const SIZES = [5, 6, 7, 8, 9, 10, 11, 12, 13, 15, 17, 20];
function setSize(px) {
  fitted = px;
  $('stage').style.fontSize = px + 'px';
}
const overflows = () => $('stage').scrollHeight > $('heaps').clientHeight + 2 || $('stage').firstChild.scrollWidth > $('heaps').clientWidth;
function grow(at) {                     // back to a larger size, with some slack
  while (at < 10 && $('stage').firstChild.offsetHeight * (SIZES[at + 1] / SIZES[at]) ** 2 < $('heaps').clientHeight * .55) {
    setSize(SIZES[++at]);
    if (overflows()) return setSize(SIZES[at - 1]);
  }
}
function fit() {
  if (zoom) return setSize(zoom);
  if (document.documentElement.classList.contains('paper')) return setSize(11);
  setSize(fitted);
  let at = SIZES.indexOf(fitted);
  if (!overflows()) return grow(at);
  while (at > 5 && overflows()) setSize(SIZES[--at]);
}

/* ------------------------------------------------------------ drawing heaps: arrows */

const marker = (k, px) => `<marker id="to-${k}" viewBox="0 0 8 8" refX="7" refY="4" markerWidth="${px}" markerHeight="${px}" markerUnits="userSpaceOnUse" orient="auto"><path d="M0 .5 8 4 0 7.5z" class="${k}"/></marker>`;
const HEADS = marker('inside', 8) + marker('up', 8) + marker('down', 9) + marker('cross', 8) + marker('root', 6);
const KINDS = ['inside', 'up', 'down', 'cross'];
const arrows = document.createElementNS('http://www.w3.org/2000/svg', 'svg');
arrows.id = 'arrows';
arrows.setAttribute('aria-hidden', 'true');
function measure() {                    // where an element stands on the stage, measured once
  const { left: x, top: y } = $('stage').getBoundingClientRect(), known = new Map();
  return el => {
    if (!known.has(el)) {
      const r = el.getBoundingClientRect();
      known.set(el, { l: r.left - x, r: r.right - x, t: r.top - y, b: r.bottom - y, x: (r.left + r.right) / 2 - x, y: (r.top + r.bottom) / 2 - y });
    }
    return known.get(el);
  };
}
function routeUp(s, t, em, own, into) { // round the corner of its own card, and along the gap above it
  const left = s.x - own.l <= own.r - s.x + em * .3, x = left ? own.l : own.r, out = left ? x - em * .75 : x + em * .75, gap = own.t - em * .4;
  const h = Math.min((gap - t.b) * .5, em * 6), mid = (x + into) / 2, start = `M${x} ${s.y}C${out} ${s.y} ${out} ${gap} ${x} ${gap}`;
"##;

pub const AFTER_6: &str =
    r##"  return start + (gap - t.b < em * 1.2 ? `C${mid} ${gap} ${into} ${gap} ${into} ${t.b}` : `C${into} ${gap} ${into} ${gap - h} ${into} ${t.b}`);
}
function route(s, t, em, own) {         // from a field's cell to a card; own is the cell's card
  const into = Math.min(Math.max(s.x, t.l + em * .7), t.r - em * .7);
  if (t.b < own.t - 2) return routeUp(s, t, em, own, into);
  if (t.t > s.b + 2) {
    const h = (t.t - s.b) * .5;
    return `M${s.x} ${s.b}C${s.x} ${s.b + h} ${into} ${t.t - h} ${into} ${t.t}`;
  }
  const end = s.x < t.l ? t.l + em : s.x > t.r ? t.r - em : t.r - em * .5, h = em * .55 + Math.min(Math.abs(end - s.x) * .09, em * 1.6);
  return `M${s.x} ${s.b}C${s.x} ${s.b + h} ${end} ${t.b + h} ${end} ${t.b}`;
}
const arrow = (look, kind, from, to, d) => `<path class="${cls(kind, look)}" data-a="${from}" data-b="${to}" marker-end="url(#to-${kind})" d="${d}"/>`;
function places() {                     // the elements of cards, of heaps that are drawn as a whole, and of tasks
  const at = { cards: new Map(), sums: new Map(), heads: new Map() };
  for (const el of $('stage').querySelectorAll('.obj')) at.cards.set(el.dataset.o, el);
  for (const el of $('stage').querySelectorAll('.sum[data-heap]')) at.sums.set(+el.dataset.heap, el);
  for (const el of $('stage').querySelectorAll('.task')) at.heads.set(+el.dataset.t, el.firstChild.firstChild.firstChild);
  return at;
}
function fieldEnds() {                  // of each reference its cell, and what it leads from and to
  return [...$('stage').querySelectorAll('.f[data-to]')].map(el => {
    const card = el.closest('.obj'), from = card.dataset.o, fresh = el.classList.contains('wrote');
    return { el, card, from, to: el.dataset.to, kind: KINDS.find(k => el.classList.contains(k)), look: fresh ? 'fresh' : '', near: fresh || view.how.has(from) || el.classList.contains('read') };
  });
}
function rootEnds() {                   // of what tasks hold
  return [...$('stage').querySelectorAll('.hold')].map(el => ({ el, card: el, from: '', to: el.dataset.o, kind: 'root', look: '', near: view.act.has(+el.closest('.task').dataset.t) }));
}
function arrowOf(one, at, rect, look) {
  const place = at.cards.get(one.to) || at.sums.get(heapOf(one.to));
  return arrow(cls(one.look, look), one.kind, one.from, one.to, route(rect(one.el), rect(place), fitted, rect(one.card)));
}
let spare = [];                         // of many references within heaps, and of many roots, those that the entry isn't at
function drawnEnds(at) {
  const ends = [...fieldEnds(), ...rootEnds()].filter(x => at.cards.has(x.to) || at.sums.has(heapOf(x.to)));
  const most = { inside: ARROWS_DRAWN, root: ROOTS_DRAWN }, total = {};
  for (const x of ends) total[x.kind] = (total[x.kind] || 0) + 1;
  const isSpare = x => !x.near && total[x.kind] > most[x.kind];
  spare = ends.filter(isSpare);
  return ends.filter(x => !isSpare(x));
}
function countsBetween() {              // of heaps that are drawn as a whole: how many references lead into each other heap
  const total = new Map();
  for (const a of view.whole) {
    for (const o of objectsOf(a)) for (const v of o.f.slice(0, o.R)) if (v && heapOf(v) !== a) total.set(`${a} ${heapOf(v)}`, (total.get(`${a} ${heapOf(v)}`) || 0) + 1);
  }
  return total;
}
function heapArrow(at, rect, [key, n]) {
  const [a, b] = key.split(' ').map(Number), kind = kindOf(a, b), from = at.sums.get(a), to = at.sums.get(b) || at.heads.get(b);
  if (!from || !to) return '';
  const s = rect(from), t = rect(to), em = fitted;
  const low = s.t > t.t, shift = kind === 'down' ? em : -em, x1 = s.x + shift, y1 = low ? s.t : s.b, x2 = t.x + shift, y2 = low ? t.b : t.t, m = (y1 + y2) / 2;
  return arrow('', kind, '', '', `M${x1} ${y1}C${x1} ${m} ${x2} ${m} ${x2} ${y2}`) + `<text class="${kind}" x="${(x1 + x2) / 2}" y="${m + 4}" text-anchor="middle">${n}</text>`;
}
function stoppedArrow(at, rect) {       // from the reader to the object that it may not have
  const place = at.cards.get(view.stopped) || at.sums.get(heapOf(view.stopped)), reader = $('stage').querySelector(`.task[data-t="${RUN.end[1]}"] > .own > .head .pill`);
  if (!place || !reader) return '';
  const s = rect(reader), t = rect(place), side = s.x > t.r ? [t.r, t.y] : s.x < t.l ? [t.l, t.y] : [t.x, s.y > t.y ? t.b : t.t];
  const dx = Math.max(40, Math.abs(s.x - side[0]) * .4) * (s.x > t.r ? 1 : -1);
  return arrow('', 'cross', '', view.stopped, `M${s.x} ${s.b}C${s.x} ${s.b + 34} ${side[0] + dx} ${side[1]} ${side[0]} ${side[1]}`)
    + `<text class="cross" x="${(s.x + side[0]) / 2 + dx * .2}" y="${Math.max(s.b + 30, side[1] - 8)}" text-anchor="middle">stopped</text>`;
}
function arrowPaths() {
  const rect = measure(), at = places(), paths = drawnEnds(at).map(x => arrowOf(x, at, rect));
  for (const one of countsBetween()) paths.push(heapArrow(at, rect, one));
  if (view.stopped) paths.push(stoppedArrow(at, rect));
  return paths;
}
function drawArrows(paths) {
  write(arrows, `<defs>${HEADS}</defs>${paths.join('')}<g id="pointed"></g>`);
  hot(seen);
}
function hot(n) {                       // the arrows of one object, those that aren't drawn else too
  const wanted = n ? spare.filter(x => x.from === n || x.to === n) : [];
  if (wanted.length) {
    const at = places(), rect = measure();
    write($('pointed'), wanted.map(x => arrowOf(x, at, rect, 'hot')).join(''));
  } else write($('pointed'), '');
  let any = wanted.length > 0;
  for (const p of arrows.querySelectorAll(':scope > path[data-b]')) {
    const is = Boolean(n) && (p.dataset.a === n || p.dataset.b === n);
    p.classList.toggle('hot', is);
    any = any || is;
  }
  arrows.classList.toggle('hot', any);
}

/* ------------------------------------------------------------ drawing: the dock */

const HIGH = 22;
let wide = 24;                          // of an entry in the lanes: as in the plot, or more
let across = 784;                       // what the plot's width leaves between its ends
const xOf = i => 8 + across * (N ? i / N : 0);
function curvePath(ys, top, y0, h) {
  const parts = [`M${xOf(0)} ${y0}`];
  for (let i = 0; i <= N; i++) if (i === 0 || ys[i] !== ys[i - 1] || i === N) parts.push(`H${xOf(i).toFixed(1)}V${(y0 - h * ys[i] / top).toFixed(1)}`);
  return parts.join('');
}
function tick(i) {                      // where a collection or a sweep ends
  const kind = ENTRIES[i - 1].e[1];
  return /^(end|sweep)$/.test(kind) ? `<line class="${kind}" x1="${xOf(i)}" x2="${xOf(i)}" y1="62" y2="57"/>` : '';
}
function drawPlot() {
  across = ($('plot').clientWidth || 800) - 16;
  wide = Math.max(24, (($('lanes').clientWidth || 800) - 16) / Math.max(N, 1));
  $('track').style.cssText = `width:${N * wide + 16}px;height:${workers.length * HIGH}px`;
  const base = y => `<line class="base" x1="8" x2="${across + 8}" y1="${y}" y2="${y}"/>`;
  $('plot').innerHTML = base(29) + base(60) + `<path class="c" d="${curvePath(curve.chunks, mostChunks, 29, 25)}"/><path class="w" d="${curvePath(curve.words, mostWords, 60, 26)}V60H8Z"/>`
    + stones.slice(1).map(tick).join('') + '<line class="cur" id="cur" y1="0" y2="62"/>';
  moveCursor();
}
function moveCursor() {
  const x = xOf(pos), cur = $('cur');
  if (cur) { cur.setAttribute('x1', x); cur.setAttribute('x2', x); }
  write($('nums'), `<span class="c">chunks in use <b>${count(curve.chunks[pos])}</b></span><span class="w">words held <b>${count(curve.words[pos])}</b></span>`);
}
function followLanes() {
  const box = $('lanes'), room = box.clientWidth, x = (pos - 1) * wide, d = ENTRIES[pos - 1];
  if (x < box.scrollLeft + 40 || x > box.scrollLeft + room - 80) box.scrollLeft = x - room / 2;
  if (!d || workers.length <= 6) return;
  const y = lane.get(d.e[0]) * HIGH;
  if (y < box.scrollTop || y > box.scrollTop + box.clientHeight - HIGH * 2) box.scrollTop = y - 40;
  $('names').scrollTop = box.scrollTop;
}
function entryBox(i, touch) {
  const [w, kind, t] = ENTRIES[i - 1].e, text = ENTRIES[i - 1].e.join(' ');
"##;

pub const AFTER_7: &str =
    r##"  const looks = cls('ent', `k-${kind}`, i === N && isOver(N) && 'over', touch.has(i) && 'touch');
  return node('div', { id: `e${i}`, role: 'option', class: looks, 'data-e': i, 'aria-selected': 'false', 'aria-posinset': i, 'aria-setsize': N,
    'aria-label': `${i}: worker ${text}`, title: `${i}: ${text}`, style: `left:${8 + (i - 1) * wide}px;width:${wide - 3}px;top:${lane.get(w) * HIGH + 2}px` },
  t === undefined ? 'fuel' : wide > 60 ? `${kind} ${t}` : `${t}`);
}
function markEntry() {                  // the entry, and a veil over those after it
  const old = $('track').querySelector('.now'), el = pos && $(`e${pos}`);
  if (old && old !== el) { old.classList.remove('now'); old.setAttribute('aria-selected', 'false'); }
  if (el) { el.classList.add('now'); el.setAttribute('aria-selected', 'true'); }
  if ($('veil')) $('veil').style.left = `${8 + pos * wide - 1}px`;
  el ? $('lanes').setAttribute('aria-activedescendant', `e${pos}`) : $('lanes').removeAttribute('aria-activedescendant');
}
const BLOCK = 20;                       // so many entries come into the lanes, and go, at once
function lanesSeen() {                  // the entries that the lanes have to show
  const box = $('lanes'), block = BLOCK * wide, x = box.scrollLeft;
  return [Math.max(0, Math.floor(x / block) - 1) * BLOCK + 1, Math.min(N, (Math.ceil((x + box.clientWidth) / block) + 1) * BLOCK)];
}
let laid = null;                        // what the lanes show
function drawLanes([from, to]) {
  const now = `${from} ${to} ${wide} ${seen}`;
  if (now !== laid) {
    const touch = new Set((seen && histories.get(seen) || []).map(x => x[0])), out = workers.map((w, j) => `<div class="lane" style="top:${j * HIGH + 10}px"></div>`);
    for (let i = from; i <= to; i++) out.push(entryBox(i, touch));
    $('track').innerHTML = out.join('') + '<div id="veil"></div>';
    laid = now;
  }
  markEntry();
}

/* ------------------------------------------------------------ going about */

let timer = null, linking = null, waits = 0;
function keepingFocus(redraw) {         // the focus comes back to what was redrawn, or else to what it stood in
  const el = document.activeElement, key = el && el.dataset && ['o', 'e', 't'].find(k => el.dataset[k] !== undefined);
  const outer = key && el.closest('[id]'), same = key && `.${el.classList[0]}[data-${key}="${CSS.escape(el.dataset[key])}"]`, task = key && el.closest('.task');
  redraw();
  if (!key || document.activeElement !== document.body) return;
  const again = el.classList[0] && (task && task.querySelector(same) || $(outer.id).querySelector(same)) || $(outer.id).querySelector(`[data-${key}="${CSS.escape(el.dataset[key])}"]`) || outer.closest('[tabindex]');
  if (again) again.focus({ preventScroll: true });
}
function linkTo() {                     // the address of the entry; a browser may refuse it of a file
  try { window.history.replaceState(null, '', `#e=${pos}${seen ? `&o=${seen}` : ''}`); } catch { /* then it stays as it is */ }
}
function drawAll() {                    // what is written comes before what is measured, so that a browser lays out once
  write($('count'), `entry <b>${pos}</b> of ${count(N)}`);
  write($('said'), say(pos));
  $('slide').value = pos;
  $('slide').setAttribute('aria-valuetext', `entry ${pos} of ${N}`);
  drawCode();
  drawTree();
  drawOutputs();
  drawLook();
  moveCursor();
  drawBoxes();
  fit();                                // from here on it is measured
  const paths = arrowPaths();
  showHeaps();
  showCode();
  showTree();
  followLanes();
  const lanes = lanesSeen();
  drawArrows(paths);                    // and written again
  drawLanes(lanes);
  clearTimeout(linking);
  linking = setTimeout(linkTo, 150);
}
const draw = () => keepingFocus(drawAll);
function go(i) {
  seek(Math.max(0, Math.min(N, i | 0)));
  draw();
}
function pick(n, jump) {
  seen = n || null;
  if (seen && jump && histories.has(seen) && !S.objs.has(seen)) return go(histories.get(seen)[0][0]);
  draw();
  const el = seen && $('stage').querySelector(`.obj[data-o="${CSS.escape(seen)}"]`);
  if (el && jump) el.scrollIntoView({ block: 'nearest', inline: 'nearest' });
}
function play(on) {
  if (on && pos === N) go(0);
  clearInterval(timer);
  timer = on ? setInterval(() => pos < N ? go(pos + 1) : play(false), 1000 / $('speed').value) : null;
  $('go').innerHTML = `<svg viewBox="0 0 16 16"><path d="${on ? 'M3 2h4v12H3zM9 2h4v12H9z' : 'M4 2v12l10-6z'}"/></svg>`;
  $('go').setAttribute('aria-pressed', Boolean(on));
  $('go').setAttribute('aria-label', on ? 'Pause' : 'Play');
  $('said').setAttribute('aria-live', on ? 'off' : 'polite');
}
function theme() {
  const root = document.documentElement, dark = root.dataset.theme ? root.dataset.theme === 'dark' : matchMedia('(prefers-color-scheme: dark)').matches;
  root.dataset.theme = dark ? 'light' : 'dark';
  try { localStorage.setItem('hh-theme', root.dataset.theme); } catch { /* no store */ }
}
function next(list, by) {
  const i = by > 0 ? list.find(x => x > pos) : list.filter(x => x < pos).pop();
  if (i !== undefined) go(i);
}
function size(by) {
  zoom = by ? SIZES[Math.max(0, Math.min(SIZES.length - 1, SIZES.indexOf(fitted) + by))] : 0;
  if (!by) fitted = 17;
  drawHeaps();
}
function nextMode() {
  mode = (mode + 1) % 3;
  drawHeaps();
}
const touches = () => (seen && histories.get(seen) || []).map(x => x[0]);
const ofSame = by => pos ? next(ofWorker.get(ENTRIES[pos - 1].e[0]), by) : go(pos + by);
const KEYS = {
  ArrowRight: e => e.shiftKey ? ofSame(1) : go(pos + 1), ArrowLeft: e => e.shiftKey ? ofSame(-1) : go(pos - 1), PageDown: () => go(pos + 10), PageUp: () => go(pos - 10),
  Home: () => go(0), End: () => go(N), n: () => next(stones, 1), p: () => next(stones, -1), ' ': () => play(!timer), ']': () => next(touches(), 1), '[': () => next(touches(), -1),
  '/': () => $('find').focus(), '?': () => $('help').showModal(), Escape: () => pick(null), t: theme, o: nextMode, f: () => size(0), '+': () => size(1), '=': () => size(1), '-': () => size(-1),
};
function onKey(e) {
  if (e.key === 'Escape' && e.target === $('find')) return e.target.blur();
  if (e.ctrlKey || e.metaKey || e.altKey || $('help').open || e.target.matches('input[type=search], select')) return undefined;
  if (e.key === ' ' && e.target.matches('button, input[type=checkbox]')) return undefined;
  if (!KEYS[e.key]) return undefined;
  e.preventDefault();
  return KEYS[e.key](e);
}
function showTask(t) {
  const el = $('stage').querySelector(`.task[data-t="${t}"]`);
  if (!el) return;
  el.scrollIntoView({ block: 'nearest' });
  el.classList.add('find');
  setTimeout(() => el.classList.remove('find'), 900);
}
function onClick(e) {
  const el = e.target.closest('[data-o], [data-e], [data-go], [data-z], #tree [data-t]');
  if (!el) return;
  const { o, e: entry, go: where, z, t } = el.dataset;
  if (o !== undefined) pick(o === seen && el.closest('#stage') ? null : o, !el.closest('.obj'));
  else if (entry) go(+entry);
  else if (where) go(where === 'home' ? 0 : where === 'end' ? N : pos + +where);
  else if (z) size(+z);
  else showTask(t);
}
function onSeek(e) {
  const n = $('find').value.match(/(\d+)\D+(\d+)/);
  e.preventDefault();
  if (!n) return;
  pick(`${+n[1]}.${+n[2]}`, true);
  $('find').blur();
}
function onPlot(e) {
  const r = $('plot').getBoundingClientRect();
  go(Math.round((e.clientX - r.left - 8) / (r.width - 16) * N));
}
function onScroll() {
  $('names').scrollTop = $('lanes').scrollTop;
  cancelAnimationFrame(waits);
  waits = requestAnimationFrame(() => drawLanes(lanesSeen()));
}
function onPaper(is) {                  // the class is set before a print, so that arrows are measured as they will be printed
  document.documentElement.classList.toggle('paper', is);
  drawHeaps();
  drawPlot();
}
function readHash(hash) {
  const at = new URLSearchParams(hash.slice(1));
  if (at.get('o')) seen = at.get('o');
  return at.has('e') ? Number(at.get('e')) || 0 : null;
}
function onHash(e) {
"##;

pub const AFTER_8: &str = r##"  const i = readHash(new URL(e.newURL).hash);
  if (i !== null) go(i);
}
function listen() {
  const hovered = e => { const el = e.target.closest('[data-o]'); return el ? el.dataset.o : seen; };
  addEventListener('keydown', onKey);
  addEventListener('click', onClick);
  addEventListener('resize', () => { drawPlot(); drawHeaps(); followLanes(); drawLanes(lanesSeen()); });
  addEventListener('hashchange', onHash);
  addEventListener('beforeprint', () => onPaper(true));
  addEventListener('afterprint', () => onPaper(false));
  $('stage').addEventListener('pointerover', e => hot(hovered(e)));
  $('stage').addEventListener('focusin', e => hot(hovered(e)));
  $('seek').addEventListener('submit', onSeek);
  $('slide').addEventListener('input', () => go(+$('slide').value));
  $('plot').addEventListener('click', onPlot);
  $('go').addEventListener('click', () => play(!timer));
  $('speed').addEventListener('change', () => timer && play(true));
  $('theme').addEventListener('click', theme);
  $('ask').addEventListener('click', () => $('help').showModal());
  $('mode').addEventListener('click', nextMode);
  $('all').addEventListener('change', drawTree);
  $('lanes').addEventListener('scroll', onScroll);
}

/* ------------------------------------------------------------ the beginning */

function lineRow(text, i) {
  const at = text.search(/(^|\s)#/), cut = at < 0 ? text.length : at;
  const code = esc(text.slice(0, cut)).replace(/^(\s*)(fn|end|lab|par|call|pfor)\b/, '$1<span class="kw">$2</span>');
  return `<div class="ln" role="listitem"><span class="no">${i + 1}</span><code>${code}<span class="rem">${esc(text.slice(cut))}</span></code><span class="at"></span></div>`;
}
function legend() {
  const line = (k, says) => node('span', {}, `<svg viewBox="0 0 26 8"><path class="${k}" d="M0 4H24"/></svg> ${says}`);
  const swatch = (k, says) => node('span', {}, node('i', { class: cls('sw', k) }), ` ${says}`);
  return [line('inside', 'inside'), line('up', 'up'), line('down', 'down, remembered'), line('cross', 'entangled'), line('root', 'root of a task'),
    swatch('new', 'allocated'), swatch('set', 'written'), swatch('imm', 'immutable')].join('');
}
function begin() {
  const s = RUN.settings;
  try { const kept = localStorage.getItem('hh-theme'); if (kept) document.documentElement.dataset.theme = kept; } catch { /* no store */ }
  document.title = `${RUN.title}: a run`;
  $('title').textContent = RUN.title;
  $('how').textContent = `${many(N, 'entry', 'entries')} by ${many(s.workers, 'worker')} \u00b7 leaf limit ${s.leaf} words \u00b7 inner limit ${s.inner} words \u00b7 ${s.chunks} chunks \u00b7 fuel ${count(s.fuel)}`;
  $('lines').innerHTML = LINES.map(lineRow).join('');
  $('legend').innerHTML = legend();
  $('names').innerHTML = workers.map(w => `<div style="--w:${hue(w)}">worker <b>${w}</b></div>`).join('');
  $('slide').max = N;
  $('all').checked = tasksMade <= 40;
  const at = readHash(location.hash);
  listen();
  drawPlot();
  go(at === null ? 0 : at);
}
begin();
const chunksOf = h => [...h.chunks.map(names => [1, names]), ...h.large.map(n => [unitsOf(n), [n]]), ...h.reserved ? [[h.reserved, []]] : [], ...Array(h.begun).fill([1, []])];
window.hh = { go, pick, state: S, N, ownerOf: heapOf, chunksOf: t => chunksOf(heapAt(t)), get pos() { return pos; } };  // for tests
</script>
</body>
</html>
"##;

fn add_before_1(text: &mut Vec<u8>) -> Result<(), AllocError>
    ensures { OnOk result (text.new.items ≡ text.old.items ++ BEFORE_1.now) }
{
    text.extend_from_slice(BEFORE_1.as_bytes())
}

fn add_before_2(text: &mut Vec<u8>) -> Result<(), AllocError>
    ensures { OnOk result (text.new.items ≡ text.old.items ++ BEFORE_2.now) }
{
    text.extend_from_slice(BEFORE_2.as_bytes())
}

fn add_before_3(text: &mut Vec<u8>) -> Result<(), AllocError>
    ensures { OnOk result (text.new.items ≡ text.old.items ++ BEFORE_3.now) }
{
    text.extend_from_slice(BEFORE_3.as_bytes())
}

fn add_before_4(text: &mut Vec<u8>) -> Result<(), AllocError>
    ensures { OnOk result (text.new.items ≡ text.old.items ++ BEFORE_4.now) }
{
    text.extend_from_slice(BEFORE_4.as_bytes())
}

#[tactic(auto, unfolding(crate::specs::Text::before_group_1_1))]
fn add_before_group_1_1(text: &mut Vec<u8>) -> Result<(), AllocError>
    ensures { OnOk result (text.new.items ≡ text.old.items ++ before_group_1_1) }
{
    add_before_1(text)?;
    add_before_2(text)?;
    add_before_3(text)
}

#[tactic(auto, unfolding(crate::specs::Text::before_group_1_2))]
fn add_before_group_1_2(text: &mut Vec<u8>) -> Result<(), AllocError>
    ensures { OnOk result (text.new.items ≡ text.old.items ++ before_group_1_2) }
{
    add_before_4(text)
}

/// Adds what stands before the data of a run.
#[tactic(auto, unfolding(crate::specs::Text::before))]
pub fn add_before(text: &mut Vec<u8>) -> Result<(), AllocError>
    ensures { OnOk result (text.new.items ≡ text.old.items ++ before) }
{
    add_before_group_1_1(text)?;
    add_before_group_1_2(text)
}

fn add_after_1(text: &mut Vec<u8>) -> Result<(), AllocError>
    ensures { OnOk result (text.new.items ≡ text.old.items ++ AFTER_1.now) }
{
    text.extend_from_slice(AFTER_1.as_bytes())
}

fn add_after_2(text: &mut Vec<u8>) -> Result<(), AllocError>
    ensures { OnOk result (text.new.items ≡ text.old.items ++ AFTER_2.now) }
{
    text.extend_from_slice(AFTER_2.as_bytes())
}

fn add_after_3(text: &mut Vec<u8>) -> Result<(), AllocError>
    ensures { OnOk result (text.new.items ≡ text.old.items ++ AFTER_3.now) }
{
    text.extend_from_slice(AFTER_3.as_bytes())
}

fn add_after_4(text: &mut Vec<u8>) -> Result<(), AllocError>
    ensures { OnOk result (text.new.items ≡ text.old.items ++ AFTER_4.now) }
{
    text.extend_from_slice(AFTER_4.as_bytes())
}

fn add_after_5(text: &mut Vec<u8>) -> Result<(), AllocError>
    ensures { OnOk result (text.new.items ≡ text.old.items ++ AFTER_5.now) }
{
    text.extend_from_slice(AFTER_5.as_bytes())
}

fn add_after_6(text: &mut Vec<u8>) -> Result<(), AllocError>
    ensures { OnOk result (text.new.items ≡ text.old.items ++ AFTER_6.now) }
{
    text.extend_from_slice(AFTER_6.as_bytes())
}

fn add_after_7(text: &mut Vec<u8>) -> Result<(), AllocError>
    ensures { OnOk result (text.new.items ≡ text.old.items ++ AFTER_7.now) }
{
    text.extend_from_slice(AFTER_7.as_bytes())
}

fn add_after_8(text: &mut Vec<u8>) -> Result<(), AllocError>
    ensures { OnOk result (text.new.items ≡ text.old.items ++ AFTER_8.now) }
{
    text.extend_from_slice(AFTER_8.as_bytes())
}

#[tactic(auto, unfolding(crate::specs::Text::after_group_1_1))]
fn add_after_group_1_1(text: &mut Vec<u8>) -> Result<(), AllocError>
    ensures { OnOk result (text.new.items ≡ text.old.items ++ after_group_1_1) }
{
    add_after_1(text)?;
    add_after_2(text)?;
    add_after_3(text)
}

#[tactic(auto, unfolding(crate::specs::Text::after_group_1_2))]
fn add_after_group_1_2(text: &mut Vec<u8>) -> Result<(), AllocError>
    ensures { OnOk result (text.new.items ≡ text.old.items ++ after_group_1_2) }
{
    add_after_4(text)?;
    add_after_5(text)?;
    add_after_6(text)
}

#[tactic(auto, unfolding(crate::specs::Text::after_group_1_3))]
fn add_after_group_1_3(text: &mut Vec<u8>) -> Result<(), AllocError>
    ensures { OnOk result (text.new.items ≡ text.old.items ++ after_group_1_3) }
{
    add_after_7(text)?;
    add_after_8(text)
}

/// Adds what stands after the data of a run.
#[tactic(auto, unfolding(crate::specs::Text::after))]
pub fn add_after(text: &mut Vec<u8>) -> Result<(), AllocError>
    ensures { OnOk result (text.new.items ≡ text.old.items ++ after) }
{
    add_after_group_1_1(text)?;
    add_after_group_1_2(text)?;
    add_after_group_1_3(text)
}
