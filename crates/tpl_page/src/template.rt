//! The parts of the page. Made by page/make of the files of page/: change those.

/// What stands before the answer: the page's head with its style, and the body without what scripts add.
pub(crate) const HEAD: &str = r#"<!doctype html>
<html lang="en">
<meta charset="utf-8">
<meta http-equiv="Content-Security-Policy" content="default-src 'none'; script-src 'sha256-3nMoUBltxPX+WiVbvbReA3AKaDyZ6pZC9OqH1hNbik0='; style-src 'sha256-ZOZkF1pUbxFqeEtkhiaEiMrAxJqC9kz0x1nuQ3TxttE='; base-uri 'none'; form-action 'none'">
<meta name="viewport" content="width=device-width, initial-scale=1">
<meta name="color-scheme" content="light dark">
<title>taskgraph</title>
<style>:root{color-scheme:light;--bg:#f6f7f9;--panel:#fff;--ink:#1b2430;--muted:#5b6675;--line:#dce1e8;--edge:#9aa5b4;--quiet:#6f7a8a;--accent:#6d28d9;--soft:#efeaff;--hover:#eef1f5;--ran:#0b7a57;--ran-bg:#e2f4ec;--faulted:#b93815;--faulted-bg:#fde6dc;--canceled:#8a6100;--canceled-bg:#fcf0cf;--running:#1d5fbf;--running-bg:#dfebfc}
:root[data-theme=dark]{color-scheme:dark;--bg:#12161c;--panel:#1a2029;--ink:#e5eaf1;--muted:#9aa7b8;--line:#2e3744;--edge:#66748a;--quiet:#8492a6;--accent:#b99bff;--soft:#2b2445;--hover:#242c38;--ran:#4fd0a2;--ran-bg:#15382e;--faulted:#ff9a76;--faulted-bg:#4a2317;--canceled:#f0c457;--canceled-bg:#423413;--running:#7fb4ff;--running-bg:#1a3258}
*{box-sizing:border-box;}
[hidden]{display:none !important;}
body{margin:0;background:var(--bg);color:var(--ink);font:14px/1.45 system-ui,sans-serif;}
#text{white-space:pre-wrap;padding:16px;font:13px/1.5 ui-monospace,monospace;}
#app,.live #text,#printed{display:none;}
.live #app{display:grid;height:100vh;grid-template:auto minmax(0,1fr) auto / minmax(220px,300px) minmax(0,1fr) minmax(280px,380px);grid-template-areas:"head head head" "list graph side" "list run side"}
.hidden{position:absolute;width:1px;height:1px;overflow:hidden;clip-path:inset(50%);white-space:nowrap;}
.grow{flex:1;}
button{font:inherit;color:inherit;background:none;border:1px solid var(--line);border-radius:6px;padding:2px 9px;cursor:pointer}
button:hover{background:var(--hover);}
button:disabled{opacity:.45;cursor:default;}
button[aria-pressed=true]{background:var(--soft);border-color:var(--accent);color:var(--accent);}
:focus-visible{outline:2px solid var(--accent);outline-offset:1px;}
h1{font-size:16px;margin:0;}
h2{font-size:17px;margin:2px 0 6px;line-height:1.25;overflow-wrap:anywhere;unicode-bidi:isolate;}
h3{font-size:12px;text-transform:uppercase;letter-spacing:.05em;color:var(--muted);margin:16px 0 4px;}
dialog{border:1px solid var(--line);border-radius:10px;background:var(--panel);color:inherit;padding:18px 24px;}
dialog::backdrop{background:#0006;}
dialog td{padding:3px 12px 3px 0;}
kbd{border:1px solid var(--line);border-bottom-width:2px;border-radius:4px;padding:0 6px;font:12px ui-monospace,monospace}
.icon{width:12px;height:12px;vertical-align:-1px;flex:none;}
.sign{fill:none;stroke:currentColor;stroke-width:1.9;stroke-linecap:round;stroke-linejoin:round;}
.sign:is(.running,.root,.first,.last,.previous,.next){fill:currentColor;}
:is(.icon,.sign,.sum,.go):is(.holds,.kept,.ran){color:var(--ran);}
:is(.icon,.sign,.sum,.go):is(.fails,.faulted){color:var(--faulted);}
:is(.icon,.sign,.sum,.go):is(.empty,.canceled){color:var(--canceled);}
:is(.icon,.sum).unknown{color:var(--muted);}
:is(.icon,.sign):is(.running,.ready){color:var(--running);}
:is(.icon,.sign):is(.waits,.created){color:var(--quiet);}
header{grid-area:head;display:flex;flex-wrap:wrap;gap:10px 18px;align-items:center;padding:8px 16px;background:var(--panel);border-bottom:1px solid var(--line)}
#size,#about{color:var(--muted);font-size:12px;}
#about{max-height:3em;overflow:auto;unicode-bidi:isolate;}
#sums{display:flex;gap:6px;}
.sum b{font-size:15px;}
#meter{display:flex;width:120px;height:8px;border-radius:4px;overflow:hidden;gap:1px;}
#meter span{min-width:3px;}
#meter :is(.holds,.kept){background:var(--ran);}
#meter .fails{background:var(--faulted);}
#meter .empty{background:var(--canceled);}
#meter .unknown{background:var(--quiet);}
#list{grid-area:list;display:flex;flex-direction:column;min-height:0;background:var(--panel);border-right:1px solid var(--line)}
.search{display:flex;gap:8px;padding:10px;align-items:center;border-bottom:1px solid var(--line);}
.search input{flex:1;min-width:0;font:inherit;color:inherit;background:var(--bg);border:1px solid var(--line);border-radius:6px;padding:4px 8px}
#found{color:var(--muted);font-size:12px;white-space:nowrap;}
#claims{list-style:none;margin:0;padding:0;overflow:auto;flex:1;position:relative;}
#claims li{display:flex;gap:8px;padding:8px 12px;cursor:pointer;border-bottom:1px solid var(--line);border-left:3px solid transparent;content-visibility:auto;contain-intrinsic-size:auto 54px}
#claims li:hover{background:var(--hover);}
#claims li[aria-selected=true]{background:var(--soft);border-left-color:var(--accent);}
#claims li > .icon{margin-top:4px;}
#claims .number{color:var(--muted);font-size:12px;min-width:16px;text-align:right;padding-top:1px;}
#claims b{display:block;overflow-wrap:anywhere;font-weight:600;line-height:1.3;}
#claims .words{color:var(--muted);font-size:12.5px;line-height:1.35;overflow-wrap:anywhere;}
#claims div{min-width:0;unicode-bidi:isolate;}
#graph{grid-area:graph;position:relative;min-height:0;display:flex;flex-direction:column;}
.tools{display:flex;flex-wrap:wrap;gap:6px 10px;align-items:center;padding:7px 12px;font-size:12.5px;background:var(--panel);border-bottom:1px solid var(--line)}
.segments{display:inline-flex;}
.segments button{border-radius:0;margin-left:-1px;}
.segments button:first-child{border-radius:6px 0 0 6px;}
.segments button:last-child{border-radius:0 6px 6px 0;}
#count{color:var(--muted);}
#tokens{position:absolute;left:10px;top:8px;right:10px;display:flex;gap:6px;flex-wrap:wrap;pointer-events:none;}
#tokens .token{background:var(--panel);padding:1px 8px;}
.token{border:1px dashed var(--edge);border-radius:10px;padding:0 7px;font-size:12px;white-space:nowrap;}
.token.asked,#tokens .asked{border:1px solid var(--canceled);background:var(--canceled-bg);color:var(--canceled);font-weight:600}
.box{flex:1;min-height:0;position:relative;}
#canvas{position:absolute;inset:0;width:100%;height:100%;cursor:grab;touch-action:none;user-select:none;background:radial-gradient(var(--line) 1px,transparent 1px) 0 0 / 22px 22px}
#canvas:active{cursor:grabbing;}
#legend{position:absolute;left:10px;bottom:8px;display:flex;flex-wrap:wrap;gap:2px 12px;font-size:12px;padding:3px 10px;color:var(--muted);background:var(--panel);border:1px solid var(--line);border-radius:6px}
.edge{fill:none;stroke:var(--edge);stroke-width:1.4;}
.edge.argument{stroke-width:1.2;}
.edge.child{stroke-width:2.6;stroke-dasharray:1 4;stroke-linecap:round;}
.edge.if-ran{stroke:var(--ran);}
.edge:is(.if-faulted,.unless-ran){stroke:var(--faulted);stroke-dasharray:6 3;}
.edge.if-canceled{stroke:var(--canceled);stroke-dasharray:2 3;}
.head{fill:var(--edge);}
.label{font:11px system-ui,sans-serif;fill:var(--muted);paint-order:stroke;stroke:var(--bg);stroke-width:4px;}
.label.if-ran{fill:var(--ran);}
.label:is(.if-faulted,.unless-ran){fill:var(--faulted);}
.label.if-canceled{fill:var(--canceled);}
.trail path{fill:none;stroke:var(--accent);stroke-width:4.5;stroke-opacity:.75;stroke-linecap:round;}
.node{cursor:pointer;outline:none;}
.node .card{fill:var(--panel);stroke:var(--edge);stroke-width:1.3;}
.node .halo{fill:none;stroke:none;}
.node .name{font:600 13px system-ui,sans-serif;fill:var(--ink);}
.node .line{font:11px system-ui,sans-serif;fill:var(--muted);}
.node .mark{color:var(--muted);}
.node.child .card{stroke-dasharray:5 2;}
.node.ran .card{fill:var(--ran-bg);stroke:var(--ran);}
.node.faulted .card{fill:var(--faulted-bg);stroke:var(--faulted);stroke-width:2;}
.node.canceled .card{fill:var(--canceled-bg);stroke:var(--canceled);stroke-dasharray:6 3;}
.node.running .card{fill:var(--running-bg);stroke:var(--running);stroke-width:2;}
.node.ready .card{stroke:var(--running);}
.node:is(.waits,.created) .card{stroke:var(--line);}
.node:is(.waits,.created) .name{fill:var(--muted);}
.node.ran .line{fill:var(--ran);}
.node.faulted .line{fill:var(--faulted);}
.node.canceled .line{fill:var(--canceled);}
.node:is(.running,.ready) .line{fill:var(--running);}
.node.cause .halo{stroke:var(--accent);stroke-width:1.5;stroke-opacity:.5;}
.node.given .halo{stroke:var(--accent);stroke-width:2;stroke-opacity:1;stroke-dasharray:3 4;}
.node.subject .halo{stroke:var(--accent);stroke-width:3.5;stroke-opacity:1;}
.node.current .card{stroke-width:3.5;}
.node.current .halo{fill:var(--accent);fill-opacity:.18;}
.node:is(.chosen,.hint,:hover) .card{stroke:var(--accent);stroke-width:3;}
.node:focus-visible .halo{stroke:var(--accent);stroke-width:3;stroke-dasharray:none;}
.far .node .line,.far .label{display:none;}
.far .node .name{font-size:17px;transform:translateY(9px);}
#run{grid-area:run;min-width:0;max-height:42vh;display:flex;flex-direction:column;background:var(--panel);border-top:1px solid var(--line)}
.steer{display:flex;flex-wrap:wrap;gap:6px;align-items:center;padding:8px 12px 4px;}
.steer button:not(.task){min-width:32px;}
#says{flex-basis:100%;overflow-wrap:anywhere;}
.here{color:var(--faulted);}
.slide{padding:0 12px;}
#slider{accent-color:var(--accent);display:block;width:100%;margin:2px 0;}
#lanes{overflow:auto;position:relative;margin:0 12px 10px;border:1px solid var(--line);border-radius:6px;}
.inner{position:relative;min-width:100%;}
.row{display:flex;border-bottom:1px solid var(--line);}
.row:last-of-type{border-bottom:0;}
.who{width:78px;flex:none;font-size:12px;color:var(--muted);padding:4px 8px;position:sticky;left:0;z-index:3;background:var(--panel);border-right:1px solid var(--line)}
.lane,.axis{position:relative;flex:1;}
.axis{height:20px;}
.axis span{position:absolute;text-align:center;font-size:11px;color:var(--muted);padding-top:2px;}
.axis.times span{padding-left:3px;border-left:1px solid var(--line);white-space:nowrap;}
.bar{position:absolute;height:21px;padding:0 6px;font-size:12px;line-height:18px;text-align:left;overflow:clip;white-space:nowrap;border-width:1px 1px 1px 4px;border-radius:4px}
.bar span{position:sticky;left:84px;}
.instant span{overflow:hidden;text-overflow:ellipsis;}
.bar.ran{background:var(--ran-bg);border-color:var(--ran);}
.bar.faulted{background:var(--faulted-bg);border-color:var(--faulted);}
.bar.canceled{background:var(--canceled-bg);border-color:var(--canceled);border-style:dashed;}
.bar.running{background:var(--running-bg);border-color:var(--running);}
:is(.bar,.instant).cause{box-shadow:0 0 0 2px var(--accent);}
.instant.cause{border-radius:9px;}
.dot{position:absolute;width:6px;height:3px;background:var(--muted);border-radius:2px;opacity:.7;}
.dot.bad{background:var(--faulted);height:6px;margin-top:-3px;opacity:1;}
.instant{position:absolute;height:18px;padding:0;border:0;font-size:11px;display:flex;gap:3px;align-items:center;justify-content:center;overflow:hidden;color:var(--muted);white-space:nowrap}
.instant .icon{width:11px;height:11px;color:inherit;}
.instant .sign{color:inherit;}
.instant:is(.canceled,.request){color:var(--canceled);}
.instant.faulted{color:var(--faulted);}
.instant.ran{color:var(--ran);}
.cursor{position:absolute;top:0;bottom:0;background:var(--accent);opacity:.16;pointer-events:none;border-radius:2px}
.fail{position:absolute;top:0;bottom:0;border-left:3px double var(--faulted);color:var(--faulted);font-size:11px;font-weight:600;white-space:nowrap;pointer-events:none}
.fail span{padding:0 5px;background:var(--panel);}
#side{grid-area:side;min-height:0;overflow:auto;padding:14px 16px;position:relative;background:var(--panel);border-left:1px solid var(--line)}
#side :is(p,.ends){margin:4px 0;overflow-wrap:anywhere;}
.verdict{font-weight:600;display:flex;gap:6px;align-items:center;}
.verdict.fails{color:var(--faulted);}
.verdict:is(.holds,.kept){color:var(--ran);}
.verdict.empty{color:var(--canceled);}
.verdict.unknown{color:var(--muted);}
.verdict .icon{width:14px;height:14px;}
.lead{font-size:16px;font-weight:600;line-height:1.35;}
.tells{color:var(--muted);font-size:13px;}
.note{border-left:3px solid var(--line);padding-left:8px;color:var(--muted);unicode-bidi:isolate;white-space:pre-wrap}
.task{border:0;padding:0;font-weight:600;border-bottom:1px dotted var(--edge);border-radius:0;overflow-wrap:anywhere;text-align:left}
.status{font-weight:600;}
.status.ran{color:var(--ran);}
.status.faulted{color:var(--faulted);}
.status.canceled{color:var(--canceled);}
.status:is(.running,.ready){color:var(--running);}
.actor{color:var(--muted);font-size:12px;}
.input{margin-right:10px;}
.causes,.events{list-style:none;margin:0;padding:0;}
.causes li{border-left:3px solid var(--accent);padding:3px 4px 3px 8px;}
.causes li.plain{color:var(--muted);}
.causes li.plain .task{font-weight:400;}
summary{cursor:pointer;color:var(--muted);padding:3px 0;}
.go{padding:0 6px;font-size:12px;margin:1px 2px;min-width:26px;}
#details li.now{background:var(--soft);}
.cases{margin:4px 0;padding-left:22px;}
.cases li{padding:2px 0;overflow-wrap:anywhere;}
.cases ul{margin:0;padding-left:14px;color:var(--muted);}
.events{max-height:42vh;overflow:auto;position:relative;}
.events li{display:flex;gap:8px;padding:2px 4px;cursor:pointer;border-radius:4px;content-visibility:auto;contain-intrinsic-size:auto 24px}
.events li:hover{background:var(--hover);}
.events .number{color:var(--muted);min-width:22px;text-align:right;font-size:12px;}
.events .actor{min-width:22px;}
.events li.bad{color:var(--faulted);}
.events li.fails{color:var(--faulted);font-weight:600;border-top:2px solid var(--faulted);align-items:center;}
.journal{font:12.5px/1.5 ui-monospace,monospace;color:var(--faulted);}
.copy{margin-top:10px;font-size:12px;}
#task{border:1px solid var(--accent);border-radius:8px;padding:10px 12px;margin-bottom:14px;background:var(--bg);}
.shut{float:right;border:0;font-size:18px;line-height:1;}
.body{font:12.5px/1.5 ui-monospace,monospace;background:var(--panel);border:1px solid var(--line);border-radius:6px;padding:6px 8px;margin:6px 0;overflow-wrap:anywhere}
@media (max-width:900px){.live #app{height:auto;grid-template:auto auto 60vh auto auto / minmax(0,1fr);grid-template-areas:"head" "list" "graph" "run" "side"}
#list{max-height:34vh;border-right:0;}
#side{border-left:0;border-top:1px solid var(--line);}}
@media (prefers-reduced-motion:no-preference){.cursor{transition:left .12s;}
.node .card{transition:fill .15s,stroke .15s;}}
@media (forced-colors:active){.node .card,.edge,.head{stroke:CanvasText;}
.node .name,.node .line,.label{fill:CanvasText;stroke:none;}
.node:is(.subject,.given,.cause) .halo,.trail path{stroke:Highlight;}
.cursor,#meter span{forced-color-adjust:none;}
[aria-pressed=true],[aria-selected=true],#details li.now{outline:2px solid Highlight;outline-offset:-2px;}}
@media print{:root,:root[data-theme]{color-scheme:light;--bg:#fff;--panel:#fff;--ink:#000;--muted:#444;--line:#bbb;--edge:#777;--soft:#fff;--accent:#6d28d9;--ran:#0b6a4c;--ran-bg:#e8f5ef;--faulted:#a52f10;--faulted-bg:#fdebe3;--canceled:#755200;--canceled-bg:#fdf4da;--running:#1d4f9f;--running-bg:#e6effc}
*{print-color-adjust:exact;}
.live #app,.live #text,#printed{display:block;height:auto;}
#list,#graph,#run,#side,#live,#theme,#help{display:none;}
#printed section{break-inside:avoid-page;margin:0 0 10mm;padding:0 4mm;}
#printed svg:not(.icon){display:block;width:100%;max-height:13cm;}
#printed .verdict .icon{display:inline;}
.live #text{break-before:page;font-size:9pt;}}</style>
<body>
<div id="app">
<header>
<div><h1 id="title"></h1><div id="size"></div></div>
<div id="meter" role="img"></div>
<div id="sums" role="group" aria-label="filter by verdict"></div>
<div id="about" class="grow" dir="auto"></div>
<button id="help" type="button" aria-label="keys">?</button>
<button id="theme" type="button">light / dark</button>
</header>
<nav id="list" aria-label="claims">
<div class="search">
<input id="find" type="search" placeholder="Search claims and tasks  ( / )" aria-label="search claims">
<span id="found" role="status"></span>
</div>
<ul id="claims" role="listbox" tabindex="0" aria-label="claims"></ul>
</nav>
<main id="graph" aria-label="graph of the tasks">
<div class="tools">
<span class="segments" role="group" aria-label="which tasks are shown">
<button type="button" data-shown="all">all</button>
<button type="button" data-shown="grouped">grouped</button>
<button type="button" data-shown="claim">what the claim depends on</button>
</span>
<span id="count"></span>
<button id="refold" type="button" hidden>fold again</button>
<span class="grow"></span>
<button id="wider" type="button" aria-label="zoom out">−</button>
<button id="closer" type="button" aria-label="zoom in">+</button>
<button id="fit" type="button">fit</button>
</div>
<div class="box">
<svg id="canvas" role="group" aria-label="tasks"><g id="world"></g></svg>
<div id="tokens" aria-label="tokens" role="group"></div>
<div id="legend" aria-hidden="true"></div>
</div>
</main>
<section id="run" aria-label="the run">
<div class="steer">
<button id="first" type="button" aria-label="before the first event"></button>
<button id="previous" type="button" aria-label="one event back"></button>
<button id="next" type="button" aria-label="one event on"></button>
<button id="last" type="button" aria-label="to the end"></button>
<button id="back" type="button" title="the cause before (Shift ←)">‹ cause</button>
<button id="on" type="button" title="the cause after (Shift →)">cause ›</button>
<button id="play" type="button" aria-pressed="false">play</button>
<span class="grow"></span>
<button id="clock" type="button" aria-pressed="true" hidden>by time</button>
<button id="lanes-wider" type="button" aria-label="narrower events">−</button>
<button id="lanes-closer" type="button" aria-label="wider events">+</button>
<div id="says"></div>
</div>
<div class="slide"><input id="slider" type="range" min="0" value="0" aria-label="event"></div>
<div id="lanes" tabindex="0" role="region" aria-label="who runs what"></div>
</section>
<aside id="side" aria-label="the claim"><div id="task" hidden></div><div id="details"></div></aside>
<div id="live" class="hidden" aria-live="polite"></div>
<dialog id="keys" aria-label="keys">
<form method="dialog">
<h2>Keys</h2>
<table>
<tr><td><kbd>←</kbd> <kbd>→</kbd><td>one event back, on
<tr><td><kbd>Shift</kbd> <kbd>←</kbd> <kbd>→</kbd><td>the cause before, after
<tr><td><kbd>Home</kbd> <kbd>End</kbd><td>before the first event, to the end
<tr><td><kbd>j</kbd> <kbd>k</kbd><td>next claim, previous claim
<tr><td><kbd>/</kbd><td>search
<tr><td><kbd>g</kbd><td>all, grouped, what the claim depends on
<tr><td><kbd>+</kbd> <kbd>−</kbd> <kbd>f</kbd><td>zoom, fit
<tr><td><kbd>[</kbd> <kbd>]</kbd><td>narrower events, wider events
<tr><td><kbd>Alt</kbd> <kbd>←</kbd> <kbd>→</kbd><td>in the graph: along an edge
<tr><td><kbd>t</kbd><td>light or dark
</table>
<button>close</button>
</form>
</dialog>
<div id="printed"></div>
</div>
<pre id="text">"#;

/// What stands between the answer and the data.
pub(crate) const MIDDLE: &str = r#"</pre>
<pre id="data" hidden>"#;

/// What stands behind the data: the scripts.
pub(crate) const TAIL: &str = r#"</pre>
<script>"use strict";(() => {const taskPart=(id)=>({task:id});const statusPart=(status)=>({status});const endedParts=(status)=>[status===CANCELED?"was ":"",statusPart(status)];const PARTS={task:({task})=>taskPart(task),other:({other})=>taskPart(other),child:({child})=>taskPart(child),token:({token})=>({token}),status:({status})=>statusPart(status),ended:({status})=>endedParts(status)};function sentence(text,parts){const part=(name)=>(PARTS[name]?PARTS[name](parts):String(parts[name]));return text.split(/\{(\w+)\}/).flatMap((word,place)=>(place % 2?part(word):word))}
const flat=(parts)=>parts.map(flatPart).join("");function flatPart(part){if(part.task !==undefined)return tasks[part.task].name;return part.token??STATUS_WORDS[part.status]??String(part)}
const STATUS_WORDS=["not started","waiting","ready","running","waits for children","ran","canceled","faulted"];const STATUS_CLASSES=["created","waits","ready","running","running","ran","canceled","faulted"];const END_WORDS={RanToCompletion:"ran",Canceled:"canceled",Faulted:"faulted"};const counted=(count,word)=>`${count.toLocaleString("en")} ${word}${count === 1 ? "" : "s"}`;const isMost=(count,whole)=>(count===whole?`${whole} tasks`:`${count} of ${whole} shown`);function conditionWords(ends){if(ends.length===FINALS.length)return "";if(ends.length===1)return `if ${END_WORDS[ends[0]]}`;return `unless ${END_WORDS[FINALS.find((end) => !ends.includes(end))]}`}
function edgeWords(edge){if(edge.kind==="then")return conditionWords(edge.ends);return edge.kind==="child"?(edge.attached?"attached":"detached"):""}
const EVENTS={request:"the outside requests {token}",release:"{task} becomes ready: {other} {ended}",begin:"{task} begins",return:"{task} returns",throw:"{task} throws {exception}",checkInVain:"{task} checks {token}, which isn't requested",checkOwn:"{task} sees that {token} is requested, and stops",checkOther:"{task} sees that {token} is requested: since it isn't its own token, that is an exception",cancel:"{task} requests {token}",start:"{task} starts its child {child}",observe:"{task} reads the exception of {other}",observeInVain:"{task} looks for an exception of {other}, which has none",if:"{task} finds {input} {value}",when:"{task} finds that {other} {ended}",worked:"the job {site} of {task} is done",failed:"the job {site} of {task} fails",wait:"{task} is over, and waits for {child}{more}",leave:"{task} ends: {status}",close:"{task} ends with its children: {status}",closeSince:"{task} ends with its children: {status}, since {other} faulted",misfit:"{task} is canceled: it starts only {how} {other} {end}, and it {ended}",drop:"{task} is canceled before it begins: {token} is requested",first:"{task} ends: {other} was the first",settle:"{task} ends: {status}, as all of its tasks have",settleSince:"{task} ends: {status}, since {other} {ended}"};const FAILURES={final:"{task} ends {status}, which is none of the ends that are claimed.",never:"{task} begins.",afterOpen:"{task} begins, but {other} hasn't ended: it is {status}.",afterEnded:"{task} begins, but {other} ended {status} at event {event}.",excludes:"Both begin: {task} at event {event}, {other} at event {second}.",runs:"The run is complete, and {task} never began.",runsCanceled:"The run is complete, and {task} never began: it was canceled at event {event}.",observed:"The run is complete, and nobody read the exception that {task} threw at event {event} ({exception}).",given:" {task} ended {status}, as is given."};const VERDICTS=["fails","unknown","empty","holds","kept"];const VERDICT_WORDS={fails:"It fails: here is a run in which it does.",unknown:"Neither a certificate nor a run in which it fails was found. It may hold or fail.",empty:"It holds, but says nothing.",holds:"It holds in every run: a certificate was found, and the proved check accepts it."};const AUDIT_WORDS={fails:()=>"It fails in this run, and no claim fails earlier.",unknown:()=>"The journal is no run, so nothing is said of the claim.",kept:()=>audit.fails
?`It holds up to where claim ${audit.fails.claim} fails. What comes after that wasn't looked at.`
:"It holds after each event of this run."};const SPLITS_WORDS=(splits)=>splits?`The certificate has at most ${counted(splits, "split")} on a path.`:"The certificate has one case.";const CASES={end:"{task} ends {status} or not at all",first:"no other than {other} is the first of {task}",notFirst:"{other} isn't the first of {task}",settled:"{other} is settled when {task} begins",reads:"{other} reads the exception of {task}",neverBegins:"{task} never begins",neverEnds:"{task} never ends",mayEnd:"{task} may end {ways}"};const CASES_WORDS=(isLeast)=>`Each run is in one of these cases, and the claim holds in each${isLeast ? ": the check works out why" : ""}.`;const TASK_KINDS={root:()=>"a root",child:(id)=>`a child of ${tasks[parentOf.get(id)].name}`,then:(id)=>`continues ${tasks[id].after}`,all:()=>"WhenAll",any:()=>"WhenAny"};const kindWords=(id)=>[TASK_KINDS[tasks[id].kind](id),...(tasks[id].options||[])].join(", ");const LINE_KINDS={root:(task)=>(task.token?"":"starts at once"),child:()=>"child",then:(task)=>{const isSynchronous=hasOption(task,"ExecuteSynchronously");const isLazy=hasOption(task,"LazyCancellation");return[!task.token&&"then",isSynchronous&&"sync",isLazy&&"lazy"].filter(Boolean).join(" · ")},all:(task)=>`all of ${task.of.length}`,any:(task)=>`first of ${task.of.length}`};function lineWords(id){const task=tasks[id];const cancels=requestedBy[id].length?`cancels ${requestedBy[id].join(", ")}`:"";return[LINE_KINDS[task.kind](task),task.token?`token ${task.token}`:"",cancels].filter(Boolean).join(" · ")}
const STATEMENT_WORDS={work:({work,may_fail})=>[`job ${work}`,may_fail?" (may fail)":""],throw:(statement)=>[`throw ${statement.throw}`],check:({check})=>sentence("check {token}",{token:check}),cancel:({cancel})=>sentence("cancel {token}",{token:cancel}),start:({start})=>sentence("start {child}",{child:idOf.get(start)}),if:(statement)=>[`if ${statement.if}`],when:({when})=>[`when it ${END_WORDS[when]}`]};const PLAIN_STATEMENTS={observe:"read the exception of what it continues",return:"return"};const WORDS={title:"Claims and their verdicts",recorded:"A recorded run",run:"The run",complete:(isComplete)=>(isComplete?"The run is complete.":"The run is not complete: some task has yet to end."),notAllowed:(place)=>`Event ${place} isn't allowed after those before it:`,otherEnd:"The document says of {task}: {said}. The journal says: {status}.",ends:"How the tasks ended",endsBefore:"How the tasks stand before it",names:"their names",at:(time)=>`, at ${time}`,time:"time",noClaims:"The document has no claims, so nothing was asked.",noClaim:"no claim",claim:(number,verdict)=>` claim ${number} ${verdict}`,size:()=>`${counted(tasks.length, "task")} · ${counted(claims.length, "claim")}`,certificate:"The certificate",wrong:"What goes wrong",causes:"How it came to this",folded:(count)=>`${counted(count, "step")} before, in which tasks ran`,inputs:"Inputs",input:(name,value)=>`${name} is ${value}`,events:"Events",failsHere:"The claim fails here",claimFailsHere:(number)=>` claim ${number} fails here`,copy:"Copy the journal",copied:"Copied",notCopied:"Not allowed here",close:"close",alike:(count)=>`${count} parts alike`,alikeTells:(count)=>`${count} tasks that have the same shape and the same neighbours are shown as one. Unfold one of them:`,unfoldAll:"unfold all",groupName:(first,last)=>`${first} … ${last}`,groupLine:(parts,members)=>`${parts} alike · ${members} tasks`,groupTitle: (names, more) => `${names.join(", ")}${more ? ` and ${more} more` : ""}. Click to unfold`,group:"group ",isSubject:", the claim is about it",atStep:"At this step: ",threw:(exception)=>`, it threw ${exception}`,token:"token ",follows:"follows ",followedBy:"followed by ",itsEvents:"its events ",itsClaims:"claims ",andMore:(count)=>` and ${count} more`,requested:": requested",neverRequested:": never requested",linked:(names)=>` ← ${names.join(", ")}`,event:"event",toEvent:(number)=>`go to event ${number}`,lane:(actor)=>`${actor[0] === "w" ? "worker" : "outside"} ${actor.slice(1)}`,bar:(name,from,to)=>`${name}: events ${from} to ${to}`,fails:"fails here",beforeFirst:(count)=>`before the first event of ${count}`,step:(number,count,says)=>`${number} of ${count}: ${says}`,found:(count)=>`${count} found`,printed:(count)=>`The pictures of ${counted(count, "more failing claim")} are left out; each is in the page.`,legend:["ran","faulted","canceled","running","ready","waits"],else:"else"};const given=JSON.parse(document.getElementById("data").textContent);const tasks=given.document.tasks;const claims=given.document.claims||[];const audit=given.audit||null;const verdicts=audit?auditedClaims():given.verdicts.claims;const sums=audit?countedClaims():given.verdicts.sums;const tokens=(given.document.tokens||[]).map((token)=>(typeof token==="string"?{name:token,linked:[]}:token));const idOf=new Map(tasks.map((task,id)=>[task.name,id]));const tokenOf=new Map(tokens.map((token)=>[token.name,token]));const FINALS=["RanToCompletion","Canceled","Faulted"];const STATUSES=["Created","WaitingForActivation","WaitingToRun","Running","WaitingForChildrenToComplete",...FINALS];const[CREATED,WAITING,READY,RUNNING,WITH_CHILDREN,RAN,CANCELED,FAULTED]=STATUSES.keys();const hasEnded=(status)=>status>=RAN;const hasOption=(task,option)=>(task.options||[]).includes(option);function allowedEnds(task){const isAllowed=(end)=>!hasOption(task,`NotOn${end}`)&&!FINALS.some((other)=>other !==end&&hasOption(task,`OnlyOn${other}`));return FINALS.filter(isAllowed)}
function eachStatement(body,visit){for(const statement of body||[]){visit(statement);eachStatement(statement.then,visit);eachStatement(statement.else,visit)}}
const parentOf=new Map();const requestedBy=tasks.map(()=>[]);tasks.forEach((task,id)=>eachStatement(task.body,(statement)=>{if(statement.start !==undefined)parentOf.set(idOf.get(statement.start),id);if(statement.cancel !==undefined)requestedBy[id].push(statement.cancel)}));const childrenOf=tasks.map(()=>[]);for(const[child,parent]of parentOf)childrenOf[parent].push(child);const isAttached=(child)=>hasOption(tasks[child],"AttachedToParent")&&!hasOption(tasks[parentOf.get(child)],"DenyChildAttach");const edges=[];tasks.forEach((task,id)=>{if(task.kind==="then")edges.push({from:idOf.get(task.after),to:id,kind:"then",ends:allowedEnds(task)});for(const name of new Set(task.of||[]))edges.push({from:idOf.get(name),to:id,kind:"argument"})});for(const[child,parent]of parentOf)edges.push({from:parent,to:child,kind:"child",attached:isAttached(child)});const edgesTo=tasks.map(()=>[]);const edgesFrom=tasks.map(()=>[]);for(const edge of edges){edgesTo[edge.to].push(edge);edgesFrom[edge.from].push(edge)}
const KINDS=["final","after","observed","never","excludes","runs"];function subjectOf(claim){const kind=KINDS.find((word)=>claim[word]!==undefined);const premises=claim.given||[];const about=[].concat(claim[kind]).map((name)=>idOf.get(name));const ended=premises.filter((premise)=>premise.ended !==undefined).map((premise)=>idOf.get(premise.ended));const allTokens=tokens.map((token)=>token.name);const quietIn=(premise)=>(premise==="no_request"?allTokens:premise.quiet?[premise.quiet]:[]);return{kind,about,ended,quiet:new Set(premises.flatMap(quietIn))}}
const NO_SUBJECT={kind:"",about:[],ended:[],quiet:new Set()};function cone(from,quiet){const met=new Set();const ahead=[...from];const addRequesters=(name)=>{if(quiet.has(name))return;requestedBy.forEach((names,id)=>names.includes(name)&&ahead.push(id));(tokenOf.get(name)?.linked||[]).forEach(addRequesters)};while(ahead.length){const id=ahead.pop();if(met.has(id))continue;met.add(id);ahead.push(...edgesTo[id].map((edge)=>edge.from));if(tasks[id].token)addRequesters(tasks[id].token);eachStatement(tasks[id].body,(statement)=>statement.check&&addRequesters(statement.check))}
return met}
class Run{constructor({inputs,journal}){this.inputs=new Map(Object.entries(inputs||{}));this.journal=journal;this.events=[];this.opening=tasks.map(openingStatus);this.status=[...this.opening];this.rest=tasks.map((task)=>[...(task.body||[])]);this.askedAt=new Map();this.startedAt=new Map();this.beganAt=tasks.map(()=>0);this.endedAt=tasks.map(()=>0);this.threwAt=tasks.map(()=>0);this.thrown=tasks.map(()=>"");this.acknowledges=tasks.map(()=>false);this.carried=tasks.map(()=>[]);for(const line of journal.split("\n"))if(line)this.play(line)}
play(line){const[actor,act,what,answer]=line.split(" ");const event={number:this.events.length + 1,actor,act,changes:[],sentence:[],isBad:false};this.events.push(event);if(act==="request"){this.ask(what,event);event.token=what;this.say(event,"request",{token:what});return}
event.task=idOf.get(what);this[act](event,event.task,answer)}
begin(event,id){this.beganAt[id]=event.number;this.change(event,id,RUNNING);this.say(event,"begin")}
release(event,id){const antecedent=idOf.get(tasks[id].after);this.change(event,id,READY);this.say(event,"release",{other:antecedent,status:this.status[antecedent]})}
step(event,id){const statement=this.rest[id].shift();const isBranch=(word)=>word==="then"||word==="else";const word=typeof statement==="string"?statement:Object.keys(statement).find((key)=>!isBranch(key));STATEMENTS[word](this,event,id,statement)}
worked(event,id,answer){const site=this.rest[id].shift().work;event.isBad=answer==="failed";if(event.isBad)this.throw(event,id,`WorkFailed(${site})`);this.say(event,event.isBad?"failed":"worked",{site})}
leave(event,id){const open=this.attachedTo(id).filter((child)=>!hasEnded(this.status[child]));if(open.length)this.change(event,id,WITH_CHILDREN);else this.finish(event,id);const more=open.length>1?WORDS.andMore(open.length - 1):"";this.say(event,open.length?"wait":"leave",{child:open[0],more,status:this.status[id]})}
close(event,id){const children=this.attachedTo(id);const bad=children.find((child)=>this.status[child]===FAULTED);this.finish(event,id);const isSince=this.status[id]===FAULTED&&!this.thrown[id];this.say(event,isSince?"closeSince":"close",{other:bad,status:this.status[id]})}
drop(event,id){const task=tasks[id];const antecedent=task.kind==="then"?idOf.get(task.after):undefined;const ends=allowedEnds(task);const status=this.status[antecedent];const isMisfit=hasEnded(status)&&!ends.includes(STATUSES[status]);this.change(event,id,CANCELED);const[how,end]=conditionWords(ends).split(" ");this.say(event,isMisfit?"misfit":"drop",{other:antecedent,how,end,status,token:task.token})}
settle(event,id){const ended=tasks[id].of.map((name)=>idOf.get(name)).filter((other)=>hasEnded(this.status[other]));ended.sort((one,other)=>this.endedAt[one]- this.endedAt[other]);if(tasks[id].kind==="any")this.settleAny(event,id,ended[0]);else this.settleAll(event,id,ended)}
settleAny(event,id,winner){this.change(event,id,RAN);this.say(event,"first",{other:winner})}
settleAll(event,id,ended){const of=(status)=>ended.find((other)=>this.status[other]===status);const bad=of(FAULTED)??of(CANCELED);this.carried[id]=[...new Set(tasks[id].of.flatMap((name)=>this.carried[idOf.get(name)]))];this.change(event,id,bad===undefined?RAN:this.status[bad]);this.say(event,bad===undefined?"settle":"settleSince",{other:bad,status:this.status[id]})}
say(event,word,parts){event.sentence=sentence(EVENTS[word],{task:event.task,...parts})}
change(event,id,status){if(this.status[id]!==status)event.changes.push([id,status]);this.status[id]=status;if(hasEnded(status))this.endedAt[id]=event.number}
throw(event,id,exception){this.thrown[id]=exception;this.threwAt[id]=event.number;this.rest[id]=[]}
finish(event,id){const own=this.thrown[id]?[id]:[];this.carried[id]=[...new Set([...own,...this.attachedTo(id).flatMap((child)=>this.carried[child])])];this.change(event,id,this.carried[id].length?FAULTED:this.acknowledges[id]?CANCELED:RAN)}
attachedTo(id){return childrenOf[id].filter((child)=>isAttached(child)&&this.startedAt.has(child))}
ask(token,event){if(!this.askedAt.has(token))this.askedAt.set(token,event.number)}
requestOf(token){if(this.askedAt.has(token))return this.askedAt.get(token);const numbers=(tokenOf.get(token)?.linked||[]).map((name)=>this.requestOf(name)).filter(Boolean);return numbers.length?Math.min(...numbers):0}
antecedentOf(id){const antecedent=idOf.get(tasks[id].after);if(tasks[antecedent].kind !=="any")return antecedent;const ended=tasks[antecedent].of.map((name)=>idOf.get(name)).filter((other)=>hasEnded(this.status[other]));return ended.reduce((one,other)=>(this.endedAt[other]<this.endedAt[one]?other:one))}
statusAt(count){const status=[...this.opening];for(const event of this.events.slice(0,count))for(const[id,next]of event.changes)status[id]=next;return status}
requestedAt(count){const isRequested=(token)=>this.requestOf(token.name)&&this.requestOf(token.name)<=count;return new Set(tokens.filter(isRequested).map((token)=>token.name))}}
function openingStatus(task){if(task.kind==="all"&&!task.of.length)return RAN;return{root:READY,child:CREATED}[task.kind]??WAITING}
const STATEMENTS={return(run,event,id){run.rest[id]=[];run.say(event,"return")},throw(run,event,id,statement){run.throw(event,id,statement.throw);run.say(event,"throw",{exception:statement.throw})},check(run,event,id,{check:token}){const request=run.requestOf(token);const isOwn=tasks[id].token===token;run.say(event,!request?"checkInVain":isOwn?"checkOwn":"checkOther",{token});if(!request)return;if(!isOwn)return run.throw(event,id,`OperationCanceled(${token})`);run.acknowledges[id]=true;run.rest[id]=[]},cancel(run,event,id,{cancel:token}){run.ask(token,event);run.say(event,"cancel",{token})},start(run,event,id,statement){const child=idOf.get(statement.start);run.startedAt.set(child,event.number);run.change(event,child,READY);run.say(event,"start",{child})},observe(run,event,id){const other=run.antecedentOf(id);run.say(event,run.carried[other].length?"observe":"observeInVain",{other})},if(run,event,id,statement){const value=run.inputs.get(statement.if);run.rest[id]=[...((value?statement.then:statement.else)||[]),...run.rest[id]];run.say(event,"if",{input:statement.if,value:String(value)})},when(run,event,id,statement){const other=run.antecedentOf(id);const isSo=STATUSES[run.status[other]]===statement.when;run.rest[id]=[...((isSo?statement.then:statement.else)||[]),...run.rest[id]];run.say(event,"when",{other,status:run.status[other]})}};function failureOf(claim,run){const{kind,about,ended}=subjectOf(claim);const{status,beganAt,endedAt,threwAt,thrown}=run;const[one,other]=about;const isOpen=!hasEnded(status[one]);const[words,parts]={final:()=>["final",{status:status[one]}],never:()=>["never",{}],after:()=>{const words={task:other,other:one,status:status[one],event:endedAt[one]};return[isOpen?"afterOpen":"afterEnded",words]},excludes:()=>["excludes",{other,event:beganAt[one],second:beganAt[other]}],runs:()=>[isOpen?"runs":"runsCanceled",{event:endedAt[one]}],observed:()=>["observed",{event:threwAt[one],exception:thrown[one]}]}[kind]();const premises=ended.filter((id)=>hasEnded(status[id]));const kept=premises.flatMap((id)=>sentence(FAILURES.given,{task:id,status:status[id]}));return[...sentence(FAILURES[words],{task:one,...parts}),...kept]}
const CUT="\n";const recordedLines=(given.document.journal||"").replaceAll("\r\n",CUT).split(CUT).filter(Boolean);const ofRecord=(count)=>new Run({inputs:given.document.start?.inputs,journal:recordedLines.slice(0,count).join(CUT)});const allowedCount=audit?.not_allowed?audit.not_allowed - 1:recordedLines.length;const recordedRun=audit&&ofRecord(allowedCount);const failingRun=audit?.fails?ofRecord(audit.fails.place):null;const times=audit&&given.document.times?.length?given.document.times:null;function auditedClaims(){const other=audit.not_allowed?"unknown":"kept";const said=(claim)=>(claim===audit.fails?.claim?{verdict:"fails",causes:audit.fails.causes}:{verdict:other});return audit.claims.map((text,place)=>({claim:place + 1,text,name:claims[place].name,...said(place + 1)}))}
function countedClaims(){const count=(word)=>verdicts.filter(({verdict})=>verdict===word).length;return Object.fromEntries(VERDICTS.filter(count).map((word)=>[word,count(word)]))}
const failsAt=(run)=>(audit?audit.fails?.place:run.events.length);const failingClaim=()=>(audit?audit.fails.claim:now.claim);const endOf=(number)=>(number===audit?.fails?.claim?audit.fails.place:(runOf(number)?.events.length??0));const runToFailure=(number)=>(!audit?runOf(number):number===audit.fails?.claim?failingRun:null);function recordElements(){const head=audit.not_allowed?WORDS.notAllowed(audit.not_allowed):WORDS.complete(audit.complete);const refused=audit.not_allowed&&html("p",{class:"journal"},recordedLines[audit.not_allowed - 1]);const other=audit.other_end&&html("p",{class:"other"},sentenceElements(otherEnd(audit.other_end)));return[html("h3",{},WORDS.run),html("p",{},head),refused,other,endElements()]}
function otherEnd({task,said,status}){const parts={task:idOf.get(task),said:END_WORDS[said],status:STATUSES.indexOf(status)};return sentence(WORDS.otherEnd,parts)}
const MOST_ENDS=40;function endElements(){const ends=audit.ends?audit.ends.map((name)=>STATUSES.indexOf(name)):recordedRun.status;const line=(status)=>{const ids=tasks.map((_,id)=>id).filter((id)=>ends[id]===status);if(!ids.length)return "";const names=ids.map((id,place)=>[place?", ":" ",taskButton(id)]);const folded=ids.length>MOST_ENDS&&html("details",{},html("summary",{},WORDS.names),names);const said=[`${ids.length} `,sentenceElements([statusPart(status)]),folded?"":":",folded||names];return html("div",{class:"ends","data-status":STATUSES[status]},said)};return[html("h3",{},audit.ends?WORDS.ends:WORDS.endsBefore),WORST_FIRST.map(line)]}
const TIME_UNITS=[[1e6,"s"],[1e3,"ms"],[1,"µs"]];function timeWords(microseconds){const[size,unit]=TIME_UNITS.find(([size])=>microseconds>=size)||TIME_UNITS[2];return `${Number((microseconds / size).toPrecision(4))} ${unit}`}
const FEWEST_ALIKE=3;const MOST_WORK=2e6;function bodyShape(body){const keyShape=(statement,key)=>(Array.isArray(statement[key])?`${key}[${bodyShape(statement[key])}]`:key);const shape=(statement)=>typeof statement==="string"?statement:Object.keys(statement).map((key)=>keyShape(statement,key)).join();return(body||[]).map(shape).join(";")}
function taskShape(id){const{kind,options,token,body}=tasks[id];return[kind,[...(options||[])].sort(),token,requestedBy[id],bodyShape(body)].join("|")}
function neighboursAmong(ids){const inside=new Set(ids);const behind=(id)=>edgesTo[id].filter((edge)=>inside.has(edge.from)).map((edge)=>[`${edge.kind}<`,edge.from]);const ahead=(id)=>edgesFrom[id].filter((edge)=>inside.has(edge.to)).map((edge)=>[`${edge.kind}>`,edge.to]);return new Map(ids.map((id)=>[id,[...behind(id),...ahead(id)]]))}
function numberedBy(ids,keyOf){const numbers=new Map();const colours=new Map();for(const id of ids){const key=keyOf(id);if(!numbers.has(key))numbers.set(key,numbers.size);colours.set(id,numbers.get(key))}
return[colours,numbers.size]}
function coloursOf(ids,neighbours){let[colours,size]=numberedBy(ids,taskShape);let before=0;for(let work=0;size !==before;work +=ids.length + edges.length){if(work>MOST_WORK)return null;const old=colours;const around=(id)=>neighbours.get(id).map(([how,other])=>how + old.get(other)).sort();before=size;[colours,size]=numberedBy(ids,(id)=>`${old.get(id)}:${around(id)}`)}
return colours}
function partOf(id,neighbours,isTrunk,met){const[members,hangs,ahead]=[[],new Set(),[id]];met.add(id);while(ahead.length){const next=ahead.pop();members.push(next);for(const[how,other]of neighbours.get(next)){if(isTrunk(other))hangs.add(how + other);else if(!met.has(other))ahead.push(other);met.add(other)}}
return{members:members.sort((one,other)=>one - other),hangs}}
function alikeParts(ids,neighbours,colours,kept){const sizes=new Map();for(const id of ids)sizes.set(colours.get(id),(sizes.get(colours.get(id))||0)+ 1);const isTrunk=(id)=>sizes.get(colours.get(id))<FEWEST_ALIKE;const[met,alike]=[new Set(),new Map()];for(const id of ids){if(met.has(id)||isTrunk(id))continue;const{members,hangs}=partOf(id,neighbours,isTrunk,met);if(members.some((member)=>kept.has(member)))continue;const key=`${members.map((member) => colours.get(member)).sort()}|${[...hangs].sort()}`;alike.set(key,[...(alike.get(key)||[]),members])}
return[...alike.values()]}
function leadsBack(members,inside){const[own,met]=[new Set(members),new Set()];const next=(id)=>edgesFrom[id].map((edge)=>edge.to).filter((other)=>inside.has(other));const ahead=members.flatMap(next).filter((id)=>!own.has(id));while(ahead.length){const id=ahead.pop();if(own.has(id))return true;if(!met.has(id))ahead.push(...next(id));met.add(id)}
return false}
function groupsOf(ids,kept){const standsFor=new Map(ids.map((id)=>[id,id]));const groups=new Map();const neighbours=neighboursAmong(ids);const colours=coloursOf(ids,neighbours);if(!colours)return{standsFor,groups};const inside=new Set(ids);for(const parts of alikeParts(ids,neighbours,colours,kept)){const isWorth=parts.length>=FEWEST_ALIKE||(parts.length===2&&parts[0].length>2);const members=parts.flat().sort((one,other)=>one - other);if(!isWorth||leadsBack(members,inside))continue;for(const member of members)standsFor.set(member,members[0]);groups.set(members[0],{parts,members})}
return{standsFor,groups}}
const MOST_BENDS=20000;const BEND_WIDTH=4;const MANY_LINES=4000;const VERY_MANY_LINES=20000;class Layers{constructor(nodes,links,gap,room){this.nodes=nodes;this.links=links;this.gap=gap;this.incoming=nodes.map(()=>[]);this.outgoing=nodes.map(()=>[]);for(const[from,to]of links){this.incoming[to].push(from);this.outgoing[from].push(to)}
this.points=[];this.rows=[];this.rank=this.ranks();nodes.forEach((node,index)=>this.addPoint(this.rank[index],node.across,index));this.bends=nodes.map(()=>[]);this.bendsLeft=MOST_BENDS;for(const[from,to]of links)this.addLine(from,to);this.lines=this.points.reduce((sum,point)=>sum + point.down.length,0);this.arrange();this.placeAll();this.measure(room)}
ranks(){const rank=this.nodes.map(()=>0);rank.forEach((_,node)=>{rank[node]=Math.max(0,...this.incoming[node].map((from)=>rank[from]+ 1))});for(let node=rank.length - 1;node>=0;node--){const isSource=!this.incoming[node].length&&this.outgoing[node].length;if(isSource)rank[node]=Math.min(...this.outgoing[node].map((to)=>rank[to]))- 1}
return rank}
addPoint(rank,width,node){const point={rank,width,node,up:[],down:[],center:0,order:0,isBend:node<0};this.points.push(point);(this.rows[rank]||=[]).push(point);return point}
addLine(from,to){const[first,last]=[this.rank[from]+ 1,this.rank[to]];const bends=this.bends[to];if(first<last&&!bends[first]&&this.bendsLeft>last - first){let rank=first;for(;rank<last&&!bends[rank];rank++){bends[rank]=this.addPoint(rank,BEND_WIDTH,-1);this.bendsLeft--;if(rank>first)this.join(bends[rank - 1],bends[rank])}
this.join(bends[rank - 1],rank<last?bends[rank]:this.points[to])}
this.join(this.points[from],(first<last&&bends[first])||this.points[to])}
join(upper,lower){upper.down.push(lower);lower.up.push(upper)}
through(from,to){const bends=this.bends[to].slice(this.rank[from]+ 1,this.rank[to]).filter(Boolean);return[this.points[from],...bends,this.points[to]]}
arrange(){this.searchInDepth();const backward=[...this.rows].reverse();const sweeps=this.lines>VERY_MANY_LINES?2:this.lines>MANY_LINES?6:20;let fewest=this.crossings();let best=this.points.map((point)=>point.order);for(let sweep=0;sweep<sweeps&&fewest;sweep++){if(sweep % 2)this.sweep("down",backward);else this.sweep("up",this.rows);const crossings=this.crossings();if(crossings>=fewest)continue;fewest=crossings;best=this.points.map((point)=>point.order)}
this.points.forEach((point,index)=>(point.order=best[index]));this.rows.forEach(sortRow)}
searchInDepth(){const met=new Set();const ahead=this.points.filter((point)=>!point.isBend&&!this.incoming[point.node].length).reverse();while(ahead.length){const point=ahead.pop();if(met.has(point))continue;point.order=met.size;met.add(point);for(let index=point.down.length - 1;index>=0;index--)ahead.push(point.down[index])}
this.rows.forEach(sortRow)}
sweep(side,rows){const meanOrder=(point)=>point[side].length?point[side].reduce((sum,other)=>sum + other.order,0)/ point[side].length:point.order;for(const row of rows){for(const point of row)point.wanted=meanOrder(point);row.sort((one,other)=>one.wanted - other.wanted||one.order - other.order);row.forEach((point,order)=>(point.order=order))}}
crossings(){return this.rows.reduce((sum,row)=>sum + rowCrossings(row),0)}
placeAll(){for(const point of this.points)point.weight=point.isBend?6:point.up.length + point.down.length?1:0.01;for(const row of this.rows)placeRow(row,this.gap,()=>0);const backward=[...this.rows].reverse();const rounds=this.lines>VERY_MANY_LINES?5:14;for(let round=0;round<rounds;round++){this.middle=this.points.reduce((sum,point)=>sum + point.center,0)/ this.points.length;const isLast=round>rounds - 3;const sides=isLast?["up","down"]:round % 2?["down"]:["up"];const rows=!isLast&&round % 2?backward:this.rows;for(const row of rows)placeRow(row,this.gap,(point)=>this.wantedCenter(point,sides))}}
wantedCenter(point,sides){let[sum,weights]=[0,0];for(const other of sides.flatMap((side)=>point[side])){const weight=point.isBend&&other.isBend?8:other.isBend?1:2;sum +=weight * other.center;weights +=weight}
if(weights)return sum / weights;return point.up.length + point.down.length?point.center:this.middle}
measure(room){const least=this.points.reduce((low,point)=>Math.min(low,point.center - point.width / 2),Infinity);const depths=this.rows.map((row)=>Math.max(0,...row.map((point)=>(point.isBend?0:this.nodes[point.node].along))));const starts=[];this.along=depths.reduce((sum,depth,rank)=>(starts[rank]=sum)+ depth + room,0);for(const point of this.points){point.center -=least;point.start=starts[point.rank];point.end=point.start +(point.isBend?depths[point.rank]:this.nodes[point.node].along)}
this.across=this.points.reduce((high,point)=>Math.max(high,point.center + point.width / 2),0)}}
function sortRow(row){row.sort((one,other)=>one.order - other.order);row.forEach((point,order)=>(point.order=order))}
function rowCrossings(row){const size=1 + row.reduce((most,point)=>point.down.reduce((high,lower)=>Math.max(high,lower.order + 1),most),0);const sums=new Array(size + 1).fill(0);let[seen,crossings]=[0,0];for(const point of row){const ends=point.down.map((lower)=>lower.order + 1);for(const end of ends)crossings +=seen - sumUpTo(sums,end);for(const end of ends)for(let place=end;place<=size;place +=place&-place)sums[place]++;seen +=ends.length}
return crossings}
function sumUpTo(sums,end){let sum=0;for(let place=end;place>0;place -=place&-place)sum +=sums[place];return sum}
function placeRow(row,gap,wanted){const blocks=[];let offset=0;row.forEach((point,index)=>{if(index)offset +=(row[index - 1].width + point.width)/ 2 + gap *(point.isBend||row[index - 1].isBend?0.6:1);point.offset=offset;let block={weight:point.weight,sum:point.weight *(wanted(point)- offset),size:1};while(blocks.length&&blocks.at(-1).sum / blocks.at(-1).weight>=block.sum / block.weight){const{weight,sum,size}=blocks.pop();block={weight:block.weight + weight,sum:block.sum + sum,size:block.size + size}}
blocks.push(block)});const places=blocks.flatMap(({sum,weight,size})=>new Array(size).fill(sum / weight));row.forEach((point,index)=>(point.center=places[index]+ point.offset))}
const SVG="http://www.w3.org/2000/svg";const byId=(id)=>document.getElementById(id);function filled(element,attributes,children){for(const[name,value]of Object.entries(attributes||{})){if(name.startsWith("on"))element.addEventListener(name.slice(2),value);else if(value !==undefined&&value !==false)element.setAttribute(name,value===true?"":value)}
const isShown=(child)=>child !==undefined&&child !==null&&child !==false&&child !=="";element.append(...children.flat(Infinity).filter(isShown));return element}
const html=(tag,attributes,...children)=>filled(document.createElement(tag),attributes,children);const svg=(tag,attributes,...children)=>filled(document.createElementNS(SVG,tag),attributes,children);const HIDDEN=/[\u0000-\u0009\u000b-\u001f\u007f-\u009f\u061c\u200b-\u200f\u2028-\u202e\u2060-\u206f\ufeff]/g;const escapedLetter=(letter)=>`\\u${letter.charCodeAt(0).toString(16).padStart(4, "0")}`;const shown=(text)=>String(text).replace(/\r\n/g,"\n").replace(HIDDEN,escapedLetter);const CIRCLE="M6 1A5 5 0 1 0 6 11 5 5 0 1 0 6 1";const[CHECK,CROSS]=["M2 6.5 5 9.5 10.5 2.5","M2.5 2.5 9.5 9.5M9.5 2.5 2.5 9.5"];const SIGNS={ran:CHECK,faulted:CROSS,canceled:`${CIRCLE}M2.5 2.5 9.5 9.5`,running:"M3 1.5 10 6 3 10.5Z",ready:`${CIRCLE}M6 3V6H8.5`,waits:"M3 1.5V10.5M9 1.5V10.5",created:"M2 6H3M5.5 6H6.5M9 6H10",holds:CHECK,kept:CHECK,fails:CROSS,unknown:"M3.5 4A2.6 2.6 0 1 1 7 6.2C6.2 6.6 6 7 6 8M6 10V10.6",empty:`${CIRCLE}M3.5 6H8.5`,release:"M2 6H9M6 3 9 6 6 9",settle:"M6 1 11 6 6 11 1 6Z",close:"M2 2H10V10H2Z",request:"M3 11V1.5L10 4 3 6.5",drop:`${CIRCLE}M2.5 2.5 9.5 9.5`,root:"M3 1.5 10 6 3 10.5Z",then:"M2 6H9M6 3 9 6 6 9",child:"M2 2H10V10H2Z",all:"M6 1 11 6 6 11 1 6Z",any:"M6 1 11 6 6 11 1 6Z",first:"M2.5 1.5V10.5M10 1.5 4.5 6 10 10.5Z",last:"M9.5 1.5V10.5M2 1.5 7.5 6 2 10.5Z",previous:"M9 1.5 3.5 6 9 10.5Z",next:"M3 1.5 8.5 6 3 10.5Z"};const sign=(name,x=0,y=0,size=12)=>svg("path",{d:SIGNS[name],class:`sign ${name}`,transform:`translate(${x} ${y}) scale(${size / 12})`});const icon=(name)=>svg("svg",{viewBox:"0 0 12 12",class:`icon ${name}`,"aria-hidden":"true"},sign(name));function partElement(part){if(typeof part==="string")return part;if(part.task !==undefined)return taskButton(part.task);if(part.token !==undefined)return html("span",{class:"token"},part.token);return html("span",{class:`status ${STATUS_CLASSES[part.status]}`},STATUS_WORDS[part.status])}
const sentenceElements=(sentence)=>sentence.map(partElement);function taskButton(id){const hint=(isOn)=>()=>hintTask(id,isOn);const acts={onclick:()=>chooseTask(id),onmouseenter:hint(true),onmouseleave:hint(false)};return html("button",{class:"task",type:"button",...acts},tasks[id].name)}
const withTasks=(text)=>text.split(/([A-Za-z_][A-Za-z0-9_]*)/).map((word,place)=>(place % 2&&idOf.has(word)?taskButton(idOf.get(word)):word));const FONT="system-ui, sans-serif";const NAME_FONT=`600 13px ${FONT}`;const LINE_FONT=`11px ${FONT}`;const pen=document.createElement("canvas").getContext("2d");function widthOf(text,font){pen.font=font;return pen.measureText(text).width}
function clipped(text,room,font){if(widthOf(text,font)<=room)return text;let length=text.length;while(length&&widthOf(`${text.slice(0, length)}…`,font)>room)length--;return `${text.slice(0, length)}…`}
const FOLDED_FROM=25;const now={claim:0,step:0,shown:tasks.length<FOLDED_FROM?"all":"grouped",task:-1,group:null,verdict:"",search:""};const SHOWN=["all","grouped","claim"];const claimOf=(number)=>claims[number - 1]||null;const verdictOf=(number)=>verdicts[number - 1]||null;const chosenSubject=()=>(claimOf(now.claim)?subjectOf(claimOf(now.claim)):NO_SUBJECT);const runs=new Map();function runOf(number){if(audit)return recordedRun;if(!runs.has(number)){const run=verdictOf(number)?.run;runs.set(number,run?new Run(run):null)}
return runs.get(number)}
const chosenRun=()=>runOf(now.claim);const chosenCauses=()=>verdictOf(now.claim)?.causes||[];const causingEvents=()=>chosenCauses().map(({event})=>event);function chooseClaim(number){Object.assign(now,{claim:number,task:-1,group:null});graph.opened.clear();now.step=endOf(number);showAll()}
function chooseTask(id){now.group=null;now.task=now.task===id?-1:id;showAll();if(now.task<0)return;revealTask(id);byId("side").scrollTop=0}
function chooseGroup(id){const isChosen=now.task===id&&now.group;now.task=isChosen?-1:id;now.group=isChosen?null:graph.groups.get(id);showAll();if(!isChosen)byId("side").scrollTop=0}
function openTasks(members){for(const member of members)graph.opened.add(member);Object.assign(now,{task:-1,group:null});showAll();revealTask(members[0])}
function chooseShown(word){now.shown=word;showAll()}
function goTo(step){const run=chosenRun();if(!run)return;now.step=Math.max(0,Math.min(run.events.length,step));paintGraph();showStep();markEvents();const event=run.events[now.step - 1];if(event?.task !==undefined)revealTask(event.task);if(now.task>=0)showTask();remember()}
function goToCause(way){const causes=causingEvents();const next=way>0?causes.find((cause)=>cause>now.step):causes.findLast((cause)=>cause<now.step);goTo(next??now.step + way)}
function showAll(){showClaims();showLanes();buildGraph();showDetails();paintGraph();showStep();markEvents();remember()}
function remember(){const step=chosenRun()?`&step=${now.step}`:"";history.replaceState(null,"",`#claim=${now.claim}${step}`)}
const BOX={height:42,narrowest:112,widest:260,widestGroup:300};const graph={boxes:new Map(),groups:new Map(),standsFor:new Map(),opened:new Set(),key:"",zoom:1,x:0,y:0};function keptTasks(){const{about,ended}=chosenSubject();const run=chosenRun();const causing=causingEvents().map((number)=>run.events[number - 1].task);return new Set([...about,...ended,...graph.opened,...causing.filter((id)=>id !==undefined)])}
function buildGraph(){const kept=keptTasks();const{about,ended,quiet}=chosenSubject();const inCone=now.shown==="claim"&&now.claim?cone([...about,...ended],quiet):null;const ids=[...tasks.keys()].filter((id)=>!inCone||inCone.has(id));const{standsFor,groups}=now.shown==="all"?{standsFor:new Map(ids.map((id)=>[id,id])),groups:new Map()}:groupsOf(ids,kept);const nodes=ids.filter((id)=>standsFor.get(id)===id);const key=`${now.shown}|${nodes.join()}`;byId("count").textContent=isMost(nodes.length,tasks.length);byId("refold").hidden=!graph.opened.size;if(graph.key===key)return;Object.assign(graph,{key,standsFor,groups});drawGraph(nodes);graph.focus=[...kept].map((id)=>standsFor.get(id)).filter((id)=>graph.boxes.has(id));fitView();if(graph.zoom<0.5&&graph.focus.length)fitView(graph.focus)}
function shownLinks(){const links=new Map();for(const edge of edges){const[from,to]=[graph.standsFor.get(edge.from),graph.standsFor.get(edge.to)];if(from===undefined||to===undefined||from===to)continue;const key=`${from} ${to}`;if(!links.has(key))links.set(key,{from,to,kind:edge.kind,words:graph.groups.has(to)?"":edgeWords(edge)})}
return[...links.values()]}
function inOrder(nodes,links){const waitsFor=new Map(nodes.map((id)=>[id,0]));const next=new Map(nodes.map((id)=>[id,[]]));for(const{from,to}of links){waitsFor.set(to,waitsFor.get(to)+ 1);next.get(from).push(to)}
const order=nodes.filter((id)=>!waitsFor.get(id));for(let place=0;place<order.length;place++){for(const to of next.get(order[place])){waitsFor.set(to,waitsFor.get(to)- 1);if(!waitsFor.get(to))order.push(to)}}
return order}
function boxOf(id){const group=graph.groups.get(id);const last=group&&tasks[group.parts.at(-1)[0]].name;const name=group?WORDS.groupName(tasks[id].name,last):tasks[id].name;const line=group?WORDS.groupLine(group.parts.length,group.members.length):lineWords(id);const full=Math.max(widthOf(name,NAME_FONT)+ 34,widthOf(line,LINE_FONT)+ 36);const widest=group?BOX.widestGroup:BOX.widest;return{id,group,name,line,width:Math.round(Math.min(widest,Math.max(BOX.narrowest,full))),height:BOX.height}}
function bestLayers(boxes,links){const{width,height}=byId("canvas").getBoundingClientRect();const labels=links.map(({words})=>(words?widthOf(words,LINE_FONT)+ 14:0));const pairs=links.map(({from,to})=>[from,to]);const room=56 + 0.55 * labels.reduce((one,other)=>Math.max(one,other),0);const rightward=new Layers(boxes.map((box)=>({across:box.height,along:box.width})),pairs,14,room);const downward=new Layers(boxes.map((box)=>({across:box.width,along:box.height})),pairs,22,50);const scale=(wide,high)=>Math.min(width / wide,height / high,1.1);const isVertical=scale(downward.across,downward.along)>1.15 * scale(rightward.along,rightward.across);return{layers:isVertical?downward:rightward,isVertical}}
function drawGraph(nodes){const links=shownLinks();const boxes=inOrder(nodes,links).map(boxOf);const placeOf=new Map(boxes.map((box,place)=>[box.id,place]));const placed=links.map((link)=>({...link,from:placeOf.get(link.from),to:placeOf.get(link.to)}));const{layers,isVertical}=bestLayers(boxes,placed);const pencil=new Pencil(layers,isVertical);graph.width=isVertical?layers.across:layers.along - 50;graph.height=isVertical?layers.along - 40:layers.across;graph.pathBetween=(from,to)=>pencil.path(placeOf.get(graph.standsFor.get(from)),placeOf.get(graph.standsFor.get(to)));graph.trail=svg("g",{class:"trail"});const drawn=boxes.map((box,place)=>drawBox(box,pencil.corner(place,box)));graph.boxes=new Map(drawn.map((box)=>[box.id,box]));drawn[0]?.element.setAttribute("tabindex",0);const labels=svg("g",{class:"labels"},placed.filter(({words})=>words).map((link)=>pencil.label(link)));const elements=svg("g",{class:"nodes"},drawn.map(({element})=>element));byId("world").replaceChildren(svg("g",{class:"edges"},pencil.lines(placed)),graph.trail,labels,elements)}
class Pencil{constructor(layers,isVertical){this.layers=layers;this.isVertical=isVertical}
at(along,across){return this.isVertical?[across,along]:[along,across]}
corner(place,{width,height}){const{start,center}=this.layers.points[place];return this.isVertical?[center - width / 2,start]:[start,center - height / 2]}
curve(upper,lower){const[[fromX,fromY],[toX,toY]]=[this.at(upper.end,upper.center),this.at(lower.start,lower.center)];const[middleX,middleY]=[(fromX + toX)/ 2,(fromY + toY)/ 2];const bends=this.isVertical?`${fromX} ${middleY} ${toX} ${middleY}`:`${middleX} ${fromY} ${middleX} ${toY}`;const onward=lower.isBend?`L${this.at(lower.end, lower.center).join(" ")}`:"";return `M${fromX} ${fromY}C${bends} ${toX} ${toY}${onward}`}
path(from,to){if(from===undefined||to===undefined||from===to)return "";const points=this.layers.through(from,to);return points.slice(1).map((point,place)=>this.curve(points[place],point)).join("")}
lines(links){const own=new Map(links.filter(({kind})=>kind !=="argument").map((link)=>[`${link.from} ${link.to}`,link]));const[paths,shared]=[[],[]];for(const point of this.layers.points){for(const lower of point.down){const link=own.get(`${point.node} ${lower.node}`);const path=this.curve(point,lower);if(link)paths.push(svg("path",{d:path,class:`edge ${link.kind} ${link.words.replace(" ", "-")}`}));else shared.push(path)}}
const heads=[...new Set(links.map(({to})=>to))].map((place)=>this.head(place));return[...paths,svg("path",{d:shared.join(""),class:"edge argument"}),heads]}
head(place){const{start,center}=this.layers.points[place];const[x,y]=this.at(start,center);const down=`M${x - 4} ${y - 7}L${x} ${y} ${x + 4} ${y - 7}Z`;const right=`M${x - 7} ${y - 4}L${x} ${y} ${x - 7} ${y + 4}Z`;return svg("path",{class:"head",d:this.isVertical?down:right})}
label({to,words}){const{start,center}=this.layers.points[to];const[x,y]=this.at(start,center);const beside={x:x + 7,y:y - 9,"text-anchor":"start"};const above={x:x - 10,y:y - 6,"text-anchor":"end"};return svg("text",{class:`label ${words.replace(" ", "-")}`,...(this.isVertical?beside:above)},words)}}
function outline(kind,width,height){const middle=height / 2;if(kind==="all")return `M10 0H${width - 10}L${width} ${middle} ${width - 10} ${height}H10L0 ${middle}Z`;if(kind==="any"){const right=`H${width - 14}Q${width} 0 ${width} ${middle}T${width - 14} ${height}`;return `M14 0${right}H14Q0 ${height} 0 ${middle}T14 0Z`}
const round=kind==="root"?2:9;const top=`M${round} 0H${width - round}Q${width} 0 ${width} ${round}V${height - round}`;return `${top}Q${width} ${height} ${width - round} ${height}H${round}Q0 ${height} 0 ${height - round}V${round}Q0 0 ${round} 0Z`}
const MOST_TITLED=12;function boxTitle({id,group}){if(!group)return `${tasks[id].name}: ${kindWords(id)}`;const names=group.members.slice(0,MOST_TITLED).map((member)=>tasks[member].name);return WORDS.groupTitle(names,group.members.length - names.length)}
function drawBox(box,[x,y]){const{id,group,name,width,height}=box;const{kind}=tasks[id];const card=(more)=>svg("path",{class:"card",d:outline(kind,width,height),...more});const under=[6,3].map((by)=>group&&card({class:"card under",transform:`translate(${by} ${by})`}));const halo=svg("path",{class:"halo",d:outline(kind,width + 10,height + 10),transform:"translate(-5 -5)"});const mark=svg("g",{class:"mark"});const line=svg("text",{class:"line",x:24,y:33},box.line);const nameText=svg("text",{class:"name",x:24,y:18},clipped(name,width - 30,NAME_FONT));const act=()=>(group?chooseGroup(id):chooseTask(id));const acts={role:"button",tabindex:-1,onclick:act,onkeydown:(event)=>pressBox(event,id,act)};const inside=[under,halo,card(),mark,nameText,line,svg("title",{},boxTitle(box))];const element=svg("g",{transform:`translate(${x} ${y})`,...acts},inside);return{...box,x,y,element,mark,lineText:line}}
function pressBox(event,id,act){const along={ArrowRight:edgesFrom[id].map((edge)=>edge.to),ArrowLeft:edgesTo[id].map((edge)=>edge.from)}[event.key];if(event.key==="Enter"||event.key===" "){event.preventDefault();act()}else if(event.altKey&&along){event.preventDefault();event.stopPropagation();const next=along.map((other)=>graph.standsFor.get(other)).find((other)=>graph.boxes.has(other)&&other !==id);if(next !==undefined)focusBox(next,id)}}
function focusBox(next,before){graph.boxes.get(before).element.setAttribute("tabindex",-1);const{element}=graph.boxes.get(next);element.setAttribute("tabindex",0);element.focus();revealTask(next)}
const ZOOM={least:0.04,most:3,readable:0.6,far:0.5,fit:1.15};function applyView(){byId("world").setAttribute("transform",`translate(${graph.x} ${graph.y}) scale(${graph.zoom})`);byId("canvas").classList.toggle("far",graph.zoom<ZOOM.far)}
function fitView(ids=[]){const view=byId("canvas").getBoundingClientRect();if(!view.width||!graph.boxes.size)return;const top=tokens.length?byId("tokens").offsetHeight + 10:0;const boxes=ids.map((id)=>graph.boxes.get(id));const whole={left:0,top:0,right:graph.width,bottom:graph.height};const part=boxes.length?boundsOf(boxes):whole;const[width,height]=[part.right - part.left,part.bottom - part.top];const fitting=Math.min((view.width - 40)/ width,(view.height - 66 - top)/ height,ZOOM.fit);graph.zoom=Math.max(boxes.length?ZOOM.readable:0.05,fitting);const y=(view.height - 26 + top - height * graph.zoom)/ 2;graph.x=(view.width - width * graph.zoom)/ 2 - part.left * graph.zoom;graph.y=(boxes.length?y:Math.max(14 + top,y))- part.top * graph.zoom;applyView()}
function boundsOf(boxes){const least=(of)=>Math.min(...boxes.map(of));const most=(of)=>Math.max(...boxes.map(of));const[left,top]=[least((box)=>box.x),least((box)=>box.y)];return{left,top,right:most((box)=>box.x + box.width),bottom:most((box)=>box.y + box.height)}}
function zoomBy(factor,x,y){const view=byId("canvas").getBoundingClientRect();const[atX,atY]=[x??view.width / 2,y??view.height / 2];const zoom=Math.min(ZOOM.most,Math.max(ZOOM.least,graph.zoom * factor));graph.x=atX -((atX - graph.x)* zoom)/ graph.zoom;graph.y=atY -((atY - graph.y)* zoom)/ graph.zoom;graph.zoom=zoom;applyView()}
function revealTask(id){const box=graph.boxes.get(graph.standsFor.get(id));if(!box)return;const view=byId("canvas").getBoundingClientRect();const[x,y]=[box.x * graph.zoom + graph.x,box.y * graph.zoom + graph.y];const[right,bottom]=[x + box.width * graph.zoom,y + box.height * graph.zoom];if(x>=8&&y>=8&&right<=view.width - 8&&bottom<=view.height - 8)return;graph.x=view.width / 2 -(box.x + box.width / 2)* graph.zoom;graph.y=view.height / 2 -(box.y + box.height / 2)* graph.zoom;applyView()}
function hintTask(id,isOn){graph.boxes.get(graph.standsFor.get(id))?.element.classList.toggle("hint",isOn)}
function followPointer(){const canvas=byId("canvas");let drag=null;let hasMoved=false;const onWheel=(event)=>{event.preventDefault();const view=canvas.getBoundingClientRect();zoomBy(Math.exp(-event.deltaY * 0.0015),event.clientX - view.left,event.clientY - view.top)};canvas.addEventListener("wheel",onWheel,{passive:false});canvas.addEventListener("pointerdown",({button,clientX,clientY})=>{hasMoved=false;if(button===0)drag={x:clientX - graph.x,y:clientY - graph.y,fromX:clientX,fromY:clientY}});addEventListener("pointermove",({clientX,clientY})=>{if(!drag)return;hasMoved||=Math.abs(clientX - drag.fromX)+ Math.abs(clientY - drag.fromY)>4;if(!hasMoved)return;[graph.x,graph.y]=[clientX - drag.x,clientY - drag.y];applyView()});addEventListener("pointerup",()=>(drag=null));canvas.addEventListener("click",(event)=>hasMoved&&event.stopPropagation(),{capture:true})}
const WORST_FIRST=[FAULTED,CANCELED,RUNNING,WITH_CHILDREN,READY,RAN,WAITING,CREATED];function paintGraph(){const run=chosenRun();const subject=chosenSubject();const event=run?.events[now.step - 1];const causes=chosenCauses().filter(({event})=>event<=now.step);const causing=new Set(causes.map(({event})=>run.events[event - 1].task));const statuses=run?.statusAt(now.step);for(const box of graph.boxes.values())paintBox(box,statuses,{subject,event,causing});paintTrail(run,causes);paintTokens(run,subject.quiet)}
function looksOf({id,group,line},statuses){if(!statuses)return{look:"none",mark:tasks[id].kind,words:line};const counts=new Map();for(const member of group?group.members:[id])counts.set(statuses[member],(counts.get(statuses[member])||0)+ 1);const found=WORST_FIRST.filter((status)=>counts.has(status));const look=STATUS_CLASSES[found[0]];const sums=found.map((status)=>`${counts.get(status)} ${STATUS_WORDS[status]}`).join(", ");return{look,mark:look,words:group?sums:STATUS_WORDS[found[0]]}}
function paintBox(box,statuses,{subject,event,causing}){const members=box.group?box.group.members:[box.id];const has=(id)=>members.includes(id);const{look,mark,words}=looksOf(box,statuses);const isSubject=subject.about.some(has);const classes={group:box.group,subject:isSubject,given:!isSubject&&subject.ended.some(has),current:has(event?.task),chosen:has(now.task),cause:members.some((member)=>causing.has(member))};const on=Object.keys(classes).filter((name)=>classes[name]);box.element.setAttribute("class",["node",tasks[box.id].kind,look,...on].join(" "));box.mark.replaceChildren(sign(mark,8,15,statuses?12:11));box.lineText.textContent=clipped(words,box.width - 28,LINE_FONT);const label=`${box.group ? WORDS.group : ""}${tasks[box.id].name}, ${words}${isSubject ? WORDS.isSubject : ""}`;box.element.setAttribute("aria-label",label)}
function paintTrail(run,causes){const paths=causes.map(({event,led_to})=>{const[from,to]=[event,led_to].map((number)=>run.events[number - 1].task);if(from===undefined||to===undefined||from===to||led_to>now.step)return "";if(edgesTo[to].some((edge)=>edge.from===from))return graph.pathBetween(from,to);return edgesFrom[to].some((edge)=>edge.to===from)?graph.pathBetween(to,from):""});graph.trail.replaceChildren(...paths.filter(Boolean).map((path)=>svg("path",{d:path})))}
function paintTokens(run,quiet){const requested=run?.requestedAt(now.step)??new Set();const shownToken=({name,linked})=>{const isRequested=requested.has(name);const from=linked?.length?WORDS.linked(linked):"";const stands=isRequested?WORDS.requested:quiet.has(name)?WORDS.neverRequested:"";return html("span",{class:isRequested?"token asked":"token"},icon("request"),` ${name}${from}${stands}`)};byId("tokens").replaceChildren(...tokens.map(shownToken))}
const LANE={head:78,bar:24,sign:22,least:7,most:64,named:50,tick:80,margin:10};const INSTANTS=["release","drop","settle","close","request"];const lanes={unit:0,zoom:1,isByTime:Boolean(times)};const MOST_ZOOM={events:8,times:4000};function compareActors(one,other){if(one[0]!==other[0])return one[0]<other[0]?1:-1;return one.slice(1)- other.slice(1)}
function unitFor(count){const least=count>400?LANE.least:count>60?12:20;const room=byId("lanes").clientWidth - LANE.head - 70;return Math.max(least,Math.min(LANE.most,room /(count + 1)))* lanes.zoom}
function spanOf(from,to=from){if(!lanes.isByTime)return{left:(from - 0.5)* lanes.unit,width:(to - from + 1)* lanes.unit};const at=(number)=>LANE.margin +(times[number - 1]- times[0])* lanes.scale;return{left:at(from),width:at(to)- at(from)}}
const endAt=(count)=>(count?spanOf(count).left + spanOf(count).width:spanOf(1).left||0);const wholeTime=(count)=>Math.max(1,times[count - 1]- times[0]);function showLanes(){const run=chosenRun();byId("run").hidden=!run;document.body.classList.toggle("running",Boolean(run));if(!run)return byId("lanes").replaceChildren();const count=run.events.length;lanes.unit=unitFor(count);lanes.isByTime&&=count>0;if(lanes.isByTime)lanes.scale=((byId("lanes").clientWidth - LANE.head - 100)/ wholeTime(count))* lanes.zoom;const causes=new Set(causingEvents());const actors=[...new Set(run.events.map((event)=>event.actor))].sort(compareActors);const rows=actors.map((actor)=>laneRow(run,actor,causes));const fails=failsAt(run)===undefined?"":failElement(failsAt(run));const cursor=html("div",{class:"cursor",id:"cursor"});const ticks=lanes.isByTime?timeAxisOf(count):axisOf(count);const axis=html("div",{class:"row"},html("div",{class:"who"},lanes.isByTime?WORDS.time:WORDS.event),ticks);const inner=html("div",{class:"inner"},axis,rows,cursor,fails);inner.style.width=`${LANE.head + endAt(count) + lanes.unit / 2 + 64}px`;byId("lanes").replaceChildren(inner);byId("slider").max=count}
function axisOf(count){const every=lanes.unit<26?5 * Math.ceil(26 / lanes.unit):1;const axis=html("div",{class:"axis"});for(let number=1;number<=count;number++){if(number % every&&number !==count)continue;const label=html("span",{},number);label.style.left=`${spanOf(number).left}px`;label.style.width=`${lanes.unit}px`;axis.append(label)}
return axis}
function timeAxisOf(count){const axis=html("div",{class:"axis times"});const least=Math.max(1,LANE.tick / lanes.scale);const power=10 ** Math.floor(Math.log10(least));const every=[1,2,5,10].map((factor)=>factor * power).find((step)=>step>=least);for(let time=0;time<=wholeTime(count);time +=every){const label=html("span",{},timeWords(time));label.style.left=`${LANE.margin + time * lanes.scale}px`;axis.append(label)}
return axis}
function failElement(count){const element=html("div",{class:"fail"},html("span",{},WORDS.fails));element.style.left=`${LANE.head + endAt(count)}px`;return element}
function barsOf(run,actor){const[bars,open,taken,dots]=[[],new Map(),[],[]];for(const event of run.events.filter((event)=>event.actor===actor)){const bar=open.get(event.task);if(event.act==="begin"){const free=taken.indexOf(false);const row=free<0?taken.length:free;taken[row]=true;bars.push({task:event.task,row,from:event.number,to:run.events.length,isOpen:true});open.set(event.task,bars.at(-1))}else if(event.act==="leave"){Object.assign(bar,{to:event.number,isOpen:false});taken[bar.row]=false}else if(event.act==="step"||event.act==="worked")dots.push({event,row:bar.row})}
return{bars,dots,rows:taken.length}}
function laneRow(run,actor,causes){const{bars,dots,rows}=barsOf(run,actor);const instants=run.events.filter((event)=>event.actor===actor&&INSTANTS.includes(event.act));const bodies=[bars.map((bar)=>barElement(run,bar,causes)),dots.map(dotElement)];const lane=html("div",{class:"lane"},bodies,instants.map((event)=>instantElement(event,rows,causes)));lane.style.height=`${rows * LANE.bar + (instants.length ? LANE.sign : 0) + 6}px`;return html("div",{class:"row"},html("div",{class:"who"},WORDS.lane(actor)),lane)}
function barLook(run,{task,to,isOpen}){const change=!isOpen&&run.events[to - 1].changes.find(([id])=>id===task);return change?STATUS_CLASSES[change[1]]:"running"}
function barElement(run,bar,causes){const{task,row,from,to}=bar;const events=run.events.slice(from - 1,to);const isCause=events.some((event)=>event.task===task&&causes.has(event.number));const classes=["bar",barLook(run,bar),isCause?"cause":""].join(" ");const title=WORDS.bar(tasks[task].name,from,bar.isOpen?"…":to);const element=html("button",{class:classes,title,...laneActs(from,task)},html("span",{},tasks[task].name));const{left,width}=spanOf(from,to);element.style.left=`${left}px`;element.style.width=`${Math.max(4, width - 2)}px`;element.style.top=`${3 + row * LANE.bar}px`;return element}
const laneActs=(number,task)=>({type:"button",tabindex:-1,onclick:()=>goTo(number),onmouseenter:()=>task !==undefined&&hintTask(task,true),onmouseleave:()=>task !==undefined&&hintTask(task,false)});function dotElement({event,row}){const dot=html("span",{class:event.isBad?"dot bad":"dot",title:`${event.number}: ${flat(event.sentence)}`});const{left,width}=spanOf(event.number);dot.style.left=`${left + width / 2 - 3}px`;dot.style.top=`${18 + row * LANE.bar}px`;return dot}
function instantElement(event,rows,causes){const[change]=event.changes;const look=event.act==="drop"?"canceled":change&&hasEnded(change[1])?STATUS_CLASSES[change[1]]:"";const classes=["instant",event.act,look,causes.has(event.number)?"cause":""].join(" ");const title=`${event.number}: ${flat(event.sentence)}`;const name=!lanes.isByTime&&lanes.unit>LANE.named?html("span",{},event.token||tasks[event.task].name):"";const element=html("button",{class:classes,title,...laneActs(event.number,event.task)},icon(event.act),name);const span=spanOf(event.number);const width=Math.max(11,span.width - 2);element.style.left=`${span.left + (span.width - width) / 2}px`;element.style.width=`${width}px`;element.style.top=`${4 + rows * LANE.bar}px`;return element}
function zoomLanes(factor){lanes.zoom=Math.min(lanes.isByTime?MOST_ZOOM.times:MOST_ZOOM.events,Math.max(1,lanes.zoom * factor));showLanes();showStep()}
function turnClock(){lanes.isByTime=!lanes.isByTime;lanes.zoom=1;byId("clock").setAttribute("aria-pressed",String(lanes.isByTime));showLanes();showStep()}
function showStep(){const run=chosenRun();if(!run)return;const[step,count]=[now.step,run.events.length];const event=run.events[step - 1];const isEnd=step===failsAt(run);const says=event?WORDS.step(step,count,flat(event.sentence)):WORDS.beforeFirst(count);moveCursor(step);byId("slider").value=step;byId("slider").setAttribute("aria-valuetext",says);byId("live").textContent=isEnd?`${says}. ${WORDS.failsHere}`:says;const when=event&&times?WORDS.at(timeWords(times[step - 1])):"";const told=event&&[html("span",{class:"actor"},event.actor)," ",sentenceElements(event.sentence),when];const end=isEnd?[". ",html("strong",{class:"here"},WORDS.failsHere)]:"";byId("says").replaceChildren(html("span",{},html("b",{},`${step} / ${count}`)," ",told??WORDS.beforeFirst(count),end))}
function moveCursor(step){const[host,cursor]=[byId("lanes"),byId("cursor")];cursor.hidden=!step;if(!step)return;const span=spanOf(step);const[left,width]=[LANE.head + span.left,Math.max(3,span.width)];cursor.style.left=`${left}px`;cursor.style.width=`${width}px`;const isInView=left>=host.scrollLeft + LANE.head +(lanes.isByTime?0:12)&&left + width<=host.scrollLeft + host.clientWidth - 70;if(!isInView)host.scrollLeft=left - host.clientWidth / 2}
const entries=[];function listClaims(){const worst=(verdict)=>VERDICTS.indexOf(verdict.verdict);const ordered=[...verdicts].sort((one,other)=>worst(one)- worst(other)||one.claim - other.claim);for(const verdict of ordered)entries.push(claimEntry(verdict));byId("claims").append(...entries.map(({element})=>element));const counted=VERDICTS.filter((word)=>sums[word]!==undefined);byId("sums").append(...counted.map(sumButton));const meter=counted.filter((word)=>sums[word]).map(meterPart);byId("meter").append(...meter);byId("meter").setAttribute("aria-label",counted.map((word)=>`${sums[word]} ${word}`).join(", "))}
function claimEntry({claim,name,text,verdict}){const said=[name !==undefined&&html("b",{dir:"auto"},shown(name)),html("span",{class:"words"},text)];const attributes={role:"option",id:`claim-${claim}`,class:verdict,"aria-selected":"false"};const inside=[icon(verdict),html("span",{class:"number"},claim),html("div",{},said)];const element=html("li",{...attributes,onclick:()=>chooseClaim(claim)},inside);return{number:claim,verdict,element,searched:`${claim} ${name || ""} ${text} ${verdict}`.toLowerCase()}}
function sumButton(word){const sum=sums[word];const press=()=>{now.verdict=now.verdict===word?"":word;sift()};const attributes={type:"button",class:`sum ${word}`,"data-verdict":word,"aria-pressed":"false",disabled:!sum};return html("button",{...attributes,onclick:press},icon(word),html("b",{},sum),` ${word}`)}
function meterPart(word){const part=html("span",{class:word});part.style.flexGrow=sums[word];return part}
function sift(){const words=now.search.toLowerCase().split(/\s+/).filter(Boolean);const fits=(entry)=>(!now.verdict||entry.verdict===now.verdict)&&words.every((word)=>entry.searched.includes(word));for(const entry of entries)entry.element.hidden=!fits(entry);for(const button of document.querySelectorAll("[data-verdict]")){button.setAttribute("aria-pressed",String(button.dataset.verdict===now.verdict))}
const isSifted=now.verdict||words.length;byId("found").textContent=isSifted?WORDS.found(listed().length):""}
const listed=()=>entries.filter(({element})=>!element.hidden);function chooseNeighbour(by){const list=listed();const place=list.findIndex(({number})=>number===now.claim)+ by;const entry=list[Math.max(0,Math.min(list.length - 1,place))];if(entry)chooseClaim(entry.number)}
function showClaims(){for(const{number,element}of entries){const isChosen=number===now.claim;if(isChosen)byId("claims").setAttribute("aria-activedescendant",element.id);if(isChosen)element.scrollIntoView({block:"nearest"});if(element.getAttribute("aria-selected")!==String(isChosen))element.setAttribute("aria-selected",String(isChosen))}
for(const button of document.querySelectorAll("[data-shown]")){button.setAttribute("aria-pressed",String(button.dataset.shown===now.shown));button.disabled=button.dataset.shown==="claim"&&!now.claim}}
const OPEN_CASES=12;function caseElements(tree,claim){const cases=casesOf(tree,[]);const parts=cases.map((one)=>caseElement(one,subjectOf(claim)));if(!parts.some((part)=>part.childNodes.length))return[];const list=html("ol",{class:"cases"},parts);const isLong=cases.length>OPEN_CASES;return[html("h3",{},WORDS.certificate),cases.length>1&&html("p",{class:"tells"},CASES_WORDS(cases.some(({rows})=>!rows))),isLong?html("details",{},html("summary",{},counted(cases.length,"case")),list):list]}
function casesOf(tree,where){const branches=branchesOf(tree);if(!branches.length)return[{where,rows:tree.rows}];return branches.flatMap(([says,branch])=>casesOf(branch,[...where,says]))}
function branchesOf({split_input:input,split_end:end,split_winner:any,task,yes,no,...tree}){const isInput=(value)=>[WORDS.input(input,value)];const ends=(status)=>sentence(CASES.end,{task:idOf.get(end),status});const parts={task:idOf.get(any),other:idOf.get(task)};if(input !==undefined)return[[isInput(true),yes],[isInput(false),no]];if(end !==undefined)return[[ends(RAN),tree.ran],[ends(CANCELED),tree.canceled],[ends(FAULTED),tree.faulted]];return any===undefined?[]:[[sentence(CASES.first,parts),yes],[sentence(CASES.notFirst,parts),no]]}
function caseElement({where,rows},{kind,about}){const spoken=where.flatMap((says,place)=>[place>0&&", ",sentenceElements(says)]);const said=rows?rowSentences(rows,kind,about):[];const list=said.length&&html("ul",{},said.map((says)=>html("li",{},sentenceElements(says))));return html("li",{},spoken,said.length>0&&list)}
function rowSentences(rows,kind,about){if(kind !=="after")return about.map((id)=>rowSentence(rows[id],kind,id));const[other,task]=about;const isSettled=(rows[task].before||[]).includes(tasks[other].name);return[isSettled?sentence(CASES.settled,{task,other}):rowSentence(rows[task],kind,task)]}
function rowSentence({runs,ends,chain=[]},kind,task){if(kind==="observed"&&chain.length)return sentence(CASES.reads,{task,other:idOf.get(chain[chain.length - 1])});if(!runs&&kind !=="final"&&kind !=="runs")return sentence(CASES.neverBegins,{task});if(!ends.length)return sentence(CASES.neverEnds,{task});return sentence(CASES.mayEnd,{task,ways:ends.map((end)=>END_WORDS[end]).join(" or ")})}
const FOLDED_STEPS=4;function showDetails(){const[verdict,claim,run]=[verdictOf(now.claim),claimOf(now.claim),chosenRun()];const parts=verdict?[verdictElements(verdict,claim),reasonElements(verdict)]:[html("p",{},WORDS.noClaims)];const failing=runToFailure(now.claim);if(failing)parts.push(failureElements(claim,failing));if(audit)parts.push(recordElements());if(run)parts.push(inputElements(run),eventElements(run));byId("details").replaceChildren(...parts.flat(Infinity).filter(Boolean));showTask()}
function verdictElements({verdict,name,text},claim){return[html("p",{class:`verdict ${verdict}`},icon(verdict),WORDS.claim(now.claim,verdict)),name !==undefined&&html("h2",{dir:"auto"},shown(name)),html("p",{class:name===undefined?"says lead":"says"},withTasks(text)),claim.note !==undefined&&html("p",{class:"note",dir:"auto"},shown(claim.note)),html("p",{class:"tells"},audit?AUDIT_WORDS[verdict]():VERDICT_WORDS[verdict])]}
function saidLines(number){const lines=byId("text").textContent.split("\n");const start=lines.findIndex((line)=>line.startsWith(`claim ${number} `))+ 1;const isOther=(line,place)=>place>=start&&!line.startsWith("  ");return lines.slice(start,start&&lines.findIndex(isOther))}
function reasonElements({claim:number,verdict,splits,tree}){const isToldByLines=!audit&&(verdict==="empty"||verdict==="unknown");return[isToldByLines&&saidLines(number).map((line)=>html("p",{},withTasks(line.trim()))),splits !==undefined&&html("p",{class:"tells"},SPLITS_WORDS(splits)),tree !==undefined&&caseElements(tree,claimOf(number))]}
function failureElements(claim,run){const wrong=[html("h3",{},WORDS.wrong),html("p",{},sentenceElements(failureOf(claim,run)))];const causes=chosenCauses();return causes.length?[...wrong,html("h3",{},WORDS.causes),chainElement(run,causes)]:wrong}
function chainElement(run,causes){const isPlain=({event})=>run.events[event - 1].changes.some(([,status])=>status===RAN);const first=causes.findIndex((cause)=>!isPlain(cause));const plain=first<0?causes.length - 1:first;const items=causes.map((cause)=>causeElement(cause,isPlain(cause)));if(plain<FOLDED_STEPS)return html("ol",{class:"causes"},items);const folded=html("ol",{class:"causes"},items.slice(0,plain));const more=html("details",{},html("summary",{},WORDS.folded(plain)),folded);return[more,html("ol",{class:"causes"},items.slice(plain))]}
const stepButton=(number,title)=>html("button",{type:"button",class:"go",title:title??WORDS.toEvent(number),onclick:()=>goTo(number)},number);function causeElement({event,says},isPlain){const attributes={"data-event":event,class:isPlain?"plain":""};return html("li",attributes,stepButton(event)," ",withTasks(says))}
function inputElements({inputs}){const values=[...inputs].map(([name,value])=>html("span",{class:"input"},WORDS.input(name,value)));return values.length?[html("h3",{},WORDS.inputs),html("p",{},values)]:[]}
function eventElements(run){const items=run.events.map(eventElement);const fails=()=>html("li",{class:"fails"},icon("fails"),WORDS.claimFailsHere(failingClaim()));if(failsAt(run)!==undefined)items.splice(failsAt(run),0,fails());const list=html("ol",{class:"events",id:"events"},items);return[html("h3",{},WORDS.events),list,copyButton(run.journal)]}
function eventElement({number,actor,sentence:words,isBad}){const go=({target})=>target.closest(".task")||goTo(number);const attributes={"data-event":number,class:isBad?"bad":"",onclick:go};const inside=[html("span",{class:"number"},number),html("span",{class:"actor"},actor)];return html("li",attributes,inside,html("span",{},sentenceElements(words)))}
function copyButton(journal){const button=html("button",{type:"button",class:"copy"},WORDS.copy);const say=(words)=>()=>(button.textContent=words);button.addEventListener("click",()=>navigator.clipboard?.writeText(journal).then(say(WORDS.copied),say(WORDS.notCopied)));return button}
function markEvents(){for(const item of byId("details").querySelectorAll("[data-event]")){const number=Number(item.dataset.event);const isNow=number===now.step;item.classList.toggle("past",number<now.step);item.classList.toggle("now",isNow);if(!isNow)item.removeAttribute("aria-current");else{item.setAttribute("aria-current","step");if(item.parentNode.id==="events")scrollInto(item.parentNode,item)}}}
function scrollInto(list,item){const isInView=item.offsetTop>=list.scrollTop&&item.offsetTop + item.offsetHeight<=list.scrollTop + list.clientHeight;if(!isInView)list.scrollTop=item.offsetTop - list.clientHeight / 2}
const MOST_NEIGHBOURS=12;const MOST_CLAIMS=20;function showTask(){const panel=byId("task");panel.hidden=now.task<0;if(now.task<0)return;panel.replaceChildren(...(now.group?groupElements(now.group):taskElements(now.task)).flat(Infinity).filter(Boolean))}
const shutButton=(act)=>html("button",{type:"button",class:"shut","aria-label":WORDS.close,onclick:act},"×");function groupElements({parts,members}){const partButton=(part)=>{const title=part.map((member)=>tasks[member].name).join(", ");return html("button",{type:"button",class:"go",title,onclick:()=>openTasks(part)},tasks[part[0]].name)};return[html("h2",{},WORDS.alike(parts.length),shutButton(()=>chooseGroup(now.task))),html("p",{class:"tells"},WORDS.alikeTells(members.length)),html("p",{},parts.map(partButton)),html("button",{type:"button",onclick:()=>openTasks(members)},WORDS.unfoldAll)]}
function taskElements(id){const{name,note,token,body}=tasks[id];return[html("h2",{},name,shutButton(()=>chooseTask(id))),html("p",{class:"tells"},kindWords(id)),standsElement(id),note !==undefined&&html("p",{class:"note",dir:"auto"},shown(note)),token !==undefined&&html("p",{},WORDS.token,html("span",{class:"token"},token)),body&&html("div",{class:"body"},bodyLines(body,0)),neighbourElement(WORDS.follows,edgesTo[id].map((edge)=>edge.from)),neighbourElement(WORDS.followedBy,edgesFrom[id].map((edge)=>edge.to)),ownEventsElement(id),ownClaimsElement(id)]}
function standsElement(id){const run=chosenRun();if(!run)return "";const hasThrown=run.thrown[id]&&run.threwAt[id]<=now.step;const stands=sentenceElements([statusPart(run.statusAt(now.step)[id])]);return html("p",{},WORDS.atStep,stands,hasThrown?WORDS.threw(run.thrown[id]):"")}
function bodyLines(body,depth){const line=(sentence)=>html("div",{class:"statement"},"\u2003".repeat(depth),sentenceElements(sentence));const lines=(statement)=>{if(typeof statement==="string")return[line([PLAIN_STATEMENTS[statement]])];const word=Object.keys(STATEMENT_WORDS).find((key)=>statement[key]!==undefined);const otherwise=statement.else?.length?[line([WORDS.else]),bodyLines(statement.else,depth + 1)]:[];return[line(STATEMENT_WORDS[word](statement)),bodyLines(statement.then||[],depth + 1),otherwise]};return body.map(lines)}
function neighbourElement(words,ids){if(!ids.length)return "";const names=ids.slice(0,MOST_NEIGHBOURS).map((id,place)=>[place?", ":"",taskButton(id)]);return html("p",{},words,names,ids.length>MOST_NEIGHBOURS?WORDS.andMore(ids.length - MOST_NEIGHBOURS):"")}
function ownEventsElement(id){const events=chosenRun()?.events.filter((event)=>event.task===id)||[];return events.length&&html("p",{},WORDS.itsEvents,events.map((event)=>stepButton(event.number,flat(event.sentence))))}
function ownClaimsElement(id){const names=(claim)=>{const{about,ended}=subjectOf(claim);return about.includes(id)||ended.includes(id)};const own=verdicts.filter(({claim})=>names(claims[claim - 1]));const button=({claim,verdict,text})=>html("button",{type:"button",class:`go ${verdict}`,title:text,onclick:()=>chooseClaim(claim)},claim);const more=own.length>MOST_CLAIMS?WORDS.andMore(own.length - MOST_CLAIMS):"";return own.length&&html("p",{},WORDS.itsClaims,own.slice(0,MOST_CLAIMS).map(button),more)}
const MOST_PRINTED=24;function printedElement(number){Object.assign(now,{claim:number,step:endOf(number),task:-1,group:null});buildGraph();paintGraph();const picture=byId("canvas").cloneNode(true);picture.removeAttribute("id");picture.setAttribute("viewBox",`-8 -8 ${graph.width + 16} ${graph.height + 16}`);picture.classList.remove("far");picture.firstElementChild.removeAttribute("transform");picture.firstElementChild.removeAttribute("id");const verdict=verdictOf(number);const[claim,run]=[claimOf(number),runToFailure(number)];const said=[verdictElements(verdict,claim),failureElements(claim,run),inputElements(run)];const section=html("section",{},said,picture);for(const folded of section.querySelectorAll("details"))folded.open=true;return section}
function preparePrint(){const before={...now};const failing=verdicts.filter(({verdict})=>verdict==="fails").map(({claim})=>claim);const sections=failing.slice(0,MOST_PRINTED).map(printedElement);const leftOut=failing.length - sections.length;byId("printed").replaceChildren(...sections,leftOut>0?html("p",{},WORDS.printed(leftOut)):"");Object.assign(now,before);showAll()}
function endPrint(){byId("printed").replaceChildren();fitView()}
const SECONDS_A_STEP=0.7;const THEME="taskgraph-theme";function setTheme(theme){document.documentElement.dataset.theme=theme;try{localStorage.setItem(THEME,theme)}catch{}}
function startTheme(){let stored=null;try{stored=localStorage.getItem(THEME)}catch{}
const usual=matchMedia("(prefers-color-scheme: dark)").matches?"dark":"light";document.documentElement.dataset.theme=stored||usual}
const turnTheme=()=>setTheme(document.documentElement.dataset.theme==="dark"?"light":"dark");let timer=0;function stopPlaying(){clearInterval(timer);timer=0;byId("play").setAttribute("aria-pressed","false")}
function playOrStop(){const run=chosenRun();if(timer||!run)return stopPlaying();if(now.step>=run.events.length)goTo(0);byId("play").setAttribute("aria-pressed","true");const playStep=()=>{goTo(now.step + 1);if(now.step>=(chosenRun()?.events.length??0))stopPlaying()};timer=setInterval(playStep,1000 * SECONDS_A_STEP)}
const CONTROLS={first:()=>goTo(0),previous:()=>goTo(now.step - 1),next:()=>goTo(now.step + 1),last:()=>goTo(Infinity),back:()=>goToCause(-1),on:()=>goToCause(1),play:playOrStop,closer:()=>zoomBy(1.25),wider:()=>zoomBy(0.8),fit:()=>fitView(),refold:()=>{graph.opened.clear();showAll()},clock:turnClock,"lanes-closer":()=>zoomLanes(1.5),"lanes-wider":()=>zoomLanes(1 / 1.5),theme:turnTheme,help:()=>byId("keys").showModal()};const KEYS={ArrowRight:(event)=>(event.shiftKey?goToCause(1):CONTROLS.next()),ArrowLeft:(event)=>(event.shiftKey?goToCause(-1):CONTROLS.previous()),Home:CONTROLS.first,End:CONTROLS.last,j:()=>chooseNeighbour(1),k:()=>chooseNeighbour(-1),ArrowDown:()=>chooseNeighbour(1),ArrowUp:()=>chooseNeighbour(-1),"/":()=>byId("find").focus(),f:CONTROLS.fit,"+":CONTROLS.closer,"=":CONTROLS.closer,"-":CONTROLS.wider,"[":CONTROLS["lanes-wider"],"]":CONTROLS["lanes-closer"],g:()=>chooseShown(SHOWN[(SHOWN.indexOf(now.shown)+ 1)%(now.claim?3:2)]),t:turnTheme,"?":CONTROLS.help,Escape:()=>now.task>=0&&(now.group?chooseGroup(now.task):chooseTask(now.task))};function pressInSearch(event){if(event.key==="Escape"){event.target.value=now.search="";sift();event.target.blur()}else if(event.key==="Enter"||event.key==="ArrowDown"){const[first]=listed();if(!first)return;event.preventDefault();chooseClaim(first.number);byId("claims").focus()}}
function press(event){if(event.ctrlKey||event.metaKey||event.altKey||byId("keys").open)return;if(event.target===byId("find"))return pressInSearch(event);const isUpOrDown=event.key==="ArrowUp"||event.key==="ArrowDown";const act=Object.hasOwn(KEYS,event.key)&&KEYS[event.key];if(!act||(isUpOrDown&&!event.target.matches("body, #claims")))return;event.preventDefault();act(event)}
function followAddress(){const asked=new URLSearchParams(location.hash.slice(1));const number=Number(asked.get("claim"));const entry=entries.find((other)=>other.number===number)||entries[0];chooseClaim(entry?.number??0);if(asked.has("step")&&now.claim===number)goTo(Number(asked.get("step"))||0)}
function connect(){for(const[id,act]of Object.entries(CONTROLS))byId(id).addEventListener("click",()=>act());for(const button of document.querySelectorAll("[data-shown]")){button.addEventListener("click",()=>chooseShown(button.dataset.shown))}
byId("slider").addEventListener("input",({target})=>goTo(Number(target.value)));byId("find").addEventListener("input",({target})=>{now.search=target.value;sift()});followPointer();addEventListener("keydown",press);addEventListener("hashchange",followAddress);addEventListener("resize",()=>{showLanes();showStep();fitView()});addEventListener("beforeprint",preparePrint);addEventListener("afterprint",endPrint)}
function writeHead(){const counts=VERDICTS.filter((word)=>sums[word]).map((word)=>`${sums[word]} ${word}`);const said=audit?byId("text").textContent.trim().split("\n"):counts;document.title=`${said.join(", ") || WORDS.noClaim} · taskgraph`;byId("title").textContent=audit?WORDS.recorded:WORDS.title;byId("size").textContent=WORDS.size();byId("about").textContent=given.document.note===undefined?"":shown(given.document.note);byId("tokens").hidden=!tokens.length;byId("clock").hidden=!times;byId("legend").append(...WORDS.legend.map((word)=>html("span",{},icon(word),` ${word}`)));for(const id of["first","previous","next","last"])byId(id).append(icon(id))}
function start(){document.body.className="live";try{startTheme();writeHead();listClaims();connect();followAddress()}catch(error){document.body.className="";throw error}}
start()})();</script>
"#;
