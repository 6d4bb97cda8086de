//! The text of a page before its payload. Made by `.ci/page_text`.

/// Returns the text of a page before its payload.
pub fn head() -> &'static [u8] {
    b"<!DOCTYPE html>\n\
<html lang=\"en\">\n\
<head>\n\
<meta charset=\"utf-8\">\n\
<meta http-equiv=\"Content-Security-Policy\" content=\"default-src 'none'; style-src 'sha256-EiOI9iJL5y+cUiOBtUaGwUFkCiOD5XTfgdD2DIanHDU='; script-sr\
c 'sha256-5axMSsiaKi6vfAWZ7bsvU1yjzQAWMigVL/xcUR3W2u4='; base-uri 'none'; form-action 'none'\">\n\
<meta name=\"viewport\" content=\"width=device-width, initial-scale=1\">\n\
<meta name=\"referrer\" content=\"no-referrer\">\n\
<title>Run of a Plan 9 network</title>\n\
<style>\n\
:root {\n\
color-scheme: light;\n\
--ground: #ffffff;\n\
--band: #f4f4f0;\n\
--bar: #f0f0ec;\n\
--edge: #c4c4be;\n\
--text: #1c1c1a;\n\
--quiet: #5c5c56;\n\
--later: #6c6c66;\n\
--later-line: #c9c9c4;\n\
--sent: #1c5a9e;\n\
--again: #71309a;\n\
--lost: #b3201c;\n\
--answered: #1a6b2c;\n\
--waiting: #8a4f00;\n\
--now: #a04800;\n\
--mark: #ffe9a8;\n\
--chosen: #dbe9fb;\n\
}\n\
@media screen and (prefers-color-scheme: dark) {\n\
:root {\n\
color-scheme: dark;\n\
--ground: #17181a;\n\
--band: #1f2124;\n\
--bar: #26282c;\n\
--edge: #4a4d52;\n\
--text: #ececea;\n\
--quiet: #a9aca9;\n\
--later: #8e9190;\n\
--later-line: #45484b;\n\
--sent: #86b8f5;\n\
--again: #cf9cf2;\n\
--lost: #ff8a80;\n\
--answered: #7fd08d;\n\
--waiting: #e8b25e;\n\
--now: #ffb070;\n\
--mark: #5a4a12;\n\
--chosen: #1f3a5c;\n\
}\n\
}\n\
* {\n\
box-sizing: border-box;\n\
}\n\
html,\n\
body {\n\
height: 100%;\n\
margin: 0;\n\
}\n\
body {\n\
display: flex;\n\
flex-direction: column;\n\
background: var(--ground);\n\
color: var(--text);\n\
font: 14px/1.35 \"DejaVu Sans\", Verdana, \"Segoe UI\", system-ui, sans-serif;\n\
}\n\
#bar {\n\
flex: none;\n\
padding: 6px 12px;\n\
background: var(--bar);\n\
border-bottom: 1px solid var(--edge);\n\
}\n\
.row {\n\
display: flex;\n\
flex-wrap: wrap;\n\
align-items: center;\n\
gap: 4px 14px;\n\
min-height: 30px;\n\
}\n\
.legend {\n\
min-height: 22px;\n\
color: var(--quiet);\n\
font-size: 12px;\n\
}\n\
.keys {\n\
margin-left: auto;\n\
}\n\
h1 {\n\
margin: 0;\n\
font-size: 17px;\n\
}\n\
h2 {\n\
margin: 0 0 4px;\n\
padding-bottom: 2px;\n\
border-bottom: 1px solid var(--edge);\n\
font-size: 15px;\n\
}\n\
h3 {\n\
margin: 8px 0 2px;\n\
font-size: 13px;\n\
}\n\
button,\n\
select {\n\
padding: 2px 7px;\n\
border: 1px solid var(--edge);\n\
border-radius: 4px;\n\
background: var(--ground);\n\
color: var(--text);\n\
font: inherit;\n\
}\n\
.buttons {\n\
display: inline-flex;\n\
gap: 4px;\n\
}\n\
select {\n\
max-width: 21em;\n\
}\n\
#slider {\n\
flex: 1 1 160px;\n\
min-width: 120px;\n\
}\n\
#place {\n\
min-width: 13em;\n\
font-variant-numeric: tabular-nums;\n\
}\n\
:focus-visible {\n\
outline: 2px solid var(--sent);\n\
outline-offset: 1px;\n\
}\n\
main {\n\
flex: 1 1 auto;\n\
display: flex;\n\
min-height: 0;\n\
}\n\
#pane {\n\
position: relative;\n\
flex: 1 1 auto;\n\
min-width: 0;\n\
overflow: auto scroll;\n\
background: var(--ground);\n\
}\n\
#names {\n\
position: sticky;\n\
z-index: 1;\n\
top: 0;\n\
display: block;\n\
border-bottom: 1px solid var(--edge);\n\
background: var(--ground);\n\
}\n\
#chart {\n\
display: block;\n\
}\n\
[hidden] {\n\
display: none !important;\n\
}\n\
#panels {\n\
flex: none;\n\
width: 25em;\n\
padding: 10px 12px;\n\
overflow: auto;\n\
border-left: 1px solid var(--edge);\n\
}\n\
#panels section {\n\
margin-bottom: 14px;\n\
}\n\
#sheets {\n\
display: none;\n\
}\n\
.message {\n\
margin: 12px;\n\
padding: 8px 12px;\n\
border: 2px solid var(--lost);\n\
color: var(--lost);\n\
}\n\
svg text {\n\
fill: currentColor;\n\
font-size: 12px;\n\
}\n\
svg .band {\n\
fill: var(--band);\n\
}\n\
svg .column {\n\
stroke: var(--edge);\n\
}\n\
svg .time,\n\
svg .name,\n\
svg .end {\n\
color: var(--quiet);\n\
}\n\
svg .name {\n\
color: var(--text);\n\
font-weight: bold;\n\
}\n\
svg .label {\n\
paint-order: stroke;\n\
stroke: var(--ground);\n\
stroke-width: 4px;\n\
stroke-linejoin: round;\n\
}\n\
svg .label.in-band {\n\
stroke: var(--band);\n\
}\n\
svg .packet,\n\
svg .step {\n\
cursor: pointer;\n\
}\n\
svg .line {\n\
fill: none;\n\
stroke: currentColor;\n\
stroke-width: 1.5px;\n\
}\n\
svg .head {\n\
fill: currentColor;\n\
}\n\
svg .reach {\n\
fill: none;\n\
stroke: transparent;\n\
stroke-width: 12px;\n\
}\n\
svg .dashed .line:not(.sign) {\n\
stroke-dasharray: 7 4;\n\
}\n\
svg .flying .line:not(.sign) {\n\
stroke-dasharray: 0.1 5;\n\
stroke-linecap: round;\n\
stroke-width: 2.5px;\n\
}\n\
svg .bar {\n\
fill: none;\n\
stroke: currentColor;\n\
stroke-width: 4px;\n\
}\n\
svg .bar.waiting {\n\
stroke-dasharray: 0.1 7;\n\
stroke-linecap: round;\n\
}\n\
svg .now-line {\n\
fill: none;\n\
stroke: var(--now);\n\
stroke-width: 2px;\n\
}\n\
svg .now-mark {\n\
fill: var(--now);\n\
}\n\
.sent {\n\
color: var(--sent);\n\
}\n\
.again {\n\
color: var(--again);\n\
}\n\
.lost,\n\
.refused {\n\
color: var(--lost);\n\
}\n\
.answered {\n\
color: var(--answered);\n\
}\n\
.waiting,\n\
.waits,\n\
.owes {\n\
color: var(--waiting);\n\
}\n\
.now {\n\
color: var(--now);\n\
}\n\
svg .later {\n\
color: var(--later-line);\n\
}\n\
svg .label.later {\n\
color: var(--later);\n\
}\n\
.hide-later svg .later {\n\
display: none;\n\
}\n\
svg .chosen .line {\n\
stroke-width: 3.5px;\n\
}\n\
svg .label.chosen {\n\
font-weight: bold;\n\
}\n\
svg .packet:focus {\n\
outline: none;\n\
}\n\
svg .packet:focus-visible .reach {\n\
stroke: var(--chosen);\n\
}\n\
#panels p {\n\
margin: 0 0 4px;\n\
}\n\
#panels dl {\n\
display: grid;\n\
grid-template-columns: 7.5em 1fr;\n\
gap: 1px 8px;\n\
margin: 0 0 6px;\n\
}\n\
dt,\n\
th[scope=\"row\"] {\n\
color: var(--quiet);\n\
font-weight: normal;\n\
text-align: left;\n\
}\n\
dd {\n\
margin: 0;\n\
overflow-wrap: anywhere;\n\
}\n\
pre {\n\
margin: 4px 0;\n\
padding: 4px 6px;\n\
background: var(--band);\n\
font: 12px/1.4 \"DejaVu Sans Mono\", Menlo, Consolas, monospace;\n\
overflow-wrap: anywhere;\n\
white-space: pre-wrap;\n\
}\n\
table {\n\
border-collapse: collapse;\n\
}\n\
#ends table {\n\
width: 100%;\n\
font-size: 13px;\n\
}\n\
#ends th[scope=\"row\"] {\n\
width: 8em;\n\
}\n\
#ends td,\n\
#ends th {\n\
padding: 1px 8px 1px 0;\n\
text-align: left;\n\
vertical-align: top;\n\
}\n\
mark {\n\
padding: 0 3px;\n\
border-radius: 2px;\n\
background: var(--mark);\n\
color: var(--text);\n\
font-weight: bold;\n\
}\n\
#scripts ol {\n\
margin: 0;\n\
padding-left: 3em;\n\
}\n\
#scripts li[aria-current] {\n\
background: var(--chosen);\n\
}\n\
button.link {\n\
padding: 0 2px;\n\
border: 0;\n\
background: none;\n\
color: inherit;\n\
cursor: pointer;\n\
overflow-wrap: anywhere;\n\
text-align: left;\n\
text-decoration: underline;\n\
text-decoration-color: var(--edge);\n\
}\n\
small {\n\
color: var(--quiet);\n\
}\n\
.to-come,\n\
.to-come b {\n\
color: var(--later);\n\
}\n\
#table {\n\
padding: 8px 12px;\n\
}\n\
#table td,\n\
#table th {\n\
padding: 2px 10px 2px 0;\n\
border-bottom: 1px solid var(--edge);\n\
text-align: left;\n\
white-space: nowrap;\n\
}\n\
#table caption {\n\
padding-bottom: 6px;\n\
color: var(--quiet);\n\
text-align: left;\n\
}\n\
#table tr.to-come td {\n\
color: var(--later);\n\
}\n\
@media screen and (max-width: 1200px) {\n\
.keys {\n\
display: none;\n\
}\n\
}\n\
@media screen and (max-width: 900px) {\n\
body {\n\
height: auto;\n\
}\n\
main {\n\
flex-direction: column;\n\
}\n\
#pane {\n\
flex: none;\n\
width: 100%;\n\
max-height: 62vh;\n\
}\n\
#panels {\n\
width: 100%;\n\
border-top: 1px solid var(--edge);\n\
border-left: 0;\n\
}\n\
}\n\
@media print {\n\
:root {\n\
--sent: #000000;\n\
--again: #000000;\n\
--lost: #000000;\n\
--answered: #000000;\n\
--waiting: #000000;\n\
--now: #000000;\n\
--quiet: #333333;\n\
}\n\
html,\n\
body {\n\
display: block;\n\
height: auto;\n\
}\n\
main {\n\
display: block;\n\
}\n\
#bar {\n\
padding: 0;\n\
border: 0;\n\
background: none;\n\
}\n\
#bar button,\n\
#bar .buttons,\n\
#bar input,\n\
.filters,\n\
.keys,\n\
#pane {\n\
display: none;\n\
}\n\
#sheets {\n\
display: block;\n\
}\n\
#sheets svg {\n\
display: block;\n\
width: 100%;\n\
height: auto;\n\
break-inside: avoid;\n\
}\n\
#panels {\n\
width: auto;\n\
padding: 12px 0;\n\
overflow: visible;\n\
border: 0;\n\
}\n\
#panels section {\n\
break-inside: avoid;\n\
}\n\
button.link {\n\
text-decoration: none;\n\
}\n\
mark {\n\
padding: 0;\n\
background: none;\n\
font-weight: normal;\n\
}\n\
#scripts li[aria-current] {\n\
background: none;\n\
}\n\
}\n\
</style>\n\
</head>\n\
<body>\n\
<header id=\"bar\">\n\
<div class=\"row\">\n\
<h1 id=\"title\">Run</h1>\n\
<span class=\"buttons\">\n\
<button type=\"button\" id=\"home\" aria-label=\"to the start\" title=\"Start (Home)\">|&lt;</button>\n\
<button type=\"button\" id=\"back-time\" aria-label=\"one time back\" title=\"One time back (Page Up)\">&lt;&lt;</button>\n\
<button type=\"button\" id=\"back\" aria-label=\"one entry back\" title=\"One entry back (Left)\">&lt;</button>\n\
</span>\n\
<input type=\"range\" id=\"slider\" min=\"0\" max=\"0\" value=\"0\" aria-label=\"current entry\">\n\
<span class=\"buttons\">\n\
<button type=\"button\" id=\"next\" aria-label=\"one entry on\" title=\"One entry on (Right)\">&gt;</button>\n\
<button type=\"button\" id=\"next-time\" aria-label=\"one time on\" title=\"One time on (Page Down)\">&gt;&gt;</button>\n\
<button type=\"button\" id=\"end\" aria-label=\"to the end\" title=\"End (End)\">&gt;|</button>\n\
</span>\n\
<output id=\"place\" for=\"slider\"></output>\n\
</div>\n\
<div class=\"row filters\">\n\
<label>host <select id=\"host\"></select></label>\n\
<label>link <select id=\"link\"></select></label>\n\
<label>protocol <select id=\"protocol\"></select></label>\n\
<label>conversation <select id=\"conversation\"></select></label>\n\
<label><input type=\"checkbox\" id=\"steps\" checked> steps</label>\n\
<label><input type=\"checkbox\" id=\"hide\"> hide what comes later</label>\n\
<label><input type=\"checkbox\" id=\"as-table\"> table of packets</label>\n\
</div>\n\
<div class=\"row legend\">\n\
<span><b class=\"lost\">&#10005;</b> lost</span>\n\
<span><b class=\"lost\">&#8856;</b> not sent on a link</span>\n\
<span><b class=\"again\">- - -</b> sent again, or a second copy</span>\n\
<span><b class=\"sent\">&#183;&#183;&#183;&#183;</b> on its way</span>\n\
<span><b class=\"answered\">&#10003;</b> step done</span>\n\
<span><b class=\"lost\">&#10007;</b> step failed</span>\n\
<span><b class=\"waiting\">&#8230;</b> step waits</span>\n\
<span><b class=\"now\">&#9654;&#8212;</b> now</span>\n\
<span class=\"keys\">Keys: arrows, Page Up, Page Down, Home, End; N, P: packets; Escape</span>\n\
</div>\n\
</header>\n\
<noscript><p class=\"message\">This page draws a run with its own script. Allow scripts for this file.</p></noscript>\n\
<p id=\"message\" class=\"message\" role=\"alert\" hidden></p>\n\
<main>\n\
<section id=\"pane\" aria-label=\"Chart of packets and steps\" tabindex=\"0\">\n\
<svg id=\"names\" aria-hidden=\"true\"></svg>\n\
<svg id=\"chart\" role=\"group\" aria-label=\"Packets and steps, time downwards\"></svg>\n\
<div id=\"table\" hidden></div>\n\
</section>\n\
<div id=\"sheets\" aria-hidden=\"true\"></div>\n\
<aside id=\"panels\" aria-label=\"Details\">\n\
<section><h2>Now</h2><div id=\"now\" aria-live=\"polite\"></div></section>\n\
<section><h2 id=\"packet-title\">Packet</h2><div id=\"packet\"></div></section>\n\
<section><h2>Both ends</h2><div id=\"ends\"></div></section>\n\
<section><h2>Steps</h2><div id=\"scripts\"></div></section>\n\
</aside>\n\
</main>\n\
<script type=\"text/plain\" id=\"payload\">\n\
"
}
