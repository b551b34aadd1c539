//! The style sheet of a page: light or dark as its reader has it, and black on white on paper.

/// The style sheet.
pub const STYLE: &str = "
:root{color-scheme:light dark;--back:#fff;--fore:#1c1c21;--dim:#5f5f69;--line:#d0d0d8;--soft:#f4f4f7;--mark:#1d5fbf;--bad:#b81414;--badsoft:#fbe3e1;--good:#17602f;--goodsoft:#e3f3e7}
@media screen and (prefers-color-scheme:dark){:root{--back:#17181c;--fore:#e6e6ea;--dim:#a6a7b2;--line:#44454f;--soft:#212228;--mark:#82b1ff;--bad:#ff9a91;--badsoft:#4a1f1d;--good:#7fd39a;--goodsoft:#1b3524}}
*{box-sizing:border-box}
body{margin:0 auto;padding:16px 20px 40px;max-width:1160px;background:var(--back);color:var(--fore);font:16px/1.45 system-ui,\"Segoe UI\",Roboto,\"DejaVu Sans\",sans-serif}
h1{font-size:1.8em;line-height:1.15;margin:.3em 0;overflow-wrap:anywhere}
h2{font-size:1.25em;margin:1.8em 0 .5em;padding-top:.5em;border-top:1px solid var(--line)}
h3{font-size:1.05em;margin:1.4em 0 .4em}
p{margin:.5em 0;overflow-wrap:anywhere}
a{color:var(--mark)}
nav a{margin-right:1em}
code,pre,svg{font-family:ui-monospace,Menlo,Consolas,\"DejaVu Sans Mono\",monospace}
code{overflow-wrap:anywhere}
.hint,caption{color:var(--dim);font-size:.9em}
.top{display:grid;grid-template-columns:1fr auto;gap:1em 2em;align-items:start}
.used{width:auto;margin:.2em 0}
.used th,.used td{border:0;padding:.1em 1.2em .1em 0;white-space:nowrap}
.used th{color:var(--dim);font-weight:400}
.verdict{border-left:6px solid var(--line);background:var(--soft);padding:.6em 1em;margin:1em 0;font-weight:600}
.right{border-color:var(--good);background:var(--goodsoft)}
p.wrong{border-color:var(--bad);background:var(--badsoft)}
.warnings{margin:.8em 0;padding-left:1.2em;overflow-wrap:anywhere}
.card{border:1px solid var(--line);border-left:6px solid var(--bad);padding:.2em 1.2em .8em;margin:1em 0}
.card h3{margin:.6em 0}
.eval{width:auto}
.eval td{border:0;padding:.15em .9em .15em 0;vertical-align:baseline}
.eval .on{background:var(--badsoft);font-weight:600}
.eval i{font-style:normal;font-size:.8em;color:var(--dim);vertical-align:sub}
.test{background:var(--soft);padding:.4em .8em;margin:.3em 0;overflow-x:auto;font-size:14px}
footer{color:var(--dim);font-size:.9em;margin-top:2em}
:target{outline:2px solid var(--mark);outline-offset:2px}
.bad,.refusal{color:var(--bad)}
.refusal{font-weight:600}
.wide{overflow-x:auto;margin:.6em 0}
svg{fill:currentColor;max-width:none}
svg .e{text-anchor:end}
svg .m{text-anchor:middle}
svg .dim{fill:var(--dim)}
.chip{font-size:13px;display:block;max-width:100%;height:auto;margin:0 auto}
.chip .body{fill:var(--soft);stroke:var(--fore);stroke-width:1.5}
.chip .leg{fill:var(--line);stroke:var(--dim)}
.chip .n{font-size:11px;fill:var(--dim)}
.chip .dev{font-size:15px;letter-spacing:.1em}
.chip .reg{fill:none;stroke:var(--mark);stroke-width:1.6}
table{border-collapse:collapse;width:100%}
caption{text-align:left;padding-bottom:.3em}
th,td{text-align:left;padding:.3em .9em .3em 0;border-bottom:1px solid var(--line);vertical-align:top}
thead th{color:var(--dim);font-weight:600;font-size:.9em}
tr.dim{color:var(--dim)}
td code{overflow-wrap:break-word}
td.use{white-space:nowrap}
.bar rect{fill:var(--line)}
.bar .full{fill:var(--mark)}
.sums{margin:.4em 0;columns:2;column-gap:2.5em}
.sums dl{margin:0;break-inside:avoid;padding-bottom:.8em}
.sums dt{font-weight:600}
.sums dd{margin:0 0 0 1.6em;padding-left:1.4em;text-indent:-1.4em}
.plot{display:table}
.heads{display:table-header-group;break-inside:avoid}
.rows{display:table-row-group}
.array{font-size:9px;display:block;break-inside:avoid}
.array .g{font-weight:600;fill:var(--dim)}
.array .dot{stroke:var(--mark);stroke-width:5;stroke-linecap:round;fill:none}
.array .dim path{opacity:.45}
.array .whole{stroke:var(--fore);stroke-width:1;fill:none;opacity:.5}
.array .stripe{fill:var(--soft)}
.waves{font-size:11px;display:block}
.waves .m{fill:var(--dim)}
.waves path{fill:none;stroke:var(--fore)}
.waves .grid{stroke:var(--line);stroke-width:1}
.waves .level{stroke-width:1.6}
.waves .free{stroke:var(--dim);stroke-dasharray:2 2}
.waves .mark{stroke:var(--mark);stroke-width:5;stroke-linecap:round}
.waves .wrong rect{fill:var(--badsoft);stroke:var(--bad)}
.waves .wrong text{fill:var(--bad);font-weight:700}
.source{margin:.4em 0;padding:.6em 0;background:var(--soft);font-size:13px;line-height:1.4;counter-reset:line;white-space:pre-wrap;overflow-wrap:anywhere}
.source span{display:block;padding:0 .8em 0 5.2em;text-indent:-4.4em}
.source span::before{counter-increment:line;content:counter(line);display:inline-block;width:3.4em;margin-right:1em;text-align:right;text-indent:0;color:var(--dim)}
.source .at{background:var(--badsoft)}
mark{background:var(--bad);color:var(--back)}
@media (max-width:760px){.top{grid-template-columns:1fr}}
@media (max-width:640px){.sums{columns:1}body{padding:10px 12px 30px}table{font-size:.8em}th,td{padding-right:.6em}.bar{width:40px}}
@page{size:A4;margin:12mm}
@media print{body{max-width:none;padding:0;font-size:10.5pt}nav{display:none}.wide{overflow:visible}.array,.waves{max-width:100%;height:auto}.plot{width:100%}.waves,.chip,tr{break-inside:avoid}h2,h3{break-after:avoid}.source{font-size:8.5pt}*{print-color-adjust:exact;-webkit-print-color-adjust:exact}}
";
