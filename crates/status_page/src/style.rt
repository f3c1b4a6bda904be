//! The style sheet of the page: light and dark, for wide and narrow screens.

/// The style sheet. It has no `<`.
pub(crate) const STYLE: &str =
    r#":root{color-scheme:light dark;--bg:#f3f5f8;--card:#fff;--ink:#17202c;--soft:#566273;--line:#e0e6ed;--free:#dde3ea;
--chained:#3b6fd4;--lent:#dd9a1f;--out:#2a9a74;--good:#12704a;--bad:#b3261c;--wait:#8a5a00;--goodbg:#dcf2e7;
--badbg:#fce2df;--waitbg:#fcefd3}
@media (prefers-color-scheme:dark){:root{--bg:#0f1319;--card:#181e27;--ink:#e6eaf0;--soft:#9aa6b6;--line:#2a323e;
--free:#2e3844;--chained:#6b9bf4;--lent:#e6b04a;--out:#48bd95;--good:#6bdaab;--bad:#ff978d;--wait:#f0c169;
--goodbg:#133428;--badbg:#40201d;--waitbg:#3a2d12}}
*{box-sizing:border-box}
body{margin:0;background:var(--bg);color:var(--ink);font:15px/1.45 system-ui,-apple-system,"Segoe UI",Roboto,
"Noto Sans","DejaVu Sans",sans-serif;font-variant-numeric:tabular-nums}
header,main,footer{max-width:1160px;margin:0 auto;padding:0 20px}
header{display:flex;flex-wrap:wrap;align-items:center;gap:8px 14px;padding-top:22px;padding-bottom:14px}
h1{font-size:24px;letter-spacing:-.02em;margin:0}
p{margin:0}
header .what{flex:1;white-space:nowrap;color:var(--soft);padding-top:5px}
.meta,footer,small,.none,.soft{color:var(--soft)}
.chip{padding:3px 12px;border-radius:14px;font-weight:600;font-size:14px;overflow-wrap:anywhere}
.good{color:var(--good);background:var(--goodbg)}
.wait{color:var(--wait);background:var(--waitbg)}
.bad{color:var(--bad);background:var(--badbg)}
.tiles{display:grid;grid-template-columns:repeat(auto-fit,minmax(164px,1fr));gap:12px;margin:0 0 16px}
.card,.tiles div{background:var(--card);border:1px solid var(--line);border-radius:12px}
.tiles div{padding:10px 16px 12px;display:flex;flex-direction:column-reverse;justify-content:flex-end}
.tiles dd{margin:0;font-size:25px;line-height:1.25;letter-spacing:-.02em;font-weight:650}
.tiles dt{color:var(--soft);font-size:13px}
.tiles small{font-size:14px;font-weight:450;letter-spacing:0}
.card{padding:16px 20px 18px;margin:0 0 16px;min-width:0}
h2{font-size:17px;margin:0 0 12px;overflow-wrap:anywhere}
h2 small{font-weight:400;font-size:14px;margin-left:6px}
h2 .chip{font-size:13px;padding:1px 10px;margin-left:6px}
h3{font-size:13px;font-weight:600;color:var(--soft);margin:18px 0 8px}
.bar{display:flex;height:26px;border-radius:7px;overflow:hidden;background:var(--free)}
.bar i{display:block;min-width:0}
i.out{background:var(--out)}i.lent{background:var(--lent)}i.chained{background:var(--chained)}
.legend{list-style:none;display:grid;grid-template-columns:repeat(auto-fit,minmax(170px,1fr));gap:4px 24px;
margin:12px 0 0;padding:0}
.legend li{display:flex;align-items:center;gap:8px}
.legend li::before{content:"";width:11px;height:11px;border-radius:3px;background:var(--free);
print-color-adjust:exact}
.legend .out::before{background:var(--out)}.legend .lent::before{background:var(--lent)}
.legend .chained::before{background:var(--chained)}
.legend span{flex:1;color:var(--soft)}
.plot{display:grid;grid-template-columns:auto 1fr;gap:4px 8px}
.plot svg{width:100%;height:150px;display:block;overflow:visible}
.ys,.xs{color:var(--soft);font-size:12px;line-height:1}
.ys{display:flex;flex-direction:column;justify-content:space-between;text-align:right;margin:-6px 0}
.xs{grid-column:2;display:flex;justify-content:space-between;padding-top:3px}
polygon.out{fill:var(--out)}polygon.lent{fill:var(--lent)}polygon.chained{fill:var(--chained)}
.grid,.axis{fill:none;stroke:var(--soft);vector-effect:non-scaling-stroke;stroke-width:1}
.grid{opacity:.28;stroke-dasharray:2 4}
.axis{opacity:.7}
.rate{fill:var(--out)}
.pair{display:grid;grid-template-columns:repeat(auto-fit,minmax(min(100%,400px),1fr));gap:0 28px}
.pair h3{margin-top:0}
.pair .plot svg{height:110px}
.queues{display:grid;grid-template-columns:repeat(auto-fill,minmax(min(100%,350px),1fr));gap:0 16px;align-items:start}
.printers{list-style:none;display:grid;grid-template-columns:repeat(auto-fill,minmax(146px,1fr));gap:8px;margin:0;
padding:0}
.printers li{border:1px solid var(--line);border-left:4px solid var(--free);border-radius:8px;padding:7px 10px 8px;
font-size:13px;line-height:1.35;color:var(--soft);min-width:0}
.printers b{display:block;color:var(--ink);font-size:14px;font-weight:600;white-space:nowrap}
.printers small{display:block;overflow-wrap:anywhere}
.printers:has(li:nth-child(7)){grid-template-columns:repeat(auto-fill,minmax(124px,1fr));gap:6px}
.printers:has(li:nth-child(7)) b{font-size:13px}
.printers .busy{border-left-color:var(--out)}
.printers .busy span{display:block;color:var(--good);font-weight:600}
.printers .stopped{border-color:var(--bad);background:var(--badbg);color:var(--bad)}
.printers .stopped b,.printers .stopped span{color:inherit}
.printers bdi{display:block;overflow-wrap:anywhere}
.printers .stopped span{font-weight:600}
.scroll{overflow-x:auto;margin:0 -20px;padding:0 20px}
table{width:100%;border-collapse:collapse;font-size:14px}
.turns th,.turns td{width:9%}.turns .wide{width:46%}
caption{text-align:left;color:var(--soft);font-size:13px;padding:0 0 6px}
th{font-weight:600;color:var(--soft);font-size:12px;text-align:left;padding:4px 12px 5px 0;
border-bottom:1px solid var(--line);white-space:nowrap}
td,tbody th{padding:7px 12px 7px 0;border-bottom:1px solid var(--line);vertical-align:top}
tbody th{color:var(--ink);font-size:14px}
tbody tr:last-child>*{border-bottom:0;padding-bottom:0}
.n{text-align:right;white-space:nowrap}
.who{width:36%;min-width:130px;overflow-wrap:anywhere}
.who bdi{display:-webkit-box;-webkit-box-orient:vertical;-webkit-line-clamp:3;overflow:hidden}
.who small{display:block;font-size:12.5px;line-height:1.3}
tbody th small{display:block;font-weight:400;font-size:12.5px;line-height:1.3}
.q{overflow-wrap:anywhere;width:13%;min-width:76px}
.st{width:26%;min-width:150px}
.st b{font-weight:600}
.st small{display:block;font-size:12.5px;line-height:1.3}
.go b{color:var(--good)}.stay b{color:var(--wait)}.ill b{color:var(--bad)}
.more{color:var(--soft)}
details summary{cursor:pointer;font-size:17px;font-weight:650}
details summary small{font-weight:400;font-size:14px;margin-left:6px}
details p{margin:10px 0 12px;max-width:70ch;color:var(--soft)}
.till{position:relative;height:14px;min-width:180px;margin-top:3px;border-radius:4px;background:var(--free);
overflow:hidden}
.till i{position:absolute;left:0;top:0;bottom:0}
.till .then{background:var(--out);opacity:.38}
.till .need{background:var(--lent)}
.peers{width:auto}.peers td{padding-right:28px}
nav{width:100%;display:flex;flex-wrap:wrap;gap:4px 18px;font-size:14px}
.hint{margin:12px 0 0;font-size:14px;color:var(--soft)}
footer{padding-top:4px;padding-bottom:28px;font-size:13px}
a{color:inherit}
@media (max-width:640px){header,main,footer{padding-left:12px;padding-right:12px}header .what{display:none}
.meta{width:100%}.tiles{grid-template-columns:repeat(2,1fr);gap:8px}
.tiles div:last-child:nth-child(odd){grid-column:span 2}.card{padding:13px 13px 14px}.scroll{margin:0 -13px;
padding:0 13px}.legend{grid-template-columns:1fr 1fr;gap:4px 16px}.plot svg{height:120px}table{font-size:13.5px}
.wide{display:none}.who{width:auto;min-width:88px}.st{width:auto;min-width:112px}.turns th,.turns td{width:auto}
.q{width:auto;min-width:58px}td,tbody th{padding-right:9px}.printers{grid-template-columns:repeat(auto-fill,
minmax(136px,1fr))}}
@media (max-width:480px){.jobs tr>:nth-child(4){display:none}.scroll th,.scroll .n{white-space:normal}.who{min-width:70px}
.q{min-width:40px}.st{min-width:88px}td,tbody th{padding-right:7px}.peers td{padding-right:10px}}
@media print{body{background:#fff;color:#000}.card,.tiles div{border-color:#999;break-inside:avoid}.bar i,.till i,
.bar,.till{print-color-adjust:exact}footer{display:none}}
"#;
