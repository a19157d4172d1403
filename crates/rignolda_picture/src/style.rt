/// How a picture looks: in light, and on a dark screen.
pub const STYLE: &str = r#"<style>
text { font-family: system-ui, "Segoe UI", Roboto, "DejaVu Sans", sans-serif; font-size: 13px;
  fill: #1c2430; stroke: none }
.mono { font-family: ui-monospace, Menlo, Consolas, "DejaVu Sans Mono", monospace;
  font-size: 12.5px; white-space: pre }
.title { font-size: 18px; font-weight: 600 }
.head { font-weight: 600; text-anchor: middle }
.mid { text-anchor: middle }
.end { text-anchor: end }
.soft { fill: #5b6675; font-size: 12px }
.good { fill: #0d7a4f }
.odd { fill: #c04a00 }
.bad { fill: #b3003c }
.paper { fill: #ffffff }
.band { fill: #f2f5f8 }
.life { stroke: #5b6675; stroke-width: 2 }
.frame { stroke: #1659b8; stroke-width: 2; fill: none }
.ack { stroke: #5f6b7a; stroke-width: 1.6; fill: none }
.stray { stroke: #c04a00; stroke-width: 2; fill: none }
.dash { stroke-dasharray: 5 4 }
.cross { stroke: #b3003c; stroke-width: 2.5 }
.box, circle { fill: #ffffff; stroke-width: 1.5 }
.label { fill: #ffffff; stroke: #5b6675; stroke-width: 1.5 }
.taken { fill: #0d7a4f }
.gone { fill: #b3003c }
.waits { fill: #8a95a3 }
.to-frame { fill: #1659b8 }
.to-ack { fill: #5f6b7a }
.to-stray { fill: #c04a00 }
@media screen and (prefers-color-scheme: dark) {
text { fill: #e8edf3 }
.soft { fill: #9aa6b4 }
.good { fill: #5fd3a2 }
.odd { fill: #ff9d5c }
.bad { fill: #ff7a9c }
.paper { fill: #12161c }
.band { fill: #1a2129 }
.life { stroke: #8793a1 }
.frame { stroke: #7db4ff; fill: none }
.ack { stroke: #a9b4c1; fill: none }
.stray { stroke: #ff9d5c; fill: none }
.cross { stroke: #ff7a9c }
.box, circle { fill: #12161c }
.label { fill: #12161c; stroke: #8793a1 }
.taken { fill: #4fb88c }
.gone { fill: #e0597c }
.waits { fill: #6d7885 }
.to-frame { fill: #7db4ff }
.to-ack { fill: #a9b4c1 }
.to-stray { fill: #ff9d5c }
}
</style>
<defs>
<marker id="to-frame" viewBox="0 0 10 10" refX="9" refY="5" markerWidth="8" markerHeight="8"
  markerUnits="userSpaceOnUse" orient="auto"><path class="to-frame" d="M0 0L10 5L0 10z"/></marker>
<marker id="to-ack" viewBox="0 0 10 10" refX="9" refY="5" markerWidth="8" markerHeight="8"
  markerUnits="userSpaceOnUse" orient="auto"><path class="to-ack" d="M0 0L10 5L0 10z"/></marker>
<marker id="to-stray" viewBox="0 0 10 10" refX="9" refY="5" markerWidth="8" markerHeight="8"
  markerUnits="userSpaceOnUse" orient="auto"><path class="to-stray" d="M0 0L10 5L0 10z"/></marker>
</defs>
"#;
