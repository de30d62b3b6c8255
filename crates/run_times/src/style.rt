//! The parts of a picture that are the same in each.

/// Its style, for light and dark screens, and what the colours mean.
pub(crate) const STYLE: &str = "<style>
text{font:11px monospace;fill:#1f2328}
.ground{fill:#ffffff}
.grid{stroke:#d0d7de}
g rect{stroke:#ffffff;stroke-width:0.4}
.good rect{fill:#9bd6a3}
.bad rect{fill:#f49a94}
.accepted rect{fill:#f2dc84}
.signal rect{fill:#d6a4e6}
.gone rect{fill:#c4cad0}
.runs rect{fill:#9dccf5}
.load{fill:#8aa2b8}
.script rect{fill-opacity:0.55}
.path rect{stroke:#1f2328;stroke-width:1.4}
.path text{font-weight:bold}
@media (prefers-color-scheme:dark){
text{fill:#e6edf3}
.ground{fill:#0d1117}
.grid{stroke:#30363d}
g rect{stroke:#0d1117}
.good rect{fill:#2c6e3a}
.bad rect{fill:#a5342f}
.accepted rect{fill:#7d6410}
.signal rect{fill:#7a3f93}
.gone rect{fill:#57606a}
.runs rect{fill:#25609c}
.load{fill:#5d7791}
.path rect{stroke:#f0f6fc}
}
</style>
<rect class=\"ground\" width=\"100%\" height=\"100%\"/>
<g class=\"good\"><rect x=\"20\" y=\"8\" width=\"12\" height=\"12\"/><text x=\"36\" y=\"18\">exit 0</text></g>
<g class=\"bad\"><rect x=\"92\" y=\"8\" width=\"12\" height=\"12\"/><text x=\"108\" y=\"18\">another exit, or not started</text></g>
<g class=\"accepted\"><rect x=\"312\" y=\"8\" width=\"12\" height=\"12\"/><text x=\"328\" y=\"18\">accepted by POST</text></g>
<g class=\"signal\"><rect x=\"451\" y=\"8\" width=\"12\" height=\"12\"/><text x=\"467\" y=\"18\">signal</text></g>
<g class=\"gone\"><rect x=\"523\" y=\"8\" width=\"12\" height=\"12\"/><text x=\"539\" y=\"18\">killed, lost or untold</text></g>
<g class=\"runs\"><rect x=\"702\" y=\"8\" width=\"12\" height=\"12\"/><text x=\"718\" y=\"18\">runs</text></g>
<g class=\"good script\"><rect x=\"761\" y=\"8\" width=\"12\" height=\"12\"/><text x=\"777\" y=\"18\">paler: a script</text></g>
<g class=\"good path\"><rect x=\"893\" y=\"8\" width=\"12\" height=\"12\"/><text x=\"909\" y=\"18\">critical path</text></g>
";
