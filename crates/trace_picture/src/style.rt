use owned_lists::{NoMemory, Octets};

/// How the picture looks, on a light ground and on a dark one.
const STYLE: &str = "<style>
text { font-family: sans-serif; font-size: 12px; fill: #1c2128; }
.paper { fill: #ffffff; }
.name { font-weight: bold; font-size: 13px; }
.faint { fill: #57606a; font-size: 11px; }
.stem { stroke: #8c959f; stroke-width: 1.5; }
.says { stroke: #0a58ca; stroke-width: 1.6; }
.told { stroke: #9a4b00; stroke-width: 1.6; }
.says-head { fill: #0a58ca; }
.told-head { fill: #9a4b00; }
.dot { fill: #57606a; }
.cross { stroke: #b3261e; stroke-width: 2; }
.checkpoint { fill: #d7e8fb; }
.logout { fill: #fbe3cf; }
.checkpoint-edge { stroke: #0a58ca; stroke-width: 2; }
.logout-edge { stroke: #9a4b00; stroke-width: 2; }
@media (prefers-color-scheme: dark) {
text { fill: #e6edf3; }
.paper { fill: #0d1117; }
.faint { fill: #9da7b3; }
.stem { stroke: #6e7681; }
.says { stroke: #79b8ff; }
.told { stroke: #ffab70; }
.says-head { fill: #79b8ff; }
.told-head { fill: #ffab70; }
.dot { fill: #9da7b3; }
.cross { stroke: #ff7b72; }
.checkpoint { fill: #12304f; }
.logout { fill: #4a2c11; }
.checkpoint-edge { stroke: #79b8ff; }
.logout-edge { stroke: #ffab70; }
}
</style>
";

/// Appends how the picture looks.
pub fn put_style(out: &mut Octets) -> Result<(), NoMemory> {
    out.append(STYLE.as_bytes())
}
