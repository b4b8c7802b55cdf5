//! What stands above the rows of a picture, and below all else on its sheet.
ghost use Rattle.std.specs.Prelude.{◌<◌, ◌≤◌, ◌^◌, length};

use crate::caption::{Caption, PassName};
use crate::extent::Extent;
use crate::layout::left;
use crate::passes::{column_of, makes_step};
use csq_explain::PassNow;
use irp_core::PassId;
use std::alloc::{AllocError, Allocator};
use std::fmt;

/// What a picture is, for a reader who can't see it, and the look of all that is drawn, on a light page, on a dark one
/// and in print.
pub const PICTURE_HEAD: &str = "\
<desc>Each column is a pass, and time runs downwards. A row is one atomic step: its line in the schedule, \
and in the column of its pass what it did, to which IRP, what it found, and the call of the WDK that it is. \
An arrow runs to a step that found a word set from the step of another pass that set it. \
At the right stand the Cancel flag and the cancel routine of each IRP.</desc>
<defs><marker id='arrow' viewBox='0 0 8 8' refX='7' refY='4' markerWidth='8' markerHeight='8' orient='auto'>\
<path class='ah' d='M0 0L8 4L0 8z'/></marker></defs>
<style>
.sheet{fill:#ffffff}.l{fill:#cfd8e3}.h{fill:#6e7781}.a{fill:none;stroke:#57606a;stroke-width:1.5;marker-end:url(#arrow)}.ah{fill:#57606a}
.k0{color:#0969da;fill:#ddf4ff}.k1{color:#bc4c00;fill:#fff1e5}
.k2{color:#1a7f37;fill:#dafbe1}.k3{color:#8250df;fill:#fbefff}
.k4{color:#9a6700;fill:#fff8c5}.k5{color:#bf3989;fill:#ffeff7}
.k6{color:#0f766e;fill:#e6fffa}.k7{color:#57606a;fill:#ffffff}
.e{color:#57606a;fill:#ffffff}.bad,.x{color:#cf222e;fill:#ffebe9}
.k0,.k1,.k2,.k3,.k4,.k5,.k6,.k7,.e,.bad,.x{stroke:currentColor}
.d{fill:#eaeef2;stroke-dasharray:3 2}.bad rect{stroke-width:3}.c rect{stroke-width:3}.c .w{font-weight:bold}
.owes,.holds{fill:none;stroke-width:3}.owes{stroke-dasharray:4 3}.g{stroke:#d1d9e0}
text{fill:#1f2328;stroke:none}.f,.x text{fill:#cf222e;font-weight:bold}.x text{text-anchor:end}.x rect{fill:none;stroke-width:3}.s,.m,.x text{font-size:10.5px}.s,.m,.n,.q{fill:#424a53}
.m{font-family:ui-monospace,SFMono-Regular,Consolas,'DejaVu Sans Mono',monospace;font-size:10px}
.t{font-size:16px;font-weight:bold}.t tspan{fill:#59636e;font-size:10.5px;font-weight:normal}
.p{font-weight:bold;text-anchor:middle}.o{text-anchor:middle}.q{font-size:9px;text-anchor:middle}.n,.v{text-anchor:end}
circle.on{fill:currentColor}circle.off{fill:#ffffff}circle.b{stroke-width:3}
.bar{fill:none;stroke-opacity:.45}.bar.on{stroke-width:6}.bar.off{stroke-width:1.5}
@media screen and (prefers-color-scheme:dark){.sheet{fill:#0d1117}.l{fill:#38424e}.h{fill:#8b949e}.a{stroke:#b1bac4}.ah{fill:#b1bac4}
.k0{color:#58a6ff;fill:#0c2d6b}.k1{color:#f0883e;fill:#5a1e02}
.k2{color:#3fb950;fill:#033a16}.k3{color:#bc8cff;fill:#3c1e70}
.k4{color:#d29922;fill:#4b2900}.k5{color:#f778ba;fill:#5e103e}
.k6{color:#2dd4bf;fill:#063b38}.k7{color:#8b949e;fill:#0d1117}
.e{color:#8b949e;fill:#0d1117}.bad,.x{color:#f85149;fill:#67060c}
.d{fill:#262c36}.owes,.holds,.bar,.a{fill:none}.g{stroke:#30363d}circle.off{fill:#0d1117}
text{fill:#e6edf3}.f,.x text{fill:#f85149}.s,.m,.n,.q,.t tspan{fill:#b1bac4}}
</style>";

/// What stands above all elements of a picture and below them on its sheet: its size, its name, what all pictures share,
/// its sheet and its caption.
#[derive(Clone, Copy)]
pub(crate) struct Head<'a> {
    extent: Extent,
    title: &'a str,
    below: &'a str,
    lines: u32,
}

impl Head<'_> {
    /// That of a picture of this extent with this caption.
    pub(crate) fn new<A: Allocator>(extent: Extent, caption: &Caption<A>) -> Head<'_> {
        Head {
            extent,
            title: caption.title.as_str(),
            below: caption.below.as_str(),
            lines: caption.lines,
        }
    }

    /// How much of the picture the caption takes, above all else.
    fn above(&self) -> u64
        ensures { result < 2 ^ 40 }
    {
        match self.lines {
            0 => 0,
            lines => 18 * u64::from(lines) + 22,
        }
    }
}

/// How far the caption of a picture raises its upper edge.
#[derive(Clone, Copy)]
struct Edge(u64);

/// As `-58`, and `0` without a caption.
impl fmt::Display for Edge {
    fn fmt<W: fmt::Write>(&self, f: &mut fmt::Formatter<W>) -> fmt::Result {
        match self.0 {
            0 => write!(f, "0"),
            above => write!(f, "-{above}"),
        }
    }
}

/// The name of a picture: the title of its caption, and without one how many steps there are.
#[derive(Clone, Copy)]
struct Name<'a>(Head<'a>);

impl fmt::Display for Name<'_> {
    fn fmt<W: fmt::Write>(&self, f: &mut fmt::Formatter<W>) -> fmt::Result {
        match self.0.title {
            "" => write!(f, "The steps of a schedule: {}", self.0.extent.rows),
            title => write!(f, "{title}"),
        }
    }
}

/// A caption: its title, and the lines below.
#[derive(Clone, Copy)]
struct Heading<'a>(Head<'a>);

/// On a line of its own, and nothing if there is none.
impl fmt::Display for Heading<'_> {
    fn fmt<W: fmt::Write>(&self, f: &mut fmt::Formatter<W>) -> fmt::Result {
        let Head {
            lines,
            title,
            below,
            ..
        } = self.0;
        if lines == 0 {
            return Ok(());
        }
        let above = 18 * u64::from(lines) - 8;
        writeln!(
            f,
            "<text class='t' x='56' y='-{above}'>{title}{below}</text>"
        )
    }
}

impl fmt::Display for Head<'_> {
    fn fmt<W: fmt::Write>(&self, f: &mut fmt::Formatter<W>) -> fmt::Result {
        let (width, above) = (self.extent.width(), self.above());
        let (height, edge) = (above + self.extent.height(), Edge(above));
        let (name, heading) = (Name(*self), Heading(*self));
        writeln!(
            f,
            "<svg xmlns='http://www.w3.org/2000/svg' width='{width}' height='{height}' viewBox='0 {edge} {width} {height}' font-family='system-ui,-apple-system,Segoe UI,DejaVu Sans,sans-serif' font-size='12'>"
        )?;
        writeln!(f, "<title>{name}</title>\n{PICTURE_HEAD}")?;
        writeln!(
            f,
            "<rect class='sheet' y='{edge}' width='{width}' height='{height}'/>"
        )?;
        write!(f, "{heading}")
    }
}

/// Writes the names of passes that make steps, each beside its number.
pub(crate) fn write_names<A: Allocator>(
    passes: &[PassNow],
    names: &[PassName<A>],
    text: &mut String<A>,
) -> Result<(), AllocError>
    requires { length passes.now ≤ 65 }
{
    for named in names {
        if makes_step(passes, named.pass) {
            let x = left(column_of(passes, named.pass)) + 130;
            writeln!(text, "<text class='s' x='{x}' y='26'{}</text>", named.name)?;
        }
    }
    Ok(())
}

/// The name of a pass over its column, and a line down this column over this number of rows.
#[derive(Clone, Copy)]
pub(crate) struct Column {
    pub(crate) column: u32,
    pub(crate) pass: PassId,
    pub(crate) rows: u32,
}
