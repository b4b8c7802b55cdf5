//! In which form a schedule is drawn, which of its steps, and how far.
use irp_core::IrpId;

/// What a schedule is drawn as. Own rule.
#[derive(Clone, Copy, Debug, PartialEq, Eq)]
pub enum Format {
    /// An SVG picture.
    Svg,
    /// Lines of text, for a terminal.
    Text,
}

/// Which steps a picture shows: those that this line or a later one names, and only those of one IRP, in any of its
/// lives, if one is given. Own rule.
#[derive(Clone, Copy, Debug, PartialEq, Eq)]
pub struct Window {
    /// The number of the first line, from 1 on.
    pub from: usize,
    /// The IRP.
    pub irp: Option<IrpId>,
}

/// In which form a schedule is drawn, which of its steps, and how far. Own rule.
#[derive(Clone, Copy, Debug, PartialEq, Eq)]
pub struct PictureView {
    /// The form.
    pub format: Format,
    /// Which steps: all, if there is no window.
    pub window: Option<Window>,
    /// Whether the drawing goes on after a step that the protocol refuses, by the two words of each IRP alone. Otherwise
    /// that step ends it.
    pub wrong: bool,
}
