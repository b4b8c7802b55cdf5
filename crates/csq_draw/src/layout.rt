//! Where things stand in a picture, in pixels.
ghost use Rattle.std.specs.Prelude.{◌<◌, ◌≤◌, ◌^◌};

/// The left edge of a column.
pub(crate) fn left(column: u32) -> u64
    ensures least { 68 ≤ result }
    ensures most { result < 2 ^ 41 }
{
    68 + 284 * u64::from(column)
}

/// The upper edge of a row, which is 60 pixels high.
pub(crate) fn top(row: u32) -> u64
    ensures { result < 2 ^ 39 }
{
    40 + 60 * u64::from(row)
}

/// Right of this number of columns of passes, where the Cancel flag of an IRP is drawn, by the IRP's place.
pub(crate) fn flag_x(columns: u32, place: u32) -> u64
    ensures { result < 2 ^ 42 }
{
    left(columns) + 28 + 96 * u64::from(place)
}

/// Where its cancel routine is drawn.
pub(crate) fn routine_x(columns: u32, place: u32) -> u64
    ensures { result < 2 ^ 43 }
{
    flag_x(columns, place) + 42
}
