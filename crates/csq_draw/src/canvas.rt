//! What the elements of a picture are drawn on.
ghost use Rattle.std.specs.Prelude.{◌≡◌, ◌<◌, ◌≤◌, ℕ, List, length, OnOk};
ghost use Rattle.csq_draw.specs.Elements.{Drew};
ghost use Rattle.csq_draw.specs.Pictures.{each};
ghost use Rattle.csq_draw.specs.declared.element.Element.{Element as ElementOf};

use crate::element::Element;
use crate::extent::Extent;
use csq_explain::PassNow;
use std::alloc::AllocError;

/// What elements are drawn on, one after the other. What draws a picture is proved for each canvas, whatever it makes of
/// an element: so it draws just the elements that its contract names, in their order.
pub(crate) trait Canvas {
    ghost use Rattle.csq_draw.specs.declared.element.Element.{Element};

    /// What a canvas shows.
    ghost Image: { Type 0 };

    /// What this one shows.
    ghost image: { Self → Self.Image };

    /// What one shows after one more element.
    ghost added: { Self.Image → Element → Self.Image };

    /// Begins a picture of this extent, with these passes.
    fn begin(&mut self, passes: &[PassNow], extent: Extent) -> Result<(), AllocError>
        requires { length passes.now ≤ 65 }
        ensures { OnOk result (image self.new ≡ image self.old) };

    /// Draws an element.
    fn draw(&mut self, element: Element) -> Result<(), AllocError>
        ensures { OnOk result (image self.new ≡ added (image self.old) element) };
}

/// Draws each of these items, in order. If a call draws the elements of its item, all are drawn.
pub(crate) fn draw_each<T: Copy, C: Canvas, F: Fn(usize, T, &mut C) -> Result<(), AllocError>>(
    items: &[T],
    draw: F,
    out: &mut C,
) -> Result<(), AllocError>
    requires { (n : ℕ) (x : T) (before : _) → n < length items.now → F.pre draw n x before }
    ensures { (elements : ℕ → T → List ElementOf)
        → ((n : ℕ) (x : T) (before : _) (r : _) (after : _) → n < length items.now
        → F.post draw n x before r after
        → OnOk r (Drew C.added (C.image before.now) (C.image after.now) (elements n x)))
        → OnOk result (Drew C.added (C.image out.old) (C.image out.new)
        (each elements 0 items.now)) }
{
    for (n, item) in items.iter().enumerate() {
        draw(n, *item, out)?;
    }
    Ok(())
}
