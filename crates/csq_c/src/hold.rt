//! A box that a program in C holds by its address.
ghost use Rattle.std.specs.Prelude.{◌≡◌, ◌↔◌, ◌⊎◌, Option, Some, None, Ok, Err, IfErr, IfOk, MatchOption};

use crate::codes::{Code, of_new};
use irp_core::SizeRefused;
use std::alloc::Global;
use std::marker::Model;
use std::mem::replace;
use std::ptr::null_mut;

/// A box, or nothing. A contract sees it as its `body`.
pub(crate) struct Hold<T> {
    pub(crate) at: *mut T,
    pub(crate) ghost body: { Option T },
}

impl<T> Model for Hold<T> {
    ghost use Rattle.csq_c.specs.Holds.{held};

    ghost also_owns = { λ h. held T.row h.at h.body };
}

impl<T> Hold<T> {
    /// Nothing.
    pub(crate) fn empty() -> Hold<T>
        ensures { result.body ≡ None }
    {
        Hold { at: null_mut() }
    }

    /// Lets nothing go.
    pub(crate) fn end(self)
        requires { self.body ≡ None }
    {
        let Hold { at: _ } = self;
    }

    /// The box, or nothing.
    pub(crate) fn into_body(self, alloc: Global) -> Option<Box<T>>
        ensures { MatchOption result (self.body ≡ None) (λ body. self.body ≡ Some body.value) }
    {
        let Hold { at } = self;
        if at.is_null() {
            return None;
        }
        // SAFETY: `at` is the address of a box that `of` was given, and this is its only holder: nobody frees it twice.
        Some(unsafe { Box::from_raw(alloc, at) })
    }
}

impl<T: Drop> Hold<T> {
    /// This box.
    pub(crate) fn of(body: Box<T>) -> Hold<T>
        ensures { result.body ≡ Some body.value }
    {
        Hold {
            at: Box::into_raw(body),
        }
    }
}

/// A struct of C's whose one field is the address of a box, or null.
pub(crate) trait Handle {
    /// What is in the box.
    type Body: Drop;

    ghost held_in: { Self → Option Self.Body };

    /// The handle of what is held.
    fn of(hold: Hold<Self::Body>) -> Self
        ensures { held_in result ≡ hold.body };

    /// What the handle held.
    fn into_hold(self) -> Hold<Self::Body>
        ensures { result.body ≡ held_in self };
}

/// Takes the box out. None, and nothing is changed, if there was none.
pub(crate) fn take<H: Handle>(handle: &mut H, alloc: Global) -> Option<Box<H::Body>>
    ensures taken { MatchOption result (H.held_in handle.old ≡ None)
        (λ there. H.held_in handle.old ≡ Some there.value) }
    ensures after { H.held_in handle.new ≡ None }
{
    let whole = replace(handle, H::of(Hold::empty()));
    whole.into_hold().into_body(alloc)
}

/// Puts a box into a handle that is empty. What the handle was is let go without a look at it, so
/// nothing is freed here.
pub(crate) fn put<H: Handle>(handle: &mut H, body: Box<H::Body>)
    requires { H.held_in handle.old ≡ None }
    ensures { H.held_in handle.new ≡ Some body.value }
{
    let empty = replace(handle, H::of(Hold::of(body)));
    empty.into_hold().end();
}

/// The box of what was made, or why there is none.
pub(crate) fn boxed<T: Drop>(alloc: Global, made: Result<T, SizeRefused>) -> Result<Box<T>, Code>
    ensures made { IfOk result (λ body. made ≡ Ok body.value) }
    ensures bad_size { (result ≡ Err Code.BadSize) ↔ (made ≡ Err SizeRefused.BadSize) }
    ensures cause { IfErr result (λ code. (code ≡ Code.BadSize) ⊎ (code ≡ Code.NoMemory)) }
{
    let body = match made {
        Ok(body) => body,
        Err(refused) => return Err(of_new(refused)),
    };
    match Box::new(alloc, body) {
        Ok(body) => Ok(body),
        Err(_) => Err(Code::NoMemory),
    }
}

/// Puts what is made into an empty handle. Own rule.
macro_rules! fill {
    ($handle:ident, $alloc:ident, $made:expr) => {{
        if $handle.boxed.is_filled() {
            return Code::NotEmpty.number();
        }
        match boxed($alloc, $made) {
            Err(code) => code.number(),
            Ok(body) => {
                put(&mut $handle.boxed, body);
                Code::Done.number()
            }
        }
    }};
}

pub(crate) use fill;
