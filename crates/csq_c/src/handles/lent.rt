//! What stands behind a handle, lent to one call, which doesn't write the handle.
ghost use Rattle.std.specs.Prelude.{◌≡◌, Some, None, MatchOption, ◌↔◌, false};
ghost use Rattle.std.specs.Borrow.{sem};
ghost use Rattle.csq_c.specs.Lends.{LendsQueue, LendsPass, LendsLedger, LendsReplay};

use crate::body::QueueBody;
use crate::handles::{LedgerBox, PassBox, QueueBox, ReplayBox};
use crate::replay::ReplayBody;
use csq_checked::CheckedPass;
use csq_ledger::Ledger;

/// Lends what a handle holds to one call, or ends the call with the code of an empty handle; or what the handles of
/// a queue and of a pass hold, or ends it with that code, or with that of a pass of another queue. Own rule.
macro_rules! lend {
    ($body:ident in $handle:ident) => {
        let Some($body) = $handle.boxed.lent() else {
            return Code::EmptyHandle.number();
        };
    };
    ($body:ident in $queue:ident, $by:ident in $pass:ident) => {
        lend!($body in $queue);
        lend!($by in $pass);
        if $pass.queue != $queue.number {
            return Code::OtherQueue.number();
        }
    };
}

pub(crate) use lend;

impl QueueBox {
    /// The queue, or None if the handle is empty. Own rule.
    pub(crate) fn lent(&mut self) -> Option<&mut QueueBody>
        ensures* writes_back { sem 𝓛 (LendsQueue self.entry result) }
        ensures value { MatchOption result (self.old.body ≡ None)
            (λ body. self.old.body ≡ Some body.now) }
    {
        let at = self.at as *mut QueueBody;
        if at.is_null() {
            return None;
        }
        // SAFETY: only this library writes `at`: null, or the address of a box that it made and that is taken out only by
        // a call that writes null. Two calls at a time have no handle, as the header asks, so none borrows it twice.
        Some(unsafe { &mut *at })
    }

    /// Whether there is a queue.
    pub(crate) fn is_filled(&mut self) -> bool
        ensures answer { result ≡ false ↔ self.old.body ≡ None }
        ensures same { self.new.body ≡ self.old.body }
    {
        match self.lent() {
            None => false,
            Some(_) => true,
        }
    }
}

impl PassBox {
    /// The pass, or None if the handle is empty. Own rule.
    pub(crate) fn lent(&mut self) -> Option<&mut CheckedPass>
        ensures* writes_back { sem 𝓛 (LendsPass self.entry result) }
        ensures value { MatchOption result (self.old.body ≡ None)
            (λ body. self.old.body ≡ Some body.now) }
    {
        let at = self.at as *mut CheckedPass;
        if at.is_null() {
            return None;
        }
        // SAFETY: as of a queue's handle; a pass has one thread at a time.
        Some(unsafe { &mut *at })
    }

    /// Whether there is a pass.
    pub(crate) fn is_filled(&mut self) -> bool
        ensures answer { result ≡ false ↔ self.old.body ≡ None }
        ensures same { self.new.body ≡ self.old.body }
    {
        match self.lent() {
            None => false,
            Some(_) => true,
        }
    }
}

impl LedgerBox {
    /// The ledger, or None if the handle is empty. Own rule.
    pub(crate) fn lent(&mut self) -> Option<&mut Ledger>
        ensures* writes_back { sem 𝓛 (LendsLedger self.entry result) }
        ensures value { MatchOption result (self.old.body ≡ None)
            (λ body. self.old.body ≡ Some body.now) }
    {
        let at = self.at as *mut Ledger;
        if at.is_null() {
            return None;
        }
        // SAFETY: as of a queue's handle.
        Some(unsafe { &mut *at })
    }

    /// Whether there is a ledger.
    pub(crate) fn is_filled(&mut self) -> bool
        ensures answer { result ≡ false ↔ self.old.body ≡ None }
        ensures same { self.new.body ≡ self.old.body }
    {
        match self.lent() {
            None => false,
            Some(_) => true,
        }
    }
}

impl ReplayBox {
    /// The replay, or None if the handle is empty. Own rule.
    pub(crate) fn lent(&mut self) -> Option<&mut ReplayBody>
        ensures* writes_back { sem 𝓛 (LendsReplay self.entry result) }
        ensures value { MatchOption result (self.old.body ≡ None)
            (λ body. self.old.body ≡ Some body.now) }
    {
        let at = self.at as *mut ReplayBody;
        if at.is_null() {
            return None;
        }
        // SAFETY: as of a queue's handle.
        Some(unsafe { &mut *at })
    }

    /// Whether there is a replay.
    pub(crate) fn is_filled(&mut self) -> bool
        ensures answer { result ≡ false ↔ self.old.body ≡ None }
        ensures same { self.new.body ≡ self.old.body }
    {
        match self.lent() {
            None => false,
            Some(_) => true,
        }
    }
}
