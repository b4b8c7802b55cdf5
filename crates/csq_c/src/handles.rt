//! The handles that C keeps.
ghost use Rattle.std.specs.Prelude.{◌≡◌, Option};
ghost use Rattle.csq_checked.specs.Passes.{CheckedPassState};
ghost use Rattle.csq_ledger.specs.Ledgers.{LedgerState};
ghost use Rattle.csq_c.specs.Bodies.{QueueBodyState};
ghost use Rattle.csq_c.specs.Replays.{ReplayState};

mod lent;

use crate::body::QueueBody;
pub(crate) use crate::handles::lent::lend;
use crate::hold::{Handle, Hold};
use crate::replay::ReplayBody;
use csq_checked::CheckedPass;
use csq_ledger::Ledger;
use std::marker::Model;

/// The address of a queue, or null.
#[repr(C)]
pub struct QueueBox {
    at: *mut u8,
    pub ghost body: { Option QueueBodyState },
}

impl Model for QueueBox {
    ghost use Rattle.csq_c.specs.Holds.{held};
    ghost use Rattle.csq_c.specs.contracts.body.QueueBody.{the_row};

    ghost also_owns = { λ q. held the_row q.at q.body };
}

impl Handle for QueueBox {
    type Body = QueueBody;

    ghost held_in = { λ q. q.body };

    fn of(hold: Hold<QueueBody>) -> QueueBox
        ensures { result.body ≡ hold.body }
    {
        let Hold { at } = hold;
        QueueBox { at: at as *mut u8 }
    }

    fn into_hold(self) -> Hold<QueueBody>
        ensures { result.body ≡ self.body }
    {
        let QueueBox { at } = self;
        Hold {
            at: at as *mut QueueBody,
        }
    }
}

/// The address of a pass, or null.
#[repr(C)]
pub struct PassBox {
    at: *mut u8,
    pub ghost body: { Option CheckedPassState },
}

impl Model for PassBox {
    ghost use Rattle.csq_c.specs.Holds.{held};
    ghost use Rattle.csq_checked.specs.contracts.pass.CheckedPass.{the_row};

    ghost also_owns = { λ p. held the_row p.at p.body };
}

impl Handle for PassBox {
    type Body = CheckedPass;

    ghost held_in = { λ p. p.body };

    fn of(hold: Hold<CheckedPass>) -> PassBox
        ensures { result.body ≡ hold.body }
    {
        let Hold { at } = hold;
        PassBox { at: at as *mut u8 }
    }

    fn into_hold(self) -> Hold<CheckedPass>
        ensures { result.body ≡ self.body }
    {
        let PassBox { at } = self;
        Hold {
            at: at as *mut CheckedPass,
        }
    }
}

/// The address of a ledger, or null.
#[repr(C)]
pub struct LedgerBox {
    at: *mut u8,
    pub ghost body: { Option LedgerState },
}

impl Model for LedgerBox {
    ghost use Rattle.csq_c.specs.Holds.{held};
    ghost use Rattle.csq_ledger.specs.contracts.ledger.Ledger.{the_row};

    ghost also_owns = { λ l. held the_row l.at l.body };
}

impl Handle for LedgerBox {
    type Body = Ledger;

    ghost held_in = { λ l. l.body };

    fn of(hold: Hold<Ledger>) -> LedgerBox
        ensures { result.body ≡ hold.body }
    {
        let Hold { at } = hold;
        LedgerBox { at: at as *mut u8 }
    }

    fn into_hold(self) -> Hold<Ledger>
        ensures { result.body ≡ self.body }
    {
        let LedgerBox { at } = self;
        Hold {
            at: at as *mut Ledger,
        }
    }
}

/// The address of a replay, or null.
#[repr(C)]
pub struct ReplayBox {
    at: *mut u8,
    pub ghost body: { Option ReplayState },
}

impl Model for ReplayBox {
    ghost use Rattle.csq_c.specs.Holds.{held};
    ghost use Rattle.csq_c.specs.contracts.replay.body.ReplayBody.{the_row};

    ghost also_owns = { λ r. held the_row r.at r.body };
}

impl Handle for ReplayBox {
    type Body = ReplayBody;

    ghost held_in = { λ r. r.body };

    fn of(hold: Hold<ReplayBody>) -> ReplayBox
        ensures { result.body ≡ hold.body }
    {
        let Hold { at } = hold;
        ReplayBox { at: at as *mut u8 }
    }

    fn into_hold(self) -> Hold<ReplayBody>
        ensures { result.body ≡ self.body }
    {
        let ReplayBox { at } = self;
        Hold {
            at: at as *mut ReplayBody,
        }
    }
}

/// The handle of a queue, or an empty one. C sees the address and the number.
#[repr(C)]
pub struct CsqQueue {
    pub boxed: QueueBox,
    /// The queue's number.
    pub number: u64,
}

/// The handle of a pass, or an empty one. C sees the address and the number.
#[repr(C)]
pub struct CsqPass {
    pub boxed: PassBox,
    /// The number of the queue that made the pass.
    pub queue: u64,
}

/// The handle of a ledger, or an empty one. C sees the address.
#[repr(C)]
pub struct CsqLedger {
    pub boxed: LedgerBox,
}

/// The handle of a replay, or an empty one. C sees the address.
#[repr(C)]
pub struct CsqReplay {
    pub boxed: ReplayBox,
}
