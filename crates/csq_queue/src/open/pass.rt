//! The passes of a queue without a name. Their calls that cancel, complete and read take no queue.
ghost use Rattle.std.specs.Prelude.{◌≡◌, ◌≤◌};
ghost use Rattle.irp_core.specs.declared.status.TheConstants.NtStatus.{CANCELLED};
ghost use Rattle.irp_core.specs.Own.{held_list, owed_list};
ghost use Rattle.csq_words.specs.Records.{prefix_of};
ghost use Rattle.csq_words.specs.Seats.{seen_at};
ghost use Rattle.csq_queue.specs.Calls.{MarksCancel, CompletesOne, ReadsFlag, ReadsStatus, Learns};
ghost use Rattle.csq_queue.specs.Counts.{AreApart, held_count, owed_count};
ghost use Rattle.csq_queue.specs.Opens.{IsPassOn};
ghost use Rattle.csq_queue.specs.Owned.{Holds, HoldsRemoved};

use crate::refusals::{CancelRefused, UnknownIrp};
use csq_words::{PassSeat, SeenPrefix, Words, bit_word, flag_read};
use irp_core::{FinalStatus, IrpId, IrpLife, Life, NtStatus};
use std::alloc::Allocator;
use std::marker::Model;

/// A pass of a queue without a name, through which one thread at a time makes its calls. A contract sees
/// the table of its words, how many IRPs and passes its queue has, and what is known of the pass: the
/// history that it has seen and the execution as it last saw it, its calls, the steps that it made, what
/// it completed, and the lives that its cancels found. Own rule.
#[derive(Drop)]
pub struct OpenPass {
    pub(crate) seat: PassSeat,
    pub(crate) number: u32,
    // How many IRPs it holds.
    pub(crate) tokens: u32,
    // How many IRPs it owes.
    pub(crate) claims: u32,
    // How many IRPs its queue has.
    pub(crate) irps: u32,
    // How many passes its queue has, for its contracts alone.
    pub(crate) passes: u32,
}

impl Model for OpenPass {
    ghost use Rattle.std.specs.Prelude.{◌≤◌};
    ghost use Rattle.csq_words.specs.Seats.{pass_record};
    ghost use Rattle.csq_queue.specs.Opens.{OpenPassState, seat_table};
    ghost use Rattle.irp_core.specs.declared.limits.TheConstants.{LARGE_MAX_IRPS};
    ghost use Rattle.csq_queue.specs.Named.{IsPassSeatOf};

    ghost Value = { OpenPassState };

    ghost view = { λ p. record {
      table = seat_table p.seat;
      irps = p.irps;
      passes = p.passes;
      pass
          = pass_record p.seat;
    } };

    ghost invariant = { λ p. IsPassSeatOf (seat_table p.seat) p.irps p.passes p.seat p.number
        p.tokens p.claims × (p.irps ≤ LARGE_MAX_IRPS) };
}

impl OpenPass {
    /// Its number: 1, 2, and so on.
    pub fn number(&self) -> u32
        ensures number { result ≡ self.now.pass.pass.0 }
        ensures range { (1 ≤ result) × (result ≤ self.now.passes) }
    {
        self.number
    }

    /// How many IRPs the pass holds. Own rule.
    pub fn tokens(&self) -> u32
        ensures count { result ≡ held_count self.now.pass.steps }
        ensures apart { AreApart self.now.irps (held_list self.now.pass.steps) }
    {
        let OpenPass { tokens, .. } = self;
        *tokens
    }

    /// How many IRPs the pass owes. Own rule.
    pub fn claims(&self) -> u32
        ensures count { result ≡ owed_count self.now.pass.steps }
        ensures apart { AreApart self.now.irps (owed_list self.now.pass.steps) }
    {
        let OpenPass { claims, .. } = self;
        *claims
    }

    /// Sets the Cancel flag of an IRP in the life named and takes its cancel routine, as
    /// `Csq::mark_cancel` does. If the routine was there, the pass owes the IRP, which is returned.
    pub fn mark_cancel<A: Allocator>(
        &mut self,
        words: &Words<A>,
        irp: IrpId,
        life: Life,
    ) -> Result<Option<IrpLife>, CancelRefused>
        requires { IsPassOn words.now self.old }
        ensures call { MarksCancel irp life result words.now.size self.old.pass self.new.pass }
        ensures place { self.new ≡ record self.old { pass = self.new.pass } }
    {
        if irp.0 >= self.irps {
            return Err(CancelRefused::UnknownIrp);
        }
        let named = IrpLife { irp, life };
        // The flag before the routine: an insert that arms too late for the take then finds the flag.
        let (found, _) = flag_read(self.seat.flag(words, named));
        if found.0 != life.0 {
            // The flag of another life was left alone, and so is its routine.
            return Err(CancelRefused::Stale(found));
        }
        let set = bit_word(life, true);
        // The exchange that decides. If it finds no routine, some other exchange has found it, or no
        // insert has armed the IRP in this life yet, and one that does will find the flag.
        if self.seat.take(words, named) != set {
            return Ok(None);
        }
        // The IRP is still listed, and nobody but this pass may take it out, under the lock.
        self.claims += 1;
        Ok(Some(named))
    }

    /// Completes an IRP that the pass got by a removal, as `Csq::complete` does: nobody completed it
    /// before.
    pub fn complete<A: Allocator>(&mut self, words: &Words<A>, irp: IrpLife, status: FinalStatus)
        requires pass { IsPassOn words.now self.old }
        requires held { HoldsRemoved self.old.irps self.old.pass irp }
        ensures call { CompletesOne irp status words.now.size self.old.pass self.new.pass }
        ensures place { self.new ≡ record self.old { pass = self.new.pass } }
    {
        // No lock is needed: the IRP has left the list, and this pass alone holds it.
        self.seat.done(words, irp, status);
        self.tokens -= 1;
    }

    /// Completes an IRP that the pass holds with STATUS_CANCELLED, as `Csq::complete_cancelled` does:
    /// nobody completed it before.
    pub fn complete_cancelled<A: Allocator>(&mut self, words: &Words<A>, irp: IrpLife)
        requires pass { IsPassOn words.now self.old }
        requires held { Holds self.old.irps self.old.pass irp }
        ensures call { CompletesOne irp CANCELLED words.now.size self.old.pass self.new.pass }
        ensures place { self.new ≡ record self.old { pass = self.new.pass } }
    {
        // No lock is needed: the IRP has left the list, and this pass alone holds it.
        self.seat.done(words, irp, FinalStatus::cancelled());
        self.tokens -= 1;
    }

    /// The life that an IRP's Cancel flag stands for, and whether it is set there, as `Csq::is_cancelled`
    /// reads it.
    pub fn is_cancelled<A: Allocator>(
        &mut self,
        words: &Words<A>,
        irp: IrpId,
    ) -> Result<(Life, bool), UnknownIrp>
        requires { IsPassOn words.now self.old }
        ensures call { ReadsFlag irp result words.now.size self.old.pass self.new.pass }
        ensures place { self.new ≡ record self.old { pass = self.new.pass } }
    {
        if irp.0 >= self.irps {
            return Err(UnknownIrp);
        }
        Ok(self.seat.read_cancel(words, irp))
    }

    /// The life that an IRP's status stands for, and the status, once it is completed there, as
    /// `Csq::status` reads it.
    pub fn status<A: Allocator>(
        &mut self,
        words: &Words<A>,
        irp: IrpId,
    ) -> Result<(Life, Option<NtStatus>), UnknownIrp>
        requires { IsPassOn words.now self.old }
        ensures call { ReadsStatus irp result words.now.size self.old.pass self.new.pass }
        ensures place { self.new ≡ record self.old { pass = self.new.pass } }
    {
        if irp.0 >= self.irps {
            return Err(UnknownIrp);
        }
        Ok(self.seat.read_status(words, irp))
    }

    /// What the pass has seen, to be handed to other passes, as `Csq::seen` does.
    pub fn seen<A: Allocator>(&mut self, words: &Words<A>) -> SeenPrefix
        requires { IsPassOn words.now self.old }
        ensures same { self.new ≡ self.old }
        ensures prefix { result ≡ seen_at words.now.table (prefix_of self.old.pass) }
    {
        self.seat.seen(words)
    }

    /// Learns what another pass had seen, as `Csq::learn` does.
    pub fn learn<A: Allocator>(&mut self, words: &Words<A>, seen: SeenPrefix)
        requires pass { IsPassOn words.now self.old }
        requires table { seen.table ≡ words.now.table }
        ensures call { Learns seen.prefix words.now.size self.old.pass self.new.pass }
        ensures place { self.new ≡ record self.old { pass = self.new.pass } }
    {
        self.seat.learn(words, seen);
    }
}
