//! A queue without a lock whose passes know what they hold and owe: how it is made, and how it ends.
ghost use Rattle.std.specs.Prelude.{◌≡◌, ◌-◌, ◌<◌, ◌↔◌, Err, IsTrue, IsOk, IfOk, IfErr, OnOk, OnErr, ◌⊎◌, replicate};
ghost use Rattle.irp_core.specs.Runs.{IsInLargeLimits};
ghost use Rattle.csq_list.specs.Listing.{IsLargeListSize, are_file_limits};
ghost use Rattle.csq_words.specs.Queue.{limits_of};
ghost use Rattle.csq_queue.specs.Rests.{HoldsNothing, IsClosed};
ghost use Rattle.std.specs.Arc.{arc_value};
ghost use Rattle.csq_queue.specs.Opens.{IsQueueOn, IsRackOn};
ghost use Rattle.csq_checked.specs.Idle.{AreIdle, IsFirstIdle, NoneIsIdle, count_out, with_idle_back};
ghost use Rattle.csq_checked.specs.Passes.{IsPassIn, HasComeBack, HandsOutNew, HandsOutAgain, out_of};
ghost use Rattle.csq_checked.specs.Sizes.{IsFreshOf, size_in, limits_given, new_checked};

use crate::idle::{IdlePass, IdlePasses};
use crate::pass::CheckedPass;
use crate::size::{PassRefused, QueueSize};
use crate::slots::Slots;
use csq_list::{AnyList, PendingList};
use csq_queue::{Blank, NewCause, OpenQueue, OpenRack, Rest};
use csq_words::Words;
use irp_core::SizeRefused;
use std::alloc::Global;
use std::marker::Model;
use std::sync::Arc;

/// A queue without a lock of its own: whoever has it makes one call at a time of those that take it. A
/// contract sees it as it sees an open queue, with the number of passes that are left, and those that
/// are idle since they came back. Own rule.
#[derive(Drop)]
pub struct CheckedQueue {
    pub(crate) words: Arc<Words>,
    pub(crate) queue: OpenQueue<AnyList>,
    pub(crate) rack: OpenRack,
    // The passes that came back.
    pub(crate) idle: IdlePasses,
}

impl Model for CheckedQueue {
    ghost use Rattle.std.specs.Arc.{arc_value};
    ghost use Rattle.csq_checked.specs.Passes.{CheckedState, IsCheckedQueue};

    ghost Value = { CheckedState };

    ghost view = { λ q. record { queue = q.queue; left = q.rack.left; idle = q.idle } };

    ghost invariant = { λ q. IsCheckedQueue (arc_value q.words) q.queue q.rack q.idle };
}

impl CheckedQueue {
    /// A queue of this size, whose file objects have no limit of their own. `BadSize` comes exactly if a
    /// number is out of its range, then `Memory`.
    pub fn new(alloc: Global, size: QueueSize) -> Result<CheckedQueue, SizeRefused>
        ensures made { IfOk result (λ q. q ≡ new_checked size
            (limits_given size (replicate size.files size.irps)) q.queue.table) }
        ensures bad_size { (result ≡ Err SizeRefused.BadSize)
            ↔ ¬ (IsInLargeLimits (size_in size) × IsLargeListSize size.irps size.files size.limit) }
    {
        if !size.is_in_limits() {
            return Err(SizeRefused::BadSize);
        }
        let list = AnyList::new(alloc, size.list, size.irps, size.files, size.limit);
        CheckedQueue::over(alloc, size, list)
    }

    /// A queue of this size, each file object with a limit of its own. Refused as `new` is, and with
    /// `BadSize` also if the limits aren't one for each file object, each 1 to `irps`.
    pub fn with_file_limits(
        alloc: Global,
        size: QueueSize,
        file_limits: &[u32],
    ) -> Result<CheckedQueue, SizeRefused>
        ensures made { IfOk result (λ q. q
            ≡ new_checked size (limits_given size file_limits.now) q.queue.table) }
        ensures bad_size { (result ≡ Err SizeRefused.BadSize)
            ↔ ¬ (IsInLargeLimits (size_in size) × IsLargeListSize size.irps size.files size.limit
            × IsTrue (are_file_limits size.irps size.files file_limits.now)) }
    {
        if !size.is_in_limits() {
            return Err(SizeRefused::BadSize);
        }
        let list = AnyList::with_file_limits(
            alloc,
            size.list,
            size.irps,
            size.files,
            size.limit,
            file_limits,
        );
        CheckedQueue::over(alloc, size, list)
    }

    /// A queue over this list, if there is one.
    fn over(
        alloc: Global,
        size: QueueSize,
        list: Result<AnyList, SizeRefused>,
    ) -> Result<CheckedQueue, SizeRefused>
        requires size { IsInLargeLimits (size_in size) }
        requires fresh { IfOk list (λ list. IsFreshOf size
            (⟦<AnyList as PendingList>⟧.listing list)) }
        ensures made { IfOk result (λ q. IfOk list (λ list. q ≡ new_checked size
            (limits_of size.passes size.first.0 (⟦<AnyList as PendingList>⟧.listing list)) q.queue.table)) }
        ensures bad_size { (result ≡ Err SizeRefused.BadSize) ↔ (list ≡ Err SizeRefused.BadSize) }
        ensures ok { IsOk result → IsOk list }
    {
        let list = list?;
        let blank = match Blank::large(alloc, list, size.irps, size.passes, size.first) {
            Ok(blank) => blank,
            Err(refused) => return Err(memory_refused(refused.cause)),
        };
        let (queue, words, rack) = blank.into_open();
        let Ok(words) = Arc::new(alloc, words) else {
            return Err(SizeRefused::Memory);
        };
        let idle = IdlePasses::new(alloc, size.passes)?;
        Ok(CheckedQueue {
            words,
            queue,
            rack,
            idle,
        })
    }

    /// A pass: the first that is idle, since it came back, else the next new one, which has seen and done
    /// nothing. Only the hand-out of a new one takes memory (tested, in C).
    pub fn take_pass(&mut self, alloc: Global) -> Result<Box<CheckedPass>, PassRefused>
        ensures none { (result ≡ Err PassRefused.NoPass)
            ↔ ((self.old.left ≡ 0) × NoneIsIdle self.old.idle) }
        ensures pass { IfOk result (λ pass. IsPassIn self.old.queue pass.value
            × (HandsOutNew self.old self.new pass.value.pass
            ⊎ HandsOutAgain self.old self.new pass.value.pass)) }
        ensures queue { self.new.queue ≡ self.old.queue }
        ensures kept { OnErr result (self.new ≡ self.old) }
    {
        let idle = self.idle.first();
        if idle.is_none() && self.rack.left() == 0 {
            return Err(PassRefused::NoPass);
        }
        let Ok(words) = Arc::try_clone(&self.words) else {
            return Err(PassRefused::Memory);
        };
        match idle {
            Some(at) => self.take_idle(alloc, at, words),
            None => self.take_new(alloc, words),
        }
    }

    /// The idle pass of this slot, with a share of its words.
    fn take_idle(
        &mut self,
        alloc: Global,
        at: usize,
        words: Arc<Words>,
    ) -> Result<Box<CheckedPass>, PassRefused>
        requires first { IsFirstIdle self.old.idle at }
        requires words { IsQueueOn (arc_value words) self.old.queue }
        ensures on { IfOk result (λ pass. IsPassIn self.old.queue pass.value) }
        ensures again { IfOk result (λ pass. HandsOutAgain self.old self.new pass.value.pass) }
        ensures memory { OnErr result (result ≡ Err PassRefused.Memory) }
        ensures kept { OnErr result (self.new ≡ self.old) }
    {
        let Some(pass) = self.idle.take(at) else {
            // An idle pass lies at this place.
            unreachable!()
        };
        match pass.into_box(alloc, words) {
            Ok(pass) => Ok(pass),
            Err(pass) => {
                self.idle.put(at, pass);
                Err(PassRefused::Memory)
            }
        }
    }

    /// The next pass of the rack, with a share of its words.
    fn take_new(
        &mut self,
        alloc: Global,
        words: Arc<Words>,
    ) -> Result<Box<CheckedPass>, PassRefused>
        requires none { NoneIsIdle self.old.idle }
        requires left { 0 < self.old.left }
        requires words { IsQueueOn (arc_value words) self.old.queue }
        ensures on { IfOk result (λ pass. IsPassIn self.old.queue pass.value) }
        ensures new { IfOk result (λ pass. HandsOutNew self.old self.new pass.value.pass) }
        ensures memory { OnErr result (result ≡ Err PassRefused.Memory) }
        ensures kept { OnErr result (self.new ≡ self.old) }
    {
        let (Ok(held), Ok(owed)) = (
            Slots::new(alloc, words.irps()),
            Slots::new(alloc, words.irps()),
        ) else {
            return Err(PassRefused::Memory);
        };
        let Some(pass) = self.rack.take() else {
            // The caller has seen that a pass is left.
            unreachable!()
        };
        let pass = CheckedPass {
            words,
            pass,
            held,
            owed,
        };
        match Box::new(alloc, pass) {
            Ok(pass) => Ok(pass),
            Err(refused) => {
                self.rack.put_back(refused.value.pass);
                Err(PassRefused::Memory)
            }
        }
    }

    /// How many passes were handed out and aren't back. Own rule.
    pub fn passes_out(&self) -> u32
        ensures { result ≡ out_of self.now }
    {
        self.idle.out(self.rack.taken())
    }

    /// Takes a pass back that holds and owes nothing: it is idle then. The pass comes back if it holds or
    /// owes IRPs.
    pub fn give_back(&mut self, pass: Box<CheckedPass>) -> Result<(), Box<CheckedPass>>
        requires { IsPassIn self.old.queue pass.value }
        ensures back { OnOk result (HasComeBack pass.value.pass self.old self.new) }
        ensures nothing { OnOk result (HoldsNothing pass.value.pass) }
        ensures holding { OnErr result (¬ HoldsNothing pass.value.pass) }
        ensures kept { IfErr result (λ same. (same ≡ pass) × (self.new ≡ self.old)) }
    {
        if pass.tokens() > 0 || pass.claims() > 0 {
            return Err(pass);
        }
        self.put_idle(pass);
        Ok(())
    }

    /// Puts a pass into the slot of its number.
    fn put_idle(&mut self, pass: Box<CheckedPass>)
        requires on { IsPassIn self.old.queue pass.value }
        requires nothing { HoldsNothing pass.value.pass }
        ensures { HasComeBack pass.value.pass self.old self.new }
    {
        let at = pass.number() as usize - 1;
        self.idle.put(at, IdlePass::of(pass));
    }

    /// Ends the queue once all passes that were handed out are back, and reports what is left. The queue comes
    /// back if one isn't.
    pub fn close(self) -> Result<Rest<AnyList>, CheckedQueue>
        ensures rest { IfOk result (λ rest. IsClosed self.queue.limits
            (self.queue.limits.passes - self.left)
            (with_idle_back self.idle (self.queue.limits.passes - self.left) self.queue.queue)
            (⟦<AnyList as PendingList>⟧.listing rest.list) rest.finals) }
        ensures all { OnOk result (out_of self ≡ 0) }
        ensures kept { IfErr result (λ same. same ≡ self) }
    {
        if self.passes_out() > 0 {
            return Err(self);
        }
        let CheckedQueue {
            words,
            queue,
            rack,
            mut idle,
        } = self;
        idle.let_words_go();
        match Arc::try_unwrap(words) {
            Ok(words) => Ok(close_over(queue, words, rack, idle)),
            Err(words) => Err(CheckedQueue {
                words,
                queue,
                rack,
                idle,
            }),
        }
    }
}

/// The refusal of a queue whose size is in its limits and whose list is fresh: only memory can lack.
fn memory_refused(cause: NewCause) -> SizeRefused
    requires size { ¬ (cause ≡ NewCause.BadSize) }
    requires fresh { ¬ (cause ≡ NewCause.ListNotFresh) }
    ensures { result ≡ SizeRefused.Memory }
{
    match cause {
        NewCause::Memory => SizeRefused::Memory,
        // The caller has seen that it isn't one of these.
        NewCause::BadSize | NewCause::ListNotFresh => unreachable!(),
    }
}

/// Ends a queue all of whose passes are idle or were never handed out.
fn close_over(
    mut queue: OpenQueue<AnyList>,
    words: Words,
    rack: OpenRack,
    idle: IdlePasses,
) -> Rest<AnyList>
    requires queue { IsQueueOn words queue }
    requires rack { IsRackOn words rack }
    requires idle { AreIdle words idle }
    requires all { count_out idle (queue.limits.passes - rack.left) ≡ 0 }
    ensures rest { IsClosed queue.limits (queue.limits.passes - rack.left)
        (with_idle_back idle (queue.limits.passes - rack.left) queue.queue)
        (⟦<AnyList as PendingList>⟧.listing result.list) result.finals }
{
    idle.give_back(&mut queue, &words, rack.taken());
    queue.close(words, rack)
}
