//! The passes of a queue without a name that were not handed out.
ghost use Rattle.std.specs.Prelude.{◌≡◌, ◌+◌, ◌-◌, ◌<◌, ◌≤◌, ◌↔◌, IfSome, IsNone};
ghost use Rattle.csq_words.specs.Records.{new_pass};
ghost use Rattle.csq_queue.specs.Named.{pass_numbered};

use crate::open::OpenPass;
use csq_words::PassSeats;
use std::marker::Model;

/// The passes of a queue without a name that were not handed out. A contract sees the table of their
/// words, how many IRPs and passes the queue has, and how many passes are left. Own rule.
#[derive(Drop)]
pub struct OpenRack {
    pub(crate) seats: PassSeats,
    pub(crate) next: u32,
    pub(crate) left: u32,
    // How many IRPs the queue has.
    pub(crate) irps: u32,
}

impl Model for OpenRack {
    ghost use Rattle.std.specs.Prelude.{◌+◌, ◌-◌};
    ghost use Rattle.csq_queue.specs.Opens.{OpenRackState, IsRack, rack_table};

    ghost Value = { OpenRackState };

    ghost view = { λ r. record {
      table = rack_table r.seats;
      irps = r.irps;
      passes
          = r.next + r.left - 1;
      left = r.left;
    } };

    ghost invariant = { λ r. IsRack r.seats r.irps r.next r.left };
}

impl OpenRack {
    /// How many passes were not handed out. Own rule.
    pub fn left(&self) -> u32
        ensures { result ≡ self.now.left }
    {
        let OpenRack { left, .. } = self;
        *left
    }

    /// How many passes were handed out. Own rule.
    pub fn taken(&self) -> u32
        ensures { result ≡ self.now.passes - self.now.left }
    {
        self.next - 1
    }

    /// The next pass: 1, 2, and so on, as `PassRack::take` hands it out. None if all were taken.
    pub fn take(&mut self) -> Option<OpenPass>
        ensures none { IsNone result ↔ (self.old.left ≡ 0) }
        ensures kept { IsNone result → self.new ≡ self.old }
        ensures new { IfSome result (λ pass. pass
            ≡ record {
              table = self.old.table;
              irps = self.old.irps;
              passes = self.old.passes;
              pass
                  = new_pass (pass_numbered (self.old.passes + 1 - self.old.left));
            }) }
        ensures left { IfSome result (λ pass. self.new.left + 1 ≡ self.old.left) }
        ensures same { (self.new.irps ≡ self.old.irps) × (self.new.passes ≡ self.old.passes) }
        ensures table { 0 < self.new.left → self.new.table ≡ self.old.table }
        ensures most { self.old.left ≤ self.old.passes }
    {
        let seat = self.seats.take()?;
        let number = self.next;
        let passes = self.next + self.left - 1;
        self.next += 1;
        self.left -= 1;
        Some(OpenPass {
            seat,
            number,
            tokens: 0,
            claims: 0,
            irps: self.irps,
            passes,
        })
    }

    /// Takes the pass back that was handed out last, and through which no call was made. Own rule.
    pub fn put_back(&mut self, pass: OpenPass)
        requires taken { self.old.left < self.old.passes }
        requires last { pass.pass ≡ new_pass (pass_numbered (self.old.passes - self.old.left)) }
        requires table { 0 < self.old.left → pass.table ≡ self.old.table }
        ensures { self.new ≡ record self.old { table = pass.table; left = self.old.left + 1 } }
    {
        self.seats.put_back(pass.seat);
        self.next -= 1;
        self.left += 1;
    }
}
