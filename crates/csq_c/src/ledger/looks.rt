//! What a ledger shows, under the caller's lock. Before any other code each returns
//! CSQ_EMPTY_HANDLE if the handle is empty.
ghost use Rattle.std.specs.Prelude.{◌≡◌, ℕ, IfNone, IfSome, Option};
ghost use Rattle.request_table.specs.Times.{IsNextDue, NoneIsDue};
ghost use Rattle.csq_c.specs.LedgerCalls.{LooksAtLedger, counts_of, look_code, look_written};
ghost use Rattle.csq_c.specs.LedgerCodes.{counts_code, due_code, listed_stored, under_way_stored};
ghost use Rattle.csq_c.specs.Shapes.{irp_named, peek_of, set_to};

use crate::codes::Code;
use crate::handles::{CsqLedger, lend};
use crate::ledger::shapes::CsqLook;
use crate::shapes::{CsqIrp, peek};
use csq_ledger::{Counts, Ledger};
use csq_list::Peek;

/// How many requests are listed for a file object, if there is one, or for all, and under way.
fn counts(ledger: &Ledger, peek: Peek) -> Option<Counts>
    ensures { result ≡ counts_of ledger.now peek }
{
    match peek {
        Peek::Any => Some(ledger.len_of_all()),
        Peek::File(file) => ledger.len(file),
    }
}

/// Writes when the next request is due: CSQ_OK, or CSQ_NONE if none is. Own rule.
#[unsafe(no_mangle)]
pub extern "C" fn csq_ledger_next_due(ledger: &mut CsqLedger, due: &mut u64) -> u32
    ensures { LooksAtLedger ledger.old ledger.new result (due.new ≡ due.old)
        (λ s code. (answer : Option ℕ) × IfSome answer (IsNextDue s.table.dues)
        × IfNone answer (NoneIsDue s.table.dues) × (code ≡ due_code answer)
        × (due.new ≡ set_to answer due.old)) }
{
    lend!(body in ledger);
    let Some(time) = body.next_due() else {
        return Code::Nothing.number();
    };
    *due = time;
    Code::Done.number()
}

/// Writes what is known of a request: CSQ_OK, or CSQ_UNKNOWN_IRP. All is 0 of a name that isn't
/// under way. Own rule.
#[unsafe(no_mangle)]
pub extern "C" fn csq_ledger_look(ledger: &mut CsqLedger, name: CsqIrp, look: &mut CsqLook) -> u32
    ensures { LooksAtLedger ledger.old ledger.new result (look.new ≡ look.old)
        (λ s code. (code ≡ look_code s (irp_named name))
        × (look.new ≡ look_written s (irp_named name) look.old)) }
{
    lend!(body in ledger);
    let named = name.named();
    if !body.knows(named.irp) {
        return Code::UnknownIrp.number();
    }
    *look = CsqLook::of(body.stage(named));
    Code::Done.number()
}

/// Writes how many requests are listed for a file object, or for any by the largest number, and how
/// many are under way: CSQ_OK, or CSQ_UNKNOWN_FILE. Own rule.
#[unsafe(no_mangle)]
pub extern "C" fn csq_ledger_len(
    ledger: &mut CsqLedger,
    file: u32,
    listed: &mut u32,
    under_way: &mut u32,
) -> u32
    ensures { LooksAtLedger ledger.old ledger.new result
        ((listed.new ≡ listed.old) × (under_way.new ≡ under_way.old))
        (λ s code. (code ≡ counts_code (counts_of s (peek_of file)))
        × (listed.new ≡ set_to (listed_stored (counts_of s (peek_of file))) listed.old)
        × (under_way.new
        ≡ set_to (under_way_stored (counts_of s (peek_of file))) under_way.old)) }
{
    lend!(body in ledger);
    let Some(counts) = counts(body, peek(file)) else {
        return Code::UnknownFile.number();
    };
    *listed = counts.listed;
    *under_way = counts.under_way;
    Code::Done.number()
}
