//! How a queue is made, closed and freed. (`alloc` is malloc, realloc and free. It has no size, so
//! C hands in nothing for it.)
ghost use Rattle.std.specs.Prelude.{◌≡◌, ◌⊎◌, ◌<◌, ◌↔◌, Err, IsTrue, IfOk, IfSome, Some, None, replicate};
ghost use Rattle.csq_list.specs.Listing.{are_file_limits};
ghost use Rattle.csq_c.specs.Bodies.{QueueBodyState, open_of};
ghost use Rattle.csq_c.specs.Codes.{number_of};
ghost use Rattle.csq_c.specs.Exports.{IsQueueKept};
ghost use Rattle.csq_c.specs.Ends.{IsLeftOf, free_code, open_code, out_of_open};
ghost use Rattle.csq_c.specs.Shapes.{set_to};
ghost use Rattle.csq_c.specs.Sizes.{IsGoodSize, IsNewQueue, new_checked_state};

use crate::body::QueueBody;
use crate::codes::Code;
use crate::handles::{CsqQueue, lend};
use crate::hold::{put, take};
use crate::shapes::{CsqSize, write};
use csq_checked::CheckedQueue;
use irp_core::SizeRefused;
use std::alloc::Global;

/// A queue of this size, whose file objects have no limit of their own.
fn made(alloc: Global, size: &CsqSize) -> Result<CheckedQueue, SizeRefused>
    ensures made { IfOk result (λ queue. queue
        ≡ new_checked_state size.now (replicate size.now.files size.now.irps) queue.queue.table) }
    ensures bad_size { (result ≡ Err SizeRefused.BadSize) ↔ ¬ IsGoodSize size.now }
{
    let Some(size) = size.given() else {
        return Err(SizeRefused::BadSize);
    };
    CheckedQueue::new(alloc, size)
}

/// A queue of this size, each file object with a limit of its own.
fn made_with(
    alloc: Global,
    size: &CsqSize,
    file_limits: &[u32],
) -> Result<CheckedQueue, SizeRefused>
    ensures made { IfOk result (λ queue. queue
        ≡ new_checked_state size.now file_limits.now queue.queue.table) }
    ensures bad_size { (result ≡ Err SizeRefused.BadSize)
        ↔ ¬ (IsGoodSize size.now
        × IsTrue (are_file_limits size.now.irps size.now.files file_limits.now)) }
{
    let Some(size) = size.given() else {
        return Err(SizeRefused::BadSize);
    };
    CheckedQueue::with_file_limits(alloc, size, file_limits)
}

/// Puts what is made of a queue into an empty handle. Own rule.
macro_rules! fill {
    ($queue:ident, $alloc:ident, $made:expr) => {{
        if $queue.boxed.is_filled() {
            return Code::NotEmpty.number();
        }
        match QueueBody::opened($alloc, $made) {
            Err(code) => code.number(),
            Ok(body) => {
                put(&mut $queue.boxed, body);
                Code::Done.number()
            }
        }
    }};
}

/// Makes a queue of this size, whose file objects have no limit of their own: CSQ_OK, else
/// CSQ_NOT_EMPTY, CSQ_BAD_SIZE or CSQ_NO_MEMORY. Its number is left to the caller: csq.h takes the
/// address of its box, which the handle has then. As `IoCsqInitializeEx`.
#[unsafe(no_mangle)]
pub extern "C" fn csq_new_queue(alloc: Global, queue: &mut CsqQueue, size: &CsqSize) -> u32
    ensures filled { (result ≡ number_of Code.NotEmpty) ↔ ¬ (queue.old.boxed.body ≡ None) }
    ensures bad_size { queue.old.boxed.body ≡ None → ((result ≡ number_of Code.BadSize)
        ↔ ¬ IsGoodSize size.now) }
    ensures made { result ≡ number_of Code.Done
        → IsNewQueue size.now (replicate size.now.files size.now.irps) queue.new.boxed.body }
    ensures kept { 0 < result → IsQueueKept queue.old queue.new }
    ensures cause { queue.old.boxed.body ≡ None → (result ≡ number_of Code.Done)
        ⊎ ((result ≡ number_of Code.BadSize) ⊎ (result ≡ number_of Code.NoMemory)) }
    ensures number { queue.new.number ≡ queue.old.number }
{
    fill!(queue, alloc, made(alloc, size))
}

/// Makes a queue of this size, each file object with a limit of its own: as `csq_new_queue`, and
/// CSQ_BAD_SIZE also if the limits aren't one for each file object, each 1 to the number of IRPs.
#[unsafe(no_mangle)]
pub extern "C" fn csq_new_queue_with_file_limits(
    alloc: Global,
    queue: &mut CsqQueue,
    size: &CsqSize,
    file_limits: &[u32],
) -> u32
    ensures filled { (result ≡ number_of Code.NotEmpty) ↔ ¬ (queue.old.boxed.body ≡ None) }
    ensures bad_size { queue.old.boxed.body ≡ None → ((result ≡ number_of Code.BadSize)
        ↔ ¬ (IsGoodSize size.now
        × IsTrue (are_file_limits size.now.irps size.now.files file_limits.now))) }
    ensures made { result ≡ number_of Code.Done
        → IsNewQueue size.now file_limits.now queue.new.boxed.body }
    ensures kept { 0 < result → IsQueueKept queue.old queue.new }
    ensures cause { queue.old.boxed.body ≡ None → (result ≡ number_of Code.Done)
        ⊎ ((result ≡ number_of Code.BadSize) ⊎ (result ≡ number_of Code.NoMemory)) }
    ensures number { queue.new.number ≡ queue.old.number }
{
    fill!(queue, alloc, made_with(alloc, size, file_limits))
}

/// Frees a queue, open or closed: CSQ_OK, and the handle is empty, also where it was, else
/// CSQ_PASSES_OUT if a pass is out. Own rule, as `free` of null.
#[unsafe(no_mangle)]
pub extern "C" fn csq_free_queue(alloc: Global, queue: &mut CsqQueue) -> u32
    ensures code { result ≡ number_of (free_code queue.old.boxed.body) }
    ensures freed { result ≡ number_of Code.Done → queue.new.boxed.body ≡ None }
    ensures kept { 0 < result → IsQueueKept queue.old queue.new }
{
    let Some(body) = queue.boxed.lent() else {
        return Code::Done.number();
    };
    // A pass that is out would go on to use the words of a queue that is no more.
    if body.out_left() > 0 {
        return Code::PassesOut.number();
    }
    drop(take(&mut queue.boxed, alloc));
    Code::Done.number()
}

/// Closes a queue, of which `csq_read_listed` and `csq_read_left` then report what is left: CSQ_OK,
/// else CSQ_EMPTY_HANDLE, CSQ_CLOSED, or CSQ_PASSES_OUT if a pass is out. Own rule.
#[unsafe(no_mangle)]
pub extern "C" fn csq_close(queue: &mut CsqQueue) -> u32
    ensures empty { queue.old.boxed.body ≡ None → result ≡ number_of Code.EmptyHandle }
    ensures closed { (body : QueueBodyState) → queue.old.boxed.body ≡ Some body → body.queue ≡ None
        → result ≡ number_of Code.Closed }
    ensures cause { IfSome (open_of queue.old.boxed.body)
        (λ q. (result ≡ number_of Code.Done) ⊎ (result ≡ number_of Code.PassesOut)) }
    ensures rest { result ≡ number_of Code.Done
        → IfSome queue.new.boxed.body (λ body. (body.queue ≡ None)
        × IfSome (open_of queue.old.boxed.body) (λ q. IfSome body.rest (IsLeftOf q))) }
    ensures some { result ≡ number_of Code.Done
        → IfSome queue.new.boxed.body (λ body. ¬ (body.rest ≡ None)) }
    ensures kept { 0 < result → IsQueueKept queue.old queue.new }
    ensures there { ¬ (queue.old.boxed.body ≡ None) → ¬ (queue.new.boxed.body ≡ None) }
    ensures number { queue.new.number ≡ queue.old.number }
{
    lend!(body in queue);
    body.close().number()
}

/// How many passes are out: CSQ_OK, else CSQ_EMPTY_HANDLE or CSQ_CLOSED. Own rule.
#[unsafe(no_mangle)]
pub extern "C" fn csq_count_passes_out(queue: &mut CsqQueue, out: &mut u32) -> u32
    ensures code { result ≡ number_of (open_code queue.old.boxed.body) }
    ensures out { IfSome queue.old.boxed.body (λ body. out.new
        ≡ set_to (out_of_open body.queue) out.old) }
    ensures empty { queue.old.boxed.body ≡ None → out.new ≡ out.old }
    ensures same { IsQueueKept queue.old queue.new }
{
    lend!(body in queue);
    let stored = body.passes_out();
    write(out, stored);
    match stored {
        Some(_) => Code::Done.number(),
        None => Code::Closed.number(),
    }
}
