//! A queue without a lock and without a name, with its passes: what the named queue is made of.
mod looks;
mod pass;
mod queue;
mod rack;

use crate::tokens::InsertAnswer;
use irp_core::IrpLife;
pub use pass::OpenPass;
pub use queue::OpenQueue;
pub use rack::OpenRack;

/// What an accepted insert returns if no token is handed out: the IRP in its life, which is pending, or
/// which the pass holds. Own rule.
pub type OpenInserted = InsertAnswer<IrpLife, IrpLife>;
