//! A request by its name.

use irp_core::{FileId, IrpLife};
use request_table::Stage;

/// A request, and the file object that it is for. Own rule.
#[derive(Clone, Copy, Debug, PartialEq, Eq)]
pub struct Request {
    pub name: IrpLife,
    pub file: FileId,
}

/// A request that was due, and its stage once it was named for that. Own rule.
#[derive(Clone, Copy, Debug, PartialEq, Eq)]
pub struct Expired {
    pub name: IrpLife,
    pub stage: Stage,
}
