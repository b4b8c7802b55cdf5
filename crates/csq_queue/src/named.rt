//! The queue that threads share, with its passes, under a name by which its parts are known to belong
//! together.
mod csq;
mod locked;
mod name;
mod pass;
mod rack;
mod waiting;

pub use csq::Csq;
pub(crate) use locked::Locked;
pub use name::QueueName;
pub use pass::Pass;
pub use rack::PassRack;
