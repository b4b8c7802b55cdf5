//! What holds of all verdicts. Each function stands for a law: its contract is the law, and there is nothing to run.
ghost use Rattle.csq_checked.specs.Audits.{AgreeingPeeksGiveTheList};

/// If no IRP stands in a queue twice, as in each that there is, the peeks of a driver that go from the first IRP
/// to the last all agree exactly if they give the queue's list: its IRPs in its order. So after an insert or a
/// removal, made in the queue beside too, they agree exactly if the driver's callback did the same to its own
/// list.
pub fn agreeing_peeks_give_the_list()
    ensures { AgreeingPeeksGiveTheList }
{}
