//! Lists of steps that are no execution, histories that aren't of their execution, and executions whose calls overlap:
//! from each one a contradiction follows. Each function stands for a law: its contract is the law, and there is nothing to run.
ghost use Rattle.test_protocol.specs.Excluded.{NoneIsARun, NoneIsAHistory};
ghost use Rattle.test_protocol.specs.Untimely.{NoneIsInRealTime};

fn none_is_a_run()
    ensures { NoneIsARun }
{}

fn none_is_a_history()
    ensures { NoneIsAHistory }
{}

fn none_is_in_real_time()
    ensures { NoneIsInRealTime }
{}

#[test]
fn wrong_executions_and_histories_are_contradictions(_rt: HostRuntime) {
    none_is_a_run();
    none_is_a_history();
    none_is_in_real_time();
}
