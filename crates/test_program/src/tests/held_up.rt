//! Answers that are held up: at each byte that is read or written, and at each call for memory.
use super::answers::{Asked, ROWS, Row, answer};
use super::streams::{Feed, Sink};
use csq_list::ListKind;
use csq_replay::{Ended, MAX_INPUT, SimFault};
use linked_list_allocator::LocalHeap;
use std::io::ErrorKind;
use std::process::Abort;
use std::test::Fail;
use test_heap::RefusingHeap;

const KINDS: [ListKind; 2] = [ListKind::Vector, ListKind::Chains];

/// How an answer is held up: how much memory it has, which call for more is refused, how many bytes are given at most,
/// how often a read is interrupted before each, the fault behind the last, and how many bytes the writer takes before it
/// fails, or takes nothing.
#[derive(Clone, Copy)]
struct Trial {
    memory: usize,
    refused: u64,
    given: usize,
    interruptions: u32,
    fault: Option<ErrorKind>,
    room: usize,
    fails: bool,
}

/// It goes a byte at a time, and that is all.
const SLOW: Trial = Trial {
    memory: 1 << 17,
    refused: 1_000_000,
    given: 1_000_000,
    interruptions: 1,
    fault: None,
    room: 1_000_000,
    fails: false,
};

/// How it ended, what was written, whether the call for memory was refused, how much memory was kept, and how many
/// bytes were left unread.
#[derive(Drop)]
struct Outcome {
    ended: Result<Ended, SimFault>,
    text: Vec<u8>,
    is_refused: bool,
    kept: usize,
    unread: usize,
}

/// Answers an input, held up so.
fn hold_up(
    rt: &(impl AllocGlobal + Abort),
    asked: Asked,
    kind: ListKind,
    input: &[u8],
    trial: Trial,
) -> Result<Outcome, Fail> {
    let room = LocalHeap::new(rt.alloc(), trial.memory)?;
    let heap = RefusingHeap::new(&room, trial.refused);
    let mut feed = Feed {
        bytes: input,
        given: trial.given,
        interruptions: trial.interruptions,
        to_come: trial.interruptions,
        fault: trial.fault,
    };
    let mut sink = Sink {
        text: Vec::new(rt.alloc()),
        room: trial.room,
        fails: trial.fails,
        interrupted: false,
    };
    let ended = answer(&heap, rt.alloc(), kind, asked, &mut feed, &mut sink);
    Ok(Outcome {
        ended,
        text: sink.text,
        is_refused: heap.has_refused(),
        kept: room.used(),
        unread: feed.bytes.len(),
    })
}

/// What is to come of an answer that is held up.
#[derive(Clone, Copy)]
enum Wanted {
    /// The whole answer of the row.
    Answer,
    /// This fault, and so many bytes are written.
    Fault(SimFault, usize),
    /// Nothing, for want of memory, if the call for it that is refused was made; else the whole answer.
    AnswerOrNoMemory,
}

impl Outcome {
    /// No memory was kept, and what is wanted came of the row.
    fn judge(&self, rt: &impl Abort, row: Row<'_>, wanted: Wanted) {
        assert_eq!(rt; self.kept, 0);
        match wanted {
            Wanted::Answer => self.find_answer(rt, row),
            Wanted::Fault(fault, written) => self.find_fault(rt, fault, written),
            Wanted::AnswerOrNoMemory => {
                if self.is_refused {
                    self.find_fault(rt, SimFault::Memory, 0);
                } else {
                    self.find_answer(rt, row);
                }
            }
        }
    }

    fn find_fault(&self, rt: &impl Abort, fault: SimFault, written: usize) {
        assert_eq!(rt; (self.ended, self.text.len()), (Err(fault), written));
    }

    fn find_answer(&self, rt: &impl Abort, row: Row<'_>) {
        let (_, _, ended, is_whole, text) = row;
        assert!(rt; self.ended == Ok(ended), "{text}");
        assert!(rt; self.text.as_slice().ends_with(text.as_bytes()), "{text}");
        assert!(rt; !is_whole || self.text.len() == text.len(), "{text}");
    }
}

/// Replies to a row, held up so, and looks for what is wanted. Returns whether a call for memory was refused.
fn attempt(
    rt: &(impl AllocGlobal + Abort),
    row: Row<'_>,
    kind: ListKind,
    trial: Trial,
    wanted: Wanted,
) -> Result<bool, Fail> {
    let outcome = hold_up(rt, row.0, kind, row.1.as_bytes(), trial)?;
    outcome.judge(rt, row, wanted);
    Ok(outcome.is_refused)
}

#[test]
fn a_slow_reader_and_writer_get_the_whole_answer(rt: HostRuntime) -> Result<(), Fail> {
    for row in ROWS {
        for kind in KINDS {
            attempt(&rt, row, kind, SLOW, Wanted::Answer)?;
        }
    }
    Ok(())
}

/// Lets the read after each number of bytes fail: then nothing is written.
fn fail_reads(rt: &(impl AllocGlobal + Abort), row: Row<'_>, kind: ListKind) -> Result<(), Fail> {
    for given in 0..=row.1.len() {
        let trial = Trial {
            given,
            fault: Some(ErrorKind::Other),
            ..SLOW
        };
        attempt(rt, row, kind, trial, Wanted::Fault(SimFault::Read, 0))?;
    }
    Ok(())
}

#[test]
fn an_input_is_read_whole_or_not_answered(rt: HostRuntime) -> Result<(), Fail> {
    for row in ROWS {
        for kind in KINDS {
            fail_reads(&rt, row, kind)?;
        }
    }
    Ok(())
}

/// Lets the writer fail, or take nothing, after each number of bytes of what the row has of the answer. Behind the last
/// byte of a whole answer nothing more is written.
fn fail_writes(rt: &(impl AllocGlobal + Abort), row: Row<'_>, kind: ListKind) -> Result<(), Fail> {
    for room in 0..row.4.len() {
        for fails in [false, true] {
            let trial = Trial {
                room,
                fails,
                ..SLOW
            };
            attempt(rt, row, kind, trial, Wanted::Fault(SimFault::Write, room))?;
        }
    }
    let trial = Trial {
        room: row.4.len(),
        fails: true,
        ..SLOW
    };
    let wanted = if row.3 {
        Wanted::Answer
    } else {
        Wanted::Fault(SimFault::Write, row.4.len())
    };
    attempt(rt, row, kind, trial, wanted)?;
    Ok(())
}

#[test]
fn an_answer_is_written_whole_or_told(rt: HostRuntime) -> Result<(), Fail> {
    for row in ROWS {
        for kind in KINDS {
            fail_writes(&rt, row, kind)?;
        }
    }
    Ok(())
}

/// Refuses each call for memory in turn, until an answer makes fewer.
fn refuse_memory(
    rt: &(impl AllocGlobal + Abort),
    row: Row<'_>,
    kind: ListKind,
) -> Result<(), Fail> {
    for refused in 0..1000 {
        let trial = Trial { refused, ..SLOW };
        if !attempt(rt, row, kind, trial, Wanted::AnswerOrNoMemory)? {
            assert!(rt; refused > 0, "no call was refused");
            return Ok(());
        }
    }
    Err(Fail::from("each call was refused"))
}

#[test]
fn an_answer_is_refused_for_want_of_memory(rt: HostRuntime) -> Result<(), Fail> {
    for row in ROWS {
        for kind in KINDS {
            refuse_memory(&rt, row, kind)?;
        }
    }
    Ok(())
}

const ONE_STEP: Row<'static> = (
    Asked::Schedule,
    "p1 end\n",
    Ended::AllHandled,
    true,
    "p1 end found 0\nrest yes\n",
);

#[test]
fn each_fault_of_a_reader_is_told(rt: HostRuntime) -> Result<(), Fail> {
    for fault in [
        ErrorKind::UnexpectedEof,
        ErrorKind::BrokenPipe,
        ErrorKind::PermissionDenied,
        ErrorKind::WouldBlock,
        ErrorKind::TimedOut,
    ] {
        let trial = Trial {
            fault: Some(fault),
            ..SLOW
        };
        let wanted = Wanted::Fault(SimFault::Read, 0);
        attempt(&rt, ONE_STEP, ListKind::Vector, trial, wanted)?;
    }
    Ok(())
}

#[test]
fn an_interrupted_read_is_tried_again(rt: HostRuntime) -> Result<(), Fail> {
    for interruptions in [0, 2, 100_000] {
        let trial = Trial {
            interruptions,
            ..SLOW
        };
        attempt(&rt, ONE_STEP, ListKind::Vector, trial, Wanted::Answer)?;
    }
    Ok(())
}

const TOO_LONG: Row<'static> = (
    Asked::Schedule,
    "",
    Ended::Stopped,
    true,
    "input too long\n",
);

/// Of an input that is too long no more is read than tells so.
#[test]
fn an_input_that_is_too_long_is_left_unread(rt: HostRuntime) -> Result<(), Fail> {
    let feeds = vec![in rt.alloc(); b'\n'; MAX_INPUT + 3]?;
    let trial = Trial {
        memory: 1 << 23,
        given: MAX_INPUT + 3,
        ..SLOW
    };
    let outcome = hold_up(&rt, Asked::Schedule, ListKind::Vector, &feeds, trial)?;
    outcome.judge(&rt, TOO_LONG, Wanted::Answer);
    assert_eq!(rt; outcome.unread, 2);
    Ok(())
}
