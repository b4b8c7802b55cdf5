//! What is answered: the kinds of answers, and inputs with what comes of them.
use csq_diagnose::Report;
use csq_draw::{Format, PictureView};
use csq_list::{AnyList, ListKind};
use csq_program::{answer_schedule, answer_script, write_drawing, write_schedule, write_script};
use csq_replay::{Ended, SimFault};
use std::alloc::{Allocator, Global};
use std::io::{Read, Write};

/// What an input is, and how it is answered.
#[derive(Clone, Copy, PartialEq, Eq)]
pub(super) enum Asked {
    Schedule,
    ExplainedSchedule,
    Picture,
    PictureAsText,
    Script,
    ExplainedScript,
}

/// How an input is answered, the input, how that ends, whether what follows is the whole answer, and else what the
/// answer ends with.
pub(super) type Row<'a> = (Asked, &'a str, Ended, bool, &'a str);

/// Each is answered over 8 IRPs, and a schedule over 4 passes, with its claims; a script over 4 file objects.
pub(super) const ROWS: [Row<'static>; 16] = [
    (
        Asked::Schedule,
        "p1 end\n",
        Ended::AllHandled,
        true,
        "p1 end found 0\nrest yes\n",
    ),
    (
        Asked::Schedule,
        "p1 arm 0\np1 test 0\np2 flag 0\np2 take 0\n",
        Ended::AllHandled,
        true,
        "\
p1 arm 0 found 0
p1 test 0 found 0
p2 flag 0 found 0
p2 take 0 found 1
irp 0 listed cancel 1
rest no
claim 0 line 4 p2
",
    ),
    // Each claim's line stands after the rest: some of its memory is asked for when the closing lines are made.
    (
        Asked::Schedule,
        "\
p1 arm 0
p1 test 0
p2 flag 0
p2 take 0
p2 out 0
p2 done 0
p1 arm 1
p1 test 1
p3 disarm 1
p3 end
",
        Ended::AllHandled,
        true,
        "\
p1 arm 0 found 0
p1 test 0 found 0
p2 flag 0 found 0
p2 take 0 found 1
p2 out 0 found 0
p2 done 0 found 0
p1 arm 1 found 0
p1 test 1 found 0
p3 disarm 1 found 1
p3 end found 0
irp 0 completed C0000120 by p2 cancel 1
irp 1 held by p3 cancel 0
rest no
claim 0 line 4 p2
claim 1 line 9 p3
",
    ),
    (
        Asked::ExplainedSchedule,
        "\np1 arm 0\np2 arm 1\n",
        Ended::Stopped,
        true,
        "\
p1 arm 0 found 0
  p1 set the cancel routine of IRP 0 (IoSetCancelRoutine(Irp, routine), as in IoCsqInsertIrpEx)
line 3 refused LockHeld p1
  p1 has had the lock since line 2, inside an insert; its next step is test 0
",
    ),
    // The canceller is faster, so the IRP is its own to take out.
    (
        Asked::ExplainedSchedule,
        "# the canceller is faster\np1 arm 0\np2 flag 0\np1 test 0\np2 take 0\np1 disarm 0\np2 out 0\np2 done 0\n",
        Ended::AllHandled,
        false,
        "  IRP 0 was claimed by p2, whose exchange found the cancel routine\n",
    ),
    // An owner in the end; a comment, and a step that is refused; no step; a line that is none.
    (
        Asked::Picture,
        "p1 arm 0\np2 flag 0\np1 test 0\np2 take 0\n",
        Ended::AllHandled,
        false,
        "</svg>\n",
    ),
    (
        Asked::Picture,
        "# p3 & <p1>\n#\u{e9}\n# C:\tx\n\n# other\np1 arm 0\np1 test 0\np3 disarm 0\np3 done 0\np3 done 0\np1 end\n",
        Ended::Stopped,
        false,
        "</svg>\n",
    ),
    (Asked::Picture, "", Ended::AllHandled, false, "</svg>\n"),
    (
        Asked::Picture,
        "# p1\np1  end\n",
        Ended::Stopped,
        false,
        "</svg>\n",
    ),
    (
        Asked::PictureAsText,
        "p3 end\np1 arm 7\np3 arm 1\n",
        Ended::Stopped,
        true,
        "\
line  lock pass step          found            owner        IRP: flag routine
1     p3   p3   end
2     p1   p1   arm 7         was none                      7: clear set
line 3: p3 arm 1 refused LockHeld p1
  p1 has had the lock since line 2, inside an insert; its next step is test 7
",
    ),
    (
        Asked::Script,
        "flag 0\n",
        Ended::AllHandled,
        true,
        "0\nleft none\n",
    ),
    (
        Asked::Script,
        "insert 0 0 back\ninsert 1 0 back\nmark 0\nnext *\nremove 0\nnext *\nroutine 0\nstatus 0\n",
        Ended::AllHandled,
        true,
        "pending\npending\nclaimed\nirp 1\nnone\nnone\ncompleted C0000120\nC0000120\nleft none\nheld 1\n",
    ),
    (
        Asked::Script,
        "insert 0 0 back\ninsert 1 0 back\nmark 0\nnext *\ncomplete 1 C000009A\nreuse 1\n",
        Ended::AllHandled,
        true,
        "pending\npending\nclaimed\nirp 1\ncompleted C000009A\nlife 1\nleft 0\nowed 0\n",
    ),
    // Two refusals, and a line that ends the script. (For a word that is unknown the diagnosis looks for a similar one,
    // which it does without memory if that is refused.)
    (
        Asked::ExplainedScript,
        "flag 8\nclose 4\n\nflag  0\nflag 0\n",
        Ended::Stopped,
        true,
        "\
refused UnknownIrp
  an IRP's number is below 8
refused UnknownFile
  a file object's number is below 4
line 4 malformed
  this is no call, as insert 0 1 back: insert, next, remove, mark, routine, cancel, complete, close, cleanup, flag, status, reuse or put_back
",
    ),
    // Removals; and cancels.
    (
        Asked::ExplainedScript,
        "# removals\ninsert 0 1 back\ninsert 1 0 front\nnext 1\nnext 1\nremove 1\ncomplete 0 00000000\nreuse 0\ninsert 0 0 back\nremove 0\n",
        Ended::AllHandled,
        false,
        "  the pass holds IRP 1, and must complete it\n",
    ),
    (
        Asked::ExplainedScript,
        "insert 0 0 back\ncancel 1\ninsert 1 0 back\nmark 0\ncleanup 0\ninsert 2 0 back\nreuse 1\nmark 1\n",
        Ended::AllHandled,
        false,
        "  the pass owes IRP 0: its cancel routine must run\n",
    ),
];

/// Draws a schedule whole.
fn draw<A: Allocator + Copy, R: Read, W: Write>(
    alloc: A,
    format: Format,
    reader: &mut R,
    writer: &mut W,
) -> Result<Report<A>, SimFault> {
    let view = PictureView {
        format,
        window: None,
        wrong: false,
    };
    write_drawing(alloc, 8, 4, view, None, reader, writer)
}

/// Answers a schedule with sentences, or draws it.
fn answer_steps<A: Allocator + Copy, R: Read, W: Write>(
    alloc: A,
    asked: Asked,
    reader: &mut R,
    writer: &mut W,
) -> Result<Report<A>, SimFault> {
    match asked {
        Asked::Picture => draw(alloc, Format::Svg, reader, writer),
        Asked::PictureAsText => draw(alloc, Format::Text, reader, writer),
        _ => write_schedule(alloc, 8, 4, true, true, reader, writer),
    }
}

/// How a report ended, of which nothing else is kept.
fn ended_of<A: Allocator>(answered: Result<Report<A>, SimFault>) -> Result<Ended, SimFault> {
    match answered {
        Ok(report) => Ok(report.ended),
        Err(fault) => Err(fault),
    }
}

/// Answers a script over a list of this kind, whose memory is other memory, with sentences or without.
fn answer_calls<A: Allocator + Copy, R: Read, W: Write>(
    alloc: A,
    lists: Global,
    kind: ListKind,
    explains: bool,
    reader: &mut R,
    writer: &mut W,
) -> Result<Ended, SimFault> {
    match AnyList::new(lists, kind, 8, 4, 8) {
        Ok(list) => {
            if explains {
                ended_of(write_script(alloc, list, true, reader, writer))
            } else {
                answer_script(alloc, list, reader, writer)
            }
        }
        Err(_) => Err(SimFault::Memory),
    }
}

/// Answers what is asked for.
pub(super) fn answer<A: Allocator + Copy, R: Read, W: Write>(
    alloc: A,
    lists: Global,
    kind: ListKind,
    asked: Asked,
    reader: &mut R,
    writer: &mut W,
) -> Result<Ended, SimFault> {
    match asked {
        Asked::Schedule => answer_schedule(alloc, 8, 4, true, reader, writer),
        Asked::Script => answer_calls(alloc, lists, kind, false, reader, writer),
        Asked::ExplainedScript => answer_calls(alloc, lists, kind, true, reader, writer),
        _ => ended_of(answer_steps(alloc, asked, reader, writer)),
    }
}
