//! What `--help` and `--version` print.

/// The version of the program.
pub(crate) const VERSION: &str = "1.1.0";

pub(crate) const ABOUT: &str =
    "Replays, draws and runs the protocol of the WDK's cancel-safe IRP queue";

pub(crate) const HELP: &str = "\
A schedule is the protocol, one atomic step a line: csqsim schedule replays it,
csqsim draw makes a picture of it. A script is calls of the queue, one a line:
csqsim script makes them. csqsim run lets threads make them.
Begin with csqsim schedule --help, which teaches the steps, or with csqsim
script --help, which teaches the calls.

Examples:
  printf 'p1 arm 0\\np2 flag 0\\np1 test 0\\n' | csqsim schedule --explain
  csqsim draw race.txt > race.svg
  csqsim run --totals";

pub(crate) const SCHEDULE_ABOUT: &str = "Replays a schedule: one atomic step a line, in this order";

pub(crate) const SCHEDULE_HELP: &str = "\
A line is a pass, a step and an IRP. A pass is a thread's handle to the queue,
and p1 is the first of them; IRP 0 is the first IRP. The steps, as a driver
writer knows them:
  p1 arm 0     IoSetCancelRoutine(Irp, routine), in IoCsqInsertIrpEx
  p1 test 0    if (Irp->Cancel), in IoCsqInsertIrpEx
  p1 disarm 0  IoSetCancelRoutine(Irp, NULL), in IoCsqInsertIrpEx if the test
               found the flag, in IoCsqRemoveNextIrp and in IoCsqRemoveIrp
  p1 end       IoCsqRemoveNextIrp or IoCsqRemoveIrp returns NULL. Whether an IRP
               was left isn't checked: a schedule knows no file objects
  p2 flag 0    Irp->Cancel = TRUE, in IoCancelIrp
  p2 take 0    IoSetCancelRoutine(Irp, NULL), in IoCancelIrp
  p2 out 0     the queue's cancel routine takes the IRP out (CsqRemoveIrp)
  p2 done 0    IoCompleteRequest
  p1 renew 0   IoReuseIrp. The IRP is now in its life 1, and is named 0@1
  p1 rearm 0   IoSetCancelRoutine(Irp, routine), in IoCsqInsertIrpEx once more,
               of an IRP that a removal got and the pass holds: it is put back
An insert is arm, test and, if the test found the flag, disarm; a put-back is
the same with rearm. A removal is disarms until one finds the routine, or an
end; an IRP_MJ_CLEANUP is removals. A cancel is flag and take. The arm or rearm
lists the IRP, and a disarm that finds the routine takes it out. An insert, a
put-back or a removal has the queue's lock from its first step to its last, an
out or a renew for its one step (a renew changes the queue too); flag, take and
done need none.

A pass that finds the routine by a disarm or a take claims the IRP, and will
complete it: after a take it owes the IRP until its out, and then holds it;
after a disarm it holds it at once. What a removal got is done with
STATUS_SUCCESS or is put back, and what a cancel, an insert or a put-back got is
done with STATUS_CANCELLED. Flag and routine stand for one life, so a late take
finds none of the next. An IRP is home until its arm.

The answer is each line with the value that its step found: the flag or the
routine that was there before, 1 or 0, and 0 of a step that looks at neither.
Then comes each IRP that isn't home, is cancelled or is in a later life, and
whether all is at rest, which means that no call is half done and no pass has an
IRP: rest yes, or rest no. With --explain a sentence stands below each line of
the answer, two spaces in.

A step that can't come next ends the schedule: line N refused, and the first of
these that holds. Standard error says more.
  UnknownIrp    there is no such IRP: see --irps
  UnknownPass   there is no such pass: see --passes
  LockHeld p1   the step needs the lock, and this other pass has it, since it is
                inside an insert, a put-back or a removal
  NotNext       the pass is inside a call that goes on otherwise, or it is
                inside none, and no call begins so
  NotHome       an arm of an IRP that was armed in that life
  NotListed     a disarm of an IRP that isn't listed
  NotOwed       an out of an IRP that the pass hasn't claimed by a take
  NotHeld       a done of an IRP that the pass doesn't hold, or a rearm of one
                that it doesn't hold or didn't get by a removal
  Stale 1       an arm, flag or renew of an IRP in another life, this one
  NotCompleted  a renew of an IRP that isn't completed
  LivesSpent    a renew of an IRP in its last life, 1073741823

With --wrong a refused step is made all the same, unless there is no such IRP or
pass, and the schedule goes on by the two words of each IRP alone, as code does
that breaks the protocol there: each step finds what the word holds. A step that
names another life of an IRP than its present one finds 0, and changes nothing.
The first refused step has its refusal after it. The end says whether the
protocol was kept, and otherwise which of these is found in the lines:

  - an IRP is completed a second time in one life
  - an IRP is completed while its cancel routine is set
  - an IRP that was completed is taken out of the list, or listed, or is in the
    list in the end
  - an IRP that is in the list is listed or renewed, or one that isn't there is
    taken out
  - an IRP is taken out or completed in another life than its present one
  - a cancel takes the routine of an IRP whose Cancel flag is clear, and stays
    clear until the IRP is completed
  - a cancel is lost: in the end an IRP that wasn't completed is in the list,
    with its Cancel flag and its routine set

For each step at most one is reported. Line numbers count comments too.
--wrong goes with neither --claims nor --explain.

Words are separated by one space, and the case of letters counts. A number has
at most nine digits, and no zero before them. Empty lines, and lines that begin
with #, are skipped. A line of more than 64 bytes, a comment too, is too long,
and any other that is no step is malformed, also if it ends in a carriage
return: each ends the schedule. All of the input is read before it is answered:
at a terminal it ends with Ctrl-D. One of more than 1048576 bytes is too long,
and no line of it is handled.

Exit status: 0 if all lines were handled; 2 if one ended the schedule, the
input is too long or the command line is refused; 1 for a fault of memory,
reading or writing.

Example:
  printf 'p1 arm 0\\np1 test 0\\np2 flag 0\\np2 take 0\\n' | csqsim schedule";

pub(crate) const DRAW_ABOUT: &str = "Draws a schedule as one SVG picture, on standard output";

pub(crate) const DRAW_HELP: &str = "\
A schedule is read as by csqsim schedule, whose help teaches its lines. The
picture has a column for each pass that makes a step, and time runs downwards. A
step is a box on a row of its own, with the number of its line at the left: what
the pass did, to which IRP, and what it found; the routine of the WDK that it
calls; the call that it is of, with what that returns if it ends here; and
whether the pass owes or holds the IRP from then on. Each IRP has one of eight
colours, and its number is in its boxes. What a removal got may be completed
with any status: a schedule names none.
  bold         the step claims its IRP: an exchange that found the routine
  shaded       the pass has the lock; if it lets it go, the shade ends sooner
  dashed line  the pass owes the IRP, from its claim until it takes the IRP out
  solid line   the pass holds the IRP, until it completes it or puts it back
  arrow        from the step of another pass that set a word to the step that
               found it set
  circles      the Cancel flag and the cancel routine of each IRP after its
               step: filled if set, bold if the step changed it or its life; a
               wide line below is a word that stays set
The comment before the first step is above, its first line as the title; an
empty line ends it. It has at most eight lines, and a question mark for a
control character, for one that turns a text's direction, and for a byte that
isn't UTF-8. The first line as # p1: ReadFile names a pass, and stands over its
column, cut to 24 characters. A comment too is too long above 64 bytes.
A browser describes each box and each line in words if the pointer rests on it
and the picture is opened by itself.
A line that ends the schedule is last, marked as refused, with its refusal and a
sentence why; standard error has it too. Otherwise sentences below say who
completed each earlier life of an IRP in which line; where each IRP is in the
end, who completed it in which line, or who owes or holds it since which line;
and whether all is at rest.

With --text it is drawn for a terminal, in ASCII letters but for the comment: a
line for each step, which fits 80 columns however many passes there are, unless
its numbers are long. It has the number of its line, the pass that has the lock
or a hyphen, the pass that makes the step, what it did and found, whether that
pass owes or holds the IRP from then on, and the IRP in its present life, with
its Cancel flag and its cancel routine after the step. The comment before the
first step is above, and the sentences of the end are below.

With --wrong a refused step is drawn all the same, in red as not allowed, and
the schedule goes on in grey by the two words of each IRP alone, as csqsim
schedule --wrong does: what a step found is what the word held. (A step of an
IRP or a pass that there isn't still ends it.) Nothing is known then of calls,
of the lock, and of who owes or holds an IRP. A step that names another life of
an IRP than its present one finds nothing in the words, changes nothing, and
shows none. The end says in which line the protocol was broken, why, and what
goes wrong; that has a red box too, on the row of its step. With --text a !
stands in the place of the lock at the refused step, and a ? after it.

A part of a long schedule is drawn with --from, --to and --irp. The steps of
lines before that of --from are made, but not drawn. The schedule ends after
the line of --to, as if none came after it. With --irp the steps of other IRPs
are made, but not drawn; those of this IRP are drawn in each of its lives. A
line of a pass that had the IRP before begins with the first row, and no arrow,
circle or call tells of a step that isn't drawn. The sentences of the end are of
all steps that were made.

An input of more than 1048576 bytes is answered input too long, and nothing is
drawn.

Exit status: 0 if all lines were drawn; 2 if one ended the schedule, the
input is too long or the command line is refused; 1 for a fault of memory,
reading or writing.

Example:
  printf 'p1 arm 0\\np2 flag 0\\np1 test 0\\n' | csqsim draw > race.svg";

pub(crate) const SCRIPT_ABOUT: &str = "Makes the calls of a script, one call a line";

pub(crate) const SCRIPT_HELP: &str = "\
One pass makes the calls, on a model of the queue that makes one atomic step at
a time. (csqsim run and the libraries use the queue itself.) The pass keeps the
IRPs that it takes out, and the claims of its cancels.
  insert 0 1 back      IoCsqInsertIrpEx of IRP 0 for file object 1, at the back:
                       pending, as its CsqInsertIrpEx returns STATUS_PENDING; or
                       cancelled, if its Cancel flag was set and it was
                       completed at once
  insert 0 1 front     the same at the front
  next *               IoCsqRemoveNextIrp of any file object: irp 0, or none
  next 1               the same of file object 1: irp 0, or none, also if
                       there is no such file object
  remove 0             IoCsqRemoveIrp with the context of IRP 0: irp 0; or none,
                       if it isn't listed or a mark claimed it
  mark 0               IoCancelIrp without the routine. It sets the Cancel flag
                       and takes the cancel routine: claimed, or unclaimed
                       if that was gone
  routine 0            the cancel routine of IRP 0, which a mark claimed, and
                       its completion: completed C0000120
  cancel 0             IoCancelIrp: true, if it completed IRP 0, or false
  complete 0 00000000  IoCompleteRequest of IRP 0, which was removed, with this
                       status: completed 00000000
  close 1              refuses inserts for file object 1 from now on: closed. It
                       is no IRP_MJ_CLOSE, but what a cleanup begins with
  cleanup 1            IRP_MJ_CLEANUP: closes file object 1 and completes what
                       is queued for it as cancelled: cleaned 1, how many
  flag 0               Irp->Cancel: 0 or 1
  status 0             Irp->IoStatus.Status, or unset
  reuse 0              IoReuseIrp of IRP 0, which was completed: life 1
  put_back 0 back      IoCsqInsertIrpEx once more, of IRP 0, which was removed,
                       for the file object of its insert, at the back: pending,
                       or cancelled, as an insert
  put_back 0 front     the same at the front
A remove, mark or cancel names IRP 0 in its life 1 as 0@1, and as 0 in life 0;
the others are of the present life. In the end the listed IRPs are told in the
list's order, and those that are held or owed, if there are any: left 2 0 or
left none, held 1, owed 2. With --explain a sentence stands below each line of
the answer, two spaces in.

A call may be refused, and the script goes on: refused, and the first of these
that holds:
  UnknownIrp, UnknownFile  there is no such IRP, or no such file object: see
                           --irps, --files
  NotHome                  an insert of an IRP that was inserted in this life
  NotHeld                  a complete or a put_back of an IRP that wasn't
                           removed, or was completed or put back since
  FileClosed C0000128      an insert or a put_back for a file object that was
                           closed
  FileFull C000009A        one for a file object that has as many IRPs listed as
                           its limit
  Full C000009A            one into a list that has as many IRPs as its limit
  Stale 1                  a mark or a cancel of an IRP in another life, this
  NoClaim                  a routine of an IRP that no mark claimed
  StatusPending            a complete with 00000103
  NotCompleted             a reuse of an IRP that isn't completed
  LivesSpent               a reuse of an IRP in its last life, 1073741823

Words are separated by one space, and the case of letters counts, but for a
status's eight hexadecimal digits. Another number has at most nine digits, and
no zero before them. Empty lines, and lines that begin with #, are skipped. A
line of more than 64 bytes, a comment too, is too long, and any other that is no
call is malformed, also if it ends in a carriage return: each ends the
script, and standard error says more. All of the input is read before it is
answered: at a terminal it ends with Ctrl-D. One of more than 1048576 bytes is
too long, and no line of it is handled.

Exit status: 0 if all lines were handled; 2 if one ended the script, the
input is too long, or the command line or a limit above the IRPs is refused; 1
for a fault of memory, reading or writing.

Example:
  printf 'insert 0 0 back\\nmark 0\\nroutine 0\\n' | csqsim script";

pub(crate) const RUN_ABOUT: &str = "Lets threads race over one queue, and accounts for its IRPs";

pub(crate) const RUN_HELP: &str = "\
Each submitter inserts an IRP each turn (IoCsqInsertIrpEx); each worker removes
the next one (IoCsqRemoveNextIrp) and completes it; each canceller cancels one
(IoCancelIrp); and one more thread cleans the last file object up
(IRP_MJ_CLEANUP): it completes what is queued for that file as cancelled. A busy
worker, of which there are none unless --busy-workers says so, removes the next
IRP too, and puts it back at the front (IoCsqInsertIrpEx once more), or
completes it as cancelled if it was cancelled or its file was cleaned up
meanwhile. Each but the cleanup has as many turns as --turns says; a submitter
or canceller ends earlier if no IRP is left for it. Threads begin together, and
one that is ahead waits now and then for the others, but not for long: with the
defaults each kind of completion comes in most runs. Once all threads have ended
the queue is closed, and three lines are written:
  irps N                  how many IRPs the device has
  accounted N             how many were never queued, are still listed, or were
                          completed by the threads' own counts
  cancelled and listed N  how many are listed though their Cancel flag is set
The first two numbers are the same, and the third is 0, however the threads were
scheduled: that is proved.

With --totals further lines follow:
  home N                  IRPs that were never queued: no submitter came to
                          them, or the insert was refused after the cleanup
  listed N                IRPs that are still queued
  completed N             IRPs that were completed (IoCompleteRequest)
  succeeded N             those of them with STATUS_SUCCESS
  cancelled N             those of them with STATUS_CANCELLED
  completed by submitters N
                          IRPs that their insert found cancelled
  completed by workers N  IRPs that were removed
  completed by cancellers N
                          IRPs whose cancel routine a cancel called
  completed by cleanup N  IRPs of the last file object
  completed by busy workers N
                          IRPs that couldn't be put back; this line and that
                          of the put-backs stand if there are busy workers
  inserts N               submitters' calls of IoCsqInsertIrpEx
  removals N              workers' calls of IoCsqRemoveNextIrp: --workers times
                          --turns
  removals that found an IRP N
  cancels N               calls of IoCancelIrp
  cancels that took the routine N
                          those that returned TRUE
  cancels too early or too late N
                          those that returned FALSE: the IRP wasn't queued yet,
                          or was removed, cancelled or completed already; they
                          are the next three together
  cancels before the insert N
                          those whose Cancel flag the submitter saw before its
                          insert, which then completed the IRP; and those of
                          IRPs that no insert accepted
  cancels during the insert N
                          those that set the flag later: the insert found it
                          set, and completed the IRP
  cancels after the removal N
                          those of IRPs that were already removed
  put-backs N             calls of IoCsqInsertIrpEx by busy workers, at most
                          --busy-workers times --turns
  milliseconds N          how long the run took, with three digits after the
                          point; or unknown, if the clock failed
The counts of completions sum to completed; inserts are --submitters times
--turns, and cancels --cancellers times --turns, but no more than there are
IRPs: that is proved too. Each removal that finds an IRP is a completion by a
worker, and each cancel that takes the routine is one by a canceller.

With --repeat N, N devices run, one after the other, each with a fresh queue,
and the lines of each are written, from irps on. The first fault ends it.

Exit status: 0 if the lines were written; 2 if the command line is
refused; 1 for a fault of memory, of starting a thread or of writing.

Examples:
  csqsim run --irps 8 --turns 8
  csqsim run --totals --repeat 100
  csqsim run --totals --irps 1024 --submitters 20 --workers 10 --cancellers 20";
