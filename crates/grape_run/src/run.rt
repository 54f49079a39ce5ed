ghost use Rattle.std.specs.Prelude.{◌≡◌, ◌≢◌, ◌≤◌, ◌↔◌, [], Some, None, IfSome, vec_len};
ghost use Rattle.grape_port.specs.Ports.{Rose, IsAllFlushed};
ghost use Rattle.graph_core.specs.Graphs.{IsJob};
ghost use Rattle.command_words.specs.Grammar.{mode_of};
ghost use Rattle.grape_run.specs.Notes.{note_text};
ghost use Rattle.grape_run.specs.Runs.{ReadsSource, ReadsFor, RefusesState, HasAnswered, IsSilent, AppendsUnlessFault, EndsDemo, EndsAt};
ghost use Rattle.grape_run.specs.Commands.{IsDemo, mode_by, HasRead, HasDone, Does};
ghost use Rattle.grape_run.specs.Entering.{CountsFor};

use crate::answers::{Outcome, run_job};
use crate::beginning::Beginning;
use crate::demo::run_demo;
use crate::finish::Finish;
use crate::input::{JobText, read_job};
use crate::notes::write_note;
use crate::status::Status;
use answer_text::write_answer;
use command_words::{Mode, WordFault, Words, read_words};
use delay_stretch::Pacer;
use grape_disk::Disk;
use grape_port::{Sink, Source};
use graph_text::shown_is_first;
use lane_loop::Gate;
use std::alloc::Global;
use std::sync::Wait;
use std::thread::Threads;

/// Runs a command: reads its words, then the input, begins or opens the state file, evaluates the job, and writes the
/// answer to `out`. Every status but `Done` has a line, which is written to `note`; a failing `note` changes no answer.
/// `NoMemory` may come in place of any status but `BadWords`, before anything is written.
///
/// `demo` reads nothing and doesn't use the disk: it makes its graph from a number, evaluates the distances from vertex
/// 0, and writes the line of their totals.
///
/// The disk is the state file. `run` uses it only where the input asks for snapshots, and then the file must be empty;
/// `resume` goes on from the last snapshot that stands there, or starts afresh where there is none. `StateThere`,
/// `OtherJob` and `BadState` come exactly where the file is refused, unless the disk fails in this call.
///
/// As many lanes serve the fragments as the input says, lane 0 in the caller's thread and each other in a thread of its
/// own where one can be made, and pass the gate with each Work before they evaluate it; on one lane no thread is made,
/// and the gate isn't asked. There are 64 pacers, one for each fragment that there may be. What is ensured holds if the
/// call returns: on several lanes it may wait.
pub fn grape<R: Threads + Wait + Sync, S: Source, O: Sink, N: Sink, D: Disk, G: Gate + Sync>(
    rt: &R,
    alloc: Global,
    words: &Words,
    input: &mut S,
    out: &mut O,
    note: &mut N,
    disk: &mut D,
    pacers: Vec<Box<dyn Pacer + Send>>,
    gate: &G,
) -> Finish
    requires pacers { vec_len pacers ≡ 64 }

    // Words that ask for nothing are refused before anything is read.
    ensures bad_words { (result.status ≡ Status.BadWords) ↔ (mode_of words.now ≡ None) }
    ensures unread { result.status ≡ Status.BadWords → (S.left input.new ≡ S.left input.old) × (S.faults input.new ≡ S.faults input.old) }

    // Where the source tells its text, the status fits what was read of it; where there is a story, it was read to its
    // end. A demo reads nothing, and makes no call of the disk.
    ensures read { ReadsFor (mode_of words.now) result.status (S.left input.old) (S.left input.new) }
    ensures read_fault { result.status ≡ Status.ReadFault → Rose (S.faults input.old) (S.faults input.new) }
    ensures read_to_end { IfSome (mode_of words.now) (λ m. ¬ IsDemo m → IfSome result.story (λ s. IfSome (S.left input.new) (λ rest. rest ≡ []))) }
    ensures demo { IfSome (mode_of words.now) (λ m. IsDemo m → (S.left input.new ≡ S.left input.old) × (S.faults input.new ≡ S.faults input.old) × (disk.new ≡ disk.old)) }

    // One job and one digest are those of the source's text, or at a demo the job of its two numbers; and they are those
    // of the story, of what was written, of what is refused of the state file, and of what a crash leaves there. After
    // Done the whole answer was written, after WriteFault a front of it. After these two there is the story of its run,
    // which ended by a probe with no worker running and no message waiting. After DiskFault and NoMemory there may be one,
    // which was stopped for that, or after NoMemory ended.
    ensures does { Does D.content D.images D.moment D.honest (mode_of words.now) result.status result.story (S.left input.old) (O.written out.old) (O.written out.new) disk.old disk.new }
    ensures flushed { result.status ≡ Status.Done → IsAllFlushed (O.written out.new) (O.flushed out.new) }
    ensures write_fault { result.status ≡ Status.WriteFault → Rose (O.faults out.old) (O.faults out.new) }
    ensures silent { IsSilent result.status → (O.written out.new ≡ O.written out.old) × (O.flushed out.new ≡ O.flushed out.old) × (O.faults out.new ≡ O.faults out.old) }

    // A fault of the disk is answered only where one was counted. Where the state file is refused, or the run was done,
    // there was none.
    ensures disk_fault { result.status ≡ Status.DiskFault → Rose (D.faults disk.old) (D.faults disk.new) }
    ensures state { RefusesState result.status → D.faults disk.new ≡ D.faults disk.old }
    ensures no_disk_fault { HasAnswered result.status → D.faults disk.new ≡ D.faults disk.old }

    ensures note { AppendsUnlessFault (N.written note.old) (note_text result.status) (N.written note.new) (N.faults note.old) (N.faults note.new) }

    // With words that ask for something, an input is answered unless the state file is refused, and another text is
    // refused by its first bad line, unless a port or the disk failed or memory ran out; and so is a demo answered.
    ensures complete { ¬ Rose (S.faults input.old) (S.faults input.new) → ¬ Rose (O.faults out.old) (O.faults out.new) → ¬ Rose (D.faults disk.old) (D.faults disk.new) → IfSome (mode_of words.now) (λ m. EndsAt m result.status (S.left input.old)) }

    ensures later { D.moment disk.old ≤ D.moment disk.new }
    ensures honest { D.honest disk.new ≡ D.honest disk.old }
    ensures input_faults { S.faults input.old ≤ S.faults input.new }
    ensures out_faults { O.faults out.old ≤ O.faults out.new }
    ensures note_faults { N.faults note.old ≤ N.faults note.new }
{
    shown_is_first();
    let finish = run(rt, alloc, words, input, out, disk, pacers, gate);
    write_note(note, &finish.status);
    finish
}

/// The run but for its note.
fn run<R: Threads + Wait + Sync, S: Source, O: Sink, D: Disk, G: Gate + Sync>(
    rt: &R,
    alloc: Global,
    words: &Words,
    input: &mut S,
    out: &mut O,
    disk: &mut D,
    pacers: Vec<Box<dyn Pacer + Send>>,
    gate: &G,
) -> Finish
    ensures bad_words { (result.status ≡ Status.BadWords) ↔ (mode_of words.now ≡ None) }
    ensures unread { result.status ≡ Status.BadWords → (S.left input.new ≡ S.left input.old) × (S.faults input.new ≡ S.faults input.old) }
    ensures read { ReadsFor (mode_of words.now) result.status (S.left input.old) (S.left input.new) }
    ensures read_fault { result.status ≡ Status.ReadFault → Rose (S.faults input.old) (S.faults input.new) }
    ensures read_to_end { IfSome (mode_of words.now) (λ m. ¬ IsDemo m → IfSome result.story (λ s. IfSome (S.left input.new) (λ rest. rest ≡ []))) }
    ensures demo { IfSome (mode_of words.now) (λ m. IsDemo m → (S.left input.new ≡ S.left input.old) × (S.faults input.new ≡ S.faults input.old) × (disk.new ≡ disk.old)) }
    ensures demo_ends { IfSome (mode_of words.now) (λ m. IsDemo m → EndsDemo result.status) }
    ensures does { Does D.content D.images D.moment D.honest (mode_of words.now) result.status result.story (S.left input.old) (O.written out.old) (O.written out.new) disk.old disk.new }
    ensures flushed { result.status ≡ Status.Done → IsAllFlushed (O.written out.new) (O.flushed out.new) }
    ensures write_fault { result.status ≡ Status.WriteFault → Rose (O.faults out.old) (O.faults out.new) }
    ensures silent { IsSilent result.status → (O.written out.new ≡ O.written out.old) × (O.flushed out.new ≡ O.flushed out.old) × (O.faults out.new ≡ O.faults out.old) }
    ensures counts { CountsFor result.status (D.faults disk.old) (D.faults disk.new) }
    ensures later { D.moment disk.old ≤ D.moment disk.new }
    ensures honest { D.honest disk.new ≡ D.honest disk.old }
    ensures input_faults { S.faults input.old ≤ S.faults input.new }
    ensures out_faults { O.faults out.old ≤ O.faults out.new }
{
    let mode = match read_words(alloc, words) {
        Ok(mode) => mode,
        Err(WordFault::Bad) => return Finish::without_story(Status::BadWords),
        Err(WordFault::NoMemory) => return Finish::without_story(Status::NoMemory),
    };
    match mode {
        Mode::Run => run_input(rt, alloc, Beginning::Fresh, input, out, disk, pacers, gate),
        Mode::Resume => run_input(
            rt,
            alloc,
            Beginning::Resumed,
            input,
            out,
            disk,
            pacers,
            gate,
        ),
        Mode::Demo { vertices, number } => {
            run_demo(rt, alloc, vertices, number, out, disk, pacers, gate)
        }
    }
}

/// Reads the input, runs its job, and writes its answer.
fn run_input<R: Threads + Wait + Sync, S: Source, O: Sink, D: Disk, G: Gate + Sync>(
    rt: &R,
    alloc: Global,
    beginning: Beginning,
    input: &mut S,
    out: &mut O,
    disk: &mut D,
    pacers: Vec<Box<dyn Pacer + Send>>,
    gate: &G,
) -> Finish
    ensures words { result.status ≢ Status.BadWords }
    ensures read { ReadsSource result.status (S.left input.old) (S.left input.new) }
    ensures read_fault { result.status ≡ Status.ReadFault → Rose (S.faults input.old) (S.faults input.new) }
    ensures read_to_end { IfSome result.story (λ s. IfSome (S.left input.new) (λ rest. rest ≡ [])) }
    ensures does { Does D.content D.images D.moment D.honest (Some (mode_by beginning)) result.status result.story (S.left input.old) (O.written out.old) (O.written out.new) disk.old disk.new }
    ensures flushed { result.status ≡ Status.Done → IsAllFlushed (O.written out.new) (O.flushed out.new) }
    ensures write_fault { result.status ≡ Status.WriteFault → Rose (O.faults out.old) (O.faults out.new) }
    ensures silent { IsSilent result.status → (O.written out.new ≡ O.written out.old) × (O.flushed out.new ≡ O.flushed out.old) × (O.faults out.new ≡ O.faults out.old) }
    ensures counts { CountsFor result.status (D.faults disk.old) (D.faults disk.new) }
    ensures later { D.moment disk.old ≤ D.moment disk.new }
    ensures honest { D.honest disk.new ≡ D.honest disk.old }
    ensures input_faults { S.faults input.old ≤ S.faults input.new }
    ensures out_faults { O.faults out.old ≤ O.faults out.new }
{
    let text = match read_job(alloc, input) {
        Ok(text) => text,
        Err(fault) => return Finish::without_story(Status::from(fault)),
    };
    finish_job(rt, alloc, beginning, text, out, disk, pacers, gate)
}

/// What follows when the job was read: its run, and the writing of its answer.
fn finish_job<R: Threads + Wait + Sync, O: Sink, D: Disk, G: Gate + Sync>(
    rt: &R,
    alloc: Global,
    beginning: Beginning,
    text: JobText,
    out: &mut O,
    disk: &mut D,
    pacers: Vec<Box<dyn Pacer + Send>>,
    gate: &G,
) -> Finish
    requires job { IsJob text.job }
    ensures read { HasRead result.status }
    ensures done { HasDone D.content D.images D.moment D.honest (mode_by beginning) beginning text.job text.digest result.status result.story (O.written out.old) (O.written out.new) disk.old disk.new }
    ensures flushed { result.status ≡ Status.Done → IsAllFlushed (O.written out.new) (O.flushed out.new) }
    ensures write_fault { result.status ≡ Status.WriteFault → Rose (O.faults out.old) (O.faults out.new) }
    ensures silent { IsSilent result.status → (O.written out.new ≡ O.written out.old) × (O.flushed out.new ≡ O.flushed out.old) × (O.faults out.new ≡ O.faults out.old) }
    ensures counts { CountsFor result.status (D.faults disk.old) (D.faults disk.new) }
    ensures later { D.moment disk.old ≤ D.moment disk.new }
    ensures honest { D.honest disk.new ≡ D.honest disk.old }
    ensures out_faults { O.faults out.old ≤ O.faults out.new }
{
    let (answer, story) = match run_job(rt, alloc, beginning, text, disk, pacers, gate) {
        Outcome::Answered { answer, story } => (answer, story),
        Outcome::Ended(finish) => return finish,
    };
    match write_answer(&answer, out) {
        Ok(()) => Finish::with_story(Status::Done, story),
        Err(_) => Finish::with_story(Status::WriteFault, story),
    }
}
