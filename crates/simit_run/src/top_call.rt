//! The top call: all that the program does, over the inputs and sinks that are handed in.

ghost use Rattle.std.specs.Prelude.{◌≡◌, ◌≢◌, ◌≤◌, ◌⊎◌, ℕ, List, IfSome, IfNone, Some, Ok, Err, map, string_bytes};
ghost use Rattle.simit_io.specs.Inputs.{Rose, IsMissing};
ghost use Rattle.command_words.specs.Commands.{words_of};
ghost use Rattle.run_notes.specs.Notes.{PutsNote, memory_note, usage_note, write_fault_note};
ghost use Rattle.command_words.specs.declared.command.WordsFault.TheVariants.{Refused};
ghost use Rattle.command_words.specs.Job.{HasPoints};
ghost use Rattle.simit_run.specs.Hosts.{hosts_of};
ghost use Rattle.simit_run.specs.Ending.{Ending, IsShown, MayEnd, first_file, refusal_status, status_of, stop_status};

use crate::answering::answer;
use crate::status::Status;
use algebra_meaning::Stop;
use command_words::{Words, WordsFault, read};
use host_table::{HostMeaning, HostTable};
use run_notes::{Failure, Refusal, put_memory, put_note, put_usage, put_write_fault};
use simit_io::{Failed, Inputs, Sink, putting_law};
use std::alloc::Global;

/// The status of a run that stops before its end.
fn stop_status(stop: Stop) -> Status
    ensures { result ≡ stop_status stop }
{
    match stop {
        Stop::Trap { .. } => Status::Trap,
        Stop::Spent => Status::Spent,
    }
}

/// The status of a refusal.
fn refusal_status(refusal: Refusal) -> Status
    ensures { result ≡ refusal_status refusal }
{
    match refusal {
        Refusal::FileLimit(_) | Refusal::DenseWords => Status::Limit,
        Refusal::Stopped(stop) => stop_status(stop),
        Refusal::Words
        | Refusal::NotYet
        | Refusal::Lexical { .. }
        | Refusal::Syntax { .. }
        | Refusal::NotAChain { .. }
        | Refusal::IllTyped { .. }
        | Refusal::NoSuchSet
        | Refusal::FileCount { .. }
        | Refusal::Table { .. } => Status::Refused,
    }
}

/// The status of an answer that is no output.
fn status_of(failure: Failure) -> Status
    ensures { result ≡ status_of failure }
{
    match failure {
        Failure::Memory => Status::Memory,
        Failure::ReadFault(_) => Status::ReadFault,
        Failure::Refused(refusal) => refusal_status(refusal),
    }
}

/// Does what the words of a command ask for, and puts its output or its note line.
fn carry_out<I: Inputs, O: Sink, N: Sink, H: HostMeaning>(
    alloc: Global,
    words: &Words,
    inputs: &mut I,
    out: &mut O,
    notes: &mut N,
    hosts: &HostTable<H>,
) -> Status
    requires { HasPoints words.now }
    ensures ending { (texts : List (List ℕ)) → words_of texts ≡ Ok words.now → IfSome (I.holds inputs.old) (λ files. (ending : Ending)
        × MayEnd (hosts_of H.answer hosts.now) texts files (Rose (I.faults inputs.old) (I.faults inputs.new)) (Rose (O.faults out.old) (O.faults out.new)) ending
        × IsShown ending result (O.written out.old) (O.written out.new) (N.written notes.old) (N.written notes.new) (Rose (N.faults notes.old) (N.faults notes.new))) }
    ensures read_fault { IfNone (I.holds inputs.old) (result ≡ Status.ReadFault → Rose (I.faults inputs.old) (I.faults inputs.new)) }
    ensures write_fault { result ≡ Status.WriteFault → Rose (O.faults out.old) (O.faults out.new)
        × PutsNote (N.written notes.old) (N.written notes.new) (Rose (N.faults notes.old) (N.faults notes.new)) write_fault_note }
    ensures memory { result ≡ Status.Memory
        → PutsNote (N.written notes.old) (N.written notes.new) (Rose (N.faults notes.old) (N.faults notes.new)) memory_note }
    ensures missing { (program : List ℕ) → first_file (Ok words.now) ≡ Some program → IsMissing (I.holds inputs.old) program → result ≡ Status.ReadFault }
    ensures nothing_put { result ≢ Status.Done → result ≢ Status.WriteFault → O.written out.new ≡ O.written out.old }
    ensures same_files { I.holds inputs.new ≡ I.holds inputs.old }
    ensures counted { (I.faults inputs.old ≤ I.faults inputs.new) × (O.faults out.old ≤ O.faults out.new) × (N.faults notes.old ≤ N.faults notes.new) }
{
    putting_law();
    match answer(alloc, inputs, hosts, words) {
        Ok(output) => match output.put(out) {
            Ok(()) => Status::Done,
            Err(Failed) => {
                put_write_fault(notes);
                Status::WriteFault
            }
        },
        Err(failure) => {
            put_note(notes, words, failure);
            status_of(failure)
        }
    }
}

/// Runs the command that the words after the program's own name state.
///
/// The words are `run PROGRAM SETS..`, `plain PROGRAM SETS..` or `make SEED N`, with options; `plan PROGRAM SETS..` is read and
/// then refused. The program's file is read and judged before a table's file is opened, and each table before the next; nothing
/// is put to `out` before the run has ended. Where there is no output, be it that something is refused, that the run
/// traps or that its turns are spent, a line that says why is put to `notes`. The program may declare and call the host
/// functions of `hosts`; one that it doesn't call makes no difference.
pub fn run<I: Inputs, O: Sink, N: Sink, H: HostMeaning>(
    alloc: Global,
    words: &[String],
    inputs: &mut I,
    out: &mut O,
    notes: &mut N,
    hosts: &HostTable<H>,
) -> Status
    // Where the inputs' files are known, the call ends as the program's answer to the words, these files and what the
    // host functions answer, or out of memory, or by a counted fault.
    ensures ending { IfSome (I.holds inputs.old) (λ files. (ending : Ending)
        × MayEnd (hosts_of H.answer hosts.now) (map string_bytes words.now) files (Rose (I.faults inputs.old) (I.faults inputs.new)) (Rose (O.faults out.old) (O.faults out.new)) ending
        × IsShown ending result (O.written out.old) (O.written out.new) (N.written notes.old) (N.written notes.new) (Rose (N.faults notes.old) (N.faults notes.new))) }

    // Whether or not they are known: each fault has its cause, and its note line, which needs no file's bytes.
    ensures read_fault { IfNone (I.holds inputs.old) (result ≡ Status.ReadFault → Rose (I.faults inputs.old) (I.faults inputs.new)) }
    ensures write_fault { result ≡ Status.WriteFault → Rose (O.faults out.old) (O.faults out.new)
        × PutsNote (N.written notes.old) (N.written notes.new) (Rose (N.faults notes.old) (N.faults notes.new)) write_fault_note }
    ensures memory { result ≡ Status.Memory
        → PutsNote (N.written notes.old) (N.written notes.new) (Rose (N.faults notes.old) (N.faults notes.new)) memory_note }
    ensures refused_words { words_of (map string_bytes words.now) ≡ Err Refused → (result ≡ Status.Memory) ⊎ ((result ≡ Status.Refused)
        × PutsNote (N.written notes.old) (N.written notes.new) (Rose (N.faults notes.old) (N.faults notes.new)) usage_note) }

    // Where the program's file is known to be missing, no other answer comes but out of memory.
    ensures missing { (program : List ℕ) → first_file (words_of (map string_bytes words.now)) ≡ Some program
        → IsMissing (I.holds inputs.old) program → (result ≡ Status.Memory) ⊎ (result ≡ Status.ReadFault) }

    // Without an output nothing is put out; and what the call leaves of the inputs and of the counts.
    ensures nothing_put { result ≢ Status.Done → result ≢ Status.WriteFault → O.written out.new ≡ O.written out.old }
    ensures same_files { I.holds inputs.new ≡ I.holds inputs.old }
    ensures counted { (I.faults inputs.old ≤ I.faults inputs.new) × (O.faults out.old ≤ O.faults out.new) × (N.faults notes.old ≤ N.faults notes.new) }
{
    putting_law();
    match read(alloc, words) {
        Ok(words) => carry_out(alloc, &words, inputs, out, notes, hosts),
        Err(WordsFault::Refused) => {
            put_usage(notes);
            Status::Refused
        }
        Err(WordsFault::Memory) => {
            put_memory(notes);
            Status::Memory
        }
    }
}
