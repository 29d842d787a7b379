//! The one call that does all that the program does.
ghost use Rattle.std.specs.Prelude.{◌≡◌, ◌↔◌, ◌⊎◌, ◌≤◌, true, false, List, Some, Ok, Err, IfErr, IsTrue};
ghost use Rattle.cj_io.specs.Faults.{Rose};
ghost use Rattle.cj_io.specs.declared.file.FileBytes.{FileBytes};
ghost use Rattle.cj_words.specs.declared.option.UsageFault.{UsageFault};
ghost use Rattle.cj_words.specs.Commands as asks;
ghost use Rattle.cj_words.specs.Commands.{Checks, Generates, Rescreens, Rewrites, Screens, Selfruns, Thins, command_of};
ghost use Rattle.cj_status.specs.declared.status.Status.{Status as Ends};
ghost use Rattle.cj_outputs.specs.Checks.{IsChecked};
ghost use Rattle.cj_outputs.specs.Findings.{ended};
ghost use Rattle.cj_screen.specs.Headline.{IsChanged, IsRescreened, IsScreened};
ghost use Rattle.cj_outputs.specs.Outcome as spec;
ghost use Rattle.cj_outputs.specs.Outcome.{Answers, ComesOfPuts, Extends, Leaves, EndsMaking, EndsRescreening, EndsSelfrun, PutsNothing};
ghost use Rattle.cj_screen.specs.Results.{AreDue, outputs_due};
ghost use Rattle.cj_screen.specs.Tasks.{AreRead, EndsTask, IsCalm, IsDone, Readies, outputs_of_task, puts_files};
ghost use Rattle.cj_outputs.specs.Rewrites.{IsRewritten};
ghost use Rattle.cj_outputs.specs.Thinnings.{IsThinned};

use crate::finding::find;
use crate::reading::read_task;
use crate::results::Results;
use crate::task::Task;
use cj_base::Tick;
use cj_io::{Folder, Gate, StreamShelf};
use cj_outputs::{
    begin, put, put_catalogue, put_changes, put_outputs, put_rewritten, put_summary, put_thinned,
};
use cj_status::Status;
use cj_words::Word;
use std::alloc::Global;
use std::sync::Wait;
use std::thread::Threads;

/// Runs one command line over a folder and a shelf. The words do not hold the program's name.
///
/// `Status` says how it ended; `fault_text` gives the line for standard error.
pub fn conj<R: Threads + Wait + Sync, F: Folder, S: StreamShelf, G: Gate + Sync>(
    rt: &R,
    alloc: Global,
    words: &[Word],
    folder: &mut F,
    shelf: &mut S,
    now: Tick,
    gate: &G,
) -> Status
    // The words alone say whether they are wrong.
    ensures usage { (fault : UsageFault) → (result ≡ Status.Usage fault) ↔ (command_of words.now ≡ Err fault) }
    ensures read { result ≡ Status.ReadFault → Rose (F.faults folder.old) (F.faults folder.new) }
    ensures write { result ≡ Status.WriteFault → Rose (S.faults shelf.old) (S.faults shelf.new) }

    // Over a folder that tells what it holds, or for a command that reads none of it: which status comes. Where outputs are due and nothing
    // fails, they are put, or memory ran out.
    ensures told { (files : List FileBytes) → AreRead words.now (F.files folder.old) files
        → Answers (Rose (F.faults folder.old) (F.faults folder.new)) (Rose (S.refusals shelf.old) (S.refusals shelf.new)) result
        (spec.outputs_of words.now files now.micros) }
    ensures complete { (files due : List FileBytes) → AreRead words.now (F.files folder.old) files → spec.outputs_of words.now files now.micros ≡ Ok due
        → IsCalm words.now (Rose (F.faults folder.old) (F.faults folder.new)) → ¬ Rose (S.faults shelf.old) (S.faults shelf.new)
        → (result ≡ Status.Ok) ⊎ (result ≡ Status.OutOfMemory) }

    // With status 0 of a screening the report's spans split the common ticks of every pair by the exact distance. The covered spans that it may tell
    // hold the ticks at which an object has a state, and no others: all of the window where it has to be covered. The certificate is accepted,
    // and acceptance implies such a split.
    ensures headline { (files outputs : List FileBytes) (screening : asks.PlainScreening) → F.files folder.old ≡ Some files → S.outputs shelf.old ≡ Some outputs
        → command_of words.now ≡ Ok (Screens screening) → result ≡ Status.Ok → IsScreened screening files outputs (S.outputs shelf.new) }

    // Status 0 of a check says that the named file is an accepted certificate, whose cells split the common ticks of every pair, and of a report that
    // is named that it is that of these cells, and that its spans split the common ticks by the exact distance. Where a cause is due, status 1 for a
    // certificate or a report among them, and no count rose, that cause comes, or memory ran out.
    ensures checked { (files outputs : List FileBytes) (checking : asks.PlainChecking) → F.files folder.old ≡ Some files → S.outputs shelf.old ≡ Some outputs
        → command_of words.now ≡ Ok (Checks checking) → result ≡ Status.Ok → IsChecked checking files outputs (S.outputs shelf.new) }
    ensures refused { (files : List FileBytes) (cause : Ends) → AreRead words.now (F.files folder.old) files → spec.outputs_of words.now files now.micros ≡ Err cause
        → IsCalm words.now (Rose (F.faults folder.old) (F.faults folder.new)) → ¬ Rose (S.refusals shelf.old) (S.refusals shelf.new)
        → (result ≡ cause) ⊎ (result ≡ Status.OutOfMemory) }

    // Status 0 of a rewriting says that the named file is an accepted certificate, and that its text, of one in full in version 2, is put, which is one too.
    ensures rewritten { (files outputs : List FileBytes) (checking : asks.PlainChecking) → F.files folder.old ≡ Some files → S.outputs shelf.old ≡ Some outputs
        → command_of words.now ≡ Ok (Rewrites checking) → result ≡ Status.Ok → IsRewritten checking files outputs (S.outputs shelf.new) }

    // Status 0 of a thinning says that the tracks that were asked are put with fewer nodes, and that each stays within the length of where it was.
    ensures thinned { (files outputs : List FileBytes) (thinning : asks.PlainThinning) → F.files folder.old ≡ Some files → S.outputs shelf.old ≡ Some outputs
        → command_of words.now ≡ Ok (Thins thinning) → result ≡ Status.Ok → IsThinned thinning files outputs (S.outputs shelf.new) }

    // Status 0 of a screening again says of the updated files what that of a screening says: the report's spans split the common ticks of every pair
    // by the exact distance, and the certificate is accepted. Where the pairs that changed are told alone, the spans split the common ticks of these,
    // and what is known of other pairs from the base files stays true. No certificate is judged.
    ensures rescreened { (files outputs : List FileBytes) (rescreening : asks.PlainRescreening) → F.files folder.old ≡ Some files → S.outputs shelf.old ≡ Some outputs
        → command_of words.now ≡ Ok (Rescreens rescreening) → rescreening.changed ≡ false → result ≡ Status.Ok → IsRescreened rescreening files outputs (S.outputs shelf.new) }
    ensures changed { (files outputs : List FileBytes) (rescreening : asks.PlainRescreening) → F.files folder.old ≡ Some files → S.outputs shelf.old ≡ Some outputs
        → command_of words.now ≡ Ok (Rescreens rescreening) → rescreening.changed ≡ true → result ≡ Status.Ok → IsChanged rescreening files outputs (S.outputs shelf.new) }
    ensures never { (files : List FileBytes) (rescreening : asks.PlainRescreening) → F.files folder.old ≡ Some files → command_of words.now ≡ Ok (Rescreens rescreening)
        → EndsRescreening result }

    // A catalogue that is made up ends so whatever the folder does, and so does one that is screened.
    ensures made { (recipe : asks.PlainRecipe) → command_of words.now ≡ Ok (Generates recipe) → EndsMaking result }
    ensures selfrun { (selfrun : asks.PlainSelfrun) → command_of words.now ≡ Ok (Selfruns selfrun) → EndsSelfrun result }

    // What is put: whatever the folder tells, nothing where the status says so, and no output that stood is lost; and what is due.
    ensures untouched { PutsNothing result → S.outputs shelf.new ≡ S.outputs shelf.old }
    ensures kept { (outputs : List FileBytes) → S.outputs shelf.old ≡ Some outputs → Extends outputs (S.outputs shelf.new) }
    ensures put { (files outputs : List FileBytes) → AreRead words.now (F.files folder.old) files → S.outputs shelf.old ≡ Some outputs
        → Leaves result (spec.outputs_of words.now files now.micros) outputs (S.outputs shelf.new) }

    // The folder's files stay, and no count of faults falls.
    ensures files { F.files folder.new ≡ F.files folder.old }
    ensures folder_later { F.faults folder.old ≤ F.faults folder.new }
    ensures shelf_later { S.faults shelf.old ≤ S.faults shelf.new }
{
    match read_task(rt, alloc, gate, words, folder) {
        Ok(task) => end(run(rt, alloc, gate, shelf, task, now)),
        Err(status) => status,
    }
}

/// Does what a task asks for.
fn run<R: Threads + Wait + Sync, S: StreamShelf, G: Gate + Sync>(
    rt: &R,
    alloc: Global,
    gate: &G,
    shelf: &mut S,
    task: Task,
    now: Tick,
) -> Result<(), Status>
    ensures ends { EndsTask task.entry (ended result) }
    ensures write { result ≡ Err Status.WriteFault → Rose (S.faults shelf.old) (S.faults shelf.new) }

    ensures answers { Answers ⊥ (Rose (S.refusals shelf.old) (S.refusals shelf.new)) (ended result) (outputs_of_task now.micros task.entry) }
    ensures complete { (due : List FileBytes) → outputs_of_task now.micros task.entry ≡ Ok due → ¬ Rose (S.faults shelf.old) (S.faults shelf.new)
        → (ended result ≡ Status.Ok) ⊎ (ended result ≡ Status.OutOfMemory) }
    ensures done { (files outputs : List FileBytes) (command : asks.PlainCommand) → Readies command files task.entry → S.outputs shelf.old ≡ Some outputs
        → ended result ≡ Status.Ok → IsDone command files outputs (S.outputs shelf.new) }

    ensures untouched { PutsNothing (ended result) → S.outputs shelf.new ≡ S.outputs shelf.old }
    ensures leaves { (outputs : List FileBytes) → S.outputs shelf.old ≡ Some outputs
        → Leaves (ended result) (outputs_of_task now.micros task.entry) outputs (S.outputs shelf.new) }
    ensures later { S.faults shelf.old ≤ S.faults shelf.new }
{
    begin_puts(alloc, shelf, &task)?;
    let results = find(rt, alloc, gate, task, now)?;
    put_results(rt, alloc, shelf, &results)
}

/// Begins the puts of a task that puts files. A shelf that refuses it does so before anything is searched.
fn begin_puts<S: StreamShelf>(alloc: Global, shelf: &mut S, task: &Task) -> Result<(), Status>
    ensures comes { IfErr result ComesOfPuts }
    ensures write { result ≡ Err Status.WriteFault → Rose (S.faults shelf.old) (S.faults shelf.new) }
    ensures refused { result ≡ Err Status.WriteFault → Rose (S.refusals shelf.old) (S.refusals shelf.new) }
    ensures files { IfErr result (λ status. IsTrue (puts_files task.now)) }
    ensures outputs { S.outputs shelf.new ≡ S.outputs shelf.old }
    ensures later { S.faults shelf.old ≤ S.faults shelf.new }
{
    if task.puts_files() {
        begin(alloc, shelf)
    } else {
        Ok(())
    }
}

/// How a run ends by its last step.
fn end(put: Result<(), Status>) -> Status
    ensures { result ≡ ended put }
{
    match put {
        Ok(()) => Status::Ok,
        Err(failed) => failed,
    }
}

/// Makes and puts all that is due.
fn put_results<R: Threads + Sync, S: StreamShelf>(
    rt: &R,
    alloc: Global,
    shelf: &mut S,
    results: &Results,
) -> Result<(), Status>
    requires { AreDue results.now }
    ensures comes { IfErr result ComesOfPuts }
    ensures write { result ≡ Err Status.WriteFault → Rose (S.faults shelf.old) (S.faults shelf.new) }
    ensures leaves { (old : List FileBytes) → S.outputs shelf.old ≡ Some old → Leaves (ended result) (Ok (outputs_due results.now)) old (S.outputs shelf.new) }
    ensures later { S.faults shelf.old ≤ S.faults shelf.new }
{
    match results {
        Results::Screened(found, origin) => put_outputs(rt, alloc, shelf, found, *origin),
        Results::Checked => put(alloc, shelf, b"-", b"ACCEPTED\n"),
        Results::Made(files) => put_catalogue(alloc, shelf, files),
        Results::Selfrun(found) => put_summary(alloc, shelf, found),
        Results::Rewritten(certificate) => put_rewritten(rt, alloc, shelf, certificate),
        Results::Thinned(lone, thinning) => put_thinned(alloc, shelf, lone, thinning),
        Results::Changed(changes) => put_changes(alloc, shelf, changes),
    }
}
