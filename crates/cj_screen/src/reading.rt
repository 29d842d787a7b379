//! From the words of a command line and the files of a folder to what is to be done.
ghost use Rattle.std.specs.Prelude.{◌≡◌, ℕ, ◌↔◌, ◌⊎◌, ◌≤◌, List, Some, Ok, Err, IfOk, IfErr};
ghost use Rattle.cj_io.specs.Faults.{Rose};
ghost use Rattle.cj_io.specs.declared.file.FileBytes.{FileBytes};
ghost use Rattle.cj_words.specs.declared.option.UsageFault.{UsageFault};
ghost use Rattle.cj_words.specs.Commands.{PlainCommand, command_of, plain_command};
ghost use Rattle.cj_outputs.specs.Outcome as spec;
ghost use Rattle.cj_screen.specs.Tasks.{AreRead, ComesToTask, Leads, Readies, ReadsNothing};
ghost use Rattle.cj_status.specs.Steps.{ComesBefore, ComesBetween};

use crate::task::Task;
use cj_base::Limits;
use cj_inputs::{prepare_rescreening, prepare_screening, read_alone};
use cj_io::{Folder, Gate};
use cj_outputs::{check_certificate, rewrite_certificate};
use cj_status::Status;
use cj_words::{Command, Word, read_command};
use std::alloc::Global;
use std::thread::Threads;

/// Reads the words, and the files that they ask for.
pub fn read_task<'w, R: Threads + Sync, F: Folder, G: Gate + Sync>(
    rt: &R,
    alloc: Global,
    gate: &G,
    words: &'w [Word],
    folder: &mut F,
) -> Result<Task<'w>, Status>
    ensures usage { (fault : UsageFault) → (result ≡ Err (Status.Usage fault)) ↔ (command_of words.now ≡ Err fault) }
    ensures before { IfErr result ComesBefore }
    ensures read { result ≡ Err Status.ReadFault → Rose (F.faults folder.old) (F.faults folder.new) }

    // At whatever tick the messages are made.
    ensures told { (files : List FileBytes) (now : ℕ) → AreRead words.now (F.files folder.old) files
        → Leads (Rose (F.faults folder.old) (F.faults folder.new)) now result (spec.outputs_of words.now files now) }
    ensures readies { (files : List FileBytes) (command : PlainCommand) → F.files folder.old ≡ Some files → command_of words.now ≡ Ok command
        → IfOk result (Readies command files) }
    ensures unread { (command : PlainCommand) → command_of words.now ≡ Ok command → ComesToTask command result }

    ensures files { F.files folder.new ≡ F.files folder.old }
    ensures later { F.faults folder.old ≤ F.faults folder.new }
{
    let command = read_command(words)?;
    read_asked(rt, alloc, gate, folder, command)
}

/// Reads the files that a command asks for.
fn read_asked<'w, R: Threads + Sync, F: Folder, G: Gate + Sync>(
    rt: &R,
    alloc: Global,
    gate: &G,
    folder: &mut F,
    command: Command<'w>,
) -> Result<Task<'w>, Status>
    ensures between { IfErr result ComesBetween }
    ensures read { result ≡ Err Status.ReadFault → Rose (F.faults folder.old) (F.faults folder.new) }

    ensures told { (files : List FileBytes) (now : ℕ) → (F.files folder.old ≡ Some files) ⊎ ReadsNothing (Ok (plain_command command.entry))
        → Leads (Rose (F.faults folder.old) (F.faults folder.new)) now result (spec.outputs_asked files now (plain_command command.entry)) }
    ensures readies { (files : List FileBytes) → F.files folder.old ≡ Some files → IfOk result (Readies (plain_command command.entry) files) }
    ensures unread { ComesToTask (plain_command command.entry) result }

    ensures files { F.files folder.new ≡ F.files folder.old }
    ensures later { F.faults folder.old ≤ F.faults folder.new }
{
    match command {
        Command::Screen(screening) => {
            let problem = prepare_screening(
                rt,
                alloc,
                gate,
                folder,
                &screening.settings,
                screening.workers,
            )?;
            Ok(Task::Screen(problem, screening))
        }
        Command::Check(checking) => {
            check_certificate(rt, alloc, gate, folder, &checking)?;
            Ok(Task::Accept)
        }
        Command::Generate(recipe) => Ok(Task::Make(recipe)),
        Command::Selfrun(selfrun) => Ok(Task::Selfrun(selfrun)),
        Command::Rewrite(checking) => {
            let certificate = rewrite_certificate(rt, alloc, gate, folder, &checking)?;
            Ok(Task::Renew(certificate))
        }
        Command::Thin(thinning) => {
            let lone = read_alone(alloc, gate, folder, &thinning, Limits::USUAL)?;
            Ok(Task::Thin(lone, thinning))
        }
        Command::Rescreen(rescreening) => {
            let updating = prepare_rescreening(rt, alloc, gate, folder, &rescreening)?;
            Ok(Task::Rescreen(updating, rescreening))
        }
    }
}
