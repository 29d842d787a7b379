//! The screener as a program: the files of a directory, the standard streams and the clock around one call.
#![tactic(auto)]

use cj_host::{
    DirFolder, DirShelf, Notice, Paths, Request, Watch, now, print_hint, print_hint_on_files,
    print_known_causes, print_notice, read_request,
};
use cj_screen::conj;
use cj_status::{Status, fault_text};
use cj_words::{Word, telling_of};
use std::io::Write;
use std::process::ExitCode;
use std::sync::Wait;
use std::thread::Threads;

fn main(rt: HostRuntime) -> ExitCode {
    let status = match read_request(&rt) {
        Ok(Request::Run { words, paths }) => run(&rt, &rt, &words, &paths),
        Ok(Request::Show(notice)) => show(&rt, notice),
        Err(status) => {
            print_fault(&rt, &status);
            explain(&rt, &status, None, None);
            status
        }
    };
    ExitCode::from(status.number())
}

// Runs what the words ask for, and tells why it failed where it did.
fn run<R: Threads + Wait + Sync>(
    host: &HostRuntime,
    rt: &R,
    words: &[Word],
    paths: &Paths,
) -> Status {
    let watch = Watch::new(host, telling_of(words));
    let mut folder = paths.folder(host, words);
    let mut shelf = paths.shelf(host, rt, words).watched_by(&watch);
    let status = conj(
        rt,
        host.alloc(),
        words,
        &mut folder,
        &mut shelf,
        now(host),
        &watch,
    );
    shelf.close();
    watch.wipe();
    let refused = watch.refused();
    let reason = reason_line(host, &status, &folder, &shelf);
    tell_end(host, &status, refused, reason, words);
    watch.print_differences();
    status
}

// Tells why a run failed, on whose way the fault lines of so many files were told: its own line, where there are none, and behind it what helps.
fn tell_end(
    rt: &HostRuntime,
    status: &Status,
    refused: u64,
    reason: Option<Vec<u8>>,
    words: &[Word],
) {
    if refused == 0 {
        print_fault(rt, status);
    }
    if refused > 1 {
        print_hint_on_files(rt, status);
    } else {
        explain(rt, status, reason, Some(words));
    }
}

// Of a read or write fault the line that tells the file and the system's reason, where they are known.
fn reason_line<R: Threads>(
    rt: &HostRuntime,
    status: &Status,
    folder: &DirFolder<'_>,
    shelf: &DirShelf<'_, '_, R>,
) -> Option<Vec<u8>> {
    let fault = match status {
        Status::ReadFault => folder.last_fault(),
        Status::WriteFault => shelf.last_fault(),
        _ => None,
    };
    fault?.line(rt.alloc()).ok()
}

// Shows a notice. To one who asked for a cause that there is not the others are named.
fn show(rt: &HostRuntime, notice: Notice) -> Status {
    let status = print_notice(rt, notice);
    print_fault(rt, &status);
    match notice {
        Notice::NoCause => print_known_causes(rt),
        _ => explain(rt, &status, None, None),
    }
    status
}

// Tells behind the fault line the file and the system's reason, where they are known. At a terminal a hint to the person there follows.
fn explain(rt: &HostRuntime, status: &Status, reason: Option<Vec<u8>>, words: Option<&[Word]>) {
    if let Some(line) = reason {
        let _ = rt.stderr().write_all(&line);
    }
    print_hint(rt, status, words);
}

// Where the line itself wants memory that is not there, the line that says so stands for it.
fn print_fault(rt: &HostRuntime, status: &Status) {
    let _ = match fault_text(rt.alloc(), status) {
        Ok(text) => rt.stderr().write_all(&text),
        Err(_) => rt.stderr().write_all(b"conj: out of memory\n"),
    };
}
