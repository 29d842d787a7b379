//! Who is told of a run, and tells a person at a terminal.
use crate::progress::{Doing, Progress, progress_line};
use cj_advice::{difference_text, warning_text};
use cj_io::{Difference, Gate, Stage, Warning};
use cj_words::Telling;
use std::alloc::{AllocError, Global};
use std::io::{IsTerminal, Write};
use std::sync::atomic::{AtomicBool, AtomicU64, Ordering};
use std::sync::{Mutex, Wait};
use std::time::Instant;

/// A gate at which nobody waits. Where standard error is a terminal, a line there says how far the run has come: from a second on, and at most
/// ten times a second. Whoever tells of a part that is done looks at the clock, and writes the line where it is time.
#[derive(Drop)]
pub struct Watch<'a> {
    rt: &'a HostRuntime,
    /// Whether standard error is a terminal.
    at_terminal: bool,
    /// Whether warnings are told.
    is_warned: bool,
    /// Whether the first fault of each file is.
    wants_all_faults: bool,
    /// How many fault lines were written.
    refused: AtomicU64,
    /// The lines that tell what a certificate states and what the case has.
    differences: Mutex<Vec<u8>>,
    /// When the run began; none where no line is written.
    begun: Option<Instant>,
    /// What the run is at, as its place in `ALL`.
    doing: AtomicU64,
    /// Since how many milliseconds after the beginning.
    since: AtomicU64,
    parts: AtomicU64,
    done: AtomicU64,
    bytes: AtomicU64,
    /// What each worker has done, by its number. Where there was no memory for them, none is counted.
    workers: Vec<CellWords>,
    /// In which tenth of a second the last line was written.
    tenth: AtomicU64,
    /// Whether a line stands on the terminal.
    shown: AtomicBool,
}

/// What a worker has done, in a cache line of its own.
#[derive(Drop)]
struct CellWords {
    halved: AtomicU64,
    closed: AtomicU64,
    _apart: [u64; 14],
}

const MOST_WORKERS: usize = 16;

/// A worker that looks at cells looks at the clock once for so many.
const CELLS_A_LOOK: u64 = 256;

/// In the first second nothing is written.
const FIRST_TENTH: u64 = 10;

const ALL: [Doing; 7] = [
    Doing::Beginning,
    Doing::At(Stage::Files),
    Doing::At(Stage::Objects),
    Doing::At(Stage::Minutes),
    Doing::At(Stage::Cells),
    Doing::At(Stage::Encounters),
    Doing::Writing,
];

impl<'a> Watch<'a> {
    /// The watch over a run that begins now, whose command line asks to be told this.
    pub fn new(rt: &'a HostRuntime, telling: Telling) -> Watch<'a> {
        let at_terminal = rt.stderr().is_terminal();
        let none = Vec::new(rt.alloc());
        let (begun, workers) = if at_terminal {
            let workers = cell_words(rt.alloc()).unwrap_or(none);
            (Instant::now(rt).ok(), workers)
        } else {
            (None, none)
        };
        Watch {
            rt,
            at_terminal,
            is_warned: at_terminal || telling.warnings,
            wants_all_faults: telling.all_faults,
            refused: AtomicU64::new(0),
            differences: Mutex::new(Vec::new(rt.alloc())),
            begun,
            doing: AtomicU64::new(0),
            since: AtomicU64::new(0),
            parts: AtomicU64::new(0),
            done: AtomicU64::new(0),
            bytes: AtomicU64::new(0),
            workers,
            tenth: AtomicU64::new(0),
            shown: AtomicBool::new(false),
        }
    }

    /// So many more bytes of results are written.
    pub fn wrote(&self, bytes: u64) {
        if self.begun.is_none() {
            return;
        }
        if self.at() != Doing::Writing {
            self.start(Doing::Writing, 0);
        }
        self.bytes.fetch_add(bytes, Ordering::Relaxed);
        self.look();
    }

    /// Takes the line away, so that others can be written.
    pub fn wipe(&self) {
        if self.shown.swap(false, Ordering::Relaxed) {
            let _ = self.rt.stderr().write_all(b"\r\x1b[K");
        }
    }

    /// How many fault lines of files that are refused stand already: where there are any, that of the run is the first.
    pub fn refused(&self) -> u64 {
        self.refused.load(Ordering::Relaxed)
    }

    /// Tells, behind the line that a certificate is refused, what it states and what the case has, where that was told.
    pub fn print_differences(&self) {
        if let Some(lines) = self.differences.try_lock() {
            let _ = self.rt.stderr().write_all(&lines);
        }
    }

    /// Writes lines to standard error, in place of the line that stands there.
    fn print(&self, lines: &[u8]) {
        self.wipe();
        let _ = self.rt.stderr().write_all(lines);
    }

    fn at(&self) -> Doing {
        let place = self.doing.load(Ordering::Relaxed) as usize;
        ALL.get(place).copied().unwrap_or(Doing::Beginning)
    }

    /// How many milliseconds the run has lasted; none where no line is written.
    fn millis(&self) -> Option<u64> {
        let lasted = self.begun?.elapsed(self.rt).ok()?;
        u64::try_from(lasted.as_millis()).ok()
    }

    fn start(&self, doing: Doing, parts: u64) {
        let Some(now) = self.millis() else {
            return;
        };
        let place = ALL.iter().position(|other| *other == doing);
        self.done.store(0, Ordering::Relaxed);
        self.parts.store(parts, Ordering::Relaxed);
        self.since.store(now, Ordering::Relaxed);
        self.doing
            .store(place.unwrap_or(0) as u64, Ordering::Relaxed);
        self.look();
    }

    /// Writes the line, where a tenth of a second has gone since it was written. Of several who look at once, one does.
    fn look(&self) {
        let Some(now) = self.millis() else {
            return;
        };
        let tenth = now / 100;
        let last = self.tenth.load(Ordering::Relaxed);
        if tenth < FIRST_TENTH || tenth <= last {
            return;
        }
        let won = self
            .tenth
            .compare_exchange(last, tenth, Ordering::Relaxed, Ordering::Relaxed)
            .is_ok();
        if won {
            self.write_line(&self.progress_at(now));
        }
    }

    fn progress_at(&self, now: u64) -> Progress {
        let mut halved = 0u64;
        let mut closed = 0u64;
        for words in &self.workers {
            halved = halved.saturating_add(words.halved.load(Ordering::Relaxed));
            closed = closed.saturating_add(words.closed.load(Ordering::Relaxed));
        }
        Progress {
            doing: self.at(),
            parts: self.parts.load(Ordering::Relaxed),
            done: self.done.load(Ordering::Relaxed),
            halved,
            closed,
            bytes: self.bytes.load(Ordering::Relaxed),
            lasted: now.saturating_sub(self.since.load(Ordering::Relaxed)),
        }
    }

    /// Writes the line in place of the one that stands there. Where the terminal is narrower, it is cut off: it does not go on in a second row.
    fn write_line(&self, progress: &Progress) {
        let alloc = self.rt.alloc();
        let Ok(line) = progress_line(alloc, progress) else {
            return;
        };
        let line = line.as_str();
        let Ok(text) = format!(in alloc; "\r\x1b[?7l{line}\x1b[K\x1b[?7h") else {
            return;
        };
        self.shown.store(true, Ordering::Relaxed);
        let _ = self.rt.stderr().write_all(text.as_bytes());
    }
}

impl Gate for Watch<'_> {
    fn enter<R: Wait>(&self, _rt: &R, _worker: u32, _turn: u64) {}

    fn begin(&self, stage: Stage, parts: u64) {
        self.start(Doing::At(stage), parts);
    }

    fn advance(&self, stage: Stage, parts: u64) {
        if self.begun.is_none() {
            return;
        }
        let before = self.done.fetch_add(parts, Ordering::Relaxed);
        if stage != Stage::Cells || comes_to_look(before, parts) {
            self.look();
        }
    }

    fn looked(&self, worker: u32, halved: u64, closed: u64) {
        if self.begun.is_none() {
            return;
        }
        let Some(words) = self.workers.get(worker as usize) else {
            return;
        };
        if halved > 0 {
            words.halved.fetch_add(halved, Ordering::Relaxed);
        }
        if closed > 0 {
            let before = words.closed.fetch_add(closed, Ordering::Relaxed);
            if comes_to_look(before, closed) {
                self.look();
            }
        }
    }

    fn is_warned(&self) -> bool {
        self.is_warned
    }

    fn warn(&self, warning: Warning, count: u64, first: &[u8]) {
        if let Ok(line) = warning_text(self.rt.alloc(), warning, count, first) {
            self.print(&line);
        }
    }

    fn wants_all_faults(&self) -> bool {
        self.wants_all_faults
    }

    fn refuse(&self, line: &[u8]) {
        self.refused.fetch_add(1, Ordering::Relaxed);
        self.print(line);
    }

    fn differ(&self, difference: Difference) {
        if !self.at_terminal {
            return;
        }
        let lines = difference_text(self.rt.alloc(), difference);
        if let (Ok(lines), Some(mut all)) = (lines, self.differences.try_lock()) {
            let _ = all.extend_from_slice(&lines);
        }
    }
}

/// Whether it is time to look at the clock, where so many more cells are done than before.
fn comes_to_look(before: u64, more: u64) -> bool {
    before / CELLS_A_LOOK != before.saturating_add(more) / CELLS_A_LOOK
}

fn cell_words(alloc: Global) -> Result<Vec<CellWords>, AllocError> {
    let mut workers = Vec::with_capacity(alloc, MOST_WORKERS)?;
    for _ in 0..MOST_WORKERS {
        workers.push(CellWords {
            halved: AtomicU64::new(0),
            closed: AtomicU64::new(0),
            _apart: [0; 14],
        })?;
    }
    Ok(workers)
}
