//! What a command line asks to be told beside how its run ends.
use crate::lines::words;
use cj_host::Watch;
use cj_io::Gate;
use cj_words::{Telling, telling_of};
use std::alloc::{AllocError, Global};
use std::panic::Expect;

fn told(alloc: Global, line: &str) -> Result<Telling, AllocError> {
    let words = words(alloc, line)?;
    Ok(telling_of(&words))
}

/// What is asked twice, with a value, of a command that prepares no files, or beside a value out of its range is not asked at all.
#[test]
fn flags_are_read_of_accepted_lines_alone(rt: HostRuntime) {
    let alloc = rt.alloc();
    for (line, warnings, all_faults) in [
        ("screen .", false, false),
        ("screen . --warnings", true, false),
        ("screen . --all-faults", false, true),
        ("check . --all-faults --cert a --warnings", true, true),
        ("rewrite . --warnings --all-faults", true, true),
        ("screen . --warnings --warnings", false, false),
        (
            "screen . --all-faults --warnings --all-faults",
            false,
            false,
        ),
        ("screen . --warnings=1", false, false),
        ("screen . --warnings 1", false, false),
        ("screen . --warnings --workers 17", false, false),
        ("screen --warnings .", false, false),
        ("generate . --warnings", false, false),
        ("selfrun --all-faults", false, false),
        ("--warnings", false, false),
    ] {
        let due = Telling {
            warnings,
            all_faults,
        };
        assert_eq!(rt; told(alloc, line).expect(&rt, "no fault"), due);
    }
}

/// At a terminal it warns without being asked.
#[test]
fn a_watch_wants_what_is_asked(rt: HostRuntime) {
    for (warnings, all_faults) in [(false, false), (false, true), (true, false), (true, true)] {
        let watch = Watch::new(
            &rt,
            Telling {
                warnings,
                all_faults,
            },
        );
        assert!(rt; watch.is_warned() || !warnings);
        assert_eq!(rt; watch.wants_all_faults(), all_faults);
        assert_eq!(rt; watch.refused(), 0);
    }
}
