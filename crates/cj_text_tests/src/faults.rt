use cj_kvn::{KvnCause, KvnFault, LineFault, Refused, TextFault};

/// What can be wrong in a format that is made of lines.
#[derive(Clone, Copy, Debug, PartialEq, Eq)]
enum Cause {
    Kvn(KvnCause),
    Twice,
}

impl From<KvnCause> for Cause {
    fn from(cause: KvnCause) -> Self {
        Cause::Kvn(cause)
    }
}

#[test]
fn a_refused_line_is_told_at_its_number(rt: HostRuntime) {
    let twice = Refused::Because(Cause::Twice);
    let fault = TextFault::At {
        line: 7,
        cause: Cause::Twice,
    };
    assert_eq!(rt; twice.at(7), fault);
    let memory: Refused<Cause> = Refused::Memory;
    assert_eq!(rt; memory.at(7), TextFault::Memory);
}

#[test]
fn a_fault_of_lines_is_told_in_the_words_of_a_format(rt: HostRuntime) {
    let fault = LineFault {
        line: 3,
        cause: KvnCause::NotPrintable,
    };
    let told = TextFault::At {
        line: 3,
        cause: Cause::Kvn(KvnCause::NotPrintable),
    };
    assert_eq!(rt; TextFault::<Cause>::from(fault), told);
    let same = KvnFault::At {
        line: 3,
        cause: KvnCause::NotPrintable,
    };
    assert_eq!(rt; KvnFault::from(fault), same);
}
