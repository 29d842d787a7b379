//! The lines that say why a run failed.
use cj_epoch::EpochFault;
use cj_formats::{CertCause, CheckCause, OemCause, PrimariesCause, SizesCause};
use cj_io::Name;
use cj_kvn::KvnCause;
use cj_status::{CertificateCause, FileCause, LimitFault, Status, fault_text, push_name};
use std::panic::Expect;

#[test]
fn the_cause_of_a_refused_file_is_told_by_its_name(rt: HostRuntime) {
    let cases: [(&[u8], u32, FileCause, &[u8]); 11] = [
        (
            b"sizes.txt",
            5,
            FileCause::Sizes(SizesCause::Kvn(KvnCause::NotPrintable)),
            b"conj: sizes.txt: line 5: Sizes Kvn NotPrintable\n",
        ),
        (
            b"sizes.txt",
            2,
            FileCause::Sizes(SizesCause::Kvn(KvnCause::NoLineForm)),
            b"conj: sizes.txt: line 2: Sizes Kvn NoLineForm\n",
        ),
        (
            b"fleet.txt",
            1,
            FileCause::Primaries(PrimariesCause::Kvn(KvnCause::NoLineForm)),
            b"conj: fleet.txt: line 1: Primaries Kvn NoLineForm\n",
        ),
        (
            b"fleet.txt",
            3,
            FileCause::Primaries(PrimariesCause::Unknown),
            b"conj: fleet.txt: line 3: Primaries Unknown\n",
        ),
        (
            b"fleet.txt",
            0,
            FileCause::NoPrimaries,
            b"conj: fleet.txt: line 0: NoPrimaries\n",
        ),
        (
            b"a.oem",
            14,
            FileCause::Oem(OemCause::Interpolation),
            b"conj: a.oem: line 14: Interpolation\n",
        ),
        (
            b"a.oem",
            16,
            FileCause::Oem(OemCause::Epoch(EpochFault::SecondSixty)),
            b"conj: a.oem: line 16: Epoch SecondSixty\n",
        ),
        // A byte that is not printable is shown as `?`.
        (
            b"c\n.oem",
            0,
            FileCause::Oem(OemCause::Name),
            b"conj: c?.oem: line 0: Name\n",
        ),
        (
            b"b.oem",
            0,
            FileCause::MixedFrames,
            b"conj: b.oem: line 0: MixedFrames\n",
        ),
        (
            b"b.oem",
            0,
            FileCause::Uncovered {
                micros: 1_735_689_630_000_001,
            },
            b"conj: b.oem: line 0: Uncovered 2025-01-01T00:00:30.000001\n",
        ),
        (
            b"a.oem",
            3,
            FileCause::Oem(OemCause::Kvn(KvnCause::NoLineForm)),
            b"conj: a.oem: line 3: Kvn NoLineForm\n",
        ),
    ];
    for (file, line, cause, told) in cases {
        let file = Name::copy_of(rt.alloc(), file).expect(&rt, "no fault");
        let text = fault_text(rt.alloc(), &Status::BadFile { file, line, cause }).expect(
            &rt, "no fault",
        );
        assert_eq!(rt; text.as_slice(), told);
    }
}

#[test]
fn the_cause_of_a_refused_certificate_is_told_by_its_name(rt: HostRuntime) {
    let cases: [(u32, CertificateCause, &[u8]); 7] = [
        (
            0,
            CertificateCause::NoFile,
            b"conj: not accepted: line 0: NoFile\n",
        ),
        (
            13,
            CertificateCause::Text(CertCause::End),
            b"conj: not accepted: line 13: Text End\n",
        ),
        (
            2,
            CertificateCause::Text(CertCause::Range),
            b"conj: not accepted: line 2: Text Range\n",
        ),
        (
            11,
            CertificateCause::Refused(CheckCause::Untiled),
            b"conj: not accepted: line 11: Untiled\n",
        ),
        (
            7,
            CertificateCause::Refused(CheckCause::BoxOf),
            b"conj: not accepted: line 7: BoxOf\n",
        ),
        (
            0,
            CertificateCause::NoReport,
            b"conj: not accepted: line 0: NoReport\n",
        ),
        (
            8,
            CertificateCause::Report,
            b"conj: not accepted: line 8: Report\n",
        ),
    ];
    for (line, cause, told) in cases {
        let status = Status::NotAccepted { line, cause };
        assert_eq!(rt; status.number(), 1);
        let text = fault_text(rt.alloc(), &status).expect(&rt, "no fault");
        assert_eq!(rt; text.as_slice(), told);
    }
}

#[test]
fn other_ends_are_told(rt: HostRuntime) {
    let file = Name::copy_of(rt.alloc(), b"a.oem").expect(&rt, "no fault");
    let cases: [(Status, &[u8]); 6] = [
        (Status::Ok, b""),
        (
            Status::Limit(LimitFault::Told { limit: 80_000_000 }),
            b"conj: limit: Told 80000000\n",
        ),
        (
            Status::Limit(LimitFault::Slots { count: 4_000_200 }),
            b"conj: limit: Slots 4000200\n",
        ),
        (
            Status::Limit(LimitFault::Nodes { count: 2_000_001 }),
            b"conj: limit: Nodes 2000001\n",
        ),
        (
            Status::Limit(LimitFault::FileBytes { file }),
            b"conj: limit: FileBytes a.oem\n",
        ),
        (Status::OutOfMemory, b"conj: out of memory\n"),
    ];
    for (status, told) in cases {
        let text = fault_text(rt.alloc(), &status).expect(&rt, "no fault");
        assert_eq!(rt; text.as_slice(), told);
    }
}

/// A line feed, and the byte behind the last that is printable.
#[test]
fn a_name_is_shown_in_printable_bytes(rt: HostRuntime) {
    let mut text = Vec::from_slice(rt.alloc(), b"of ").expect(&rt, "no fault");
    push_name(&mut text, b"c\n d\x7f~.oem").expect(&rt, "no fault");
    assert_eq!(rt; text.as_slice(), b"of c? d?~.oem".as_slice());
}
