//! Certificates in version 2, of boxes that stand for blocks of slots.
ghost use Rattle.std.specs.Prelude.{◌≡◌, [], ◌∷◌, None, Some, length};
ghost use Rattle.cj_cert.specs.Certificates.{plain_certificate};
ghost use Rattle.cj_cert.specs.Listed.{shells_listed};

use crate::certificates::{AT_REST_2, at_rest_1, at_rest_2, at_rest_with_more};
use cj_blocks::{in_version_2, listed_shells};
use cj_case::{Pair, Problem};
use cj_cert::Certificate;
use cj_cert_text::cert_text;
use cj_samples::resting;
use std::alloc::{AllocError, Global};
use std::panic::Expect;

/// A certificate of these objects in version 2, by their only pair.
fn rewritten(alloc: Global, problem: &Problem, cert: Certificate) -> Result<Certificate, AllocError>
    requires tracks { length problem.now.tracks ≡ 2 }
    requires threshold { problem.now.threshold ≡ 5000000000000 }
    requires sizes { problem.now.sizes ≡ 0 ∷ 0 ∷ [] }
    requires primaries { problem.now.primaries ≡ None }
    requires shells { shells_listed (plain_certificate cert)
        ≡ Some (record { lo = 7000000000000000; hi = 7000000000000000 }) ∷ Some (record { lo = 7005000000000000; hi = 7005000000000000 }) ∷ [] }
{
    in_version_2(alloc, problem, cert, &[Pair { a: 0, b: 1 }])
}

#[test]
fn objects_at_rest_have_one_box_each_in_version_2(rt: HostRuntime) {
    let alloc = rt.alloc();
    let problem = resting(alloc).expect(&rt, "no fault");
    let new = rewritten(alloc, &problem, at_rest_1(alloc).expect(&rt, "no fault")).expect(
        &rt, "no fault",
    );
    assert_eq!(rt;
        cert_text(&rt, alloc, &new, 2)
            .expect(&rt, "no fault")
            .as_slice(),
        AT_REST_2
    );
    let same = rewritten(alloc, &problem, at_rest_2(alloc).expect(&rt, "no fault")).expect(
        &rt, "no fault",
    );
    assert_eq!(rt;
        cert_text(&rt, alloc, &same, 2)
            .expect(&rt, "no fault")
            .as_slice(),
        AT_REST_2
    );
}

#[test]
fn the_first_box_of_a_place_is_listed(rt: HostRuntime) {
    let alloc = rt.alloc();
    let problem = resting(alloc).expect(&rt, "no fault");
    let cert = at_rest_with_more(alloc).expect(&rt, "no fault");
    let new = rewritten(alloc, &problem, cert).expect(&rt, "no fault");
    assert_eq!(rt;
        cert_text(&rt, alloc, &new, 2)
            .expect(&rt, "no fault")
            .as_slice(),
        AT_REST_2
    );
}

#[test]
fn a_certificate_lists_shells(rt: HostRuntime) {
    let alloc = rt.alloc();
    let shells = listed_shells(alloc, &at_rest_1(alloc).expect(&rt, "no fault")).expect(
        &rt, "no fault",
    );
    assert_eq!(rt; shells.len(), 2);
}
