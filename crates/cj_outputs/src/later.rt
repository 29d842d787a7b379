//! That a check accepts what a run put: a law, which costs next to nothing to call.
ghost use Rattle.std.specs.Prelude.{◌≡◌, ◌≤◌, Bool, List, Ok, length, true};
ghost use Rattle.cj_io.specs.declared.file.FileBytes.{FileBytes};
ghost use Rattle.cj_formats.specs.declared.cert_format.CertFormat.{CertFormat};
ghost use Rattle.cj_formats.specs.declared.cert_format.CertFormat.TheVariants.{Brief};
ghost use Rattle.cj_case.specs.Problems.{plain_problem};
ghost use Rattle.cj_cells.specs.Lists.{list_candidates};
ghost use Rattle.cj_words.specs.Limits.{limits_of, most_certificate_bytes, most_told};
ghost use Rattle.cj_words.specs.Settings.{PlainSettings};
ghost use Rattle.cj_inputs.specs.Cases.{case_asked};
ghost use Rattle.cj_outputs.specs.Again.{IsAcceptedLater};
ghost use Rattle.cj_outputs.specs.Either.{PlainAnyCertificate, FitsIn, IsAcceptedFor, MayRead, any_renewed, is_brief, text_in};
ghost use Rattle.cj_outputs.specs.Outcome.{cert_bytes, within_told};

use cj_blocks::acceptance_in_blocks;
use cj_brief::acceptance_in_brief;
use cj_brief_checker::acceptance_in_brief as first_failures_in_brief;
use cj_case::Problem;
use cj_cert::acceptance;
use cj_checker::acceptance as first_failures;

/// What is written as the certificate of a problem that is asked of files within the limits of a run, a check of these files accepts, once it is
/// among them.
pub fn accepted_later(problem: &Problem)
    // In each format, that of a whole sky in brief; one in brief where the check may read it.
    ensures written { (settings : PlainSettings) (files : List FileBytes) (format : CertFormat) → case_asked files settings ≡ Ok (plain_problem problem.now)
        → settings.limits ≡ limits_of settings.large → (settings.large ≡ true → format ≡ Brief)
        → length (list_candidates (plain_problem problem.now)) ≤ settings.limits.leaves
        → within_told (most_told settings.large) format (plain_problem problem.now) ≡ Ok tt
        → IsAcceptedLater settings (is_brief format) files (cert_bytes format (plain_problem problem.now)) }

    // And where an accepted certificate is rewritten, whatever the limits, as far as its text is not longer than a check takes.
    ensures rewritten { (settings : PlainSettings) (files : List FileBytes) (brief : Bool) (c : PlainAnyCertificate)
        → case_asked files settings ≡ Ok (plain_problem problem.now) → MayRead brief c → IsAcceptedFor (plain_problem problem.now) c → FitsIn c
        → length (text_in (any_renewed (plain_problem problem.now) c)) ≤ most_certificate_bytes settings.large
        → IsAcceptedLater settings brief files (text_in (any_renewed (plain_problem problem.now) c)) }
{
    acceptance(problem);
    acceptance_in_blocks(problem);
    acceptance_in_brief(problem);
    first_failures();
    first_failures_in_brief();
    let _sizes = problem.sizes.as_slice();
}
