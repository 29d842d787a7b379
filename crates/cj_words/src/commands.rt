//! From the words of a command line to its command.
ghost use Rattle.std.specs.Prelude.{◌≡◌, ◌≤◌, IfOk, IsTrue, Some};
ghost use Rattle.cj_words.specs.Commands as spec;
ghost use Rattle.cj_words.specs.Commands.{plain_checking, plain_command, plain_recipe, plain_rescreening, plain_screening, plain_selfrun, plain_thinning};
ghost use Rattle.cj_words.specs.Lines.{plain_line};
ghost use Rattle.cj_words.specs.Options as options;
ghost use Rattle.cj_words.specs.Options.{given_of, listed};
ghost use Rattle.cj_words.specs.Settings.{said};

use crate::command::{Checking, Command, Recipe, Rescreening, Screening, Selfrun, Thinning, Verb};
use crate::given::{are_options, asks_brief, is_given, value_of};
use crate::line::{Line, line_of};
use crate::numbers::{format_or, number_or, out_of_range};
use crate::option::{Opt, UsageFault};
use crate::reading::{sized_of, suffix_of, threshold_of, unsized_of};
use crate::settings::Word;
use crate::texts::{
    file_text_or, is_path_or_none, name_or, originator_or, update_or, update_or_none,
};
use cj_base::{Limits, MOST_MADE_OBJECTS};

/// Reads the words of a command line, without the program's name.
///
/// # Errors
///
/// `Words` where they are not of the grammar of a command, else `Value` with the first option whose value is out of its range,
/// in the order of `Opt`.
#[tactic(auto, unfolding(crate::specs::Commands::command_of))]
pub fn read_command(words: &[Word]) -> Result<Command<'_>, UsageFault>
    ensures { said plain_command result ≡ spec.command_of words.now }
{
    match line_of(words) {
        Some(line) => command_in(line),
        None => Err(UsageFault::Words),
    }
}

/// What a command line asks for.
#[tactic(auto, using(crate::proofs::FrontLemmas::accepted_listed, crate::proofs::FrontLemmas::accepted_together))]
pub fn command_in(line: Line<'_>) -> Result<Command<'_>, UsageFault>
    ensures asked { said plain_command result ≡ spec.asked_in (Some (plain_line line.entry)) }
    ensures listed { IfOk result (λ command. IsTrue (options.are_listed (given_of line.entry.options.now))) }
{
    if are_options(line.options, line.verb) {
        placed_command_of(line.options, line.verb)
    } else {
        Err(UsageFault::Words)
    }
}

/// What the options of a command ask for, the directories that they name judged behind all other values.
fn placed_command_of(words: &[Word], verb: Verb) -> Result<Command<'_>, UsageFault>
    requires listed { IsTrue (options.are_listed (given_of words.now)) }
    requires together { IsTrue (options.go_together verb (listed (given_of words.now))) }
    ensures { said plain_command result ≡ spec.placed_command_with verb (listed (given_of words.now)) }
{
    let command = command_of(words, verb)?;
    judge_place(words, Opt::Out)?;
    judge_place(words, Opt::CertDir)?;
    Ok(command)
}

/// Refuses an option that names a directory by anything but a path.
fn judge_place(words: &[Word], option: Opt) -> Result<(), UsageFault>
    requires { IsTrue (options.are_listed (given_of words.now)) }
    ensures { result ≡ spec.place_judged option (listed (given_of words.now)) }
{
    if is_path_or_none(value_of(words, option)) {
        Ok(())
    } else {
        Err(out_of_range(option))
    }
}

fn command_of(words: &[Word], verb: Verb) -> Result<Command<'_>, UsageFault>
    requires listed { IsTrue (options.are_listed (given_of words.now)) }
    requires together { IsTrue (options.go_together verb (listed (given_of words.now))) }
    ensures { said plain_command result ≡ spec.command_with verb (listed (given_of words.now)) }
{
    match verb {
        Verb::Screen => Ok(Command::Screen(screening_of(words)?)),
        Verb::Check => Ok(Command::Check(checking_of(words)?)),
        Verb::Generate => Ok(Command::Generate(recipe_of(words)?)),
        Verb::Selfrun => Ok(Command::Selfrun(selfrun_of(words)?)),
        Verb::Rewrite => Ok(Command::Rewrite(checking_of(words)?)),
        Verb::Thin => Ok(Command::Thin(thinning_of(words)?)),
        Verb::Rescreen => Ok(Command::Rescreen(rescreening_of(words)?)),
    }
}

/// How many workers share the work.
fn workers_of(words: &[Word]) -> Result<u32, UsageFault>
    requires { IsTrue (options.are_listed (given_of words.now)) }
    ensures value { result ≡ spec.workers_of (listed (given_of words.now)) }
    ensures some { IfOk result (λ n. 1 ≤ n) }
    ensures most { IfOk result (λ n. n ≤ 16) }
{
    match number_or(value_of(words, Opt::Workers), 1, 16, 1) {
        Some(workers) => Ok(workers as u32),
        None => Err(out_of_range(Opt::Workers)),
    }
}

#[tactic(auto, unfolding(crate::specs::Commands::screening_of))]
fn screening_of(words: &[Word]) -> Result<Screening<'_>, UsageFault>
    requires { IsTrue (options.are_listed (given_of words.now)) }
    ensures { said plain_screening result ≡ spec.screening_of (listed (given_of words.now)) }
{
    let threshold = threshold_of(words)?;
    let workers = workers_of(words)?;
    let unsized_settings = unsized_of(words, threshold)?;
    let Some(originator) = originator_or(value_of(words, Opt::Originator), b"CONJ") else {
        return Err(out_of_range(Opt::Originator));
    };
    let most_cells = unsized_settings.limits.leaves;
    let Some(cells) = number_or(value_of(words, Opt::Cells), 1, most_cells, most_cells) else {
        return Err(out_of_range(Opt::Cells));
    };
    let settings = sized_of(unsized_settings, words)?;
    let Some(format) = format_or(value_of(words, Opt::CertVersion), asks_brief(words)) else {
        return Err(out_of_range(Opt::CertVersion));
    };
    Ok(Screening {
        settings,
        workers,
        originator,
        cells,
        format,
        rtn: is_given(words, Opt::Rtn),
    })
}

#[tactic(auto, unfolding(crate::specs::Commands::checking_of))]
fn checking_of(words: &[Word]) -> Result<Checking<'_>, UsageFault>
    requires { IsTrue (options.are_listed (given_of words.now)) }
    ensures { said plain_checking result ≡ spec.checking_of (listed (given_of words.now)) }
{
    let threshold = threshold_of(words)?;
    let unsized_settings = unsized_of(words, threshold)?;
    let Some(certificate) = file_text_or(value_of(words, Opt::Cert), 200, b"screen.cert") else {
        return Err(out_of_range(Opt::Cert));
    };
    let settings = sized_of(unsized_settings, words)?;
    let Some(update) = update_or_none(value_of(words, Opt::Update), settings.suffix) else {
        return Err(out_of_range(Opt::Update));
    };
    let Some(report) = name_or(value_of(words, Opt::Report)) else {
        return Err(out_of_range(Opt::Report));
    };
    Ok(Checking {
        settings,
        certificate,
        report,
        update,
        brief: asks_brief(words),
    })
}

#[tactic(auto, unfolding(crate::specs::Commands::rescreening_of))]
fn rescreening_of(words: &[Word]) -> Result<Rescreening<'_>, UsageFault>
    requires listed { IsTrue (options.are_listed (given_of words.now)) }
    requires ends { IsTrue (options.has_ends (listed (given_of words.now))) }
    ensures { said plain_rescreening result ≡ spec.rescreening_of (listed (given_of words.now)) }
{
    let screening = screening_of(words)?;
    let Some(update) = update_or(value_of(words, Opt::Update), screening.settings.suffix) else {
        return Err(out_of_range(Opt::Update));
    };
    Ok(Rescreening {
        screening,
        update,
        changed: is_given(words, Opt::Changed),
    })
}

#[tactic(auto, unfolding(crate::specs::Commands::recipe_of))]
fn recipe_of(words: &[Word]) -> Result<Recipe, UsageFault>
    requires { IsTrue (options.are_listed (given_of words.now)) }
    ensures { said plain_recipe result ≡ spec.recipe_of (listed (given_of words.now)) }
{
    let Some(seed) = number_or(value_of(words, Opt::Seed), 0, u64::MAX, 1) else {
        return Err(out_of_range(Opt::Seed));
    };
    let most_objects = MOST_MADE_OBJECTS as u64;
    let Some(objects) = number_or(value_of(words, Opt::Objects), 1, most_objects, 50) else {
        return Err(out_of_range(Opt::Objects));
    };
    let Some(minutes) = number_or(value_of(words, Opt::Minutes), 1, 1440, 120) else {
        return Err(out_of_range(Opt::Minutes));
    };
    Ok(Recipe {
        seed,
        objects: objects as u32,
        minutes: minutes as u32,
    })
}

#[tactic(auto, unfolding(crate::specs::Commands::selfrun_of))]
fn selfrun_of(words: &[Word]) -> Result<Selfrun, UsageFault>
    requires { IsTrue (options.are_listed (given_of words.now)) }
    ensures { said plain_selfrun result ≡ spec.selfrun_of (listed (given_of words.now)) }
{
    let threshold = threshold_of(words)?;
    let workers = workers_of(words)?;
    let most_cells = Limits::USUAL.leaves;
    let Some(cells) = number_or(value_of(words, Opt::Cells), 1, most_cells, most_cells) else {
        return Err(out_of_range(Opt::Cells));
    };
    let recipe = recipe_of(words)?;
    Ok(Selfrun {
        threshold,
        workers,
        cells,
        recipe,
    })
}

#[tactic(auto, unfolding(crate::specs::Commands::thinning_of))]
fn thinning_of(words: &[Word]) -> Result<Thinning<'_>, UsageFault>
    requires { IsTrue (options.are_listed (given_of words.now)) }
    ensures { said plain_thinning result ≡ spec.thinning_of (listed (given_of words.now)) }
{
    let suffix = suffix_of(words)?;
    let Some(within) = number_or(value_of(words, Opt::Within), 1, 1000, 1) else {
        return Err(out_of_range(Opt::Within));
    };
    Ok(Thinning {
        suffix,
        as_hermite3: is_given(words, Opt::AsHermite3),
        within,
    })
}
