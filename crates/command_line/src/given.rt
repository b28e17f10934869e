//! What was given under a name on the command line.

ghost use Rattle.std.specs.Prelude.{◌≤◌, IfSome, codes};
ghost use Rattle.command_line.specs.Given.{AreSettingsGiven, IsFlagGiven, IsNumberGiven, IsTextIfGiven, IsTextGiven};

use clap::ArgMatches;
use node_cost::Settings;

/// The three files of a placed design.
#[derive(Clone, Copy)]
pub(crate) struct DesignFiles<'a> {
    pub(crate) net: &'a str,
    pub(crate) arch: &'a str,
    pub(crate) place: &'a str,
}

/// The further files of a negotiation.
#[derive(Clone, Copy)]
pub(crate) struct SideFiles<'a> {
    pub(crate) log: Option<&'a str>,
    pub(crate) schedule: Option<&'a str>,
    pub(crate) follow: Option<&'a str>,
}

/// Returns the text given under a name, if there is one.
pub(crate) fn optional<'a>(matches: &ArgMatches<'a>, name: &str) -> Option<&'a str>
    ensures { IsTextIfGiven matches.now name.now result }
{
    matches.get_str(name)
}

/// Returns the text given under a name. The parser refuses a command line without one.
pub(crate) fn text<'a>(matches: &ArgMatches<'a>, name: &str) -> Option<&'a str>
    ensures { IfSome result (λ t. IsTextGiven matches.now name.now t) }
{
    optional(matches, name)
}

/// Returns the files of a placed design.
pub(crate) fn design_files<'a>(matches: &ArgMatches<'a>) -> Option<DesignFiles<'a>>
    ensures net { IfSome result (λ f. IsTextGiven matches.now (codes "NET") f.net) }
    ensures arch { IfSome result (λ f. IsTextGiven matches.now (codes "ARCH") f.arch) }
    ensures place { IfSome result (λ f. IsTextGiven matches.now (codes "PLACE") f.place) }
{
    Some(DesignFiles {
        net: text(matches, "NET")?,
        arch: text(matches, "ARCH")?,
        place: text(matches, "PLACE")?,
    })
}

/// Returns the further files of a negotiation.
pub(crate) fn side_files<'a>(matches: &ArgMatches<'a>) -> SideFiles<'a>
    ensures log { IsTextIfGiven matches.now (codes "log") result.log }
    ensures schedule { IsTextIfGiven matches.now (codes "schedule") result.schedule }
    ensures follow { IsTextIfGiven matches.now (codes "follow") result.follow }
{
    SideFiles {
        log: optional(matches, "log"),
        schedule: optional(matches, "schedule"),
        follow: optional(matches, "follow"),
    }
}

/// Returns the number given under a name, or else its default.
pub(crate) fn number(matches: &ArgMatches<'_>, name: &str) -> Option<u32>
    ensures { IfSome result (λ n. IsNumberGiven matches.now name.now n) }
{
    matches.get_one::<u32>(name)
}

/// Returns a number of the command line, or `None` if it isn't in 1 to `most`. The parser refuses
/// such a number.
pub(crate) fn number_within(matches: &ArgMatches<'_>, name: &str, most: u32) -> Option<u32>
    ensures range { IfSome result (λ n. (1 ≤ n) × (n ≤ most)) }
    ensures given { IfSome result (λ n. IsNumberGiven matches.now name.now n) }
{
    let number = number(matches, name)?;
    if number >= 1 && number <= most {
        Some(number)
    } else {
        None
    }
}

/// Whether a flag was given.
pub(crate) fn flag(matches: &ArgMatches<'_>, name: &str) -> bool
    ensures { IsFlagGiven matches.now name.now result }
{
    match matches.get_one::<bool>(name) {
        Some(is_given) => is_given,
        None => false,
    }
}

/// Returns the settings of a negotiation, or `None` if a number is out of its range. The parser
/// refuses such a number.
#[tactic(auto, unfolding(node_cost::specs::Options::options_within))]
pub(crate) fn settings(matches: &ArgMatches<'_>) -> Option<Settings>
    ensures { IfSome result (λ o. AreSettingsGiven matches.now o) }
{
    let first = number(matches, "first-pres")?;
    let init = number(matches, "init-pres")?;
    let mult = number(matches, "mult")?;
    let acc = number(matches, "acc")?;
    let bb = number(matches, "bb")?;
    let iterations = number(matches, "iterations")?;
    let is_steady = flag(matches, "steady");
    let settings = Settings::new(first, init, mult, acc, bb, iterations).ok()?;
    Some(settings.with_steady(is_steady))
}
