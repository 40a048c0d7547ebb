//! The options that take one of a few words.
ghost use Rattle.std.specs.Prelude.{◌≡◌, IfOk, IfErr, Some, option_map};
ghost use Rattle.fillcsv_options.specs.Words.{RefusesPart, ask_in, depth_in, only_sure_in, profile_in, target_data, target_in};

use crate::{Depth, ProfileName, Refusal, Target};
use std::alloc::Global;

/// Whether a cell that is not sure stays empty, by the word after `--only`.
fn only_sure_by(word: Option<&str>) -> Option<bool>
    ensures { result ≡ only_sure_in (option_map (λ w. w.now) word.entry) }
{
    match word {
        None => Some(false),
        Some("sure") => Some(true),
        Some(_) => None,
    }
}

/// The profile, by the word after `--profile`.
fn profile_by(word: Option<&str>) -> Option<ProfileName>
    ensures { result ≡ profile_in (option_map (λ w. w.now) word.entry) }
{
    match word {
        Some("1") => Some(ProfileName::First),
        Some("2") => Some(ProfileName::Second),
        None | Some("3") => Some(ProfileName::Third),
        Some(_) => None,
    }
}

/// How many lookups may stand inside each other, by the word after `--depth`.
fn depth_by(word: Option<&str>) -> Option<Depth>
    ensures { result ≡ depth_in (option_map (λ w. w.now) word.entry) }
{
    match word {
        None | Some("1") => Some(Depth::One),
        Some("2") => Some(Depth::Two),
        Some("3") => Some(Depth::Three),
        Some(_) => None,
    }
}

/// Whether a cell that is not sure stays empty, or the refusal of the word after `--only`.
pub(crate) fn only_sure_of(alloc: Global, word: Option<&str>) -> Result<bool, Refusal>
    ensures ok { IfOk result (λ only. only_sure_in (option_map (λ w. w.now) word.entry) ≡ Some only) }
    ensures err { IfErr result (RefusesPart (only_sure_in (option_map (λ w. w.now) word.entry))) }
{
    match only_sure_by(word) {
        Some(only) => Ok(only),
        None => Err(Refusal::of_word(alloc, word.unwrap_or(""), "--only <STATE>", "sure")),
    }
}

/// The profile, or the refusal of the word after `--profile`.
pub(crate) fn profile_of(alloc: Global, word: Option<&str>) -> Result<ProfileName, Refusal>
    ensures ok { IfOk result (λ profile. profile_in (option_map (λ w. w.now) word.entry) ≡ Some profile) }
    ensures err { IfErr result (RefusesPart (profile_in (option_map (λ w. w.now) word.entry))) }
{
    match profile_by(word) {
        Some(profile) => Ok(profile),
        None => Err(Refusal::of_word(alloc, word.unwrap_or(""), "--profile <NUMBER>", "1, 2, 3")),
    }
}

/// The depth of lookups, or the refusal of the word after `--depth`.
pub(crate) fn depth_of(alloc: Global, word: Option<&str>) -> Result<Depth, Refusal>
    ensures ok { IfOk result (λ depth. depth_in (option_map (λ w. w.now) word.entry) ≡ Some depth) }
    ensures err { IfErr result (RefusesPart (depth_in (option_map (λ w. w.now) word.entry))) }
{
    match depth_by(word) {
        Some(depth) => Ok(depth),
        None => Err(Refusal::of_word(alloc, word.unwrap_or(""), "--depth <NUMBER>", "1, 2, 3")),
    }
}

/// The column that is filled, by the words after `--to` and `--new`, of which there must be one.
pub(crate) fn target_by(
    alloc: Global,
    to: Option<&str>,
    new: Option<&str>,
) -> Result<Target, Refusal>
    ensures ok { IfOk result (λ target. target_in (option_map (λ w. w.now) to.entry) (option_map (λ w. w.now) new.entry) ≡ Some (target_data target)) }
    ensures err { IfErr result (RefusesPart (target_in (option_map (λ w. w.now) to.entry) (option_map (λ w. w.now) new.entry))) }
{
    match (to, new) {
        (Some(column), None) => match String::from_str(alloc, column) {
            Ok(column) => Ok(Target::There(column)),
            Err(_) => Err(Refusal::NoMemory),
        },
        (None, Some(name)) => match String::from_str(alloc, name) {
            Ok(name) => Ok(Target::New(name)),
            Err(_) => Err(Refusal::NoMemory),
        },
        (Some(_), Some(_)) => Err(Refusal::of_usage(alloc, BOTH)),
        (None, None) => Err(Refusal::of_usage(alloc, NEITHER)),
    }
}

/// Whether cells in doubt are asked about, where the sheet is not the standard input and there is no quiet; or the refusal.
pub(crate) fn ask_of(
    alloc: Global,
    ask: bool,
    quiet: bool,
    file: Option<&str>,
) -> Result<bool, Refusal>
    ensures ok { IfOk result (λ asks. ask_in ask quiet (option_map (λ w. w.now) file.entry) ≡ Some asks) }
    ensures err { IfErr result (RefusesPart (ask_in ask quiet (option_map (λ w. w.now) file.entry))) }
{
    match (ask, quiet, file) {
        (false, _, _) => Ok(false),
        (true, true, _) => Err(Refusal::of_usage(alloc, SILENT)),
        (true, false, Some("-")) => Err(Refusal::of_usage(alloc, TWICE)),
        (true, false, _) => Ok(true),
    }
}

/// What is wrong where questions are wanted and quiet too.
const SILENT: &str = "error: the argument '--ask' cannot be used with '--quiet'

For more information, try '--help'.
";

/// What is wrong where the sheet comes from where the answers come from.
const TWICE: &str =
    "error: the argument '--ask' cannot be used with the FILE '-': it reads the answers from standard input

For more information, try '--help'.
";

/// What is wrong where the words name two columns to fill.
const BOTH: &str = "error: the argument '--to <COLUMN>' cannot be used with '--new <NAME>'

For more information, try '--help'.
";

/// What is wrong where they name none.
const NEITHER: &str = "error: the following required arguments were not provided:
  <--to <COLUMN>|--new <NAME>>

For more information, try '--help'.
";
