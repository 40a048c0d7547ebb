//! From the words to what they ask for.
ghost use Rattle.std.specs.Prelude.{◌≡◌, All, IfOk, IfErr, Some, map, option_map, string_bytes};
ghost use Rattle.std.specs.List.{list_any};
ghost use Rattle.clap.specs.Walk.{first_of, rows_of};
ghost use Rattle.clap.specs.Words.{found_of};
ghost use Rattle.fillcsv_options.specs.Words.{Answers, AnswersOrder, AnswersRun, IsLookup, IsProper, RefusesPart, asked_in, chosen_data, chosen_in, data_in, data_of, is_rule_word, is_set, lookup_data, meaning_of_asked, meaning_of_rows, run_meaning, run_of_rows, sheet_meaning, text_of, texts_of};

use crate::choices::{ask_of, depth_of, only_sure_of, profile_of, target_by};
use crate::columns::columns_of;
use crate::conflicts::conflict_of;
use crate::examples::examples_of;
use crate::options::{options, run_options};
use crate::tables::lookups_of;
use crate::{Asked, Depth, Lookup, Order, ProfileName, Refusal, Saved, Target, Typed};
use clap::ArgMatches;
use std::alloc::{AllocError, Global};

/// The value of an option, the first where it has several.
fn value_of<'a>(matches: &ArgMatches<'a>, id: &str) -> Option<&'a str>
    ensures { option_map (λ v. v.now) result ≡ first_of id.now (rows_of (found_of matches.now)) }
{
    matches.get_str(id)
}

/// The value of an option, and the empty text where it has none.
fn text_of(alloc: Global, matches: &ArgMatches<'_>, id: &str) -> Result<String, AllocError>
    ensures { IfOk result (λ text. string_bytes text ≡ text_of id.now (rows_of (found_of matches.now))) }
{
    String::from_str(alloc, value_of(matches, id).unwrap_or(""))
}

/// The value of an option, if it has one.
fn word_of(alloc: Global, matches: &ArgMatches<'_>, id: &str) -> Result<Option<String>, AllocError>
    ensures { IfOk result (λ word. option_map string_bytes word ≡ first_of id.now (rows_of (found_of matches.now))) }
{
    match value_of(matches, id) {
        Some(word) => Ok(Some(String::from_str(alloc, word)?)),
        None => Ok(None),
    }
}

/// Whether a flag is among the words.
fn is_set(matches: &ArgMatches<'_>, id: &str) -> bool
    ensures { result ≡ is_set id.now (rows_of (found_of matches.now)) }
{
    match value_of(matches, id) {
        Some(text) => text == "true",
        None => false,
    }
}

/// The values of an option that may stand several times.
fn values_of<'a>(matches: &'a ArgMatches<'_>, id: &str) -> &'a [&'a str]
    ensures { map (λ v. v.now) result.now ≡ texts_of id.now (rows_of (found_of matches.now)) }
{
    matches.get_strs(id).unwrap_or(&[])
}

/// What the options ask for that not every word is a value of.
#[derive(Drop)]
pub(crate) struct Chosen {
    /// Whether a cell that is not sure stays empty.
    pub only_sure: bool,
    /// The language of the rules.
    pub profile: ProfileName,
    /// How many lookups may stand inside each other.
    pub depth: Depth,
    /// The column that is filled.
    pub to: Target,
    /// The examples, each for another row.
    pub examples: Vec<Typed>,
    /// The tables, and then their keys.
    pub lookups: Vec<Lookup>,
    /// Whether cells in doubt are asked about.
    pub ask: bool,
}

/// What these options ask for.
fn chosen_by(alloc: Global, matches: &ArgMatches<'_>) -> Result<Chosen, Refusal>
    ensures ok { IfOk result (λ chosen. chosen_in (rows_of (found_of matches.now)) ≡ Some (chosen_data chosen)) }
    ensures err { IfErr result (RefusesPart (chosen_in (rows_of (found_of matches.now)))) }
{
    let only_sure = only_sure_of(alloc, value_of(matches, "only"))?;
    let profile = profile_of(alloc, value_of(matches, "profile"))?;
    let depth = depth_of(alloc, value_of(matches, "depth"))?;
    let to = target_by(alloc, value_of(matches, "to"), value_of(matches, "new"))?;
    let examples = examples_of(alloc, values_of(matches, "example"))?;
    let lookups = lookups_of(
        alloc,
        values_of(matches, "table"),
        values_of(matches, "key"),
    )?;
    let ask = ask_of(
        alloc,
        is_set(matches, "ask"),
        is_set(matches, "quiet"),
        value_of(matches, "FILE"),
    )?;
    Ok(Chosen {
        only_sure,
        profile,
        depth,
        to,
        examples,
        lookups,
        ask,
    })
}

/// What the words ask for that `clap` has taken.
fn asked_by(alloc: Global, matches: &ArgMatches<'_>) -> Result<Asked, Refusal>
    ensures { Answers (meaning_of_rows (rows_of (found_of matches.now))) result }
{
    match chosen_by(alloc, matches) {
        Ok(chosen) => asked_of(alloc, matches, chosen),
        Err(why) => Err(why),
    }
}

/// What the words ask for with these choices, if the options go together.
fn asked_of(alloc: Global, matches: &ArgMatches<'_>, chosen: Chosen) -> Result<Asked, Refusal>
    ensures { Answers (meaning_of_asked (data_in (rows_of (found_of matches.now)) (chosen_data chosen))) result }
{
    let asked = asked_with(alloc, matches, chosen)?;
    going_together(alloc, asked)
}

/// What is asked for, if its options go together.
fn going_together(alloc: Global, asked: Asked) -> Result<Asked, Refusal>
    ensures { Answers (meaning_of_asked (data_of asked)) result }
{
    match conflict_of(alloc, &asked) {
        Some(why) => Err(why),
        None => Ok(asked),
    }
}

/// What the words ask for with these choices.
fn asked_with(alloc: Global, matches: &ArgMatches<'_>, chosen: Chosen) -> Result<Asked, AllocError>
    ensures { IfOk result (λ asked. data_in (rows_of (found_of matches.now)) (chosen_data chosen) ≡ data_of asked) }
{
    Ok(Asked {
        file: text_of(alloc, matches, "FILE")?,
        to: chosen.to,
        from: columns_of(alloc, values_of(matches, "from"))?,
        header: !is_set(matches, "no-header"),
        examples: chosen.examples,
        replace: is_set(matches, "replace"),
        lookups: chosen.lookups,
        depth: chosen.depth,
        states: is_set(matches, "state"),
        only_sure: chosen.only_sure,
        profile: chosen.profile,
        quiet: is_set(matches, "quiet"),
        explain: is_set(matches, "explain"),
        ask: chosen.ask,
        strict: is_set(matches, "strict"),
        save: word_of(alloc, matches, "save-rule")?,
    })
}

/// The sheet that words ask for. No column of a key stands twice.
fn sheet_words(alloc: Global, words: &[String]) -> Result<Asked, Refusal>
    ensures answer { Answers (sheet_meaning (map string_bytes words.now)) result }
    ensures lookups { IfOk result (λ asked. All IsLookup (map lookup_data asked.lookups.items)) }
{
    let options = options(alloc)?;
    match options.try_get_matches_from(words) {
        Ok(matches) => asked_by(alloc, &matches),
        Err(error) => Err(Refusal::of(alloc, &error)),
    }
}

/// The run that the words ask for which `clap` has taken.
fn saved_by(alloc: Global, matches: &ArgMatches<'_>) -> Result<Saved, Refusal>
    ensures { AnswersRun (run_of_rows (rows_of (found_of matches.now))) result }
{
    Ok(Saved {
        rule: text_of(alloc, matches, "rule")?,
        quiet: is_set(matches, "quiet"),
    })
}

/// The run of a saved rule that words ask for.
fn run_words(alloc: Global, words: &[String]) -> Result<Saved, Refusal>
    ensures { AnswersRun (run_meaning (map string_bytes words.now)) result }
{
    let options = run_options(alloc)?;
    match options.try_get_matches_from(words) {
        Ok(matches) => saved_by(alloc, &matches),
        Err(error) => Err(Refusal::of(alloc, &error)),
    }
}

/// Whether a word names a saved rule.
fn is_rule_word(word: &str) -> bool
    ensures { result ≡ is_rule_word word.now }
{
    word == "--rule" || word.starts_with("--rule=")
}

/// Whether words ask for the run of a saved rule.
fn wants_rule(words: &[String]) -> bool
    ensures { result ≡ list_any is_rule_word (map string_bytes words.now) }
{
    has_rule_word(words)
}

/// Whether one of these words names a saved rule.
fn has_rule_word(words: &[String]) -> bool
    ensures { result ≡ list_any (λ word. is_rule_word (string_bytes word)) words.now }
{
    words.iter().any(|word| is_rule_word(word.as_str()))
}

/// What the words after the program's name ask for.
///
/// No column of a key stands twice.
pub fn read_words(alloc: Global, words: &[String]) -> Result<Order, Refusal>
    ensures answer { AnswersOrder (asked_in (map string_bytes words.now)) result }
    ensures proper { IfOk result IsProper }
{
    if wants_rule(words) {
        match run_words(alloc, words) {
            Ok(saved) => Ok(Order::Run(saved)),
            Err(why) => Err(why),
        }
    } else {
        match sheet_words(alloc, words) {
            Ok(asked) => Ok(Order::Fill(asked)),
            Err(why) => Err(why),
        }
    }
}
