//! The words of the tool: flags, options and files, as clap reads them.
#![tactic(auto)]

ghost use Rattle.std.specs.Prelude.{◌≡◌, [], map, IfOk, Some, None, Err, false, unwrap_or, option_map, codes};
ghost use Rattle.command_line.specs.SearchPath.{directories};
ghost use Rattle.clap.specs.Walk.{Row, rule_of, rows_of, first_of, all_of};
ghost use Rattle.clap.specs.Matches.{found_of};
ghost use Rattle.clap.specs.Simple.{app_of};
ghost use Rattle.tool_words.specs.Words as spec;
ghost use Rattle.tool_words.specs.Words.{request_of};
ghost use Rattle.tool_words.specs.Examples.{Examples};

use clap::error::ErrorKind;
use clap::parser::ValueSource;
use clap::{Arg, ArgAction, ArgMatches, Command, Error};
use command_line::directories_of;
use sgx_base::Word;
use sqlite_items::Items;
use std::alloc::{AllocError, Global};

/// What stubs are asked for.
#[derive(Debug, Drop)]
pub struct Choices {
    /// Whether a file's name stands before its untrusted proxies.
    pub use_prefix: bool,
    /// Whether sources are left out.
    pub header_only: bool,
    /// The directories in which imported files are looked for, in order.
    pub search_path: Items<Word>,
    /// Whether the untrusted files are asked for by name.
    pub untrusted: bool,
    /// Whether the trusted files are asked for by name.
    pub trusted: bool,
    /// Where the untrusted files go, if they are not to go here.
    pub untrusted_dir: Option<Word>,
    /// Where the trusted files go, if they are not to go here.
    pub trusted_dir: Option<Word>,
    /// The interface files, one or more.
    pub files: Items<Word>,
}

/// What the words ask for.
#[derive(Debug, Drop)]
pub enum Request {
    /// The usage line.
    Help,
    /// Stubs.
    Stubs(Choices),
}

/// Why the words ask for nothing.
#[derive(Clone, Copy, Debug, PartialEq, Eq)]
pub enum WordsFault {
    /// They are none that the tool takes, or neither ask for help nor name a file.
    Usage,
    Memory,
}

impl From<AllocError> for WordsFault {
    ghost use Rattle.std.specs.Prelude.{◌≡◌};
    ghost use Rattle.tool_words.specs.declared.WordsFault.TheVariants.{Memory};

    ghost from_gives = { λ _ e. e ≡ Memory };

    fn from(_: AllocError) -> WordsFault {
        WordsFault::Memory
    }
}

impl From<Error> for WordsFault {
    ghost use Rattle.std.specs.Prelude.{◌≡◌};
    ghost use Rattle.clap.specs.Values.{kind_of};
    ghost use Rattle.tool_words.specs.Words.{of_kind};

    ghost from_gives = { λ error e. e ≡ of_kind (kind_of error) };

    fn from(error: Error) -> WordsFault {
        match error.kind() {
            ErrorKind::OutOfMemory => WordsFault::Memory,
            _ => WordsFault::Usage,
        }
    }
}

fn flag<'a>(alloc: Global, name: &'a str) -> Arg<'a>
    ensures rule { rule_of result ≡ spec.flag name.now }
    ensures own { result.global ≡ false }
{
    Arg::new(alloc, name).long(name).action(ArgAction::SetTrue)
}

fn option<'a>(alloc: Global, name: &'a str) -> Arg<'a>
    ensures rule { rule_of result ≡ spec.option name.now }
    ensures own { result.global ≡ false }
{
    Arg::new(alloc, name).long(name).action(ArgAction::Set)
}

fn files<'a>(alloc: Global) -> Arg<'a>
    ensures rule { rule_of result ≡ spec.files }
    ensures own { result.global ≡ false }
{
    Arg::new(alloc, "FILE")
        .action(ArgAction::Append)
        .num_args(0..)
}

/// The tool's command, without clap's own help and version.
fn command<'a>(alloc: Global) -> Result<Command<'a>, AllocError>
    ensures { IfOk result (λ c. app_of c ≡ spec.tool) }
{
    Command::new(alloc, "sgx_edger8r")
        .no_binary_name(true)
        .disable_help_flag(true)
        .disable_version_flag(true)
        .arg(flag(alloc, "use-prefix"))?
        .arg(flag(alloc, "header-only"))?
        .arg(option(alloc, "search-path"))?
        .arg(flag(alloc, "untrusted"))?
        .arg(flag(alloc, "trusted"))?
        .arg(option(alloc, "untrusted-dir"))?
        .arg(option(alloc, "trusted-dir"))?
        .arg(flag(alloc, "help"))?
        .arg(files(alloc))
}

/// Whether the words give a flag; clap's default does not count.
#[tactic(auto, using(crate::proofs::Rows::source_row))]
fn is_given(matches: &ArgMatches<'_>, name: &str) -> bool
    ensures { result ≡ spec.is_given name.now (rows_of (found_of matches.now)) }
{
    matches!(matches.value_source(name), Some(ValueSource::CommandLine))
}

#[tactic(auto, using(crate::proofs::Rows::first_row))]
fn value_of<'a>(matches: &ArgMatches<'a>, name: &str) -> Option<&'a str>
    ensures { option_map (λ v. v.now) result ≡ first_of name.now (rows_of (found_of matches.now)) }
{
    matches.get_str(name)
}

fn word_of(alloc: Global, text: Option<&str>) -> Result<Option<Word>, AllocError>
    ensures { IfOk result (λ word. word ≡ option_map (λ t. t.now) text.entry) }
{
    match text {
        Some(text) => Ok(Some(Word::new(alloc, text)?)),
        None => Ok(None),
    }
}

fn words_of(alloc: Global, texts: &[&str]) -> Result<Items<Word>, AllocError>
    ensures { IfOk result (λ words. words ≡ map (λ t. t.now) texts.now) }
{
    let mut words = Items::new(alloc);
    for text in texts {
        words.push(Word::new(alloc, text)?)?;
    }
    Ok(words)
}

#[tactic(auto, using(crate::proofs::Rows::all_row))]
fn files_of(alloc: Global, matches: &ArgMatches<'_>) -> Result<Items<Word>, AllocError>
    ensures { IfOk result (λ files.
        files ≡ unwrap_or (all_of (codes "FILE") (rows_of (found_of matches.now))) []) }
{
    match matches.get_raw("FILE") {
        Some(files) => words_of(alloc, files),
        None => Ok(Items::new(alloc)),
    }
}

fn search_path_of(alloc: Global, path: Option<&str>) -> Result<Items<Word>, AllocError>
    ensures { IfOk result (λ paths.
        paths ≡ unwrap_or (option_map directories (option_map (λ p. p.now) path.entry)) []) }
{
    match path {
        Some(path) => directories_of(alloc, path),
        None => Ok(Items::new(alloc)),
    }
}

fn chosen(alloc: Global, matches: &ArgMatches<'_>) -> Result<Choices, AllocError>
    ensures { IfOk result (λ c. c ≡ spec.chosen (rows_of (found_of matches.now))) }
{
    Ok(Choices {
        use_prefix: is_given(matches, "use-prefix"),
        header_only: is_given(matches, "header-only"),
        search_path: search_path_of(alloc, value_of(matches, "search-path"))?,
        untrusted: is_given(matches, "untrusted"),
        trusted: is_given(matches, "trusted"),
        untrusted_dir: word_of(alloc, value_of(matches, "untrusted-dir"))?,
        trusted_dir: word_of(alloc, value_of(matches, "trusted-dir"))?,
        files: files_of(alloc, matches)?,
    })
}

/// What is asked for, of words that clap takes.
fn asked(alloc: Global, matches: &ArgMatches<'_>) -> Result<Request, WordsFault>
    ensures ok { IfOk result (λ r. spec.asked (rows_of (found_of matches.now)) ≡ Some r) }
    ensures usage { result ≡ Err WordsFault.Usage → spec.asked (rows_of (found_of matches.now)) ≡ None }
{
    if is_given(matches, "help") {
        return Ok(Request::Help);
    }
    let choices = chosen(alloc, matches)?;
    if choices.files.is_empty() {
        return Err(WordsFault::Usage);
    }
    Ok(Request::Stubs(choices))
}

fn texts_of<'a>(alloc: Global, words: &'a [Word]) -> Result<Vec<&'a str>, AllocError>
    ensures { IfOk result (λ texts. map (λ t. t.now) texts.items ≡ words.now) }
{
    let mut texts = Vec::new(alloc);
    for word in words {
        texts.push(word.text())?;
    }
    Ok(texts)
}

/// What the words of the command line ask for, without the program's name: help wherever it is asked for, else the
/// stubs of one file or more.
pub fn read_words(alloc: Global, words: &[Word]) -> Result<Request, WordsFault>
    ensures ok { IfOk result (λ r. request_of words.now ≡ Some r) }
    ensures usage { result ≡ Err WordsFault.Usage → request_of words.now ≡ None }
{
    let texts = texts_of(alloc, words)?;
    let command = command(alloc)?;
    let matches = command.try_get_matches_from(texts.as_slice())?;
    asked(alloc, &matches)
}

/// Command lines, and what they ask for.
pub fn examples()
    ensures { Examples }
{}
