//! The arguments of `query`, `scan`, `serve` and `find`.

ghost use Rattle.std.specs.Prelude.{◌≡◌, false, map, option_map, IfOk};
ghost use Rattle.clap.specs.Matches.{found_of};
ghost use Rattle.clap.specs.Walk.{all_of, first_of, rows_of, rule_of};
ghost use Rattle.clap.specs.Simple.{app_of};
ghost use Rattle.dbgd_words.specs.Options.{cache_rule, command_app, concurrency_rule, database_rule};
ghost use Rattle.dbgd_words.specs.Options.{exclude_rule, folders_rule, id_rule, include_rule};
ghost use Rattle.dbgd_words.specs.Options.{kind_rule, name_rule, port_rule, rescan_time_rule};
ghost use Rattle.dbgd_words.specs.Options.{scan_file_dir_rule, servers_rule, sources_rule};
ghost use Rattle.dbgd_words.specs.Options.{upstream_rule};

use clap::{Arg, ArgAction, ArgMatches, Command};
use std::alloc::{AllocError, Global};

/// The version that each command answers.
const VERSION: &str = "0.1.0";

/// A command of a name, with the names by which its texts call it.
pub fn command<'a>(
    alloc: Global,
    name: &'a str,
    called: &str,
    about: &'a str,
    after: &'a str,
) -> Result<Command<'a>, AllocError>
    ensures { IfOk result (λ command. app_of command ≡ command_app name.now) }
{
    Command::new(alloc, name)
        .version(VERSION)
        .about(about)
        .after_help(after)
        .bin_name(called)?
        .display_name(called)
}

/// `-d FILE`.
pub fn database<'a>(alloc: Global) -> Arg<'a>
    ensures rule { rule_of result ≡ database_rule }
    ensures local { result.global ≡ false }
{
    Arg::new(alloc, "database")
        .short('d')
        .long("database")
        .value_name("FILE")
        .help("The store of the index; it is made where it isn't there")
        .required(true)
        .action(ArgAction::Set)
}

/// `-c N`, of which the help says what it is the number of.
pub fn concurrency<'a>(alloc: Global, help: &'a str) -> Arg<'a>
    ensures rule { rule_of result ≡ concurrency_rule }
    ensures local { result.global ≡ false }
{
    Arg::new(alloc, "concurrency")
        .short('c')
        .long("concurrency")
        .value_name("N")
        .help(help)
        .default_value("4")
        .action(ArgAction::Set)
}

/// `-p PORT`.
pub fn port<'a>(alloc: Global) -> Arg<'a>
    ensures rule { rule_of result ≡ port_rule }
    ensures local { result.global ≡ false }
{
    Arg::new(alloc, "port")
        .short('p')
        .long("port")
        .value_name("PORT")
        .help("The port, 1 to 65535, on which requests are answered")
        .default_value("8002")
        .action(ArgAction::Set)
}

/// `-t SECS`.
pub fn rescan_time<'a>(alloc: Global) -> Arg<'a>
    ensures rule { rule_of result ≡ rescan_time_rule }
    ensures local { result.global ≡ false }
{
    Arg::new(alloc, "rescan-time")
        .short('t')
        .long("rescan-time")
        .value_name("SECS")
        .help("Seconds between scans, 0 to 86400; 0 for one scan alone")
        .default_value("300")
        .action(ArgAction::Set)
}

/// `-I PATTERN`.
pub fn include<'a>(alloc: Global) -> Arg<'a>
    ensures rule { rule_of result ≡ include_rule }
    ensures local { result.global ≡ false }
{
    Arg::new(alloc, "include")
        .short('I')
        .long("include")
        .value_name("PATTERN")
        .help("Only files with a match of this expression in their path are scanned")
        .action(ArgAction::Set)
}

/// `-X PATTERN`.
pub fn exclude<'a>(alloc: Global) -> Arg<'a>
    ensures rule { rule_of result ≡ exclude_rule }
    ensures local { result.global ≡ false }
{
    Arg::new(alloc, "exclude")
        .short('X')
        .long("exclude")
        .value_name("PATTERN")
        .help("No file with a match of this expression in its path is scanned")
        .action(ArgAction::Set)
}

/// `--sources DIRS`.
pub fn sources<'a>(alloc: Global) -> Arg<'a>
    ensures rule { rule_of result ≡ sources_rule }
    ensures local { result.global ≡ false }
{
    Arg::new(alloc, "sources")
        .long("sources")
        .value_name("DIRS")
        .help("Folders that sources are served from, too, with colons between them")
        .action(ArgAction::Set)
}

/// `--upstream URLS`.
pub fn upstream<'a>(alloc: Global) -> Arg<'a>
    ensures rule { rule_of result ≡ upstream_rule }
    ensures local { result.global ≡ false }
{
    Arg::new(alloc, "upstream")
        .long("upstream")
        .value_name("URLS")
        .help("Servers to ask for what isn't here, with spaces between them")
        .action(ArgAction::Set)
}

/// `--cache DIR`.
pub fn cache<'a>(alloc: Global) -> Arg<'a>
    ensures rule { rule_of result ≡ cache_rule }
    ensures local { result.global ≡ false }
{
    Arg::new(alloc, "cache")
        .long("cache")
        .value_name("DIR")
        .help("The folder of files that were fetched; it is made where it isn't there")
        .required(true)
        .action(ArgAction::Set)
}

/// `--upstream URLS`, which has to be there.
pub fn servers<'a>(alloc: Global) -> Arg<'a>
    ensures rule { rule_of result ≡ servers_rule }
    ensures local { result.global ≡ false }
{
    Arg::new(alloc, "upstream")
        .long("upstream")
        .value_name("URLS")
        .help("Servers to ask for what isn't in the folder, with spaces between them")
        .required(true)
        .action(ArgAction::Set)
}

/// `KIND`.
pub fn kind<'a>(alloc: Global) -> Arg<'a>
    ensures rule { rule_of result ≡ kind_rule }
    ensures local { result.global ≡ false }
{
    Arg::new(alloc, "KIND")
        .help("What is wanted: debuginfo, executable, source or section")
        .required(true)
        .action(ArgAction::Set)
}

/// `NAME`.
pub fn name<'a>(alloc: Global) -> Arg<'a>
    ensures rule { rule_of result ≡ name_rule }
    ensures local { result.global ≡ false }
{
    Arg::new(alloc, "NAME")
        .help("The path of a source, from / on, or the name of a section")
        .action(ArgAction::Set)
}

/// `-F`.
pub fn scan_file_dir<'a>(alloc: Global) -> Arg<'a>
    ensures rule { rule_of result ≡ scan_file_dir_rule }
    ensures local { result.global ≡ false }
{
    Arg::new(alloc, "scan-file-dir")
        .short('F')
        .long("scan-file-dir")
        .help("Changes nothing: files in folders are what is scanned")
        .action(ArgAction::SetTrue)
}

/// `ID`.
pub fn id<'a>(alloc: Global) -> Arg<'a>
    ensures rule { rule_of result ≡ id_rule }
    ensures local { result.global ≡ false }
{
    Arg::new(alloc, "ID")
        .help("A build-id: 4 to 128 hexadecimal digits, two for each byte")
        .required(true)
        .action(ArgAction::Set)
}

/// `DIR ..`.
pub fn folders<'a>(alloc: Global) -> Arg<'a>
    ensures rule { rule_of result ≡ folders_rule }
    ensures local { result.global ≡ false }
{
    Arg::new(alloc, "DIR")
        .help("The folders, each from / on and of at most 4096 bytes")
        .required(true)
        .action(ArgAction::Append)
}

/// The first text of an argument.
#[tactic(auto, using(crate::proofs::TextLemmas::first_text))]
pub fn text_of<'a>(matches: &ArgMatches<'a>, name: &str) -> Option<&'a str>
    ensures { option_map (λ text. text.now) result
        ≡ first_of name.now (rows_of (found_of matches.now)) }
{
    matches.get_str(name)
}

/// All texts of an argument, in order.
#[tactic(auto, using(crate::proofs::TextLemmas::all_texts))]
pub fn texts_of<'m, 'a>(matches: &'m ArgMatches<'a>, name: &str) -> Option<&'m [&'a str]>
    ensures { option_map (λ texts. map (λ text. text.now) texts.now) result
        ≡ all_of name.now (rows_of (found_of matches.now)) }
{
    matches.get_strs(name)
}
