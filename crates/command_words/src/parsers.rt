//! The parsers of the commands' arguments, and what they find in words.

ghost use Rattle.std.specs.Prelude.{◌≡◌, IfErr, IfOk, IfSome, Some, true, false, is_some};
ghost use Rattle.clap.specs.Words.{app_of, first_value, found_of, kind_of, new_rule, rule_of, takes};
ghost use Rattle.clap.specs.Simple.{matches_of};
ghost use Rattle.clap.specs.Walk.{rows_of};
ghost use Rattle.command_words.specs.Parsers.{Finds, check_app, plain_app, run_app, serve_app, texts_in};
ghost use Rattle.command_words.specs.Words.{allowed_in, check_arguments, run_arguments, serve_arguments};

use clap::error::ErrorKind;
use clap::{Arg, ArgMatches, Command, Error};
use std::alloc::{AllocError, Global};

/// An option with a value.
fn option<'a>(alloc: Global, name: &'a str) -> Arg<'a>
    ensures rule { rule_of result ≡ record (new_rule name.entry.now) { long = Some name.entry.now } }
    ensures local { result.global ≡ false }
{
    Arg::new(alloc, name).long(name)
}

/// A parser of words in front of which no program's name stands, and which gives no help.
fn plain_parser<'a>(alloc: Global, name: &'a str) -> Command<'a>
    ensures { app_of result ≡ plain_app name.entry.now }
{
    Command::new(alloc, name)
        .no_binary_name(true)
        .disable_help_flag(true)
}

/// `serve [--packages FILE]`.
fn serve_parser<'a>(alloc: Global) -> Result<Command<'a>, AllocError>
    ensures { IfOk result (λ parser. app_of parser ≡ serve_app) }
{
    plain_parser(alloc, "serve").arg(option(alloc, "packages"))
}

/// `check FILE [--root DIR] [--packages FILE]`.
fn check_parser<'a>(alloc: Global) -> Result<Command<'a>, AllocError>
    ensures { IfOk result (λ parser. app_of parser ≡ check_app) }
{
    plain_parser(alloc, "check")
        .arg(Arg::new(alloc, "file"))?
        .arg(option(alloc, "root"))?
        .arg(option(alloc, "packages"))
}

/// `run FILE [--root DIR] [--packages FILE] [--steps N]`.
fn run_parser<'a>(alloc: Global) -> Result<Command<'a>, AllocError>
    ensures { IfOk result (λ parser. app_of parser ≡ run_app) }
{
    plain_parser(alloc, "run")
        .arg(Arg::new(alloc, "file"))?
        .arg(option(alloc, "root"))?
        .arg(option(alloc, "packages"))?
        .arg(option(alloc, "steps"))
}

/// What a parser finds in words that it takes: only want of memory can stop it.
fn matches_in<'w>(parser: Command<'w>, words: &'w [&'w str]) -> Result<ArgMatches<'w>, Error>
    requires { takes (app_of parser) (texts_in words.now) ≡ true }
    ensures ok { IfOk result (λ matches. rows_of (found_of matches) ≡ matches_of (app_of parser.entry) (texts_in words.entry.now)) }
    ensures err { IfErr result (λ error. kind_of error ≡ ErrorKind.OutOfMemory) }
{
    parser.try_get_matches_from(words)
}

/// What is found in words that give the arguments of `serve`: the values of these.
///
/// # Errors
///
/// Only want of memory.
pub fn serve_matches<'w>(alloc: Global, words: &'w [&'w str]) -> Result<ArgMatches<'w>, AllocError>
    requires { is_some (allowed_in serve_arguments (texts_in words.now)) ≡ true }
    ensures { IfOk result (λ found. IfSome (allowed_in serve_arguments (texts_in words.entry.now)) (Finds (found_of found))) }
{
    let parser = serve_parser(alloc)?;
    match matches_in(parser, words) {
        Ok(found) => Ok(found),
        Err(_) => Err(AllocError),
    }
}

/// What is found in words that give the arguments of `check`: the values of these.
///
/// # Errors
///
/// Only want of memory.
pub fn check_matches<'w>(alloc: Global, words: &'w [&'w str]) -> Result<ArgMatches<'w>, AllocError>
    requires { is_some (allowed_in check_arguments (texts_in words.now)) ≡ true }
    ensures { IfOk result (λ found. IfSome (allowed_in check_arguments (texts_in words.entry.now)) (Finds (found_of found))) }
{
    let parser = check_parser(alloc)?;
    match matches_in(parser, words) {
        Ok(found) => Ok(found),
        Err(_) => Err(AllocError),
    }
}

/// What is found in words that give the arguments of `run`: the values of these.
///
/// # Errors
///
/// Only want of memory.
pub fn run_matches<'w>(alloc: Global, words: &'w [&'w str]) -> Result<ArgMatches<'w>, AllocError>
    requires { is_some (allowed_in run_arguments (texts_in words.now)) ≡ true }
    ensures { IfOk result (λ found. IfSome (allowed_in run_arguments (texts_in words.entry.now)) (Finds (found_of found))) }
{
    let parser = run_parser(alloc)?;
    match matches_in(parser, words) {
        Ok(found) => Ok(found),
        Err(_) => Err(AllocError),
    }
}
