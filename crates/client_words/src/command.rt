ghost use Rattle.std.specs.Prelude.{◌≡◌, codes, false, true, IfOk};
ghost use Rattle.clap.specs.Words.{app_of, rule_of, with_rule};
ghost use Rattle.client_words.specs.Words.{bare, client_app, needed, optional, defaulted, numbered, switch};

use clap::{Arg, ArgAction, Command};
use std::alloc::{AllocError, Global};

/// An option that must be given.
fn needed_option<'a>(alloc: Global, name: &'a str) -> Arg<'a>
    ensures rule { rule_of result ≡ needed name.entry.now }
    ensures local { result.global ≡ false }
{
    Arg::new(alloc, name)
        .long(name)
        .action(ArgAction::Set)
        .required(true)
}

/// An option that may be left out.
fn free_option<'a>(alloc: Global, name: &'a str) -> Arg<'a>
    ensures rule { rule_of result ≡ optional name.entry.now }
    ensures local { result.global ≡ false }
{
    Arg::new(alloc, name).long(name).action(ArgAction::Set)
}

/// An option that has this value where it is left out.
fn default_option<'a>(alloc: Global, name: &'a str, value: &'a str) -> Arg<'a>
    ensures rule { rule_of result ≡ defaulted name.entry.now value.entry.now }
    ensures local { result.global ≡ false }
{
    Arg::new(alloc, name)
        .long(name)
        .action(ArgAction::Set)
        .default_value(value)
}

/// A number from 1 to 1,000,000, which is 1 where it is left out.
fn number_option<'a>(alloc: Global, name: &'a str) -> Arg<'a>
    ensures rule { rule_of result ≡ numbered name.entry.now }
    ensures local { result.global ≡ false }
{
    Arg::new(alloc, name)
        .long(name)
        .action(ArgAction::Set)
        .value_parser(clap::value_parser!(u32).range(1..=1_000_000))
        .default_value("1")
}

fn flag<'a>(alloc: Global, name: &'a str) -> Arg<'a>
    ensures rule { rule_of result ≡ switch name.entry.now }
    ensures local { result.global ≡ false }
{
    Arg::new(alloc, name).long(name).action(ArgAction::SetTrue)
}

/// A command without arguments, whose words leave out the program's name.
fn bare_command<'a>(alloc: Global) -> Command<'a>
    ensures { app_of result ≡ bare (codes "smclient") }
{
    Command::new(alloc, "smclient").no_binary_name(true)
}

fn added<'a>(command: Command<'a>, arg: Arg<'a>) -> Result<Command<'a>, AllocError>
    requires { arg.global ≡ false }
    ensures { IfOk result (λ c. app_of c ≡ with_rule (app_of command.entry) (rule_of arg.entry)) }
{
    command.arg(arg)
}

/// The command whose words are those of `smclient`.
pub fn client_command<'a>(alloc: Global) -> Result<Command<'a>, AllocError>
    ensures { IfOk result (λ c. app_of c ≡ client_app) }
{
    let command = bare_command(alloc);
    let command = added(command, needed_option(alloc, "socket"))?;
    let command = added(command, needed_option(alloc, "authority"))?;
    let command = added(command, free_option(alloc, "id"))?;
    let command = added(command, default_option(alloc, "program", "smclient"))?;
    let command = added(command, number_option(alloc, "saves"))?;
    let command = added(command, flag(alloc, "interact"))?;
    added(command, flag(alloc, "phase-two"))
}
