//! The command line as `clap` knows it: one command with eleven subcommands.

ghost use Rattle.std.specs.Prelude.{◌≡◌, IfOk, false};
ghost use Rattle.clap.specs.Words.{app_of, rule_of, with_rule, with_subcommand};
ghost use Rattle.clap.specs.declared.builder.command.Command.TheViews.{out-Command};
ghost use Rattle.sx_words.specs.Program.{IsApp, demo_app, number_by, option_by, program, prove_app, seal_app};
ghost use Rattle.sx_words.specs.Program.{single_app, workers_app};

use crate::setting::Setting;
use clap::builder::ValueParser;
use clap::{Arg, Command, value_parser};
use std::alloc::{AllocError, Global};

// An option of one value in its range.
fn option<'a>(alloc: Global, setting: Setting, id: &'a str, default: &'a str) -> Arg<'a>
    ensures rule { rule_of result ≡ option_by setting id.entry.now default.entry.now }
    ensures local { result.global ≡ false }
{
    let range = ValueParser::Unsigned(setting.least() as u64, setting.most() as u64);
    Arg::new(alloc, id)
        .long(id)
        .value_parser(range)
        .default_value(default)
}

// A number of 64 bits that has to be given.
fn number<'a>(alloc: Global, id: &'a str) -> Arg<'a>
    ensures rule { rule_of result ≡ number_by id.entry.now }
    ensures local { result.global ≡ false }
{
    Arg::new(alloc, id)
        .value_parser(value_parser!(u64))
        .required(true)
}

// A command with one argument more.
fn with<'a>(command: Command<'a>, arg: Arg<'a>) -> Result<Command<'a>, AllocError>
    requires { arg.global ≡ false }
    ensures { IfOk result (λ made.
        ((out-Command command.entry).has_globals ≡ false → (out-Command made).has_globals ≡ false)
        × (app_of made ≡ with_rule (app_of command.entry) (rule_of arg.entry))) }
{
    command.arg(arg)
}

// A seal of one search.
fn single<'a>(alloc: Global) -> Result<Command<'a>, AllocError>
    ensures { IfOk result (IsApp single_app) }
{
    let mut seal = with(
        Command::new(alloc, "seal"),
        option(alloc, Setting::Workers, "workers", "4"),
    )?;
    seal = with(seal, option(alloc, Setting::Shards, "shards", "16"))?;
    seal = with(seal, option(alloc, Setting::Mu, "mu", "10"))?;
    with(seal, option(alloc, Setting::Rounds, "rounds", "500"))
}

fn seal<'a>(alloc: Global) -> Result<Command<'a>, AllocError>
    ensures { IfOk result (IsApp seal_app) }
{
    let single = single(alloc)?;
    with(single, option(alloc, Setting::Searches, "searches", "1"))
}

// A command whose only option is the number of workers.
fn with_workers<'a>(alloc: Global, name: &'a str) -> Result<Command<'a>, AllocError>
    ensures { IfOk result (IsApp (workers_app name.entry.now)) }
{
    with(
        Command::new(alloc, name),
        option(alloc, Setting::Workers, "workers", "4"),
    )
}

fn prove<'a>(alloc: Global) -> Result<Command<'a>, AllocError>
    ensures { IfOk result (IsApp prove_app) }
{
    with(Command::new(alloc, "prove"), number(alloc, "id"))
}

fn demo<'a>(alloc: Global) -> Result<Command<'a>, AllocError>
    ensures { IfOk result (IsApp demo_app) }
{
    let demo = with(Command::new(alloc, "demo"), number(alloc, "number"))?;
    with(demo, option(alloc, Setting::Workers, "workers", "4"))
}

// A command above one subcommand more.
fn above<'a>(command: Command<'a>, sub: Command<'a>) -> Result<Command<'a>, AllocError>
    requires { (out-Command sub).has_globals ≡ false }
    ensures { IfOk result (λ made. app_of made ≡ with_subcommand (app_of command.entry) (app_of sub.entry).top) }
{
    command.subcommand(sub)
}

/// The program's command.
pub(crate) fn program<'a>(alloc: Global) -> Result<Command<'a>, AllocError>
    ensures { IfOk result (λ made. app_of made ≡ program) }
{
    let mut program = above(Command::new(alloc, "speedex"), seal(alloc)?)?;
    program = above(program, with_workers(alloc, "replay")?)?;
    program = above(program, Command::new(alloc, "check"))?;
    program = above(program, Command::new(alloc, "show"))?;
    program = above(program, Command::new(alloc, "interleave"))?;
    program = above(program, Command::new(alloc, "migrate"))?;
    program = above(program, with_workers(alloc, "filter")?)?;
    program = above(program, prove(alloc)?)?;
    program = above(program, Command::new(alloc, "verify"))?;
    program = above(program, Command::new(alloc, "follow"))?;
    above(program, demo(alloc)?)
}
