//! What clap is told of the program.
ghost use Rattle.std.specs.Prelude.{◌≡◌, false, IfOk};
ghost use Rattle.clap.specs.Words.{app_of, new_app, rule_of, with_rule, with_subcommand};
ghost use Rattle.command_words.specs.Named.{scope_app, with_plain, race_app, explain_app, picture_app, workers_rule, objects_rule, flag_rule};

use clap::builder::ValueParser;
use clap::{Arg, ArgAction, Command};
use std::alloc::{AllocError, Global};
use trace_types::limits::{MAX_ID, MAX_WORKERS};

/// The program, its commands and their options.
pub fn scope_command<'a>(alloc: Global) -> Result<Command<'a>, AllocError>
    ensures { IfOk result (λ c. app_of c ≡ scope_app) }
{
    let bare = Command::new(alloc, "arc_scope")
        .about(
            "Replays a trace of Arc, Weak and atomic shared_ptr operations and reports what each did",
        )
        .subcommand_required(true);
    let plain = with_plain_commands(alloc, bare)?;
    let more = with_race(alloc, plain)?;
    with_questions(alloc, more)
}

// The program with the commands that have no options.
fn with_plain_commands<'a>(alloc: Global, program: Command<'a>) -> Result<Command<'a>, AllocError>
    ensures { IfOk result (λ c. app_of c ≡ with_plain (app_of program.entry)) }
{
    let one = with_command(
        alloc,
        program,
        "replay",
        "Reads a trace, one operation a line in JSON, and writes its report",
    )?;
    let two = with_command(
        alloc,
        one,
        "script",
        "Reads a trace, a line --, and requests to edit it, and writes the replies and the last version's report",
    )?;
    with_command(
        alloc,
        two,
        "whatif",
        "Reads a trace, a line --, and one request to edit it, and writes the edited trace and its report",
    )
}

// The program with one command more, which has no options.
fn with_command<'a>(
    alloc: Global,
    program: Command<'a>,
    name: &'a str,
    about: &'a str,
) -> Result<Command<'a>, AllocError>
    ensures { IfOk result (λ c. app_of c
        ≡ with_subcommand (app_of program.entry) (new_app name.now).top) }
{
    let command = Command::new(alloc, name).about(about);
    program.subcommand(command)
}

// The program with `race`.
fn with_race<'a>(alloc: Global, program: Command<'a>) -> Result<Command<'a>, AllocError>
    ensures { IfOk result (λ c. app_of c ≡ with_subcommand (app_of program.entry) race_app.top) }
{
    let titled = Command::new(alloc, "race").about(
        "Reads a trace, a line --, and requests to edit it, submits those of each session on a thread of its own, and writes the replies and the last version's report",
    );
    let race = titled.arg(workers_option(alloc))?;
    program.subcommand(race)
}

// The program with the commands that tell why objects are still there.
fn with_questions<'a>(alloc: Global, program: Command<'a>) -> Result<Command<'a>, AllocError>
    ensures { IfOk result (λ c. app_of c
        ≡ with_subcommand (with_subcommand (app_of program.entry) explain_app.top)
        picture_app.top) }
{
    let explain = explain_command(alloc)?;
    let one = program.subcommand(explain)?;
    let picture = picture_command(alloc)?;
    one.subcommand(picture)
}

fn explain_command<'a>(alloc: Global) -> Result<Command<'a>, AllocError>
    ensures { IfOk result (λ c. app_of c ≡ explain_app) }
{
    let titled = Command::new(alloc, "explain").about(
        "Reads a trace, and writes why objects are still there at its end: what holds them, since which operation, and the way to them",
    );
    let life = flag(
        alloc,
        "life",
        "Tells each operation that changed what names an object, or whether it is there",
    );
    with_objects(alloc, titled, life)
}

fn picture_command<'a>(alloc: Global) -> Result<Command<'a>, AllocError>
    ensures { IfOk result (λ c. app_of c ≡ picture_app) }
{
    let titled = Command::new(alloc, "picture").about(
        "Reads a trace, and writes its end as a graph in DOT: what leaked, the husks, and what leads to them",
    );
    let all = flag(alloc, "all", "Shows every object that is there");
    with_objects(alloc, titled, all)
}

// A command with an option, and then the numbers of objects.
fn with_objects<'a>(
    alloc: Global,
    command: Command<'a>,
    option: Arg<'a>,
) -> Result<Command<'a>, AllocError>
    requires { option.global ≡ false }
    ensures { IfOk result (λ c. app_of c
        ≡ with_rule (with_rule (app_of command.entry) (rule_of option.entry)) objects_rule) }
{
    let optional = command.arg(option)?;
    optional.arg(objects_argument(alloc))
}

// The numbers of objects: any number of them.
fn objects_argument<'a>(alloc: Global) -> Arg<'a>
    ensures rule { rule_of result ≡ objects_rule }
    ensures local { result.global ≡ false }
{
    Arg::new(alloc, "objects")
        .value_name("N")
        .action(ArgAction::Append)
        .value_parser(ValueParser::unsigned(1, MAX_ID as u64))
        .help("The numbers of objects, which are those of the operations that made them")
}

// An option without a value.
fn flag<'a>(alloc: Global, name: &'a str, help: &'a str) -> Arg<'a>
    ensures rule { rule_of result ≡ flag_rule name.now }
    ensures local { result.global ≡ false }
{
    Arg::new(alloc, name)
        .long(name)
        .action(ArgAction::SetTrue)
        .help(help)
}

// The option of `race`.
fn workers_option<'a>(alloc: Global) -> Arg<'a>
    ensures rule { rule_of result ≡ workers_rule }
    ensures local { result.global ≡ false }
{
    Arg::new(alloc, "workers")
        .long("workers")
        .value_name("N")
        .value_parser(ValueParser::unsigned(1, MAX_WORKERS as u64))
        .default_value("1")
        .help("How many threads replay ahead what a request changes, 1 to 16; with 1 none does")
}
