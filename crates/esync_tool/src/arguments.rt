//! The command line.
use clap::{Arg, ArgAction, Command, value_parser};
use std::alloc::{AllocError, Global};

const SCRIPT: &str = "The script; standard input where it is - or left out";

const SCRIPTS: &str = "The scripts; standard input where it is - or left out";

/// The command line of the tool.
pub fn command<'a>(alloc: Global) -> Result<Command<'a>, AllocError> {
    Command::new(alloc, "esync")
        .bin_name("esync")?
        .version("0.1.0")
        .propagate_version(true)
        .about(
            "Plays scripts of calls, polls and ends of futures over the primitives of embassy-sync, and judges recorded runs",
        )
        .after_help(
            "Status: 0 it holds or came to its end, 1 it doesn't hold, 2 bad input or usage, 3 a read or a write failed, 4 out of memory",
        )
        .subcommand_required(true)
        .arg_required_else_help(true)
        .subcommand(run(alloc)?)?
        .subcommand(draw(alloc)?)?
        .subcommand(explain(alloc)?)?
        .subcommand(check(alloc)?)?
        .subcommand(ends(alloc)?)?
        .subcommand(shared(alloc)?)?
        .subcommand(explore(alloc)?)
}

fn one_file<'a>(alloc: Global, help: &'a str) -> Arg<'a> {
    Arg::new(alloc, "FILE").default_value("-").help(help)
}

fn files<'a>(alloc: Global, help: &'a str) -> Arg<'a> {
    Arg::new(alloc, "FILE")
        .default_value("-")
        .num_args(0..)
        .help(help)
}

fn run<'a>(alloc: Global) -> Result<Command<'a>, AllocError> {
    let beside = Arg::new(alloc, "beside")
        .long("beside")
        .action(ArgAction::SetTrue)
        .help("Each answer beside its command");
    Command::new(alloc, "run")
        .about(
            "Answers each line of a script: what its call or poll is answered, and the wakers that it hands out",
        )
        .arg(beside)?
        .arg(one_file(alloc, SCRIPT))
}

fn draw<'a>(alloc: Global) -> Result<Command<'a>, AllocError> {
    let format = Arg::new(alloc, "format")
        .long("format")
        .value_parser(["mermaid", "markdown", "svg"].as_slice())
        .default_value("mermaid")
        .help(
            "A diagram in the language of Mermaid, a document with one in pages of at most 50 lines, or a picture for a browser",
        );
    Command::new(alloc, "draw")
        .about("Draws a script as a sequence diagram: calls, polls, answers and wakes")
        .arg(format)?
        .arg(one_file(alloc, SCRIPT))
}

fn explain<'a>(alloc: Global) -> Result<Command<'a>, AllocError> {
    Command::new(alloc, "explain")
        .about(
            "Answers each line of a script, says why each waker was handed out, and what each request would hear then",
        )
        .arg(one_file(alloc, SCRIPT))
}

fn check<'a>(alloc: Global) -> Result<Command<'a>, AllocError> {
    let json = Arg::new(alloc, "json")
        .long("json")
        .action(ArgAction::SetTrue)
        .help("A line of JSON for each run, also for one that can't be judged");
    let why = Arg::new(alloc, "why")
        .long("why")
        .action(ArgAction::SetTrue)
        .help("Where a run goes wrong, say also why its primitive hands out each waker there");
    Command::new(alloc, "check")
        .about(
            "Says whether a recorded run, lines COMMAND => ANSWER | WAKERS behind line 1, is a run of its primitive",
        )
        .arg(json)?
        .arg(why)?
        .arg(files(
            alloc,
            "The recorded runs; standard input where it is - or left out",
        ))
}

fn ends<'a>(alloc: Global) -> Result<Command<'a>, AllocError> {
    let limit = Arg::new(alloc, "limit")
        .long("limit")
        .value_name("N")
        .value_parser(value_parser!(u64))
        .help("Try at most so many ends of a script, those after its first lines");
    Command::new(alloc, "ends")
        .about(
            "Ends each request of a script at each earlier line, and says whether each task whose turn comes is told",
        )
        .arg(limit)?
        .arg(files(alloc, SCRIPTS))
}

fn shared<'a>(alloc: Global) -> Result<Command<'a>, AllocError> {
    let compare = Arg::new(alloc, "compare")
        .long("compare")
        .action(ArgAction::SetTrue)
        .help("Say whether the shared form answers as the machine does, by each way to its calls");
    Command::new(alloc, "shared")
        .about(
            "Plays a script over the shared form of its primitive, by its calls, handles and futures",
        )
        .arg(compare)?
        .arg(files(alloc, SCRIPTS))
}

fn explore<'a>(alloc: Global) -> Result<Command<'a>, AllocError> {
    let limit = Arg::new(alloc, "limit")
        .long("limit")
        .value_name("N")
        .value_parser(value_parser!(u64).range(1..))
        .default_value("10000")
        .help("Gather at most so many states");
    let json = Arg::new(alloc, "json")
        .long("json")
        .action(ArgAction::SetTrue)
        .help("A line of JSON for each system, also for one that can't be read");
    let draw = Arg::new(alloc, "draw")
        .long("draw")
        .action(ArgAction::SetTrue)
        .conflicts_with("json")?
        .help("Draw the turns as a diagram in the language of Mermaid");
    Command::new(alloc, "explore")
        .about(
            "Says whether every schedule of a system's tasks ends or can end, or else by which turns one stalls or never ends",
        )
        .arg(limit)?
        .arg(json)?
        .arg(draw)?
        .arg(files(
            alloc,
            "The systems; standard input where it is - or left out",
        ))
}
