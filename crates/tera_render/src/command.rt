// The words of the command line, and what they may be.
use crate::errors::RunError;
use clap::{Arg, ArgAction, ArgGroup, ArgMatches, Command};
use std::alloc::{AllocError, Global};
use std::env;
use std::io::ErrorKind;

/// What becomes of numbers that are no integers.
const FLOATS: [&str; 2] = ["refuse", "text"];

const ABOUT: &str = "Renders a folder of templates with data.";

const USAGE: &str = "\
tera_render [OPTIONS] TEMPLATES NAME
       tera_render [OPTIONS] TEMPLATES --all -O DIR
       tera_render [OPTIONS] TEMPLATES --check | --variables NAME | --components";

const AFTER: &str = "\
Data is laid over data, name by name: first --env, then each -d, then each -D, and the later one wins.
Names of templates are their paths below TEMPLATES. Files and folders whose names begin with a full stop are no templates.

Exit status: 0 done; 1 a template is refused or fails; 2 wrong usage; 3 a file can't be read or written; 4 no memory;
5 data can't be read. Where it is 1, 2, 4 or 5, nothing is written.";

/// The words of the command line, with the program's name.
pub fn words(rt: &HostRuntime) -> Result<Vec<String>, RunError> {
    let alloc = rt.alloc();
    let mut words = Vec::new(alloc);
    let all = match env::args(rt) {
        Ok(all) => all,
        Err(error) if error.kind() == ErrorKind::OutOfMemory => return Err(RunError::NoMemory),
        Err(_) => {
            let words = String::from_str(
                alloc,
                "an argument of the command line is no text in UTF-8",
            );
            return Err(RunError::usage(words));
        }
    };
    for word in all {
        words.push(word)?;
    }
    Ok(words)
}

/// What the words say, or the help that they ask for, or why they say nothing.
pub fn matches<'a>(alloc: Global, words: &'a [String]) -> Result<ArgMatches<'a>, RunError> {
    let command = command(alloc)?;
    Ok(command.try_get_matches_from(words)?)
}

fn command<'a>(alloc: Global) -> Result<Command<'a>, AllocError> {
    let command = Command::new(alloc, "tera_render")
        .about(ABOUT)
        .override_usage(USAGE)
        .after_help(AFTER);
    let command = with_tasks(alloc, command)?;
    let command = with_data(alloc, command)?;
    with_settings(alloc, command)
}

// An option that takes a value, perhaps several times.
fn option<'a>(
    alloc: Global,
    name: &'a str,
    value: &'a str,
    help: &'a str,
    action: ArgAction,
) -> Arg<'a> {
    Arg::new(alloc, name)
        .long(name)
        .value_name(value)
        .help(help)
        .action(action)
}

fn flag<'a>(alloc: Global, name: &'a str, help: &'a str) -> Arg<'a> {
    Arg::new(alloc, name)
        .long(name)
        .help(help)
        .action(ArgAction::SetTrue)
}

fn with_tasks<'a>(alloc: Global, command: Command<'a>) -> Result<Command<'a>, AllocError> {
    let command = command.arg(
        Arg::new(alloc, "templates")
            .value_name("TEMPLATES")
            .required(true)
            .help("The folder of the templates"),
    )?;
    let command = command.arg(
        Arg::new(alloc, "name")
            .value_name("NAME")
            .help("The template to render"),
    )?;
    let all = flag(
        alloc,
        "all",
        "Renders each template of which no part of the path begins with `_`",
    );
    let command = command.arg(all.requires_arg("output-folder")?)?;
    let command = command.arg(flag(
        alloc,
        "check",
        "Reads and links the templates, and renders none",
    ))?;
    let command = command.arg(option(
        alloc,
        "variables",
        "TEMPLATE",
        "Lists the names that this template wants to be given",
        ArgAction::Set,
    ))?;
    let command = command.arg(flag(alloc, "components", "Renders each component by itself"))?;
    let command = command.group(one_task(alloc)?)?;
    with_outputs(alloc, command)
}

// One of the tasks is to be asked for.
fn one_task<'a>(alloc: Global) -> Result<ArgGroup<'a>, AllocError> {
    let group = ArgGroup::new(alloc, "task")
        .arg("name")?
        .arg("all")?
        .arg("check")?
        .arg("variables")?
        .arg("components")?;
    Ok(group.required(true))
}

fn with_outputs<'a>(alloc: Global, command: Command<'a>) -> Result<Command<'a>, AllocError> {
    let output = option(
        alloc,
        "output",
        "FILE",
        "Writes the text to this file, and not to standard output (`-`)",
        ArgAction::Set,
    )
    .short('o')
    .conflicts_with("all")?
    .conflicts_with("check")?
    .conflicts_with("variables")?;
    let command = command.arg(output)?;
    let folder = option(
        alloc,
        "output-folder",
        "DIR",
        "Writes the pages of --all below this folder",
        ArgAction::Set,
    )
    .short('O')
    .requires_arg("all")?;
    let command = command.arg(folder)?;
    command.arg(block(alloc)?)
}

fn block<'a>(alloc: Global) -> Result<Arg<'a>, AllocError> {
    option(
        alloc,
        "block",
        "BLOCK",
        "Of the template NAME, the text of this block alone",
        ArgAction::Set,
    )
    .requires_arg("name")?
    .conflicts_with("all")?
    .conflicts_with("check")?
    .conflicts_with("variables")?
    .conflicts_with("components")
}

fn with_data<'a>(alloc: Global, command: Command<'a>) -> Result<Command<'a>, AllocError> {
    command
        .arg(option(
            alloc,
            "data",
            "[NAME=]FILE",
            "The members of a file of JSON or TOML, or all of a file of JSON, TOML or CSV at NAME; `-` is JSON of standard input",
            ArgAction::Append,
        )
        .short('d'))?
        .arg(option(
            alloc,
            "define",
            "NAME=TEXT",
            "The text TEXT at NAME",
            ArgAction::Append,
        )
        .short('D'))?
        .arg(option(
            alloc,
            "env",
            "PREFIX",
            "The variables of the environment whose names begin with PREFIX",
            ArgAction::Append,
        ))?
        .arg(
            option(
                alloc,
                "floats",
                "HOW",
                "Numbers that are no integers: refuse the data, or take their text",
                ArgAction::Set,
            )
            .value_parser(FLOATS.as_slice())
            .default_value("refuse"),
        )
}

fn with_settings<'a>(alloc: Global, command: Command<'a>) -> Result<Command<'a>, AllocError> {
    command
        .arg(option(
            alloc,
            "escape",
            "SUFFIX,..",
            "Templates with these suffixes escape [default: .html,.htm,.xml]",
            ArgAction::Append,
        )
        .value_delimiter(','))?
        .arg(flag(alloc, "no-escape", "No template escapes").conflicts_with("escape")?)?
        .arg(option(
            alloc,
            "theme",
            "DIR",
            "A name that no template has is looked for in this folder of TEMPLATES",
            ArgAction::Append,
        ))?
        .arg(option(
            alloc,
            "delimiters",
            "TAGS",
            "Six texts with spaces between them [default: {% %} {{ }} {# #}]",
            ArgAction::Set,
        ))?
        .arg(flag(
            alloc,
            "plain",
            "Templates have the filters of the language alone, and none of the pack",
        ))?
        .arg(now(alloc)?)?
        .arg(flag(alloc, "quiet", "Tells nothing of progress").short('q'))
}

fn now<'a>(alloc: Global) -> Result<Arg<'a>, AllocError> {
    option(
        alloc,
        "now",
        "SECONDS",
        "The time that now() tells, in seconds since 1970 [default: the host's]",
        ArgAction::Set,
    )
    .conflicts_with("plain")
}
