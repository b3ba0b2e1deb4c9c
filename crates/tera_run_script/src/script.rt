// Commands from the text of a script.
ghost use Rattle.std.specs.Prelude.{◌≡◌, ◌==◌, MatchOption, IfOk, slice_index};
ghost use Rattle.tera_run_script.specs.Act.{act_of};
ghost use Rattle.tera_run_script.specs.Found.{IsCommand, IsNone};
ghost use Rattle.tera_run_script.specs.Lines.{lines_of};
ghost use Rattle.tera_run_script.specs.Script.{is_plain, head_of, head_named, only_field, two_fields, checked_fields, switch, integer, int_of, add_of, listed, render_of, block_of, component_head, component_of, preview_of, opening_named, act_named, with_body, script_of_lines, script_of};
ghost use Rattle.tera_run_script.specs.Seen.{act_seen, component_head_seen, fields_seen, head_seen, opening_seen, plain_opening, script_seen, text_seen, texts_seen};
ghost use Rattle.tera_run_script.specs.Words.{words_after};

use crate::body::first_body;
use crate::command::Command;
use crate::lines::{first_line, first_word};
use std::alloc::{AllocError, Global};
use std::str;

/// The commands before the first unreadable line, and the number of that line, if there is one.
#[derive(Drop)]
pub struct Script<'a> {
    pub commands: Vec<Command<'a>>,
    pub unreadable: Option<usize>,
}

/// What a command line says whose body follows.
#[derive(Clone, Copy)]
pub enum CommandStart<'a> {
    Text(&'a str),
    Safe(&'a str),
    Str(bool),
    Template(&'a str),
}

/// What a command line says: a command by itself, or one whose body follows.
#[derive(Drop)]
pub enum CommandLine<'a> {
    Alone(Command<'a>),
    Opens(CommandStart<'a>),
}

/// What a text spells, if it spells it. An error says that it found no room.
type Spelled<T> = Result<Option<T>, AllocError>;

fn is_plain(line: &str) -> bool
    ensures { result ≡ is_plain line.now }
{
    line.chars().all(|c| c == ' ' || !c.is_whitespace())
}

fn only_field(fields: Option<&str>) -> Option<&str>
    ensures { text_seen result ≡ only_field (words_after fields.entry) }
{
    let (field, more) = first_word(fields?);
    match more {
        None if !field.is_empty() => Some(field),
        None => None,
        Some(_) => None,
    }
}

// All of the fields, where each is one.
fn checked_fields<'a>(alloc: Global, fields: Option<&'a str>) -> Spelled<Vec<&'a str>>
    ensures { IfOk result (λ found. fields_seen found ≡ checked_fields (words_after fields.entry)) }
{
    let mut found = Vec::new(alloc);
    let mut rest = fields;
    while let Some(text) = rest {
        let (field, more) = first_word(text);
        if field.is_empty() {
            return Ok(None);
        }
        found.push(field)?;
        rest = more;
    }
    Ok(Some(found))
}

fn switch(field: &str) -> Option<bool>
    ensures { result ≡ switch field.now }
{
    match field {
        "on" => Some(true),
        "off" => Some(false),
        _ => None,
    }
}

fn has_plus(field: &str) -> bool
    ensures { result ≡ (slice_index field.now 0 == 43) }
{
    match field.as_bytes().first() {
        Some(byte) => *byte == b'+',
        None => false,
    }
}

// A plus sign in front, which std reads too, is no part of a number.
fn integer(field: &str) -> Option<i128>
    ensures { result ≡ integer field.now }
{
    if has_plus(field) {
        return None;
    }
    match field.parse::<i128>() {
        Ok(number) => Some(number),
        Err(_) => None,
    }
}

fn two_fields(fields: Option<&str>) -> Option<(&str, &str)>
    ensures { texts_seen result ≡ two_fields (words_after fields.entry) }
{
    let (first, rest) = first_word(fields?);
    let (second, more) = first_word(rest?);
    match more {
        None if !first.is_empty() && !second.is_empty() => Some((first, second)),
        None => None,
        Some(_) => None,
    }
}

// `int`, with a name and a number.
fn int_of(fields: Option<&str>) -> Option<Command<'_>>
    ensures { act_seen result ≡ int_of (words_after fields.entry) }
{
    let (name, number) = two_fields(fields)?;
    Some(Command::Int {
        name,
        number: integer(number)?,
    })
}

fn add_of(fields: Option<&str>) -> Option<Command<'static>>
    ensures { act_seen result ≡ add_of (words_after fields.entry) }
{
    match fields {
        None => Some(Command::Add),
        Some(_) => None,
    }
}

// `suffix`, or else `prefix`, with any number of fields.
fn list_of<'a>(alloc: Global, is_suffix: bool, fields: Option<&'a str>) -> Spelled<Command<'a>>
    ensures { IfOk result (λ found. act_seen found ≡ listed is_suffix (words_after fields.entry)) }
{
    match checked_fields(alloc, fields)? {
        Some(suffixes) if is_suffix => Ok(Some(Command::Suffix { suffixes })),
        Some(prefixes) => Ok(Some(Command::Prefix { prefixes })),
        None => Ok(None),
    }
}

fn render_of(fields: Option<&str>) -> Option<Command<'_>>
    ensures { act_seen result ≡ render_of (words_after fields.entry) }
{
    Some(Command::Render {
        name: only_field(fields)?,
    })
}

// `block`, with the names of a template and of a block.
fn block_of(fields: Option<&str>) -> Option<Command<'_>>
    ensures { act_seen result ≡ block_of (words_after fields.entry) }
{
    let (name, block) = two_fields(fields)?;
    Some(Command::Block { name, block })
}

// A name, whether `on` or `off` follows, and the fields behind these.
fn component_head(fields: Option<&str>) -> Option<(&str, bool, Option<&str>)>
    ensures { component_head_seen result ≡ component_head (words_after fields.entry) }
{
    let (name, rest) = first_word(fields?);
    let (flag, more) = first_word(rest?);
    if name.is_empty() {
        return None;
    }
    match switch(flag) {
        Some(autoescape) => Some((name, autoescape, more)),
        None => None,
    }
}

// `component`, with its name, `on` or `off`, and the names of implicits.
fn component_of<'a>(alloc: Global, fields: Option<&'a str>) -> Spelled<Command<'a>>
    ensures { IfOk result (λ found. act_seen found ≡ component_of (words_after fields.entry)) }
{
    let Some((name, autoescape, more)) = component_head(fields) else {
        return Ok(None);
    };
    match checked_fields(alloc, more)? {
        Some(implicits) => Ok(Some(Command::Component {
            name,
            autoescape,
            implicits,
        })),
        None => Ok(None),
    }
}

// `preview`, with `on` or `off`.
fn preview_of(fields: Option<&str>) -> Option<Command<'static>>
    ensures { act_seen result ≡ preview_of (words_after fields.entry) }
{
    Some(Command::Preview {
        autoescape: switch(only_field(fields)?)?,
    })
}

// The word of a command with a body, and its field.
fn opening_named<'a>(word: &str, fields: Option<&'a str>) -> Option<CommandStart<'a>>
    ensures { opening_seen result ≡ opening_named word.now (words_after fields.entry) }
{
    let field = only_field(fields)?;
    match word {
        "text" => Some(CommandStart::Text(field)),
        "safe" => Some(CommandStart::Safe(field)),
        "str" => Some(CommandStart::Str(switch(field)?)),
        "template" => Some(CommandStart::Template(field)),
        _ => None,
    }
}

// The word of a command without a body, and its fields.
fn command_named<'a>(alloc: Global, word: &str, fields: Option<&'a str>) -> Spelled<Command<'a>>
    ensures { IfOk result (λ found.
        act_seen found ≡ act_named word.now (words_after fields.entry)) }
{
    match word {
        "int" => Ok(int_of(fields)),
        "add" => Ok(add_of(fields)),
        "suffix" => list_of(alloc, true, fields),
        "prefix" => list_of(alloc, false, fields),
        "render" => Ok(render_of(fields)),
        "block" => Ok(block_of(fields)),
        "component" => component_of(alloc, fields),
        "preview" => Ok(preview_of(fields)),
        _ => Ok(None),
    }
}

fn head_named<'a>(alloc: Global, word: &str, fields: Option<&'a str>) -> Spelled<CommandLine<'a>>
    ensures { IfOk result (λ found.
        head_seen found ≡ head_named word.now (words_after fields.entry)) }
{
    if let Some(opening) = opening_named(word, fields) {
        return Ok(Some(CommandLine::Opens(opening)));
    }
    match command_named(alloc, word, fields)? {
        Some(command) => Ok(Some(CommandLine::Alone(command))),
        None => Ok(None),
    }
}

fn head_of(alloc: Global, line: &str) -> Spelled<CommandLine<'_>>
    ensures { IfOk result (λ found. head_seen found ≡ head_of line.now) }
{
    if !is_plain(line) {
        return Ok(None);
    }
    let (mark, rest) = first_word(line);
    match rest {
        Some(rest) if mark == "@@" => {
            let (word, fields) = first_word(rest);
            head_named(alloc, word, fields)
        }
        _ => Ok(None),
    }
}

fn with_body<'a>(opening: CommandStart<'a>, body: &'a str) -> Command<'a>
    ensures { act_of result ≡ with_body (plain_opening opening.entry) body.now }
{
    match opening {
        CommandStart::Text(name) => Command::Text { name, body },
        CommandStart::Safe(name) => Command::Safe { name, body },
        CommandStart::Str(autoescape) => Command::Str { autoescape, body },
        CommandStart::Template(name) => Command::Template { name, body },
    }
}

/// A command, how many lines behind its command line belong to it, and what follows them.
#[derive(Drop)]
pub struct FoundCommand<'a> {
    pub command: Command<'a>,
    pub lines: usize,
    pub rest: &'a str,
}

fn command_at<'a>(alloc: Global, line: &'a str, after: &'a str) -> Spelled<FoundCommand<'a>>
    ensures { IfOk result (λ found.
        MatchOption found (IsNone line.now after.now) (IsCommand line.now after.now)) }
{
    match head_of(alloc, line)? {
        None => Ok(None),
        Some(CommandLine::Alone(command)) => Ok(Some(FoundCommand {
            command,
            lines: 0,
            rest: after,
        })),
        Some(CommandLine::Opens(opening)) => match first_body(after) {
            Some(body) => Ok(Some(FoundCommand {
                command: with_body(opening, body.text),
                lines: body.lines,
                rest: body.rest,
            })),
            None => Ok(None),
        },
    }
}

fn script_of_text(alloc: Global, text: &str) -> Result<Script<'_>, AllocError>
    ensures { IfOk result (λ script. script_seen script ≡ script_of_lines 1 0 (lines_of text.now)) }
{
    let mut commands = Vec::new(alloc);
    let mut number = 1;
    let mut rest = text;
    while let Some((line, after)) = first_line(rest) {
        if line.is_empty() {
            rest = after;
            number += 1;
            continue;
        }
        let Some(found) = command_at(alloc, line, after)? else {
            return Ok(Script {
                commands,
                unreadable: Some(number),
            });
        };
        commands.push(found.command)?;
        rest = found.rest;
        number += 1 + found.lines;
    }
    Ok(Script {
        commands,
        unreadable: None,
    })
}

/// The script that the bytes spell.
pub fn script_of(alloc: Global, bytes: &[u8]) -> Result<Script<'_>, AllocError>
    ensures { IfOk result (λ script. script_seen script ≡ script_of bytes.now) }
{
    match str::from_utf8(bytes) {
        Ok(text) => script_of_text(alloc, text),
        Err(_) => Ok(Script {
            commands: Vec::new(alloc),
            unreadable: Some(1),
        }),
    }
}
