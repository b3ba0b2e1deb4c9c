// Commands on an engine.
ghost use Rattle.std.specs.Prelude.{◌≡◌, None, string_bytes, IfOk, IfErr, OnOk, OnErr, ◌++◌, ◌∷◌, []};
ghost use Rattle.tera.specs.Prelude.{texts_of, registry_of, ComponentByName, GivesOneOf, Lacks, Adds, ConfiguresOneOf, pairs_of, put, text, with_names, without_names};
ghost use Rattle.tera_run_script.specs.Act.{act_of, acts_of};
ghost use Rattle.tera_run_script.specs.Reply.{reply_seen, replies_seen, done_seen, rendered_seen};
ghost use Rattle.tera_run_script.specs.Seen.{session_of};
ghost use Rattle.tera_run_script.specs.Session.{Answers, Leads};

use crate::command::Command;
use crate::preview::preview;
use crate::reply::Reply;
use std::alloc::Global;
use tera::{Context, Objects, TeraOver, TeraResult, Value};

/// What a run keeps beside the engine: the context, and the templates that wait for the next adding.
#[derive(Drop)]
struct Session<'a> {
    context: Context,
    batch: Vec<(&'a str, &'a str)>,
}

/// Runs the commands in order, each in what those before it left; at first the context is empty and no template waits. There
/// is one reply a command, whatever it is. An error says that the replies found no room: then no command was run.
pub fn run_commands<O: Objects>(
    alloc: Global,
    engine: &mut TeraOver<O>,
    commands: &[Command<'_>],
) -> TeraResult<Vec<Reply>>
    ensures replies { IfOk result (λ replies. Leads (registry_of O.engine engine.old)
        (acts_of commands.now) (replies_seen replies.items) (registry_of O.engine engine.new)) }
    ensures memory { IfErr result (λ e. Lacks e) }
    ensures unchanged { OnErr result
        (registry_of O.engine engine.new ≡ registry_of O.engine engine.old) }
{
    let mut replies = Vec::with_capacity(alloc, commands.len())?;
    let mut session = Session {
        context: Context::new(alloc),
        batch: Vec::new(alloc),
    };
    for command in commands {
        let reply = reply_to(alloc, engine, &mut session, command);
        replies.push_reserved(reply);
    }
    Ok(replies)
}

fn reply_to<'a, O: Objects>(
    alloc: Global,
    engine: &mut TeraOver<O>,
    session: &mut Session<'a>,
    command: &Command<'a>,
) -> Reply
    ensures { Answers (session_of (registry_of O.engine engine.old) session.old)
        (act_of command.now) (reply_seen result)
        (session_of (registry_of O.engine engine.new) session.new) }
{
    let context = &mut session.context;
    match command {
        Command::Text { name, body } => done_reply(put_text(alloc, context, name, body, false)),
        Command::Safe { name, body } => done_reply(put_text(alloc, context, name, body, true)),
        Command::Int { name, number } => {
            done_reply(context.insert(name, Value::from_int(*number)))
        }
        Command::Str { autoescape, body } => {
            text_reply(engine.render_str(body, context, *autoescape))
        }
        Command::Template { name, body } => done_reply(add_to_batch(
            &mut session.batch,
            name,
            body,
        )),
        Command::Add => done_reply(add(engine, &mut session.batch)),
        Command::Suffix { suffixes } => done_reply(engine.autoescape_on(suffixes.as_slice())),
        Command::Prefix { prefixes } => {
            done_reply(engine.set_fallback_prefixes(prefixes.as_slice()))
        }
        Command::Render { name } => text_reply(engine.render(name, context)),
        Command::Block { name, block } => text_reply(engine.render_block(name, block, context)),
        Command::Component {
            name,
            autoescape,
            implicits,
        } => {
            let implicits = implicits.as_slice();
            text_reply(render_component(engine, context, name, *autoescape, implicits))
        }
        Command::Preview { autoescape } => {
            text_reply(preview(alloc, engine, context, *autoescape))
        }
    }
}

// The reply to a command that has nothing to tell.
fn done_reply(answer: TeraResult<()>) -> Reply
    ensures { reply_seen result ≡ done_seen answer }
{
    match answer {
        Ok(()) => Reply::Done,
        Err(error) => Reply::Fault(error),
    }
}

// The reply to a command that renders.
fn text_reply(answer: TeraResult<String>) -> Reply
    ensures { reply_seen result ≡ rendered_seen answer }
{
    match answer {
        Ok(text) => Reply::Text(text),
        Err(error) => Reply::Fault(error),
    }
}

// The text of a component: entries of the context with one of these names are implicits, and all others arguments.
fn render_component<O: Objects>(
    engine: &TeraOver<O>,
    context: &Context,
    name: &str,
    autoescape: bool,
    implicits: &[&str],
) -> TeraResult<String>
    ensures { GivesOneOf string_bytes result
        (ComponentByName (registry_of O.engine engine.now) name.now
        (without_names (texts_of implicits.now) context.now)
        (with_names (texts_of implicits.now) context.now) None autoescape) }
{
    let args = context.try_clone_without(implicits)?;
    let implicits = context.try_clone_with(implicits)?;
    engine.render_component(name, &args, &implicits, None, autoescape)
}

fn put_text(
    alloc: Global,
    context: &mut Context,
    name: &str,
    body: &str,
    is_safe: bool,
) -> TeraResult<()>
    ensures ok { OnOk result (context.new ≡ put name.now (text body.now is_safe) context.old) }
    ensures err { IfErr result (λ e. Lacks e) }
    ensures unchanged { OnErr result (context.new ≡ context.old) }
{
    let value = if is_safe {
        Value::safe_string(alloc, body)?
    } else {
        Value::string(alloc, body)?
    };
    context.insert(name, value)
}

// Lets a template wait.
fn add_to_batch<'a>(
    batch: &mut Vec<(&'a str, &'a str)>,
    name: &'a str,
    body: &'a str,
) -> TeraResult<()>
    ensures ok { OnOk result
        (pairs_of batch.new.items ≡ pairs_of batch.old.items ++ (name.now, body.now) ∷ []) }
    ensures err { IfErr result (λ e. Lacks e) }
    ensures unchanged { OnErr result (pairs_of batch.new.items ≡ pairs_of batch.old.items) }
{
    batch.push((name, body))?;
    Ok(())
}

// Adds the templates that wait. Then none waits, whatever the answer is.
fn add<O: Objects>(engine: &mut TeraOver<O>, batch: &mut Vec<(&str, &str)>) -> TeraResult<()>
    ensures engine { ConfiguresOneOf result
        (Adds (registry_of O.engine engine.old) (pairs_of batch.old.items))
        (registry_of O.engine engine.old) (registry_of O.engine engine.new) }
    ensures batch { batch.new.items ≡ [] }
{
    let answer = engine.add_raw_templates(batch.as_slice());
    batch.clear();
    answer
}
