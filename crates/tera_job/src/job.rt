// A whole job: from texts to what is asked for, or to the first fault.
ghost use Rattle.std.specs.Prelude.{◌≡◌, None, Ok, IfErr, IfOk, map, string_bytes};
ghost use Rattle.tera.specs.Prelude.{Gives, GivesOneOf, registry_of};
ghost use Rattle.tera.specs.MeaningRegistry.{Registry, new_registry};
ghost use Rattle.tera.specs.Registering.{new_registry_with};
ghost use Rattle.tera.specs.Resolve.{resolve};
ghost use Rattle.tera.specs.Variables.{AnswersVariables};
ghost use Rattle.tera_job.specs.declared.job.JobError.TheVariants.{Fault, Unreadable};
ghost use Rattle.tera_job.specs.declared.job.Task.TheVariants.{Check};
ghost use Rattle.tera_job.specs.Made.{FailsBy, Furnished, Makes, Refuses};

use crate::datum::{Datum, Unreadable, context_of};
use crate::engine::{Settings, furnish};
use crate::page::{Page, Watch, pages};
use crate::preview::{Preview, previews};
use crate::syntax::syntax_errors;
use std::alloc::{AllocError, Global};
use std::collections::BTreeSet;
use tera::{Context, Error, ErrorKind, Objects, Tera, TeraOver, TeraResult};
use tera_data::Floats;
use tera_errors::Guess;

/// What is asked for.
#[derive(Clone, Copy, Debug)]
pub enum Task<'a> {
    /// The text of one template.
    One { name: &'a str },
    /// The text of a block of one template.
    Block { name: &'a str, block: &'a str },
    /// A page of each template, but for those of which a part of the name begins with `_`.
    All,
    /// Nothing but that all templates can be read, and go together.
    Check,
    /// The names that one template wants to be given.
    Variables { name: &'a str },
    /// Each component by itself.
    Components { autoescape: bool },
}

/// Templates as names and texts, data, and what is asked for.
#[derive(Clone, Copy, Debug)]
pub struct Job<'a> {
    pub settings: Settings<'a>,
    pub templates: &'a [(&'a str, &'a str)],
    pub given: &'a [Datum<'a>],
    pub floats: Floats,
    pub task: Task<'a>,
}

/// What a job makes.
#[derive(Drop)]
pub enum Made {
    Text(String),
    Pages(Vec<Page>),
    Names(Vec<String>),
    Previews(Vec<Preview>),
    /// All templates can be read, and go together.
    Sound,
}

/// Why a job makes nothing.
#[derive(Debug, Drop)]
pub enum JobError {
    /// A datum can't be read.
    Unreadable(Unreadable),
    /// A template is refused, or its rendering fails; or memory was refused.
    Fault(Error),
    /// Texts of templates that spell no tree, all of them. `Check` alone answers this.
    Syntax(Vec<Error>),
}

impl From<Error> for JobError {
    ghost from_gives = { λ e r. r ≡ Fault e };

    fn from(error: Error) -> JobError {
        JobError::Fault(error)
    }
}

impl From<AllocError> for JobError {
    ghost from_gives = { λ _ r. r ≡ Fault None };

    fn from(_error: AllocError) -> JobError {
        JobError::Fault(Error::out_of_memory())
    }
}

impl From<Unreadable> for JobError {
    ghost from_gives = { λ u r. r ≡ Unreadable u };

    fn from(error: Unreadable) -> JobError {
        JobError::Unreadable(error)
    }
}

/// Does the job with a new engine: data is read first, then templates, and then what is asked for is made, all of it or nothing.
pub fn make<W: Watch>(alloc: Global, job: &Job<'_>, watch: &mut W) -> Result<Made, JobError>
    ensures made { IfOk result (λ m. (f : Furnished new_registry job.now)
        × Makes f.registry f.context job.now.task m) }
    ensures refused { IfErr result (λ e. Refuses new_registry job.now e) }
{
    make_by(alloc, Tera::new(alloc), job, watch)
}

/// Does the job as `make`, with a new engine that has these objects.
pub fn make_with<O: Objects, W: Watch>(
    alloc: Global,
    objects: O,
    job: &Job<'_>,
    watch: &mut W,
) -> Result<Made, JobError>
    ensures made { IfOk result (λ m.
        (f : Furnished (new_registry_with (O.engine objects)) job.now)
        × Makes f.registry f.context job.now.task m) }
    ensures refused { IfErr result (λ e.
        Refuses (new_registry_with (O.engine objects)) job.now e) }
{
    make_by(alloc, TeraOver::with_objects(alloc, objects), job, watch)
}

// Does the job with this engine, or answers why there is none, where data and texts can be read.
fn make_by<O: Objects, W: Watch>(
    alloc: Global,
    engine: TeraResult<TeraOver<O>>,
    job: &Job<'_>,
    watch: &mut W,
) -> Result<Made, JobError>
    ensures made { (start : Registry) → Gives (registry_of O.engine) engine (Ok start)
        → IfOk result (λ m. (f : Furnished start job.now)
        × Makes f.registry f.context job.now.task m) }
    ensures refused { (start : Registry) → Gives (registry_of O.engine) engine (Ok start)
        → IfErr result (λ e. Refuses start job.now e) }
{
    let context = context_of(alloc, job.given, job.floats)?;
    if let Task::Check = job.task {
        if let Err(error) = check_texts(alloc, job) {
            return Err(error);
        }
    }
    let mut engine = engine?;
    furnish(alloc, &mut engine, &job.settings, job.templates)?;
    match do_task(alloc, &engine, &context, job.task, watch) {
        Ok(made) => Ok(made),
        Err(error) => Err(JobError::Fault(error)),
    }
}

// Whether each text spells a tree.
fn check_texts(alloc: Global, job: &Job<'_>) -> Result<(), JobError>
    ensures { (start : Registry) → IfErr result (λ e.
        job.now.task ≡ Check → Refuses start job.now e) }
{
    match syntax_errors(alloc, &job.settings, job.templates) {
        Ok(errors) if errors.is_empty() => Ok(()),
        Ok(errors) => Err(JobError::Syntax(errors)),
        Err(error) => Err(JobError::Fault(error)),
    }
}

fn do_task<O: Objects, W: Watch>(
    alloc: Global,
    engine: &TeraOver<O>,
    context: &Context,
    task: Task<'_>,
    watch: &mut W,
) -> TeraResult<Made>
    ensures made { IfOk result (λ m.
        Makes (registry_of O.engine engine.now) context.now task.entry m) }
    ensures fails { IfErr result (λ e.
        FailsBy (registry_of O.engine engine.now) context.now task.entry e) }
{
    Ok(match task {
        Task::One { name } => {
            let answer = engine.render(name, context);
            Made::Text(tell_of_name(alloc, engine, name, answer)?)
        }
        Task::Block { name, block } => {
            let answer = engine.render_block(name, block, context);
            Made::Text(tell_of_name(alloc, engine, name, answer)?)
        }
        Task::All => Made::Pages(pages(alloc, engine, context, watch)?),
        Task::Check => Made::Sound,
        Task::Variables { name } => Made::Names(variables(alloc, engine, name)?),
        Task::Components { autoescape } => {
            Made::Previews(previews(alloc, engine, context, autoescape)?)
        }
    })
}

fn variables<O: Objects>(alloc: Global, engine: &TeraOver<O>, name: &str) -> TeraResult<Vec<String>>
    ensures { let r = registry_of O.engine engine.now in
        GivesOneOf (λ ns. map string_bytes ns.items) result
        (AnswersVariables r (resolve r name.now)) }
{
    let answer = engine.get_template_variables(name);
    let names = tell_of_name(alloc, engine, name, answer)?;
    Ok(names_of(alloc, names)?)
}

fn names_of(alloc: Global, set: BTreeSet<String>) -> Result<Vec<String>, AllocError>
    ensures { IfOk result (λ names. names.items ≡ set.keys) }
{
    let mut names = Vec::with_capacity(alloc, set.len())?;
    for name in set {
        names.push(name)?;
    }
    Ok(names)
}

// The same answer. Where no template has the name, it tells of one that may be meant.
fn tell_of_name<T, O: Objects>(
    alloc: Global,
    engine: &TeraOver<O>,
    name: &str,
    answer: TeraResult<T>,
) -> TeraResult<T>
    ensures { result ≡ answer }
{
    match answer {
        Ok(made) => Ok(made),
        Err(error) => match error.kind() {
            ErrorKind::TemplateNotFound => Err(tell_of_near(alloc, engine, name, error)),
            _ => Err(error),
        },
    }
}

fn tell_of_near<O: Objects>(alloc: Global, engine: &TeraOver<O>, name: &str, error: Error) -> Error
    ensures { result ≡ error }
{
    match words_on_name(alloc, engine, name) {
        Ok(words) => error.with_message(alloc, words.as_str()),
        Err(_) => error,
    }
}

fn words_on_name<O: Objects>(
    alloc: Global,
    engine: &TeraOver<O>,
    name: &str,
) -> TeraResult<String> {
    let mut guess = Guess::new(alloc, name);
    for known in engine.get_template_names()? {
        guess.add(known.as_str())?;
    }
    let mut words = format!(in alloc; "there is no template `{name}`")?;
    guess.put(&mut words)?;
    Ok(words)
}
