// Renderings within a budget of steps. A step is an instruction of the machine.
ghost use Rattle.std.specs.Prelude.{◌≡◌, ◌*◌, ◌<◌, string_bytes};
ghost use Rattle.tera.specs.Budget.{GivesWithin, TextTakesMore, component_visits, template_visits, unless};
ghost use Rattle.tera.specs.Lent.{lent_text};
ghost use Rattle.tera.specs.Rendering.{ByName, ComponentByName, OneOff};

use crate::engine::TeraOver;
use crate::rendering::Source;
use std::marker::Brand;
use tera_code::{Allowance, Budget, Steps, Tally};
use tera_state::Objects;
use tera_values::{Context, TeraResult};

/// The name of a template. A function whose ghost members a call picks takes no `&str` itself.
#[derive(Clone, Copy)]
struct TemplateName<'a> {
    name: &'a str,
}

/// The name of a component, and the body that it is called with.
#[derive(Clone, Copy)]
struct ComponentCall<'a> {
    name: &'a str,
    body: Option<&'a str>,
}

impl<O: Objects> TeraOver<O> {
    ghost use Rattle.tera.specs.Registry.{registry_of};

    /// Renders as `render` does, or answers `None` where that takes more than `steps` steps. After `None`, eight times the visits of
    /// the template's meaning exceed `steps`.
    pub fn render_within(
        &self,
        name: &str,
        context: &Context,
        steps: usize,
    ) -> TeraResult<Option<String>>
        ensures { GivesWithin string_bytes result
            (ByName (registry_of O.engine self.now) name.now context.now)
            (steps < 8 * template_visits (registry_of O.engine self.now) name.now context.now) }
    {
        self.template_within::<Brand>(TemplateName { name }, context, steps)
    }

    /// Renders as `render_str` does, or answers `None` where that takes more than `steps` steps. After `None`, eight times the visits
    /// of the text's meaning exceed `steps`. Reading the text takes no step.
    pub fn render_str_within(
        &self,
        input: &str,
        context: &Context,
        autoescape: bool,
        steps: usize,
    ) -> TeraResult<Option<String>>
        ensures { GivesWithin string_bytes result
            (OneOff (registry_of O.engine self.now) input.now context.now autoescape)
            (TextTakesMore (registry_of O.engine self.now) input.now context.now autoescape steps) }
    {
        self.text_within::<Brand>(Source { text: input }, context, autoescape, steps)
    }

    /// Renders as `render_component` does, or answers `None` where that takes more than `steps` steps. After `None`, eight times the
    /// visits of the component's meaning exceed `steps`.
    pub fn render_component_within(
        &self,
        name: &str,
        args: &Context,
        implicits: &Context,
        body: Option<&str>,
        autoescape: bool,
        steps: usize,
    ) -> TeraResult<Option<String>>
        ensures { GivesWithin string_bytes result
            (ComponentByName (registry_of O.engine self.now) name.now
            args.now implicits.now (lent_text body.entry) autoescape)
            (steps < 8 * component_visits (registry_of O.engine self.now) name.now
            args.now implicits.now (lent_text body.entry) autoescape) }
    {
        self.component_within::<Brand>(
            ComponentCall { name, body },
            args,
            implicits,
            autoescape,
            steps,
        )
    }

    // What a budget of the type allows is a number that its caller names.
    fn template_within<L: Allowance>(
        &self,
        template: TemplateName<'_>,
        context: &Context,
        limit: usize,
    ) -> TeraResult<Option<String>>
        requires { limit ≡ L.allowed }
        ensures { GivesWithin string_bytes result
            (ByName (registry_of O.engine self.now) template.entry.name.now context.now)
            (limit < 8 * template_visits (registry_of O.engine self.now)
            template.entry.name.now context.now) }
    {
        let mut steps: Steps<Budget<L>> = Steps::with_limit(limit);
        let memory = String::new(self.alloc);
        let answer = self.render_template(template.name, context, memory, &mut steps);
        unless_spent(answer, &steps)
    }

    fn text_within<L: Allowance>(
        &self,
        source: Source<'_>,
        context: &Context,
        autoescape: bool,
        limit: usize,
    ) -> TeraResult<Option<String>>
        requires { limit ≡ L.allowed }
        ensures { GivesWithin string_bytes result
            (OneOff (registry_of O.engine self.now) source.entry.text.now context.now autoescape)
            (TextTakesMore (registry_of O.engine self.now) source.entry.text.now context.now
            autoescape limit) }
    {
        let mut steps: Steps<Budget<L>> = Steps::with_limit(limit);
        let memory = String::new(self.alloc);
        let answer = self.render_text(source.text, context, autoescape, memory, &mut steps);
        unless_spent(answer, &steps)
    }

    fn component_within<L: Allowance>(
        &self,
        call: ComponentCall<'_>,
        args: &Context,
        implicits: &Context,
        autoescape: bool,
        limit: usize,
    ) -> TeraResult<Option<String>>
        requires { limit ≡ L.allowed }
        ensures { GivesWithin string_bytes result
            (ComponentByName (registry_of O.engine self.now) call.entry.name.now
            args.now implicits.now (lent_text call.entry.body) autoescape)
            (limit < 8 * component_visits (registry_of O.engine self.now) call.entry.name.now
            args.now implicits.now (lent_text call.entry.body) autoescape) }
    {
        let mut steps: Steps<Budget<L>> = Steps::with_limit(limit);
        let memory = String::new(self.alloc);
        let answer = self.render_by_call(
            call.name, args, implicits, call.body, autoescape, memory, &mut steps,
        );
        unless_spent(answer, &steps)
    }
}

// Nothing where the budget is spent, whatever was answered: so the answer does not depend on where a run looks at it.
fn unless_spent<T: Tally>(
    answer: TeraResult<String>,
    steps: &Steps<T>,
) -> TeraResult<Option<String>>
    ensures { result ≡ unless (T.is_over steps.now) answer }
{
    if steps.are_spent() {
        return Ok(None);
    }
    match answer {
        Ok(text) => Ok(Some(text)),
        Err(error) => Err(error),
    }
}
