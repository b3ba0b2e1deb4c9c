// Components as they are kept, and the contexts of their calls.
ghost use Rattle.std.specs.Prelude.{◌≡◌, Ok, List, [], OnOk, IfErr};
ghost use Rattle.tera_errors.specs.Prelude.{Gives, Lacks, Name};
ghost use Rattle.tera_syntax_tree.specs.Prelude.{signature_of, is_among};
ghost use Rattle.tera_values.specs.Prelude.{Val, key_view, text_keys};
ghost use Rattle.tera_components.specs.Context.{with_rest, with_body};
ghost use Rattle.tera_components.specs.Definition.{definition_of, formal_names, named_arguments, left_over, is_left, kept_over, with_formals, or_message, Binds};

use crate::argument::ComponentArg;
use crate::faults;
use std::alloc::Global;
use std::collections::BTreeMap;
use std::marker::Model;
use tera_operators::Entries;
use tera_state::Implicits;
use tera_syntax_tree::Signature;
use tera_values::{Context, Key, Kwargs, Map, Name, TeraResult, Value};

// Up to so many parameters are put in order as they come. Of more, each would move many of those above it.
const FEW: usize = 64;

/// What a component is given, as its signature says. It borrows nothing from the source.
#[derive(Drop)]
pub struct ComponentDefinition {
    name: Name,
    arguments: Vec<ComponentArg>,
    /// The names of these as keys, so that they are found fast.
    names: Map,
    rest: Option<Name>,
}

impl Model for ComponentDefinition {
    ghost use Rattle.tera_components.specs.Definition.{Definition, definition_coding};

    ghost Value = { Definition };

    ghost coded = { definition_coding };

    ghost view = { λ d. record { name = d.name; formals = d.arguments.items; rest = d.rest } };

    ghost use Rattle.tera_components.specs.Definition.{AreNames};

    ghost invariant = { λ d. AreNames d.names d.arguments.items };
}

impl ComponentDefinition {
    /// What the signature says. Defaults are made here, and not at each call.
    pub fn new(alloc: Global, signature: &Signature<'_>) -> TeraResult<ComponentDefinition>
        ensures { Gives (λ d. d) result (Ok (definition_of (signature_of signature.now))) }
    {
        let mut arguments = Vec::with_capacity(alloc, signature.parameters.len())?;
        let mut names = Map::new(alloc);
        for parameter in signature.parameters.iter() {
            let name = String::from_str(alloc, parameter.name)?;
            names.insert(Key::Text(name), Value::none())?;
            arguments.push(ComponentArg::new(alloc, parameter)?)?;
        }
        let rest = match signature.rest {
            Some(name) => Some(Name::new(alloc, name)?),
            None => None,
        };
        Ok(ComponentDefinition {
            name: Name::new(alloc, signature.name)?,
            arguments,
            names,
            rest,
        })
    }

    /// The component's name.
    pub fn name(&self) -> &str
        ensures { result.now ≡ self.now.name }
    {
        self.name.as_str()
    }

    /// The parameters in their order, without what takes all other arguments.
    pub fn arguments(&self) -> &[ComponentArg]
        ensures { result.now ≡ self.now.formals }
    {
        self.arguments.as_slice()
    }

    // Whether a parameter has this name.
    fn takes(&self, name: &str) -> bool
        ensures { result ≡ is_among name.now (formal_names self.now) }
    {
        self.names.get_text(name).is_some()
    }

    // Whether the key is the name of an argument that no parameter takes.
    fn leaves(&self, key: &Key) -> bool
        ensures { result ≡ is_left self.now (key_view key.now) }
    {
        match key {
            Key::Text(name) => !self.takes(name.as_str()),
            _ => false,
        }
    }

    // Puts a copy of the entry behind those that are there, if it is left over.
    fn keep(&self, key: &Key, value: &Value, all: &mut Map) -> TeraResult<()>
        ensures ok { OnOk result (all.new
            ≡ kept_over self.now all.old (key_view key.now, value.now)) }
        ensures lacks { IfErr result Lacks }
    {
        if !self.leaves(key) {
            return Ok(());
        }
        let key = key.try_clone()?;
        let value = value.try_clone()?;
        all.insert(key, value)
    }

    // The arguments of a map that no parameter takes.
    fn rest_of_map(&self, alloc: Global, given: &Map) -> TeraResult<Map>
        ensures { Gives (λ m. m) result
            (Ok (text_keys (left_over self.now (named_arguments given.now)))) }
    {
        let mut all = Map::new(alloc);
        for position in 0..given.len() {
            if let Some((key, value)) = given.entry_at(position) {
                self.keep(key, value, &mut all)?;
            }
        }
        Ok(all)
    }

    // The same of all that is given. A call mostly gives what its parameters take: then no map of it is made.
    #[inline(always)]
    fn rest_arguments(&self, alloc: Global, given: &Entries<'_>) -> TeraResult<Map>
        ensures { Gives (λ m. m) result
            (Ok (text_keys (left_over self.now (named_arguments given.now)))) }
    {
        if given.are_among(&self.names) {
            return Ok(Map::new(alloc));
        }
        match given.as_map() {
            Some(given) => self.rest_of_map(alloc, given),
            None => self.rest_of_map(alloc, &given.to_map(alloc)?),
        }
    }

    // Puts the values of the parameters at their names.
    fn put_arguments<C: Implicits>(
        &self,
        alloc: Global,
        given: &Entries<'_>,
        caller: &C,
        context: &mut Kwargs,
    ) -> TeraResult<()>
        ensures { Gives (λ _. context.new) result
            (or_message (with_formals (C.implicit caller.now)
            (named_arguments given.now) self.now.formals context.old)) }
    {
        for argument in self.arguments.iter() {
            let value = argument.value(alloc, self.name.as_str(), given, caller)?;
            context.put(argument.shared_name()?, value.into_shared(alloc)?)?;
        }
        Ok(())
    }

    // The same in a map.
    fn map_arguments<C: Implicits>(
        &self,
        alloc: Global,
        given: &Entries<'_>,
        caller: &C,
        context: &mut BTreeMap<Name, Value>,
    ) -> TeraResult<()>
        ensures { Gives (λ _. context.new.entries) result
            (or_message (with_formals (C.implicit caller.now)
            (named_arguments given.now) self.now.formals context.old.entries)) }
    {
        for argument in self.arguments.iter() {
            let value = argument.value(alloc, self.name.as_str(), given, caller)?;
            let old = context.insert(argument.shared_name()?, value.into_shared(alloc)?)?;
            drop(old);
        }
        Ok(())
    }

    // Puts what no parameter takes at its name, and refuses it where it has none.
    #[inline(always)]
    fn put_others(&self, alloc: Global, others: Map, context: &mut Kwargs) -> TeraResult<()>
        ensures { (over : List (Name × Val)) → others ≡ text_keys over →
            Gives (λ _. context.new) result
            (or_message (with_rest self.now.rest over context.old)) }
    {
        if let Some(rest) = &self.rest {
            return context.put(rest.share()?, Value::map(others).into_shared(alloc)?);
        }
        match others.entry_at(0) {
            Some((name, _)) => {
                let arguments = self.arguments.as_slice();
                Err(faults::unknown_argument(alloc, self.name.as_str(), name, arguments))
            }
            None => Ok(()),
        }
    }

    // What `bind` answers where the parameters are many. Apart, so that a call of few pays nothing for it.
    #[inline(never)]
    fn bind_many<C: Implicits>(
        &self,
        alloc: Global,
        given: &Entries<'_>,
        caller: &C,
        body: Option<Value>,
    ) -> TeraResult<Kwargs>
        ensures { Binds self.now (named_arguments given.now) body (C.implicit caller.now) result }
    {
        let others = self.rest_arguments(alloc, given)?;
        let mut ordered = map_with_body(alloc, body)?;
        self.map_arguments(alloc, given, caller, &mut ordered)?;
        let mut context = Kwargs::of_map(alloc, ordered)?;
        self.put_others(alloc, others, &mut context)?;
        Ok(context)
    }

    /// What the body of a call with these arguments reads; a `Message` where they do not fit. A key that is no text names no
    /// argument. Implicit parameters are looked up in the caller.
    pub fn bind<C: Implicits>(
        &self,
        alloc: Global,
        given: &Entries<'_>,
        caller: &C,
        body: Option<Value>,
    ) -> TeraResult<Kwargs>
        ensures { Binds self.now (named_arguments given.now) body (C.implicit caller.now) result }
    {
        if self.arguments.len() > FEW {
            return self.bind_many(alloc, given, caller, body);
        }
        let others = self.rest_arguments(alloc, given)?;
        let mut context = context_with_body(alloc, self.arguments.len(), body)?;
        self.put_arguments(alloc, given, caller, &mut context)?;
        self.put_others(alloc, others, &mut context)?;
        Ok(context)
    }

    /// The same where the arguments are values by name, in byte order of these.
    pub fn bind_by_name<C: Implicits>(
        &self,
        alloc: Global,
        given: &Context,
        caller: &C,
        body: Option<Value>,
    ) -> TeraResult<Kwargs>
        ensures { Binds self.now given.now body (C.implicit caller.now) result }
    {
        let given = given.to_map()?;
        let entries = Entries::of_map(&given);
        self.bind(alloc, &entries, caller, body)
    }

    /// The same as a context, for callers who keep it.
    pub fn build_context<C: Implicits>(
        &self,
        alloc: Global,
        given: &Map,
        caller: &C,
        body: Option<Value>,
    ) -> TeraResult<Context>
        ensures { Binds self.now (named_arguments given.now) body (C.implicit caller.now) result }
    {
        self.bind(alloc, &Entries::of_map(given), caller, body)?
            .to_context()
    }
}

// A context with the body alone, and with room for so many parameters.
fn context_with_body(alloc: Global, parameters: usize, body: Option<Value>) -> TeraResult<Kwargs>
    ensures { Gives (λ c. c) result (Ok (with_body body [])) }
{
    let mut context = Kwargs::with_capacity(alloc, parameters)?;
    if let Some(body) = body {
        context.insert("body", body)?;
    }
    Ok(context)
}

// The same as a map.
fn map_with_body(alloc: Global, body: Option<Value>) -> TeraResult<BTreeMap<Name, Value>>
    ensures { Gives (λ c. c.entries) result (Ok (with_body body [])) }
{
    let mut context = BTreeMap::new(alloc);
    if let Some(value) = body {
        let old = context.insert(Name::new(alloc, "body")?, value.into_shared(alloc)?)?;
        drop(old);
    }
    Ok(context)
}
