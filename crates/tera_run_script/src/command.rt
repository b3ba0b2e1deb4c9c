// The commands of a script.

/// What a script asks of the engine. The texts are borrowed from where they stand in the script.
#[derive(Drop, Debug, PartialEq, Eq)]
pub enum Command<'a> {
    /// Puts a text into the context, under this name.
    Text {
        name: &'a str,
        body: &'a str,
    },
    /// The same, marked safe.
    Safe {
        name: &'a str,
        body: &'a str,
    },
    /// Puts an integer into the context, under this name.
    Int {
        name: &'a str,
        number: i128,
    },
    /// Renders a text beside the registry, with the context.
    Str {
        autoescape: bool,
        body: &'a str,
    },
    /// Lets a template wait for the batch that `Add` adds.
    Template {
        name: &'a str,
        body: &'a str,
    },
    /// Adds the templates that wait, in the order in which they came, all or none. Then none waits.
    Add,
    /// Autoescapes the templates whose names end in one of these, and no others.
    Suffix {
        suffixes: Vec<&'a str>,
    },
    /// Puts these in front of a name that is no template, one after another.
    Prefix {
        prefixes: Vec<&'a str>,
    },
    /// Renders a template, with the context.
    Render {
        name: &'a str,
    },
    /// Renders a template, with the context, for the text of a block of it.
    Block {
        name: &'a str,
        block: &'a str,
    },
    /// Renders a component. Entries of the context with one of these names are implicits, and all others arguments.
    Component {
        name: &'a str,
        autoescape: bool,
        implicits: Vec<&'a str>,
    },
    /// Renders each component by itself. Entries of the context that its parameters name are arguments, and all are implicits.
    Preview {
        autoescape: bool,
    },
}
