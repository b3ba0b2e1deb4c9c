// What begins and ends a tag.
ghost use Rattle.std.specs.Prelude.{◌≡◌, Ok, IfOk, OnOk, IsTrue};
ghost use Rattle.tera_errors.specs.Prelude.{Gives};
ghost use Rattle.tera_syntax_tree.specs.Delimiters.{accepted, are_filled, delimiters_of, do_differ, standard, validated};

use std::alloc::Global;
use tera_errors::{Error, TeraResult};

/// The texts that begin and end the three kinds of tag.
pub struct Delimiters {
    /// Begins a statement.
    pub block_start: String,
    pub block_end: String,
    /// Begins an expression that is printed.
    pub variable_start: String,
    pub variable_end: String,
    /// Begins a comment.
    pub comment_start: String,
    pub comment_end: String,
}

// By hand, so that delimiters that go out of scope are one call.
impl Drop for Delimiters {
    fn drop(self) {
        let Delimiters {
            block_start,
            block_end,
            variable_start,
            variable_end,
            comment_start,
            comment_end,
        } = self;
        drop(block_start);
        drop(block_end);
        drop(variable_start);
        drop(variable_end);
        drop(comment_start);
        drop(comment_end);
    }
}

impl Delimiters {
    /// Tera's own: `{% %}`, `{{ }}` and `{# #}`.
    #[tactic(auto, unfolding(crate::specs::Delimiters::accepted))]
    pub fn standard(alloc: Global) -> TeraResult<Delimiters>
        ensures value { Gives delimiters_of result (Ok standard) }
        ensures usable { IfOk result (λ d. IsTrue (accepted (delimiters_of d))) }
    {
        Ok(Delimiters {
            block_start: String::from_str(alloc, "{%")?,
            block_end: String::from_str(alloc, "%}")?,
            variable_start: String::from_str(alloc, "{{")?,
            variable_end: String::from_str(alloc, "}}")?,
            comment_start: String::from_str(alloc, "{#")?,
            comment_end: String::from_str(alloc, "#}")?,
        })
    }

    /// Whether these can be used to read a text. A delimiter that is empty, or two start delimiters that are equal, are
    /// a `Message`.
    #[tactic(auto, unfolding(crate::specs::Delimiters::accepted))]
    pub fn validate(&self, alloc: Global) -> TeraResult<()>
        ensures value { Gives (λ done. done) result (validated (delimiters_of self.now)) }
        ensures usable { OnOk result (IsTrue (accepted (delimiters_of self.now))) }
    {
        if !self.are_filled() {
            return Err(Error::message(alloc, "a delimiter is empty"));
        }
        if !self.do_differ() {
            return Err(Error::message(alloc, "two start delimiters are equal"));
        }
        Ok(())
    }

    fn are_filled(&self) -> bool
        ensures { result ≡ are_filled (delimiters_of self.now) }
    {
        !self.block_start.is_empty()
            && !self.block_end.is_empty()
            && !self.variable_start.is_empty()
            && !self.variable_end.is_empty()
            && !self.comment_start.is_empty()
            && !self.comment_end.is_empty()
    }

    fn do_differ(&self) -> bool
        ensures { result ≡ do_differ (delimiters_of self.now) }
    {
        self.block_start.as_bytes() != self.variable_start.as_bytes()
            && self.block_start.as_bytes() != self.comment_start.as_bytes()
            && self.variable_start.as_bytes() != self.comment_start.as_bytes()
    }
}
