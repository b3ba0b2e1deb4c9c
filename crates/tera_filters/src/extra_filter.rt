// The filters, as objects that an engine calls by name.
use crate::{
    base64_texts, case, dates, digests, file_sizes, json_texts, lines, patterns, slugs, tags, urls,
    words,
};
use std::alloc::Global;
use tera_state::{Filter, State};
use tera_values::{Arguments, Kwargs, TeraResult, Value};

/// A filter of this crate.
#[derive(Clone, Copy)]
pub enum ExtraFilter {
    B64decode,
    B64encode,
    Capitalize,
    Date,
    Filesizeformat,
    JsonEncode,
    Linebreaks,
    Lower,
    Md5,
    RegexReplace,
    Sha256,
    Slugify,
    Spaceless,
    Striptags,
    Title,
    TruncateWords,
    Upper,
    Urlencode,
    UrlencodeStrict,
}

impl ExtraFilter {
    ghost use Rattle.tera_errors.specs.Prelude.{Gives};
    ghost use Rattle.tera_filters.specs.Extra.{filter_of};

    /// What it makes of the value.
    pub fn apply(self, alloc: Global, value: &Value, arguments: &Arguments<'_>) -> TeraResult<Value>
        ensures { Gives (λ v. v) result (filter_of self value.now arguments.now) }
    {
        match self {
            ExtraFilter::B64decode => base64_texts::b64decode(alloc, value, arguments),
            ExtraFilter::B64encode => base64_texts::b64encode(alloc, value, arguments),
            ExtraFilter::Capitalize => case::capitalize(alloc, value),
            ExtraFilter::Date => dates::date(alloc, value, arguments),
            ExtraFilter::Filesizeformat => file_sizes::filesizeformat(alloc, value, arguments),
            ExtraFilter::JsonEncode => json_texts::json_encode(alloc, value, arguments),
            ExtraFilter::Linebreaks => lines::linebreaks(alloc, value),
            ExtraFilter::Lower => case::lower(alloc, value),
            ExtraFilter::Md5 => digests::md5(alloc, value),
            ExtraFilter::RegexReplace => patterns::regex_replace(alloc, value, arguments),
            ExtraFilter::Sha256 => digests::sha256(alloc, value),
            ExtraFilter::Slugify => slugs::slugify(alloc, value),
            ExtraFilter::Spaceless => tags::spaceless(alloc, value),
            ExtraFilter::Striptags => tags::striptags(alloc, value),
            ExtraFilter::Title => case::title(alloc, value),
            ExtraFilter::TruncateWords => words::truncate_words(alloc, value, arguments),
            ExtraFilter::Upper => case::upper(alloc, value),
            ExtraFilter::Urlencode => urls::urlencode(alloc, value),
            ExtraFilter::UrlencodeStrict => urls::urlencode_strict(alloc, value),
        }
    }
}

// What it answers has its own mark: that of the text that was given, or none.
impl Filter for ExtraFilter {
    ghost use Rattle.std.specs.Prelude.{false};
    ghost use Rattle.tera_filters.specs.Extra.{filter_of};

    ghost meaning = { λ f v given view. filter_of f v given };

    ghost safe = { λ f. false };

    fn call(&self, value: &Value, kwargs: Kwargs, state: &State<'_>) -> TeraResult<Value> {
        self.apply(state.alloc(), value, &kwargs.as_arguments())
    }

    fn is_safe(&self) -> bool {
        false
    }
}
