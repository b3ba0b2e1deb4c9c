// The filters by their names.
ghost use Rattle.std.specs.Prelude.{◌≡◌};
ghost use Rattle.tera_errors.specs.Prelude.{Gives};
ghost use Rattle.tera_values.specs.Prelude.{plain};
ghost use Rattle.tera_built_ins.specs.Escaping.{escaping_of};
ghost use Rattle.tera_built_ins.specs.Filters.{filter_named, filter_of};

use crate::escape_fn::{EscapeFn, Escaping, Filtering};
use crate::markup_filters::Markup;
use crate::{
    defaults, groups, indent, items, join, maps, markup_filters, numbers, parse, replace,
    safe_filters, sizes, sorting, split, trims, truncate, words,
};
use std::alloc::Global;
use tera_values::{Arguments, TeraResult, Value};

/// A filter that every engine has.
#[derive(Clone, Copy)]
pub enum BuiltInFilter {
    Safe,
    Default,
    Wordcount,
    Escape,
    EscapeHtml,
    EscapeXml,
    NewlinesToBr,
    Pluralize,
    Trim,
    TrimStart,
    TrimEnd,
    Replace,
    Truncate,
    Indent,
    Str,
    Int,
    Length,
    Reverse,
    Split,
    Abs,
    First,
    Last,
    Nth,
    Join,
    Sort,
    Unique,
    Values,
    Keys,
    Pairs,
    Get,
    GroupBy,
}

/// The names of the filters, for guesses at names that are misspelled.
pub const FILTERS: [&str; 31] = [
    "safe",
    "default",
    "wordcount",
    "escape",
    "escape_html",
    "escape_xml",
    "newlines_to_br",
    "pluralize",
    "trim",
    "trim_start",
    "trim_end",
    "replace",
    "truncate",
    "indent",
    "str",
    "int",
    "length",
    "reverse",
    "split",
    "abs",
    "first",
    "last",
    "nth",
    "join",
    "sort",
    "unique",
    "values",
    "keys",
    "pairs",
    "get",
    "group_by",
];

impl BuiltInFilter {
    /// The one with this name, if there is one. Only names of its length are compared with it.
    pub fn by_name(name: &str) -> Option<BuiltInFilter>
        ensures { result ≡ filter_named name.now }
    {
        match name.len() {
            3 => match name {
                "str" => Some(BuiltInFilter::Str),
                "int" => Some(BuiltInFilter::Int),
                "abs" => Some(BuiltInFilter::Abs),
                "nth" => Some(BuiltInFilter::Nth),
                "get" => Some(BuiltInFilter::Get),
                _ => None,
            },
            4 => match name {
                "safe" => Some(BuiltInFilter::Safe),
                "trim" => Some(BuiltInFilter::Trim),
                "last" => Some(BuiltInFilter::Last),
                "join" => Some(BuiltInFilter::Join),
                "sort" => Some(BuiltInFilter::Sort),
                "keys" => Some(BuiltInFilter::Keys),
                _ => None,
            },
            5 => match name {
                "split" => Some(BuiltInFilter::Split),
                "first" => Some(BuiltInFilter::First),
                "pairs" => Some(BuiltInFilter::Pairs),
                _ => None,
            },
            6 => match name {
                "escape" => Some(BuiltInFilter::Escape),
                "indent" => Some(BuiltInFilter::Indent),
                "length" => Some(BuiltInFilter::Length),
                "unique" => Some(BuiltInFilter::Unique),
                "values" => Some(BuiltInFilter::Values),
                _ => None,
            },
            7 => match name {
                "default" => Some(BuiltInFilter::Default),
                "replace" => Some(BuiltInFilter::Replace),
                "reverse" => Some(BuiltInFilter::Reverse),
                _ => None,
            },
            8 => match name {
                "trim_end" => Some(BuiltInFilter::TrimEnd),
                "truncate" => Some(BuiltInFilter::Truncate),
                "group_by" => Some(BuiltInFilter::GroupBy),
                _ => None,
            },
            9 => match name {
                "wordcount" => Some(BuiltInFilter::Wordcount),
                "pluralize" => Some(BuiltInFilter::Pluralize),
                _ => None,
            },
            10 => match name {
                "escape_xml" => Some(BuiltInFilter::EscapeXml),
                "trim_start" => Some(BuiltInFilter::TrimStart),
                _ => None,
            },
            11 => match name {
                "escape_html" => Some(BuiltInFilter::EscapeHtml),
                _ => None,
            },
            14 => match name {
                "newlines_to_br" => Some(BuiltInFilter::NewlinesToBr),
                _ => None,
            },
            _ => None,
        }
    }

    /// What it makes of the value.
    pub fn call<E: EscapeFn>(
        self,
        alloc: Global,
        value: &Value,
        arguments: &Arguments<'_>,
        escaping: Escaping<'_, E>,
    ) -> TeraResult<Value>
        ensures { Gives (λ v. v) result
            (filter_of plain (escaping_of E.escaped escaping.entry) self value.now arguments.now) }
    {
        let filtering = Filtering {
            alloc,
            value,
            arguments,
            escaping,
        };
        match self {
            BuiltInFilter::Safe => safe_filters::safe(alloc, value),
            BuiltInFilter::Default => defaults::default(value, arguments),
            BuiltInFilter::Wordcount => words::wordcount(alloc, value),
            BuiltInFilter::Escape => safe_filters::escape(filtering),
            BuiltInFilter::EscapeHtml => markup_filters::escape(alloc, value, Markup::Html),
            BuiltInFilter::EscapeXml => markup_filters::escape(alloc, value, Markup::Xml),
            BuiltInFilter::NewlinesToBr => markup_filters::newlines_to_br(alloc, value),
            BuiltInFilter::Pluralize => numbers::pluralize(alloc, value, arguments),
            BuiltInFilter::Trim => trims::trim(alloc, value, arguments),
            BuiltInFilter::TrimStart => trims::trim_start(alloc, value, arguments),
            BuiltInFilter::TrimEnd => trims::trim_end(alloc, value, arguments),
            BuiltInFilter::Replace => replace::replace(filtering),
            BuiltInFilter::Truncate => truncate::truncate(alloc, value, arguments),
            BuiltInFilter::Indent => indent::indent(filtering),
            BuiltInFilter::Str => safe_filters::str(alloc, value),
            BuiltInFilter::Int => parse::int(alloc, value, arguments),
            BuiltInFilter::Length => sizes::length(alloc, value),
            BuiltInFilter::Reverse => sizes::reverse(alloc, value),
            BuiltInFilter::Split => split::split(alloc, value, arguments),
            BuiltInFilter::Abs => numbers::abs(alloc, value),
            BuiltInFilter::First => items::first(alloc, value),
            BuiltInFilter::Last => items::last(alloc, value),
            BuiltInFilter::Nth => items::nth(alloc, value, arguments),
            BuiltInFilter::Join => join::join(filtering),
            BuiltInFilter::Sort => sorting::sort(alloc, value, arguments),
            BuiltInFilter::Unique => sorting::unique(alloc, value),
            BuiltInFilter::Values => maps::values(alloc, value),
            BuiltInFilter::Keys => maps::keys(alloc, value),
            BuiltInFilter::Pairs => maps::pairs(alloc, value),
            BuiltInFilter::Get => maps::get(alloc, value, arguments),
            BuiltInFilter::GroupBy => groups::group_by(alloc, value, arguments),
        }
    }
}
