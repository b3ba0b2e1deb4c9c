//! Texts that stand beside the registry: what they render to, what is appended, and where they are refused.
use super::cases::{first_wrong_line, is_refused, variables};
use std::alloc::Global;
use tera::{Context, Tera};

const BEFORE: &[u8] = b"before ";

const ESCAPED: &str = r#"
{{ html }} => &lt;script&gt;
<i>{{ safe }} => <i><b>
a{# not this #}b => ab
{{ nope }} !! 3 7
{{ hidden }} !! 3 9
{{ name }}: {{ nope }} !! 15 19
{{ name !! syntax
{{ }} !! syntax
{% extends "base" %} !! message
 {# a #}{%- extends "__tera_one_off" -%} {{ nope }} !! message
{% extends "base" %}{% if %} !! syntax
{% extends "base" %}{% extends "base" %} !! syntax
{{ nope }}{% extends "base" %} !! syntax
{% extends base %} !! syntax
"#;

const PLAIN: &str = r#"
 =>
Hello {{ name }}! => Hello world!
{{name}}{{ name }} => worldworld
{{ html }} => <script>
"#;

/// Whether a line is answered as it wants it: its text is appended, or nothing is.
fn appends(
    engine: &Tera,
    context: &Context,
    autoescape: bool,
    line: &str,
    out: &mut Vec<u8>,
) -> bool {
    let (input, want) = line
        .split_once(" =>")
        .or(line.split_once(" !! "))
        .unwrap_or((line, ""));
    match engine.render_str_to(input, context, autoescape, out) {
        Ok(()) => {
            out.strip_prefix(BEFORE) == Some(want.strip_prefix(' ').unwrap_or(want).as_bytes())
        }
        Err(error) => out.as_slice() == BEFORE && is_refused(&error, want, input.len()),
    }
}

fn is_appended(
    alloc: Global,
    engine: &Tera,
    context: &Context,
    autoescape: bool,
    line: &str,
) -> bool {
    match BEFORE.to_vec(alloc) {
        Ok(mut out) => appends(engine, context, autoescape, line, &mut out),
        Err(_) => false,
    }
}

fn are_appended(alloc: Global, autoescape: bool, lines: &str) -> bool {
    match (Tera::new(alloc), variables(alloc)) {
        (Ok(engine), Some(context)) => {
            lines.lines().all(|line| is_appended(alloc, &engine, &context, autoescape, line))
        }
        _ => false,
    }
}

fn is_rendered(alloc: Global, context: &Context) -> bool {
    match Tera::one_off(alloc, "Hello {{ name }}!", context, true) {
        Ok(text) => text.as_str() == "Hello world!",
        Err(_) => false,
    }
}

/// Whether a text is rendered with no engine.
fn renders_alone(alloc: Global) -> bool {
    match variables(alloc) {
        Some(context) => is_rendered(alloc, &context),
        None => false,
    }
}

#[test]
fn renderings(rt: HostRuntime) {
    let line = first_wrong_line(rt.alloc(), &[(true, ESCAPED), (false, PLAIN)]);
    assert!(rt; line.is_none(), "at line {line:?}");
    assert!(rt;
        are_appended(rt.alloc(), true, ESCAPED)
            && are_appended(rt.alloc(), false, PLAIN)
            && renders_alone(rt.alloc())
    );
}
