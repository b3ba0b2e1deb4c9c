// What is added is rendered.
use crate::renderers::room::{SiteRenderer, has_text, is_done, renderer};
use std::alloc::Global;
use tera_renderer::rendering::ComponentBytes;
use tera_renderer::settings::TagBytes;

const PAGE: &[u8] =
    b"{% extends 'base.html' %}{% block main %}{{ greeting }} {{ name | upper }}{{ <Mark text='!'/> }}{% endblock %}";

const BASE: &[u8] =
    b"<b>{% block main %}{% endblock %}</b>{% component Mark(text) %}{{ text }}{{ body | default(value='') }}{% endcomponent %}";

fn add_site(site: &mut SiteRenderer) -> bool {
    is_done(site.put_template(b"pages/page.html", PAGE), 0)
        && is_done(site.put_template(b"base.html", BASE), 0)
        && is_done(site.put(b"pages/"), 0)
        && is_done(site.set_fallback_prefixes(), 0)
        && is_done(site.put(b".html"), 0)
        && is_done(site.autoescape_on(), 0)
        && is_done(site.put_globals(b"{\"greeting\": \"Hello\"}"), 0)
        && is_done(site.add(), 0)
}

fn renders_pages(site: &mut SiteRenderer) -> bool {
    is_done(site.render(b"page.html", b"{\"name\": \"<x>\"}"), 23)
        && has_text(site, 0, "<b>Hello &lt;X&gt;!</b>")
        && is_done(
            site.render_block(b"page.html", b"main", b"{\"name\": \"<x>\"}"),
            16,
        )
        && has_text(site, 0, "Hello &lt;X&gt;!")
        && is_done(site.render_text(b"{{ 1 + n }}", b"{\"n\": 2}", true), 1)
        && has_text(site, 0, "3")
        && !has_text(site, 1, "")
}

fn renders_components(site: &mut SiteRenderer) -> bool {
    let component = ComponentBytes {
        name: b"Mark",
        arguments: b"{\"text\": \"<\"}",
        implicits: b"{}",
        body: Some(b"<i>"),
        autoescape: true,
    };
    is_done(site.render_component(component), 7) && has_text(site, 0, "&lt;<i>")
}

fn lists_names(site: &mut SiteRenderer) -> bool {
    is_done(site.template_names(), 2)
        && has_text(site, 0, "base.html")
        && has_text(site, 1, "pages/page.html")
        && is_done(site.component_names(), 1)
        && has_text(site, 0, "Mark")
        && is_done(site.template_variables(b"page.html"), 2)
        && has_text(site, 0, "greeting")
        && has_text(site, 1, "name")
}

fn site_is_rendered(alloc: Global) -> bool {
    match renderer(alloc) {
        Some(mut site) => {
            add_site(&mut site)
                && renders_pages(&mut site)
                && renders_components(&mut site)
                && lists_names(&mut site)
        }
        None => false,
    }
}

#[test]
fn sites_are_rendered(rt: HostRuntime) {
    assert!(rt; site_is_rendered(rt.alloc()));
}

const TAGS: TagBytes<'static> = TagBytes {
    block_start: b"<%",
    block_end: b"%>",
    variable_start: b"<<",
    variable_end: b">>",
    comment_start: b"<#",
    comment_end: b"#>",
};

fn other_tags_are_read(alloc: Global) -> bool {
    match renderer(alloc) {
        Some(mut site) => {
            is_done(site.set_delimiters(TAGS), 0)
                && is_done(
                    site.render_text(b"<% if true %><< 1 >><# no #><% endif %>", b"{}", true),
                    1,
                )
                && has_text(&site, 0, "1")
        }
        None => false,
    }
}

#[test]
fn delimiters_are_set(rt: HostRuntime) {
    assert!(rt; other_tags_are_read(rt.alloc()));
}
