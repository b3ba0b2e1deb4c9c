// Which templates make pages, and where those go.
use tera_job::{is_page, output_path};

#[test]
fn names_make_pages_or_none(rt: HostRuntime) {
    for (name, want) in [
        ("index.html", true),
        ("posts/tides.html", true),
        ("a_b/c_.html", true),
        ("_layout.html", false),
        ("_parts/head.html", false),
        ("posts/_draft.html", false),
        ("posts/_parts/x/y.html", false),
        ("", true),
    ] {
        assert!(rt; is_page(name) == want, "{name}");
    }
}

#[test]
fn pages_go_to_paths(rt: HostRuntime) {
    for (name, want) in [
        ("index.html", "index.html"),
        ("index.html.tera", "index.html"),
        ("index.html.j2", "index.html"),
        ("feed.xml.jinja", "feed.xml"),
        ("a.tera.tera", "a.tera"),
        ("a.tera.j2", "a.tera"),
        ("tera", "tera"),
        (".tera", ""),
    ] {
        assert!(rt; output_path(name) == want, "{name}");
    }
}
