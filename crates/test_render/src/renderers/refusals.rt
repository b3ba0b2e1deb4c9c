// What is refused, and what is told of it.
use crate::renderers::room::{SiteRenderer, has_file, has_text, has_words, is_done, renderer};
use std::alloc::Global;
use tera_renderer::{Answer, Report};

fn is_refused(answer: Answer) -> bool {
    answer.status == 1 && answer.size == 0
}

fn is_no_text(site: &SiteRenderer) -> bool {
    let mut room = [b'.'; 4];
    site.copy(0, &mut room).status == 5 && room.get(..) == Some(b"....")
}

fn stands_at(report: Report, start: usize, end: usize, line: usize, column: usize) -> bool {
    report.has_span == 1
        && report.start == start
        && report.end == end
        && report.line == line
        && report.column == column
}

// A batch with a faulty text changes nothing, and none of it waits any more.
fn tells_of_syntax(site: &mut SiteRenderer) -> bool {
    is_done(site.put_template(b"good.html", b"good"), 0)
        && is_done(site.put_template(b"bad.html", b"\n{{ 1 + }}"), 0)
        && is_refused(site.add())
        && site.report().kind == 1
        && stands_at(site.report(), 8, 10, 2, 8)
        && has_file(site, "bad.html")
        && is_no_text(site)
        && is_done(site.add(), 0)
        && is_done(site.template_names(), 0)
}

fn tells_of_faults(site: &mut SiteRenderer) -> bool {
    is_done(site.put_template(b"page.html", b"{{ name }}"), 0)
        && is_done(site.add(), 0)
        && is_refused(site.render(b"page.html", b"{}"))
        && site.report().kind == 3
        && stands_at(site.report(), 3, 7, 1, 4)
        && has_file(site, "page.html")
        && is_refused(site.render(b"none.html", b"{}"))
        && site.report().kind == 7
        && site.report().has_span == 0
        && has_words(
            site,
            "there is no template `none.html`",
            "there is no template `none.html`",
        )
}

fn refuses_bytes(site: &mut SiteRenderer) -> bool {
    is_refused(site.render(b"page.html", b"[1]"))
        && site.report().kind == 2
        && is_refused(site.render(b"page.html", b"{\"n\": 1.5}"))
        && is_refused(site.render(b"\xff", b"{}"))
        && is_refused(site.put_template(b"a", b"\xff"))
        && is_refused(site.put(b"\xff"))
        && is_refused(site.put_globals(b"nothing"))
        && is_refused(site.template_variables(b"\xff"))
}

// A room that is too small stays as it is, and the size that is wanted is told.
fn tells_of_room(site: &mut SiteRenderer) -> bool {
    let mut room = [b'.'; 2];
    let is_rendered = is_done(site.render(b"page.html", b"{\"name\": \"abc\"}"), 3);
    let answer = site.copy(0, &mut room);
    is_rendered
        && answer.status == 4
        && answer.size == 3
        && room.get(..) == Some(b"..")
        && has_text(site, 0, "abc")
        && site.report().kind == 0
}

fn is_told(alloc: Global) -> bool {
    match renderer(alloc) {
        Some(mut site) => {
            tells_of_syntax(&mut site)
                && tells_of_faults(&mut site)
                && refuses_bytes(&mut site)
                && tells_of_room(&mut site)
        }
        None => false,
    }
}

#[test]
fn refusals_are_told(rt: HostRuntime) {
    assert!(rt; is_told(rt.alloc()));
}
