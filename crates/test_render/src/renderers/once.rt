// A text is rendered at once.
use crate::renderers::room::is_done;
use std::alloc::Global;
use tera_data::Floats;
use tera_filters::{NoObject, PackObjects};
use tera_renderer::{Answer, render_once};

fn render_at_once(
    alloc: Global,
    text: &[u8],
    json: &[u8],
    floats: Floats,
    room: &mut [u8],
) -> Answer {
    let objects = PackObjects::<NoObject, NoObject, NoObject>::new(alloc);
    render_once(alloc, objects, text, json, floats, true, room)
}

fn is_rendered(alloc: Global) -> bool {
    let mut room = [b'.'; 8];
    let answer = render_at_once(alloc, b"{{ a }}", b"{\"a\": 1.50}", Floats::Text, &mut room);
    is_done(answer, 4) && room.get(..) == Some(b"1.50....")
}

fn is_refused(alloc: Global) -> bool {
    let mut room = [b'.'; 4];
    render_at_once(alloc, b"{{ a }}", b"{}", Floats::Refuse, &mut room).status == 1
        && render_at_once(alloc, b"12345", b"{}", Floats::Refuse, &mut room).status == 4
        && room.get(..) == Some(b"....")
}

#[test]
fn texts_are_rendered_at_once(rt: HostRuntime) {
    assert!(rt; is_rendered(rt.alloc()));
    assert!(rt; is_refused(rt.alloc()));
}
