//! Calls that an engine must not have.
use tera::Tera;

/// Implicits are an argument of `render_component` and of `render_component_to`, and no other calls
/// take them. A method of the engine's own would come before one of this trait, and it would take
/// arguments: so the calls below compile only while an engine has no methods of these names.
trait WithImplicits {
    fn render_component_with_implicits(&self) -> bool;

    fn render_component_with_implicits_to(&self) -> bool;
}

impl WithImplicits for Tera {
    fn render_component_with_implicits(&self) -> bool {
        true
    }

    fn render_component_with_implicits_to(&self) -> bool {
        true
    }
}

fn are_absent(engine: &Tera) -> bool {
    engine.render_component_with_implicits() && engine.render_component_with_implicits_to()
}

#[test]
fn implicits_have_no_call_of_their_own(rt: HostRuntime) {
    let is_right = match Tera::new(rt.alloc()) {
        Ok(engine) => are_absent(&engine),
        Err(_) => false,
    };
    assert!(rt; is_right);
}
