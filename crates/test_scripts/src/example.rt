// Examples and their files.
use crate::replies::replies;
use crate::trial::Trial;
use std::alloc::{AllocError, Global};
use std::{fs, io};
use test_memory::refusals_of_little;

/// The name of an example, and whether its run takes more memory than is dealt out.
#[derive(Drop)]
pub struct Example {
    pub name: String,
    pub is_large: bool,
}

/// The example that a line names.
pub fn example_of(alloc: Global, line: &str) -> Result<Example, AllocError> {
    let (name, is_large) = match line.strip_suffix(" large") {
        Some(name) => (name, true),
        None => (line, false),
    };
    Ok(Example {
        name: String::from_str(alloc, name)?,
        is_large,
    })
}

/// What the file of this name with `.stdout` behind says.
fn expected_output(rt: &HostRuntime, name: &str) -> io::Result<Vec<u8>> {
    let path = format!(in rt.alloc(); "{name}.stdout")?;
    fs::read(rt, path.as_str())
}

/// Whether the script of this name is answered as it should.
pub fn is_answered(rt: &HostRuntime, name: &str) -> io::Result<bool> {
    let script = fs::read_to_string(rt, name)?;
    let wanted = expected_output(rt, name)?;
    match replies(rt.alloc(), script.as_str()) {
        Some(given) => Ok(given == wanted),
        None => Ok(false),
    }
}

/// Whether it is so too with more and more memory, in the sense of `Trial`, until there is enough.
pub fn is_right_where_refused(rt: &HostRuntime, name: &str) -> io::Result<bool> {
    let script = fs::read_to_string(rt, name)?;
    let wanted = expected_output(rt, name)?;
    let mut trial = Trial::new(rt.alloc(), script.as_str(), wanted.as_slice())?;
    Ok(refusals_of_little(|budget| trial.try_with(budget)) > Some(0))
}
