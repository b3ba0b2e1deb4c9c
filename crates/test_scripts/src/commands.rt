// The commands of a script, each with its body.
use std::alloc::{AllocError, Global};

fn is_command(line: &str) -> bool {
    line.starts_with("@@ ") && !line.starts_with("@@ end")
}

// A line that is no command belongs to the last one.
fn add_line(alloc: Global, commands: &mut Vec<String>, line: &str) -> Result<(), AllocError> {
    if is_command(line) {
        commands.push(String::from_str(alloc, line)?)?;
        return Ok(());
    }
    match commands.last_mut() {
        Some(command) => command.push_str(line),
        None => Ok(()),
    }
}

/// The commands, in their order. No body of an example has a line that looks like a command.
pub fn commands(alloc: Global, script: &str) -> Result<Vec<String>, AllocError> {
    let mut commands = Vec::new(alloc);
    for line in script.split_inclusive('\n') {
        add_line(alloc, &mut commands, line)?;
    }
    Ok(commands)
}
