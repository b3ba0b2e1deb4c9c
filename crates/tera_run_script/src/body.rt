// The bodies of commands.
ghost use Rattle.std.specs.Prelude.{◌≡◌, MatchOption, None};
ghost use Rattle.tera_run_script.specs.Body.{Ended, IsBody};
ghost use Rattle.tera_run_script.specs.Lines.{lines_of};
ghost use Rattle.tera_run_script.specs.Script.{body_lines};

/// The line that ends a body.
const END: &str = "@@ end";

/// A body, the number of its lines with the one that ends it, and what follows that line.
#[derive(Clone, Copy)]
pub struct CommandBody<'a> {
    pub text: &'a str,
    pub lines: usize,
    pub rest: &'a str,
}

/// The body that the text begins with, where a line ends it.
pub fn first_body(text: &str) -> Option<CommandBody<'_>>
    ensures { MatchOption result (body_lines (lines_of text.now) ≡ None) (IsBody text.now) }
{
    let mut after = text;
    let mut lines = 0;
    while let Some((line, rest)) = after.split_once('\n') {
        if line == END {
            return Some(cut_body(text, after, lines, rest));
        }
        after = rest;
        lines += 1;
    }
    if after == END {
        return Some(cut_body(text, after, lines, ""));
    }
    None
}

/// What stands before the lines from `after` on, without the line feed behind it.
fn cut_body<'a>(text: &'a str, after: &str, lines: usize, rest: &'a str) -> CommandBody<'a>
    requires { Ended text.now after.now lines rest.now }
    ensures { IsBody text.now result }
{
    let taken = text.len() - after.len();
    CommandBody {
        text: &text[..taken.saturating_sub(1)],
        lines: lines + 1,
        rest,
    }
}
