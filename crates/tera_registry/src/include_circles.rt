// Whether walks along edges between numbers come to a number twice.
ghost use Rattle.std.specs.Prelude.{◌≡◌, ◌<◌, length, IfOk};
ghost use Rattle.tera_registry.specs.Walks.{rows, circles, Closed, Explored, IsLeastCircle};

use std::alloc::{AllocError, Global};

/// The least number from which edges lead into a circle. Each edge is looked at once.
pub fn least_circle(alloc: Global, edges: &[Vec<usize>]) -> Result<Option<usize>, AllocError>
    requires { Closed (rows edges.now) }
    ensures { IfOk result (λ o. IsLeastCircle (rows edges.now) o) }
{
    let mut all_passed = vec![in alloc; 0; edges.len()]?;
    let mut all_ends = vec![in alloc; false; edges.len()]?;
    let passed = all_passed.as_mut_slice();
    let ends = all_ends.as_mut_slice();
    for from in 0..edges.len() {
        if leads_into_a_circle(alloc, edges, passed, ends, from)? {
            return Ok(Some(from));
        }
    }
    Ok(None)
}

/// Whether edges lead from a number into a circle. What is found out is kept, for further calls: of each number how many of
/// its first edges lead where all walks end, and whether all of its own do.
fn leads_into_a_circle(
    alloc: Global,
    edges: &[Vec<usize>],
    passed: &mut [usize],
    ends: &mut [bool],
    from: usize,
) -> Result<bool, AllocError>
    requires there { from < length edges.now }
    requires all_passed { length passed.old ≡ length edges.now }
    requires all_ends { length ends.old ≡ length edges.now }
    requires explored { Explored (rows edges.now) passed.old ends.old }
    ensures explored { Explored (rows edges.now) passed.new ends.new }
    ensures circles { IfOk result (λ b. b ≡ circles (rows edges.now) from) }
{
    if ends[from] {
        return Ok(false);
    }
    let mut way = Vec::new(alloc);
    let mut here = from;
    'way: loop {
        match edges[here].get(passed[here]) {
            None => {
                ends[here] = true;
                match way.pop() {
                    None => return Ok(false),
                    Some(before) => here = before,
                }
            }
            Some(&next) => {
                if ends[next] {
                    passed[here] += 1;
                } else if way.len() >= edges.len() {
                    return Ok(true);
                } else {
                    way.push(here)?;
                    here = next;
                }
            }
        }
    }
}
