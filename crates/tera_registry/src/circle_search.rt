// A circle of templates that extend or include one another.
use std::alloc::{AllocError, Global};

/// How far a template is known.
#[derive(Clone, Copy)]
enum VisitState {
    New,
    /// It is on the way.
    Open,
    /// No circle is found behind it.
    Closed,
}

/// A walk from template to template that goes on as far as it can, and then back.
#[derive(Drop)]
struct CircleSearch<'a> {
    edges: &'a [Vec<usize>],
    standings: Vec<VisitState>,
    /// How many edges of each template the walk went along.
    tried: Vec<usize>,
    way: Vec<usize>,
    /// The template at which the next way begins.
    start: usize,
}

/// What a step comes to.
enum Step {
    On,
    /// Every template was visited.
    End,
    /// The way comes back to this template.
    Back(usize),
}

/// A circle, if there is one: templates of which each has an edge to the next one, and the last to the first. The first is the one that
/// stands before the others.
pub(crate) fn circle_of(
    alloc: Global,
    edges: &[Vec<usize>],
) -> Result<Option<Vec<usize>>, AllocError> {
    let mut walk = CircleSearch {
        edges,
        standings: vec![in alloc; VisitState::New; edges.len()]?,
        tried: vec![in alloc; 0; edges.len()]?,
        way: Vec::new(alloc),
        start: 0,
    };
    for _step in 0..most_steps(edges) {
        match walk.step()? {
            Step::On => {}
            Step::End => return Ok(None),
            Step::Back(position) => return Ok(Some(part_from(alloc, &walk.way, position)?)),
        }
    }
    Ok(None)
}

// A walk comes to each template, leaves each one, and goes along each edge, once.
fn most_steps(edges: &[Vec<usize>]) -> usize {
    let mut steps: usize = 1;
    for ends in edges.iter() {
        steps = steps.saturating_add(3).saturating_add(ends.len());
    }
    steps
}

impl CircleSearch<'_> {
    fn step(&mut self) -> Result<Step, AllocError> {
        let Some(here) = self.way.last() else {
            return self.begin();
        };
        let here = *here;
        match self.next(here) {
            Some(next) => self.go_to(next),
            None => {
                self.put(here, VisitState::Closed);
                self.way.pop();
                Ok(Step::On)
            }
        }
    }

    // Begins a way at the next template.
    fn begin(&mut self) -> Result<Step, AllocError> {
        let start = self.start;
        if start >= self.edges.len() {
            return Ok(Step::End);
        }
        self.start += 1;
        match self.standings.get(start) {
            Some(VisitState::New) => self.go_to(start),
            _ => Ok(Step::On),
        }
    }

    // The end of the next edge of a template.
    fn next(&mut self, here: usize) -> Option<usize> {
        let tried = self.tried.get_mut(here)?;
        let edge = *tried;
        *tried = edge.saturating_add(1);
        match self.edges.get(here)?.get(edge) {
            Some(next) => Some(*next),
            None => None,
        }
    }

    fn go_to(&mut self, next: usize) -> Result<Step, AllocError> {
        match self.standings.get(next) {
            Some(VisitState::New) => {
                self.put(next, VisitState::Open);
                self.way.push(next)?;
                Ok(Step::On)
            }
            Some(VisitState::Open) => Ok(Step::Back(next)),
            _ => Ok(Step::On),
        }
    }

    fn put(&mut self, position: usize, standing: VisitState) {
        if let Some(known) = self.standings.get_mut(position) {
            *known = standing;
        }
    }
}

// The part of a way behind the first so many that begins at a template, from its least position on.
fn part_from(alloc: Global, way: &[usize], start: usize) -> Result<Vec<usize>, AllocError> {
    let mut circle = Vec::new(alloc);
    let mut is_behind = false;
    for position in way.iter() {
        is_behind = is_behind || *position == start;
        if is_behind {
            circle.push(*position)?;
        }
    }
    turn(&mut circle);
    Ok(circle)
}

// Turns a circle so that its least position is the first.
fn turn(circle: &mut Vec<usize>) {
    let mut least = 0;
    for (at, position) in circle.iter().enumerate() {
        if let Some(known) = circle.get(least) {
            if *position < *known {
                least = at;
            }
        }
    }
    if least < circle.len() {
        circle.as_mut_slice().rotate_left(least);
    }
}
