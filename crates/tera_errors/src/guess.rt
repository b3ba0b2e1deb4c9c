// Names that may be meant in the place of one that is misspelled.
use std::alloc::{AllocError, Global};
use strsim::osa_distance;

/// As many letters may differ at most.
const MOST: usize = 2;

/// The most bytes of a name that is guessed at: the distance of two long names would take long to reckon.
const LONGEST: usize = 64;

/// The nearest of the names that were tried, if one is near.
#[derive(Drop)]
pub struct Guess<'a> {
    alloc: Global,
    wanted: &'a str,
    name: Option<String>,
    distance: usize,
}

impl<'a> Guess<'a> {
    /// None yet.
    pub fn new(alloc: Global, wanted: &'a str) -> Guess<'a> {
        Guess {
            alloc,
            wanted,
            name: None,
            distance: MOST + 1,
        }
    }

    /// Tries a name that is there.
    pub fn add(&mut self, name: &str) -> Result<(), AllocError> {
        if self.wanted.len() > LONGEST || name.len().abs_diff(self.wanted.len()) > 4 * MOST {
            return Ok(());
        }
        let distance = osa_distance(self.alloc, self.wanted, name)?;
        if distance < self.distance && distance < name.len() {
            self.name = Some(String::from_str(self.alloc, name)?);
            self.distance = distance;
        }
        Ok(())
    }

    /// The nearest of them, if one is near.
    pub fn name(&self) -> Option<&str> {
        match &self.name {
            Some(name) => Some(name.as_str()),
            None => None,
        }
    }

    /// Puts it behind what was said of the name.
    pub fn put(&self, words: &mut String) -> Result<(), AllocError> {
        match &self.name {
            Some(name) => {
                words.push_str(" (is `")?;
                words.push_str(name.as_str())?;
                words.push_str("` meant?)")?;
                Ok(())
            }
            None => Ok(()),
        }
    }
}
