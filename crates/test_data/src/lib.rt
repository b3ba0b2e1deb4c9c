//! Tests of data as values: each call once with ample memory, and the rows that show what a text of JSON, of TOML or of CSV spells.
#![tactic(auto)]

#[cfg(test)]
mod checks;
#[cfg(test)]
mod contexts;
#[cfg(test)]
mod csvs;
#[cfg(test)]
mod told;
#[cfg(test)]
mod tomls;
#[cfg(test)]
mod values;
#[cfg(test)]
mod words;
