//! Tests of jobs over memory, of folders and of renderers: each public function of `tera_job`, `tera_folders` and `tera_renderer` once with
//! ample memory, and rows of what they make and refuse.
#![tactic(auto)]

#[cfg(test)]
mod data_over_data;
#[cfg(test)]
mod failing;
#[cfg(test)]
mod folders;
#[cfg(test)]
mod paths;
#[cfg(test)]
mod renderers;
#[cfg(test)]
mod tasks;
