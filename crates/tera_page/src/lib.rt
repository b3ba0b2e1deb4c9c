//! The engine for a web page: templates, data and a question in, a text or a fault out, in one call that keeps nothing. `tools/web`
//! makes of it the module that the page in `web/page` runs.
#![tactic(auto)]

mod answer;
mod export;
mod question;
mod templates;
mod texts;
