// Renderers: each public function of `tera_renderer` once with ample memory, and rows of what they make and refuse.
mod once;
mod refusals;
mod renderings;
mod room;
