// Small texts, what they spell, and the tests that read them.

mod applications;
mod components;
mod includes;
mod nests;
mod positions;
mod readings;
mod rows;
mod sections;
mod trees_in_words;
