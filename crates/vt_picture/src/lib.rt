//! A screen as a picture: a text in SVG, with the screen's characters, colours and cursor.
#![tactic(auto)]

mod adding;
mod characters;
mod colours;
mod cursor;
mod drawing;
mod head;
mod letters;
mod rows;
mod runs;

pub use drawing::picture;
