//! Pictures of histories and claims about them, as SVG documents.
#![tactic(auto)]

mod bands;
mod bars;
mod canvas;
mod elements;
mod html;
mod lanes;
mod laws;
mod layout;
mod lines;
mod markup;
mod page;
mod picture;
mod rows;
mod signs;
mod words;

pub use html::html_picture;
pub use laws::{bars_overlap_as_operations_do, pictures_are_well_formed, svg_lanes_stand_apart};
pub use picture::svg_picture;
