//! Pictures of histories and claims about them.
#![tactic(auto)]

mod bands;
mod canvas;
mod captions;
mod claim;
mod columns;
mod drawn;
mod laws;
mod line;
mod lookup;
mod names;
mod pending;
mod scene;
mod signs;
mod terminal;

pub use bands::{Band, Head, form_words, head_words};
pub use canvas::Scene;
pub use captions::{headline, push_caption};
pub use claim::{count_of_lines, shown_by};
pub use columns::{Columns, MOST_DRAWN, digits, label_width};
pub use drawn::{drawn_operations, is_away};
pub use laws::{
    bars_are_the_operations, effects_rise_within_bars, lanes_stand_apart,
    lines_of_evidence_are_drawn, names_are_of_one_value, numbers_are_those_of_the_claim,
    rows_stand_in_time, what_matters_is_drawn,
};
pub use line::{Added, push_line};
pub use lookup::{place_in, place_of};
pub use names::initial_label;
pub use pending::is_pending;
pub use scene::{Row, lanes_before, row_number, scene_of, ticket_width, ticket_words, way_in};
pub use signs::{Sign, meaning, signs_of};
pub use terminal::{kind_word, label_of, numbered, push_told, terminal_picture};
