//! The Robot on its field of cells (docs/LANGUAGE.md, "Performers").
#![tactic(auto)]

mod field;
mod laws;
mod side;
mod text;

pub use field::{Field, FieldRefusal};
pub use laws::{cells_are_sets, each_text_is_answered, robot_goes_on, walls_have_two_sides};
