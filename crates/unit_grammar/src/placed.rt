//! Forms with their lines.

use kumir_tree::Form;

/// A form and its line.
#[derive(Drop)]
pub struct PlacedForm {
    pub line: u32,
    pub form: Form,
}
