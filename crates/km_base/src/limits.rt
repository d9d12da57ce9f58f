//! The limits of texts, programs, runs and scripts (docs/PROGRAM.md, "Limits").

ghost use Rattle.std.specs.Prelude.{◌≡◌};
ghost use Rattle.km_base.specs.Limits.{text_bytes, text_lines, line_characters, open_brackets, open_blocks, call_depth, table_elements, usual_steps, most_steps, script_bytes, script_line_bytes, added_lines, field_lines, field_side, newest_version};

/// Bytes of a text, with one byte counted between each two neighbouring lines.
pub const TEXT_BYTES: usize = 262_144;
/// Lines of a text.
pub const TEXT_LINES: usize = 8_192;
/// Characters of one line of a text.
pub const LINE_CHARACTERS: usize = 1_024;
/// Brackets that are open at one place of a piece.
pub const OPEN_BRACKETS: usize = 100;
/// Blocks that are open at one place of a unit.
pub const OPEN_BLOCKS: usize = 100;
/// Algorithms that are entered at one time in a run, the main one counted.
pub const CALL_DEPTH: u32 = 1_000;
/// Table elements that exist at one time in a run.
pub const TABLE_ELEMENTS: u32 = 1_000_000;
/// Steps of a run, where the command line does not say otherwise.
pub const USUAL_STEPS: u32 = 1_000_000;
/// The most steps that the command line may ask for.
pub const MOST_STEPS: u32 = 100_000_000;
/// Bytes of a session script.
pub const SCRIPT_BYTES: usize = 67_108_864;
/// Bytes of one line of a session script, without its end.
pub const SCRIPT_LINE_BYTES: usize = 4_096;
/// Lines that one edit adds.
pub const ADDED_LINES: u32 = 8_192;
/// Lines of one field text.
pub const FIELD_LINES: u32 = 65_536;
/// Cells of a field from left to right, and from top to bottom.
pub const FIELD_SIDE: u32 = 128;
/// The number of the newest version that a text can have.
pub const NEWEST_VERSION: u32 = 100_000;

/// Each limit is the number that its definition says.
pub fn limits_are()
    ensures text_bytes { TEXT_BYTES ≡ text_bytes }
    ensures text_lines { TEXT_LINES ≡ text_lines }
    ensures line_characters { LINE_CHARACTERS ≡ line_characters }
    ensures open_brackets { OPEN_BRACKETS ≡ open_brackets }
    ensures open_blocks { OPEN_BLOCKS ≡ open_blocks }
    ensures call_depth { CALL_DEPTH ≡ call_depth }
    ensures table_elements { TABLE_ELEMENTS ≡ table_elements }
    ensures usual_steps { USUAL_STEPS ≡ usual_steps }
    ensures most_steps { MOST_STEPS ≡ most_steps }
    ensures script_bytes { SCRIPT_BYTES ≡ script_bytes }
    ensures script_line_bytes { SCRIPT_LINE_BYTES ≡ script_line_bytes }
    ensures added_lines { ADDED_LINES ≡ added_lines }
    ensures field_lines { FIELD_LINES ≡ field_lines }
    ensures field_side { FIELD_SIDE ≡ field_side }
    ensures newest_version { NEWEST_VERSION ≡ newest_version }
{}
