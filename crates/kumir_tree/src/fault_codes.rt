//! The codes of the faults of a text (docs/LANGUAGE.md, "Faults").

/// A character that begins no token.
pub const BAD_CHARACTER: u16 = 101;
/// A literal without its closing quote.
pub const OPEN_LITERAL: u16 = 102;
/// A number above 2147483647.
pub const NUMBER_TOO_LARGE: u16 = 103;
/// `вещ`, `/`, or a number with a point or an exponent.
pub const REAL: u16 = 104;
/// A piece that has no form.
pub const NOT_UNDERSTOOD: u16 = 201;
/// Too many open brackets at a piece, or too many open blocks.
pub const NESTED_TOO_DEEP: u16 = 202;
/// A piece that may not stand where it does.
pub const MISPLACED: u16 = 301;
/// A unit that is not closed at its end.
pub const NOT_CLOSED: u16 = 302;
/// A local name that is declared again.
pub const DECLARED_TWICE: u16 = 401;
/// A name that stands for nothing.
pub const UNKNOWN_NAME: u16 = 402;
/// A piece whose types do not fit.
pub const TYPES_DO_NOT_FIT: u16 = 403;
/// A header whose name stands for something already.
pub const NAME_TAKEN: u16 = 404;
/// A header without a name that is not the first one.
pub const WITHOUT_NAME: u16 = 405;
/// A performer that is not known.
pub const UNKNOWN_PERFORMER: u16 = 407;

/// All of them, in rising order.
pub const FAULT_CODES: [u16; 14] = [
    BAD_CHARACTER,
    OPEN_LITERAL,
    NUMBER_TOO_LARGE,
    REAL,
    NOT_UNDERSTOOD,
    NESTED_TOO_DEEP,
    MISPLACED,
    NOT_CLOSED,
    DECLARED_TWICE,
    UNKNOWN_NAME,
    TYPES_DO_NOT_FIT,
    NAME_TAKEN,
    WITHOUT_NAME,
    UNKNOWN_PERFORMER,
];
