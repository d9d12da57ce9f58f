//! Slots, units and lines that an instruction names, and whether they have the shape that it needs.
ghost use Rattle.std.specs.Prelude.{◌≡◌, ◌<◌, Some, slice_get, option_map, length, IfSome};
ghost use Rattle.stack_code.specs.Operands.{value_kind, element_kind};
ghost use Rattle.stack_code.specs.Validity.{is_scalar, is_scalar_of, is_hidden, is_table, is_table_of, is_param, is_call};

use crate::instruction::{CodeLine, Instruction};
use crate::unit::{CodeUnit, Shape};
use kumir_tree::Kind;

/// The shape of a slot, if it is there.
pub fn shape_at(slots: &[Shape], slot: u32) -> Option<Shape>
    ensures { result ≡ slice_get slots.now slot }
{
    slots.get(slot as usize).copied()
}

/// The unit of a number, if it is there.
pub fn unit_of(units: &[CodeUnit], number: u32) -> Option<&CodeUnit>
    ensures { option_map (λ u. u.now) result ≡ slice_get units.now number }
{
    units.get(number as usize)
}

/// The line at a place of a body, if it is there.
pub fn line_at(body: &[CodeLine], place: usize) -> Option<&CodeLine>
    ensures line { option_map (λ l. l.now) result ≡ slice_get body.now place }
    ensures within { IfSome result (λ l. place < length body.now) }
{
    body.get(place)
}

/// Whether it is a call.
pub fn is_call_line(line: &CodeLine) -> bool
    ensures { result ≡ is_call (Some line.now) }
{
    matches!(line.what, Instruction::Call(_, _))
}

/// The kind of the value that a slot holds; an index is a number.
pub fn value_kind_of(shape: Option<Shape>) -> Option<Kind>
    ensures { result ≡ value_kind shape }
{
    match shape {
        Some(Shape::Scalar(kind)) => Some(kind),
        Some(Shape::Hidden) => Some(Kind::Whole),
        Some(Shape::Table(_, _)) | None => None,
    }
}

/// The kind of the elements of a table.
pub fn element_kind_of(shape: Option<Shape>) -> Option<Kind>
    ensures { result ≡ element_kind shape }
{
    match shape {
        Some(Shape::Table(kind, _)) => Some(kind),
        Some(Shape::Scalar(_)) | Some(Shape::Hidden) | None => None,
    }
}

/// Whether it is a variable that is no table.
pub fn is_scalar_shape(shape: Option<Shape>) -> bool
    ensures { result ≡ is_scalar shape }
{
    match shape {
        Some(Shape::Scalar(_)) => true,
        Some(Shape::Table(_, _)) | Some(Shape::Hidden) | None => false,
    }
}

/// Whether it is a variable of this kind that is no table.
pub fn is_scalar_shape_of(wanted: Kind, shape: Option<Shape>) -> bool
    ensures { result ≡ is_scalar_of wanted shape }
{
    match shape {
        Some(Shape::Scalar(kind)) => wanted.is(kind),
        Some(Shape::Table(_, _)) | Some(Shape::Hidden) | None => false,
    }
}

/// Whether it is a hidden slot.
pub fn is_hidden_shape(shape: Option<Shape>) -> bool
    ensures { result ≡ is_hidden shape }
{
    match shape {
        Some(Shape::Hidden) => true,
        Some(Shape::Scalar(_)) | Some(Shape::Table(_, _)) | None => false,
    }
}

/// Whether it is a table with this number of bounds.
pub fn is_table_shape(bounds: u32, shape: Option<Shape>) -> bool
    ensures { result ≡ is_table bounds shape }
{
    match shape {
        Some(Shape::Table(_, count)) => bounds == count,
        Some(Shape::Scalar(_)) | Some(Shape::Hidden) | None => false,
    }
}

/// Whether it is a table of this kind with this number of bounds.
pub fn is_table_shape_of(wanted: Kind, bounds: usize, shape: Option<Shape>) -> bool
    ensures { result ≡ is_table_of wanted bounds shape }
{
    match shape {
        Some(Shape::Table(kind, count)) => wanted.is(kind) && bounds == count as usize,
        Some(Shape::Scalar(_)) | Some(Shape::Hidden) | None => false,
    }
}

/// Whether a parameter can stand in it.
pub fn is_param_shape(shape: Option<Shape>) -> bool
    ensures { result ≡ is_param shape }
{
    match shape {
        Some(Shape::Scalar(_)) | Some(Shape::Table(_, _)) => true,
        Some(Shape::Hidden) | None => false,
    }
}
