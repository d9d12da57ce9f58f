//! The laws of the grammar, which no code needs to run.

ghost use Rattle.expr_forms.specs.Laws.{OneExpression, OneForm, HasFormOrNone, IsDeepOrShallow};

/// A list of tokens is at most one expression.
pub fn one_expression()
    ensures { OneExpression }
{}

/// A list of tokens has at most one form.
pub fn one_form()
    ensures { OneForm }
{}

/// For each list of tokens it is decided whether it has a form, and whether too many brackets are open in it.
pub fn form_or_none()
    ensures form { HasFormOrNone }
    ensures depth { IsDeepOrShallow }
{}
