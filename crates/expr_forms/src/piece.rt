//! The form of a piece.
ghost use Rattle.std.specs.Prelude.{◌≡◌, ◌≢◌, ◌↔◌, [], Err, IfOk, IsOk};
ghost use Rattle.kumir_tree.specs.Pieces.{piece_of};
ghost use Rattle.expr_forms.specs.Answers.{IsShallow, HasForm, HasNoForm};
ghost use Rattle.expr_forms.specs.Brackets.{IsDeep};
ghost use Rattle.expr_forms.specs.Forms.{IsForm};
ghost use Rattle.expr_forms.specs.Tokens.{tokens_of};
ghost use Rattle.expr_forms.specs.declared.fault.PieceFault.TheVariants.{Memory, NotUnderstood, TooDeep};

use crate::brackets::is_deep;
use crate::fault::PieceFault;
use crate::forms::whole_form;
use kumir_tree::{Form, Spanned};
use std::alloc::Global;

/// Answers the form of a piece, given by all of its tokens (docs/LANGUAGE.md, "Forms"). A header has the line 0.
///
/// `TooDeep` comes where more than 100 brackets are open at some place, whatever else is wrong, and `NotUnderstood`
/// where that is not so and the tokens have no form.
pub fn read_piece(alloc: Global, tokens: &[Spanned]) -> Result<Form, PieceFault>
    requires { tokens.now ≢ [] }
    // What is answered is the form of the tokens.
    ensures form { IfOk result (λ f. IsForm (tokens_of tokens.now) (piece_of f)) }
    // Where memory is not wanted, there is an answer exactly for tokens with a form and without too many open brackets,
    ensures understood { result ≢ Err Memory → (IsOk result ↔ (IsShallow (tokens_of tokens.now) × HasForm (tokens_of tokens.now))) }
    // `TooDeep` exactly for those with too many open brackets,
    ensures too_deep { result ≢ Err Memory → ((result ≡ Err TooDeep) ↔ IsDeep (tokens_of tokens.now)) }
    // and `NotUnderstood` exactly for those that are neither.
    ensures not_understood { result ≢ Err Memory → ((result ≡ Err NotUnderstood) ↔ (IsShallow (tokens_of tokens.now) × HasNoForm (tokens_of tokens.now))) }
{
    if is_deep(tokens) {
        return Err(PieceFault::TooDeep);
    }
    whole_form(alloc, tokens)
}
