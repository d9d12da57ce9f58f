//! Open brackets.

ghost use Rattle.std.specs.Prelude.{◌≡◌, ◌≤◌, ◌↔◌, IsTrue};
ghost use Rattle.expr_forms.specs.Brackets.{open_after, IsDeep};
ghost use Rattle.expr_forms.specs.Tokens.{tokens_of};

use km_base::limits::OPEN_BRACKETS;
use kumir_tree::{Sign, Spanned, Token};

// How many brackets are open behind a token.
fn open_after(open_before: usize, token: &Token) -> usize
    requires { open_before ≤ 100 }
    ensures { result ≡ open_after open_before token.now }
{
    match token {
        Token::Sign(Sign::Open) => open_before + 1,
        Token::Sign(Sign::OpenSquare) => open_before + 1,
        Token::Sign(Sign::Close) => open_before.saturating_sub(1),
        Token::Sign(Sign::CloseSquare) => open_before.saturating_sub(1),
        _ => open_before,
    }
}

/// Whether more brackets are open at some place than a piece may have.
pub fn is_deep(tokens: &[Spanned]) -> bool
    ensures { IsTrue result ↔ IsDeep (tokens_of tokens.now) }
{
    let mut open_brackets = 0;
    for spanned in tokens {
        open_brackets = open_after(open_brackets, &spanned.token);
        if open_brackets > OPEN_BRACKETS {
            return true;
        }
    }
    false
}
