//! The tokens that are left to read.
ghost use Rattle.std.specs.Prelude.{◌≡◌, ◌+◌, [], length, drop, IsTrue, ◌↔◌};
ghost use Rattle.std.specs.Option.{option_copied};
ghost use Rattle.expr_forms.specs.Looks as spec;
ghost use Rattle.expr_forms.specs.Tokens.{tokens_of};

use kumir_tree::{Key, Sign, Spanned, Token};
use std::marker::Model;

#[tactic(auto, unfolding(crate::specs::Looks::same_sign))]
fn same_sign(a: Sign, b: Sign) -> bool
    ensures { result ≡ spec.same_sign a b }
{
    a == b
}

#[tactic(auto, unfolding(crate::specs::Looks::same_key))]
fn same_key(a: Key, b: Key) -> bool
    ensures { result ≡ spec.same_key a b }
{
    a == b
}

/// The tokens that are left to read.
#[derive(Drop)]
pub struct Cursor<'a> {
    rest: &'a [Spanned],
}

impl<'a> Model for Cursor<'a> {
    ghost use Rattle.std.specs.Prelude.{List};
    ghost use Rattle.kumir_tree.specs.declared.token.Token.{Token};

    ghost Value = { List Token };

    ghost use Rattle.expr_forms.specs.Tokens.{tokens_of};

    ghost view = { λ c. tokens_of c.rest.now };
}

impl<'a> Cursor<'a> {
    pub fn new(rest: &'a [Spanned]) -> Cursor<'a>
        ensures { result ≡ tokens_of rest.now }
    {
        Cursor { rest }
    }

    pub fn len(&self) -> usize
        ensures { result ≡ length self.now }
    {
        self.rest.len()
    }

    /// More than brackets can nest in the tokens.
    pub fn nesting(&self) -> usize
        ensures { result ≡ length self.now + 1 }
    {
        self.rest.len() + 1
    }

    pub fn is_empty(&self) -> bool
        ensures { IsTrue result ↔ (self.now ≡ []) }
    {
        self.rest.is_empty()
    }

    pub fn first(&self) -> Option<&'a Token>
        ensures { option_copied result ≡ spec.first self.now }
    {
        match self.rest.first() {
            Some(spanned) => Some(&spanned.token),
            None => None,
        }
    }

    /// Whether the sign comes next.
    pub fn sees(&self, sign: Sign) -> bool
        ensures { result ≡ spec.sees sign self.now }
    {
        match self.first() {
            Some(Token::Sign(found)) => same_sign(*found, sign),
            _ => false,
        }
    }

    fn sees_key(&self, key: Key) -> bool
        ensures { result ≡ spec.sees_key key self.now }
    {
        match self.first() {
            Some(Token::Key(found)) => same_key(*found, key),
            _ => false,
        }
    }

    /// Takes the sign, if it comes next.
    pub fn eat(&mut self, sign: Sign) -> bool
        ensures found { result ≡ spec.sees sign self.old }
        ensures rest { self.new ≡ spec.behind (spec.sees sign self.old) self.old }
    {
        let found = self.sees(sign);
        if found {
            self.skip();
        }
        found
    }

    /// Takes the keyword, if it comes next.
    pub fn eat_key(&mut self, key: Key) -> bool
        ensures found { result ≡ spec.sees_key key self.old }
        ensures rest { self.new ≡ spec.behind (spec.sees_key key self.old) self.old }
    {
        let found = self.sees_key(key);
        if found {
            self.skip();
        }
        found
    }

    /// Passes over the first token, if there is one.
    pub fn skip(&mut self)
        ensures { self.new ≡ drop 1 self.old }
    {
        if !self.rest.is_empty() {
            self.rest = &self.rest[1..];
        }
    }
}
