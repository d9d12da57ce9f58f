//! A list of named things is searched for a name.

ghost use Rattle.std.specs.Prelude.{◌≡◌, ℕ, List};
ghost use Rattle.std.specs.Str.{chars, bytes_eq};
ghost use Rattle.performer_kit.specs.Names.{first_named};

/// Something with a name.
pub trait Named {
    /// The characters of the name.
    ghost name: { Self → List ℕ };

    fn text(self) -> &'static str
        ensures { chars result.now ≡ name self };
}

/// A name that is looked up.
pub trait Spelled {
    /// Its characters.
    ghost spelling: { Self → List ℕ };

    fn is(&self, text: &str) -> bool
        ensures { result ≡ bytes_eq (chars text.now) (spelling self.now) };
}

/// A name as a text.
#[derive(Clone, Copy)]
pub struct Text<'a>(pub &'a str);

impl Spelled for Text<'_> {
    ghost spelling = { λ t. chars t.0.now };

    fn is(&self, text: &str) -> bool {
        text.as_bytes() == self.0.as_bytes()
    }
}

/// A name as a list of characters.
#[derive(Clone, Copy)]
pub struct Characters<'a>(pub &'a [char]);

impl Spelled for Characters<'_> {
    ghost spelling = { λ t. t.0.now };

    fn is(&self, text: &str) -> bool {
        text.chars().cmp(self.0.iter().copied()).is_eq()
    }
}

/// The first of the things with that name.
pub fn find_named<T: Named + Copy, S: Spelled>(things: &[T], name: &S) -> Option<T>
    ensures { result ≡ first_named T.name things.now (S.spelling name.now) }
{
    things.iter().copied().find(|thing| name.is(thing.text()))
}
