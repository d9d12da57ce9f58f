//! The built-in algorithms.

ghost use Rattle.std.specs.Prelude.{◌≡◌};
ghost use Rattle.kumir_names.specs.BuiltIns.{built_in_name, built_in_named, built_in_arity};

/// A built-in algorithm, one for each of the names `div`, `mod`, `iabs`, `imin` and `imax`.
#[derive(Clone, Copy, Debug, PartialEq, Eq)]
pub enum BuiltIn {
    Div,
    Mod,
    Iabs,
    Imin,
    Imax,
}

const BUILT_INS: [BuiltIn; 5] = [
    BuiltIn::Div,
    BuiltIn::Mod,
    BuiltIn::Iabs,
    BuiltIn::Imin,
    BuiltIn::Imax,
];

impl BuiltIn {
    #[tactic(auto, unfolding(crate::specs::BuiltIns::built_in_name))]
    fn letters(self) -> &'static [char]
        ensures { result.now ≡ built_in_name self }
    {
        match self {
            BuiltIn::Div => &['d', 'i', 'v'],
            BuiltIn::Mod => &['m', 'o', 'd'],
            BuiltIn::Iabs => &['i', 'a', 'b', 's'],
            BuiltIn::Imin => &['i', 'm', 'i', 'n'],
            BuiltIn::Imax => &['i', 'm', 'a', 'x'],
        }
    }

    /// The built-in with that name. None comes exactly for other names.
    #[tactic(auto, unfolding(crate::specs::BuiltIns::built_in_named))]
    pub fn of_name(name: &[char]) -> Option<BuiltIn>
        ensures { result ≡ built_in_named name.now }
    {
        BUILT_INS
            .iter()
            .copied()
            .find(|built_in| built_in.letters() == name)
    }

    /// How many numbers it takes.
    pub fn arity(self) -> usize
        ensures { result ≡ built_in_arity self }
    {
        match self {
            BuiltIn::Iabs => 1,
            BuiltIn::Div | BuiltIn::Mod | BuiltIn::Imin | BuiltIn::Imax => 2,
        }
    }
}
