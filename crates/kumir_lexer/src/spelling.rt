//! How keywords and signs are spelled (docs/LANGUAGE.md, "Tokens").

ghost use Rattle.std.specs.Prelude.{◌≡◌, map};
ghost use Rattle.kumir_lexer.specs.Spelling as spelling;

use kumir_tree::{Key, Sign};

/// Every keyword with its spelling.
pub const KEYWORDS: [(&[char], Key); 48] = [
    (&['а', 'л', 'г'], Key::Algorithm),
    (&['д', 'а', 'н', 'о'], Key::Given),
    (&['н', 'а', 'д', 'о'], Key::Wanted),
    (&['н', 'а', 'ч'], Key::Begin),
    (&['к', 'о', 'н'], Key::Finish),
    (&['н', 'ц'], Key::Loop),
    (&['к', 'ц'], Key::LoopEnd),
    (&['к', 'ц', '_', 'п', 'р', 'и'], Key::LoopEndWhen),
    (&['р', 'а', 'з'], Key::Times),
    (&['п', 'о', 'к', 'а'], Key::While),
    (&['д', 'л', 'я'], Key::For),
    (&['о', 'т'], Key::From),
    (&['д', 'о'], Key::To),
    (&['ш', 'а', 'г'], Key::Step),
    (&['е', 'с', 'л', 'и'], Key::If),
    (&['т', 'о'], Key::Then),
    (&['и', 'н', 'а', 'ч', 'е'], Key::Otherwise),
    (&['в', 'с', 'е'], Key::ChoiceEnd),
    (&['в', 'ы', 'б', 'о', 'р'], Key::Select),
    (&['п', 'р', 'и'], Key::When),
    (&['у', 'т', 'в'], Key::Assert),
    (&['в', 'в', 'о', 'д'], Key::Input),
    (&['в', 'ы', 'в', 'о', 'д'], Key::Output),
    (&['н', 'с'], Key::NewLine),
    (&['в', 'ы', 'х', 'о', 'д'], Key::Leave),
    (&['с', 'т', 'о', 'п'], Key::Quit),
    (&['ц', 'е', 'л'], Key::Whole),
    (&['л', 'о', 'г'], Key::Truth),
    (&['с', 'и', 'м'], Key::Char),
    (&['л', 'и', 'т'], Key::Text),
    (&['т', 'а', 'б'], Key::Table),
    (&['ц', 'е', 'л', 'т', 'а', 'б'], Key::WholeTable),
    (&['л', 'о', 'г', 'т', 'а', 'б'], Key::TruthTable),
    (&['с', 'и', 'м', 'т', 'а', 'б'], Key::CharTable),
    (&['л', 'и', 'т', 'т', 'а', 'б'], Key::TextTable),
    (&['а', 'р', 'г'], Key::Arg),
    (&['р', 'е', 'з'], Key::Res),
    (&['а', 'р', 'г', 'р', 'е', 'з'], Key::ArgRes),
    (&['з', 'н', 'а', 'ч'], Key::Result),
    (&['д', 'а'], Key::Yes),
    (&['н', 'е', 'т'], Key::No),
    (&['и'], Key::And),
    (&['и', 'л', 'и'], Key::Or),
    (&['н', 'е'], Key::Not),
    (
        &['и', 'с', 'п', 'о', 'л', 'ь', 'з', 'о', 'в', 'а', 'т', 'ь'],
        Key::Uses,
    ),
    (&['и', 'с', 'п'], Key::Performer),
    (&['к', 'о', 'н', '_', 'и', 'с', 'п'], Key::PerformerEnd),
    (&['п', 'а', 'у', 'з', 'а'], Key::Pause),
];

/// Every sign with its spellings. Where a sign has two, it is printed in the first.
pub const SIGNS: [(&[char], Sign); 21] = [
    (&[':', '='], Sign::Assign),
    (&[':'], Sign::Colon),
    (&['='], Sign::Equal),
    (&['<', '>'], Sign::NotEqual),
    (&['<', '='], Sign::LessOrEqual),
    (&['>', '='], Sign::GreaterOrEqual),
    (&['<'], Sign::Less),
    (&['>'], Sign::Greater),
    (&['+'], Sign::Plus),
    (&['-'], Sign::Minus),
    (&['*'], Sign::Times),
    (&['*', '*'], Sign::Power),
    (&['('], Sign::Open),
    (&[')'], Sign::Close),
    (&['['], Sign::OpenSquare),
    (&[']'], Sign::CloseSquare),
    (&[','], Sign::Comma),
    (&[';'], Sign::Semicolon),
    (&['≤'], Sign::LessOrEqual),
    (&['≥'], Sign::GreaterOrEqual),
    (&['≠'], Sign::NotEqual),
];

fn meaning<T: Copy>(mut table: &[(&[char], T)], text: &[char]) -> Option<T>
    ensures { result ≡ spelling.meaning (map (λ e. (e.0.now, e.1)) table.entry.now) text.now }
{
    while let [entry, rest @ ..] = table {
        if entry.0 == text {
            return Some(entry.1);
        }
        table = rest;
    }
    None
}

/// The keyword that the text is, if it is one.
#[tactic(auto, unfolding(crate::specs::Spelling::key_of))]
pub fn key_of(text: &[char]) -> Option<Key>
    ensures { result ≡ spelling.key_of text.now }
{
    meaning(&KEYWORDS, text)
}

/// The sign that the text is, if it is one.
#[tactic(auto, unfolding(crate::specs::Spelling::sign_of))]
pub fn sign_of(text: &[char]) -> Option<Sign>
    ensures { result ≡ spelling.sign_of text.now }
{
    meaning(&SIGNS, text)
}

/// The spelling of a keyword.
#[tactic(auto, unfolding(crate::specs::Spelling::key_spelling))]
pub fn key_spelling(key: Key) -> &'static [char]
    ensures { result.now ≡ spelling.key_spelling key }
{
    let mut table = KEYWORDS.as_slice();
    while let [entry, rest @ ..] = table {
        if key == entry.1 {
            return entry.0;
        }
        table = rest;
    }
    &[]
}

/// The spelling in which a sign is printed.
#[tactic(auto, unfolding(crate::specs::Spelling::sign_spelling))]
pub fn sign_spelling(sign: Sign) -> &'static [char]
    ensures { result.now ≡ spelling.sign_spelling sign }
{
    let mut table = SIGNS.as_slice();
    while let [entry, rest @ ..] = table {
        if sign == entry.1 {
            return entry.0;
        }
        table = rest;
    }
    &[]
}
