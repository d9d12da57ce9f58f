//! Tokens of a line.

use crate::names::{Chars, Name};
use sqlite_items::Items;

/// A keyword, with its spelling.
#[derive(Clone, Copy, Debug, PartialEq, Eq)]
pub enum Key {
    /// `алг`
    Algorithm,
    /// `дано`
    Given,
    /// `надо`
    Wanted,
    /// `нач`
    Begin,
    /// `кон`
    Finish,
    /// `нц`
    Loop,
    /// `кц`
    LoopEnd,
    /// `кц_при`
    LoopEndWhen,
    /// `раз`
    Times,
    /// `пока`
    While,
    /// `для`
    For,
    /// `от`
    From,
    /// `до`
    To,
    /// `шаг`
    Step,
    /// `если`
    If,
    /// `то`
    Then,
    /// `иначе`
    Otherwise,
    /// `все`
    ChoiceEnd,
    /// `выбор`
    Select,
    /// `при`
    When,
    /// `утв`
    Assert,
    /// `ввод`
    Input,
    /// `вывод`
    Output,
    /// `нс`
    NewLine,
    /// `выход`
    Leave,
    /// `стоп`
    Quit,
    /// `цел`
    Whole,
    /// `лог`
    Truth,
    /// `сим`
    Char,
    /// `лит`
    Text,
    /// `таб`
    Table,
    /// `целтаб`
    WholeTable,
    /// `логтаб`
    TruthTable,
    /// `симтаб`
    CharTable,
    /// `литтаб`
    TextTable,
    /// `арг`
    Arg,
    /// `рез`
    Res,
    /// `аргрез`
    ArgRes,
    /// `знач`
    Result,
    /// `да`
    Yes,
    /// `нет`
    No,
    /// `и`
    And,
    /// `или`
    Or,
    /// `не`
    Not,
    /// `использовать`
    Uses,
    /// `исп`
    Performer,
    /// `кон_исп`
    PerformerEnd,
    /// `пауза`
    Pause,
}

/// A sign.
#[derive(Clone, Copy, Debug, PartialEq, Eq)]
pub enum Sign {
    /// `:=`
    Assign,
    /// `:`
    Colon,
    /// `=`
    Equal,
    /// `<>`
    NotEqual,
    /// `<=`
    LessOrEqual,
    /// `>=`
    GreaterOrEqual,
    /// `<`
    Less,
    /// `>`
    Greater,
    /// `+`
    Plus,
    /// `-`
    Minus,
    /// `*`
    Times,
    /// `**`
    Power,
    /// `(`
    Open,
    /// `)`
    Close,
    /// `[`
    OpenSquare,
    /// `]`
    CloseSquare,
    /// `,`
    Comma,
    /// `;`
    Semicolon,
}

/// A token (docs/LANGUAGE.md, "Tokens").
#[derive(Debug, Drop)]
pub enum Token {
    Key(Key),
    Named(Name),
    Number(i32),
    Literal(Chars),
    Sign(Sign),
}

/// A token, and the characters from place `from` to before place `to` that it is made of.
#[derive(Debug, Drop)]
pub struct Spanned {
    pub token: Token,
    pub from: u32,
    pub to: u32,
}

pub type Tokens = Items<Spanned>;
