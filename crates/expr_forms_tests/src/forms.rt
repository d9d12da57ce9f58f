use expr_forms::{PieceFault, read_piece};
use kumir_lexer::lex_line;
use kumir_tree::{Expr, Form, Kind, Mode, Op, Param, Spanned};
use std::alloc::{AllocError, Global};
use std::test::Fail;

/// Pieces that have a form, in the order of the grammar.
const FORMS: [&str; 52] = [
    "алг",
    "алг лог",
    "алг цел f()",
    "алг f(арг рез лог a)",
    "алг f(цел таб a[1:2], цел b)",
    "алг f(логтаб a[1:2, 1:2], b[1:2])",
    "дано",
    "дано да",
    "надо",
    "надо знач >= 0",
    "цел a, b",
    "лог таб a[1:2]",
    "целтаб a[1:2], b[1:n, 0:0]",
    "знач := 1",
    "a := b()",
    "a[1] := 1",
    "a[1, 2] := b[1]",
    "a",
    "a()",
    "a(1,(2))",
    "нц 1 раз",
    "нц пока да",
    "нц",
    "нц для i от 1 до 2",
    "нц для i от 1 до 2 шаг - 1",
    "кц",
    "кц при нет",
    "кц_при нет",
    "если 1 = 1",
    "то",
    "иначе",
    "все",
    "выбор",
    "при 1 <> 2:",
    "нач",
    "кон",
    "утв не a и b или c",
    "выход",
    "стоп",
    "использовать r",
    "ввод a",
    "ввод a, b[1]",
    "вывод 1, \"\", нс",
    "вывод \"\"",
    "вывод нс",
    "вывод знач",
    "вывод 2 ** - 1",
    "вывод 1 >= 2 * 3",
    "вывод 1 < 2 и 2 < 3",
    "вывод + - 1 - + 1",
    "вывод (не a) = b",
    "вывод a(b[1])",
];

/// Pieces that have none, in the order of the grammar.
const NO_FORMS: [&str; 52] = [
    "1",
    "\"\"",
    ",",
    "сим a",
    "пауза",
    "алг f(",
    "алг f() 1",
    "алг цел таб f",
    "алг f(a)",
    "алг f(цел a,)",
    "алг f(рез арг цел a)",
    "алг f(цел таб a)",
    "алг f(цел a[1:2])",
    "алг f(цел таб a[1:2], b)",
    "дано да нет",
    "цел",
    "цел a,",
    "цел a[1:2]",
    "целтаб a",
    "целтаб a[]",
    "целтаб a[1]",
    "целтаб a[1:2, 1:2, 1:2]",
    "знач",
    "a :=",
    "a[1]",
    "a[1, 2, 3] := 1",
    "a() := 1",
    "a(1,)",
    "a(1",
    "нц раз",
    "нц 1",
    "нц пока",
    "нц для 1 от 1 до 2",
    "нц для i от 1",
    "нц для i от 1 до 2 шаг",
    "кц 1",
    "кц_при",
    "если",
    "то 1",
    "при да",
    "при :",
    "нач нач",
    "утв",
    "использовать",
    "ввод",
    "ввод знач",
    "вывод",
    "вывод \"\" + 1",
    "вывод a < b < c",
    "вывод 1 + не a",
    "вывод (1]",
    "вывод 1 2",
];

/// What is answered for a piece.
#[derive(Clone, Copy, PartialEq, Eq)]
enum Answer {
    TooDeep,
    NotUnderstood,
    Memory,
    /// A header, and whether its parameters are those of the row.
    Header(bool),
    /// An assertion of a negation or of a number with a minus.
    Not,
    Minus,
    /// An assertion of an operator, and whether one stands on its right side.
    Binary(Op, bool),
    /// Any other form.
    Form,
}

fn asserted(condition: &Expr) -> Answer {
    match condition {
        Expr::Minus(_) => Answer::Minus,
        Expr::Not(_) => Answer::Not,
        Expr::Binary(op, _, right) => {
            Answer::Binary(*op, matches!(right.get(), Expr::Binary(_, _, _)))
        }
        _ => Answer::Form,
    }
}

/// Whether a parameter has this mode and this kind, and is a table.
fn is_param(param: Option<&Param>, mode: Mode, kind: Kind, table: bool) -> bool {
    match param {
        Some(param) => {
            param.mode == mode && param.kind == kind && param.bounds.is_some() == table
        }
        None => false,
    }
}

/// Whether the parameters are `арг цел a, арг цел b, рез лог c, рез цел таб t`.
fn are_expected(params: &[Param]) -> bool {
    params.len() == 4
        && is_param(params.get(0), Mode::Arg, Kind::Whole, false)
        && is_param(params.get(1), Mode::Arg, Kind::Whole, false)
        && is_param(params.get(2), Mode::Res, Kind::Truth, false)
        && is_param(params.get(3), Mode::Res, Kind::Whole, true)
}

fn answer_of(alloc: Global, tokens: &[Spanned]) -> Answer {
    if tokens.is_empty() {
        return Answer::NotUnderstood;
    }
    match read_piece(alloc, tokens) {
        Ok(Form::Header(header)) => Answer::Header(are_expected(header.params.as_slice())),
        Ok(Form::Assert(condition)) => asserted(&condition),
        Ok(_) => Answer::Form,
        Err(PieceFault::TooDeep) => Answer::TooDeep,
        Err(PieceFault::NotUnderstood) => Answer::NotUnderstood,
        Err(PieceFault::Memory) => Answer::Memory,
    }
}

/// The answer to the piece that a short line is.
fn answer_to(alloc: Global, line: &str) -> Answer {
    if line.len() > 10_000 {
        return Answer::Memory;
    }
    match lex_line(alloc, line) {
        Ok(found) => answer_of(alloc, found.tokens.as_slice()),
        Err(_) => Answer::Memory,
    }
}

/// The answer to an output of one text a number of times, then another one.
fn repeated(alloc: Global, first: &str, times: u32, last: &str) -> Result<Answer, AllocError> {
    let mut line = String::from_str(alloc, "вывод ")?;
    for _ in 0..times {
        line.push_str(first)?;
    }
    line.push_str(last)?;
    Ok(answer_to(alloc, line.as_str()))
}

#[test]
fn each_form_is_read(rt: HostRuntime) -> Result<(), Fail> {
    for line in FORMS.iter() {
        let answer = answer_to(rt.alloc(), line);
        assert!(rt; answer != Answer::NotUnderstood);
        assert!(rt; answer != Answer::TooDeep);
        assert!(rt; answer != Answer::Memory);
    }
    Ok(())
}

#[test]
fn other_pieces_are_not_understood(rt: HostRuntime) -> Result<(), Fail> {
    for line in NO_FORMS.iter() {
        assert!(rt; answer_to(rt.alloc(), line) == Answer::NotUnderstood);
    }
    Ok(())
}

#[test]
fn a_hundred_brackets_may_be_open(rt: HostRuntime) -> Result<(), Fail> {
    let alloc = rt.alloc();
    let closed =
        "1))))))))))))))))))))))))))))))))))))))))))))))))))))))))))))))))))))))))))))))))))))))))))))))))))))";
    assert!(rt; repeated(alloc, "(", 100, closed)? == Answer::Form);
    assert!(rt; repeated(alloc, "(", 101, closed)? == Answer::TooDeep);
    assert!(rt; repeated(alloc, "f[", 101, "1")? == Answer::TooDeep);
    assert!(rt; repeated(alloc, "()", 200, "))(")? == Answer::NotUnderstood);
    Ok(())
}

#[test]
fn long_chains_are_read(rt: HostRuntime) -> Result<(), Fail> {
    for part in ["-", "не ", "1**", "1+", "1 и "].iter() {
        assert!(rt; repeated(rt.alloc(), part, 1_000, "1")? == Answer::Form);
    }
    Ok(())
}

#[test]
fn operators_bind_as_in_the_grammar(rt: HostRuntime) -> Result<(), Fail> {
    let alloc = rt.alloc();
    assert!(rt; answer_to(alloc, "утв - 2 ** 2") == Answer::Minus);
    assert!(rt; answer_to(alloc, "утв не a = b") == Answer::Not);
    assert!(rt; answer_to(alloc, "утв 2 ** 3 ** 2") == Answer::Binary(Op::Power, true));
    assert!(rt; answer_to(alloc, "утв 2 - 3 - 2") == Answer::Binary(Op::Minus, false));
    assert!(rt; answer_to(alloc, "утв a или b и c") == Answer::Binary(Op::Or, true));
    Ok(())
}

#[test]
fn parameters_take_over_what_they_do_not_say(rt: HostRuntime) -> Result<(), Fail> {
    let line = "алг f(арг цел a, b, рез лог c, целтаб t[1:a])";
    assert!(rt; answer_to(rt.alloc(), line) == Answer::Header(true));
    Ok(())
}
