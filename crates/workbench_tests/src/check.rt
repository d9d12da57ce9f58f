use crate::runs::{answer, repeated};
use km_ports::{MemSink, SureSource};
use std::alloc::{AllocError, Global};
use std::test::Fail;
use workbench::workbench;

// Texts with what `check` writes of them.
const MARGINS: [(&str, &str); 20] = [
    ("", ""),
    ("алг\nнач\nвещ x\nx := 1.5\nкон", "3 104\n4 104\n"),
    ("алг\nнач\nx := (1 + 2\nвывод x, \"б\", нс\nкон", "3 201\n"),
    ("алг\nнач\nутв да\nкон", ""),
    ("алг\nнач\nнц 3 раз", "3 302\n"),
    ("алг\nнач\nнц 3 раз\nкон", "4 301\n"),
    ("алг\nнач\nвсе\nкон", "3 301\n"),
    ("алг", "1 302\n"),
    ("x := 1", "1 301\n"),
    ("алг\nнач\nесли 1 = 1\nвывод 1\nвсе\nкон", "4 301\n"),
    (
        "алг\nнач\nцел x\nнц пока x > 1\nкц при x = 1\nкон",
        "5 301\n",
    ),
    ("алг\nнач\nесли да то иначе\nиначе\nвсе\nкон", "4 301\n"),
    ("алг\nнач\nвыбор при да: при нет: иначе все\nкон", ""),
    (
        "алг\nнач\nвыбор\nпри да: иначе\nпри нет: все\nкон",
        "5 301\n",
    ),
    ("алг\nнач\nнц\nкц при да\nкон", ""),
    ("алг\nалг\nнач\nкон", "1 302\n2 405\n"),
    ("алг а\nнач\nкон\nкон", "4 301\n"),
    (
        "использовать Кузнечик\nалг a\nнач\nцел x, x\ny := 1\nx := да\nкон\nалг a\nнач\nкон",
        "1 407\n4 401\n5 402\n6 403\n8 404\n",
    ),
    (
        "алг\nнач\nпомощь(2)\nкон\nалг помощь(арг цел n)\nнач\nвывод n +\nкон",
        "7 201\n",
    ),
    ("?\nалг\nнач\n#\nнц\nкон\n", "1 101\n6 301\n"),
];

#[test]
fn margins_are_full(rt: HostRuntime) -> Result<(), Fail> {
    for (input, wanted) in MARGINS {
        let (status, text) = answer(rt.alloc(), "check", input.as_bytes())?;
        assert_eq!(rt; text.as_str(), wanted, "at {input}");
        assert_eq!(rt; status.number() == 0, wanted.is_empty());
        assert!(rt; status.number() <= 1);
    }
    Ok(())
}

// Programs by their lines, each with the code that the margin has for it, 0 where there is none.
const RULES: [&[(&str, u16)]; 11] = [
    // operators
    &[
        ("алг", 0),
        ("нач", 0),
        ("цел x; лог b", 0),
        ("вывод -x, +x, не b, x + 1 * 2 - 3 ** x, x = 1, b <> да", 0),
        ("вывод x < 1, x > 1, x <= 1, x >= 1, b и да, нет или b", 0),
        ("вывод -b", 403),
        ("вывод +b", 403),
        ("вывод не x", 403),
        ("вывод b = 1", 403),
        ("вывод да + x", 403),
        ("вывод b и x", 403),
        ("вывод \"б\", нс, x, b", 0),
        ("кон", 0),
    ],
    // tables
    &[
        ("алг", 0),
        ("нач", 0),
        ("цел x; цел таб t[1:2, 0:3]; целтаб v[1:x]", 0),
        ("t[1, 2] := v[1]; ввод v[x], t[1, x], x", 0),
        ("t[1] := 1", 403),
        ("v[1, 2] := 1", 403),
        ("x[1] := 1", 403),
        ("f[1] := 1", 403),
        ("v := 1", 403),
        ("вывод t[1]", 403),
        ("вывод v[1, 2]", 403),
        ("вывод v[да]", 403),
        ("вывод f[1]", 403),
        ("вывод v", 403),
        ("ввод v", 403),
        ("ввод f", 403),
        ("f := 1", 403),
        ("лог таб u[1:да]", 403),
        ("цел таб q[1:2], w[1:q[1]]", 402),
        ("кон", 0),
        ("алг цел f нач знач := 1 кон", 0),
    ],
    // parameters and arguments
    &[
        ("алг", 0),
        ("нач", 0),
        ("цел x; лог b; целтаб t[1:2], w[1:2, 1:2]; логтаб u[1:2]", 0),
        (
            "p(x); p(t[1]); p(x + 1); q(x); q(t[1]); r(x); r(t[1]); s(t); z; z()",
            0,
        ),
        ("p(t)", 403),
        ("p(b)", 403),
        ("p", 403),
        ("p()", 403),
        ("p(1, 2)", 403),
        ("q(x + 1)", 403),
        ("q(t)", 403),
        ("q(b)", 403),
        ("q(u[1])", 403),
        ("q(z)", 403),
        ("r(1)", 403),
        ("r(t)", 403),
        ("r(b)", 403),
        ("s(x)", 403),
        ("s(t[1])", 403),
        ("s(x + 1)", 403),
        ("s(u)", 403),
        ("s(w)", 403),
        ("z(1)", 403),
        ("кон", 0),
        ("алг p(арг цел n) нач n := n + 1 кон", 0),
        ("алг q(рез цел n) нач n := 1 кон", 0),
        ("алг r(аргрез цел n) нач n := n кон", 0),
        ("алг s(рез целтаб n[1:2]) нач n[1] := 1 кон", 0),
        ("алг z нач кон", 0),
    ],
    // the value of an algorithm
    &[
        ("алг лог f(цел x)", 0),
        ("дано знач", 0),
        ("надо знач или f(x)", 0),
        ("нач", 0),
        ("знач := x > 0; вывод знач, не знач", 0),
        ("знач := x", 403),
        ("q(знач)", 403),
        ("знач := q(знач)", 403),
        ("кон", 0),
        ("алг q(рез лог b)", 0),
        ("надо знач", 403),
        ("нач", 0),
        ("знач := да", 403),
        ("вывод знач", 403),
        ("кон", 0),
        ("алг лог g нач ввод знач кон", 201),
    ],
    // where calls stand
    &[
        ("использовать Робот", 0),
        ("использовать Чертежник", 0),
        ("использовать Робот", 0),
        ("использовать чертежник", 407),
        ("алг", 0),
        ("нач", 0),
        (
            "вниз; вниз(); поднять перо; сместиться в точку(1, f(2)); p",
            0,
        ),
        (
            "вывод клетка чистая, клетка чистая(), f(1), div(7, 2), iabs(-1)",
            0,
        ),
        ("вывод вниз", 403),
        ("вывод поднять перо", 403),
        ("вывод p", 403),
        ("вывод p()", 403),
        ("вывод f", 403),
        ("вывод div(1)", 403),
        ("вывод iabs(да)", 403),
        ("вывод imax", 403),
        ("клетка чистая", 403),
        ("f(1)", 403),
        ("mod(7, 2)", 403),
        ("вниз(1)", 403),
        ("сместиться на вектор(1)", 403),
        ("сместиться на вектор(1, да)", 403),
        ("кон", 0),
        ("алг цел f(цел x) нач знач := x кон", 0),
        ("алг p нач кон", 0),
    ],
    // without performers
    &[
        ("алг", 0),
        ("нач", 0),
        ("вверх", 0),
        ("вниз", 402),
        ("поднять перо", 402),
        ("вывод клетка чистая", 402),
        ("вывод div(1, 2)", 0),
        ("кон", 0),
        ("алг вверх нач кон", 0),
    ],
    // local names
    &[
        ("алг", 0),
        ("нач", 0),
        ("f; вывод g(да) + g(да)", 0),
        ("цел f, g", 0),
        ("f", 403),
        ("вывод g(да)", 403),
        ("f := g; g := f + 1", 0),
        ("x := 1; цел x", 402),
        ("x := 1", 0),
        ("если да то цел y все", 0),
        ("y := 1", 0),
        ("кон", 0),
        ("алг f нач f; y кон", 402),
        ("алг цел g(лог g)", 0),
        ("дано g и y", 402),
        ("надо g", 0),
        ("нач цел y кон", 0),
        ("алг h(цел x) нач h(x) кон", 0),
    ],
    // names declared twice
    &[
        ("алг f(арг цел x, рез цел x)", 401),
        ("нач кон", 0),
        ("алг g(цел x, логтаб x[1:2])", 401),
        ("нач x := 1", 0),
        ("x[1] := да", 403),
        ("кон", 0),
        ("алг h(цел x, y)", 0),
        ("нач", 0),
        ("лог y, z", 401),
        ("целтаб x[1:2], w[1:2]", 401),
        ("x := y; z := да; w[1] := 1", 0),
        ("лог q, q", 401),
        ("q := z", 0),
        ("кон", 0),
        ("алг p(целтаб x[1:да], лог x)", 401),
        ("нач кон", 0),
    ],
    // bounds of parameters
    &[
        ("алг f(арг цел n, рез целтаб t[1:n])", 0),
        ("нач цел таб u[1:n] кон", 0),
        ("алг g(рез целтаб t[n:2 * n], арг цел n)", 0),
        ("нач кон", 0),
        ("алг h(целтаб t[1:m], лог m)", 403),
        ("нач кон", 0),
        ("алг p(целтаб t[1:m])", 402),
        ("нач цел m кон", 0),
        ("алг q(целтаб t[да:2])", 403),
        ("нач кон", 0),
        ("алг r(целтаб t[1:t])", 403),
        ("нач кон", 0),
        ("алг s(целтаб t[1:t[1]])", 0),
        ("нач кон", 0),
        ("алг w(целтаб t[k:2, 1:imax(k, 3)])", 0),
        ("нач кон", 0),
        ("алг z(целтаб t[1:w])", 403),
        ("нач кон", 0),
        ("алг цел k нач знач := 1 кон", 0),
    ],
    // conditions and loops
    &[
        ("алг", 0),
        ("дано 1 = 1", 0),
        ("надо 1", 403),
        ("нач", 0),
        ("цел x; лог b; целтаб t[1:2]", 0),
        (
            "утв b; если b то все; нц пока b кц; нц кц при b; выбор при b: все",
            0,
        ),
        ("утв x", 403),
        ("если x то все", 403),
        ("нц пока x кц", 403),
        ("нц кц при x", 403),
        ("выбор при b: при x: все", 403),
        ("нц x раз кц; нц для x от 1 до x шаг -1 кц", 0),
        ("нц b раз кц", 403),
        ("нц для b от 1 до 2 кц", 403),
        ("нц для t от 1 до 2 кц", 403),
        ("нц для f от 1 до 2 кц", 403),
        ("нц для y от 1 до 2 кц", 402),
        ("нц для x от да до 2 кц", 403),
        ("нц для x от 1 до b кц", 403),
        ("нц для x от 1 до 2 шаг b кц", 403),
        ("x := да; цел x, x; q := 1", 401),
        ("x := да; q := 1", 402),
        ("q := да + 1", 402),
        ("кон", 0),
        ("алг цел f нач знач := 1 кон", 0),
    ],
    // headers
    &[
        ("использовать Робот", 0),
        ("алг вниз нач кон", 404),
        ("алг imin нач кон", 404),
        ("алг", 0),
        ("нач поднять перо; f кон", 402),
        ("алг нач кон", 405),
        ("алг поднять перо нач кон", 0),
        ("алг g(цел x)", 0),
        ("нач x := 1 кон", 0),
        ("алг g(лог x)", 404),
        ("нач", 0),
        ("x := 1", 403),
        ("g(1)", 0),
        ("кон", 0),
        ("алг g нач q кон", 402),
        ("алг f ?", 101),
        ("нач кон", 0),
    ],
];

// A program by its lines, and its margin by their codes.
fn marked(alloc: Global, lines: &[(&str, u16)]) -> Result<(String, String), AllocError> {
    let mut text = String::new(alloc);
    let mut margin = String::new(alloc);
    for (number, (line, code)) in (1_u32..).zip(lines) {
        text.push_str(line)?;
        text.push('\n')?;
        if *code != 0 {
            let mark = format!(in alloc; "{number} {code}\n")?;
            margin.push_str(mark.as_str())?;
        }
    }
    Ok((text, margin))
}

#[test]
fn names_and_types_have_rules(rt: HostRuntime) -> Result<(), Fail> {
    for lines in RULES {
        let (text, wanted) = marked(rt.alloc(), lines)?;
        let (_, margin) = answer(rt.alloc(), "check", text.as_bytes())?;
        assert_eq!(rt; margin.as_str(), wanted.as_str(), "{text}");
    }
    Ok(())
}

// The lines that a pupil types, and what the margin is after so many of them.
const PUPIL: [&str; 20] = [
    "использовать Робот",
    "алг обход поля",
    "дано | Робот в углу",
    "надо | ряд закрашен",
    "нач",
    "ряд",
    "вниз",
    "назад",
    "кон",
    "алг ряд",
    "нач",
    "нц пока справа свободно",
    "закрасить; вправо",
    "кц",
    "закрасить",
    "кон",
    "алг назад",
    "нач",
    "нц 10 раз влево кц",
    "кон",
];

const PUPIL_MARGINS: [(usize, &str); 12] = [
    (1, ""),
    (2, "2 302\n"),
    (4, "4 302\n"),
    (5, "5 302\n"),
    (8, "8 302\n"),
    (9, "6 402\n8 402\n"),
    (11, "8 402\n11 302\n"),
    (14, "8 402\n14 302\n"),
    (16, "8 402\n"),
    (17, "17 302\n"),
    (19, "19 302\n"),
    (20, ""),
];

// The first lines of the pupil's program.
fn typed(alloc: Global, count: usize) -> Result<String, AllocError> {
    let mut text = String::new(alloc);
    for line in PUPIL.iter().take(count) {
        text.push_str(line)?;
        text.push('\n')?;
    }
    Ok(text)
}

#[test]
fn a_program_is_typed(rt: HostRuntime) -> Result<(), Fail> {
    for (count, wanted) in PUPIL_MARGINS {
        let text = typed(rt.alloc(), count)?;
        let (status, margin) = answer(rt.alloc(), "check", text.as_bytes())?;
        assert_eq!(rt; margin.as_str(), wanted, "at {count} lines");
        assert_eq!(rt; status.number() == 0, wanted.is_empty());
    }
    Ok(())
}

// An algorithm with these parts, each so often, around its middle.
fn nested(alloc: Global, parts: (&str, &str, &str), count: usize) -> Result<String, AllocError> {
    let (open, middle, close) = parts;
    let mut text = String::from_str(alloc, "алг\nнач\n")?;
    repeated(&mut text, open, count)?;
    text.push_str(middle)?;
    repeated(&mut text, close, count)?;
    text.push_str("\nкон\n")?;
    Ok(text)
}

// What nests, and the margin where it is nested 101 times.
const NESTED: [((&str, &str, &str), &str); 3] = [
    (("нц\n", "", "кц\n"), "103 202\n"),
    (("если да то\n", "", "все\n"), "103 202\n"),
    (("нц ", "", "кц "), "3 202\n"),
];

#[test]
fn a_hundred_blocks_may_be_open(rt: HostRuntime) -> Result<(), Fail> {
    for (parts, wanted) in NESTED {
        for (count, wanted) in [(100, ""), (101, wanted)] {
            let text = nested(rt.alloc(), parts, count)?;
            let (_, margin) = answer(rt.alloc(), "check", text.as_bytes())?;
            assert_eq!(rt; margin.as_str(), wanted);
        }
    }
    Ok(())
}

#[test]
fn a_hundred_brackets_may_be_open(rt: HostRuntime) -> Result<(), Fail> {
    for (count, wanted) in [(100, ""), (101, "3 202\n")] {
        let mut text = String::from_str(rt.alloc(), "алг\nнач\nвывод ")?;
        repeated(&mut text, "(", count)?;
        text.push('1')?;
        repeated(&mut text, ")", count)?;
        text.push_str("\nкон")?;
        let (_, margin) = answer(rt.alloc(), "check", text.as_bytes())?;
        assert_eq!(rt; margin.as_str(), wanted);
    }
    Ok(())
}

#[test]
fn a_margin_that_is_not_written_is_a_write_fault(rt: HostRuntime) -> Result<(), Fail> {
    let alloc = rt.alloc();
    let words = vec![in alloc; String::from_str(alloc, "check")?]?;
    let input = "алг\nнач\nвещ x\nx := 1.5\nкон";
    let mut source = SureSource::new(Vec::from_slice(alloc, input.as_bytes())?);
    let mut sink = MemSink::new(alloc, 8, vec![in alloc; 1]?);
    let status = workbench(alloc, words.as_slice(), &mut source, &mut sink);
    assert_eq!(rt; status.number(), 4);
    assert!(rt; sink.written().is_empty());
    Ok(())
}
