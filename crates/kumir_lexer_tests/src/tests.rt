ghost use Rattle.std.specs.Prelude.{◌≤◌, length};

use km_base::Memory;
use kumir_lexer::{lex_line, print_tokens};
use std::alloc::Global;
use std::test::Fail;

// What `tokens` prints of a line of at most this many bytes.
const SHORT: usize = 1_000;

fn printed(alloc: Global, line: &str) -> Result<String, Memory>
    requires { length line.now ≤ SHORT }
{
    let found = lex_line(alloc, line)?;
    print_tokens(alloc, 1, &found)
}

const KEYWORDS: &str =
    "алг дано надо нач кон нц кц кц_при раз пока для от до шаг если то иначе все выбор при \
утв ввод вывод нс выход стоп цел лог сим лит таб целтаб логтаб симтаб литтаб арг рез аргрез знач да нет и или не \
использовать исп кон_исп пауза";

const SIGNS: [(&str, &str); 21] = [
    (":=", ":="),
    (":", ":"),
    ("=", "="),
    ("<>", "<>"),
    ("<=", "<="),
    (">=", ">="),
    ("<", "<"),
    (">", ">"),
    ("+", "+"),
    ("-", "-"),
    ("*", "*"),
    ("**", "**"),
    ("(", "("),
    (")", ")"),
    ("[", "["),
    ("]", "]"),
    (",", ","),
    (";", ";"),
    ("≤", "<="),
    ("≥", ">="),
    ("≠", "<>"),
];

const LINES: [(&str, &str); 36] = [
    ("", ""),
    (" \t\u{a0}", ""),
    (
        "сместиться  на вектор(1,-2)",
        "1 0 21 name сместиться на вектор\n1 21 22 sign (\n1 22 23 number 1\n1 23 24 sign ,\n1 24 25 sign -\n1 25 26 number 2\n1 26 27 sign )\n",
    ),
    (
        "2147483647 2147483648",
        "1 0 10 number 2147483647\n1 11 11 fault 103\n",
    ),
    (
        "Ноябрь 7 := дом_57",
        "1 0 8 name Ноябрь 7\n1 9 11 sign :=\n1 12 18 name дом_57\n",
    ),
    ("007", "1 0 3 number 7\n"),
    ("1e5", "1 0 0 fault 104\n"),
    ("1Е+5", "1 0 0 fault 104\n"),
    ("1.5", "1 0 0 fault 104\n"),
    ("2147483648.5", "1 0 0 fault 104\n"),
    ("1.", "1 0 1 number 1\n1 1 1 fault 101\n"),
    ("1e", "1 0 1 number 1\n1 1 2 name e\n"),
    ("1e+", "1 0 1 number 1\n1 1 2 name e\n1 2 3 sign +\n"),
    ("1e5x 2", "1 0 0 fault 104\n"),
    ("2147483648x", "1 0 0 fault 103\n"),
    (
        "a*b**c",
        "1 0 1 name a\n1 1 2 sign *\n1 2 3 name b\n1 3 5 sign **\n1 5 6 name c\n",
    ),
    (
        "a:=b:c",
        "1 0 1 name a\n1 1 3 sign :=\n1 3 4 name b\n1 4 5 sign :\n1 5 6 name c\n",
    ),
    (
        "<><=≤<",
        "1 0 2 sign <>\n1 2 4 sign <=\n1 4 5 sign <=\n1 5 6 sign <\n",
    ),
    ("a\u{a0}b\tc", "1 0 5 name a b c\n"),
    ("\u{feff}a", "1 0 0 fault 101\n"),
    ("a \u{feff}", "1 0 1 name a\n1 2 2 fault 101\n"),
    ("a | b # c", "1 0 1 name a\n"),
    ("a # b | c", "1 0 1 name a\n"),
    (
        "\"a | b # c\" d",
        "1 0 11 literal a | b # c\n1 12 13 name d\n",
    ),
    ("\"\"", "1 0 2 literal \n"),
    ("a \"b", "1 0 1 name a\n1 2 2 fault 102\n"),
    (
        "один два нц три",
        "1 0 8 name один два\n1 9 11 key нц\n1 12 15 name три\n",
    ),
    ("x7 8", "1 0 4 name x7 8\n"),
    ("x 7 8y", "1 0 6 name x 7 8y\n"),
    ("12abc 5", "1 0 2 number 12\n1 2 7 name abc 5\n"),
    ("нц 7", "1 0 2 key нц\n1 3 4 number 7\n"),
    ("x 1.5", "1 0 3 name x 1\n1 3 3 fault 101\n"),
    ("x вещ y", "1 0 1 name x\n1 2 2 fault 104\n"),
    ("вещтаб", "1 0 0 fault 104\n"),
    ("вещь Алг @я", "1 0 11 name вещь Алг @я\n"),
    ("6/2", "1 0 1 number 6\n1 1 1 fault 104\n"),
];

#[test]
fn lines_are_cut(rt: HostRuntime) -> Result<(), Fail> {
    for (line, lines) in LINES {
        assert!(rt; line.len() <= SHORT);
        let text = printed(rt.alloc(), line)?;
        assert_eq!(rt; text.as_str(), lines, "at {line}");
    }
    Ok(())
}

#[test]
fn every_keyword_and_sign_is_read(rt: HostRuntime) -> Result<(), Fail> {
    let alloc = rt.alloc();
    let mut words = 0_u32;
    for word in KEYWORDS.split(' ') {
        assert!(rt; word.len() <= SHORT);
        let text = printed(alloc, word)?;
        let size = word.chars().count();
        let lines = format!(in alloc; "1 0 {size} key {word}\n")?;
        assert_eq!(rt; text.as_str(), lines.as_str());
        words = words.saturating_add(1);
    }
    assert_eq!(rt; words, 48);
    for (sign, shown) in SIGNS {
        assert!(rt; sign.len() <= SHORT);
        let text = printed(alloc, sign)?;
        let size = sign.chars().count();
        let lines = format!(in alloc; "1 0 {size} sign {shown}\n")?;
        assert_eq!(rt; text.as_str(), lines.as_str());
    }
    Ok(())
}
