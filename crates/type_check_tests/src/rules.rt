//! Names and kinds within a unit.

use km_base::{Ledger, Performers, Steps};
use kumir_tree::{
    Block, BoundExpr, BoundExprs, Declared, Expr, Exprs, Header, Item, Kind, Mode, Name, Names, Op,
    Param, Statement, Target, UnitTree, What,
};
use sqlite_items::Items;
use std::alloc::{AllocError, Global};
use std::test::Fail;
use type_check::{UnitFaults, check_unit};
use type_rules::Headers;

/// Where tests count checks.
pub struct Checks;

impl Ledger for Checks {}

pub fn name_of(alloc: Global, text: &str) -> Result<Name, AllocError> {
    Ok(Name::from_vec(text.chars().collect(alloc)?))
}

fn one(alloc: Global, e: Expr) -> Result<Exprs, AllocError> {
    let mut all = Items::new(alloc);
    all.push(e)?;
    Ok(all)
}

fn two(alloc: Global) -> Result<Exprs, AllocError> {
    let mut all = one(alloc, Expr::Number(1))?;
    all.push(Expr::Number(2))?;
    Ok(all)
}

// The bounds `1:2`.
fn bounds(alloc: Global) -> Result<BoundExprs, AllocError> {
    let mut all = Items::new(alloc);
    all.push(BoundExpr {
        low: Expr::Number(1),
        high: Expr::Number(2),
    })?;
    Ok(all)
}

fn param(
    alloc: Global,
    mode: Mode,
    kind: Kind,
    text: &str,
    table: bool,
) -> Result<Param, AllocError> {
    Ok(Param {
        mode,
        kind,
        name: name_of(alloc, text)?,
        bounds: if table { Some(bounds(alloc)?) } else { None },
    })
}

fn header(
    alloc: Global,
    text: &str,
    gives: Option<Kind>,
    first: Param,
) -> Result<Header, AllocError> {
    let mut params = Items::new(alloc);
    params.push(first)?;
    Ok(Header {
        name: Some(name_of(alloc, text)?),
        gives,
        params,
        line: 0,
    })
}

// The headers `цел f(арг цел v)`, `in(арг лог v)`, `out(рез цел v)`, `both(аргрез цел v)`, `whole(арг цел таб v[1:2])`.
fn headers(alloc: Global) -> Result<Headers, Fail> {
    let known = Performers {
        robot: true,
        pen: false,
    };
    let mut headers = Headers::new(alloc, known)?;
    for (text, gives, mode, kind, table) in [
        ("f", Some(Kind::Whole), Mode::Arg, Kind::Whole, false),
        ("in", None, Mode::Arg, Kind::Truth, false),
        ("out", None, Mode::Res, Kind::Whole, false),
        ("both", None, Mode::ArgRes, Kind::Whole, false),
        ("whole", None, Mode::Arg, Kind::Whole, true),
    ] {
        let first = param(alloc, mode, kind, "v", table)?;
        let _ = headers.add(header(alloc, text, gives, first)?);
    }
    Ok(headers)
}

// The header `u(арг цел x, рез лог b, аргрез цел таб a[1:2])`.
fn header_of_u(alloc: Global, gives: Option<Kind>) -> Result<Header, AllocError> {
    let first = param(alloc, Mode::Arg, Kind::Whole, "x", false)?;
    let mut header = header(alloc, "u", gives, first)?;
    let second = param(alloc, Mode::Res, Kind::Truth, "b", false)?;
    header.params.push(second)?;
    let third = param(alloc, Mode::ArgRes, Kind::Whole, "a", true)?;
    header.params.push(third)?;
    Ok(header)
}

// The algorithm `u` with this body.
fn unit(alloc: Global, gives: Option<Kind>, body: Block) -> Result<UnitTree, AllocError> {
    let header = header_of_u(alloc, gives)?;
    Ok(UnitTree {
        header,
        given: None,
        wanted: None,
        body,
        close: 9,
    })
}

fn found_in(alloc: Global, tree: &UnitTree) -> Result<UnitFaults, Fail> {
    let mut steps = Steps::<Checks>::new();
    let headers = headers(alloc)?;
    Ok(check_unit(alloc, tree, &headers, &mut steps)?)
}

fn checked(alloc: Global, gives: Option<Kind>, body: Block) -> Result<UnitFaults, Fail> {
    let tree = unit(alloc, gives, body)?;
    found_in(alloc, &tree)
}

// The code of the fault of this one statement, 0 where it has none.
fn code_of(alloc: Global, gives: Option<Kind>, what: What) -> Result<u16, Fail> {
    let mut body = Items::new(alloc);
    body.push(Statement { line: 1, what })?;
    let unit = checked(alloc, gives, body)?;
    match unit.faults.as_slice().first() {
        Some(fault) => Ok(fault.code),
        None => Ok(0),
    }
}

fn element(alloc: Global, a: &str, at: Exprs) -> Result<Expr, AllocError> {
    Ok(Expr::Element(name_of(alloc, a)?, at))
}

fn call(alloc: Global, f: &str, arguments: Exprs) -> Result<Expr, AllocError> {
    Ok(Expr::Call(name_of(alloc, f)?, arguments))
}

// Expressions that tests name by a word.
fn sample(alloc: Global, text: &str) -> Result<Expr, AllocError> {
    match text {
        "1" => Ok(Expr::Number(1)),
        "да" => Ok(Expr::Truth(true)),
        "знач" => Ok(Expr::Result),
        "a[1]" => element(alloc, "a", one(alloc, Expr::Number(1))?),
        "a[да]" => element(alloc, "a", one(alloc, Expr::Truth(true))?),
        "a[1,2]" => element(alloc, "a", two(alloc)?),
        "x[1]" => element(alloc, "x", one(alloc, Expr::Number(1))?),
        "f(1)" => call(alloc, "f", one(alloc, Expr::Number(1))?),
        "f(1,2)" => call(alloc, "f", two(alloc)?),
        "div(1,2)" => call(alloc, "div", two(alloc)?),
        "iabs(1,2)" => call(alloc, "iabs", two(alloc)?),
        "x()" => call(alloc, "x", Items::new(alloc)),
        "in(да)" => call(alloc, "in", one(alloc, Expr::Truth(true))?),
        "-да" => Expr::minus_of(alloc, Expr::Truth(true)),
        "не 1" => Expr::not_of(alloc, Expr::Number(1)),
        _ => Ok(Expr::Named(name_of(alloc, text)?)),
    }
}

fn printed(alloc: Global, e: Expr) -> Result<What, AllocError> {
    let mut items = Items::new(alloc);
    items.push(Item::Value(e))?;
    Ok(What::Output(items))
}

// What `вывод` of one expression gives in an algorithm without a kind.
const ITEMS: [(&str, u16); 20] = [
    ("1", 0),
    ("да", 0),
    ("знач", 403),
    ("x", 0),
    ("b", 0),
    ("a", 403),
    ("a[1]", 0),
    ("a[да]", 403),
    ("a[1,2]", 403),
    ("x[1]", 403),
    ("x()", 403),
    ("f(1)", 0),
    ("f(1,2)", 403),
    ("f", 403),
    ("div(1,2)", 0),
    ("iabs(1,2)", 403),
    ("in(да)", 403),
    ("клетка чистая", 0),
    ("вниз", 403),
    ("z", 402),
];

#[test]
fn expressions_have_kinds(rt: HostRuntime) -> Result<(), Fail> {
    let alloc = rt.alloc();
    for (text, code) in ITEMS {
        let what = printed(alloc, sample(alloc, text)?)?;
        assert_eq!(rt; code_of(alloc, None, what)?, code, "{text}");
    }
    let what = printed(alloc, Expr::Result)?;
    assert_eq!(rt; code_of(alloc, Some(Kind::Truth), what)?, 0);
    Ok(())
}

// An operator, and its codes over two numbers, over two truth values, over a number and a truth value.
const OPERATORS: [(Op, u16, u16, u16); 12] = [
    (Op::Or, 403, 0, 403),
    (Op::And, 403, 0, 403),
    (Op::Equal, 0, 0, 403),
    (Op::NotEqual, 0, 0, 403),
    (Op::Less, 0, 403, 403),
    (Op::Greater, 0, 403, 403),
    (Op::LessOrEqual, 0, 403, 403),
    (Op::GreaterOrEqual, 0, 403, 403),
    (Op::Plus, 0, 403, 403),
    (Op::Minus, 0, 403, 403),
    (Op::Times, 0, 403, 403),
    (Op::Power, 0, 403, 403),
];

fn operator_code(alloc: Global, op: Op, a: &str, b: &str) -> Result<u16, Fail> {
    let left = sample(alloc, a)?;
    let right = sample(alloc, b)?;
    let e = Expr::binary_of(alloc, op, left, right)?;
    code_of(alloc, None, printed(alloc, e)?)
}

#[test]
fn operators_stand_over_kinds(rt: HostRuntime) -> Result<(), Fail> {
    let alloc = rt.alloc();
    for (op, whole, truth, mixed) in OPERATORS {
        for (a, b, code) in [("x", "1", whole), ("b", "да", truth), ("x", "b", mixed)] {
            assert_eq!(rt; operator_code(alloc, op, a, b)?, code, "{a} {b}");
        }
    }
    Ok(())
}

// Calls as pieces of their own.
const CALLS: [(&str, &str, u16); 19] = [
    ("in", "да", 0),
    ("in", "b", 0),
    ("in", "1", 403),
    ("out", "x", 0),
    ("out", "a[1]", 0),
    ("out", "1", 403),
    ("out", "a", 403),
    ("out", "b", 403),
    ("out", "знач", 403),
    ("both", "a[1]", 0),
    ("both", "f(1)", 403),
    ("whole", "a", 0),
    ("whole", "x", 403),
    ("whole", "a[1]", 403),
    ("f", "1", 403),
    ("div", "1", 403),
    ("вниз", "1", 403),
    ("x", "1", 403),
    ("z", "1", 402),
];

fn invoked(alloc: Global, f: &str, arguments: Exprs) -> Result<What, AllocError> {
    Ok(What::Call(name_of(alloc, f)?, arguments))
}

fn argument_code(alloc: Global, f: &str, argument: &str) -> Result<u16, Fail> {
    let arguments = one(alloc, sample(alloc, argument)?)?;
    let what = invoked(alloc, f, arguments)?;
    code_of(alloc, Some(Kind::Whole), what)
}

#[test]
fn calls_fit(rt: HostRuntime) -> Result<(), Fail> {
    let alloc = rt.alloc();
    for (f, argument, code) in CALLS {
        assert_eq!(rt; argument_code(alloc, f, argument)?, code, "{f} {argument}");
    }
    for (f, code) in [("вниз", 0), ("клетка чистая", 403), ("in", 403)] {
        let what = invoked(alloc, f, Items::new(alloc))?;
        assert_eq!(rt; code_of(alloc, None, what)?, code, "{f}");
    }
    Ok(())
}

// `нц для` with this variable and this step.
const LOOPS: [(&str, &str, u16); 6] = [
    ("x", "1", 0),
    ("b", "1", 403),
    ("a", "1", 403),
    ("f", "1", 403),
    ("x", "да", 403),
    ("z", "да", 402),
];

fn loop_code(alloc: Global, x: &str, step: &str) -> Result<u16, Fail> {
    let x = name_of(alloc, x)?;
    let step = Some(sample(alloc, step)?);
    let body = Items::new(alloc);
    let what = What::Count(x, Expr::Number(1), Expr::Number(2), step, body);
    code_of(alloc, None, what)
}

fn assignment_code(alloc: Global, x: &str, e: &str) -> Result<u16, Fail> {
    let target = Target::Scalar(name_of(alloc, x)?);
    let what = What::Assign(target, sample(alloc, e)?);
    code_of(alloc, None, what)
}

#[test]
fn loops_and_assignments_fit(rt: HostRuntime) -> Result<(), Fail> {
    let alloc = rt.alloc();
    for (x, step, code) in LOOPS {
        assert_eq!(rt; loop_code(alloc, x, step)?, code, "{x} {step}");
    }
    for (x, e, code) in [
        ("x", "1", 0),
        ("x", "да", 403),
        ("f", "1", 403),
        ("a", "1", 403),
    ] {
        assert_eq!(rt; assignment_code(alloc, x, e)?, code, "{x} {e}");
    }
    for (gives, code) in [
        (None, 403),
        (Some(Kind::Whole), 0),
        (Some(Kind::Truth), 403),
    ] {
        let what = What::Assign(Target::Result, Expr::Number(1));
        assert_eq!(rt; code_of(alloc, gives, what)?, code);
    }
    Ok(())
}

fn declared(alloc: Global, first: &str, second: &str) -> Result<What, AllocError> {
    let mut names: Names = Items::new(alloc);
    names.push(name_of(alloc, first)?)?;
    names.push(name_of(alloc, second)?)?;
    Ok(What::Declare(Declared::Scalars(Kind::Truth, names)))
}

// A sample that is printed, or two variables of `лог` that are declared.
const PIECES: [(&str, Option<&str>); 8] = [
    ("f(1)", None),
    ("f", Some("x")),
    ("q", Some("q")),
    ("f(1)", None),
    ("q", None),
    ("z", None),
    ("f(1,2)", None),
    ("z", None),
];

fn piece(alloc: Global, first: &str, second: Option<&str>) -> Result<What, AllocError> {
    match second {
        Some(second) => declared(alloc, first, second),
        None => printed(alloc, sample(alloc, first)?),
    }
}

fn pieces(alloc: Global) -> Result<Block, AllocError> {
    let mut body = Items::new(alloc);
    let mut line = 0_u32;
    for (first, second) in PIECES {
        let what = piece(alloc, first, second)?;
        body.push(Statement { line, what })?;
        line = line.saturating_add(1);
    }
    Ok(body)
}

// `f(1)` is a call before the declaration of `f` and a variable with parentheses behind it; `q` is declared though its
// piece has a fault.
#[test]
fn names_are_local_from_their_declaration_on(rt: HostRuntime) -> Result<(), Fail> {
    let alloc = rt.alloc();
    let unit = checked(alloc, None, pieces(alloc)?)?;
    let wanted = [(1, 401), (2, 401), (3, 403), (5, 402), (6, 403), (7, 402)];
    assert_eq!(rt; unit.faults.len(), 6);
    for (fault, (line, code)) in unit.faults.as_slice().iter().zip(wanted) {
        assert_eq!(rt; (fault.line, fault.code), (line, code));
    }
    assert_eq!(rt; unit.asked.len(), 2);
    for (asked, text) in unit.asked.as_slice().iter().zip(["f", "z"]) {
        assert!(rt; asked.same(&name_of(alloc, text)?), "{text}");
    }
    Ok(())
}
