//! The faults of an algorithm (docs/LANGUAGE.md, "Names" and "Types").

ghost use Rattle.std.specs.Prelude.{◌≡◌, ◌+◌, ◌++◌, ◌∷◌, [], map, fold, IfOk, OnOk};
ghost use Rattle.std.specs.List.{list_all};
ghost use Rattle.kumir_tree.specs.Parts.{formal_of, table_of, declares_of};
ghost use Rattle.kumir_tree.specs.Seen.{tree};
ghost use Rattle.kumir_tree.specs.Units.{algorithm_of, some_claim};
ghost use Rattle.kumir_tree.specs.Blocks.{block_of, arms_of, act_of};
ghost use Rattle.type_rules.specs.Callees.{callee};
ghost use Rattle.type_rules.specs.Headers.{callees_of};
ghost use Rattle.type_rules.specs.Counted.{fault_on};
ghost use Rattle.type_check.specs.Kinds.{is_known};
ghost use Rattle.kumir_names.specs.Variables.{scalar, table, parameter, declares};
ghost use Rattle.type_check.specs.Parts.{Parameters, Condition, declared_by, act_pieces, block_pieces, arms_pieces, claim_pieces, pieces};
ghost use Rattle.type_check.specs.Checked.{with_locals, declared_again, noted, not_local, fault_code, unit_faults, asked};
ghost use Rattle.type_check.specs.Scopes.{among};
ghost use Rattle.type_check.specs.Seen.{part_of, checking, nothing_found};

use crate::asked::Asked;
use crate::fits::{params_fit, part_fits};
use crate::found::{Found, Rules};
use crate::kinds::Scope;
use crate::locals::Locals;
use crate::parts::Part;
use crate::uses::{names_of_params, names_of_part};
use km_base::{Ledger, Memory, Steps};
use kumir_names::Variable;
use kumir_tree::fault_codes::{DECLARED_TWICE, TYPES_DO_NOT_FIT, UNKNOWN_NAME};
use kumir_tree::{
    Case, Check, Declared, Expr, Fault, Faults, Header, Kind, Name, Names, Param, Statement,
    TableName, UnitTree, What,
};
use sqlite_items::Items;
use std::alloc::Global;
use type_rules::Headers;

/// The faults of a unit in its names and types, and the names that it asks for. Lines count from the unit's first.
#[derive(Drop)]
pub struct UnitFaults {
    pub faults: Faults,
    /// The names that the unit uses where they are not local, each once, in the order of first use.
    pub asked: Names,
}

// ---- what a piece declares

#[tactic(auto, using(crate::proofs::Checking::any_more))]
fn declare_scalars(
    alloc: Global,
    locals: &mut Locals,
    kind: Kind,
    names: &[Name],
) -> Result<bool, Memory>
    ensures added { OnOk result (locals.new ≡ with_locals locals.old (map (scalar kind) names.now)) }
    ensures again { IfOk result (λ again. again ≡ declared_again locals.old (map (scalar kind) names.now)) }
{
    let mut again = false;
    for name in names {
        let there = locals.declare(alloc, name, Variable { kind, bounds: 0 })?;
        again = again || there;
    }
    Ok(again)
}

#[tactic(auto, using(crate::proofs::Checking::any_more))]
fn declare_tables(
    alloc: Global,
    locals: &mut Locals,
    kind: Kind,
    tables: &[TableName],
) -> Result<bool, Memory>
    ensures added { OnOk result (locals.new ≡ with_locals locals.old (map (table kind) (map table_of tables.now))) }
    ensures again { IfOk result (λ again. again ≡ declared_again locals.old (map (table kind) (map table_of tables.now))) }
{
    let mut again = false;
    for table in tables {
        let bounds = table.bounds.len();
        let there = locals.declare(alloc, &table.name, Variable { kind, bounds })?;
        again = again || there;
    }
    Ok(again)
}

fn variable_of(param: &Param) -> Variable
    ensures { result ≡ (parameter (formal_of param.now)).1 }
{
    Variable {
        kind: param.kind,
        bounds: match &param.bounds {
            Some(bounds) => bounds.len(),
            None => 0,
        },
    }
}

#[tactic(auto, using(crate::proofs::Checking::any_more))]
fn declare_params(alloc: Global, locals: &mut Locals, params: &[Param]) -> Result<bool, Memory>
    ensures added { OnOk result (locals.new ≡ with_locals locals.old (map parameter (map formal_of params.now))) }
    ensures again { IfOk result (λ again. again ≡ declared_again locals.old (map parameter (map formal_of params.now))) }
{
    let mut again = false;
    for param in params {
        let there = locals.declare(alloc, &param.name, variable_of(param))?;
        again = again || there;
    }
    Ok(again)
}

/// Declares the names of a piece, and answers whether one was declared again.
fn declare_part(alloc: Global, locals: &mut Locals, part: Part<'_>) -> Result<bool, Memory>
    ensures added { OnOk result (locals.new ≡ with_locals locals.old (declared_by (part_of part.entry))) }
    ensures again { IfOk result (λ again. again ≡ declared_again locals.old (declared_by (part_of part.entry))) }
{
    match part {
        Part::Condition(_) => Ok(false),
        Part::Repeating(_) => Ok(false),
        Part::Counting(_, _, _, _) => Ok(false),
        Part::Declaring(Declared::Scalars(kind, names)) => {
            declare_scalars(alloc, locals, *kind, names.as_slice())
        }
        Part::Declaring(Declared::Tables(kind, tables)) => {
            declare_tables(alloc, locals, *kind, tables.as_slice())
        }
        Part::Assigning(_, _) => Ok(false),
        Part::Calling(_, _) => Ok(false),
        Part::Reading(_) => Ok(false),
        Part::Printing(_) => Ok(false),
    }
}

// ---- what a piece uses

/// Notes a name that is not local, and answers whether the name is known.
fn note_name(
    alloc: Global,
    scope: &Scope<'_>,
    asked: &mut Asked,
    name: &Name,
) -> Result<bool, Memory>
    ensures asked { OnOk result (asked.new ≡ fold noted asked.old (not_local (among scope.now).names (name.now ∷ []))) }
    ensures known { IfOk result (λ known. known ≡ is_known (among scope.now) name.now) }
{
    match scope.locals.get(name) {
        Some(_) => Ok(true),
        None => {
            asked.add(alloc, name)?;
            Ok(scope.headers.find(name).is_some())
        }
    }
}

/// Notes the names that are not local, and answers whether all names are known.
#[tactic(auto, using(crate::proofs::Checking::one_noted, crate::proofs::Checking::all_more))]
fn note_names(
    alloc: Global,
    scope: &Scope<'_>,
    asked: &mut Asked,
    names: &[Name],
) -> Result<bool, Memory>
    ensures asked { OnOk result (asked.new ≡ fold noted asked.old (not_local (among scope.now).names names.now)) }
    ensures known { IfOk result (λ known. known ≡ list_all (is_known (among scope.now)) names.now) }
{
    let mut known = true;
    for name in names {
        let one = note_name(alloc, scope, asked, name)?;
        known = known && one;
    }
    Ok(known)
}

// ---- the fault of a piece

fn code_of(again: bool, known: bool, right: bool) -> Option<u16>
    ensures { result ≡ fault_code again known right }
{
    if again {
        Some(DECLARED_TWICE)
    } else if !known {
        Some(UNKNOWN_NAME)
    } else if !right {
        Some(TYPES_DO_NOT_FIT)
    } else {
        None
    }
}

/// Adds the fault of a piece.
fn add_fault(faults: &mut Faults, line: u32, code: Option<u16>) -> Result<(), Memory>
    ensures { OnOk result (faults.new ≡ faults.old ++ fault_on line code) }
{
    if let Some(code) = code {
        faults.push(Fault { line, code })?;
    }
    Ok(())
}

/// Checks the header: its parameters are all local in their bounds.
#[tactic(auto, unfolding(crate::specs::Seen::with_piece))]
fn check_header(
    alloc: Global,
    rules: &Rules<'_>,
    found: &mut Found,
    header: &Header,
) -> Result<(), Memory>
    ensures { OnOk result (found.new ≡ checking rules.now found.old (header.now.line, Parameters (map formal_of header.now.params))) }
{
    let params = header.params.as_slice();
    let again = declare_params(alloc, &mut found.locals, params)?;
    let used = names_of_params(alloc, params)?;
    let scope = Scope {
        headers: rules.headers,
        gives: rules.gives,
        locals: &found.locals,
    };
    let right = params_fit(&scope, params);
    let known = note_names(alloc, &scope, &mut found.asked, used.as_slice())?;
    add_fault(&mut found.faults, header.line, code_of(again, known, right))
}

/// Checks one more piece.
#[tactic(auto, unfolding(crate::specs::Seen::with_piece), using(crate::proofs::Checking::at_other))]
fn check_part(
    alloc: Global,
    rules: &Rules<'_>,
    found: &mut Found,
    line: u32,
    part: Part<'_>,
) -> Result<(), Memory>
    ensures { OnOk result (found.new ≡ checking rules.now found.old (line, part_of part.entry)) }
{
    let used = names_of_part(alloc, part)?;
    let scope = Scope {
        headers: rules.headers,
        gives: rules.gives,
        locals: &found.locals,
    };
    let right = part_fits(&scope, part);
    let known = note_names(alloc, &scope, &mut found.asked, used.as_slice())?;
    let again = declare_part(alloc, &mut found.locals, part)?;
    add_fault(&mut found.faults, line, code_of(again, known, right))
}

// ---- the pieces of an algorithm

#[cycle(walk)]
#[tactic(auto, using(crate::proofs::Checking::two_folds))]
fn check_block(
    alloc: Global,
    rules: &Rules<'_>,
    found: &mut Found,
    block: &[Statement],
) -> Result<(), Memory>
    ensures { OnOk result (found.new ≡ fold (checking rules.now) found.old (block_pieces (block_of block.now))) }
{
    for statement in block {
        check_what(alloc, rules, found, statement.line, &statement.what)?;
    }
    Ok(())
}

#[cycle(walk)]
#[tactic(auto, using(crate::proofs::Checking::two_folds))]
fn check_cases(
    alloc: Global,
    rules: &Rules<'_>,
    found: &mut Found,
    cases: &[Case],
) -> Result<(), Memory>
    ensures { OnOk result (found.new ≡ fold (checking rules.now) found.old (arms_pieces (arms_of cases.now))) }
{
    for case in cases {
        check_part(
            alloc,
            rules,
            found,
            case.line,
            Part::Condition(&case.condition),
        )?;
        check_block(alloc, rules, found, case.body.as_slice())?;
    }
    Ok(())
}

/// Checks a piece and then the block behind it.
#[cycle(walk)]
fn check_guarded(
    alloc: Global,
    rules: &Rules<'_>,
    found: &mut Found,
    line: u32,
    part: Part<'_>,
    body: &[Statement],
) -> Result<(), Memory>
    ensures { OnOk result (found.new ≡ fold (checking rules.now) found.old ((line, part_of part.entry) ∷ block_pieces (block_of body.now))) }
{
    check_part(alloc, rules, found, line, part)?;
    check_block(alloc, rules, found, body)
}

/// Checks a block and then the condition that ends it.
#[cycle(walk)]
#[tactic(auto, using(crate::proofs::Checking::one_last))]
fn check_until(
    alloc: Global,
    rules: &Rules<'_>,
    found: &mut Found,
    body: &[Statement],
    close: u32,
    e: &Expr,
) -> Result<(), Memory>
    ensures { OnOk result (found.new ≡ fold (checking rules.now) found.old (block_pieces (block_of body.now) ++ ((close, Condition (tree e.now)) ∷ []))) }
{
    check_block(alloc, rules, found, body)?;
    check_part(alloc, rules, found, close, Part::Condition(e))
}

#[cycle(walk)]
#[tactic(auto, using(kumir_tree::proofs::Views::acts, crate::proofs::Checking::two_folds))]
fn check_what(
    alloc: Global,
    rules: &Rules<'_>,
    found: &mut Found,
    line: u32,
    what: &What,
) -> Result<(), Memory>
    ensures { OnOk result (found.new ≡ fold (checking rules.now) found.old (act_pieces line (act_of what.now))) }
{
    match what {
        What::Declare(declared) => {
            check_part(alloc, rules, found, line, Part::Declaring(declared))
        }
        What::Assign(target, e) => {
            check_part(alloc, rules, found, line, Part::Assigning(target, e))
        }
        What::Call(f, arguments) => {
            let call = Part::Calling(f, arguments.as_slice());
            check_part(alloc, rules, found, line, call)
        }
        What::Times(e, body) => {
            let times = Part::Repeating(e);
            check_guarded(alloc, rules, found, line, times, body.as_slice())
        }
        What::While(e, body) => {
            let test = Part::Condition(e);
            check_guarded(alloc, rules, found, line, test, body.as_slice())
        }
        What::Count(x, from, to, step, body) => {
            let count = Part::Counting(x, from, to, step);
            check_guarded(alloc, rules, found, line, count, body.as_slice())
        }
        What::Forever(body) => check_block(alloc, rules, found, body.as_slice()),
        What::Until(body, close, e) => {
            check_until(alloc, rules, found, body.as_slice(), *close, e)
        }
        What::Choose(e, first, other) => {
            let test = Part::Condition(e);
            check_guarded(alloc, rules, found, line, test, first.as_slice())?;
            check_block(alloc, rules, found, other.as_slice())
        }
        What::Select(cases, other) => {
            check_cases(alloc, rules, found, cases.as_slice())?;
            check_block(alloc, rules, found, other.as_slice())
        }
        What::Assert(e) => check_part(alloc, rules, found, line, Part::Condition(e)),
        What::Input(targets) => {
            check_part(alloc, rules, found, line, Part::Reading(targets.as_slice()))
        }
        What::Output(items) => {
            check_part(alloc, rules, found, line, Part::Printing(items.as_slice()))
        }
        What::Leave => Ok(()),
        What::Quit => Ok(()),
    }
}

fn check_claim(
    alloc: Global,
    rules: &Rules<'_>,
    found: &mut Found,
    claim: &Option<Check>,
) -> Result<(), Memory>
    ensures { OnOk result (found.new ≡ fold (checking rules.now) found.old (claim_pieces (some_claim claim.now))) }
{
    if let Some(claim) = claim {
        check_part(
            alloc,
            rules,
            found,
            claim.line,
            Part::Condition(&claim.condition),
        )?;
    }
    Ok(())
}

#[tactic(auto, using(crate::proofs::Checking::four_folds))]
fn check_tree(
    alloc: Global,
    rules: &Rules<'_>,
    found: &mut Found,
    tree: &UnitTree,
) -> Result<(), Memory>
    ensures { OnOk result (found.new ≡ fold (checking rules.now) found.old (pieces (algorithm_of tree.now))) }
{
    check_header(alloc, rules, found, &tree.header)?;
    check_claim(alloc, rules, found, &tree.given)?;
    check_claim(alloc, rules, found, &tree.wanted)?;
    check_block(alloc, rules, found, tree.body.as_slice())
}

fn find_all(alloc: Global, rules: &Rules<'_>, tree: &UnitTree) -> Result<Found, Memory>
    ensures { IfOk result (λ found. found ≡ fold (checking rules.now) nothing_found (pieces (algorithm_of tree.now))) }
{
    let mut found = Found {
        locals: Locals::new(alloc),
        asked: Asked::new(alloc),
        faults: Items::new(alloc),
    };
    check_tree(alloc, rules, &mut found, tree)?;
    Ok(found)
}

/// Checks the names and types of an algorithm among the headers of its program. It ticks once, also where memory runs out.
pub fn check_unit<L: Ledger>(
    alloc: Global,
    tree: &UnitTree,
    headers: &Headers,
    steps: &mut Steps<L>,
) -> Result<UnitFaults, Memory>
    ensures ticks { steps.new ≡ steps.old + 1 }
    ensures faults { IfOk result (λ unit. unit.faults ≡ unit_faults (callee (callees_of headers.now)) (algorithm_of tree.now)) }
    ensures asked { IfOk result (λ unit. unit.asked ≡ asked (algorithm_of tree.now)) }
{
    steps.tick();
    let rules = Rules {
        headers,
        gives: tree.header.gives,
    };
    let found = find_all(alloc, &rules, tree)?;
    let asked = found.asked.names(alloc)?;
    let Found { faults, .. } = found;
    Ok(UnitFaults { faults, asked })
}
