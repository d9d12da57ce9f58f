//! Requests whose lines are gathered.
ghost use Rattle.std.specs.Prelude.{◌≡◌, ◌≢◌, ◌+◌, ◌<◌, ℕ, List, [], ◌∷◌, ◌++◌, Option, Some, None, All, IfOk, IfSome, length, cond, nat_lt};
ghost use Rattle.script_lines.specs.Begun.{Begun, begun_of, wanted, completed, left_by};
ghost use Rattle.script_lines.specs.Reader.{IsGathered, Gathers, IsKept, answered};
ghost use Rattle.script_lines.specs.Requests.{asked, lines_wanted};
ghost use Rattle.script_lines.specs.Words.{request_line};

use crate::read::{RequestLine, plain_text, read_request_line};
use crate::request::{Ask, Request};
use km_base::Memory;
use kumir_tree::{Line, Lines};
use std::alloc::Global;
use text_versions::Edit;

/// A request line and the lines so far that follow it.
#[derive(Debug, Drop)]
pub struct Gathered {
    /// The number of the request line.
    pub first: u32,
    pub head: RequestLine,
    /// How many lines followed.
    pub taken: u32,
    /// Whether each of them is one that a request can have.
    pub is_plain: bool,
    /// The lines, where they are.
    pub lines: Lines,
}

fn lines_wanted(head: &RequestLine) -> u32
    ensures { result ≡ lines_wanted head.now }
{
    match head {
        RequestLine::Nothing | RequestLine::Alone(_) => 0,
        RequestLine::EditHead { added, .. } => *added,
        RequestLine::FieldHead { lines } => *lines,
    }
}

/// The request with all of its lines.
fn complete(gathered: Gathered) -> Request
    ensures { (b : Begun) → IsGathered b gathered → result ≡ record { line = b.first; ask = asked (request_line b.head) b.sofar } }
{
    let Gathered {
        first,
        head,
        is_plain,
        lines,
        ..
    } = gathered;
    let ask = match head {
        RequestLine::Nothing => Ask::Bad,
        RequestLine::Alone(ask) => ask,
        RequestLine::EditHead { from, count, .. } if is_plain => Ask::Edit(Edit {
            from,
            count,
            lines,
        }),
        RequestLine::FieldHead { .. } if is_plain => Ask::Field(lines),
        _ => Ask::Bad,
    };
    Request { line: first, ask }
}

/// The request, where all of its lines are there, or else what is gathered of it.
fn settle(gathered: Gathered) -> (Option<Request>, Option<Gathered>)
    ensures request { (b : Begun) → IsGathered b gathered → answered result.0 ≡ cond (nat_lt (length b.sofar) (wanted b.head)) [] ((record { line = b.first; ask = asked (request_line b.head) b.sofar }) ∷ []) }
    ensures left { (b : Begun) → IsGathered b gathered → Gathers (cond (nat_lt (length b.sofar) (wanted b.head)) (Some b) None) result.1 }
{
    if gathered.taken < lines_wanted(&gathered.head) {
        (None, Some(gathered))
    } else {
        (Some(complete(gathered)), None)
    }
}

/// One more line that follows.
fn gather(alloc: Global, gathered: Gathered, line: &[u8]) -> Result<Gathered, Memory>
    requires ended { All (λ b. b ≢ 10) line.now }
    requires room { gathered.taken + 1 < 4294967296 }
    ensures { (b : Begun) (l : List ℕ) → IsGathered b gathered → IsKept l line.now → IfOk result (λ g. IsGathered (begun_of b.first b.head (b.sofar ++ l ∷ [])) g) }
{
    let Gathered {
        first,
        head,
        taken,
        is_plain,
        mut lines,
    } = gathered;
    match plain_text(line) {
        Some(text) if is_plain => {
            lines.push(Line::new(alloc, text)?)?;
            Ok(Gathered {
                first,
                head,
                taken: taken + 1,
                is_plain,
                lines,
            })
        }
        _ => Ok(Gathered {
            first,
            head,
            taken: taken + 1,
            is_plain: false,
            lines: Lines::new(alloc),
        }),
    }
}

/// What the line is where a request line is due.
fn begin(
    alloc: Global,
    number: u32,
    line: &[u8],
) -> Result<(Option<Request>, Option<Gathered>), Memory>
    ensures request { (l : List ℕ) → IsKept l line.now → IfOk result (λ p. answered p.0 ≡ completed number None l) }
    ensures left { (l : List ℕ) → IsKept l line.now → IfOk result (λ p. Gathers (left_by number None l) p.1) }
{
    match read_request_line(alloc, line)? {
        RequestLine::Nothing => Ok((None, None)),
        RequestLine::Alone(ask) => Ok((Some(Request { line: number, ask }), None)),
        head => Ok(settle(Gathered {
            first: number,
            head,
            taken: 0,
            is_plain: true,
            lines: Lines::new(alloc),
        })),
    }
}

/// What one more line completes, and what it leaves with lines missing.
pub fn take_line(
    alloc: Global,
    gathered: Option<Gathered>,
    number: u32,
    line: &[u8],
) -> Result<(Option<Request>, Option<Gathered>), Memory>
    requires ended { All (λ b. b ≢ 10) line.now }
    requires room { IfSome gathered (λ g. g.taken + 1 < 4294967296) }
    ensures request { (b : Option Begun) (l : List ℕ) → Gathers b gathered → IsKept l line.now → IfOk result (λ p. answered p.0 ≡ completed number b l) }
    ensures left { (b : Option Begun) (l : List ℕ) → Gathers b gathered → IsKept l line.now → IfOk result (λ p. Gathers (left_by number b l) p.1) }
{
    match gathered {
        None => begin(alloc, number, line),
        Some(gathered) => Ok(settle(gather(alloc, gathered, line)?)),
    }
}
