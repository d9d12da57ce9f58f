//! Laws over plain transcripts. These calls do nothing.
ghost use Rattle.std.specs.Prelude.{◌≡◌, ℕ, List};
ghost use Rattle.script_lines.specs.declared.request.Request.{Request};
ghost use Rattle.transcript.specs.declared.entry.Entry.{Entry};
ghost use Rattle.plain_run.specs.Plain.{IsPlain};

use incr_analysis::{one_analysis, one_list_of_units};

/// Each list of requests has exactly one plain transcript, for each number of steps that a run may take.
pub fn one_plain_transcript()
    ensures some { (budget : ℕ) (requests : List Request) → (entries : List Entry) × IsPlain budget requests entries }
    ensures one { (budget : ℕ) (requests : List Request) (a b : List Entry) →
        IsPlain budget requests a → IsPlain budget requests b → a ≡ b }
{
    one_analysis();
    one_list_of_units();
}
