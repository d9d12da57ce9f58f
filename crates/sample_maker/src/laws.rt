//! A law over summaries. This call does nothing.
ghost use Rattle.std.specs.Prelude.{◌≡◌, ℕ};
ghost use Rattle.sample_maker.specs.declared.printed.Summary.{Summary};
ghost use Rattle.sample_maker.specs.Summaries.{IsSummaryOf};

use algo_parser::one_list_of_spans;
use plain_run::one_plain_transcript;

/// Each number has exactly one summary.
pub fn one_summary()
    ensures some { (number : ℕ) → (s : Summary) × IsSummaryOf number s }
    ensures one { (number : ℕ) (a b : Summary) → IsSummaryOf number a → IsSummaryOf number b → a ≡ b }
{
    one_plain_transcript();
    one_list_of_spans();
}
