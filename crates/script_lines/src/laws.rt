//! Laws over the requests of scripts. These calls do nothing.
ghost use Rattle.std.specs.Prelude.{◌≡◌, ◌≤◌, ◌++◌, ℕ, List, length};
ghost use Rattle.script_lines.specs.Requests.{whole, requests};
ghost use Rattle.script_lines.specs.declared.request.Request.{Request};

/// What a script has completed stays when more of it follows, and its end completes at most one request more.
pub fn whole_grows()
    ensures prefix { (b c : List ℕ) → (more : List Request) × (whole (b ++ c) ≡ whole b ++ more) }
    ensures end { (b : List ℕ) → (more : List Request) × (requests b ≡ whole b ++ more) × (length more ≤ 1) }
{}
