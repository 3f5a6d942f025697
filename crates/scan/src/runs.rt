// Where a run of bytes ends: a place in the text, as the definition `run_end` counts it.
ghost use Rattle.std.specs.Prelude.{◌≡◌, ℕ, Bool, drop};
ghost use Rattle.scan.specs.Runs.{Tells, run_end};

// The place of the first byte from `at` on that fails the test; the end of the text where none does.
pub fn run_end<F: Fn(u8) -> bool>(text: &[u8], at: usize, passes: F) -> usize
    requires { F.IsAlwaysCallable passes }
    ensures { (test : ℕ → Bool) → Tells (F.post passes) test → result ≡ run_end test at (drop at text.now) }
{
    // The place is the answer wherever the loop ends, also where `at` is past the text: a `for` would need a second answer for its end.
    let mut end = at;
    while end < text.len() && passes(text[end]) {
        end += 1;
    }
    end
}
