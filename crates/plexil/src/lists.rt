// Tests of the numbers below n, and an element or a default: the code of the definitions of the same names.
ghost use Rattle.std.specs.Prelude.{◌≡◌, ◌<◌, ℕ, Bool, get_or};
ghost use Rattle.plexil.specs.Lists.{first, all_below, any_below};
ghost use Rattle.plexil.specs.Searches.{found_of};

// The lowest number below n that passes, if one does.
pub fn first<F: Fn(u16) -> bool>(n: u16, test: F) -> Option<u16>
    requires { (k : ℕ) → k < n → F.pre test k }
    ensures { (f : ℕ → Bool) → ((k : ℕ) (r : Bool) → k < n → F.post test k r → r ≡ f k) → found_of result ≡ first n f }
{
    for k in 0..n {
        if test(k) {
            return Some(k);
        }
    }
    None
}

// Each number below n passes.
pub fn all_below<F: Fn(u16) -> bool>(n: u16, test: F) -> bool
    requires { (k : ℕ) → k < n → F.pre test k }
    ensures { (f : ℕ → Bool) → ((k : ℕ) (r : Bool) → k < n → F.post test k r → r ≡ f k) → result ≡ all_below n f }
{
    for k in 0..n {
        if !test(k) {
            return false;
        }
    }
    true
}

// Some number below n passes.
pub fn any_below<F: Fn(u16) -> bool>(n: u16, test: F) -> bool
    requires { (k : ℕ) → k < n → F.pre test k }
    ensures { (f : ℕ → Bool) → ((k : ℕ) (r : Bool) → k < n → F.post test k r → r ≡ f k) → result ≡ any_below n f }
{
    for k in 0..n {
        if test(k) {
            return true;
        }
    }
    false
}

// Element i, or d where the list has none.
pub fn get_or<T: Copy>(xs: &[T], i: u16, d: T) -> T
    ensures { result ≡ get_or xs.now i d }
{
    match xs.get(i as usize) {
        Some(&x) => x,
        None => d,
    }
}
