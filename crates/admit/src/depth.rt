// Rule 10: the depth of each entry, from the depths of the entries before it.
ghost use Rattle.std.specs.Prelude.{◌≡◌, ◌<◌};
ghost use Rattle.plexil.specs.declared.Rule.TheVariants as rule;
ghost use Rattle.plexil.specs.Image.{expr_count};
ghost use Rattle.plexil.specs.Searches.{found_of};
ghost use Rattle.records.specs.Broken.{lowest_broken};
ghost use Rattle.admit.specs.Depth.{Depth, Passed, Filled};

// "A leaf has depth 1, an operator one more than its deepest operand". Operators below 6 are leaves, 6 is NOT: image::operator, a public function, answers the number.
fn depth<'a>(image: &'a [u8], depths: &'a [u8; 2048], e: u16) -> u8
    requires passed { Passed image.now }
    requires e_bound { e < expr_count image.now }
    requires filled { Filled image.now e depths.now }
    ensures { Depth image.now e result }
{
    let operator = image::operator(image, e);
    if operator < 6 {
        return 1;
    }
    let first = depths[image::operand_a(image, e) as usize];
    if operator == 6 {
        return first + 1;
    }
    let second = depths[image::operand_b(image, e) as usize];
    first.max(second) + 1
}

// "10 Deep: depth over 12"
pub(crate) fn broken_deep(image: &[u8]) -> Option<u16>
    requires { Passed image.now }
    ensures { found_of result ≡ lowest_broken rule.Deep image.now }
{
    let mut depths = [0u8; 2048];
    for i in 0..image::expr_count(image) {
        let d = depth(image, &depths, i);
        if d > 12 {
            return Some(i);
        }
        depths[i as usize] = d;
    }
    None
}
