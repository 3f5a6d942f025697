// Whether all children of a node are Finished, and whether all are Waiting or Finished: one pass over the nodes answers for every list.
ghost use Rattle.atomic.specs.Children.{Answered};

use super::statuses::{is_finished, is_resting};
use places::status_at;

#[derive(Clone, Copy)]
pub struct ChildTests {
    pub finished: [bool; 256],
    pub resting: [bool; 256],
}

pub fn test_children(image: &[u8], st: &[u8]) -> ChildTests
    ensures { Answered image.now st.now result }
{
    let mut finished = [true; 256];
    let mut resting = [true; 256];
    for j in 0..image::node_count(image) {
        let q = image::parent(image, j) as usize;
        let a = status_at(st, j);
        let f = is_finished(a);
        let r = is_resting(a);
        if q < 256 {
            finished[q] &= f;
            resting[q] &= r;
        }
    }
    ChildTests { finished, resting }
}
