// What the check counts before it walks: the black nodes of one way, the linked slots, and the unlinked ones with a
// child.
ghost use Rattle.std.specs.Prelude.{◌≡◌, length};
ghost use Rattle.wellformed.specs.Checks.{stray, Descended, SameLengths, Tallied};
ghost use Rattle.wellformed.specs.Views.{Seen};

use crate::types::Tally;
use links::types::{Slot, View};

// The number of black nodes on the way from the root down the left links, as far as it goes.
pub fn blacks_down(view: &View) -> u32
    requires { length view.now.left.now ≡ length view.now.pc.now }
    ensures { Descended view.now.left.now view.now.pc.now view.now.root.0 result }
{
    let mut here = view.root;
    let mut blacks = 0;
    for _ in 0..links::DEPTH {
        if here.0 == 0 {
            break;
        }
        let at = here.index();
        let Some(mark) = view.pc.get(at) else {
            break;
        };
        blacks += mark % 2;
        here = Slot(view.left[at]);
    }
    blacks
}

// Whether an unlinked slot has a child.
pub fn is_stray(mark: u32, left: u32, right: u32) -> bool
    ensures { result ≡ stray left right mark }
{
    (mark == 0) & ((left != 0) | (right != 0))
}

// The number of linked slots, and of unlinked ones with a child.
pub fn tally(view: &View) -> Tally
    requires { Seen SameLengths view.now }
    ensures { Seen Tallied view.now result }
{
    let mut linked = 0;
    let mut strays = 0;
    // By index: the compiler counts four slots at once then, and over zipped arrays one by one.
    for index in 0..view.pc.len() {
        let mark = view.pc[index];
        linked += u32::from(mark != 0);
        strays += u32::from(is_stray(mark, view.left[index], view.right[index]));
    }
    Tally { linked, strays }
}
