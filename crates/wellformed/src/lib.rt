// The whole check: whether lent arrays are well formed, W1 to W6, whatever they hold. A count is that of the missing
// children of a subtree, one more than its nodes, and 0 where something is wrong: counts as options were tried, and the
// check was slower by a sixth. `Quick` of theory has each count as a definition.
#![tactic(auto)]

pub mod counts;
pub mod slots;
pub mod types;

ghost use Rattle.std.specs.Prelude.{◌≡◌, ◌+◌, ◌-◌, ◌/◌, ◌<◌};
ghost use Rattle.model.specs.Branch.{pick};
ghost use Rattle.model.specs.Check.{check as accepts};
ghost use Rattle.theory.specs.Quick.{sum_of, is_tip, tip_ends, black_child, any_child, red_ends, black_ends};
ghost use Rattle.theory.specs.Quick.{tree_ends};
ghost use Rattle.links.specs.Bundles.{viewed};
ghost use Rattle.wellformed.specs.Checks.{highest, HasKeys, Fits, Ready, TipPre, RedPre, BlackPre, DeepPre, Rooted};
ghost use Rattle.wellformed.specs.Tests.{Checked};
ghost use Rattle.wellformed.specs.Views.{Seen, arrays_in};

use links::types::{Color, Key, Refusal, Slot, Sound, View};

// The count of both sides, or 0 where something is wrong on one. An option in place of the 0 was slower.
fn sum_of(x: u32, y: u32) -> u32
    requires { x + y < 4294967296 }
    ensures { result ≡ sum_of x y }
{
    if (x == 0) | (y == 0) { 0 } else { x + y }
}

// Whether a slot is a red child of another, without children, its key between the two.
fn is_red_end(view: &View, parent: Slot, slot: Slot, low: Key, high: Key) -> bool
    requires { Seen TipPre view.now parent.0 slot.0 }
    ensures { result ≡ is_tip (arrays_in view.now) parent.0 slot.0 low.0 high.0 }
{
    let mark = links::number_at(view.pc, slot);
    let left = links::number_at(view.left, slot);
    let right = links::number_at(view.right, slot);
    let key = links::key_of(view.key, slot);
    let childless = (left == 0) & (right == 0);
    (mark == 2 * parent.0) & (childless & slots::between(low, key, high))
}

// 1 where there is nothing, else 2 if all is well.
fn end_count(missing: bool, good: bool) -> u32
    ensures { result ≡ pick missing 1 (pick good 2 0) }
{
    if missing {
        1
    } else if good {
        2
    } else {
        0
    }
}

// The count of a child where no black node may come: nothing, or a red node without children. For nothing another slot
// is looked at, in vain: no branch hangs on it.
fn end_check(view: &View, parent: Slot, slot: Slot, low: Key, high: Key) -> u32
    requires { Seen Ready view.now parent.0 }
    ensures { result ≡ tip_ends (arrays_in view.now) parent.0 slot.0 low.0 high.0 }
{
    let missing = slot.0 == 0;
    let at = links::pick(missing, parent, slot);
    if view.pc.len() < at.0 as usize {
        return 0;
    }
    let good = is_red_end(view, parent, at, low, high);
    end_count(missing, good)
}

// The count under the last black node of every way.
fn last_check(view: &View, slot: Slot, low: Key, high: Key) -> u32
    requires { Seen Ready view.now slot.0 }
    ensures { result ≡ black_ends 0 (arrays_in view.now) slot.0 low.0 high.0 }
{
    let Some(node) = slots::node_at(view, slot, low, high) else {
        return 0;
    };
    let x = end_check(view, slot, node.left, low, node.key);
    let y = end_check(view, slot, node.right, node.key, high);
    sum_of(x, y)
}

// The count of a child of a red node, which has to be black.
#[cycle(black_check_red_check)]
fn child_of_red(view: &View, depth: u32, parent: Slot, child: Slot, low: Key, high: Key) -> u32
    requires { Seen RedPre view.now depth parent.0 }
    ensures { result ≡ black_child (arrays_in view.now)
        (black_ends (depth / 2 - 1) (arrays_in view.now))
        parent.0 child.0 low.0 high.0 }
{
    match slots::kin_of(view.pc, parent, child) {
        Some(Color::Black) => black_check(view, depth - 1, child, low, high),
        _ => 0,
    }
}

// The count under a red node.
#[cycle(black_check_red_check)]
fn red_check(view: &View, depth: u32, slot: Slot, low: Key, high: Key) -> u32
    requires { Seen RedPre view.now depth slot.0 }
    ensures { result ≡ red_ends (arrays_in view.now)
        (black_ends (depth / 2 - 1) (arrays_in view.now))
        slot.0 low.0 high.0 }
{
    let Some(node) = slots::node_at(view, slot, low, high) else {
        return 0;
    };
    let x = child_of_red(view, depth, slot, node.left, low, node.key);
    let y = child_of_red(view, depth, slot, node.right, node.key, high);
    sum_of(x, y)
}

// The count of a child of a black node, which may have either colour. A black node takes 2 of the depth, and a red one
// below it 1 of those, so that every way has to use up the same number of black nodes.
#[cycle(black_check_red_check)]
fn child_of_black(view: &View, depth: u32, parent: Slot, child: Slot, low: Key, high: Key) -> u32
    requires { Seen DeepPre view.now depth parent.0 }
    ensures { result ≡ any_child (arrays_in view.now)
        (black_ends ((depth - 2) / 2 - 1) (arrays_in view.now))
        parent.0 child.0 low.0 high.0 }
{
    match slots::kin_of(view.pc, parent, child) {
        Some(Color::Red) => red_check(view, depth - 1, child, low, high),
        Some(Color::Black) => black_check(view, depth - 2, child, low, high),
        None => 0,
    }
}

// The count under a black node.
#[cycle(black_check_red_check)]
fn black_check(view: &View, depth: u32, slot: Slot, low: Key, high: Key) -> u32
    requires { Seen BlackPre view.now depth slot.0 }
    ensures { result ≡ black_ends (depth / 2 - 1) (arrays_in view.now) slot.0 low.0 high.0 }
{
    if depth <= 2 {
        return last_check(view, slot, low, high);
    }
    let Some(node) = slots::node_at(view, slot, low, high) else {
        return 0;
    };
    let x = child_of_black(view, depth, slot, node.left, low, node.key);
    let y = child_of_black(view, depth, slot, node.right, node.key, high);
    sum_of(x, y)
}

// Whether there are as many keys as slots; what an array of keys holds is at most the highest.
fn has_keys(key: &[u64], slots: usize) -> bool
    ensures { HasKeys key.now slots result }
{
    key.len() == slots
}

// W1.
fn fits(view: &View) -> bool
    ensures { Fits view.now result }
{
    let slots = view.pc.len();
    let alike = (view.left.len() == slots)
        & (view.right.len() == slots)
        & has_keys(view.key, slots);
    alike & (slots <= links::CAPACITY) & (view.root.0 as usize <= slots)
}

// The count of the whole tree. More black nodes than the depth has room for fit on no way.
fn tree_check(view: &View) -> u32
    requires { Seen Rooted view.now view.now.root.0 }
    ensures { result ≡ tree_ends highest (viewed view.now) }
{
    let root = view.root;
    if root.0 == 0 {
        return 1;
    }
    let Some(Color::Black) = slots::kin_of(view.pc, Slot(0), root) else {
        return 0;
    };
    let blacks = counts::blacks_down(view);
    if links::DEPTH < 2 * blacks {
        return 0;
    }
    black_check(view, 2 * blacks, root, Key(0), Key(u64::MAX))
}

// W1 to W6.
#[inline(always)]
pub fn check(view: View) -> bool
    ensures { result ≡ accepts (viewed view.entry) }
{
    if !fits(&view) {
        return false;
    }
    let tally = counts::tally(&view);
    if tally.strays != 0 {
        return false;
    }
    tree_check(&view) == tally.linked + 1
}

// All that is lent, where it is well formed; else Damaged.
#[inline(always)]
pub fn checked(view: View) -> Result<Sound, Refusal>
    ensures { Checked view.entry result }
{
    if check(view) {
        Ok(Sound { view })
    } else {
        Err(Refusal::Damaged)
    }
}
