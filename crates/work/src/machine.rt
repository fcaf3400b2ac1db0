// The mispredicting machine in the working words: document 01's rules as moves from one control to the next. What is left of a
// window is computed by the caller.
ghost use Rattle.std.specs.Prelude.{◌≡◌, ◌+◌, ◌^◌, ◌<◌, ◌≤◌};
ghost use Rattle.location.specs.Sets.{limit};
ghost use Rattle.rules.specs.Rules.Limits.{max_entries};
ghost use Rattle.rules.specs.Rules.Plain.{put, with_outside};
ghost use Rattle.rules.specs.Rules.Changes.{reworded};
ghost use Rattle.work.specs.Words.{count_in, window_at};
ghost use Rattle.work.specs.Machines.{with_entry, max_window, Fit, Left};
ghost use Rattle.work.specs.Moves.{Moves, RollsBack, ordinary_next, gone, logged_to, opening_next};

use super::OpenBranch;
use location::{Address, Location, LocationSet};
use rules::Tagged;

// The place, how many branches are open, how many changes are logged, how many branches were opened in all, and the window of the
// top one; with none open it is no window, and not 0.
#[derive(Clone, Copy)]
pub struct Control {
    pub place: usize,
    pub depth: usize,
    pub log: usize,
    pub opened: usize,
    pub window: usize,
}

// The control after a rollback, with the id and the true target of the branch that was rolled back.
#[derive(Drop)]
pub struct RolledBack {
    pub control: Control,
    pub id: usize,
    pub target: usize,
}

// Rule 1: the top branch is dropped, and every location and the table outside the image get back what they held when the branch was opened.
pub fn roll_back(work: &mut [u64], c: Control) -> RolledBack
    requires fit { Fit work.old c }
    requires depth_nonzero { 0 < c.depth }
    ensures { RollsBack work.old work.new c result }
{
    let depth = c.depth - 1;
    let top = super::load_branch(work, depth);
    super::undo(work, c.log, top.mark);
    RolledBack {
        control: Control {
            place: top.target,
            depth,
            log: top.mark,
            window: top.outer,
            ..c
        },
        id: top.id,
        target: top.target,
    }
}

// With so many branches open: `window` with none, else `remaining`. So the window of a branch that is opened over so many others.
pub fn window_at(depth: usize, window: usize, remaining: usize) -> usize
    ensures { result ≡ window_at depth window remaining }
{
    if depth == 0 {
        return window;
    }
    remaining
}

// Rule 2: a branch is opened, and the machine goes on at the wrong place. `window` is what a branch has that is opened with
// nothing open.
pub fn open_branch(
    work: &mut [u64],
    c: Control,
    wrong: usize,
    target: usize,
    window: usize,
    remaining: usize,
) -> Control
    requires fit { Fit work.old c }
    requires left { Left c remaining }
    requires window_le_max_window { window ≤ max_window }
    requires opened_bound { c.opened + 1 < 2 ^ 64 }
    ensures { Moves work.old work.new c result (λ M. opening_next M wrong target window remaining) }
{
    let b = OpenBranch {
        id: c.opened,
        target,
        outer: remaining,
        mark: c.log,
    };
    super::push_branch(work, c.depth, b);
    Control {
        place: wrong,
        depth: c.depth + 1,
        opened: c.opened + 1,
        window: window_at(c.depth, window, remaining),
        ..c
    }
}

// The control after a change that is logged.
fn logged(c: Control, place: usize, remaining: usize) -> Control
    requires { c.log + 1 < 2 ^ 64 }
    ensures { result ≡ logged_to c place remaining }
{
    Control {
        log: c.log + 1,
        ..go(c, place, remaining)
    }
}

// Rule 3 for an instruction that gives location l the word v. `replace` is written out apart: with one function for both, the compiler gave
// the steps that change nothing a jump more.
pub fn assign(
    work: &mut [u64],
    c: Control,
    l: Location,
    v: Tagged,
    place: usize,
    remaining: usize,
) -> Control
    requires { Fit work.old c × Left c remaining × (l.0 < limit) }
    ensures { Moves work.old work.new c result (λ M. ordinary_next M (put M.state l.0 v) place remaining) }
{
    let k = l.index();
    if c.depth == 0 {
        super::store(work, k, v);
        return go(c, place, remaining);
    }
    super::change(work, c.log, k, v);
    logged(c, place, remaining)
}

// Rule 3 for a store that replaces the word of entry i of the table outside the image.
pub fn replace(
    work: &mut [u64],
    c: Control,
    i: usize,
    v: Tagged,
    place: usize,
    remaining: usize,
) -> Control
    requires { Fit work.old c × Left c remaining × (i < max_entries) }
    ensures { Moves work.old work.new c result
        (λ M. ordinary_next M (with_outside M.state (reworded M.state.outside i v)) place remaining) }
{
    let entry = LocationSet::LIMIT + i;
    if c.depth == 0 {
        super::store(work, entry, v);
        return go(c, place, remaining);
    }
    super::change(work, c.log, entry, v);
    logged(c, place, remaining)
}

// Rule 3 for a store that adds an entry to the table, which has i.
pub fn append(
    work: &mut [u64],
    c: Control,
    i: usize,
    a: Address,
    v: Tagged,
    place: usize,
    remaining: usize,
) -> Control
    requires { Fit work.old c × Left c remaining × (i ≡ count_in work.old) × (i < max_entries) }
    ensures { Moves work.old work.new c result (λ M. ordinary_next M (with_entry M.state a.0 v) place remaining) }
{
    let address = a.value();
    if c.depth == 0 {
        super::append(work, i, address, v);
        return go(c, place, remaining);
    }
    super::extend(work, c.log, i, address, v);
    logged(c, place, remaining)
}

// Rule 3 for an instruction that changes no location: nor does it change a word.
pub fn go(c: Control, place: usize, remaining: usize) -> Control
    ensures { result ≡ gone c place remaining }
{
    Control {
        place,
        window: remaining,
        ..c
    }
}
