// The three rules of a step, carried out over the lent areas: the machine in the working words, the observations in the trace
// area, and the progress by value.
//
// The lent areas, the progress and the instruction are parameters of their own in each rule: a struct of them would hold both areas by reference, and
// two of its fields cannot be lent to one call.
#![tactic(auto)]

ghost use Rattle.std.specs.Prelude.{◌≡◌, List, [], ◌∷◌, ℕ, ◌+◌, ◌*◌, ◌^◌, ◌<◌, ◌≤◌, length};
ghost use Rattle.std.proofs.lemmas.List.Edits.{sets};
ghost use Rattle.location.specs.Sets.{registers, limit, empty};
ghost use Rattle.rules.specs.Rules.Calls.{trace_words, working_words};
ghost use Rattle.rules.specs.Rules.Instructions.{pc_kind, pc};
ghost use Rattle.rules.specs.Rules.Plain.{put, silent, load_effect, store_effect, go_effect};
ghost use Rattle.work.specs.Words.{tagged_at};
ghost use Rattle.work.specs.Machines.{max_window, Fit};
ghost use Rattle.stepping.specs.Progress.{standing, standing_before, standing_after, gather_at, progress_after, progress_unmade};
ghost use Rattle.stepping.specs.Steps.{Unexpired, Steppable, Charged, Leaves, Lowers, RolledBackTo, OpenedTo, CarriedOut, TriedOut, StateKept};
ghost use Rattle.stepping.specs.Steps.{word_effect, outside_effect};

use instruction::Instruction;
use location::{Address, Label, Location, LocationSet};
use rules::Tagged;
use rules::observation::{LOAD, PC, ROLLBACK, START, STORE};
use work::machine::Control;

// Where a run stands: the machine's control, the counts, the full set and the plain set. The rollbacks are not counted: every branch
// that was opened is open or rolled back.
#[derive(Clone, Copy)]
pub struct Progress {
    pub control: Control,
    pub observations: usize,
    pub steps: usize,
    pub full: LocationSet,
    pub plain: LocationSet,
}

// Observation number k, of a kind: a number, as the caller's trace area holds it (C interface).
fn observe(trace: &mut [u64], k: usize, kind: u64, value: u64)
    requires { 2 * k + 2 ≤ length trace.old }
    ensures { trace.new ≡ sets trace.old (2 * k) (kind ∷ value ∷ []) }
{
    let at = 2 * k;
    trace[at] = kind;
    trace[at + 1] = value;
}

// Two observations, from number k on: a start or rollback with its id, then a place.
fn observe_branch(trace: &mut [u64], k: usize, kind: u64, id: usize, place: usize)
    requires { 2 * k + 4 ≤ length trace.old }
    ensures { trace.new ≡ sets trace.old (2 * k) (kind ∷ id ∷ pc_kind ∷ place ∷ []) }
{
    observe(trace, k, kind, id as u64);
    observe(trace, k + 1, PC, place as u64);
}

// The plain set gathers what is observed with nothing open.
fn gather_plain(depth: usize, plain: LocationSet, seen: LocationSet) -> LocationSet
    ensures { result ≡ gather_at depth plain seen }
{
    if depth == 0 {
        return plain.union(seen);
    }
    plain
}

// One step is counted, with its observations; the set that it rests on is gathered.
fn count_step(c: Progress, control: Control, observations: usize, seen: LocationSet) -> Progress
    requires { (c.observations + observations < 2 ^ 64) × (c.steps + 1 < 2 ^ 64) }
    ensures { result ≡ progress_after c control observations seen }
{
    Progress {
        control,
        observations: c.observations + observations,
        steps: c.steps + 1,
        full: c.full.union(seen),
        plain: gather_plain(c.control.depth, c.plain, seen),
    }
}

// What the next step observes is gathered, also where it is a store that stops the run: its set joins the full set, and the plain set with
// nothing open. The step is not made, so that nothing is counted.
pub fn gather_unmade(c: Progress, deps: LocationSet) -> Progress
    ensures { result ≡ progress_unmade c deps }
{
    Progress {
        full: c.full.union(deps),
        plain: gather_plain(c.control.depth, c.plain, deps),
        ..c
    }
}

// Rule 1, with its observations.
pub fn roll_back(work: &mut [u64], trace: &mut [u64], c: Progress) -> Progress
    requires { Fit work.old c.control × (0 < c.control.depth) × (c.steps + 1 < 2 ^ 64) × (2 * (c.observations + 2) ≤ length trace.old) }
    ensures { RolledBackTo (standing_before work trace c) (standing_after work trace result) }
{
    let r = work::machine::roll_back(work, c.control);
    observe_branch(trace, c.observations, ROLLBACK, r.id, r.target);
    count_step(c, r.control, 2, LocationSet::empty())
}

// What an instruction leaves of a window, by its kind's entry in the table of window costs.
fn charged(work: &[u64], window: usize, i: Instruction) -> usize
    requires { working_words ≤ length work.now }
    ensures { Charged work.now window i result }
{
    let cost = work::cost_of(work, instruction::kind(i));
    instruction::lowered(cost, window as u64, i) as usize
}

// What an instruction leaves of the top's window. With nothing open the window is kept, so that it is 0 for rule 1 alone.
fn remaining_window(work: &[u64], c: Control, i: Instruction) -> usize
    requires { working_words ≤ length work.now }
    ensures { Leaves work.now c i result }
{
    if c.depth == 0 {
        return c.window;
    }
    charged(work, c.window, i)
}

// What an instruction that changes no location leaves of the top's window. The steps of a skip, a barrier and a jump to a constant ask nothing else
// of the depth, and a jump by it would cost more than what it spares. So with nothing open a cost is taken too, but 1 is left at least: a run
// begins with 1, and has it whenever nothing is open.
fn lowered_window(work: &[u64], c: Control, i: Instruction) -> usize
    requires { working_words ≤ length work.now }
    ensures { Lowers work.now c i result }
{
    let left = charged(work, c.window, i);
    if left == 0 {
        return work::machine::window_at(c.depth, 1, 0);
    }
    left
}

// Rule 2 for beqz r, l, with its observations; t is what the register holds, and w is the window of a branch that is opened with none
// open.
pub fn open_branch(
    work: &mut [u64],
    trace: &mut [u64],
    c: Progress,
    r: u8,
    l: Label,
    t: Tagged,
    w: usize,
) -> Progress
    requires { Steppable 2 (standing work.old trace.old c) × (c.control.opened + 1 < 2 ^ 64)
        × (r < registers) × (t ≡ tagged_at work.old r) × (w ≤ max_window) }
    ensures { OpenedTo r l.0 w (standing_before work trace c) (standing_after work trace result) }
{
    let next = c.control.place + 1;
    let target = evaluation::branch_to(t, l, next);
    let wrong = evaluation::branch_to(t, Label::new(next), l.index());
    let remaining = remaining_window(work, c.control, Instruction::BranchZero(r, l));
    let opened = work::machine::open_branch(work, c.control, wrong, target, w, remaining);
    observe_branch(trace, c.observations, START, c.control.opened, wrong);
    count_step(c, opened, 2, t.deps)
}

// Rule 3 for an instruction that changes no location and shows nothing.
pub fn skip(work: &[u64], c: Progress, i: Instruction) -> Progress
    requires { (working_words ≤ length work.now) × (c.control.place + 1 < 2 ^ 64) × (c.steps + 1 < 2 ^ 64) }
    ensures exact { StateKept work.now (c.control.place + 1) 0 empty i c result }
    ensures carried { (t : List ℕ) (cells : ℕ) → Unexpired work.now c → registers + cells ≤ limit
        → CarriedOut cells i (λ code σ. silent σ c.control.place) (standing work.now t c) (standing work.now t result) }
{
    let remaining = lowered_window(work, c.control, i);
    let next = work::machine::go(c.control, c.control.place + 1, remaining);
    count_step(c, next, 0, LocationSet::empty())
}

// Rule 3 for an instruction that gives register r the word v and shows nothing.
pub fn assign(work: &mut [u64], c: Progress, i: Instruction, r: u8, v: Tagged) -> Progress
    requires { Unexpired work.old c × (c.control.place + 1 < 2 ^ 64) × (c.steps + 1 < 2 ^ 64) × (r < registers) }
    ensures { (t : List ℕ) (cells : ℕ) → registers + cells ≤ limit
        → CarriedOut cells i (λ code σ. silent (put σ r v) c.control.place) (standing work.old t c) (standing work.new t result) }
{
    let remaining = remaining_window(work, c.control, i);
    let l = Location::register(r);
    let place = c.control.place + 1;
    let next = work::machine::assign(work, c.control, l, v, place, remaining);
    count_step(c, next, 0, LocationSet::empty())
}

// Rule 3 for a load of register r from the address a, where v is the word that it gives.
fn load_word(
    work: &mut [u64],
    trace: &mut [u64],
    c: Progress,
    i: Instruction,
    r: u8,
    a: Tagged,
    v: Tagged,
) -> Progress
    requires { Steppable 1 (standing work.old trace.old c) × (r < registers) }
    ensures { (cells : ℕ) → registers + cells ≤ limit
        → CarriedOut cells i (λ code σ. word_effect σ c.control.place r a v) (standing_before work trace c) (standing_after work trace result) }
{
    let remaining = remaining_window(work, c.control, i);
    observe(trace, c.observations, LOAD, a.value);
    let to = Location::register(r);
    let place = c.control.place + 1;
    let loaded = work::machine::assign(work, c.control, to, v, place, remaining);
    count_step(c, loaded, 1, a.deps)
}

// Rule 3 for a load of register r from the address a. A cell and a word outside the image go their own ways to the end of the step, so
// that the compiler does not make one slow tail of both.
pub fn load(
    work: &mut [u64],
    trace: &mut [u64],
    c: Progress,
    i: Instruction,
    cells: usize,
    r: u8,
    a: Tagged,
) -> Progress
    requires { Steppable 1 (standing work.old trace.old c) × (r < registers) × (registers + cells ≤ limit) }
    ensures { CarriedOut cells i (λ code σ. load_effect code σ c.control.place r a) (standing_before work trace c) (standing_after work trace result) }
{
    if cells as u64 <= a.value {
        let v = evaluation::loaded_outside(work, a);
        return load_word(work, trace, c, i, r, a, v);
    }
    let v = evaluation::loaded_cell(work, a);
    load_word(work, trace, c, i, r, a, v)
}

// Rule 3 for a store of v at the address a outside the image. Where it needs one address too many the step is not made.
fn store_outside(
    work: &mut [u64],
    trace: &mut [u64],
    c: Progress,
    i: Instruction,
    a: Tagged,
    v: Tagged,
) -> Progress
    requires { Steppable 1 (standing work.old trace.old c) }
    ensures { (cells : ℕ) → registers + cells ≤ limit
        → TriedOut cells i (λ code σ. outside_effect σ c.control.place a v) (standing_before work trace c) (standing_after work trace result) }
{
    let remaining = remaining_window(work, c.control, i);
    let Some(next) = outside::store(work, c.control, Address::new(a.value), v, remaining) else {
        return c;
    };
    observe(trace, c.observations, STORE, a.value);
    count_step(c, next, 1, a.deps)
}

// Rule 3 for a store of register r at the address a: the cell takes the register's word, or it is remembered outside the image. Where
// it needs one address too many the step is not made. The two ways do not meet again, as in `load`.
pub fn store(
    work: &mut [u64],
    trace: &mut [u64],
    c: Progress,
    i: Instruction,
    cells: usize,
    r: u8,
    a: Tagged,
) -> Progress
    requires { Steppable 1 (standing work.old trace.old c) × (r < registers) × (registers + cells ≤ limit) }
    ensures { TriedOut cells i (λ code σ. store_effect code σ c.control.place r a) (standing_before work trace c) (standing_after work trace result) }
{
    let address = a.value;
    let v = evaluation::joined(work::load(work, Location::register(r)), a.deps);
    if cells as u64 <= address {
        return store_outside(work, trace, c, i, a, v);
    }
    let remaining = remaining_window(work, c.control, i);
    observe(trace, c.observations, STORE, address);
    let cell = Location::cell(Address::new(address));
    let place = c.control.place + 1;
    let stored = work::machine::assign(work, c.control, cell, v, place, remaining);
    count_step(c, stored, 1, a.deps)
}

// Rule 3 for a jump or a branch to a place, which rests on the set `seen`.
pub fn go_to(
    work: &[u64],
    trace: &mut [u64],
    c: Progress,
    i: Instruction,
    place: usize,
    seen: LocationSet,
) -> Progress
    requires { (working_words ≤ length work.now) × (2 * (c.observations + 1) ≤ length trace.old) × (c.steps + 1 < 2 ^ 64) }
    ensures exact { StateKept work.now place 1 seen i c result
        × (trace.new ≡ sets trace.old (2 * c.observations) (trace_words (pc place ∷ []))) }
    ensures carried { (v : Tagged) (cells : ℕ) → v.deps ≡ seen → Unexpired work.now c → registers + cells ≤ limit
        → CarriedOut cells i (λ code σ. go_effect σ place v)
        (standing work.now trace.old c) (standing work.now trace.new result) }
{
    let remaining = lowered_window(work, c.control, i);
    let gone = work::machine::go(c.control, place, remaining);
    observe(trace, c.observations, PC, place as u64);
    count_step(c, gone, 1, seen)
}
