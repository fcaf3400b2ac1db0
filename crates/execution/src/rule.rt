// What is next in a run, by its control alone: nothing, rule 1, or the instruction at the place.
ghost use Rattle.std.specs.Prelude.{◌≡◌, List, ℕ, ◌<◌};
ghost use Rattle.work.specs.Machines.{machine_of};
ghost use Rattle.execution.specs.Next.{over_at, rule_at};

use work::machine::Control;

// `Over` is END with nothing open; `Advance` is the next instruction, by rule 2 or 3.
#[derive(Drop)]
pub enum Rule {
    Over,
    RollBack,
    Advance,
}

// Whether the machine is at END with nothing open.
pub fn is_over(c: Control, end: usize) -> bool
    ensures { result ≡ over_at c.depth end c.place }
{
    c.depth == 0 && end <= c.place
}

// A window of 0 is always rule 1's, as with nothing open it is not 0.
pub fn rule_of(c: Control, end: usize) -> Rule
    requires { c.depth ≡ 0 → 0 < c.window }
    ensures { (w : List ℕ) (n : ℕ) → result ≡ rule_at end c.depth (machine_of w c n) }
{
    if end <= c.place {
        if c.depth == 0 {
            return Rule::Over;
        }
        return Rule::RollBack;
    }
    if c.window == 0 {
        return Rule::RollBack;
    }
    Rule::Advance
}
