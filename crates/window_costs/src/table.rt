// A table of window costs that was tested: who has one need not test it again.
ghost use Rattle.std.specs.Prelude.{◌≡◌, true, false, IfOk, IfErr};
ghost use Rattle.rules.specs.declared.Refusal.TheVariants.{Costs};
ghost use Rattle.rules.specs.Rules.Costs.{costs_fit};

use rules::Refusal;

// The entries, a byte for each kind of instruction, in kind order.
#[derive(Clone, Copy)]
pub struct WindowCosts<'a> {
    pub entries: &'a [u8],
    pub ghost fit: { costs_fit entries.now ≡ true },
}

impl<'a> WindowCosts<'a> {
    // The table that a caller supplies. What is none is refused.
    pub fn new(entries: &'a [u8]) -> Result<Self, Refusal>
        ensures ok { IfOk result (λ c. c.entries.now ≡ entries.now) }
        ensures err { IfErr result (λ n. (n ≡ Costs) × (costs_fit entries.now ≡ false)) }
    {
        if super::costs_fit(entries) {
            return Ok(WindowCosts { entries });
        }
        Err(Refusal::Costs)
    }
}
