// The table of window costs: what each kind of instruction takes of an open branch's window, one byte a kind, in kind order.
#![tactic(auto)]

pub mod table;

ghost use Rattle.std.specs.Prelude.{◌≡◌};
ghost use Rattle.rules.specs.Rules.Instructions.{window_costs};
ghost use Rattle.rules.specs.Rules.Costs.{costs_fit};

use rules::limits::{KINDS, MAX_COST, MIN_COST};

// Document 01's table: every kind takes 1.
const WINDOW_COSTS: [u8; KINDS] = [1, 1, 1, 1, 1, 1, 1, 1];

// The fixed table, for a plain run and for the printing program.
pub fn fixed() -> [u8; KINDS]
    ensures { result ≡ window_costs }
{
    WINDOW_COSTS
}

// Whether a table that a caller supplies is one: a byte for each kind, and each of them 1 to 16. Any other is refused.
pub fn costs_fit(costs: &[u8]) -> bool
    ensures { result ≡ costs_fit costs.now }
{
    costs.len() == KINDS
        && costs
            .iter()
            .all(|cost| (MIN_COST..=MAX_COST).contains(cost))
}
