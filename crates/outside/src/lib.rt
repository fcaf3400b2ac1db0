// The table of stores outside the image, in the working words: which entry has an address, what is remembered there, and the move of a
// store.
#![tactic(auto)]

ghost use Rattle.std.specs.Prelude.{◌≡◌, ◌+◌, ◌^◌, ◌<◌, ◌≤◌, length, MatchOption};
ghost use Rattle.location.specs.Sets.{empty};
ghost use Rattle.rules.specs.Rules.Expressions.{tagged};
ghost use Rattle.rules.specs.Rules.Outside.{recall, overfull};
ghost use Rattle.rules.specs.Rules.Changes.{position};
ghost use Rattle.work.specs.Layout.{log_base};
ghost use Rattle.work.specs.Words.{count_in};
ghost use Rattle.work.specs.Machines.{table_in, Fit, Left};
ghost use Rattle.outside.specs.Stores.{StoreTried};

use location::{Address, LocationSet};
use rules::Tagged;
use rules::limits::MAX_ENTRIES;
use work::machine::Control;

// The number of the entry with an address, if one has it, where there are `count`.
fn find(work: &[u64], count: usize, a: Address) -> Option<usize>
    requires { (count ≡ count_in work.now) × (log_base ≤ length work.now) }
    ensures { MatchOption result (position (table_in work.now) a.0 ≡ count) (λ i. (i ≡ position (table_in work.now) a.0) × (i < count)) }
{
    for i in 0..count {
        if work::address_of(work, i) == a.value() {
            return Some(i);
        }
    }
    None
}

// What is remembered at an address: 0 with the empty set where nothing is.
pub fn recall(work: &[u64], a: Address) -> Tagged
    requires { log_base ≤ length work.now }
    ensures { result ≡ recall (tagged 0 empty) (table_in work.now) a.0 }
{
    match find(work, work::entry_count(work), a) {
        Some(i) => work::load_entry(work, i),
        None => Tagged {
            value: 0,
            deps: LocationSet::empty(),
        },
    }
}

// Whether a store at an address would need one address too many.
pub fn is_overfull(work: &[u64], a: Address) -> bool
    requires { log_base ≤ length work.now }
    ensures { result ≡ overfull (table_in work.now) a.0 }
{
    let count = work::entry_count(work);
    if count < MAX_ENTRIES {
        return false;
    }
    find(work, count, a).is_none()
}

// The move of a store of v at an address outside the image, with so much left of the top's window: the entry of the address is replaced,
// or one is added. Where that needs one address too many, nothing changes, and there is no control after it.
pub fn store(
    work: &mut [u64],
    c: Control,
    a: Address,
    v: Tagged,
    remaining: usize,
) -> Option<Control>
    requires { Fit work.old c × Left c remaining × (c.place + 1 < 2 ^ 64) }
    ensures { StoreTried work.old work.new c result a.0 v remaining }
{
    let place = c.place + 1;
    let count = work::entry_count(work);
    if let Some(i) = find(work, count, a) {
        return Some(work::machine::replace(work, c, i, v, place, remaining));
    }
    if count >= MAX_ENTRIES {
        return None;
    }
    Some(work::machine::append(work, c, count, a, v, place, remaining))
}
