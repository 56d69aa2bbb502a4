// What a rule says, and what it says of a set.
ghost use Rattle.std.specs.Prelude.{◌<◌, ◌≤◌, ◌≡◌, length};
ghost use Rattle.theory.specs.Rule.{all, clear, count, exception, withheld, rule as rule_of};
ghost use Rattle.items.specs.Item.{fact_id, has};
ghost use Rattle.tables.specs.Layout.{place_in};
ghost use Rattle.tables.specs.Held.{held};

use crate::layout::{CONCLUSIONS, PLACES, Tables, WITHHELD, wide};
use crate::own::in_file_order;
use items::item::{FactId, RuleId};

impl Tables {
    // The conclusion.
    pub fn conclusion(&self, rule: RuleId) -> FactId
        requires { rule.0 < count (held self.now) }
        ensures { result ≡ fact_id (rule_of (held self.now) rule.0).conclusion }
    {
        let number = rule.0 as usize;
        FactId(self.cells[CONCLUSIONS + number])
    }

    // The place in the file behind the item that opens it.
    pub fn place(&self, rule: RuleId) -> u16
        requires { rule.0 < count (held self.now) }
        ensures { result ≡ place_in self.now.cells rule.0 }
    {
        let number = rule.0 as usize;
        self.cells[PLACES + number]
    }

    // Is its conclusion in the set?
    pub fn conclusion_in(&self, rule: RuleId, set: &[u8]) -> bool
        requires rule_known { rule.0 < count (held self.now) }
        requires set_len { (held self.now).facts ≤ length set.now }
        ensures { result ≡ has set.now (rule_of (held self.now) rule.0).conclusion }
    {
        let fact = self.conclusion(rule);
        set[fact.0 as usize] == 1
    }

    // Is it an exception rule?
    pub fn is_exception(&self, rule: RuleId) -> bool
        requires { rule.0 < count (held self.now) }
        ensures { result ≡ exception (held self.now) rule.0 }
    {
        self.constraints(rule).len() > 0
    }

    // Is it withheld?
    pub fn is_withheld(&self, rule: RuleId) -> bool
        requires { rule.0 < count (held self.now) }
        ensures { result ≡ withheld (held self.now) rule.0 }
    {
        let number = rule.0 as usize;
        self.cells[WITHHELD + number] == 1
    }

    // Are its premises in the set?
    pub fn premises_in(&self, rule: RuleId, set: &[u8]) -> bool
        requires rule_known { rule.0 < count (held self.now) }
        requires set_len { (held self.now).facts ≤ length set.now }
        ensures { result ≡ all (has set.now) (rule_of (held self.now) rule.0).premises }
    {
        for &fact in self.premises(rule) {
            if set[wide(fact)] != 1 {
                return false;
            }
        }
        true
    }

    // Are its constraints all outside the set?
    pub fn constraints_clear(&self, rule: RuleId, set: &[u8]) -> bool
        requires rule_known { rule.0 < count (held self.now) }
        requires set_len { (held self.now).facts ≤ length set.now }
        ensures { result ≡ clear (has set.now) (rule_of (held self.now) rule.0).constraints }
    {
        let own = self.constraints(rule);
        for place in 0..own.len() {
            let fact = in_file_order(own, place);
            if set[wide(fact)] == 1 {
                return false;
            }
        }
        true
    }
}
