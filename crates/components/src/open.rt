// Open facts and roots. Internal.
ghost use Rattle.std.specs.Prelude.{◌<◌, ◌≤◌, ◌≡◌, length};
ghost use Rattle.items.specs.Item.{narrow, max_facts};
ghost use Rattle.theory.specs.Rule.{Program};
ghost use Rattle.components.specs.Open.{unmet, seen_of, fact_at, opener_at, root_place, root_barred, Walking, Current, MayOpen, Opened, Merges};

use crate::look::Cyclic;
use items::item::{FactId, MAX_FACTS};
use tables::layout::wide;

// A root that was met by a constraint has this added to its place.
// One number for the two, as in a cell of the stack.
const BARRED: u16 = MAX_FACTS as u16;

// How many facts are open, how many of them are roots, and the place of the one that is looked at.
#[derive(Clone, Copy)]
pub struct Standing {
    pub height: usize,
    pub roots: usize,
    pub at: usize,
}

// Opens a fact that was not met: it is the last one of the stack, and a root. Its cell of the stack holds the fact and, 256 times, the place of the fact
// that opened it.
// One number for the two, so that the stack is a row of numbers as the rows beside it are; all are of fixed length, since there is no heap.
pub fn open_fact(
    seen: &mut [u16; MAX_FACTS],
    stack: &mut [u16; MAX_FACTS],
    roots: &mut [u16; MAX_FACTS],
    standing: Standing,
    fact: FactId,
    barring: bool,
)
    requires seen_len { (length seen.old ≡ max_facts narrow) × (length stack.old ≡ max_facts narrow) × (length roots.old ≡ max_facts narrow) }
    requires height_bound { (standing.height < max_facts narrow) × (standing.roots ≤ standing.height) × (standing.at < max_facts narrow) × (fact.0 < max_facts narrow) }
    ensures { (P : Program) → Walking P seen.old stack.old roots.old standing.height standing.roots → (0 < standing.height → Current roots.old standing.height standing.roots standing.at) → fact.0 < P.facts → seen_of seen.old fact.0 ≡ unmet → MayOpen P stack.old standing.height fact.0 barring → Opened P seen.old stack.old roots.old standing.height standing.roots standing.at fact.0 seen.new stack.new roots.new }
{
    let height = standing.height;
    seen[fact.0 as usize] = height as u16;
    stack[height] = (fact.0 as usize + MAX_FACTS * standing.at) as u16;
    let mut root = height as u16;
    if barring {
        root += BARRED;
    }
    roots[standing.roots] = root;
}

// The fact at a place of the stack.
pub fn fact_at(stack: &[u16; MAX_FACTS], at: usize) -> usize
    requires { at < max_facts narrow }
    ensures { (result ≡ fact_at stack.now at) × (result < max_facts narrow) }
{
    wide(stack[at]) % MAX_FACTS
}

// The place of the fact that opened it.
pub fn opener_at(stack: &[u16; MAX_FACTS], at: usize) -> usize
    requires { at < max_facts narrow }
    ensures { result ≡ opener_at stack.now at }
{
    wide(stack[at]) / MAX_FACTS
}

// The place of a root.
pub fn root_place(roots: &[u16; MAX_FACTS], root: usize) -> usize
    requires { root < max_facts narrow }
    ensures { result ≡ root_place roots.now root }
{
    let cell = roots[root];
    if cell < BARRED {
        return wide(cell);
    }
    wide(cell - BARRED)
}

// Was it met by a constraint?
fn is_barred(roots: &[u16; MAX_FACTS], root: usize) -> bool
    requires { root < max_facts narrow }
    ensures { result ≡ root_barred roots.now root }
{
    roots[root] >= BARRED
}

// The roots behind a place go: what stands there is one component with what stands at the place. Answers how many are left; where one of those that go was
// met by a constraint, the component has a cycle through it.
// The roots are a row of fixed length, since there is no heap: `count` is how many stand in it, and the answer is the next count.
pub fn merge_roots(roots: &[u16; MAX_FACTS], count: usize, low: u16) -> Result<usize, Cyclic>
    requires { (count ≤ max_facts narrow) × (length roots.now ≡ max_facts narrow) }
    ensures { Merges roots.now count low result }
{
    for root in (0..count).rev() {
        if root_place(roots, root) <= usize::from(low) {
            return Ok(root + 1);
        }
        if is_barred(roots, root) {
            return Err(Cyclic);
        }
    }
    Ok(0)
}
