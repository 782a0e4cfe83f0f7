//! Two indexes of the same blobs, inserted in both orders.
ghost use Rattle.std.specs.Prelude.{◌≡◌, ◌≤◌, ◌<◌, ◌++◌, codes, false, length, IfOk, OnOk, Some, slice_get};
ghost use Rattle.std.specs.FinMap.{contains_key, from_entries, insert};
ghost use Rattle.schema_date.specs.declared.date.When.TheVariants.{Always};
ghost use Rattle.claim_model.specs.Deleted.{live_permanodes};
ghost use Rattle.claim_model.specs.Facts.{AreDistinct, AreValid, Entry};
ghost use Rattle.search_eval.specs.Answer.{answer};
ghost use Rattle.fact_lines.specs.Load.{load_facts, load_text, order_line, order_name, place_at, tagged};

use crate::blobs::facts_of;
use answer_text::search_text;
use blobref::{NoMemory, Octets, Ref, RefList};
use claim_index::{FactList, Index};
use claim_verify::Verifier;
use edge_base::Steps;
use index_look::Look;
use perkeep_lines::push_load_line;
use schema_date::When;
use schema_write::load_blobs;
use search_eval::answer_of;
use search_meets::live_permanodes;
use search_query::Query;
use std::alloc::Global;
use std::marker::Brand;
use std::sync::ledger::{Blank, Ledger};

// The order in which facts are inserted.
#[derive(Clone, Copy)]
pub(crate) enum Order {
    // The order of the list.
    Forward,
    // The reverse.
    Backward,
}

/// The lines about the blobs of a generated store (`docs/formats/generated.md`), inserted in their order and in reverse
/// order: a line for each order. The blobs are made (`schema_write::load_blobs`), and dropped after their facts are
/// read. The facts and both indexes are then held at once. `NoMemory` comes only if no memory is left.
#[tactic(auto, unfolding(crate::specs::Load::load_text))]
pub fn load_text<V: Verifier>(
    alloc: Global,
    count: u64,
    start: u64,
    keys: &V,
) -> Result<Octets, NoMemory>
    requires { count ≤ 100000 }
    ensures { IfOk result (λ text. text ≡ load_text count start (V.accepts keys.now)) }
{
    let facts = load_facts(alloc, count, start)?;
    order_lines(alloc, count, &facts, keys)
}

// The facts of the blobs of a generated store.
#[tactic(auto, using(crate::proofs::Loading::all_distinct, crate::proofs::Loading::all_valid))]
fn load_facts(alloc: Global, count: u64, start: u64) -> Result<FactList, NoMemory>
    requires { count ≤ 100000 }
    ensures facts { IfOk result (λ facts. from_entries facts ≡ load_facts count start) }
    ensures distinct { IfOk result AreDistinct }
    ensures valid { IfOk result AreValid }
{
    let blobs = load_blobs(alloc, count, start)?;
    facts_of(alloc, blobs.as_slice())
}

// The lines of both orders.
fn order_lines<V: Verifier>(
    alloc: Global,
    count: u64,
    facts: &FactList,
    keys: &V,
) -> Result<Octets, NoMemory>
    requires distinct { AreDistinct facts.now }
    requires valid { AreValid facts.now }
    ensures { IfOk result (λ text. text
        ≡ order_line (codes "forward") count (from_entries facts.now) (V.accepts keys.now)
        ++ order_line (codes "backward") count (from_entries facts.now) (V.accepts keys.now)) }
{
    let mut text = Vec::new(alloc);
    push_order(alloc, &mut text, Order::Forward, count, facts, keys)?;
    push_order(alloc, &mut text, Order::Backward, count, facts, keys)?;
    Ok(Octets::from_vec(text))
}

// Writes the line of an index into which the facts were inserted in an order.
fn push_order<V: Verifier>(
    alloc: Global,
    text: &mut Vec<u8>,
    order: Order,
    count: u64,
    facts: &FactList,
    keys: &V,
) -> Result<(), NoMemory>
    requires distinct { AreDistinct facts.now }
    requires valid { AreValid facts.now }
    ensures { OnOk result (text.new.items
        ≡ text.old.items ++ order_line (order_name order) count (from_entries facts.now) (V.accepts keys.now)) }
{
    let index = inserted::<_, Brand>(alloc, order, facts, keys, Blank::new(1))?;
    push_order_line(alloc, text, order_name(order), count, &index)
}

fn order_name(order: Order) -> &'static str
    ensures { result.now ≡ order_name order }
{
    match order {
        Order::Forward => "forward",
        Order::Backward => "backward",
    }
}

// An index into which the facts were inserted in an order. The steps are counted in the blank ledger, which nobody
// reads.
fn inserted<V: Verifier, L: Ledger>(
    alloc: Global,
    order: Order,
    facts: &FactList,
    keys: V,
    blank: Blank,
) -> Result<Index<V>, NoMemory>
where
    V: Drop,
    requires distinct { AreDistinct facts.now }
    requires valid { AreValid facts.now }
    requires name { blank.name ≡ L.name }
    requires parts { blank.parts ≡ L.parts }
    requires some { 0 < blank.parts }
    ensures facts { IfOk result (λ index. index.facts ≡ from_entries facts.now) }
    ensures keys { IfOk result (λ index. index.keys ≡ keys) }
{
    let mut steps = Steps::<L>::start(blank);
    let mut index = Index::fresh(alloc, keys);
    let count = facts.len();
    for turn in 0..count {
        let i = place_at(order, count, turn);
        insert(alloc, &mut index, facts, i, &mut steps)?;
    }
    Ok(index)
}

// The place of the fact that is inserted at a turn, of so many.
fn place_at(order: Order, count: usize, turn: usize) -> usize
    requires { turn < count }
    ensures { result ≡ place_at order count turn }
{
    match order {
        Order::Forward => turn,
        Order::Backward => count - 1 - turn,
    }
}

// Inserts the fact at a place, whose number isn't there yet.
fn insert<V: Verifier, L: Ledger>(
    alloc: Global,
    index: &mut Index<V>,
    facts: &FactList,
    i: usize,
    steps: &mut Steps<L>,
) -> Result<(), NoMemory>
    requires within { i < length facts.now }
    requires valid { AreValid facts.now }
    requires fresh { contains_key index.old.numbers i ≡ false }
    requires alone { (e : Entry) → slice_get facts.now i ≡ Some e → contains_key index.old.facts e.0 ≡ false }
    ensures facts { OnOk result ((e : Entry) → slice_get facts.now i ≡ Some e
        → index.new.facts ≡ insert index.old.facts e.0 e.1) }
    ensures numbers { OnOk result (index.new.numbers ≡ insert index.old.numbers i tt) }
    ensures keys { index.new.keys ≡ index.old.keys }
{
    let (r, fact) = facts.at(i);
    let fact = fact.copy(alloc)?;
    index.insert(i as u64, r, fact, steps)?;
    Ok(())
}

// Writes the line of an index.
fn push_order_line<K: Look>(
    alloc: Global,
    text: &mut Vec<u8>,
    order: &str,
    count: u64,
    look: &K,
) -> Result<(), NoMemory>
    ensures { OnOk result (text.new.items
        ≡ text.old.items ++ order_line order.now count (K.facts look.now) (K.accepts look.now)) }
{
    let permanodes = count_live::<_, Brand>(alloc, look, Blank::new(1))?;
    let answer = tagged(alloc, look)?;
    push_load_line(text, order, count, permanodes, &answer)
}

// The ref of the answer to a search for the tag `t0`.
fn tagged<K: Look>(alloc: Global, look: &K) -> Result<Ref, NoMemory>
    ensures { IfOk result (λ r. r ≡ tagged (K.facts look.now) (K.accepts look.now)) }
{
    let query = Query::for_value(alloc, "tag", "t0", When::Always)?;
    let refs = answer_to(alloc, look, query)?;
    let text = search_text(alloc, &refs)?;
    Ok(Ref::of(text.as_slice()))
}

// The answer to a query, which is dropped.
fn answer_to<K: Look>(alloc: Global, look: &K, query: Query) -> Result<RefList, NoMemory>
    ensures { IfOk result (λ refs. refs ≡ answer (K.facts look.now) (K.accepts look.now) query) }
{
    answer_of(alloc, look, &query)
}

// How many genuine permanodes aren't deleted. The steps are counted in the same way.
fn count_live<K: Look, L: Ledger>(alloc: Global, look: &K, blank: Blank) -> Result<u64, NoMemory>
    requires name { blank.name ≡ L.name }
    requires parts { blank.parts ≡ L.parts }
    requires some { 0 < blank.parts }
    ensures { IfOk result (λ count. count
        ≡ length (live_permanodes (K.facts look.now) (K.accepts look.now) Always)) }
{
    let mut steps = Steps::<L>::start(blank);
    let permanodes = live_permanodes(alloc, look, &When::Always, &mut steps)?;
    Ok(permanodes.len() as u64)
}
