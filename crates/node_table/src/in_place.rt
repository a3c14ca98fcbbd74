// Changes of one entry, which leave the chains as they are.
ghost use Rattle.std.specs.Prelude.{◌≡◌, ℕ, ◌+◌, ◌^◌, ◌<◌, ◌≤◌, true, List, length, MatchResult, Ok, Err};
ghost use Rattle.packed_rows.specs.Rows.{row, used, Packed, RowSpliced};
ghost use Rattle.node_chains.specs.Tree.{relabel, Under};
ghost use Rattle.node_chains.specs.Chains.{item_at};
ghost use Rattle.node_table.specs.Kinds.{is_text, raising, raised_content};
ghost use Rattle.node_table.specs.Held.{Used, Dry, Spelled, Changed, Touched, held, flagged, raised, respelled};
ghost use Rattle.node_table.specs.Edits.{nodes_in, kids, units_at, units_used, Edited, SameTree};
ghost use Rattle.node_chains.specs.declared.node.Node.{Node};

use crate::tables::Tables;
use node_chains::node::{Content, Item, Node};
use packed_rows::rows::splice_row;
use types::error::Refusal;

// A counter with a number added; what is no counter, or would pass 64 bits, is refused.
fn raise(content: Content, by: i64) -> Result<Content, Refusal>
    ensures { MatchResult result (λ x. (raising by content ≡ Ok tt) × (x ≡ raised_content by content)) (λ e. raising by content ≡ Err e) }
{
    let Content::Counter(x) = content else {
        return Err(Refusal::BadIncrement);
    };
    let sum = x.checked_add(by).ok_or(Refusal::CounterOverflow)?;
    Ok(Content::Counter(sum))
}

// The entry at c is flagged as a conflict. Over the nodes: for callers whose other tables lie elsewhere.
#[tactic(auto, using(crate::proofs::Touches::flags))]
pub fn set_conflict<U: Copy>(nodes: &mut [Node], c: usize)
    requires { c < length nodes.old }
    ensures { Touched {U = U} flagged c nodes.old nodes.new }
{
    nodes[c].item.conflict = true;
}

// Adds to the counter at c; what is no counter, or would pass 64 bits, is refused and stays. Over the nodes, too.
#[tactic(auto, using(crate::proofs::Touches::raised_passed))]
pub fn add_to_counter<U: Copy>(nodes: &mut [Node], c: usize, by: i64) -> Result<(), Refusal>
    requires { c < length nodes.old }
    ensures answer { result ≡ raising by (item_at nodes.old c).content }
    ensures effect { elim result [ Ok _ ↦ Touched {U = U} (raised by) c nodes.old nodes.new | Err _ ↦ nodes.new ≡ nodes.old ] }
{
    nodes[c].item.content = raise(nodes[c].item.content, by)?;
    Ok(())
}

// In the text at c, the k units from `at` on are replaced by xs. Over the units and where each text begins.
#[tactic(auto, using(crate::proofs::Touches::spelled_spliced, crate::proofs::Touches::dry_spliced))]
pub fn splice_units<U: Copy>(
    unit_starts: &mut [u32],
    units: &mut [U],
    c: usize,
    at: usize,
    k: usize,
    xs: &[U],
)
    requires packed { Packed unit_starts.old units.old }
    requires row { c + 1 < length unit_starts.old }
    requires inside { at + k ≤ length (row unit_starts.old units.old c) }
    requires room { used unit_starts.old + length xs.now ≤ length units.old + k }
    requires small { length units.old < 2 ^ 32 }
    ensures spliced { RowSpliced unit_starts.old units.old unit_starts.new units.new c at k xs.now }
    ensures spelled { (f : ℕ) → c ≤ f → Spelled f unit_starts.old units.old → Spelled f unit_starts.new units.new }
    ensures dry { (nodes : List Node) → is_text (item_at nodes c).content ≡ true → Dry nodes (row unit_starts.old units.old) → Dry nodes (row unit_starts.new units.new) }
    ensures changed { (f bytes : ℕ) (nodes : List Node) (t s keys strings : List ℕ) → Used f nodes t s bytes → Changed (row t s) c (relabel (respelled at k xs.now)) (held nodes t s keys strings (row unit_starts.old units.old)) (held nodes t s keys strings (row unit_starts.new units.new)) }
{
    splice_row(units, unit_starts, c, at, k, xs);
}

impl<'m, U: Copy> Tables<'m, U> {
    // The entry at c is flagged as a conflict.
    pub fn set_conflict(&mut self, c: usize)
        requires used { Under (kids self.old) 0 c }
        requires below { 0 < c }
        ensures { Edited c (relabel flagged) self.old self.new }
    {
        let item = self.item(c);
        self.chains.set_item(
            c,
            Item {
                conflict: true,
                ..item
            },
        );
    }

    // Adds to the counter at c; what is no counter, or would pass 64 bits, is refused and stays.
    pub fn add_to_counter(&mut self, c: usize, by: i64) -> Result<(), Refusal>
        requires used { Under (kids self.old) 0 c }
        requires below { 0 < c }
        ensures answer { result ≡ raising by (item_at (nodes_in self.old) c).content }
        ensures effect { MatchResult result (λ _. Edited c (relabel (raised by)) self.old self.new) (λ _. SameTree self.old self.new) }
    {
        let item = self.item(c);
        let content = raise(item.content, by)?;
        self.chains.set_item(c, Item { content, ..item });
        Ok(())
    }

    // In the text at c, the k units from `at` on are replaced by xs.
    pub fn splice_units(&mut self, c: usize, at: usize, k: usize, xs: &[U])
        requires low { c < length (nodes_in self.old) }
        requires text { is_text (item_at (nodes_in self.old) c).content ≡ true }
        requires inside { at + k ≤ length (units_at self.old c) }
        requires room { units_used self.old + length xs.now ≤ length self.old.units.now + k }
        ensures { Edited c (relabel (respelled at k xs.now)) self.old self.new }
    {
        splice_units(self.begins, self.units, c, at, k, xs);
    }
}
