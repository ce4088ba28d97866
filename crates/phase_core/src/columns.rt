// The state of the network that stands in the words.
ghost use Rattle.std.specs.Prelude.{◌≡◌, ℕ, slice_index_or, ◌+◌, ◌<◌, ◌≤◌, ◌*◌, length};
ghost use Rattle.fixed_num.specs.Lists.{number, list_of};
ghost use Rattle.phase_law.specs.Laws.{IsLaw};
ghost use Rattle.phase_machine.specs.Places.{word_count, link_fixed_in, node_fixed_in, nets_in};
ghost use Rattle.phase_machine.specs.Places.{link_place as place_of_link, node_place as place_of_node};
ghost use Rattle.trial_model.specs.Start.{no_link, no_node};
ghost use Rattle.phase_core.specs.Ready.{HasItems};

use crate::places::{least_place, link_place, node_place};
use crate::words::word_at;
use net_types::List;
use phase_law::{LinkFixed, NodeFixed, PhaseLaw};
use trial_model::Nets;

/// Makes a list of words equal to another of its length.
pub(crate) fn copy_words(from: &List<i64>, to: &mut List<i64>)
    requires { length to.old ≡ length from.now }
    ensures { to.new ≡ from.now }
{
    let from = from.as_slice();
    let to = to.as_mut_slice();
    to.copy_from_slice(from);
}

/// Word k of each link.
fn fill_links(words: &List<i64>, k: u64, to: &mut [i64])
    requires few { length to.old ≤ 20_000 }
    requires k { k ≤ 5 }
    requires words { 3 + 6 * length to.old ≤ length words.now }
    ensures { (l : ℕ) → l < length to.old → number to.new l ≡ number words.now (place_of_link l k) }
{
    for link in 0..to.len() {
        to[link] = word_at(words, link_place(link as u64, k));
    }
}

/// Word k of each node.
fn fill_nodes<P: PhaseLaw>(law: &P, words: &List<i64>, k: u64, to: &mut [i64])
    requires good { IsLaw (P.law law.now) }
    requires size { length to.old ≡ (P.law law.now).nodes }
    requires k { k ≤ 9 }
    requires words { length words.now ≡ word_count (P.law law.now) }
    ensures { (n : ℕ) → n < length to.old → number to.new n ≡ number words.now (place_of_node (P.law law.now) n k) }
{
    for node in 0..to.len() {
        to[node] = word_at(words, node_place(law, node as u64, k));
    }
}

/// Makes a list that of word k of each link.
fn take_links<P: PhaseLaw>(law: &P, words: &List<i64>, k: u64, to: &mut List<i64>)
    requires good { IsLaw (P.law law.now) }
    requires size { length to.old ≡ (P.law law.now).links }
    requires k { k ≤ 5 }
    requires words { length words.now ≡ word_count (P.law law.now) }
    ensures { to.new ≡ list_of (λ l. number words.now (place_of_link l k)) (P.law law.now).links }
{
    let to = to.as_mut_slice();
    fill_links(words, k, to);
}

/// Makes a list that of word k of each node.
fn take_nodes<P: PhaseLaw>(law: &P, words: &List<i64>, k: u64, to: &mut List<i64>)
    requires good { IsLaw (P.law law.now) }
    requires size { length to.old ≡ (P.law law.now).nodes }
    requires k { k ≤ 9 }
    requires words { length words.now ≡ word_count (P.law law.now) }
    ensures { to.new ≡ list_of (λ n. number words.now (place_of_node (P.law law.now) n k)) (P.law law.now).nodes }
{
    let to = to.as_mut_slice();
    fill_nodes(law, words, k, to);
}

/// What stays the same for a link, in the words.
fn link_fixed(words: &List<i64>, link: u64) -> LinkFixed
    requires few { link ≤ 20_000 }
    requires words { 9 + 6 * link ≤ length words.now }
    ensures { result ≡ link_fixed_in words.now link }
{
    LinkFixed {
        q_old: word_at(words, link_place(link, 0)),
        a_old: word_at(words, link_place(link, 1)),
        setting: word_at(words, link_place(link, 2)),
        dt: word_at(words, link_place(link, 3)),
    }
}

/// What stays the same for a node, in the words.
fn node_fixed<P: PhaseLaw>(law: &P, words: &List<i64>, node: u64) -> NodeFixed
    requires few { node ≤ 20_000 }
    requires node { node < (P.law law.now).nodes }
    requires words { length words.now ≡ word_count (P.law law.now) }
    ensures { result ≡ node_fixed_in (P.law law.now) words.now node }
{
    NodeFixed {
        h_old: word_at(words, node_place(law, node, 0)),
        net_old: word_at(words, node_place(law, node, 1)),
        lateral: word_at(words, node_place(law, node, 2)),
        stage: word_at(words, node_place(law, node, 3)),
        dt: word_at(words, node_place(law, node, 4)),
    }
}

/// What stays the same for each link.
fn fill_link_fixed(words: &List<i64>, to: &mut [LinkFixed])
    requires few { length to.old ≤ 20_000 }
    requires words { 3 + 6 * length to.old ≤ length words.now }
    ensures { (l : ℕ) → l < length to.old → slice_index_or to.new l no_link ≡ link_fixed_in words.now l }
{
    for link in 0..to.len() {
        to[link] = link_fixed(words, link as u64);
    }
}

/// What stays the same for each node.
fn fill_node_fixed<P: PhaseLaw>(law: &P, words: &List<i64>, to: &mut [NodeFixed])
    requires good { IsLaw (P.law law.now) }
    requires size { length to.old ≡ (P.law law.now).nodes }
    requires words { length words.now ≡ word_count (P.law law.now) }
    ensures { (n : ℕ) → n < length to.old
        → slice_index_or to.new n no_node ≡ node_fixed_in (P.law law.now) words.now n }
{
    for node in 0..to.len() {
        to[node] = node_fixed(law, words, node as u64);
    }
}

/// Makes a list that of what stays the same for each link.
fn take_link_fixed<P: PhaseLaw>(law: &P, words: &List<i64>, to: &mut List<LinkFixed>)
    requires good { IsLaw (P.law law.now) }
    requires size { length to.old ≡ (P.law law.now).links }
    requires words { length words.now ≡ word_count (P.law law.now) }
    ensures { to.new ≡ list_of (link_fixed_in words.now) (P.law law.now).links }
{
    let _law = law;
    let to = to.as_mut_slice();
    fill_link_fixed(words, to);
}

/// Makes a list that of what stays the same for each node.
fn take_node_fixed<P: PhaseLaw>(law: &P, words: &List<i64>, to: &mut List<NodeFixed>)
    requires good { IsLaw (P.law law.now) }
    requires size { length to.old ≡ (P.law law.now).nodes }
    requires words { length words.now ≡ word_count (P.law law.now) }
    ensures { to.new ≡ list_of (node_fixed_in (P.law law.now) words.now) (P.law law.now).nodes }
{
    let to = to.as_mut_slice();
    fill_node_fixed(law, words, to);
}

/// Makes a state of the network that which stands in the words, with heads and flows of a buffer.
#[tactic(auto, using(fixed_num::proofs::Bounds::casts), unfolding(phase_machine::specs::Places::nets_in))]
pub(crate) fn fill_nets<P: PhaseLaw>(law: &P, words: &List<i64>, buffer: u64, nets: &mut Nets)
    requires good { IsLaw (P.law law.now) }
    requires buffer { buffer ≤ 1 }
    requires words { length words.now ≡ word_count (P.law law.now) }
    requires size { HasItems (P.law law.now) nets.old }
    ensures { nets.new ≡ nets_in (P.law law.now) words.now buffer }
{
    take_nodes(law, words, 5 + buffer, &mut nets.heads);
    take_links(law, words, 4 + buffer, &mut nets.flows);
    take_nodes(law, words, 7, &mut nets.inflows);
    take_nodes(law, words, 8, &mut nets.outflows);
    take_nodes(law, words, 9, &mut nets.areas);
    take_nodes(law, words, 5 + (1 - buffer), &mut nets.read_heads);
    take_link_fixed(law, words, &mut nets.links);
    take_node_fixed(law, words, &mut nets.nodes);
    nets.least = word_at(words, least_place(law));
}
