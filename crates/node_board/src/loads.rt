// The loads of an item.
ghost use Rattle.std.specs.Prelude.{◌≡◌, ◌+◌, ◌<◌, ◌≤◌, true, false, pos, [], ◌∷◌};
ghost use Rattle.phase_machine.specs.Items.{share_at, next_at};
ghost use Rattle.phase_machine.specs.Steps.{loaded_more};
ghost use Rattle.node_board.specs.Acts.{ReadyLink, ReadyNode, IsLoading, CanLoad};
ghost use Rattle.node_board.specs.Acts.{link_input_of, node_input_of, at_loads};
ghost use Rattle.node_board.specs.Claims.{HasNew};
ghost use Rattle.node_board.specs.Coding.{is_plain, decoded};
ghost use Rattle.node_board.specs.Plays.{at_work};
ghost use Rattle.node_board.specs.Seen.{IsOf};
ghost use Rattle.node_board.specs.Shows.{work_of};
ghost use Rattle.node_board.specs.Steps.{AskedWhenLoaded, load_place};

use crate::board::{Board, Seat};
use crate::inputs::{LinkInput, NodeInput, Sums};
use crate::places::{amount, link_input, node_input, signed_number};
use crate::plays::Loading;
use phase_law::{LinkFixed, NodeFixed, PhaseLaw};

impl<P: PhaseLaw> Board<P> {
    /// The next load of an item.
    fn load(&self, seat: &mut Seat<P>, word: usize) -> u64
        requires from { IsOf self.now seat.old }
        requires next { CanLoad (P.law self.now.law) word (work_of seat.old.view) }
        ensures from { IsOf self.now seat.new }
        ensures view { let w = work_of seat.old.view in let law = P.law self.now.law in
            seat.new.view ≡ at_work seat.old.view (loaded_more w (decoded law (load_place law w) result)) }
        ensures asked { AskedWhenLoaded (P.law self.now.law) (work_of seat.new.view) }
    {
        self.words.shared.load::<Loading>(&mut seat.place, word)
    }

    /// The next load of an item, of a number that may be below 0.
    fn load_signed(&self, seat: &mut Seat<P>, word: usize) -> i64
        requires from { IsOf self.now seat.old }
        requires next { CanLoad (P.law self.now.law) word (work_of seat.old.view) }
        requires kind { is_plain (P.law self.now.law) (load_place (P.law self.now.law) (work_of seat.old.view))
            ≡ false }
        ensures from { IsOf self.now seat.new }
        ensures view { seat.new.view ≡ at_work seat.old.view (loaded_more (work_of seat.old.view) result) }
        ensures asked { AskedWhenLoaded (P.law self.now.law) (work_of seat.new.view) }
    {
        signed_number(self.load(seat, word))
    }

    /// The next load of an item, of a number that is never below 0.
    fn load_plain(&self, seat: &mut Seat<P>, word: usize) -> u64
        requires from { IsOf self.now seat.old }
        requires next { CanLoad (P.law self.now.law) word (work_of seat.old.view) }
        requires kind { is_plain (P.law self.now.law) (load_place (P.law self.now.law) (work_of seat.old.view)) ≡ true }
        ensures from { IsOf self.now seat.new }
        ensures view { seat.new.view ≡ at_work seat.old.view (loaded_more (work_of seat.old.view) (pos result)) }
        ensures asked { AskedWhenLoaded (P.law self.now.law) (work_of seat.new.view) }
    {
        self.load(seat, word)
    }

    /// Load k of a link's item, but the fifth.
    fn load_link_number(&self, seat: &mut Seat<P>, k: u32) -> i64
        requires from { IsOf self.now seat.old }
        requires few { k < 8 }
        requires signed { ¬ (k ≡ 4) }
        requires at { IsLoading true (P.law self.now.law).links k (work_of seat.old.view) }
        ensures from { IsOf self.now seat.new }
        ensures view { seat.new.view ≡ at_work seat.old.view (loaded_more (work_of seat.old.view) result) }
        ensures at { IsLoading true (P.law self.now.law).links (k + 1) (work_of seat.new.view) }
        ensures asked { AskedWhenLoaded (P.law self.now.law) (work_of seat.new.view) }
    {
        let word = link_input(&self.law, seat.phase, seat.item, k);
        self.load_signed(seat, word)
    }

    /// The fifth load of a link's item: 1 in the first trial of a step.
    fn load_link_first(&self, seat: &mut Seat<P>) -> u64
        requires from { IsOf self.now seat.old }
        requires at { IsLoading true (P.law self.now.law).links 4 (work_of seat.old.view) }
        ensures from { IsOf self.now seat.new }
        ensures view { seat.new.view ≡ at_work seat.old.view (loaded_more (work_of seat.old.view) (pos result)) }
        ensures at { IsLoading true (P.law self.now.law).links 5 (work_of seat.new.view) }
    {
        let word = link_input(&self.law, seat.phase, seat.item, 4);
        self.load_plain(seat, word)
    }

    /// The first four loads of a link's item: what stays the same over the trials of a step.
    fn load_link_fixed(&self, seat: &mut Seat<P>) -> LinkFixed
        requires from { IsOf self.now seat.old }
        requires new { HasNew true (P.law self.now.law).links (work_of seat.old.view) }
        ensures from { IsOf self.now seat.new }
        ensures view { seat.new.view
            ≡ at_loads seat.old.view 5 (result.q_old ∷ result.a_old ∷ result.setting ∷ result.dt ∷ []) }
        ensures at { IsLoading true (P.law self.now.law).links 4 (work_of seat.new.view) }
    {
        let q_old = self.load_link_number(seat, 0);
        let a_old = self.load_link_number(seat, 1);
        let setting = self.load_link_number(seat, 2);
        let dt = self.load_link_number(seat, 3);
        LinkFixed {
            q_old,
            a_old,
            setting,
            dt,
        }
    }

    /// Loads what the seat's link is asked with. It takes no memory and waits for nobody.
    ///
    /// The seat made no act on its item. What is loaded lies in the law's ranges.
    pub fn load_link(&self, seat: &mut Seat<P>) -> LinkInput
        requires from { IsOf self.now seat.old }
        requires new { HasNew true (P.law self.now.law).links (work_of seat.old.view) }
        ensures from { IsOf self.now seat.new }
        ensures input { result ≡ link_input_of (work_of seat.new.view) }
        ensures ready { ReadyLink (P.law self.now.law) 9 (work_of seat.new.view) }
        ensures share { let w = work_of seat.new.view in let law = P.law self.now.law in share_at law w
            ≡ law.share w.item result.fixed result.first result.near result.far result.last }
        ensures view { seat.new.view ≡ at_loads seat.old.view 9 (work_of seat.new.view).loaded }
    {
        let fixed = self.load_link_fixed(seat);
        let first = self.load_link_first(seat) == 1;
        let near = self.load_link_number(seat, 5);
        let far = self.load_link_number(seat, 6);
        let last = self.load_link_number(seat, 7);
        LinkInput {
            fixed,
            first,
            near,
            far,
            last,
        }
    }

    /// Load k of a node's item, but the sixth and those of sums.
    fn load_node_number(&self, seat: &mut Seat<P>, k: u32) -> i64
        requires from { IsOf self.now seat.old }
        requires few { k < 7 }
        requires signed { ¬ (k ≡ 5) }
        requires at { IsLoading false (P.law self.now.law).nodes k (work_of seat.old.view) }
        ensures from { IsOf self.now seat.new }
        ensures view { seat.new.view ≡ at_work seat.old.view (loaded_more (work_of seat.old.view) result) }
        ensures at { IsLoading false (P.law self.now.law).nodes (k + 1) (work_of seat.new.view) }
    {
        let word = node_input(&self.law, seat.phase, seat.item, k);
        self.load_signed(seat, word)
    }

    /// The sixth load of a node's item: 1 in the first trial of a step.
    fn load_node_first(&self, seat: &mut Seat<P>) -> u64
        requires from { IsOf self.now seat.old }
        requires at { IsLoading false (P.law self.now.law).nodes 5 (work_of seat.old.view) }
        ensures from { IsOf self.now seat.new }
        ensures view { seat.new.view ≡ at_work seat.old.view (loaded_more (work_of seat.old.view) (pos result)) }
        ensures at { IsLoading false (P.law self.now.law).nodes 6 (work_of seat.new.view) }
    {
        let word = node_input(&self.law, seat.phase, seat.item, 5);
        self.load_plain(seat, word)
    }

    /// The load of a sum of a node's item.
    fn load_sum(&self, seat: &mut Seat<P>, k: u32) -> u64
        requires from { IsOf self.now seat.old }
        requires late { 7 ≤ k }
        requires few { k < 10 }
        requires at { IsLoading false (P.law self.now.law).nodes k (work_of seat.old.view) }
        ensures from { IsOf self.now seat.new }
        ensures view { seat.new.view ≡ at_work seat.old.view (loaded_more (work_of seat.old.view) (pos result)) }
        ensures at { IsLoading false (P.law self.now.law).nodes (k + 1) (work_of seat.new.view) }
        ensures asked { AskedWhenLoaded (P.law self.now.law) (work_of seat.new.view) }
    {
        let word = node_input(&self.law, seat.phase, seat.item, k);
        self.load_plain(seat, word)
    }

    /// The first five loads of a node's item: what stays the same over the trials of a step.
    fn load_node_fixed(&self, seat: &mut Seat<P>) -> NodeFixed
        requires from { IsOf self.now seat.old }
        requires new { HasNew false (P.law self.now.law).nodes (work_of seat.old.view) }
        ensures from { IsOf self.now seat.new }
        ensures view { seat.new.view ≡ at_loads seat.old.view 6
            (result.h_old ∷ result.net_old ∷ result.lateral ∷ result.stage ∷ result.dt ∷ []) }
        ensures at { IsLoading false (P.law self.now.law).nodes 5 (work_of seat.new.view) }
    {
        let h_old = self.load_node_number(seat, 0);
        let net_old = self.load_node_number(seat, 1);
        let lateral = self.load_node_number(seat, 2);
        let stage = self.load_node_number(seat, 3);
        let dt = self.load_node_number(seat, 4);
        NodeFixed {
            h_old,
            net_old,
            lateral,
            stage,
            dt,
        }
    }

    /// Loads what the seat's node is asked with. It takes no memory and waits for nobody.
    ///
    /// The seat made no act on its item. What is loaded lies in the law's ranges.
    pub fn load_node(&self, seat: &mut Seat<P>) -> NodeInput
        requires from { IsOf self.now seat.old }
        requires new { HasNew false (P.law self.now.law).nodes (work_of seat.old.view) }
        ensures from { IsOf self.now seat.new }
        ensures input { result ≡ node_input_of (work_of seat.new.view) }
        ensures ready { ReadyNode (P.law self.now.law) 11 (work_of seat.new.view) }
        ensures next { let w = work_of seat.new.view in let law = P.law self.now.law in let sums = result.sums in
            next_at law w ≡ law.next w.item result.fixed result.first sums.inflow sums.outflow sums.area result.last }
        ensures view { seat.new.view ≡ at_loads seat.old.view 11 (work_of seat.new.view).loaded }
    {
        let fixed = self.load_node_fixed(seat);
        let first = self.load_node_first(seat) == 1;
        let last = self.load_node_number(seat, 6);
        let inflow = self.load_sum(seat, 7);
        let outflow = self.load_sum(seat, 8);
        let area = self.load_sum(seat, 9);
        let sums = Sums {
            inflow: amount(inflow),
            outflow: amount(outflow),
            area: amount(area),
        };
        NodeInput {
            fixed,
            first,
            sums,
            last,
        }
    }
}
