// That boards are opened by the rule, and that each kind of step keeps it.
ghost use Rattle.std.specs.Prelude.{◌≡◌, ℕ, Bool, ◌+◌, ◌%◌, ◌^◌, ◌<◌, ◌≤◌};
ghost use Rattle.std.specs.Prelude.{true, false, ℤ, pos, min, [], slice_set, length};
ghost use Rattle.atomic_table.specs.Table.{opening};
ghost use Rattle.fixed_num.specs.Lists.{number};
ghost use Rattle.phase_law.specs.Law.{Law};
ghost use Rattle.phase_law.specs.Laws.{IsLaw};
ghost use Rattle.trial_model.specs.declared.nets.Nets.{Nets};
ghost use Rattle.trial_model.specs.Trial.{trial, unsettled_in, with_flows};
ghost use Rattle.phase_machine.specs.declared.acts.Act.{Act};
ghost use Rattle.phase_machine.specs.declared.acts.Act.TheVariants.{OfferTime, PutFlow, PutHead, MarkUnsettled, Done};
ghost use Rattle.phase_machine.specs.declared.work.Work.{Work};
ghost use Rattle.phase_machine.specs.Asks.{AsksLink, AsksNode};
ghost use Rattle.phase_machine.specs.Kept.{with_links};
ghost use Rattle.phase_machine.specs.Items.{Deposit, share_at, next_at};
ghost use Rattle.phase_machine.specs.Places.{done_place, unsettled_place, node_place, least_place, word_count};
ghost use Rattle.phase_machine.specs.Places.{is_odd, written, IsRead, IsInRange};
ghost use Rattle.phase_machine.specs.Steps.{CanWork, loaded_more, further, reset_count, reset_place, reset_value};
ghost use Rattle.node_board.specs.declared.views.Plan.{Plan};
ghost use Rattle.node_board.specs.declared.views.Role.TheVariants.{Leads, Works};
ghost use Rattle.node_board.specs.declared.views.View.{View};
ghost use Rattle.node_board.specs.Coding.{claim_word, stop_word, coded, decoded};
ghost use Rattle.node_board.specs.Known.{IsTold, Tells, HasFlows, state_in, unsettled_known, nodes_opened};
ghost use Rattle.node_board.specs.Opening.{first_words, first_view};
ghost use Rattle.node_board.specs.Plays.{looked, took, at_work, at_plan, reset_once, DonePlay, after_split, new_seat};
ghost use Rattle.node_board.specs.Plays.{Shuts, trial_of, unsettled_of};
ghost use Rattle.node_board.specs.Rule.{IsRuled};
ghost use Rattle.node_board.specs.Steps.{Keeps, KeepsSplit, ended, flow_place, head_place, load_place};
ghost use Rattle.node_board.specs.Steps.{AskedWhenLoaded, Loads, Deposits, Rests, IsReset};

use phase_law::PhaseLaw;

/// A board meets its rule as it is opened, with the lead's seat alone, and still does when seats are split from it: the
/// lead knows of the seat, and the new one has done nothing. At most 1,000,000 are split.
pub fn boards_open_by_the_rule<P: PhaseLaw>()
    ensures opened { (law : Law) (key : P)
        → IsRuled law key (opening {S = Unit {0}} (first_words law) [] (first_view law key)) }
    ensures split { (law : Law) (key : P) (v : View P) (plan : Plan) → IsLaw law → v.role ≡ Leads plan
        → plan.splits < 1_000_000 → KeepsSplit law key v (after_split v) (new_seat v) }
{}

/// Each step of a worker keeps the rule, whatever the other seats do before it and after it: looks and claims, loads,
/// deposits in sums, offers of a time, flows and heads that are put, marks of unsettled nodes, and ends of items. After
/// the last load the law may be asked.
pub fn workers_keep_the_rule<P: PhaseLaw>()
    ensures look { (law : Law) (key : P) (v : View P) (w : Work) → IsLaw law → v.role ≡ Works w → w.stage ≡ 0
        → Keeps law key v 0 (λ m. m) (λ m me. me ≡ (looked law m v, [])) }
    ensures claim { (law : Law) (key : P) (v : View P) (w : Work) → IsLaw law → v.role ≡ Works w → w.stage ≡ 0
        → 1 ≤ w.look → Keeps law key v 0 (λ m. (m + 1) % 2 ^ 64) (λ m me. me ≡ (took law m v, [])) }
    ensures load { (law : Law) (key : P) (v : View P) (w : Work) (act : Act) → IsLaw law → v.role ≡ Works w
        → Loads law w act → Keeps law key v (load_place law w + 1) (λ m. m) (λ m me.
        (me ≡ (at_work v (loaded_more w (decoded law (load_place law w) m)), []))
        × AskedWhenLoaded law (loaded_more w (decoded law (load_place law w) m))) }
    ensures deposit { (law : Law) (key : P) (v : View P) (w : Work) (act : Act) (d : Deposit) → IsLaw law
        → v.role ≡ Works w → Deposits law w act d
        → Keeps law key v (node_place law d.node (7 + d.sum) + 1) (λ m. (m + d.amount) % 2 ^ 64)
        (λ m me. me ≡ (at_work v (further w), [])) }
    ensures offer { (law : Law) (key : P) (v : View P) (w : Work) (time : ℕ) → IsLaw law → v.role ≡ Works w
        → CanWork law w OfferTime → AsksLink law w → pos time ≡ (share_at law w).time
        → Keeps law key v (least_place law + 1) (λ m. min m time) (λ m me. me ≡ (at_work v (further w), [])) }
    ensures flow { (law : Law) (key : P) (v : View P) (w : Work) (n : ℕ) → IsLaw law → v.role ≡ Works w
        → CanWork law w PutFlow → AsksLink law w → n ≡ coded law (flow_place w) (share_at law w).q
        → Keeps law key v (flow_place w + 1) (λ m. n) (λ m me. me ≡ (at_work v (further w), [])) }
    ensures head { (law : Law) (key : P) (v : View P) (w : Work) (n : ℕ) → IsLaw law → v.role ≡ Works w
        → CanWork law w PutHead → AsksNode law w → n ≡ coded law (head_place law w) (next_at law w).head
        → Keeps law key v (head_place law w + 1) (λ m. n) (λ m me. me ≡ (at_work v (further w), [])) }
    ensures mark { (law : Law) (key : P) (v : View P) (w : Work) → IsLaw law → v.role ≡ Works w
        → CanWork law w MarkUnsettled
        → Keeps law key v (unsettled_place + 1) (λ m. (m + 1) % 2 ^ 64) (λ m me. me ≡ (at_work v (further w), [])) }
    ensures end { (law : Law) (key : P) (v : View P) (w : Work) → IsLaw law → v.role ≡ Works w → CanWork law w Done
        → Keeps law key v (done_place + 1) (λ m. (m + 1) % 2 ^ 64) (λ m me. me ≡ (at_work v (ended w), [])) }
{}

/// Each step of the lead keeps the rule: a look at the count of done items, which closes the phase where all are done
/// and then tells all words; resets, words that are set, both openings, the stop, and reads of what the lead knows.
pub fn leads_keep_the_rule<P: PhaseLaw>()
    ensures done { (law : Law) (key : P) (v : View P) (plan : Plan) → IsLaw law → v.role ≡ Leads plan
        → plan.is_open ≡ true → Keeps law key v (done_place + 1) (λ m. m) (λ m me. DonePlay law plan v m me) }
    ensures reset { (law : Law) (key : P) (v : View P) (plan : Plan) (n : ℕ) → IsLaw law → v.role ≡ Leads plan
        → Rests plan → plan.resets < reset_count law plan.phase
        → n ≡ coded law (reset_place law plan.resets) (reset_value law plan.resets)
        → Keeps law key v (reset_place law plan.resets + 1) (λ m. n)
        (λ m me. me ≡ (at_plan v (reset_once law plan), [])) }
    ensures set { (law : Law) (key : P) (v : View P) (plan : Plan) (j : ℕ) (value : ℤ) (n : ℕ) → IsLaw law
        → v.role ≡ Leads plan → Rests plan → is_odd plan.phase ≡ false → IsRead law (written plan.phase) j
        → IsInRange law j value → n ≡ coded law j value → Keeps law key v (j + 1) (λ m. n)
        (λ m me. (me ≡ (at_plan v (record plan { known = slice_set plan.known j value }), []))
        × (length plan.known ≡ word_count law)) }
    ensures open_links { (law : Law) (key : P) (v : View P) (plan : Plan) (n : ℕ) → IsLaw law
        → v.role ≡ Leads plan → Rests plan → is_odd plan.phase ≡ false → IsReset law plan
        → n ≡ claim_word (plan.phase + 1) 0 → Keeps law key v 0 (λ m. n) (λ m me.
        me ≡ (at_plan v (record plan { phase = plan.phase + 1; is_open = true; opened = plan.known }), [])) }
    ensures open_nodes { (law : Law) (key : P) (v : View P) (plan : Plan) (n : ℕ) → IsLaw law
        → v.role ≡ Leads plan → Rests plan → is_odd plan.phase ≡ true → IsReset law plan
        → n ≡ claim_word (plan.phase + 1) 0 → Keeps law key v 0 (λ m. n)
        (λ m me. me ≡ (at_plan v (record plan { phase = plan.phase + 1; is_open = true }), [])) }
    ensures stop { (law : Law) (key : P) (v : View P) (plan : Plan) → IsLaw law → v.role ≡ Leads plan → Rests plan
        → Keeps law key v 0 (λ m. stop_word) (λ m me. me ≡ (at_plan v (record plan { stopped = true }), [])) }
    ensures read { (law : Law) (key : P) (v : View P) (plan : Plan) (j : ℕ) → IsLaw law → v.role ≡ Leads plan
        → plan.is_open ≡ false → j < word_count law → Keeps law key v (j + 1) (λ m. m)
        (λ m me. (me ≡ (v, [])) × (m ≡ coded law j (number plan.known j))) }
    ensures tell { (law : Law) (key : P) (v : View P) (plan : Plan) (j : ℕ) → IsLaw law → v.role ≡ Leads plan
        → plan.is_open ≡ false → IsTold law j → Keeps law key v (j + 1) (λ m. m)
        (λ m me. (me ≡ (v, [])) × Tells law plan j m) }
{}

/// Whatever the seats did, and in whatever order: what stands on the board once its phases are closed is made as one
/// worker makes it. After a phase of links the lead knows the flows, the sums and the least time of the trial of the
/// state that it opened, and after the phase of nodes the whole trial and its count of unsettled nodes.
///
/// The premises are what [`Board::open_links`](crate::Board::open_links), [`Board::close`](crate::Board::close) and
/// [`Board::open_nodes`](crate::Board::open_nodes) tell.
pub fn closed_phases_are_those_of_a_trial()
    ensures links { (law : Law) (s : Nets) (begun : Bool) (first links : Plan) → is_odd first.phase ≡ true
        → with_links law first.opened first.phase ≡ with_flows law s begun → Shuts law first links
        → HasFlows (state_in law links) (with_flows law s begun) }
    ensures nodes { (law : Law) (s : Nets) (begun : Bool) (first links nodes : Plan) → is_odd first.phase ≡ true
        → trial_of law first.opened first.phase ≡ trial law s begun
        → unsettled_of law first.opened first.phase ≡ unsettled_in law s begun
        → Shuts law first links → Shuts law (nodes_opened law links) nodes
        → (state_in law nodes ≡ trial law s begun) × (unsettled_known nodes ≡ pos (unsettled_in law s begun)) }
{}
