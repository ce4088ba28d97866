// What the atomic steps tell their seats.
ghost use Rattle.std.specs.Prelude.{◌≡◌, ◌-◌, [], true, slice_set, length};
ghost use Rattle.phase_machine.specs.Places.{word_count};
ghost use Rattle.phase_machine.specs.Steps.{further, loaded_more};
ghost use Rattle.node_board.specs.Coding.{decoded};
ghost use Rattle.node_board.specs.Known.{at_known, begun_links, begun_nodes, Tells};
ghost use Rattle.node_board.specs.Plays.{looked, took, at_work, at_plan, reset_once, DonePlay};
ghost use Rattle.node_board.specs.Seen.{plan_of};
ghost use Rattle.node_board.specs.Shows.{work_of};
ghost use Rattle.node_board.specs.Steps.{ended, load_place, AskedWhenLoaded};

use crate::views::View;
use atomic_table::Play;
use phase_law::PhaseLaw;

/// A look at the claim word.
pub(crate) struct Looking;

impl<P: PhaseLaw> Play<(), View<P>> for Looking {
    ghost then = { λ step me found after. after ≡ (looked (P.law me.0.law) found me.0, []) };
}

/// A claim.
pub(crate) struct Taking;

impl<P: PhaseLaw> Play<(), View<P>> for Taking {
    ghost then = { λ step me found after. after ≡ (took (P.law me.0.law) found me.0, []) };
}

/// The end of an item.
pub(crate) struct Ending;

impl<P: PhaseLaw> Play<(), View<P>> for Ending {
    ghost then = { λ step me found after. after ≡ (at_work me.0 (ended (work_of me.0)), []) };
}

/// An act on an item that loads nothing.
pub(crate) struct Working;

impl<P: PhaseLaw> Play<(), View<P>> for Working {
    ghost then = { λ step me found after. after ≡ (at_work me.0 (further (work_of me.0)), []) };
}

/// A load of an item.
pub(crate) struct Loading;

impl<P: PhaseLaw> Play<(), View<P>> for Loading {
    ghost then = { λ step me found after.
        let law = P.law me.0.law in
        let w = work_of me.0 in
        let value = decoded law (load_place law w) found in
        (after ≡ (at_work me.0 (loaded_more w value), [])) × AskedWhenLoaded law (loaded_more w value) };
}

/// The lead's look at the count of done items.
pub(crate) struct LookingDone;

impl<P: PhaseLaw> Play<(), View<P>> for LookingDone {
    ghost then = { λ step me found after. DonePlay (P.law me.0.law) (plan_of me.0) me.0 found after };
}

/// A reset by the lead.
pub(crate) struct Resetting;

impl<P: PhaseLaw> Play<(), View<P>> for Resetting {
    ghost then = { λ step me found after.
        after ≡ (at_plan me.0 (reset_once (P.law me.0.law) (plan_of me.0)), []) };
}

/// A word that the lead sets.
pub(crate) struct Setting;

impl<P: PhaseLaw> Play<(), View<P>> for Setting {
    ghost then = { λ step me stored after.
        let law = P.law me.0.law in
        let known = (plan_of me.0).known in
        (after ≡ (at_known me.0 (slice_set known (step.word - 1) (decoded law (step.word - 1) stored)), []))
        × (length known ≡ word_count law) };
}

/// The opening of a phase of links.
pub(crate) struct BeginningLinks;

impl<P: PhaseLaw> Play<(), View<P>> for BeginningLinks {
    ghost then = { λ step me found after. after ≡ (at_plan me.0 (begun_links (plan_of me.0)), []) };
}

/// The opening of a phase of nodes.
pub(crate) struct BeginningNodes;

impl<P: PhaseLaw> Play<(), View<P>> for BeginningNodes {
    ghost then = { λ step me found after. after ≡ (at_plan me.0 (begun_nodes (plan_of me.0)), []) };
}

/// The stop.
pub(crate) struct Stopping;

impl<P: PhaseLaw> Play<(), View<P>> for Stopping {
    ghost then = { λ step me found after. after ≡ (at_plan me.0 (record (plan_of me.0) { stopped = true }), []) };
}

/// A load of a word that the lead knows.
pub(crate) struct Reading;

impl<P: PhaseLaw> Play<(), View<P>> for Reading {
    ghost then = { λ step me found after.
        (after ≡ (me.0, [])) × Tells (P.law me.0.law) (plan_of me.0) (step.word - 1) found };
}
