// What the lead reads while no phase is open.
ghost use Rattle.std.specs.Prelude.{◌≡◌, ◌+◌, ◌<◌, pos};
ghost use Rattle.fixed_num.specs.Lists.{number};
ghost use Rattle.phase_machine.specs.Places.{node_place};
ghost use Rattle.node_board.specs.Known.{state_in, unsettled_known};
ghost use Rattle.node_board.specs.Seen.{IsOf, plan_of};
ghost use Rattle.node_board.specs.Steps.{Rests};

use crate::board::{Board, Lead};
use crate::inputs::Sums;
use crate::places::{
    UNSETTLED, amount, least_word, link_word, node_word, signed_number, written_buffer,
};
use phase_law::PhaseLaw;

impl<P: PhaseLaw> Board<P> {
    /// The flow of a link in the state that the lead knows (cm³/s): after a close that of the trial, or what was set
    /// since. It takes no memory and waits for nobody.
    ///
    /// No phase is open, and the board wasn't stopped.
    pub fn read_flow(&self, lead: &mut Lead<P>, link: u32) -> i64
        requires from { IsOf self.now lead.old }
        requires rests { Rests (plan_of lead.old.view) }
        requires link { link < (P.law self.now.law).links }
        ensures same { lead.new ≡ lead.old }
        ensures flow { result ≡ number (state_in (P.law self.now.law) (plan_of lead.old.view)).flows link }
    {
        let word = link_word(link, 4 + written_buffer(lead.phase));
        signed_number(self.read(lead, word))
    }

    /// The head of a node in the state that the lead knows (µm): after the close of a phase of nodes that of the
    /// trial, or what was set since. It takes no memory and waits for nobody.
    ///
    /// No phase is open, and the board wasn't stopped.
    pub fn read_head(&self, lead: &mut Lead<P>, node: u32) -> i64
        requires from { IsOf self.now lead.old }
        requires rests { Rests (plan_of lead.old.view) }
        requires node { node < (P.law self.now.law).nodes }
        ensures same { lead.new ≡ lead.old }
        ensures head { result ≡ number (state_in (P.law self.now.law) (plan_of lead.old.view)).heads node }
    {
        let word = node_word(&self.law, node, 5 + written_buffer(lead.phase));
        signed_number(self.read(lead, word))
    }

    /// A sum of a node: 0 inflow, 1 outflow, 2 area.
    fn read_sum(&self, lead: &mut Lead<P>, node: u32, sum: u32) -> i64
        requires from { IsOf self.now lead.old }
        requires rests { Rests (plan_of lead.old.view) }
        requires node { node < (P.law self.now.law).nodes }
        requires sum { sum < 3 }
        ensures same { lead.new ≡ lead.old }
        ensures sum { let place = node_place (P.law self.now.law) node (7 + sum) in
            result ≡ number (plan_of lead.old.view).known place }
    {
        let word = node_word(&self.law, node, 7 + sum);
        amount(self.read(lead, word))
    }

    /// The sums of a node in the state that the lead knows: inflow and outflow (cm³/s) and area (mm²), after a close
    /// those of the trial. It takes no memory and waits for nobody.
    ///
    /// No phase is open, and the board wasn't stopped.
    pub fn read_sums(&self, lead: &mut Lead<P>, node: u32) -> Sums
        requires from { IsOf self.now lead.old }
        requires rests { Rests (plan_of lead.old.view) }
        requires node { node < (P.law self.now.law).nodes }
        ensures same { lead.new ≡ lead.old }
        ensures inflow { result.inflow
            ≡ number (state_in (P.law self.now.law) (plan_of lead.old.view)).inflows node }
        ensures outflow { result.outflow
            ≡ number (state_in (P.law self.now.law) (plan_of lead.old.view)).outflows node }
        ensures area { result.area ≡ number (state_in (P.law self.now.law) (plan_of lead.old.view)).areas node }
    {
        let inflow = self.read_sum(lead, node, 0);
        let outflow = self.read_sum(lead, node, 1);
        let area = self.read_sum(lead, node, 2);
        Sums {
            inflow,
            outflow,
            area,
        }
    }

    /// The least time in the state that the lead knows (ms), after a close that of the trial. It takes no memory and
    /// waits for nobody.
    ///
    /// No phase is open, and the board wasn't stopped.
    pub fn least(&self, lead: &mut Lead<P>) -> i64
        requires from { IsOf self.now lead.old }
        requires rests { Rests (plan_of lead.old.view) }
        ensures same { lead.new ≡ lead.old }
        ensures least { result ≡ (state_in (P.law self.now.law) (plan_of lead.old.view)).least }
    {
        let word = least_word(&self.law);
        amount(self.read(lead, word))
    }

    /// The count of unsettled nodes that the lead knows, after the close of a phase of nodes that of the trial. It
    /// takes no memory and waits for nobody.
    ///
    /// No phase is open, and the board wasn't stopped.
    pub fn unsettled(&self, lead: &mut Lead<P>) -> u64
        requires from { IsOf self.now lead.old }
        requires rests { Rests (plan_of lead.old.view) }
        ensures same { lead.new ≡ lead.old }
        ensures count { pos result ≡ unsettled_known (plan_of lead.old.view) }
    {
        self.read(lead, UNSETTLED)
    }
}
