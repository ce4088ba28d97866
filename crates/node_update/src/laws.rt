ghost use Rattle.std.specs.Prelude.{◌≡◌, Bool, false, ℤ, ◌≤ℤ◌};
ghost use Rattle.node_update.specs.NodeLaws.{IsNodeLaw, is_outfall_rule};
ghost use Rattle.node_update.specs.NodeUpdate.{next_of};
ghost use Rattle.node_update.specs.declared.node_law.NodeLaw.{NodeLaw as Law};
ghost use Rattle.phase_law.specs.declared.values.NodeFixed.{NodeFixed};

/// Law: a junction or a storage whose last head was not above its top stays there, whatever comes in.
pub fn stays_below_its_top()
    ensures { (law : Law) (fixed : NodeFixed) (first : Bool) (inflow outflow area last : ℤ)
        → IsNodeLaw law → is_outfall_rule law.rule ≡ false
        → last ≤ℤ law.top → (next_of law fixed first inflow outflow area last).head ≤ℤ law.top }
{}
