// Laws of definitions.
ghost use Rattle.std.specs.Prelude.{◌≡◌, ℕ, ℤ, true, false, length, List as Sequence};
ghost use Rattle.net_types.specs.Sound.{IsSound};
ghost use Rattle.net_types.specs.declared.project.Project.{Project as ProjectOf};
ghost use Rattle.hotstart.specs.HotBytes.{hot_bytes};
ghost use Rattle.hotstart.specs.HotRanges.{IsHotState, IsKept};
ghost use Rattle.hotstart.specs.Layout.{is_old as is_old_file};
ghost use Rattle.hotstart.specs.Reading.{reading_of};
ghost use Rattle.hotstart.specs.WrittenBack.{AreBytes, AreNetsFor, HasThreeDepths, IsStateFor, Spells, SpellsOld};
ghost use Rattle.hotstart.specs.WrittenBack.{kept_state, migrated, old_bytes};
ghost use Rattle.hotstart.specs.declared.read.HotRead.TheVariants.{Good};
ghost use Rattle.hotstart.specs.declared.state.HotState.{HotState as State};

/// Law: a state has one spelling, and a file spells one state: two states that a file keeps as they are, and
/// whose bytes are equal, are equal.
pub fn bytes_have_one_state()
    ensures { (first second : State) → IsKept first → IsKept second
        → hot_bytes first ≡ hot_bytes second → first ≡ second }
{}

/// Law: a written file is read back: for a project of which it is a state, the bytes of a state that can be written are
/// read as that state, in which a depth or a number of infiltration above 10^15 is 10^15; a state without such numbers
/// is read as it was.
pub fn written_is_read_back()
    ensures kept { (project : ProjectOf) (state : State) → IsKept state → IsStateFor project state
        → reading_of project (hot_bytes state) ≡ Good state }
    ensures all { (project : ProjectOf) (state : State) → IsHotState state → HasThreeDepths state
        → IsStateFor project state → reading_of project (hot_bytes state) ≡ Good (kept_state state) }
{}

/// Law: a file of version 1 is read by its migration: the bytes of the heads of a project's nodes and the flows and
/// settings of its links are read as the state of these, with a least travel time of 0 and with subcatchments as at a
/// start without a hotstart.
pub fn old_file_is_migrated()
    ensures { (project : ProjectOf) (heads flows settings : Sequence ℤ) → IsSound project
        → AreNetsFor project heads flows settings
        → reading_of project (old_bytes (length project.subs) heads flows settings)
        ≡ Good (migrated project heads flows settings) }
{}

/// Law: a good file is the bytes of its state. Bytes of version 2 that are read as a state of a project are the bytes
/// that are written of this state, which has one head, flow, setting or state of runoff for each node, link and
/// subcatchment, all in their ranges; bytes of version 1 are those of the heads, flows and settings of the state, whose
/// least travel time and subcatchments are those of a migration. So, with the laws above, a file is good exactly where
/// it is the bytes of a state in range, and no two files of a version are read as one state.
pub fn good_file_is_written()
    ensures new { (project : ProjectOf) (file : Sequence ℕ) (state : State) → IsSound project → AreBytes file
        → is_old_file file ≡ false → reading_of project file ≡ Good state → Spells project file state }
    ensures old { (project : ProjectOf) (file : Sequence ℕ) (state : State) → AreBytes file
        → is_old_file file ≡ true → reading_of project file ≡ Good state → SpellsOld project file state }
{}
