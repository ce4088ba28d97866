// What a seat does, in room that was made before.
ghost use Rattle.std.specs.Prelude.{◌≡◌, ◌+◌, ◌<◌, ◌≤◌, [], ◌∷◌, ◌++◌, length, IfOk};
ghost use Rattle.phase_machine.specs.Core.{idle, finished_in};
ghost use Rattle.phase_machine.specs.Steps.{further, loaded_more};

use net_types::OutOfMemory;
use std::alloc::Global;
use std::marker::Model;

/// How many numbers an item loads at most.
const LOADS: usize = 10;

/// How many items a phase has at most.
const ITEMS: usize = 20_000;

/// What a seat does. Contracts see it as the machine's [`phase_machine::Work`]; it has room for the numbers of an item
/// and for all items of a phase.
#[derive(Debug, Drop)]
pub(crate) struct Seat {
    look: u64,
    tag: u64,
    stage: u64,
    item: u64,
    loaded: Vec<i64>,
    finished: Vec<u64>,
}

impl Model for Seat {
    ghost use Rattle.std.specs.Prelude.{◌≤◌, vec_capacity};
    ghost use Rattle.phase_machine.specs.declared.work.Work.{Work};

    ghost Value = { Work };

    ghost view = { λ s. record {
      look = s.look;
      tag = s.tag;
      stage = s.stage;
      item = s.item;
      loaded = s.loaded.items;
      finished = s.finished.items;
    } };

    ghost invariant = { λ s. (10 ≤ vec_capacity s.loaded) × (20_000 ≤ vec_capacity s.finished) };
}

impl Seat {
    /// A seat that has done nothing.
    pub(crate) fn idle(alloc: Global) -> Result<Seat, OutOfMemory>
        ensures { IfOk result (λ seat. seat ≡ idle) }
    {
        let loaded = Vec::with_capacity(alloc, LOADS)?;
        let finished = Vec::with_capacity(alloc, ITEMS)?;
        Ok(Seat {
            look: 0,
            tag: 0,
            stage: 0,
            item: 0,
            loaded,
            finished,
        })
    }

    /// The phase in which it saw that items are left, 0 if none.
    pub(crate) fn look(&self) -> u64
        ensures { result ≡ self.now.look }
    {
        self.look
    }

    /// The phase of its item.
    pub(crate) fn tag(&self) -> u64
        ensures { result ≡ self.now.tag }
    {
        self.tag
    }

    /// 0 while it has no item, else one more than the acts that it made on it.
    pub(crate) fn stage(&self) -> u64
        ensures { result ≡ self.now.stage }
    {
        self.stage
    }

    /// The number of its item.
    pub(crate) fn item(&self) -> u64
        ensures { result ≡ self.now.item }
    {
        self.item
    }

    /// The numbers that it loaded for its item.
    pub(crate) fn loaded(&self) -> &[i64]
        ensures { result.now ≡ self.now.loaded }
    {
        self.loaded.as_slice()
    }

    /// Keeps the phase in which it saw that items are left, or 0.
    pub(crate) fn keep_look(&mut self, look: u64)
        ensures { self.new ≡ record self.old { look = look } }
    {
        self.look = look;
    }

    /// Takes an item of a phase. What it finished in other phases is forgotten.
    pub(crate) fn take_item(&mut self, phase: u64, item: u64)
        ensures { self.new ≡ record {
          look = 0;
          tag = phase;
          stage = 1;
          item = item;
          loaded = [];
          finished = finished_in phase self.old;
        } }
    {
        if self.tag != phase {
            self.finished.clear();
        }
        self.loaded.clear();
        self.look = 0;
        self.tag = phase;
        self.stage = 1;
        self.item = item;
    }

    /// Has made one act more on its item.
    pub(crate) fn advance(&mut self)
        requires { self.old.stage ≤ 15 }
        ensures { self.new ≡ further self.old }
    {
        self.stage += 1;
    }

    /// Keeps a number that it loaded for its item.
    pub(crate) fn keep_load(&mut self, value: i64)
        requires stage { self.old.stage ≤ 15 }
        requires room { length self.old.loaded < 10 }
        ensures { self.new ≡ loaded_more self.old value }
    {
        self.loaded.push_reserved(value);
        self.stage += 1;
    }

    /// Has finished its item.
    pub(crate) fn finish(&mut self)
        requires { length self.old.finished < 20_000 }
        ensures { self.new ≡ record self.old { stage = 0; finished = self.old.finished ++ self.old.item ∷ [] } }
    {
        self.finished.push_reserved(self.item);
        self.stage = 0;
    }
}
