// A report that takes pieces, and says once whether all went out.
ghost use Rattle.std.specs.Prelude.{◌≡◌, ◌++◌, ℕ, List, Option, [], true, false, OnOk};
ghost use Rattle.fault_ports.specs.Causes.{HasCause};
ghost use Rattle.fault_ports.specs.Output.{Puts};
ghost use Rattle.fault_ports.specs.declared.faults.Faults.{Faults};
ghost use Rattle.report_port.specs.Standing.{Stands};

use crate::page::{Page, pass, put_page};
use crate::told::Told;
use fault_ports::{Failed, Sink};
use std::snapshot::Snapshot;

/// A text on its way into a sink: the page that is not yet put, whether a call of the sink failed, the sink as it was,
/// and, for clauses alone, the text so far. After a call that fails, the sink isn't called again.
pub struct Report<'a, W: Sink> {
    to: &'a mut W,
    page: Page,
    failed: bool,
    start: Snapshot<W>,
    told: Told,
    ghost stands: { Stands (W.held start.value) (W.held to.now) (W.faults start.value) (W.faults to.now)
        failed page.items told.text },
}

impl<'a, W: Sink> Report<'a, W> {
    ghost use Rattle.report_port.specs.Adding.{Adds};

    /// A report of no text into this sink, which is not yet called.
    pub fn new(to: &'a mut W) -> Report<'a, W>
        ensures same { result.to.ghost_name ≡ to.entry.ghost_name }
        ensures start { result.start.value ≡ to.old }
        ensures text { result.told.text ≡ [] }
    {
        let start = Snapshot::of(&*to);
        Report {
            to,
            page: Page::new(),
            failed: false,
            start,
            told: Told::new(),
        }
    }

    /// Adds a piece. Where the page has no room for it, the page is put first.
    pub fn add(&mut self, piece: &[u8])
        ensures { Adds self.old self.new piece.now }
    {
        add_parts(
            self.to,
            &mut self.page,
            &mut self.failed,
            &mut self.told,
            piece,
        );
    }

    /// Whether a call of the sink failed. No other is made then.
    pub fn has_failed(&self) -> bool
        ensures { result ≡ self.now.failed }
    {
        self.failed
    }

    /// Puts what is left, and says whether all was put: the text of the report at `Ok`, and a front of it at `Err`,
    /// which comes only where a call of the sink failed. A part of which the text is all, or a front where a call
    /// failed, is put so too.
    pub fn end(&mut self) -> Result<(), Failed>
        ensures kept { Adds self.old self.new [] }
        ensures failed { OnOk result (self.old.failed ≡ false) }
        ensures part { (part rest : List ℕ) → self.old.told.text ++ rest ≡ part
            → (self.old.failed ≡ false → rest ≡ [])
            → Puts (W.held self.new.start.value) (W.held self.new.to.now) part result }
        ensures bytes { Puts (W.held self.new.start.value) (W.held self.new.to.now) self.new.told.text result }
        ensures cause { HasCause (W.faults self.new.start.value) (W.faults self.new.to.now) result }
    {
        flush_parts(self.to, &mut self.page, &mut self.failed);
        if self.failed { Err(Failed) } else { Ok(()) }
    }
}

impl<W: Sink> Drop for Report<'_, W> {
    fn drop(self)
        ensures { self.exit.0.now ≡ self.entry.to.now }
    {
        let Report {
            to,
            page: _,
            failed: _,
            start: _,
            told: _,
        } = self;
        let _ = &*to;
    }
}

// Adds a piece to a report in its parts.
fn add_parts<W: Sink>(to: &mut W, page: &mut Page, failed: &mut bool, told: &mut Told, piece: &[u8])
    ensures text { told.new.text ≡ told.old.text ++ piece.now }
    ensures quiet { failed.old ≡ true → (to.new ≡ to.old) × (failed.new ≡ true) }
    ensures stands { (before : Option (List ℕ)) (faults : Faults)
        → Stands before (W.held to.old) faults (W.faults to.old) failed.old page.old.items told.old.text
        → Stands before (W.held to.new) faults (W.faults to.new) failed.new page.new.items told.new.text }
{
    told.add(piece);
    if *failed {
        return;
    }
    *failed = pass(to, page, piece).is_err();
}

// Puts the page of a report in its parts.
fn flush_parts<W: Sink>(to: &mut W, page: &mut Page, failed: &mut bool)
    ensures emptied { failed.new ≡ false → page.new.items ≡ [] }
    ensures quiet { failed.old ≡ true → (to.new ≡ to.old) × (failed.new ≡ true) }
    ensures stands { (before : Option (List ℕ)) (faults : Faults) (text : List ℕ)
        → Stands before (W.held to.old) faults (W.faults to.old) failed.old page.old.items text
        → Stands before (W.held to.new) faults (W.faults to.new) failed.new page.new.items text }
{
    if *failed {
        return;
    }
    *failed = put_page(to, page).is_err();
}
