// The page of a report, and how pieces pass over it.
ghost use Rattle.std.specs.Prelude.{◌≡◌, ◌++◌, [], if◌then◌else◌, OnOk};
ghost use Rattle.fault_ports.specs.Causes.{HasCause};
ghost use Rattle.report_port.specs.Pages.{Passes};

use arrayvec::ArrayVec;
use fault_ports::{Failed, Sink, put_all};

/// Bytes that are not yet put, 8 KiB at most.
pub type Page = ArrayVec<u8, 8192>;

// Puts the page, which is empty then.
pub(crate) fn put_page<W: Sink>(to: &mut W, page: &mut Page) -> Result<(), Failed>
    ensures bytes { Passes (W.held to.old) (W.held to.new) page.old.items page.new.items [] result }
    ensures emptied { OnOk result (page.new.items ≡ []) }
    ensures cause { HasCause (W.faults to.old) (W.faults to.new) result }
{
    match put_all(to, page.as_slice()) {
        Ok(()) => {
            page.clear();
            Ok(())
        }
        Err(failed) => Err(failed),
    }
}

// Passes a piece on: into the page where it has room, else into the page once that was put. A piece that no page has
// room for is put by itself.
pub(crate) fn pass<W: Sink>(to: &mut W, page: &mut Page, piece: &[u8]) -> Result<(), Failed>
    ensures bytes { Passes (W.held to.old) (W.held to.new) page.old.items page.new.items piece.now result }
    ensures cause { HasCause (W.faults to.old) (W.faults to.new) result }
{
    if takes(page, piece) {
        return Ok(());
    }
    match put_page(to, page) {
        Ok(()) => pass_on(to, page, piece),
        Err(failed) => Err(failed),
    }
}

// Passes a piece on over an empty page.
fn pass_on<W: Sink>(to: &mut W, page: &mut Page, piece: &[u8]) -> Result<(), Failed>
    requires { page.old.items ≡ [] }
    ensures bytes { Passes (W.held to.old) (W.held to.new) [] page.new.items piece.now result }
    ensures cause { HasCause (W.faults to.old) (W.faults to.new) result }
{
    if takes(page, piece) {
        return Ok(());
    }
    put_all(to, piece)
}

// Takes a piece into the page, where it has room for all of it.
fn takes(page: &mut Page, piece: &[u8]) -> bool
    ensures { page.new.items ≡ (if result then page.old.items ++ piece.now else page.old.items) }
{
    page.try_extend_from_slice(piece).is_ok()
}
