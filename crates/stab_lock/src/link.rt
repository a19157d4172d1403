ghost use Rattle.std.specs.Prelude.{◌≡◌, List, [], IfOk, IfErr, OnOk};
ghost use Rattle.stab_core.specs.Link.{IsReason};
ghost use Rattle.stab_core.specs.LinkLaw.{LinkLaw};
ghost use Rattle.stab_core.specs.LinkSetup.{setup};
ghost use Rattle.stab_core.specs.Replay.{IsLawful, initial, replay, start_items};
ghost use Rattle.stab_core.specs.declared.event.Event.{Event};
ghost use Rattle.stab_ends.specs.Accounts.{new_sender, new_receiver};
ghost use Rattle.stab_lock.specs.Ends.{send_end, recv_end};
ghost use Rattle.stab_ends.specs.Agreement.{Agree};
ghost use Rattle.stab_lock.specs.Book.{book_of, state_of};
ghost use Rattle.stab_lock.specs.Scripted.{IsBookOf, IsNotedUnder};
ghost use Rattle.stab_lock.specs.Settling.{FirstDiffer};

use crate::book::LinkBook;
use crate::recv::LockRecv;
use crate::send::LockSend;
use crate::settle::Unsettled;
use crate::shared::SharedBook;
use stab_acts::Script;
use stab_core::{Start, StartFault};
use stab_ends::{RecvAccount, SendAccount, Settled};
use stab_frames::Params;
use std::alloc::Global;
use std::marker::Model;
use std::sync::Mutex;

/// A link behind a lock, for two ends that work on opposite sides of it. Contracts see its
/// parameters, its start and its script.
///
/// Beside the lock it keeps the book before any call, and the script, since of a value behind a
/// lock only what its type says is known.
pub struct LockLink {
    begun: LinkBook,
    script: Script,
    alloc: Global,
    book: Mutex<SharedBook>,
}

impl Drop for LockLink {
    fn drop(self) {
        let LockLink {
            begun: _,
            script: _,
            alloc: _,
            book: _,
        } = self;
    }
}

impl Model for LockLink {
    ghost use Rattle.std.specs.Prelude.{◌≡◌, []};
    ghost use Rattle.stab_core.specs.LinkSetup.{setup};
    ghost use Rattle.stab_lock.specs.Scripted.{LockSetup};

    ghost Value = { LockSetup };

    ghost view = { λ l. record {
      given = setup l.begun.params l.begun.start;
      script = l.script;
    } };

    ghost invariant = { λ l. l.begun.history ≡ [] };
}

impl LockLink {
    /// The link at its start, whose ends will follow this script; refused as a link is refused.
    pub fn new(
        alloc: Global,
        params: Params,
        start: Start,
        script: Script,
    ) -> Result<LockLink, StartFault>
        ensures given { IfOk result (λ link. link.given ≡ setup params start) }
        ensures script { IfOk result (λ link. link.script ≡ script) }
        ensures lawful { IfOk result (λ link. IsLawful params start) }
        ensures refused { IfErr result (IsReason params start) }
    {
        let (begun, book) = begun(alloc, params, start)?;
        let book = SharedBook::new(alloc, book, &script)?;
        Ok(LockLink {
            begun,
            script,
            alloc,
            book: Mutex::new(book),
        })
    }

    /// Makes room for this many more items in the lists behind the lock, as far as memory is there.
    pub fn reserve(&mut self, additional: usize)
        ensures { self.new ≡ self.old }
    {
        self.book.get_mut().reserve(additional);
    }

    /// The two ends of the link, with empty accounts. It takes no memory.
    pub fn split<R>(&self) -> (LockSend<'_, R>, LockRecv<'_, R>)
        ensures send { send_end result.0 ≡ record { account = new_sender } }
        ensures recv { recv_end result.1 ≡ record { account = new_receiver } }
    {
        (LockSend::new(self), LockRecv::new(self))
    }

    /// The allocator of the accounts of the ends.
    pub(crate) fn alloc(&self) -> Global {
        self.alloc
    }

    /// The lock.
    pub(crate) fn book(&self) -> &Mutex<SharedBook> {
        &self.book
    }

    /// The book that the lock kept: some calls of the ends noted it, each under the next act of its
    /// half of the script. It takes no memory.
    ///
    /// Of a value behind a lock only what its type says is known. So where the lock kept the book of
    /// another link, which no call puts there, this is the one before any call.
    pub fn into_book(self) -> LinkBook
        ensures { IsBookOf self.given.params self.given.start self.script result }
    {
        let LockLink {
            begun,
            script,
            alloc: _,
            book,
        } = self;
        book.into_inner().into_book(begun, &script)
    }

    /// Compares the accounts of both ends with the book, and hands both back where they agree. Then
    /// one list of events explains both, and is by the script: some calls of the ends noted it,
    /// each under the next act of its half. Where they do not agree, it hands back the book, and
    /// the first thing in which they differ from it.
    pub fn settle(self, send: SendAccount, recv: RecvAccount) -> Result<Settled, Unsettled>
        ensures send { IfOk result (λ settled. settled.send ≡ send) }
        ensures recv { IfOk result (λ settled. settled.recv ≡ recv) }
        ensures replay { let link = self.given in
            OnOk result ((events : List Event)
            × Agree (replay link.params (initial link.start) events) send recv
            × IsNotedUnder link.params link.start self.script events) }
        ensures law { let link = self.given in
            OnOk result (LinkLaw link.params.capacity (start_items link.start)
            send.offered send.acked recv.delivered) }
        ensures book { IfErr result (λ unsettled.
            IsBookOf self.given.params self.given.start self.script unsettled.book) }
        ensures differ { IfErr result (λ unsettled.
            FirstDiffer (state_of unsettled.book) send recv unsettled.why) }
    {
        self.into_book().settle(send, recv)
    }
}

/// Two books of a link at its start.
fn begun(alloc: Global, params: Params, start: Start) -> Result<(LinkBook, LinkBook), StartFault>
    ensures one { IfOk result (λ books. books.0 ≡ book_of params start []) }
    ensures other { IfOk result (λ books. books.1 ≡ book_of params start []) }
    ensures lawful { IfOk result (λ books. IsLawful params start) }
    ensures refused { IfErr result (IsReason params start) }
{
    let one = LinkBook::new(alloc, params, start)?;
    let other = LinkBook::new(alloc, params, one.start().copy(alloc)?)?;
    Ok((one, other))
}
