//! The service over a keeper: it answers one request, or a list of them.
ghost use Rattle.pawn_book.specs.Plans.{MayChange};
ghost use Rattle.pawn_book.specs.declared.request.View.TheVariants.{Pledge, Rows, Sheet};
ghost use Rattle.pawn_host.specs.Common.{Bearer, Present, Viewer, out_text};
ghost use Rattle.pawn_host.specs.Headline.{IsRunOfSlots};
ghost use Rattle.pawn_host.specs.Keeps.{IsActed, IsRun, ForEachStart, StaysOpen, States, answer_bytes, service_keep};
ghost use Rattle.pawn_host.specs.Keeps.{service_operator};
ghost use Rattle.pawn_host.specs.Views.{AnswersViewer, AnswersRequest, StatesView};
ghost use Rattle.std.specs.Prelude.{◌≡◌, IfOk, OnErr, map};
ghost use Rattle.pawn_reply.specs.declared.reply.Out.TheVariants as wire;

use pawn_book::{
    BearerRequest, Caller, Keep, Number, Receipts, Refusal, Reply, Request, RequestDay, Secret,
    Stamp, View, commit, gate, plan,
};
use pawn_csv::{RowWriter, export};
use pawn_reply::{Out, into_reply, write_reply};
use pawn_view::{show_day_sheet, show_presented, show_statement};
use pawn_wire::{Router, read_request};
use pawn_writing::{ViewFault, Writing};
use std::alloc::{AllocError, Global};

/// The answer to one request: the bytes of its reply, or `Memory`, in which case the caller sends `MEMORY_REPLY`.
#[derive(Drop)]
pub enum Answer {
    /// The bytes of the reply.
    Bytes(Vec<u8>),
    /// Memory ran out for the reply.
    Memory,
}

/// The service over a keeper of books. `operator` is the operator's key, which is needed to make books.
#[derive(Drop)]
pub struct Service<K> {
    /// The keeper, in the state after the requests so far.
    pub keep: K,
    pub(crate) operator: Secret,
    router: Router,
    pub(crate) alloc: Global,
}

/// Returns the answer with this content, or `Memory` if memory runs out for its bytes.
fn contents_answer(alloc: Global, out: Out) -> Answer
    ensures states { States result (out_text out) }
{
    match into_reply(alloc, out) {
        Ok(bytes) => Answer::Bytes(bytes),
        Err(_) => Answer::Memory,
    }
}

/// Returns the answer to a request that is refused.
fn refuse(alloc: Global, refusal: Refusal) -> Answer
    ensures states { States result (out_text (wire.Refused refusal)) }
{
    contents_answer(alloc, Out::Refused(refusal))
}

/// Returns the reply to a request that was done.
fn write_done(alloc: Global, reply: Reply) -> Result<Vec<u8>, AllocError>
    ensures text { IfOk result (λ v. v.items ≡ out_text (wire.Done reply)) }
{
    write_reply(alloc, &Out::Done(reply))
}

/// Returns the answer to a view: the text if it was written completely, and the refusal `unknown` if there is nothing
/// to show. Otherwise the answer is `Memory` or the refusal `Store`.
fn view_answer(alloc: Global, shown: Result<(), ViewFault>, text: Out, unknown: Refusal) -> Answer
    ensures states { StatesView result shown (out_text text) unknown }
{
    match shown {
        Ok(()) => contents_answer(alloc, text),
        Err(ViewFault::Unknown) => refuse(alloc, unknown),
        Err(ViewFault::Store) => refuse(alloc, Refusal::Store),
        // The text is built in memory, so a failed write means that memory ran out.
        Err(ViewFault::Memory) => Answer::Memory,
        Err(ViewFault::Write) => Answer::Memory,
    }
}

impl<K: Keep> Service<K> {
    /// Makes a service over this keeper. `operator` is the operator's key. Fails only if memory runs out.
    pub fn new(alloc: Global, keep: K, operator: Secret) -> Result<Service<K>, AllocError>
    where
        K: Drop,
        ensures keep { IfOk result (λ s. service_keep s ≡ keep) }
        ensures operator { IfOk result (λ s. service_operator s ≡ operator) }
    {
        match Router::new(alloc) {
            Ok(router) => Ok(Service {
                keep,
                operator,
                router,
                alloc,
            }),
            Err(_) => Err(AllocError),
        }
    }

    /// Returns the keeper, in the state after the requests so far.
    pub fn into_keep(self) -> K
        ensures keep { result ≡ service_keep self }
    {
        self.keep
    }

    /// Shows the pledges of these receipts to a bearer. The text is built in memory before the reply, because the head
    /// of the reply has its length.
    fn show_receipts(&mut self, stamp: &Stamp, book: Number, receipts: &Receipts) -> Answer
        ensures stays { StaysOpen K.keeping self.old self.new }
        ensures acted { AnswersRequest K.keeping self.old self.new stamp.now (record { book = book; caller = Bearer (Present receipts.now) }) result }
    {
        let mut writer = Writing::new(Vec::new(self.alloc));
        let day = stamp.day.day();
        let shown = show_presented(&mut self.keep, book, receipts.as_slice(), day, &mut writer);
        let text = Out::Plain(writer.into_inner());
        view_answer(self.alloc, shown, text, Refusal::NoSuchReceipt)
    }

    /// Checks the key of a book, and shows the view to the broker who has it.
    fn gate_and_show(&mut self, stamp: &Stamp, book: Number, key: Secret, view: View) -> Answer
        ensures stays { StaysOpen K.keeping self.old self.new }
        ensures acted { AnswersRequest K.keeping self.old self.new stamp.now (record { book = book; caller = Viewer key view }) result }
    {
        match gate(&mut self.keep, book, key) {
            Err(refusal) => return refuse(self.alloc, refusal),
            Ok(_) => {}
        }
        self.show_past_gate(stamp, book, key, view)
    }

    /// Shows a view of a book whose key has been checked.
    fn show_past_gate(&mut self, stamp: &Stamp, book: Number, key: Secret, view: View) -> Answer
        ensures stays { StaysOpen K.keeping self.old self.new }
        ensures acted { AnswersViewer K.keeping self.old self.new stamp.now book key view result }
    {
        match view {
            View::Pledge(number) => self.show_pledge(stamp, book, key, number),
            View::Sheet(day) => self.show_sheet(stamp, book, key, day),
            View::Rows => self.show_rows(stamp, book, key),
        }
    }

    /// Shows a pledge of a book whose key has been checked.
    fn show_pledge(&mut self, stamp: &Stamp, book: Number, key: Secret, number: Number) -> Answer
        ensures stays { StaysOpen K.keeping self.old self.new }
        ensures acted { AnswersViewer K.keeping self.old self.new stamp.now book key (Pledge number) result }
    {
        let mut writer = Writing::new(Vec::new(self.alloc));
        let day = stamp.day.day();
        let shown = show_statement(&mut self.keep, book, number, day, &mut writer);
        let text = Out::Plain(writer.into_inner());
        view_answer(self.alloc, shown, text, Refusal::NoSuchPledge)
    }

    /// Shows the sheet of a day of a book whose key has been checked.
    fn show_sheet(&mut self, stamp: &Stamp, book: Number, key: Secret, day: RequestDay) -> Answer
        ensures stays { StaysOpen K.keeping self.old self.new }
        ensures acted { AnswersViewer K.keeping self.old self.new stamp.now book key (Sheet day) result }
    {
        let mut writer = Writing::new(Vec::new(self.alloc));
        let shown = show_day_sheet(&mut self.keep, book, day.day(), &mut writer);
        let text = Out::Plain(writer.into_inner());
        view_answer(self.alloc, shown, text, Refusal::NoSuchBook)
    }

    /// Exports the rows of a book whose key has been checked.
    fn show_rows(&mut self, stamp: &Stamp, book: Number, key: Secret) -> Answer
        ensures stays { StaysOpen K.keeping self.old self.new }
        ensures acted { AnswersViewer K.keeping self.old self.new stamp.now book key Rows result }
    {
        let mut rows = RowWriter::new(self.alloc, Vec::new(self.alloc));
        let shown = export(&mut self.keep, book, &mut rows);
        let text = Out::Csv(rows.into_inner());
        view_answer(self.alloc, shown, text, Refusal::NoSuchBook)
    }

    /// Answers the request of a bearer.
    fn answer_bearer(&mut self, stamp: &Stamp, request: &Request, asked: &BearerRequest) -> Answer
        requires asks { request.now.caller ≡ Bearer asked.now }
        ensures stays { StaysOpen K.keeping self.old self.new }
        ensures acted { AnswersRequest K.keeping self.old self.new stamp.now request.now result }
    {
        match asked {
            BearerRequest::Present(receipts) => self.show_receipts(stamp, request.book, receipts),
            BearerRequest::OnPledge { .. } => self.act(stamp, request),
        }
    }

    /// Acts on a request that may change its book. The reply is built before the change is saved.
    fn act(&mut self, stamp: &Stamp, request: &Request) -> Answer
        requires changes { MayChange request.now.caller }
        ensures stays { StaysOpen K.keeping self.old self.new }
        ensures acted { AnswersRequest K.keeping self.old self.new stamp.now request.now result }
    {
        let (reply, done) = {
            let planned = match plan(self.alloc, &mut self.keep, self.operator, stamp, request) {
                Ok(planned) => planned,
                Err(refusal) => return refuse(self.alloc, refusal),
            };
            let Ok(reply) = write_done(self.alloc, planned.reply) else {
                return Answer::Memory;
            };
            (reply, commit(&mut self.keep, &planned))
        };
        match done {
            Ok(()) => Answer::Bytes(reply),
            Err(refusal) => refuse(self.alloc, refusal),
        }
    }

    /// Answers a request.
    fn answer_request(&mut self, stamp: &Stamp, request: &Request) -> Answer
        ensures stays { StaysOpen K.keeping self.old self.new }
        ensures acted { AnswersRequest K.keeping self.old self.new stamp.now request.now result }
    {
        match &request.caller {
            Caller::Operator { .. } => self.act(stamp, request),
            Caller::Broker { .. } => self.act(stamp, request),
            Caller::Viewer { key, view } => self.gate_and_show(stamp, request.book, *key, *view),
            Caller::Bearer(asked) => self.answer_bearer(stamp, request, asked),
        }
    }

    /// Answers bytes that should be one whole request. If they are not, the answer reports their fault.
    pub fn answer_one(&mut self, stamp: &Stamp, bytes: &[u8]) -> Answer
        ensures stays { StaysOpen K.keeping self.old self.new }
        ensures acted { ForEachStart K.keeping self.old self.new (λ start. IsActed start stamp.now bytes.now (answer_bytes result)) }
    {
        let request = match read_request(self.alloc, &self.router, bytes) {
            Ok(request) => request,
            Err(fault) => return contents_answer(self.alloc, Out::Fault(fault)),
        };
        self.answer_request(stamp, &request)
    }

    /// Answers these requests in their order, each with its stamp. If memory runs out for the list of answers, the call
    /// fails before anything is done.
    pub fn run(&mut self, items: &[(Stamp, Vec<u8>)]) -> Result<Vec<Answer>, AllocError>
        ensures stays { StaysOpen K.keeping self.old self.new }
        ensures run { IfOk result (λ answers. ForEachStart K.keeping self.old self.new
            (λ start. IsRun start (map (λ p. (p.0, p.1.items)) items.now) (map answer_bytes answers.items))) }
        ensures headline { IfOk result (λ answers. ForEachStart K.keeping self.old self.new
            (λ start. IsRunOfSlots start (map (λ p. (p.0, p.1.items)) items.now) (map answer_bytes answers.items))) }
        ensures err { OnErr result (self.new ≡ self.old) }
    {
        let mut answers = Vec::with_capacity(self.alloc, items.len())?;
        for item in items {
            let answer = self.answer_one(&item.0, item.1.as_slice());
            answers.push_reserved(answer);
        }
        Ok(answers)
    }
}
