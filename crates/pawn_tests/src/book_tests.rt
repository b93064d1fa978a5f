//! Tests of books in lists. Each call of `ListKeep`, and each kind of request on a book, is run once. The script
//! `tests/answers/turns.py` shows all requests and their replies over tables.
use crate::acting::acted;
use pawn_book::{
    Article, BearerCommand, BearerRequest, Booking, BookingState, BrokerCommand, BrokerRequest,
    Caller, Capacity, Command, Decision, Done, Entry, Flow, Keep, Kind, Name, NewBook, NewTerms,
    Number, Opening, Paper, Pledge, PledgeRefusal, Rates, Receipt, Reference, Refusal, Reply,
    Request, RequestDay, Secret, Sort, Stamp, Status, TermsFault, Visitor, commit, find_live, gate,
    plan,
};
use pawn_check::{Counts, check};
use pawn_debt::DebtFault;
use pawn_list_keeper::ListKeep;
use pawn_terms::Day;
use std::alloc::Global;
use std::process::Abort;
use std::test::Fail;

mod imports;

const OPERATOR: u128 = 11;

const KEY: u128 = 22;

/// A request on book 7, which has capacity 1.
#[derive(Clone, Copy)]
enum Ask {
    /// The operator makes the book, with this key and this capacity.
    Make {
        operator: u128,
        capacity: u64,
    },
    /// The broker puts terms with this version and this rate, in millionths a day.
    Put {
        version: u64,
        rate: u64,
    },
    /// The broker takes a pledge for this sum in pence, under the reference with this number.
    Take {
        reference: u64,
        pence: u64,
    },
    /// The broker sends a command with the book's key.
    Broker {
        pledge: u64,
        command: Command,
    },
    /// The bearer sends a command with the receipt of this word.
    Bearer {
        pledge: u64,
        word: u128,
        command: Command,
    },
}

/// A request, the word of its stamp, and the answer that it should get.
#[derive(Clone, Copy)]
struct Turn {
    word: u128,
    ask: Ask,
    answer: Result<Reply, Refusal>,
}

fn asked(word: u128, ask: Ask, answer: Result<Reply, Refusal>) -> Turn {
    Turn { word, ask, answer }
}

fn number(n: u64) -> Result<Number, Fail> {
    Ok(Number::new(n).ok_or("no number")?)
}

fn receipt(n: u64, word: u128) -> Result<Receipt, Fail> {
    Ok(Receipt {
        number: number(n)?,
        secret: Secret::of_word(word),
    })
}

fn day() -> Result<RequestDay, Fail> {
    Ok(RequestDay::of_text(b"2024-01-31")?)
}

fn new_book(alloc: Global, capacity: u64) -> Result<NewBook, Fail> {
    Ok(NewBook {
        key: Secret::of_word(KEY),
        name: Name::of_str(alloc, "High Street")?.ok_or("no name")?,
        capacity: Capacity::new(capacity).ok_or("no capacity")?,
    })
}

fn opening(alloc: Global, reference: u64, pence: u64) -> Result<Opening, Fail> {
    let reference = match reference {
        1 => "A1",
        2 => "A2",
        _ => "A3",
    };
    Ok(Opening {
        reference: Reference::of_str(alloc, reference)?.ok_or("no reference")?,
        article: Article::of_str(alloc, "Gold ring")?.ok_or("no article")?,
        kind: Kind::Fixed(pence),
        agreed: None,
        five_days: false,
    })
}

fn caller_of(alloc: Global, ask: Ask) -> Result<Caller, Fail> {
    let asked = match ask {
        Ask::Make { operator, capacity } => {
            return Ok(Caller::Operator {
                key: Secret::of_word(operator),
                new_book: new_book(alloc, capacity)?,
            });
        }
        Ask::Bearer {
            pledge,
            word,
            command,
        } => {
            return Ok(Caller::Bearer(BearerRequest::OnPledge {
                receipt: receipt(pledge, word)?,
                command: BearerCommand::try_from(command)
                    .ok()
                    .ok_or("no bearer's command")?,
            }));
        }
        Ask::Put { version, rate } => BrokerRequest::PutTerms(NewTerms {
            version,
            rates: Rates {
                rate,
                keep_before: 0,
                keep_after: 0,
            },
        }),
        Ask::Take { reference, pence } => {
            BrokerRequest::TakePledge(opening(alloc, reference, pence)?)
        }
        Ask::Broker { pledge, command } => BrokerRequest::OnPledge {
            number: number(pledge)?,
            command: BrokerCommand::try_from(command)
                .ok()
                .ok_or("no broker's command")?,
        },
    };
    Ok(Caller::Broker {
        key: Secret::of_word(KEY),
        asked,
    })
}

fn request_of(alloc: Global, turn: &Turn) -> Result<Request, Fail> {
    let book = number(7)?;
    let caller = caller_of(alloc, turn.ask)?;
    Ok(Request { book, caller })
}

/// Returns the answer of a keeper to a turn, or `None` if the request only reads.
fn answer_to(
    alloc: Global,
    keep: &mut ListKeep,
    turn: &Turn,
) -> Result<Option<Result<Reply, Refusal>>, Fail> {
    let stamp = Stamp {
        day: day()?,
        word: turn.word,
    };
    let request = request_of(alloc, turn)?;
    let operator = Secret::of_word(OPERATOR);
    Ok(acted(alloc, keep, operator, &stamp, &request))
}

/// Checks that a keeper answers each turn as it should. A failure reports the place of the turn.
fn plays(rt: &impl Abort, alloc: Global, keep: &mut ListKeep, turns: &[Turn]) -> Result<(), Fail> {
    let mut place = 1usize;
    for turn in turns {
        let answer = answer_to(alloc, keep, turn)?;
        assert!(rt; answer == Some(turn.answer), "turn {place}");
        place = place.saturating_add(1);
    }
    Ok(())
}

fn make() -> Ask {
    Ask::Make {
        operator: OPERATOR,
        capacity: 1,
    }
}

fn put(version: u64, rate: u64) -> Ask {
    Ask::Put { version, rate }
}

fn take_pledge(reference: u64, pence: u64) -> Ask {
    Ask::Take { reference, pence }
}

fn broker(pledge: u64, command: Command) -> Ask {
    Ask::Broker { pledge, command }
}

fn bearer(pledge: u64, word: u128, command: Command) -> Ask {
    Ask::Bearer {
        pledge,
        word,
        command,
    }
}

/// Returns the reply to a command on the pledge of this number.
fn commanded(n: u64, done: Done) -> Result<Result<Reply, Refusal>, Fail> {
    Ok(Ok(Reply::Commanded {
        number: number(n)?,
        done,
    }))
}

#[test]
fn a_book_and_its_terms_are_made_once(rt: HostRuntime) -> Result<(), Fail> {
    let made = Ok(Reply::BookMade(number(7)?));
    let terms = Ok(Reply::TermsPut(1));
    let stranger = Ask::Make {
        operator: KEY,
        capacity: 1,
    };
    let other = Ask::Make {
        operator: OPERATOR,
        capacity: 2,
    };
    let rate = Err(Refusal::Terms(TermsFault::RateTooHigh));
    let turns = [
        asked(1, stranger, Err(Refusal::NotOperator)),
        asked(1, put(1, 0), Err(Refusal::NoSuchBook)),
        asked(1, make(), made),
        asked(1, make(), made),
        asked(1, other, Err(Refusal::BookTaken)),
        asked(1, take_pledge(1, 10_000), Err(Refusal::NoTerms)),
        asked(1, put(1, 0), terms),
        asked(1, put(1, 0), terms),
        asked(1, put(1, 5), Err(Refusal::TermsSeq)),
        asked(1, put(2, 20_001), rate),
    ];
    plays(
        &rt,
        rt.alloc(),
        &mut ListKeep::new(rt.alloc(), 1000),
        &turns,
    )
}

/// Returns a keeper with room for this many rows, whose book 7 has taken pledges 1 and 2 for 100 pounds each, with the
/// words 33 and 44.
fn pledges(rt: &impl Abort, alloc: Global, limit: u64) -> Result<ListKeep, Fail> {
    let turns = [
        asked(1, make(), Ok(Reply::BookMade(number(7)?))),
        asked(1, put(1, 0), Ok(Reply::TermsPut(1))),
        asked(
            33,
            take_pledge(1, 10_000),
            Ok(Reply::Opened(receipt(1, 33)?)),
        ),
        asked(
            44,
            take_pledge(2, 10_000),
            Ok(Reply::Opened(receipt(2, 44)?)),
        ),
    ];
    let mut keep = ListKeep::new(alloc, limit.min(1000));
    plays(rt, alloc, &mut keep, &turns)?;
    Ok(keep)
}

const REPAY: Command = Command::Repay {
    seq: 1,
    pence: 1000,
};

#[test]
fn a_store_is_checked_and_counted(rt: HostRuntime) -> Result<(), Fail> {
    let mut keep = pledges(&rt, rt.alloc(), 1000)?;
    let counts = Counts {
        books: 1,
        pledges: 2,
        rows: 6,
    };
    assert!(rt; check(&mut keep) == Ok(counts));
    Ok(())
}

/// Returns the answer that a repayment of pledge 1 should get.
fn repaid() -> Result<Result<Reply, Refusal>, Fail> {
    commanded(
        1,
        Done::Entered(Entry {
            seq: 1,
            day: day()?.day(),
            sort: Sort::Repay,
            pence: 1000,
        }),
    )
}

/// A repeated opening or repayment gets the same answer again, if the caller may ask. The bearer of a replaced receipt
/// may not.
#[test]
fn a_repeat_is_told_to_whoever_passes(rt: HostRuntime) -> Result<(), Fail> {
    let amount = Err(Refusal::Pledge(PledgeRefusal::Debt(DebtFault::BadAmount)));
    let declared = commanded(1, Done::Declared(Secret::of_word(99)))?;
    let turns = [
        asked(
            55,
            take_pledge(1, 10_000),
            Ok(Reply::Opened(receipt(1, 33)?)),
        ),
        asked(55, take_pledge(1, 10_001), Err(Refusal::RefTaken)),
        asked(55, take_pledge(3, 0), amount),
        asked(3, bearer(1, 33, REPAY), repaid()?),
        asked(99, broker(1, Command::Declare(Paper::Sworn)), declared),
        asked(3, bearer(1, 33, REPAY), Err(Refusal::NoSuchReceipt)),
        asked(3, bearer(1, 99, REPAY), repaid()?),
    ];
    let mut keep = pledges(&rt, rt.alloc(), 1000)?;
    plays(&rt, rt.alloc(), &mut keep, &turns)
}

/// A visitor that adds up the numbers of pledges, and stops after `left` of them.
#[derive(Drop)]
struct Sum {
    total: u32,
    left: u32,
}

impl Visitor<Pledge> for Sum {
    ghost use Rattle.std.specs.Prelude.{⊤};

    ghost step = { λ v p flow w. ⊤ };

    fn visit(&mut self, pledge: &Pledge) -> Flow {
        self.total = self.total.saturating_add(pledge.agreement().number.get());
        self.left = self.left.saturating_sub(1);
        if self.left == 0 {
            return Flow::Stop;
        }
        Flow::Go
    }
}

/// Returns the sum of the numbers of the first `left` pledges.
fn sum_of(keep: &mut ListKeep, left: u32) -> Result<u32, Fail> {
    let mut sum = Sum { total: 0, left };
    keep.walk(number(7)?, &mut sum)?;
    Ok(sum.total)
}

fn booked(n: u64, state: BookingState) -> Result<Result<Reply, Refusal>, Fail> {
    let day = day()?.day();
    commanded(
        n,
        Done::Booked(Booking {
            day,
            window: 3,
            state,
        }),
    )
}

const CONFIRM: Command = Command::DecideBooking(Decision::Confirm);

/// A booking that was confirmed is counted, and books and pledges are found.
#[test]
fn a_window_is_counted_over_all_pledges(rt: HostRuntime) -> Result<(), Fail> {
    let (book, wanted) = (number(7)?, day()?);
    let ask = Command::AskBooking {
        day: wanted,
        window: 3,
    };
    let turns = [
        asked(3, bearer(1, 33, ask), booked(1, BookingState::Asked)?),
        asked(3, broker(1, CONFIRM), booked(1, BookingState::Confirmed)?),
    ];
    let mut keep = pledges(&rt, rt.alloc(), 1000)?;
    plays(&rt, rt.alloc(), &mut keep, &turns)?;
    assert!(rt; counted(&mut keep, book, wanted.day())? == (1, 3, 1));
    assert!(rt; listed(&mut keep, book)? == (Some(book), None));
    Ok(())
}

/// Returns the confirmed bookings of the third window, and the sums of the numbers of the first nine pledges and of the
/// first one.
fn counted(keep: &mut ListKeep, book: Number, day: Day) -> Result<(u64, u32, u32), Fail> {
    let count = keep.confirmed_count(book, day, 3)?;
    Ok((count, sum_of(keep, 9)?, sum_of(keep, 1)?))
}

/// Returns the first book, and the one after this one.
fn listed(keep: &mut ListKeep, book: Number) -> Result<(Option<Number>, Option<Number>), Fail> {
    Ok((keep.next_book(None)?, keep.next_book(Some(book))?))
}

/// Returns the answer to a request that is planned and then committed, or `None` if the plan is refused.
fn made_of(
    alloc: Global,
    keep: &mut ListKeep,
    stamp: &Stamp,
    request: &Request,
) -> Option<Result<Reply, Refusal>> {
    if !request.caller.writes() {
        return None;
    }
    match plan(alloc, keep, Secret::of_word(OPERATOR), stamp, request) {
        Err(_) => None,
        Ok(planned) => Some(commit(keep, &planned).map(|()| planned.reply)),
    }
}

/// Checks that a turn's plan, once committed, gets the answer that the turn should get.
fn commits(rt: &impl Abort, alloc: Global, keep: &mut ListKeep, turn: &Turn) -> Result<(), Fail> {
    let stamp = Stamp {
        day: day()?,
        word: turn.word,
    };
    let request = request_of(alloc, turn)?;
    assert!(rt; made_of(alloc, keep, &stamp, &request) == Some(turn.answer));
    Ok(())
}

/// The last free row goes to a repayment. A plan for which no row is left is not committed.
#[test]
fn the_row_limit_comes_last(rt: HostRuntime) -> Result<(), Fail> {
    let alloc = rt.alloc();
    let last = asked(3, bearer(1, 33, REPAY), repaid()?);
    let full = asked(3, bearer(2, 44, REPAY), Err(Refusal::Full));
    let ahead = asked(3, put(3, 0), Err(Refusal::TermsSeq));
    let mut keep = pledges(&rt, alloc, 7)?;
    commits(&rt, alloc, &mut keep, &last)?;
    commits(&rt, alloc, &mut keep, &full)?;
    plays(&rt, alloc, &mut keep, &[full, ahead])
}

/// Returns whether a receipt of pledge 2 is live in a book.
fn is_live(keep: &mut ListKeep, book: u64, word: u128) -> Result<bool, Fail> {
    let found = find_live(keep, number(book)?, &receipt(2, word)?);
    let is_second = match &found {
        Ok(Some(pledge)) => pledge.agreement().number.get() == 2,
        _ => false,
    };
    Ok(is_second)
}

/// Returns whether this key opens the book, with its name and two pledges.
fn opens(keep: &mut ListKeep, key: u128) -> Result<bool, Fail> {
    match gate(keep, number(7)?, Secret::of_word(key)) {
        Ok(head) => Ok(head.pledges == 2 && head.name.as_str() == "High Street"),
        Err(_) => Ok(false),
    }
}

/// Returns whether pledge 2 is inside its period.
fn is_inside(keep: &mut ListKeep) -> Result<bool, Fail> {
    match keep.brief(number(7)?, number(2)?) {
        Ok(Some(brief)) => Ok(brief.status(day()?.day()) == Status::Inside),
        _ => Ok(false),
    }
}

/// The book opens by its key, a receipt is live in its book, and the pledge is inside its period.
#[test]
fn a_receipt_is_live_in_its_book_alone(rt: HostRuntime) -> Result<(), Fail> {
    let mut keep = pledges(&rt, rt.alloc(), 1000)?;
    let keep = &mut keep;
    assert_eq!(rt; (opens(keep, KEY)?, opens(keep, OPERATOR)?), (true, false));
    let live = (
        is_live(keep, 7, 44)?,
        is_live(keep, 7, 33)?,
        is_live(keep, 8, 44)?,
    );
    assert_eq!(rt; live, (true, false, false));
    assert!(rt; is_inside(keep)?);
    Ok(())
}
