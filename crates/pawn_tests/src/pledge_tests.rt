//! Each call that allocates memory is run once, and its answer is checked. The answers that the rules require are
//! proved, and worked out in `specs/Worked.antt`. The script `tests/answers/limits.py` reaches each limit once.
use pawn_pledge::{
    Article, Brief, Command, Day, Done, Kind, Number, Opening, Paper, Pledge, Receipt, Reference,
    RequestDay, Secret, Stamp, Terms,
};
use std::alloc::Global;
use std::process::Abort;
use std::test::Fail;

fn request_day(text: &[u8]) -> Result<RequestDay, Fail> {
    Ok(RequestDay::of_text(text)?)
}

fn day(text: &[u8]) -> Result<Day, Fail> {
    Ok(RequestDay::of_text(text)?.day())
}

fn opening(alloc: Global, kind: Kind) -> Result<Opening, Fail> {
    Ok(Opening {
        reference: Reference::of_str(alloc, "A1")?.ok_or("no reference")?,
        article: Article::of_str(alloc, "Gold ring")?.ok_or("no article")?,
        kind,
        agreed: None,
        five_days: false,
    })
}

/// Returns a pledge taken on 2024-01-31 without charges, whose first secret is 1.
fn pledge(alloc: Global, kind: Kind) -> Result<Pledge, Fail> {
    let terms = Terms::check(0, 0, 0)?;
    let number = Number::new(1).ok_or("no number")?;
    let day = request_day(b"2024-01-31")?;
    let stamp = Stamp { day, word: 1 };
    Ok(Pledge::start(alloc, number, opening(alloc, kind)?, 1, terms, &stamp)?)
}

/// Returns the answer of a pledge to a command on a day, with the word 2.
fn answer(pledge: &mut Pledge, text: &[u8], command: Command) -> Result<Done, Fail> {
    let day = request_day(text)?;
    Ok(pledge.apply(&Stamp { day, word: 2 }, &command)?)
}

/// Tenders a declaration, extends the period and makes a repayment.
fn uses(pledge: &mut Pledge) -> Result<(), Fail> {
    let until = request_day(b"2024-09-30")?;
    let repay = Command::Repay {
        seq: 1,
        pence: 1000,
    };
    answer(pledge, b"2024-03-01", Command::Declare(Paper::Sworn))?;
    answer(pledge, b"2024-04-01", Command::Extend { until })?;
    answer(pledge, b"2024-04-02", repay)?;
    Ok(())
}

/// Returns a pledge with a second secret, an extended period and a repayment.
fn used(alloc: Global) -> Result<Pledge, Fail> {
    let mut pledge = pledge(alloc, Kind::Fixed(10_000))?;
    match uses(&mut pledge) {
        Ok(()) => Ok(pledge),
        Err(fail) => Err(fail),
    }
}

/// Returns whether a drawing of this many pence becomes the only entry of a pledge that had none.
fn draws(pledge: &mut Pledge, pence: u64) -> Result<bool, Fail> {
    match answer(pledge, b"2024-01-31", Command::Draw { seq: 1, pence })? {
        Done::Entered(entry) => {
            Ok(entry.pence == pence && pledge.entries() == [entry].as_slice())
        }
        _ => Err("no entry".into()),
    }
}

#[test]
fn a_drawing_is_entered(rt: HostRuntime) -> Result<(), Fail> {
    let mut pledge = pledge(rt.alloc(), Kind::Running(8000))?;
    assert!(rt; draws(&mut pledge, 3000)?);
    Ok(())
}

#[test]
fn a_declaration_issues_the_live_secret(rt: HostRuntime) -> Result<(), Fail> {
    let pledge = used(rt.alloc())?;
    assert!(rt; pledge.live() == Some(Secret::of_word(2)));
    assert_eq!(rt; pledge.secrets().len(), 2);
    Ok(())
}

#[test]
fn an_extension_puts_the_end_off(rt: HostRuntime) -> Result<(), Fail> {
    let ends = day(b"2024-09-30")?;
    let pledge = used(rt.alloc())?;
    assert!(rt; pledge.ends() == ends);
    assert_eq!(rt; pledge.totals().principal, 9000);
    Ok(())
}

/// Checks that a brief has the article, the live secret and the count of the entries.
fn check_of_the_ring(rt: &impl Abort, brief: &Brief) {
    let fields = brief.fields();
    assert_eq!(rt; fields.agreement.opening.article.as_str(), "Gold ring");
    assert!(rt; fields.live == Some(Secret::of_word(2)));
    assert_eq!(rt; fields.counts.entries, 1);
}

#[test]
fn a_brief_is_of_its_pledge(rt: HostRuntime) -> Result<(), Fail> {
    let brief = {
        let pledge = used(rt.alloc())?;
        pledge.brief()
    };
    check_of_the_ring(&rt, &brief?);
    Ok(())
}

/// Returns whether a pledge made from the parts is like the pledge.
fn is_made_again(pledge: &Pledge, day: Day) -> Result<bool, Fail> {
    match Pledge::of_parts(pledge.parts()?) {
        Ok(again) => Ok(again.status(day) == pledge.status(day) && has_same_lists(&again, pledge)),
        Err(_) => Ok(false),
    }
}

/// Returns whether a copy, a brief, and a pledge made from the parts are like the pledge.
fn is_same_again(pledge: &Pledge, day: Day) -> Result<bool, Fail> {
    let copied = pledge.copy()?.status(day);
    let brief = pledge.brief()?.status(day);
    let is_again = is_made_again(pledge, day)?;
    Ok(copied == pledge.status(day) && brief == copied && is_again)
}

/// Returns whether two pledges have the same entries, secrets and extensions, and the same end of their periods.
fn has_same_lists(one: &Pledge, other: &Pledge) -> bool {
    one.entries() == other.entries()
        && one.secrets() == other.secrets()
        && one.extensions() == other.extensions()
        && one.ends() == other.ends()
        && one.live() == other.live()
}

#[test]
fn a_pledge_of_its_parts_is_the_pledge(rt: HostRuntime) -> Result<(), Fail> {
    let day = day(b"2024-08-01")?;
    assert!(rt; is_same_again(&used(rt.alloc())?, day)?);
    Ok(())
}

#[test]
fn the_text_of_a_receipt_reads_as_the_receipt(rt: HostRuntime) -> Result<(), Fail> {
    let text = "1-da41597c-5157-488d-7724-e03fb8d84a37";
    let receipt = Receipt::of_text(text.as_bytes())?;
    assert_eq!(rt; receipt.text(rt.alloc())?.as_str(), text);
    Ok(())
}
